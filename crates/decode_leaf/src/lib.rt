// The parts of the record reader: the counts of a walk, one scalar or Pad with its item.

#![tactic(auto)]

ghost use Rattle.std.specs.Prelude.{◌≡◌, Bool, true, false, ◌||◌, ◌&&◌, not, cond, is_ok, List, [], ◌∷◌, ◌++◌, ℕ, ◌+◌, ◌-◌, ◌*◌, ◌/◌, ◌≤◌, ◌<◌, min, max, ◌^◌, ℤ, pos, eqb, leb, ltb, length, take, drop, get_or, set, replicate};
ghost use Rattle.codes.specs.Codes.{element};
ghost use Rattle.value.specs.Answer.{answered};
ghost use Rattle.walks.specs.Walk.{times, how_many, leaf};
ghost use Rattle.items.specs.Items.{item_words};
ghost use Rattle.layout.specs.Layout.{unrepeated, is_pad};
ghost use Rattle.walks.specs.Reading.{placed, scalar};
ghost use Rattle.decode_scalar.specs.Decode.{says, answer_of, text_after};
ghost use Rattle.decode_leaf.specs.Counts.{nat_of, first, status_of, held_in, note_in, set_in};
ghost use Rattle.decode_leaf.specs.Machine.{out, many_in, kept, state, leaf_at, Lone, Element, text_in, text_behind, Placed, Listed, head_of, moved_in, told_in};

use codes::{ABSENT, ELEMENT, Kind, Refusal, Tag};
use decode_scalar::Field;
use items::{ITEM_WORDS, Item, item_count};
use layout::{Entry, Layout};
use lists::put;
use positions::inside;
use value::Scalar;
use walks::field_of;

// What a part of the walk came to: the item words written, how many items these are at their own level, the bytes taken, and
// the text bytes so far.
#[derive(Clone, Copy)]
pub struct Out {
    pub used: usize,
    pub members: u64,
    pub taken: u64,
    pub told: usize,
}

impl Out {
    // This part and the next one behind it, which take so many bytes together.
    pub fn then(self, next: Out, taken: u64) -> Out
        requires used_fits { self.used + next.used < 2 ^ 64 }
        requires members_fit { self.members + next.members < 2 ^ 64 }
        ensures { result ≡ out (self.used + next.used) (self.members + next.members) taken next.told }
    {
        Out {
            used: self.used + next.used,
            members: self.members + next.members,
            taken,
            told: next.told,
        }
    }
}

// ---- counts: two words for each entry, used at the first entry of each name. The first word is 0 before the count is set,
// 1 for a count and 2 for a negative number, and the second is the count.

fn natural(x: i64) -> u64
    ensures { result ≡ nat_of x }
{
    u64::try_from(x).unwrap_or(0)
}

fn signed(x: u64) -> i64
    requires { x < 2 ^ 63 }
    ensures { result ≡ pos x }
{
    x as i64
}

// The place of the first entry of a name, and the number of entries where there is none.
fn first_of(layout: &Layout, name: u32) -> usize
    ensures { (result ≡ first layout.now.words.now name) × (result ≤ length layout.now.words.now / 12) }
{
    let n = layout.entry_count();
    for i in 0..n {
        if layout.words[i * 12] == name {
            return i;
        }
    }
    n
}

fn word_in(counts: &[i64], at: usize) -> u64
    ensures { result ≡ nat_of (get_or counts.now at (pos 0)) }
{
    natural(counts.get(at).copied().unwrap_or(0))
}

// Kept: a sign and a size as a Scalar holds them.
fn status(negative: bool, size: u64) -> u64
    ensures { result ≡ status_of negative size }
{
    if negative && 0 < size { 2 } else { 1 }
}

fn stored(size: u64) -> u64
    ensures { result ≡ min (2 ^ 63 - 1) size }
{
    size.min(value::INT_LIMIT - 1)
}

// The count that a number sets for its name.
// Kept: a sign and a size as a Scalar holds them.
#[tactic(auto, unfolding(crate::specs::Counts::set_in))]
fn set_count(layout: &Layout, counts: &mut [i64], name: u32, negative: bool, size: u64)
    ensures { counts.new ≡ set_in layout.now.words.now name negative size counts.old }
{
    let j = first_of(layout, name);
    put(counts, j * 2, signed(status(negative, size)));
    put(counts, j * 2 + 1, signed(stored(size)));
}

// What controls a table sets the count for its name, where some table depends on one.
#[tactic(auto, unfolding(crate::specs::Counts::note_in))]
pub fn note(layout: &Layout, counts: &mut [i64], deps: bool, e: Entry, v: Scalar)
    ensures { counts.new ≡ note_in layout.now.words.now deps e v counts.old }
{
    if deps && e.controls() {
        match v {
            Scalar::Int(negative, size) => set_count(layout, counts, e.name, negative, size),
            Scalar::Decimal(negative, size, _) => set_count(layout, counts, e.name, negative, size),
            _ => {}
        }
    }
}

// The count that the controller of this name holds.
#[tactic(auto, unfolding(crate::specs::Counts::held_in))]
fn held(layout: &Layout, counts: &[i64], name: u32) -> Result<u64, Refusal>
    ensures { many_in result ≡ held_in layout.now.words.now name counts.now }
{
    let j = first_of(layout, name);
    match word_in(counts, j * 2) {
        0 => Err(Refusal::NoController),
        2 => Err(Refusal::CountRange),
        _ => Ok(word_in(counts, j * 2 + 1)),
    }
}

// How many elements a table has: occurs, or under depending what the controller holds, at most occurs where given.
#[tactic(auto, unfolding(walks::specs::Walk::how_many))]
pub fn how_many(layout: &Layout, counts: &[i64], e: Entry) -> Result<u64, Refusal>
    ensures { many_in result ≡ how_many (λ name run. held_in layout.now.words.now name run) e counts.now }
{
    if e.depending == ABSENT {
        return Ok(e.occurs as u64);
    }
    let n = held(layout, counts, e.depending)?;
    if e.occurs != ABSENT && n > e.occurs as u64 {
        return Err(Refusal::CountRange);
    }
    Ok(n)
}

// ---- an entry's elements, and a table's own item

// How many elements an entry has: one where it is no table.
pub fn element_count(layout: &Layout, counts: &[i64], e: Entry) -> Result<u64, Refusal>
    ensures { many_in result ≡ cond (unrepeated e) (times 1) (how_many (λ name run. held_in layout.now.words.now name run) e counts.now) }
{
    if e.is_unrepeated() {
        Ok(1)
    } else {
        how_many(layout, counts, e)
    }
}

// The name of an element's item: 65,536 in a table.
pub fn element_name(e: Entry, once: bool) -> u64
    ensures { result ≡ cond once e.name element }
{
    if once { e.name as u64 } else { ELEMENT }
}

// Whether an element of a table took no byte.
pub fn took_none(once: bool, taken: u64) -> bool
    ensures { result ≡ (not once && eqb taken 0) }
{
    !once && taken == 0
}

// The words of a table's own item: a single entry and a table of Pads have none.
pub fn head_words(once: bool, pads: bool) -> usize
    ensures { result ≡ cond (once || pads) 0 item_words }
{
    if once || pads { 0 } else { ITEM_WORDS }
}

// A table's own item around its elements, which stand behind it and end at `used`; what has no own item stays as it is.
pub fn listed(items: &mut [u64], e: Entry, head: usize, all: Out) -> Out
    requires head_value { head ≡ head_of e }
    requires head_le_used { head ≤ all.used }
    requires used_in_bounds { all.used ≤ length items.old }
    ensures { Listed e all.used all.members all.taken all.told result items.old items.new }
{
    if head == 0 {
        return all;
    }
    let span = item_count(all.used) as u64;
    Item::header(e.name as u64, Tag::List, all.members, span).put(items);
    Out { members: 1, ..all }
}

// ---- one scalar or Pad

// What one item of a field of this width comes to.
fn one_item(width: u32, told: usize) -> Out
    ensures { result ≡ out item_words 1 width told }
{
    Out {
        used: ITEM_WORDS,
        members: 1,
        taken: width as u64,
        told,
    }
}

// The item of a scalar at the front; a text starts behind the texts so far.
fn place(items: &mut [u64], name: u64, width: u32, told: usize, v: Scalar) -> Result<Out, Refusal>
    requires { told_in told v < 2 ^ 63 }
    ensures { Placed (λ st. placed name true width (length items.old) (leaf (moved_in told v) st)) (told_in told v) width items.old result items.new }
{
    if items.len() < ITEM_WORDS {
        return Err(Refusal::NoRoom);
    }
    match v {
        Scalar::Text(_, count) => {
            Item::of_scalar(name, Scalar::Text(told as u64, count)).put(items);
            Ok(one_item(width, told + count as usize))
        }
        _ => {
            Item::of_scalar(name, v).put(items);
            Ok(one_item(width, told))
        }
    }
}

// The item of a single scalar at the front, and the count that it sets.
fn place_lone(
    layout: &Layout,
    items: &mut [u64],
    counts: &mut [i64],
    deps: bool,
    e: Entry,
    told: usize,
    v: Scalar,
) -> Result<Out, Refusal>
    requires { told_in told v < 2 ^ 63 }
    ensures placed { Placed (λ st. placed e.name true e.width (length items.old) (leaf (moved_in told v) st))
        (told_in told v) e.width items.old result items.new }
    ensures counts_after { counts.new ≡ cond (is_ok result) (note_in layout.now.words.now deps e v counts.old) counts.old }
{
    let o = place(items, e.name as u64, e.width, told, v)?;
    note(layout, counts, deps, e, v);
    Ok(o)
}

// The item of a table's element at the front.
fn place_element(items: &mut [u64], e: Entry, told: usize, v: Scalar) -> Result<Out, Refusal>
    requires { told_in told v < 2 ^ 63 }
    ensures { Placed (λ st. placed element false e.width (length items.old) (leaf (moved_in told v) st)) (told_in told v) e.width items.old result items.new }
{
    if e.width == 0 {
        return Err(Refusal::EmptyElement);
    }
    place(items, ELEMENT, e.width, told, v)
}

// What the bytes of a field say; a text goes behind the texts so far. A field is told by its words, so that no caller keeps an entry in memory.
fn read_part(
    record: &[u8],
    text: &mut [u8],
    page: u32,
    field: Field,
    width: u32,
    at: u64,
    told: usize,
) -> Result<Scalar, Refusal>
    requires width_in_bounds { at + width ≤ length «record».now }
    requires told_in_bounds { told ≤ length text.old }
    ensures result_value { answered result ≡ answer_of (says field.kind field.p field.q field.r page (take width (drop at «record».now))) (length text.old - told) }
    ensures text_after { text.new ≡ take told text.old ++ text_after (says field.kind field.p field.q field.r page (take width (drop at «record».now))) (drop told text.old) }
{
    let from = at as usize;
    let end = from + width as usize;
    decode_scalar::decode_scalar(field, page, &record[from..end], &mut text[told..])
}

// A Pad yields no item.
fn passed(width: u32, told: usize) -> Out
    ensures { result ≡ out 0 0 width told }
{
    Out {
        used: 0,
        members: 0,
        taken: width as u64,
        told,
    }
}

// One scalar or Pad that is no element of a table.
// Kept: places one by one, as each call moves some of them.
pub fn decode_lone(
    layout: &Layout,
    record: &[u8],
    items: &mut [u64],
    text: &mut [u8],
    counts: &mut [i64],
    deps: bool,
    e: Entry,
    at: u64,
    told: usize,
) -> Result<Out, Refusal>
    requires { told ≤ length text.old }
    ensures lone { Lone
        (leaf_at (kept layout.now.words.now layout.now.page (length text.old) deps) «record».now e e.name true at (length items.old)
        (state counts.old told text.old)) items.old counts.old result items.new text.new counts.new }
    ensures text_after { text.new ≡ text_behind layout.now.page «record».now e at told text.old }
{
    if !inside(record.len() as u64, at, e.width as u64) {
        return Err(Refusal::OutsideRecord);
    }
    if Kind::Pad.is(e.kind) {
        return Ok(passed(e.width, told));
    }
    let v = read_part(record, text, layout.page, field_of(e), e.width, at, told)?;
    place_lone(layout, items, counts, deps, e, told, v)
}

// One scalar or Pad that is an element of a table.
// Kept beside decode_lone: an element sets no count, and needs neither the layout nor the counts.
pub fn decode_element(
    page: u32,
    record: &[u8],
    items: &mut [u64],
    text: &mut [u8],
    e: Entry,
    at: u64,
    told: usize,
) -> Result<Out, Refusal>
    requires e_value { unrepeated e ≡ false }
    requires told_in_bounds { told ≤ length text.old }
    ensures element { Element (λ l deps. leaf_at (kept l page (length text.old) deps) «record».now e element false at (length items.old))
        told text.old items.old result items.new text.new }
    ensures text_after { text.new ≡ text_behind page «record».now e at told text.old }
{
    if !inside(record.len() as u64, at, e.width as u64) {
        return Err(Refusal::OutsideRecord);
    }
    if Kind::Pad.is(e.kind) {
        return Ok(passed(e.width, told));
    }
    let v = read_part(record, text, page, field_of(e), e.width, at, told)?;
    place_element(items, e, told, v)
}

// ---- zeros

// Zeros for the counts of a walk, where some table depends on one; else they stay as they were.
pub fn start_counts(counts: &mut [i64], deps: bool)
    ensures { counts.new ≡ cond deps (replicate (length counts.old) (pos 0)) counts.old }
{
    if deps {
        counts.fill(0);
    }
}
