// The record writer: a sequence writes fields, a field writes elements, a group element writes a sequence.

#![tactic(auto)]

ghost use Rattle.std.specs.Prelude.{◌≡◌, ℕ, ◌/◌, ◌&&◌, ◌||◌, eqb, ltb, pos, length, replicate};
ghost use Rattle.std.specs.Result.{result_unwrap_or};
ghost use Rattle.codes.specs.Codes.{kind_pad};
ghost use Rattle.codes.specs.Refusals.{number_in};
ghost use Rattle.layout.specs.Layout.{part, entries, record_length, unrepeated, is_pad};
ghost use Rattle.items.specs.Items.{item_count, values};
ghost use Rattle.walks.specs.Records.{list_asks, writer_asks, written_into, RecordWritten, supplied};
ghost use Rattle.encode_leaf.specs.Laying.{group, field, start};
ghost use Rattle.encode_leaf.specs.Machine.{laid_in, codec, room_in};
ghost use Rattle.encode.specs.Order.{lone, heads, sought, value_of, Ahead};

use codes::{Kind, Refusal, Tag};
use encode_leaf::{
    Out, Run, elements_of, encode_leaf, encode_table, room_of, settles, takes, values_after,
};
use items::{ValueList, after};
use layout::{Entry, Layout};
use positions::{sat_add, sat_mul};
use spans::end_of;

// ---- items by name, at once where they stand in the entries' order

// Whether the first of the items i..to has the name.
#[tactic(auto, using(crate::proofs::Order::heads_at))]
fn has_name(list: &ValueList, name: u64, i: usize, to: usize) -> bool
    ensures { result ≡ heads name (values list.now.items.now i to) }
{
    i < to && list.fetch(i, to).name == name
}

// Where an entry's value is, at the sequence's end where there is none, and how far the items of its sequence were met in the entries' order: none in front of `next` has a name from
// `low` on.
// Kept: `find` answers so, and `fetch` gives a Null there, as the definitions do.
#[derive(Clone, Copy)]
struct Place {
    at: usize,
    next: usize,
    low: u64,
}

// Whether an entry is a Pad that is no table.
#[tactic(auto, unfolding(layout::specs::Layout::is_pad))]
fn is_lone_pad(e: Entry) -> bool
    ensures { result ≡ (is_pad e && unrepeated e) }
{
    Kind::Pad.is(e.kind) && e.is_unrepeated()
}

// The place of an entry's value in the sequence from..to, at `to` where there is none; f is the place of the entry before it.
fn place_of(list: &ValueList, e: Entry, from: usize, f: Place, to: usize) -> Place
    requires { Ahead (values list.now.items.now from to) (values list.now.items.now f.next to) f.low }
    ensures to_value { value_of e (values list.now.items.now from to) ≡ values list.now.items.now result.at to }
    ensures ahead { Ahead (values list.now.items.now from to) (values list.now.items.now result.next to) result.low }
{
    if is_lone_pad(e) {
        return Place { at: to, ..f };
    }
    let name = e.name as u64;
    if f.low <= name && has_name(list, name, f.next, to) {
        return Place {
            at: f.next,
            next: list.item_end(f.next, to),
            low: name + 1,
        };
    }
    Place {
        at: list.find(name, from, to),
        ..f
    }
}

// ---- the walk

// Whether an entry is one scalar or Pad, so no table and no group, and has no members.
#[tactic(auto, unfolding(crate::specs::Order::lone))]
fn is_lone_leaf(e: Entry) -> bool
    ensures { result ≡ lone e }
{
    e.is_unrepeated_leaf() && e.span <= 1
}

// The entries lo up to hi, one after the other, from a base on, by the items from..to. A scalar or Pad that is no table is written at once.
// Kept: no `for`, since it needs where each entry ends.
// Kept: places one by one, as each call moves some of them.
#[cycle(encode_field_encode_one_encode_seq)]
fn encode_seq(
    layout: &Layout,
    list: &ValueList,
    rec: &mut [u8],
    lo: usize,
    hi: usize,
    from: usize,
    to: usize,
    base: u64,
) -> Result<Out, Refusal>
    ensures { laid_in result rec.new ≡
        start (codec layout.now.masks.now layout.now.page list.now.text.now) (room_in rec.old) (part layout.now.words.now lo hi)
        (values list.now.items.now from to) base rec.old }
{
    let mut i = lo;
    let mut shift: u64 = 0;
    let mut taken: u64 = 0;
    let mut past: u64 = 0;
    let mut f = Place {
        at: to,
        next: from,
        low: 0,
    };
    while i < hi {
        let e = layout.load(i);
        let off = sat_add(e.offset as u64, shift);
        let at = sat_add(base, off);
        f = place_of(list, e, from, f, to);
        if is_lone_leaf(e) {
            let o = encode_leaf(layout, list, rec, e, list.fetch(f.at, to), at)?;
            taken = taken.max(sat_add(off, o.taken));
            past = past.max(o.past);
            i += 1;
            continue;
        }
        let end = end_of(e.span as u64, i, hi);
        let o = encode_field(layout, list, rec, e, i + 1, end, f.at, to, at)?;
        shift = sat_add(shift, o.taken.saturating_sub(e.reserved_width()));
        taken = taken.max(sat_add(off, o.taken));
        past = past.max(o.past);
        i = end;
    }
    Ok(Out { past, taken })
}

// An entry whose members are the entries lo up to hi, by the first of the items i..to: its elements, one or those of a table. The two calls for
// scalars and Pads, with values and without, compile to a smaller frame than one.
// Kept: places one by one, as each call moves some of them.
#[cycle(encode_field_encode_one_encode_seq)]
fn encode_field(
    layout: &Layout,
    list: &ValueList,
    rec: &mut [u8],
    e: Entry,
    lo: usize,
    hi: usize,
    i: usize,
    to: usize,
    at: u64,
) -> Result<Out, Refusal>
    ensures { laid_in result rec.new ≡
        field (codec layout.now.masks.now layout.now.page list.now.text.now) (room_in rec.old) e
        (start (codec layout.now.masks.now layout.now.page list.now.text.now) (room_in rec.old) (part layout.now.words.now lo hi))
        (values list.now.items.now i to) at rec.old }
{
    let run = elements_of(list, e, i, to)?;
    let end = run.end;
    if !Kind::Group.is(e.kind) {
        if run.from < end {
            return encode_table(layout, list, rec, e, run, at);
        }
        return encode_table(layout, list, rec, e, Run { from: end, ..run }, at);
    }
    let mut j = run.from;
    let mut place = at;
    let mut taken: u64 = 0;
    let mut past: u64 = 0;
    for done in 0..run.n {
        let o = encode_one(layout, list, rec, lo, hi, j, end, place)?;
        past = past.max(o.past);
        if settles(j, end, o) {
            return Ok(Out {
                past,
                taken: sat_add(taken, sat_mul(run.n - done, o.taken)),
            });
        }
        place = sat_add(place, o.taken);
        taken = sat_add(taken, o.taken);
        j = list.item_end(j, end);
    }
    Ok(Out { past, taken })
}

// One group of the entries lo up to hi, by the first of the items i..to.
// Kept: places one by one, as each call moves some of them.
#[cycle(encode_field_encode_one_encode_seq)]
fn encode_one(
    layout: &Layout,
    list: &ValueList,
    rec: &mut [u8],
    lo: usize,
    hi: usize,
    i: usize,
    to: usize,
    at: u64,
) -> Result<Out, Refusal>
    ensures { laid_in result rec.new ≡
        group (start (codec layout.now.masks.now layout.now.page list.now.text.now) (room_in rec.old) (part layout.now.words.now lo hi))
        (values list.now.items.now i to) at rec.old }
{
    if !takes(list.fetch(i, to).tag, Tag::Struct.into()) {
        return Err(Refusal::WrongKind);
    }
    let end = list.item_end(i, to);
    encode_seq(layout, list, rec, lo, hi, after(i, end), end, at)
}

// Whether an entry is a Pad, or its name is in the list.
fn has_value(e: Entry, j: usize, to: usize) -> bool
    ensures { result ≡ (eqb e.kind kind_pad || ltb j to) }
{
    Kind::Pad.is(e.kind) || j < to
}

// Where the item of an entry is seen, items in the entries' order being seen at once: at `next` if the item there has the name, or else at the
// first item that has it. For a Pad nothing is looked for.
#[tactic(auto, unfolding(layout::specs::Layout::is_pad))]
fn seek(list: &ValueList, e: Entry, next: usize, to: usize) -> usize
    ensures { values list.now.items.now result to ≡ sought e (values list.now.items.now next to) (values list.now.items.now 0 to) }
{
    if Kind::Pad.is(e.kind) || has_name(list, e.name as u64, next, to) {
        next
    } else {
        list.find(e.name as u64, 0, to)
    }
}

// Whether every top-level name but those of Pads is in the list.
fn supplies(layout: &Layout, list: &ValueList) -> bool
    ensures { result ≡ supplied (entries layout.now.words.now) (values list.now.items.now 0 (item_count list.now.items.now)) }
{
    let to = list.item_count();
    let mut next = 0;
    for (_, e) in layout.level(0, layout.entry_count()) {
        let j = seek(list, e, next, to);
        if !has_value(e, j, to) {
            return false;
        }
        next = values_after(list, e, j, to);
    }
    true
}

// The first question on the list that fails, by the layout's record length.
fn ask_list(layout: &Layout, list: &ValueList, least: u64, room: usize) -> Result<(), Refusal>
    requires { least ≡ record_length layout.now.words.now }
    ensures { number_in result ≡ list_asks layout.now.words.now list.now.items.now list.now.text.now room }
{
    list.check()?;
    if !supplies(layout, list) {
        return Err(Refusal::MissingName);
    }
    if room_of(room) < least {
        return Err(Refusal::NoRoom);
    }
    Ok(())
}

// The questions before the walk: the first that fails.
#[tactic(auto, unfolding(walks::specs::Records::writer_asks))]
fn asked(
    layout: &Layout,
    list: &ValueList,
    least: u64,
    room: usize,
    work: usize,
) -> Result<(), Refusal>
    requires { least ≡ record_length layout.now.words.now }
    ensures { number_in result ≡
        writer_asks layout.now.words.now layout.now.masks.now layout.now.page list.now.items.now list.now.text.now room work }
{
    layout.ask(work)?;
    ask_list(layout, list, least, room)
}

// Writes a record by a layout and a value list: its bytes, and zeros behind them; zeros alone after a refusal. The answer is the record's length.
pub fn encode_record(
    layout: &Layout,
    list: &ValueList,
    record: &mut [u8],
    counts: &mut [i64],
) -> Result<usize, Refusal>
    ensures { RecordWritten (written_into layout.now.words.now layout.now.masks.now layout.now.page list.now.items.now list.now.text.now «record».old counts.old)
        (number_in result) (result_unwrap_or result 0) «record».old «record».new counts.old counts.new }
{
    let least = layout.record_length();
    let questions = asked(layout, list, least, record.len(), counts.len());
    record.fill(0);
    counts.fill(0);
    questions?;
    match encode_seq(
        layout,
        list,
        record,
        0,
        layout.entry_count(),
        0,
        list.item_count(),
        0,
    ) {
        Ok(o) => Ok(least.max(o.past.saturating_sub(1)) as usize),
        Err(refusal) => {
            record.fill(0);
            Err(refusal)
        }
    }
}
