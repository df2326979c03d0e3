// The record reader: a sequence reads fields, a field reads elements, a group element reads a sequence.

#![tactic(auto)]

ghost use Rattle.std.specs.Prelude.{◌≡◌, Bool, true, false, ◌&&◌, not, cond, eqb, List, [], ℕ, ◌+◌, ◌≤◌, pos, length, replicate};
ghost use Rattle.codes.specs.Codes.{most, element, tag_struct};
ghost use Rattle.codes.specs.Refusals.{number_in};
ghost use Rattle.layout.specs.Layout.{unrepeated_leaf, part, unrepeated};
ghost use Rattle.walks.specs.Walk.{how_many};
ghost use Rattle.walks.specs.Reading.{container, seq, field, table};
ghost use Rattle.positions.specs.Positions.{sat_sum};
ghost use Rattle.walks.specs.Records.{record_asks, reader_asks, read_into, RecordRead};
ghost use Rattle.decode_leaf.specs.Counts.{held_in};
ghost use Rattle.decode_leaf.specs.Machine.{kept, state, leaf_at, Met, Elements};
ghost use Rattle.decode.specs.Answered.{words_used, bytes_used, ReadFront};

use codes::{Kind, MAX_RECORD, Refusal, Tag};
use decode_leaf::{
    Out, decode_element, decode_lone, element_count, element_name, head_words, how_many, listed,
    start_counts, took_none,
};
use items::{ITEM_WORDS, Item, item_count};
use layout::{Entry, Layout};
use positions::sat_add;
use spans::end_of;

// What reading a record answers: the item words and the text bytes used.
#[derive(Clone, Copy)]
pub struct Reading {
    pub items: usize,
    pub text: usize,
}

// The entries lo up to hi, one after the other, from a base on.
// Kept: no `for`, since it needs where each entry ends.
// Kept: places one by one, as each call moves some of them.
#[cycle(decode_field_decode_one_decode_seq)]
fn decode_seq(
    layout: &Layout,
    record: &[u8],
    items: &mut [u64],
    text: &mut [u8],
    counts: &mut [i64],
    deps: bool,
    lo: usize,
    hi: usize,
    base: u64,
    told: usize,
) -> Result<Out, Refusal>
    requires told_in_bounds { told ≤ length text.old }
    requires record_len_bound { length «record».now ≤ most }
    ensures { Met
        (seq sat_sum (kept layout.now.words.now layout.now.page (length text.old) deps) «record».now (part layout.now.words.now lo hi) base 0 (length items.old)
        (state counts.old told text.old)) result items.new text.new counts.new }
{
    let mut i = lo;
    let mut shift: u64 = 0;
    let mut all = Out {
        used: 0,
        members: 0,
        taken: 0,
        told,
    };
    while i < hi {
        let e = layout.load(i);
        let end = end_of(e.span as u64, i, hi);
        let off = sat_add(e.offset as u64, shift);
        let at = sat_add(base, off);
        let rest = &mut items[all.used..];
        // Kept: two arms that end alike; one end behind both was tried, and misses the speed bar.
        if e.is_unrepeated_leaf() {
            let o = decode_lone(layout, record, rest, text, counts, deps, e, at, all.told)?;
            all = all.then(o, all.taken.max(sat_add(off, o.taken)));
            i = end;
            continue;
        }
        let o = decode_field(
            layout,
            record,
            rest,
            text,
            counts,
            deps,
            e,
            i + 1,
            end,
            at,
            all.told,
        )?;
        shift = sat_add(shift, o.taken.saturating_sub(e.reserved_width()));
        all = all.then(o, all.taken.max(sat_add(off, o.taken)));
        i = end;
    }
    Ok(all)
}

// A table of scalars or Pads. Kept beside the loop of decode_field: outside the cycle, its elements are read without a call of it.
// Kept: places one by one, as each call moves some of them.
fn decode_table(
    layout: &Layout,
    record: &[u8],
    items: &mut [u64],
    text: &mut [u8],
    counts: &[i64],
    e: Entry,
    at: u64,
    told: usize,
) -> Result<Out, Refusal>
    requires told_in_bounds { told ≤ length text.old }
    requires e_value { unrepeated e ≡ false }
    requires record_len_bound { length «record».now ≤ most }
    ensures { Elements
        (λ deps. table sat_sum e (leaf_at (kept layout.now.words.now layout.now.page (length text.old) deps) «record».now e element false)
        (how_many (λ name run. held_in layout.now.words.now name run) e counts.now) at (length items.old)
        (state counts.now told text.old)) result items.new text.new counts.now }
{
    let n = how_many(layout, counts, e)?;
    let head = head_words(false, Kind::Pad.is(e.kind));
    if items.len() < head {
        return Err(Refusal::NoRoom);
    }
    let mut place = at;
    let mut all = Out {
        used: head,
        members: 0,
        taken: 0,
        told,
    };
    for k in 0..n {
        let rest = &mut items[all.used..];
        let o = decode_element(layout.page, record, rest, text, e, place, all.told)?;
        if o.taken == 0 {
            return Err(Refusal::EmptyElement);
        }
        place = sat_add(place, o.taken);
        all = all.then(o, sat_add(all.taken, o.taken));
    }
    Ok(listed(items, e, head, all))
}

// An entry that is a table, or a group of the entries lo up to hi: the elements of a group, or the one.
// Kept: places one by one, as each call moves some of them.
#[cycle(decode_field_decode_one_decode_seq)]
fn decode_field(
    layout: &Layout,
    record: &[u8],
    items: &mut [u64],
    text: &mut [u8],
    counts: &mut [i64],
    deps: bool,
    e: Entry,
    lo: usize,
    hi: usize,
    at: u64,
    told: usize,
) -> Result<Out, Refusal>
    requires told_in_bounds { told ≤ length text.old }
    requires e_value { unrepeated_leaf e ≡ false }
    requires record_len_bound { length «record».now ≤ most }
    ensures { Met
        (field sat_sum (kept layout.now.words.now layout.now.page (length text.old) deps) «record».now e
        (λ b n s. seq sat_sum (kept layout.now.words.now layout.now.page (length text.old) deps) «record».now (part layout.now.words.now lo hi) b 0 n s) at (length items.old)
        (state counts.old told text.old)) result items.new text.new counts.new }
{
    if !Kind::Group.is(e.kind) {
        return decode_table(layout, record, items, text, counts, e, at, told);
    }
    let once = e.is_unrepeated();
    let name = element_name(e, once);
    let n = element_count(layout, counts, e)?;
    let head = head_words(once, false);
    if items.len() < head {
        return Err(Refusal::NoRoom);
    }
    let mut place = at;
    let mut all = Out {
        used: head,
        members: 0,
        taken: 0,
        told,
    };
    for k in 0..n {
        let rest = &mut items[all.used..];
        let o = decode_one(
            layout, record, rest, text, counts, deps, name, lo, hi, place, all.told,
        )?;
        if took_none(once, o.taken) {
            return Err(Refusal::EmptyElement);
        }
        place = sat_add(place, o.taken);
        all = all.then(o, sat_add(all.taken, o.taken));
    }
    Ok(listed(items, e, head, all))
}

// One group of the entries lo up to hi, under a name.
// Kept: places one by one, as each call moves some of them.
#[tactic(auto, using(crate::proofs::Steps::inside_small))]
#[cycle(decode_field_decode_one_decode_seq)]
fn decode_one(
    layout: &Layout,
    record: &[u8],
    items: &mut [u64],
    text: &mut [u8],
    counts: &mut [i64],
    deps: bool,
    name: u64,
    lo: usize,
    hi: usize,
    at: u64,
    told: usize,
) -> Result<Out, Refusal>
    requires told_in_bounds { told ≤ length text.old }
    requires record_len_bound { length «record».now ≤ most }
    ensures { Met
        (container name tag_struct (λ b n s. seq sat_sum (kept layout.now.words.now layout.now.page (length text.old) deps) «record».now (part layout.now.words.now lo hi) b 0 n s) at
        (length items.old) (state counts.old told text.old)) result items.new text.new counts.new }
{
    if items.len() < ITEM_WORDS {
        return Err(Refusal::NoRoom);
    }
    let rest = &mut items[ITEM_WORDS..];
    let o = decode_seq(layout, record, rest, text, counts, deps, lo, hi, at, told)?;
    let used = o.used + ITEM_WORDS;
    Item::header(name, Tag::Struct, o.members, item_count(used) as u64).put(items);
    Ok(Out {
        used,
        members: 1,
        taken: o.taken,
        told: o.told,
    })
}

// The question on the record itself.
fn ask_record(layout: &Layout, bytes: usize, deps: bool) -> Result<(), Refusal>
    ensures { number_in result ≡ record_asks layout.now.words.now bytes deps }
{
    if bytes <= MAX_RECORD && (deps || layout.record_length() <= bytes as u64) {
        Ok(())
    } else {
        Err(Refusal::RecordLength)
    }
}

// The questions before the walk: the first that fails.
fn ask(layout: &Layout, bytes: usize, work: usize, deps: bool) -> Result<(), Refusal>
    ensures { number_in result ≡ reader_asks layout.now.words.now layout.now.masks.now layout.now.page bytes work deps }
{
    layout.ask(work)?;
    ask_record(layout, bytes, deps)
}

// The questions, and then the walk: what was read stands at the front of the buffers.
fn read_front(
    layout: &Layout,
    record: &[u8],
    items: &mut [u64],
    text: &mut [u8],
    counts: &mut [i64],
) -> Result<Reading, Refusal>
    ensures { ReadFront (read_into layout.now.words.now layout.now.masks.now layout.now.page «record».now items.old text.old counts.old)
        result items.new text.new }
{
    let deps = layout.has_depending_on();
    ask(layout, record.len(), counts.len(), deps)?;
    start_counts(counts, deps);
    let all = decode_seq(
        layout,
        record,
        items,
        text,
        counts,
        deps,
        0,
        layout.entry_count(),
        0,
        0,
    )?;
    Ok(Reading {
        items: all.used,
        text: all.told,
    })
}

// Reads a record by a layout: the items and their texts, and zeros behind them; zeros alone after a refusal.
pub fn decode_record(
    layout: &Layout,
    record: &[u8],
    items: &mut [u64],
    text: &mut [u8],
    counts: &mut [i64],
) -> Result<Reading, Refusal>
    ensures { RecordRead (read_into layout.now.words.now layout.now.masks.now layout.now.page «record».now items.old text.old counts.old)
        (number_in result) (words_used result) (bytes_used result) items.old items.new text.old text.new counts.old counts.new }
{
    let answer = read_front(layout, record, items, text, counts);
    let used = answer.unwrap_or(Reading { items: 0, text: 0 });
    items[used.items..].fill(0);
    text[used.text..].fill(0);
    counts.fill(0);
    answer
}
