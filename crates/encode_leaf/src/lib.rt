// The parts of the record writer: the elements of an entry, and one scalar or Pad put into the record.

#![tactic(auto)]

ghost use Rattle.std.specs.Prelude.{◌≡◌, Bool, true, false, ◌||◌, ◌&&◌, cond, List, ℕ, ◌+◌, ◌-◌, ◌*◌, ◌≤◌, min, max, pos, eqb, leb, length, replicate};
ghost use Rattle.codes.specs.Codes.{most};
ghost use Rattle.codes.specs.Refusals.{number_of, number_in};
ghost use Rattle.value.specs.Answer.{answered};
ghost use Rattle.items.specs.Items.{values};
ghost use Rattle.layout.specs.Layout.{unrepeated};
ghost use Rattle.walks.specs.Walk.{values_after};
ghost use Rattle.walks.specs.Writing.{table_length};
ghost use Rattle.encode_leaf.specs.Laying.{leaf, leaves, elements};
ghost use Rattle.encode_leaf.specs.Machine.{place_after, laid_in, behind, buffer_behind, elements_in, codec, room_in, put_width, mask_for, judged, outside, bytes_in, taking};

use codes::{ABSENT, Kind, MAX_RECORD, Refusal, Tag};
use decode_scalar::Field;
use items::{Item, ValueList, after};
use layout::{Entry, Layout};
use positions::{inside, sat_add, sat_mul};
use walks::field_of;

// What a part of the walk came to: one more than the furthest end of what was put, 0 where nothing was, and the bytes taken.
#[derive(Clone, Copy)]
pub struct Out {
    pub past: u64,
    pub taken: u64,
}

// ---- tables

// Whether a value of this tag is of the wanted one, or Null.
pub fn takes(tag: u64, wanted: u64) -> bool
    ensures { result ≡ taking tag wanted }
{
    tag == wanted || Tag::Null.is(tag)
}

// How many elements a table has: occurs, or under depending as many as the items from..to.
#[tactic(auto, unfolding(walks::specs::Writing::table_length))]
fn table_length(list: &ValueList, e: Entry, from: usize, to: usize) -> u64
    ensures { result ≡ table_length e (values list.now.items.now from to) }
{
    if e.depending == ABSENT {
        e.occurs as u64
    } else {
        list.members(from, to)
    }
}

// The elements of an entry: how many, and the items from..end that they are.
#[derive(Clone, Copy)]
pub struct Run {
    pub n: u64,
    pub from: usize,
    pub end: usize,
}

// The elements of an entry by the first of the items i..to: one, that value, or those of a table, the members of a List.
#[tactic(auto, unfolding(crate::specs::Machine::elements_in))]
pub fn elements_of(list: &ValueList, e: Entry, i: usize, to: usize) -> Result<Run, Refusal>
    ensures { answered result ≡ elements_in list.now.items.now e i to }
{
    if e.is_unrepeated() {
        return Ok(Run {
            n: 1,
            from: i,
            end: to,
        });
    }
    if !takes(list.fetch(i, to).tag, Tag::List.into()) {
        return Err(Refusal::WrongKind);
    }
    let end = list.item_end(i, to);
    let from = after(i, end);
    let n = table_length(list, e, from, end);
    Ok(Run { n, from, end })
}

// The place behind the item of an entry, which is at j; a Pad has none.
#[tactic(auto, using(crate::proofs::Inside::item_behind), unfolding(layout::specs::Layout::is_pad))]
pub fn values_after(list: &ValueList, e: Entry, j: usize, to: usize) -> usize
    ensures { (result ≡ place_after list.now.items.now e j to) × (values list.now.items.now result to ≡ values_after e (values list.now.items.now j to)) }
{
    if Kind::Pad.is(e.kind) {
        j
    } else {
        list.item_end(j, to)
    }
}

// Whether the element j of the items up to `end` is missing and took or put nothing, so that all behind it go alike.
pub fn settles(j: usize, end: usize, o: Out) -> bool
    ensures { result ≡ (leb end j && (eqb o.taken 0 || eqb o.past 0)) }
{
    end <= j && (o.taken == 0 || o.past == 0)
}

// ---- one scalar or Pad

// The bytes that a record may have in a buffer.
pub fn room_of(bytes: usize) -> u64
    ensures { result ≡ min bytes most }
{
    bytes.min(MAX_RECORD) as u64
}

fn put_width(e: Entry) -> u64
    ensures { result ≡ put_width e }
{
    match Kind::try_from(e.kind) {
        Ok(Kind::Bool) => 1,
        Ok(Kind::Group) | Err(_) => 0,
        _ => e.width as u64,
    }
}

// The mask of an Edited, no bytes for any other entry.
fn mask_of(masks: &[u8], e: Entry) -> &[u8]
    ensures { result.now ≡ mask_for masks.now e }
{
    if !Kind::Edited.is(e.kind) {
        return &masks[..0];
    }
    walks::mask_of(masks, e)
}

// The question that refuses an item for an entry of this width.
#[tactic(auto, using(crate::proofs::Leaves::judged_there))]
fn judge_leaf(
    layout: &Layout,
    list: &ValueList,
    e: Entry,
    width: u64,
    it: Item,
) -> Result<(), Refusal>
    requires { width ≡ put_width e }
    ensures { number_in result ≡ judged layout.now.masks.now list.now.text.now e it }
{
    let mask = mask_of(layout.masks, e);
    encode_scalar::judge_scalar(
        field_of(e),
        mask,
        width as usize,
        it.into(),
        it.text_in(list.text),
    )
}

// An item judged, and put into its entry's stretch of the record if no question refuses it.
#[tactic(auto, using(crate::proofs::Leaves::judged_there, crate::proofs::Leaves::bytes_there, crate::proofs::Leaves::put_there))]
fn put_leaf(
    layout: &Layout,
    list: &ValueList,
    part: &mut [u8],
    e: Entry,
    it: Item,
) -> Result<(), Refusal>
    requires { length part.old ≡ put_width e }
    ensures value { number_in result ≡ judged layout.now.masks.now list.now.text.now e it }
    ensures part_after { part.new ≡ cond (eqb (number_in result) 0) (bytes_in layout.now.masks.now layout.now.page list.now.text.now e it) part.old }
{
    let mask = mask_of(layout.masks, e);
    encode_scalar::encode_scalar(
        part,
        field_of(e),
        mask,
        layout.page,
        it.into(),
        it.text_in(list.text),
    )
}

// What refuses an item for an entry that is not inside the room.
fn no_room(layout: &Layout, list: &ValueList, e: Entry, width: u64, it: Item) -> Refusal
    requires { width ≡ put_width e }
    ensures { number_of result ≡ outside (judged layout.now.masks.now list.now.text.now e it) }
{
    match judge_leaf(layout, list, e, width, it) {
        Ok(()) => Refusal::NoRoom,
        Err(refusal) => refusal,
    }
}

// One scalar or Pad, every entry but a group, by the item of its value; a refusal leaves the record as it was.
pub fn encode_leaf(
    layout: &Layout,
    list: &ValueList,
    record: &mut [u8],
    e: Entry,
    it: Item,
    at: u64,
) -> Result<Out, Refusal>
    ensures value { laid_in result «record».new ≡
        leaf (codec layout.now.masks.now layout.now.page list.now.text.now) (room_in «record».old) e it at «record».old }
    ensures record_after { «record».new ≡ behind «record».old
        (leaf (codec layout.now.masks.now layout.now.page list.now.text.now) (room_in «record».old) e it at «record».old) }
{
    let width = put_width(e);
    if !inside(room_of(record.len()), at, width) {
        return Err(no_room(layout, list, e, width, it));
    }
    let from = at as usize;
    let end = from + width as usize;
    put_leaf(layout, list, &mut record[from..end], e, it)?;
    Ok(Out {
        past: at + width + 1,
        taken: e.width as u64,
    })
}

// The elements of an entry that is no group. Kept beside the loop of encode_field: outside the cycle, its elements are written without a call of it.
pub fn encode_table(
    layout: &Layout,
    list: &ValueList,
    record: &mut [u8],
    e: Entry,
    run: Run,
    at: u64,
) -> Result<Out, Refusal>
    ensures value { laid_in result «record».new ≡
        elements (leaves (codec layout.now.masks.now layout.now.page list.now.text.now) (room_in «record».old) e)
        run.n (values list.now.items.now run.from run.end) at 0 0 «record».old }
    ensures record_after { «record».new ≡
        buffer_behind (leaves (codec layout.now.masks.now layout.now.page list.now.text.now) (room_in «record».old) e)
        run.n (values list.now.items.now run.from run.end) at «record».old }
{
    let mut j = run.from;
    let mut place = at;
    let mut taken: u64 = 0;
    let mut past: u64 = 0;
    for done in 0..run.n {
        let it = list.fetch(j, run.end);
        let next = list.item_end(j, run.end);
        let o = encode_leaf(layout, list, record, e, it, place)?;
        past = past.max(o.past);
        if settles(j, run.end, o) {
            return Ok(Out {
                past,
                taken: sat_add(taken, sat_mul(run.n - done, o.taken)),
            });
        }
        place = sat_add(place, o.taken);
        taken = sat_add(taken, o.taken);
        j = next;
    }
    Ok(Out { past, taken })
}
