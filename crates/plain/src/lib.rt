// Plain layouts decided: question by question, names by index, the other clauses in one walk of the tree.

#![tactic(auto)]

ghost use Rattle.std.specs.Prelude.{◌≡◌, ◌||◌, not, cond, List, ℕ, ◌+◌, ◌-◌, ◌≤◌, ◌<◌, length, set};
ghost use Rattle.layout.specs.Layout.{entry_count, present, part, entries, unrepeated, controls};
ghost use Rattle.walks.specs.Plain.{is_in, names_of, distinct, pad_ok, width_ok, sure, group_ok, plain};
ghost use Rattle.plain.specs.Ways.{names_from, own_ok, Walked};

use codes::{ABSENT, Kind};
use layout::{Entry, Layout};
use spans::end_of;

// ---- names

// Whether an entry from the i-th on has this name.
fn named_from(layout: &Layout, name: u32, i: usize) -> bool
    ensures { result ≡ is_in name (names_from layout.now.words.now i (entry_count layout.now.words.now - i)) }
{
    for j in i..layout.entry_count() {
        if name == layout.load(j).name {
            return true;
        }
    }
    false
}

// Whether no two entries have one name.
fn distinct_names(layout: &Layout) -> bool
    ensures { result ≡ distinct (names_of (entries layout.now.words.now)) }
{
    for i in 0..layout.entry_count() {
        if named_from(layout, layout.load(i).name, i + 1) {
            return false;
        }
    }
    true
}

// ---- one entry

// No Pad is itself under depending.
#[tactic(auto, unfolding(walks::specs::Plain::pad_ok, layout::specs::Layout::is_pad))]
fn pad_ok(e: Entry) -> bool
    ensures { result ≡ pad_ok e }
{
    !Kind::Pad.is(e.kind) || e.depending == ABSENT
}

// Widths of non-groups are from 1, of a Bool 1, of a Binary to 8.
#[tactic(auto, unfolding(walks::specs::Plain::width_ok))]
fn width_ok(e: Entry) -> bool
    ensures { result ≡ width_ok e }
{
    match Kind::try_from(e.kind) {
        Ok(Kind::Group) => true,
        Ok(Kind::Bool) => e.width == 1,
        Ok(Kind::Binary) => 1 <= e.width && e.width <= 8,
        _ => 1 <= e.width,
    }
}

// Whether one of the sequence of the entries lo up to hi is unrepeated and no group.
fn has_sure(layout: &Layout, lo: usize, hi: usize) -> bool
    ensures { result ≡ sure (part layout.now.words.now lo hi) }
{
    layout.level(lo, hi).any(|(_, e)| e.is_unrepeated_leaf())
}

// An entry whose members are the entries lo up to hi: a group has some, a repeated group an unrepeated one that is no group.
#[tactic(auto, using(crate::proofs::Clauses::some_part), unfolding(walks::specs::Plain::group_ok))]
fn group_ok(layout: &Layout, e: Entry, lo: usize, hi: usize) -> bool
    ensures { result ≡ group_ok e (part layout.now.words.now lo hi) }
{
    !Kind::Group.is(e.kind) || (lo < hi && (e.is_unrepeated() || has_sure(layout, lo, hi)))
}

// Whether an entry has no controller, or its controller is one of these.
#[tactic(auto, using(crate::proofs::Clauses::in_any))]
fn depends_ok(names: &[u32], e: Entry) -> bool
    ensures { result ≡ (not (present e.depending) || is_in e.depending names.now) }
{
    e.depending == ABSENT || names.contains(&e.depending)
}

// The clauses of an entry in its sequence: its members are the entries lo up to hi, it begins at an offset or behind it, and these controllers are known.
#[tactic(auto, unfolding(crate::specs::Ways::own_ok))]
fn own_ok(layout: &Layout, names: &[u32], e: Entry, lo: usize, hi: usize, from: u64) -> bool
    ensures { result ≡ own_ok from names.now e (part layout.now.words.now lo hi) }
{
    pad_ok(e)
        && width_ok(e)
        && group_ok(layout, e, lo, hi)
        && from <= e.offset as u64
        && depends_ok(names, e)
}

// ---- the stack of the controllers that are known; each turn of the walk has a height of its own, so the buffer and the height stay two things

// The height behind an entry: what the members of a repeated one put on the stack is dropped.
fn held_top(e: Entry, top: usize, inner: usize) -> usize
    ensures { result ≡ cond (unrepeated e) inner top }
{
    if e.is_unrepeated() { inner } else { top }
}

// Puts the name of a controller on the stack.
fn put_known(known: &mut [u32], top: usize, e: Entry) -> usize
    requires { top < length known.old }
    ensures value { result ≡ cond (controls e) (top + 1) top }
    ensures known_after { known.new ≡ cond (controls e) (set known.old top e.name) known.old }
{
    if e.controls() {
        known[top] = e.name;
        top + 1
    } else {
        top
    }
}

// ---- the tree

// The sequence of the entries lo up to hi, with the names below a height of the stack known: the height behind it, and none where a clause is not met.
// Kept: it needs where each entry ends, for its members, and `level` yields no ends.
fn walk(layout: &Layout, known: &mut [u32], lo: usize, hi: usize, top: usize) -> Option<usize>
    requires { top + (hi - lo) ≤ length known.old }
    ensures { Walked (part layout.now.words.now lo hi) top known.old result known.new }
{
    let mut i = lo;
    let mut from: u64 = 0;
    let mut high = top;
    while i < hi {
        let e = layout.load(i);
        let end = end_of(e.span as u64, i, hi);
        if !own_ok(layout, &known[..high], e, i + 1, end, from) {
            return None;
        }
        let inner = walk(layout, known, i + 1, end, high)?;
        let held = held_top(e, high, inner);
        high = put_known(known, held, e);
        from = e.offset as u64 + e.reserved_width();
        i = end;
    }
    Some(high)
}

// Whether a layout is plain.
pub fn is_plain(layout: &Layout) -> bool
    ensures { result ≡ plain layout.now.words.now layout.now.masks.now layout.now.page }
{
    if layout.check().is_err() || !distinct_names(layout) {
        return false;
    }
    let mut known = [0u32; 512];
    walk(layout, &mut known, 0, layout.entry_count(), 0).is_some()
}
