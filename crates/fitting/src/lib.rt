// Whether a value list with its texts fits a layout: a sequence goes by fields, a field by elements, a group element by a sequence.

#![tactic(auto)]

ghost use Rattle.std.specs.Prelude.{◌≡◌, true, false, ◌&&◌, ◌||◌, not, cond, eqb, leb, pos, length, replicate};
ghost use Rattle.codes.specs.Codes.{tag_text};
ghost use Rattle.codes.specs.Kinds.{word_of_tag};
ghost use Rattle.layout.specs.Layout.{work_for, part};
ghost use Rattle.items.specs.Items.{values, text_of, scalar_in};
ghost use Rattle.fits.specs.Decide.{fits_of};
ghost use Rattle.walks.specs.Kinds.{mask_of};
ghost use Rattle.walks.specs.Decide.{fitting};
ghost use Rattle.fitting.specs.Steps.{headed, good, tabled, leaf, one, field, seq};
ghost use Rattle.walks.specs.Walk.{values_after};
ghost use Rattle.fitting.specs.Machine.{fit_in};

use codes::{Kind, Tag};
use decode_leaf::{element_name, how_many, note};
use encode_leaf::values_after;
use fits::fits_scalar;
use items::{Item, ValueList, after};
use layout::{Entry, Layout};
use spans::end_of;
use walks::{field_of, mask_of};

// ---- one item

// Whether the first of the items j..to is a List or Struct of its members, under this name.
#[tactic(auto, using(crate::proofs::Asks::headed_at))]
fn is_holder(list: &ValueList, name: u64, tag: Tag, j: usize, to: usize) -> bool
    ensures { result ≡ headed name (word_of_tag tag) (values list.now.items.now j to) }
{
    let it = list.fetch(j, to);
    let end = list.item_end(j, to);
    j < to
        && it.name == name
        && tag.is(it.tag)
        && it.a == list.members(j + 1, end)
        && it.b == (end - j) as u64
}

// Whether an item's value fits an entry.
fn fits_item(layout: &Layout, list: &ValueList, e: Entry, it: Item) -> bool
    ensures { result ≡
        fits_of e.p e.q e.r e.s (mask_of layout.now.masks.now e) e.width e.kind (scalar_in it) (text_of list.now.text.now it) }
{
    let mask = mask_of(layout.masks, e);
    fits_scalar(
        field_of(e),
        mask,
        e.width as usize,
        it.scalar(),
        it.text_in(list.text),
    )
}

// Whether an item, if it is a text, begins behind the texts so far.
fn is_packed(it: Item, told: usize) -> bool
    ensures { result ≡ (not (eqb it.tag tag_text) || eqb it.a told) }
{
    !Tag::Text.is(it.tag) || it.a == told as u64
}

// Whether the first of the items j..to is a scalar that fits an entry, under this name.
#[tactic(auto, using(crate::proofs::Asks::good_at))]
fn is_good(
    layout: &Layout,
    list: &ValueList,
    e: Entry,
    name: u64,
    j: usize,
    to: usize,
    told: usize,
) -> bool
    ensures { result ≡ good layout.now.masks.now list.now.text.now e name (values list.now.items.now j to) told }
{
    let it = list.fetch(j, to);
    j < to
        && it.name == name
        && list.item_end(j, to) <= j + 1
        && it.is_lawful_scalar(list.text.len())
        && fits_item(layout, list, e, it)
        && is_packed(it, told)
}

// The length of a Text, 0 for any other item.
fn text_size(it: Item) -> u64
    ensures { result ≡ cond (eqb it.tag tag_text) it.b 0 }
{
    if Tag::Text.is(it.tag) { it.b } else { 0 }
}

// A scalar, the first of the items j..to, and the count that it sets: the text bytes so far, and none where it does not fit.
fn fit_leaf(
    layout: &Layout,
    list: &ValueList,
    counts: &mut [i64],
    e: Entry,
    j: usize,
    to: usize,
    told: usize,
) -> Option<usize>
    ensures { fit_in result counts.new ≡
        leaf layout.now.words.now layout.now.masks.now list.now.text.now e (values list.now.items.now j to) counts.old told }
{
    let name = element_name(e, e.is_unrepeated());
    if !is_good(layout, list, e, name, j, to, told) {
        return None;
    }
    let it = list.fetch(j, to);
    note(layout, counts, true, e, it.scalar());
    Some(told + text_size(it) as usize)
}

// Whether the first of the items j..to is a List of as many elements as a table has.
fn is_table(
    layout: &Layout,
    list: &ValueList,
    counts: &[i64],
    e: Entry,
    j: usize,
    to: usize,
) -> bool
    ensures { result ≡ tabled layout.now.words.now e (values list.now.items.now j to) counts.now }
{
    if !is_holder(list, e.name as u64, Tag::List, j, to) {
        return false;
    }
    let end = list.item_end(j, to);
    match how_many(layout, counts, e) {
        Ok(n) => n == list.members(after(j, end), end),
        Err(_) => false,
    }
}

// ---- the walk

// The entries lo up to hi and the items from..to, one after the other.
// Kept: no `for`, since it needs where each entry ends.
// Kept: places one by one, as each call moves some of them.
#[cycle(fit_field_fit_one_fit_seq)]
fn fit_seq(
    layout: &Layout,
    list: &ValueList,
    counts: &mut [i64],
    lo: usize,
    hi: usize,
    from: usize,
    to: usize,
    told: usize,
) -> Option<usize>
    ensures { fit_in result counts.new ≡
        seq layout.now.words.now layout.now.masks.now list.now.text.now (part layout.now.words.now lo hi)
        (values list.now.items.now from to) counts.old told }
{
    let mut i = lo;
    let mut j = from;
    let mut at = told;
    while i < hi {
        let e = layout.load(i);
        let end = end_of(e.span as u64, i, hi);
        at = fit_field(layout, list, counts, e, i + 1, end, j, to, at)?;
        j = values_after(list, e, j, to);
        i = end;
    }
    if j < to { None } else { Some(at) }
}

// An entry whose members are the entries lo up to hi, by the first of the items j..to: one element, or the elements of a table.
// Kept: no `for`, since it needs where each item ends.
// Kept: places one by one, as each call moves some of them.
#[cycle(fit_field_fit_one_fit_seq)]
fn fit_field(
    layout: &Layout,
    list: &ValueList,
    counts: &mut [i64],
    e: Entry,
    lo: usize,
    hi: usize,
    j: usize,
    to: usize,
    told: usize,
) -> Option<usize>
    ensures { fit_in result counts.new ≡
        field layout.now.words.now layout.now.masks.now list.now.text.now e
        (λ ns run n. seq layout.now.words.now layout.now.masks.now list.now.text.now (part layout.now.words.now lo hi) ns run n)
        (values list.now.items.now j to) counts.old told }
{
    if Kind::Pad.is(e.kind) {
        return Some(told);
    }
    if e.is_unrepeated() {
        return fit_one(layout, list, counts, e, lo, hi, j, to, told);
    }
    if !is_table(layout, list, counts, e, j, to) {
        return None;
    }
    let end = list.item_end(j, to);
    let mut k = after(j, end);
    let mut at = told;
    while k < end {
        at = fit_one(layout, list, counts, e, lo, hi, k, end, at)?;
        k = list.item_end(k, end);
    }
    Some(at)
}

// One element, the first of the items j..to: a group of the entries lo up to hi, or a scalar.
// Kept: places one by one, as each call moves some of them.
#[cycle(fit_field_fit_one_fit_seq)]
fn fit_one(
    layout: &Layout,
    list: &ValueList,
    counts: &mut [i64],
    e: Entry,
    lo: usize,
    hi: usize,
    j: usize,
    to: usize,
    told: usize,
) -> Option<usize>
    ensures { fit_in result counts.new ≡
        one layout.now.words.now layout.now.masks.now list.now.text.now e
        (λ ns run n. seq layout.now.words.now layout.now.masks.now list.now.text.now (part layout.now.words.now lo hi) ns run n)
        (values list.now.items.now j to) counts.old told }
{
    if !Kind::Group.is(e.kind) {
        return fit_leaf(layout, list, counts, e, j, to, told);
    }
    if !is_holder(list, element_name(e, e.is_unrepeated()), Tag::Struct, j, to) {
        return None;
    }
    let end = list.item_end(j, to);
    fit_seq(layout, list, counts, lo, hi, after(j, end), end, told)
}

// Whether a value list with its texts fits a layout, in work space of two words an entry, which ends as zeros.
pub fn is_fitting(layout: &Layout, list: &ValueList, counts: &mut [i64]) -> bool
    ensures value { result ≡ (leb (work_for layout.now.words.now) (length counts.old)
        && fitting layout.now.words.now layout.now.masks.now list.now.items.now list.now.text.now) }
    ensures counts_after { counts.new ≡ replicate (length counts.old) (pos 0) }
{
    counts.fill(0);
    if counts.len() < layout.entry_count() * 2 {
        return false;
    }
    if list.check().is_err() {
        return false;
    }
    let told = fit_seq(
        layout,
        list,
        counts,
        0,
        layout.entry_count(),
        0,
        list.item_count(),
        0,
    );
    counts.fill(0);
    match told {
        Some(told) => told == list.text.len(),
        None => false,
    }
}
