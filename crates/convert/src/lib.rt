// From one layout to another: a record read, written and read back, and whether every value came back the same.

#![tactic(auto)]

ghost use Rattle.std.specs.Prelude.{◌≡◌, ℕ, ◌+◌, ◌*◌, ◌^◌, eqb, length};
ghost use Rattle.std.specs.Result.{result_unwrap_or};
ghost use Rattle.codes.specs.Refusals.{number_in};
ghost use Rattle.items.specs.Items.{values};
ghost use Rattle.walks.specs.Records.{read_into};
ghost use Rattle.convert.specs.Same.{exact, exact_in, same_size, same_decimal, is_number, same_text, same_float, same_kind, same_item, same_all, same_value, all_kept};
ghost use Rattle.convert.specs.Calls.{listed, back_asks, rewritten, converted_into, RecordConverted};
ghost use Rattle.convert.specs.Parts.{BackJudged, ListRewritten};

use codes::{Refusal, Tag};
use decode::{Reading, decode_record};
use encode::encode_record;
use items::{Item, ValueList, text_ok};
use layout::Layout;
use value::{is_minus, is_nan, size_of, ten_to};

// ---- numbers

// Whether a size is another with d zeros behind it.
fn is_scaled(big: u64, little: u64, d: u64) -> bool
    ensures { result ≡ eqb (little * 10 ^ d) big }
{
    if d > 19 {
        return little == 0 && big == 0;
    }
    let p = ten_to(d);
    big % p == 0 && little == big / p
}

// Whether x / 10^k is y / 10^m.
fn same_size(x: u64, k: u64, y: u64, m: u64) -> bool
    ensures { result ≡ same_size x k y m }
{
    if k <= m {
        is_scaled(y, x, m - k)
    } else {
        is_scaled(x, y, k - m)
    }
}

// An exact decimal.
#[derive(Clone, Copy)]
struct Decimal {
    minus: bool,
    size: u64,
    scale: u64,
}

// The decimal of a Decimal or Int.
#[tactic(auto, unfolding(crate::specs::Same::exact_in))]
fn exact_in(x: Item) -> Decimal
    ensures { exact result.minus result.size result.scale ≡ exact_in x }
{
    Decimal {
        minus: is_minus(x.a),
        size: size_of(x.a),
        scale: if Tag::Decimal.is(x.tag) { x.b } else { 0 },
    }
}

#[tactic(auto, unfolding(crate::specs::Same::same_decimal))]
fn same_decimal(x: Item, y: Item) -> bool
    ensures { result ≡ same_decimal (exact_in x) (exact_in y) }
{
    let a = exact_in(x);
    let b = exact_in(y);
    a.minus == b.minus && same_size(a.size, a.scale, b.size, b.scale)
}

fn is_number(tag: u64) -> bool
    ensures { result ≡ is_number tag }
{
    Tag::Int.is(tag) || Tag::Decimal.is(tag)
}

// ---- texts and floats

// Whether two Texts have the same bytes, each in its buffer.
#[tactic(auto, unfolding(crate::specs::Same::same_text))]
fn same_text(t: &[u8], x: Item, u: &[u8], y: Item) -> bool
    ensures { result ≡ same_text t.now x.a x.b u.now y.a y.b }
{
    if !text_ok(t.len(), x.a, x.b) || !text_ok(u.len(), y.a, y.b) {
        return false;
    }
    let from = x.a as usize;
    let start = y.a as usize;
    t[from..from + x.b as usize] == u[start..start + y.b as usize]
}

#[tactic(auto, unfolding(crate::specs::Same::same_float))]
fn same_float(a: u64, b: u64) -> bool
    ensures { result ≡ same_float a b }
{
    a == b && !is_nan(a)
}

// ---- items

// Of two items of one tag, no numbers: whether they are the same, their names and members aside.
#[tactic(auto, unfolding(crate::specs::Same::same_kind))]
fn same_kind(t: &[u8], u: &[u8], x: Item, y: Item) -> bool
    ensures { result ≡ same_kind t.now u.now x y }
{
    match Tag::try_from(x.tag) {
        Ok(Tag::Null) => true,
        Ok(Tag::Text) => same_text(t, x, u, y),
        Ok(Tag::Float) => same_float(x.a, y.a),
        Ok(Tag::Bool | Tag::List | Tag::Struct) => x.a == y.a,
        _ => false,
    }
}

// Whether two items are the same, their names and members aside.
#[tactic(auto, unfolding(crate::specs::Same::same_item))]
fn same_item(t: &[u8], u: &[u8], x: Item, y: Item) -> bool
    ensures { result ≡ same_item t.now u.now x y }
{
    if is_number(x.tag) && is_number(y.tag) {
        same_decimal(x, y)
    } else {
        x.tag == y.tag && same_kind(t, u, x, y)
    }
}

// Whether two sequences are the same, names and members too: i..to of one list, j..end of the other. A call goes one level down, so that the depth is the list's.
// Kept: no `for`, since it needs where each item ends.
fn same_all(old: &ValueList, i: usize, to: usize, new: &ValueList, j: usize, end: usize) -> bool
    ensures { result ≡ same_all old.now.text.now new.now.text.now (values old.now.items.now i to) (values new.now.items.now j end) }
{
    let mut p = i;
    let mut q = j;
    while p < to {
        if q >= end {
            return false;
        }
        let x = old.fetch(p, to);
        let y = new.fetch(q, end);
        if x.name != y.name {
            return false;
        }
        if !same_item(old.text, new.text, x, y) {
            return false;
        }
        let pe = old.item_end(p, to);
        let qe = new.item_end(q, end);
        if !same_all(old, p + 1, pe, new, q + 1, qe) {
            return false;
        }
        p = pe;
        q = qe;
    }
    q >= end
}

// Whether two values are the same: the first items of i..to and of j..end, with their members.
fn same_value(old: &ValueList, i: usize, to: usize, new: &ValueList, j: usize, end: usize) -> bool
    ensures { result ≡ same_value old.now.text.now new.now.text.now (values old.now.items.now i to) (values new.now.items.now j end) }
{
    if i >= to {
        return false;
    }
    if j >= end {
        return false;
    }
    let x = old.fetch(i, to);
    let y = new.fetch(j, end);
    if x.name != y.name {
        return false;
    }
    if !same_item(old.text, new.text, x, y) {
        return false;
    }
    same_all(
        old,
        i + 1,
        old.item_end(i, to),
        new,
        j + 1,
        new.item_end(j, end),
    )
}

// Whether every item of the second list is the same as the first of its name in the first list.
// Kept: no `for`, since an item is compared with its members.
fn all_kept(old: &ValueList, new: &ValueList) -> bool
    ensures { result ≡ all_kept old.now.text.now new.now.text.now (listed old.now.items.now) (listed new.now.items.now) }
{
    let to = old.item_count();
    let end = new.item_count();
    let mut q = 0;
    while q < end {
        let y = new.fetch(q, end);
        let p = old.find(y.name, 0, to);
        if !same_value(old, p, to, new, q, end) {
            return false;
        }
        q = new.item_end(q, end);
    }
    true
}

// ---- the call

// The question on the record read back: whether reading refuses, and whether all values are kept.
fn back_asks(read: Result<Reading, Refusal>, kept: bool) -> Result<(), Refusal>
    ensures { number_in result ≡ back_asks (number_in read) kept }
{
    match read {
        Err(Refusal::NoRoom) => Err(Refusal::NoRoom),
        Ok(_) if kept => Ok(()),
        _ => Err(Refusal::NotKept),
    }
}

// Reads back a record that was written of a list, judges it against the list, and clears what was read.
fn judge_back(
    layout: &Layout,
    record: &[u8],
    list: &ValueList,
    back_items: &mut [u64],
    back_text: &mut [u8],
    counts: &mut [i64],
) -> Result<(), Refusal>
    ensures { BackJudged (read_into layout.now.words.now layout.now.masks.now layout.now.page «record».now back_items.old back_text.old counts.old)
        list.now.items.now list.now.text.now (number_in result) back_items.old back_items.new back_text.old back_text.new
        counts.old counts.new }
{
    let read = decode_record(layout, record, back_items, back_text, counts);
    let used = read.unwrap_or(Reading { items: 0, text: 0 });
    let back = ValueList {
        items: &back_items[..used.items],
        text: &back_text[..used.text],
    };
    let kept = all_kept(list, &back);
    items::clear(back_items, back_text);
    back_asks(read, kept)
}

// Writes a record of a list and judges it: the record, or zeros after a refusal.
fn rewrite(
    layout: &Layout,
    list: &ValueList,
    record: &mut [u8],
    back_items: &mut [u64],
    back_text: &mut [u8],
    counts: &mut [i64],
) -> Result<usize, Refusal>
    ensures { ListRewritten (rewritten layout.now.words.now layout.now.masks.now layout.now.page list.now.items.now list.now.text.now
        (length «record».old) (length back_items.old) (length back_text.old) (length counts.old))
        (number_in result) (result_unwrap_or result 0) «record».old «record».new back_items.old back_items.new back_text.old back_text.new
        counts.old counts.new }
{
    let length = match encode_record(layout, list, record, counts) {
        Ok(length) => length,
        Err(refusal) => {
            items::clear(back_items, back_text);
            return Err(refusal);
        }
    };
    match judge_back(
        layout,
        &record[..length],
        list,
        back_items,
        back_text,
        counts,
    ) {
        Ok(()) => Ok(length),
        Err(refusal) => {
            record.fill(0);
            Err(refusal)
        }
    }
}

// Converts a record under one layout into a record under another: the new record's length, or zeros after a refusal.
// Kept: the buffers one by one, as C lends them.
pub fn convert_record(
    old: &Layout,
    old_record: &[u8],
    new: &Layout,
    new_record: &mut [u8],
    items: &mut [u64],
    text: &mut [u8],
    back_items: &mut [u64],
    back_text: &mut [u8],
    counts: &mut [i64],
) -> Result<usize, Refusal>
    ensures { RecordConverted
        (converted_into old.now.words.now old.now.masks.now old.now.page old_record.now new.now.words.now new.now.masks.now new.now.page
        new_record.old items.old text.old back_items.old back_text.old counts.old)
        (number_in result) (result_unwrap_or result 0) new_record.old new_record.new items.old items.new text.old text.new
        back_items.old back_items.new back_text.old back_text.new counts.old counts.new }
{
    match decode_record(old, old_record, items, text, counts) {
        Ok(read) => {
            let list = ValueList {
                items: &items[..read.items],
                text: &text[..read.text],
            };
            let length = rewrite(new, &list, new_record, back_items, back_text, counts);
            items::clear(items, text);
            length
        }
        Err(refusal) => {
            new_record.fill(0);
            items::clear(back_items, back_text);
            Err(refusal)
        }
    }
}
