// One Text field on its own, by its layout entry: its bytes translated to scratch, and its text as a part of the record or of the scratch.

#![tactic(auto)]

ghost use Rattle.std.specs.Prelude.{◌≡◌, Bool, true, false, cond, [], IfOk, ◌+◌, ◌≤◌, eqb, length, take, drop};
ghost use Rattle.codes.specs.Refusals.{number_in};
ghost use Rattle.lists.specs.Part.{place_in};
ghost use Rattle.text.specs.Text.{cut, cut_from};
ghost use Rattle.decode_scalar.specs.Decode.{flag};
ghost use Rattle.text_field.specs.Single.{entry_of, text_entry, room_of, asked_of, bytes_in, start_in, length_in, FieldTranslated, TextFound, TextPlaced};

use codes::{ABSENT, Kind, MAX_RECORD, Refusal, number_in};
use layout::{Entry, Layout};

// Whether an entry is an unrepeated Text with lawful words.
#[tactic(auto, unfolding(crate::specs::Single::text_entry))]
fn is_text(e: Entry) -> bool
    ensures { result ≡ text_entry e }
{
    e.is_lawful(0) && Kind::Text.is(e.kind) && e.occurs == ABSENT && e.depending == ABSENT
}

// The scratch bytes that a call needs.
fn room_for(e: Entry, page: u32, translating: bool) -> usize
    ensures { result ≡ room_of translating page e }
{
    if translating || page == 1 {
        e.width as usize
    } else {
        0
    }
}

// The layout's one entry, where no question refuses.
#[tactic(auto, unfolding(crate::specs::Single::asked_of))]
fn ask(layout: &Layout, size: usize, scratch: usize, translating: bool) -> Result<Entry, Refusal>
    ensures asked { number_in result ≡ asked_of translating layout.now.words.now layout.now.page size scratch }
    ensures entry { IfOk result (λ e. e ≡ entry_of layout.now.words.now) }
{
    if layout.words.len() != 12 || 1 < layout.page {
        return Err(Refusal::LayoutWords);
    }
    let e = layout.load(0);
    if !is_text(e) {
        return Err(Refusal::EntryWords);
    }
    if MAX_RECORD < size {
        return Err(Refusal::RecordLength);
    }
    if (size as u64) < e.offset as u64 + e.width as u64 {
        return Err(Refusal::OutsideRecord);
    }
    if scratch < room_for(e, layout.page, translating) {
        return Err(Refusal::NoRoom);
    }
    Ok(e)
}

// A field's bytes.
fn field(e: Entry, at: usize, s: &[u8]) -> &[u8]
    requires { at + e.width ≤ length s.now }
    ensures result_value { result.now ≡ take e.width (drop at s.now) }
    ensures ref_ptr_value { result.ref_ptr ≡ place_in s.entry at }
{
    let end = at + e.width as usize;
    &s[at..end]
}

// Puts the field's bytes, as read from the page, to the front of the scratch and zeros behind them; zeros alone where it refuses.
// How many bytes it translated.
pub fn translate_text(layout: &Layout, record: &[u8], scratch: &mut [u8]) -> Result<usize, Refusal>
    ensures { FieldTranslated layout.now.words.now layout.now.page «record».now (number_in result) (bytes_in result) scratch.old scratch.new }
{
    let asked = ask(layout, record.len(), scratch.len(), true);
    scratch.fill(0);
    let e = asked?;
    let part = field(e, e.offset as usize, record);
    ebcdic::decode_slice(part, layout.page, scratch);
    Ok(e.width as usize)
}

// The text of the field at a place of a slice, as a part of it.
fn text_in(e: Entry, at: usize, s: &[u8]) -> &[u8]
    requires { (at + e.width ≤ length s.now) × (e.r ≤ 255) }
    ensures result_value { result.now ≡ cut (flag e.p) (flag e.q) e.r (take e.width (drop at s.now)) }
    ensures ref_ptr_value { result.ref_ptr ≡ place_in s.entry (at + cut_from (flag e.p) (flag e.q) e.r (take e.width (drop at s.now))) }
{
    let part = field(e, at, s);
    let right = decode_scalar::flag(e.p);
    let trim = decode_scalar::flag(e.q);
    let pad = decode_scalar::low_byte(e.r);
    text::trimmed(part, 0, right, trim, pad)
}

// The text of the field: a part of the record on page 0, and on page 1 of the scratch that translate_text filled. The number is 0, or the one it refuses by.
// Kept: no Result, as a refusal hands out an empty part, whose place is promised.
pub fn text_field<'a>(
    layout: &Layout,
    record: &'a [u8],
    scratch: &'a [u8],
    number: &mut u32,
) -> &'a [u8]
    ensures { TextFound layout.now.words.now layout.now.page «record».entry scratch.entry number.new result }
{
    let asked = ask(layout, record.len(), scratch.len(), false);
    *number = number_in(asked);
    match asked {
        Ok(e) if layout.page == 1 => text_in(e, 0, scratch),
        Ok(e) => text_in(e, e.offset as usize, record),
        Err(_) if layout.page == 1 => &scratch[..0],
        Err(_) => &record[..0],
    }
}

// Where the text of the field at a place of a slice starts.
#[tactic(auto, unfolding(text::specs::Text::cut_from))]
fn start_in(e: Entry, at: usize, s: &[u8]) -> usize
    requires { (at + e.width ≤ length s.now) × (e.r ≤ 255) }
    ensures { result ≡ at + cut_from (flag e.p) (flag e.q) e.r (take e.width (drop at s.now)) }
{
    if !decode_scalar::flag(e.q) || !decode_scalar::flag(e.p) {
        return at;
    }
    let part = field(e, at, s);
    let pad = decode_scalar::low_byte(e.r);
    at + text::pad_start(part, pad)
}

// Where a field's text stands: its start and its length.
#[derive(Clone, Copy)]
pub struct TextPlace {
    pub start: usize,
    pub length: usize,
}

// The same for the field at a place of a slice.
fn place_in(e: Entry, at: usize, s: &[u8]) -> TextPlace
    requires { (at + e.width ≤ length s.now) × (e.r ≤ 255) }
    ensures start_value { result.start ≡ at + cut_from (flag e.p) (flag e.q) e.r (take e.width (drop at s.now)) }
    ensures length_value { result.length ≡ length (cut (flag e.p) (flag e.q) e.r (take e.width (drop at s.now))) }
{
    TextPlace {
        start: start_in(e, at, s),
        length: text_in(e, at, s).len(),
    }
}

// Where the text that text_field hands out stands in the record, on page 1 in the scratch.
pub fn text_place(layout: &Layout, record: &[u8], scratch: &[u8]) -> Result<TextPlace, Refusal>
    ensures { TextPlaced layout.now.words.now layout.now.page «record».now scratch.now (number_in result) (start_in result) (length_in result) }
{
    let e = ask(layout, record.len(), scratch.len(), false)?;
    if layout.page == 1 {
        Ok(place_in(e, 0, scratch))
    } else {
        Ok(place_in(e, e.offset as usize, record))
    }
}
