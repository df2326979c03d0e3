// One scalar field of any kind, written: a field is told by the words kind, p, q, r, s of its layout entry and an Edited's mask, and a value by
// the tag and the two words of its item and, for a Text, its bytes.

#![tactic(auto)]

ghost use Rattle.std.specs.Prelude.{◌≡◌, [], ◌∷◌, map, cond, true, false, ℕ, ◌<◌, length, eqb, leb, Result, Ok, Err};
ghost use Rattle.codes.specs.Codes.{tag_list};
ghost use Rattle.codes.specs.Refusals.{number_in};
ghost use Rattle.value.specs.Answer.{answered};
ghost use Rattle.value.specs.Scalar.{scalar_of};
ghost use Rattle.ebcdic.specs.Ebcdic.{onto_page};
ghost use Rattle.zoned.specs.Zoned.{encoded_of};
ghost use Rattle.text.specs.Text.{padded};
ghost use Rattle.text.specs.Shown.{text_in, refusal_at, shows, none};
ghost use Rattle.edited.specs.Edited.{answer_of};
ghost use Rattle.encode_scalar.specs.Encode.{text_bytes, embedded_fit, int_fit, int_text, int_judged, int_written, binary_judged, binary_written, float_judged, float_written};
ghost use Rattle.encode_scalar.specs.Encode.{hex_text, hex_judged, hex_written, bool_in, decimal_fit, decimal_bytes, decimal_judged, decimal_written, edited_written};
ghost use Rattle.encode_scalar.specs.Encode.{number_judged, number_bytes, judged_of, bytes_of, part_after, item_number};
ghost use Rattle.decode_scalar.specs.Decode as Decode;

use codes::{Kind, Refusal, Tag};
use decode_scalar::{Field, flag, low_byte};
use value::{Scalar, Whole, Words};

// Whether an item is a List or Struct, or of no tag at all: what has no number.
fn has_members(item: Words) -> bool
    ensures { result ≡ leb tag_list item.tag }
{
    item.tag >= u64::from(Tag::List)
}

fn fitting(fits: bool) -> Result<(), Refusal>
    ensures { number_in result ≡ cond fits 0 14 }
{
    if fits { Ok(()) } else { Err(Refusal::Misfit) }
}

// ---- the judging alone. Kept beside the writing: what judges has no bytes to write into, and one function for both would write where nothing may be written.

// A signed Embedded Int is written as a zoned number; -2^63, the one size from 2^63 on, is refused.
fn fits_embedded(width: usize, size: u64) -> bool
    ensures { result ≡ embedded_fit width size }
{
    size < value::INT_LIMIT && zoned::fits(width, size)
}

fn fits_int(p: u32, q: u32, width: usize, n: Whole) -> bool
    ensures { result ≡ int_fit p q width n.negative n.size }
{
    if decode_scalar::is_embedded(p, q) {
        fits_embedded(width, n.size)
    } else {
        display::fits_int(width, n, flag(p), q)
    }
}

fn judge_int(p: u32, q: u32, width: usize, n: Result<Whole, Refusal>) -> Result<(), Refusal>
    ensures { number_in result ≡ int_judged p q width (answered n) }
{
    fitting(fits_int(p, q, width, n?))
}

fn judge_binary(width: usize, n: Result<Whole, Refusal>) -> Result<(), Refusal>
    ensures { number_in result ≡ binary_judged width (answered n) }
{
    n?;
    fitting(binary::width_ok(width))
}

fn judge_float(bits: u32, width: usize, word: Result<u64, Refusal>) -> Result<(), Refusal>
    ensures { number_in result ≡ float_judged bits width (answered word) }
{
    word?;
    fitting(float::field_ok(bits, width))
}

// A Hex field takes a Text, and Null as an empty one.
fn judge_hex(width: usize, v: Scalar, text: &[u8]) -> Result<(), Refusal>
    ensures { number_in result ≡ hex_judged width (hex_text v text.now) }
{
    match v {
        Scalar::Null => hex_field::judge_hex(width, &[]),
        Scalar::Text(_, _) => hex_field::judge_hex(width, text),
        _ => Err(Refusal::WrongKind),
    }
}

fn fits_decimal(p: u32, q: u32, s: u32, width: usize, n: Whole) -> bool
    ensures { result ≡ decimal_fit p q s width n.negative n.size }
{
    match p {
        0 => display::fits_decimal(width, s, n, q),
        1 => packed::fits(width, n.size),
        _ => zoned::fits(width, n.size),
    }
}

fn judge_decimal(
    p: u32,
    q: u32,
    s: u32,
    width: usize,
    n: Result<Whole, Refusal>,
) -> Result<(), Refusal>
    ensures { number_in result ≡ decimal_judged p q s width (answered n) }
{
    fitting(fits_decimal(p, q, s, width, n?))
}

fn judge_edited(width: usize, mask: &[u8], n: Result<Whole, Refusal>) -> Result<(), Refusal>
    ensures { number_in result ≡ answer_of width mask.now (answered n) }
{
    edited::judge(mask, n)?;
    fitting(width == mask.len())
}

#[tactic(auto, unfolding(crate::specs::Encode::number_judged))]
fn judge_number(
    field: Field,
    mask: &[u8],
    width: usize,
    v: Scalar,
    text: &[u8],
) -> Result<(), Refusal>
    ensures { number_in result ≡ number_judged field.kind field.p field.q field.r field.s mask.now width v text.now }
{
    let Field { kind, p, q, r, s } = field;
    match Kind::try_from(kind) {
        Ok(Kind::Int) => judge_int(p, q, width, display::as_i128(v, text)),
        Ok(Kind::Binary) => judge_binary(width, display::as_i128(v, text)),
        Ok(Kind::Float) => judge_float(q, width, float::as_f64(v)),
        Ok(Kind::Hex) => judge_hex(width, v, text),
        Ok(Kind::Decimal) => judge_decimal(p, q, s, width, float::as_decimal(v, u64::from(r))),
        Ok(Kind::Edited) => judge_edited(width, mask, float::as_decimal(v, u64::from(r))),
        _ => Ok(()),
    }
}

// What refuses a value for a field of a width; nothing is written.
#[tactic(auto, unfolding(crate::specs::Encode::judged_of))]
pub fn judge_scalar(
    field: Field,
    mask: &[u8],
    width: usize,
    item: Words,
    text: &[u8],
) -> Result<(), Refusal>
    ensures { number_in result ≡ judged_of field.kind field.p field.q field.r field.s mask.now width item.tag (scalar_of item.tag item.a item.b) text.now }
{
    let v = Scalar::from(item);
    match Kind::try_from(field.kind) {
        Ok(Kind::Text) => text::fits_text(width, v, text),
        Ok(Kind::Bool | Kind::Pad) => Ok(()),
        _ => {
            if has_members(item) {
                return Err(Refusal::WrongKind);
            }
            judge_number(field, mask, width, v, text)
        }
    }
}

// ---- the judging and the writing

fn write_text(
    part: &mut [u8],
    page: u32,
    right: bool,
    pad: u8,
    v: Scalar,
    text: &[u8],
) -> Result<(), Refusal>
    ensures value { number_in result ≡ refusal_at (length part.old) (text_in v text.now) }
    ensures part_after { part.new ≡ part_after (refusal_at (length part.old) (text_in v text.now))
        (text_bytes page right pad (length part.old) (text_in v text.now)) part.old }
{
    text::encode_text(part, v, text, right, pad, page)
}

fn encode_embedded(part: &mut [u8], page: u32, n: Whole) -> Result<(), Refusal>
    ensures value { number_in result ≡ cond (embedded_fit (length part.old) n.size) 0 14 }
    ensures part_after { part.new ≡ cond (embedded_fit (length part.old) n.size)
        (map (onto_page page) (encoded_of (length part.old) n.negative n.size true)) part.old }
{
    if n.size >= value::INT_LIMIT {
        return Err(Refusal::Misfit);
    }
    zoned::encode(part, page, n, true)
}

#[tactic(auto, unfolding(display::specs::Display::int_written))]
fn encode_int(part: &mut [u8], page: u32, p: u32, q: u32, n: Whole) -> Result<(), Refusal>
    ensures value { number_in result ≡ cond (int_fit p q (length part.old) n.negative n.size) 0 14 }
    ensures part_after { part.new ≡ cond (int_fit p q (length part.old) n.negative n.size)
        (map (onto_page page) (int_text p q (length part.old) n.negative n.size)) part.old }
{
    if decode_scalar::is_embedded(p, q) {
        encode_embedded(part, page, n)
    } else {
        display::encode_display_int(part, page, n, flag(p), q)
    }
}

fn write_int(
    part: &mut [u8],
    page: u32,
    p: u32,
    q: u32,
    n: Result<Whole, Refusal>,
) -> Result<(), Refusal>
    ensures value { number_in result ≡ int_judged p q (length part.old) (answered n) }
    ensures part_after { part.new ≡ part_after (int_judged p q (length part.old) (answered n))
        (int_written p q page (length part.old) (answered n)) part.old }
{
    encode_int(part, page, p, q, n?)
}

fn write_binary(part: &mut [u8], order: u32, n: Result<Whole, Refusal>) -> Result<(), Refusal>
    ensures value { number_in result ≡ binary_judged (length part.old) (answered n) }
    ensures part_after { part.new ≡ part_after (binary_judged (length part.old) (answered n)) (binary_written order (length part.old) (answered n)) part.old }
{
    binary::encode_binary_int(part, order, n?)
}

fn write_float(
    part: &mut [u8],
    order: u32,
    bits: u32,
    word: Result<u64, Refusal>,
) -> Result<(), Refusal>
    ensures value { number_in result ≡ float_judged bits (length part.old) (answered word) }
    ensures part_after { part.new ≡ part_after (float_judged bits (length part.old) (answered word))
        (float_written order bits (length part.old) (answered word)) part.old }
{
    float::encode_float(part, word?, bits, order)
}

fn write_hex(part: &mut [u8], order: u32, v: Scalar, text: &[u8]) -> Result<(), Refusal>
    ensures value { number_in result ≡ hex_judged (length part.old) (hex_text v text.now) }
    ensures part_after { part.new ≡ part_after (hex_judged (length part.old) (hex_text v text.now))
        (hex_written order (length part.old) (hex_text v text.now)) part.old }
{
    match v {
        Scalar::Null => hex_field::encode_hex(part, &[], order),
        Scalar::Text(_, _) => hex_field::encode_hex(part, text, order),
        _ => Err(Refusal::WrongKind),
    }
}

fn is_true(v: Scalar) -> bool
    ensures { result ≡ bool_in v }
{
    match v {
        Scalar::Bool(b) => b,
        Scalar::Int(negative, size) => !negative && size == 1,
        _ => false,
    }
}

fn write_bool(part: &mut [u8], v: Scalar)
    ensures { part.new ≡ part_after 0 (cond (bool_in v) 1 0 ∷ []) part.old }
{
    if let Some(byte) = part.first_mut() {
        *byte = u8::from(is_true(v));
    }
}

#[tactic(auto, unfolding(display::specs::Display::decimal_written, packed::specs::Packed::written_of))]
fn encode_decimal(
    part: &mut [u8],
    page: u32,
    p: u32,
    q: u32,
    s: u32,
    n: Whole,
) -> Result<(), Refusal>
    ensures value { number_in result ≡ cond (decimal_fit p q s (length part.old) n.negative n.size) 0 14 }
    ensures part_after { part.new ≡ cond (decimal_fit p q s (length part.old) n.negative n.size)
        (decimal_bytes p q page (length part.old) n.negative n.size) part.old }
{
    match p {
        0 => display::encode_display_decimal(part, page, s, n, q),
        1 => packed::encode(part, n, flag(q)),
        _ => zoned::encode(part, page, n, flag(q)),
    }
}

fn write_decimal(
    part: &mut [u8],
    page: u32,
    p: u32,
    q: u32,
    s: u32,
    n: Result<Whole, Refusal>,
) -> Result<(), Refusal>
    ensures value { number_in result ≡ decimal_judged p q s (length part.old) (answered n) }
    ensures part_after { part.new ≡ part_after (decimal_judged p q s (length part.old) (answered n))
        (decimal_written p q page (length part.old) (answered n)) part.old }
{
    encode_decimal(part, page, p, q, s, n?)
}

// The number of an item for a Decimal field: of a Decimal that has the scale, at once; a List or Struct has none.
fn decimal_item(item: Words, scale: u64) -> Result<Whole, Refusal>
    ensures { answered result ≡ item_number item.tag item.a item.b scale }
{
    if Tag::Decimal.is(item.tag) && item.b == scale {
        return value::amount_of(value::is_minus(item.a), value::size_of(item.a));
    }
    if has_members(item) {
        return Err(Refusal::WrongKind);
    }
    float::as_decimal(Scalar::from(item), scale)
}

#[tactic(auto, using(crate::proofs::Parts::edited_part))]
fn write_edited(
    part: &mut [u8],
    page: u32,
    mask: &[u8],
    n: Result<Whole, Refusal>,
) -> Result<(), Refusal>
    ensures value { number_in result ≡ answer_of (length part.old) mask.now (answered n) }
    ensures part_after { part.new ≡ part_after (answer_of (length part.old) mask.now (answered n)) (edited_written page mask.now (answered n)) part.old }
{
    edited::encode(part, page, mask, n)
}

#[tactic(auto, unfolding(crate::specs::Encode::number_judged, crate::specs::Encode::number_bytes))]
fn write_number(
    part: &mut [u8],
    field: Field,
    mask: &[u8],
    page: u32,
    v: Scalar,
    text: &[u8],
) -> Result<(), Refusal>
    requires { eqb field.kind 7 ≡ false }
    ensures value { number_in result ≡ number_judged field.kind field.p field.q field.r field.s mask.now (length part.old) v text.now }
    ensures part_after { part.new ≡ part_after (number_judged field.kind field.p field.q field.r field.s mask.now (length part.old) v text.now)
        (number_bytes field.kind field.p field.q field.r mask.now page (length part.old) v text.now) part.old }
{
    let Field {
        kind,
        p,
        q,
        r,
        s: _,
    } = field;
    match Kind::try_from(kind) {
        Ok(Kind::Int) => write_int(part, page, p, q, display::as_i128(v, text)),
        Ok(Kind::Binary) => write_binary(part, p, display::as_i128(v, text)),
        Ok(Kind::Float) => write_float(part, p, q, float::as_f64(v)),
        Ok(Kind::Hex) => write_hex(part, p, v, text),
        Ok(Kind::Edited) => write_edited(part, page, mask, float::as_decimal(v, u64::from(r))),
        _ => Ok(()),
    }
}

// Writes a value into a field's bytes (of a Bool, into its one byte); a value that is refused leaves the part as it was.
#[tactic(auto, unfolding(crate::specs::Encode::judged_of, crate::specs::Encode::bytes_of, crate::specs::Encode::number_judged, crate::specs::Encode::number_bytes))]
pub fn encode_scalar(
    part: &mut [u8],
    field: Field,
    mask: &[u8],
    page: u32,
    item: Words,
    text: &[u8],
) -> Result<(), Refusal>
    ensures value { number_in result ≡ judged_of field.kind field.p field.q field.r field.s mask.now (length part.old) item.tag (scalar_of item.tag item.a item.b) text.now }
    ensures part_after { part.new ≡ part_after
        (judged_of field.kind field.p field.q field.r field.s mask.now (length part.old) item.tag (scalar_of item.tag item.a item.b) text.now)
        (bytes_of field.kind field.p field.q field.r mask.now page (length part.old) (scalar_of item.tag item.a item.b) text.now) part.old }
{
    let Field { kind, p, q, r, s } = field;
    if Kind::Decimal.is(kind) {
        return write_decimal(part, page, p, q, s, decimal_item(item, u64::from(r)));
    }
    let v = Scalar::from(item);
    match Kind::try_from(kind) {
        Ok(Kind::Text) => write_text(part, page, flag(p), low_byte(r), v, text),
        Ok(Kind::Bool) => {
            write_bool(part, v);
            Ok(())
        }
        Ok(Kind::Pad) => {
            text::fill_pad(part, low_byte(r), page);
            Ok(())
        }
        _ => {
            if has_members(item) {
                return Err(Refusal::WrongKind);
            }
            write_number(part, field, mask, page, v, text)
        }
    }
}
