// One scalar field of any kind, read: a field is told by the words kind, p, q, r of its layout entry.

#![tactic(auto)]

ghost use Rattle.std.specs.Prelude.{◌≡◌, map, ℕ, ◌%◌, ◌<◌, length};
ghost use Rattle.value.specs.Answer.{answered, given};
ghost use Rattle.value.specs.Field.{last_of};
ghost use Rattle.ebcdic.specs.Ebcdic.{from_page};
ghost use Rattle.text.specs.Text.{read_text};
ghost use Rattle.hex_field.specs.Hex.{hex_of};
ghost use Rattle.decode_scalar.specs.Decode as Decode;
ghost use Rattle.decode_scalar.specs.Decode.{says, answer_of, text_after, is_embedded, is_overpunched, embedded_of, int_in, decimal_in};

use codes::{Kind, Refusal};
use value::{Scalar, Whole};

// What a layout entry says of a scalar field: the word of its kind, and p, q, r and s, whose meaning is the kind's.
#[derive(Clone, Copy, Debug, PartialEq, Eq)]
pub struct Field {
    pub kind: u32,
    pub p: u32,
    pub q: u32,
    pub r: u32,
    pub s: u32,
}

// A word 0/1.
pub fn flag(x: u32) -> bool
    ensures { result ≡ Decode.flag x }
{
    x != 0
}

// A pad byte's word.
pub fn low_byte(x: u32) -> u8
    ensures { result ≡ x % 256 }
{
    (x % 256) as u8
}

// A signed Int with an embedded sign.
pub fn is_embedded(p: u32, q: u32) -> bool
    ensures { result ≡ is_embedded p q }
{
    flag(p) && q == 1
}

fn is_overpunched(b: u8) -> bool
    ensures { result ≡ is_overpunched b }
{
    matches!(b, b'A'..=b'R' | b'{' | b'}')
}

fn ends_overpunched(part: &[u8], page: u32) -> bool
    ensures { result ≡ is_overpunched (last_of (map (from_page page) part.now)) }
{
    match part.last() {
        Some(b) => is_overpunched(ebcdic::from_page(page, *b)),
        None => false,
    }
}

// The number of a signed Embedded Int: of a zoned field where an overpunched byte stands last, else as of any other Int.
fn parse_embedded(part: &[u8], page: u32) -> Result<Whole, Refusal>
    ensures { answered result ≡ embedded_of (map (from_page page) part.now) }
{
    let t = numerals::trim(part, page);
    if ends_overpunched(t, page) {
        zoned::decode_within(t, page, value::INT_LIMIT)
    } else {
        display::parse_display_int(part, page, 1)
    }
}

fn parse_int(part: &[u8], page: u32, p: u32, q: u32) -> Result<Whole, Refusal>
    ensures { answered result ≡ int_in p q page part.now }
{
    if is_embedded(p, q) {
        parse_embedded(part, page)
    } else {
        display::parse_display_int(part, page, q)
    }
}

fn parse_decimal(part: &[u8], page: u32, p: u32, q: u32) -> Result<Whole, Refusal>
    ensures { answered result ≡ decimal_in p q page part.now }
{
    match p {
        0 => display::parse_display_decimal(part, page, q),
        1 => packed::decode(part),
        _ => zoned::decode(part, page),
    }
}

fn read_int(n: Result<Whole, Refusal>) -> Result<Scalar, Refusal>
    ensures { answered result ≡ answer_of (Decode.int_says (answered n)) 0 }
{
    let n = n?;
    Ok(Scalar::Int(n.negative, n.size))
}

fn read_decimal(n: Result<Whole, Refusal>, scale: u32) -> Result<Scalar, Refusal>
    ensures { answered result ≡ answer_of (Decode.decimal_says scale (answered n)) 0 }
{
    let n = n?;
    Ok(Scalar::Decimal(n.negative, n.size, u64::from(scale)))
}

fn read_text(
    part: &[u8],
    page: u32,
    right: bool,
    trim: bool,
    pad: u8,
    text: &mut [u8],
) -> Result<Scalar, Refusal>
    ensures result_value { answered result ≡ answer_of (Decode.text (read_text page right trim pad part.now)) (length text.old) }
    ensures text_after { text.new ≡ text_after (Decode.text (read_text page right trim pad part.now)) text.old }
{
    let count = text::put_text(part, page, right, trim, pad, text)?;
    Ok(Scalar::Text(0, count as u64))
}

#[tactic(auto, using(crate::proofs::Answers::hex_long))]
fn read_hex(part: &[u8], order: u32, text: &mut [u8]) -> Result<Scalar, Refusal>
    ensures result_value { answered result ≡ answer_of (Decode.text (hex_of order part.now)) (length text.old) }
    ensures text_after { text.new ≡ text_after (Decode.text (hex_of order part.now)) text.old }
{
    let count = hex_field::to_hex(part, order, text)?;
    Ok(Scalar::Text(0, count as u64))
}

// The value of a field's bytes. A text goes to the front of the text buffer, if it has room; the rest of the buffer stays.
#[tactic(auto, unfolding(crate::specs::Decode::says), using(crate::proofs::Answers::int_same, crate::proofs::Answers::int_kept, crate::proofs::Answers::decimal_same, crate::proofs::Answers::decimal_kept, crate::proofs::Answers::float_same, crate::proofs::Answers::float_kept))]
pub fn decode_scalar(
    field: Field,
    page: u32,
    part: &[u8],
    text: &mut [u8],
) -> Result<Scalar, Refusal>
    ensures result_value { answered result ≡ answer_of (says field.kind field.p field.q field.r page part.now) (length text.old) }
    ensures text_after { text.new ≡ text_after (says field.kind field.p field.q field.r page part.now) text.old }
{
    let Field {
        kind,
        p,
        q,
        r,
        s: _,
    } = field;
    match Kind::try_from(kind) {
        Ok(Kind::Text) => read_text(part, page, flag(p), flag(q), low_byte(r), text),
        Ok(Kind::Int) => read_int(parse_int(part, page, p, q)),
        Ok(Kind::Binary) => read_int(binary::parse_binary_int(part, p, flag(q))),
        Ok(Kind::Float) => float::parse_float(part, q, p),
        Ok(Kind::Hex) => read_hex(part, p, text),
        Ok(Kind::Bool) => Ok(Scalar::Bool(binary::parse_bool(part))),
        Ok(Kind::Decimal) => read_decimal(parse_decimal(part, page, p, q), r),
        Ok(Kind::Edited) => read_decimal(edited::decode(part, page, flag(p)), r),
        _ => Ok(Scalar::Null),
    }
}
