// Whether a value fits a scalar field: a field is told by the words kind, p, q, r, s of its layout entry, an Edited's mask and its width, and a Text's bytes stand
// beside the value.

#![tactic(auto)]

ghost use Rattle.std.specs.Prelude.{◌≡◌, true, not, ◌&&◌, cond, ℕ, ◌%◌, eqb, length};
ghost use Rattle.std.specs.Float.Ieee as Ieee;
ghost use Rattle.std.specs.Float.{binary64};
ghost use Rattle.lists.specs.Scan.{every_by};
ghost use Rattle.binary.specs.Binary.{width_ok};
ghost use Rattle.hex_field.specs.Hex.{is_lower};
ghost use Rattle.decode_scalar.specs.Decode as Decode;
ghost use Rattle.fits.specs.Decide.{is_text_byte, cut_end_ok, trimmed_fits, text_fits, hex_fits, minus_ok, digits_fit, int_fits, in_range, binary_fits, word_fits};
ghost use Rattle.fits.specs.Decide.{sign_ok, display_fits, packed_fits, zoned_fits, decimal_fits, last_two, tells, edited_minus_ok, mask_fits, edited_fits, fits_of};

use codes::Kind;
use decode_scalar::{Field, flag, low_byte};
use value::{LIMIT, Scalar, Whole};

// ---- Text and Hex

fn no_zero(t: &[u8]) -> bool
    ensures { result ≡ every_by is_text_byte t.now }
{
    t.iter().all(|b| *b != 0)
}

fn cut_end_ok(right: bool, pad: u8, t: &[u8]) -> bool
    ensures { result ≡ cut_end_ok right pad t.now }
{
    let end = if right { t.first() } else { t.last() };
    end != Some(&pad)
}

fn fits_trimmed(right: bool, pad: u8, width: usize, t: &[u8]) -> bool
    ensures { result ≡ trimmed_fits right pad width t.now }
{
    t.len() <= width && no_zero(t) && cut_end_ok(right, pad, t)
}

// An untrimmed text comes back whatever its bytes are, if there are as many as the field has.
#[tactic(auto, unfolding(crate::specs::Decide::text_fits))]
fn fits_text(right: bool, trim: bool, pad: u8, width: usize, t: &[u8]) -> bool
    ensures { result ≡ text_fits right trim pad width t.now }
{
    if trim {
        fits_trimmed(right, pad, width, t)
    } else {
        t.len() == width
    }
}

fn is_lower(x: u8) -> bool
    ensures { result ≡ is_lower x }
{
    matches!(x, b'0'..=b'9' | b'a'..=b'f')
}

fn all_lower(t: &[u8]) -> bool
    ensures { result ≡ every_by is_lower t.now }
{
    t.iter().all(|b| is_lower(*b))
}

#[tactic(auto, unfolding(crate::specs::Decide::hex_fits))]
fn fits_hex(width: usize, t: &[u8]) -> bool
    ensures { result ≡ hex_fits width t.now }
{
    t.len() % 2 == 0 && t.len() / 2 == width && all_lower(t)
}

fn text_fits(field: Field, width: usize, t: &[u8]) -> bool
    ensures { result ≡ cond (eqb field.kind 0) (text_fits (Decode.flag field.p) (Decode.flag field.q) (field.r % 256) width t.now) (eqb field.kind 4 && hex_fits width t.now) }
{
    match Kind::try_from(field.kind) {
        Ok(Kind::Text) => fits_text(flag(field.p), flag(field.q), low_byte(field.r), width, t),
        Ok(Kind::Hex) => fits_hex(width, t),
        _ => false,
    }
}

// ---- Int and Binary

// 0 has no minus.
fn minus_ok(n: Whole) -> bool
    ensures { result ≡ minus_ok n.negative n.size }
{
    !n.negative || n.size > 0
}

#[tactic(auto, unfolding(crate::specs::Decide::digits_fit, display::specs::Display::int_fits))]
fn fits_digits(width: usize, sign: u32, n: Whole) -> bool
    ensures { result ≡ digits_fit width sign n.negative n.size }
{
    minus_ok(n) && display::fits_int(width, n, false, sign)
}

#[tactic(auto, unfolding(crate::specs::Decide::int_fits))]
fn fits_int(p: u32, q: u32, width: usize, n: Whole) -> bool
    ensures { result ≡ int_fits p q width n.negative n.size }
{
    if n.size >= value::INT_LIMIT {
        return false;
    }
    if decode_scalar::is_embedded(p, q) {
        fits_zoned(width, q, n)
    } else {
        fits_digits(width, q, n)
    }
}

fn in_range(width: usize, signed: bool, n: Whole) -> bool
    requires { width_ok width ≡ true }
    ensures { result ≡ in_range width signed n.negative n.size }
{
    let half = binary::half_of(width);
    match (signed, n.negative) {
        (true, true) => n.size > 0 && n.size <= half,
        (true, false) => n.size < half,
        (false, true) => false,
        (false, false) => n.size < value::INT_LIMIT && n.size / 2 < half,
    }
}

#[tactic(auto, unfolding(crate::specs::Decide::binary_fits))]
fn fits_binary(width: usize, signed: bool, n: Whole) -> bool
    ensures { result ≡ binary_fits width signed n.negative n.size }
{
    binary::width_ok(width) && in_range(width, signed, n)
}

fn int_fits(field: Field, width: usize, n: Whole) -> bool
    ensures { result ≡ cond (eqb field.kind 1) (int_fits field.p field.q width n.negative n.size) (eqb field.kind 2 && binary_fits width (Decode.flag field.q) n.negative n.size) }
{
    match Kind::try_from(field.kind) {
        Ok(Kind::Int) => fits_int(field.p, field.q, width, n),
        Ok(Kind::Binary) => fits_binary(width, flag(field.q), n),
        _ => false,
    }
}

// ---- Float

#[tactic(auto, unfolding(crate::specs::Decide::word_fits))]
fn fits_word(bits: u32, width: usize, x: u64) -> bool
    ensures { result ≡ word_fits bits width x }
{
    float::exact(bits, x) && width == (bits / 8) as usize
}

fn float_fits(kind: u32, bits: u32, width: usize, x: f64) -> bool
    ensures { result ≡ (eqb kind 3 && ((Ieee.fits binary64 x && not (Ieee.is_nan x)) && word_fits bits width (Ieee.to_bits binary64 x))) }
{
    Kind::Float.is(kind) && x == x && fits_word(bits, width, value::float_word(x))
}

fn nan_fits(kind: u32, bits: u32, width: usize, x: u64) -> bool
    ensures { result ≡ (eqb kind 3 && (Ieee.nan_bits binary64 x && word_fits bits width x)) }
{
    Kind::Float.is(kind) && value::is_nan(x) && fits_word(bits, width, x)
}

// ---- Decimal

fn sign_ok(sign: u32, n: Whole) -> bool
    ensures { result ≡ sign_ok sign n.negative n.size }
{
    !n.negative || (flag(sign) && n.size > 0)
}

fn fits_display(width: usize, sign: u32, precision: u32, n: Whole) -> bool
    ensures { result ≡ display_fits width sign precision n.negative n.size }
{
    fits_digits(width, sign, n) && precision as usize <= width
}

fn fits_packed(width: usize, sign: u32, n: Whole) -> bool
    ensures { result ≡ packed_fits width sign n.negative n.size }
{
    packed::fits(width, n.size) && sign_ok(sign, n)
}

fn fits_zoned(width: usize, sign: u32, n: Whole) -> bool
    ensures { result ≡ zoned_fits width sign n.negative n.size }
{
    zoned::fits(width, n.size) && sign_ok(sign, n)
}

#[tactic(auto, unfolding(crate::specs::Decide::decimal_fits))]
fn fits_decimal(p: u32, q: u32, s: u32, width: usize, n: Whole) -> bool
    ensures { result ≡ decimal_fits p q s width n.negative n.size }
{
    if n.size >= LIMIT {
        return false;
    }
    match p {
        0 => fits_display(width, q, s, n),
        1 => fits_packed(width, q, n),
        2 => fits_zoned(width, q, n),
        _ => false,
    }
}

// ---- Edited

fn last_two(a: u8, b: u8, mask: &[u8]) -> bool
    ensures { result ≡ last_two a b mask.now }
{
    mask.ends_with(&[a, b])
}

// Whether a mask tells a minus.
#[tactic(auto, unfolding(crate::specs::Decide::tells))]
fn tells_minus(mask: &[u8]) -> bool
    ensures { result ≡ tells mask.now }
{
    let (Some(first), Some(last)) = (mask.first(), mask.last()) else {
        return false;
    };
    numerals::is_sign(*first)
        || numerals::is_sign(*last)
        || last_two(b'C', b'R', mask)
        || last_two(b'D', b'B', mask)
}

fn edited_minus_ok(signed: bool, n: Whole, mask: &[u8]) -> bool
    ensures { result ≡ edited_minus_ok signed n.negative n.size mask.now }
{
    !n.negative || (n.size > 0 && signed && tells_minus(mask))
}

fn mask_fits(size: u64, mask: &[u8]) -> bool
    ensures { result ≡ mask_fits size mask.now }
{
    let n = Whole {
        negative: false,
        size,
    };
    edited::judge(mask, Ok(n)).is_ok() && edited::count_of(mask, b'0') == 0
}

#[tactic(auto, unfolding(crate::specs::Decide::edited_fits))]
fn fits_edited(signed: bool, width: usize, n: Whole, mask: &[u8]) -> bool
    ensures { result ≡ edited_fits signed width n.negative n.size mask.now }
{
    mask.len() == width && mask_fits(n.size, mask) && edited_minus_ok(signed, n, mask)
}

fn decimal_fits(field: Field, mask: &[u8], width: usize, n: Whole) -> bool
    ensures { result ≡ cond (eqb field.kind 7) (decimal_fits field.p field.q field.s width n.negative n.size)
        (eqb field.kind 8 && edited_fits (Decode.flag field.p) width n.negative n.size mask.now) }
{
    match Kind::try_from(field.kind) {
        Ok(Kind::Decimal) => fits_decimal(field.p, field.q, field.s, width, n),
        Ok(Kind::Edited) => fits_edited(flag(field.p), width, n, mask),
        _ => false,
    }
}

// ---- all kinds

// Whether a value fits a field of a width.
#[tactic(auto, unfolding(crate::specs::Decide::fits_of))]
pub fn fits_scalar(field: Field, mask: &[u8], width: usize, v: Scalar, text: &[u8]) -> bool
    ensures { result ≡ fits_of field.p field.q field.r field.s mask.now width field.kind v text.now }
{
    match v {
        Scalar::Null => false,
        Scalar::Text(_, _) => text_fits(field, width, text),
        Scalar::Int(negative, size) => int_fits(field, width, Whole { negative, size }),
        Scalar::Decimal(negative, size, scale) => {
            scale == u64::from(field.r)
                && decimal_fits(field, mask, width, Whole { negative, size })
        }
        Scalar::Float(x) => float_fits(field.kind, field.q, width, x),
        Scalar::FloatBits(x) => nan_fits(field.kind, field.q, width, x),
        Scalar::Bool(_) => Kind::Bool.is(field.kind) && width == 1,
    }
}
