// Int and Display fields: numbers as text, on either page, of any width.

#![tactic(auto)]

ghost use Rattle.std.specs.Prelude.{◌≡◌, map, cond, Some, None, eqb, length};
ghost use Rattle.codes.specs.Refusals.{number_in};
ghost use Rattle.value.specs.Answer.{answered};
ghost use Rattle.ebcdic.specs.Ebcdic.{from_page};
ghost use Rattle.numerals.specs.Numerals.{trimmed, is_sign};
ghost use Rattle.display.specs.Display.{is_separate, sign_at, rest_of, digits_in, whole_of, int_of, decimal_of, or_refused, whole_in};
ghost use Rattle.display.specs.Display.{int_fits, int_written, has_sign, decimal_fits, decimal_written};

use codes::Refusal;
use value::{Scalar, Whole};

// ---- a separate sign

fn is_separate(sign: u32) -> bool
    ensures { result ≡ is_separate sign }
{
    matches!(sign, 2 | 3)
}

// Whether the separate sign of a trimmed text is a minus, if it has such a sign, and the text without it.
fn strip_separate_sign(part: &[u8], page: u32, sign: u32) -> (Option<bool>, &[u8])
    ensures minus { result.0 ≡ cond (is_sign (sign_at sign (map (from_page page) part.now))) (Some (eqb (sign_at sign (map (from_page page) part.now)) 45)) None }
    ensures rest { map (from_page page) result.1.now ≡ rest_of sign (map (from_page page) part.now) }
{
    let (b, rest) = match (sign, part) {
        (2, [b, rest @ ..]) => (*b, rest),
        (3, [rest @ .., b]) => (*b, rest),
        _ => return (None, part),
    };
    match ebcdic::from_page(page, b) {
        b'-' => (Some(true), rest),
        b'+' => (Some(false), rest),
        _ => (None, part),
    }
}

// ---- reading

// The number of a text of digits alone.
fn digits_in(part: &[u8], page: u32, bound: u64, negative: bool) -> Result<Whole, Refusal>
    ensures { answered result ≡ digits_in bound negative (map (from_page page) part.now) }
{
    if part.is_empty() {
        return Err(Refusal::UnlawfulBytes);
    }
    let mut size: u64 = 0;
    for b in part {
        let x = ebcdic::from_page(page, *b);
        if !value::is_digit(x) {
            return Err(Refusal::UnlawfulBytes);
        }
        size = value::push_digit(size, value::digit_in(x), bound);
    }
    value::number_in(bound, negative, size)
}

// The number of a text of digits with one leading sign or none.
fn whole_of(part: &[u8], page: u32) -> Result<Whole, Refusal>
    ensures { answered result ≡ whole_of (map (from_page page) part.now) }
{
    let Some((first, rest)) = part.split_first() else {
        return Err(Refusal::UnlawfulBytes);
    };
    match ebcdic::from_page(page, *first) {
        b'-' => digits_in(rest, page, value::INT_LIMIT + 1, true),
        b'+' => digits_in(rest, page, value::INT_LIMIT, false),
        _ => digits_in(part, page, value::INT_LIMIT, false),
    }
}

// The number of an Int field.
pub fn parse_display_int(part: &[u8], page: u32, sign: u32) -> Result<Whole, Refusal>
    ensures { answered result ≡ int_of sign (map (from_page page) part.now) }
{
    let t = numerals::trim(part, page);
    let (minus, rest) = strip_separate_sign(t, page, sign);
    let u = numerals::trim(rest, page);
    if u.is_empty() {
        return Ok(value::signed_size(false, 0));
    }
    match minus {
        Some(minus) => digits_in(u, page, value::INT_LIMIT, minus),
        None => whole_of(u, page),
    }
}

// The unscaled number of a Display field.
pub fn parse_display_decimal(part: &[u8], page: u32, sign: u32) -> Result<Whole, Refusal>
    ensures { answered result ≡ decimal_of sign (map (from_page page) part.now) }
{
    let t = numerals::trim(part, page);
    let (minus, rest) = strip_separate_sign(t, page, sign);
    value::with_sign(minus == Some(true), numerals::kept_digits(rest, page))
}

// A text that is meant as a number is refused by one question, whatever refuses it as one.
fn or_refused(n: Result<Whole, Refusal>) -> Result<Whole, Refusal>
    ensures { answered result ≡ or_refused (answered n) }
{
    n.map_err(|_| Refusal::WrongKind)
}

fn text_whole(text: &[u8]) -> Result<Whole, Refusal>
    ensures { answered result ≡ or_refused (whole_of (trimmed text.now)) }
{
    or_refused(whole_of(numerals::trim(text, 0), 0))
}

// The integer that a scalar stands for; `text` holds the bytes of a Text.
#[inline(always)]
pub fn as_i128(v: Scalar, text: &[u8]) -> Result<Whole, Refusal>
    ensures { answered result ≡ whole_in v text.now }
{
    match v {
        Scalar::Null => Ok(value::signed_size(false, 0)),
        Scalar::Text(_, _) => text_whole(text),
        Scalar::Int(negative, size) | Scalar::Decimal(negative, size, 0) => {
            Ok(value::signed_size(negative, size))
        }
        _ => Err(Refusal::WrongKind),
    }
}

// ---- writing

#[tactic(auto, unfolding(crate::specs::Display::int_fits))]
pub fn fits_int(width: usize, n: Whole, signed: bool, sign: u32) -> bool
    ensures { result ≡ int_fits width n.negative n.size signed sign }
{
    if is_separate(sign) {
        width > 0 && value::has_room(width - 1, n.size)
    } else {
        (signed || !n.negative) && value::has_room(width, n.size)
    }
}

// Writes a number into an Int field; a field that it does not fit stays as it was.
pub fn encode_display_int(
    part: &mut [u8],
    page: u32,
    n: Whole,
    signed: bool,
    sign: u32,
) -> Result<(), Refusal>
    ensures value { number_in result ≡ cond (int_fits (length part.old) n.negative n.size signed sign) 0 14 }
    ensures part_after { part.new ≡ int_written page n.negative n.size signed sign part.old }
{
    let w = part.len();
    if !fits_int(w, n, signed, sign) {
        return Err(Refusal::Misfit);
    }
    match sign {
        2 => {
            numerals::zero_pad(part, page, n.size);
            part[0] = numerals::sign_on(page, n.negative);
        }
        3 => {
            let last = w - 1;
            numerals::zero_pad(&mut part[..last], page, n.size);
            part[last] = numerals::sign_on(page, n.negative);
        }
        _ => numerals::zero_pad(part, page, n.size),
    }
    Ok(())
}

fn has_sign(sign: u32) -> bool
    ensures { result ≡ has_sign sign }
{
    matches!(sign, 1..=3)
}

#[tactic(auto, unfolding(crate::specs::Display::decimal_fits))]
pub fn fits_decimal(width: usize, precision: u32, n: Whole, sign: u32) -> bool
    ensures { result ≡ decimal_fits width precision n.negative n.size sign }
{
    precision as usize <= width && fits_int(width, n, has_sign(sign), sign)
}

// Writes an unscaled number into a Display field; a field that it does not fit stays as it was.
#[tactic(auto, unfolding(crate::specs::Display::decimal_fits, crate::specs::Display::decimal_written, crate::specs::Display::int_written))]
pub fn encode_display_decimal(
    part: &mut [u8],
    page: u32,
    precision: u32,
    n: Whole,
    sign: u32,
) -> Result<(), Refusal>
    ensures value { number_in result ≡ cond (decimal_fits (length part.old) precision n.negative n.size sign) 0 14 }
    ensures part_after { part.new ≡ decimal_written page precision n.negative n.size sign part.old }
{
    if precision as usize > part.len() {
        return Err(Refusal::Misfit);
    }
    encode_display_int(part, page, n, has_sign(sign), sign)
}
