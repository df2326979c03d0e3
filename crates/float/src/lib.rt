// Floating-point fields: binary16, binary32 and binary64 read and written, and floats as decimals.

#![tactic(auto)]

ghost use Rattle.std.specs.Prelude.{◌≡◌, ◌+◌, ◌-◌, ◌*◌, ◌/◌, ◌%◌, ◌^◌, ◌<◌, ◌≤◌, true, false, not, ◌&&◌, length, pos, if◌then◌else◌, ◌==◌, nat_lt};
ghost use Rattle.std.specs.Float.Ieee as Ieee;
ghost use Rattle.std.specs.Float.{binary32, binary64};
ghost use Rattle.std.specs.Float.Ieee.Exact.{HasValue};
ghost use Rattle.value.specs.Digits.{capped, signed_of};
ghost use Rattle.value.specs.Answer.{refused, given, answered};
ghost use Rattle.codes.specs.Refusals.{number_in};
ghost use Rattle.value.specs.Rounding.{rounded};
ghost use Rattle.float.specs.Half.{sig, half_word};
ghost use Rattle.float.specs.Single.{wide_word};
ghost use Rattle.float.specs.Narrow.{NarrowFormat, narrowed, infinity_at, pattern_of};
ghost use Rattle.float.specs.Decimal.{to_decimal, of_decimal};
ghost use Rattle.float.specs.Convert.{floated_of, decimal_for};
ghost use Rattle.float.specs.Field.{field_ok, word_for, pattern_for, float_in, float_bytes, nan_half, exact_in};

use codes::Refusal;
use value::{Scalar, Whole};

// ---- binary16 and binary32, read

// The word that a NaN of 16 or 32 bits is read as.
const NAN: u64 = 0x7FF8_0000_0000_0000;

// 2^(e - 25) at e, and at 0 as at 1.
const POWERS: [f64; 31] = [
    0.000000059604644775390625,
    0.000000059604644775390625,
    0.00000011920928955078125,
    0.0000002384185791015625,
    0.000000476837158203125,
    0.00000095367431640625,
    0.0000019073486328125,
    0.000003814697265625,
    0.00000762939453125,
    0.0000152587890625,
    0.000030517578125,
    0.00006103515625,
    0.0001220703125,
    0.000244140625,
    0.00048828125,
    0.0009765625,
    0.001953125,
    0.00390625,
    0.0078125,
    0.015625,
    0.03125,
    0.0625,
    0.125,
    0.25,
    0.5,
    1.0,
    2.0,
    4.0,
    8.0,
    16.0,
    32.0,
];

// m * 2^(e - 25), and for e = 0 what it is for e = 1, in one multiplication that rounds nothing.
fn scaled(m: u64, e: usize) -> f64
    requires { (m < 2048) × (e < 31) }
    ensures { HasValue result false (m * 2 ^ (e - 1)) (2 ^ 24) }
{
    (m as f64) * POWERS[e]
}

// The significand: the digits t, with a leading one of the weight h unless the exponent's field is 0.
fn significand(h: u64, e: u64, t: u64) -> u64
    requires { (t < h) × (h < 2 ^ 62) }
    ensures { result ≡ sig h e t }
{
    if e == 0 { t } else { h + t }
}

// The f64 pattern of the binary16 pattern h.
fn half_word(h: u64) -> u64
    requires { h < 65536 }
    ensures { result ≡ half_word h }
{
    let e = h % 32768 / 1024;
    let t = h % 1024;
    if e == 31 {
        if t != 0 {
            NAN
        } else if h < 32768 {
            0x7FF0_0000_0000_0000
        } else {
            0xFFF0_0000_0000_0000
        }
    } else {
        let x = scaled(significand(1024, e, t), e as usize);
        if h < 32768 {
            f64::to_bits(x)
        } else {
            f64::to_bits(-x)
        }
    }
}

fn is_single_nan(v: u64) -> bool
    ensures { result ≡ Ieee.nan_bits binary32 v }
{
    v % 0x8000_0000 > 0x7F80_0000
}

// A binary32 pattern as an f64's word. Kept beside half_word: f64::from widens binary32 in one step, and nothing does so for binary16.
fn wide_word(v: u64) -> u64
    requires { v < 2 ^ 32 }
    ensures { result ≡ wide_word v }
{
    if is_single_nan(v) {
        NAN
    } else {
        f64::to_bits(f64::from(f32::from_bits(v as u32)))
    }
}

// ---- binary32 and binary16, written

// m / 2^k to the nearest whole number, an exact half to the even one.
fn nearest_even(m: u64, k: u64) -> u64
    requires { m < 2 ^ 53 }
    ensures { result ≡ rounded m (2 ^ k) }
{
    if k > 60 {
        return 0;
    }
    let u = 1 << k;
    let q = m / u;
    let rest = m % u;
    if value::goes_up(rest, u - rest, q) {
        q + 1
    } else {
        q
    }
}

// The leading one's weight in a significand of p digits.
fn leading(p: u64) -> u64
    requires { (1 < p) × (p ≤ 24) }
    ensures { (result ≡ 2 ^ (p - 1)) × (result ≤ 2 ^ 23) }
{
    1 << (p - 1)
}

// A narrow format of IEEE 754: p binary digits in a significand, the smallest positive number 2^-low, and the infinity's field `ones`.
#[derive(Clone, Copy)]
struct Format {
    p: u64,
    low: u64,
    ones: u64,
}

const HALF: Format = Format {
    p: 11,
    low: 24,
    ones: 31,
};

const SINGLE: Format = Format {
    p: 24,
    low: 149,
    ones: 255,
};

// The pattern of the size of a finite f64 with the exponent's field x and the digits t.
fn narrow_size(f: Format, x: u64, t: u64) -> u64
    requires { NarrowFormat f.p f.low f.ones × (t < 2 ^ 52) }
    ensures { result ≡ narrowed f.p (infinity_at f.p f.ones) (sig (2 ^ 52) x t * 2 ^ (x - 1) * 2 ^ f.low) (2 ^ 1074) }
{
    let m = significand(0x10_0000_0000_0000, x, t);
    if x == 0 {
        return nearest_even(m, 1074 - f.low);
    }
    let normal = 1022 + f.p - f.low;
    if x < normal {
        return nearest_even(m, 1075 - f.low - x);
    }
    let k = x - normal;
    let h = leading(f.p);
    if k + 1 < f.ones {
        k * h + nearest_even(m, 53 - f.p)
    } else {
        f.ones * h
    }
}

// The pattern of an f64's word.
#[inline(always)]
fn narrow_word(f: Format, w: u64) -> u64
    requires { NarrowFormat f.p f.low f.ones }
    ensures { result ≡ pattern_of f.p f.low f.ones (Ieee.of_bits binary64 w) }
{
    let h = leading(f.p);
    let size = w % 0x8000_0000_0000_0000;
    if size > 0x7FF0_0000_0000_0000 {
        return f.ones * h + h / 2;
    }
    let a = narrow_size(f, size / 0x10_0000_0000_0000, w % 0x10_0000_0000_0000);
    if w < 0x8000_0000_0000_0000 {
        a
    } else {
        (f.ones + 1) * h + a
    }
}

// ---- decimals

const TENS: [f64; 19] = [
    1.0,
    10.0,
    100.0,
    1000.0,
    10000.0,
    100000.0,
    1000000.0,
    10000000.0,
    100000000.0,
    1000000000.0,
    10000000000.0,
    100000000000.0,
    1000000000000.0,
    10000000000000.0,
    100000000000000.0,
    1000000000000000.0,
    10000000000000000.0,
    100000000000000000.0,
    1000000000000000000.0,
];

fn ten(k: u64) -> f64
    requires { k < 19 }
    ensures { result ≡ Ieee.of_int binary64 (pos (10 ^ k)) }
{
    TENS[k as usize]
}

// The size of a finite f64 with the exponent's field x and the digits t, as a whole number that stops counting at 10^18.
fn whole_size(x: u64, t: u64) -> u64
    requires { t < 2 ^ 52 }
    ensures { result ≡ capped (rounded (sig (2 ^ 52) x t * 2 ^ (x - 1)) (2 ^ 1074)) }
{
    let m = significand(0x10_0000_0000_0000, x, t);
    if x == 0 {
        return nearest_even(m, 1074);
    }
    if x < 1075 {
        return nearest_even(m, 1075 - x);
    }
    let k = x - 1075;
    if k > 10 {
        return value::LIMIT;
    }
    (m << k).min(value::LIMIT)
}

// x * 10^scale as a whole number.
fn to_decimal(x: f64, scale: u64) -> Result<Whole, Refusal>
    ensures { answered result ≡ to_decimal x scale }
{
    if scale > 18 {
        return Err(Refusal::WrongKind);
    }
    let y = x * ten(scale);
    if y != y {
        return Err(Refusal::WrongKind);
    }
    let b = f64::to_bits(y);
    let e = b % 0x8000_0000_0000_0000 / 0x10_0000_0000_0000;
    let t = b % 0x10_0000_0000_0000;
    if e == 2047 {
        return Err(Refusal::Misfit);
    }
    value::amount_of(value::is_minus(b), whole_size(e, t))
}

// The f64 nearest to a sign and a size; 0 has no sign.
// Kept: a sign and a size as a Scalar holds them.
fn nearest_float(negative: bool, size: u64) -> f64
    ensures { result ≡ Ieee.of_int binary64 (signed_of negative size) }
{
    if size == 0 {
        return 0.0;
    }
    let x = std::num::nearest_u64_to_f64(size);
    if negative { -x } else { x }
}

// The decimal's integer over 10^scale.
// Kept: a sign and a size as a Scalar holds them.
fn of_decimal(negative: bool, size: u64, scale: u64) -> f64
    requires { scale < 19 }
    ensures { result ≡ of_decimal negative size scale }
{
    nearest_float(negative, size) / ten(scale)
}

// ---- scalars

// The f64 word that a scalar gives a Float field.
pub fn as_f64(v: Scalar) -> Result<u64, Refusal>
    ensures { answered result ≡ floated_of v }
{
    match v {
        Scalar::Null => Ok(0),
        Scalar::Int(negative, size) => Ok(value::float_word(nearest_float(negative, size))),
        Scalar::Decimal(negative, size, scale) => decimal_word(negative, size, scale),
        Scalar::Float(x) => Ok(value::float_word(x)),
        Scalar::FloatBits(w) => Ok(w),
        Scalar::Text(_, _) | Scalar::Bool(_) => Err(Refusal::WrongKind),
    }
}

// Kept: a sign and a size as a Scalar holds them.
fn decimal_word(negative: bool, size: u64, scale: u64) -> Result<u64, Refusal>
    ensures { answered result ≡ (if nat_lt 18 scale then refused 13 else given (Ieee.to_bits binary64 (of_decimal negative size scale))) }
{
    if scale > 18 {
        return Err(Refusal::WrongKind);
    }
    Ok(value::float_word(of_decimal(negative, size, scale)))
}

// The number that a scalar gives a Decimal field of a scale.
pub fn as_decimal(v: Scalar, scale: u64) -> Result<Whole, Refusal>
    ensures { answered result ≡ decimal_for v scale }
{
    match v {
        Scalar::Null => Ok(value::signed_size(false, 0)),
        Scalar::Int(negative, size) => value::rescale(negative, size, 0, scale),
        Scalar::Decimal(negative, size, from) => value::rescale(negative, size, from, scale),
        Scalar::Float(x) => to_decimal(x, scale),
        Scalar::Text(_, _) | Scalar::FloatBits(_) | Scalar::Bool(_) => Err(Refusal::WrongKind),
    }
}

// ---- fields

// Whether a Float field of a width may have so many bits.
pub fn field_ok(bits: u32, width: usize) -> bool
    ensures { result ≡ field_ok bits width }
{
    match bits {
        16 => width == 2,
        32 => width == 4,
        64 => width == 8,
        _ => false,
    }
}

fn word_for(bits: u32, v: u64) -> u64
    requires { v < 2 ^ bits }
    ensures { result ≡ word_for bits v }
{
    match bits {
        16 => half_word(v),
        32 => wide_word(v),
        _ => v,
    }
}

fn pattern_for(bits: u32, w: u64) -> u64
    ensures { result ≡ pattern_for bits w }
{
    match bits {
        16 => narrow_word(HALF, w),
        32 => narrow_word(SINGLE, w),
        _ => w,
    }
}

// The value of a Float field.
pub fn parse_float(part: &[u8], bits: u32, order: u32) -> Result<Scalar, Refusal>
    ensures { answered result ≡ float_in order bits part.now }
{
    if !field_ok(bits, part.len()) {
        return Err(Refusal::UnlawfulBytes);
    }
    let v = binary::read_word(part, order);
    Ok(value::float_scalar(word_for(bits, v)))
}

// Writes an f64's word; refuses a width that a Float field can't have, and leaves the part as it was.
pub fn encode_float(part: &mut [u8], word: u64, bits: u32, order: u32) -> Result<(), Refusal>
    ensures value { number_in result ≡ (if field_ok bits (length part.old) then 0 else 14) }
    ensures part_after { part.new ≡ (if field_ok bits (length part.old) then float_bytes order bits (length part.old) word else part.old) }
{
    if !field_ok(bits, part.len()) {
        return Err(Refusal::Misfit);
    }
    binary::put_word(part, order, pattern_for(bits, word));
    Ok(())
}

// ---- the words that a field keeps

fn is_half_nan(v: u64) -> bool
    ensures { result ≡ nan_half v }
{
    v % 32768 > 31744
}

// Whether a field of so many bits keeps an f64's word: what is written for it is no NaN and reads as the word; 64 bits keep each word.
pub fn exact(bits: u32, w: u64) -> bool
    ensures { result ≡ exact_in bits w }
{
    let v = pattern_for(bits, w);
    match bits {
        16 => !is_half_nan(v) && half_word(v) == w,
        32 => !is_single_nan(v) && wide_word(v) == w,
        64 => true,
        _ => false,
    }
}
