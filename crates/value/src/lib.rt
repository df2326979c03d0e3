// What every kind of field shares: decimal digits and sizes, the answer for a number, scales, words, and the scalar that becomes an item.

#![tactic(auto)]

ghost use Rattle.std.specs.Prelude.{◌≡◌, ℕ, ◌+◌, ◌*◌, ◌/◌, ◌%◌, ◌^◌, ◌<◌, ◌≤◌, min, Bool, length, if◌then◌else◌};
ghost use Rattle.std.specs.Float.Ieee as Ieee;
ghost use Rattle.std.specs.Float.{binary64};
ghost use Rattle.value.specs.Digits.{capped, limit, room_for, is_digit, digit_in};
ghost use Rattle.value.specs.Answer.{given, answered};
ghost use Rattle.value.specs.Number.{some, read_in, amount_of, with_sign};
ghost use Rattle.value.specs.Rounding.{goes_up, rounded, rescaled};
ghost use Rattle.value.specs.Word.{word_of, minus_in, size_in, power_ten};
ghost use Rattle.value.specs.Scalar.{tag_of, first_of, second_of, float_of, scalar_of};

use codes::{Refusal, Tag};

// A whole number: whether it is negative, and its size; 0 is never negative.
#[derive(Clone, Copy, Debug, PartialEq, Eq)]
pub struct Whole {
    pub negative: bool,
    pub size: u64,
}

// A field's value before it becomes an item: Text is a start and a length in a text buffer, Int and Decimal a sign and a size,
// Decimal's last number its scale. A float that is a NaN is kept by its bits.
#[derive(Clone, Copy)]
pub enum Scalar {
    Null,
    Text(u64, u64),
    Int(bool, u64),
    Decimal(bool, u64, u64),
    Float(f64),
    FloatBits(u64),
    Bool(bool),
}

// ---- sizes: the steps by which every reader and writer goes

// A Decimal's size is below 10^18.
pub const LIMIT: u64 = 1000000000000000000;

// An Int's size is below 2^63, but for -2^63: so a word is negative from 2^63 on.
pub const INT_LIMIT: u64 = 0x8000_0000_0000_0000;

pub fn is_digit(x: u8) -> bool
    ensures { result ≡ is_digit x }
{
    x.is_ascii_digit()
}

// What a digit's byte is worth; 0 for a byte below the digits.
pub fn digit_in(x: u8) -> u8
    ensures { result ≡ digit_in x }
{
    x.saturating_sub(b'0')
}

// One digit more of a size that stops counting at a cap.
pub fn push_digit(size: u64, digit: u8, cap: u64) -> u64
    ensures { result ≡ min (size * 10 + digit) cap }
{
    if size >= cap.div_ceil(10) {
        return cap;
    }
    (size * 10).saturating_add(u64::from(digit)).min(cap)
}

// Two digits more.
pub fn push_pair(size: u64, high: u8, low: u8) -> u64
    ensures { result ≡ capped (capped (size * 10 + high) * 10 + low) }
{
    if size < 9000000000000000 {
        return size * 100 + (high as u64 * 10 + low as u64);
    }
    push_digit(push_digit(size, high, LIMIT), low, LIMIT)
}

// The units of a size.
pub fn last_digit(size: u64) -> u8
    ensures { (result ≡ size % 10) × (result < 10) }
{
    (size % 10) as u8
}

// A size without its units.
pub fn drop_digit(size: u64) -> u64
    ensures { result ≡ size / 10 }
{
    size / 10
}

// The two low digits of a size.
pub fn last_pair(size: u64) -> u8
    ensures { (result ≡ size % 100) × (result < 100) }
{
    (size % 100) as u8
}

// A size without its two low digits.
pub fn drop_pair(size: u64) -> u64
    ensures { result ≡ size / 100 }
{
    size / 100
}

// Whether a size has no more digits than there are places.
pub fn has_room(places: usize, size: u64) -> bool
    ensures { result ≡ room_for places size }
{
    places > 0 && (places >= 20 || size < ten_to(places as u64))
}

// The whole number of a sign and a size.
// Kept: a sign and a size apart, of which it makes a Whole.
pub fn signed_size(negative: bool, size: u64) -> Whole
    ensures { given result ≡ some negative size }
{
    Whole {
        negative: negative && size != 0,
        size,
    }
}

// The number of a sign and a size that are read, where the size is to be below a bound.
// Kept: a sign and a size apart, of which it makes a Whole.
pub fn number_in(bound: u64, negative: bool, size: u64) -> Result<Whole, Refusal>
    ensures { answered result ≡ read_in bound negative size }
{
    if size >= bound {
        return Err(Refusal::OutOfRange);
    }
    Ok(signed_size(negative, size))
}

// A number with a sign in front of it.
pub fn with_sign(negative: bool, n: Result<Whole, Refusal>) -> Result<Whole, Refusal>
    ensures { answered result ≡ with_sign negative (answered n) }
{
    Ok(signed_size(negative, n?.size))
}

// The number of a sign and a size that are to be written. Kept beside number_in: each is a question of its own, and its definition another.
// Kept: a sign and a size apart, of which it makes a Whole.
pub fn amount_of(negative: bool, size: u64) -> Result<Whole, Refusal>
    ensures { answered result ≡ amount_of negative size }
{
    if size >= LIMIT {
        return Err(Refusal::Misfit);
    }
    Ok(signed_size(negative, size))
}

// 10^k where a word holds it, else 0. Kept: the definition gives that number, and who asks has looked that k is at most 19.
pub fn ten_to(k: u64) -> u64
    ensures { result ≡ power_ten k }
{
    match k {
        0 => 1,
        1 => 10,
        2 => 100,
        3 => 1000,
        4 => 10000,
        5 => 100000,
        6 => 1000000,
        7 => 10000000,
        8 => 100000000,
        9 => 1000000000,
        10 => 10000000000,
        11 => 100000000000,
        12 => 1000000000000,
        13 => 10000000000000,
        14 => 100000000000000,
        15 => 1000000000000000,
        16 => 10000000000000000,
        17 => 100000000000000000,
        18 => 1000000000000000000,
        19 => 10000000000000000000,
        _ => 0,
    }
}

// Whether what lies so far above q and so far below q + 1 goes up: to the nearer of the two, and from an exact half to the even one.
pub fn goes_up(above: u64, below: u64, q: u64) -> bool
    ensures { result ≡ goes_up above below q }
{
    if above == below {
        q % 2 == 1
    } else {
        above > below
    }
}

// A size of one scale at another, as an amount.
// Kept: a sign and a size apart, of which it makes a Whole.
pub fn rescale(negative: bool, size: u64, from: u64, to: u64) -> Result<Whole, Refusal>
    ensures { answered result ≡ amount_of negative (rescaled from to size) }
{
    if from == to {
        amount_of(negative, size)
    } else if from < to {
        scale_up(negative, size, to - from)
    } else {
        amount_of(negative, rounded(size, from - to))
    }
}

// A size without k digits, to the nearest. From k = 20 on no size comes to a half.
pub fn rounded(size: u64, k: u64) -> u64
    ensures { result ≡ rounded size (10 ^ k) }
{
    if k > 19 {
        return 0;
    }
    let p = ten_to(k);
    let q = size / p;
    let rest = size % p;
    if goes_up(rest, p - rest, q) { q + 1 } else { q }
}

// A size with k zeros more.
// Kept: a sign and a size apart, of which it makes a Whole.
fn scale_up(negative: bool, size: u64, k: u64) -> Result<Whole, Refusal>
    ensures { answered result ≡ amount_of negative (size * 10 ^ k) }
{
    if size == 0 {
        return amount_of(negative, 0);
    }
    if k > 18 || size >= ten_to(18 - k) {
        return Err(Refusal::Misfit);
    }
    amount_of(negative, size * ten_to(k))
}

// ---- words

// The two's-complement word of a sign and a size.
// Kept: a sign and a size as a Scalar holds them.
pub fn word_of(negative: bool, size: u64) -> u64
    ensures { result ≡ word_of negative size }
{
    if negative { size.wrapping_neg() } else { size }
}

pub fn is_minus(w: u64) -> bool
    ensures { result ≡ minus_in w }
{
    w >= INT_LIMIT
}

pub fn size_of(w: u64) -> u64
    ensures { result ≡ size_in w }
{
    if is_minus(w) { w.wrapping_neg() } else { w }
}

// ---- scalars and items

// The bits of a float that is no NaN, or 0x7FF8000000000000.
pub fn float_word(x: f64) -> u64
    ensures { result ≡ Ieee.to_bits binary64 x }
{
    if x == x {
        return f64::to_bits(x);
    }
    0x7FF8000000000000
}

// An item's words behind its name.
#[derive(Clone, Copy)]
pub struct Words {
    pub tag: u64,
    pub a: u64,
    pub b: u64,
}

// The words of a scalar's item.
impl From<Scalar> for Words {
    ghost from_gives = { λ s words. (words.tag ≡ tag_of s) × ((words.a ≡ first_of s) × (words.b ≡ second_of s)) };

    fn from(s: Scalar) -> Words {
        let (tag, a, b) = match s {
            Scalar::Null => (Tag::Null, 0, 0),
            Scalar::Text(start, count) => (Tag::Text, start, count),
            Scalar::Int(negative, size) => (Tag::Int, word_of(negative, size), 0),
            Scalar::Decimal(negative, size, scale) => (
                Tag::Decimal,
                word_of(negative, size),
                scale,
            ),
            Scalar::Float(x) => (Tag::Float, float_word(x), 0),
            Scalar::FloatBits(w) => (Tag::Float, w, 0),
            Scalar::Bool(b) => (Tag::Bool, u64::from(b), 0),
        };
        Words {
            tag: tag.into(),
            a,
            b,
        }
    }
}

// Whether a float's bits are those of a NaN.
pub fn is_nan(w: u64) -> bool
    ensures { result ≡ Ieee.nan_bits binary64 w }
{
    w % 0x8000_0000_0000_0000 > 0x7FF0_0000_0000_0000
}

// The scalar of a float's bits.
pub fn float_scalar(w: u64) -> Scalar
    ensures { result ≡ float_of w }
{
    if is_nan(w) {
        Scalar::FloatBits(w)
    } else {
        Scalar::Float(f64::from_bits(w))
    }
}

// The scalar of an item's words.
impl From<Words> for Scalar {
    ghost from_gives = { λ words s. s ≡ scalar_of words.tag words.a words.b };

    #[tactic(auto, unfolding(crate::specs::Scalar::scalar_of))]
    fn from(words: Words) -> Scalar {
        let Words { tag, a, b } = words;
        match Tag::try_from(tag) {
            Ok(Tag::Text) => Scalar::Text(a, b),
            Ok(Tag::Int) => Scalar::Int(is_minus(a), size_of(a)),
            Ok(Tag::Decimal) => Scalar::Decimal(is_minus(a), size_of(a), b),
            Ok(Tag::Float) => float_scalar(a),
            Ok(Tag::Bool) => Scalar::Bool(a == 1),
            _ => Scalar::Null,
        }
    }
}
