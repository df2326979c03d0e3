// Binary integers of any byte order, and Bools.

#![tactic(auto)]

ghost use Rattle.std.specs.Prelude.{◌≡◌, Bool, true, cond, ℕ, ◌+◌, ◌*◌, ◌%◌, ◌^◌, ◌<◌, length};
ghost use Rattle.value.specs.Answer.{given, answered};
ghost use Rattle.codes.specs.Refusals.{number_in};
ghost use Rattle.binary.specs.Bytes.{word_in, bytes_of};
ghost use Rattle.binary.specs.Binary.{half_of, width_ok, signed_word, integer_of, integer_bytes, bool_of, is_false};

use codes::Refusal;
use value::Whole;

// One byte more of a word, of which the low 64 bits are kept.
fn push_byte(word: u64, b: &u8) -> u64
    ensures { result ≡ (word * 256 + b.now) % 2 ^ 64 }
{
    word.wrapping_mul(256).wrapping_add(u64::from(*b))
}

// The low 64 bits of the number that bytes spell.
pub fn read_word(part: &[u8], order: u32) -> u64
    ensures { result ≡ word_in order part.now % 2 ^ 64 }
{
    if order == 0 {
        part.iter().fold(0, push_byte)
    } else {
        part.iter().rev().fold(0, push_byte)
    }
}

// The low bytes of a word, the least significant one first in the order Little and last in Big.
pub fn put_word(part: &mut [u8], order: u32, w: u64)
    ensures { part.new ≡ bytes_of order (length part.old) w }
{
    let mut rest = w;
    let n = part.len();
    // Kept: an index, since nothing is known of the bytes after a loop over `iter_mut().rev()`.
    for k in 0..n {
        let i = if order == 0 { n - 1 - k } else { k };
        part[i] = (rest % 256) as u8;
        rest /= 256;
    }
}

// The widths that a Binary field may have.
pub fn width_ok(width: usize) -> bool
    ensures { result ≡ width_ok width }
{
    1 <= width && width <= 8
}

// Half of 256^n, for the widths that a Binary field may have.
// Kept: 0 at any other width is the definition's own number; both callers have asked for the width first, so that an Option would be unwrapped there.
pub fn half_of(n: usize) -> u64
    ensures { result ≡ half_of n }
{
    match n {
        1 => 0x80,
        2 => 0x8000,
        3 => 0x80_0000,
        4 => 0x8000_0000,
        5 => 0x80_0000_0000,
        6 => 0x8000_0000_0000,
        7 => 0x80_0000_0000_0000,
        8 => 0x8000_0000_0000_0000,
        _ => 0,
    }
}

// A number of n bytes as two's complement.
fn signed_word(n: usize, v: u64) -> Whole
    requires { (width_ok n ≡ true) × (v < 256 ^ n) }
    ensures { given result ≡ signed_word n v }
{
    let half = half_of(n);
    if v < half {
        value::signed_size(false, v)
    } else {
        value::signed_size(true, half - (v - half))
    }
}

// The number of a Binary field.
pub fn parse_binary_int(part: &[u8], order: u32, signed: bool) -> Result<Whole, Refusal>
    ensures { answered result ≡ integer_of order signed part.now }
{
    if !width_ok(part.len()) {
        return Err(Refusal::UnlawfulBytes);
    }
    let v = read_word(part, order);
    if signed {
        Ok(signed_word(part.len(), v))
    } else {
        value::number_in(value::INT_LIMIT, false, v)
    }
}

// Writes the low bytes of a number's two's complement; refuses a width that a Binary field can't have, and leaves the part as it was.
pub fn encode_binary_int(part: &mut [u8], order: u32, n: Whole) -> Result<(), Refusal>
    ensures value { number_in result ≡ cond (width_ok (length part.old)) 0 14 }
    ensures part_after { part.new ≡ cond (width_ok (length part.old)) (integer_bytes order (length part.old) n.negative n.size) part.old }
{
    if !width_ok(part.len()) {
        return Err(Refusal::Misfit);
    }
    put_word(part, order, value::word_of(n.negative, n.size));
    Ok(())
}

fn is_false(b: u8) -> bool
    ensures { result ≡ is_false b }
{
    b == 0 || b == 0x30
}

// Whether a Bool field is true.
pub fn parse_bool(part: &[u8]) -> bool
    ensures { result ≡ bool_of part.now }
{
    !part.iter().all(|b| is_false(*b))
}
