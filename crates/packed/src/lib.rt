// Packed decimal fields of any width.

#![tactic(auto)]

ghost use Rattle.std.specs.Prelude.{◌≡◌, length, true, cond, ◌+◌, ◌*◌, ◌<◌};
ghost use Rattle.codes.specs.Refusals.{number_in};
ghost use Rattle.value.specs.Answer.{answered};
ghost use Rattle.packed.specs.Packed.{decode_of, fits_of, written_of, sign_of, is_negative, ByPlace};

use codes::Refusal;
use value::Whole;

// The number of a packed field.
pub fn decode(part: &[u8]) -> Result<Whole, Refusal>
    ensures { answered result ≡ decode_of part.now }
{
    let Some((last, front)) = part.split_last() else {
        return Err(Refusal::UnlawfulBytes);
    };
    let mut size: u64 = 0;
    for b in front {
        let high = *b / 16;
        let low = *b % 16;
        if high >= 10 || low >= 10 {
            return Err(Refusal::UnlawfulBytes);
        }
        size = value::push_pair(size, high, low);
    }
    let digit = *last / 16;
    let sign = *last % 16;
    if digit >= 10 || sign < 10 {
        return Err(Refusal::UnlawfulBytes);
    }
    let total = value::push_digit(size, digit, value::LIMIT);
    value::number_in(value::LIMIT, is_negative(sign), total)
}

fn is_negative(sign: u8) -> bool
    ensures { result ≡ is_negative sign }
{
    sign == 0xB || sign == 0xD
}

// Whether a size has no more digits than a field has places.
pub fn fits(width: usize, size: u64) -> bool
    ensures { result ≡ fits_of width size }
{
    width >= 11 || width > 0 && value::has_room(2 * width - 1, size)
}

// Two digits in a byte.
fn pair_of(high: u8, low: u8) -> u8
    requires { (high < 10) × (low < 16) }
    ensures { result ≡ high * 16 + low }
{
    high * 16 + low
}

// The low digits of a size and the sign, from the right.
fn write(part: &mut [u8], size: u64, sign: u8)
    requires { (0 < length part.old) × (sign < 16) }
    ensures { ByPlace part.new size sign }
{
    let last = part.len() - 1;
    part[last] = pair_of(value::last_digit(size), sign);
    let mut rest = value::drop_digit(size);
    // Kept: an index; of what `iter_mut().rev()` writes no contract says anything.
    for i in (0..last).rev() {
        let pair = value::last_pair(rest);
        part[i] = pair_of(pair / 10, pair % 10);
        rest = value::drop_pair(rest);
    }
}

fn sign_of(signed: bool, negative: bool) -> u8
    ensures { (result ≡ sign_of signed negative) × (result < 16) }
{
    match (signed, negative) {
        (true, true) => 0xD,
        (true, false) => 0xC,
        (false, _) => 0xF,
    }
}

// Writes a number into a packed field; a field that it does not fit stays as it was.
pub fn encode(part: &mut [u8], n: Whole, signed: bool) -> Result<(), Refusal>
    ensures value { (number_in result ≡ cond (fits_of (length part.old) n.size) 0 14) × (part.new ≡ written_of part.old n.negative n.size signed) }
    ensures by_place { fits_of (length part.old) n.size ≡ true → ByPlace part.new n.size (sign_of signed n.negative) }
{
    if !fits(part.len(), n.size) {
        return Err(Refusal::Misfit);
    }
    write(part, n.size, sign_of(signed, n.negative));
    Ok(())
}
