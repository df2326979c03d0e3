// Zoned decimal fields of any width, on either page.

#![tactic(auto)]

ghost use Rattle.std.specs.Prelude.{◌≡◌, cond, map, ◌+◌, ◌<◌, ltb, length};
ghost use Rattle.codes.specs.Refusals.{number_in};
ghost use Rattle.value.specs.Answer.{refused, given, answered};
ghost use Rattle.value.specs.Number.{read_in, unlawful};
ghost use Rattle.ebcdic.specs.Ebcdic.{from_page, onto_page};
ghost use Rattle.zoned.specs.Zoned.{zoned_by, decode_of, digit_of, last_digit, minus, overpunch, encoded_of, fits_of};

use codes::Refusal;
use value::Whole;

// The digit of a byte.
fn digit(b: u8) -> Result<u8, Refusal>
    ensures { answered result ≡ cond (ltb (digit_of b) 10) (given (digit_of b)) (refused 8) }
{
    match b {
        b'0'..=b'9' => Ok(b - b'0'),
        _ => Err(Refusal::UnlawfulBytes),
    }
}

// The digit of an overpunched last byte.
fn decode_overpunch(b: u8) -> Result<u8, Refusal>
    ensures { answered result ≡ cond (ltb (last_digit b) 10) (given (last_digit b)) (refused 8) }
{
    match b {
        b'0'..=b'9' => Ok(b - b'0'),
        b'A'..=b'I' => Ok(b - 0x40),
        b'J'..=b'R' => Ok(b - 0x49),
        b'{' | b'}' => Ok(0),
        _ => Err(Refusal::UnlawfulBytes),
    }
}

fn is_minus(b: u8) -> bool
    ensures { result ≡ minus b }
{
    matches!(b, b'J'..=b'R' | b'}')
}

// The number of a zoned field, whose size is to be below a bound.
pub fn decode_within(part: &[u8], page: u32, bound: u64) -> Result<Whole, Refusal>
    ensures { answered result ≡ zoned_by (read_in bound) unlawful (map (from_page page) part.now) }
{
    let Some((last, front)) = part.split_last() else {
        return Err(Refusal::UnlawfulBytes);
    };
    let mut size: u64 = 0;
    for b in front {
        let d = digit(ebcdic::from_page(page, *b))?;
        size = value::push_digit(size, d, bound);
    }
    let z = ebcdic::from_page(page, *last);
    let units = decode_overpunch(z)?;
    let total = value::push_digit(size, units, bound);
    value::number_in(bound, is_minus(z), total)
}

// The number of a zoned field.
pub fn decode(part: &[u8], page: u32) -> Result<Whole, Refusal>
    ensures { answered result ≡ decode_of (map (from_page page) part.now) }
{
    decode_within(part, page, value::LIMIT)
}

// A digit with a sign over it.
// Kept: a digit is a byte below 10, here and in `last_byte`; `encode` makes and uses it in one line, so that a type with the bound would be taken apart at once.
fn encode_overpunch(d: u8, negative: bool) -> u8
    requires { d < 10 }
    ensures { result ≡ overpunch d negative }
{
    match (d, negative) {
        (0, true) => b'}',
        (0, false) => b'{',
        (_, true) => 0x49 + d,
        (_, false) => 0x40 + d,
    }
}

fn last_byte(d: u8, negative: bool, signed: bool) -> u8
    requires { d < 10 }
    ensures { result ≡ cond signed (overpunch d negative) (48 + d) }
{
    if signed {
        encode_overpunch(d, negative)
    } else {
        b'0' + d
    }
}

// Whether a size has no more digits than a field has bytes.
pub fn fits(width: usize, size: u64) -> bool
    ensures { result ≡ fits_of width size }
{
    value::has_room(width, size)
}

// Writes a number into a zoned field; a field that it does not fit stays as it was.
pub fn encode(part: &mut [u8], page: u32, n: Whole, signed: bool) -> Result<(), Refusal>
    ensures value { number_in result ≡ cond (fits_of (length part.old) n.size) 0 14 }
    ensures part_after { part.new ≡ cond (fits_of (length part.old) n.size) (map (onto_page page) (encoded_of (length part.old) n.negative n.size signed)) part.old }
{
    if !fits(part.len(), n.size) {
        return Err(Refusal::Misfit);
    }
    let last = part.len() - 1;
    numerals::zero_pad(&mut part[..last], page, value::drop_digit(n.size));
    let b = last_byte(value::last_digit(n.size), n.negative, signed);
    part[last] = ebcdic::onto_page(page, b);
    Ok(())
}
