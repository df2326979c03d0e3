// Edited (printed amount) fields, on either page: the number that one says, and a number in the picture of a mask.

#![tactic(auto)]

ghost use Rattle.std.specs.Prelude.{◌≡◌, ◌&&◌, cond, map, ◌-◌, eqb, leb, length};
ghost use Rattle.codes.specs.Refusals.{number_in};
ghost use Rattle.value.specs.Answer.{answered};
ghost use Rattle.ebcdic.specs.Ebcdic.{from_page, onto_page};
ghost use Rattle.edited.specs.Edited.{upper, ends_in, minus_at_an_end, negative_of, decoded_of, is_digit_pos, positions, count_of, is_floating, is_mark, follows};
ghost use Rattle.edited.specs.Edited.{is_lawful, fits_in, judged, digit_byte, suppress, edit_byte, sup_after, pad_of, edited, answer_of, written_of};

use codes::Refusal;
use value::Whole;

// ---- reading

fn to_upper(b: u8) -> u8
    ensures { result ≡ upper b }
{
    b.to_ascii_uppercase()
}

// Whether a text ends in the letters a b, of any case.
fn ends_in(t: &[u8], page: u32, a: u8, b: u8) -> bool
    ensures { result ≡ ends_in a b (map (from_page page) t.now) }
{
    let n = t.len();
    n >= 2
        && to_upper(ebcdic::from_page(page, t[n - 2])) == a
        && to_upper(ebcdic::from_page(page, t[n - 1])) == b
}

fn minus_at_an_end(t: &[u8], page: u32) -> bool
    ensures { result ≡ minus_at_an_end (map (from_page page) t.now) }
{
    let n = t.len();
    n > 0 && (ebcdic::from_page(page, t[0]) == b'-' || ebcdic::from_page(page, t[n - 1]) == b'-')
}

// Whether a text without blanks at its ends tells a minus.
#[tactic(auto, unfolding(crate::specs::Edited::negative_of))]
fn is_negative(t: &[u8], page: u32) -> bool
    ensures { result ≡ negative_of (map (from_page page) t.now) }
{
    ends_in(t, page, b'C', b'R') || ends_in(t, page, b'D', b'B') || minus_at_an_end(t, page)
}

// The number of an edited field.
pub fn decode(part: &[u8], page: u32, signed: bool) -> Result<Whole, Refusal>
    ensures { answered result ≡ decoded_of signed (map (from_page page) part.now) }
{
    let n = numerals::kept_digits(part, page);
    if signed {
        let negative = is_negative(numerals::trim(part, page), page);
        value::with_sign(negative, n)
    } else {
        value::with_sign(false, n)
    }
}

// ---- the mask

// A mask byte that takes a digit.
fn is_digit_pos(c: u8) -> bool
    ensures { result ≡ is_digit_pos c }
{
    matches!(c, b'9' | b'Z' | b'*')
}

fn count_positions(mask: &[u8]) -> usize
    ensures { result ≡ positions mask.now }
{
    mask.iter().filter(|c| is_digit_pos(**c)).count()
}

// How many bytes of a mask are sym.
pub fn count_of(mask: &[u8], sym: u8) -> usize
    ensures { result ≡ count_of sym mask.now }
{
    mask.iter().filter(|c| **c == sym).count()
}

// Whether a mask has a byte twice or more.
fn floating(mask: &[u8], sym: u8) -> bool
    ensures { result ≡ leb 2 (count_of sym mask.now) }
{
    count_of(mask, sym) >= 2
}

// Whether $, + or - is repeated.
fn any_floating(mask: &[u8]) -> bool
    ensures { result ≡ is_floating mask.now }
{
    floating(mask, b'$') || floating(mask, b'+') || floating(mask, b'-')
}

fn is_mark(c: u8) -> bool
    ensures { result ≡ is_mark c }
{
    matches!(
        c,
        b'9' | b'Z' | b'*' | b',' | b'.' | b'/' | b'B' | b'0' | b'$' | b'+' | b'-' | b'C' | b'D'
    )
}

// Whether c may stand behind prev.
fn may_follow(prev: u8, c: u8) -> bool
    ensures { result ≡ follows prev c }
{
    match prev {
        b'C' => c == b'R',
        b'D' => c == b'B',
        _ => is_mark(c),
    }
}

// Whether every character of a mask is lawful.
// Kept: `prev` begins at 0, here and in `write`, as in the definitions: it is only compared with C and D, and no line asks whether a byte stands before.
fn lawful(mask: &[u8]) -> bool
    ensures { result ≡ is_lawful mask.now }
{
    let mut prev: u8 = 0;
    for c in mask {
        if !may_follow(prev, *c) {
            return false;
        }
        prev = *c;
    }
    prev != b'C' && prev != b'D'
}

// ---- the questions

// Whether a size is below 10^18 and has no more digits than there are positions.
fn fits_in(n: usize, size: u64) -> bool
    ensures { result ≡ fits_in n size }
{
    size < value::LIMIT && value::has_room(n, size)
}

// Whether a number may be written at a mask. What is no number is refused first, and any other refusal stands behind the question of the mask's $, + and -.
#[tactic(auto, unfolding(crate::specs::Edited::judged))]
pub fn judge(mask: &[u8], n: Result<Whole, Refusal>) -> Result<(), Refusal>
    ensures { number_in result ≡ judged mask.now (answered n) }
{
    if let Err(Refusal::WrongKind) = n {
        return Err(Refusal::WrongKind);
    }
    if any_floating(mask) {
        return Err(Refusal::Mask);
    }
    if !fits_in(count_positions(mask), n?.size) {
        Err(Refusal::Misfit)
    } else if !lawful(mask) {
        Err(Refusal::Mask)
    } else {
        Ok(())
    }
}

// ---- the bytes

// A zero that is suppressed still.
fn still(sup: bool, d: u8) -> bool
    ensures { result ≡ (sup && eqb d 48) }
{
    sup && d == b'0'
}

fn suppressed(sup: bool, d: u8, by: u8) -> u8
    ensures { result ≡ suppress sup d by }
{
    if still(sup, d) { by } else { d }
}

// B is a blank, or the B of DB.
fn blank_byte(negative: bool, prev: u8) -> u8
    ensures { result ≡ cond (negative && eqb prev 68) 66 32 }
{
    if negative && prev == b'D' { b'B' } else { b' ' }
}

// The byte that stands for the mask byte c behind prev.
#[tactic(auto, unfolding(crate::specs::Edited::edit_byte))]
fn edit_byte(negative: bool, pad: u8, prev: u8, c: u8, d: u8, sup: bool) -> u8
    ensures { result ≡ edit_byte negative pad prev c d sup }
{
    match c {
        b'9' => d,
        b'Z' => suppressed(sup, d, b' '),
        b'*' => suppressed(sup, d, b'*'),
        b',' if sup => pad,
        b'B' => blank_byte(negative, prev),
        b'+' if negative => b'-',
        b'-' | b'C' | b'R' | b'D' if !negative => b' ',
        _ => c,
    }
}

#[tactic(auto, unfolding(crate::specs::Edited::sup_after))]
fn sup_after(c: u8, d: u8, sup: bool) -> bool
    ensures { result ≡ sup_after c d sup }
{
    match c {
        b'9' | b'.' => false,
        b'Z' | b'*' => still(sup, d),
        _ => sup,
    }
}

fn digit_byte(size: u64, place: usize) -> u8
    ensures { result ≡ digit_byte size place }
{
    if place >= 20 {
        return b'0';
    }
    b'0' + value::last_digit(size / value::ten_to(place as u64))
}

// The digit positions behind c, from those at c and behind it.
fn left_after(c: u8, left: usize) -> usize
    ensures { result ≡ cond (is_digit_pos c) (left - 1) left }
{
    if is_digit_pos(c) {
        left.saturating_sub(1)
    } else {
        left
    }
}

fn pad_of(mask: &[u8]) -> u8
    ensures { result ≡ pad_of mask.now }
{
    if count_of(mask, b'*') > 0 { b'*' } else { b' ' }
}

fn write(part: &mut [u8], page: u32, mask: &[u8], n: Whole)
    requires { length part.old ≡ length mask.now }
    ensures { part.new ≡ map (onto_page page) (edited n.negative n.size mask.now) }
{
    let pad = pad_of(mask);
    let mut left = count_positions(mask);
    let mut sup = true;
    let mut prev: u8 = 0;
    for (i, c) in mask.iter().enumerate() {
        left = left_after(*c, left);
        let d = digit_byte(n.size, left);
        let b = edit_byte(n.negative, pad, prev, *c, d, sup);
        part[i] = ebcdic::onto_page(page, b);
        sup = sup_after(*c, d, sup);
        prev = *c;
    }
}

// Writes a number in the picture of a mask, if it may be written and the part is as long as the mask; a part that is refused stays as it was.
#[tactic(auto, unfolding(crate::specs::Edited::judged, crate::specs::Edited::written_of))]
pub fn encode(
    part: &mut [u8],
    page: u32,
    mask: &[u8],
    n: Result<Whole, Refusal>,
) -> Result<(), Refusal>
    ensures { (number_in result ≡ answer_of (length part.old) mask.now (answered n)) × (part.new ≡ written_of page mask.now (answered n) part.old) }
{
    judge(mask, n)?;
    if part.len() != mask.len() {
        return Err(Refusal::Misfit);
    }
    write(part, page, mask, n?);
    Ok(())
}
