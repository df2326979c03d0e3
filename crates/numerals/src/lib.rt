// Numbers as text, on either page: blanks at the ends, the digits among the bytes, digits and signs written.

#![tactic(auto)]

ghost use Rattle.std.specs.Prelude.{◌≡◌, map, Bool, false, ◌+◌, ◌≤◌, ◌<◌, length, take, drop};
ghost use Rattle.lists.specs.Part.{place_in};
ghost use Rattle.lists.specs.Scan.{left_by, left_count, right_by};
ghost use Rattle.value.specs.Digits.{digit_text, limit};
ghost use Rattle.value.specs.Answer.{answered};
ghost use Rattle.value.specs.Number.{read_in, unlawful};
ghost use Rattle.ebcdic.specs.Ebcdic.{from_page, onto_page};
ghost use Rattle.numerals.specs.Numerals.{is_blank, trimmed, is_ascii, kept_by, is_sign, sign_byte};

use codes::Refusal;
use value::Whole;

// ---- reading

pub fn is_blank(x: u8) -> bool
    ensures { result ≡ is_blank x }
{
    matches!(x, b' ' | 9..=13)
}

fn blank_on(page: u32, b: u8) -> bool
    ensures { result ≡ is_blank (from_page page b) }
{
    is_blank(ebcdic::from_page(page, b))
}

fn blanks_left(part: &[u8], page: u32) -> usize
    ensures { (result ≤ length part.now) × (drop result part.now ≡ left_by (λ b. is_blank (from_page page b)) part.now) }
{
    part.iter()
        .position(|b| !blank_on(page, *b))
        .unwrap_or(part.len())
}

fn blanks_right(part: &[u8], page: u32) -> usize
    ensures { (result ≤ length part.now) × (take result part.now ≡ right_by (λ b. is_blank (from_page page b)) part.now) }
{
    part.len()
        - part
            .iter()
            .rev()
            .position(|b| !blank_on(page, *b))
            .unwrap_or(part.len())
}

// The text without the blanks at its ends, as a part of it.
pub fn trim(part: &[u8], page: u32) -> &[u8]
    ensures result_value { map (from_page page) result.now ≡ trimmed (map (from_page page) part.now) }
    ensures ref_ptr_value { result.ref_ptr ≡ place_in part.entry (left_count is_blank (map (from_page page) part.now)) }
{
    let t = &part[blanks_left(part, page)..];
    &t[..blanks_right(t, page)]
}

fn is_ascii(x: u8) -> bool
    ensures { result ≡ is_ascii x }
{
    x.is_ascii()
}

// The size that the digits of a text spell, other bytes skipped.
pub fn kept_digits(part: &[u8], page: u32) -> Result<Whole, Refusal>
    ensures { answered result ≡ kept_by (read_in limit false) unlawful (map (from_page page) part.now) }
{
    let mut size: u64 = 0;
    for b in part {
        let x = ebcdic::from_page(page, *b);
        if !is_ascii(x) {
            return Err(Refusal::UnlawfulBytes);
        }
        if value::is_digit(x) {
            size = value::push_digit(size, value::digit_in(x), value::LIMIT);
        }
    }
    value::number_in(value::LIMIT, false, size)
}

pub fn is_sign(x: u8) -> bool
    ensures { result ≡ is_sign x }
{
    x == b'-' || x == b'+'
}

// ---- writing

// Kept: a digit is a byte below 10; `zero_pad` makes and uses it in one line, so that a type with the bound would be taken apart at once.
fn digit_on(page: u32, d: u8) -> u8
    requires { d < 10 }
    ensures { result ≡ onto_page page (48 + d) }
{
    ebcdic::onto_page(page, b'0' + d)
}

// The low digits of a size, as many as there are places.
pub fn zero_pad(part: &mut [u8], page: u32, size: u64)
    ensures { part.new ≡ map (onto_page page) (digit_text (length part.old) size) }
{
    let mut rest = size;
    // Kept: an index; of what `part.iter_mut().rev()` writes no contract says anything.
    for i in (0..part.len()).rev() {
        part[i] = digit_on(page, value::last_digit(rest));
        rest = value::drop_digit(rest);
    }
}

pub fn sign_on(page: u32, negative: bool) -> u8
    ensures { result ≡ onto_page page (sign_byte negative) }
{
    ebcdic::onto_page(page, if negative { b'-' } else { b'+' })
}
