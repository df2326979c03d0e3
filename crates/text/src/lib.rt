// Text fields and Pads of a record.

#![tactic(auto)]

ghost use Rattle.std.specs.Prelude.{◌≡◌, Bool, cond, ◌∷◌, map, ◌+◌, ◌≤◌, ◌<◌, leb, length, take, drop};
ghost use Rattle.lists.specs.Part.{place_in};
ghost use Rattle.lists.specs.Scan.{left_by, left_count, right_by, before_by};
ghost use Rattle.ebcdic.specs.Ebcdic.{from_page};
ghost use Rattle.value.specs.Answer.{answered};
ghost use Rattle.codes.specs.Refusals.{number_in};
ghost use Rattle.text.specs.Text.{is_byte, read_text, cut_from, front, put_of, put_in, written_in, padded};
ghost use Rattle.value.specs.Digits.{digit_text};
ghost use Rattle.text.specs.Shown.{digit_count, whole_text, minus_text, int_text, decimal_text, bool_text, placed};
ghost use Rattle.text.specs.Shown.{shows, is_text, shown_of, text_in, answer_of, shown_in, room_of, refusal_at, encoded_in};

use codes::Refusal;
use value::Scalar;

// ---- reading

// How many pads stand at the left end.
pub fn pad_start(s: &[u8], pad: u8) -> usize
    ensures { (result ≡ left_count (is_byte pad) s.now) × (drop result s.now ≡ left_by (is_byte pad) s.now) }
{
    s.iter().position(|b| *b != pad).unwrap_or(s.len())
}

// Where the pads at the right end start.
fn pad_end(s: &[u8], pad: u8) -> usize
    ensures { (result ≤ length s.now) × (take result s.now ≡ right_by (is_byte pad) s.now) }
{
    s.len() - s.iter().rev().position(|b| *b != pad).unwrap_or(s.len())
}

// Where the first 0 byte stands, or the length.
// Kept: one call of std; lines' line_end is another.
fn zero_at(s: &[u8]) -> usize
    ensures { (result ≤ length s.now) × (take result s.now ≡ before_by (is_byte 0) s.now) }
{
    s.iter().position(|b| *b == 0).unwrap_or(s.len())
}

// Where a left-justified text ends: before the first 0 byte and the pads in front of it. The pads at the right end are passed first, so that they are not searched for a 0 byte.
fn text_end(s: &[u8], pad: u8) -> usize
    ensures { (result ≤ length s.now) × (take result s.now ≡ right_by (is_byte pad) (before_by (is_byte 0) s.now)) }
{
    let e = pad_end(s, pad);
    let z = zero_at(&s[..e]);
    if z == e { e } else { pad_end(&s[..z], pad) }
}

// The bytes of a field that are its text, as a part of it. The pad is looked for as it stands on the page.
// Kept: `right`, `pad` and `page` one by one, here and in what writes a text: a caller has the first two from an entry and the page from its layout,
// and of the functions that are not called from outside only `justify_pad` takes all three, so that a struct would be made at each call for the one.
pub fn trimmed(s: &[u8], page: u32, right: bool, trim: bool, pad: u8) -> &[u8]
    ensures result_value { map (from_page page) result.now ≡ read_text page right trim pad s.now }
    ensures ref_ptr_value { result.ref_ptr ≡ place_in s.entry (cut_from right trim pad (map (from_page page) s.now)) }
{
    if !trim {
        return s;
    }
    let p = ebcdic::onto_page(page, pad);
    if right {
        let t = &s[pad_start(s, p)..];
        &t[..zero_at(t)]
    } else {
        &s[..text_end(s, p)]
    }
}

// The reader's leaf: the text of a field's bytes to the front of a buffer, if it has room, and its length.
pub fn put_text(
    s: &[u8],
    page: u32,
    right: bool,
    trim: bool,
    pad: u8,
    out: &mut [u8],
) -> Result<usize, Refusal>
    ensures result_value { answered result ≡ put_of (read_text page right trim pad s.now) out.old }
    ensures out_after { out.new ≡ put_in (read_text page right trim pad s.now) out.old }
{
    let t = trimmed(s, page, right, trim, pad);
    if t.len() > out.len() {
        return Err(Refusal::NoRoom);
    }
    ebcdic::decode_slice(t, page, out);
    Ok(t.len())
}

// ---- writing

// A Pad's bytes.
pub fn fill_pad(part: &mut [u8], pad: u8, page: u32)
    ensures { part.new ≡ padded page pad (length part.old) }
{
    part.fill(ebcdic::onto_page(page, pad));
}

// The text at the left or right of a field's bytes, pads elsewhere, each byte on its page, if it has room.
#[inline(always)]
fn justify_pad(part: &mut [u8], text: &[u8], right: bool, pad: u8, page: u32) -> Result<(), Refusal>
    ensures value { number_in result ≡ refusal_at (length part.old) (shows text.now) }
    ensures part_after { part.new ≡ written_in page right pad part.old text.now }
{
    fits(part.len(), text.len())?;
    fill_pad(part, pad, page);
    let start = if right { part.len() - text.len() } else { 0 };
    ebcdic::encode_slice(text, page, &mut part[start..]);
    Ok(())
}

// Whether a text of n bytes fits a width.
fn fits(width: usize, n: usize) -> Result<(), Refusal>
    ensures { number_in result ≡ cond (leb n width) 0 14 }
{
    if n <= width {
        Ok(())
    } else {
        Err(Refusal::Misfit)
    }
}

// ---- a scalar as text

// How many digits a size has.
fn digit_count(v: u64) -> usize
    ensures { result ≡ digit_count v }
{
    for n in 1..20 {
        if v < value::ten_to(n as u64) {
            return n;
        }
    }
    20
}

// The low digits of a size in all bytes of a part.
fn spell(part: &mut [u8], v: u64)
    ensures { part.new ≡ digit_text (length part.old) v }
{
    numerals::zero_pad(part, 0, v);
}

// A minus to the front, if the number has one; where the next byte goes.
// Kept: a sign and a size as a Scalar holds them.
fn put_minus(out: &mut [u8; 24], negative: bool, size: u64) -> usize
    ensures value { result ≡ length (minus_text negative size) }
    ensures out_after { out.new ≡ front (minus_text negative size) out.old }
{
    if negative && size != 0 {
        out[0] = b'-';
        1
    } else {
        0
    }
}

// A size without leading zeros at a place; where the next byte goes.
fn put_whole(out: &mut [u8], at: usize, size: u64) -> usize
    requires { at + 20 ≤ length out.old }
    ensures value { result ≡ at + length (whole_text size) }
    ensures out_after { out.new ≡ placed at (whole_text size) out.old }
{
    let n = digit_count(size);
    let end = at + n;
    spell(&mut out[at..end], size);
    end
}

// A point and the digits of a scale at a place; where the next byte goes.
fn put_fraction(out: &mut [u8], at: usize, size: u64, scale: usize) -> usize
    requires { at + 1 + scale ≤ length out.old }
    ensures value { result ≡ at + length (46 ∷ digit_text scale size) }
    ensures out_after { out.new ≡ placed at (46 ∷ digit_text scale size) out.old }
{
    out[at] = b'.';
    let start = at + 1;
    let end = start + scale;
    spell(&mut out[start..end], size);
    end
}

// An integer to the front; its length.
// Kept: a sign and a size as a Scalar holds them.
fn show_int(out: &mut [u8; 24], negative: bool, size: u64) -> usize
    ensures value { (result ≡ length (int_text negative size)) × (result ≤ 24) }
    ensures out_after { out.new ≡ front (int_text negative size) out.old }
{
    let at = put_minus(out, negative, size);
    put_whole(out, at, size)
}

// A decimal to the front; its length.
// Kept: a sign and a size as a Scalar holds them.
fn show_decimal(out: &mut [u8; 24], negative: bool, size: u64, scale: u64) -> usize
    requires { scale ≤ 18 }
    ensures value { (result ≡ length (decimal_text negative size scale)) × (result ≤ 24) }
    ensures out_after { out.new ≡ front (decimal_text negative size scale) out.old }
{
    if scale == 0 {
        return show_int(out, negative, size);
    }
    let at = put_minus(out, negative, size);
    let p = value::ten_to(scale);
    let point = put_whole(out, at, size / p);
    put_fraction(out, point, size, scale as usize)
}

// `true` or `false` to the front; its length.
fn show_bool(out: &mut [u8; 24], b: bool) -> usize
    ensures value { (result ≡ length (bool_text b)) × (result ≤ 24) }
    ensures out_after { out.new ≡ front (bool_text b) out.old }
{
    let text: &[u8] = if b { b"true" } else { b"false" };
    out[..text.len()].copy_from_slice(text);
    text.len()
}

fn is_text(v: Scalar) -> bool
    ensures { result ≡ is_text v }
{
    matches!(v, Scalar::Text(_, _))
}

// The text of a scalar that is no Text to the front of an array, and its length; the array's other bytes stay.
pub fn display_scalar(v: Scalar, out: &mut [u8; 24]) -> Result<usize, Refusal>
    ensures result_value { answered result ≡ answer_of (shown_of v) }
    ensures out_after { out.new ≡ shown_in (shown_of v) out.old }
    ensures v_bound { room_of (shown_of v) ≤ 24 }
{
    match v {
        Scalar::Null => Ok(0),
        Scalar::Int(negative, size) => Ok(show_int(out, negative, size)),
        Scalar::Decimal(negative, size, scale) if scale <= 18 => {
            Ok(show_decimal(out, negative, size, scale))
        }
        Scalar::Bool(b) => Ok(show_bool(out, b)),
        Scalar::Text(_, _) | Scalar::Decimal(_, _, _) | Scalar::Float(_) | Scalar::FloatBits(_) => {
            Err(Refusal::WrongKind)
        }
    }
}

// ---- a scalar into a Text field

// Writes a scalar into a Text field; text is a Text's bytes. A scalar that is refused leaves the field as it was.
pub fn encode_text(
    part: &mut [u8],
    v: Scalar,
    text: &[u8],
    right: bool,
    pad: u8,
    page: u32,
) -> Result<(), Refusal>
    ensures value { number_in result ≡ refusal_at (length part.old) (text_in v text.now) }
    ensures part_after { part.new ≡ encoded_in page right pad part.old (text_in v text.now) }
{
    if is_text(v) {
        return justify_pad(part, text, right, pad, page);
    }
    let mut shown = [0u8; 24];
    let n = display_scalar(v, &mut shown)?;
    justify_pad(part, &shown[..n], right, pad, page)
}

// What encode_text would answer at a width.
pub fn fits_text(width: usize, v: Scalar, text: &[u8]) -> Result<(), Refusal>
    ensures { number_in result ≡ refusal_at width (text_in v text.now) }
{
    if is_text(v) {
        return fits(width, text.len());
    }
    let mut shown = [0u8; 24];
    let n = display_scalar(v, &mut shown)?;
    fits(width, n)
}
