// Hex fields: bytes as digits of base 16.

#![tactic(auto)]

ghost use Rattle.std.specs.Prelude.{◌≡◌, true, cond, ◌++◌, ◌+◌, ◌*◌, ◌<◌, ◌≤◌, eqb, leb, length, drop};
ghost use Rattle.value.specs.Answer.{refused, given, answered};
ghost use Rattle.codes.specs.Refusals.{number_in};
ghost use Rattle.hex_field.specs.Hex.{hex_digit, hex_pair, hex_of, nibble_in, is_hex, pair_of, judged_of, bytes_of};

use codes::Refusal;

// The lower-case digit of a number below 16.
fn nibble_hex(n: u8) -> u8
    requires { n < 16 }
    ensures { result ≡ hex_digit n }
{
    if n < 10 { b'0' + n } else { b'a' + (n - 10) }
}

// The two digits of a byte.
fn hex_pair(order: u32, b: u8) -> [u8; 2]
    ensures { result ≡ hex_pair order b }
{
    let high = nibble_hex(b / 16);
    let low = nibble_hex(b % 16);
    if order == 0 { [high, low] } else { [low, high] }
}

fn write_hex(part: &[u8], order: u32, out: &mut [u8])
    requires { length part.now * 2 ≤ length out.old }
    ensures { out.new ≡ hex_of order part.now ++ drop (length part.now * 2) out.old }
{
    for (i, b) in part.iter().enumerate() {
        out[2 * i..2 * i + 2].copy_from_slice(&hex_pair(order, *b));
    }
}

// The digits of a field to the front of a buffer, two for each byte, if it has room, and how many they are; else the buffer stays as it was.
pub fn to_hex(part: &[u8], order: u32, out: &mut [u8]) -> Result<usize, Refusal>
    ensures value { answered result ≡ cond (leb (length part.now * 2) (length out.old)) (given (length part.now * 2)) (refused 16) }
    ensures out_after { out.new ≡ cond (leb (length part.now * 2) (length out.old)) (hex_of order part.now ++ drop (length part.now * 2) out.old) out.old }
{
    if out.len() / 2 < part.len() {
        return Err(Refusal::NoRoom);
    }
    write_hex(part, order, out);
    Ok(2 * part.len())
}

fn is_hex(x: u8) -> bool
    ensures { result ≡ is_hex x }
{
    x.is_ascii_hexdigit()
}

// The value of a digit.
fn nibble_in(x: u8) -> u8
    requires { is_hex x ≡ true }
    ensures { result ≡ nibble_in x }
{
    match x {
        b'0'..=b'9' => x - b'0',
        b'A'..=b'F' => x - b'A' + 10,
        _ => x - b'a' + 10,
    }
}

// The byte of its first and its second digit.
fn pair_of(order: u32, a: u8, b: u8) -> u8
    requires { (is_hex a ≡ true) × (is_hex b ≡ true) }
    ensures { result ≡ pair_of order a b }
{
    if order == 0 {
        nibble_in(a) * 16 + nibble_in(b)
    } else {
        nibble_in(b) * 16 + nibble_in(a)
    }
}

// Whether a text is one of digits, of an even count of them, and not too many for a width; blanks do not count.
pub fn judge_hex(width: usize, text: &[u8]) -> Result<(), Refusal>
    ensures { number_in result ≡ judged_of width text.now }
{
    let mut n: usize = 0;
    for x in text {
        if !numerals::is_blank(*x) {
            if !is_hex(*x) {
                return Err(Refusal::WrongKind);
            }
            n += 1;
        }
    }
    if n % 2 == 1 {
        Err(Refusal::WrongKind)
    } else if width < n / 2 {
        Err(Refusal::Misfit)
    } else {
        Ok(())
    }
}

fn write_bytes(part: &mut [u8], text: &[u8], order: u32)
    requires { judged_of (length part.old) text.now ≡ 0 }
    ensures { part.new ≡ bytes_of order (length part.old) text.now }
{
    part.fill(0);
    let mut first: Option<u8> = None;
    let mut j = 0;
    // Kept: an index of its own, since a byte takes two digits and blanks stand between them.
    for x in text {
        if !numerals::is_blank(*x) {
            if let Some(a) = first {
                part[j] = pair_of(order, a, *x);
                j += 1;
                first = None;
            } else {
                first = Some(*x);
            }
        }
    }
}

// Writes the bytes that a text's digits spell, zeros behind them; a refused text leaves the field as it was.
pub fn encode_hex(part: &mut [u8], text: &[u8], order: u32) -> Result<(), Refusal>
    ensures value { number_in result ≡ judged_of (length part.old) text.now }
    ensures part_after { part.new ≡ cond (eqb (judged_of (length part.old) text.now) 0) (bytes_of order (length part.old) text.now) part.old }
{
    judge_hex(part.len(), text)?;
    write_bytes(part, text, order);
    Ok(())
}
