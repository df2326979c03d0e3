// Compares the leaves with answers from outside, a line for each group:
// - page 037 as published (all 256 bytes; taken from glibc's IBM037 by iconv);
// - COBOL: GnuCOBOL's fields on standard input, made by tools/cobol-vectors;
// - IEEE 754: published binary16 numbers; every binary16 number, and pseudo-random words at 16 and 32 bits, as sums that tools/float-sums makes
//   by Python's struct, with an infinity where it overflows, and ctypes.

#![tactic(auto)]

ghost use Rattle.std.specs.Prelude.{◌<◌, ◌≤◌};

use codes::{Kind, Refusal, Tag};
use decode_scalar::Field;
use reading::read_full;
use std::io;
use testing::{Tally, at, first};
use value::{Scalar, Whole, Words};

const PAGE_037: [u8; 256] = [
    0, 1, 2, 3, 156, 9, 134, 127, 151, 141, 142, 11, 12, 13, 14, 15, 16, 17, 18, 19, 157, 133, 8,
    135, 24, 25, 146, 143, 28, 29, 30, 31, 128, 129, 130, 131, 132, 10, 23, 27, 136, 137, 138, 139,
    140, 5, 6, 7, 144, 145, 22, 147, 148, 149, 150, 4, 152, 153, 154, 155, 20, 21, 158, 26, 32,
    160, 226, 228, 224, 225, 227, 229, 231, 241, 162, 46, 60, 40, 43, 124, 38, 233, 234, 235, 232,
    237, 238, 239, 236, 223, 33, 36, 42, 41, 59, 172, 45, 47, 194, 196, 192, 193, 195, 197, 199,
    209, 166, 44, 37, 95, 62, 63, 248, 201, 202, 203, 200, 205, 206, 207, 204, 96, 58, 35, 64, 39,
    61, 34, 216, 97, 98, 99, 100, 101, 102, 103, 104, 105, 171, 187, 240, 253, 254, 177, 176, 106,
    107, 108, 109, 110, 111, 112, 113, 114, 170, 186, 230, 184, 198, 164, 181, 126, 115, 116, 117,
    118, 119, 120, 121, 122, 161, 191, 208, 221, 222, 174, 94, 163, 165, 183, 169, 167, 182, 188,
    189, 190, 91, 93, 175, 168, 180, 215, 123, 65, 66, 67, 68, 69, 70, 71, 72, 73, 173, 244, 246,
    242, 243, 245, 125, 74, 75, 76, 77, 78, 79, 80, 81, 82, 185, 251, 252, 249, 250, 255, 92, 247,
    83, 84, 85, 86, 87, 88, 89, 90, 178, 212, 214, 210, 211, 213, 48, 49, 50, 51, 52, 53, 54, 55,
    56, 57, 179, 219, 220, 217, 218, 159,
];

fn print(rt: &impl Print, tally: Tally, name: &str) -> io::Result<()> {
    println!(rt; "{name}: {} of {} agree", tally.agree, tally.cases())
}

// ---- page 037

fn page_037(rt: &impl Print) -> io::Result<()> {
    let mut tally = Tally::default();
    for (b, x) in PAGE_037.iter().enumerate() {
        let byte = (b % 256) as u8;
        tally.count(ebcdic::to_ascii(byte) == *x && ebcdic::to_ebcdic(*x) == byte);
    }
    print(rt, tally, "page 037")
}

// ---- COBOL: rows of 83 bytes, "ed + 000000000000123456 ZZ,ZZ9.99-         10 hex of the bytes"

const ROW: usize = 83;

// The most bytes of a field.
const WIDTH: usize = 18;

#[derive(Clone, Copy)]
struct Row<'a> {
    bytes: &'a [u8],
}

// A hexadecimal digit; any other byte is taken for one too.
fn hex_value(c: u8) -> u8
    ensures { result < 16 }
{
    match c {
        b'a'.. => (c - 87) % 16,
        b'0'.. => (c - 48) % 16,
        _ => 0,
    }
}

impl<'a> Row<'a> {
    fn digit(self, i: usize) -> u8
        ensures { result < 16 }
    {
        hex_value(at(self.bytes, i))
    }

    fn kind(self) -> u8 {
        at(self.bytes, 0)
    }

    fn signed(self) -> bool {
        at(self.bytes, 1) == b's'
    }

    // The size has 18 digits.
    fn number(self) -> Whole {
        let size = (5..23).fold(0, |v: u64, i| {
            v % 100000000000000000 * 10 + u64::from(self.digit(i) % 10)
        });
        value::signed_size(at(self.bytes, 3) == b'-', size)
    }

    fn width(self) -> usize
        ensures { result ≤ 18 }
    {
        let width = usize::from(self.digit(43) % 10) * 10 + usize::from(self.digit(44) % 10);
        if width <= WIDTH { width } else { 0 }
    }

    fn mask(self) -> &'a [u8] {
        self.bytes.get(24..42).unwrap_or(b"")
    }

    fn has(self, c: u8) -> bool {
        self.mask().contains(&c)
    }

    // Whether a part holds the bytes of the row.
    fn holds(self, part: &[u8]) -> bool {
        part.iter().enumerate().all(|(i, b)| {
            let k = i % WIDTH * 2;
            self.digit(46 + k) * 16 + self.digit(47 + k) == *b
        })
    }
}

// A signed Embedded Int.
fn embedded() -> Field {
    Field {
        kind: Kind::Int.into(),
        p: 1,
        q: 1,
        r: 0,
        s: 0,
    }
}

// It has no mask and no text.
fn encode_int(part: &mut [u8], n: Whole) -> Result<(), Refusal> {
    let item = Words {
        tag: Tag::Int.into(),
        a: value::word_of(n.negative, n.size),
        b: 0,
    };
    encode_scalar::encode_scalar(part, embedded(), b"", 0, item, b"")
}

fn decode_int(part: &[u8]) -> Option<Whole> {
    let mut text = [0u8; 1];
    match decode_scalar::decode_scalar(embedded(), 0, part, &mut text) {
        Ok(Scalar::Int(negative, size)) => Some(Whole { negative, size }),
        _ => None,
    }
}

fn encode_row(r: Row, part: &mut [u8]) -> Result<(), Refusal> {
    let n = r.number();
    // Kept: a line's letter says what it is.
    match r.kind() {
        b'p' => packed::encode(part, n, r.signed()),
        b'z' => zoned::encode(part, 0, n, r.signed()),
        b'i' => encode_int(part, n),
        _ => {
            let mask = first(r.mask(), part.len());
            edited::encode(part, 0, mask, Ok(n))
        }
    }
}

fn decode_row(r: Row, part: &[u8]) -> Option<Whole> {
    // Kept: a line's letter says what it is.
    match r.kind() {
        b'p' => packed::decode(part).ok(),
        b'z' => zoned::decode(part, 0).ok(),
        b'i' => decode_int(part),
        _ => edited::decode(part, 0, true).ok(),
    }
}

// Whether COBOL's bytes read as the number; a 0 that the mask inserts reads as a digit more, so such a mask is only written.
fn reads_back(r: Row, part: &[u8]) -> bool {
    r.has(b'0') || decode_row(r, part) == Some(r.number())
}

// A row that writes and reads as COBOL does.
fn part_agrees(r: Row, part: &mut [u8]) -> bool {
    encode_row(r, part).is_ok() && r.holds(part) && reads_back(r, part)
}

fn row_agrees(r: Row) -> bool {
    let mut buf = [0u8; WIDTH];
    part_agrees(r, &mut buf[..r.width()])
}

// Where the Rust departs from COBOL and the port with it: 0 where every digit is suppressed, and a B among suppressed stars.
fn departs(r: Row) -> bool {
    if r.has(b'9') {
        r.has(b'B') && r.has(b'*')
    } else {
        r.number().size == 0
    }
}

fn cobol(rt: &impl Print, all: &[u8], kind: u8, name: &str) -> io::Result<()> {
    let mut tally = Tally::default();
    let mut other: u64 = 0;
    for bytes in all.chunks_exact(ROW) {
        let r = Row { bytes };
        if r.kind() == kind {
            let agrees = row_agrees(r);
            tally.count(agrees);
            if !agrees && departs(r) {
                other = other.wrapping_add(1);
            }
        }
    }
    print(rt, tally, name)?;
    if other > 0 {
        println!(rt; "{other} depart as docs/DIFFERENCES.md says")?;
    }
    Ok(())
}

// ---- IEEE 754

fn mixed(sum: u64, w: u64) -> u64 {
    sum % 0x1_0000_0000 * 31 + w % 0x1_0000_0000 + w / 0x1_0000_0000
}

// Kept: none of the numbers that are summed is refused, so that the 0 of these two is never summed for one.
fn read_in(part: &mut [u8], v: u64, bits: u32) -> u64 {
    binary::put_word(part, 1, v);
    float::parse_float(part, bits, 1).map_or(0, |v| value::Words::from(v).a)
}

fn write_in(part: &mut [u8], w: u64, bits: u32) -> u64 {
    if float::encode_float(part, w, bits, 0).is_ok() {
        binary::read_word(part, 0)
    } else {
        0
    }
}

fn read_half(h: u64) -> u64 {
    let mut part = [0u8; 2];
    read_in(&mut part, h, 16)
}

fn read_single(v: u64) -> u64 {
    let mut part = [0u8; 4];
    read_in(&mut part, v, 32)
}

fn write_half(w: u64) -> u64 {
    let mut part = [0u8; 2];
    write_in(&mut part, w, 16)
}

fn write_single(w: u64) -> u64 {
    let mut part = [0u8; 4];
    write_in(&mut part, w, 32)
}

fn verdict(rt: &impl Print, name: &str, sum: u64, right: u64) -> io::Result<()> {
    if sum == right {
        println!(rt; "{name}: agree")
    } else {
        println!(rt; "{name}: DIFFER")
    }
}

// Every half, and what it was read as written again: itself, and 0x7E00 for a NaN.
fn halves(rt: &impl Print) -> io::Result<()> {
    let mut sum: u64 = 0;
    let mut back: u64 = 0;
    for h in 0..65536u64 {
        let w = read_half(h);
        sum = mixed(sum, w);
        back = mixed(back, write_half(w));
    }
    verdict(rt, "binary16 read, all 65536", sum, 115316097024)?;
    verdict(
        rt,
        "binary16 read and written again, all 65536",
        back,
        2047377408,
    )
}

fn next(x: u64) -> u64 {
    let a = x ^ (x << 13);
    let b = a ^ (a >> 7);
    b ^ (b << 17)
}

// A word with a sign and digits of x, and an exponent of so many from the least on.
fn near(x: u64, least: u64, powers: u64) -> u64
    requires { 0 < powers }
{
    let sign = x & 0x8000_0000_0000_0000;
    let digits = x & 0xF_FFFF_FFFF_FFFF;
    let power = least.wrapping_add(x / 0x10_0000_0000_0000 % powers);
    sign | power << 52 | digits
}

// A word whose exponent lies round that of a binary32's range.
fn near_single(x: u64) -> u64 {
    near(x, 850, 320)
}

fn random_floats(rt: &impl Print) -> io::Result<()> {
    let mut x: u64 = 88172645463325252;
    let mut single: u64 = 0;
    let mut wider: u64 = 0;
    for _ in 0..100000 {
        x = next(x);
        let w = near_single(x);
        single = mixed(single, write_single(w));
        wider = mixed(wider, read_single(x % 0x1_0000_0000));
    }
    verdict(rt, "binary32 written, 100000", single, 88363357800)?;
    verdict(rt, "binary32 read, 100000", wider, 23726069014)
}

// A word whose exponent lies round that of a binary16's range.
fn near_half(x: u64) -> u64 {
    near(x, 995, 48)
}

// The same with no more than eleven digits after the leading one, so that many lie half way between two halves.
fn near_tie(x: u64) -> u64 {
    near_half(x) / 0x200_0000_0000 * 0x200_0000_0000
}

fn random_halves(rt: &impl Print) -> io::Result<()> {
    let mut x: u64 = 88172645463325252;
    let mut any: u64 = 0;
    let mut tied: u64 = 0;
    for _ in 0..100000 {
        x = next(x);
        any = mixed(any, write_half(near_half(x)));
        tied = mixed(tied, write_half(near_tie(x)));
    }
    verdict(rt, "binary16 written, 100000", any, 106349413868)?;
    verdict(
        rt,
        "binary16 written near a tie, 100000",
        tied,
        104130688595,
    )
}

// Numbers whose binary16 patterns are published: 0 and -0, the smallest and the largest subnormal number, the smallest normal one, 1/3, the
// numbers round 1, -2, the largest number; and the request's 65520, and an infinity.
const PUBLISHED: [(u64, u64); 13] = [
    (0x0000_0000_0000_0000, 0x0000),
    (0x8000_0000_0000_0000, 0x8000),
    (0x3E70_0000_0000_0000, 0x0001),
    (0x3F0F_F800_0000_0000, 0x03FF),
    (0x3F10_0000_0000_0000, 0x0400),
    (0x3FD5_5555_5555_5555, 0x3555),
    (0x3FEF_FC00_0000_0000, 0x3BFF),
    (0x3FF0_0000_0000_0000, 0x3C00),
    (0x3FF0_0400_0000_0000, 0x3C01),
    (0xC000_0000_0000_0000, 0xC000),
    (0x40EF_FC00_0000_0000, 0x7BFF),
    (0x40EF_FE00_0000_0000, 0x7C00),
    (0xFFF0_0000_0000_0000, 0xFC00),
];

fn published(rt: &impl Print) -> io::Result<()> {
    let mut tally = Tally::default();
    for (number, half) in &PUBLISHED {
        tally.count(write_half(*number) == *half);
    }
    print(rt, tally, "binary16 as published, written")
}

fn main(rt: HostRuntime) -> io::Result<()> {
    let mut all = [0u8; 65536];
    let n = read_full(&mut rt.reader(), &mut all)?;
    page_037(&rt)?;
    cobol(&rt, &all[..n], b'p', "COBOL packed, written and read")?;
    cobol(&rt, &all[..n], b'z', "COBOL zoned, written and read")?;
    cobol(
        &rt,
        &all[..n],
        b'i',
        "COBOL whole numbers with an embedded sign, written and read",
    )?;
    cobol(&rt, &all[..n], b'e', "COBOL edited, written and read")?;
    published(&rt)?;
    halves(&rt)?;
    random_halves(&rt)?;
    random_floats(&rt)
}
