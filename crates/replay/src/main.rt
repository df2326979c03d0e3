// Replays a stored sample of the Rust's answers. Standard input, made by `compare store` (compare/store.rs says how), has a line for each step: words as
// hexadecimal numbers, bytes as pairs of hexadecimal digits.
//   L 0 0 2 ..      the layout's words         m 5a39   its masks
//   r 3032          a record's bytes           i 0 2 .. a value list's words       t 4f4b   its text bytes
//   D PAGE NUMBER   reading the record gives the list; a number but 0 refuses, and all is zeros
//   E PAGE NUMBER   writing the list gives the record; a number but 0 refuses, and all is zeros

#![tactic(auto)]

use codes::number_in;
use decode::{Reading, decode_record};
use encode::encode_record;
use items::ValueList;
use layout::Layout;
use reading::read_full;
use std::io;
use testing::{Gathered, Tally, at, first, holds, narrow};

const WORDS: usize = 512;

const BYTES: usize = 1024;

// ---- words and bytes of a line

// A hexadecimal digit; any other byte is taken for one too, by its low bits.
fn digit(c: u8) -> u8 {
    if c < b':' { c % 16 } else { (c % 16 + 9) % 16 }
}

// The number that hexadecimal digits spell behind another; what does not fit is lost at the front.
fn hex_behind(v: u64, part: &[u8]) -> u64 {
    part.iter().fold(v, |v, c| v << 4 | u64::from(digit(*c)))
}

// The words of a line, each behind a blank, in place of those gathered. Where they are as many as there is place for, the digits of those behind go to the last.
fn words_in(words: &mut Gathered<u64>, line: &[u8]) {
    words.clear();
    for part in line.split(|b| *b == b' ').skip(1) {
        if words.len < words.cells.len() {
            words.push(hex_behind(0, part));
        } else if let Some(last) = words.cells.last_mut() {
            *last = hex_behind(*last, part);
        }
    }
}

// The bytes of a line's pairs of digits, from its third byte on, in place of those gathered. The last that there is place for is 0.
fn bytes_in(bytes: &mut Gathered<u8>, line: &[u8]) {
    bytes.clear();
    for pair in line.get(2..).unwrap_or(b"").chunks_exact(2) {
        let byte = if bytes.len < BYTES - 1 {
            hex_behind(0, pair)
        } else {
            0
        };
        bytes.push((byte % 256) as u8);
    }
}

// ---- answers

// A layout, a record and a value list, which each other's reading and writing should give, and the number that is asked for.
#[derive(Clone, Copy)]
struct Case<'a> {
    layout: Layout<'a>,
    bytes: &'a [u8],
    list: ValueList<'a>,
    number: u64,
}

impl<'a> Case<'a> {
    fn read_agrees(self) -> bool {
        let mut out = [0xA5A5u64; WORDS];
        let mut out_text = [0xA5u8; BYTES];
        let mut counts = [-3i64; WORDS];
        let r = decode_record(
            &self.layout,
            self.bytes,
            &mut out,
            &mut out_text,
            &mut counts,
        );
        let used = r.unwrap_or(Reading { items: 0, text: 0 });
        u64::from(number_in(r)) == self.number
            && used.items == self.list.items.len()
            && used.text == self.list.text.len()
            && holds(&out, self.list.items)
            && holds(&out_text, self.list.text)
    }

    fn write_agrees(self) -> bool {
        let mut out = [0xA5u8; BYTES];
        let mut counts = [-3i64; WORDS];
        let r = encode_record(&self.layout, &self.list, &mut out, &mut counts);
        u64::from(number_in(r)) == self.number
            && r.unwrap_or(0) == self.bytes.len()
            && holds(&out, self.bytes)
    }
}

// How many cases agree and how many differ, and how many of them refused.
#[derive(Clone, Copy, Default)]
struct Counts {
    tally: Tally,
    refused: u64,
}

impl Counts {
    fn count(&mut self, rt: &impl Print, line: &[u8], number: u64, agrees: bool) -> io::Result<()> {
        self.tally.count(agrees);
        if number != 0 {
            self.refused = self.refused.wrapping_add(1);
        }
        if agrees {
            return Ok(());
        }
        print!(rt; "differs: case {} ", self.tally.cases())?;
        rt.write_all(line)?;
        rt.write_all(b"\n")
    }

    fn print(self, rt: &impl Print, name: &str) -> io::Result<()> {
        println!(rt;
            "{name}{} cases, {} refused, {} differ",
            self.tally.cases(),
            self.refused,
            self.tally.differ
        )
    }
}

fn run(rt: &impl Print, all: &[u8], read: &mut Counts, written: &mut Counts) -> io::Result<()> {
    let mut layout = Gathered {
        cells: &mut [0u64; WORDS],
        len: 0,
    };
    let mut masks = Gathered {
        cells: &mut [0u8; BYTES],
        len: 0,
    };
    let mut bytes = Gathered {
        cells: &mut [0u8; BYTES],
        len: 0,
    };
    let mut items = Gathered {
        cells: &mut [0u64; WORDS],
        len: 0,
    };
    let mut text = Gathered {
        cells: &mut [0u8; BYTES],
        len: 0,
    };
    let mut narrowed = [0u32; WORDS];
    for line in all.split(|b| *b == b'\n') {
        let asked = at(line, 0);
        // Kept: the letter of a line says what it asks.
        match asked {
            b'L' => {
                words_in(&mut layout, line);
                narrow(layout.held(), &mut narrowed);
            }
            b'm' => bytes_in(&mut masks, line),
            b'r' => bytes_in(&mut bytes, line),
            b'i' => words_in(&mut items, line),
            b't' => bytes_in(&mut text, line),
            b'D' | b'E' => {
                let number = line.split(|b| *b == b' ').nth(2);
                let case = Case {
                    layout: Layout {
                        words: first(&narrowed, layout.len),
                        masks: masks.held(),
                        page: u32::from(digit(at(line, 2))),
                    },
                    bytes: bytes.held(),
                    list: ValueList {
                        items: items.held(),
                        text: text.held(),
                    },
                    number: number.map_or(0, |part| hex_behind(0, part)),
                };
                if asked == b'D' {
                    read.count(rt, line, case.number, case.read_agrees())?;
                } else {
                    written.count(rt, line, case.number, case.write_agrees())?;
                }
            }
            _ => {}
        }
    }
    Ok(())
}

fn main(rt: HostRuntime) -> io::Result<()> {
    let mut all = [0u8; 393216];
    let n = read_full(&mut rt.reader(), &mut all)?;
    let mut read = Counts::default();
    let mut written = Counts::default();
    run(&rt, &all[..n], &mut read, &mut written)?;
    read.print(&rt, "read: ")?;
    written.print(&rt, "written: ")
}
