// Runs made-up layouts, value lists and layout texts through the proved functions and compares the answers. Standard input, made by
// tools/layout-cases, has a line for each step. What is gathered: words, a text, and the mask bytes that the text should give.
//   w# 1 2 3      these words more                    w* 36 12   36 words more, each the one that stands 12 before
//   t# 13 10      these bytes of text more            t* 36 12   36 bytes more, likewise
//   t.page=0      this text more                      t:page=0   the same and 0x0A
//   m# m* m. m:   mask bytes, likewise
//   -             all of these emptied
// What is asked, the answer that it should get, and what the case shows:
//   L PAGE MASKS NUMBER                the check of the words as a layout, with so many mask bytes
//   R LENGTH DEPENDS                   record_length and has_depending_on of the words
//   V ENTRY BYTES                      reserved_width of an entry
//   I TEXT OK                          the check of the words as a value list, with a text buffer of so many bytes
//   F NAME FROM TO PLACE               find
//   G FROM TO END NAME TAG A B         item_end and fetch
//   A ITEM END PLACE                   after
//   T WORDS MASKS NUMBER PAGE          read_layout of the text, into buffers of so many words and bytes; if the number is 0 they should
//                                      hold the words and mask bytes gathered, then zeros, else zeros
//   N 0003 SPELLING                    name_of the text and a number
//   . GROUP                            the end of a group: its cases are counted

#![tactic(auto)]

ghost use Rattle.std.specs.Prelude.{◌≤◌};

use codes::number_in;
use items::ValueList;
use layout::Layout;
use layout_text::{LayoutReading, name_of, read_layout};
use reading::read_full;
use std::io;
use testing::{Gathered, Tally, at, first, holds, low_word, narrow, number};

const WORDS: usize = 8192;

const BYTES: usize = 66048;

// Masks and texts of which a case tells only how many bytes there are.
static ZEROS: [u8; BYTES] = [0u8; BYTES];

// ---- a line

// The number that a part of a line spells. Of any other part each byte is taken for a digit, by its distance from `0`, and what does not fit is lost.
fn decimal(part: &[u8]) -> u64 {
    number(part, 10).unwrap_or_else(|| {
        part.iter().fold(0, |v: u64, c| {
            let digit = c.saturating_sub(b'0') % 10;
            (v % 1844674407370955162 * 10).wrapping_add(u64::from(digit))
        })
    })
}

#[derive(Clone, Copy)]
struct Line<'a> {
    bytes: &'a [u8],
}

impl<'a> Line<'a> {
    fn kind(self) -> u8 {
        at(self.bytes, 0)
    }

    // The bytes behind the first two.
    fn rest(self) -> &'a [u8] {
        self.bytes.get(2..).unwrap_or(b"")
    }

    // The k-th number, from 1, each behind a space.
    fn arg(self, k: usize) -> u64 {
        self.bytes.split(|b| *b == b' ').nth(k).map_or(0, decimal)
    }

    // The same as a place, at most so far.
    fn place(self, k: usize, most: usize) -> usize
        ensures { result ≤ most }
    {
        self.arg(k).min(most as u64) as usize
    }
}

// ---- what is gathered

// So many cells more, each the one that stands `back` before it.
fn repeat<T: Copy>(gathered: &mut Gathered<T>, count: u64, back: usize, none: T) {
    for _ in 0..count {
        let from = gathered.len.checked_sub(back);
        let value = from.and_then(|i| gathered.cells.get(i).copied());
        gathered.push(value.unwrap_or(none));
    }
}

fn gather_words(words: &mut Gathered<u64>, line: Line) {
    if at(line.bytes, 1) == b'#' {
        for part in line.bytes.split(|b| *b == b' ').skip(1) {
            words.push(decimal(part));
        }
    } else {
        repeat(words, line.arg(1), line.place(2, WORDS), 0);
    }
}

// Bytes of the text or of masks.
fn gather_bytes(bytes: &mut Gathered<u8>, line: Line) {
    // Kept: a line's letter says what it is.
    match at(line.bytes, 1) {
        b'#' => {
            for part in line.bytes.split(|b| *b == b' ').skip(1) {
                bytes.push((decimal(part) % 256) as u8);
            }
        }
        b'*' => repeat(bytes, line.arg(1), line.place(2, BYTES), 0),
        how => {
            for b in line.rest() {
                bytes.push(*b);
            }
            if how == b':' {
                bytes.push(b'\n');
            }
        }
    }
}

// ---- layouts

fn layout_agrees(line: Line, words: &[u32]) -> bool {
    let layout = Layout {
        words,
        masks: &ZEROS[..line.place(2, BYTES)],
        page: low_word(line.arg(1)),
    };
    u64::from(number_in(layout.check())) == line.arg(3)
}

fn length_agrees(line: Line, layout: &Layout) -> bool {
    layout.record_length() == line.arg(1) && u64::from(layout.has_depending_on()) == line.arg(2)
}

fn reserved_agrees(line: Line, layout: &Layout) -> bool {
    layout.load(line.place(1, 512)).reserved_width() == line.arg(2)
}

fn words_agree(line: Line, words: &[u64]) -> bool {
    let mut space = [0u32; WORDS];
    narrow(words, &mut space);
    let layout = Layout {
        words: first(&space, words.len()),
        masks: b"",
        page: 0,
    };
    // Kept: a line's letter says what it is.
    match line.kind() {
        b'L' => layout_agrees(line, layout.words),
        b'R' => length_agrees(line, &layout),
        _ => reserved_agrees(line, &layout),
    }
}

// ---- value lists

fn items_agree(line: Line, items: &[u64]) -> bool {
    let list = ValueList {
        items,
        text: &ZEROS[..line.place(1, BYTES)],
    };
    u64::from(list.check().is_ok()) == line.arg(2)
}

fn find_agrees(line: Line, items: &[u64]) -> bool {
    let list = ValueList { items, text: b"" };
    let i = list.find(line.arg(1), line.place(2, WORDS), line.place(3, WORDS));
    i as u64 == line.arg(4)
}

fn after_agrees(line: Line) -> bool {
    items::after(line.place(1, WORDS), line.place(2, WORDS)) as u64 == line.arg(3)
}

fn fetch_agrees(line: Line, items: &[u64]) -> bool {
    let list = ValueList { items, text: b"" };
    let from = line.place(1, WORDS);
    let to = line.place(2, WORDS);
    let it = list.fetch(from, to);
    list.item_end(from, to) as u64 == line.arg(3)
        && it.name == line.arg(4)
        && it.tag == line.arg(5)
        && it.a == line.arg(6)
        && it.b == line.arg(7)
}

// ---- layout texts

// Reads the text into these buffers, which should then hold the words and masks.
fn read_into(
    line: Line,
    text: &[u8],
    words: &[u64],
    masks: &[u8],
    out: &mut [u32],
    packed: &mut [u8],
) -> bool {
    let r = read_layout(text, out, packed);
    let read = r.unwrap_or(LayoutReading {
        page: 0,
        words: 0,
        masks: 0,
    });
    u64::from(number_in(r)) == line.arg(3)
        && u64::from(read.page) == line.arg(4)
        && read.words == words.len()
        && read.masks == masks.len()
        && holds(out, words)
        && holds(packed, masks)
}

fn read_agrees(line: Line, text: &[u8], words: &[u64], masks: &[u8]) -> bool {
    let mut out = [0xA5A5_A5A5u32; WORDS];
    let mut packed = [0xA5u8; BYTES];
    let w = line.place(1, WORDS);
    let m = line.place(2, BYTES);
    if line.arg(3) == 0 {
        read_into(line, text, words, masks, &mut out[..w], &mut packed[..m])
    } else {
        read_into(line, text, &[], &[], &mut out[..w], &mut packed[..m])
    }
}

// The spelling stands behind the number's four digits.
fn name_agrees(line: Line, text: &[u8]) -> bool {
    let name = name_of(text, low_word(line.arg(1)));
    line.bytes.get(7..) == Some(name)
}

// ---- the cases

fn agrees(line: Line, words: &[u64], text: &[u8], masks: &[u8]) -> bool {
    // Kept: a line's letter says what it is.
    match line.kind() {
        b'I' => items_agree(line, words),
        b'F' => find_agrees(line, words),
        b'G' => fetch_agrees(line, words),
        b'A' => after_agrees(line),
        b'T' => read_agrees(line, text, words, masks),
        b'N' => name_agrees(line, text),
        _ => words_agree(line, words),
    }
}

// Counts a case, and prints its line if it differs.
fn count(rt: &impl Print, tally: &mut Tally, line: Line, agrees: bool) -> io::Result<()> {
    tally.count(agrees);
    if agrees {
        return Ok(());
    }
    rt.write_all(b"differs: ")?;
    rt.write_all(line.bytes)?;
    rt.write_all(b"\n")
}

// Prints the counts of a group behind its name.
fn print(rt: &impl Print, tally: Tally, line: Line) -> io::Result<()> {
    rt.write_all(line.rest())?;
    println!(rt; ": {} cases, {} differ", tally.cases(), tally.differ)
}

fn run(rt: &impl Print, all: &[u8]) -> io::Result<()> {
    let mut words = Gathered {
        cells: &mut [0u64; WORDS],
        len: 0,
    };
    let mut text = Gathered {
        cells: &mut [0u8; BYTES],
        len: 0,
    };
    let mut masks = Gathered {
        cells: &mut [0u8; BYTES],
        len: 0,
    };
    let mut tally = Tally::default();
    for bytes in all.split(|b| *b == b'\n') {
        let line = Line { bytes };
        // Kept: a line's letter says what it is.
        match line.kind() {
            b'w' => gather_words(&mut words, line),
            b't' => gather_bytes(&mut text, line),
            b'm' => gather_bytes(&mut masks, line),
            b'-' => {
                words.clear();
                text.clear();
                masks.clear();
            }
            b'.' => {
                print(rt, tally, line)?;
                tally = Tally::default();
            }
            b'A'..=b'Z' => {
                let agrees = agrees(line, words.held(), text.held(), masks.held());
                count(rt, &mut tally, line, agrees)?;
            }
            _ => {}
        }
    }
    Ok(())
}

fn main(rt: HostRuntime) -> io::Result<()> {
    let mut all = [0u8; 393216];
    let n = read_full(&mut rt.reader(), &mut all)?;
    run(&rt, &all[..n])
}
