// The lines of a layout's text form, each judged on its own, and the numbers of names by first sight.

#![tactic(auto)]

ghost use Rattle.std.specs.Prelude.{◌≡◌, ◌≤◌, ◌<◌, IfOk, length, take};
ghost use Rattle.lists.specs.Part.{place_in};
ghost use Rattle.lists.specs.Scan.{before_by};
ghost use Rattle.value.specs.Answer.{answered};
ghost use Rattle.lines.specs.Lines.{is_end, line_from, start_in, value_at, found_as, leads, number_of, in_name, name_ok, mask_ok};
ghost use Rattle.lines.specs.Names.{same_name, index_in, names_at, number_at, count_after, starts_after};

use codes::{ABSENT, Refusal};

// Where a value starts and ends in a text, and where the next line starts.
#[derive(Clone, Copy)]
pub struct Found {
    pub start: usize,
    pub end: usize,
    pub next: usize,
}

// ---- lines

// How many bytes stand before the first newline, or the length.
fn line_end(s: &[u8]) -> usize
    ensures { (result ≤ length s.now) × (take result s.now ≡ before_by is_end s.now) }
{
    s.iter().position(|x| *x == b'\n').unwrap_or(s.len())
}

// The value behind a word, its `=` counted, in the line that starts at a position.
#[tactic(auto, using(crate::proofs::Laws::line_past, crate::proofs::Laws::line_open, crate::proofs::Laws::line_other, crate::proofs::Laws::line_found))]
pub fn value_at(text: &[u8], at: usize, word: &[u8]) -> Result<Found, Refusal>
    ensures value { found_as result ≡ value_at word.now text.now at }
    ensures inside { IfOk result (λ found. (found.start ≤ found.end) × (found.end ≤ length text.now)) }
{
    let Some(rest) = text.get(at..) else {
        return Err(Refusal::LayoutText);
    };
    let n = line_end(rest);
    if n == rest.len() || !rest[..n].starts_with(word) {
        return Err(Refusal::LayoutText);
    }
    Ok(Found {
        start: at + word.len(),
        end: at + n,
        next: at + n + 1,
    })
}

// The bytes from a position up to the next newline, or to the text's end, as a part of the text.
#[tactic(auto, using(crate::proofs::Laws::none_past))]
pub fn name_at(text: &[u8], at: usize) -> &[u8]
    ensures result_value { result.now ≡ line_from text.now at }
    ensures ref_ptr_value { result.ref_ptr ≡ place_in text.entry (start_in text.now at) }
{
    if at > text.len() {
        return &text[..0];
    }
    let rest = &text[at..];
    let n = line_end(rest);
    &rest[..n]
}

// ---- values

fn has_lead(s: &[u8]) -> bool
    ensures { result ≡ leads s.now }
{
    match s {
        [] => false,
        [_] => true,
        [x, ..] => *x != b'0',
    }
}

// A decimal number without leading zeros, below 4294967295.
#[tactic(auto, using(crate::proofs::Laws::number_start, crate::proofs::Laws::number_lead, crate::proofs::Laws::number_go, crate::proofs::Laws::number_stop, crate::proofs::Laws::number_over, crate::proofs::Laws::number_end))]
pub fn number_of(part: &[u8]) -> Result<u32, Refusal>
    ensures { answered result ≡ number_of part.now }
{
    if !has_lead(part) {
        return Err(Refusal::LayoutText);
    }
    let mut v: u64 = 0;
    for x in part {
        if !x.is_ascii_digit() {
            return Err(Refusal::LayoutText);
        }
        v = v * 10 + u64::from(*x - b'0');
        if v >= u64::from(ABSENT) {
            return Err(Refusal::LayoutText);
        }
    }
    Ok(v as u32)
}

fn in_name(x: u8) -> bool
    ensures { result ≡ in_name x }
{
    x.is_ascii_alphabetic() || x.is_ascii_digit() || x == b'-'
}

// 1 to 30 letters, digits, hyphens.
pub fn name_ok(part: &[u8]) -> bool
    ensures { result ≡ name_ok part.now }
{
    1 <= part.len() && part.len() <= 30 && part.iter().all(|x| in_name(*x))
}

// Bytes 0x20 to 0x7E.
pub fn mask_ok(part: &[u8]) -> bool
    ensures { result ≡ mask_ok part.now }
{
    part.iter().all(|x| b' ' <= *x && *x <= b'~')
}

// ---- names

// The same but for letter case.
fn same_name(a: &[u8], b: &[u8]) -> bool
    ensures { result ≡ same_name a.now b.now }
{
    a.eq_ignore_ascii_case(b)
}

// The different names that were seen in a text: where each starts, at the front of a table that is lent, and how many.
#[derive(Drop)]
pub struct Table<'a> {
    pub text: &'a [u8],
    pub starts: &'a mut [u32],
    pub count: usize,
}

impl<'a> Table<'a> {
    // The index of a name among those seen, or how many these are.
    // Kept: a new name gets this count as its number, as the definition, `index_in`, has it.
    fn find(&self, name: &[u8]) -> usize
        ensures { result ≡ index_in name.now (names_at self.now.text.now self.now.starts.now self.now.count) }
    {
        let held = &self.starts[..self.count.min(self.starts.len())];
        held.iter()
            .position(|start| same_name(name, name_at(self.text, *start as usize)))
            .unwrap_or(held.len())
    }

    // One more sight, of the name at `at`: its number. A new name is stored where the table can hold it; else count and table stay,
    // and a name that is not in the table gets the count of those in it.
    pub fn see(&mut self, at: usize) -> usize
        ensures number { result ≡ number_at self.old.text.now self.old.starts.now self.old.count at }
        ensures count { self.new.count ≡ count_after self.old.text.now self.old.starts.now self.old.count at }
        ensures starts { self.new.starts.now ≡ starts_after self.old.text.now self.old.starts.now self.old.count at }
        ensures text { self.new.text ≡ self.old.text }
        ensures table { self.new.starts.ghost_name ≡ self.old.starts.ghost_name }
    {
        let number = self.find(name_at(self.text, at));
        if number == self.count && self.count < self.starts.len() && at <= u32::MAX as usize {
            self.starts[self.count] = at as u32;
            self.count += 1;
        }
        number
    }
}
