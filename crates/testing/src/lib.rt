// What the programs that compare answers share: a cell, a number that bytes spell, the front of what is given, how many cases agree, and whether a buffer holds what it should.

#![tactic(auto)]

ghost use Rattle.std.specs.Prelude.{◌≡◌, ◌≤◌, ◌++◌, ℕ, map, length, take, drop, set, slice_index, min, max, ◌+◌, ◌%◌, ◌^◌, cond, MatchOption};
ghost use Rattle.testing.specs.Holds.{low_word, holds};
ghost use Rattle.testing.specs.Numbers.{Parses, spelled};

// A cell of a buffer that is compared by its number.
pub trait Cell: Copy {
    ghost number: { Self → ℕ };

    fn number(self) -> u64
        ensures { result ≡ number self };
}

impl Cell for u8 {
    ghost number = { λ x. x };

    fn number(self) -> u64 {
        u64::from(self)
    }
}

impl Cell for u32 {
    ghost number = { λ x. x };

    fn number(self) -> u64 {
        u64::from(self)
    }
}

impl Cell for u64 {
    ghost number = { λ x. x };

    fn number(self) -> u64 {
        self
    }
}

// The number that bytes spell in a radix from 2 to 36.
#[tactic(auto, using(crate::proofs::Numbers::parses_text))]
pub fn number(part: &[u8], radix: u32) -> Option<u64>
    ensures { MatchOption result (Parses radix part.now → ⊥) (λ v. Parses radix part.now × (v ≡ spelled radix part.now)) }
{
    if !(2..=36).contains(&radix) {
        return None;
    }
    let text = std::str::from_utf8(part).ok()?;
    u64::from_str_radix(text, radix).ok()
}

// The byte at a place; 0 where there is none.
// Kept: its definition, `slice_index`, gives that 0, which is no letter of a line; an Option would be taken apart at once.
pub fn at(bytes: &[u8], i: usize) -> u8
    ensures { result ≡ slice_index bytes.now i }
{
    bytes.get(i).copied().unwrap_or(0)
}

// The first n cells, or all.
pub fn first<T>(cells: &[T], n: usize) -> &[T]
    ensures result_value { result.now ≡ take n cells.now }
    ensures ref_ptr_value { result.ref_ptr ≡ cells.entry.ref_ptr }
{
    if n < cells.len() { &cells[..n] } else { cells }
}

// ---- what is gathered, at the front of a buffer

#[derive(Drop)]
pub struct Gathered<'a, T> {
    pub cells: &'a mut [T],
    pub len: usize,
}

impl<'a, T: Copy> Gathered<'a, T> {
    pub fn held(&self) -> &[T]
        ensures result_value { result.now ≡ take self.now.len self.now.cells.now }
        ensures ref_ptr_value { result.ref_ptr ≡ self.now.cells.ref_ptr }
    {
        first(self.cells, self.len)
    }

    pub fn clear(&mut self)
        ensures len { self.new.len ≡ 0 }
        ensures cells { self.new.cells.now ≡ self.old.cells.now }
        ensures buffer { self.new.cells.ghost_name ≡ self.old.cells.ghost_name }
    {
        self.len = 0;
    }

    // One cell more, where the buffer has place.
    pub fn push(&mut self, value: T)
        ensures len { self.new.len ≡ min (self.old.len + 1) (max self.old.len (length self.old.cells.now)) }
        ensures cells { self.new.cells.now ≡ set self.old.cells.now self.old.len value }
        ensures buffer { self.new.cells.ghost_name ≡ self.old.cells.ghost_name }
    {
        if self.len < self.cells.len() {
            self.cells[self.len] = value;
            self.len += 1;
        }
    }
}

// ---- what is counted

// How many cases agree, and how many differ.
#[derive(Clone, Copy, Default)]
pub struct Tally {
    pub agree: u64,
    pub differ: u64,
}

impl Tally {
    // One case more.
    pub fn count(&mut self, agrees: bool)
        ensures agree { self.new.agree ≡ cond agrees ((self.old.agree + 1) % 2 ^ 64) self.old.agree }
        ensures differ { self.new.differ ≡ cond agrees self.old.differ ((self.old.differ + 1) % 2 ^ 64) }
    {
        if agrees {
            self.agree = self.agree.wrapping_add(1);
        } else {
            self.differ = self.differ.wrapping_add(1);
        }
    }

    pub fn cases(self) -> u64
        ensures { result ≡ (self.agree + self.differ) % 2 ^ 64 }
    {
        self.agree.wrapping_add(self.differ)
    }
}

// ---- a layout's words, given as those of a list

pub fn low_word(x: u64) -> u32
    ensures { result ≡ low_word x }
{
    (x % 0x1_0000_0000) as u32
}

// The words to the front of a layout, as many as it has room for.
pub fn narrow(words: &[u64], layout: &mut [u32])
    ensures { layout.new ≡ take (length layout.old) (map low_word words.now) ++ drop (length words.now) layout.old }
{
    // Kept: tried as a zip with `iter_mut`; no contract then says what the cells hold behind the loop.
    for i in 0..words.len().min(layout.len()) {
        layout[i] = low_word(words[i]);
    }
}

// The number of the cell at a place.
// Kept: 0 where there is none, since behind the values a buffer should hold zeros.
fn number_at<T: Cell>(cells: &[T], i: usize) -> u64
    ensures { result ≡ slice_index (map T.number cells.now) i }
{
    cells.get(i).map_or(0, |cell| cell.number())
}

// Whether a buffer holds these values, then zeros.
pub fn holds<T: Cell, V: Cell>(buffer: &[T], values: &[V]) -> bool
    ensures { result ≡ holds (map T.number buffer.now) (map V.number values.now) }
{
    // Kept: the proof of `all` over places did not close.
    for (i, cell) in buffer.iter().enumerate() {
        if cell.number() != number_at(values, i) {
            return false;
        }
    }
    true
}
