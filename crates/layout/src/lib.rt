// The layout's words: whether they are lawful, the record's length, and whether a table depends on a count.

#![tactic(auto)]

ghost use Rattle.std.specs.Prelude.{◌≡◌, ◌+◌, ◌*◌, ◌≤◌, length, get_or};
ghost use Rattle.codes.specs.Refusals.{number_in};
ghost use Rattle.spans.specs.Tree.{nested, level};
ghost use Rattle.layout.specs.Level.{entries_left};
ghost use Rattle.layout.specs.Layout.{entry_at, entry_count, span_of, is_group, unrepeated, unrepeated_leaf, controls, part, words_ok, up_to, plain_ok, float_ok, bool_ok, edited_ok, kind_ok, option_ok, place_ok, entry_ok, entries_ok, checked_of, layout_asks, reserved_width, record_length, depends_in};

use codes::{ABSENT, Kind, Refusal};
use spans::{end_of, span_ok};

// The twelve words of an entry.
#[derive(Clone, Copy)]
pub struct Entry {
    pub name: u32,
    pub offset: u32,
    pub width: u32,
    pub kind: u32,
    pub occurs: u32,
    pub depending: u32,
    pub span: u32,
    pub p: u32,
    pub q: u32,
    pub r: u32,
    pub s: u32,
    pub mask: u32,
}

// A number to 65535, or none.
#[tactic(auto, unfolding(crate::specs::Layout::option_ok))]
fn option_ok(n: u32) -> bool
    ensures { result ≡ option_ok n }
{
    n <= 65535 || n == ABSENT
}

impl Entry {
    // Whether p, q, r and s are at most these.
    #[tactic(auto, unfolding(crate::specs::Layout::up_to))]
    fn up_to(self, p: u32, q: u32, r: u32, s: u32) -> bool
        ensures { result ≡ up_to self p q r s }
    {
        self.p <= p && self.q <= q && self.r <= r && self.s <= s
    }

    #[tactic(auto, unfolding(crate::specs::Layout::plain_ok))]
    fn plain_ok(self, p: u32, q: u32, r: u32, s: u32) -> bool
        ensures { result ≡ plain_ok self p q r s }
    {
        self.up_to(p, q, r, s) && self.mask == 0
    }

    #[tactic(auto, unfolding(crate::specs::Layout::float_ok))]
    fn float_ok(self) -> bool
        ensures { result ≡ float_ok self }
    {
        self.plain_ok(1, 64, 0, 0)
            && (self.q == 16 || self.q == 32 || self.q == 64)
            && self.width as u64 * 8 == self.q as u64
    }

    #[tactic(auto, unfolding(crate::specs::Layout::bool_ok))]
    fn bool_ok(self) -> bool
        ensures { result ≡ bool_ok self }
    {
        self.plain_ok(0, 0, 0, 0) && 1 <= self.width
    }

    #[tactic(auto, unfolding(crate::specs::Layout::edited_ok))]
    fn edited_ok(self, masks: usize) -> bool
        ensures { result ≡ edited_ok self masks }
    {
        self.up_to(1, 0, 18, 0) && self.mask as u64 + self.width as u64 <= masks as u64
    }

    #[inline(always)]
    #[tactic(auto, unfolding(crate::specs::Layout::kind_ok))]
    fn kind_ok(self, masks: usize) -> bool
        ensures { result ≡ kind_ok self.kind self masks }
    {
        match Kind::try_from(self.kind) {
            Ok(Kind::Text) => self.plain_ok(1, 1, 255, 0),
            Ok(Kind::Int) => self.plain_ok(1, 3, 0, 0),
            Ok(Kind::Binary) => self.plain_ok(1, 1, 0, 0),
            Ok(Kind::Float) => self.float_ok(),
            Ok(Kind::Hex) => self.plain_ok(1, 0, 0, 0),
            Ok(Kind::Bool) => self.bool_ok(),
            Ok(Kind::Pad) => self.plain_ok(0, 0, 255, 0),
            Ok(Kind::Decimal) => self.plain_ok(2, 3, 18, 38),
            Ok(Kind::Edited) => self.edited_ok(masks),
            Ok(Kind::Group) => self.plain_ok(0, 0, 0, 0),
            Err(_) => false,
        }
    }

    #[tactic(auto, unfolding(crate::specs::Layout::place_ok))]
    fn place_ok(self) -> bool
        ensures { result ≡ place_ok self }
    {
        self.name <= 65535
            && self.offset <= 65535
            && self.width <= 65535
            && option_ok(self.occurs)
            && option_ok(self.depending)
    }

    // Whether an entry's words, but for its span, are in range, with so many mask bytes.
    #[inline(always)]
    #[tactic(auto, unfolding(crate::specs::Layout::entry_ok))]
    pub fn is_lawful(self, masks: usize) -> bool
        ensures { result ≡ entry_ok self masks }
    {
        self.place_ok() && self.kind_ok(masks)
    }

    #[tactic(auto, unfolding(crate::specs::Layout::unrepeated))]
    pub fn is_unrepeated(self) -> bool
        ensures { result ≡ unrepeated self }
    {
        self.occurs == ABSENT && self.depending == ABSENT
    }

    // Whether an entry is one scalar or Pad, so no table and no group.
    pub fn is_unrepeated_leaf(self) -> bool
        ensures { result ≡ unrepeated_leaf self }
    {
        !Kind::Group.is(self.kind) && self.is_unrepeated()
    }

    // Whether an entry sets the count for its name: an unrepeated Int, Binary or Decimal of scale 0 does.
    #[tactic(auto, unfolding(crate::specs::Layout::controls))]
    pub fn controls(self) -> bool
        ensures { result ≡ controls self }
    {
        self.is_unrepeated()
            && match Kind::try_from(self.kind) {
                Ok(Kind::Int | Kind::Binary) => true,
                Ok(Kind::Decimal) => self.r == 0,
                _ => false,
            }
    }

    // The bytes that an entry reserves in the record.
    #[tactic(auto, unfolding(crate::specs::Layout::reserved_width))]
    pub fn reserved_width(self) -> u64
        ensures { result ≡ reserved_width self }
    {
        if self.depending != ABSENT {
            0
        } else if self.occurs == ABSENT {
            self.width as u64
        } else {
            self.width as u64 * self.occurs as u64
        }
    }

    #[tactic(auto, using(crate::proofs::Laws::reserved_small))]
    fn end(self) -> u64
        ensures { result ≡ self.offset + reserved_width self }
    {
        self.offset as u64 + self.reserved_width()
    }
}

// A layout's words, masks and page, lent.
#[derive(Clone, Copy)]
pub struct Layout<'a> {
    pub words: &'a [u32],
    pub masks: &'a [u8],
    pub page: u32,
}

// The entries from the place `at` up to `to`, without their members, each with its place.
#[derive(Drop)]
pub struct Level<'a> {
    layout: Layout<'a>,
    at: usize,
    to: usize,
}

impl<'a> Iterator for Level<'a> {
    ghost use Rattle.std.specs.Iterator.{YieldsFirst, item_count};
    ghost use Rattle.layout.specs.Level.{entries_left};

    type Item = (usize, Entry);

    ghost next_gives = { YieldsFirst entries_left };

    ghost remaining = { item_count entries_left };

    #[inline(always)]
    fn next(&mut self) -> Option<(usize, Entry)> {
        let i = self.at;
        if i >= self.to {
            return None;
        }
        let e = self.layout.load(i);
        self.at = end_of(e.span as u64, i, self.to);
        Some((i, e))
    }
}

impl<'a> Layout<'a> {
    pub fn entry_count(&self) -> usize
        ensures { result ≡ entry_count self.now.words.now }
    {
        self.words.len() / 12
    }

    // The k-th word of the i-th entry; 0 past the layout's end.
    fn word(&self, i: usize, k: usize) -> u32
        ensures { result ≡ get_or self.now.words.now (i * 12 + k) 0 }
    {
        let at = i.saturating_mul(12).saturating_add(k);
        self.words.get(at).copied().unwrap_or(0)
    }

    #[tactic(auto, unfolding(crate::specs::Layout::entry_at))]
    fn load_inside(&self, i: usize) -> Entry
        requires { i * 12 + 12 ≤ length self.now.words.now }
        ensures { result ≡ entry_at self.now.words.now i }
    {
        let at = i * 12;
        Entry {
            name: self.words[at],
            offset: self.words[at + 1],
            width: self.words[at + 2],
            kind: self.words[at + 3],
            occurs: self.words[at + 4],
            depending: self.words[at + 5],
            span: self.words[at + 6],
            p: self.words[at + 7],
            q: self.words[at + 8],
            r: self.words[at + 9],
            s: self.words[at + 10],
            mask: self.words[at + 11],
        }
    }

    // The i-th entry, each word tested on its own; apart from load, so that load stays short.
    #[tactic(auto, unfolding(crate::specs::Layout::entry_at))]
    fn load_outside(&self, i: usize) -> Entry
        ensures { result ≡ entry_at self.now.words.now i }
    {
        Entry {
            name: self.word(i, 0),
            offset: self.word(i, 1),
            width: self.word(i, 2),
            kind: self.word(i, 3),
            occurs: self.word(i, 4),
            depending: self.word(i, 5),
            span: self.word(i, 6),
            p: self.word(i, 7),
            q: self.word(i, 8),
            r: self.word(i, 9),
            s: self.word(i, 10),
            mask: self.word(i, 11),
        }
    }

    // The i-th entry; a word past the layout's end is 0.
    #[inline(always)]
    pub fn load(&self, i: usize) -> Entry
        ensures { result ≡ entry_at self.now.words.now i }
    {
        if i < self.entry_count() {
            self.load_inside(i)
        } else {
            self.load_outside(i)
        }
    }

    #[tactic(auto, unfolding(crate::specs::Layout::words_ok))]
    fn words_ok(&self) -> bool
        ensures { result ≡ words_ok self.now.words.now self.now.page }
    {
        self.words.len() % 12 == 0 && self.entry_count() <= 512 && self.page <= 1
    }

    fn entries_ok(&self) -> bool
        ensures { result ≡ entries_ok self.now.words.now (length self.now.masks.now) }
    {
        for i in 0..self.entry_count() {
            if !self.load_inside(i).is_lawful(self.masks.len()) {
                return false;
            }
        }
        true
    }

    // Whether the entries lo up to hi are well nested, in at most so many levels.
    // Kept: what it asks needs where each entry ends, and `level` yields no ends.
    fn nested(&self, lo: usize, hi: usize, levels: usize) -> bool
        requires { hi * 12 ≤ length self.now.words.now }
        ensures { result ≡ nested span_of is_group levels (part self.now.words.now lo hi) }
    {
        let mut i = lo;
        while i < hi {
            if levels == 0 {
                return false;
            }
            let e = self.load_inside(i);
            if e.span == 1 {
                i += 1;
                continue;
            }
            let end = end_of(e.span as u64, i, hi);
            if !span_ok(e.span, Kind::Group.is(e.kind), end - (i + 1)) {
                return false;
            }
            if !self.nested(i + 1, end, levels - 1) {
                return false;
            }
            i = end;
        }
        true
    }

    // The first question that the layout fails, of its words, its entries and their spans.
    #[tactic(auto, unfolding(crate::specs::Layout::checked_of, crate::specs::Layout::spans_ok))]
    pub fn check(&self) -> Result<(), Refusal>
        ensures { number_in result ≡ checked_of self.now.words.now self.now.masks.now self.now.page }
    {
        if !self.words_ok() {
            return Err(Refusal::LayoutWords);
        }
        if !self.entries_ok() {
            return Err(Refusal::EntryWords);
        }
        if !self.nested(0, self.entry_count(), 8) {
            return Err(Refusal::Nesting);
        }
        Ok(())
    }

    // The first question that the layout fails, its work space counted in words.
    #[tactic(auto, unfolding(crate::specs::Layout::layout_asks))]
    pub fn ask(&self, work: usize) -> Result<(), Refusal>
        ensures { number_in result ≡ layout_asks self.now.words.now self.now.masks.now self.now.page work }
    {
        self.check()?;
        if work < self.entry_count() * 2 {
            return Err(Refusal::NoRoom);
        }
        Ok(())
    }

    // The entries lo up to hi, without their members, each with its place.
    #[inline(always)]
    #[tactic(auto, unfolding(crate::specs::Level::entries_left))]
    pub fn level(&self, lo: usize, hi: usize) -> Level<'a>
        ensures entries { entries_left result ≡ level lo (part self.now.words.now lo hi) }
        ensures fields { (result.layout ≡ self.now) × (result.at ≡ lo) × (result.to ≡ hi) }
    {
        Level {
            layout: *self,
            at: lo,
            to: hi,
        }
    }

    // The greatest end of a top-level entry.
    #[tactic(auto, using(crate::proofs::Laws::length_by_fold))]
    pub fn record_length(&self) -> u64
        ensures { result ≡ record_length self.now.words.now }
    {
        let mut far: u64 = 0;
        for (_, e) in self.level(0, self.entry_count()) {
            far = far.max(e.end());
        }
        far
    }

    // Whether some entry depends on a count.
    pub fn has_depending_on(&self) -> bool
        ensures { result ≡ depends_in self.now.words.now }
    {
        for i in 0..self.entry_count() {
            if self.load_inside(i).depending != ABSENT {
                return true;
            }
        }
        false
    }
}
