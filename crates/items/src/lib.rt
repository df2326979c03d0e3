// Value lists: whether one is well formed, and its items by name.

#![tactic(auto)]

ghost use Rattle.std.specs.Prelude.{◌≡◌, cond, false, ◌++◌, ℕ, ◌+◌, ◌*◌, ◌/◌, ◌≤◌, min, length, get_or, drop, replicate};
ghost use Rattle.codes.specs.Kinds.{word_of_tag};
ghost use Rattle.codes.specs.Refusals.{number_in};
ghost use Rattle.lists.specs.Part.{place_in};
ghost use Rattle.spans.specs.Tree.{end_of, level};
ghost use Rattle.items.specs.Level.{items_left};
ghost use Rattle.items.specs.Items.{item_words, words_of, item_of, header, scalar_in, text_of, text_start, item_at, holds, span_of, values, text_ok, scalar_ok, holder_ok, item_ok, count, list_ok, well_formed, head_of, lookup, place_of};

use codes::{ELEMENT, Refusal, Tag};
use spans::end_of;
use value::{LIMIT, Scalar, Words, size_of};

// The words of an item; this crate alone knows which they are.
pub const ITEM_WORDS: usize = 4;

// How many items so many words are.
pub fn item_count(words: usize) -> usize
    ensures { result ≡ words / item_words }
{
    words / ITEM_WORDS
}

// Where the members of an item at i begin, if it ends at `end`.
pub fn after(i: usize, end: usize) -> usize
    ensures { result ≡ min end (i + 1) }
{
    if i < end { i + 1 } else { end }
}

// Whether a text of length b from a on is inside the buffer.
pub fn text_ok(text: usize, a: u64, b: u64) -> bool
    ensures { result ≡ text_ok text a b }
{
    a <= text as u64 && b <= text as u64 - a
}

// Clears the buffers of a list.
pub fn clear(items: &mut [u64], text: &mut [u8])
    ensures items_after { items.new ≡ replicate (length items.old) 0 }
    ensures text_after { text.new ≡ replicate (length text.old) 0 }
{
    items.fill(0);
    text.fill(0);
}

// An item of a value list: its name, its tag, and two words.
#[derive(Clone, Copy)]
pub struct Item {
    pub name: u64,
    pub tag: u64,
    pub a: u64,
    pub b: u64,
}

// The words of an item that tell its value.
impl From<Item> for Words {
    ghost from_gives = { λ it words. (words.tag ≡ it.tag) × ((words.a ≡ it.a) × (words.b ≡ it.b)) };

    fn from(it: Item) -> Words {
        Words {
            tag: it.tag,
            a: it.a,
            b: it.b,
        }
    }
}

impl Item {
    // The item of a scalar.
    pub fn of_scalar(name: u64, v: Scalar) -> Item
        ensures { result ≡ item_of name v }
    {
        let Words { tag, a, b } = v.into();
        Item { name, tag, a, b }
    }

    // The item of a List or Struct of so many members, its span itself counted.
    pub fn header(name: u64, tag: Tag, members: u64, span: u64) -> Item
        ensures { result ≡ header name (word_of_tag tag) members span }
    {
        Item {
            name,
            tag: tag.into(),
            a: members,
            b: span,
        }
    }

    // An item at the front of the words.
    pub fn put(self, items: &mut [u64])
        requires { item_words ≤ length items.old }
        ensures { items.new ≡ words_of self ++ drop item_words items.old }
    {
        items[0] = self.name;
        items[1] = self.tag;
        items[2] = self.a;
        items[3] = self.b;
    }

    // The scalar of an item.
    pub fn scalar(self) -> Scalar
        ensures { result ≡ scalar_in self }
    {
        Words::from(self).into()
    }

    // The bytes of a Text in its text buffer; no other item has any.
    pub fn text_in<'a>(self, text: &'a [u8]) -> &'a [u8]
        ensures result_value { result.now ≡ text_of text.now self }
        ensures ref_ptr_value { result.ref_ptr ≡ place_in text.entry (text_start text.now self) }
    {
        if !Tag::Text.is(self.tag) {
            return &text[..0];
        }
        let start = self.a.min(text.len() as u64) as usize;
        let rest = &text[start..];
        let count = self.b.min(rest.len() as u64) as usize;
        &rest[..count]
    }

    // Whether an item of this tag has members.
    fn has_members(self) -> bool
        ensures { result ≡ holds self.tag }
    {
        Tag::List.is(self.tag) || Tag::Struct.is(self.tag)
    }

    fn span(self) -> u64
        ensures { result ≡ span_of self }
    {
        if self.has_members() { self.b } else { 1 }
    }

    // Whether an item is a lawful scalar, its text standing in so many bytes.
    #[tactic(auto, unfolding(crate::specs::Items::scalar_ok))]
    pub fn is_lawful_scalar(self, text: usize) -> bool
        ensures { result ≡ scalar_ok text self }
    {
        match Tag::try_from(self.tag) {
            Ok(Tag::Null) => self.a == 0 && self.b == 0,
            Ok(Tag::Text) => text_ok(text, self.a, self.b),
            Ok(Tag::Int | Tag::Float) => self.b == 0,
            Ok(Tag::Decimal) => size_of(self.a) < LIMIT && self.b <= 18,
            Ok(Tag::Bool) => self.a <= 1 && self.b == 0,
            _ => false,
        }
    }

    // Whether an item is a List or Struct of so many members, and so many items below it.
    #[tactic(auto, unfolding(crate::specs::Items::holder_ok))]
    fn is_holder(self, members: u64, below: u64) -> bool
        ensures { result ≡ holder_ok self members below }
    {
        self.has_members() && self.a == members && self.b != 0 && self.b - 1 == below
    }

    // Whether an item is lawful where it stands.
    #[tactic(auto, unfolding(crate::specs::Items::item_ok))]
    fn is_lawful(self, text: usize, in_list: bool, members: u64, below: u64) -> bool
        ensures { result ≡ item_ok text in_list self members below }
    {
        let named = if in_list {
            self.name == ELEMENT
        } else {
            self.name <= 65535
        };
        named && (self.is_lawful_scalar(text) || self.is_holder(members, below))
    }
}

// A value list: its item words and its text bytes, lent.
#[derive(Clone, Copy)]
pub struct ValueList<'a> {
    pub items: &'a [u64],
    pub text: &'a [u8],
}

// The items from the place `at` up to `to`, without their members, each with its place.
#[derive(Drop)]
pub struct Level<'a> {
    list: ValueList<'a>,
    at: usize,
    to: usize,
}

impl<'a> Iterator for Level<'a> {
    ghost use Rattle.std.specs.Iterator.{YieldsFirst, item_count};
    ghost use Rattle.items.specs.Level.{items_left};

    type Item = (usize, Item);

    ghost next_gives = { YieldsFirst items_left };

    ghost remaining = { item_count items_left };

    #[inline(always)]
    fn next(&mut self) -> Option<(usize, Item)> {
        let i = self.at;
        if i >= self.to {
            return None;
        }
        let it = self.list.item_at(i);
        self.at = end_of(it.span(), i, self.to);
        Some((i, it))
    }
}

impl<'a> ValueList<'a> {
    pub fn item_count(&self) -> usize
        ensures { result ≡ length self.now.items.now / item_words }
    {
        item_count(self.items.len())
    }

    // The word k of the item i, and 0 past the end.
    fn word_at(&self, i: usize, k: usize) -> u64
        ensures { result ≡ get_or self.now.items.now (i * item_words + k) 0 }
    {
        let at = i.saturating_mul(ITEM_WORDS).saturating_add(k);
        self.items.get(at).copied().unwrap_or(0)
    }

    // The item i, its words past the end 0.
    fn item_at(&self, i: usize) -> Item
        ensures { result ≡ item_at self.now.items.now i }
    {
        if i < self.item_count() {
            let at = i * ITEM_WORDS;
            Item {
                name: self.items[at],
                tag: self.items[at + 1],
                a: self.items[at + 2],
                b: self.items[at + 3],
            }
        } else {
            Item {
                name: self.word_at(i, 0),
                tag: self.word_at(i, 1),
                a: self.word_at(i, 2),
                b: self.word_at(i, 3),
            }
        }
    }

    // The first item of the sequence i..to, and a Null where there is none.
    pub fn fetch(&self, i: usize, to: usize) -> Item
        ensures { result ≡ head_of (values self.now.items.now i to) }
    {
        if i < to {
            self.item_at(i)
        } else {
            Item::of_scalar(0, Scalar::Null)
        }
    }

    // Where the first item of the sequence i..to ends.
    pub fn item_end(&self, i: usize, to: usize) -> usize
        ensures { result ≡ end_of (span_of (head_of (values self.now.items.now i to))) i to }
    {
        end_of(self.fetch(i, to).span(), i, to)
    }

    // The items lo up to hi, without their members, each with its place.
    #[inline(always)]
    #[tactic(auto, unfolding(crate::specs::Level::items_left))]
    pub fn level(&self, lo: usize, hi: usize) -> Level<'a>
        ensures items { items_left result ≡ level lo (values self.now.items.now lo hi) }
        ensures fields { (result.list ≡ self.now) × (result.at ≡ lo) × (result.to ≡ hi) }
    {
        Level {
            list: *self,
            at: lo,
            to: hi,
        }
    }

    // The place of the first item of a name in the sequence from..to, and `to` where there is none.
    pub fn find(&self, name: u64, from: usize, to: usize) -> usize
        ensures place { result ≡ place_of self.now.items.now name from to }
        ensures found { lookup name (values self.now.items.now from to) ≡ values self.now.items.now result to }
    {
        self.level(from, to)
            .find(|(_, it)| it.name == name)
            .map_or(to, |(i, _)| i)
    }

    // How many items the sequence lo..hi has at its own level.
    #[tactic(auto, using(crate::proofs::Lawful::few_by_level))]
    pub fn members(&self, lo: usize, hi: usize) -> u64
        ensures { result ≡ count (values self.now.items.now lo hi) }
    {
        self.level(lo, hi).count() as u64
    }

    // Whether the sequence lo..hi is lawful, in at most so many levels.
    // Kept: what it asks needs where each item ends, and `level` yields no ends.
    fn is_lawful(&self, lo: usize, hi: usize, levels: usize, in_list: bool) -> bool
        ensures { result ≡ list_ok (length self.now.text.now) in_list levels (values self.now.items.now lo hi) }
    {
        let mut i = lo;
        while i < hi {
            if levels == 0 {
                return false;
            }
            let it = self.fetch(i, hi);
            if !it.has_members() {
                if !it.is_lawful(self.text.len(), in_list, 0, 0) {
                    return false;
                }
                i += 1;
                continue;
            }
            let end = end_of(it.span(), i, hi);
            let below = (end - i - 1) as u64;
            let n = self.members(i + 1, end);
            if !it.is_lawful(self.text.len(), in_list, n, below) {
                return false;
            }
            if end == i + 1 {
                i = end;
                continue;
            }
            if !self.is_lawful(i + 1, end, levels - 1, Tag::List.is(it.tag)) {
                return false;
            }
            i = end;
        }
        true
    }

    // Question 11: whether the value list is well formed.
    #[tactic(auto, unfolding(crate::specs::Items::well_formed))]
    pub fn check(&self) -> Result<(), Refusal>
        ensures { number_in result ≡ cond (well_formed self.now.items.now (length self.now.text.now)) 0 11 }
    {
        if self.items.len() % ITEM_WORDS == 0 && self.is_lawful(0, self.item_count(), 16, false) {
            Ok(())
        } else {
            Err(Refusal::IllFormedList)
        }
    }
}
