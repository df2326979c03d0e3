// Scrap over the last jobs: sums of two Decimals over the last records, in a lent window; at a display scale by cutting, after a changeover by half-even rounding.

#![tactic(auto)]

ghost use Rattle.std.specs.Prelude.{◌≡◌, ℕ, ◌+◌, ◌-◌, ◌*◌, ◌^◌, ◌<◌, ◌≤◌, ◌&&◌, true, length, slice_index};
ghost use Rattle.codes.specs.Refusals.{number_in};
ghost use Rattle.layout.specs.Layout.{entries};
ghost use Rattle.items.specs.Items.{values, head_of};
ghost use Rattle.walks.specs.Records.{read_into};
ghost use Rattle.window.specs.Window.{pair, window_words, small, small_pair, words_ok, all_small, held_in, whole_of, sums_ok, lawful_in, started, changed, rule_in, rule_of, ruled, contributed, contributed_pair};
ghost use Rattle.window.specs.Pair.{is_top, items_for, items_before, is_summable, summed, scale_at, pair_ok, pair_asks, word_at, pair_in};
ghost use Rattle.window.specs.Steps.{put_at, with_head, pair_plus, pair_minus, pushed};
ghost use Rattle.window.specs.Calls.{window_asks, before_asks, WindowWritten, added_to, first_in, second_in, WindowAdded};
ghost use Rattle.window.specs.Parts.{pair_given, PairRead, PairTaken};

use codes::{Kind, Refusal};
use decode::decode_record;
use items::{ValueList, item_count};
use layout::{Entry, Layout};
use spans::end_of;
use value::{is_minus, rounded, size_of, ten_to, word_of};

// The words of a window: how many pairs it holds, their two sums, the display word and the word of the rule; behind them the pairs, the oldest first.
const COUNT: usize = 0;

const FIRST_SUM: usize = 1;

const SECOND_SUM: usize = 2;

const DISPLAY: usize = 3;

const RULE: usize = 4;

const PAIRS: usize = 5;

// The two numbers that one record gives, as words; or both sums of a window, as numbers.
#[derive(Clone, Copy)]
pub struct Pair<T> {
    pub first: T,
    pub second: T,
}

// What a window is lent for: a layout, how many pairs it holds at most, and its two entries by their numbers.
#[derive(Clone, Copy)]
pub struct Setting<'a> {
    pub layout: Layout<'a>,
    pub w: u64,
    pub first: u64,
    pub second: u64,
}

// ---- question 18: the two entries

// How many items an entry of the top level yields there.
#[tactic(auto, unfolding(layout::specs::Layout::is_pad))]
fn items_for(e: Entry) -> usize
    ensures { result ≡ items_for e }
{
    if Kind::Pad.is(e.kind) { 0 } else { 1 }
}

// Whether the entry of a number stands at the top level.
fn is_top(layout: &Layout, number: u64) -> bool
    ensures { result ≡ is_top (entries layout.now.words.now) number }
{
    layout
        .level(0, layout.entry_count())
        .any(|(i, _)| i as u64 == number)
}

// How many items of the top level stand before that of the entry of a number.
#[tactic(auto, using(crate::proofs::Places::before_by_level, crate::proofs::Places::few_by_level))]
fn items_before(layout: &Layout, number: u64) -> usize
    ensures { result ≡ items_before (entries layout.now.words.now) number }
{
    let mut before = 0;
    for (i, e) in layout.level(0, layout.entry_count()) {
        if number <= i as u64 {
            break;
        }
        before += items_for(e);
    }
    before
}

#[tactic(auto, unfolding(crate::specs::Pair::is_summable))]
fn is_summable(e: Entry) -> bool
    ensures { result ≡ is_summable e }
{
    e.is_unrepeated() && Kind::Decimal.is(e.kind)
}

// Whether the entry of a number is an unrepeated Decimal of the top level.
#[tactic(auto, unfolding(crate::specs::Pair::summed))]
fn is_summed(layout: &Layout, number: u64) -> bool
    ensures { result ≡ summed layout.now.words.now number }
{
    is_top(layout, number) && is_summable(layout.load(number as usize))
}

// The scale of the entry of a number.
fn scale_at(layout: &Layout, number: u64) -> u64
    ensures { result ≡ scale_at layout.now.words.now number }
{
    layout.load(number as usize).r as u64
}

// ---- question 24, and a pair more

// Whether a number is below 10^12 in size.
fn is_small(x: u64) -> bool
    ensures { result ≡ small x }
{
    size_of(x) < 1000000000000
}

impl Pair<u64> {
    fn is_small(self) -> bool
        ensures { result ≡ small_pair self }
    {
        is_small(self.first) && is_small(self.second)
    }

    // The sums of the words of either half.
    fn plus(self, more: Pair<u64>) -> Pair<u64>
        ensures { result ≡ pair_plus self more }
    {
        Pair {
            first: self.first.wrapping_add(more.first),
            second: self.second.wrapping_add(more.second),
        }
    }

    // The words of either half without those of a pair.
    fn minus(self, less: Pair<u64>) -> Pair<u64>
        ensures { result ≡ pair_minus self less }
    {
        Pair {
            first: self.first.wrapping_sub(less.first),
            second: self.second.wrapping_sub(less.second),
        }
    }

    // What a pair contributes to a window.
    fn contribution(self, scale: u64, display: u64, passed: bool) -> Pair<u64>
        requires { display ≤ scale }
        ensures { result ≡ contributed_pair scale display (rule_of passed) self }
    {
        Pair {
            first: contribution(scale, display, passed, self.first),
            second: contribution(scale, display, passed, self.second),
        }
    }
}

// The words of a pair that stand at a place.
fn pair_at(window: &[u64], at: usize) -> Pair<u64>
    requires { 2 + at ≤ length window.now }
    ensures { result ≡ pair (slice_index window.now at) (slice_index window.now (at + 1)) }
{
    Pair {
        first: window[at],
        second: window[at + 1],
    }
}

// Whether the pairs that a window holds are small, and its sums are theirs.
fn is_summed_up(window: &[u64]) -> bool
    requires { window_words (slice_index window.now 0) ≤ length window.now }
    ensures { result ≡ (all_small (held_in window.now) && sums_ok window.now) }
{
    let mut sums = Pair {
        first: 0,
        second: 0,
    };
    for i in 0..window[COUNT] as usize {
        let pair = pair_at(window, PAIRS + i * 2);
        if !pair.is_small() {
            return false;
        }
        sums = sums.plus(pair);
    }
    window[FIRST_SUM] == sums.first && window[SECOND_SUM] == sums.second
}

// Whether a window is lawful, as one of W pairs whose entries have this scale.
#[tactic(auto, unfolding(crate::specs::Window::lawful_in))]
fn is_lawful(window: &[u64], w: usize, scale: u64) -> bool
    requires { window_words w ≤ length window.now }
    ensures { result ≡ lawful_in w scale window.now }
{
    window[COUNT] <= w as u64
        && window[DISPLAY] <= scale
        && window[RULE] <= 1
        && is_summed_up(window)
}

// The front three words: the count and the sums.
fn put_head(window: &mut [u64], count: u64, sums: Pair<u64>)
    requires { 3 ≤ length window.old }
    ensures { window.new ≡ with_head count sums.first sums.second window.old }
{
    window[COUNT] = count;
    window[FIRST_SUM] = sums.first;
    window[SECOND_SUM] = sums.second;
}

// A pair at a place.
#[tactic(auto, using(crate::proofs::Steps::pair_put))]
fn put_pair(window: &mut [u64], at: usize, pair: Pair<u64>)
    requires { 2 + at ≤ length window.old }
    ensures { window.new ≡ put_at at pair.first pair.second window.old }
{
    window[at] = pair.first;
    window[at + 1] = pair.second;
}

// One accepted pair: behind the others while there are fewer than W, else the oldest goes and the others move one place down.
fn push(window: &mut [u64], w: usize, pair: Pair<u64>)
    requires { (0 < w) × (window_words w ≤ length window.old) }
    ensures { window.new ≡ pushed w pair.first pair.second window.old }
{
    let count = window[COUNT];
    let sums = pair_at(window, FIRST_SUM);
    if count < w as u64 {
        put_pair(window, PAIRS + count as usize * 2, pair);
        put_head(window, 1 + count, sums.plus(pair));
    } else {
        let rest = sums.minus(pair_at(window, PAIRS));
        window.copy_within(PAIRS + 2..PAIRS + w * 2, PAIRS);
        put_pair(window, PAIRS + (w * 2 - 2), pair);
        put_head(window, w as u64, rest.plus(pair));
    }
}

// ---- what a value contributes

// A size without k digits: cut, or, where the changeover is passed, to the nearest. From k = 20 on nothing is left of a size that is cut.
fn without_digits(size: u64, k: u64, passed: bool) -> u64
    ensures { result ≡ ruled (rule_of passed) size (10 ^ k) }
{
    if passed {
        rounded(size, k)
    } else if k > 19 {
        0
    } else {
        size / ten_to(k)
    }
}

// A value as a window with this display word takes it: itself, or its value at the display scale.
#[tactic(auto, unfolding(crate::specs::Window::contributed))]
fn contribution(scale: u64, display: u64, passed: bool, x: u64) -> u64
    requires { display ≤ scale }
    ensures { result ≡ contributed scale display (rule_of passed) x }
{
    if display == 0 {
        x
    } else {
        word_of(
            is_minus(x),
            without_digits(size_of(x), scale - (display - 1), passed),
        )
    }
}

// A word read as signed.
#[tactic(auto, using(crate::proofs::Totals::cast_whole))]
fn int_of(word: u64) -> i64
    ensures { result ≡ whole_of word }
{
    word.cast_signed()
}

// Question 19 of a pair, and what it contributes into a lawful window.
fn take_pair(
    window: &mut [u64],
    w: usize,
    scale: u64,
    pair: Pair<u64>,
) -> Result<Pair<i64>, Refusal>
    requires { (0 < w) × ((w ≤ 4096) × ((window_words w ≤ length window.old) × (lawful_in w scale window.old ≡ true))) }
    ensures { PairTaken pair scale w (number_in result) (first_in result) (second_in result) window.old window.new }
{
    if !pair.is_small() {
        return Err(Refusal::LargeValue);
    }
    let display = window[DISPLAY];
    let passed = window[RULE] == 1;
    push(window, w, pair.contribution(scale, display, passed));
    Ok(Pair {
        first: int_of(window[FIRST_SUM]),
        second: int_of(window[SECOND_SUM]),
    })
}

// ---- a window's setting: its questions, and a record's pair

// The word of the k-th item of the top level of a list; 0 where there is none.
// Kept: the definition gives this number, which is a word of the Null that `fetch` hands out there, and `pair_in` takes it as a number.
#[tactic(auto, unfolding(crate::specs::Pair::word_at))]
fn word_at(list: &ValueList, k: usize) -> u64
    ensures { result ≡ word_at k list.now.items.now }
{
    let to = list.item_count();
    let mut i = 0;
    for _ in 0..k {
        i = list.item_end(i, to);
    }
    list.fetch(i, to).a
}

impl<'a> Setting<'a> {
    // The scale of its entries.
    fn scale(&self) -> u64
        ensures { result ≡ scale_at self.now.layout.words.now self.now.first }
    {
        scale_at(&self.layout, self.first)
    }

    #[tactic(auto, unfolding(crate::specs::Pair::pair_ok))]
    fn pair_ok(&self) -> bool
        ensures { result ≡ pair_ok self.now.layout.words.now self.now.first self.now.second }
    {
        is_summed(&self.layout, self.first)
            && is_summed(&self.layout, self.second)
            && self.scale() == scale_at(&self.layout, self.second)
            && self.first != self.second
    }

    // Question 18: W, the two entries and a display word.
    #[tactic(auto, unfolding(crate::specs::Pair::pair_asks))]
    fn ask_pair(&self, display: u64) -> Result<(), Refusal>
        ensures { number_in result ≡ pair_asks self.now.layout.words.now self.now.w self.now.first self.now.second display }
    {
        if 1 <= self.w && self.w <= 4096 && self.pair_ok() && display <= self.scale() {
            Ok(())
        } else {
            Err(Refusal::PairOrDisplay)
        }
    }

    // How many words a window has.
    fn words(&self) -> usize
        requires { self.now.w ≤ 4096 }
        ensures { result ≡ window_words self.now.w }
    {
        PAIRS + self.w as usize * 2
    }

    // The questions on the layout, the pair and the window's length: the first that fails.
    #[tactic(auto, unfolding(crate::specs::Calls::window_asks))]
    fn ask(&self, display: u64, words: usize, work: usize) -> Result<(), Refusal>
        ensures { number_in result ≡ window_asks self.now.layout.words.now self.now.layout.masks.now self.now.layout.page
            self.now.w self.now.first self.now.second display words work }
    {
        self.layout.ask(work)?;
        self.ask_pair(display)?;
        if words < self.words() {
            return Err(Refusal::NoRoom);
        }
        Ok(())
    }

    // The questions before a record: the first that fails.
    #[inline(always)]
    #[tactic(auto, unfolding(crate::specs::Calls::before_asks))]
    fn ask_before(&self, window: &[u64], work: usize) -> Result<(), Refusal>
        ensures { number_in result ≡ before_asks self.now.layout.words.now self.now.layout.masks.now self.now.layout.page
            self.now.w self.now.first self.now.second window.now work }
    {
        self.ask(0, window.len(), work)?;
        if !is_lawful(window, self.w as usize, self.scale()) {
            return Err(Refusal::WindowWords);
        }
        Ok(())
    }

    // The pair of a list that was read: each entry's own item, by its place.
    #[tactic(auto, unfolding(crate::specs::Pair::pair_in))]
    fn pair_in(&self, list: &ValueList) -> Pair<u64>
        ensures { result ≡ pair_in self.now.layout.words.now self.now.first self.now.second list.now.items.now }
    {
        Pair {
            first: word_at(list, items_before(&self.layout, self.first)),
            second: word_at(list, items_before(&self.layout, self.second)),
        }
    }

    // Reads a record, takes its pair out of the list, and clears the list.
    fn read_pair(
        &self,
        record: &[u8],
        items: &mut [u64],
        text: &mut [u8],
        counts: &mut [i64],
    ) -> Result<Pair<u64>, Refusal>
        ensures { PairRead (read_into self.now.layout.words.now self.now.layout.masks.now self.now.layout.page «record».now items.old text.old counts.old)
            self.now.layout.words.now self.now.first self.now.second (number_in result) (pair_given result)
            items.old items.new text.old text.new counts.old counts.new }
    {
        // Kept: no `?`. What stands in the refused arm is the reader's number, and a must-fail edit gives another.
        match decode_record(&self.layout, record, items, text, counts) {
            Ok(read) => {
                let pair = self.pair_in(&ValueList {
                    items: &items[..read.items],
                    text: &text[..read.text],
                });
                items::clear(items, text);
                Ok(pair)
            }
            Err(refusal) => Err(refusal),
        }
    }
}

// ---- the calls

// Starts a window: zeroes it but for its display word, 0 or a display scale plus 1.
pub fn window_start(
    setting: &Setting,
    display: u64,
    window: &mut [u64],
    counts: &mut [i64],
) -> Result<(), Refusal>
    ensures { WindowWritten (window_asks setting.now.layout.words.now setting.now.layout.masks.now setting.now.layout.page
        setting.now.w setting.now.first setting.now.second display (length window.old) (length counts.old))
        (number_in result) (started setting.now.w display window.old) window.old window.new counts.old counts.new }
{
    let asked = setting.ask(display, window.len(), counts.len());
    counts.fill(0);
    asked?;
    window[..setting.words()].fill(0);
    window[DISPLAY] = display;
    Ok(())
}

// Passes a window from cutting to half-even rounding; the pairs that it holds stay.
pub fn window_change(
    setting: &Setting,
    window: &mut [u64],
    counts: &mut [i64],
) -> Result<(), Refusal>
    ensures { WindowWritten (before_asks setting.now.layout.words.now setting.now.layout.masks.now setting.now.layout.page
        setting.now.w setting.now.first setting.now.second window.old (length counts.old))
        (number_in result) (changed window.old) window.old window.new counts.old counts.new }
{
    let asked = setting.ask_before(window, counts.len());
    counts.fill(0);
    asked?;
    window[RULE] = 1;
    Ok(())
}

// Reads a record and takes its pair into a window: both sums over the last W accepted records.
pub fn window_add(
    setting: &Setting,
    record: &[u8],
    window: &mut [u64],
    items: &mut [u64],
    text: &mut [u8],
    counts: &mut [i64],
) -> Result<Pair<i64>, Refusal>
    ensures { WindowAdded
        (added_to setting.now.layout.words.now setting.now.layout.masks.now setting.now.layout.page «record».now
        setting.now.w setting.now.first setting.now.second window.old items.old text.old counts.old)
        (scale_at setting.now.layout.words.now setting.now.first) setting.now.w (number_in result) (first_in result) (second_in result)
        window.old window.new items.old items.new text.old text.new counts.old counts.new }
{
    if let Err(refusal) = setting.ask_before(window, counts.len()) {
        items::clear(items, text);
        counts.fill(0);
        return Err(refusal);
    }
    let pair = setting.read_pair(record, items, text, counts)?;
    take_pair(window, setting.w as usize, setting.scale(), pair)
}
