// The text form of a layout, read into its words and masks.

#![tactic(auto)]

ghost use Rattle.std.specs.Prelude.{◌≡◌, List, [], ◌++◌, ℕ, ◌+◌, ◌*◌, ◌≤◌, ◌<◌, length, get_or, take, drop, set, Bool, Option, IfOk, MatchOption, ⊤};
ghost use Rattle.codes.specs.Refusals.{number_in};
ghost use Rattle.value.specs.Answer.{Answer, answered};
ghost use Rattle.lists.specs.Part.{place_in};
ghost use Rattle.lines.specs.Lines.{line_from, start_in, name_ok};
ghost use Rattle.lines.specs.Names.{index_in, distinct, names_at};
ghost use Rattle.layout_text.specs.Form.{lines_of, name_word, depending_word, mask_word, optional, mask_for};
ghost use Rattle.layout_text.specs.Reading.{names_of, masks_of, scale_of, precision_of, mask_word_of, twelve, words_of};
ghost use Rattle.layout_text.specs.Reading.{read_of, layout_into, page_in, words_in, masks_in, LayoutRead, spelling, first_start, spelling_at, name_count, Spells};
ghost use Rattle.layout_text.specs.Firsts.{see_both, depending_in, firsts_of, Firsts};
ghost use Rattle.layout_text.specs.Walk.{Judges, line_by, Reads, number_by, number_line, option_line, start_of, PageTells, Tells};
ghost use Rattle.layout_text.specs.Walk.{entry_with, fine_alone, FindsIn, nested_in, reading_of, Lasts};

use codes::{ABSENT, Kind, Refusal};
use layout::Entry;
use lines::{Found, Table, mask_ok, name_at, name_ok, number_of, value_at};
use lists::put;
use spans::{end_of, span_ok};

// ---- one line

// A number that a line says, and where the next line starts.
#[derive(Clone, Copy)]
pub struct Number {
    pub value: u32,
    pub next: usize,
}

// What is read of the value behind a word.
#[tactic(auto, using(crate::proofs::Answering::read_refused))]
fn number_by<F: Fn(&[u8]) -> Result<u32, Refusal>>(
    text: &[u8],
    at: usize,
    word: &[u8],
    read: F,
) -> Result<Number, Refusal>
    requires { F.IsAlwaysCallable read }
    ensures { (reads : List ℕ → Answer ℕ) → Reads F.Fn read reads → answered result ≡ number_by reads word.now text.now at }
{
    let found = value_at(text, at, word)?;
    let value = read(&text[found.start..found.end])?;
    Ok(Number {
        value,
        next: found.next,
    })
}

fn number_line(text: &[u8], at: usize, word: &[u8]) -> Result<Number, Refusal>
    ensures { answered result ≡ number_line word.now text.now at }
{
    number_by(text, at, word, number_of)
}

// A number, or 4294967295 for an empty value.
fn option_line(text: &[u8], at: usize, word: &[u8]) -> Result<Number, Refusal>
    ensures { answered result ≡ option_line word.now text.now at }
{
    number_by(text, at, word, |s| {
        if s.is_empty() {
            Ok(ABSENT)
        } else {
            number_of(s)
        }
    })
}

// The value behind a word, where a test passes it.
#[tactic(auto, using(crate::proofs::Answering::by_passed, crate::proofs::Answering::by_failed, crate::proofs::Answering::by_refused))]
fn line_by<F: Fn(&[u8]) -> bool>(
    text: &[u8],
    at: usize,
    word: &[u8],
    test: F,
) -> Result<Found, Refusal>
    requires { F.IsAlwaysCallable test }
    ensures value { (judge : List ℕ → Bool) → Judges F.Fn test judge → answered result ≡ line_by judge word.now text.now at }
    ensures order { IfOk result (λ found. found.start ≤ found.end) }
{
    let found = value_at(text, at, word)?;
    if test(&text[found.start..found.end]) {
        Ok(found)
    } else {
        Err(Refusal::LayoutText)
    }
}

fn name_line(text: &[u8], at: usize) -> Result<Found, Refusal>
    ensures { answered result ≡ line_by name_ok name_word text.now at }
{
    line_by(text, at, b"name=", name_ok)
}

// A name, or nothing.
fn depending_line(text: &[u8], at: usize) -> Result<Found, Refusal>
    ensures { answered result ≡ line_by (optional name_ok) depending_word text.now at }
{
    line_by(text, at, b"depending=", |s| s.is_empty() || name_ok(s))
}

// An Edited's mask; nothing for another kind.
fn mask_line(text: &[u8], at: usize, kind: u32) -> Result<Found, Refusal>
    ensures value { answered result ≡ line_by (mask_for kind) mask_word text.now at }
    ensures order { IfOk result (λ found. found.start ≤ found.end) }
{
    line_by(text, at, b"mask=", |s| {
        if Kind::Edited.is(kind) {
            mask_ok(s)
        } else {
            s.is_empty()
        }
    })
}

// Where a name starts, if there is one.
fn start_of(found: Found) -> Option<usize>
    ensures { result ≡ start_of found }
{
    if found.start == found.end {
        None
    } else {
        Some(found.start)
    }
}

// ---- one entry

// What eleven lines say: where the name, the name depended on and the mask start, the mask's length, the numbers, and where the next line starts.
#[derive(Clone, Copy)]
pub struct Said {
    pub name: usize,
    pub offset: u32,
    pub width: u32,
    pub kind: u32,
    pub occurs: u32,
    pub depending: Option<usize>,
    pub span: u32,
    pub p: u32,
    pub q: u32,
    pub r: u32,
    pub mask: usize,
    pub length: usize,
    pub next: usize,
}

#[tactic(auto, using(crate::proofs::Page::page_told))]
fn page_line(text: &[u8]) -> Result<Number, Refusal>
    ensures { PageTells text.now result }
{
    number_line(text, 0, b"page=")
}

fn entry_lines(text: &[u8], at: usize) -> Result<Said, Refusal>
    ensures { Tells text.now at result }
{
    let name = name_line(text, at)?;
    let offset = number_line(text, name.next, b"offset=")?;
    let width = number_line(text, offset.next, b"width=")?;
    let kind = number_line(text, width.next, b"kind=")?;
    let occurs = option_line(text, kind.next, b"occurs=")?;
    let depending = depending_line(text, occurs.next)?;
    let span = number_line(text, depending.next, b"span=")?;
    let p = number_line(text, span.next, b"p=")?;
    let q = number_line(text, p.next, b"q=")?;
    let r = number_line(text, q.next, b"r=")?;
    let mask = mask_line(text, r.next, kind.value)?;
    Ok(Said {
        name: name.start,
        offset: offset.value,
        width: width.value,
        kind: kind.value,
        occurs: occurs.value,
        depending: start_of(depending),
        span: span.value,
        p: p.value,
        q: q.value,
        r: r.value,
        mask: mask.start,
        length: mask.end - mask.start,
        next: mask.next,
    })
}

// A Decimal's scale; else r as it is.
fn scale_of(kind: u32, r: u32) -> u32
    ensures { result ≡ scale_of kind r }
{
    if Kind::Decimal.is(kind) { r % 32 } else { r }
}

// A Decimal's precision.
fn precision_of(kind: u32, r: u32) -> u32
    ensures { result ≡ precision_of kind r }
{
    if Kind::Decimal.is(kind) { r / 32 } else { 0 }
}

// Where an Edited's mask starts.
fn mask_start(kind: u32, n: u32) -> u32
    ensures { result ≡ mask_word_of kind n }
{
    if Kind::Edited.is(kind) { n } else { 0 }
}

// The entry, with the numbers of its names and its mask's start.
#[tactic(auto, unfolding(crate::specs::Walk::entry_with))]
fn entry_of(said: Said, name: u32, depending: u32, mask: u32) -> Entry
    ensures { result ≡ entry_with said name depending mask }
{
    Entry {
        name,
        offset: said.offset,
        width: said.width,
        kind: said.kind,
        occurs: said.occurs,
        depending,
        span: said.span,
        p: said.p,
        q: said.q,
        r: scale_of(said.kind, said.r),
        s: precision_of(said.kind, said.r),
        mask: mask_start(said.kind, mask),
    }
}

// Whether an entry passes question 2. The numbers of its names do, and its mask lies inside wherever it starts.
#[tactic(auto, unfolding(crate::specs::Walk::fine_alone))]
fn entry_fine(said: Said) -> bool
    ensures { result ≡ fine_alone said }
{
    let e = entry_of(said, 0, 0, 0);
    e.is_lawful(said.length) && (!Kind::Edited.is(said.kind) || said.length == said.width as usize)
}

// ---- the questions

// What one pass over a lawful text finds: its page, how many entries and mask bytes it has, and whether each entry passes question 2.
// Kept: `fine` is no sign that the others stand: question 2 is asked only after question 1, and they are found whatever it says.
#[derive(Clone, Copy)]
pub struct Judged {
    pub page: u32,
    pub count: usize,
    pub fine: bool,
    pub masks: usize,
}

// Judges every line, and notes the spans and the groups of the first 512 entries.
fn judge(text: &[u8], spans: &mut [u32; 512], groups: &mut [bool; 512]) -> Result<Judged, Refusal>
    ensures { FindsIn text.now result spans.new groups.new }
{
    let page = page_line(text)?;
    let mut at = page.next;
    let mut count = 0;
    let mut fine = true;
    let mut masks = 0;
    // Kept: no plainer. The walk goes by positions, since an entry takes as many bytes as its lines.
    while at < text.len() {
        let said = entry_lines(text, at)?;
        put(spans, count, said.span);
        put(groups, count, Kind::Group.is(said.kind));
        fine = entry_fine(said) && fine;
        masks += said.length;
        at = said.next;
        count += 1;
    }
    Ok(Judged {
        page: page.value,
        count,
        fine,
        masks,
    })
}

// Whether the entries lo up to hi are well nested, in at most so many levels.
#[tactic(auto, using(crate::proofs::Levels::in_end, crate::proofs::Levels::in_deep, crate::proofs::Levels::in_span, crate::proofs::Levels::in_inner, crate::proofs::Levels::in_next))]
fn nested(spans: &[u32; 512], groups: &[bool; 512], lo: usize, hi: usize, levels: usize) -> bool
    requires { hi ≤ 512 }
    ensures { result ≡ nested_in spans.now groups.now levels lo hi }
{
    // Kept: `layout` walks over words in the same way; both cite one definition. One recursion for both would have `Layout::check` copy 512 spans and flags
    // to the stack at each call, or twelve words an entry of a text stored before question 3 is asked (docs/DECISIONS.md, D-84).
    let mut i = lo;
    while i < hi {
        if levels == 0 {
            return false;
        }
        let span = spans[i];
        let end = end_of(span as u64, i, hi);
        if !span_ok(span, groups[i], end - (i + 1)) {
            return false;
        }
        if !nested(spans, groups, i + 1, end, levels - 1) {
            return false;
        }
        i = end;
    }
    true
}

// What a text that is read answers: its page, and how many words and mask bytes it has.
#[derive(Clone, Copy)]
pub struct LayoutReading {
    pub page: u32,
    pub words: usize,
    pub masks: usize,
}

// All questions of a text: 17, 1, 2, 3, and 16 for so much place.
fn questions(text: &[u8], words: usize, masks: usize) -> Result<LayoutReading, Refusal>
    ensures value { answered result ≡ reading_of (read_of text.now words masks) }
    ensures short { IfOk result (λ reading. length text.now < 4294967296) }
{
    // Kept: one array of pairs takes 4,096 bytes of stack, these take 2,560.
    let mut spans = [0u32; 512];
    let mut groups = [false; 512];
    let found = judge(text, &mut spans, &mut groups)?;
    if found.count > 512 || found.page > 1 {
        return Err(Refusal::LayoutWords);
    }
    if !found.fine {
        return Err(Refusal::EntryWords);
    }
    if !nested(&spans, &groups, 0, found.count, 8) {
        return Err(Refusal::Nesting);
    }
    if words < found.count * 12 || masks < found.masks {
        return Err(Refusal::NoRoom);
    }
    Ok(LayoutReading {
        page: found.page,
        words: found.count * 12,
        masks: found.masks,
    })
}

// ---- storing

// The twelve words of the k-th entry.
#[tactic(auto, using(lists::proofs::Part::in_whole), unfolding(crate::specs::Reading::twelve))]
fn put_entry(words: &mut [u32], k: usize, e: Entry)
    requires { k * 12 + 12 ≤ length words.old }
    ensures { words.new ≡ take (k * 12) words.old ++ (twelve e ++ drop (k * 12 + 12) words.old) }
{
    let a = k * 12;
    words[a..a + 12].copy_from_slice(&[
        e.name,
        e.offset,
        e.width,
        e.kind,
        e.occurs,
        e.depending,
        e.span,
        e.p,
        e.q,
        e.r,
        e.s,
        e.mask,
    ]);
}

// A mask, from m on.
fn put_mask(masks: &mut [u8], m: usize, part: &[u8])
    requires { m + length part.now ≤ length masks.old }
    ensures { masks.new ≡ take m masks.old ++ (part.now ++ drop (m + length part.now) masks.old) }
{
    lists::copy(part, &mut masks[m..m + part.len()]);
}

// The numbers of an entry's names.
#[derive(Clone, Copy)]
pub struct Sighted {
    pub name: u32,
    pub depending: u32,
}

fn see_entry(table: &mut Table, name: usize, depending: Option<usize>) -> Sighted
    requires count_in_bounds { table.old.count + 2 ≤ length table.old.starts.now }
    requires starts_len { length table.old.starts.now ≡ 1024 }
    requires name_bound { name < 4294967296 }
    requires depending_bound { MatchOption depending ⊤ (λ d. d < 4294967296) }
    ensures name_value { result.name ≡ index_in (line_from table.old.text.now name) (names_at table.old.text.now table.old.starts.now table.old.count) }
    ensures depending_value { result.depending ≡ depending_in table.old.text.now (names_at table.old.text.now table.old.starts.now table.old.count) name depending }
    ensures starts_after { take table.new.count table.new.starts.now ≡ see_both table.old.text.now (take table.old.count table.old.starts.now) name depending }
    ensures starts_unchanged { drop table.new.count table.new.starts.now ≡ drop table.new.count table.old.starts.now }
    ensures count_le_count { (table.old.count ≤ table.new.count) × (table.new.count ≤ table.old.count + 2) }
    ensures starts_len_unchanged { length table.new.starts.now ≡ length table.old.starts.now }
    ensures text { table.new.text ≡ table.old.text }
    ensures table { table.new.starts.ghost_name ≡ table.old.starts.ghost_name }
{
    let number = table.see(name);
    match depending {
        None => Sighted {
            name: number as u32,
            depending: ABSENT,
        },
        Some(at) => {
            let other = table.see(at);
            Sighted {
                name: number as u32,
                depending: other as u32,
            }
        }
    }
}

fn store(text: &[u8], count: usize, words: &mut [u32], masks: &mut [u8])
    requires lasts { Lasts text.now count }
    requires text_in_bounds { length (words_of (lines_of text.now)) ≤ length words.old }
    requires text_in_bounds_2 { length (masks_of (lines_of text.now)) ≤ length masks.old }
    ensures words_after { words.new ≡ words_of (lines_of text.now) ++ drop (length (words_of (lines_of text.now))) words.old }
    ensures masks_after { masks.new ≡ masks_of (lines_of text.now) ++ drop (length (masks_of (lines_of text.now))) masks.old }
{
    let Ok(page) = page_line(text) else {
        return;
    };
    let mut starts = [0u32; 1024];
    let mut table = Table {
        text,
        starts: &mut starts,
        count: 0,
    };
    let mut at = page.next;
    let mut m = 0;
    for k in 0..count {
        let Ok(said) = entry_lines(text, at) else {
            return;
        };
        let names = see_entry(&mut table, said.name, said.depending);
        let e = entry_of(said, names.name, names.depending, m as u32);
        put_entry(words, k, e);
        let s = said.mask;
        put_mask(masks, m, &text[s..s + said.length]);
        m += said.length;
        at = said.next;
    }
}

// The words and masks that a layout's text says. Refusals, in order: 17, 1, 2, 3, 16.
pub fn read_layout(
    text: &[u8],
    words: &mut [u32],
    masks: &mut [u8],
) -> Result<LayoutReading, Refusal>
    ensures { LayoutRead (layout_into text.now words.old masks.old)
        (number_in result) (page_in result) (words_in result) (masks_in result) words.old words.new masks.old masks.new }
{
    words.fill(0);
    masks.fill(0);
    let reading = questions(text, words.len(), masks.len())?;
    store(text, reading.words / 12, words, masks);
    Ok(reading)
}

// ---- names

// Where each different name of a text is first spelled, to the front of the table; how many.
// Kept: no line of such a text is refused, so that the two 0 are never answered.
#[tactic(auto, using(crate::proofs::Storing::lines_there, crate::proofs::Storing::seen_start))]
fn see_all(text: &[u8], count: usize, starts: &mut [u32; 1024]) -> usize
    requires { Lasts text.now count }
    ensures value { result ≡ length (firsts_of text.now) }
    ensures starts_after { starts.new ≡ firsts_of text.now ++ drop (length (firsts_of text.now)) starts.old }
    ensures firsts { Firsts text.now }
{
    let Ok(page) = page_line(text) else {
        return 0;
    };
    let mut table = Table {
        text,
        starts,
        count: 0,
    };
    let mut at = page.next;
    for _ in 0..count {
        let Ok(said) = entry_lines(text, at) else {
            return 0;
        };
        see_entry(&mut table, said.name, said.depending);
        at = said.next;
    }
    table.count
}

// The name with a number, by where each different name starts, as a part of the text; the empty part at its front where no name has the number.
pub fn name_with<'a>(text: &'a [u8], starts: &[u32], number: u32) -> &'a [u8]
    ensures result_value { result.now ≡ get_or (names_at text.now starts.now (length starts.now)) number [] }
    ensures ref_ptr_value { result.ref_ptr ≡ place_in text.entry (start_in text.now (get_or starts.now number 0)) }
{
    match starts.get(number as usize) {
        Some(start) => name_at(text, *start as usize),
        None => &text[..0],
    }
}

// The first spelling of the name with a number, if a name has it, by a table of starts.
fn spelled(text: &[u8], count: usize, number: u32) -> &[u8]
    requires { Lasts text.now count }
    ensures result_value { result.now ≡ get_or (distinct (names_of (lines_of text.now))) number [] }
    ensures ref_ptr_value { result.ref_ptr ≡ place_in text.entry (first_start (lines_of text.now) number) }
{
    let mut starts = [0u32; 1024];
    let seen = see_all(text, count, &mut starts);
    name_with(text, &starts[..seen], number)
}

// The first spelling of the name with a number, as a part of the text; the empty part at its front where the text is refused by 17, 1, 2 or 3, or no name has the number.
#[tactic(auto, using(crate::proofs::Spellings::spelled_there, crate::proofs::Spellings::place_there, crate::proofs::Spellings::spelled_not, crate::proofs::Spellings::place_not))]
pub fn name_of(text: &[u8], number: u32) -> &[u8]
    ensures result_value { result.now ≡ spelling text.now number }
    ensures ref_ptr_value { result.ref_ptr ≡ place_in text.entry (spelling_at text.now number) }
{
    match questions(text, usize::MAX, usize::MAX) {
        Ok(reading) => spelled(text, reading.words / 12, number),
        Err(_) => &text[..0],
    }
}

// Where each different name of a text is first spelled, by number, for `name_with`, and zeros behind these; how many. None where the text is refused by 17, 1, 2 or 3.
pub fn name_starts(text: &[u8], starts: &mut [u32; 1024]) -> usize
    ensures value { result ≡ name_count text.now }
    ensures by_index { (number : ℕ) → get_or starts.new number 0 ≡ spelling_at text.now number }
    ensures in_front { (number : ℕ) → get_or (take result starts.new) number 0 ≡ spelling_at text.now number }
    ensures spells { Spells text.now starts.new result }
    ensures few { result ≤ 1024 }
{
    starts.fill(0);
    match questions(text, usize::MAX, usize::MAX) {
        Ok(reading) => see_all(text, reading.words / 12, starts),
        // Kept: a refused text has no names, and 0 is how many: its definition, `name_count`, gives it.
        Err(_) => 0,
    }
}

// The different names of a text, by number: where each is first spelled, as `name_starts` says.
#[derive(Clone, Copy)]
pub struct Names<'a> {
    pub text: &'a [u8],
    pub starts: &'a [u32],
    ghost spells: { Spells text.now starts.now (length starts.now) },
    ghost by_index: { (number : ℕ) → get_or starts.now number 0 ≡ spelling_at text.now number },
}

impl<'a> Names<'a> {
    // The first spelling of the name with a number, as a part of the text; the empty part at its front where no name has it.
    pub fn spelled(self, number: u32) -> &'a [u8]
        ensures result_value { result.now ≡ spelling self.entry.text.now number }
        ensures ref_ptr_value { result.ref_ptr ≡ place_in self.entry.text (start_in self.entry.text.now (spelling_at self.entry.text.now number)) }
    {
        name_with(self.text, self.starts, number)
    }
}
