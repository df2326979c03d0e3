// What `show` prints of a layout's text and a record, a piece at a time: the bytes from a place on, as many as a buffer holds.

#![tactic(auto)]

ghost use Rattle.std.specs.Prelude.{◌≡◌, true, false, Some, IfOk, OnOk, IfErr, [], ◌∷◌, ◌++◌, ℕ, ◌≤◌, length, take, drop, replicate};
ghost use Rattle.codes.specs.Refusals.{number_of, number_in};
ghost use Rattle.hex_field.specs.Hex.{hex_of};
ghost use Rattle.shown.specs.Shown.{ended, is_plain, escape, escaped, number_text, float_text, kind_name, value_of, name_of, lines_of, listed};
ghost use Rattle.shown.specs.Shown.{refused_text, item_room, too_long, answer, bytes_in, more_in, shown_files, piece};
ghost use Rattle.text.specs.Text.{front};
ghost use Rattle.walks.specs.Records.{most, RecordRead};
ghost use Rattle.decode.specs.Answered.{words_used, bytes_used};
ghost use Rattle.shown.specs.Sink.{state, Took};

use codes::{ELEMENT, MAX_RECORD, Refusal, Tag};
use decode::{Reading, decode_record};
use items::{Item, ValueList};
use layout::Layout;
use layout_text::{Names, name_starts, read_layout};
use text::display_scalar;
use value::Scalar;

// ---- a buffer that takes bytes from a place on

// How many bytes are still passed over, and how many the buffer holds.
#[derive(Clone, Copy)]
pub struct Sink {
    pub skip: usize,
    pub used: usize,
}

// The buffer, and what it has taken so far.
#[derive(Drop)]
pub struct Output<'a> {
    pub out: &'a mut [u8],
    pub sink: Sink,
}

impl<'a> Output<'a> {
    #[tactic(auto, unfolding(crate::specs::Sink::all, crate::specs::Sink::one))]
    fn push(&mut self, b: u8)
        ensures { Took (state self.old) (b ∷ []) (state self.new) }
    {
        if self.sink.skip > 0 {
            self.sink.skip -= 1;
        } else if self.sink.used < self.out.len() {
            self.out[self.sink.used] = b;
            self.sink.used += 1;
        }
    }

    #[tactic(auto, using(crate::proofs::Sinks::all_more), unfolding(crate::specs::Sink::all))]
    fn push_all(&mut self, bytes: &[u8])
        ensures { Took (state self.old) bytes.now (state self.new) }
    {
        for b in bytes {
            self.push(*b);
        }
    }
}

// ---- values

// Whether a byte of a text stands for itself.
fn is_plain(b: u8) -> bool
    ensures { result ≡ is_plain b }
{
    b' ' <= b && b <= b'~' && b != b'\\'
}

// ---- kinds and names

// Kept: a Display of `Tag` would write through a formatter, where the Output takes bytes; and a number above the tags has a name too, the empty one.
#[tactic(auto, unfolding(crate::specs::Shown::kind_name))]
fn kind_name(tag: u64) -> &'static [u8]
    ensures { result.now ≡ kind_name tag }
{
    match Tag::try_from(tag) {
        Ok(Tag::Null) => b"null",
        Ok(Tag::Text) => b"text",
        Ok(Tag::Int) => b"int",
        Ok(Tag::Decimal) => b"decimal",
        Ok(Tag::Float) => b"float",
        Ok(Tag::Bool) => b"bool",
        Ok(Tag::List) => b"list",
        Ok(Tag::Struct) => b"struct",
        Err(_) => b"",
    }
}

// The first spelling of a name; the elements of a List have none.
#[tactic(auto, unfolding(crate::specs::Shown::name_of))]
fn name_of<'a>(names: Names<'a>, name: u64) -> &'a [u8]
    ensures { result.now ≡ name_of names.entry.text.now name }
{
    if name < ELEMENT {
        names.spelled(name as u32)
    } else {
        b""
    }
}

// ---- values and lines

impl<'a> Output<'a> {
    // The lower-case digits of at most eight bytes.
    fn push_hex(&mut self, part: &[u8])
        requires { length part.now ≤ 8 }
        ensures { Took (state self.old) (hex_of 0 part.now) (state self.new) }
    {
        let mut digits = [0u8; 16];
        if let Ok(n) = hex_field::to_hex(part, 0, &mut digits) {
            self.push_all(&digits[..n]);
        }
    }

    #[tactic(auto, unfolding(crate::specs::Sink::all))]
    fn push_escape(&mut self, b: u8)
        ensures { Took (state self.old) (escape b) (state self.new) }
    {
        if is_plain(b) {
            self.push(b);
        } else {
            self.push(b'\\');
            self.push_hex(&[b]);
        }
    }

    #[tactic(auto, using(crate::proofs::Sinks::escaped_more), unfolding(crate::specs::Shown::escaped, crate::specs::Sink::all))]
    fn push_text(&mut self, text: &[u8])
        ensures { Took (state self.old) (escaped text.now) (state self.new) }
    {
        for b in text {
            self.push_escape(*b);
        }
    }

    // A number's text; nothing for a scalar that has none.
    #[tactic(auto, unfolding(crate::specs::Sink::all, crate::specs::Shown::number_text))]
    fn push_number(&mut self, v: Scalar)
        ensures { Took (state self.old) (number_text v) (state self.new) }
    {
        let mut digits = [0u8; 24];
        if let Ok(n) = display_scalar(v, &mut digits) {
            self.push_all(&digits[..n]);
        }
    }

    // A float's word as sixteen digits.
    #[tactic(auto, unfolding(crate::specs::Shown::float_text))]
    fn push_word(&mut self, w: u64)
        ensures { Took (state self.old) (float_text w) (state self.new) }
    {
        let mut bytes = [0u8; 8];
        binary::put_word(&mut bytes, 0, w);
        self.push_hex(&bytes);
    }

    // A Bool, a List and a Struct show their third word, which has no sign.
    #[tactic(auto, unfolding(crate::specs::Shown::value_of))]
    fn push_value(&mut self, it: Item, text: &[u8])
        ensures { Took (state self.old) (value_of text.now it) (state self.new) }
    {
        match Tag::try_from(it.tag) {
            Ok(Tag::Text) => self.push_text(it.text_in(text)),
            Ok(Tag::Float) => self.push_word(it.a),
            Ok(Tag::Bool | Tag::List | Tag::Struct) => {
                self.push_number(Scalar::Int(false, it.a));
            }
            _ => self.push_number(it.scalar()),
        }
    }

    #[tactic(auto, using(crate::proofs::Sinks::all_append))]
    fn push_line(&mut self, word: &[u8], value: &[u8])
        ensures { Took (state self.old) (word.now ++ (value.now ++ ended)) (state self.new) }
    {
        self.push_all(word);
        self.push_all(value);
        self.push(b'\n');
    }

    // The three lines of an item.
    #[tactic(auto, using(crate::proofs::Sinks::all_append), unfolding(crate::specs::Shown::lines_of, crate::specs::Sink::all))]
    fn push_item(&mut self, names: Names, it: Item, text: &[u8])
        ensures { Took (state self.old) (lines_of names.entry.text.now text.now it) (state self.new) }
    {
        self.push_line(b"name=", name_of(names, it.name));
        self.push_line(b"kind=", kind_name(it.tag));
        self.push_all(b"value=");
        self.push_value(it, text);
        self.push(b'\n');
    }

    // The lines of all items.
    #[tactic(auto, using(crate::proofs::Lists::items_more), unfolding(crate::specs::Shown::listed_from, crate::specs::Sink::all))]
    fn push_items(&mut self, names: Names, list: &ValueList)
        ensures { Took (state self.old) (listed names.entry.text.now list.now.items.now list.now.text.now) (state self.new) }
    {
        let n = list.item_count();
        for k in 0..n {
            self.push_item(names, list.fetch(k, n), list.text);
        }
    }

    // The same, with a table of names of its own.
    fn push_list(&mut self, layout: &[u8], list: &ValueList)
        ensures { Took (state self.old) (listed layout.now list.now.items.now list.now.text.now) (state self.new) }
    {
        let mut table = [0u32; 1024];
        let count = name_starts(layout, &mut table);
        let names = Names {
            text: layout,
            starts: &table[..count],
        };
        self.push_items(names, list);
    }

    #[tactic(auto, using(crate::proofs::Sinks::all_append), unfolding(crate::specs::Shown::refused_text, crate::specs::Sink::all))]
    fn push_refused(&mut self, refusal: Refusal)
        ensures { Took (state self.old) (refused_text (number_of refusal)) (state self.new) }
    {
        self.push_all(b"refused=");
        self.push_number(Scalar::Int(false, u64::from(u32::from(refusal))));
        self.push(b'\n');
    }
}

// ---- the whole

// A file's bytes, if a buffer holds them all.
fn within(file: Option<&[u8]>, refusal: Refusal) -> Result<&[u8], Refusal>
    ensures ok { IfOk result (λ bytes. (file.entry ≡ Some bytes) × (length bytes.now ≤ most)) }
    ensures err { IfErr result (λ e. (too_long (bytes_in file.entry) (more_in file.entry) ≡ true) × (e ≡ refusal)) }
{
    match file {
        Some(bytes) if bytes.len() <= MAX_RECORD => Ok(bytes),
        _ => Err(refusal),
    }
}

// The value list of a layout's text and a record, into buffers of zeros.
fn read_both(
    layout: &[u8],
    record: Option<&[u8]>,
    items: &mut [u64],
    text: &mut [u8],
) -> Result<Reading, Refusal>
    requires zeros { (items.old ≡ replicate item_room 0) × (text.old ≡ replicate most 0) }
    requires short { length layout.now ≤ most }
    ensures { RecordRead (answer layout.now false (bytes_in «record».entry) (more_in «record».entry))
        (number_in result) (words_used result) (bytes_used result) items.old items.new text.old text.new [] [] }
{
    let mut words = [0u32; 6144];
    let mut masks = [0u8; 65536];
    let read = read_layout(layout, &mut words, &mut masks)?;
    let layout = Layout {
        words: &words[..read.words],
        masks: &masks[..read.masks],
        page: read.page,
    };
    let record = within(record, Refusal::RecordLength)?;
    let mut counts = [0i64; 1024];
    decode_record(&layout, record, items, text, &mut counts)
}

impl<'a> Output<'a> {
    // The lines of the value list that a record gives; nothing where it or the layout is refused.
    fn push_record(&mut self, layout: Option<&[u8]>, record: Option<&[u8]>) -> Result<(), Refusal>
        ensures ok { OnOk result (Took (state self.old) (shown_files layout.entry «record».entry) (state self.new)) }
        ensures err { IfErr result (λ e. (state self.new ≡ state self.old) × (refused_text (number_of e) ≡ shown_files layout.entry «record».entry)) }
    {
        let layout = within(layout, Refusal::NoRoom)?;
        let mut items = [0u64; 8192];
        let mut text = [0u8; 65536];
        let reading = read_both(layout, record, &mut items, &mut text)?;
        let list = ValueList {
            items: &items[..reading.items],
            text: &text[..reading.text],
        };
        self.push_list(layout, &list);
        Ok(())
    }

    // The same, or what refuses.
    fn push_shown(&mut self, layout: Option<&[u8]>, record: Option<&[u8]>)
        ensures { Took (state self.old) (shown_files layout.entry «record».entry) (state self.new) }
    {
        if let Err(refusal) = self.push_record(layout, record) {
            self.push_refused(refusal);
        }
    }
}

// The bytes that `show` prints, from a place on, to the front of a buffer; how many. None stands for a file that has more bytes than a buffer holds.
pub fn show_at(layout: Option<&[u8]>, record: Option<&[u8]>, at: usize, out: &mut [u8]) -> usize
    ensures value { result ≡ length (piece at (length out.old) (shown_files layout.entry «record».entry)) }
    ensures out_after { out.new ≡ front (piece at (length out.old) (shown_files layout.entry «record».entry)) out.old }
{
    let mut output = Output {
        out,
        sink: Sink { skip: at, used: 0 },
    };
    output.push_shown(layout, record);
    output.sink.used
}
