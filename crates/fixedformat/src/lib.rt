// The calls as C functions. A slice is a pointer and a length, in elements.

#![tactic(auto)]

ghost use Rattle.std.specs.Prelude.{◌≡◌, length};
ghost use Rattle.layout.specs.Layout.{checked_of};
ghost use Rattle.layout_text.specs.Reading.{layout_into, LayoutRead};
ghost use Rattle.text_field.specs.Single.{FieldTranslated, TextPlaced};
ghost use Rattle.walks.specs.Records.{read_into, RecordRead, written_into, RecordWritten};
ghost use Rattle.window.specs.Window.{started, changed};
ghost use Rattle.window.specs.Pair.{scale_at};
ghost use Rattle.window.specs.Calls.{window_asks, before_asks, WindowWritten, added_to, WindowAdded};
ghost use Rattle.convert.specs.Calls.{converted_into, RecordConverted};

use codes::number_in;
use decode::Reading;
use items::ValueList;
use layout::Layout;
use layout_text::LayoutReading;
use text_field::TextPlace;
use window::{Pair, Setting};

// Reads a layout's text form.
#[unsafe(no_mangle)]
pub extern "C" fn ff_read_layout(
    text: &[u8],
    words: &mut [u32],
    masks: &mut [u8],
    page: &mut u32,
    words_used: &mut u64,
    masks_used: &mut u64,
) -> u32
    ensures { LayoutRead (layout_into text.now words.old masks.old)
        result page.new words_used.new masks_used.new words.old words.new masks.old masks.new }
{
    let answer = layout_text::read_layout(text, words, masks);
    let reading = answer.unwrap_or(LayoutReading {
        page: 0,
        words: 0,
        masks: 0,
    });
    *page = reading.page;
    *words_used = reading.words as u64;
    *masks_used = reading.masks as u64;
    number_in(answer)
}

// Judges a layout's words.
#[unsafe(no_mangle)]
pub extern "C" fn ff_check_layout(layout: &[u32], masks: &[u8], page: u32) -> u32
    ensures { result ≡ checked_of layout.now masks.now page }
{
    let layout = Layout {
        words: layout,
        masks,
        page,
    };
    number_in(layout.check())
}

// Reads a record by a layout.
#[unsafe(no_mangle)]
pub extern "C" fn ff_decode_record(
    layout: &[u32],
    masks: &[u8],
    page: u32,
    record: &[u8],
    items: &mut [u64],
    text: &mut [u8],
    counts: &mut [i64],
    item_words_used: &mut u64,
    text_used: &mut u64,
) -> u32
    ensures { RecordRead (read_into layout.now masks.now page «record».now items.old text.old counts.old)
        result item_words_used.new text_used.new items.old items.new text.old text.new counts.old counts.new }
{
    let layout = Layout {
        words: layout,
        masks,
        page,
    };
    let answer = decode::decode_record(&layout, record, items, text, counts);
    let used = answer.unwrap_or(Reading { items: 0, text: 0 });
    *item_words_used = used.items as u64;
    *text_used = used.text as u64;
    number_in(answer)
}

// Writes a record by a layout.
#[unsafe(no_mangle)]
pub extern "C" fn ff_encode_record(
    layout: &[u32],
    masks: &[u8],
    page: u32,
    items: &[u64],
    text: &[u8],
    record: &mut [u8],
    counts: &mut [i64],
    record_length: &mut u64,
) -> u32
    ensures { RecordWritten (written_into layout.now masks.now page items.now text.now «record».old counts.old)
        result record_length.new «record».old «record».new counts.old counts.new }
{
    let layout = Layout {
        words: layout,
        masks,
        page,
    };
    let list = ValueList { items, text };
    let answer = encode::encode_record(&layout, &list, record, counts);
    *record_length = answer.unwrap_or(0) as u64;
    number_in(answer)
}

// Puts the translated bytes of one Text entry at the front of scratch.
#[unsafe(no_mangle)]
pub extern "C" fn ff_translate_text(
    layout: &[u32],
    page: u32,
    record: &[u8],
    scratch: &mut [u8],
    scratch_used: &mut u64,
) -> u32
    ensures { FieldTranslated layout.now page «record».now result scratch_used.new scratch.old scratch.new }
{
    let layout = Layout {
        words: layout,
        masks: &[],
        page,
    };
    let answer = text_field::translate_text(&layout, record, scratch);
    *scratch_used = answer.unwrap_or(0) as u64;
    number_in(answer)
}

// Where the text of one Text entry stands, in the record on page 0 and in scratch on page 1.
#[unsafe(no_mangle)]
pub extern "C" fn ff_text_field(
    layout: &[u32],
    page: u32,
    record: &[u8],
    scratch: &[u8],
    text_start: &mut u64,
    text_length: &mut u64,
) -> u32
    ensures { TextPlaced layout.now page «record».now scratch.now result text_start.new text_length.new }
{
    let layout = Layout {
        words: layout,
        masks: &[],
        page,
    };
    let answer = text_field::text_place(&layout, record, scratch);
    let place = answer.unwrap_or(TextPlace {
        start: 0,
        length: 0,
    });
    *text_start = place.start as u64;
    *text_length = place.length as u64;
    number_in(answer)
}

// Starts a window of the last W pairs, with a display word: 0, or a display scale plus 1.
#[unsafe(no_mangle)]
pub extern "C" fn ff_window_start(
    layout: &[u32],
    masks: &[u8],
    page: u32,
    w: u64,
    first: u64,
    second: u64,
    display: u64,
    window: &mut [u64],
    counts: &mut [i64],
) -> u32
    ensures { WindowWritten (window_asks layout.now masks.now page w first second display (length window.old) (length counts.old))
        result (started w display window.old) window.old window.new counts.old counts.new }
{
    let setting = Setting {
        layout: Layout {
            words: layout,
            masks,
            page,
        },
        w,
        first,
        second,
    };
    number_in(window::window_start(&setting, display, window, counts))
}

// Passes a window from cutting to half-even rounding.
#[unsafe(no_mangle)]
pub extern "C" fn ff_window_change(
    layout: &[u32],
    masks: &[u8],
    page: u32,
    w: u64,
    first: u64,
    second: u64,
    window: &mut [u64],
    counts: &mut [i64],
) -> u32
    ensures { WindowWritten (before_asks layout.now masks.now page w first second window.old (length counts.old))
        result (changed window.old) window.old window.new counts.old counts.new }
{
    let setting = Setting {
        layout: Layout {
            words: layout,
            masks,
            page,
        },
        w,
        first,
        second,
    };
    number_in(window::window_change(&setting, window, counts))
}

// Reads a record and takes its pair into a window.
#[unsafe(no_mangle)]
pub extern "C" fn ff_window_add(
    layout: &[u32],
    masks: &[u8],
    page: u32,
    record: &[u8],
    w: u64,
    first: u64,
    second: u64,
    window: &mut [u64],
    items: &mut [u64],
    text: &mut [u8],
    counts: &mut [i64],
    first_sum: &mut i64,
    second_sum: &mut i64,
) -> u32
    ensures { WindowAdded
        (added_to layout.now masks.now page «record».now w first second window.old items.old text.old counts.old)
        (scale_at layout.now first) w result first_sum.new second_sum.new window.old window.new
        items.old items.new text.old text.new counts.old counts.new }
{
    let setting = Setting {
        layout: Layout {
            words: layout,
            masks,
            page,
        },
        w,
        first,
        second,
    };
    let answer = window::window_add(&setting, record, window, items, text, counts);
    let sums = answer.unwrap_or(Pair {
        first: 0,
        second: 0,
    });
    *first_sum = sums.first;
    *second_sum = sums.second;
    number_in(answer)
}

// Converts a record under one layout into a record under another.
#[unsafe(no_mangle)]
pub extern "C" fn ff_convert_record(
    old_layout: &[u32],
    old_masks: &[u8],
    old_page: u32,
    old_record: &[u8],
    new_layout: &[u32],
    new_masks: &[u8],
    new_page: u32,
    new_record: &mut [u8],
    items: &mut [u64],
    text: &mut [u8],
    back_items: &mut [u64],
    back_text: &mut [u8],
    counts: &mut [i64],
    record_length: &mut u64,
) -> u32
    ensures { RecordConverted
        (converted_into old_layout.now old_masks.now old_page old_record.now new_layout.now new_masks.now new_page
        new_record.old items.old text.old back_items.old back_text.old counts.old)
        result record_length.new new_record.old new_record.new items.old items.new text.old text.new
        back_items.old back_items.new back_text.old back_text.new counts.old counts.new }
{
    let old = Layout {
        words: old_layout,
        masks: old_masks,
        page: old_page,
    };
    let new = Layout {
        words: new_layout,
        masks: new_masks,
        page: new_page,
    };
    let answer = convert::convert_record(
        &old, old_record, &new, new_record, items, text, back_items, back_text, counts,
    );
    *record_length = answer.unwrap_or(0) as u64;
    number_in(answer)
}
