// Plain layouts, fitting lists, and lists written and read back, as C functions for the comparison.

#![tactic(auto)]

ghost use Rattle.std.specs.Prelude.{◌≡◌, cond, ◌&&◌, leb, pos, length, replicate};
ghost use Rattle.layout.specs.Layout.{work_for};
ghost use Rattle.walks.specs.Plain.{plain};
ghost use Rattle.walks.specs.Decide.{fitting};
ghost use Rattle.roundtrip.specs.Same.{RoundTrip};

use codes::number_in;
use decode::Reading;
use items::ValueList;
use layout::Layout;
use roundtrip::Trip;

// 1 for a plain layout, else 0.
#[unsafe(no_mangle)]
pub extern "C" fn trip_is_plain(layout: &[u32], masks: &[u8], page: u32) -> u32
    ensures { result ≡ cond (plain layout.now masks.now page) 1 0 }
{
    let layout = Layout {
        words: layout,
        masks,
        page,
    };
    u32::from(plain::is_plain(&layout))
}

// 1 for a fitting list and place for the counts, else 0.
#[unsafe(no_mangle)]
pub extern "C" fn trip_is_fitting(
    layout: &[u32],
    masks: &[u8],
    items: &[u64],
    text: &[u8],
    counts: &mut [i64],
) -> u32
    ensures value { result ≡ cond
        (leb (work_for layout.now) (length counts.old) && fitting layout.now masks.now items.now text.now) 1 0 }
    ensures counts_after { counts.new ≡ replicate (length counts.old) (pos 0) }
{
    let layout = Layout {
        words: layout,
        masks,
        page: 0,
    };
    let list = ValueList { items, text };
    u32::from(fitting::is_fitting(&layout, &list, counts))
}

// Writes a list, puts bytes behind the record, and reads it back.
#[unsafe(no_mangle)]
pub extern "C" fn trip_round(
    layout: &[u32],
    masks: &[u8],
    page: u32,
    items: &[u64],
    text: &[u8],
    behind: &[u8],
    record: &mut [u8],
    counts: &mut [i64],
    back: &mut [u64],
    said: &mut [u8],
    size: &mut u64,
    read: &mut u32,
    used: &mut u64,
    told: &mut u64,
) -> u32
    ensures { RoundTrip layout.now masks.now page items.now text.now behind.now (length «record».old) (length counts.old)
        result size.new read.new used.new told.new
        «record».old «record».new back.old back.new said.old said.new counts.old counts.new }
{
    let layout = Layout {
        words: layout,
        masks,
        page,
    };
    let list = ValueList { items, text };
    let answer = roundtrip::round_trip(&layout, &list, behind, record, counts, back, said);
    let nothing = Reading { items: 0, text: 0 };
    let trip = match answer {
        Ok(trip) => trip,
        Err(_) => Trip {
            length: 0,
            read: Ok(nothing),
        },
    };
    let reading = trip.read.unwrap_or(nothing);
    *size = trip.length as u64;
    *read = number_in(trip.read);
    *used = reading.items as u64;
    *told = reading.text as u64;
    number_in(answer)
}
