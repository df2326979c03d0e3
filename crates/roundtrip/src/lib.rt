// A list written by a layout and read back by it: demand 3 of the two calls.

#![tactic(auto)]

ghost use Rattle.std.specs.Prelude.{◌≡◌, ◌++◌, ◌+◌, ◌-◌, ◌≤◌, length, take, drop};
ghost use Rattle.codes.specs.Refusals.{number_in};
ghost use Rattle.roundtrip.specs.Same.{length_in, read_in, words_in, bytes_in, RoundTrip, Returns};

use codes::Refusal;
use decode::{Reading, decode_record};
use encode::encode_record;
use items::ValueList;
use layout::Layout;

// What writing and reading back answer: the record's length, and what the reader answers.
#[derive(Clone, Copy)]
pub struct Trip {
    pub length: usize,
    pub read: Result<Reading, Refusal>,
}

// The bytes from a place of the record buffer on, as far as it goes, and where they end.
fn put_behind(record: &mut [u8], at: usize, bytes: &[u8]) -> usize
    requires { at ≤ length «record».old }
    ensures value { result ≡ at + length (take (length «record».old - at) bytes.now) }
    ensures record_after { «record».new ≡ take at «record».old ++ (take (length «record».old - at) bytes.now ++ drop result «record».old) }
{
    let n = bytes.len().min(record.len() - at);
    let end = at + n;
    lists::copy(bytes, &mut record[at..end]);
    end
}

// Writes a record by a layout and a value list, puts bytes behind it, and reads it back; nothing is read where writing refuses.
pub fn round_trip(
    layout: &Layout,
    list: &ValueList,
    behind: &[u8],
    record: &mut [u8],
    counts: &mut [i64],
    back: &mut [u64],
    said: &mut [u8],
) -> Result<Trip, Refusal>
    ensures round_trip { RoundTrip layout.now.words.now layout.now.masks.now layout.now.page list.now.items.now list.now.text.now behind.now
        (length «record».old) (length counts.old)
        (number_in result) (length_in result) (read_in result) (words_in result) (bytes_in result)
        «record».old «record».new back.old back.new said.old said.new counts.old counts.new }
    ensures returns { Returns layout.now.words.now layout.now.masks.now layout.now.page list.now.items.now list.now.text.now behind.now
        (length «record».old) (length counts.old)
        result back.new said.new }
{
    match encode_record(layout, list, record, counts) {
        Ok(length) => {
            let end = put_behind(record, length, behind);
            let read = decode_record(layout, &record[..end], back, said, counts);
            Ok(Trip { length, read })
        }
        Err(refusal) => {
            items::clear(back, said);
            Err(refusal)
        }
    }
}
