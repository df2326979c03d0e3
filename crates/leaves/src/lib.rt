// The leaves as C functions, for the comparison with the Rust.

#![tactic(auto)]

ghost use Rattle.std.specs.Prelude.{◌≡◌, length};
ghost use Rattle.ebcdic.specs.Ebcdic.{to_ascii, to_ebcdic};
ghost use Rattle.value.specs.Scalar.{scalar_of};
ghost use Rattle.value.specs.Answer.{answered};
ghost use Rattle.decode_scalar.specs.Decode.{says, answer_of, text_after};
ghost use Rattle.encode_scalar.specs.Encode.{judged_of, bytes_of, part_after};
ghost use Rattle.leaves.specs.Leaves.{number_in, item_in};

use codes::Refusal;
use decode_scalar::Field;
use items::{ITEM_WORDS, Item};
use value::{Scalar, Words};

#[unsafe(no_mangle)]
pub extern "C" fn leaf_to_ascii(b: u8) -> u8
    ensures { result ≡ to_ascii b }
{
    ebcdic::to_ascii(b)
}

#[unsafe(no_mangle)]
pub extern "C" fn leaf_to_ebcdic(b: u8) -> u8
    ensures { result ≡ to_ebcdic b }
{
    ebcdic::to_ebcdic(b)
}

// The answer as a number, and its item, named 0, at the front of the words; 16 where they have no room for it.
fn put_answer(value: Result<Scalar, Refusal>, item: &mut [u64]) -> u32
    ensures value { result ≡ number_in (answered value) (length item.old) }
    ensures item_after { item.new ≡ item_in (answered value) item.old }
{
    match value {
        Ok(_) if item.len() < ITEM_WORDS => Refusal::NoRoom.into(),
        Ok(v) => {
            Item::of_scalar(0, v).put(item);
            0
        }
        Err(refusal) => refusal.into(),
    }
}

// Reads a field's bytes: 0 and its item, or the number that refuses it.
#[unsafe(no_mangle)]
pub extern "C" fn leaf_decode(
    kind: u32,
    p: u32,
    q: u32,
    r: u32,
    page: u32,
    part: &[u8],
    text: &mut [u8],
    item: &mut [u64],
) -> u32
    ensures value { result ≡ number_in (answer_of (says kind p q r page part.now) (length text.old)) (length item.old) }
    ensures text_after { text.new ≡ text_after (says kind p q r page part.now) text.old }
    ensures item_after { item.new ≡ item_in (answer_of (says kind p q r page part.now) (length text.old)) item.old }
{
    let field = Field {
        kind,
        p,
        q,
        r,
        s: 0,
    };
    put_answer(decode_scalar::decode_scalar(field, page, part, text), item)
}

// The number that refuses a value for a field of a width, 0 for none.
#[unsafe(no_mangle)]
pub extern "C" fn leaf_judge(
    kind: u32,
    p: u32,
    q: u32,
    r: u32,
    s: u32,
    mask: &[u8],
    width: usize,
    tag: u64,
    a: u64,
    b: u64,
    text: &[u8],
) -> u32
    ensures { result ≡ judged_of kind p q r s mask.now width tag (scalar_of tag a b) text.now }
{
    let field = Field { kind, p, q, r, s };
    let item = Words { tag, a, b };
    codes::number_in(encode_scalar::judge_scalar(field, mask, width, item, text))
}

// Writes a value into a field's bytes: 0, or the number that refuses it and the part as it was.
#[unsafe(no_mangle)]
pub extern "C" fn leaf_encode(
    part: &mut [u8],
    kind: u32,
    p: u32,
    q: u32,
    r: u32,
    s: u32,
    mask: &[u8],
    page: u32,
    tag: u64,
    a: u64,
    b: u64,
    text: &[u8],
) -> u32
    ensures value { result ≡ judged_of kind p q r s mask.now (length part.old) tag (scalar_of tag a b) text.now }
    ensures part_after { part.new ≡ part_after
        (judged_of kind p q r s mask.now (length part.old) tag (scalar_of tag a b) text.now)
        (bytes_of kind p q r mask.now page (length part.old) (scalar_of tag a b) text.now) part.old }
{
    let field = Field { kind, p, q, r, s };
    let item = Words { tag, a, b };
    codes::number_in(encode_scalar::encode_scalar(part, field, mask, page, item, text))
}
