// What reader and writer take from an entry. Their walks are definitions and laws here: the code that meets them stands in `decode` and `encode`.

#![tactic(auto)]

ghost use Rattle.std.specs.Prelude.{◌≡◌};
ghost use Rattle.lists.specs.Part.{place_in};
ghost use Rattle.walks.specs.Kinds.{field_of, mask_of, mask_start};

use decode_scalar::Field;
use layout::Entry;

// The words of an entry that tell what its bytes say.
pub fn field_of(e: Entry) -> Field
    ensures { result ≡ field_of e }
{
    Field {
        kind: e.kind,
        p: e.p,
        q: e.q,
        r: e.r,
        s: e.s,
    }
}

// The mask of an entry, as far as the masks go.
pub fn mask_of(masks: &[u8], e: Entry) -> &[u8]
    ensures result_value { result.now ≡ mask_of masks.now e }
    ensures ref_ptr_value { result.ref_ptr ≡ place_in masks.entry (mask_start masks.now e) }
{
    let start = (e.mask as usize).min(masks.len());
    let rest = &masks[start..];
    let count = (e.width as usize).min(rest.len());
    &rest[..count]
}
