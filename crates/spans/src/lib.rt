// The tree that spans make of a run of entries.

#![tactic(auto)]

ghost use Rattle.std.specs.Prelude.{◌≡◌};
ghost use Rattle.spans.specs.Tree.{end_of, span_ok};

// The end of the entry at i in a sequence that ends at hi.
pub fn end_of(span: u64, i: usize, hi: usize) -> usize
    ensures { result ≡ end_of span i hi }
{
    if hi <= i || span >= (hi - i) as u64 {
        hi
    } else {
        i + span.max(1) as usize
    }
}

// Whether a span counts its entry and the n entries below it, which there are only where the entry may have members.
pub fn span_ok(span: u32, may: bool, n: usize) -> bool
    ensures { result ≡ span_ok span may n }
{
    span != 0 && span as u64 - 1 == n as u64 && (may || n == 0)
}
