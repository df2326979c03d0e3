// Laws of lists that all crates share, and copying into a buffer.

#![tactic(auto)]

ghost use Rattle.std.specs.Prelude.{◌≡◌, ◌++◌, length, take, drop, set};

// Stores a value at a place, where there is such a place.
pub fn put<T: Copy>(cells: &mut [T], at: usize, value: T)
    ensures { cells.new ≡ set cells.old at value }
{
    if at < cells.len() {
        cells[at] = value;
    }
}

// Copies bytes to the front of a buffer, as many as it has room for.
pub fn copy(src: &[u8], out: &mut [u8])
    ensures { out.new ≡ take (length out.old) src.now ++ drop (length src.now) out.old }
{
    // Kept: an index. std's `copy_from_slice` calls memmove, which an archive for C then needs from outside.
    for i in 0..src.len().min(out.len()) {
        out[i] = src[i];
    }
}
