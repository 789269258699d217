//! Writing at a place.

ghost use Rattle.std.specs.Prelude.{◌≡◌, ◌+◌, ◌≤◌, length};
ghost use Rattle.fst_types.specs.Fold.{written};

/// Writes the bytes at their place.
pub fn put(block: &mut [u8], at: usize, bytes: &[u8])
    requires { at + length bytes.now ≤ length block.old }
    ensures { block.new ≡ written block.old (record { at = at; bytes = bytes.now }) }
{
    block[at..at + bytes.len()].copy_from_slice(bytes);
}
