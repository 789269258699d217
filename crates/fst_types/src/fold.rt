//! Writes over bytes, as the definitions have them: plain and slow, for tests and for those who fold anew.
ghost use Rattle.std.specs.Prelude.{◌≡◌, ◌+◌, ◌≤◌, map, length, All};
ghost use Rattle.fst_types.specs.Fold.{written, fold};
ghost use Rattle.fst_types.specs.Overwrites.{write_seen};

/// Bytes, and the place in a block at which they are put.
#[derive(Clone, Copy, Debug, PartialEq, Eq)]
pub struct Write<'a> {
    pub at: u32,
    pub bytes: &'a [u8],
}

/// Puts the bytes at their place in the block. It takes no memory.
pub fn write_over(block: &mut [u8], at: u32, bytes: &[u8])
    requires { at + length bytes.now ≤ length block.old }
    ensures { block.new ≡ written block.old (record { at = at; bytes = bytes.now }) }
{
    let at = at as usize;
    let end = at + bytes.len();
    block[at..end].copy_from_slice(bytes);
}

/// Puts each write over the block, in the order of the list. It takes no memory.
#[tactic(auto, using(std::proofs::lemmas::List::drop_more))]
pub fn fold_over(block: &mut [u8], writes: &[Write<'_>])
    requires { All (λ w. w.at + length w.bytes.now ≤ length block.old) writes.now }
    ensures { block.new ≡ fold block.old (map write_seen writes.now) }
{
    for write in writes {
        write_over(block, write.at, write.bytes);
    }
}
