//! Going along the chosen numbers while the patches are walked.

ghost use Rattle.std.specs.Prelude.{◌≡◌, ◌↔◌, ◌<◌, ◌+◌, ◌-◌, ◌^◌, IsTrue, slice_get};
ghost use Rattle.fst_block.specs.Choices.{numbers_of};

use fst_types::PatchNo;

/// Whether the chosen number at this index is there and is this one.
pub fn is_at(chosen: &[PatchNo], index: usize, no: PatchNo) -> bool
    ensures named { IsTrue result ↔ (slice_get (numbers_of chosen.now) index ≡ Some no.0) }
    ensures small { IsTrue result → index + 1 < 2 ^ 64 }
{
    index < chosen.len() && chosen[index].0 == no.0
}

/// Whether this is the last of the first `count` chosen numbers.
pub fn is_last(chosen: &[PatchNo], count: usize, no: PatchNo) -> bool
    ensures { IsTrue result ↔ ((0 < count) × (slice_get (numbers_of chosen.now) (count - 1) ≡ Some no.0)) }
{
    count > 0 && is_at(chosen, count - 1, no)
}
