//! A change for which there is no room yet.
//!
//! No patch is taken back. So where a change in the middle of a transaction is refused for want of room, those before
//! it stand, and the way on is to write what there is and to ask again.

ghost use Rattle.std.specs.Prelude.{◌≡◌, ◌+◌, ◌↔◌, IsTrue, MatchResult};
ghost use Rattle.fst_cache.specs.Names.{numbers_of};
ghost use Rattle.journal_calls.specs.Making.{change_of, IsWantOfRoom, MakesAtLast, FailsAtLast};

use crate::writing::{ALL_WRITES, write_next};
use fst_cache::{Cache, Share};
use fst_device::BlockSlot;
use fst_types::{BlockNo, Fault, PatchNo, What};

// Whether writing and forgetting may make room for the change.
fn is_want_of_room(fault: Fault) -> bool
    ensures { IsTrue result ↔ IsWantOfRoom fault }
{
    matches!(fault, Fault::Full(What::Heads | What::Resident))
}

/// Makes a change, as `Cache::patch`; where there is no room for it in memory or among the heads, writes the next block
/// and asks again, forgetting what is on disk. What cannot be had by writing is refused as `patch` refuses it: `Full(Heads)`
/// or `Full(Resident)` where nothing more can be written, and any other fault of `patch` at once. A write that could not be
/// sent out is refused as `issue` or `retry` refused it.
pub fn patch_or_write<S: BlockSlot>(
    cache: &mut Cache<S>,
    share: &mut Share,
    block: BlockNo,
    at: u32,
    bytes: &[u8],
    after: &[PatchNo],
) -> Result<PatchNo, Fault>
    ensures way { MatchResult result
        (λ number. MakesAtLast (change_of share.old block.0 at bytes.now (numbers_of after.now)) cache.old.state number.0 cache.new.state)
        (λ fault. FailsAtLast (change_of share.old block.0 at bytes.now (numbers_of after.now)) cache.old.state fault cache.new.state) }
    ensures one_patch { MatchResult result (λ _. share.new ≡ share.old + 1) (λ _. share.new ≡ share.old) }
{
    let mut refused = Fault::Full(What::Heads);
    for _ in 0..ALL_WRITES {
        match cache.patch(share, block, at, bytes, after) {
            Ok((number, _)) => return Ok(number),
            Err(fault) if is_want_of_room(fault) => refused = fault,
            Err(fault) => return Err(fault),
        }
        if write_next(cache)?.is_none() {
            break;
        }
        cache.forget();
    }
    Err(refused)
}
