//! Writing until a patch is on disk.
//!
//! The cache says what may be written, and leaves it to its user when that is done and by whom. This is the plainest way:
//! one write at a time, here and now, with each failed write tried again before the next.

ghost use Rattle.std.specs.Prelude.{◌≡◌, ◌+◌, ◌≤◌, ◌↔◌, IsTrue, IfOk, IfErr, IfSome, IfNone, OnErr};
ghost use Rattle.fst_types.specs.Flights.{IsOut};
ghost use Rattle.journal_calls.specs.Exhausted.{IsDurable, IsExhausted, IsWriteRefused};
ghost use Rattle.journal_calls.specs.Writing.{IsNextRefused, SendsNext, WritesNext, WritesUntil};

use fst_cache::Cache;
use fst_device::{BlockSlot, Job, carry};
use fst_types::{Fault, MAX_HEADS, MAX_TRIES, PatchNo, Place, Settled};

/// As many writes as all changes that there can be may take: a write for each, and three tries of it.
pub const ALL_WRITES: u32 = MAX_HEADS as u32 * MAX_TRIES;

/// What came of writing until a patch is on disk.
#[derive(Clone, Copy, PartialEq, Eq, Debug)]
pub enum Written {
    /// The patch is on disk.
    OnDisk,
    /// It is not, and nothing more can be written: what is left waits for an open gate or for a lost block, or for a
    /// write that somebody else has out.
    Stuck,
    /// It is not, and as many writes were made as were allowed.
    Spent,
}

/// Whether a patch is on disk.
pub fn is_durable<S: BlockSlot>(cache: &Cache<S>, patch: PatchNo) -> bool
    ensures { IsTrue result ↔ IsDurable cache.now.state patch.0 }
{
    cache.place(patch) == Some(Place::Disk)
}

/// The next write to be made: another try of one that failed, or that of the least block that may be written. None
/// where there is neither.
fn next_job<S: BlockSlot>(cache: &mut Cache<S>) -> Result<Option<Job<S>>, Fault>
    ensures out { IfOk result (λ next. IfSome next (λ job. IsOut cache.new.state job.ticket job.block job.image)) }
    ensures sent { IfOk result (λ next. IfSome next (λ job. SendsNext cache.old.state job.ticket job.block job.image cache.new.state)) }
    ensures ticket { IfOk result (λ next. IfSome next (λ _. cache.new.state.tickets ≡ cache.old.state.tickets + 1)) }
    ensures exhausted { IfOk result (λ next. IfNone next (IsExhausted cache.new.state)) }
    ensures idle { IfOk result (λ next. IfNone next (cache.new ≡ cache.old)) }
    ensures refused { IfErr result (λ fault. IsWriteRefused cache.new.state fault) }
    ensures next { IfErr result (λ fault. IsNextRefused cache.new.state fault) }
    ensures same { OnErr result (cache.new ≡ cache.old) }
{
    cache.headline();
    if let Some(block) = cache.stalled() {
        return Ok(Some(cache.retry(block)?));
    }
    let Some(block) = cache.pick() else {
        return Ok(None);
    };
    Ok(Some(cache.issue(block)?))
}

/// Makes the next write, and answers what came of it: none where nothing can be written. A failed write is no error
/// here: it waits for its next try, and its third failure loses the block.
///
/// An error is one of `issue` or `retry`, and then nothing was written and nothing changed.
pub fn write_next<S: BlockSlot>(cache: &mut Cache<S>) -> Result<Option<Settled>, Fault>
    ensures wrote { IfOk result (λ settled. IfSome settled (λ how. WritesNext cache.old.state how cache.new.state)) }
    ensures one_write { IfOk result (λ settled. IfSome settled (λ _. cache.new.state.tickets ≡ cache.old.state.tickets + 1)) }
    ensures exhausted { IfOk result (λ settled. IfNone settled (IsExhausted cache.new.state)) }
    ensures idle { IfOk result (λ settled. IfNone settled (cache.new ≡ cache.old)) }
    ensures refused { IfErr result (λ fault. IsWriteRefused cache.new.state fault) }
    ensures next { IfErr result (λ fault. IsNextRefused cache.new.state fault) }
    ensures same { OnErr result (cache.new ≡ cache.old) }
{
    let Some(job) = next_job(cache)? else {
        return Ok(None);
    };
    match cache.settle(carry(job)) {
        Ok(settled) => Ok(Some(settled)),
        // the write that was sent out last is out
        Err(_) => unreachable!(),
    }
}

/// Writes until the patch is on disk, or nothing more can be written, or so many writes were made, failed ones among
/// them. One flight takes at most three.
///
/// An error is one of `issue` or `retry`: `Full(Flights)` where 64 blocks are in flight, `Full(Tickets)` or `Memory`. What
/// was written before it stays written, and the call may be made again.
pub fn write_until<S: BlockSlot>(
    cache: &mut Cache<S>,
    patch: PatchNo,
    most: u32,
) -> Result<Written, Fault>
    ensures on_disk { result ≡ Ok Written.OnDisk → IsDurable cache.new.state patch.0 }
    ensures stuck { result ≡ Ok Written.Stuck → (IsDurable cache.new.state patch.0 → ⊥) × IsExhausted cache.new.state }
    ensures spent { result ≡ Ok Written.Spent → (IsDurable cache.new.state patch.0 → ⊥) × (cache.new.state.tickets ≡ cache.old.state.tickets + most) }
    ensures writes { WritesUntil patch.0 cache.old.state cache.new.state }
    ensures at_most { cache.new.state.tickets ≤ cache.old.state.tickets + most }
    ensures refused { IfErr result (λ fault. IsWriteRefused cache.new.state fault) }
    ensures next { IfErr result (λ fault. IsNextRefused cache.new.state fault) }
{
    for _ in 0..most {
        if is_durable(cache, patch) {
            return Ok(Written::OnDisk);
        }
        if write_next(cache)?.is_none() {
            return Ok(Written::Stuck);
        }
    }
    if is_durable(cache, patch) {
        Ok(Written::OnDisk)
    } else {
        Ok(Written::Spent)
    }
}
