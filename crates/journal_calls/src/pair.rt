//! Two groups, of which the second comes after the first.
//!
//! Of the second nothing is written before all of the first is on disk, or goes in the same write.

ghost use Rattle.std.specs.Prelude.{◌≡◌, ◌+◌, IfOk, IfErr, OnOk};
ghost use Rattle.journal_calls.specs.Pairing.{IsPair, MakesPair, FailsToPair};

use fst_cache::{Cache, Share};
use fst_device::BlockSlot;
use fst_types::{Fault, GroupNo, PatchNo};

/// Two groups, of which the second comes after the first, and the gate behind both.
#[derive(Clone, Copy)]
pub struct Pair {
    pub first: GroupNo,
    pub second: GroupNo,
    pub tail: PatchNo,
}

/// Makes two groups, and puts the second after the first. It takes what two `group_new` and a `group_after` take.
///
/// Refused as `group_new` is: `Full(Numbers)` (the share), `Full(Groups)`, `Full(Heads)`, `Full(Numbers)` or `Memory`. Where
/// the first was made already it is closed, so that no gate stays open; its numbers and its place among the groups are
/// spent.
pub fn two_groups<S: BlockSlot>(cache: &mut Cache<S>, share: &mut Share) -> Result<Pair, Fault>
    ensures pair { IfOk result (λ pair. IsPair cache.new.state.groups pair.first.0 pair.second.0 pair.tail.0) }
    ensures made { IfOk result (λ pair. MakesPair cache.old.state share.old pair.first.0 pair.second.0 cache.new.state) }
    ensures share { OnOk result (share.new ≡ share.old + 4) }
    ensures refused { IfErr result (λ fault. FailsToPair cache.old.state share.old fault cache.new.state share.new) }
{
    let first = cache.group_new(share)?;
    let second = match cache.group_new(share) {
        Ok(second) => second,
        Err(fault) => {
            let _ = cache.group_close(first);
            return Err(fault);
        }
    };
    // a group has two gates: its head, which has the group's number, and its tail, which has the next
    let tail = PatchNo(second.0 + 1);
    if let Err(fault) = cache.group_after(second, first) {
        let _ = cache.group_close(second);
        let _ = cache.group_close(first);
        return Err(fault);
    }
    Ok(Pair {
        first,
        second,
        tail,
    })
}
