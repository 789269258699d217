//! A way back to a block over what is known: where a soft change of the block, from which a way leads back, lies in the
//! row of a new change, a way leads back from that too, to the same end. So a run of soft changes of one block is looked
//! through once, and not by each of them again.

ghost use Rattle.std.specs.Prelude.{◌<◌, length, Contains, IfSome};
ghost use Rattle.fst_types.specs.Patches.{Patch};
ghost use Rattle.fst_heads.specs.Heads.{patches_of};
ghost use Rattle.fst_heads.specs.Indices.{HasIndex};
ghost use Rattle.fst_levels.specs.Sights.{Sees};
ghost use Rattle.fst_levels.specs.WayBack.{LeadsBack};

use crate::shortcuts::passes_at;
use crate::sight::Sight;
use fst_heads::test::{Test, passes};

/// Where the patch at the index is a change of the block, not on disk, the end of the way that is known to lead back from it.
pub fn known_end(sight: &Sight<'_>, index: usize, block: u32) -> Option<u32>
    requires sees { Sees sight.now }
    requires inside { index < length sight.now.heads.now.list.items }
    ensures { IfSome result (λ end. (p : Patch) → Contains (patches_of sight.now.heads.now.list.items) p → HasIndex sight.now.heads.now.list.items p.number index → LeadsBack (patches_of sight.now.heads.now.list.items) block p.dependencies end) }
{
    let head = &sight.heads.list[index];
    if !passes(Test::LiveOn(block), head) {
        return None;
    }
    let end = sight.needs.way_back(head.number)?;
    if passes_at(sight, Test::LiveOn(block), end) {
        Some(end)
    } else {
        None
    }
}

/// Where a change of the block from which a way is known to lead back is in the row: the end of that way. A new change of the
/// block over the row is soft then.
pub fn leads_over_known(sight: &Sight<'_>, block: u32, row: &[u32]) -> Option<u32>
    requires sees { Sees sight.now }
    ensures { IfSome result (LeadsBack (patches_of sight.now.heads.now.list.items) block row.now) }
{
    for number in row {
        if let Some(index) = sight.levels.find(sight.heads, *number) {
            let end = known_end(sight, index, block);
            if end.is_some() {
                return end;
            }
        }
    }
    None
}
