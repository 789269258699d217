//! Where a way back ends. A search from both ends ends where its two walks meet; from there the walk up is traced
//! down, over what it has met, to the change of the block from which it came.

ghost use Rattle.std.specs.Prelude.{◌≡◌, ◌⊎◌, ◌<◌, ℕ, length, IfSome};
ghost use Rattle.fst_types.specs.Closure.{Closure};
ghost use Rattle.fst_types.specs.Dependencies.{IsLiveNumber};
ghost use Rattle.fst_heads.specs.declared.test.Test.TheVariants as test;
ghost use Rattle.fst_heads.specs.Heads.{patches_of};
ghost use Rattle.fst_heads.specs.Indices.{HasIndex, PassesAt};
ghost use Rattle.fst_walks.specs.BothEnds.{IsNeed, StepsTo};
ghost use Rattle.fst_walks.specs.Descending.{Visited};
ghost use Rattle.fst_levels.specs.Needing.{needs_of};
ghost use Rattle.fst_levels.specs.Sights.{Sees};

use fst_heads::head::Kind;
use fst_heads::test::{Test, passes};
use fst_levels::shortcuts::newest_few;
use fst_levels::sight::Sight;
use fst_levels::walk::Walk;

// How far it is traced.
const STEPS: u32 = 256;

// How many patches are looked at for what the walk has met: as many as there may be, since of the thousands that a gate
// comes after one alone may lead on.
const LOOKS: usize = 65_536;

// The index of the patch with the number, if the walk has met it.
fn met_index(sight: &Sight<'_>, up: &Walk, number: u32) -> Option<usize>
    requires sees { Sees sight.now }
    requires up { Visited sight.now.heads.now.list.items up.now }
    ensures index { IfSome result (HasIndex sight.now.heads.now.list.items number) }
    ensures live { IfSome result (λ index. IsLiveNumber (patches_of sight.now.heads.now.list.items) number) }
{
    let index = sight.levels.find(sight.heads, number)?;
    if up.has_met(index) { Some(index) } else { None }
}

// The index of what the walk has met and the block needs, the newest first, of so many at most.
fn met_need(sight: &Sight<'_>, up: &Walk, block: u32, most: usize) -> Option<usize>
    requires sees { Sees sight.now }
    requires up { Visited sight.now.heads.now.list.items up.now }
    requires block { block < length sight.now.lists.now }
    ensures { IfSome result (λ index. (q : ℕ) × HasIndex sight.now.heads.now.list.items q index × IsNeed (patches_of sight.now.heads.now.list.items) (needs_of sight.now.needs.now.lists) block q) }
{
    let needs = sight.needs.of(block);
    let few = &needs[needs.len().saturating_sub(most)..];
    for need in few.iter().rev() {
        let index = met_index(sight, up, *need);
        if index.is_some() {
            return index;
        }
    }
    None
}

// The index of what the walk has met and the patch at the index waits for: of its row, the newest first, or else of what its
// block needs, if that is another than `block`. It looks at so many of either at most.
fn step(sight: &Sight<'_>, up: &Walk, index: usize, block: u32, most: usize) -> Option<usize>
    requires sees { Sees sight.now }
    requires up { Visited sight.now.heads.now.list.items up.now }
    requires index { index < length sight.now.heads.now.list.items }
    ensures { IfSome result (λ next. (q : ℕ) × HasIndex sight.now.heads.now.list.items q next × ((n : ℕ) → HasIndex sight.now.heads.now.list.items n index → IsLiveNumber (patches_of sight.now.heads.now.list.items) n → StepsTo (patches_of sight.now.heads.now.list.items) (needs_of sight.now.needs.now.lists) block n q)) }
{
    let head = &sight.heads.list[index];
    for number in newest_few(head.dependencies.as_slice(), most).iter().rev() {
        let next = met_index(sight, up, *number);
        if next.is_some() {
            return next;
        }
    }
    match head.kind {
        Kind::Change(_, own, _) => {
            let own = own as u32;
            if own == block {
                None
            } else {
                met_need(sight, up, own, most)
            }
        }
        Kind::Empty | Kind::OpenGate | Kind::SealedGate => None,
    }
}

/// The change of the block to which steps lead down from the patch at the index, over what the walk up from the changes of the
/// block has met. None where that is far, or what leads there is old.
pub fn trace(sight: &Sight<'_>, up: &Walk, index: usize, block: u32) -> Option<u32>
    requires sees { Sees sight.now }
    requires up { Visited sight.now.heads.now.list.items up.now }
    requires index { (n : ℕ) × HasIndex sight.now.heads.now.list.items n index × IsLiveNumber (patches_of sight.now.heads.now.list.items) n }
    ensures change { IfSome result (PassesAt (test.LiveOn block) (patches_of sight.now.heads.now.list.items)) }
    ensures path { IfSome result (λ end. (n : ℕ) → HasIndex sight.now.heads.now.list.items n index → (n ≡ end) ⊎ Closure (StepsTo (patches_of sight.now.heads.now.list.items) (needs_of sight.now.needs.now.lists) block) n end) }
{
    let mut at = index;
    let mut left = LOOKS;
    for _ in 0..STEPS {
        let head = &sight.heads.list[at];
        if passes(Test::LiveOn(block), head) {
            return Some(head.number);
        }
        let row = head.dependencies.len();
        at = step(sight, up, at, block, left)?;
        left = left.saturating_sub(row);
    }
    None
}
