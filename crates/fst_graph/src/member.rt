//! The change of a group that `group_room` makes room for. The head of the group is sealed with the change, if it is open,
//! and not before; so what the change will depend on and be graded is found here with the head taken as sealed.

ghost use Rattle.std.specs.Prelude.{◌≡◌, ◌<◌, ◌∷◌, [], false, ℕ, List, IsTrue, IfOk, IfSome, IfNone, length};
ghost use Rattle.fst_types.specs.Dependencies.{DirectlyOn, IsLiveNumber, IsOnDisk};
ghost use Rattle.fst_types.specs.Facts.{SparseAreLawful};
ghost use Rattle.fst_types.specs.Gates.{IsOpenNumber};
ghost use Rattle.fst_types.specs.Patches.{Patch};
ghost use Rattle.fst_heads.specs.Grading.{MayBeHard};
ghost use Rattle.fst_heads.specs.Heads.{patches_of};
ghost use Rattle.fst_heads.specs.Names.{numbers_of};
ghost use Rattle.fst_graph.specs.Membering.{BeginsAs};
ghost use Rattle.fst_heads.specs.Nodes.{nodes_of, AreCounted};
ghost use Rattle.fst_heads.specs.Rows.{IsSparseRow};
ghost use Rattle.fst_walks.specs.BothEnds.{IsOver};
ghost use Rattle.fst_levels.specs.Sights.{Sees};
ghost use Rattle.fst_walks.specs.Telling.{IsTold};

use crate::prepared::{Gates, Prepared, copy_of};
use fst_heads::heads::Heads;
use fst_heads::sparse::{Wanted, sparse_row};
use fst_heads::test::Test;
use fst_levels::shortcuts::passes_at;
use fst_levels::sight::Sight;
use fst_types::{PatchNo, Span};
use fst_walks::ends::Ends;
use fst_walks::grade::grade_of;
use std::alloc::{AllocError, Global};

// The number, if it is that of an open gate.
fn if_open(sight: &Sight<'_>, number: u32) -> Option<u32>
    requires { Sees sight.now }
    ensures some { IfSome result (λ n. (n ≡ number) × IsOpenNumber (patches_of sight.now.heads.now.list.items) number) }
    ensures none { IfNone result (IsOpenNumber (patches_of sight.now.heads.now.list.items) number → ⊥) }
{
    if passes_at(sight, Test::Open, number) {
        Some(number)
    } else {
        None
    }
}

// Whether all that the patch with the number directly depends on is on disk.
fn rests(heads: &Heads, number: u32) -> bool
    requires counted { AreCounted (nodes_of heads.now.list.items) }
    ensures rests { IsTrue result → (q : ℕ) → DirectlyOn (patches_of heads.now.list.items) number q → IsOnDisk (patches_of heads.now.list.items) q }
    ensures waits { result ≡ false → (q : ℕ) × DirectlyOn (patches_of heads.now.list.items) number q × IsLiveNumber (patches_of heads.now.list.items) q }
{
    match heads.index_of(number) {
        Some(index) => heads.list[index].sums.count == 0,
        None => true,
    }
}

/// The change of the span that is made for the group with these gates. What was met and crossed before does not matter.
pub fn prepare_member(
    alloc: Global,
    sight: &Sight<'_>,
    ends: &mut Ends,
    block: u32,
    span: Span,
    gates: Gates,
) -> Result<Prepared, AllocError>
    requires lawful { (numbers : ℕ) × SparseAreLawful (patches_of sight.now.heads.now.list.items) numbers }
    requires counted { AreCounted (nodes_of sight.now.heads.now.list.items) }
    requires sees { Sees sight.now }
    requires up { IsOver sight.now.heads.now.list.items (length sight.now.lists.now) ends.old.up }
    requires down { IsOver sight.now.heads.now.list.items (length sight.now.lists.now) ends.old.down }
    requires block { block < length sight.now.lists.now }
    ensures block { IfOk result (λ p. p.block ≡ block) }
    ensures span { IfOk result (λ p. p.span ≡ span) }
    ensures names { IfOk result (λ p. numbers_of p.names.items ≡ gates.head ∷ []) }
    ensures gates { IfOk result (λ p. p.gates ≡ Some gates) }
    ensures depends { IfOk result (λ p. (begun : List Patch) → BeginsAs (patches_of sight.now.heads.now.list.items) gates.head begun → IsSparseRow begun (gates.head ∷ []) block span.at span.len p.dependencies.items) }
    ensures told { IfOk result (λ p. (begun : List Patch) → BeginsAs (patches_of sight.now.heads.now.list.items) gates.head begun → IsTold begun block p.dependencies.items (MayBeHard begun None block p.dependencies.items) p.told) }
    ensures up { IsOver sight.now.heads.now.list.items (length sight.now.lists.now) ends.new.up }
    ensures down { IsOver sight.now.heads.now.list.items (length sight.now.lists.now) ends.new.down }
{
    let heads = sight.heads;
    let names = [PatchNo(gates.head)];
    let kept = match copy_of(alloc, &names) {
        Ok(kept) => kept,
        Err(error) => return Err(error),
    };
    let opened = if_open(sight, gates.head);
    // A head that is open and rests on disk once it is sealed is then none of the dependencies.
    let after: &[PatchNo] = if opened.is_some() && rests(heads, gates.head) {
        &[]
    } else {
        &names
    };
    let list = &sight.lists[block as usize];
    let cover = &sight.covers[block as usize];
    let wanted = Wanted {
        block,
        span,
        names: after,
    };
    let dependencies = match sparse_row(alloc, heads, list, cover, &wanted) {
        Ok(dependencies) => dependencies,
        Err(error) => return Err(error),
    };
    let row = dependencies.as_slice();
    let told = grade_of(sight, ends, block, row, opened);
    Ok(Prepared {
        block,
        span,
        names: kept,
        dependencies,
        told,
        gates: Some(gates),
    })
}
