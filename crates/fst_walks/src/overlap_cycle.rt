//! The search for a cycle that a new change of a group would close: the tail of the group is to depend on the change,
//! which depends on the changes that it overlaps. So it is looked for as where a gate is to depend on these (`cycle`). Where
//! nothing depends on the tail, which is so in a group that none comes after, it is left out.

ghost use Rattle.std.specs.Prelude.{◌≡◌, ◌⊎◌, ◌<◌, ◌↔◌, ℕ, IsTrue, length};
ghost use Rattle.fst_types.specs.Dependencies.{DependsOn};
ghost use Rattle.fst_types.specs.Gates.{IsOpenNumber};
ghost use Rattle.fst_heads.specs.Heads.{patches_of};
ghost use Rattle.fst_heads.specs.Rows.{IsTouched};
ghost use Rattle.fst_walks.specs.Searching.{AreOver, TouchedReaches};
ghost use Rattle.fst_levels.specs.Sights.{Sees};
ghost use Rattle.fst_walks.specs.Starting.{IsStart};

use crate::cycle::starts_close;
use crate::ends::Ends;
use crate::starts::Starts;
use fst_levels::sight::Sight;
use fst_types::Span;

// Whether something may depend on the patch with the number.
fn has_dependants(sight: &Sight<'_>, number: u32) -> bool
    requires sees { Sees sight.now }
    ensures { (n : ℕ) → DependsOn (patches_of sight.now.heads.now.list.items) n number → IsTrue result }
{
    match sight.levels.find(sight.heads, number) {
        Some(index) => !sight.heads.list[index].dependants.as_slice().is_empty(),
        None => true,
    }
}

// The changes of the block that share a byte with the span, or so many of them that each other one is below one of these: the
// newest over each byte, or where those are not known all that the list of the block has.
fn overlapped<'a>(sight: &Sight<'a>, block: u32, span: Span) -> Starts<'a>
    requires sees { Sees sight.now }
    requires block { block < length sight.now.lists.now }
    ensures only { (n : ℕ) → IsStart (patches_of sight.now.heads.now.list.items) result n → IsTouched (patches_of sight.now.heads.now.list.items) block span.at span.len n }
    ensures above { (n : ℕ) → IsTouched (patches_of sight.now.heads.now.list.items) block span.at span.len n → (m : ℕ) × IsStart (patches_of sight.now.heads.now.list.items) result m × ((m ≡ n) ⊎ DependsOn (patches_of sight.now.heads.now.list.items) m n) }
{
    let cover = &sight.covers[block as usize];
    if span.len == 0 || cover.has_untold() {
        let list = sight.lists[block as usize].as_slice();
        return Starts::Overlapped(list, span);
    }
    Starts::Newest(cover.over(span), block, span)
}

/// Whether a change not on disk that shares a byte with the span depends on the open gate. What was met before does not
/// matter.
pub fn overlap_reaches(
    sight: &Sight<'_>,
    ends: &mut Ends,
    gate: u32,
    block: u32,
    span: Span,
) -> bool
    requires sees { Sees sight.now }
    requires over { AreOver sight.now.heads.now.list.items ends.old }
    requires block { block < length sight.now.lists.now }
    requires is_open { IsOpenNumber (patches_of sight.now.heads.now.list.items) gate }
    ensures reaches { IsTrue result ↔ TouchedReaches (patches_of sight.now.heads.now.list.items) gate block span.at span.len }
    ensures over { AreOver sight.now.heads.now.list.items ends.new }
    ensures crossed { (ends.new.up.crossed ≡ ends.old.up.crossed) × (ends.new.down.crossed ≡ ends.old.down.crossed) }
{
    if !has_dependants(sight, gate) {
        return false;
    }
    starts_close(sight, ends, gate, overlapped(sight, block, span))
}
