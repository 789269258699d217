//! Why a patch cannot be made now. The first rule that holds decides. Of the patches most rules ask no more than how many are
//! not forgotten.

ghost use Rattle.std.specs.Prelude.{◌≡◌, ◌↔◌, ◌<◌, List, length, IfSome, IfNone, IsTrue};
ghost use Rattle.fst_types.specs.Gates.{IsOpenNumber};
ghost use Rattle.fst_types.specs.Order.{room_order, make_order};
ghost use Rattle.fst_types.specs.Patches.{Patch};
ghost use Rattle.fst_types.specs.Refusals.{IsFirst, NoneHolds};
ghost use Rattle.fst_heads.specs.Heads.{patches_of};
ghost use Rattle.fst_heads.specs.Names.{numbers_of};
ghost use Rattle.fst_graph.specs.Membering.{OverlapReaches};
ghost use Rattle.fst_levels.specs.Sights.{Sees};
ghost use Rattle.fst_walks.specs.Searching.{AreOver};

use fst_heads::row::names_unknown;
use fst_levels::sight::Sight;
use fst_types::{Fault, MAX_HEADS, MAX_NAMES, MAX_NUMBER, PatchNo, Span, What};
use fst_walks::ends::Ends;
use fst_walks::overlap_cycle::overlap_reaches;

/// Why no patch can be made now, so many not being forgotten.
pub fn room_fault(standing: usize, numbers: u32) -> Option<Fault>
    ensures first { IfSome result (λ f. (heads : List Patch) → length heads ≡ standing → IsFirst (room_order heads numbers) f) }
    ensures clear { IfNone result ((heads : List Patch) → length heads ≡ standing → NoneHolds (room_order heads numbers)) }
{
    if standing >= MAX_HEADS {
        return Some(Fault::Full(What::Heads));
    }
    if numbers == MAX_NUMBER {
        return Some(Fault::Full(What::Numbers));
    }
    None
}

/// Why no patch that names these can be made now.
pub fn make_fault(standing: usize, numbers: u32, after: &[PatchNo]) -> Option<Fault>
    ensures first { IfSome result (λ f. (heads : List Patch) → length heads ≡ standing → IsFirst (make_order heads numbers (numbers_of after.now)) f) }
    ensures clear { IfNone result ((heads : List Patch) → length heads ≡ standing → NoneHolds (make_order heads numbers (numbers_of after.now))) }
{
    if after.len() > MAX_NAMES {
        return Some(Fault::BadField);
    }
    if names_unknown(numbers, after) {
        return Some(Fault::NoPatch);
    }
    room_fault(standing, numbers)
}

/// Whether a change that one with this span overlaps depends on the tail of a group, so that the group cannot have it.
pub fn reaches_tail(sight: &Sight<'_>, ends: &mut Ends, tail: u32, block: u32, span: Span) -> bool
    requires sees { Sees sight.now }
    requires over { AreOver sight.now.heads.now.list.items ends.old }
    requires block { block < length sight.now.lists.now }
    requires is_open { IsOpenNumber (patches_of sight.now.heads.now.list.items) tail }
    ensures reaches { IsTrue result ↔ OverlapReaches (patches_of sight.now.heads.now.list.items) tail block span.at span.len }
    ensures over { AreOver sight.now.heads.now.list.items ends.new }
    ensures crossed { (ends.new.up.crossed ≡ ends.old.up.crossed) × (ends.new.down.crossed ≡ ends.old.down.crossed) }
{
    overlap_reaches(sight, ends, tail, block, span)
}
