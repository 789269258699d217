//! Whether a row waits for an open gate besides one that is about to be sealed. What is pending of a patch tells that it
//! waits for an open gate, and not for which: mostly a way down comes to one soon (`gate_below`), and else the search goes
//! down over all that waits until it meets one.

ghost use Rattle.std.specs.Prelude.{◌≡◌, ◌↔◌, ℕ, Some, length, IsTrue};
ghost use Rattle.fst_heads.specs.Grading.{HasUnder, IsOpenBut};
ghost use Rattle.fst_heads.specs.Heads.{patches_of};
ghost use Rattle.fst_heads.specs.Nodes.{nodes_of, pending_in};
ghost use Rattle.fst_walks.specs.Descending.{IsLedFrom, Visited};
ghost use Rattle.fst_walks.specs.Searching.{IsNextHeld};
ghost use Rattle.fst_levels.specs.Sights.{Sees};
ghost use Rattle.fst_levels.specs.Walks.{numbers_met};

use crate::cycle::visit_row;
use crate::gate_below::{is_other_gate, leads_to_gate};
use fst_levels::shortcuts::waits_for_gate;
use fst_levels::sight::Sight;
use fst_levels::walk::Walk;

// Whether an open gate besides this one is met on the way down from what was visited. It ends at the first.
fn search_other(sight: &Sight<'_>, walk: &mut Walk, gate: u32) -> bool
    requires sees { Sees sight.now }
    requires visited { Visited sight.now.heads.now.list.items walk.old }
    ensures visited { Visited sight.now.heads.now.list.items walk.new }
    ensures met { IsTrue result ↔ ((n : ℕ) × IsLedFrom (IsNextHeld (patches_of sight.now.heads.now.list.items) (pending_in (nodes_of sight.now.heads.now.list.items))) (numbers_met sight.now.heads.now.list.items walk.old) n × IsOpenBut (patches_of sight.now.heads.now.list.items) (Some gate) n) }
{
    let mut at = 0;
    while at < walk.len() {
        let index = walk.index_at(at);
        let head = &sight.heads.list[index];
        if is_other_gate(head, gate) {
            return true;
        }
        visit_row(sight, walk, head.dependencies.as_slice());
        at += 1;
    }
    false
}

// Whether an open gate besides this one is in the row or below it.
fn waits_for_another(sight: &Sight<'_>, walk: &mut Walk, row: &[u32], gate: u32) -> bool
    requires sees { Sees sight.now }
    requires long { length walk.old.marks ≡ length sight.now.heads.now.list.items }
    ensures waits { IsTrue result ↔ HasUnder (patches_of sight.now.heads.now.list.items) row.now (IsOpenBut (patches_of sight.now.heads.now.list.items) (Some gate)) }
    ensures long { length walk.new.marks ≡ length sight.now.heads.now.list.items }
{
    walk.clear();
    visit_row(sight, walk, row);
    search_other(sight, walk, gate)
}

/// Whether an open gate is in the row or below it, besides the one that is taken as sealed, if there is one. A change
/// with that row is soft.
pub fn is_blocked(sight: &Sight<'_>, walk: &mut Walk, row: &[u32], but: Option<u32>) -> bool
    requires sees { Sees sight.now }
    requires long { length walk.old.marks ≡ length sight.now.heads.now.list.items }
    ensures blocked { IsTrue result ↔ HasUnder (patches_of sight.now.heads.now.list.items) row.now (IsOpenBut (patches_of sight.now.heads.now.list.items) but) }
    ensures long { length walk.new.marks ≡ length sight.now.heads.now.list.items }
{
    if !waits_for_gate(sight, row) {
        return false;
    }
    let Some(gate) = but else {
        return true;
    };
    leads_to_gate(sight, row, gate) || waits_for_another(sight, walk, row, gate)
}
