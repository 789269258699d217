//! Where a search for a cycle starts below: at the patches that a gate is to depend on, or at those that a new change of a
//! group overlaps.

ghost use Rattle.std.specs.Prelude.{◌≡◌, Contains};
ghost use Rattle.fst_heads.specs.declared.pending.Pending.TheVariants as pending;
ghost use Rattle.fst_heads.specs.Heads.{patches_of};
ghost use Rattle.fst_heads.specs.Lists.{entries_of};
ghost use Rattle.fst_heads.specs.Names.{numbers_of};
ghost use Rattle.fst_heads.specs.Nodes.{nodes_of, pending_in};
ghost use Rattle.fst_heads.specs.Rows.{IsTouched};
ghost use Rattle.fst_walks.specs.Descending.{Visited, Visits};
ghost use Rattle.fst_walks.specs.Starting.{IsSharing, IsStart, numbers_told};
ghost use Rattle.fst_levels.specs.Sights.{Sees};
ghost use Rattle.fst_levels.specs.Walks.{numbers_met};

use crate::cycle::visit_held;
use fst_heads::cover::Run;
use fst_heads::lists::Listed;
use fst_heads::row::shares;
use fst_heads::sparse::is_touched;
use fst_levels::sight::Sight;
use fst_levels::walk::Walk;
use fst_types::{PatchNo, Span};

/// The patches where a search for a cycle starts.
#[derive(Clone, Copy)]
pub enum Starts<'a> {
    /// Those with these names.
    Names(&'a [PatchNo]),
    /// The changes of the block that the runs tell, not on disk, which share a byte with the span.
    Newest(&'a [Run], u32, Span),
    /// The listed changes that share a byte with the span.
    Overlapped(&'a [Listed], Span),
}

// Visits those of the names that wait for an open gate.
fn visit_names(sight: &Sight<'_>, walk: &mut Walk, names: &[PatchNo])
    requires sees { Sees sight.now }
    requires visited { Visited sight.now.heads.now.list.items walk.old }
    ensures visited { Visited sight.now.heads.now.list.items walk.new }
    ensures visits { Visits (λ n. Contains (numbers_of names.now) n × (pending_in (nodes_of sight.now.heads.now.list.items) n ≡ pending.Held)) (numbers_met sight.now.heads.now.list.items walk.old) (numbers_met sight.now.heads.now.list.items walk.new) }
{
    for name in names {
        visit_held(sight, walk, name.0);
    }
}

// Visits the changes of the block that the runs tell, share a byte with the span and wait for an open gate.
fn visit_newest(sight: &Sight<'_>, walk: &mut Walk, runs: &[Run], block: u32, span: Span)
    requires sees { Sees sight.now }
    requires visited { Visited sight.now.heads.now.list.items walk.old }
    ensures visited { Visited sight.now.heads.now.list.items walk.new }
    ensures visits { Visits (λ n. Contains (numbers_told runs.now) n × IsTouched (patches_of sight.now.heads.now.list.items) block span.at span.len n × (pending_in (nodes_of sight.now.heads.now.list.items) n ≡ pending.Held)) (numbers_met sight.now.heads.now.list.items walk.old) (numbers_met sight.now.heads.now.list.items walk.new) }
{
    for run in runs {
        if is_touched(sight.heads, run.number, block, span) {
            visit_held(sight, walk, run.number);
        }
    }
}

// Visits the listed changes that share a byte with the span and wait for an open gate.
fn visit_overlapped(sight: &Sight<'_>, walk: &mut Walk, list: &[Listed], span: Span)
    requires sees { Sees sight.now }
    requires visited { Visited sight.now.heads.now.list.items walk.old }
    ensures visited { Visited sight.now.heads.now.list.items walk.new }
    ensures visits { Visits (λ n. IsSharing span.at span.len (entries_of list.now) n × (pending_in (nodes_of sight.now.heads.now.list.items) n ≡ pending.Held)) (numbers_met sight.now.heads.now.list.items walk.old) (numbers_met sight.now.heads.now.list.items walk.new) }
{
    for listed in list {
        if shares(listed.span, span) {
            visit_held(sight, walk, listed.number);
        }
    }
}

/// Visits those of the starts that wait for an open gate.
pub fn visit_starts(sight: &Sight<'_>, walk: &mut Walk, starts: Starts<'_>)
    requires sees { Sees sight.now }
    requires visited { Visited sight.now.heads.now.list.items walk.old }
    ensures visited { Visited sight.now.heads.now.list.items walk.new }
    ensures visits { Visits (λ n. IsStart (patches_of sight.now.heads.now.list.items) starts.entry n × (pending_in (nodes_of sight.now.heads.now.list.items) n ≡ pending.Held)) (numbers_met sight.now.heads.now.list.items walk.old) (numbers_met sight.now.heads.now.list.items walk.new) }
{
    match starts {
        Starts::Names(names) => visit_names(sight, walk, names),
        Starts::Newest(runs, block, span) => visit_newest(sight, walk, runs, block, span),
        Starts::Overlapped(list, span) => visit_overlapped(sight, walk, list, span),
    }
}
