//! Gates, as calls name them.

ghost use Rattle.std.specs.Prelude.{◌≡◌, ◌≤◌, ℕ, List, count_by, map, Contains, IfOk, IfErr, IfSome, IfNone, OnOk, OnErr};
ghost use Rattle.fst_types.specs.Dependencies.{DirectlyOn, IsLiveNumber};
ghost use Rattle.fst_types.specs.Limits.{max_heads};
ghost use Rattle.fst_types.specs.Lists.{Lists};
ghost use Rattle.fst_types.specs.Order.{seal_order, depend_order};
ghost use Rattle.fst_types.specs.Refusals.{IsFirst, NoneHolds};
ghost use Rattle.fst_types.specs.Gates.{IsOpenNumber};
ghost use Rattle.fst_heads.specs.Heads.{patches_of};
ghost use Rattle.fst_heads.specs.Names.{numbers_of};
ghost use Rattle.fst_heads.specs.Indices.{HasIndex};
ghost use Rattle.fst_heads.specs.Nodes.{Node, AreDistinct, AreLinked, is_forgotten_in, nodes_of, pending_in, at_number, gains_names, linked_to};
ghost use Rattle.fst_heads.specs.Pendings.{Fits, sums_of};
ghost use Rattle.fst_heads.specs.Spreading.{is_waiting};
ghost use Rattle.fst_graph.specs.Remembered.{AreGone};
ghost use Rattle.fst_graph.specs.Sound.{remembered_of};
ghost use Rattle.fst_walks.specs.Searching.{AreOver};
ghost use Rattle.fst_levels.specs.Sights.{Sees};

use fst_heads::growth::{gain, missing_names};
use fst_heads::head::Kind;
use fst_heads::heads::Heads;
use fst_heads::links::{link, reserve_above};
use fst_heads::row::{is_given, names_unknown, row_sums};
use fst_levels::sight::Sight;
use fst_types::{Fault, MAX_NAMES, PatchNo};
use fst_walks::cycle::closes_cycle;
use fst_walks::ends::Ends;
use std::alloc::{AllocError, Global};

/// The index of an open gate, or why it is none: the number was not given, it is no gate's or forgotten, or the gate is sealed.
pub fn gate_index(heads: &Heads, numbers: u32, gate: u32) -> Result<usize, Fault>
    ensures refused { IfErr result (IsFirst (seal_order (remembered_of heads.now.list.items) numbers gate)) }
    ensures index { IfOk result (HasIndex heads.now.list.items gate) }
    ensures clear { IfOk result (λ _. NoneHolds (seal_order (patches_of heads.now.list.items) numbers gate)) }
    ensures is_open { IfOk result (λ _. IsOpenNumber (patches_of heads.now.list.items) gate) }
{
    if !is_given(numbers, gate) {
        return Err(Fault::NoPatch);
    }
    let Some(index) = heads.index_of(gate) else {
        return Err(Fault::NotGate);
    };
    if heads.list[index].forgotten {
        return Err(Fault::NotGate);
    }
    match heads.list[index].kind {
        Kind::OpenGate => Ok(index),
        Kind::SealedGate => Err(Fault::Sealed),
        Kind::Change(_, _, _) => Err(Fault::NotGate),
        Kind::Empty => Err(Fault::NotGate),
    }
}

/// Why the gate cannot gain these names. What was met before does not matter.
pub fn depend_fault(
    sight: &Sight<'_>,
    ends: &mut Ends,
    numbers: u32,
    gate: u32,
    on: &[PatchNo],
) -> Option<Fault>
    requires sees { Sees sight.now }
    requires gone { AreGone (is_forgotten_in (nodes_of sight.now.heads.now.list.items)) (patches_of sight.now.heads.now.list.items) }
    requires over { AreOver sight.now.heads.now.list.items ends.old }
    ensures first { IfSome result (IsFirst (depend_order (remembered_of sight.now.heads.now.list.items) numbers gate (numbers_of on.now))) }
    ensures clear { IfNone result (NoneHolds (depend_order (patches_of sight.now.heads.now.list.items) numbers gate (numbers_of on.now))) }
    ensures is_open { IfNone result (IsOpenNumber (patches_of sight.now.heads.now.list.items) gate) }
    ensures over { AreOver sight.now.heads.now.list.items ends.new }
    ensures crossed { (ends.new.up.crossed ≡ ends.old.up.crossed) × (ends.new.down.crossed ≡ ends.old.down.crossed) }
{
    let index = match gate_index(sight.heads, numbers, gate) {
        Ok(index) => index,
        Err(fault) => return Some(fault),
    };
    if on.len() > MAX_NAMES {
        return Some(Fault::BadField);
    }
    if names_unknown(numbers, on) {
        return Some(Fault::NoPatch);
    }
    if closes_cycle(sight, ends, index, gate, on) {
        return Some(Fault::Cycle);
    }
    None
}

/// The gate gains the named patches that are not on disk and that it does not have yet.
pub fn gain_names(
    alloc: Global,
    heads: &mut Heads,
    gate: u32,
    on: &[PatchNo],
) -> Result<(), AllocError>
    requires linked { AreLinked (nodes_of heads.old.list.items) }
    requires summed { (x : Node) → Contains (nodes_of heads.old.list.items) x → (x.sums ≡ sums_of (pending_in (nodes_of heads.old.list.items)) x.patch.dependencies) × Fits x.sums }
    requires distinct { AreDistinct (nodes_of heads.old.list.items) }
    requires few { count_by is_waiting (nodes_of heads.old.list.items) ≤ max_heads }
    ensures gained { OnOk result ((names : List ℕ) × Lists (λ n. IsLiveNumber (patches_of heads.old.list.items) n × Contains (numbers_of on.now) n × (DirectlyOn (patches_of heads.old.list.items) gate n → ⊥)) names × (nodes_of heads.new.list.items ≡ map (linked_to names gate) (map (at_number gate (gains_names names (sums_of (pending_in (nodes_of heads.old.list.items)) names))) (nodes_of heads.old.list.items)))) }
    ensures same { OnErr result (nodes_of heads.new.list.items ≡ nodes_of heads.old.list.items) }
{
    let names = missing_names(alloc, heads, gate, on)?;
    reserve_above(heads, names.as_slice())?;
    let sums = row_sums(heads, names.as_slice());
    gain(heads, gate, names.as_slice(), sums)?;
    link(heads, names.as_slice(), gate);
    Ok(())
}
