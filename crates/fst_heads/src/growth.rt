//! What an open gate gains.

ghost use Rattle.std.specs.Prelude.{◌≡◌, ◌↔◌, ◌<◌, ◌+◌, ◌∷◌, [], ℕ, List, map, IsTrue, IfOk, OnOk, OnErr, Contains};
ghost use Rattle.fst_types.specs.Dependencies.{DirectlyOn, IsLiveNumber};
ghost use Rattle.fst_types.specs.Lists.{Lists};
ghost use Rattle.fst_heads.specs.Frames.{HasRoomBelow};
ghost use Rattle.fst_heads.specs.Heads.{patches_of};
ghost use Rattle.fst_heads.specs.Names.{numbers_of};
ghost use Rattle.fst_heads.specs.Nodes.{Node, nodes_of, at_number, gains_names, AreLinked, HasRoomAbove};
ghost use Rattle.fst_heads.specs.Pendings.{Fits};
ghost use Rattle.fst_heads.specs.Rows.{IsMissing};

use crate::heads::Heads;
use crate::pending::Sums;
use crate::row::{Row, is_live_number, put};
use fst_types::PatchNo;
use smallvec::SmallVec;
use std::alloc::{AllocError, Global};

// Whether the one patch has the other as a direct dependency. The row of the one tells it and the dependants of the other do,
// of which the shorter list is looked at: a gate may come after thousands of patches, each of which has few dependants.
fn is_direct(heads: &Heads, from: u32, to: u32) -> bool
    requires linked { AreLinked (nodes_of heads.now.list.items) }
    ensures { IsTrue result ↔ DirectlyOn (patches_of heads.now.list.items) from to }
{
    let Some(over) = heads.index_of(from) else {
        return false;
    };
    let row = heads.list[over].dependencies.as_slice();
    if let Some(under) = heads.index_of(to) {
        let dependants = heads.list[under].dependants.as_slice();
        if dependants.len() < row.len() {
            return dependants.contains(&from);
        }
    }
    row.contains(&to)
}

// Whether the number is that of a patch that is not on disk, and that the gate does not have.
fn is_missing(heads: &Heads, gate: u32, number: u32) -> bool
    requires linked { AreLinked (nodes_of heads.now.list.items) }
    ensures { IsTrue result ↔ IsMissing (patches_of heads.now.list.items) gate number }
{
    is_live_number(heads, number) && !is_direct(heads, gate, number)
}

/// The row of the names that are not on disk and that the gate does not have.
pub fn missing_names(
    alloc: Global,
    heads: &Heads,
    gate: u32,
    names: &[PatchNo],
) -> Result<Row, AllocError>
    requires linked { AreLinked (nodes_of heads.now.list.items) }
    ensures { IfOk result (λ row. Lists (λ n. IsLiveNumber (patches_of heads.now.list.items) n × Contains (numbers_of names.now) n × (DirectlyOn (patches_of heads.now.list.items) gate n → ⊥)) row.items) }
{
    let mut row = SmallVec::new(alloc);
    for name in names {
        if is_missing(heads, gate, name.0) {
            put(&mut row, name.0)?;
        }
    }
    Ok(row)
}

/// The gate has the names besides, which add up to the sums. Where there is no memory it does not.
pub fn gain(heads: &mut Heads, gate: u32, names: &[u32], sums: Sums) -> Result<(), AllocError>
    requires counted { (x : Node) → Contains (nodes_of heads.old.list.items) x → x.patch.number ≡ gate → (x.sums.count + sums.count < 65536) × Fits x.sums }
    requires fits { Fits sums }
    ensures ok { OnOk result (nodes_of heads.new.list.items ≡ map (at_number gate (gains_names names.now sums)) (nodes_of heads.old.list.items)) }
    ensures same { OnErr result (nodes_of heads.new.list.items ≡ nodes_of heads.old.list.items) }
    ensures room { OnOk result (HasRoomAbove heads.old.list.items names.now → HasRoomAbove heads.new.list.items names.now) }
{
    if let Some(index) = heads.index_of(gate) {
        let head = &mut heads.list[index];
        head.dependencies.extend_from_slice(names)?;
        head.sums = head.sums.with(sums);
    }
    Ok(())
}

/// The gate has the number besides, which has these sums. It takes no memory.
pub fn gain_one(heads: &mut Heads, gate: u32, number: u32, sums: Sums)
    requires counted { (x : Node) → Contains (nodes_of heads.old.list.items) x → x.patch.number ≡ gate → (x.sums.count + sums.count < 65536) × Fits x.sums }
    requires fits { Fits sums }
    requires room { HasRoomBelow heads.old.list.items gate }
    ensures nodes { nodes_of heads.new.list.items ≡ map (at_number gate (gains_names (number ∷ []) sums)) (nodes_of heads.old.list.items) }
    ensures above { (row : List ℕ) → HasRoomAbove heads.old.list.items row → HasRoomAbove heads.new.list.items row }
{
    if let Some(index) = heads.index_of(gate) {
        let head = &mut heads.list[index];
        head.dependencies.push_reserved(number);
        head.sums = head.sums.with(sums);
    }
}
