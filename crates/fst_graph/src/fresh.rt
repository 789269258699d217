//! A new patch before its head is put down, and room for those that land.

ghost use Rattle.std.specs.Prelude.{◌≡◌, ◌≤◌, ◌∷◌, [], OnOk, vec_capacity};
ghost use Rattle.fst_types.specs.Making.{fresh};
ghost use Rattle.fst_types.specs.Patches.{OpenGate};
ghost use Rattle.fst_heads.specs.Heads.{kind_of};
ghost use Rattle.fst_heads.specs.Pendings.{of_kind};
ghost use Rattle.fst_graph.specs.Fresh.{patch_from};

use fst_heads::head::Kind;
use fst_heads::pending::{Pending, of_change};
use fst_heads::row::Row;
use fst_types::Place;
use smallvec::SmallVec;
use std::alloc::{AllocError, Global};

/// A new patch, before its head is put down: what it is, where, and what it depends on.
#[derive(Drop)]
pub struct Fresh {
    pub number: u32,
    pub kind: Kind,
    pub place: Place,
    pub dependencies: Row,
}

/// A new gate that depends on the row.
pub fn gate(number: u32, dependencies: Row) -> Fresh
    ensures { patch_from result ≡ fresh number OpenGate dependencies.items }
{
    Fresh {
        number,
        kind: Kind::OpenGate,
        place: Place::Memory,
        dependencies,
    }
}

/// The row of one number, which takes no memory.
pub fn row_of(alloc: Global, number: u32) -> Row
    ensures { result.items ≡ number ∷ [] }
{
    let mut row = SmallVec::new(alloc);
    row.push_reserved(number);
    row
}

/// A place for each of so many heads among those that landed.
pub fn reserve_landed(landed: &mut Vec<u32>, heads: usize) -> Result<(), AllocError>
    ensures same { landed.new.items ≡ landed.old.items }
    ensures wide { vec_capacity landed.old ≤ vec_capacity landed.new }
    ensures shelf { OnOk result (heads ≤ vec_capacity landed.new) }
{
    landed.reserve(heads.saturating_sub(landed.len()))
}

/// What is pending of a patch over that.
pub fn pending_over(fresh: &Fresh, below: Pending) -> Pending
    ensures { result ≡ of_kind (kind_of fresh.now.kind) fresh.now.place below }
{
    match fresh.kind {
        Kind::Change(_, block, _) => of_change(block, fresh.place, below),
        Kind::OpenGate => Pending::Held,
        Kind::Empty | Kind::SealedGate => below,
    }
}
