//! The whole rows of changes, which contracts alone see: of a change the graph keeps only so much of its row that the rest
//! is below it.
//!
//! A [`Rows`] has no bytes and does nothing when it runs. Its list is tied by the one clause of `Rows::of`, whose proof is
//! written by hand; nothing else makes one or changes one.

ghost use Rattle.std.specs.Prelude.{◌≡◌, [], List, ℕ};
ghost use Rattle.std.specs.Borrow.{ftrue};
ghost use Rattle.fst_graph.specs.Rows.{with_row};
ghost use Rattle.fst_heads.specs.Names.{numbers_of};

use crate::sparse::Sparse;
use fst_types::{BlockNo, PatchNo, Span};
use std::marker::{Model, PhantomData};

/// Which rows under which numbers a value gives. A type that has it is only a name: no value of it is made.
pub trait Tells<X> {
    ghost told: { X → List (ℕ × List ℕ) };
}

/// Rows under numbers. It takes no memory and owns nothing.
#[derive(Drop)]
pub struct Rows {
    marker: PhantomData<()>,
    pub ghost items: { List (ℕ × List ℕ) },
}

impl Model for Rows {
    ghost also_owns = { λ _. ftrue };
}

// It owns nothing, so any thread may have it: proofs/rows/Rows/TheSendSync has the proof.
unsafe impl Send for Rows {}

impl Rows {
    /// The rows that `T` tells of the value.
    pub fn of<X, T: Tells<X>>(value: &X) -> Rows
        ensures { result.items ≡ T.told value.now }
    {
        let _ = value;
        Rows {
            marker: PhantomData,
        }
    }

    /// No row.
    pub fn none() -> Rows
        ensures { result.items ≡ [] }
    {
        Rows::of::<(), Nothing>(&())
    }

    /// With the whole row of the newest change, which has that number and names, once it is among the patches.
    pub fn with(
        &self,
        patches: &Sparse,
        no: PatchNo,
        block: BlockNo,
        span: Span,
        after: &[PatchNo],
    ) -> Rows
        ensures { result.items ≡ with_row self.now.items patches.now.heads no.0 (numbers_of after.now) block.0 span.at span.len }
    {
        Rows::of::<Made<'_>, OneMore>(&Made {
            rows: self,
            patches,
            no,
            block,
            span,
            after,
        })
    }
}

struct Nothing;

impl Tells<()> for Nothing {
    ghost told = { λ _. [] };
}

#[derive(Drop)]
struct Made<'a> {
    rows: &'a Rows,
    patches: &'a Sparse,
    no: PatchNo,
    block: BlockNo,
    span: Span,
    after: &'a [PatchNo],
}

struct OneMore;

impl<'a> Tells<Made<'a>> for OneMore {
    ghost told = { λ m. with_row m.rows.now.items m.patches.now.heads m.no.0 (numbers_of m.after.now) m.block.0 m.span.at m.span.len };
}
