//! The bytes of each change that is not forgotten, which contracts alone see.
//!
//! A [`Contents`] has no bytes and does nothing when it runs. Its list is tied by the one clause of `Contents::of`, whose
//! proof is written by hand; nothing else makes one or changes one.

ghost use Rattle.std.specs.Prelude.{◌≡◌, ◌++◌, ◌∷◌, [], List, ℕ, filter};
ghost use Rattle.std.specs.Borrow.{ftrue};
ghost use Rattle.fst_types.specs.Tests.{has_number};

use fst_graph::Graph;
use fst_types::PatchNo;
use std::marker::{Model, PhantomData};

/// Which bytes under which numbers a value gives. A type that has it is only a name: no value of it is made.
pub(crate) trait Gathers<X> {
    ghost gathered: { X → List (ℕ × List ℕ) };
}

/// Bytes under numbers. It takes no memory and owns nothing.
#[derive(Drop)]
pub(crate) struct Contents {
    marker: PhantomData<()>,
    pub ghost items: { List (ℕ × List ℕ) },
}

impl Model for Contents {
    ghost also_owns = { λ _. ftrue };
}

// It owns nothing, so any thread may have it: proofs/contents/Contents/TheSendSync has the proof.
unsafe impl Send for Contents {}

impl Contents {
    /// The bytes that `G` gathers of the value.
    pub(crate) fn of<X, G: Gathers<X>>(value: &X) -> Contents
        ensures { result.items ≡ G.gathered value.now }
    {
        let _ = value;
        Contents {
            marker: PhantomData,
        }
    }

    /// No bytes.
    pub(crate) fn none() -> Contents
        ensures { result.items ≡ [] }
    {
        Contents::of::<(), Nothing>(&())
    }

    /// These bytes under the number besides.
    pub(crate) fn with(&self, no: PatchNo, bytes: &[u8]) -> Contents
        ensures { result.items ≡ self.now.items ++ (no.0, bytes.now) ∷ [] }
    {
        Contents::of::<Added<'_>, Besides>(&Added {
            contents: self,
            no,
            bytes,
        })
    }

    /// Those of the patches that are not forgotten.
    pub(crate) fn of_heads(&self, graph: &Graph) -> Contents
        ensures { result.items ≡ filter (λ e. has_number graph.now.heads e.0) self.now.items }
    {
        Contents::of::<Known<'_>, OfHeads>(&Known {
            contents: self,
            graph,
        })
    }
}

struct Nothing;

impl Gathers<()> for Nothing {
    ghost gathered = { λ _. [] };
}

#[derive(Drop)]
struct Added<'a> {
    contents: &'a Contents,
    no: PatchNo,
    bytes: &'a [u8],
}

struct Besides;

impl<'a> Gathers<Added<'a>> for Besides {
    ghost gathered = { λ a. a.contents.now.items ++ (a.no.0, a.bytes.now) ∷ [] };
}

#[derive(Drop)]
struct Known<'a> {
    contents: &'a Contents,
    graph: &'a Graph,
}

struct OfHeads;

impl<'a> Gathers<Known<'a>> for OfHeads {
    ghost gathered = { λ k. filter (λ e. has_number k.graph.now.heads e.0) k.contents.now.items };
}
