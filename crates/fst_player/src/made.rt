//! The changes that were accepted, which contracts alone see: what a crash leaves is told without them.
//!
//! A [`Made`] has no bytes and does nothing when it runs. Its list is tied by the one clause of `Made::of`, whose proof is
//! written by hand; nothing else makes one or changes one.

ghost use Rattle.std.specs.Prelude.{◌≡◌, [], List};
ghost use Rattle.std.specs.Borrow.{ftrue};
ghost use Rattle.fst_types.specs.Run.{ChangeMade, with_change};
ghost use Rattle.fst_player.specs.Asked.{change_told};

use fst_types::{BlockNo, Fault, Grade, PatchNo};
use std::marker::{Model, PhantomData};

/// Which changes a value tells of. A type that has it is only a name: no value of it is made.
pub trait Tells<X> {
    ghost told: { X → List ChangeMade };
}

/// Changes, the oldest first. It takes no memory and owns nothing.
#[derive(Drop)]
pub struct Made {
    marker: PhantomData<()>,
    pub ghost items: { List ChangeMade },
}

impl Model for Made {
    ghost also_owns = { λ _. ftrue };
}

impl Made {
    /// The changes that `T` tells of the value.
    pub fn of<X, T: Tells<X>>(value: &X) -> Made
        ensures { result.items ≡ T.told value.now }
    {
        let _ = value;
        Made {
            marker: PhantomData,
        }
    }

    /// No change.
    pub fn none() -> Made
        ensures { result.items ≡ [] }
    {
        Made::of::<(), Nothing>(&())
    }

    /// With a change that was asked for, where this is the answer that it was made.
    pub fn with(
        &self,
        answer: &Result<(PatchNo, Grade), Fault>,
        block: BlockNo,
        at: u32,
        bytes: &[u8],
    ) -> Made
        ensures { result.items ≡ with_change self.now.items (change_told answer.now block.0 at bytes.now) }
    {
        Made::of::<Asked<'_>, OneMore>(&Asked {
            made: self,
            answer,
            block,
            at,
            bytes,
        })
    }
}

struct Nothing;

impl Tells<()> for Nothing {
    ghost told = { λ _. [] };
}

#[derive(Drop)]
struct Asked<'a> {
    made: &'a Made,
    answer: &'a Result<(PatchNo, Grade), Fault>,
    block: BlockNo,
    at: u32,
    bytes: &'a [u8],
}

struct OneMore;

impl<'a> Tells<Asked<'a>> for OneMore {
    ghost told = { λ a. with_change a.made.now.items (change_told a.answer.now a.block.0 a.at a.bytes.now) };
}
