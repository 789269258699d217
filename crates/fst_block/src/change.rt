//! The record of a patch in the chain.

ghost use Rattle.std.specs.Prelude.{◌≡◌, ◌≤◌};
ghost use Rattle.fst_block.specs.BlockView.{len_if_soft};

use fst_types::{Grade, Noted, PatchNo, Span};
use std::marker::Model;

/// A patch: which bytes it puts is known to contracts alone.
#[derive(Drop)]
pub struct Change {
    pub no: PatchNo,
    pub span: Span,
    pub grade: Grade,
    pub bytes: Noted,
}

impl Model for Change {
    ghost use Rattle.fst_block.specs.BlockView.{BlockPatch};

    ghost Value = { BlockPatch };

    ghost view = { λ c. record { number = c.no.0; span = c.span; grade = c.grade; bytes = c.bytes.items } };
}

/// How many undo bytes a patch of this grade and length keeps.
pub fn kept_len(grade: Grade, len: u32) -> u32
    ensures value { result ≡ len_if_soft grade len }
    ensures within { result ≤ len }
{
    match grade {
        Grade::Soft => len,
        Grade::Hard => 0,
    }
}
