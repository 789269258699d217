//! A block, and the list of its patches beside it. What a call asks of its caller is tested on the list, so the contracts
//! here say nothing.

ghost use Rattle.std.specs.Prelude.{◌≡◌, ◌≤◌, ◌+◌, length};

use crate::block::choice::{Change, is_choice, is_newest, leave_out};
use crate::same::{same, same_bytes};
use fst_block::Block;
use fst_types::{Grade, Noted, PatchNo, Span};
use std::alloc::Global;
use std::marker::Model;
use std::process::Abort;

// The bytes from this place on, which the block has.
fn span_of(rt: &impl Abort, at: u32, bytes: &[u8], block: &[u8]) -> Span
    ensures len { result.len ≡ length bytes.now }
    ensures short { result.len ≤ 64 }
    ensures within { result.at + result.len ≤ length block.now }
{
    assert!(rt; bytes.len() <= 64);
    assert!(rt; at as usize + bytes.len() <= block.len());
    Span {
        at,
        len: bytes.len() as u32,
    }
}

/// A block, and the list of its patches.
#[derive(Drop)]
pub struct Twin {
    block: Block,
    changes: Vec<Change>,
}

impl Model for Twin {
    ghost use Rattle.std.specs.Prelude.{◌≡◌};

    ghost Value = { Unit {0} };

    ghost view = { λ _. tt };

    ghost invariant = { λ t. t.block.patches ≡ t.changes.items };
}

impl Twin {
    /// So many bytes of one value, and no patch.
    pub fn load(rt: &impl Abort, alloc: Global, size: usize, fill: u8) -> Twin {
        let bytes = vec![in alloc; fill; size].expect(rt, "there is memory");
        Twin {
            block: Block::load(alloc, bytes),
            changes: Vec::new(alloc),
        }
    }

    /// Lets go of it, by a call: where it is let go of in place, that is proved field by field.
    pub fn end(self) {
        drop(self);
    }

    /// The patches, in order of number.
    pub fn changes(&self) -> &[Change] {
        &self.changes
    }

    /// Puts the bytes at this place, as the newest patch.
    pub fn apply(&mut self, rt: &impl Abort, no: u32, at: u32, bytes: &[u8], grade: Grade) {
        let change = Change {
            no: PatchNo(no),
            span: span_of(rt, at, bytes, self.block.bytes()),
            grade,
            bytes: Noted::of_bytes(bytes),
        };
        assert!(rt; is_newest(&self.changes, change.no));
        let applied = self.block.apply(change.no, change.span, bytes, grade);
        assert!(rt; applied.is_ok());
        let kept = self.changes.push(change);
        assert!(rt; kept.is_ok());
    }

    /// The image of these patches alone.
    pub fn image(&mut self, rt: &impl Abort, chosen: &[PatchNo]) -> Vec<u8> {
        assert!(rt; is_choice(&self.changes, chosen));
        self.block.image(chosen).expect(rt, "there is memory")
    }

    /// Takes these patches out.
    pub fn launch(&mut self, rt: &impl Abort, chosen: &[PatchNo]) {
        assert!(rt; is_choice(&self.changes, chosen));
        self.block.launch(chosen);
        leave_out(&mut self.changes, chosen);
    }

    /// The bytes as they stand.
    pub fn has(&self, rt: &impl Abort, expected: &[u8]) {
        same_bytes(rt, self.block.bytes(), expected);
    }

    /// How many undo bytes there are.
    pub fn keeps(&self, rt: &impl Abort, expected: u64) {
        same(rt, &self.block.undo_bytes(), &expected);
    }

    /// Whether there is no patch.
    pub fn is_clean(&self, rt: &impl Abort, expected: bool) {
        assert!(rt; self.block.is_clean() == expected);
    }
}
