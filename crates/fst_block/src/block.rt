//! A block: its bytes as they stand in memory, and its patches that are not launched.

ghost use Rattle.std.specs.Prelude.{◌≡◌, ◌<◌, ◌+◌, ◌≤◌, ◌↔◌, [], ◌∷◌, ◌++◌, length, All, IsTrue, IfOk, IfErr, OnOk, OnErr};
ghost use Rattle.fst_block.specs.BlockView.{fold_of, soft_lengths};
ghost use Rattle.fst_block.specs.Choices.{IsChoice, chosen_of, others_of};

use crate::change::{Change, kept_len};
use crate::launched::take_out;
use crate::put::put;
use crate::reverts::revert;
use fst_chain::Chain;
use fst_types::{Fault, Grade, Items, Noted, PatchNo, Span};
use std::alloc::Global;
use std::marker::Model;

/// The bytes of one block, and the patches over them that are not launched, in order of number.
///
/// Contracts see it as a base and those patches: the bytes are the base with the patches' bytes over it, in order. The
/// base itself is not in memory.
#[derive(Drop)]
pub struct Block {
    bytes: Vec<u8>,
    patches: Chain<Change>,
    undo: u64,
    base: Noted,
    alloc: Global,
}

impl Model for Block {
    ghost use Rattle.fst_chain.specs.Records.{chain_list};
    ghost use Rattle.fst_block.specs.BlockView.{BlockView};
    ghost use Rattle.fst_block.specs.Reverts.{patches_of};
    ghost use Rattle.fst_block.specs.Kept.{IsKept};

    ghost Value = { BlockView };

    ghost view = { λ b. record { base = b.base.items; patches = patches_of (chain_list b.patches) } };

    ghost invariant = { λ b. IsKept b.base.items b.bytes.items (chain_list b.patches) b.undo };
}

impl Block {
    /// A block with these bytes and no patch. It takes no memory itself, and keeps `alloc` for its patches.
    pub fn load(alloc: Global, bytes: Vec<u8>) -> Block
        ensures { result ≡ record { base = bytes.items; patches = [] } }
    {
        Block {
            base: Noted::of::<Vec<u8>, Items>(&bytes),
            bytes,
            patches: Chain::new(alloc),
            undo: 0,
            alloc,
        }
    }

    /// Puts the bytes at the span, as the newest patch. A soft patch takes memory for what the span held and for its
    /// record, a hard one for its record alone.
    ///
    /// Refuses with `Memory` where there is none, and only then.
    pub fn apply(
        &mut self,
        no: PatchNo,
        span: Span,
        bytes: &[u8],
        grade: Grade,
    ) -> Result<(), Fault>
        requires inside { span.at + span.len ≤ length self.old.base }
        requires same_length { length bytes.now ≡ span.len }
        requires newest { All (λ p. p.number < no.0) self.old.patches }
        ensures base { self.new.base ≡ self.old.base }
        ensures applied { OnOk result (self.new.patches ≡ self.old.patches ++ record { number = no.0; span = span; grade = grade; bytes = bytes.now } ∷ []) }
        ensures unchanged { OnErr result (self.new ≡ self.old) }
        ensures only_memory { IfErr result (λ fault. fault ≡ Fault.Memory) }
    {
        let at = span.at as usize;
        let kept = kept_len(grade, span.len);
        let change = Change {
            no,
            span,
            grade,
            bytes: Noted::of_bytes(bytes),
        };
        if self
            .patches
            .push_back(change, &self.bytes[at..at + kept as usize])
            .is_err()
        {
            return Err(Fault::Memory);
        }
        self.undo += u64::from(kept);
        put(&mut self.bytes, at, bytes);
        Ok(())
    }

    /// The base with the chosen patches alone. The bytes are copied, and in the copy what is left out is reverted, newest
    /// first. Takes memory for the copy alone.
    ///
    /// Refuses with `Memory` where there is none, and only then. The block is as before in either case.
    pub fn image(&mut self, chosen: &[PatchNo]) -> Result<Vec<u8>, Fault>
        requires { IsChoice self.old.patches chosen.now }
        ensures image { IfOk result (λ image. image.items ≡ fold_of self.old.base (chosen_of chosen.now self.old.patches)) }
        ensures same_length { IfOk result (λ image. length image.items ≡ length self.old.base) }
        ensures unchanged { self.new ≡ self.old }
        ensures only_memory { IfErr result (λ fault. fault ≡ Fault.Memory) }
    {
        let Ok(mut image) = Vec::from_slice(self.alloc, &self.bytes) else {
            return Err(Fault::Memory);
        };
        revert(&mut image, &mut self.patches, chosen);
        Ok(image)
    }

    /// Takes the chosen patches out of the list. The bytes stay, and the base has the patches' bytes from now on.
    pub fn launch(&mut self, chosen: &[PatchNo])
        requires { IsChoice self.old.patches chosen.now }
        ensures base { self.new.base ≡ fold_of self.old.base (chosen_of chosen.now self.old.patches) }
        ensures patches { self.new.patches ≡ others_of chosen.now self.old.patches }
    {
        self.undo -= take_out(&mut self.patches, chosen, &mut self.base);
    }

    /// How many undo bytes the block keeps: as many as its soft patches have bytes.
    pub fn undo_bytes(&self) -> u64
        ensures { result ≡ soft_lengths self.now.patches }
    {
        self.undo
    }

    /// Whether the block has no patch.
    pub fn is_clean(&self) -> bool
        ensures { IsTrue result ↔ (self.now.patches ≡ []) }
    {
        self.patches.len() == 0
    }

    /// The bytes as they stand, all patches over the base.
    pub fn bytes(&self) -> &[u8]
        ensures value { result.now ≡ fold_of self.now.base self.now.patches }
        ensures same_length { length result.now ≡ length self.now.base }
    {
        self.bytes.as_slice()
    }
}
