//! Taking launched patches out of the chain.

ghost use Rattle.std.specs.Prelude.{◌≡◌, ◌<◌, ◌^◌};
ghost use Rattle.fst_chain.specs.Records.{chain_list};
ghost use Rattle.fst_block.specs.BlockView.{fold_of, soft_lengths};
ghost use Rattle.fst_block.specs.Choices.{chosen_of};
ghost use Rattle.fst_block.specs.Reverts.{patches_of, entries_left, MeetsInOrder};

use crate::change::{Change, kept_len};
use crate::choice::is_at;
use fst_chain::Chain;
use fst_types::{Noted, Notes, PatchNo};

/// Notes the bytes with a change over them.
struct Written;

impl<'a> Notes<(&'a Noted, &'a Change)> for Written {
    ghost use Rattle.fst_types.specs.Fold.{written};
    ghost use Rattle.fst_block.specs.BlockView.{write_of};

    ghost noted = { λ p. written p.0.now.items (write_of p.1.now) };
}

/// Takes the chosen patches out, and answers how many undo bytes went with them. The base gets their bytes.
pub fn take_out(patches: &mut Chain<Change>, chosen: &[PatchNo], base: &mut Noted) -> u64
    requires choice { MeetsInOrder chosen.now (chain_list patches.old) }
    requires small { soft_lengths (patches_of (chain_list patches.old)) < 2 ^ 64 }
    ensures patches { chain_list patches.new ≡ entries_left chosen.now (chain_list patches.old) }
    ensures base { base.new.items ≡ fold_of base.old.items (chosen_of chosen.now (patches_of (chain_list patches.old))) }
    ensures undo { result ≡ soft_lengths (chosen_of chosen.now (patches_of (chain_list patches.old))) }
{
    let mut met = 0;
    let mut undo = 0;
    let mut cursor = patches.cursor_front();
    // Once all are met, what is behind the last of them stays as it is.
    while met < chosen.len() {
        let change = cursor.current().unwrap();
        if is_at(chosen, met, change.no) {
            *base = Noted::of::<(&Noted, &Change), Written>(&(&*base, change));
            undo += u64::from(kept_len(change.grade, change.span.len));
            met += 1;
            drop(cursor.remove());
        } else {
            cursor.next();
        }
    }
    undo
}
