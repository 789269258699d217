//! Reverting, in a copy of a block's bytes, the patches that stay behind.
//!
//! Only chosen patches lie below a chosen one, so no chosen one lies over bytes that are put back. What the patches keep is
//! read where it lies: the block itself stays as it is.

ghost use Rattle.std.specs.Prelude.{◌≡◌, length};
ghost use Rattle.fst_chain.specs.Records.{chain_list};
ghost use Rattle.fst_block.specs.Choices.{is_chosen};
ghost use Rattle.fst_block.specs.Reverts.{reverted, FitsIn, MeetsInOrder};

use crate::change::Change;
use crate::choice::is_last;
use crate::put::put;
use fst_chain::Chain;
use fst_types::PatchNo;

/// Puts back what is not chosen, the newest first.
pub fn revert(image: &mut [u8], patches: &mut Chain<Change>, chosen: &[PatchNo])
    requires fit { FitsIn (length image.old) (chain_list patches.old) }
    requires choice { MeetsInOrder chosen.now (chain_list patches.old) }
    ensures image { image.new ≡ reverted (is_chosen chosen.now) image.old (chain_list patches.old) }
    ensures patches { chain_list patches.new ≡ chain_list patches.old }
{
    let mut to_go = patches.len();
    let mut to_meet = chosen.len();
    let mut cursor = patches.cursor_back();
    // Where as many are to go as are chosen among them, all of them are chosen.
    while to_go > to_meet {
        let change = cursor.current().unwrap();
        if is_last(chosen, to_meet, change.no) {
            to_meet -= 1;
        } else {
            let at = change.span.at as usize;
            put(image, at, cursor.payload().unwrap());
        }
        cursor.prev();
        to_go -= 1;
    }
}
