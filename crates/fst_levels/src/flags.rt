//! Patches are forgotten whose heads are kept.

ghost use Rattle.std.specs.Prelude.{◌≡◌, map, vec_capacity};
ghost use Rattle.fst_heads.specs.Heads.{patches_of};
ghost use Rattle.fst_heads.specs.Landed.{flags};
ghost use Rattle.fst_heads.specs.Nodes.{nodes_of};

use crate::levels::Levels;
use fst_heads::forgotten::flag_at;
use fst_heads::heads::Heads;

/// The patches with the numbers are forgotten. It takes as long as they are many.
pub fn flag_all(levels: &Levels, heads: &mut Heads, numbers: &[u32])
    requires aligned { map (λ r. r.number) levels.now.ranks ≡ map (λ p. p.number) (patches_of heads.old.list.items) }
    ensures nodes { nodes_of heads.new.list.items ≡ map (flags numbers.now) (nodes_of heads.old.list.items) }
    ensures places { vec_capacity heads.new.list ≡ vec_capacity heads.old.list }
{
    for number in numbers {
        if let Some(index) = levels.find(heads, *number) {
            flag_at(heads, *number, index);
        }
    }
}
