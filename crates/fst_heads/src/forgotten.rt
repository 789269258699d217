//! The mark of a head whose patch is forgotten.

ghost use Rattle.std.specs.Prelude.{◌≡◌, ◌∷◌, [], map, vec_capacity};
ghost use Rattle.fst_heads.specs.Landed.{flags};
ghost use Rattle.fst_heads.specs.Indices.{HasIndex};
ghost use Rattle.fst_heads.specs.Nodes.{nodes_of};

use crate::heads::Heads;

/// The patch with the number, whose head is at the index, is forgotten.
pub fn flag_at(heads: &mut Heads, number: u32, index: usize)
    requires index { HasIndex heads.old.list.items number index }
    ensures nodes { nodes_of heads.new.list.items ≡ map (flags (number ∷ [])) (nodes_of heads.old.list.items) }
    ensures places { vec_capacity heads.new.list ≡ vec_capacity heads.old.list }
{
    heads.list[index].forgotten = true;
}
