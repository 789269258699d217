//! A launch: the ready changes of a block are in flight from then on, and what is pending of all that waits for them is
//! behind a flight. Dependants are notified of that, as a cascade notifies them of what sinks; here what is pending of a
//! patch rises, and once at most.

ghost use Rattle.std.specs.Prelude.{◌≡◌, ◌≤◌, ◌==◌, ◌∷◌, ℕ, [], length, map, vec_capacity, if◌then◌else◌};
ghost use Rattle.fst_types.specs.Facts.{SparseAreLawful};
ghost use Rattle.fst_types.specs.Writing.{launched};
ghost use Rattle.fst_heads.specs.Frames.{frames_of};
ghost use Rattle.fst_heads.specs.Heads.{patches_of};
ghost use Rattle.fst_heads.specs.Keeps.{IsInside};
ghost use Rattle.fst_heads.specs.Names.{numbers_of};
ghost use Rattle.fst_heads.specs.Nodes.{nodes_of, pending_in, AreLinked, AreDistinct, AreSettled};
ghost use Rattle.fst_heads.specs.Pendings.{Rises};
ghost use Rattle.fst_heads.specs.Spreading.{launches, IsRisenOf, Spreading};
ghost use Rattle.fst_heads.specs.Standings.{ready_on, held_on};

use crate::cascade::notify;
use crate::heads::Heads;
use crate::pending::Pending;
use fst_types::{PatchNo, Place};

// The patch with the number is in flight.
fn launch_at(heads: &mut Heads, number: u32)
    ensures nodes { nodes_of heads.new.list.items ≡ map (launches (number ∷ [])) (nodes_of heads.old.list.items) }
    ensures frames { frames_of heads.new.list.items ≡ frames_of heads.old.list.items }
    ensures places { vec_capacity heads.new.list ≡ vec_capacity heads.old.list }
{
    if let Some(index) = heads.index_of(number) {
        heads.list[index].place = Place::Flight;
    }
}

// The chosen are in flight, and wait in the queue.
fn launch_all(heads: &mut Heads, queue: &mut Vec<u32>, chosen: &[PatchNo])
    requires idle { queue.old.items ≡ [] }
    requires room { length chosen.now ≤ vec_capacity queue.old }
    ensures nodes { nodes_of heads.new.list.items ≡ map (launches (numbers_of chosen.now)) (nodes_of heads.old.list.items) }
    ensures queued { queue.new.items ≡ numbers_of chosen.now }
    ensures frames { frames_of heads.new.list.items ≡ frames_of heads.old.list.items }
    ensures places { vec_capacity heads.new.list ≡ vec_capacity heads.old.list }
    ensures capacity { vec_capacity queue.new ≡ vec_capacity queue.old }
{
    for no in chosen {
        launch_at(heads, no.0);
        queue.push_reserved(no.0);
    }
}

// What is in the queue is behind a flight of the block, of which its dependants are notified, and theirs by that.
fn rise(heads: &mut Heads, queue: &mut Vec<u32>, block: u32)
    requires start { (blocks : ℕ) × (blocks ≤ 65535) × Spreading (Rises block) (nodes_of heads.old.list.items) blocks queue.old.items }
    requires linked { AreLinked (nodes_of heads.old.list.items) }
    requires distinct { AreDistinct (nodes_of heads.old.list.items) }
    requires room { length heads.old.list.items ≤ vec_capacity queue.old }
    ensures notified { (blocks : ℕ) × Spreading (Rises block) (nodes_of heads.new.list.items) blocks [] }
    ensures spread { IsRisenOf (nodes_of heads.old.list.items) (nodes_of heads.new.list.items) }
    ensures rises { (n : ℕ) → Rises block (pending_in (nodes_of heads.old.list.items) n) (pending_in (nodes_of heads.new.list.items) n) }
    ensures frames { frames_of heads.new.list.items ≡ frames_of heads.old.list.items }
    ensures places { vec_capacity heads.new.list ≡ vec_capacity heads.old.list }
    ensures empty { queue.new.items ≡ [] }
    ensures capacity { vec_capacity queue.new ≡ vec_capacity queue.old }
{
    while let Some(number) = queue.pop() {
        if let Some(index) = heads.index_of(number) {
            let own = block as u16;
            heads.list[index].pending = Pending::Behind(own);
            notify(
                heads,
                queue,
                index,
                Pending::Block(own),
                Pending::Behind(own),
            );
        }
    }
}

/// Puts the ready changes of the block in flight, which are the chosen. What waits for them, and for changes of the block
/// alone, waits for a flight from then on.
pub fn launch(heads: &mut Heads, queue: &mut Vec<u32>, chosen: &[PatchNo], block: u32)
    requires lawful { (numbers : ℕ) × SparseAreLawful (patches_of heads.old.list.items) numbers }
    requires settled { (blocks : ℕ) × (blocks ≤ 65535) × IsInside (patches_of heads.old.list.items) blocks × AreSettled (nodes_of heads.old.list.items) blocks }
    requires linked { AreLinked (nodes_of heads.old.list.items) }
    requires distinct { AreDistinct (nodes_of heads.old.list.items) }
    requires chosen { numbers_of chosen.now ≡ ready_on block (nodes_of heads.old.list.items) }
    requires room { (queue.old.items ≡ []) × (length heads.old.list.items ≤ vec_capacity queue.old) }
    ensures settled { (blocks : ℕ) → AreSettled (nodes_of heads.old.list.items) blocks → AreSettled (nodes_of heads.new.list.items) blocks }
    ensures launched { patches_of heads.new.list.items ≡ map (launched (numbers_of chosen.now)) (patches_of heads.old.list.items) }
    ensures spread { IsRisenOf (map (launches (numbers_of chosen.now)) (nodes_of heads.old.list.items)) (nodes_of heads.new.list.items) }
    ensures ready { (b : ℕ) → ready_on b (nodes_of heads.new.list.items) ≡ if b == block then [] else ready_on b (nodes_of heads.old.list.items) }
    ensures held { (b : ℕ) → held_on b (nodes_of heads.new.list.items) ≡ held_on b (nodes_of heads.old.list.items) }
    ensures frames { frames_of heads.new.list.items ≡ frames_of heads.old.list.items }
    ensures places { vec_capacity heads.new.list ≡ vec_capacity heads.old.list }
    ensures empty { queue.new.items ≡ [] }
    ensures capacity { vec_capacity queue.new ≡ vec_capacity queue.old }
{
    launch_all(heads, queue, chosen);
    rise(heads, queue, block);
}
