//! Where something else is pending of a patch, its dependants are notified: what a seal or a landing sets free is found so,
//! and an empty patch or a sealed gate that has nothing pending any more goes to disk. The queue has those of which
//! other is pending than is recorded, of which their dependants were notified. Here what is pending of a patch only sinks.

ghost use Rattle.std.specs.Prelude.{◌≡◌, ◌≢◌, ◌<◌, ◌≤◌, ◌+◌, ◌++◌, ◌∷◌, ◌==◌, [], true, ℕ, length, map, Contains, AllPairs, vec_len, vec_capacity, slice_index_or, count_by, if◌then◌else◌};
ghost use Rattle.fst_types.specs.Cascade.{IsCascadeOf};
ghost use Rattle.fst_types.specs.Patches.{Change};
ghost use Rattle.fst_types.specs.declared.grade.Grade.{Grade};
ghost use Rattle.fst_heads.specs.declared.pending.Pending.TheVariants as pending;
ghost use Rattle.fst_heads.specs.Frames.{frame_of, frames_of};
ghost use Rattle.fst_heads.specs.Heads.{kind_of, patches_of};
ghost use Rattle.fst_heads.specs.Landed.{AreLanded};
ghost use Rattle.fst_heads.specs.Indices.{HasIndex};
ghost use Rattle.fst_heads.specs.Nodes.{Node, node_of, nodes_of, at_number, AreLinked, AreDistinct, AreSettled};
ghost use Rattle.fst_heads.specs.Pendings.{Fits, Sinks, is_pending};
ghost use Rattle.fst_heads.specs.Spreading.{follows, rested, is_recorded, recorded, now, updated, enqueues, notified, enqueued, is_waiting, CanUpdate, IsStale, seals, enqueued_sealed, Spreading, IsSpreadOf};
ghost use Rattle.fst_heads.specs.Standings.{AllStand};

use crate::head::{Head, Kind};
use crate::heads::Heads;
use crate::pending::{Pending, is_pending, of_change};
use crate::standings::Standings;
use fst_types::Place;

// Whether it is on disk as soon as all that it depends on is.
fn follows(kind: Kind) -> bool
    ensures { result ≡ follows (kind_of kind) }
{
    match kind {
        Kind::Empty | Kind::SealedGate => true,
        Kind::Change(_, _, _) | Kind::OpenGate => false,
    }
}

/// What is pending of the patch, by its sums.
pub(crate) fn pending_now(head: &Head) -> Pending
    requires { Fits head.now.sums }
    ensures { result ≡ now (node_of head.now) }
{
    match head.kind {
        Kind::Change(_, block, _) => of_change(block, head.place, head.sums.joined()),
        Kind::OpenGate => Pending::Held,
        Kind::Empty | Kind::SealedGate => head.sums.joined(),
    }
}

// Whether that is what is recorded of it, of which its dependants were notified.
fn is_recorded(head: &Head) -> bool
    requires { Fits head.now.sums }
    ensures { result ≡ is_recorded (node_of head.now) }
{
    is_pending(pending_now(head), head.pending)
}

// An empty patch or a sealed gate is on disk where all of its direct dependencies are.
fn rest(head: &mut Head)
    ensures node { node_of head.new ≡ rested (node_of head.old) }
    ensures frame { frame_of head.new ≡ frame_of head.old }
{
    if follows(head.kind) && head.sums.count == 0 {
        head.place = Place::Disk;
    }
}

// One of its direct dependencies has something else pending. Answers whether that enqueues it, since its own dependants have to
// be notified now.
fn update(head: &mut Head, old: Pending, new: Pending) -> bool
    requires summed { CanUpdate old (node_of head.old) }
    requires live { old ≢ pending.Nothing }
    ensures node { node_of head.new ≡ updated old new (node_of head.old) }
    ensures enqueues { result ≡ enqueues old new (node_of head.old) }
    ensures frame { frame_of head.new ≡ frame_of head.old }
{
    let was_recorded = is_recorded(head);
    head.sums.change(old, new);
    rest(head);
    was_recorded && !is_recorded(head)
}

// The head with this number is updated, and enqueued where its dependants have to be notified.
fn update_at(heads: &mut Heads, queue: &mut Vec<u32>, number: u32, old: Pending, new: Pending)
    requires summed { (x : Node) → Contains (nodes_of heads.old.list.items) x → x.patch.number ≡ number → CanUpdate old x }
    requires live { old ≢ pending.Nothing }
    requires room { (x : Node) → Contains (nodes_of heads.old.list.items) x → x.patch.number ≡ number → enqueues old new x ≡ true → vec_len queue.old < vec_capacity queue.old }
    ensures nodes { nodes_of heads.new.list.items ≡ map (at_number number (updated old new)) (nodes_of heads.old.list.items) }
    ensures queued { queue.new.items ≡ queue.old.items ++ enqueued (number ∷ []) old new (nodes_of heads.old.list.items) }
    ensures frames { frames_of heads.new.list.items ≡ frames_of heads.old.list.items }
    ensures places { vec_capacity heads.new.list ≡ vec_capacity heads.old.list }
    ensures capacity { vec_capacity queue.new ≡ vec_capacity queue.old }
{
    if let Some(index) = heads.index_of(number) {
        if update(&mut heads.list[index], old, new) {
            queue.push_reserved(number);
        }
    }
}

// All that directly depend on the head at the index are updated.
pub(crate) fn notify(
    heads: &mut Heads,
    queue: &mut Vec<u32>,
    index: usize,
    old: Pending,
    new: Pending,
)
    requires index { index < vec_len heads.old.list }
    requires once { (d : Node) → AllPairs (λ m n. m ≢ n) (slice_index_or (nodes_of heads.old.list.items) index d).dependants }
    requires summed { (x d : Node) → Contains (nodes_of heads.old.list.items) x → Contains (slice_index_or (nodes_of heads.old.list.items) index d).dependants x.patch.number → CanUpdate old x }
    requires live { old ≢ pending.Nothing }
    requires room { (d : Node) → length queue.old.items + length (enqueued (slice_index_or (nodes_of heads.old.list.items) index d).dependants old new (nodes_of heads.old.list.items)) ≤ vec_capacity queue.old }
    ensures nodes { (d : Node) → nodes_of heads.new.list.items ≡ map (notified (slice_index_or (nodes_of heads.old.list.items) index d).dependants old new) (nodes_of heads.old.list.items) }
    ensures frames { frames_of heads.new.list.items ≡ frames_of heads.old.list.items }
    ensures places { vec_capacity heads.new.list ≡ vec_capacity heads.old.list }
    ensures queued { (d : Node) → queue.new.items ≡ queue.old.items ++ enqueued (slice_index_or (nodes_of heads.old.list.items) index d).dependants old new (nodes_of heads.old.list.items) }
    ensures capacity { vec_capacity queue.new ≡ vec_capacity queue.old }
{
    let mut at = 0;
    while at < heads.list[index].dependants.len() {
        let number = heads.list[index].dependants.as_slice()[at];
        update_at(heads, queue, number, old, new);
        at += 1;
    }
}

// Records what is pending of the head at the index, of which its dependants have to be notified. Answers what was recorded
// and what is now. A change in memory that now waits for changes of its block in memory alone is ready.
fn record_at(heads: &mut Heads, standings: &mut Standings, index: usize) -> (Pending, Pending)
    requires index { index < vec_len heads.old.list }
    requires stale { (d : Node) → IsStale (slice_index_or (nodes_of heads.old.list.items) index d) }
    requires inside { (x : Node) (b at len : ℕ) (grade : Grade) → Contains (nodes_of heads.old.list.items) x → x.patch.kind ≡ Change b at len grade → b < length standings.old }
    requires standing { AllStand (nodes_of heads.old.list.items) (length standings.old) standings.old }
    ensures old { (d : Node) → result.0 ≡ (slice_index_or (nodes_of heads.old.list.items) index d).pending }
    ensures new { (d : Node) → result.1 ≡ now (slice_index_or (nodes_of heads.old.list.items) index d) }
    ensures nodes { (d : Node) → nodes_of heads.new.list.items ≡ map (at_number (slice_index_or (nodes_of heads.old.list.items) index d).patch.number recorded) (nodes_of heads.old.list.items) }
    ensures standing { AllStand (nodes_of heads.new.list.items) (length standings.old) standings.new }
    ensures frames { frames_of heads.new.list.items ≡ frames_of heads.old.list.items }
    ensures places { vec_capacity heads.new.list ≡ vec_capacity heads.old.list }
    ensures len { vec_len heads.new.list ≡ vec_len heads.old.list }
{
    let head = &mut heads.list[index];
    let old = head.pending;
    let new = pending_now(head);
    if let Kind::Change(_, block, _) = head.kind {
        if let Place::Memory = head.place {
            if is_pending(new, Pending::Block(block)) {
                standings.release(u32::from(block), head.kind, head.number);
            }
        }
    }
    head.pending = new;
    (old, new)
}

// Where nothing is pending any more of the patch with the number it is on disk, and so among those that landed.
fn note_landing(landed: &mut Vec<u32>, number: u32, left: Pending)
    requires { left ≡ pending.Nothing → vec_len landed.old < vec_capacity landed.old }
    ensures listed { landed.new.items ≡ landed.old.items ++ (if is_pending left pending.Nothing then number ∷ [] else []) }
    ensures shelf { vec_capacity landed.new ≡ vec_capacity landed.old }
{
    match left {
        Pending::Nothing => landed.push_reserved(number),
        Pending::Block(_) | Pending::Behind(_) | Pending::Apart | Pending::Held => {}
    }
}

/// Notifies the dependants of all that is in the queue, and of what is enqueued by that. What comes to disk so is among
/// those that landed besides, of which there is a place for each head. Answers how many they are.
pub fn cascade(
    heads: &mut Heads,
    queue: &mut Vec<u32>,
    standings: &mut Standings,
    landed: &mut Vec<u32>,
) -> usize
    requires start { Spreading Sinks (nodes_of heads.old.list.items) (length standings.old) queue.old.items }
    requires linked { AreLinked (nodes_of heads.old.list.items) }
    requires distinct { AreDistinct (nodes_of heads.old.list.items) }
    requires standing { AllStand (nodes_of heads.old.list.items) (length standings.old) standings.old }
    requires room { (length standings.old ≤ 65535) × (length heads.old.list.items ≤ vec_capacity queue.old) × (length heads.old.list.items ≤ vec_capacity landed.old) }
    requires listed { AreLanded (nodes_of heads.old.list.items) landed.old.items }
    ensures settled { AreSettled (nodes_of heads.new.list.items) (length standings.old) }
    ensures placed { IsCascadeOf (patches_of heads.old.list.items) (patches_of heads.new.list.items) }
    ensures spread { IsSpreadOf (nodes_of heads.old.list.items) (nodes_of heads.new.list.items) }
    ensures standing { AllStand (nodes_of heads.new.list.items) (length standings.old) standings.new }
    ensures frames { frames_of heads.new.list.items ≡ frames_of heads.old.list.items }
    ensures places { vec_capacity heads.new.list ≡ vec_capacity heads.old.list }
    ensures landed { count_by is_waiting (nodes_of heads.new.list.items) + result ≡ count_by is_waiting (nodes_of heads.old.list.items) }
    ensures empty { queue.new.items ≡ [] }
    ensures capacity { vec_capacity queue.new ≡ vec_capacity queue.old }
    ensures listed { AreLanded (nodes_of heads.new.list.items) landed.new.items }
    ensures shelf { vec_capacity landed.new ≡ vec_capacity landed.old }
{
    let before = landed.len();
    while let Some(number) = queue.pop() {
        if let Some(index) = heads.index_of(number) {
            let (old, new) = record_at(heads, standings, index);
            note_landing(landed, number, new);
            notify(heads, queue, index, old, new);
        }
    }
    landed.len() - before
}

/// Seals the gate at the index. It is enqueued where its dependants have to be notified.
pub fn seal_at(heads: &mut Heads, queue: &mut Vec<u32>, gate: u32, index: usize)
    requires index { HasIndex heads.old.list.items gate index }
    requires fits { (x : Node) → Contains (nodes_of heads.old.list.items) x → Fits x.sums }
    requires room { vec_len queue.old < vec_capacity queue.old }
    ensures nodes { nodes_of heads.new.list.items ≡ map (at_number gate seals) (nodes_of heads.old.list.items) }
    ensures queued { queue.new.items ≡ queue.old.items ++ enqueued_sealed gate (nodes_of heads.old.list.items) }
    ensures frames { frames_of heads.new.list.items ≡ frames_of heads.old.list.items }
    ensures places { vec_capacity heads.new.list ≡ vec_capacity heads.old.list }
    ensures capacity { vec_capacity queue.new ≡ vec_capacity queue.old }
{
    let head = &mut heads.list[index];
    head.kind = Kind::SealedGate;
    rest(head);
    if !is_recorded(head) {
        queue.push_reserved(gate);
    }
}
