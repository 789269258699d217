//! The search for a cycle: whether an open gate, or what depends on it, is among the patches that the gate is to depend on
//! (`starts`). All on a way down to an open gate waits for one, so that the search looks at nothing else, at each such patch
//! once, and is left out where nothing depends on the gate, no name waits for an open gate, or the ancestors of a name lead to
//! the gate: over a long chain they tell at once, where both walks would go through half of it. Mostly one end has far less
//! around it than the other: so one walk goes up from the gate, to what depends on it, and one down from the starts, and the
//! one that has looked at less takes the next step. They meet where there is a cycle; there is none where one of them comes
//! to its end and they have not met. Each steps from what it met first, which it must to come to its end, and by turns from
//! what it met last: so two that are to meet after many steps do so without all that lies about both beginnings.

ghost use Rattle.std.specs.Prelude.{◌≡◌, ◌↔◌, ◌≤◌, ◌<◌, ℕ, false, length, Contains, IsTrue, slice_index_or};
ghost use Rattle.fst_types.specs.Gates.{IsOpenNumber};
ghost use Rattle.fst_types.specs.Order.{NamesAbove};
ghost use Rattle.fst_heads.specs.declared.pending.Pending.TheVariants as pending;
ghost use Rattle.fst_walks.specs.Descending.{GoesOn, Visited, Visits};
ghost use Rattle.fst_heads.specs.Heads.{patches_of};
ghost use Rattle.fst_heads.specs.Names.{numbers_of};
ghost use Rattle.fst_heads.specs.Indices.{HasIndex};
ghost use Rattle.fst_heads.specs.Nodes.{nodes_of, pending_in};
ghost use Rattle.fst_walks.specs.Searching.{Advances, AreOver, IsBetween, IsNext, MeetBoth, StandApart, StayApart, row_on};
ghost use Rattle.fst_levels.specs.Sights.{Sees};
ghost use Rattle.fst_walks.specs.Starting.{StartsAbove};
ghost use Rattle.fst_levels.specs.Walks.{numbers_met};

use crate::ends::{Ends, meets, turn_from_end};
use crate::starts::{Starts, visit_starts};
use fst_heads::head::Head;
use fst_heads::pending::{Pending, is_pending};
use fst_heads::row::pending_at;
use fst_levels::ancestors::names_lead_to;
use fst_levels::sight::Sight;
use fst_levels::walk::Walk;
use fst_types::PatchNo;

/// Visits the patch with the number if it waits for an open gate.
pub(crate) fn visit_held(sight: &Sight<'_>, walk: &mut Walk, number: u32)
    requires sees { Sees sight.now }
    requires visited { Visited sight.now.heads.now.list.items walk.old }
    ensures visited { Visited sight.now.heads.now.list.items walk.new }
    ensures visits { Visits (λ n. (n ≡ number) × (pending_in (nodes_of sight.now.heads.now.list.items) n ≡ pending.Held)) (numbers_met sight.now.heads.now.list.items walk.old) (numbers_met sight.now.heads.now.list.items walk.new) }
{
    if let Some(index) = sight.levels.find(sight.heads, number) {
        if is_pending(sight.heads.list[index].pending, Pending::Held) {
            walk.meet(index);
        }
    }
}

/// Visits those of the row that wait for an open gate.
pub(crate) fn visit_row(sight: &Sight<'_>, walk: &mut Walk, row: &[u32])
    requires sees { Sees sight.now }
    requires visited { Visited sight.now.heads.now.list.items walk.old }
    ensures visited { Visited sight.now.heads.now.list.items walk.new }
    ensures visits { Visits (λ n. Contains row.now n × (pending_in (nodes_of sight.now.heads.now.list.items) n ≡ pending.Held)) (numbers_met sight.now.heads.now.list.items walk.old) (numbers_met sight.now.heads.now.list.items walk.new) }
{
    for number in row {
        visit_held(sight, walk, *number);
    }
}

// Which way a walk goes: up to what directly depends on a patch, or down to what it directly depends on.
#[derive(Clone, Copy)]
enum Way {
    Up,
    Down,
}

// What is next to the head that way.
fn row_of(head: &Head, way: Way) -> &[u32]
    ensures { result.now ≡ row_on way head.now }
{
    match way {
        Way::Up => head.dependants.as_slice(),
        Way::Down => head.dependencies.as_slice(),
    }
}

// How many are next to what the walk met there in turn.
fn row_len(heads: &[Head], way: Way, walk: &Walk, at: usize) -> usize
    requires walk { length walk.now.marks ≡ length heads.now }
    requires at { at < length walk.now.met }
{
    row_of(&heads[walk.index_at(at)], way).len()
}

// Visits those next to what the walk met there in turn that wait for an open gate. Answers how many it looked at.
fn step(sight: &Sight<'_>, way: Way, walk: &mut Walk, at: usize) -> usize
    requires sees { Sees sight.now }
    requires visited { Visited sight.now.heads.now.list.items walk.old }
    requires at { at < length walk.old.met }
    ensures visited { Visited sight.now.heads.now.list.items walk.new }
    ensures visits { Visits (IsNext way (patches_of sight.now.heads.now.list.items) (pending_in (nodes_of sight.now.heads.now.list.items)) (slice_index_or (numbers_met sight.now.heads.now.list.items walk.old) at 0)) (numbers_met sight.now.heads.now.list.items walk.old) (numbers_met sight.now.heads.now.list.items walk.new) }
{
    let index = walk.index_at(at);
    let row = row_of(&sight.heads.list[index], way);
    visit_row(sight, walk, row);
    row.len()
}

// A step of a walk from what it met there in turn. Answers whether it met what the other has met.
fn turn(
    sight: &Sight<'_>,
    way: Way,
    walk: &mut Walk,
    other: &Walk,
    at: usize,
    looked: &mut usize,
) -> bool
    requires sees { Sees sight.now }
    requires apart { StandApart sight.now.heads.now.list.items walk.old other.now }
    requires at { at < length walk.old.met }
    ensures visits { Visits (IsNext way (patches_of sight.now.heads.now.list.items) (pending_in (nodes_of sight.now.heads.now.list.items)) (slice_index_or (numbers_met sight.now.heads.now.list.items walk.old) at 0)) (numbers_met sight.now.heads.now.list.items walk.old) (numbers_met sight.now.heads.now.list.items walk.new) }
    ensures visited { Visited sight.now.heads.now.list.items walk.new }
    ensures met { IsTrue result → MeetBoth sight.now.heads.now.list.items walk.new other.now }
    ensures apart { result ≡ false → StandApart sight.now.heads.now.list.items walk.new other.now }
{
    let from = walk.len();
    let more = step(sight, way, walk, at);
    *looked = looked.saturating_add(more);
    meets(sight, walk, other, from).is_some()
}

// How far a walk has come: at which turn it is from its beginning, from which turn on its end was looked at, and how many patches
// it has looked at.
#[derive(Clone, Copy)]
struct Stand {
    at: usize,
    deep: usize,
    looked: usize,
}

// Up to how many a step looks at in its turn, whatever the other walk has before it.
const FEW: usize = 64;

// Whether a step from the end of a walk is taken: where it looks at few, or at no more than the walk has looked at before.
fn is_short(row: usize, looked: usize) -> bool {
    row <= FEW || row <= looked
}

// A step of a walk from what it met last and was not looked at so, unless that is to look at many. Answers whether it met what
// the other has met.
fn turn_last(sight: &Sight<'_>, way: Way, walk: &mut Walk, other: &Walk, stand: &mut Stand) -> bool
    requires sees { Sees sight.now }
    requires apart { StandApart sight.now.heads.now.list.items walk.old other.now }
    requires at { stand.old.at < length walk.old.met }
    requires deep { stand.old.deep ≤ length walk.old.met }
    ensures goes_on { GoesOn (IsNext way (patches_of sight.now.heads.now.list.items) (pending_in (nodes_of sight.now.heads.now.list.items))) (numbers_met sight.now.heads.now.list.items walk.old) (numbers_met sight.now.heads.now.list.items walk.new) }
    ensures visited { Visited sight.now.heads.now.list.items walk.new }
    ensures met { IsTrue result → MeetBoth sight.now.heads.now.list.items walk.new other.now }
    ensures apart { result ≡ false → StandApart sight.now.heads.now.list.items walk.new other.now }
    ensures at { stand.new.at ≡ stand.old.at }
    ensures deep { stand.new.deep ≤ length walk.new.met }
{
    let before = walk.len();
    let last = turn_from_end(stand.deep, stand.at, before);
    stand.deep = last;
    if !is_short(row_len(&sight.heads.list, way, walk, last), stand.looked) {
        return false;
    }
    let met = turn(sight, way, walk, other, last, &mut stand.looked);
    let now = walk.len();
    if before < now {
        stand.deep = now;
    }
    met
}

// A step of a walk from what it met first and was not looked at so, and one from what it met last. Answers whether it met what
// the other has met.
fn advance(sight: &Sight<'_>, way: Way, walk: &mut Walk, other: &Walk, stand: &mut Stand) -> bool
    requires sees { Sees sight.now }
    requires apart { StandApart sight.now.heads.now.list.items walk.old other.now }
    requires at { stand.old.at < length walk.old.met }
    requires deep { stand.old.deep ≤ length walk.old.met }
    ensures advances { Advances (IsNext way (patches_of sight.now.heads.now.list.items) (pending_in (nodes_of sight.now.heads.now.list.items))) stand.old.at (numbers_met sight.now.heads.now.list.items walk.old) (numbers_met sight.now.heads.now.list.items walk.new) }
    ensures visited { Visited sight.now.heads.now.list.items walk.new }
    ensures met { IsTrue result → MeetBoth sight.now.heads.now.list.items walk.new other.now }
    ensures apart { result ≡ false → StandApart sight.now.heads.now.list.items walk.new other.now }
    ensures at { stand.new.at ≡ stand.old.at }
    ensures deep { stand.new.deep ≤ length walk.new.met }
{
    if turn(sight, way, walk, other, stand.at, &mut stand.looked) {
        return true;
    }
    turn_last(sight, way, walk, other, stand)
}

// Whether the next step is one up: it is the turn of the walk that has looked at less, but where that is to look at many, of the
// one that will have looked at less.
fn goes_up(heads: &[Head], ends: &Ends, up: Stand, down: Stand) -> bool
    requires over { AreOver heads.now ends.now }
    requires up { up.at < length ends.now.up.walk.met }
    requires down { down.at < length ends.now.down.walk.met }
{
    let is_turn = up.looked <= down.looked;
    let row = if is_turn {
        row_len(heads, Way::Up, &ends.up.walk, up.at)
    } else {
        row_len(heads, Way::Down, &ends.down.walk, down.at)
    };
    if row <= FEW {
        return is_turn;
    }
    let above = row_len(heads, Way::Up, &ends.up.walk, up.at);
    let below = row_len(heads, Way::Down, &ends.down.walk, down.at);
    up.looked.saturating_add(above) <= down.looked.saturating_add(below)
}

// Takes steps up and down, until one walk has met what the other has, or one is at its end. Answers whether they met. They
// take turns so that neither goes far where the other has little before it, and none begins with the thousands that come after
// a gate.
fn walks_meet(sight: &Sight<'_>, ends: &mut Ends) -> bool
    requires sees { Sees sight.now }
    requires up { Visited sight.now.heads.now.list.items ends.old.up.walk }
    requires down { Visited sight.now.heads.now.list.items ends.old.down.walk }
    ensures meet { IsTrue result → ((n : ℕ) × IsBetween (patches_of sight.now.heads.now.list.items) (pending_in (nodes_of sight.now.heads.now.list.items)) (numbers_met sight.now.heads.now.list.items ends.old.up.walk) (numbers_met sight.now.heads.now.list.items ends.old.down.walk) n) }
    ensures apart { result ≡ false → StayApart (patches_of sight.now.heads.now.list.items) (pending_in (nodes_of sight.now.heads.now.list.items)) (numbers_met sight.now.heads.now.list.items ends.old.up.walk) (numbers_met sight.now.heads.now.list.items ends.old.down.walk) (numbers_met sight.now.heads.now.list.items ends.new.up.walk) (numbers_met sight.now.heads.now.list.items ends.new.down.walk) }
    ensures over { AreOver sight.now.heads.now.list.items ends.new }
    ensures crossed { (ends.new.up.crossed ≡ ends.old.up.crossed) × (ends.new.down.crossed ≡ ends.old.down.crossed) }
{
    if meets(sight, &ends.up.walk, &ends.down.walk, 0).is_some() {
        return true;
    }
    let mut up = Stand {
        at: 0,
        deep: 0,
        looked: 0,
    };
    let mut down = up;
    while up.at < ends.up.walk.len() && down.at < ends.down.walk.len() {
        if goes_up(&sight.heads.list, ends, up, down) {
            let walk = &mut ends.up.walk;
            if advance(sight, Way::Up, walk, &ends.down.walk, &mut up) {
                return true;
            }
            up.at += 1;
        } else {
            let walk = &mut ends.down.walk;
            if advance(sight, Way::Down, walk, &ends.up.walk, &mut down) {
                return true;
            }
            down.at += 1;
        }
    }
    false
}

/// Whether one of the starts is the open gate or depends on it. What was met before does not matter.
pub(crate) fn starts_close(
    sight: &Sight<'_>,
    ends: &mut Ends,
    gate: u32,
    starts: Starts<'_>,
) -> bool
    requires sees { Sees sight.now }
    requires over { AreOver sight.now.heads.now.list.items ends.old }
    requires is_open { IsOpenNumber (patches_of sight.now.heads.now.list.items) gate }
    ensures close { IsTrue result ↔ StartsAbove (patches_of sight.now.heads.now.list.items) gate starts.entry }
    ensures over { AreOver sight.now.heads.now.list.items ends.new }
    ensures crossed { (ends.new.up.crossed ≡ ends.old.up.crossed) × (ends.new.down.crossed ≡ ends.old.down.crossed) }
{
    ends.up.walk.clear();
    visit_held(sight, &mut ends.up.walk, gate);
    ends.down.walk.clear();
    visit_starts(sight, &mut ends.down.walk, starts);
    walks_meet(sight, ends)
}

// Whether one of the names is the gate.
fn is_named(names: &[PatchNo], gate: u32) -> bool
    ensures { IsTrue result ↔ Contains (numbers_of names.now) gate }
{
    for name in names {
        if name.0 == gate {
            return true;
        }
    }
    false
}

// Whether one of the names waits for an open gate.
fn names_held(sight: &Sight<'_>, names: &[PatchNo]) -> bool
    requires { Sees sight.now }
    ensures { IsTrue result ↔ ((n : ℕ) × Contains (numbers_of names.now) n × (pending_in (nodes_of sight.now.heads.now.list.items) n ≡ pending.Held)) }
{
    for name in names {
        if is_pending(pending_at(sight.heads, name.0), Pending::Held) {
            return true;
        }
    }
    false
}

/// Whether one of the names is the open gate at the index or depends on it. What was met before does not matter.
pub fn closes_cycle(
    sight: &Sight<'_>,
    ends: &mut Ends,
    index: usize,
    gate: u32,
    names: &[PatchNo],
) -> bool
    requires sees { Sees sight.now }
    requires over { AreOver sight.now.heads.now.list.items ends.old }
    requires index { HasIndex sight.now.heads.now.list.items gate index }
    requires is_open { IsOpenNumber (patches_of sight.now.heads.now.list.items) gate }
    ensures closes { IsTrue result ↔ NamesAbove (patches_of sight.now.heads.now.list.items) gate (numbers_of names.now) }
    ensures over { AreOver sight.now.heads.now.list.items ends.new }
    ensures crossed { (ends.new.up.crossed ≡ ends.old.up.crossed) × (ends.new.down.crossed ≡ ends.old.down.crossed) }
{
    if sight.heads.list[index].dependants.as_slice().is_empty() {
        return is_named(names, gate);
    }
    if !names_held(sight, names) {
        return false;
    }
    if names_lead_to(sight, gate, names) {
        return true;
    }
    starts_close(sight, ends, gate, Starts::Names(names))
}
