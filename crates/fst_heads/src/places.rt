//! How patches go from place to place.

ghost use Rattle.std.specs.Prelude.{◌≡◌, filter, count_by, Contains, if◌then◌else◌};
ghost use Rattle.std.specs.List.{prefix_len};
ghost use Rattle.fst_types.specs.declared.place.Place.TheVariants as place;
ghost use Rattle.fst_types.specs.Patches.{Patch, block_of_kind};
ghost use Rattle.fst_types.specs.Tests.{is_at, is_on, is_change_at, is_live};
ghost use Rattle.fst_heads.specs.Heads.{kind_of, patch_of, patches_of};
ghost use Rattle.fst_heads.specs.Spans.{SpansDisk};
ghost use Rattle.fst_heads.specs.Nodes.{nodes_of};

use crate::head::{Head, Kind};
use crate::heads::Heads;
use crate::test::is_live;
use fst_types::Place;

fn is_at(place: Place, at: Place) -> bool
    ensures { result ≡ is_at place at }
{
    match place {
        Place::Memory => match at {
            Place::Memory => true,
            Place::Flight | Place::Disk => false,
        },
        Place::Flight => match at {
            Place::Flight => true,
            Place::Memory | Place::Disk => false,
        },
        Place::Disk => match at {
            Place::Disk => true,
            Place::Memory | Place::Flight => false,
        },
    }
}

fn is_on(kind: Kind, block: u32) -> bool
    ensures { result ≡ is_on block (kind_of kind) }
{
    match kind {
        Kind::Change(_, on, _) => u32::from(on) == block,
        Kind::Empty | Kind::OpenGate | Kind::SealedGate => false,
    }
}

/// Whether the patch is a change of the block at the place.
pub fn is_change_at(head: &Head, at: Place, block: u32) -> bool
    ensures { result ≡ is_change_at at block (patch_of head.now) }
{
    is_at(head.place, at) && is_on(head.kind, block)
}

/// The block of the patch with the number, if it is a change.
pub fn block_of(heads: &Heads, number: u32) -> Option<u32>
    ensures { (p : Patch) → Contains (patches_of heads.now.list.items) p → p.number ≡ number → result ≡ block_of_kind p.kind }
{
    let index = heads.index_of(number)?;
    match heads.list[index].kind {
        Kind::Change(_, block, _) => Some(u32::from(block)),
        Kind::Empty | Kind::OpenGate | Kind::SealedGate => None,
    }
}

/// Whether the patch stays where those on disk are forgotten.
pub fn is_kept(head: &Head) -> bool
    ensures { result ≡ is_live (patch_of head.now) }
{
    is_live(head.place)
}

/// The index of the first patch on disk, so many not being there, and the end where none is. It is looked for from both ends
/// by turns, since what landed of late mostly is the oldest or the newest.
pub fn first_on_disk(heads: &[Head], live: usize) -> usize
    requires { live ≡ count_by is_live (patches_of heads.now) }
    ensures { result ≡ prefix_len is_live (patches_of heads.now) }
{
    let mut low = 0;
    let mut high = heads.len();
    let mut live_below = live;
    while live_below < high {
        if !is_kept(&heads[low]) {
            return low;
        }
        low += 1;
        high -= 1;
        if is_kept(&heads[high]) {
            live_below -= 1;
        }
    }
    high
}

/// The index behind the last patch on disk, so many not being there; `first` is the index of the first. A file system writes
/// its oldest patches first, so that those on disk mostly lie together: from the first on they are met until there are no more.
/// By turns with that the last is looked for from the end back, where the newest may be on disk too.
pub fn end_on_disk(heads: &[Head], first: usize, live: usize) -> usize
    requires first { first ≡ prefix_len is_live (patches_of heads.now) }
    requires live { live ≡ count_by is_live (patches_of heads.now) }
    ensures { SpansDisk (patches_of heads.now) first result }
{
    let mut index = first;
    let mut end = heads.len();
    let mut left = heads.len() - live;
    while 0 < left {
        if !is_kept(&heads[end - 1]) {
            return end;
        }
        end -= 1;
        if !is_kept(&heads[index]) {
            left -= 1;
        }
        index += 1;
    }
    index
}

// The heads on disk are dropped, which stand from `first` up to `end`. There a live head changes places with one that is
// dropped, since it owns its rows; those behind move in one piece, and are not looked at.
fn swap_on_disk(heads: &mut Vec<Head>, first: usize, end: usize)
    requires { SpansDisk (patches_of heads.old.items) first end }
    ensures { heads.new.items ≡ filter (λ h. is_live (patch_of h)) heads.old.items }
{
    let mut kept = first;
    for index in first..end {
        if is_kept(&heads[index]) {
            heads.swap(kept, index);
            kept += 1;
        }
    }
    heads.drain(kept..end);
}

// Drops the heads on disk, which stand from `first` up to `end`. Those before and behind are looked at only where they are
// fewer: what looks at all moves a head in half the time.
fn leave_live(heads: &mut Vec<Head>, first: usize, end: usize)
    requires { SpansDisk (patches_of heads.old.items) first end }
    ensures { heads.new.items ≡ filter (λ h. is_live (patch_of h)) heads.old.items }
{
    if heads.len() / 2 < end - first {
        heads.retain(|head| is_kept(head));
        return;
    }
    swap_on_disk(heads, first, end);
}

/// Drops the patches on disk, which stand from `first` up to `end`.
pub fn drop_on_disk(heads: &mut Heads, first: usize, end: usize)
    requires { SpansDisk (patches_of heads.old.list.items) first end }
    ensures { nodes_of heads.new.list.items ≡ filter (λ x. is_live x.patch) (nodes_of heads.old.list.items) }
{
    leave_live(&mut heads.list, first, end);
    heads.directory.follow(&heads.list);
}

/// One for a patch that is not on disk.
pub fn weight(at: Place) -> usize
    ensures { result ≡ if is_at at place.Disk then 0 else 1 }
{
    match at {
        Place::Memory | Place::Flight => 1,
        Place::Disk => 0,
    }
}
