//! Groups: changes that reach the disk together before those of another group.
//!
//! A group is for changes of which none has to come before another, as the blocks of a journal record. Of a group that was
//! put after it nothing is written before all of it is on disk, or goes in the same write.

use crate::fault::StoreFault;
use crate::guide::zero_cache;
use fst_cache::{Cache, Share};
use fst_device::MemorySlot;
use fst_types::{BlockNo, Fault, PatchNo, Place};
use journal_calls::{two_groups, write_next};
use std::alloc::Global;
use std::io;
use std::io::Write;

// The journal has the last blocks: whoever wrote the blocks in order would write the homes first.
const FIRST_HOME: BlockNo = BlockNo(0);

const SECOND_HOME: BlockNo = BlockNo(1);

const JOURNAL: BlockNo = BlockNo(2);

const JOURNAL_END: BlockNo = BlockNo(3);

// The directory that the file leaves, the one that it comes into, and the file's node.
const OLD_DIRECTORY: BlockNo = BlockNo(0);

const NEW_DIRECTORY: BlockNo = BlockNo(1);

const NODE: BlockNo = BlockNo(2);

/// A transaction: both blocks of its journal record are on disk before either home block is written. The answer is the
/// gate behind all of it.
fn transaction(cache: &mut Cache<MemorySlot>, share: &mut Share) -> Result<PatchNo, Fault> {
    let pair = two_groups(cache, share)?;
    cache.group_patch(share, pair.first, JOURNAL, 0, b"ab")?;
    cache.group_patch(share, pair.first, JOURNAL_END, 0, b"cd")?;
    cache.group_close(pair.first)?;
    cache.group_patch(share, pair.second, FIRST_HOME, 0, b"ab")?;
    cache.group_patch(share, pair.second, SECOND_HOME, 0, b"cd")?;
    cache.group_close(pair.second)?;
    Ok(pair.tail)
}

/// A rename into another directory: the new name, and what the node says of it, are on disk before the old name goes.
fn rename(cache: &mut Cache<MemorySlot>, share: &mut Share) -> Result<PatchNo, Fault> {
    let pair = two_groups(cache, share)?;
    cache.group_patch(share, pair.first, NEW_DIRECTORY, 0, b"name")?;
    cache.group_patch(share, pair.first, NODE, 0, b"moved")?;
    cache.group_close(pair.first)?;
    cache.group_patch(share, pair.second, OLD_DIRECTORY, 0, &[0; 4])?;
    cache.group_close(pair.second)?;
    Ok(pair.tail)
}

/// What is refused of groups: each after the other, one after another once it has a change, and a change of one that is
/// closed.
fn refusals(cache: &mut Cache<MemorySlot>, share: &mut Share) -> Result<[Option<Fault>; 3], Fault> {
    let pair = two_groups(cache, share)?;
    let cycle = cache.group_after(pair.first, pair.second).err();
    cache.group_patch(share, pair.first, JOURNAL, 0, b"ef")?;
    let third = cache.group_new(share)?;
    let late = cache.group_after(pair.first, third).err();
    cache.group_close(pair.first)?;
    let closed = cache
        .group_patch(share, pair.first, JOURNAL_END, 0, b"gh")
        .err();
    Ok([cycle, late, closed])
}

/// Tells how a call was refused.
fn tell<W: Write>(out: &mut W, what: &str, refused: Option<Fault>) -> io::Result<()> {
    if let Some(fault) = refused {
        writeln!(out, "{what}: {fault}")?;
    }
    Ok(())
}

/// Writes what may be written, one block at a time, and tells which.
fn write_all<W: Write>(cache: &mut Cache<MemorySlot>, out: &mut W) -> Result<(), StoreFault> {
    for _ in 0..cache.blocks() {
        let Some(block) = cache.pick() else {
            break;
        };
        write!(out, " {}", block.0)?;
        write_next(cache)?;
    }
    Ok(())
}

/// Writes what may be written, and tells which blocks that were, and where the gate behind them is then.
fn write_out<W: Write>(
    cache: &mut Cache<MemorySlot>,
    out: &mut W,
    what: &str,
    gate: PatchNo,
) -> Result<(), StoreFault> {
    write!(out, "the blocks of the {what}, as written:")?;
    write_all(cache, out)?;
    let place = cache.place(gate);
    writeln!(out, "\nthe gate behind the {what}: {place:?}")?;
    Ok(())
}

/// Plays a transaction and a rename, each in two groups, and tells what comes of it, and what is refused of groups.
fn play<W: Write>(cache: &mut Cache<MemorySlot>, out: &mut W) -> Result<(), StoreFault> {
    let mut share = cache.share();
    let done = transaction(cache, &mut share)?;
    tell(out, "a home block", cache.issue(FIRST_HOME).err())?;
    write_out(cache, out, "transaction", done)?;
    let renamed = rename(cache, &mut share)?;
    write_out(cache, out, "rename", renamed)?;
    let [cycle, late, closed] = refusals(cache, &mut share)?;
    tell(out, "each after the other", cycle)?;
    tell(out, "after another once it has a change", late)?;
    tell(out, "a change for it once it is closed", closed)?;
    Ok(())
}

/// Plays what there is of groups over a cache of four blocks of eight bytes, and tells what is refused of them.
pub fn groups<W: Write>(alloc: Global, out: &mut W) -> Result<(), StoreFault> {
    let mut cache = zero_cache(alloc, 4, 8)?;
    let played = play(&mut cache, out);
    drop(cache);
    played
}
