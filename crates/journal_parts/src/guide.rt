//! One transaction, from opening the cache to "is it durable?".

use crate::fault::StoreFault;
use fst_cache::Cache;
use fst_device::{Arm, MemorySlot, carry};
use fst_types::{BlockNo, Fault, PatchNo, Place, Settled, Shape};
use std::alloc::{AllocError, Global};
use std::io::Write;

const JOURNAL: BlockNo = BlockNo(0);

const COMMIT: BlockNo = BlockNo(1);

const FIRST_HOME: BlockNo = BlockNo(2);

const SECOND_HOME: BlockNo = BlockNo(3);

/// A slot of so many zero bytes for each of so many blocks.
pub fn zeros(alloc: Global, blocks: u32, size: u32) -> Result<Vec<MemorySlot>, AllocError> {
    let mut slots = Vec::new(alloc);
    for block in 0..blocks {
        let bytes = vec![in alloc; 0u8; size as usize]?;
        slots.push(MemorySlot::new(BlockNo(block), bytes))?;
    }
    Ok(slots)
}

/// A cache of so many blocks of so many zero bytes, of which all may be in memory.
pub fn zero_cache(alloc: Global, blocks: u32, size: u32) -> Result<Cache<MemorySlot>, StoreFault> {
    let shape = Shape::new(blocks, size, blocks)?;
    let slots = zeros(alloc, blocks, size)?;
    Ok(Cache::open(alloc, shape, slots)?)
}

/// Makes a transaction: the journal record before the commit record, that before the home blocks. The answer is a patch
/// that stands for all of it.
fn transaction(cache: &mut Cache<MemorySlot>) -> Result<PatchNo, Fault> {
    let mut share = cache.share();
    let (record, _) = cache.patch(&mut share, JOURNAL, 0, b"ab", &[])?;
    let (commit, _) = cache.patch(&mut share, COMMIT, 0, b"1", &[record])?;
    let (first, _) = cache.patch(&mut share, FIRST_HOME, 0, b"a", &[commit])?;
    let (second, _) = cache.patch(&mut share, SECOND_HOME, 0, b"b", &[commit])?;
    cache.empty(&mut share, &[first, second])
}

/// Writes the record and the commit record. The first write fails, though the bytes have changed; the same image goes out
/// again.
fn write_journal(cache: &mut Cache<MemorySlot>) -> Result<(Settled, Settled), Fault> {
    let mut job = cache.issue(JOURNAL)?;
    job.arm(Arm::WriteFailsAfter);
    let failed = cache.settle(carry(job))?;
    let job = cache.retry(JOURNAL)?;
    let again = cache.settle(carry(job))?;
    let job = cache.issue(COMMIT)?;
    cache.settle(carry(job))?;
    Ok((failed, again))
}

/// Writes both home blocks, which are out at once; the later one lands first.
fn write_homes(cache: &mut Cache<MemorySlot>) -> Result<(), Fault> {
    let early = carry(cache.issue(FIRST_HOME)?);
    let late = carry(cache.issue(SECOND_HOME)?);
    cache.settle(late)?;
    cache.settle(early)?;
    Ok(())
}

/// Writes the journal, and tells what comes of it.
fn play_journal<W: Write>(cache: &mut Cache<MemorySlot>, out: &mut W) -> Result<(), StoreFault> {
    // only the record may be written yet: the others wait for it
    if let Some(fault) = cache.issue(COMMIT).err() {
        writeln!(out, "the commit record: {fault}")?;
    }
    let (failed, again) = write_journal(cache)?;
    writeln!(out, "the record: {failed:?}, and then {again:?}")?;
    Ok(())
}

/// Plays one transaction over four blocks, and tells what comes of it.
fn play<W: Write>(cache: &mut Cache<MemorySlot>, out: &mut W) -> Result<(), StoreFault> {
    let done = transaction(cache)?;
    play_journal(cache, out)?;

    // is it durable? where the patch is on disk, all that it comes after is
    writeln!(out, "before the home blocks: {:?}", cache.place(done))?;
    write_homes(cache)?;
    if cache.place(done) == Some(Place::Disk) {
        writeln!(out, "durable; {} patches forgotten", cache.forget())?;
    }
    Ok(())
}

/// Plays one transaction over a cache of four blocks of four bytes, of which all may be in memory.
pub fn guide<W: Write>(alloc: Global, out: &mut W) -> Result<(), StoreFault> {
    let mut cache = zero_cache(alloc, 4, 4)?;
    let played = play(&mut cache, out);
    drop(cache);
    played
}
