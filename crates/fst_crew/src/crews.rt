//! A run of a crew, from its slots to what it prints.

ghost use Rattle.std.specs.Prelude.{◌≡◌, ◌+◌, ◌*◌, ◌⊎◌, ℕ, List, IfOk, IfErr, IsErrOf, OnOk, length, map, sum_by};
ghost use Rattle.std.specs.Io.KnownBytes.{Appends};
ghost use Rattle.std.specs.List.{range_with_len};
ghost use Rattle.fst_types.specs.Bytes.{bytes_of};
ghost use Rattle.fst_crew.specs.Crewing.{AreMisfits, told};
ghost use Rattle.fst_types.specs.declared.fault.Fault.{Fault};
ghost use Rattle.fst_pairs.specs.Desking.{IsCloseRefused};
ghost use Rattle.fst_crew.specs.declared.fault.CrewFault.{CrewFault};

mod drain;
mod files;
mod report;
pub mod stacks;
pub mod taking;
mod threads;

use crate::crews::report::report;
use crate::crews::stacks::{Stacks, USUAL};
use crate::crews::threads::{Shop, in_scope};
use crate::fault::CrewFault;
use crate::plan::{CREW_BLOCKS, Crew};
use fst_cache::{Cache, Share};
use fst_device::BlockSlot;
use fst_pairs::{Desk, Totals, Worker};
use fst_types::Shape;
use std::alloc::Global;
use std::io::Write;
use std::sync::Wait;
use std::thread::Threads;

/// Closes the desk, or tells why it cannot be closed.
pub fn closed<S: BlockSlot>(desk: Desk<S>, shares: Vec<Share>) -> Result<Totals<S>, CrewFault>
    ensures made { IfOk result (λ totals. totals.made ≡ sum_by (λ share. share) shares.items) }
    ensures refused { IfErr result (λ told. (fault : Fault) × (told ≡ CrewFault.Cache fault) × IsCloseRefused desk shares.items fault) }
    ensures sent { IfOk result (λ totals. (totals.sent ≡ totals.landed + totals.stalled) × (totals.landed ≡ desk.landed) × (totals.stalled ≡ desk.stalled)) }
    ensures cache { IfOk result (λ totals. totals.cache ≡ desk.cache) }
{
    match desk.close(shares) {
        Ok(totals) => Ok(totals),
        Err(refused) => Err(CrewFault::Cache(refused.fault)),
    }
}

// A desk over these slots, and its workers.
fn opened<S: BlockSlot>(
    alloc: Global,
    slots: Vec<S>,
    workers: u32,
) -> Result<(Desk<S>, Vec<Worker<S>>), CrewFault>
    ensures misfits { (fault : Fault) → AreMisfits (map S.index slots.items) (map S.size slots.items) fault → IsErrOf result (CrewFault.Cache fault) }
{
    let Ok(shape) = Shape::new(CREW_BLOCKS, CREW_BLOCKS, CREW_BLOCKS) else {
        unreachable!()
    };
    let cache = match Cache::open(alloc, shape, slots) {
        Ok(cache) => cache,
        Err((_, fault)) => return Err(CrewFault::Cache(fault)),
    };
    match Desk::open(alloc, cache, workers) {
        Ok(ends) => Ok(ends),
        Err((_, fault)) => Err(CrewFault::Cache(fault)),
    }
}

// Runs all threads over one desk, and closes it.
fn worked<S: BlockSlot + Send, R: Threads + Wait + Sync>(
    rt: &R,
    alloc: Global,
    slots: Vec<S>,
    plan: Crew,
    stacks: Stacks<'_>,
) -> Result<Totals<S>, CrewFault>
    ensures made { IfOk result (λ totals. totals.made ≡ plan.files * plan.rounds) }
    ensures misfits { (fault : Fault) → AreMisfits (map S.index slots.items) (map S.size slots.items) fault → IsErrOf result (CrewFault.Cache fault) }
{
    let (desk, workers) = opened(alloc, slots, plan.workers)?;
    let shop = Shop::new(desk, stacks);
    let ended = in_scope(rt, alloc, &shop, workers, plan);
    let shares = ended?;
    closed(shop.into_desk(), shares)
}

// Prints what a closed desk left. The totals stay with the caller: what holds them drops the cache at each way out.
fn tell<S: BlockSlot, W: Write>(
    alloc: Global,
    totals: &mut Totals<S>,
    writer: &mut W,
) -> Result<(), CrewFault>
    ensures made { OnOk result (Appends (W.contents writer.old) (W.contents writer.new)
        (told totals.old.made (map (bytes_of totals.old.cache.state) (range_with_len 0 8)))) }
    ensures silent { IfErr result (λ fault. (fault ≡ CrewFault.Write) ⊎ (W.contents writer.new ≡ W.contents writer.old)) }
{
    let text = report(alloc, totals.made, &mut totals.cache)?;
    match writer.write_all(text.as_bytes()) {
        Ok(()) => Ok(()),
        Err(_) => Err(CrewFault::Write),
    }
}

/// Runs file threads and workers over one desk and these slots, 8 of 8 bytes, until nothing is live. It then prints
/// `made N`, how many changes were made, and a line `block B HEX` for each block.
///
/// File thread f, from 0, in round r, from 1, changes byte f of block (r - 1 + f) mod 8 to r mod 256, after its own last
/// change. What is printed is made first and takes memory; a refusal prints nothing. It is refused as
/// `Cache` where a call of the cache or the desk is refused or a stray comes, with the fault of the lowest file
/// thread that stopped, else with the main thread's; as `Cache(Lost)` where a change is left for good since a block is
/// lost; as `Cache(Memory)` where memory is refused; and as `Thread` where a thread cannot be made. `Write` is answered
/// where the writer fails or takes nothing.
pub fn crew<S: BlockSlot + Send, R: Threads + Wait + Sync, W: Write>(
    rt: &R,
    alloc: Global,
    slots: Vec<S>,
    plan: Crew,
    writer: &mut W,
) -> Result<(), CrewFault>
    ensures made { OnOk result ((blocks : List (List ℕ)) × (length blocks ≡ 8)
        × Appends (W.contents writer.old) (W.contents writer.new) (told (plan.files * plan.rounds) blocks)) }
    ensures silent { IfErr result (λ fault. (fault ≡ CrewFault.Write) ⊎ (W.contents writer.new ≡ W.contents writer.old)) }
    ensures misfits { (fault : Fault) → AreMisfits (map S.index slots.items) (map S.size slots.items) fault → IsErrOf result (CrewFault.Cache fault) }
{
    crew_on(rt, alloc, slots, plan, USUAL, writer)
}

/// As `crew`, on these stacks.
pub fn crew_on<S: BlockSlot + Send, R: Threads + Wait + Sync, W: Write>(
    rt: &R,
    alloc: Global,
    slots: Vec<S>,
    plan: Crew,
    stacks: Stacks<'_>,
    writer: &mut W,
) -> Result<(), CrewFault>
    ensures made { OnOk result ((blocks : List (List ℕ)) × (length blocks ≡ 8)
        × Appends (W.contents writer.old) (W.contents writer.new) (told (plan.files * plan.rounds) blocks)) }
    ensures silent { IfErr result (λ fault. (fault ≡ CrewFault.Write) ⊎ (W.contents writer.new ≡ W.contents writer.old)) }
    ensures misfits { (fault : Fault) → AreMisfits (map S.index slots.items) (map S.size slots.items) fault → IsErrOf result (CrewFault.Cache fault) }
{
    let mut totals = worked(rt, alloc, slots, plan, stacks)?;
    tell(alloc, &mut totals, writer)
}
