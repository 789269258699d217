//! The threads of a crew.

ghost use Rattle.std.specs.Prelude.{◌≡◌, ◌+◌, ◌*◌, ◌≤◌, [], None, All, IfOk, IsTrue, sum_by, vec_len, vec_capacity};

use crate::crews::drain::drain;
use crate::crews::files::{FileEnd, MakesAll, file};
use crate::crews::stacks::{Stacks, stack};
use crate::fault::CrewFault;
use crate::plan::Crew;
use core::thread::Anything;
use fst_cache::Share;
use fst_device::BlockSlot;
use fst_pairs::{Desk, Step, Worker};
use fst_types::Fault;
use std::alloc::Global;
use std::sync::atomic::{AtomicBool, Ordering};
use std::sync::{Mutex, Wait};
use std::thread;
use std::thread::{PromisedHandle, Scope, Threads};

/// What the threads share: the desk under its lock, the word that stops the workers, and what stacks they have.
#[derive(Drop)]
pub struct Shop<'a, S: BlockSlot> {
    desk: Mutex<Desk<S>>,
    stop: AtomicBool,
    stacks: Stacks<'a>,
}

impl<'a, S: BlockSlot> Shop<'a, S> {
    pub fn new(desk: Desk<S>, stacks: Stacks<'a>) -> Shop<'a, S> {
        Shop {
            desk: Mutex::new(desk),
            stop: AtomicBool::new(false),
            stacks,
        }
    }

    pub fn into_desk(self) -> Desk<S> {
        let Shop {
            desk,
            stop: _,
            stacks: _,
        } = self;
        desk.into_inner()
    }
}

// A worker's thread: it steps, and yields where it had nothing to do or no place, until it is stopped. The worker stays
// with the caller: what holds it drops its rings at each way out.
fn work<S: BlockSlot, R: Wait>(rt: &R, worker: &mut Worker<S>, stop: &AtomicBool) {
    for _ in rt.forever() {
        match worker.step() {
            Step::Wrote(_) => {}
            Step::Idle | Step::Held(_) => {
                if stop.load(Ordering::SeqCst) {
                    return;
                }
                thread::yield_now();
            }
        }
    }
}

// Waits for the file threads, and puts their shares behind those that are there. The fault is that of the lowest thread
// that stopped.
fn join_files<R: Threads>(
    rt: &R,
    rounds: u32,
    files: Vec<PromisedHandle<FileEnd, MakesAll>>,
    shares: Vec<Share>,
) -> Result<Vec<Share>, Fault>
    requires promised { All (λ handle. handle.promise.0 ≡ rounds) files.items }
    requires none { shares.items ≡ [] }
    requires room { vec_len shares + vec_len files ≤ vec_capacity shares }
    ensures { IfOk result (λ all. sum_by (λ share. share) all.items ≡ vec_len files * rounds) }
{
    let mut files = files;
    let mut shares = shares;
    let mut lowest: Option<Fault> = None;
    while let Some(handle) = files.pop() {
        let FileEnd { share, fault } = handle.join(rt);
        if fault.is_some() {
            lowest = fault;
        }
        shares.push_reserved(share);
    }
    match lowest {
        None => Ok(shares),
        Some(fault) => Err(fault),
    }
}

// Starts the workers, or as many as can be.
fn start_workers<'s, S: BlockSlot + Send + 's, E: 's, R: Threads + Wait + Sync>(
    scope: &Scope<'s, E>,
    rt: &'s R,
    shop: &'s Shop<'s, S>,
    workers: Vec<Worker<S>>,
) -> Result<(), CrewFault> {
    for (at, worker) in workers.into_iter().enumerate() {
        let stack = stack(shop.stacks.workers, at);
        let started = stack.spawn_scoped_with(scope, Anything, move || {
            let mut worker = worker;
            work(rt, &mut worker, &shop.stop);
        });
        if started.is_err() {
            return Err(CrewFault::Thread);
        }
    }
    Ok(())
}

// Starts the file threads, or as many as can be, and says whether that is all of them.
fn start_files<'s, S: BlockSlot + Send + 's, E: 's, R: Threads + Wait + Sync>(
    scope: &Scope<'s, E>,
    rt: &'s R,
    shop: &'s Shop<'s, S>,
    plan: Crew,
    files: &mut Vec<PromisedHandle<FileEnd, MakesAll>>,
) -> bool
    requires none { files.old.items ≡ [] }
    requires room { plan.files ≤ vec_capacity files.old }
    ensures promised { All (λ handle. handle.promise.0 ≡ plan.rounds) files.new.items }
    ensures started { vec_len files.new ≤ plan.files }
    ensures all { IsTrue result → vec_len files.new ≡ plan.files }
{
    let rounds = plan.rounds;
    let desk = &shop.desk;
    for at in 0..plan.files {
        let stack = stack(shop.stacks.files, at as usize);
        match stack.spawn_scoped_with(scope, MakesAll(rounds), move || file(rt, desk, at, rounds)) {
            Ok(handle) => files.push_reserved(handle),
            Err(_) => return false,
        }
    }
    true
}

// Starts all threads, waits for the file threads, and then sends and takes in what is left.
fn run<'s, S: BlockSlot + Send + 's, E: 's, R: Threads + Wait + Sync>(
    scope: &Scope<'s, E>,
    rt: &'s R,
    alloc: Global,
    shop: &'s Shop<'s, S>,
    workers: Vec<Worker<S>>,
    plan: Crew,
) -> Result<Vec<Share>, CrewFault>
    ensures { IfOk result (λ shares. sum_by (λ share. share) shares.items ≡ plan.files * plan.rounds) }
{
    let mut files = Vec::with_capacity(alloc, plan.files as usize)?;
    let shares = Vec::with_capacity(alloc, plan.files as usize)?;
    start_workers(scope, rt, shop, workers)?;
    let all = start_files(scope, rt, shop, plan, &mut files);
    let ended = join_files(rt, plan.rounds, files, shares);
    if !all {
        return Err(CrewFault::Thread);
    }
    let shares = ended?;
    drain(rt, &shop.desk)?;
    Ok(shares)
}

/// Runs all threads; all of them have ended when it returns. The shares are those of the file threads.
pub fn in_scope<S: BlockSlot + Send, R: Threads + Wait + Sync>(
    rt: &R,
    alloc: Global,
    shop: &Shop<'_, S>,
    workers: Vec<Worker<S>>,
    plan: Crew,
) -> Result<Vec<Share>, CrewFault>
    ensures { IfOk result (λ shares. sum_by (λ share. share) shares.items ≡ plan.files * plan.rounds) }
{
    thread::scope(
        thread::scope_env(),
        rt,
        |scope| -> Result<Vec<Share>, CrewFault>
            ensures { IfOk result (λ shares. sum_by (λ share. share) shares.items ≡ plan.files * plan.rounds) }
        {
            let ended = run(scope, rt, alloc, shop, workers, plan);
            shop.stop.store(true, Ordering::SeqCst);
            ended
        },
    )
}
