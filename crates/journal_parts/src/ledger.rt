//! Accounts in a file, and transfers from standard input.

use crate::accounts::{ACCOUNTS, Accounts, BLOCKS, new_block};
use crate::fault::StoreFault;
use crate::file_slot::FileSlot;
use crate::record::SIZE;
use fst_types::BlockNo;
use std::fs::{File, OpenOptions};
use std::io;
use std::os::unix::fs::FileExt;
use std::rt::Files;

fn open<R: Files<File = File>>(rt: &R, name: &str) -> io::Result<File> {
    OpenOptions::new()
        .read(true)
        .write(true)
        .create(true)
        .open(rt, name)
}

// Gives a new file its accounts, from its beginning on: a file that was cut while it was made is too short, and refused.
fn begin(file: &File) -> io::Result<()> {
    for block in 0..BLOCKS {
        file.write_all_at(&new_block(block), u64::from(block) * u64::from(SIZE))?;
    }
    file.sync_data()
}

// Begins a file that is empty. Any other has to be as long as a store.
fn begin_empty(file: &File) -> Result<(), StoreFault> {
    let len = file.metadata()?.len();
    if len == 0 {
        begin(file)?;
    } else if len != u64::from(BLOCKS) * u64::from(SIZE) {
        return Err(StoreFault::NoStore);
    }
    Ok(())
}

// The slot of a block of the file.
fn slot<R: Files<File = File> + AllocGlobal>(
    rt: &R,
    name: &str,
    block: u32,
) -> Result<FileSlot, StoreFault> {
    let file = open(rt, name)?;
    Ok(FileSlot::open(rt.alloc(), file, BlockNo(block), SIZE)?)
}

// The slots of the file, which is begun where it is empty.
pub fn slots<R: Files<File = File> + AllocGlobal>(
    rt: &R,
    name: &str,
) -> Result<Vec<FileSlot>, StoreFault> {
    let file = open(rt, name)?;
    let begun = begin_empty(&file);
    drop(file);
    begun?;
    let mut slots = Vec::new(rt.alloc());
    for block in 0..BLOCKS {
        slots.push(slot(rt, name, block)?)?;
    }
    Ok(slots)
}

// What all accounts have.
fn tell<R: Print>(rt: &R, accounts: &mut Accounts<FileSlot>) -> Result<(), StoreFault> {
    let transfers = accounts.transfers();
    print!(rt; "after transfer {transfers}:")?;
    for account in 0..ACCOUNTS as u16 {
        let balance = accounts.balance(account)?;
        print!(rt; " {balance}")?;
    }
    println!(rt;)?;
    Ok(())
}

// The three numbers of a line.
fn transfer_of(line: &str) -> Option<(u16, u16, u32)> {
    let mut words = line.split_whitespace();
    let from = words.next()?.parse().ok()?;
    let to = words.next()?.parse().ok()?;
    let amount = words.next()?.parse().ok()?;
    if words.next().is_some() {
        return None;
    }
    Some((from, to, amount))
}

// Makes the transfer of a line, and tells of it once it is on disk.
fn make<R: Print>(rt: &R, accounts: &mut Accounts<FileSlot>, line: &str) -> Result<(), StoreFault> {
    let Some((from, to, amount)) = transfer_of(line) else {
        return Err(StoreFault::NoLine);
    };
    let done = accounts.transfer(from, to, amount)?;
    accounts.sync(done)?;
    println!(rt; "done {}", accounts.transfers())?;
    Ok(())
}

// The same of a line that was read.
fn make_read<R: Print>(
    rt: &R,
    accounts: &mut Accounts<FileSlot>,
    line: io::Result<String>,
) -> Result<(), StoreFault> {
    let line = line?;
    make(rt, accounts, &line)
}

// Tells what there is, and makes each transfer of standard input.
fn play<R: Input + Print + AllocGlobal>(
    rt: &R,
    accounts: &mut Accounts<FileSlot>,
) -> Result<(), StoreFault> {
    tell(rt, accounts)?;
    for line in rt.lines(rt.alloc()) {
        make_read(rt, accounts, line)?;
    }
    tell(rt, accounts)
}

/// Keeps accounts in a file: makes the newest committed transfer good, tells what there is, and makes each transfer of
/// standard input, telling of each once it is on disk.
pub fn keep<R: Files<File = File> + Input + Print + AllocGlobal>(
    rt: &R,
    name: &str,
) -> Result<(), StoreFault> {
    let slots = slots(rt, name)?;
    let mut accounts = Accounts::open(rt.alloc(), slots)?;
    let played = play(rt, &mut accounts);
    drop(accounts);
    played
}
