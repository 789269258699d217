//! What no clause says of the demo: what the guides tell, records, a transaction refused half way, and what a file has after
//! a transfer. The helpers' contracts say nothing, and nothing here answers with a `Result`: after each `?` a test's proof
//! has one more path, on which all that the test holds is dropped.

use crate::same::{same, same_text};
use crate::slots::zero_slots;
use crate::store::Store;
use fst_device::MemorySlot;
use fst_types::{BlockNo, Fault, PatchNo, Place, Shape, What};
use journal_calls::patch_or_write;
use journal_parts::groups::groups;
use journal_parts::guide::guide;
use journal_parts::{Accounts, Balance, FileSlot, Record, StoreFault, slots};
use std::alloc::Global;
use std::fs::{self, File};
use std::process::Abort;
use std::rt::Files;

// What the page says that the guide prints.
const TOLD_OF_A_TRANSACTION: &str = "\
the commit record: no change of the block may be written now; write what its changes come after, or seal the gates that they come after
the record: Stalled, and then Landed
before the home blocks: Some(Memory)
durable; 5 patches forgotten
";

// What it says that the guide to groups prints.
const TOLD_OF_GROUPS: &str = "\
a home block: no change of the block may be written now; write what its changes come after, or seal the gates that they come after
the blocks of the transaction, as written: 2 3 0 1
the gate behind the transaction: Some(Disk)
the blocks of the rename, as written: 1 2 0
the gate behind the rename: Some(Disk)
each after the other: the gate or group would come after itself; make another one for this
after another once it has a change: the group has a change already; put a group after others before its first change
a change for it once it is closed: the gate is sealed, or the group closed; it gains nothing more
";

// A guide came to its end, and told this.
fn has_told(rt: &impl Abort, played: Result<(), StoreFault>, told: &[u8], expected: &str) {
    assert!(rt; played.is_ok());
    same_text(rt, told, expected);
}

// What the guide prints.
fn tells_of_a_transaction(rt: &impl Abort, alloc: Global) {
    let mut out = Vec::new(alloc);
    let played = guide(alloc, &mut out);
    has_told(rt, played, &out, TOLD_OF_A_TRANSACTION);
}

// What the guide to groups prints.
fn tells_of_groups(rt: &impl Abort, alloc: Global) {
    let mut out = Vec::new(alloc);
    let played = groups(alloc, &mut out);
    has_told(rt, played, &out, TOLD_OF_GROUPS);
}

#[test]
fn guides_tell_what_the_page_says(rt: HostRuntime) {
    tells_of_a_transaction(&rt, rt.alloc());
    tells_of_groups(&rt, rt.alloc());
}

// What these bytes of a journal block say.
fn reads(rt: &impl Abort, bytes: &[u8], expected: Option<Record>) {
    same(rt, &Record::from_bytes(bytes), &expected);
}

#[test]
fn a_record_is_read_as_it_was_written(rt: HostRuntime) {
    let record = Record {
        number: 70_000,
        from: Balance {
            block: 2,
            amount: 1,
        },
        to: Balance {
            block: 300,
            amount: u32::MAX,
        },
    };
    reads(&rt, &record.to_bytes(), Some(record));
    reads(&rt, &[0; 16], None);
    reads(&rt, &[1; 15], None);
}

// A change at the start of a block.
fn patch(
    rt: &impl Abort,
    store: &mut Store<MemorySlot>,
    block: u32,
    byte: u8,
    after: &[PatchNo],
) -> PatchNo {
    let (made, _) = store
        .cache
        .patch(&mut store.share, BlockNo(block), 0, &[byte], after)
        .expect(rt, "the block has a change");
    made
}

// There is no room for the home block.
fn has_no_room(rt: &impl Abort, store: &mut Store<MemorySlot>, commit: PatchNo) {
    let refused = store
        .cache
        .patch(&mut store.share, BlockNo(0), 0, b"h", &[commit]);
    same(rt, &refused.err(), &Some(Fault::Full(What::Resident)));
}

// Where something is written there is. The answer is its change.
fn finds_room(rt: &impl Abort, store: &mut Store<MemorySlot>, commit: PatchNo) -> PatchNo {
    patch_or_write(
        &mut store.cache,
        &mut store.share,
        BlockNo(0),
        0,
        b"h",
        &[commit],
    )
    .expect(rt, "room is made")
}

// Where a patch is.
fn is_at(rt: &impl Abort, store: &Store<MemorySlot>, patch: PatchNo, expected: Place) {
    same(rt, &store.cache.place(patch), &Some(expected));
}

fn goes_on(rt: &impl Abort, store: &mut Store<MemorySlot>) {
    let record = patch(rt, store, 2, b'r', &[]);
    let commit = patch(rt, store, 1, b'c', &[record]);
    has_no_room(rt, store, commit);
    let home = finds_room(rt, store, commit);
    is_at(rt, store, record, Place::Disk);
    is_at(rt, store, commit, Place::Memory);
    is_at(rt, store, home, Place::Memory);
}

// Of three blocks two may be in memory.
#[test]
fn a_transaction_refused_half_way_goes_on(rt: HostRuntime) {
    let slots = zero_slots(&rt, rt.alloc(), 3, 4);
    let mut store = Store::over(&rt, rt.alloc(), slots, Shape::new(3, 4, 2).ok());
    goes_on(&rt, &mut store);
    store.end();
}

// The accounts of a file.
fn opened<R: Abort + Files<File = File> + AllocGlobal>(rt: &R, name: &str) -> Accounts<FileSlot> {
    let slots = slots(rt, name).ok().expect(rt, "the file is a store");
    Accounts::open(rt.alloc(), slots)
        .ok()
        .expect(rt, "the accounts open")
}

// What the first two accounts have.
fn have(rt: &impl Abort, accounts: &mut Accounts<FileSlot>, expected: (u32, u32)) {
    let first = accounts.balance(0).ok();
    let second = accounts.balance(1).ok();
    same(rt, &(first, second), &(Some(expected.0), Some(expected.1)));
}

// A transfer from the first account to the second.
fn transfer(rt: &impl Abort, accounts: &mut Accounts<FileSlot>, amount: u32) -> PatchNo {
    accounts
        .transfer(0, 1, amount)
        .ok()
        .expect(rt, "the transfer is made")
}

// Two transfers, of which the first is synced.
fn first_opening(rt: &impl Abort, accounts: &mut Accounts<FileSlot>) {
    let done = transfer(rt, accounts, 30);
    assert!(rt; accounts.sync(done).is_ok());
    transfer(rt, accounts, 70);
    have(rt, accounts, (0, 200));
}

// Removes the file, if it is there.
fn remove<R: Files<File = File>>(rt: &R, name: &str) -> bool {
    fs::remove_file(rt, name).is_ok()
}

#[test]
fn a_file_has_what_was_synced(rt: HostRuntime) {
    let name = "accounts-of-a-test";
    remove(&rt, name);
    let mut accounts = opened(&rt, name);
    first_opening(&rt, &mut accounts);
    drop(accounts);
    let mut accounts = opened(&rt, name);
    have(&rt, &mut accounts, (70, 130));
    drop(accounts);
    assert!(rt; remove(&rt, name));
}
