//! One comparison for each type of answer, over one that is proved once for all types. An `assert_eq!` in a test is proved
//! with all that the test knows so far, and for a type such as `Result<(PatchNo, Grade), Fault>` that is long.

use fst_cache::Stat;
use fst_types::{BlockNo, Fault, Grade, GroupNo, PatchNo, Place, Settled, Ticket};
use std::fmt::Debug;
use std::process::Abort;

/// The same answer.
pub fn same<T: PartialEq + Debug>(rt: &impl Abort, answer: &T, expected: &T) {
    assert_eq!(rt; answer, expected);
}

/// The number and the grade of a new change.
pub fn same_change(
    rt: &impl Abort,
    made: Result<(PatchNo, Grade), Fault>,
    expected: Result<(PatchNo, Grade), Fault>,
) {
    same(rt, &made, &expected);
}

/// What `seal` or `depend` answers.
pub fn same_answer(rt: &impl Abort, answer: Result<(), Fault>, expected: Result<(), Fault>) {
    same(rt, &answer, &expected);
}

/// The writable set of a block.
pub fn same_patches(rt: &impl Abort, block: BlockNo, chosen: &[PatchNo], expected: &[PatchNo]) {
    same(rt, &(block, chosen), &(block, expected));
}

/// A block, or none.
pub fn same_block(rt: &impl Abort, block: Option<BlockNo>, expected: Option<BlockNo>) {
    same(rt, &block, &expected);
}

/// How many there are.
pub fn same_count(rt: &impl Abort, count: usize, expected: usize) {
    same(rt, &count, &expected);
}

/// Why a call was refused.
pub fn same_fault(rt: &impl Abort, fault: Option<Fault>, expected: Fault) {
    same(rt, &fault, &Some(expected));
}

/// Some bytes.
pub fn same_bytes(rt: &impl Abort, bytes: &[u8], expected: &[u8]) {
    same(rt, &bytes, &expected);
}

/// A ticket.
pub fn same_ticket(rt: &impl Abort, ticket: Ticket, expected: u64) {
    same(rt, &ticket.0, &expected);
}

/// What a cache counts.
pub fn same_stat(rt: &impl Abort, stat: Stat, expected: Stat) {
    same(rt, &stat, &expected);
}

/// A number, or none.
pub fn same_record(rt: &impl Abort, record: Option<u32>, expected: Option<u32>) {
    same(rt, &record, &expected);
}
