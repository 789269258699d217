//! Each plain function of the types once, on its happy path.

use crate::same::{same, same_answer, same_bytes, same_count, same_fault};
use fst_types::{Fault, Items, Noted, PatchNo, Shape, What, Write, fold_over, write_over};
use std::alloc::{AllocError, Global};
use std::process::Abort;

// The blocks of a shape, their bytes, and how many of them may be in memory.
fn is_shape(rt: &impl Abort, shape: Option<Shape>, blocks: usize, size: usize, resident: usize) {
    let shape = shape.expect(rt, "it is within its limits");
    same_count(rt, shape.blocks as usize, blocks);
    same_count(rt, shape.size as usize, size);
    same_count(rt, shape.resident as usize, resident);
}

#[test]
fn shape_within_its_limits(rt: HostRuntime) {
    is_shape(&rt, Shape::new(4, 8, 2).ok(), 4, 8, 2);
    same_fault(&rt, Shape::new(4, 8, 5).err(), Fault::BadField);
}

// The number of a fault.
fn has_number(rt: &impl Abort, fault: Fault, expected: usize) {
    same_count(rt, fault.number() as usize, expected);
}

#[test]
fn numbers_of_faults(rt: HostRuntime) {
    has_number(&rt, Fault::BadLine, 1);
    has_number(&rt, Fault::Full(What::Tickets), 16);
    has_number(&rt, Fault::Memory, 17);
    has_number(&rt, Fault::GroupBegun, 18);
    has_number(&rt, Fault::Lost, 19);
}

// What a fault says.
fn says(rt: &impl Abort, alloc: Global, fault: Fault, expected: &str) {
    let text = format!(in alloc; "{fault}").expect(rt, "there is memory");
    same(rt, &text.as_str(), &expected);
}

// A text says what is held or full, and what to do.
#[test]
fn texts_of_faults(rt: HostRuntime) {
    says(
        &rt,
        rt.alloc(),
        Fault::HardHeld(PatchNo(3)),
        "hard patch 3 of the block has to wait; write what it comes after and settle that first",
    );
    says(
        &rt,
        rt.alloc(),
        Fault::Full(What::Heads),
        "full: 65,535 patches are known; forget those on disk",
    );
    says(
        &rt,
        rt.alloc(),
        Fault::Cycle,
        "the gate or group would come after itself; make another one for this",
    );
}

fn refused<E>(error: E) -> Result<(), Fault>
where
    Fault: From<E>,
{
    Err(error)?;
    Ok(())
}

#[test]
fn faults_of_what_is_refused(rt: HostRuntime) {
    same_answer(&rt, refused(AllocError), Err(Fault::Memory));
    same_answer(&rt, refused((7u32, Fault::Stranger)), Err(Fault::Stranger));
}

#[test]
fn writes_fold_in_order(rt: HostRuntime) {
    let mut block = [0u8; 4];
    let writes = [
        Write {
            at: 0,
            bytes: b"AB",
        },
        Write {
            at: 1,
            bytes: b"QR",
        },
    ];
    fold_over(&mut block, &writes);
    same_bytes(&rt, &block, b"AQR\0");
    write_over(&mut block, 3, b"a");
    same_bytes(&rt, &block, b"AQRa");
}

// It has no bytes, and does nothing when it runs.
#[test]
fn what_is_noted_takes_nothing(rt: HostRuntime) {
    let noted = Noted::of_bytes(&[1, 2]);
    let _again = Noted::of::<Noted, Items>(&noted);
    same_count(&rt, std::mem::size_of::<Noted>(), 0);
}
