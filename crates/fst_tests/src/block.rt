//! The worked block, and random blocks against a plain fold.

mod choice;
mod random;
mod twin;

use crate::block::twin::Twin;
use crate::same::same_bytes;
use fst_types::{Grade, PatchNo};
use std::alloc::Global;
use std::process::Abort;

const FIRST: PatchNo = PatchNo(1);

const SECOND: PatchNo = PatchNo(2);

const THIRD: PatchNo = PatchNo(3);

// Puts the three patches of the worked block, of which the second lies over the end of the first.
fn put_each(rt: &impl Abort, twin: &mut Twin, third: Grade) {
    twin.apply(rt, 1, 0, b"AB", Grade::Soft);
    twin.apply(rt, 2, 1, b"QR", Grade::Soft);
    twin.apply(rt, 3, 3, b"a", third);
    twin.has(rt, b"AQRa");
}

// The worked block.
fn worked(rt: &impl Abort, alloc: Global, third: Grade) -> Twin {
    let mut twin = Twin::load(rt, alloc, 4, 0);
    put_each(rt, &mut twin, third);
    twin
}

// The image is this, and the bytes are as they were.
fn shows(rt: &impl Abort, twin: &mut Twin, chosen: &[PatchNo], image: &[u8]) {
    same_bytes(rt, &twin.image(rt, chosen), image);
    twin.has(rt, b"AQRa");
}

// The images of the third patch, of the first beside it, and of all.
fn shows_each(rt: &impl Abort, twin: &mut Twin) {
    shows(rt, twin, &[THIRD], b"\0\0\0a");
    shows(rt, twin, &[FIRST, THIRD], b"AB\0a");
    shows(rt, twin, &[FIRST, SECOND, THIRD], b"AQRa");
}

// Launches the third patch, which leaves four undo bytes, and the image without the others has its byte.
fn launch_third(rt: &impl Abort, twin: &mut Twin) {
    twin.launch(rt, &[THIRD]);
    twin.keeps(rt, 4);
    shows(rt, twin, &[], b"\0\0\0a");
}

// Launches the two that are left, which leave nothing to undo.
fn launch_rest(rt: &impl Abort, twin: &mut Twin) {
    twin.is_clean(rt, false);
    twin.launch(rt, &[FIRST, SECOND]);
    twin.is_clean(rt, true);
    twin.keeps(rt, 0);
    shows(rt, twin, &[], b"AQRa");
}

#[test]
fn overlaps_reverted_newest_first(rt: HostRuntime) {
    let mut twin = worked(&rt, rt.alloc(), Grade::Soft);
    shows(&rt, &mut twin, &[], b"\0\0\0\0");
    shows_each(&rt, &mut twin);
    twin.keeps(&rt, 5);
    launch_third(&rt, &mut twin);
    launch_rest(&rt, &mut twin);
    twin.end();
}

#[test]
fn hard_patch_has_no_undo_bytes(rt: HostRuntime) {
    let mut twin = worked(&rt, rt.alloc(), Grade::Hard);
    twin.keeps(&rt, 4);
    shows_each(&rt, &mut twin);
    launch_third(&rt, &mut twin);
    twin.end();
}
