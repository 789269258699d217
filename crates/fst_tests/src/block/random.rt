//! Random blocks against a plain fold.

ghost use Rattle.std.specs.Prelude.{◌<◌};

use crate::block::choice::{Change, is_named, share_byte};
use crate::block::twin::Twin;
use crate::dice::Dice;
use crate::list::push;
use crate::same::same_bytes;
use fst_types::{Grade, PatchNo};
use std::alloc::Global;
use std::process::Abort;

// The byte that a random patch has at a place of its span.
fn byte_of(no: PatchNo, place: u32) -> u8 {
    (no.0.wrapping_mul(37).wrapping_add(place.wrapping_mul(11)) % 251) as u8
}

// The bytes of a random patch.
fn bytes_of(rt: &impl Abort, alloc: Global, no: PatchNo, len: u32) -> Vec<u8> {
    let mut bytes = Vec::new(alloc);
    for place in 0..len {
        push(rt, &mut bytes, byte_of(no, place));
    }
    bytes
}

// Hard at one throw of four.
fn grade_of(dice: &mut Dice) -> Grade {
    match dice.roll(4) {
        0 => Grade::Hard,
        _ => Grade::Soft,
    }
}

// Applies a patch of up to 12 bytes somewhere in the block.
fn apply_random(
    rt: &impl Abort,
    alloc: Global,
    twin: &mut Twin,
    dice: &mut Dice,
    no: u32,
    size: u32,
)
    requires { 0 < size }
{
    let len = 1 + dice.roll(size.min(12));
    let at = dice.roll(size - len + 1);
    let bytes = bytes_of(rt, alloc, PatchNo(no), len);
    twin.apply(rt, no, at, &bytes, grade_of(dice));
}

// Whether an earlier patch shares a byte with a chosen one.
fn is_under(changes: &[Change], chosen: &[PatchNo], earlier: &Change) -> bool {
    let no = earlier.no;
    let span = earlier.span;
    for later in changes {
        if later.no.0 > no.0 && share_byte(span, later.span) && is_named(chosen, later.no) {
            return true;
        }
    }
    false
}

// What is hard, what the dice say, and every earlier patch that shares a byte with one of these.
fn choose(rt: &impl Abort, alloc: Global, changes: &[Change], dice: &mut Dice) -> Vec<PatchNo> {
    let mut chosen: Vec<PatchNo> = Vec::new(alloc);
    for change in changes.iter().rev() {
        if is_under(changes, &chosen, change) || change.grade == Grade::Hard || dice.roll(2) == 0 {
            push(rt, &mut chosen, change.no);
        }
    }
    chosen.reverse();
    chosen
}

// The numbers of all patches.
fn all_of(rt: &impl Abort, alloc: Global, changes: &[Change]) -> Vec<PatchNo> {
    let mut all = Vec::new(alloc);
    for change in changes {
        push(rt, &mut all, change.no);
    }
    all
}

// Writes a random patch over the bytes.
fn write_over(bytes: &mut [u8], change: &Change) {
    let span = change.span;
    for place in 0..span.len {
        if let Some(byte) = bytes.get_mut(span.at as usize + place as usize) {
            *byte = byte_of(change.no, place);
        }
    }
}

// The bytes with the named patches over them, one after the other.
fn fold_of(
    rt: &impl Abort,
    alloc: Global,
    base: &[u8],
    changes: &[Change],
    chosen: &[PatchNo],
) -> Vec<u8> {
    let mut bytes = Vec::from_slice(alloc, base).expect(rt, "there is memory");
    for change in changes {
        if is_named(chosen, change.no) {
            write_over(&mut bytes, change);
        }
    }
    bytes
}

fn soft_bytes(changes: &[Change]) -> u64 {
    let mut sum = 0u64;
    for change in changes {
        if change.grade == Grade::Soft {
            sum = sum.wrapping_add(u64::from(change.span.len));
        }
    }
    sum
}

// The image of a random choice and the bytes are what a plain fold gives. The choice and its fold come back.
fn compare(
    rt: &impl Abort,
    alloc: Global,
    twin: &mut Twin,
    dice: &mut Dice,
    base: &[u8],
) -> (Vec<PatchNo>, Vec<u8>) {
    let chosen = choose(rt, alloc, twin.changes(), dice);
    let fold = fold_of(rt, alloc, base, twin.changes(), &chosen);
    same_bytes(rt, &twin.image(rt, &chosen), &fold);
    let all = all_of(rt, alloc, twin.changes());
    twin.has(rt, &fold_of(rt, alloc, base, twin.changes(), &all));
    twin.keeps(rt, soft_bytes(twin.changes()));
    (chosen, fold)
}

// Two random choices, of which the second is launched. Its fold comes back.
fn launch_random(
    rt: &impl Abort,
    alloc: Global,
    twin: &mut Twin,
    dice: &mut Dice,
    base: &[u8],
) -> Vec<u8> {
    let _ = compare(rt, alloc, twin, dice, base);
    let (chosen, fold) = compare(rt, alloc, twin, dice, base);
    twin.launch(rt, &chosen);
    fold
}

// Up to 40 patches.
fn apply_each(rt: &impl Abort, alloc: Global, twin: &mut Twin, dice: &mut Dice, size: u32)
    requires { 0 < size }
{
    for no in 0..dice.roll(41) {
        apply_random(rt, alloc, twin, dice, no + 1, size);
    }
}

// Three launches, over so many sevens.
fn launch_each(rt: &impl Abort, alloc: Global, twin: &mut Twin, dice: &mut Dice, size: u32) {
    let mut base = vec![in alloc; 7u8; size as usize].expect(rt, "there is memory");
    for _ in 0..3 {
        base = launch_random(rt, alloc, twin, dice, &base);
    }
}

// A block of up to 64 bytes, with up to 40 patches.
fn play(rt: &impl Abort, alloc: Global, dice: &mut Dice) {
    let size = 1 + dice.roll(64);
    let mut twin = Twin::load(rt, alloc, size as usize, 7);
    apply_each(rt, alloc, &mut twin, dice, size);
    launch_each(rt, alloc, &mut twin, dice, size);
    twin.end();
}

#[test]
fn random_blocks_against_a_plain_fold(rt: HostRuntime) {
    let mut dice = Dice { state: 1 };
    for _ in 0..300 {
        play(&rt, rt.alloc(), &mut dice);
    }
}
