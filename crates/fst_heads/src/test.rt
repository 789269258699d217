//! What a walk looks for.

ghost use Rattle.std.specs.Prelude.{◌≡◌};
ghost use Rattle.fst_heads.specs.Heads.{patch_of};
ghost use Rattle.fst_heads.specs.Tests.{passes, is_live_place};

use crate::head::{Head, Kind};
use fst_types::Place;

/// A question about one patch.
#[derive(Clone, Copy)]
pub enum Test {
    /// It has the number.
    Numbered(u32),
    /// It is an open gate.
    Open,
    /// It is an open gate, or a change that is not on disk and not in memory on the block.
    Obstacle(u32),
    /// It is a change of the block that is not on disk.
    LiveOn(u32),
    /// It is a change of another block that is not on disk.
    LiveOff(u32),
}

/// Whether the patch passes.
pub fn passes(test: Test, head: &Head) -> bool
    ensures { result ≡ passes test (patch_of head.now) }
{
    match head.kind {
        Kind::Change(_, block, _) => match test {
            Test::Numbered(number) => head.number == number,
            Test::Open => false,
            Test::Obstacle(on) => match head.place {
                Place::Memory => u32::from(block) != on,
                Place::Flight => true,
                Place::Disk => false,
            },
            Test::LiveOn(on) => is_live(head.place) && u32::from(block) == on,
            Test::LiveOff(on) => is_live(head.place) && u32::from(block) != on,
        },
        Kind::OpenGate => match test {
            Test::Numbered(number) => head.number == number,
            Test::Open | Test::Obstacle(_) => true,
            Test::LiveOn(_) | Test::LiveOff(_) => false,
        },
        Kind::Empty | Kind::SealedGate => match test {
            Test::Numbered(number) => head.number == number,
            Test::Open | Test::Obstacle(_) | Test::LiveOn(_) | Test::LiveOff(_) => false,
        },
    }
}

/// Whether a patch at that place is not on disk.
pub fn is_live(place: Place) -> bool
    ensures { result ≡ is_live_place place }
{
    match place {
        Place::Disk => false,
        _ => true,
    }
}
