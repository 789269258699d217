//! A slot that fails some of its writes, or waits with them until another is begun.

ghost use Rattle.fst_device.specs.declared.slot.SlotFault.{SlotFault};

use fst_device::{Arm, BlockSlot, MemorySlot, SlotFault};
use fst_types::BlockNo;
use std::alloc::Global;
use std::sync::Arc;
use std::sync::atomic::{AtomicU64, Ordering};
use std::thread;

/// Which writes fail, and whether the bytes change then.
#[derive(Clone, Copy)]
pub enum Habit {
    Never,
    EveryThirdAfter,
    AlwaysBefore,
}

/// How many writes were begun, told by all slots that have it.
pub type Begun = Arc<AtomicU64, Global>;

#[derive(Drop)]
pub struct Failing {
    inner: MemorySlot,
    writes: u32,
    habit: Habit,
    begun: Option<Begun>,
}

impl Failing {
    pub fn new(inner: MemorySlot, habit: Habit) -> Failing {
        Failing {
            inner,
            writes: 0,
            habit,
            begun: None,
        }
    }

    /// Each write waits until two were begun, and fails where no other is.
    pub fn meeting(inner: MemorySlot, begun: Begun) -> Failing {
        Failing {
            inner,
            writes: 0,
            habit: Habit::Never,
            begun: Some(begun),
        }
    }
}

// Counts a write, and waits until two were begun, and no longer than so many turns.
fn two_begun(begun: &AtomicU64) -> bool {
    begun.fetch_add(1, Ordering::SeqCst);
    for _ in 0..50_000_000 {
        if begun.load(Ordering::SeqCst) >= 2 {
            return true;
        }
        thread::yield_now();
    }
    false
}

// How the next write fails, if it does.
fn next_arm(writes: u32, habit: Habit, begun: &Option<Begun>) -> Option<Arm> {
    if let Some(begun) = begun
        && !two_begun(begun)
    {
        return Some(Arm::WriteFailsBefore);
    }
    match habit {
        Habit::Never => None,
        Habit::EveryThirdAfter => match writes % 3 {
            0 => Some(Arm::WriteFailsAfter),
            _ => None,
        },
        Habit::AlwaysBefore => Some(Arm::WriteFailsBefore),
    }
}

impl BlockSlot for Failing {
    ghost use Rattle.std.specs.Prelude.{length, refl};

    ghost held = { λ slot. slot.inner.bytes };

    ghost faults = { λ slot. slot.inner.faults };

    ghost index = { λ slot. slot.inner.index };

    ghost size = { λ slot. length slot.inner.bytes };

    ghost held_fills = { λ slot. refl };

    fn index(&self) -> BlockNo {
        self.inner.index()
    }

    fn size(&self) -> u32 {
        self.inner.size()
    }

    fn read(&mut self, into: &mut [u8]) -> Result<(), SlotFault> {
        self.inner.read(into)
    }

    fn write(&mut self, from: &[u8]) -> Result<(), SlotFault> {
        self.writes = self.writes.wrapping_add(1);
        if let Some(arm) = next_arm(self.writes, self.habit, &self.begun) {
            self.inner.arm(arm);
        }
        self.inner.write(from)
    }
}
