//! A slot over a block of a file.
//!
//! No contract of std says which bytes a file gives back. So what contracts see of this slot is a copy in memory: a read
//! that gives anything else fails, and so does a write that was not made whole and flushed. That the file then has the
//! bytes of the copy is a premise.

ghost use Rattle.std.specs.Prelude.{◌≡◌, ◌<◌, ◌^◌, IfOk, vec_len};

use fst_device::{BlockSlot, FaultCount, SlotFault};
use fst_types::BlockNo;
use std::alloc::Global;
use std::fs::File;
use std::io;
use std::os::unix::fs::FileExt;

/// One block of a file, and a copy of it.
#[derive(Drop)]
pub struct FileSlot {
    index: BlockNo,
    file: File,
    copy: Vec<u8>,
    faults: FaultCount,
    ghost small: { vec_len copy < 2 ^ 32 },
}

impl FileSlot {
    /// The slot of a block of `size` bytes, which is read here once.
    pub fn open(alloc: Global, file: File, index: BlockNo, size: u32) -> io::Result<FileSlot>
        ensures index { IfOk result (λ slot. ⟦<FileSlot as BlockSlot>⟧.index slot ≡ index.0) }
        ensures size { IfOk result (λ slot. ⟦<FileSlot as BlockSlot>⟧.size slot ≡ size) }
        ensures faults { IfOk result (λ slot. ⟦<FileSlot as BlockSlot>⟧.faults slot ≡ 0) }
    {
        let mut copy = vec![in alloc; 0u8; size as usize]?;
        file.read_exact_at(&mut copy, u64::from(index.0) * u64::from(size))?;
        Ok(FileSlot {
            index,
            file,
            copy,
            faults: FaultCount::new(),
        })
    }

    // Where the block begins in the file.
    fn start(&self) -> u64 {
        u64::from(self.index.0) * (self.copy.len() as u64)
    }
}

impl BlockSlot for FileSlot {
    ghost use Rattle.std.specs.Prelude.{length, refl};

    ghost held = { λ slot. slot.copy.items };

    ghost faults = { λ slot. slot.faults };

    ghost index = { λ slot. slot.index.0 };

    ghost size = { λ slot. length slot.copy.items };

    ghost held_fills = { λ slot. refl };

    fn index(&self) -> BlockNo {
        self.index
    }

    fn size(&self) -> u32 {
        self.copy.len() as u32
    }

    fn read(&mut self, into: &mut [u8]) -> Result<(), SlotFault> {
        let read = self.file.read_exact_at(into, self.start());
        if read.is_err() || into[..] != self.copy[..] {
            self.faults.rise();
            return Err(SlotFault::Read);
        }
        Ok(())
    }

    fn write(&mut self, from: &[u8]) -> Result<(), SlotFault> {
        if self.file.write_all_at(from, self.start()).is_err() || self.file.sync_data().is_err() {
            self.faults.rise();
            return Err(SlotFault::Write);
        }
        self.copy.copy_from_slice(from);
        Ok(())
    }
}
