//! The two gates of a group, and sealing them.

ghost use Rattle.std.specs.Prelude.{◌≡◌, IfOk, IfErr, IfSome, IfNone, OnErr};
ghost use Rattle.fst_types.specs.Refusals.{IsFirst, NoneHolds};
ghost use Rattle.fst_graph.specs.Grouping.{pair_order, AddsPair, SealsIfOpen};
ghost use Rattle.fst_graph.specs.Known.{unprepared, Refuses};

use crate::fresh::reserve_landed;
use crate::prepared::let_go;
use crate::sparse::Sparse;
use fst_types::{Fault, MAX_HEADS, MAX_NUMBER, PatchNo, What};

impl Sparse {
    /// Why no two patches can be made now.
    pub fn pair_fault(&self) -> Option<Fault>
        ensures first { IfSome result (IsFirst (pair_order self.now.heads self.now.numbers)) }
        ensures clear { IfNone result (NoneHolds (pair_order self.now.heads self.now.numbers)) }
    {
        if self.standing() >= MAX_HEADS - 1 {
            return Some(Fault::Full(What::Heads));
        }
        if self.numbers >= MAX_NUMBER - 1 {
            return Some(Fault::Full(What::Numbers));
        }
        None
    }

    /// Two new gates, open, the second of which depends on the first. The answer is the number of the first.
    pub fn add_pair(&mut self) -> Result<PatchNo, Fault>
        ensures ok { IfOk result (λ no. AddsPair self.old no.0 self.new) }
        ensures refused { IfErr result (Refuses (pair_order self.old.heads self.old.numbers)) }
        ensures same { OnErr result (self.new ≡ unprepared self.old) }
        ensures blocks { self.new.blocks ≡ self.old.blocks }
    {
        let_go(&mut self.prepared);
        if let Some(fault) = self.pair_fault() {
            return Err(fault);
        }
        if reserve_landed(&mut self.landed, self.columns.heads.list.len() + 2).is_err() {
            return Err(Fault::Memory);
        }
        let Ok(()) = self.columns.add_two(self.alloc, self.numbers) else {
            return Err(Fault::Memory);
        };
        let number = self.numbers + 1;
        self.live += 2;
        self.numbers = number + 1;
        Ok(PatchNo(number))
    }

    /// Seals the gate if it is open, and puts on disk what now rests there. It takes no memory.
    pub fn seal_if_open(&mut self, gate: u32)
        ensures sealed { SealsIfOpen self.old gate self.new }
        ensures blocks { self.new.blocks ≡ self.old.blocks }
    {
        let _ = &self.columns.heads;
        let _ = self.seal(PatchNo(gate));
    }
}
