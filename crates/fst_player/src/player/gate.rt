//! Gates: made open, then given dependencies, then sealed.

ghost use Rattle.fst_lines.specs.Commands as script;
ghost use Rattle.fst_lines.specs.Parsing.{patch_numbers};
ghost use Rattle.fst_player.specs.Answering.{Obeyed};

use crate::player::Player;
use crate::player::told::send_accepted;
use fst_lines::output::Stopped;
use fst_lines::reply::{send_numbered, send_refusal};
use fst_types::PatchNo;
use std::io::Write;

impl Player {
    // Makes a gate.
    pub(super) fn gate<W: Write>(&mut self, writer: &mut W, calls: &mut u64) -> Result<(), Stopped>
        ensures { Obeyed self.old script.gate (W.contents writer.old) (W.contents writer.new)
            result self.new }
    {
        match self.cache.gate(&mut self.share) {
            Ok(number) => send_numbered(writer, calls, "gate", number.0),
            Err(fault) => send_refusal(writer, calls, fault),
        }
    }

    // Has a gate depend on patches.
    pub(super) fn depend<W: Write>(
        &mut self,
        writer: &mut W,
        calls: &mut u64,
        gate: PatchNo,
        on: &[PatchNo],
    ) -> Result<(), Stopped>
        ensures { Obeyed self.old (script.depend gate.0 (patch_numbers on.now))
            (W.contents writer.old) (W.contents writer.new) result self.new }
    {
        let answer = self.cache.depend(gate, on);
        send_accepted(writer, calls, "depend", gate.0, answer)
    }

    // Seals a gate.
    pub(super) fn seal<W: Write>(
        &mut self,
        writer: &mut W,
        calls: &mut u64,
        gate: PatchNo,
    ) -> Result<(), Stopped>
        ensures { Obeyed self.old (script.seal gate.0) (W.contents writer.old)
            (W.contents writer.new) result self.new }
    {
        let answer = self.cache.seal(gate);
        send_accepted(writer, calls, "seal", gate.0, answer)
    }
}
