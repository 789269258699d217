//! What a call of the cache answered, told to the writer.

ghost use Rattle.std.specs.Prelude.{◌++◌, ◌∷◌, [], MatchResult, codes, decimal};
ghost use Rattle.fst_lines.specs.Replies.{refusal, patch_text};
ghost use Rattle.fst_lines.specs.Sending.{Sends};

use fst_lines::output::Stopped;
use fst_lines::reply::{send_numbered, send_patch, send_refusal};
use fst_types::{Fault, Grade, PatchNo};
use std::io::Write;

/// Tells whether a change was made.
pub fn send_made<W: Write>(
    writer: &mut W,
    calls: &mut u64,
    answer: Result<(PatchNo, Grade), Fault>,
) -> Result<(), Stopped>
    ensures { MatchResult answer
        (λ to. Sends (W.contents writer.old) (W.contents writer.new) result (patch_text to.0.0 to.1 ++ 10 ∷ []))
        (λ fault. Sends (W.contents writer.old) (W.contents writer.new) result (refusal fault ++ 10 ∷ [])) }
{
    match answer {
        Ok((number, grade)) => send_patch(writer, calls, number, grade),
        Err(fault) => send_refusal(writer, calls, fault),
    }
}

/// Tells whether what was asked of this number was done.
pub fn send_accepted<W: Write>(
    writer: &mut W,
    calls: &mut u64,
    word: &str,
    number: u32,
    answer: Result<(), Fault>,
) -> Result<(), Stopped>
    ensures { MatchResult answer
        (λ u. Sends (W.contents writer.old) (W.contents writer.new) result (word.now ++ codes " " ++ decimal number ++ 10 ∷ []))
        (λ fault. Sends (W.contents writer.old) (W.contents writer.new) result (refusal fault ++ 10 ∷ [])) }
{
    match answer {
        Ok(()) => send_numbered(writer, calls, word, number),
        Err(fault) => send_refusal(writer, calls, fault),
    }
}
