//! The replies, each with the end of its line.

ghost use Rattle.std.specs.Prelude.{◌≡◌, ◌++◌, ◌∷◌, [], option_map, codes, decimal};
ghost use Rattle.fst_lines.specs.Sending.{Sends};
ghost use Rattle.fst_lines.specs.Parsing.{patch_numbers};
ghost use Rattle.fst_lines.specs.Pieces.{text_of_piece};
ghost use Rattle.fst_lines.specs.Replies.{refusal, refusal_detail, patch_text, chosen_text, pick_text, flight_text, settled_text, show_text, place_text, crash_part};

use crate::output::{Piece, Stopped, send, send_all};
use fst_types::{BlockNo, Fault, Grade, PatchNo, Place, Settled, Ticket, What};
use std::io::Write;

fn what_name<'a>(what: What) -> &'a str
    ensures { result.now ≡ what_name what }
{
    match what {
        What::Heads => "heads",
        What::Numbers => "numbers",
        What::Tickets => "tickets",
        What::Flights => "flights",
        What::Resident => "resident",
        What::Groups => "groups",
    }
}

ghost use Rattle.fst_lines.specs.Replies.{what_name};

// What follows the number of a refusal: the patch that is held, or the thing that is full.
fn detail<'a>(fault: Fault) -> (&'a str, Piece<'a>)
    ensures { result.0.now ++ text_of_piece result.1 ≡ refusal_detail fault }
{
    match fault {
        Fault::HardHeld(patch) => (" held ", Piece::Number(u64::from(patch.0))),
        Fault::Full(what) => (" ", Piece::Text(what_name(what))),
        _ => ("", Piece::Text("")),
    }
}

/// `refused N`, with the patch that is held or the thing that is full.
pub fn send_refusal<W: Write>(writer: &mut W, calls: &mut u64, fault: Fault) -> Result<(), Stopped>
    ensures { Sends (W.contents writer.old) (W.contents writer.new) result
        (refusal fault ++ 10 ∷ []) }
{
    let (word, rest) = detail(fault);
    send_all(
        writer,
        calls,
        &[
            Piece::Text("refused "),
            Piece::Number(u64::from(fault.number())),
            Piece::Text(word),
            rest,
            Piece::Text("\n"),
        ],
    )
}

/// A reply that is a word and a number, as `gate N`.
pub fn send_numbered<W: Write>(
    writer: &mut W,
    calls: &mut u64,
    word: &str,
    number: u32,
) -> Result<(), Stopped>
    ensures { Sends (W.contents writer.old) (W.contents writer.new) result
        (word.now ++ codes " " ++ decimal number ++ 10 ∷ []) }
{
    send_all(
        writer,
        calls,
        &[
            Piece::Text(word),
            Piece::Text(" "),
            Piece::Number(u64::from(number)),
            Piece::Text("\n"),
        ],
    )
}

/// `patch N hard` or `patch N soft`.
pub fn send_patch<W: Write>(
    writer: &mut W,
    calls: &mut u64,
    patch: PatchNo,
    grade: Grade,
) -> Result<(), Stopped>
    ensures { Sends (W.contents writer.old) (W.contents writer.new) result
        (patch_text patch.0 grade ++ 10 ∷ []) }
{
    let end = match grade {
        Grade::Hard => " hard\n",
        Grade::Soft => " soft\n",
    };
    send_all(
        writer,
        calls,
        &[
            Piece::Text("patch "),
            Piece::Number(u64::from(patch.0)),
            Piece::Text(end),
        ],
    )
}

/// `chosen B patches L`, or `chosen B none`.
pub fn send_chosen<W: Write>(
    writer: &mut W,
    calls: &mut u64,
    block: BlockNo,
    patches: &[PatchNo],
) -> Result<(), Stopped>
    ensures { Sends (W.contents writer.old) (W.contents writer.new) result
        (chosen_text block.0 (patch_numbers patches.now) ++ 10 ∷ []) }
{
    let word = if patches.is_empty() {
        " none"
    } else {
        " patches "
    };
    send_all(
        writer,
        calls,
        &[
            Piece::Text("chosen "),
            Piece::Number(u64::from(block.0)),
            Piece::Text(word),
            Piece::Patches(patches),
            Piece::Text("\n"),
        ],
    )
}

/// `pick B`, or `pick none`.
pub fn send_pick<W: Write>(
    writer: &mut W,
    calls: &mut u64,
    block: Option<BlockNo>,
) -> Result<(), Stopped>
    ensures { Sends (W.contents writer.old) (W.contents writer.new) result
        (pick_text (option_map (λ b. b.0) block) ++ 10 ∷ []) }
{
    match block {
        Some(block) => send_numbered(writer, calls, "pick", block.0),
        None => send(writer, calls, b"pick none\n"),
    }
}

/// `flight T block B patches L image H`.
pub fn send_flight<'a, W: Write>(
    writer: &mut W,
    calls: &mut u64,
    ticket: Ticket,
    block: BlockNo,
    patches: &'a [PatchNo],
    image: &'a [u8],
) -> Result<(), Stopped>
    ensures { Sends (W.contents writer.old) (W.contents writer.new) result
        (flight_text ticket.0 block.0 (patch_numbers patches.now) image.now ++ 10 ∷ []) }
{
    send_all(
        writer,
        calls,
        &[
            Piece::Text("flight "),
            Piece::Number(ticket.0),
            Piece::Text(" block "),
            Piece::Number(u64::from(block.0)),
            Piece::Text(" patches "),
            Piece::Patches(patches),
            Piece::Text(" image "),
            Piece::Hex(image),
            Piece::Text("\n"),
        ],
    )
}

/// `done T block B`; where the write stalled `stalled T block B`, and where the block is lost `lost T block B`.
pub fn send_settled<W: Write>(
    writer: &mut W,
    calls: &mut u64,
    ticket: Ticket,
    block: BlockNo,
    settled: Settled,
) -> Result<(), Stopped>
    ensures { Sends (W.contents writer.old) (W.contents writer.new) result
        (settled_text ticket.0 block.0 settled ++ 10 ∷ []) }
{
    let word = match settled {
        Settled::Landed => "done ",
        Settled::Stalled => "stalled ",
        Settled::Lost => "lost ",
    };
    send_all(
        writer,
        calls,
        &[
            Piece::Text(word),
            Piece::Number(ticket.0),
            Piece::Text(" block "),
            Piece::Number(u64::from(block.0)),
            Piece::Text("\n"),
        ],
    )
}

/// `show B H`.
pub fn send_show<W: Write>(
    writer: &mut W,
    calls: &mut u64,
    block: BlockNo,
    bytes: &[u8],
) -> Result<(), Stopped>
    ensures { Sends (W.contents writer.old) (W.contents writer.new) result
        (show_text block.0 bytes.now ++ 10 ∷ []) }
{
    send_all(
        writer,
        calls,
        &[
            Piece::Text("show "),
            Piece::Number(u64::from(block.0)),
            Piece::Text(" "),
            Piece::Hex(bytes),
            Piece::Text("\n"),
        ],
    )
}

/// `place N memory`, `place N flight` or `place N disk`; a number that was not given is refused.
pub fn send_place<W: Write>(
    writer: &mut W,
    calls: &mut u64,
    patch: PatchNo,
    place: Option<Place>,
) -> Result<(), Stopped>
    ensures { Sends (W.contents writer.old) (W.contents writer.new) result
        (place_text patch.0 place ++ 10 ∷ []) }
{
    let Some(found) = place else {
        return send_refusal(writer, calls, Fault::NoPatch);
    };
    let name = match found {
        Place::Memory => "memory",
        Place::Flight => "flight",
        Place::Disk => "disk",
    };
    send_all(
        writer,
        calls,
        &[
            Piece::Text("place "),
            Piece::Number(u64::from(patch.0)),
            Piece::Text(" "),
            Piece::Text(name),
            Piece::Text("\n"),
        ],
    )
}

/// The bytes of one block within the reply to `crash`.
pub fn send_crash_part<W: Write>(
    writer: &mut W,
    calls: &mut u64,
    bytes: &[u8],
) -> Result<(), Stopped>
    ensures { Sends (W.contents writer.old) (W.contents writer.new) result (crash_part bytes.now) }
{
    send_all(writer, calls, &[Piece::Text(" "), Piece::Hex(bytes)])
}
