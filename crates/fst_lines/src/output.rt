//! Replies go out in pieces, through a loop over `write`, so that no reply takes memory or has a greatest length. A writer
//! that gathers pieces is told where to pass them on.

ghost use Rattle.std.specs.Prelude.{◌<◌, decimal};
ghost use Rattle.std.specs.List.{flat_map};
ghost use Rattle.std.specs.Io.KnownBytes.{Keeps};
ghost use Rattle.hex.specs.Hex.{encode_lower};
ghost use Rattle.fst_lines.specs.Sending.{Sends};
ghost use Rattle.fst_lines.specs.Parsing.{patch_numbers};
ghost use Rattle.fst_lines.specs.Pieces.{after_comma, commas, text_of_piece, text_of_pieces};

use fst_types::PatchNo;
use itoa::Buffer;
use std::io::Write;

/// The writer took no more.
#[derive(Debug, Drop)]
pub struct Stopped;

/// A part of a reply.
#[derive(Clone, Copy)]
pub enum Piece<'a> {
    Text(&'a str),
    Number(u64),
    Patches(&'a [PatchNo]),
    Hex(&'a [u8]),
}

/// Sends all the bytes, in as many writes as it takes. It stops where a write fails or takes nothing, or where the
/// calls that are left are used up.
pub fn send<W: Write>(writer: &mut W, calls: &mut u64, bytes: &[u8]) -> Result<(), Stopped>
    ensures { Sends (W.contents writer.old) (W.contents writer.new) result bytes.now }
{
    let mut at = 0;
    while at < bytes.len() {
        if *calls == 0 {
            return Err(Stopped);
        }
        *calls -= 1;
        match writer.write(&bytes[at..]) {
            Ok(0) => return Err(Stopped),
            Ok(n) => at += n,
            Err(_) => return Err(Stopped),
        }
    }
    Ok(())
}

/// Has a writer that gathers bytes, as a `BufWriter`, pass them on. It stops where that fails, or where the calls that are
/// left are used up.
pub fn pass_on<W: Write>(writer: &mut W, calls: &mut u64) -> Result<(), Stopped>
    ensures { Keeps (W.contents writer.old) (W.contents writer.new) }
{
    if *calls == 0 {
        return Err(Stopped);
    }
    *calls -= 1;
    match writer.flush() {
        Ok(()) => Ok(()),
        Err(_) => Err(Stopped),
    }
}

fn send_number<W: Write>(writer: &mut W, calls: &mut u64, n: u64) -> Result<(), Stopped>
    ensures { Sends (W.contents writer.old) (W.contents writer.new) result (decimal n) }
{
    let mut buffer = Buffer::new();
    send(writer, calls, buffer.format(n).as_bytes())
}

fn send_patches<W: Write>(
    writer: &mut W,
    calls: &mut u64,
    patches: &[PatchNo],
) -> Result<(), Stopped>
    ensures { Sends (W.contents writer.old) (W.contents writer.new) result
        (commas (patch_numbers patches.now)) }
{
    let Some((first, others)) = patches.split_first() else {
        return Ok(());
    };
    send_number(writer, calls, u64::from(first.0))?;
    send_others(writer, calls, others)
}

fn send_other<W: Write>(writer: &mut W, calls: &mut u64, n: u32) -> Result<(), Stopped>
    ensures { Sends (W.contents writer.old) (W.contents writer.new) result (after_comma n) }
{
    send(writer, calls, b",")?;
    send_number(writer, calls, u64::from(n))
}

fn send_others<W: Write>(
    writer: &mut W,
    calls: &mut u64,
    patches: &[PatchNo],
) -> Result<(), Stopped>
    ensures { Sends (W.contents writer.old) (W.contents writer.new) result
        (flat_map (λ p. after_comma p.0) patches.now) }
{
    for patch in patches {
        send_other(writer, calls, patch.0)?;
    }
    Ok(())
}

fn send_hex<W: Write>(writer: &mut W, calls: &mut u64, bytes: &[u8]) -> Result<(), Stopped>
    ensures { Sends (W.contents writer.old) (W.contents writer.new) result (encode_lower bytes.now) }
{
    let mut text = [0u8; 256];
    let mut at = 0;
    while at < bytes.len() {
        let end = bytes.len().min(at + 128);
        let part = &mut text[..2 * (end - at)];
        hex::encode_to_slice(&bytes[at..end], part).unwrap();
        send(writer, calls, part)?;
        at = end;
    }
    Ok(())
}

fn send_piece<W: Write>(writer: &mut W, calls: &mut u64, piece: Piece<'_>) -> Result<(), Stopped>
    ensures { Sends (W.contents writer.old) (W.contents writer.new) result (text_of_piece piece.entry) }
{
    match piece {
        Piece::Text(text) => send(writer, calls, text.as_bytes()),
        Piece::Number(n) => send_number(writer, calls, n),
        Piece::Patches(patches) => send_patches(writer, calls, patches),
        Piece::Hex(bytes) => send_hex(writer, calls, bytes),
    }
}

/// Sends the pieces of a reply, one after another.
pub fn send_all<W: Write>(
    writer: &mut W,
    calls: &mut u64,
    pieces: &[Piece<'_>],
) -> Result<(), Stopped>
    ensures { Sends (W.contents writer.old) (W.contents writer.new) result (text_of_pieces pieces.now) }
{
    for piece in pieces {
        send_piece(writer, calls, *piece)?;
    }
    Ok(())
}
