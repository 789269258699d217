//! Lines of a change, whose members stand in the order `do`, `block`, `at`, `data` and, unless it is left out, `after`; in a
//! group in the order `do`, `group`, `block`, `at`, `data`.
//!
//! Most lines of a long script are such ones. They are read from their tokens, as short lines are (`short`); whatever
//! else a line of a change may be is left to `serde_json`.

ghost use Rattle.std.specs.Prelude.{Ok, IfSome};
ghost use Rattle.fst_lines.specs.Parsing.{command};
ghost use Rattle.fst_lines.specs.Short.{BytesUnder, ChangeNext, IsPatch, IsGroupPatch};

use crate::command::Command;
use crate::names::take_names;
use crate::taking::{take_number_under, take_text, takes_end, takes_key};
use fst_types::{BlockNo, GroupNo};
use json::Reader;
use std::alloc::Global;

/// What a change puts where, in a group or in none.
#[derive(Drop)]
struct Change {
    block: BlockNo,
    at: u32,
    bytes: Vec<u8>,
}

fn take_bytes_under(alloc: Global, reader: &mut Reader<'_>, name: &str) -> Option<Vec<u8>>
    ensures { IfSome result (λ bytes. BytesUnder name.now bytes.items reader.old reader.new) }
{
    if !takes_key(reader, name) {
        return None;
    }
    let text = take_text(reader)?;
    match hex::decode(alloc, text) {
        Ok(bytes) => Some(bytes),
        Err(_) => None,
    }
}

fn take_change(alloc: Global, reader: &mut Reader<'_>) -> Option<Change>
    ensures { IfSome result (λ c. ChangeNext c.block.0 c.at c.bytes.items reader.old reader.new) }
{
    match (
        take_number_under(reader, "block"),
        take_number_under(reader, "at"),
    ) {
        (Some(block), Some(at)) => Some(Change {
            block: BlockNo(block),
            at,
            bytes: take_bytes_under(alloc, reader, "data")?,
        }),
        _ => None,
    }
}

/// The change that a line asks for, after `{"do":"patch"`.
pub(crate) fn take_patch(alloc: Global, reader: &mut Reader<'_>) -> Option<Command>
    ensures { IfSome result (λ c. IsPatch reader.old (command c)) }
{
    match (take_change(alloc, reader), take_names(alloc, reader)) {
        (Some(change), Some(after)) => Some(Command::Patch {
            block: change.block,
            at: change.at,
            data: change.bytes,
            after,
        }),
        _ => None,
    }
}

/// The change of a group that a line asks for, after `{"do":"group_patch"`.
pub(crate) fn take_group_patch(alloc: Global, reader: &mut Reader<'_>) -> Option<Command>
    ensures { IfSome result (λ c. IsGroupPatch reader.old (command c)) }
{
    match (
        take_number_under(reader, "group"),
        take_change(alloc, reader),
    ) {
        (Some(group), Some(change)) if takes_end(reader) => Some(Command::GroupPatch {
            group: GroupNo(group),
            block: change.block,
            at: change.at,
            data: change.bytes,
        }),
        _ => None,
    }
}
