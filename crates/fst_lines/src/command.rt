//! What a script line asks: one JSON object with a member `do` and the members that its command has.

ghost use Rattle.std.specs.Prelude.{◌≡◌, Option, option_map, Some};
ghost use Rattle.serde_json.specs.View.{view};
ghost use Rattle.fst_lines.specs.Commands.{patch_in, empty_in, depend_in, done_in, crash_in, only_number_in, group_after_in, group_patch_in, command_named, command_of_value, command_of};
ghost use Rattle.fst_lines.specs.Parsing.{command, Gives, Parses};
ghost use Rattle.fst_lines.specs.Small.{alone_named, either_in};

use crate::failure::Failure;
use crate::members::{
    blocks_if_any, bytes_at, failure_if_any, has_only, long_at, number_at, patches_at,
    patches_if_any,
};
use crate::short::read_short;
use crate::small::{alone, number_key, on_number};
use fst_types::{BlockNo, Fault, GroupNo, PatchNo, Ticket};
use json::Scratch;
use serde_json::{Map, Value};
use std::alloc::Global;

/// The greatest length of a line, without its end.
pub const MAX_LINE: usize = 65_536;

/// What a line asks.
#[derive(Drop)]
pub enum Command {
    Patch {
        block: BlockNo,
        at: u32,
        data: Vec<u8>,
        after: Vec<PatchNo>,
    },
    Empty {
        after: Vec<PatchNo>,
    },
    Gate,
    Depend {
        gate: PatchNo,
        on: Vec<PatchNo>,
    },
    Seal {
        gate: PatchNo,
    },
    Choose {
        block: BlockNo,
    },
    Pick,
    Write {
        block: BlockNo,
    },
    Done {
        ticket: Ticket,
        fail: Option<Failure>,
    },
    Retry {
        block: BlockNo,
    },
    Evict {
        block: BlockNo,
    },
    Show {
        block: BlockNo,
    },
    Place {
        patch: PatchNo,
    },
    Forget,
    Stat,
    Crash {
        finish: Vec<BlockNo>,
    },
    GroupNew,
    GroupAfter {
        group: GroupNo,
        on: GroupNo,
    },
    GroupPatch {
        group: GroupNo,
        block: BlockNo,
        at: u32,
        data: Vec<u8>,
    },
    GroupClose {
        group: GroupNo,
    },
}

fn patch(alloc: Global, value: &Value) -> Result<Command, Fault>
    ensures { Gives command result (patch_in (view value.now)) }
{
    if !has_only(&["do", "block", "at", "data", "after"], value) {
        return Err(Fault::BadField);
    }
    let (Some(block), Some(at)) = (number_at(value, "block"), number_at(value, "at")) else {
        return Err(Fault::BadField);
    };
    let data = bytes_at(alloc, value, "data")?;
    let after = patches_if_any(alloc, value.get("after"))?;
    Ok(Command::Patch {
        block: BlockNo(block),
        at,
        data,
        after,
    })
}

fn empty(alloc: Global, value: &Value) -> Result<Command, Fault>
    ensures { Gives command result (empty_in (view value.now)) }
{
    if !has_only(&["do", "after"], value) {
        return Err(Fault::BadField);
    }
    match patches_if_any(alloc, value.get("after")) {
        Ok(after) => Ok(Command::Empty { after }),
        Err(fault) => Err(fault),
    }
}

fn depend(alloc: Global, value: &Value) -> Result<Command, Fault>
    ensures { Gives command result (depend_in (view value.now)) }
{
    match number_at(value, "gate") {
        Some(gate) if has_only(&["do", "gate", "on"], value) => Ok(Command::Depend {
            gate: PatchNo(gate),
            on: patches_at(alloc, value, "on")?,
        }),
        _ => Err(Fault::BadField),
    }
}

fn done(value: &Value) -> Option<Command>
    ensures { option_map command result ≡ done_in (view value.now) }
{
    match (long_at(value, "ticket"), failure_if_any(value.get("fail"))) {
        (Some(ticket), Some(fail)) if has_only(&["do", "ticket", "fail"], value) => {
            Some(Command::Done {
                ticket: Ticket(ticket),
                fail,
            })
        }
        _ => None,
    }
}

fn crash(alloc: Global, value: &Value) -> Result<Command, Fault>
    ensures { Gives command result (crash_in (view value.now)) }
{
    if !has_only(&["do", "finish"], value) {
        return Err(Fault::BadField);
    }
    match blocks_if_any(alloc, value.get("finish")) {
        Ok(finish) => Ok(Command::Crash { finish }),
        Err(fault) => Err(fault),
    }
}

fn group_after(value: &Value) -> Option<Command>
    ensures { option_map command result ≡ group_after_in (view value.now) }
{
    match (number_at(value, "group"), number_at(value, "on")) {
        (Some(group), Some(on)) if has_only(&["do", "group", "on"], value) => {
            Some(Command::GroupAfter {
                group: GroupNo(group),
                on: GroupNo(on),
            })
        }
        _ => None,
    }
}

fn group_patch(alloc: Global, value: &Value) -> Result<Command, Fault>
    ensures { Gives command result (group_patch_in (view value.now)) }
{
    if !has_only(&["do", "group", "block", "at", "data"], value) {
        return Err(Fault::BadField);
    }
    let (Some(group), Some(block), Some(at)) = (
        number_at(value, "group"),
        number_at(value, "block"),
        number_at(value, "at"),
    ) else {
        return Err(Fault::BadField);
    };
    let data = bytes_at(alloc, value, "data")?;
    Ok(Command::GroupPatch {
        group: GroupNo(group),
        block: BlockNo(block),
        at,
        data,
    })
}

// The number of a command that has no other member.
fn only_number(value: &Value, name: &str) -> Option<u32>
    ensures { result ≡ only_number_in name.now (view value.now) }
{
    if !has_only(&["do", name], value) {
        return None;
    }
    number_at(value, name)
}

// A command that has no member, or one number and no other.
fn small(name: &str, value: &Value) -> Option<Command>
    ensures { option_map command result ≡ either_in (alone_named name.now) name.now (view value.now) }
{
    if has_only(&["do"], value) {
        return alone(name);
    }
    on_number(name, only_number(value, number_key(name))?)
}

// A command by its name.
fn command_named(alloc: Global, name: &str, value: &Value) -> Result<Command, Fault>
    ensures { Gives command result (command_named name.now (view value.now)) }
{
    match name {
        "patch" => patch(alloc, value),
        "empty" => empty(alloc, value),
        "depend" => depend(alloc, value),
        "done" => done(value).ok_or(Fault::BadField),
        "crash" => crash(alloc, value),
        "group_after" => group_after(value).ok_or(Fault::BadField),
        "group_patch" => group_patch(alloc, value),
        _ => small(name, value).ok_or(Fault::BadField),
    }
}

// The command of a line's value.
fn command_of_value(alloc: Global, value: &Value) -> Result<Command, Fault>
    ensures { Parses result (command_of_value (Some (view value.now))) }
{
    if !value.is_object() {
        return Err(Fault::BadLine);
    }
    match value.get("do").and_then(Value::as_str) {
        Some(name) => command_named(alloc, name, value),
        None => Err(Fault::BadField),
    }
}

// The command of a line that is read as JSON.
fn read(alloc: Global, line: &[u8]) -> Result<Command, Fault>
    ensures { Parses result (command_of line.now) }
{
    if line.len() > MAX_LINE {
        return Err(Fault::BadLine);
    }
    match Value::from_slice(alloc, line) {
        Ok(value) => command_of_value(alloc, &value),
        Err(error) if error.is_memory() => Err(Fault::Memory),
        Err(_) => Err(Fault::BadLine),
    }
}

/// The command of a line; `BadLine` where the line is too long or no JSON object, `BadField` where its members are
/// not those of a command, `Memory` where memory for reading it is refused. The scratch is for what reading needs for a
/// while; it may be kept from line to line.
pub fn parse(alloc: Global, scratch: &mut Scratch, line: &[u8]) -> Result<Command, Fault>
    ensures { Parses result (command_of line.now) }
{
    match read_short(alloc, scratch, line) {
        Some(command) => Ok(command),
        None => read(alloc, line),
    }
}
