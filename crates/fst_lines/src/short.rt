//! Short lines: what a command does, and one number or no other member, or the members of a change, in a group or in none
//! (`patch_line`), of an empty patch, of what a gate gains or of the group that a group comes after (`order_line`).
//!
//! Nearly all lines of a script are such ones, and a tree of values would cost more than the command. So the members are
//! taken from the tokens of `json`, in memory that is kept from line to line. A line that is anything else, or is written
//! in another order, is left to `serde_json`; both agree on what a line means.

ghost use Rattle.std.specs.Prelude.{◌≡◌, ◌∷◌, Some, Ok, IfSome, codes};
ghost use Rattle.json.specs.Token.{begin_object, key, string, number};
ghost use Rattle.fst_lines.specs.Commands.{command_in, command_of};
ghost use Rattle.fst_lines.specs.Parsing.{command};
ghost use Rattle.fst_lines.specs.Short.{short_data, AsksShort, Asks};

use crate::command::Command;
use crate::order_line::{take_depend, take_empty, take_group_after};
use crate::patch_line::{take_group_patch, take_patch};
use crate::small::{alone, number_key, on_number};
use crate::taking::{is, take_number, take_text, takes_begin, takes_end, takes_key};
use fst_types::Ticket;
use json::{Reader, Scratch, Token};
use std::alloc::Global;

// Enough for a change of a whole block, with its names.
const LONGEST: usize = 9_216;

// The name of a command, which the line begins with.
fn take_name<'a>(reader: &mut Reader<'a>) -> Option<&'a str>
    ensures { IfSome result (λ name. reader.old ≡ begin_object ∷ key (codes "do") ∷ string name.now ∷ reader.new) }
{
    if !takes_begin(reader) || !takes_key(reader, "do") {
        return None;
    }
    take_text(reader)
}

// A command with one number.
fn numbered(name: &str, key: &str, number: u64) -> Option<Command>
    ensures { IfSome result (λ c. command_in (short_data name.now key.now number) ≡ Some (command c)) }
{
    if is(name, "done") && is(key, "ticket") {
        let ticket = Ticket(number);
        return Some(Command::Done { ticket, fail: None });
    }
    if number > 4_294_967_295 || !is(key, number_key(name)) {
        return None;
    }
    on_number(name, number as u32)
}

// What follows the name of a command that has one number or no member, to the end of the line.
fn take_short(reader: &mut Reader<'_>, name: &str) -> Option<Command>
    ensures { IfSome result (λ c. AsksShort (begin_object ∷ key (codes "do") ∷ string name.now ∷ reader.old) (command c)) }
{
    match reader.next() {
        Some(Token::EndObject) if reader.next().is_none() => alone(name),
        Some(Token::Key(key)) => {
            let number = take_number(reader)?;
            if !takes_end(reader) {
                return None;
            }
            numbered(name, key, number)
        }
        _ => None,
    }
}

fn take_command(alloc: Global, reader: &mut Reader<'_>) -> Option<Command>
    ensures { IfSome result (λ c. Asks reader.old (command c)) }
{
    let name = take_name(reader)?;
    match name {
        "patch" => take_patch(alloc, reader),
        "empty" => take_empty(alloc, reader),
        "depend" => take_depend(alloc, reader),
        "group_patch" => take_group_patch(alloc, reader),
        "group_after" => take_group_after(reader),
        _ => take_short(reader, name),
    }
}

/// The command of a line, where it is a short one. It takes what memory the scratch lacks, and answers nothing where that
/// is refused.
pub fn read_short(alloc: Global, scratch: &mut Scratch, line: &[u8]) -> Option<Command>
    ensures { IfSome result (λ c. command_of line.now ≡ Ok (command c)) }
{
    if line.len() > LONGEST {
        return None;
    }
    let Ok(text) = std::str::from_utf8(line) else {
        return None;
    };
    let Ok(mut reader) = Reader::new(text, scratch) else {
        return None;
    };
    take_command(alloc, &mut reader)
}
