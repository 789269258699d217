//! Commands that have no member, or one number and no other: both ways of reading a line (`command`, `short`) look their
//! names up here.

ghost use Rattle.std.specs.Prelude.{◌≡◌, Some, IfSome, option_map};
ghost use Rattle.fst_lines.specs.Commands.{command_in};
ghost use Rattle.fst_lines.specs.Parsing.{command};
ghost use Rattle.fst_lines.specs.Short.{alone_data};
ghost use Rattle.fst_lines.specs.Small.{alone_named, number_key, number_named};

use crate::command::Command;
use fst_types::{BlockNo, GroupNo, PatchNo};

/// The command of this name that has no member.
pub(crate) fn alone(name: &str) -> Option<Command>
    ensures named { option_map command result ≡ alone_named name.now }
    ensures short { IfSome result (λ c. command_in (alone_data name.now) ≡ Some (command c)) }
{
    match name {
        "gate" => Some(Command::Gate),
        "pick" => Some(Command::Pick),
        "forget" => Some(Command::Forget),
        "stat" => Some(Command::Stat),
        "group" => Some(Command::GroupNew),
        _ => None,
    }
}

/// The member that is the one number of the command of this name, if it has one number and no other member.
pub(crate) fn number_key<'a>(name: &str) -> &'a str
    ensures { result.now ≡ number_key name.now }
{
    match name {
        "seal" => "gate",
        "place" => "patch",
        "group_close" => "group",
        _ => "block",
    }
}

/// The command of this name with that number.
pub(crate) fn on_number(name: &str, number: u32) -> Option<Command>
    ensures { option_map command result ≡ number_named name.now number }
{
    let block = BlockNo(number);
    let patch = PatchNo(number);
    let group = GroupNo(number);
    match name {
        "seal" => Some(Command::Seal { gate: patch }),
        "place" => Some(Command::Place { patch }),
        "group_close" => Some(Command::GroupClose { group }),
        "choose" => Some(Command::Choose { block }),
        "write" => Some(Command::Write { block }),
        "retry" => Some(Command::Retry { block }),
        "evict" => Some(Command::Evict { block }),
        "show" => Some(Command::Show { block }),
        _ => None,
    }
}
