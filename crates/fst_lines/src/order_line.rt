//! Lines that order patches and change no block: of an empty patch, of what a gate gains, and of the group that a group comes
//! after. Their members stand in the order `do`, `after`, in the order `do`, `gate`, `on`, and in the order `do`, `group`,
//! `on`; whatever else such a line may be is left to `serde_json`.

ghost use Rattle.std.specs.Prelude.{IfSome};
ghost use Rattle.fst_lines.specs.Parsing.{command};
ghost use Rattle.fst_lines.specs.Short.{IsEmpty, IsDepend, IsGroupAfter};

use crate::command::Command;
use crate::names::{take_names, take_names_under};
use crate::taking::{take_number_under, takes_end};
use fst_types::{GroupNo, PatchNo};
use json::Reader;
use std::alloc::Global;

/// The empty patch that a line asks for, after `{"do":"empty"`.
pub(crate) fn take_empty(alloc: Global, reader: &mut Reader<'_>) -> Option<Command>
    ensures { IfSome result (λ c. IsEmpty reader.old (command c)) }
{
    let after = take_names(alloc, reader)?;
    Some(Command::Empty { after })
}

/// What a line gives a gate to depend on, after `{"do":"depend"`.
pub(crate) fn take_depend(alloc: Global, reader: &mut Reader<'_>) -> Option<Command>
    ensures { IfSome result (λ c. IsDepend reader.old (command c)) }
{
    match (
        take_number_under(reader, "gate"),
        take_names_under(alloc, reader, "on"),
    ) {
        (Some(gate), Some(on)) => Some(Command::Depend {
            gate: PatchNo(gate),
            on,
        }),
        _ => None,
    }
}

/// The group that a line puts a group after, after `{"do":"group_after"`.
pub(crate) fn take_group_after(reader: &mut Reader<'_>) -> Option<Command>
    ensures { IfSome result (λ c. IsGroupAfter reader.old (command c)) }
{
    match (
        take_number_under(reader, "group"),
        take_number_under(reader, "on"),
    ) {
        (Some(group), Some(on)) if takes_end(reader) => Some(Command::GroupAfter {
            group: GroupNo(group),
            on: GroupNo(on),
        }),
        _ => None,
    }
}
