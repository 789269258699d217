//! The patches that a line names at its end.

ghost use Rattle.std.specs.Prelude.{◌≡◌, [], Some, IsTrue, IfSome};
ghost use Rattle.fst_lines.specs.Parsing.{patch_numbers};
ghost use Rattle.fst_lines.specs.Short.{NamesAtEnd, NamesUnder, NamesListed, list_of};

use crate::taking::{is, small, takes_end, takes_key};
use fst_types::PatchNo;
use json::{Reader, Token};
use std::alloc::Global;

// No call takes more names; one turn more is for the bracket after them.
const TURNS: u32 = 65;

// Puts the patches of a list into an empty one, after the bracket that opens it. Answers whether the list has an end.
fn take_list(reader: &mut Reader<'_>, patches: &mut Vec<PatchNo>) -> bool
    requires { patches.old.items ≡ [] }
    ensures { IsTrue result → list_of reader.old ≡ Some (patch_numbers patches.new.items, reader.new) }
{
    for _ in 0..TURNS {
        match reader.next() {
            Some(Token::EndArray) => return true,
            Some(Token::Number(text)) => match small(text) {
                Some(number) if patches.push(PatchNo(number)).is_ok() => {}
                _ => return false,
            },
            _ => return false,
        }
    }
    false
}

// The patches of a list that ends the line.
fn take_listed(alloc: Global, reader: &mut Reader<'_>) -> Option<Vec<PatchNo>>
    ensures { IfSome result (λ patches. NamesListed reader.old (patch_numbers patches.items)) }
{
    match reader.next() {
        Some(Token::BeginArray) => {
            let mut patches = Vec::new(alloc);
            if take_list(reader, &mut patches) && takes_end(reader) {
                return Some(patches);
            }
            None
        }
        _ => None,
    }
}

/// The patches under a key, and the end of the line.
pub(crate) fn take_names_under(
    alloc: Global,
    reader: &mut Reader<'_>,
    name: &str,
) -> Option<Vec<PatchNo>>
    ensures { IfSome result (λ patches. NamesUnder name.now reader.old (patch_numbers patches.items)) }
{
    if !takes_key(reader, name) {
        return None;
    }
    take_listed(alloc, reader)
}

/// The patches under `after`, or none, and the end of the line.
pub(crate) fn take_names(alloc: Global, reader: &mut Reader<'_>) -> Option<Vec<PatchNo>>
    ensures { IfSome result (λ patches. NamesAtEnd reader.old (patch_numbers patches.items)) }
{
    match reader.next() {
        Some(Token::EndObject) if reader.next().is_none() => Some(Vec::new(alloc)),
        Some(Token::Key(name)) if is(name, "after") => take_listed(alloc, reader),
        _ => None,
    }
}
