//! What is kept of a group.

ghost use Rattle.std.specs.Prelude.{◌≡◌, ◌++◌, ◌∷◌, []};

use fst_types::{Noted, Notes};

/// A group, by the number of its head; its tail has the next number. Whether a change was made for it, and whether it is
/// closed. Which changes these were, and which groups it was put after, contracts alone see.
#[derive(Drop)]
pub struct Group {
    pub head: u32,
    pub begun: bool,
    pub closed: bool,
    pub members: Noted,
    pub after: Noted,
}

/// No numbers.
pub fn no_numbers() -> Noted
    ensures { result.items ≡ [] }
{
    Noted::of::<(), Nothing>(&())
}

/// These numbers, and one more.
pub fn with_number(noted: &Noted, number: u32) -> Noted
    ensures { result.items ≡ noted.now.items ++ number ∷ [] }
{
    Noted::of::<More<'_>, Besides>(&More { noted, number })
}

struct Nothing;

impl Notes<()> for Nothing {
    ghost noted = { λ _. [] };
}

#[derive(Drop)]
struct More<'a> {
    noted: &'a Noted,
    number: u32,
}

struct Besides;

impl<'a> Notes<More<'a>> for Besides {
    ghost noted = { λ m. m.noted.now.items ++ m.number ∷ [] };
}
