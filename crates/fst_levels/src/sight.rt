//! What walks look at, as one value.

use crate::levels::Levels;
use crate::needs::Needs;
use fst_heads::cover::Cover;
use fst_heads::heads::Heads;
use fst_heads::lists::Listed;

/// The heads, for each block the list of its changes that are not on disk and the newest change over each byte, the levels,
/// and what each block needs.
#[derive(Clone, Copy)]
pub struct Sight<'a> {
    pub heads: &'a Heads,
    pub lists: &'a [Vec<Listed>],
    pub covers: &'a [Cover],
    pub levels: &'a Levels,
    pub needs: &'a Needs,
}
