//! What is told of a new change before it is made.

ghost use Rattle.std.specs.Prelude.{◌≡◌, None};
ghost use Rattle.fst_types.specs.declared.grade.Grade.TheVariants as grade;

use fst_types::Grade;

/// The grade of a new change. Where it is soft since a way leads back to its block, `end` is the change of the block to which
/// that leads, if it is known: as long as this is not on disk, the way is there. Where it is hard, `looked` says at how many
/// patches the search for a way looked, and is 0 where none was needed.
#[derive(Clone, Copy)]
pub struct Graded {
    pub grade: Grade,
    pub end: Option<u32>,
    pub looked: usize,
}

/// Hard, which a search tells that looked at so many patches.
pub(crate) fn hard_after(looked: usize) -> Graded
    ensures grade { result.grade ≡ grade.Hard }
    ensures end { result.end ≡ None }
{
    Graded {
        grade: Grade::Hard,
        end: None,
        looked,
    }
}

/// Hard, which is told at once.
pub(crate) fn hard() -> Graded
    ensures grade { result.grade ≡ grade.Hard }
    ensures end { result.end ≡ None }
{
    hard_after(0)
}

/// Soft, a way leading back to that change, if it is known.
pub(crate) fn soft(end: Option<u32>) -> Graded
    ensures grade { result.grade ≡ grade.Soft }
    ensures end { result.end ≡ end }
{
    Graded {
        grade: Grade::Soft,
        end,
        looked: 0,
    }
}
