//! A way down to an open gate, one patch after another. What waits for an open gate is one, or directly depends on something
//! that waits for one, so that such a way has no dead end: at each patch it goes on to what is nearest to a gate, as far as
//! its ancestors tell. So a group's first change, which comes after thousands of changes behind a gate that is open for long,
//! is told to be soft without a look at all of them.

ghost use Rattle.std.specs.Prelude.{◌≡◌, ◌⊎◌, ◌==◌, ◌&&◌, ◌<◌, ℕ, Some, not, length, Contains, IsTrue, IfSome};
ghost use Rattle.fst_types.specs.Dependencies.{DependsOn};
ghost use Rattle.fst_heads.specs.declared.test.Test.TheVariants as test;
ghost use Rattle.fst_heads.specs.Grading.{HasUnder, IsOpenBut};
ghost use Rattle.fst_heads.specs.Heads.{patch_of, patches_of};
ghost use Rattle.fst_heads.specs.Indices.{HasIndex};
ghost use Rattle.fst_heads.specs.Tests.{passes};
ghost use Rattle.fst_levels.specs.Sights.{Sees};

use fst_heads::head::Head;
use fst_heads::pending::{Pending, is_pending};
use fst_heads::test::{Test, passes};
use fst_levels::shortcuts::newest_few;
use fst_levels::sight::Sight;

// How many steps are taken, and how many of what a patch directly depends on are looked at.
const STEPS: usize = 4_096;

const WIDTH: usize = 64;

/// Whether it is an open gate, and not this one.
pub fn is_other_gate(head: &Head, gate: u32) -> bool
    ensures { result ≡ (not (head.now.number == gate) && passes test.Open (patch_of head.now)) }
{
    head.number != gate && passes(Test::Open, head)
}

// A patch to which the way may go on, and how far below it the gate is; nothing is claimed of that.
#[derive(Clone, Copy)]
struct Step {
    index: usize,
    far: u32,
}

// The step to the patch with the number, if it waits for an open gate. To one that is open itself it is the shortest, and to
// the one that is about to be sealed the longest.
fn step_to(sight: &Sight<'_>, number: u32, gate: u32) -> Option<Step>
    requires sees { Sees sight.now }
    ensures { IfSome result (λ s. HasIndex sight.now.heads.now.list.items number s.index) }
{
    let index = sight.levels.find(sight.heads, number)?;
    let head = &sight.heads.list[index];
    if !is_pending(head.pending, Pending::Held) {
        return None;
    }
    let far = if number == gate {
        u32::MAX
    } else if passes(Test::Open, head) {
        0
    } else {
        sight
            .levels
            .rank_of(sight.heads, number)
            .ancestry
            .depth
            .saturating_add(1)
    };
    Some(Step { index, far })
}

// The shorter of the two.
fn shorter(one: Option<Step>, other: Option<Step>) -> Option<Step>
    ensures { (result ≡ one) ⊎ (result ≡ other) }
{
    match (one, other) {
        (Some(first), Some(second)) if first.far <= second.far => one,
        (Some(_), None) => one,
        _ => other,
    }
}

// The shortest step to one of the newest of the row.
fn shortest(sight: &Sight<'_>, row: &[u32], gate: u32) -> Option<Step>
    requires sees { Sees sight.now }
    ensures { IfSome result (λ s. (q : ℕ) × Contains row.now q × HasIndex sight.now.heads.now.list.items q s.index) }
{
    let mut best = None;
    for number in newest_few(row, WIDTH) {
        best = shorter(best, step_to(sight, *number, gate));
    }
    best
}

// The step on from the patch at the index: to what it directly depends on, or to its ancestor further down.
fn step_on(sight: &Sight<'_>, index: usize, gate: u32) -> Option<Step>
    requires sees { Sees sight.now }
    requires index { index < length sight.now.heads.now.list.items }
    ensures { IfSome result (λ s. (q : ℕ) × HasIndex sight.now.heads.now.list.items q s.index × ((n : ℕ) → HasIndex sight.now.heads.now.list.items n index → DependsOn (patches_of sight.now.heads.now.list.items) n q)) }
{
    let head = &sight.heads.list[index];
    let down = shortest(sight, head.dependencies.as_slice(), gate);
    let far = sight.levels.rank_of(sight.heads, head.number).ancestry.jump;
    shorter(down, step_to(sight, far, gate))
}

/// Whether steps down from the row lead to an open gate besides the one that is about to be sealed. Where they do not, other
/// ways may.
pub fn leads_to_gate(sight: &Sight<'_>, row: &[u32], gate: u32) -> bool
    requires sees { Sees sight.now }
    ensures { IsTrue result → HasUnder (patches_of sight.now.heads.now.list.items) row.now (IsOpenBut (patches_of sight.now.heads.now.list.items) (Some gate)) }
{
    let mut next = shortest(sight, row, gate);
    for _ in 0..STEPS {
        let Some(step) = next else {
            return false;
        };
        if is_other_gate(&sight.heads.list[step.index], gate) {
            return true;
        }
        next = step_on(sight, step.index, gate);
    }
    false
}
