//! What walks have visited: patches that are not on disk, each once. Blocks are shown as crossed, so that each is crossed once.

ghost use Rattle.std.specs.Prelude.{◌≡◌, ◌<◌, ◌↔◌, ℕ, length, Contains};
ghost use Rattle.fst_heads.specs.declared.test.Test.TheVariants as test;
ghost use Rattle.fst_walks.specs.Descending.{Visited};
ghost use Rattle.fst_heads.specs.Heads.{patches_of};
ghost use Rattle.fst_levels.specs.Sights.{Sees};
ghost use Rattle.fst_levels.specs.Walks.{numbers_met};
ghost use Rattle.fst_heads.specs.Indices.{PassesAt};
ghost use Rattle.fst_heads.specs.Reaching.{ShowsBlocks};

use fst_heads::test::Test;
use fst_levels::sight::Sight;
use fst_levels::walk::Walk;

/// Only the block is shown as crossed.
pub fn show_only(reached: &mut [bool], block: u32)
    requires { block < length reached.old }
    ensures { ShowsBlocks reached.new (λ c. c ≡ block) }
{
    for shown in reached.iter_mut() {
        *shown = false;
    }
    reached[block as usize] = true;
}

/// Of what was visited, the changes of other blocks stay.
pub fn keep_away(sight: &Sight<'_>, walk: &mut Walk, block: u32)
    requires sees { Sees sight.now }
    requires visited { Visited sight.now.heads.now.list.items walk.old }
    ensures visited { Visited sight.now.heads.now.list.items walk.new }
    ensures kept { (n : ℕ) → Contains (numbers_met sight.now.heads.now.list.items walk.new) n ↔ (Contains (numbers_met sight.now.heads.now.list.items walk.old) n × PassesAt (test.LiveOff block) (patches_of sight.now.heads.now.list.items) n) }
{
    walk.keep(&sight.heads.list, Test::LiveOff(block));
}
