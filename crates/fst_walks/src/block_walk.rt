//! A walk that crosses blocks besides.

ghost use Rattle.std.specs.Prelude.{◌≡◌, ◌<◌, length};
ghost use Rattle.fst_heads.specs.Reaching.{ShowsBlocks};

use crate::descent::show_only;
use fst_levels::walk::Walk;

/// A walk, and for each block whether it is shown as crossed.
#[derive(Drop)]
pub struct BlockWalk {
    pub walk: Walk,
    pub crossed: Vec<bool>,
}

impl BlockWalk {
    /// Only the block is shown as crossed.
    pub(crate) fn cross_only(&mut self, block: u32)
        requires { block < length self.old.crossed.items }
        ensures shown { ShowsBlocks self.new.crossed.items (λ c. c ≡ block) }
        ensures long { length self.new.crossed.items ≡ length self.old.crossed.items }
        ensures walk { self.new.walk ≡ self.old.walk }
    {
        show_only(&mut self.crossed, block);
    }
}
