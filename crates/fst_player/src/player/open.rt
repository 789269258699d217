//! The start of a play: blocks of zero bytes.

ghost use Rattle.std.specs.Prelude.{◌≡◌, MatchResult};
ghost use Rattle.fst_types.specs.declared.fault.Fault.{Fault};
ghost use Rattle.fst_player.specs.Script.{opened};

use crate::committed::Committed;
use crate::made::Made;
use crate::player::Player;
use crate::zeros::zero_slots;
use fst_cache::Cache;
use fst_types::{Fault, Shape};
use std::alloc::Global;

impl Player {
    /// A player over zero blocks in memory, or `Memory`.
    pub fn new(alloc: Global, shape: Shape) -> Result<Player, Fault>
        ensures { MatchResult result (λ player. player ≡ opened shape) (λ fault. fault ≡ Fault.Memory) }
    {
        let Ok(slots) = zero_slots(alloc, shape.blocks, shape.size) else {
            return Err(Fault::Memory);
        };
        let Ok(committed) = Committed::zeros(alloc, shape.blocks, shape.size) else {
            return Err(Fault::Memory);
        };
        match Cache::open(alloc, shape, slots) {
            Ok(mut cache) => {
                let share = cache.share();
                Ok(Player {
                    shape,
                    cache,
                    share,
                    jobs: Vec::new(alloc),
                    committed,
                    made: Made::none(),
                })
            }
            Err((_, fault)) => Err(fault),
        }
    }
}
