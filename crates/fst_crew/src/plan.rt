//! The plan of a crew.

ghost use Rattle.std.specs.Prelude.{◌≡◌, MatchResult};
ghost use Rattle.fst_crew.specs.Crewing.{IsCrew};

use fst_types::Fault;

/// How many blocks a crew works on, and how many bytes each has.
pub const CREW_BLOCKS: u32 = 8;

/// The most file threads of a crew, and the most workers.
pub const MAX_THREADS: u32 = 8;

/// The most changes that a file thread makes.
pub const MAX_ROUNDS: u32 = 1_000;

/// How many file threads change blocks, how many workers write them, and how many changes each file thread makes.
#[derive(Clone, Copy, Debug, PartialEq, Eq)]
pub struct Crew {
    pub files: u32,
    pub workers: u32,
    pub rounds: u32,
    pub ghost within: { IsCrew files workers rounds },
}

impl Crew {
    ghost use Rattle.fst_types.specs.declared.fault.Fault.{Fault};

    /// The plan, or `BadField` where a number is out of range: 1 to 8 file threads, 1 to 8 workers, 1 to 1,000 rounds. It
    /// takes no memory.
    pub fn new(files: u32, workers: u32, rounds: u32) -> Result<Crew, Fault>
        ensures { MatchResult result
            (λ plan. IsCrew files workers rounds × (plan.files ≡ files) × (plan.workers ≡ workers) × (plan.rounds ≡ rounds))
            (λ fault. (IsCrew files workers rounds → ⊥) × (fault ≡ Fault.BadField)) }
    {
        let threads = 1..=MAX_THREADS;
        if !threads.contains(&files) || !threads.contains(&workers) {
            return Err(Fault::BadField);
        }
        if !(1..=MAX_ROUNDS).contains(&rounds) {
            return Err(Fault::BadField);
        }
        Ok(Crew {
            files,
            workers,
            rounds,
        })
    }
}
