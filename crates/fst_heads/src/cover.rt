//! The newest change over each byte of a block. A new change of the block depends on each older one that shares a byte with
//! it, and of those over one byte it is enough to name the newest, since the others are below it. So a row is found by a
//! look at the bytes of the new change alone, however many changes lie under it.

ghost use Rattle.std.specs.Prelude.{◌≡◌, ◌≤◌, ◌<◌, ◌+◌, ◌++◌, ◌∷◌, [], ℕ, List, false, length, map, take, drop, vec_len, vec_capacity, Contains, IfOk, OnOk};
ghost use Rattle.fst_types.specs.Patches.{Patch};
ghost use Rattle.fst_heads.specs.Lists.{AreListed, entries_of};
ghost use Rattle.fst_heads.specs.Covers.{AreCovered, AreParted, HasRoomForRuns, IsPut, SaysTheSame, last_in, newest_over};

use crate::lists::Listed;
use fst_types::Span;
use std::alloc::{AllocError, Global};
use std::marker::Model;

// So many runs are moved twice sooner than a rotation moves them once.
const FEW_FOLLOW: usize = 128;

/// From this byte on, up to where the next run begins, the newest change has this number, 0 for none.
#[derive(Clone, Copy)]
pub struct Run {
    pub from: u32,
    pub number: u32,
}

// Two runs go between others. Where few follow, these move twice, which takes less than the room on the stack that a rotation
// clears; where many do, they move once.
fn put_between(runs: &mut Vec<Run>, first: usize, own: Run, end: Run)
    requires within { first ≤ length runs.old.items }
    requires room { vec_len runs.old + 2 ≤ vec_capacity runs.old }
    ensures { runs.new.items ≡ take first runs.old.items ++ own ∷ end ∷ drop first runs.old.items }
{
    if runs.len() - first < FEW_FOLLOW {
        runs.insert(first, end).unwrap();
        runs.insert(first, own).unwrap();
    } else {
        runs.push_reserved(own);
        runs.push_reserved(end);
        runs[first..].rotate_right(2);
    }
}

// Puts two runs in the place of those from the first on up to past. There is room for them, so that none is refused.
fn lay(runs: &mut Vec<Run>, first: usize, past: usize, own: Run, end: Run)
    requires ordered { first ≤ past }
    requires within { past ≤ length runs.old.items }
    requires room { vec_len runs.old + 2 ≤ vec_capacity runs.old }
    ensures { runs.new.items ≡ take first runs.old.items ++ own ∷ end ∷ drop past runs.old.items }
{
    match past - first {
        0 => put_between(runs, first, own, end),
        1 => {
            runs[first] = end;
            runs.insert(first, own).unwrap();
        }
        _ => {
            runs[first] = own;
            runs[first + 1] = end;
            // The last one first, so that only what stays is moved.
            for surplus in (first + 2..past).rev() {
                runs.remove(surplus);
            }
        }
    }
}

/// The runs of a block, by the bytes that they begin at; before the first one no change was made. So it takes 16 bytes for
/// each change at most, and no more than 8 for each byte of the block. A run is not taken out when its change lands: who
/// reads a number looks whether it is live. All are when no change of the block is left that is not on disk. `untold` is set
/// until then where a change was made of the block of which the runs do not tell: one without a byte, or whose bytes end past
/// `u32::MAX`.
#[derive(Drop)]
pub struct Cover {
    runs: Vec<Run>,
    untold: bool,
}

impl Model for Cover {
    ghost use Rattle.fst_heads.specs.Covers.{AreRising, Covering};

    ghost Value = { Covering };

    ghost view = { λ c. record { runs = c.runs; untold = c.untold } };

    ghost invariant = { λ c. AreRising c.runs.items };
}

impl Cover {
    /// No change was made of the block. It takes no memory.
    pub fn new(alloc: Global) -> Cover
        ensures runs { result.runs.items ≡ [] }
        ensures untold { result.untold ≡ false }
    {
        Cover {
            runs: Vec::new(alloc),
            untold: false,
        }
    }

    /// Whether a change was made of which the runs do not tell.
    pub fn has_untold(&self) -> bool
        ensures { result ≡ self.now.untold }
    {
        self.untold
    }

    /// Makes room for one more change. It means the same after it, also where there is no memory.
    pub fn reserve(&mut self) -> Result<(), AllocError>
        ensures same { SaysTheSame self.old self.new }
        ensures room { OnOk result (HasRoomForRuns self.new) }
    {
        self.runs.reserve(2)
    }

    /// No change was made of the block, as far as it is told. What memory it took stays for the next ones.
    pub fn clear(&mut self)
        ensures runs { self.new.runs.items ≡ [] }
        ensures untold { self.new.untold ≡ false }
    {
        self.runs.clear();
        self.untold = false;
    }

    // How many runs begin before the byte.
    fn before(&self, byte: u64) -> usize
        ensures { AreParted self.now.runs.items byte result }
    {
        match self.runs.binary_search_by_key(&byte, |run| run.from.into()) {
            Ok(at) => at,
            Err(at) => at,
        }
    }

    // The number that the last of so many runs tells.
    fn number_after(&self, runs: usize) -> u32
        requires { runs ≤ length self.now.runs.items }
        ensures { result ≡ last_in 0 (take runs self.now.runs.items) }
    {
        if runs == 0 {
            return 0;
        }
        self.runs[runs - 1].number
    }

    /// The number is that of the newest change, which has the span. It takes no memory.
    pub fn put(&mut self, span: Span, number: u32)
        requires { HasRoomForRuns self.old }
        ensures { IsPut self.old span.at span.len number self.new }
    {
        let from = span.at;
        let end = match from.checked_add(span.len) {
            Some(end) if from < end => end,
            _ => {
                self.untold = true;
                return;
            }
        };
        let first = self.before(u64::from(from));
        let past = self.before(u64::from(end) + 1);
        // What was over the byte at the end stays over what follows.
        let after = self.number_after(past);
        lay(
            &mut self.runs,
            first,
            past,
            Run { from, number },
            Run {
                from: end,
                number: after,
            },
        );
    }

    /// The runs over the bytes of the span, with the one that it begins in.
    pub fn over(&self, span: Span) -> &[Run]
        ensures { (x : ℕ) → span.at ≤ x → x < span.at + span.len → 1 ≤ newest_over self.now x → Contains (map (λ r. r.number) result.now) (newest_over self.now x) }
    {
        let at = u64::from(span.at);
        let first = self.before(at + 1).saturating_sub(1);
        let past = self.before(at + u64::from(span.len));
        &self.runs[first.min(past)..past]
    }
}

/// Where no change of the block is left that is not on disk, as its list says, its cover tells of none.
pub fn clear_landed(covers: &mut Vec<Cover>, lists: &[Vec<Listed>], block: u32)
    ensures { (patches : List Patch) → AreListed patches (length lists.now) (map (λ l. entries_of l.items) lists.now) → (blocks : ℕ) → AreCovered patches blocks covers.old.items → AreCovered patches blocks covers.new.items }
{
    if let Some(list) = lists.get(block as usize) {
        if list.is_empty() {
            if let Some(cover) = covers.get_mut(block as usize) {
                cover.clear();
            }
        }
    }
}

/// A cover for each block, of which no change was made.
pub fn empty_covers(alloc: Global, blocks: u32) -> Result<Vec<Cover>, AllocError>
    ensures { IfOk result (λ covers. AreCovered [] blocks covers.items) }
{
    let mut covers = Vec::with_capacity(alloc, blocks as usize)?;
    for _ in 0..blocks {
        covers.push_reserved(Cover::new(alloc));
    }
    Ok(covers)
}
