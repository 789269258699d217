//! Which need of a block is the newest of each other block, so that it is found without a look at the others, and when they are to
//! be looked through again. Nothing is claimed of it: it tells a place among the needs of a block, and whoever asks looks at what
//! stands there.

use std::alloc::{AllocError, Global};

/// Where the newest need of the block `of` stands among the needs of one block, and the newest that was a hard change in memory
/// as it joined.
#[derive(Clone, Copy)]
struct Newest {
    of: u16,
    at: u32,
    hard: Option<u32>,
}

/// For each block one for each other block that it needs, as the numbers of those rise, and how many needs it has once they are
/// looked through. It takes a list and 8 bytes for each block, and 16 bytes for each block that one needs.
#[derive(Drop)]
pub struct Latest {
    lists: Vec<Vec<Newest>>,
    due: Vec<usize>,
}

// The newest of the block `of`, if there is one.
fn newest_of(list: &[Newest], of: u32) -> Option<Newest> {
    let of = u16::try_from(of).ok()?;
    let at = list.binary_search_by_key(&of, |newest| newest.of).ok()?;
    list.get(at).copied()
}

// The need of the block `of` that stands at that place is the newest, if there is a place to tell.
fn note_in(list: &mut Vec<Newest>, of: u16, at: u32, is_hard: bool) {
    let hard = if is_hard { Some(at) } else { None };
    match list.binary_search_by_key(&of, |newest| newest.of) {
        Ok(place) => {
            if let Some(newest) = list.get_mut(place) {
                newest.at = at;
                newest.hard = hard.or(newest.hard);
            }
        }
        Err(place) => {
            if list.len() < list.capacity() && place <= list.len() {
                let newest = Newest { of, at, hard };
                list.insert(place, newest).unwrap();
            }
        }
    }
}

impl Latest {
    /// Of no need.
    pub fn new(alloc: Global, blocks: u32) -> Result<Latest, AllocError> {
        let mut lists = Vec::with_capacity(alloc, blocks as usize)?;
        for _ in 0..blocks {
            lists.push(Vec::new(alloc))?;
        }
        let due = vec![in alloc; 0; blocks as usize]?;
        Ok(Latest { lists, due })
    }

    /// Where the newest need of the block `of` stands among those of the block.
    pub fn of(&self, block: u32, of: u32) -> Option<usize> {
        let list = self.lists.get(block as usize)?;
        let newest = newest_of(list, of)?;
        Some(newest.at as usize)
    }

    /// Where the newest need of the block `of` stands that was a hard change in memory as it joined.
    pub fn hard_of(&self, block: u32, of: u32) -> Option<usize> {
        let list = self.lists.get(block as usize)?;
        let at = newest_of(list, of)?.hard?;
        Some(at as usize)
    }

    /// How many other blocks the block needs.
    pub fn blocks(&self, block: u32) -> usize {
        match self.lists.get(block as usize) {
            Some(list) => list.len(),
            None => 0,
        }
    }

    /// Where the newest need of that one of them stands.
    pub fn at(&self, block: u32, turn: usize) -> Option<usize> {
        let newest = self.lists.get(block as usize)?.get(turn)?;
        Some(newest.at as usize)
    }

    /// Room for so many needs more of the block, each of a block of its own.
    pub fn reserve(&mut self, block: u32, more: usize) -> Result<(), AllocError> {
        match self.lists.get_mut(block as usize) {
            Some(list) => list.reserve(more),
            None => Ok(()),
        }
    }

    /// A need of the block `of` joins those of the block at that place. It takes no memory.
    pub fn note(&mut self, block: u32, of: u16, at: usize, is_hard: bool) {
        let (Some(list), Ok(at)) = (self.lists.get_mut(block as usize), u32::try_from(at)) else {
            return;
        };
        note_in(list, of, at, is_hard);
    }

    /// Whether the block needs so many that they are to be looked through for what it need not have any more.
    pub fn is_due(&self, block: u32, needs: usize) -> bool {
        match self.due.get(block as usize) {
            Some(due) => *due <= needs,
            None => false,
        }
    }

    /// They are to be looked through once the block needs so many.
    pub fn put_off(&mut self, block: u32, needs: usize) {
        if let Some(due) = self.due.get_mut(block as usize) {
            *due = needs;
        }
    }

    /// The block needs nothing any more.
    pub fn clear(&mut self, block: u32) {
        if let Some(list) = self.lists.get_mut(block as usize) {
            list.clear();
        }
        self.put_off(block, 0);
    }
}
