//! Where the head with a number stands, told at once also where numbers before it are missing. Nothing is claimed of it: whoever
//! asks looks at that place, and searches where it is not so.

use crate::head::Head;
use std::alloc::{AllocError, Global};

/// For each number, from one of the oldest on, how many heads stand before its own. As long as none between two heads is missing
/// it keeps nothing, since then that is how far the number is from the first. It takes 4 bytes for each number, and three megabytes
/// at most, where very old patches wait beside new ones.
#[derive(Drop)]
pub struct Directory {
    base: u32,
    places: Vec<u32>,
}

// Of so many numbers it tells once heads were dropped, the newest: four times as many as there may be heads.
const NEWEST: u32 = 262_144;

impl Directory {
    /// Of no number. It takes no memory.
    pub fn new(alloc: Global) -> Directory {
        Directory {
            base: 0,
            places: Vec::new(alloc),
        }
    }

    /// How many heads stand before the one with the number, as far as that is told here.
    pub fn place(&self, number: u32) -> usize {
        let offset = number.saturating_sub(self.base) as usize;
        if self.places.is_empty() {
            return offset;
        }
        match self.places.get(offset) {
            Some(place) => *place as usize,
            None => usize::MAX,
        }
    }

    /// Room to tell of so many numbers more, behind those of these heads.
    pub fn reserve(&mut self, heads: &[Head], more: u32) -> Result<(), AllocError> {
        let Some(last) = heads.last() else {
            return Ok(());
        };
        let numbers = last.number.saturating_sub(self.base) as usize + 1 + more as usize;
        self.places
            .reserve(numbers.saturating_sub(self.places.len()))
    }

    // So many heads stand before the one with the number, and before each that is missing before it, as far as there is room to
    // tell.
    fn note(&mut self, number: u32, before: usize) {
        let Ok(before) = u32::try_from(before) else {
            return;
        };
        let offset = number.saturating_sub(self.base) as usize;
        while self.places.len() <= offset && self.places.len() < self.places.capacity() {
            self.places.push_reserved(before);
        }
    }

    /// A head with the number stands behind all others, which are so many.
    pub fn grow(&mut self, number: u32, before: usize) {
        if before == 0 {
            self.places.clear();
            self.base = number;
        } else if !self.places.is_empty() {
            self.note(number, before);
        }
    }

    /// Others than these heads were dropped.
    pub fn follow(&mut self, heads: &[Head]) {
        self.places.clear();
        let (Some(first), Some(last)) = (heads.first(), heads.last()) else {
            return;
        };
        let span = last.number.saturating_sub(first.number);
        let base = first.number.max(last.number.saturating_sub(NEWEST));
        self.base = base;
        if (span as usize) < heads.len() {
            return;
        }
        for index in heads.partition_point(|head| head.number < base)..heads.len() {
            self.note(heads[index].number, index);
        }
    }
}
