//! The heads of all patches, in the order of their numbers, and where the one with a number stands.

ghost use Rattle.std.specs.Prelude.{◌≡◌, ◌<◌, ◌≤◌, ◌+◌, ◌++◌, ◌∷◌, [], All, OnOk, IfSome, IfNone, vec_len, vec_capacity};
ghost use Rattle.fst_heads.specs.Heads.{IsRising};
ghost use Rattle.fst_heads.specs.Indices.{HasIndex, HasNone};

use crate::directory::Directory;
use crate::head::Head;
use crate::numbered::index_in;
use std::alloc::{AllocError, Global};

/// Heads in the order of their numbers, which rise: no two have the same. Where one stands is told by the directory.
#[derive(Drop)]
pub struct Heads {
    pub list: Vec<Head>,
    pub directory: Directory,
    pub ghost rising: { IsRising list.items },
}

impl Heads {
    /// No head. It takes no memory.
    pub fn new(alloc: Global) -> Heads
        ensures { result.list.items ≡ [] }
    {
        Heads {
            list: Vec::new(alloc),
            directory: Directory::new(alloc),
        }
    }

    /// Room for so many heads more.
    pub fn reserve(&mut self, more: u32) -> Result<(), AllocError>
        ensures same { self.new.list.items ≡ self.old.list.items }
        ensures room { OnOk result (vec_len self.new.list + more ≤ vec_capacity self.new.list) }
        ensures wide { vec_capacity self.old.list ≤ vec_capacity self.new.list }
    {
        self.list.reserve(more as usize)?;
        self.directory.reserve(&self.list, more)
    }

    /// One head more, for which there is room, with the greatest number.
    pub fn push(&mut self, head: Head)
        requires free { vec_len self.old.list < vec_capacity self.old.list }
        requires newest { All (λ h. h.number < head.number) self.old.list.items }
        ensures list { self.new.list.items ≡ self.old.list.items ++ head ∷ [] }
        ensures len { vec_len self.new.list ≡ vec_len self.old.list + 1 }
        ensures capacity { vec_capacity self.new.list ≡ vec_capacity self.old.list }
    {
        self.directory.grow(head.number, self.list.len());
        self.list.push_reserved(head);
    }

    /// The index of the head with this number.
    pub fn index_of(&self, number: u32) -> Option<usize>
        ensures found { IfSome result (λ index. HasIndex self.now.list.items number index) }
        ensures none { IfNone result (HasNone self.now.list.items number) }
    {
        index_in(&self.list, &self.directory, number)
    }
}
