//! Forgetting: heads are marked while few would go, and dropped once they are many.

ghost use Rattle.fst_graph.specs.Known.{Forgets};

use crate::prepared::let_go;
use crate::sparse::Sparse;
use fst_levels::flags::flag_all;

// So many heads of patches on disk may stay whatever else there is. They take less than a megabyte; and as long as none between
// is dropped, the head with a number is found at once.
const SPARE: usize = 4_096;

impl Sparse {
    // Forgets those that landed, whose heads stay, each marked so.
    fn mark_landed(&mut self) -> u32
        ensures { Forgets self.old result self.new }
    {
        let_go(&mut self.prepared);
        flag_all(&self.columns.levels, &mut self.columns.heads, &self.landed);
        self.columns.levels.ease();
        let many = self.landed.len();
        self.forgotten += many;
        self.landed.clear();
        many as u32
    }

    // Forgets those that landed, and drops all heads of patches on disk.
    fn drop_landed(&mut self) -> u32
        ensures { Forgets self.old result self.new }
    {
        let_go(&mut self.prepared);
        self.columns
            .levels
            .forget(&mut self.columns.heads, self.live);
        self.columns.levels.ease();
        self.columns.ends.shrink(self.columns.heads.list.len());
        self.forgotten = 0;
        let many = self.landed.len();
        self.landed.clear();
        many as u32
    }

    /// Forgets the patches on disk, and answers how many they were. It takes no memory. What is dropped moves the heads
    /// behind it, so that the heads are only marked until a quarter of all, and no fewer than 4,096, are of patches on disk:
    /// then these are dropped.
    pub fn forget(&mut self) -> u32
        ensures { Forgets self.old result self.new }
    {
        let dropped = self.columns.heads.list.len() - self.live;
        if dropped < SPARE.max(self.columns.heads.list.len() / 4) {
            self.mark_landed()
        } else {
            self.drop_landed()
        }
    }
}
