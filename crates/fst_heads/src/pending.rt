//! What is still to be written before a patch is on disk, and how a row of patches adds up to that.

ghost use Rattle.std.specs.Prelude.{◌≡◌, ◌<◌, ◌≢◌, ◌+◌};
ghost use Rattle.fst_heads.specs.declared.pending.Pending.TheVariants as pending_as;
ghost use Rattle.fst_heads.specs.Pendings.{is_pending, meet, join, of_change, nothing, plus, minus, together, is_even, of_mean, joined_sums, Fits, HasIn};

use fst_types::Place;

/// What has still to reach the disk of a patch and of all that it depends on.
#[derive(Clone, Copy)]
pub enum Pending {
    /// It is on disk.
    Nothing,
    /// Changes of this block in memory, and empty patches and sealed gates over them.
    Block(u16),
    /// Changes of this block, of which some are in flight, and empty patches and sealed gates over them.
    Behind(u16),
    /// Changes of more than one block, and empty patches and sealed gates over them.
    Apart,
    /// An open gate, and perhaps changes.
    Held,
}

/// Whether the two are the same.
pub fn is_pending(pending: Pending, other: Pending) -> bool
    ensures { result ≡ is_pending pending other }
{
    match pending {
        Pending::Nothing => match other {
            Pending::Nothing => true,
            Pending::Block(_) | Pending::Behind(_) | Pending::Apart | Pending::Held => false,
        },
        Pending::Block(block) => match other {
            Pending::Block(second) => block == second,
            Pending::Nothing | Pending::Behind(_) | Pending::Apart | Pending::Held => false,
        },
        Pending::Behind(block) => match other {
            Pending::Behind(second) => block == second,
            Pending::Nothing | Pending::Block(_) | Pending::Apart | Pending::Held => false,
        },
        Pending::Apart => match other {
            Pending::Apart => true,
            Pending::Nothing | Pending::Block(_) | Pending::Behind(_) | Pending::Held => false,
        },
        Pending::Held => match other {
            Pending::Held => true,
            Pending::Nothing | Pending::Block(_) | Pending::Behind(_) | Pending::Apart => false,
        },
    }
}

/// Whether changes of the block in memory alone are pending.
pub fn is_of_block(pending: Pending, block: u32) -> bool
    ensures { result ≡ is_pending pending (pending_as.Block block) }
{
    match pending {
        Pending::Block(own) => u32::from(own) == block,
        Pending::Nothing | Pending::Behind(_) | Pending::Apart | Pending::Held => false,
    }
}

// That, where the two blocks are the same, and more than one block else.
fn meet(block: u16, other: u16, same: Pending) -> Pending
    ensures { result ≡ meet block other same }
{
    if other == block { same } else { Pending::Apart }
}

/// What is pending of two patches together.
pub fn join(pending: Pending, other: Pending) -> Pending
    ensures { result ≡ join pending other }
{
    match pending {
        Pending::Nothing => other,
        Pending::Block(block) => match other {
            Pending::Nothing => Pending::Block(block),
            Pending::Block(second) => meet(block, second, Pending::Block(block)),
            Pending::Behind(second) => meet(block, second, Pending::Behind(block)),
            Pending::Apart => Pending::Apart,
            Pending::Held => Pending::Held,
        },
        Pending::Behind(block) => match other {
            Pending::Nothing => Pending::Behind(block),
            Pending::Block(second) | Pending::Behind(second) => {
                meet(block, second, Pending::Behind(block))
            }
            Pending::Apart => Pending::Apart,
            Pending::Held => Pending::Held,
        },
        Pending::Apart => match other {
            Pending::Held => Pending::Held,
            Pending::Nothing | Pending::Block(_) | Pending::Behind(_) | Pending::Apart => {
                Pending::Apart
            }
        },
        Pending::Held => Pending::Held,
    }
}

/// What is pending of a change of the block at that place, over what is pending below it.
pub fn of_change(block: u16, place: Place, below: Pending) -> Pending
    ensures { result ≡ of_change block place below }
{
    match place {
        Place::Memory => join(Pending::Block(block), below),
        Place::Flight => join(Pending::Behind(block), below),
        Place::Disk => Pending::Nothing,
    }
}

/// How many patches of a row are not on disk, how many of these wait for an open gate, how many of the others for more than
/// one block, and how many of the rest for a block of which some is in flight, and the sums of the blocks of the rest and of
/// the squares of those blocks. The two sums tell whether all those blocks are the same, and follow where one patch of the
/// row changes, without a look at the others.
/// Blocks have 16 bits, and so has a count, since no more patches than 65,535 are not forgotten: that is why the sum of
/// the blocks has 32 bits, and that of their squares 48.
#[derive(Clone, Copy)]
pub struct Sums {
    pub count: u16,
    pub held: u16,
    pub apart: u16,
    pub behind: u16,
    pub total: u32,
    pub squares: u64,
}

/// The sums of no patch.
pub(crate) fn no_sums() -> Sums
    ensures { result ≡ nothing }
{
    Sums {
        count: 0,
        held: 0,
        apart: 0,
        behind: 0,
        total: 0,
        squares: 0,
    }
}

impl Sums {
    /// One patch more.
    pub fn add(&mut self, pending: Pending)
        requires fits { Fits self.old }
        requires room { (plus pending self.old).count < 65536 }
        ensures plus { self.new ≡ plus pending self.old }
        ensures fits { Fits self.new }
    {
        match pending {
            Pending::Nothing => {}
            Pending::Block(block) => {
                let wide = u64::from(block);
                self.count += 1;
                self.total += u32::from(block);
                self.squares += wide * wide;
            }
            Pending::Behind(block) => {
                let wide = u64::from(block);
                self.count += 1;
                self.behind += 1;
                self.total += u32::from(block);
                self.squares += wide * wide;
            }
            Pending::Apart => {
                self.count += 1;
                self.apart += 1;
            }
            Pending::Held => {
                self.count += 1;
                self.held += 1;
            }
        }
    }

    /// One patch less, which is in the row.
    fn take(&mut self, gone: Pending)
        requires { HasIn gone self.old }
        ensures minus { self.new ≡ minus gone self.old }
        ensures room { gone ≢ pending_as.Nothing → self.new.count < 65535 }
    {
        match gone {
            Pending::Nothing => {}
            Pending::Block(block) => {
                let wide = u64::from(block);
                self.count -= 1;
                self.total -= u32::from(block);
                self.squares -= wide * wide;
            }
            Pending::Behind(block) => {
                let wide = u64::from(block);
                self.count -= 1;
                self.behind -= 1;
                self.total -= u32::from(block);
                self.squares -= wide * wide;
            }
            Pending::Apart => {
                self.count -= 1;
                self.apart -= 1;
            }
            Pending::Held => {
                self.count -= 1;
                self.held -= 1;
            }
        }
    }

    /// One patch of the row, which was not on disk, has something else pending.
    pub fn change(&mut self, old: Pending, new: Pending)
        requires has { HasIn old self.old }
        requires live { old ≢ pending_as.Nothing }
        ensures moved { self.new ≡ plus new (minus old self.old) }
        ensures fits { Fits self.new }
    {
        self.take(old);
        self.add(new);
    }

    /// The sums of two rows together.
    pub fn with(self, other: Sums) -> Sums
        requires fits { Fits self }
        requires other { Fits other }
        requires room { self.count + other.count < 65536 }
        ensures { result ≡ together self other }
    {
        Sums {
            count: self.count + other.count,
            held: self.held + other.held,
            apart: self.apart + other.apart,
            behind: self.behind + other.behind,
            total: self.total + other.total,
            squares: self.squares + other.squares,
        }
    }

    // Whether all patches of the row wait for the mean block alone.
    fn is_even(&self) -> bool
        requires { 0 < self.now.count }
        ensures { result ≡ is_even self.now }
    {
        if self.apart > 0 {
            return false;
        }
        let count = u32::from(self.count);
        let block = self.total / count;
        block * count == self.total && u64::from(block) * u64::from(self.total) == self.squares
    }

    // What is pending of patches that all wait for the mean block.
    fn of_mean(&self) -> Pending
        requires fits { Fits self.now }
        requires some { 0 < self.now.count }
        ensures { result ≡ of_mean self.now }
    {
        let block = (self.total / u32::from(self.count)) as u16;
        if self.behind == 0 {
            Pending::Block(block)
        } else {
            Pending::Behind(block)
        }
    }

    /// What is pending of the row.
    pub fn joined(&self) -> Pending
        requires { Fits self.now }
        ensures { result ≡ joined_sums self.now }
    {
        if self.count == 0 {
            return Pending::Nothing;
        }
        if self.held > 0 {
            return Pending::Held;
        }
        if self.is_even() {
            self.of_mean()
        } else {
            Pending::Apart
        }
    }
}
