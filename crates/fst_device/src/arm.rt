//! Failures that a slot in memory is told to have.

/// What the next call of its kind is to do, once. Reads and writes are armed apart, and the newest arm of each counts.
#[derive(Clone, Copy, PartialEq, Eq, Debug)]
pub enum Arm {
    /// The next read fails.
    ReadFails,
    /// The next write fails, and the old bytes stay.
    WriteFailsBefore,
    /// The next write fails, and the new bytes stand.
    WriteFailsAfter,
}

/// What the next write does, as contracts see it: no call takes or gives one.
#[derive(Clone, Copy, PartialEq, Eq, Debug)]
pub enum NextWrite {
    Works,
    FailsBefore,
    FailsAfter,
}
