//! What came of a write.

/// A write worked, or the device failed it. A write that failed may have changed the bytes all the same.
#[derive(Clone, Copy, PartialEq, Eq, Debug)]
pub enum Outcome {
    Written,
    Failed,
}
