//! A list that grows. Where `push` stands in a test itself, that is proved with all that the test holds, which is dropped where
//! there is no memory: here it is proved once, for all types.

use std::process::Abort;

/// Puts this at the end of a list.
pub fn push<T: Drop>(rt: &impl Abort, list: &mut Vec<T>, last: T) {
    list.push(last).expect(rt, "there is memory");
}
