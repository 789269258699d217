//! One comparison for all types. An `assert_eq!` in a test is proved with all that the test knows so far: here it is proved
//! once. Texts are compared here too, as a test that took the bytes of a long text itself would be proved with what each of
//! them is.

use std::fmt::Debug;
use std::process::Abort;

/// The same answer.
pub fn same<T: PartialEq + Debug>(rt: &impl Abort, answer: &T, expected: &T) {
    assert_eq!(rt; answer, expected);
}

/// A text.
pub fn same_text(rt: &impl Abort, bytes: &[u8], expected: &str) {
    same(rt, &bytes, &expected.as_bytes());
}

/// The start of a text.
pub fn starts_with(rt: &impl Abort, bytes: &[u8], expected: &str) {
    assert!(rt; bytes.starts_with(expected.as_bytes()));
}
