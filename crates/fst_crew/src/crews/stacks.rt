//! The stacks of a crew's threads.

use core::thread::Stack;

/// How many bytes of stack each thread asks for: the workers, and the file threads, in order. A thread that is not named
/// has what the system gives. Where the system cannot give that much no thread is made, which is how a test has one
/// refused.
#[derive(Clone, Copy)]
pub struct Stacks<'a> {
    pub workers: &'a [usize],
    pub files: &'a [usize],
}

/// What the system gives, for all threads.
pub const USUAL: Stacks<'static> = Stacks {
    workers: &[],
    files: &[],
};

/// The stack of the thread of this number.
pub fn stack(sizes: &[usize], at: usize) -> Stack {
    match sizes.get(at) {
        Some(size) => Stack::new().stack_size(*size),
        None => Stack::new(),
    }
}
