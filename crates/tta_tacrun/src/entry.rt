//! A call that is under way.

/// Which procedure was called, and the step that comes next in it.
#[derive(Clone, Copy)]
pub struct Entry {
    pub proc: usize,
    pub at: usize,
}
