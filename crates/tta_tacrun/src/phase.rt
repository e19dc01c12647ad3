//! Whether a run goes on.

/// Whether a run goes on, and how it ended.
#[derive(Clone, Copy)]
pub enum Phase {
    Running,
    /// A `halt` was carried out; the calls stay under way.
    Stopped,
    /// `main` has returned, so that no call is under way.
    Returned,
}
