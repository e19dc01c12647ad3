//! What a module does beside carrying out its code.

/// What the module of a machine is asked to do.
#[derive(Clone, Copy)]
pub struct Features {
    /// Whether it tells the first fault and stops there.
    pub faults: bool,
    /// Whether it leaves to modules beside it what takes several cycles: divisions, and operations of
    /// one's own.
    pub modules: bool,
}
