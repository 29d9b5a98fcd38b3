//! How far a body came.

use ak_base::number::IvarNo;

/// How far a body of a throttle came.
#[derive(Debug, Drop)]
pub enum Stage<B> {
    /// It waits, and has not started.
    Waiting(B),
    /// It runs.
    Running,
    /// It ended, failed or was dropped.
    Over,
}

/// A deferred that waits until the first `count` bodies are over.
#[derive(Clone, Copy, PartialEq, Eq, Debug)]
pub struct Mark {
    pub ivar: IvarNo,
    pub count: u32,
}
