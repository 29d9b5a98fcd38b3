//! What becomes of a body that is enqueued.

use ak_base::number::BodyNo;

/// Where a body went.
#[derive(Debug, Drop)]
pub enum Enqueued<B> {
    /// It runs now, under this number, and comes back to be started.
    Start { no: BodyNo, body: B },
    /// It waits, under this number.
    Waits { no: BodyNo },
}

/// Why a body was refused; it comes back.
#[derive(Debug, Drop)]
pub enum EnqueueRefused<B> {
    /// The throttle is dead.
    Dead(B),
    /// There was no memory.
    NoMemory(B),
}
