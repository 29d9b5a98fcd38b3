//! What comes of writing to a pipe and reading from it.

use ak_base::number::Num;

/// A number was written.
#[derive(Debug, Drop)]
pub struct Wrote<R> {
    /// The read that took it, where one waited.
    pub served: Option<R>,
    /// Whether the pipe is free: its length is at most its budget.
    pub free: bool,
}

/// Why a number was not written.
#[derive(Clone, Copy, PartialEq, Eq, Debug)]
pub enum PutRefused {
    /// The pipe is closed.
    Closed,
    /// There was no memory.
    NoMemory,
}

/// What a read got.
#[derive(Debug, Drop)]
pub enum Got<R> {
    /// The front item, and the read comes back.
    Item { num: Num, r: R },
    /// No item is left and the pipe is closed, and the read comes back.
    Eof { r: R },
    /// The read waits.
    Waits,
}

/// Why a read was refused; it comes back.
#[derive(Debug, Drop)]
pub enum ReadRefused<R> {
    /// There was no memory.
    NoMemory(R),
}
