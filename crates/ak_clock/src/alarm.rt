//! Alarms.

use ak_base::number::{EventNo, IvarNo, Num};

/// An alarm that is pending: its number, its time, and the deferred that it fills.
#[derive(Clone, Copy, PartialEq, Eq, Debug)]
pub struct Alarm {
    pub no: EventNo,
    pub time: Num,
    pub ivar: IvarNo,
}

/// Why an alarm was not set.
#[derive(Clone, Copy, PartialEq, Eq, Debug)]
pub enum AfterRefused {
    /// Its time would have more than 64 bits.
    Overflow,
    /// There was no memory.
    NoMemory,
}

/// Why the clock did not move.
#[derive(Clone, Copy, PartialEq, Eq, Debug)]
pub enum TickRefused {
    /// It would go back.
    Negative,
    /// Its time would have more than 64 bits.
    Overflow,
}
