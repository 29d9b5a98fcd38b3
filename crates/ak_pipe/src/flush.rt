//! Flushes.

use ak_base::number::IvarNo;

/// A deferred that waits until the first `count` numbers written are consumed.
#[derive(Clone, Copy, PartialEq, Eq, Debug)]
pub struct Flush {
    pub ivar: IvarNo,
    pub count: u32,
}
