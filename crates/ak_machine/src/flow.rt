//! Whether a run goes on.

use ak_base::number::Num;

/// Whether a run goes on.
#[derive(Clone, Copy, PartialEq, Eq, Debug)]
pub enum Flow {
    /// It goes on.
    On,
    /// The script has stopped it.
    Stopped,
    /// An error that no monitor caught has ended it.
    Unhandled(Num),
}
