//! Why a request from outside is refused.

use ak_base::number::RequestNo;
use std::alloc::AllocError;

/// Why an asker's request was not made.
#[derive(Clone, Copy, PartialEq, Eq, Debug)]
pub enum RequestRefused {
    /// The pool was closed.
    Closed,
    /// The asker has ended.
    Ended,
    /// The asker's request `no` has no answer yet.
    Waiting { no: RequestNo },
    /// Want of memory.
    NoMemory,
}

impl From<AllocError> for RequestRefused {
    ghost use Rattle.std.specs.Prelude.{◌≡◌};
    ghost use Rattle.ak_hub.specs.declared.asking.RequestRefused.TheVariants.{NoMemory};

    ghost from_gives = { λ _ e. e ≡ NoMemory };

    fn from(_error: AllocError) -> RequestRefused {
        RequestRefused::NoMemory
    }
}
