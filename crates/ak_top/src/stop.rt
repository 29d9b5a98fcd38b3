//! Why a command has no run.

ghost use Rattle.std.specs.Prelude.{◌≡◌};
ghost use Rattle.ak_top.specs.Stops.{status_at};

use crate::status::Status;
use ak_reading::reading::ReadError;
use ak_syntax::refusal::ParseRefused;
use ak_valid::refusal::ValidRefused;

/// Why a command has no run.
#[derive(Clone, Copy, PartialEq, Eq, Debug)]
pub enum Stop {
    /// A read of the source failed.
    ReadFault,
    /// The script is refused: a line from 1, or 0 for the script as a whole, and the kind of the fault.
    Refused { line: u32, kind: u8 },
    NoMemory,
}

impl Stop {
    /// The status that tells it.
    pub fn status(self) -> Status
        ensures { result ≡ status_at self }
    {
        match self {
            Stop::ReadFault => Status::ReadFault,
            Stop::Refused { line, kind } => Status::Refused { line, kind },
            Stop::NoMemory => Status::NoMemory,
        }
    }
}

impl From<ReadError> for Stop {
    ghost use Rattle.std.specs.Prelude.{◌≡◌};
    ghost use Rattle.ak_top.specs.Stops.{stop_by_read};

    ghost from_gives = { λ error stop. stop ≡ stop_by_read error };

    fn from(error: ReadError) -> Stop {
        match error {
            ReadError::Failed => Stop::ReadFault,
            ReadError::NoMemory => Stop::NoMemory,
        }
    }
}

impl From<ParseRefused> for Stop {
    ghost use Rattle.std.specs.Prelude.{◌≡◌};
    ghost use Rattle.ak_top.specs.Stops.{stop_by_parse};

    ghost from_gives = { λ error stop. stop ≡ stop_by_parse error };

    fn from(error: ParseRefused) -> Stop {
        match error {
            ParseRefused::At { line, kind } => Stop::Refused { line, kind },
            ParseRefused::NoMemory => Stop::NoMemory,
        }
    }
}

impl From<ValidRefused> for Stop {
    ghost use Rattle.std.specs.Prelude.{◌≡◌};
    ghost use Rattle.ak_top.specs.Stops.{stop_by_validity};

    ghost from_gives = { λ error stop. stop ≡ stop_by_validity error };

    fn from(error: ValidRefused) -> Stop {
        match error {
            ValidRefused::At { line, kind } => Stop::Refused { line, kind },
            ValidRefused::NoMemory => Stop::NoMemory,
        }
    }
}
