//! How a tool ended.

ghost use Rattle.std.specs.Prelude.{◌≡◌};
ghost use Rattle.ak_tools.specs.Status.{number_of};

use ak_let_syntax::refusal::LetRefused;
use ak_reading::reading::ReadError;

/// How a tool ended.
#[derive(Clone, Copy, PartialEq, Eq, Debug)]
pub enum ToolStatus {
    /// All was written.
    Done,
    /// The words are no tool; `place` counts words from 0.
    Usage { place: u32 },
    /// The source is refused: a line from 1, or 0 for the source as a whole, and the kind of its fault: 20 for too many
    /// bytes, 31 to 37 for a fault of the let dialect.
    Refused { line: u32, kind: u8 },
    /// A read of the source failed.
    ReadFault,
    /// A write to the sink failed.
    WriteFault,
    /// There was no memory. Nothing was written.
    NoMemory,
}

impl ToolStatus {
    /// The exit status of the program: 0, 2, 3, 4, 5 or 7.
    pub fn number(self) -> u8
        ensures { result ≡ number_of self }
    {
        match self {
            ToolStatus::Done => 0,
            ToolStatus::Usage { .. } => 2,
            ToolStatus::Refused { .. } => 3,
            ToolStatus::ReadFault => 4,
            ToolStatus::WriteFault => 5,
            ToolStatus::NoMemory => 7,
        }
    }
}

impl From<ReadError> for ToolStatus {
    ghost use Rattle.std.specs.Prelude.{◌≡◌};
    ghost use Rattle.ak_tools.specs.Status.{status_by_read};

    ghost from_gives = { λ error status. status ≡ status_by_read error };

    fn from(error: ReadError) -> ToolStatus {
        match error {
            ReadError::Failed => ToolStatus::ReadFault,
            ReadError::NoMemory => ToolStatus::NoMemory,
        }
    }
}

impl From<LetRefused> for ToolStatus {
    ghost use Rattle.std.specs.Prelude.{◌≡◌};
    ghost use Rattle.ak_tools.specs.Status.{status_by_refusal};

    ghost from_gives = { λ refused status. status ≡ status_by_refusal refused };

    fn from(refused: LetRefused) -> ToolStatus {
        match refused {
            LetRefused::At { line, kind } => ToolStatus::Refused { line, kind },
            LetRefused::NoMemory => ToolStatus::NoMemory,
        }
    }
}
