//! Why a text is no history.

ghost use Rattle.std.specs.Prelude.{◌≡◌};

use ak_base::list::NoMemory as AllocError;
use std::error::Error;
use std::fmt;

/// Why a text is no history.
#[derive(Clone, Copy, PartialEq, Eq, Debug)]
pub enum HistoryRefused {
    /// The number of the first line that is none of a history, or whose events make their number more than 16,000,000.
    BadLine { line: u32 },
    NoMemory,
}

impl fmt::Display for HistoryRefused {
    fn fmt<W: fmt::Write>(&self, f: &mut fmt::Formatter<W>) -> fmt::Result {
        match self {
            HistoryRefused::BadLine { line } => write!(f, "line {line} is no line of a history"),
            HistoryRefused::NoMemory => f.write_str("no memory"),
        }
    }
}

impl Error for HistoryRefused {}

impl From<AllocError> for HistoryRefused {
    ghost use Rattle.ak_history.specs.declared.refusal.HistoryRefused.TheVariants.{NoMemory};

    ghost from_gives = { λ _ e. e ≡ NoMemory };

    fn from(_error: AllocError) -> HistoryRefused {
        HistoryRefused::NoMemory
    }
}
