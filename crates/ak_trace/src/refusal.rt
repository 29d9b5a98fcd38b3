//! Why a text is no trace.

ghost use Rattle.std.specs.Prelude.{◌≡◌};

use ak_base::list::NoMemory as AllocError;
use std::error::Error;
use std::fmt;

/// Why a text is no trace.
#[derive(Clone, Copy, PartialEq, Eq, Debug)]
pub enum TraceRefused {
    /// The number, from 1, of the first line that is no entry.
    BadLine { line: u32 },
    NoMemory,
}

impl fmt::Display for TraceRefused {
    fn fmt<W: fmt::Write>(&self, f: &mut fmt::Formatter<W>) -> fmt::Result {
        match self {
            TraceRefused::BadLine { line } => write!(f, "line {line} is no entry of a trace"),
            TraceRefused::NoMemory => f.write_str("no memory"),
        }
    }
}

impl Error for TraceRefused {}

impl From<AllocError> for TraceRefused {
    ghost use Rattle.ak_trace.specs.declared.refusal.TraceRefused.TheVariants.{NoMemory};

    ghost from_gives = { λ _ e. e ≡ NoMemory };

    fn from(_error: AllocError) -> TraceRefused {
        TraceRefused::NoMemory
    }
}
