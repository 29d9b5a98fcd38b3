//! Why a script is not valid.

ghost use Rattle.std.specs.Prelude.{◌≡◌};
ghost use Rattle.ak_valid.specs.Faults.{kind_number};

use ak_base::list::NoMemory as AllocError;

/// Why a script is not valid: the first line that has a fault, and the least kind of its faults; or want of memory.
#[derive(Debug, Drop)]
pub enum ValidRefused {
    /// The line from 1, or 0 where no procedure is named `main`, and the number of the kind, from 5 to 9.
    At { line: u32, kind: u8 },
    NoMemory,
}

/// The kind of a fault.
#[derive(Clone, Copy, PartialEq, Eq, Debug)]
pub enum FaultKind {
    /// 5: no procedure is named `main`.
    NoMain,
    /// 6: the name of a procedure or of a local is named a second time.
    TwiceNamed,
    /// 7: a procedure that is nowhere named, or a local that no line before binds.
    UnknownName,
    /// 8: a local or a number where another kind is wanted.
    WrongKind,
    /// 9: a call passes more or fewer values than the procedure has parameters, or `main` has parameters.
    WrongCount,
}

impl FaultKind {
    /// The number of the kind, as a refusal tells it.
    pub fn number(self) -> u8
        ensures { result ≡ kind_number self }
    {
        match self {
            FaultKind::NoMain => 5,
            FaultKind::TwiceNamed => 6,
            FaultKind::UnknownName => 7,
            FaultKind::WrongKind => 8,
            FaultKind::WrongCount => 9,
        }
    }
}

impl From<AllocError> for ValidRefused {
    ghost use Rattle.ak_valid.specs.declared.refusal.ValidRefused.TheVariants.{NoMemory};

    ghost from_gives = { λ _ e. e ≡ NoMemory };

    fn from(_error: AllocError) -> ValidRefused {
        ValidRefused::NoMemory
    }
}
