//! Why a text is no source of the let dialect.

ghost use Rattle.std.specs.Prelude.{◌≡◌};
ghost use Rattle.ak_let_syntax.specs.Faults.{kind_number};

use ak_base::list::NoMemory as AllocError;
use ak_syntax::refusal::Fault;

/// What is wrong with a text that is no source.
#[derive(Clone, Copy, PartialEq, Eq, Debug)]
pub enum LetFault {
    /// A line has no form, or one that may not stand there; or the text ends inside a function, at the line after the last.
    BadLine,
    /// No function is named `main`: line 0.
    NoMain,
    /// A function or a local is named a second time.
    TwiceNamed,
    /// A function that is nowhere named, or a local that no line before has bound.
    UnknownName,
    /// The arguments are not as many as the parameters, or what takes an error has not one parameter, or `main` has any.
    WrongCount,
    /// The line makes more than 128 functions, or more than 15 lines or 7 locals in a function.
    TooMany,
    /// A word that is to be a number is none of 64 bits.
    BadNumber,
}

impl LetFault {
    /// The number of the kind, 31 to 37.
    pub fn number(self) -> u8
        ensures { result ≡ kind_number self }
    {
        match self {
            LetFault::BadLine => 31,
            LetFault::NoMain => 32,
            LetFault::TwiceNamed => 33,
            LetFault::UnknownName => 34,
            LetFault::WrongCount => 35,
            LetFault::TooMany => 36,
            LetFault::BadNumber => 37,
        }
    }
}

/// Why a text is not read.
#[derive(Debug, Drop)]
pub enum LetRefused {
    /// The number of the line, from 1, or 0 where no function is named `main`; and the number of the kind, 31 to 37.
    At { line: u32, kind: u8 },
    NoMemory,
}

impl LetRefused {
    pub fn at(line: u32, fault: LetFault) -> LetRefused
        ensures { result ≡ LetRefused.At line (kind_number fault) }
    {
        LetRefused::At {
            line,
            kind: fault.number(),
        }
    }
}

impl From<AllocError> for LetRefused {
    ghost use Rattle.ak_let_syntax.specs.declared.refusal.LetRefused.TheVariants.{NoMemory};

    ghost from_gives = { λ _ e. e ≡ NoMemory };

    fn from(_error: AllocError) -> LetRefused {
        LetRefused::NoMemory
    }
}

/// Why a line is not taken: what is wrong with it, or want of memory.
#[derive(Debug, Drop)]
pub enum LineRefused {
    Line(LetFault),
    NoMemory,
}

impl From<Fault> for LineRefused {
    ghost use Rattle.ak_let_syntax.specs.Lines.{line_refused};

    ghost from_gives = { λ fault e. e ≡ line_refused fault };

    fn from(fault: Fault) -> LineRefused {
        match fault {
            Fault::Grammar(_) => LineRefused::Line(LetFault::BadLine),
            Fault::NoMemory => LineRefused::NoMemory,
        }
    }
}

impl From<AllocError> for LineRefused {
    ghost use Rattle.ak_let_syntax.specs.declared.refusal.LineRefused.TheVariants.{NoMemory};

    ghost from_gives = { λ _ e. e ≡ NoMemory };

    fn from(_error: AllocError) -> LineRefused {
        LineRefused::NoMemory
    }
}
