//! Why a text is no script.

ghost use Rattle.std.specs.Prelude.{◌≡◌};
ghost use Rattle.ak_syntax.specs.Faults.{kind_number};

use ak_base::list::NoMemory as AllocError;

/// Why a text is no script.
#[derive(Debug, Drop)]
pub enum ParseRefused {
    /// The number of the line, from 1, and of the kind: that of a `GrammarKind`, 1 to 4. A text over its limit is
    /// line 0.
    At { line: u32, kind: u8 },
    NoMemory,
}

impl ParseRefused {
    pub fn at(line: u32, kind: GrammarKind) -> ParseRefused
        ensures { result ≡ ParseRefused.At line (kind_number kind) }
    {
        ParseRefused::At {
            line,
            kind: kind.number(),
        }
    }
}

/// What is wrong with a text that is no script.
#[derive(Clone, Copy, PartialEq, Eq, Debug)]
pub enum GrammarKind {
    /// A line has no form of the grammar, or one that may not stand there.
    BadLine,
    /// The text has too many bytes.
    TooLong,
    /// The line makes a count exceed its limit.
    TooMany,
    /// A word that is to be a number is none in the range of its place.
    BadNumber,
}

impl GrammarKind {
    /// The number of the kind, from 1.
    pub fn number(self) -> u8
        ensures { result ≡ kind_number self }
    {
        match self {
            GrammarKind::BadLine => 1,
            GrammarKind::TooLong => 2,
            GrammarKind::TooMany => 3,
            GrammarKind::BadNumber => 4,
        }
    }
}

/// Why a part of a text is not read: what is wrong with it, or want of memory.
#[derive(Debug, Drop)]
pub enum Fault {
    Grammar(GrammarKind),
    NoMemory,
}

impl From<AllocError> for Fault {
    ghost use Rattle.ak_syntax.specs.declared.refusal.Fault.TheVariants.{NoMemory};

    ghost from_gives = { λ _ e. e ≡ NoMemory };

    fn from(_error: AllocError) -> Fault {
        Fault::NoMemory
    }
}
