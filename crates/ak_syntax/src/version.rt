//! Versions of the language of scripts.

ghost use Rattle.std.specs.Prelude.{◌≡◌};
ghost use Rattle.ak_syntax.specs.Table.{has_mode, is_in};

use ak_script::statement::{GuardMode, Stmt};

/// A version of the language: a script is of version 2 where its first line with words is `async 2`, and else of version 1.
#[derive(Clone, Copy, PartialEq, Eq, Debug)]
pub enum Version {
    One,
    Two,
}

impl Version {
    /// Whether it has a `try` of the mode.
    fn has_mode(self, mode: GuardMode) -> bool
        ensures { result ≡ has_mode self mode }
    {
        match self {
            Version::One => matches!(mode, GuardMode::Drop),
            Version::Two => true,
        }
    }

    /// Whether it has the statement.
    pub fn has(self, stmt: &Stmt) -> bool
        ensures { result ≡ is_in self stmt.now }
    {
        match stmt {
            Stmt::Try { mode, .. } => self.has_mode(*mode),
            _ => true,
        }
    }
}
