//! The lines of a text.

ghost use Rattle.std.specs.Prelude.{◌≡◌, ◌<◌, length};
ghost use Rattle.ak_text.specs.Lines.{text_lines};

use crate::line::Lines;

/// The lines of a text in order, those without words included. A line ends with LF; what follows the last LF is a
/// line where it is not empty. A CR before an LF or at the end of the text is dropped.
pub fn lines(bytes: &[u8]) -> Lines<'_>
    requires { length bytes.now < 4294967295 }
    ensures { result ≡ text_lines bytes.now }
{
    Lines::new(bytes)
}
