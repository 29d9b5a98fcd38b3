//! Lines that a reader of rows skips.

ghost use Rattle.std.specs.Prelude.{◌≡◌};
ghost use Rattle.ak_text.specs.Lines.{counts};

use ak_text::line::Line;

/// Whether a line is not skipped: it has a word, or a byte that is bad outside a comment.
pub fn counts(line: &Line) -> bool
    ensures { result ≡ counts line.now }
{
    line.is_bad() || line.words().next().is_some()
}
