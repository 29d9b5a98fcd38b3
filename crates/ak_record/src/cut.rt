//! A source that is cut at its line `%pool`.

ghost use Rattle.std.specs.Prelude.{◌≡◌, ◌<◌, ◌≤◌, ◌+◌, ℕ, ◌↔◌, List, IsTrue, length, position, IfOk, IfErr};
ghost use Rattle.ak_text.specs.Lines.{is_line_feed};
ghost use Rattle.ak_record.specs.Cuts.{IsPool, IsCut, IsUncut, IsThisCut, IsAfter};
ghost use Rattle.ak_record.specs.Walks.{IsFirstLine};

use ak_text::text::lines;

/// A source that is cut at its first line whose only word is `%pool`.
#[derive(Debug, Drop)]
pub struct Cut<'a> {
    /// The lines before it.
    pub script: &'a [u8],
    /// Its number, from 1.
    pub number: u32,
    /// The lines behind it.
    pub history: &'a [u8],
}

/// Cuts a source of fewer than 4,294,967,295 bytes at its first line whose only word is `%pool`. Own.
///
/// # Errors
///
/// Exactly where it has no such line, the number of the line after its last.
pub fn cut_at_pool(source: &[u8]) -> Result<Cut<'_>, u32>
    requires { length source.now < 4294967295 }
    ensures cut { IfOk result
        (λ cut. IsCut source.now cut.script.now cut.number cut.history.now) }
    ensures uncut { IfErr result (IsUncut source.now) }
    ensures one { (script history : List ℕ) (number : ℕ) → IsCut source.now script number history
        → IsThisCut result script number history }
    ensures none { (number : ℕ) → IsUncut source.now number → IsAfter result number }
    ensures short { IfOk result
        (λ cut. cut.number + length cut.history.now ≤ length source.now) }
{
    let mut start = 0;
    let mut number = 1;
    while start < source.len() {
        let end = start + line_len(&source[start..]);
        if is_pool(&source[start..end]) {
            return Ok(Cut {
                script: &source[..start],
                number,
                history: &source[end..],
            });
        }
        start = end;
        number += 1;
    }
    Err(number)
}

/// How many bytes the first line has, with its line end.
pub(crate) fn line_len(bytes: &[u8]) -> usize
    requires { 0 < length bytes.now }
    ensures { IsFirstLine bytes.now result }
{
    match line_end(bytes) {
        Some(end) => end + 1,
        None => bytes.len(),
    }
}

fn line_end(bytes: &[u8]) -> Option<usize>
    ensures { result ≡ position is_line_feed bytes.now }
{
    bytes.iter().position(|byte| *byte == b'\n')
}

/// Whether the only word of a line is `%pool`.
fn is_pool(line: &[u8]) -> bool
    requires { length line.now < 4294967295 }
    ensures { IsTrue result ↔ IsPool line.now }
{
    let Some(line) = lines(line).next() else {
        return false;
    };
    if line.is_bad() {
        return false;
    }
    let mut words = line.words();
    words.next() == Some(b"%pool") && words.next().is_none()
}
