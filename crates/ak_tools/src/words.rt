//! The tool that words give.

ghost use Rattle.std.specs.Prelude.{◌≡◌, ◌∷◌, IfErr, IfOk, MatchOption};
ghost use Rattle.ak_tools.specs.Words.{IsUsageFault, Means, word_of};

use ak_base::list::Word;

/// A tool.
#[derive(Clone, Copy, PartialEq, Eq, Debug)]
pub enum Tool {
    /// To compile a source of the let dialect.
    Let,
}

impl Tool {
    /// The tool of a word: `None` exactly where the word is of none.
    fn named(word: &Word) -> Option<Tool>
        ensures { MatchOption result ((tool : Tool) → word.now ≡ word_of tool → ⊥)
            (λ tool. word.now ≡ word_of tool) }
    {
        match word.as_slice() {
            b"let" => Some(Tool::Let),
            _ => None,
        }
    }
}

/// The tool that words give: its word alone. Own.
///
/// # Errors
///
/// Exactly where they are none, the place of the first word with which they are none, from 0; where they only begin one,
/// that is their number.
pub fn read_tool(words: &[Word]) -> Result<Tool, u32>
    ensures tool { IfOk result (Means words.now) }
    ensures usage { IfErr result (IsUsageFault words.now) }
{
    match words {
        [first, rest @ ..] => match Tool::named(first) {
            Some(tool) => alone(tool, rest),
            None => Err(0),
        },
        [] => Err(0),
    }
}

/// The tool, where no word stands behind its own.
fn alone(tool: Tool, rest: &[Word]) -> Result<Tool, u32>
    ensures tool { IfOk result (Means (word_of tool ∷ rest.now)) }
    ensures usage { IfErr result (IsUsageFault (word_of tool ∷ rest.now)) }
{
    match rest {
        [] => Ok(tool),
        [_, ..] => Err(1),
    }
}
