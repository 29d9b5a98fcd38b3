//! Lines of a history.

ghost use Rattle.std.specs.Prelude.{◌≡◌};
ghost use Rattle.ak_history.specs.Taking.{first_word, first_named};

use crate::event::Event;

/// A line of a history: so many drains one after another that bring nothing, or another event.
#[derive(Debug, Drop)]
pub enum HistoryLine {
    /// From 1 to 1,000,000 drains, in a text that is read.
    Idle(u32),
    Of(Event),
}

/// First words of lines.
#[derive(Clone, Copy, PartialEq, Eq, Debug)]
pub enum FirstWord {
    Submit,
    Start,
    Finish,
    Request,
    AskerEnd,
    Drain,
    Answered,
    Idle,
    Helper,
    HelperEnd,
    Close,
}

impl FirstWord {
    fn bytes(self) -> &'static [u8]
        ensures { result.now ≡ first_word self }
    {
        match self {
            FirstWord::Submit => b"submit",
            FirstWord::Start => b"start",
            FirstWord::Finish => b"finish",
            FirstWord::Request => b"request",
            FirstWord::AskerEnd => b"askerend",
            FirstWord::Drain => b"drain",
            FirstWord::Answered => b"answered",
            FirstWord::Idle => b"idle",
            FirstWord::Helper => b"helper",
            FirstWord::HelperEnd => b"helperend",
            FirstWord::Close => b"close",
        }
    }

    /// The one that the word is.
    #[tactic(auto, unfolding(crate::specs::Taking::first_named))]
    pub fn named(word: &[u8]) -> Option<FirstWord>
        ensures { result ≡ first_named word.now }
    {
        let all = [
            FirstWord::Submit,
            FirstWord::Start,
            FirstWord::Finish,
            FirstWord::Request,
            FirstWord::AskerEnd,
            FirstWord::Drain,
            FirstWord::Answered,
            FirstWord::Idle,
            FirstWord::Helper,
            FirstWord::HelperEnd,
            FirstWord::Close,
        ];
        all.iter().copied().find(|first| first.bytes() == word)
    }
}
