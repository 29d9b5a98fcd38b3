//! The first words of entries, by groups.

ghost use Rattle.std.specs.Prelude.{◌≡◌};
ghost use Rattle.ak_trace.specs.Taken.{job_word, job_named, error_word, error_named, pool_word, pool_named};

/// First words of entries on jobs and deferreds.
#[derive(Clone, Copy, PartialEq, Eq, Debug)]
pub enum JobWord {
    Cycle,
    Enq,
    Job,
    Fill,
    Join,
    Print,
}

impl JobWord {
    fn bytes(self) -> &'static [u8]
        ensures { result.now ≡ job_word self }
    {
        match self {
            JobWord::Cycle => b"cycle",
            JobWord::Enq => b"enq",
            JobWord::Job => b"job",
            JobWord::Fill => b"fill",
            JobWord::Join => b"join",
            JobWord::Print => b"print",
        }
    }

    /// The one that the word is.
    #[tactic(auto, unfolding(crate::specs::Taken::job_named))]
    pub fn named(word: &[u8]) -> Option<JobWord>
        ensures { result ≡ job_named word.now }
    {
        let all = [
            JobWord::Cycle,
            JobWord::Enq,
            JobWord::Job,
            JobWord::Fill,
            JobWord::Join,
            JobWord::Print,
        ];
        all.iter().copied().find(|first| first.bytes() == word)
    }
}

/// First words of entries on monitors and errors.
#[derive(Clone, Copy, PartialEq, Eq, Debug)]
pub enum ErrorWord {
    Monitor,
    Detach,
    Attach,
    Error,
    Caught,
    Rest,
    Unhandled,
}

impl ErrorWord {
    fn bytes(self) -> &'static [u8]
        ensures { result.now ≡ error_word self }
    {
        match self {
            ErrorWord::Monitor => b"monitor",
            ErrorWord::Detach => b"detach",
            ErrorWord::Attach => b"attach",
            ErrorWord::Error => b"error",
            ErrorWord::Caught => b"caught",
            ErrorWord::Rest => b"rest",
            ErrorWord::Unhandled => b"unhandled",
        }
    }

    /// The one that the word is.
    #[tactic(auto, unfolding(crate::specs::Taken::error_named))]
    pub fn named(word: &[u8]) -> Option<ErrorWord>
        ensures { result ≡ error_named word.now }
    {
        let all = [
            ErrorWord::Monitor,
            ErrorWord::Detach,
            ErrorWord::Attach,
            ErrorWord::Error,
            ErrorWord::Caught,
            ErrorWord::Rest,
            ErrorWord::Unhandled,
        ];
        all.iter().copied().find(|first| first.bytes() == word)
    }
}

/// First words of entries on works, helpers and requests, and of the last entry.
#[derive(Clone, Copy, PartialEq, Eq, Debug)]
pub enum PoolWord {
    Submit,
    Helper,
    Arrive,
    Request,
    Answer,
    End,
}

impl PoolWord {
    fn bytes(self) -> &'static [u8]
        ensures { result.now ≡ pool_word self }
    {
        match self {
            PoolWord::Submit => b"submit",
            PoolWord::Helper => b"helper",
            PoolWord::Arrive => b"arrive",
            PoolWord::Request => b"request",
            PoolWord::Answer => b"answer",
            PoolWord::End => b"end",
        }
    }

    /// The one that the word is.
    #[tactic(auto, unfolding(crate::specs::Taken::pool_named))]
    pub fn named(word: &[u8]) -> Option<PoolWord>
        ensures { result ≡ pool_named word.now }
    {
        let all = [
            PoolWord::Submit,
            PoolWord::Helper,
            PoolWord::Arrive,
            PoolWord::Request,
            PoolWord::Answer,
            PoolWord::End,
        ];
        all.iter().copied().find(|first| first.bytes() == word)
    }
}
