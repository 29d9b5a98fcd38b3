//! The first words of the statements, by groups.

ghost use Rattle.std.specs.Prelude.{◌≡◌};
ghost use Rattle.ak_syntax.specs.Keywords.{value_word, value_named, deferred_word, deferred_named, group_word, group_named, job_word, job_named, monitor_word, monitor_named, throttle_word, throttle_named, pipe_word, pipe_named, closing_word, closing_named, pool_word, pool_named};

/// First words of statements on numbers, printing, and the end of a procedure.
#[derive(Clone, Copy, PartialEq, Eq, Debug)]
pub enum ValueWord {
    Set,
    Print,
    Raise,
    Ret,
    Stop,
}

impl ValueWord {
    fn bytes(self) -> &'static [u8]
        ensures { result.now ≡ value_word self }
    {
        match self {
            ValueWord::Set => b"set",
            ValueWord::Print => b"print",
            ValueWord::Raise => b"raise",
            ValueWord::Ret => b"ret",
            ValueWord::Stop => b"stop",
        }
    }

    /// The one that the word is.
    #[tactic(auto, unfolding(crate::specs::Keywords::value_named))]
    pub fn named(word: &[u8]) -> Option<ValueWord>
        ensures { result ≡ value_named word.now }
    {
        let all = [
            ValueWord::Set,
            ValueWord::Print,
            ValueWord::Raise,
            ValueWord::Ret,
            ValueWord::Stop,
        ];
        all.iter().copied().find(|first| first.bytes() == word)
    }
}

/// First words of statements on deferreds.
#[derive(Clone, Copy, PartialEq, Eq, Debug)]
pub enum DeferredWord {
    Ivar,
    Fill,
    Offer,
    Upon,
    Bind,
    Yield,
    Never,
}

impl DeferredWord {
    fn bytes(self) -> &'static [u8]
        ensures { result.now ≡ deferred_word self }
    {
        match self {
            DeferredWord::Ivar => b"ivar",
            DeferredWord::Fill => b"fill",
            DeferredWord::Offer => b"offer",
            DeferredWord::Upon => b"upon",
            DeferredWord::Bind => b"bind",
            DeferredWord::Yield => b"yield",
            DeferredWord::Never => b"never",
        }
    }

    /// The one that the word is.
    #[tactic(auto, unfolding(crate::specs::Keywords::deferred_named))]
    pub fn named(word: &[u8]) -> Option<DeferredWord>
        ensures { result ≡ deferred_named word.now }
    {
        let all = [
            DeferredWord::Ivar,
            DeferredWord::Fill,
            DeferredWord::Offer,
            DeferredWord::Upon,
            DeferredWord::Bind,
            DeferredWord::Yield,
            DeferredWord::Never,
        ];
        all.iter().copied().find(|first| first.bytes() == word)
    }
}

/// First words of statements on groups of deferreds.
#[derive(Clone, Copy, PartialEq, Eq, Debug)]
pub enum GroupWord {
    All,
    Any,
    Choose,
    Try,
}

impl GroupWord {
    fn bytes(self) -> &'static [u8]
        ensures { result.now ≡ group_word self }
    {
        match self {
            GroupWord::All => b"all",
            GroupWord::Any => b"any",
            GroupWord::Choose => b"choose",
            GroupWord::Try => b"try",
        }
    }

    /// The one that the word is.
    #[tactic(auto, unfolding(crate::specs::Keywords::group_named))]
    pub fn named(word: &[u8]) -> Option<GroupWord>
        ensures { result ≡ group_named word.now }
    {
        let all = [
            GroupWord::All,
            GroupWord::Any,
            GroupWord::Choose,
            GroupWord::Try,
        ];
        all.iter().copied().find(|first| first.bytes() == word)
    }
}

/// First words of statements on jobs and the clock.
#[derive(Clone, Copy, PartialEq, Eq, Debug)]
pub enum JobWord {
    Sched,
    Low,
    After,
    Event,
    Abort,
    Tick,
}

impl JobWord {
    fn bytes(self) -> &'static [u8]
        ensures { result.now ≡ job_word self }
    {
        match self {
            JobWord::Sched => b"sched",
            JobWord::Low => b"low",
            JobWord::After => b"after",
            JobWord::Event => b"event",
            JobWord::Abort => b"abort",
            JobWord::Tick => b"tick",
        }
    }

    /// The one that the word is.
    #[tactic(auto, unfolding(crate::specs::Keywords::job_named))]
    pub fn named(word: &[u8]) -> Option<JobWord>
        ensures { result ≡ job_named word.now }
    {
        let all = [
            JobWord::Sched,
            JobWord::Low,
            JobWord::After,
            JobWord::Event,
            JobWord::Abort,
            JobWord::Tick,
        ];
        all.iter().copied().find(|first| first.bytes() == word)
    }
}

/// First words of statements on monitors.
#[derive(Clone, Copy, PartialEq, Eq, Debug)]
pub enum MonitorWord {
    Monitor,
    Within,
    Detach,
    OnError,
    NextError,
    Send,
}

impl MonitorWord {
    fn bytes(self) -> &'static [u8]
        ensures { result.now ≡ monitor_word self }
    {
        match self {
            MonitorWord::Monitor => b"monitor",
            MonitorWord::Within => b"within",
            MonitorWord::Detach => b"detach",
            MonitorWord::OnError => b"onerror",
            MonitorWord::NextError => b"nexterr",
            MonitorWord::Send => b"send",
        }
    }

    /// The one that the word is.
    #[tactic(auto, unfolding(crate::specs::Keywords::monitor_named))]
    pub fn named(word: &[u8]) -> Option<MonitorWord>
        ensures { result ≡ monitor_named word.now }
    {
        let all = [
            MonitorWord::Monitor,
            MonitorWord::Within,
            MonitorWord::Detach,
            MonitorWord::OnError,
            MonitorWord::NextError,
            MonitorWord::Send,
        ];
        all.iter().copied().find(|first| first.bytes() == word)
    }
}

/// First words of statements on throttles.
#[derive(Clone, Copy, PartialEq, Eq, Debug)]
pub enum ThrottleWord {
    Throttle,
    Enqueue,
    ThrottleDone,
}

impl ThrottleWord {
    fn bytes(self) -> &'static [u8]
        ensures { result.now ≡ throttle_word self }
    {
        match self {
            ThrottleWord::Throttle => b"throttle",
            ThrottleWord::Enqueue => b"enqueue",
            ThrottleWord::ThrottleDone => b"tdone",
        }
    }

    /// The one that the word is.
    #[tactic(auto, unfolding(crate::specs::Keywords::throttle_named))]
    pub fn named(word: &[u8]) -> Option<ThrottleWord>
        ensures { result ≡ throttle_named word.now }
    {
        let all = [
            ThrottleWord::Throttle,
            ThrottleWord::Enqueue,
            ThrottleWord::ThrottleDone,
        ];
        all.iter().copied().find(|first| first.bytes() == word)
    }
}

/// First words of statements on pipes.
#[derive(Clone, Copy, PartialEq, Eq, Debug)]
pub enum PipeWord {
    Pipe,
    Write,
    Put,
    Read,
}

impl PipeWord {
    fn bytes(self) -> &'static [u8]
        ensures { result.now ≡ pipe_word self }
    {
        match self {
            PipeWord::Pipe => b"pipe",
            PipeWord::Write => b"write",
            PipeWord::Put => b"put",
            PipeWord::Read => b"rd",
        }
    }

    /// The one that the word is.
    #[tactic(auto, unfolding(crate::specs::Keywords::pipe_named))]
    pub fn named(word: &[u8]) -> Option<PipeWord>
        ensures { result ≡ pipe_named word.now }
    {
        let all = [
            PipeWord::Pipe,
            PipeWord::Write,
            PipeWord::Put,
            PipeWord::Read,
        ];
        all.iter().copied().find(|first| first.bytes() == word)
    }
}

/// First words of statements on the ends of pipes.
#[derive(Clone, Copy, PartialEq, Eq, Debug)]
pub enum ClosingWord {
    Close,
    CloseRead,
    Flushed,
}

impl ClosingWord {
    fn bytes(self) -> &'static [u8]
        ensures { result.now ≡ closing_word self }
    {
        match self {
            ClosingWord::Close => b"close",
            ClosingWord::CloseRead => b"closeread",
            ClosingWord::Flushed => b"flushed",
        }
    }

    /// The one that the word is.
    #[tactic(auto, unfolding(crate::specs::Keywords::closing_named))]
    pub fn named(word: &[u8]) -> Option<ClosingWord>
        ensures { result ≡ closing_named word.now }
    {
        let all = [
            ClosingWord::Close,
            ClosingWord::CloseRead,
            ClosingWord::Flushed,
        ];
        all.iter().copied().find(|first| first.bytes() == word)
    }
}

/// First words of statements on works.
#[derive(Clone, Copy, PartialEq, Eq, Debug)]
pub enum PoolWord {
    Work,
    Helper,
    HelperWork,
    HelperDone,
}

impl PoolWord {
    fn bytes(self) -> &'static [u8]
        ensures { result.now ≡ pool_word self }
    {
        match self {
            PoolWord::Work => b"work",
            PoolWord::Helper => b"helper",
            PoolWord::HelperWork => b"hwork",
            PoolWord::HelperDone => b"hdone",
        }
    }

    /// The one that the word is.
    #[tactic(auto, unfolding(crate::specs::Keywords::pool_named))]
    pub fn named(word: &[u8]) -> Option<PoolWord>
        ensures { result ≡ pool_named word.now }
    {
        let all = [
            PoolWord::Work,
            PoolWord::Helper,
            PoolWord::HelperWork,
            PoolWord::HelperDone,
        ];
        all.iter().copied().find(|first| first.bytes() == word)
    }
}
