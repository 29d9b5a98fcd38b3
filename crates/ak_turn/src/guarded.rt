//! What a value behind a turn says of itself.
ghost use Rattle.std.specs.Prelude.{◌≡◌, ◌<◌, ◌^◌, ℕ, List, length};

/// A value with a log of the events that made it what it is. A source of its own.
pub trait Guarded: Send {
    /// One event of the log.
    type Event;

    // Every event so far, oldest first.
    ghost log: { Self → List Self.Event };

    // A pass of this number may give the event.
    ghost may: { ℕ → Self.Event → Type 0 };

    // The value may lie behind a turn with this list of numbers.
    ghost fits: { Self → List ℕ → Type 0 };

    /// The number of events in the log, which is below 2^63.
    fn length(&self) -> u64
        ensures length { result ≡ length (log self.now) }
        ensures short { result < 2 ^ 63 };
}
