//! Sources of bytes.

ghost use Rattle.std.specs.Prelude.{◌≡◌, ◌≤◌, ◌<◌, ◌↔◌, [], length, take, IfOk, IfSome, OnErr};
ghost use Rattle.ak_base.specs.Streams.{Rose, with_front};

use std::error::Error;
use std::fmt;

/// A read failed. The cause lies in the source, whose count of faults rose.
#[derive(Clone, Copy, PartialEq, Eq, Debug)]
pub struct ReadFailed;

impl fmt::Display for ReadFailed {
    fn fmt<W: fmt::Write>(&self, f: &mut fmt::Formatter<W>) -> fmt::Result {
        f.write_str("read fault")
    }
}

impl Error for ReadFailed {}

/// Where bytes come from (own).
///
/// A source tells what is left in it or is silent, and that does not change. Its count of faults never falls.
pub trait Source {
    ghost use Rattle.std.specs.Prelude.{ℕ, List, Option};

    ghost left: { Self → Option (List ℕ) };

    ghost faults: { Self → ℕ };

    /// Puts the next bytes into the front of `room` and gives their number. Zero bytes for a room that is not
    /// empty is the end.
    ///
    /// # Errors
    ///
    /// `ReadFailed`, only where the count of faults rose. What is left is then as before.
    fn read(&mut self, room: &mut [u8]) -> Result<usize, ReadFailed>
        ensures within { IfOk result (λ n. n ≤ length room.old) }

        // The bytes at the front of the room were the first of those left. A source goes on telling, or being silent.
        ensures gives { IfOk result (λ n. with_front (take n room.new) (left self.new)
            ≡ left self.old) }
        ensures end { IfOk result (λ n. IfSome (left self.old) (λ bytes.
            0 < length room.old → ((n ≡ 0) ↔ (bytes ≡ [])))) }
        ensures failed { OnErr result (left self.new ≡ left self.old) }
        ensures never_falls { faults self.old ≤ faults self.new }
        ensures cause { OnErr result (Rose (faults self.old) (faults self.new)) };
}
