//! Sinks of bytes.

ghost use Rattle.std.specs.Prelude.{◌≡◌, ◌≤◌, ◌<◌, length, take, IfOk, OnErr};
ghost use Rattle.ak_base.specs.Streams.{Rose, grown, HasWritten};

use std::error::Error;
use std::fmt;

/// A write failed. The cause lies in the sink, whose count of faults rose.
#[derive(Clone, Copy, PartialEq, Eq, Debug)]
pub struct WriteFailed;

impl fmt::Display for WriteFailed {
    fn fmt<W: fmt::Write>(&self, f: &mut fmt::Formatter<W>) -> fmt::Result {
        f.write_str("write fault")
    }
}

impl Error for WriteFailed {}

/// Where bytes go (own).
///
/// A sink tells what it took or is silent, and that does not change. Its count of faults never falls.
pub trait Sink {
    ghost use Rattle.std.specs.Prelude.{ℕ, List, Option};

    ghost taken: { Self → Option (List ℕ) };

    ghost faults: { Self → ℕ };

    /// Takes bytes at the front of `piece` and gives their number: at least one of a piece that is not empty.
    ///
    /// # Errors
    ///
    /// `WriteFailed`, only where the count of faults rose. What was taken is then as before.
    fn write(&mut self, piece: &[u8]) -> Result<usize, WriteFailed>
        ensures within { IfOk result (λ n. n ≤ length piece.now) }
        ensures some { IfOk result (λ n. 0 < length piece.now → 0 < n) }

        // A sink goes on telling, or being silent.
        ensures takes { IfOk result (λ n. taken self.new
            ≡ grown (taken self.old) (take n piece.now)) }
        ensures failed { OnErr result (taken self.new ≡ taken self.old) }
        ensures never_falls { faults self.old ≤ faults self.new }
        ensures cause { OnErr result (Rose (faults self.old) (faults self.new)) };
}

/// Writes all the bytes, in as many calls as the sink wants, and none of them with an empty piece.
///
/// # Errors
///
/// `WriteFailed`, only where the sink's count of faults rose. A beginning of the bytes was then taken.
pub fn write_all<K: Sink>(sink: &mut K, bytes: &[u8]) -> Result<(), WriteFailed>
    ensures { HasWritten result
        (K.taken sink.old) (K.taken sink.new) (K.faults sink.old) (K.faults sink.new) bytes.now }
{
    let mut at = 0;
    while at < bytes.len() {
        at += sink.write(&bytes[at..])?;
    }
    Ok(())
}
