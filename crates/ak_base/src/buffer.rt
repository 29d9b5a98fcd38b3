//! A buffer before a sink.

ghost use Rattle.std.specs.Prelude.{◌≡◌, ◌≤◌, ◌++◌, ◌+◌, [], length};
ghost use Rattle.ak_base.specs.Streams.{HasWritten, HasPut};

use crate::sink::{Sink, WriteFailed, write_all};
use std::marker::Model;

// How many bytes a buffer has room for.
const ROOM: usize = 4096;

/// Bytes that wait, on the stack, until there are enough of them for a write. Contracts see those that wait.
#[derive(Drop)]
pub struct Buffer {
    bytes: [u8; ROOM],
    len: usize,
}

impl Model for Buffer {
    ghost use Rattle.std.specs.Prelude.{List, ℕ, ◌≤◌, take};

    ghost Value = { List ℕ };

    ghost view = { λ b. take b.len b.bytes };

    ghost invariant = { λ b. b.len ≤ 4096 };
}

impl Buffer {
    /// A buffer in which nothing waits. It takes no memory.
    pub fn new() -> Buffer
        ensures { result ≡ [] }
    {
        Buffer {
            bytes: [0; ROOM],
            len: 0,
        }
    }

    /// Writes what waits. Nothing waits then, after a fault either. It writes no empty piece and takes no memory.
    ///
    /// # Errors
    ///
    /// `WriteFailed`, only where the sink's count of faults rose. A beginning of what waited was then taken, and the
    /// rest is lost.
    pub fn flush<K: Sink>(&mut self, sink: &mut K) -> Result<(), WriteFailed>
        ensures written { HasWritten result
            (K.taken sink.old) (K.taken sink.new) (K.faults sink.old) (K.faults sink.new) self.old }
        ensures empty { self.new ≡ [] }
    {
        let len = self.len;
        self.len = 0;
        write_all(sink, &self.bytes[..len])
    }

    /// Puts the piece behind what waits, and writes where that is too much to wait. It writes no empty piece and
    /// takes no memory.
    ///
    /// # Errors
    ///
    /// `WriteFailed`, only where the sink's count of faults rose. A beginning of what waited and of the piece was
    /// then taken, and the rest is lost.
    pub fn put<K: Sink>(&mut self, sink: &mut K, piece: &[u8]) -> Result<(), WriteFailed>
        ensures { HasPut result
            (K.taken sink.old) (K.taken sink.new) (K.faults sink.old) (K.faults sink.new)
            self.old self.new piece.now }
    {
        if piece.len() > ROOM - self.len {
            self.flush(sink)?;
            if piece.len() > ROOM {
                write_all(sink, piece)?;
                return Ok(());
            }
        }
        self.keep(piece);
        Ok(())
    }

    // Puts the piece behind what waits.
    fn keep(&mut self, piece: &[u8])
        requires { length self.old + length piece.now ≤ 4096 }
        ensures { self.new ≡ self.old ++ piece.now }
    {
        let end = self.len + piece.len();
        self.bytes[self.len..end].copy_from_slice(piece);
        self.len = end;
    }
}

impl Default for Buffer {
    ghost is_default = { λ buffer. buffer ≡ [] };

    fn default() -> Buffer {
        Buffer::new()
    }
}
