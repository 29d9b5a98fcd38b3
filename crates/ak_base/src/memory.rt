//! A source and a sink in memory, for tests and for whoever has the bytes at hand.

ghost use Rattle.std.specs.Prelude.{◌≡◌, ◌≤◌, ◌<◌, ◌-◌, ◌⊎◌, ◌↔◌, [], length, min, take, IfOk, OnErr, IsErr, IsTrue, Contains};
ghost use Rattle.ak_base.specs.InMemory.{source_gave, source_failed, sink_took, sink_failed};

use crate::list::NoMemory;
use crate::sink::{Sink, WriteFailed};
use crate::source::{ReadFailed, Source};
use std::alloc::Global;
use std::marker::Model;

// Whether the call of this number is to fail.
fn is_listed(failing: &[u32], call: u64) -> bool
    ensures { IsTrue result ↔ Contains failing.now call }
{
    failing.iter().any(|&listed| u64::from(listed) == call)
}

/// A source over bytes in memory. Contracts see what is left, how many bytes a call gives at most, the number of the
/// next call, the numbers of the calls that fail, and the count of faults.
#[derive(Debug, Drop)]
pub struct MemSource {
    bytes: Vec<u8>,
    // how many of the bytes were given
    given: usize,
    piece: usize,
    next: u64,
    failing: Vec<u32>,
    faults: u64,
}

impl Model for MemSource {
    ghost use Rattle.std.specs.Prelude.{◌≤◌, ◌<◌, drop, vec_len};
    ghost use Rattle.ak_base.specs.InMemory.{MemSourceState};

    ghost Value = { MemSourceState };

    ghost view = { λ s. record {
      left = drop s.given s.bytes.items;
      piece = s.piece;
      next = s.next;
      failing = s.failing.items;
      faults = s.faults;
    } };

    ghost invariant = { λ s. (s.given ≤ vec_len s.bytes) × (0 < s.piece) };
}

impl MemSource {
    /// A source of these bytes that gives at most `piece` of them a call and fails the calls whose numbers, from 0,
    /// are listed. It takes no memory.
    pub fn make(bytes: Vec<u8>, piece: usize, failing: Vec<u32>) -> MemSource
        requires { 0 < piece }
        ensures { result ≡ record {
          left = bytes.items;
          piece = piece;
          next = 0;
          failing = failing.items;
          faults = 0;
        } }
    {
        MemSource {
            bytes,
            given: 0,
            piece,
            next: 0,
            failing,
            faults: 0,
        }
    }
}

impl Source for MemSource {
    ghost use Rattle.std.specs.Prelude.{Some};

    ghost left = { λ s. Some s.left };

    ghost faults = { λ s. s.faults };

    /// Gives as many bytes as are left, as the room has and as a call gives, and fails exactly where it is listed.
    fn read(&mut self, room: &mut [u8]) -> Result<usize, ReadFailed>
        ensures fails { IsErr result ↔ Contains self.old.failing self.old.next }
        ensures failed { OnErr result (self.new ≡ source_failed self.old) }
        ensures count { IfOk result
            (λ n. n ≡ min (min self.old.piece (length room.old)) (length self.old.left)) }
        ensures room { IfOk result (λ n. take n room.new ≡ take n self.old.left) }
        ensures end { IfOk result (λ n. 0 < length room.old → ((n ≡ 0) ↔ (self.old.left ≡ []))) }
        ensures gave { IfOk result (λ n. self.new ≡ source_gave n self.old) }
        ensures never_falls { self.old.faults ≤ self.new.faults }
    {
        let fails = is_listed(self.failing.as_slice(), self.next);
        self.next = self.next.saturating_add(1);
        if fails {
            self.faults = self.faults.saturating_add(1);
            return Err(ReadFailed);
        }
        let left = &self.bytes[self.given..];
        let count = self.piece.min(room.len()).min(left.len());
        room[..count].copy_from_slice(&left[..count]);
        self.given += count;
        Ok(count)
    }
}

/// A sink that keeps in memory what it took. Contracts see what it took, how many bytes it has room for, how many
/// bytes a call takes at most, the number of the next call, the numbers of the calls that fail, and the count of faults.
#[derive(Debug, Drop)]
pub struct MemSink {
    // as long as the room
    bytes: Vec<u8>,
    // how many of the bytes were taken
    len: usize,
    piece: usize,
    next: u64,
    failing: Vec<u32>,
    faults: u64,
}

impl Model for MemSink {
    ghost use Rattle.std.specs.Prelude.{◌≤◌, ◌<◌, take, vec_len};
    ghost use Rattle.ak_base.specs.InMemory.{MemSinkState};

    ghost Value = { MemSinkState };

    ghost view = { λ s. record {
      taken = take s.len s.bytes.items;
      room = vec_len s.bytes;
      piece = s.piece;
      next = s.next;
      failing = s.failing.items;
      faults = s.faults;
    } };

    ghost invariant = { λ s. (s.len ≤ vec_len s.bytes) × (0 < s.piece) };
}

impl MemSink {
    /// A sink with room for so many bytes that takes at most `piece` of them a call and fails the calls whose
    /// numbers, from 0, are listed.
    ///
    /// # Errors
    ///
    /// `NoMemory` where there is no memory for the room.
    pub fn make(
        alloc: Global,
        room: usize,
        piece: usize,
        failing: Vec<u32>,
    ) -> Result<MemSink, NoMemory>
        requires { 0 < piece }
        ensures { IfOk result (λ sink. sink ≡ record {
          taken = [];
          room = room;
          piece = piece;
          next = 0;
          failing = failing.items;
          faults = 0;
        }) }
    {
        let bytes = vec![in alloc; 0; room]?;
        Ok(MemSink {
            bytes,
            len: 0,
            piece,
            next: 0,
            failing,
            faults: 0,
        })
    }

    /// What the sink took.
    pub fn taken(&self) -> &[u8]
        ensures { result.now ≡ self.now.taken }
    {
        &self.bytes[..self.len]
    }
}

impl Sink for MemSink {
    ghost use Rattle.std.specs.Prelude.{Some};

    ghost taken = { λ s. Some s.taken };

    ghost faults = { λ s. s.faults };

    /// Takes as many bytes as the piece has, as there is room for and as a call takes. It takes no memory, and fails
    /// exactly where it is listed, and where a piece that is not empty meets no room.
    fn write(&mut self, piece: &[u8]) -> Result<usize, WriteFailed>
        ensures fails { IsErr result ↔ (Contains self.old.failing self.old.next
            ⊎ (0 < length piece.now) × (length self.old.taken ≡ self.old.room)) }
        ensures failed { OnErr result (self.new ≡ sink_failed self.old) }
        ensures count { IfOk result (λ n.
            n ≡ min (min self.old.piece (length piece.now)) (self.old.room - length self.old.taken)) }
        ensures some { IfOk result (λ n. 0 < length piece.now → 0 < n) }
        ensures took { IfOk result (λ n. self.new ≡ sink_took (take n piece.now) self.old) }
        ensures never_falls { self.old.faults ≤ self.new.faults }
    {
        let room = self.bytes.len() - self.len;
        let fails = is_listed(self.failing.as_slice(), self.next) || room == 0 && !piece.is_empty();
        self.next = self.next.saturating_add(1);
        if fails {
            self.faults = self.faults.saturating_add(1);
            return Err(WriteFailed);
        }
        let count = self.piece.min(piece.len()).min(room);
        self.bytes[self.len..self.len + count].copy_from_slice(&piece[..count]);
        self.len += count;
        Ok(count)
    }
}
