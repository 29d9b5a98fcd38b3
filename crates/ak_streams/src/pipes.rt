//! The pipes of a run.

ghost use Rattle.std.specs.Prelude.{◌≡◌, ◌<◌, [], length, false, OnOk, IfOk};
ghost use Rattle.ak_base.specs.Lists.{first_of};
ghost use Rattle.ak_pipe.specs.Pipe as plain;
ghost use Rattle.ak_streams.specs.Pipes.{with_fresh, pipe_in, with_pipe_in};

use ak_base::list::NoMemory;
use ak_base::number::{IvarNo, Num, PipeNo};
use ak_machine::held::Read;
use ak_pipe::answer::{Got, PutRefused, ReadRefused, Wrote};
use ak_pipe::pipe::Pipe;
use std::alloc::{AllocError, Global};
use std::marker::Model;

/// The pipes of a run. Contracts see the list of them. Own.
#[derive(Debug, Drop)]
pub struct Pipes {
    pipes: Vec<Pipe<Read>>,
    alloc: Global,
}

impl Model for Pipes {
    ghost use Rattle.std.specs.Prelude.{List};
    ghost use Rattle.ak_pipe.specs.Pipe.{Pipe as Plain};
    ghost use Rattle.ak_machine.specs.declared.held.Read.{Read as PlainRead};

    ghost Value = { List (Plain PlainRead) };

    ghost view = { λ p. p.pipes.items };
}

/// Why there is no answer, where the pipe is not closed.
fn no_memory(refused: PutRefused) -> NoMemory
    requires { refused ≡ PutRefused.NoMemory }
{
    match refused {
        PutRefused::NoMemory => AllocError,
        PutRefused::Closed => unreachable!(),
    }
}

impl Pipes {
    /// No pipe. It takes no memory.
    pub fn make(alloc: Global) -> Pipes
        ensures { result ≡ [] }
    {
        Pipes {
            pipes: Vec::new(alloc),
            alloc,
        }
    }

    /// A fresh pipe with a budget, and its number: how many pipes there were.
    ///
    /// # Errors
    ///
    /// `NoMemory`, also where no number of 32 bits is left.
    pub fn begin(&mut self, budget: u32) -> Result<PipeNo, NoMemory>
        ensures number { IfOk result (λ p. p ≡ length self.old) }
        ensures fresh { OnOk result (self.new ≡ with_fresh budget self.old) }
    {
        if self.pipes.len() >= u32::MAX as usize {
            return Err(AllocError);
        }
        let p = PipeNo::new(self.pipes.len() as u32);
        self.pipes.push(Pipe::make(self.alloc, budget))?;
        Ok(p)
    }

    /// Whether a pipe that exists is closed.
    pub fn is_closed(&self, p: PipeNo) -> bool
        requires { p < length self.now }
        ensures { result ≡ (pipe_in p self.now).closed }
    {
        self.pipes[p.number() as usize].is_closed()
    }

    /// Writes a number into a pipe that exists and is not closed. The oldest waiting read takes it and comes back, where one
    /// waits.
    ///
    /// # Errors
    ///
    /// `NoMemory`.
    pub fn put(&mut self, p: PipeNo, num: Num) -> Result<Option<Read>, NoMemory>
        requires exists { p < length self.old }
        requires unclosed { (pipe_in p self.old).closed ≡ false }
        ensures served { IfOk result (λ served. served ≡ plain.taker_of (pipe_in p self.old)) }
        ensures put { OnOk result (self.new
            ≡ with_pipe_in p (plain.put num (pipe_in p self.old)) self.old) }
    {
        match self.pipes[p.number() as usize].put(num) {
            Ok(served) => Ok(served),
            Err(refused) => Err(no_memory(refused)),
        }
    }

    /// The same, and where the pipe is not free then the deferred `i` is kept as a pushback.
    ///
    /// # Errors
    ///
    /// `NoMemory`.
    pub fn write(&mut self, p: PipeNo, num: Num, i: IvarNo) -> Result<Wrote<Read>, NoMemory>
        requires exists { p < length self.old }
        requires unclosed { (pipe_in p self.old).closed ≡ false }
        ensures wrote { IfOk result (λ wrote. wrote ≡ plain.wrote num (pipe_in p self.old)) }
        ensures written { OnOk result (self.new
            ≡ with_pipe_in p (plain.after_write num i (pipe_in p self.old)) self.old) }
    {
        match self.pipes[p.number() as usize].write(num, i) {
            Ok(wrote) => Ok(wrote),
            Err(refused) => Err(no_memory(refused)),
        }
    }

    /// Reads from a pipe that exists: the front item, or the end, or the read waits.
    ///
    /// # Errors
    ///
    /// `NoMemory`.
    pub fn read(&mut self, p: PipeNo, read: Read) -> Result<Got<Read>, NoMemory>
        requires { p < length self.old }
        ensures got { IfOk result (λ got. got ≡ plain.got read (pipe_in p self.old)) }
        ensures read { OnOk result (self.new
            ≡ with_pipe_in p (plain.after_read read (pipe_in p self.old)) self.old) }
    {
        match self.pipes[p.number() as usize].read(read) {
            Ok(got) => Ok(got),
            Err(ReadRefused::NoMemory(_)) => Err(AllocError),
        }
    }

    /// Closes a pipe that exists: nothing is written any more.
    pub fn close(&mut self, p: PipeNo)
        requires { p < length self.old }
        ensures { self.new ≡ with_pipe_in p (plain.after_close (pipe_in p self.old)) self.old }
    {
        self.pipes[p.number() as usize].close();
    }

    /// Closes both ends of a pipe that exists: nothing is written or read any more.
    pub fn close_read(&mut self, p: PipeNo)
        requires { p < length self.old }
        ensures { self.new
            ≡ with_pipe_in p (plain.after_close_read (pipe_in p self.old)) self.old }
    {
        self.pipes[p.number() as usize].close_read();
    }

    /// Has a deferred wait until all that was written into a pipe that exists is consumed, or gives what it learns at once.
    ///
    /// # Errors
    ///
    /// `NoMemory`.
    pub fn flushed(&mut self, p: PipeNo, i: IvarNo) -> Result<Option<Num>, NoMemory>
        requires { p < length self.old }
        ensures number { IfOk result (λ number. number ≡ plain.flushed_at_once (pipe_in p self.old)) }
        ensures flushed { OnOk result (self.new
            ≡ with_pipe_in p (plain.after_flushed i (pipe_in p self.old)) self.old) }
    {
        self.pipes[p.number() as usize].flushed(i)
    }

    /// Takes the oldest pushback of which a pipe that exists is free: `None` exactly where there is none such.
    pub fn next_free(&mut self, p: PipeNo) -> Option<IvarNo>
        requires { p < length self.old }
        ensures front { result ≡ first_of (plain.freed_pushbacks (pipe_in p self.old)) }
        ensures rest { self.new
            ≡ with_pipe_in p (plain.freed_taken (pipe_in p self.old)) self.old }
    {
        self.pipes[p.number() as usize].next_free()
    }

    /// Takes the oldest settled flush of a pipe that exists, with what it learns: `None` exactly where none is settled.
    pub fn next_flushed(&mut self, p: PipeNo) -> Option<(IvarNo, Num)>
        requires { p < length self.old }
        ensures front { result ≡ plain.next_settlement (pipe_in p self.old) }
        ensures rest { self.new
            ≡ with_pipe_in p (plain.settled_taken (pipe_in p self.old)) self.old }
    {
        self.pipes[p.number() as usize].next_flushed()
    }

    /// Takes the oldest read of a pipe that exists that is owed the end: `None` exactly where there is none.
    pub fn next_eof(&mut self, p: PipeNo) -> Option<Read>
        requires { p < length self.old }
        ensures front { result ≡ first_of (pipe_in p self.old).owed }
        ensures rest { self.new
            ≡ with_pipe_in p (plain.owed_taken (pipe_in p self.old)) self.old }
    {
        self.pipes[p.number() as usize].next_eof()
    }
}
