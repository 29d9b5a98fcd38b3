//! A pipe.

ghost use Rattle.std.specs.Prelude.{◌≡◌, ◌+◌, ◌-◌, ◌<◌, ◌≤◌, ◌^◌, [], ◌∷◌, ◌++◌, true, false, pos, Some, None, Err, is_some, length, OnOk, OnErr, IfOk, IfErr, if◌then◌else◌};
ghost use Rattle.ak_base.specs.Lists.{first_of, rest_of};
ghost use Rattle.std.specs.VecDeque.{deque_len, deque_capacity};
ghost use Rattle.ak_pipe.specs.Pipe as plain;
ghost use Rattle.ak_pipe.specs.Kept as kept;

use crate::answer::{Got, PutRefused, ReadRefused, Wrote};
use crate::flush::Flush;
use crate::past::Past;
use ak_base::list::NoMemory;
use ak_base::number::{IvarNo, Num};
use std::alloc::Global;
use std::collections::VecDeque;
use std::marker::Model;

/// A pipe of numbers. Contracts see its budget, the numbers ever written and how many of them were consumed, whether the
/// pipe and its reader are closed, the reads that wait, the pushbacks, the flushes and the reads that are owed the end.
/// Only the numbers that are left are kept (after Async's `Pipe`; the order of the steps is own).
#[derive(Debug, Drop)]
pub struct Pipe<R> {
    budget: u32,
    items: VecDeque<Num>,
    past: Past,
    written: u32,
    consumed: u32,
    closed: bool,
    reader_closed: bool,
    // those that wait or, where it is closed, are owed the end
    reads: VecDeque<R>,
    pushbacks: VecDeque<IvarNo>,
    flushes: VecDeque<Flush>,
}

impl<R> Model for Pipe<R> {
    ghost use Rattle.ak_pipe.specs.Pipe.{Pipe as Plain};
    ghost use Rattle.ak_pipe.specs.Kept.{pipe_of, IsKept};

    ghost Value = { Plain R };

    ghost view = { λ p. pipe_of p.budget p.past.written p.consumed p.closed p.reader_closed p.reads.items p.pushbacks.items p.flushes.items };

    ghost invariant = { λ p. IsKept p.past.written p.written p.consumed p.closed p.reader_closed p.items.items p.reads.items p.flushes.items };
}

impl<R> Pipe<R> {
    /// A pipe into which nothing was written. It takes no memory.
    pub fn make(alloc: Global, budget: u32) -> Pipe<R>
        ensures { result ≡ plain.fresh_pipe budget }
    {
        Pipe {
            budget,
            items: VecDeque::new(alloc),
            past: Past::new(),
            written: 0,
            consumed: 0,
            closed: false,
            reader_closed: false,
            reads: VecDeque::new(alloc),
            pushbacks: VecDeque::new(alloc),
            flushes: VecDeque::new(alloc),
        }
    }

    /// Writes a number: the oldest waiting read takes it and comes back, exactly where one waits; else it is the last item.
    ///
    /// # Errors
    ///
    /// `Closed` exactly where the pipe is closed, and else `NoMemory`, also where 4,294,967,295 numbers were written before.
    /// Nothing has changed.
    pub fn put(&mut self, num: Num) -> Result<Option<R>, PutRefused>
        ensures served { IfOk result (λ served. served ≡ plain.taker_of self.old) }
        ensures ok { OnOk result (self.new ≡ plain.put num self.old) }
        ensures refused { IfErr result (λ r. r ≡ plain.put_refusal self.old) }
        ensures err { OnErr result (self.new ≡ self.old) }
        ensures closed { self.old.closed ≡ true → result ≡ Err PutRefused.Closed }
    {
        if self.closed {
            Err(PutRefused::Closed)
        } else if self.written == u32::MAX {
            Err(PutRefused::NoMemory)
        } else if self.reads.is_empty() {
            self.put_item(num)
        } else {
            Ok(self.serve(num))
        }
    }

    /// Writes a number as `put` does. The pipe is free exactly where its length is at most the budget then; else the
    /// deferred `i` is kept, as a pushback.
    ///
    /// # Errors
    ///
    /// `Closed` exactly where the pipe is closed, and else `NoMemory`, also where 4,294,967,295 numbers were written before.
    /// Nothing has changed.
    pub fn write(&mut self, num: Num, i: IvarNo) -> Result<Wrote<R>, PutRefused>
        ensures wrote { IfOk result (λ w. w ≡ plain.wrote num self.old) }
        ensures ok { OnOk result (self.new ≡ plain.after_write num i self.old) }
        ensures refused { IfErr result (λ r. r ≡ plain.put_refusal self.old) }
        ensures err { OnErr result (self.new ≡ self.old) }
        ensures closed { self.old.closed ≡ true → result ≡ Err PutRefused.Closed }
    {
        if self.is_closed() {
            Err(PutRefused::Closed)
        } else if self.written == u32::MAX {
            Err(PutRefused::NoMemory)
        } else if self.reads.is_empty() {
            self.write_item(num, i)
        } else {
            let served = self.serve(num);
            Ok(Wrote { served, free: true })
        }
    }

    /// Reads: the front item exactly where one is there, the end exactly where none is and the pipe is closed, and else
    /// the read waits.
    ///
    /// # Errors
    ///
    /// `NoMemory`. The pipe is then as before, and the read comes back.
    pub fn read(&mut self, r: R) -> Result<Got<R>, ReadRefused<R>>
        ensures got { IfOk result (λ got. got ≡ plain.got r self.old) }
        ensures ok { OnOk result (self.new ≡ plain.after_read r self.old) }
        ensures refused { IfErr result (λ refused. refused ≡ ReadRefused.NoMemory r) }
        ensures err { OnErr result (self.new ≡ self.old) }
    {
        if let Some(num) = self.take_item() {
            return Ok(Got::Item { num, r });
        }
        if self.closed {
            return Ok(Got::Eof { r });
        }
        self.wait(r)
    }

    /// Has a deferred wait until all that was written so far is consumed. At once it learns 1 where the reader is
    /// closed, and else 0 where no item is left; else the answer is `None` and it is kept.
    ///
    /// # Errors
    ///
    /// `NoMemory`. The pipe is then as before.
    pub fn flushed(&mut self, i: IvarNo) -> Result<Option<Num>, NoMemory>
        ensures number { IfOk result (λ number. number ≡ plain.flushed_at_once self.old) }
        ensures ok { OnOk result (self.new ≡ plain.after_flushed i self.old) }
        ensures err { OnErr result (self.new ≡ self.old) }
    {
        if self.reader_closed {
            return Ok(Some(1));
        }
        if self.items.is_empty() {
            return Ok(Some(0));
        }
        self.flushes.push_back(Flush {
            ivar: i,
            count: self.written,
        })?;
        Ok(None)
    }

    /// Takes the oldest flush that is settled, with 0 where what was written before it is consumed and else with 1:
    /// `None` exactly where none is settled, and nothing changes then.
    pub fn next_flushed(&mut self) -> Option<(IvarNo, Num)>
        ensures front { result ≡ plain.next_settlement self.old }
        ensures rest { self.new ≡ plain.settled_taken self.old }
    {
        take_settled(&mut self.flushes, self.consumed, self.reader_closed)
    }

    /// Closes the pipe: nothing is written any more, and the reads that wait are owed the end. Where it is closed
    /// already nothing changes. It takes no memory.
    pub fn close(&mut self)
        ensures { self.new ≡ plain.after_close self.old }
    {
        self.closed = true;
    }

    /// Closes both ends: the items are dropped, and the reads that wait are owed the end. Where the reader is closed
    /// already nothing changes. It takes no memory.
    pub fn close_read(&mut self)
        ensures { self.new ≡ plain.after_close_read self.old }
    {
        self.closed = true;
        self.reader_closed = true;
        self.items.clear();
    }

    /// Whether the pipe is closed, and nothing can be written.
    pub fn is_closed(&self) -> bool
        ensures { result ≡ self.now.closed }
    {
        self.closed
    }

    /// Takes the oldest read that is owed the end: `None` exactly where there is none, and nothing changes then.
    pub fn next_eof(&mut self) -> Option<R>
        ensures front { result ≡ first_of self.old.owed }
        ensures rest { self.new ≡ plain.owed_taken self.old }
    {
        if self.closed {
            self.reads.pop_front()
        } else {
            None
        }
    }

    /// Takes the oldest pushback, where the length is at most the budget or the reader is closed: `None` exactly where
    /// there is none such, and nothing changes then.
    pub fn next_free(&mut self) -> Option<IvarNo>
        ensures front { result ≡ first_of (plain.freed_pushbacks self.old) }
        ensures rest { self.new ≡ plain.freed_taken self.old }
    {
        if self.is_free() {
            self.pushbacks.pop_front()
        } else {
            None
        }
    }

    // Keeps a number as the last item, where no read waits.
    fn put_item(&mut self, num: Num) -> Result<Option<R>, PutRefused>
        requires numbers { length self.old.written < 2 ^ 32 - 1 }
        requires open { self.old.closed ≡ false }
        requires unread { self.old.reads ≡ [] }
        ensures served { IfOk result (λ served. served ≡ None) }
        ensures ok { OnOk result (self.new ≡ record self.old {
          written =
              self.old.written ++ num ∷ [];
        }) }
        ensures refused { IfErr result (λ r. r ≡ PutRefused.NoMemory) }
        ensures err { OnErr result (self.new ≡ self.old) }
    {
        if self.items.reserve(1).is_err() {
            return Err(PutRefused::NoMemory);
        }
        self.items.push_back_reserved(num);
        self.past = Past::then(&self.past, &num);
        self.written += 1;
        Ok(None)
    }

    // The same, and the deferred is kept where the pipe is not free then.
    fn write_item(&mut self, num: Num, i: IvarNo) -> Result<Wrote<R>, PutRefused>
        requires numbers { length self.old.written < 2 ^ 32 - 1 }
        requires open { self.old.closed ≡ false }
        requires unread { self.old.reads ≡ [] }
        ensures wrote { IfOk result (λ w. w ≡ plain.wrote num self.old) }
        ensures ok { OnOk result (self.new ≡ plain.after_write num i self.old) }
        ensures refused { IfErr result (λ r. r ≡ PutRefused.NoMemory) }
        ensures err { OnErr result (self.new ≡ self.old) }
    {
        if self.items.reserve(1).is_err() {
            return Err(PutRefused::NoMemory);
        }
        if self.pushbacks.reserve(1).is_err() {
            return Err(PutRefused::NoMemory);
        }
        self.items.push_back_reserved(num);
        self.past = Past::then(&self.past, &num);
        self.written += 1;
        let free = self.items.len() <= self.budget as usize;
        push_unless(free, &mut self.pushbacks, i);
        Ok(Wrote { served: None, free })
    }

    // Gives a number to the oldest waiting read, where one waits.
    fn serve(&mut self, num: Num) -> Option<R>
        requires numbers { length self.old.written < 2 ^ 32 - 1 }
        requires waiting { 0 < length self.old.reads }
        ensures served { result ≡ plain.taker_of self.old }
        ensures new { self.new ≡ plain.put num self.old }
        ensures free { plain.is_free self.new ≡ true }
    {
        self.past = Past::then(&self.past, &num);
        self.written += 1;
        self.consumed += 1;
        self.reads.pop_front()
    }

    // Takes the front item, where there is one.
    fn take_item(&mut self) -> Option<Num>
        ensures item { result ≡ first_of (plain.items_of self.old) }
        ensures new { self.new
            ≡ (if is_some result then plain.consumed_one self.old else self.old) }
    {
        let num = self.items.pop_front()?;
        self.consumed += 1;
        Some(num)
    }

    // Has a read wait, where no item is left.
    fn wait(&mut self, r: R) -> Result<Got<R>, ReadRefused<R>>
        requires open { self.old.closed ≡ false }
        requires none { plain.items_of self.old ≡ [] }
        ensures got { IfOk result (λ got. got ≡ Got.Waits) }
        ensures ok { OnOk result (self.new ≡ plain.with_read r self.old) }
        ensures refused { IfErr result (λ refused. refused ≡ ReadRefused.NoMemory r) }
        ensures err { OnErr result (self.new ≡ self.old) }
    {
        if self.reads.reserve(1).is_err() {
            return Err(ReadRefused::NoMemory(r));
        }
        self.reads.push_back_reserved(r);
        Ok(Got::Waits)
    }

    // Whether the length is at most the budget.
    fn is_free(&self) -> bool
        ensures { result ≡ plain.is_free self.now }
    {
        self.items.len() <= self.budget as usize
    }
}

// Puts a deferred last, unless the pipe is free.
fn push_unless(free: bool, pushbacks: &mut VecDeque<IvarNo>, i: IvarNo)
    requires { deque_len pushbacks.old < deque_capacity pushbacks.old }
    ensures { pushbacks.new.items
        ≡ (if free then pushbacks.old.items else pushbacks.old.items ++ i ∷ []) }
{
    if !free {
        pushbacks.push_back_reserved(i);
    }
}

// Takes the oldest flush, where it is settled.
fn take_settled(
    flushes: &mut VecDeque<Flush>,
    consumed: u32,
    reader_closed: bool,
) -> Option<(IvarNo, Num)>
    ensures front { result ≡ kept.front_settled consumed reader_closed flushes.old.items }
    ensures rest { flushes.new.items ≡ kept.without_settled consumed reader_closed
        flushes.old.items }
{
    if is_front_settled(flushes, consumed, reader_closed) {
        let flush = flushes.pop_front()?;
        let num = if flush.count <= consumed { 0 } else { 1 };
        Some((flush.ivar, num))
    } else {
        None
    }
}

// Whether there is a flush, and the oldest is settled.
fn is_front_settled(flushes: &VecDeque<Flush>, consumed: u32, reader_closed: bool) -> bool
    ensures { result ≡ is_some (kept.front_settled consumed reader_closed flushes.now.items) }
{
    match flushes.front() {
        Some(flush) => reader_closed || flush.count <= consumed,
        None => false,
    }
}
