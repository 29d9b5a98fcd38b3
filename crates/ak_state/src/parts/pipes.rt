//! Pipes: to make one, to write, to read, to close, and what waits for what was written to be consumed.

ghost use Rattle.std.specs.Prelude.{◌≡◌, ◌<◌, false, length, OnOk, IfOk};
ghost use Rattle.std.specs.Option.{option_map};
ghost use Rattle.ak_cells.specs.Names.{name_in};
ghost use Rattle.ak_pipe.specs.Pipe as part;
ghost use Rattle.ak_machine.specs.Mapped.{read_mapped};
ghost use Rattle.ak_machine.specs.Pipes.{pipe_at, with_pipe, put, write, read as read_from, close, close_read, flushed, taken_by, item_called, eof_called, pushbacks_freed, flushes_settled, eofs_called};
ghost use Rattle.ak_state.specs.Seen.{doing};
ghost use Rattle.ak_state.specs.Fits.{FitsSome};
ghost use Rattle.ak_state.specs.Streams.{piped, wrote_mapped, got_mapped, settlement_mapped, first_freed, first_settled, first_owed};

use crate::local::put_first;
use crate::parts::Parts;
use ak_base::list::NoMemory;
use ak_base::number::{IvarNo, Num, PipeNo};
use ak_frames::frame::{Frame, Ret, Task};
use ak_machine::held::{Callback, Read};
use ak_pipe::answer::{Got, Wrote};
use ak_pipe::law::{
    ends_one_at_a_time_are_all_that_are_owed, flushes_one_at_a_time_are_all_that_are_settled,
    pushbacks_one_at_a_time_are_all_that_are_freed,
};

impl Parts {
    /// A fresh pipe with a budget, and its number.
    pub fn pipe(&mut self, budget: u32) -> Result<PipeNo, NoMemory>
        ensures number { IfOk result (λ p. p ≡ length self.old.plain.pipes) }
        ensures fresh { OnOk result (self.new ≡ doing (with_pipe budget) self.old) }
    {
        let p = self.lists.pipes.begin(budget)?;
        Ok(p)
    }

    /// Whether a pipe is closed.
    pub fn is_closed(&self, p: PipeNo) -> bool
        requires { p < length self.now.plain.pipes }
        ensures { result ≡ (pipe_at p self.now.plain).closed }
    {
        self.lists.pipes.is_closed(p)
    }

    /// A number is written into a pipe that is not closed: the oldest waiting read takes it, where one waits.
    pub fn put(&mut self, p: PipeNo, num: Num) -> Result<(), NoMemory>
        requires pipe { p < length self.old.plain.pipes }
        requires unclosed { (pipe_at p self.old.plain).closed ≡ false }
        ensures { OnOk result (self.new ≡ doing (put p num) self.old) }
    {
        let served = self.put_number(p, num)?;
        self.serve(served, num)?;
        Ok(())
    }

    /// A number is written so, and its deferred waits until the pipe is free.
    pub fn write(&mut self, p: PipeNo, i: IvarNo, num: Num) -> Result<(), NoMemory>
        requires pipe { p < length self.old.plain.pipes }
        requires unclosed { (pipe_at p self.old.plain).closed ≡ false }
        requires drawn { i < length self.old.plain.cells.ivars }
        ensures { OnOk result (self.new
            ≡ doing (write p (name_in self.old.names i) num) self.old) }
    {
        let Wrote { served, free } = self.write_number(p, i, num)?;
        self.serve(served, num)?;
        if free {
            self.fill(i, 0)?;
        }
        Ok(())
    }

    /// A read takes the front item, or learns of the end, or waits.
    pub fn read(&mut self, p: PipeNo, read: Read) -> Result<(), NoMemory>
        requires pipe { p < length self.old.plain.pipes }
        requires fits { FitsSome self.old.plain }
        ensures { OnOk result (self.new
            ≡ doing (read_from p (read_mapped (name_in self.old.names) read)) self.old) }
    {
        match self.take_item(p, read)? {
            Got::Item { num, r } => {
                self.free_pushbacks(p)?;
                self.settle_flushes(p)?;
                self.call_item(r, num)?;
                Ok(())
            }
            Got::Eof { r } => self.call_eof(r),
            Got::Waits => Ok(()),
        }
    }

    /// Nothing is written any more, and the reads that wait learn of the end.
    pub fn close(&mut self, p: PipeNo) -> Result<(), NoMemory>
        requires { p < length self.old.plain.pipes }
        ensures { OnOk result (self.new ≡ doing (close p) self.old) }
    {
        self.end_writes(p);
        self.call_eofs(p)?;
        Ok(())
    }

    /// Nothing is written or read any more: pushbacks are filled with 0 and flushes with 1, and the reads that wait learn of
    /// the end.
    pub fn close_read(&mut self, p: PipeNo) -> Result<(), NoMemory>
        requires pipe { p < length self.old.plain.pipes }
        requires fits { FitsSome self.old.plain }
        ensures { OnOk result (self.new ≡ doing (close_read p) self.old) }
    {
        self.end_reads(p);
        self.free_pushbacks(p)?;
        self.settle_flushes(p)?;
        self.call_eofs(p)?;
        Ok(())
    }

    /// A deferred waits until all that was written so far is consumed, or is filled at once where nothing is left.
    pub fn await_flush(&mut self, p: PipeNo, i: IvarNo) -> Result<(), NoMemory>
        requires pipe { p < length self.old.plain.pipes }
        requires drawn { i < length self.old.plain.cells.ivars }
        ensures { OnOk result (self.new
            ≡ doing (flushed p (name_in self.old.names i)) self.old) }
    {
        if let Some(num) = self.keep_flush(p, i)? {
            self.fill(i, num)?;
        }
        Ok(())
    }

    /// A number is written, and the read that takes it comes back.
    fn put_number(&mut self, p: PipeNo, num: Num) -> Result<Option<Read>, NoMemory>
        requires pipe { p < length self.old.plain.pipes }
        requires unclosed { (pipe_at p self.old.plain).closed ≡ false }
        ensures served { IfOk result (λ served.
            option_map (read_mapped (name_in self.old.names)) served
            ≡ part.taker_of (pipe_at p self.old.plain)) }
        ensures put { OnOk result (self.new ≡ doing (piped (part.put num) p) self.old) }
    {
        let served = self.lists.pipes.put(p, num)?;
        Ok(served)
    }

    /// The same, and its deferred waits where the pipe is not free then.
    fn write_number(&mut self, p: PipeNo, i: IvarNo, num: Num) -> Result<Wrote<Read>, NoMemory>
        requires pipe { p < length self.old.plain.pipes }
        requires unclosed { (pipe_at p self.old.plain).closed ≡ false }
        ensures wrote { IfOk result (λ wrote. wrote_mapped (name_in self.old.names) wrote
            ≡ part.wrote num (pipe_at p self.old.plain)) }
        ensures written { OnOk result (self.new ≡ doing
            (piped (part.after_write num (name_in self.old.names i)) p) self.old) }
    {
        let wrote = self.lists.pipes.write(p, num, i)?;
        Ok(wrote)
    }

    /// A read takes the front item, or the end, or waits.
    fn take_item(&mut self, p: PipeNo, read: Read) -> Result<Got<Read>, NoMemory>
        requires { p < length self.old.plain.pipes }
        ensures got { IfOk result (λ got. got_mapped (name_in self.old.names) got
            ≡ part.got (read_mapped (name_in self.old.names) read) (pipe_at p self.old.plain)) }
        ensures read { OnOk result (self.new ≡ doing
            (piped (part.after_read (read_mapped (name_in self.old.names) read)) p) self.old) }
    {
        let got = self.lists.pipes.read(p, read)?;
        Ok(got)
    }

    /// Nothing is written any more.
    fn end_writes(&mut self, p: PipeNo)
        requires { p < length self.old.plain.pipes }
        ensures { self.new ≡ doing (piped part.after_close p) self.old }
    {
        self.lists.pipes.close(p);
    }

    /// Nothing is written or read any more.
    fn end_reads(&mut self, p: PipeNo)
        requires { p < length self.old.plain.pipes }
        ensures { self.new ≡ doing (piped part.after_close_read p) self.old }
    {
        self.lists.pipes.close_read(p);
    }

    /// A flush waits, or gives what it learns at once.
    fn keep_flush(&mut self, p: PipeNo, i: IvarNo) -> Result<Option<Num>, NoMemory>
        requires { p < length self.old.plain.pipes }
        ensures number { IfOk result (λ number. number
            ≡ part.flushed_at_once (pipe_at p self.old.plain)) }
        ensures kept { OnOk result (self.new ≡ doing
            (piped (part.after_flushed (name_in self.old.names i)) p) self.old) }
    {
        let number = self.lists.pipes.flushed(p, i)?;
        Ok(number)
    }

    /// A read that took a number is called, where one did.
    fn serve(&mut self, served: Option<Read>, num: Num) -> Result<(), NoMemory>
        ensures { OnOk result (self.new ≡ doing (taken_by
            (option_map (read_mapped (name_in self.old.names)) served) num) self.old) }
    {
        match served {
            Some(read) => self.call_item(read, num),
            None => Ok(()),
        }
    }

    /// A read is called with its item in front, in its context.
    fn call_item(&mut self, read: Read, num: Num) -> Result<(), NoMemory>
        ensures { OnOk result (self.new ≡ doing
            (item_called (read_mapped (name_in self.old.names) read) num) self.old) }
    {
        let Read { ctx, item, .. } = read;
        let Callback { proc, vals, to } = item;
        let vals = put_first(num, vals)?;
        let ret = Ret::To(to);
        let frame = Frame::Call { proc, vals, ret };
        self.enqueue(ctx, Task { frame, value: None })
    }

    /// A read learns of the end.
    fn call_eof(&mut self, read: Read) -> Result<(), NoMemory>
        ensures { OnOk result (self.new ≡ doing
            (λ s. eof_called s (read_mapped (name_in self.old.names) read)) self.old) }
    {
        let Read { ctx, eof, .. } = read;
        let Callback { proc, vals, to } = eof;
        let ret = Ret::To(to);
        let frame = Frame::Call { proc, vals, ret };
        self.enqueue(ctx, Task { frame, value: None })
    }

    /// Where the pipe is free, all pushbacks are filled with 0, the oldest first.
    fn free_pushbacks(&mut self, p: PipeNo) -> Result<(), NoMemory>
        requires pipe { p < length self.old.plain.pipes }
        requires fits { FitsSome self.old.plain }
        ensures { OnOk result (self.new ≡ doing (pushbacks_freed p) self.old) }
    {
        // For the proof alone: calls that take one pushback each take all of which the pipe is free.
        pushbacks_one_at_a_time_are_all_that_are_freed::<Read>();
        while let Some(i) = self.next_free(p) {
            self.check_drawn(i);
            self.fill(i, 0)?;
        }
        Ok(())
    }

    /// Each settled flush is filled, the oldest first.
    fn settle_flushes(&mut self, p: PipeNo) -> Result<(), NoMemory>
        requires pipe { p < length self.old.plain.pipes }
        requires fits { FitsSome self.old.plain }
        ensures { OnOk result (self.new ≡ doing (flushes_settled p) self.old) }
    {
        // For the proof alone: calls that take one flush each take all that are settled.
        flushes_one_at_a_time_are_all_that_are_settled::<Read>();
        while let Some(settled) = self.next_flushed(p) {
            let (i, num) = settled;
            self.check_drawn(i);
            self.fill(i, num)?;
        }
        Ok(())
    }

    /// Each read that is owed the end learns of it, the oldest first.
    fn call_eofs(&mut self, p: PipeNo) -> Result<(), NoMemory>
        requires { p < length self.old.plain.pipes }
        ensures { OnOk result (self.new ≡ doing (eofs_called p) self.old) }
    {
        // For the proof alone: calls that take one read each take all that are owed the end.
        ends_one_at_a_time_are_all_that_are_owed::<Read>();
        while let Some(read) = self.next_eof(p) {
            self.call_eof(read)?;
        }
        Ok(())
    }

    /// Takes the oldest pushback of which a pipe is free: `None` exactly where there is none such.
    fn next_free(&mut self, p: PipeNo) -> Option<IvarNo>
        requires { p < length self.old.plain.pipes }
        ensures first { option_map (name_in self.old.names) result
            ≡ first_freed p self.old.plain }
        ensures rest { self.new ≡ doing (piped part.freed_taken p) self.old }
    {
        self.lists.pipes.next_free(p)
    }

    /// Takes the oldest settled flush with what it learns: `None` exactly where none is settled.
    fn next_flushed(&mut self, p: PipeNo) -> Option<(IvarNo, Num)>
        requires { p < length self.old.plain.pipes }
        ensures first { option_map (settlement_mapped (name_in self.old.names)) result
            ≡ first_settled p self.old.plain }
        ensures rest { self.new ≡ doing (piped part.settled_taken p) self.old }
    {
        self.lists.pipes.next_flushed(p)
    }

    /// Takes the oldest read that is owed the end: `None` exactly where there is none.
    fn next_eof(&mut self, p: PipeNo) -> Option<Read>
        requires { p < length self.old.plain.pipes }
        ensures first { option_map (read_mapped (name_in self.old.names)) result
            ≡ first_owed p self.old.plain }
        ensures rest { self.new ≡ doing (piped part.owed_taken p) self.old }
    {
        self.lists.pipes.next_eof(p)
    }
}
