//! Deferreds that wait for a time or for the next cycle.

ghost use Rattle.std.specs.Prelude.{◌≡◌, ◌<◌, ◌-◌, ◌^◌, true, length, OnOk, OnErr, IfOk, IfSome};
ghost use Rattle.ak_base.specs.Numbers.{fits};
ghost use Rattle.ak_clock.specs.Clock.{ticked};
ghost use Rattle.std.specs.Option.{option_map};
ghost use Rattle.ak_cells.specs.Names.{name_in};
ghost use Rattle.ak_machine.specs.Alarms.{with_yield, with_alarm, abort, yields_filled, alarms_filled};
ghost use Rattle.ak_state.specs.Seen.{doing};
ghost use Rattle.ak_state.specs.Fits.{FitsSome};
ghost use Rattle.ak_state.specs.Alarms.{first_yield, without_yield, first_due, without_alarm, awaiting_cycle, time_after, with_alarm_for, pending, without_event, at_time};

use crate::parts::Parts;
use ak_base::list::NoMemory;
use ak_base::number::{EventNo, IvarNo, Num};
use ak_clock::alarm::{AfterRefused, TickRefused};
use ak_clock::law::due_one_at_a_time_gives_all_that_are_due;
use std::alloc::AllocError;

/// An alarm that was set, and its deferred.
#[derive(Clone, Copy, PartialEq, Eq, Debug)]
pub struct Timed {
    pub event: EventNo,
    pub to: IvarNo,
}

impl Parts {
    /// Whether the time that is so far from now has at most 64 bits.
    pub fn has_time(&self, n: Num) -> bool
        ensures { result ≡ fits (time_after n self.now.plain) }
    {
        self.lists.clock.now().checked_add(n).is_some()
    }

    /// A fresh deferred with an alarm at `n` from now.
    pub fn begin_alarm(&mut self, n: Num) -> Result<Timed, NoMemory>
        requires time { fits (time_after n self.old.plain) ≡ true }
        requires fits { FitsSome self.old.plain }
        ensures event { IfOk result (λ timed. timed.event ≡ self.old.plain.clock.next) }
        ensures to { IfOk result (λ timed. timed.to ≡ length self.old.plain.cells.ivars) }
        ensures own { IfOk result (λ timed. name_in self.old.names timed.to ≡ timed.to) }
        ensures set { OnOk result (self.new
            ≡ doing (with_alarm (time_after n self.old.plain)) self.old) }
    {
        let to = self.fresh()?;
        let event = self.set_alarm(to, n)?;
        Ok(Timed { event, to })
    }

    /// A pending alarm is gone, and its deferred is filled with 1.
    pub fn abort(&mut self, e: EventNo) -> Result<(), NoMemory>
        requires fits { FitsSome self.old.plain }
        ensures { OnOk result (self.new ≡ doing (abort e) self.old) }
    {
        if let Some(i) = self.take_alarm(e) {
            self.check_drawn(i);
            self.fill(i, 1)?;
        }
        Ok(())
    }

    /// The clock goes on by `n`.
    pub fn tick(&mut self, n: Num) -> Result<(), TickRefused>
        ensures answer { result ≡ ticked n (time_after n self.old.plain) }
        ensures ok { OnOk result (self.new
            ≡ doing (at_time (time_after n self.old.plain)) self.old) }
        ensures err { OnErr result (self.new ≡ self.old) }
    {
        self.lists.clock.tick(n)
    }

    /// An alarm at `n` from now for a deferred, and its number.
    fn set_alarm(&mut self, i: IvarNo, n: Num) -> Result<EventNo, NoMemory>
        requires numbers { self.old.plain.clock.next < 2 ^ 32 - 1 }
        requires time { fits (time_after n self.old.plain) ≡ true }
        ensures number { IfOk result (λ e. e ≡ self.old.plain.clock.next) }
        ensures set { OnOk result (self.new ≡ doing
            (with_alarm_for (time_after n self.old.plain) (name_in self.old.names i)) self.old) }
    {
        match self.lists.clock.after(i, n) {
            Ok(e) => Ok(e),
            Err(AfterRefused::NoMemory) => Err(AllocError),
            Err(AfterRefused::Overflow) => unreachable!(),
        }
    }

    /// Takes an alarm, where it is pending, and gives its deferred.
    fn take_alarm(&mut self, e: EventNo) -> Option<IvarNo>
        ensures ivar { option_map (name_in self.old.names) result ≡ pending e self.old.plain }
        ensures rest { self.new ≡ doing (without_event e) self.old }
    {
        self.lists.clock.abort(e)
    }

    /// A fresh deferred that waits for the next cycle, and its number.
    pub fn begin_yield(&mut self) -> Result<IvarNo, NoMemory>
        ensures number { IfOk result (λ i. i ≡ length self.old.plain.cells.ivars) }
        ensures own { IfOk result (λ i. name_in self.old.names i ≡ i) }
        ensures waits { OnOk result (self.new ≡ doing with_yield self.old) }
    {
        let i = self.fresh()?;
        self.await_cycle(i)?;
        Ok(i)
    }

    /// The deferreds that wait for the next cycle are filled with 0, the oldest first.
    pub fn fill_yields(&mut self) -> Result<(), NoMemory>
        requires { FitsSome self.old.plain }
        ensures { OnOk result (self.new ≡ doing yields_filled self.old) }
    {
        while let Some(i) = self.next_yield() {
            self.fill(i, 0)?;
        }
        Ok(())
    }

    /// The deferreds of the alarms that are due are filled with 0, in order of time and then of number.
    pub fn fill_alarms(&mut self) -> Result<(), NoMemory>
        requires { FitsSome self.old.plain }
        ensures { OnOk result (self.new ≡ doing alarms_filled self.old) }
    {
        // For the proof alone: calls that take one alarm each take all that are due.
        due_one_at_a_time_gives_all_that_are_due();
        while let Some(i) = self.next_due() {
            self.check_drawn(i);
            self.fill(i, 0)?;
        }
        Ok(())
    }

    /// A deferred waits for the next cycle.
    fn await_cycle(&mut self, i: IvarNo) -> Result<(), NoMemory>
        ensures { OnOk result (self.new
            ≡ doing (awaiting_cycle (name_in self.old.names i)) self.old) }
    {
        self.lists.clock.yield_next(i)?;
        Ok(())
    }

    /// Takes the oldest deferred that waits for the next cycle: `None` exactly where none waits.
    fn next_yield(&mut self) -> Option<IvarNo>
        requires { FitsSome self.old.plain }
        ensures first { option_map (name_in self.old.names) result
            ≡ first_yield self.old.plain }
        ensures rest { self.new ≡ doing without_yield self.old }
        ensures drawn { IfSome result (λ i. i < length self.new.plain.cells.ivars) }
    {
        let i = self.lists.clock.next_yield()?;
        self.check_drawn(i);
        Some(i)
    }

    /// Takes the alarm that is due first, and gives its deferred: `None` exactly where none is due.
    fn next_due(&mut self) -> Option<IvarNo>
        ensures first { option_map (name_in self.old.names) result
            ≡ first_due self.old.plain }
        ensures rest { self.new ≡ doing without_alarm self.old }
    {
        self.lists.clock.due()
    }
}
