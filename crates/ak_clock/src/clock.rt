//! The clock of a run.

ghost use Rattle.std.specs.Prelude.{ℤ, ◌≡◌, ◌+◌, ◌-◌, ◌<◌, ◌≤ℤ◌, ◌+ℤ◌, ◌^◌, pos, false, None, Err, OnOk, OnErr, IfOk, IfErr, MatchOption, is_some};
ghost use Rattle.ak_base.specs.Numbers.{fits};
ghost use Rattle.ak_base.specs.Lists.{first_of};
ghost use Rattle.ak_clock.specs.Clock as plain;
ghost use Rattle.ak_clock.specs.Order.{AreByTime};

use crate::alarm::{AfterRefused, Alarm, TickRefused};
use ak_base::list::NoMemory;
use ak_base::number::{EventNo, IvarNo, Num};
use std::alloc::Global;
use std::collections::{BTreeMap, BTreeSet, VecDeque};
use std::marker::Model;

/// The time, the alarms that are pending, in order of their numbers, and the deferreds that wait for the next cycle.
/// Contracts see these, and the number of the next alarm (after `Clock` and `yield` of Async; that the clock moves only by
/// the script is own). To set an alarm, to abort it and to take it when it is due cost O(log n) where n are pending.
#[derive(Debug, Drop)]
pub struct Clock {
    time: Num,
    // The alarms under their numbers, and their times and numbers in order.
    alarms: BTreeMap<u32, Alarm>,
    order: BTreeSet<(Num, u32)>,
    next: u32,
    yields: VecDeque<IvarNo>,
}

impl Model for Clock {
    ghost use Rattle.std.specs.Prelude.{pos, ◌≤ℤ◌};
    ghost use Rattle.std.specs.Map.{values_of};
    ghost use Rattle.ak_clock.specs.Clock.{Clock as Plain};
    ghost use Rattle.ak_clock.specs.Kept.{AreKept};

    ghost Value = { Plain };

    ghost view = { λ c. record { time = c.time; alarms = values_of c.alarms.entries; next = c.next; yields = c.yields.items } };

    ghost invariant = { λ c. (pos 0 ≤ℤ c.time) × AreKept c.next c.alarms.entries c.order.keys };
}

impl Clock {
    /// The clock at 0. It takes no memory.
    pub fn make(alloc: Global) -> Clock
        ensures { result ≡ plain.clock_at_zero }
    {
        Clock {
            time: 0,
            alarms: BTreeMap::new(alloc),
            order: BTreeSet::new(alloc),
            next: 0,
            yields: VecDeque::new(alloc),
        }
    }

    /// The time, at least 0.
    pub fn now(&self) -> Num
        ensures time { result ≡ self.now.time }
        ensures later { pos 0 ≤ℤ result }
    {
        self.time
    }

    /// Sets an alarm for the deferred `i` at `n` from now, which may be negative, and gives its number: how many were
    /// set before, which are fewer than 4,294,967,295.
    ///
    /// # Errors
    ///
    /// `Overflow` exactly where its time would be more than 64 bits with a sign hold, and else `NoMemory`. Nothing has
    /// changed.
    pub fn after(&mut self, i: IvarNo, n: Num) -> Result<EventNo, AfterRefused>
        requires { self.old.next < 2 ^ 32 - 1 }
        ensures number { IfOk result (λ e. e ≡ self.old.next) }
        ensures ok { OnOk result (self.new ≡ plain.with_alarm (self.old.time +ℤ n) i self.old) }
        ensures refused { IfErr result (λ r. r ≡ plain.after_refusal (self.old.time +ℤ n)) }
        ensures err { OnErr result (self.new ≡ self.old) }
        ensures overflow { fits (self.old.time +ℤ n) ≡ false → result ≡ Err AfterRefused.Overflow }
    {
        match self.time.checked_add(n) {
            Some(time) => self.set(i, time),
            None => Err(AfterRefused::Overflow),
        }
    }

    /// Aborts an alarm, and gives its deferred: `None` exactly where it is not pending, and nothing changes then.
    pub fn abort(&mut self, e: EventNo) -> Option<IvarNo>
        ensures ivar { result ≡ plain.ivar_of (plain.alarm_of e self.old) }
        ensures new { self.new ≡ plain.without_this (plain.alarm_of e self.old) self.old }
    {
        let alarm = self.alarms.remove(&e.number())?;
        self.order.remove(&(alarm.time, e.number()));
        Some(alarm.ivar)
    }

    /// Moves the clock on by `n`.
    ///
    /// # Errors
    ///
    /// `Negative` exactly where `n` is less than 0, and else `Overflow` exactly where the time would be more than 64 bits
    /// with a sign hold. Nothing has changed.
    pub fn tick(&mut self, n: Num) -> Result<(), TickRefused>
        ensures answer { result ≡ plain.ticked n (self.old.time +ℤ n) }
        ensures ok { OnOk result (self.new ≡ plain.set_to (self.old.time +ℤ n) self.old) }
        ensures err { OnErr result (self.new ≡ self.old) }
    {
        if n < 0 {
            return Err(TickRefused::Negative);
        }
        match self.time.checked_add(n) {
            Some(time) => {
                self.time = time;
                Ok(())
            }
            None => Err(TickRefused::Overflow),
        }
    }

    /// Takes the alarm that is due and comes first by time and then by number, and gives its deferred: `None` exactly
    /// where none is due, and nothing changes then.
    pub fn due(&mut self) -> Option<IvarNo>
        ensures ivar { result ≡ plain.ivar_of (first_of (plain.due_alarms self.old)) }
        ensures new { self.new ≡ plain.due_taken self.old }
        ensures by_time { AreByTime (plain.due_alarms self.old) }
    {
        let e = self.first_due()?;
        self.abort(e)
    }

    /// Whether an alarm is due. It costs a look at the first.
    pub fn any_due(&self) -> bool
        ensures { result ≡ plain.has_due self.now }
    {
        self.first_due().is_some()
    }

    /// Has a deferred wait for the next cycle, behind the others.
    ///
    /// # Errors
    ///
    /// `NoMemory`. The clock is then as before.
    pub fn yield_next(&mut self, i: IvarNo) -> Result<(), NoMemory>
        ensures ok { OnOk result (self.new ≡ plain.with_yield i self.old) }
        ensures err { OnErr result (self.new ≡ self.old) }
    {
        self.yields.push_back(i)?;
        Ok(())
    }

    /// Takes the oldest deferred that waits for the next cycle: `None` exactly where none waits, and nothing changes
    /// then.
    pub fn next_yield(&mut self) -> Option<IvarNo>
        ensures front { result ≡ first_of self.old.yields }
        ensures rest { self.new ≡ plain.yield_taken self.old }
    {
        self.yields.pop_front()
    }

    /// Whether a deferred waits for the next cycle.
    pub fn any_yield(&self) -> bool
        ensures { result ≡ plain.has_yield self.now }
    {
        !self.yields.is_empty()
    }

    // Sets an alarm at a time.
    fn set(&mut self, i: IvarNo, time: Num) -> Result<EventNo, AfterRefused>
        requires { self.old.next < 2 ^ 32 - 1 }
        ensures number { IfOk result (λ e. e ≡ self.old.next) }
        ensures ok { OnOk result (self.new ≡ plain.with_alarm time i self.old) }
        ensures refused { IfErr result (λ r. r ≡ AfterRefused.NoMemory) }
        ensures err { OnErr result (self.new ≡ self.old) }
    {
        let no = EventNo::new(self.next);
        if self
            .alarms
            .insert(self.next, Alarm { no, time, ivar: i })
            .is_err()
        {
            return Err(AfterRefused::NoMemory);
        }
        if self.order.insert((time, self.next)).is_err() {
            self.alarms.remove(&self.next);
            return Err(AfterRefused::NoMemory);
        }
        self.next += 1;
        Ok(no)
    }

    // The number of the alarm that is due and comes first.
    fn first_due(&self) -> Option<EventNo>
        ensures alarm { MatchOption result (first_of (plain.due_alarms self.now) ≡ None)
            (λ e. plain.alarm_of e self.now ≡ first_of (plain.due_alarms self.now)) }
        ensures any { is_some result ≡ plain.has_due self.now }
        ensures by_time { AreByTime (plain.due_alarms self.now) }
    {
        let (time, no) = *self.order.first()?;
        if time <= self.time {
            Some(EventNo::new(no))
        } else {
            None
        }
    }
}
