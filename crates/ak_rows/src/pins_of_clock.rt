//! Pins of yields and alarms.

ghost use Rattle.ak_rows.specs.Row.{Meets};
ghost use Rattle.ak_rows.specs.PinsOfClock.{alarm_at_its_time, tick_and_after_at_the_ends, yields_then_alarms};

/// An alarm is due where its time is at most the clock, and one that is not due does not hold the run.
pub fn pin_alarm_at_its_time()
    ensures { Meets alarm_at_its_time }
{}

/// Tick raises -9 where negative and -1 past the greatest number, after and event raise -1 there, and none of
/// them changes anything.
pub fn pin_tick_and_after_at_the_ends()
    ensures { Meets tick_and_after_at_the_ends }
{}

/// A cycle begins with its yields in order, then the alarms by time and number.
pub fn pin_yields_then_alarms()
    ensures { Meets yields_then_alarms }
{}
