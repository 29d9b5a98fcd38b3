//! Pins of `try`.

ghost use Rattle.ak_rows.specs.Row.{Meets};
ghost use Rattle.ak_rows.specs.PinsOfTries.{attach_at_a_deferred, attach_at_a_number, attach_at_an_error, try_decided_before_its_body_returns, try_done_decides, try_in_its_monitor_and_priority, try_monitor_below, try_takes_the_first_error};

/// It is attached as a deferred decides, before the fill, not before.
pub fn pin_attach_at_a_deferred()
    ensures { Meets attach_at_a_deferred }
{}

/// It is attached as a number decides, before the fill.
pub fn pin_attach_at_a_number()
    ensures { Meets attach_at_a_number }
{}

/// With rest raise the monitor is attached as the first error decides, the second goes up.
pub fn pin_attach_at_an_error()
    ensures { Meets attach_at_an_error }
{}

/// A body that has sent an error to its own monitor returns for nothing.
pub fn pin_try_decided_before_its_body_returns()
    ensures { Meets try_decided_before_its_body_returns }
{}

/// The job of a full deferred decides the try, an error after it is noted alone.
pub fn pin_try_done_decides()
    ensures { Meets try_done_decides }
{}

/// The body of a try runs below its monitor in its priority; the other procedure and the taking of a deferred
/// have the monitor and priority of the try.
pub fn pin_try_in_its_monitor_and_priority()
    ensures { Meets try_in_its_monitor_and_priority }
{}

/// The monitor of a try is below that of the job, and the body runs in it.
pub fn pin_try_monitor_below()
    ensures { Meets try_monitor_below }
{}

/// The first error of the body calls the other procedure, later ones are noted alone.
pub fn pin_try_takes_the_first_error()
    ensures { Meets try_takes_the_first_error }
{}
