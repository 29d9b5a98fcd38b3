//! Pins of monitors and of the way of an error.

ghost use Rattle.ak_rows.specs.Row.{Meets};
ghost use Rattle.ak_rows.specs.PinsOfMonitors.{error_of_a_handler, handler_below_the_caught_one, handler_in_its_context, monitors_by_their_names, next_errors_oldest_first, unhandled_in_a_drain};

/// A handler that raises does so in the monitor in which it was registered, not in the one that it serves; an
/// unhandled error fills no next error, and neither onerror nor nexterr detach.
pub fn pin_error_of_a_handler()
    ensures { Meets error_of_a_handler }
{}

/// Handlers of monitors below the one that catches do not act.
pub fn pin_handler_below_the_caught_one()
    ensures { Meets handler_below_the_caught_one }
{}

/// An error handler runs in the monitor and priority in which it was registered.
pub fn pin_handler_in_its_context()
    ensures { Meets handler_in_its_context }
{}

/// Within, detach, onerror, nexterr and send mean the monitor that they name, not the last one.
pub fn pin_monitors_by_their_names()
    ensures { Meets monitors_by_their_names }
{}

/// Next errors are filled from the monitor of the error up to the one that catches and no further, oldest first
/// in each; detach writes its entry each time.
pub fn pin_next_errors_oldest_first()
    ensures { Meets next_errors_oldest_first }
{}

/// An unhandled error in a drain ends the run before the pairs behind it arrive.
pub fn pin_unhandled_in_a_drain()
    ensures { Meets unhandled_in_a_drain }
{}
