//! Pins of throttles and their bodies.

ghost use Rattle.ak_rows.specs.Row.{Meets};
ghost use Rattle.ak_rows.specs.PinsOfThrottles.{body_decided_then_deferred, body_error_in_its_context, body_fails_once, dead_throttle, error_after_the_end_of_a_body, failing_body_stop, mark_of_the_bodies_before, room_after_ends_and_failures};

/// The deferred of a body that has failed is not waited for.
pub fn pin_body_decided_then_deferred()
    ensures { Meets body_decided_then_deferred }
{}

/// The failing of a body is a job in the context of its enqueue.
pub fn pin_body_error_in_its_context()
    ensures { Meets body_error_in_its_context }
{}

/// A body fails once, later errors of it are noted alone, and its number is dropped.
pub fn pin_body_fails_once()
    ensures { Meets body_fails_once }
{}

/// Enqueue on a dead throttle raises -5 and draws nothing, one before the failing job does not.
pub fn pin_dead_throttle()
    ensures { Meets dead_throttle }
{}

/// An error of a body that has ended is noted alone.
pub fn pin_error_after_the_end_of_a_body()
    ensures { Meets error_after_the_end_of_a_body }
{}

/// In mode stop a failing body drops those that wait, front first, each with -6 in the context of its enqueue;
/// then come the marks, then the error.
pub fn pin_failing_body_stop()
    ensures { Meets failing_body_stop }
{}

/// A mark waits for the bodies before it, for all of them and for no others; where a body ends the front waiting
/// one starts, then marks are filled, oldest first.
pub fn pin_mark_of_the_bodies_before()
    ensures { Meets mark_of_the_bodies_before }
{}

/// After an end and a failure in mode go one waiting body each starts, and as many bodies run as before; all this
/// in the monitor and priority of the enqueue.
pub fn pin_room_after_ends_and_failures()
    ensures { Meets room_after_ends_and_failures }
{}
