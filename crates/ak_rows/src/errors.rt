//! Errors and monitors.

ghost use Rattle.std.specs.Prelude.{◌≡◌, [], pos};
ghost use Rattle.ak_machine.specs.Status.{status_of, ByError, Well};
ghost use Rattle.ak_rows.specs.Row.{MeetsWithWaits};
ghost use Rattle.ak_rows.specs.Errors.{next_error_passes, handler_raises_in_its_own_context, try_takes_the_first_error, later_error_goes_up, error_after_return_goes_up};

/// An error that a monitor above catches fills the next error of the one that it passes.
pub fn row_next_error_passes()
    ensures run { MeetsWithWaits next_error_passes [] }
    ensures status { status_of next_error_passes.trace ≡ Well }
{}

/// A handler that raises does so in the monitor in which it was registered.
pub fn row_handler_raises_in_its_own_context()
    ensures run { MeetsWithWaits handler_raises_in_its_own_context [] }
    ensures status { status_of handler_raises_in_its_own_context.trace ≡ ByError (pos 6) }
{}

/// A try takes the first error of its body, and a later one is only noted.
pub fn row_try_takes_the_first_error()
    ensures run { MeetsWithWaits try_takes_the_first_error [] }
    ensures status { status_of try_takes_the_first_error.trace ≡ Well }
{}

/// A try of version 2 lets a later error of its body go up.
pub fn row_later_error_goes_up()
    ensures run { MeetsWithWaits later_error_goes_up [] }
    ensures status { status_of later_error_goes_up.trace ≡ ByError (pos 3) }
{}

/// A try of version 2 whose body returned lets an error of what the body left go up to the monitor above.
pub fn row_error_after_return_goes_up()
    ensures run { MeetsWithWaits error_after_return_goes_up [] }
    ensures status { status_of error_after_return_goes_up.trace ≡ Well }
{}
