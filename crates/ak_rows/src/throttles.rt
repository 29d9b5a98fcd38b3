//! Throttles.

ghost use Rattle.std.specs.Prelude.{◌≡◌, []};
ghost use Rattle.ak_machine.specs.Status.{status_of, Well};
ghost use Rattle.ak_rows.specs.Row.{MeetsWithWaits};
ghost use Rattle.ak_rows.specs.Throttles.{throttle_stopped_by_a_failure, one_body_at_a_time};

/// A failed body stops its throttle, and the bodies that wait are dropped.
pub fn row_throttle_stopped_by_a_failure()
    ensures run { MeetsWithWaits throttle_stopped_by_a_failure [] }
    ensures status { status_of throttle_stopped_by_a_failure.trace ≡ Well }
{}

/// Of a throttle of one the second body starts when the first has ended.
pub fn row_one_body_at_a_time()
    ensures run { MeetsWithWaits one_body_at_a_time [] }
    ensures status { status_of one_body_at_a_time.trace ≡ Well }
{}
