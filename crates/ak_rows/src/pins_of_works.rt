//! Pins of works and helpers.

ghost use Rattle.std.specs.Prelude.{[], ◌∷◌};
ghost use Rattle.ak_rows.specs.Row.{Meets, MeetsWithWaits};
ghost use Rattle.ak_rows.specs.PinsOfWorks.{bad_works_of_a_monitor, ended_and_refused_helpers_are_not_stuck, helper_ends_once, helpers_work_is_not_stuck, outstanding_until_arrival, stuck_with_a_general_work};

/// A bad work, of a helper too, sends its error to the monitor of the job that submitted it.
pub fn pin_bad_works_of_a_monitor()
    ensures { Meets bad_works_of_a_monitor }
{}

/// Of helpers, those that are granted and not ended alone count for stuck, and all threads have to be theirs.
pub fn pin_ended_and_refused_helpers_are_not_stuck()
    ensures { MeetsWithWaits ended_and_refused_helpers_are_not_stuck (7 ∷ []) }
{}

/// Hdone of a helper ends it once, of a refused one it asks nothing; hwork of either raises -7 and draws nothing.
pub fn pin_helper_ends_once()
    ensures { Meets helper_ends_once }
{}

/// An outstanding work of a helper: the run waits.
pub fn pin_helpers_work_is_not_stuck()
    ensures { MeetsWithWaits helpers_work_is_not_stuck (5 ∷ []) }
{}

/// A finished work is outstanding until its arrival: the run waits and begins a cycle.
pub fn pin_outstanding_until_arrival()
    ensures { MeetsWithWaits outstanding_until_arrival (4 ∷ 5 ∷ []) }
{}

/// The run is stuck where each thread is reserved and only general works are outstanding.
pub fn pin_stuck_with_a_general_work()
    ensures { Meets stuck_with_a_general_work }
{}
