//! Works and helpers.

ghost use Rattle.std.specs.Prelude.{◌≡◌, [], ◌∷◌, pos};
ghost use Rattle.ak_machine.specs.Status.{status_of, ByError, Stuck, Well};
ghost use Rattle.ak_rows.specs.Row.{MeetsWithWaits};
ghost use Rattle.ak_rows.specs.Works.{helpers_and_works, stuck_with_a_general_work, work_arrives, works_behind_an_unhandled_error};

/// A helper is granted and one refused; works of the helper and general ones arrive.
pub fn row_helpers_and_works()
    ensures run { MeetsWithWaits helpers_and_works (8 ∷ []) }
    ensures status { status_of helpers_and_works.trace ≡ Well }
{}

/// A general work that no thread can do, since the only one is reserved.
pub fn row_stuck_with_a_general_work()
    ensures run { MeetsWithWaits stuck_with_a_general_work [] }
    ensures status { status_of stuck_with_a_general_work.trace ≡ Stuck }
{}

/// A work arrives after a wait and fills its deferred.
pub fn row_work_arrives()
    ensures run { MeetsWithWaits work_arrives (3 ∷ []) }
    ensures status { status_of work_arrives.trace ≡ Well }
{}

/// Of a drain whose first work ends the run the second does not arrive.
pub fn row_works_behind_an_unhandled_error()
    ensures run { MeetsWithWaits works_behind_an_unhandled_error (4 ∷ []) }
    ensures status { status_of works_behind_an_unhandled_error.trace ≡ ByError (pos 3) }
{}
