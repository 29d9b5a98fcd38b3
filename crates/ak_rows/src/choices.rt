//! Groups of deferreds, and alarms.

ghost use Rattle.std.specs.Prelude.{◌≡◌, []};
ghost use Rattle.ak_machine.specs.Status.{status_of, Well};
ghost use Rattle.ak_rows.specs.Row.{MeetsWithWaits};
ghost use Rattle.ak_rows.specs.Choices.{choose_takes_the_earliest, all_and_any, alarms_by_time_and_number};

/// A choice that runs when both of its deferreds are full takes the earlier of its list.
pub fn row_choose_takes_the_earliest()
    ensures run { MeetsWithWaits choose_takes_the_earliest [] }
    ensures status { status_of choose_takes_the_earliest.trace ≡ Well }
{}

/// An all runs its procedure once every part has its number; an any takes the first that is full.
pub fn row_all_and_any()
    ensures run { MeetsWithWaits all_and_any [] }
    ensures status { status_of all_and_any.trace ≡ Well }
{}

/// Alarms are filled by time and then by number at the begin of a cycle; an aborted one at once.
pub fn row_alarms_by_time_and_number()
    ensures run { MeetsWithWaits alarms_by_time_and_number [] }
    ensures status { status_of alarms_by_time_and_number.trace ≡ Well }
{}
