//! Pins of `all`, `any` and `choose`.

ghost use Rattle.ak_rows.specs.Row.{Meets};
ghost use Rattle.ak_rows.specs.PinsOfGroups.{all_in_its_context, all_in_list_order, any_of_two_full_ones, any_takes_the_earliest, choice_removes_its_last_registration, choice_removes_its_registrations, choose_in_its_context, choose_runs_one};

/// The procedure of an all runs in the context of the all.
pub fn pin_all_in_its_context()
    ensures { Meets all_in_its_context }
{}

/// All calls its procedure once each part is full, with the values in list order and then the args, in the job of
/// the last one.
pub fn pin_all_in_list_order()
    ensures { Meets all_in_list_order }
{}

/// An any gives a job for each deferred that is full already.
pub fn pin_any_of_two_full_ones()
    ensures { Meets any_of_two_full_ones }
{}

/// Any takes the earliest of its list that is full when its job runs, not the one that woke it.
pub fn pin_any_takes_the_earliest()
    ensures { Meets any_takes_the_earliest }
{}

/// A choice removes its own registrations, also that which is the last of all.
pub fn pin_choice_removes_its_last_registration()
    ensures { Meets choice_removes_its_last_registration }
{}

/// The first job of a choice removes the other registrations, in any order of the list.
pub fn pin_choice_removes_its_registrations()
    ensures { Meets choice_removes_its_registrations }
{}

/// The procedure of a choose runs in the context of the choose.
pub fn pin_choose_in_its_context()
    ensures { Meets choose_in_its_context }
{}

/// Choose runs the procedure of the deferred that it takes, on its value and the args, in the same job.
pub fn pin_choose_runs_one()
    ensures { Meets choose_runs_one }
{}
