//! Pins of connections: what is renamed, and what is not.

ghost use Rattle.ak_rows.specs.Row.{Meets};
ghost use Rattle.ak_rows.specs.PinsOfRenaming.{connection_keeps_contexts, connection_to_a_full_one_under_its_name, connection_to_a_full_one_wakes_in_context, names_of_all_sides, renaming_leaves_other_things, renaming_reaches_args_of_reads, renaming_reaches_args_of_try, renaming_reaches_lists_and_args_of_groups, renaming_reaches_monitors, renaming_reaches_pipes, renaming_reaches_queued_results, renaming_reaches_results_of_groups, renaming_reaches_throttles, renaming_reaches_tries, renaming_reaches_works, renaming_reaches_yields_and_alarms, two_results_of_one_deferred};

/// Handlers keep context and order through a connection.
pub fn pin_connection_keeps_contexts()
    ensures { Meets connection_keeps_contexts }
{}

/// A connection to a full deferred fills the result, with its number and under the name that it has by then.
pub fn pin_connection_to_a_full_one_under_its_name()
    ensures { Meets connection_to_a_full_one_under_its_name }
{}

/// Handlers that a connection to a full deferred wakes have their own context.
pub fn pin_connection_to_a_full_one_wakes_in_context()
    ensures { Meets connection_to_a_full_one_wakes_in_context }
{}

/// After a connection each old name stands for the one deferred: look, fill and register through each of them.
pub fn pin_names_of_all_sides()
    ensures { Meets names_of_all_sides }
{}

/// A connection renames ivars and deferreds alone: numbers, monitors, pipes, throttles, events and helpers of the
/// same number stay.
pub fn pin_renaming_leaves_other_things()
    ensures { Meets renaming_leaves_other_things }
{}

/// A connection renames the args of a read that waits.
pub fn pin_renaming_reaches_args_of_reads()
    ensures { Meets renaming_reaches_args_of_reads }
{}

/// A connection renames the args of both procedures of a try.
pub fn pin_renaming_reaches_args_of_try()
    ensures { Meets renaming_reaches_args_of_try }
{}

/// A connection renames the deferreds of any and choose, which keep their places, and the args of all and choose.
pub fn pin_renaming_reaches_lists_and_args_of_groups()
    ensures { Meets renaming_reaches_lists_and_args_of_groups }
{}

/// A connection renames a next error and the args of an error handler.
pub fn pin_renaming_reaches_monitors()
    ensures { Meets renaming_reaches_monitors }
{}

/// A connection renames a pushback, a flush, and the results of reads that wait for an item and for the end.
pub fn pin_renaming_reaches_pipes()
    ensures { Meets renaming_reaches_pipes }
{}

/// A connection renames the result that an enqueued job returns to.
pub fn pin_renaming_reaches_queued_results()
    ensures { Meets renaming_reaches_queued_results }
{}

/// A connection renames the results of all, any and choose.
pub fn pin_renaming_reaches_results_of_groups()
    ensures { Meets renaming_reaches_results_of_groups }
{}

/// A connection renames the results of bodies that run and that wait, the args of one that waits, and a mark.
pub fn pin_renaming_reaches_throttles()
    ensures { Meets renaming_reaches_throttles }
{}

/// A connection renames the result of a try, for its number, its deferred and its error.
pub fn pin_renaming_reaches_tries()
    ensures { Meets renaming_reaches_tries }
{}

/// A connection renames the result of a work.
pub fn pin_renaming_reaches_works()
    ensures { Meets renaming_reaches_works }
{}

/// A connection renames a yield, an alarm and an event.
pub fn pin_renaming_reaches_yields_and_alarms()
    ensures { Meets renaming_reaches_yields_and_alarms }
{}

/// Two results that are connected with one deferred are one.
pub fn pin_two_results_of_one_deferred()
    ensures { Meets two_results_of_one_deferred }
{}
