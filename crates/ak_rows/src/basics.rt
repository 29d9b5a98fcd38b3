//! Jobs, handlers, connections, limits and ends.

ghost use Rattle.std.specs.Prelude.{◌≡◌, [], negsuc};
ghost use Rattle.ak_machine.specs.Status.{status_of, AtJobLimit, ByError, Well};
ghost use Rattle.ak_rows.specs.Row.{MeetsWithWaits};
ghost use Rattle.ak_rows.specs.Basics.{print_alone, handlers_in_order, full_ivar_raises, connections_merge_handlers, low_jobs_wait, job_limit_reached, job_limit_just_met, stop_ends_the_run};

/// A script that prints.
pub fn row_print_alone()
    ensures run { MeetsWithWaits print_alone [] }
    ensures status { status_of print_alone.trace ≡ Well }
{}

/// Handlers of one ivar run in order of registration, also one that comes when the ivar is full.
pub fn row_handlers_in_order()
    ensures run { MeetsWithWaits handlers_in_order [] }
    ensures status { status_of handlers_in_order.trace ≡ Well }
{}

/// A second fill of an ivar raises, and nobody catches it.
pub fn row_full_ivar_raises()
    ensures run { MeetsWithWaits full_ivar_raises [] }
    ensures status { status_of full_ivar_raises.trace ≡ ByError (negsuc 2) }
{}

/// Two connections: the handlers of all three names run in order of registration, under the result's name.
pub fn row_connections_merge_handlers()
    ensures run { MeetsWithWaits connections_merge_handlers [] }
    ensures status { status_of connections_merge_handlers.trace ≡ Well }
{}

/// At a limit of one job of each priority in a cycle, low jobs run when the normal ones had their turn.
pub fn row_low_jobs_wait()
    ensures run { MeetsWithWaits low_jobs_wait [] }
    ensures status { status_of low_jobs_wait.trace ≡ Well }
{}

/// A run that has one job more than its limit ends there.
pub fn row_job_limit_reached()
    ensures run { MeetsWithWaits job_limit_reached [] }
    ensures status { status_of job_limit_reached.trace ≡ AtJobLimit }
{}

/// A run that has as many jobs as its limit ends idle.
pub fn row_job_limit_just_met()
    ensures run { MeetsWithWaits job_limit_just_met [] }
    ensures status { status_of job_limit_just_met.trace ≡ Well }
{}

/// A statement `stop` ends the run in the middle of its job.
pub fn row_stop_ends_the_run()
    ensures run { MeetsWithWaits stop_ends_the_run [] }
    ensures status { status_of stop_ends_the_run.trace ≡ Well }
{}
