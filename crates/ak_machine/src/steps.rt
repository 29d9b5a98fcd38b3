//! Single steps that are worked by hand. The bodies are empty: each contract is what the step must do.

ghost use Rattle.std.specs.Prelude.{◌≡◌, pos, [], ◌∷◌, ◌++◌, false};
ghost use Rattle.ak_labor.specs.Arrived.{nothing_arrived};
ghost use Rattle.ak_labor.specs.Calls.{Drained, Done};
ghost use Rattle.ak_frames.specs.declared.value.Value.TheVariants.{Num};
ghost use Rattle.ak_machine.specs.Deferred.{fill, connect};
ghost use Rattle.ak_machine.specs.Groups.{first_call, first_number, part_set, all_call};
ghost use Rattle.ak_machine.specs.Errors.{send};
ghost use Rattle.ak_machine.specs.Run.{run_of};
ghost use Rattle.ak_machine.specs.Steps.{job_of, three_wait, both_full, choosing, all_of_two, call_of_three, two_detached};

use crate::flow::Flow;
use ak_trace::entry::{Ending, Entry};

/// A fill enqueues the handlers of its ivar, the oldest first, and leaves those of other ivars.
pub fn fill_wakes_the_oldest_first()
    ensures { (fill 0 (pos 7) three_wait).queues.normal ≡ job_of 0 1 (pos 7) ∷ job_of 1 3 (pos 7)
        ∷ [] }
{}

/// After a connection a fill of the result enqueues the handlers of both, in order of registration.
pub fn connection_keeps_the_handlers()
    ensures { (fill 0 (pos 7) (connect 0 1 three_wait)).queues.normal
        ≡ job_of 0 1 (pos 7) ∷ job_of 1 2 (pos 7) ∷ job_of 2 3 (pos 7) ∷ [] }
{}

/// Of two full deferreds `any` takes the one that stands first in its list, whichever was filled first.
pub fn any_takes_the_first_of_its_list()
    ensures { first_number (0 ∷ 1 ∷ []) both_full ≡ Some (pos 5) }
{}

/// So does `choose`: the procedure 3 of ivar 0 is called with its number put first.
pub fn choose_takes_the_first_of_its_list()
    ensures { first_call (choosing 0 3 ∷ choosing 1 4 ∷ []) (Num (pos 8) ∷ []) 2 both_full
        ≡ Some (record { proc = 3; vals = Num (pos 5) ∷ Num (pos 8) ∷ []; to = 2 }) }
{}

/// An `all` of two parts has no call while one part has no number, and then has the call with both, in the order of its list.
pub fn all_waits_for_every_part()
    ensures one { all_call 0 call_of_three (part_set 0 1 (pos 6) all_of_two) ≡ None }
    ensures both { all_call 0 call_of_three (part_set 0 0 (pos 5) (part_set 0 1 (pos 6) all_of_two))
        ≡ Some (record { proc = 3; vals = Num (pos 5) ∷ Num (pos 6) ∷ Num (pos 8) ∷ []; to = 2 }) }
{}

/// A detached monitor catches an error that is raised in itself, and the one above it doesn't learn of it.
pub fn error_is_caught_where_it_was_raised()
    ensures { (send 2 (pos 5) two_detached).state.trace
        ≡ two_detached.trace ++ Entry.Error (pos 5) 2 ∷ Entry.Caught 2 ∷ [] }
{}

/// An error that no monitor of its path catches ends the run.
pub fn error_at_the_root_ends_the_run()
    ensures trace { (send 0 (pos 5) two_detached).state.trace
        ≡ two_detached.trace ++ Entry.Error (pos 5) 0 ∷ Entry.Unhandled (pos 5) ∷ Entry.End Ending.Unhandled ∷ [] }
    ensures flow { (send 0 (pos 5) two_detached).flow ≡ Flow.Unhandled (pos 5) }
{}

/// A run that may have no job ends at the limit of jobs, although its first job waits.
pub fn no_job_beyond_the_limit()
    ensures { (run_of (record { procs = []; main = 0; ask = None })
        (record { threads = 1; limit = 1; jobs = 0; askers = 0 })
        (Drained nothing_arrived ∷ Done ∷ [])).trace
        ≡ Entry.Enq 0 false ∷ Entry.Cycle ∷ Entry.End Ending.Jobs ∷ [] }
{}
