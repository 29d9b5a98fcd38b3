//! Pins of jobs: their values, contexts, numbers and limits.

ghost use Rattle.ak_rows.specs.Row.{Meets};
ghost use Rattle.ak_rows.specs.PinsOfJobs.{args_are_taken_at_registration, division_cuts_and_remainder_has_the_sign_of_a, each_result_draws_one_number, handlers_keep_their_context, job_limit_just_met, job_limit_over_cycles, jobs_of_handlers_keep_their_priority, limit_per_cycle, low_jobs_alone_begin_a_cycle, numbers_end_at_64_bits, operators_and_prefixes, things_by_their_names};

/// Args of a call are the values of the moment of the statement.
pub fn pin_args_are_taken_at_registration()
    ensures { Meets args_are_taken_at_registration }
{}

/// Quotients cut towards zero, a remainder has the sign of its left side.
pub fn pin_division_cuts_and_remainder_has_the_sign_of_a()
    ensures { Meets division_cuts_and_remainder_has_the_sign_of_a }
{}

/// Each statement with a result draws one number, also where it is never used.
pub fn pin_each_result_draws_one_number()
    ensures { Meets each_result_draws_one_number }
{}

/// A handler runs in the monitor and priority in which it was registered.
pub fn pin_handlers_keep_their_context()
    ensures { Meets handlers_keep_their_context }
{}

/// A run of exactly J jobs ends idle.
pub fn pin_job_limit_just_met()
    ensures { Meets job_limit_just_met }
{}

/// The limit J counts over all cycles and both priorities, and a cycle begins without a pick.
pub fn pin_job_limit_over_cycles()
    ensures { Meets job_limit_over_cycles }
{}

/// What the procedures of upon, bind, all and choose enqueue has the priority of their statement.
pub fn pin_jobs_of_handlers_keep_their_priority()
    ensures { Meets jobs_of_handlers_keep_their_priority }
{}

/// In a cycle at most L jobs of each priority run, and a low one where the normal ones had their turn.
pub fn pin_limit_per_cycle()
    ensures { Meets limit_per_cycle }
{}

/// Low jobs that wait begin the next cycle.
pub fn pin_low_jobs_alone_begin_a_cycle()
    ensures { Meets low_jobs_alone_begin_a_cycle }
{}

/// A result outside 64 bits raises -1, the greatest and the least number do not.
pub fn pin_numbers_end_at_64_bits()
    ensures { Meets numbers_end_at_64_bits }
{}

/// Each operator on numbers where it differs from the others; if acts where its number is not 0, unless where it
/// is 0.
pub fn pin_operators_and_prefixes()
    ensures { Meets operators_and_prefixes }
{}

/// Each pipe, throttle and event is the one named.
pub fn pin_things_by_their_names()
    ensures { Meets things_by_their_names }
{}
