//! Pins of legal histories.

ghost use Rattle.ak_history.specs.Legal.{Legal, IsLegalAfter};
ghost use Rattle.ak_rows.specs.PinsOfHistories.{drain_nothing_before, drain_nothing_event, end_of_a_helper_twice_before, end_of_a_helper_twice_event, end_of_no_helper_before, end_of_no_helper_event, finish_after_close_before, finish_after_close_event, finish_of_a_work_not_started_before, finish_of_a_work_not_started_event, finish_twice_before, finish_twice_event, helper_granted_though_one_runs_before, helper_granted_though_one_runs_event, helper_numbers_in_history_before, helper_numbers_in_history_event, helper_refused_after_the_works_before, helper_refused_after_the_works_event, helpers_running_work_takes_no_second_before, helpers_running_work_takes_no_second_event, helpers_thread_runs_one_before, helpers_thread_runs_one_event, helpers_work_once_before, helpers_work_once_event, helpers_work_where_it_got_its_thread_before, helpers_work_where_it_got_its_thread_event, helpers_works_one_after_another_before, helpers_works_one_after_another_event, more_works_than_threads_before, more_works_than_threads_event, over_helper_frees_its_thread_before, over_helper_frees_its_thread_event, reserved_after_its_works_before, reserved_after_its_works_event, start_beyond_the_threads_before, start_beyond_the_threads_event, start_on_a_running_thread_before, start_on_a_running_thread_event, start_out_of_order_before, start_out_of_order_event, submit_after_close_before, submit_after_close_event, submit_numbers_before, submit_numbers_event, submit_to_a_refused_helper_before, submit_to_a_refused_helper_event, submit_to_an_ended_helper_before, submit_to_an_ended_helper_event, thread_of_its_helper_before, thread_of_its_helper_event, waiting_work_takes_one_thread_before, waiting_work_takes_one_thread_event};

/// A drain is not empty where a work has finished: the history before is legal, and this event is not.
pub fn pin_drain_nothing()
    ensures before { Legal 1 0 drain_nothing_before }
    ensures event { IsLegalAfter 1 0 drain_nothing_before drain_nothing_event → ⊥ }
{}

/// A helper ends once: the history before is legal, and this event is not.
pub fn pin_end_of_a_helper_twice()
    ensures before { Legal 1 0 end_of_a_helper_twice_before }
    ensures event { IsLegalAfter 1 0 end_of_a_helper_twice_before end_of_a_helper_twice_event → ⊥ }
{}

/// An ended helper was granted: the history before is legal, and this event is not.
pub fn pin_end_of_no_helper()
    ensures before { Legal 1 0 end_of_no_helper_before }
    ensures event { IsLegalAfter 1 0 end_of_no_helper_before end_of_no_helper_event → ⊥ }
{}

/// A work may finish after the close, and then nothing else comes: the history before is legal, and this event is
/// not.
pub fn pin_finish_after_close()
    ensures before { Legal 1 0 finish_after_close_before }
    ensures event { IsLegalAfter 1 0 finish_after_close_before finish_after_close_event → ⊥ }
{}

/// A work finishes after its start: the history before is legal, and this event is not.
pub fn pin_finish_of_a_work_not_started()
    ensures before { Legal 1 0 finish_of_a_work_not_started_before }
    ensures event { IsLegalAfter 1 0 finish_of_a_work_not_started_before
        finish_of_a_work_not_started_event → ⊥ }
{}

/// A work finishes once: the history before is legal, and this event is not.
pub fn pin_finish_twice()
    ensures before { Legal 1 0 finish_twice_before }
    ensures event { IsLegalAfter 1 0 finish_twice_before finish_twice_event → ⊥ }
{}

/// A general work that runs takes one, too: the history before is legal, and this event is not.
pub fn pin_helper_granted_though_one_runs()
    ensures before { Legal 2 0 helper_granted_though_one_runs_before }
    ensures event { IsLegalAfter 2 0 helper_granted_though_one_runs_before
        helper_granted_though_one_runs_event → ⊥ }
{}

/// Helpers count from 0, the refused ones too: the history before is legal, and this event is not.
pub fn pin_helper_numbers_in_history()
    ensures before { Legal 1 0 helper_numbers_in_history_before }
    ensures event { IsLegalAfter 1 0 helper_numbers_in_history_before
        helper_numbers_in_history_event → ⊥ }
{}

/// A finished work takes none: the history before is legal, and this event is not.
pub fn pin_helper_refused_after_the_works()
    ensures before { Legal 1 0 helper_refused_after_the_works_before }
    ensures event { IsLegalAfter 1 0 helper_refused_after_the_works_before
        helper_refused_after_the_works_event → ⊥ }
{}

/// A work of a helper takes no thread beside the reserved one: the history before is legal, and this event is
/// not.
pub fn pin_helpers_running_work_takes_no_second()
    ensures before { Legal 2 0 helpers_running_work_takes_no_second_before }
    ensures event { IsLegalAfter 2 0 helpers_running_work_takes_no_second_before
        helpers_running_work_takes_no_second_event → ⊥ }
{}

/// A work of a helper does not start while its thread runs: the history before is legal, and this event is not.
pub fn pin_helpers_thread_runs_one()
    ensures before { Legal 2 0 helpers_thread_runs_one_before }
    ensures event { IsLegalAfter 2 0 helpers_thread_runs_one_before helpers_thread_runs_one_event
        → ⊥ }
{}

/// A work of a helper starts once: the history before is legal, and this event is not.
pub fn pin_helpers_work_once()
    ensures before { Legal 2 0 helpers_work_once_before }
    ensures event { IsLegalAfter 2 0 helpers_work_once_before helpers_work_once_event → ⊥ }
{}

/// A work of a helper starts on the thread that the helper got: the history before is legal, and this event is
/// not.
pub fn pin_helpers_work_where_it_got_its_thread()
    ensures before { Legal 2 0 helpers_work_where_it_got_its_thread_before }
    ensures event { IsLegalAfter 2 0 helpers_work_where_it_got_its_thread_before
        helpers_work_where_it_got_its_thread_event → ⊥ }
{}

/// A work of a helper waits for those before it: the history before is legal, and this event is not.
pub fn pin_helpers_works_one_after_another()
    ensures before { Legal 2 0 helpers_works_one_after_another_before }
    ensures event { IsLegalAfter 2 0 helpers_works_one_after_another_before
        helpers_works_one_after_another_event → ⊥ }
{}

/// Free never falls below 0: the history before is legal, and this event is not.
pub fn pin_more_works_than_threads()
    ensures before { Legal 2 0 more_works_than_threads_before }
    ensures event { IsLegalAfter 2 0 more_works_than_threads_before more_works_than_threads_event
        → ⊥ }
{}

/// A helper that is over frees its thread for general works: the history before is legal, and this event is not.
pub fn pin_over_helper_frees_its_thread()
    ensures before { Legal 1 0 over_helper_frees_its_thread_before }
    ensures event { IsLegalAfter 1 0 over_helper_frees_its_thread_before
        over_helper_frees_its_thread_event → ⊥ }
{}

/// A helper that is not ended reserves its thread also when its works are finished: the history before is legal,
/// and this event is not.
pub fn pin_reserved_after_its_works()
    ensures before { Legal 1 0 reserved_after_its_works_before }
    ensures event { IsLegalAfter 1 0 reserved_after_its_works_before reserved_after_its_works_event
        → ⊥ }
{}

/// A start names a thread: the history before is legal, and this event is not.
pub fn pin_start_beyond_the_threads()
    ensures before { Legal 1 0 start_beyond_the_threads_before }
    ensures event { IsLegalAfter 1 0 start_beyond_the_threads_before start_beyond_the_threads_event
        → ⊥ }
{}

/// A thread runs one work: the history before is legal, and this event is not.
pub fn pin_start_on_a_running_thread()
    ensures before { Legal 2 0 start_on_a_running_thread_before }
    ensures event { IsLegalAfter 2 0 start_on_a_running_thread_before
        start_on_a_running_thread_event → ⊥ }
{}

/// General works start in order: the history before is legal, and this event is not.
pub fn pin_start_out_of_order()
    ensures before { Legal 2 0 start_out_of_order_before }
    ensures event { IsLegalAfter 2 0 start_out_of_order_before start_out_of_order_event → ⊥ }
{}

/// No submit after the close: the history before is legal, and this event is not.
pub fn pin_submit_after_close()
    ensures before { Legal 1 0 submit_after_close_before }
    ensures event { IsLegalAfter 1 0 submit_after_close_before submit_after_close_event → ⊥ }
{}

/// Submits count from 0: the history before is legal, and this event is not.
pub fn pin_submit_numbers()
    ensures before { Legal 1 0 submit_numbers_before }
    ensures event { IsLegalAfter 1 0 submit_numbers_before submit_numbers_event → ⊥ }
{}

/// A named helper is granted: the history before is legal, and this event is not.
pub fn pin_submit_to_a_refused_helper()
    ensures before { Legal 1 0 submit_to_a_refused_helper_before }
    ensures event { IsLegalAfter 1 0 submit_to_a_refused_helper_before
        submit_to_a_refused_helper_event → ⊥ }
{}

/// A named helper is not ended: the history before is legal, and this event is not.
pub fn pin_submit_to_an_ended_helper()
    ensures before { Legal 1 0 submit_to_an_ended_helper_before }
    ensures event { IsLegalAfter 1 0 submit_to_an_ended_helper_before
        submit_to_an_ended_helper_event → ⊥ }
{}

/// A helper reserves the thread that it got, whatever its number: the history before is legal, and this event is
/// not.
pub fn pin_thread_of_its_helper()
    ensures before { Legal 2 0 thread_of_its_helper_before }
    ensures event { IsLegalAfter 2 0 thread_of_its_helper_before thread_of_its_helper_event → ⊥ }
{}

/// A general work that waits takes one thread from the free ones, not two: the history before is legal, and this
/// event is not.
pub fn pin_waiting_work_takes_one_thread()
    ensures before { Legal 2 0 waiting_work_takes_one_thread_before }
    ensures event { IsLegalAfter 2 0 waiting_work_takes_one_thread_before
        waiting_work_takes_one_thread_event → ⊥ }
{}
