//! Pins of legal histories with askers.

ghost use Rattle.ak_history.specs.Legal.{Legal, IsLegalAfter};
ghost use Rattle.ak_rows.specs.PinsOfAskers.{answer_before_its_drain_before, answer_before_its_drain_event, answer_twice_before, answer_twice_event, asker_ends_twice_before, asker_ends_twice_event, asker_ends_while_it_waits_before, asker_ends_while_it_waits_event, drain_without_its_request_before, drain_without_its_request_event, no_such_asker_ends_before, no_such_asker_ends_event, request_again_after_the_answer_before, request_again_after_the_answer_event, request_numbers_before, request_numbers_event, request_of_the_asker_that_ended_before, request_of_the_asker_that_ended_event, request_without_askers_before, request_without_askers_event};

/// A request is answered after its drain: the history before is legal, and this event is not.
pub fn pin_answer_before_its_drain()
    ensures before { Legal 1 1 answer_before_its_drain_before }
    ensures event { IsLegalAfter 1 1 answer_before_its_drain_before answer_before_its_drain_event
        → ⊥ }
{}

/// A request is answered once: the history before is legal, and this event is not.
pub fn pin_answer_twice()
    ensures before { Legal 1 1 answer_twice_before }
    ensures event { IsLegalAfter 1 1 answer_twice_before answer_twice_event → ⊥ }
{}

/// An asker ends once: the history before is legal, and this event is not.
pub fn pin_asker_ends_twice()
    ensures before { Legal 1 1 asker_ends_twice_before }
    ensures event { IsLegalAfter 1 1 asker_ends_twice_before asker_ends_twice_event → ⊥ }
{}

/// An asker does not end while its request waits: the history before is legal, and this event is not.
pub fn pin_asker_ends_while_it_waits()
    ensures before { Legal 1 1 asker_ends_while_it_waits_before }
    ensures event { IsLegalAfter 1 1 asker_ends_while_it_waits_before
        asker_ends_while_it_waits_event → ⊥ }
{}

/// A drain has all requests: the history before is legal, and this event is not.
pub fn pin_drain_without_its_request()
    ensures before { Legal 1 1 drain_without_its_request_before }
    ensures event { IsLegalAfter 1 1 drain_without_its_request_before
        drain_without_its_request_event → ⊥ }
{}

/// An asker that ends is one: the history before is legal, and this event is not.
pub fn pin_no_such_asker_ends()
    ensures before { Legal 1 1 no_such_asker_ends_before }
    ensures event { IsLegalAfter 1 1 no_such_asker_ends_before no_such_asker_ends_event → ⊥ }
{}

/// An answer ends the waiting of its asker alone: the history before is legal, and this event is not.
pub fn pin_request_again_after_the_answer()
    ensures before { Legal 1 2 request_again_after_the_answer_before }
    ensures event { IsLegalAfter 1 2 request_again_after_the_answer_before
        request_again_after_the_answer_event → ⊥ }
{}

/// Requests count from 0: the history before is legal, and this event is not.
pub fn pin_request_numbers()
    ensures before { Legal 1 1 request_numbers_before }
    ensures event { IsLegalAfter 1 1 request_numbers_before request_numbers_event → ⊥ }
{}

/// An asker that has ended makes no request, another one may: the history before is legal, and this event is not.
pub fn pin_request_of_the_asker_that_ended()
    ensures before { Legal 1 3 request_of_the_asker_that_ended_before }
    ensures event { IsLegalAfter 1 3 request_of_the_asker_that_ended_before
        request_of_the_asker_that_ended_event → ⊥ }
{}

/// No request without askers: the history before is legal, and this event is not.
pub fn pin_request_without_askers()
    ensures before { Legal 1 0 request_without_askers_before }
    ensures event { IsLegalAfter 1 0 request_without_askers_before request_without_askers_event
        → ⊥ }
{}
