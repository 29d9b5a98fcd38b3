//! Pins of requests from outside.

ghost use Rattle.std.specs.Prelude.{[], ◌∷◌};
ghost use Rattle.ak_rows.specs.Row.{IsHistoryOf, Meets, MeetsWithWaits};
ghost use Rattle.ak_rows.specs.PinsOfRequests.{answers_in_another_order, answers_in_another_order_history, askers_and_works, askers_and_works_history, askers_stuck_unanswered, askers_stuck_unanswered_history, error_in_ask, error_in_ask_history, unanswered_requests_do_not_hold, unanswered_requests_do_not_hold_history, works_before_requests, works_before_requests_history, asker_ends_first, asker_ends_first_history, works_before_requests_again, works_before_requests_again_history};

/// A request may be answered before an earlier one.
pub fn pin_answers_in_another_order()
    ensures run { Meets answers_in_another_order }
    ensures history { IsHistoryOf answers_in_another_order answers_in_another_order_history }
{}

/// A work outstanding while askers wait.
pub fn pin_askers_and_works()
    ensures run { Meets askers_and_works }
    ensures history { IsHistoryOf askers_and_works askers_and_works_history }
{}

/// Stuck with an unanswered request.
pub fn pin_askers_stuck_unanswered()
    ensures run { MeetsWithWaits askers_stuck_unanswered (4 ∷ []) }
    ensures history { IsHistoryOf askers_stuck_unanswered askers_stuck_unanswered_history }
{}

/// An error in ask is unhandled.
pub fn pin_error_in_ask()
    ensures run { Meets error_in_ask }
    ensures history { IsHistoryOf error_in_ask error_in_ask_history }
{}

/// A run ends idle where all askers that are left wait for answers.
pub fn pin_unanswered_requests_do_not_hold()
    ensures run { MeetsWithWaits unanswered_requests_do_not_hold (6 ∷ []) }
    ensures history { IsHistoryOf unanswered_requests_do_not_hold
        unanswered_requests_do_not_hold_history }
{}

/// In one drain the works arrive before the requests.
pub fn pin_works_before_requests()
    ensures run { MeetsWithWaits works_before_requests (3 ∷ []) }
    ensures history { IsHistoryOf works_before_requests works_before_requests_history }
{}

/// An asker may end before the first drain.
pub fn pin_asker_ends_first()
    ensures run { Meets asker_ends_first }
    ensures history { IsHistoryOf asker_ends_first asker_ends_first_history }
{}

/// In one drain the works arrive before the requests.
pub fn pin_works_before_requests_again()
    ensures run { MeetsWithWaits works_before_requests_again (6 ∷ []) }
    ensures history { IsHistoryOf works_before_requests_again works_before_requests_again_history }
{}
