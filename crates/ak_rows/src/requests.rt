//! Requests from outside.

ghost use Rattle.std.specs.Prelude.{◌≡◌, [], ◌∷◌, pos, true};
ghost use Rattle.ak_labor.specs.Calls.{Granted};
ghost use Rattle.ak_machine.specs.Run.{run_of, Wants, IsWrong};
ghost use Rattle.ak_rows.specs.Row.{IsHistoryOf, MeetsWithWaits, empty_left, usual};
ghost use Rattle.ak_rows.specs.Requests.{one_asker, next_number_program, brings_five, request_answered, request_answered_history, request_never_answered, request_never_answered_history};

use ak_labor::ask::Ask;

/// A request is answered, and the run ends idle once its asker has ended.
pub fn row_request_answered()
    ensures run { MeetsWithWaits request_answered (2 ∷ 6 ∷ []) }
    ensures history { IsHistoryOf request_answered request_answered_history }
{}

/// A run ends idle while its one asker waits for an answer.
pub fn row_request_never_answered()
    ensures run { MeetsWithWaits request_never_answered (2 ∷ []) }
    ensures history { IsHistoryOf request_never_answered request_never_answered_history }
{}

/// In the job that tells an answer the machine wants the reply to that.
pub fn row_wants_an_answer()
    ensures { (run_of next_number_program one_asker
        (empty_left 1 2 (brings_five 0 ∷ empty_left 1 1 []))).outcome
        ≡ Wants (Ask.Answer 0 (pos 6)) }
{}

/// While an asker may ask, the run waits, though nothing is left to do.
pub fn row_waits_for_an_asker()
    ensures outcome { (run_of next_number_program one_asker (empty_left 1 5 [])).outcome
        ≡ Wants Ask.Drain }
    ensures waits { (run_of next_number_program one_asker (empty_left 1 5 [])).waits ≡ 2 ∷ 3 ∷ 4 ∷ 5
        ∷ [] }
{}

/// A request of another number than the count of requests so far makes the run wrong; so does one where there are no
/// askers, and a reply to an answer that is of another shape.
pub fn row_request_does_not_fit()
    ensures number { (run_of next_number_program one_asker (brings_five 1 ∷ [])).outcome ≡ IsWrong }
    ensures again { (run_of next_number_program one_asker
        (brings_five 0 ∷ brings_five 0 ∷ [])).outcome ≡ IsWrong }
    ensures no_askers { (run_of next_number_program usual (brings_five 0 ∷ [])).outcome ≡ IsWrong }
    ensures answer { (run_of next_number_program one_asker
        (empty_left 1 2 (brings_five 0 ∷ empty_left 1 1 (Granted true ∷ [])))).outcome ≡ IsWrong }
{}
