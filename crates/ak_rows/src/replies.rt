//! Replies that are not there yet, and replies that do not fit.

ghost use Rattle.std.specs.Prelude.{◌≡◌, [], ◌∷◌, pos, true};
ghost use Rattle.ak_labor.specs.declared.work.Outcome.TheVariants.{Good};
ghost use Rattle.ak_labor.specs.Calls.{Granted, Done};
ghost use Rattle.ak_machine.specs.Run.{run_of, Wants, IsWrong};
ghost use Rattle.ak_machine.specs.Status.{status_of, Unfinished};
ghost use Rattle.ak_rows.specs.Row.{empty, brings, usual, without_ask};
ghost use Rattle.ak_rows.specs.Basics.{print_alone_program, print_alone};
ghost use Rattle.ak_rows.specs.Works.{helpers_and_works_program, work_arrives};

use ak_labor::ask::Ask;

/// Before any reply the machine wants that of the first drain, and its trace has no end.
pub fn row_wants_the_first_drain()
    ensures outcome { (run_of (without_ask print_alone_program 0) usual []).outcome
        ≡ Wants Ask.Drain }
    ensures status { status_of (run_of (without_ask print_alone_program 0) usual []).trace
        ≡ Unfinished }
{}

/// After the end it wants the reply to the close.
pub fn row_wants_the_close()
    ensures { (run_of (without_ask print_alone_program 0) usual (empty 2 [])).outcome
        ≡ Wants Ask.Close }
{}

/// In the middle of a job it wants the answer for the helper that the job asked for.
pub fn row_wants_a_helper()
    ensures { (run_of (without_ask helpers_and_works_program 0) usual (empty 1 [])).outcome
        ≡ Wants (Ask.HelperNew 0) }
{}

/// A reply that does not fit its ask makes the run wrong.
pub fn row_reply_does_not_fit()
    ensures drain { (run_of (without_ask print_alone_program 0) usual (Done ∷ [])).outcome
        ≡ IsWrong }
    ensures close { (run_of (without_ask print_alone_program 0) usual
        (empty 2 (Granted true ∷ []))).outcome ≡ IsWrong }
    ensures helper { (run_of (without_ask helpers_and_works_program 0) usual
        (empty 1 (Done ∷ []))).outcome ≡ IsWrong }
{}

/// So does a drain with a work that is not outstanding: one that was never handed in, and one that has arrived.
pub fn row_work_does_not_fit()
    ensures never { (run_of work_arrives.program work_arrives.config
        (brings ((0, Good (pos 9)) ∷ []) ∷ [])).outcome ≡ IsWrong }
    ensures again { (run_of work_arrives.program work_arrives.config
        (empty 1 (Done ∷ empty 1 (brings ((0, Good (pos 9)) ∷ []) ∷ brings ((0, Good (pos 9)) ∷ [])
        ∷ [])))).outcome ≡ IsWrong }
{}

/// So does a reply after the end.
pub fn row_reply_after_the_end()
    ensures { (run_of (without_ask print_alone_program 0) usual
        (empty 2 (Done ∷ Done ∷ []))).outcome ≡ IsWrong }
{}
