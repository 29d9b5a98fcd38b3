//! How far runs and histories go together.

ghost use Rattle.std.specs.Prelude.{[], ◌∷◌, ◌++◌, pos};
ghost use Rattle.ak_labor.specs.declared.ask.Ask.TheVariants as ask;
ghost use Rattle.ak_history.specs.declared.event.Event.TheVariants as event;
ghost use Rattle.ak_meets.specs.Meets.{Meets, MeetsTo, Stray, Short};
ghost use Rattle.ak_rows.specs.Row.{usual, proc, without_ask};
ghost use Rattle.ak_rows.specs.Requests.{one_asker, next_number_program, before_the_answer, request_answered, request_answered_history, request_never_answered, request_never_answered_history};

/// The worked histories with requests go with their runs to the end, after 8 calls and after 5.
pub fn row_histories_with_requests_meet()
    ensures answered { MeetsTo request_answered.program one_asker request_answered_history 8 }
    ensures never_answered { MeetsTo request_never_answered.program one_asker
        request_never_answered_history 5 }
{}

/// An answer with another number strays, and a history that ends before the answer is short.
pub fn row_histories_with_requests_do_not_meet()
    ensures stray { Meets next_number_program one_asker
        (before_the_answer ++ event.Answered 0 (pos 7) ∷ [])
        (Stray 5 (ask.Answer 0 (pos 6)) (event.Answered 0 (pos 7))) }
    ensures short { Meets next_number_program one_asker before_the_answer
        (Short (ask.Answer 0 (pos 6))) }
{}

/// The machine closes where the history drains.
pub fn pin_stray_close()
    ensures { Meets (without_ask (proc [] ∷ []) 0) usual
        (event.Drain [] [] ∷ event.Drain [] [] ∷ event.Drain [] [] ∷ event.Close ∷ [])
        (Stray 2 ask.Close (event.Drain [] [])) }
{}
