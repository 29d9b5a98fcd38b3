//! Pins of runs beside their histories.

ghost use Rattle.ak_rows.specs.Row.{IsHistoryOf, Meets};
ghost use Rattle.ak_rows.specs.PinsOfReplays.{helper_ended_with_works_left, helper_ended_with_works_left_history, one_helper_refused, one_helper_refused_history, works_draw_one_number, works_draw_one_number_history};

/// Works of an ended helper are done all the same.
pub fn pin_helper_ended_with_works_left()
    ensures run { Meets helper_ended_with_works_left }
    ensures history { IsHistoryOf helper_ended_with_works_left
        helper_ended_with_works_left_history }
{}

/// A helper is granted and one refused; works of the helper and general ones arrive.
pub fn pin_one_helper_refused()
    ensures run { Meets one_helper_refused }
    ensures history { IsHistoryOf one_helper_refused one_helper_refused_history }
{}

/// A work draws one number for its result, and helpers draw none.
pub fn pin_works_draw_one_number()
    ensures run { Meets works_draw_one_number }
    ensures history { IsHistoryOf works_draw_one_number works_draw_one_number_history }
{}
