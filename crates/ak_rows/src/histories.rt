//! Values of works, and histories of a pool, worked by hand: each contract is what has to come out.

ghost use Rattle.std.specs.Prelude.{◌≡◌, pos, negsuc};
ghost use Rattle.ak_labor.specs.Value.{value_of};
ghost use Rattle.ak_labor.specs.declared.work.WorkKind.TheVariants.{Square, Mix, Fail};
ghost use Rattle.ak_labor.specs.declared.work.Outcome.TheVariants.{Good, Bad};
ghost use Rattle.ak_history.specs.Legal.{Legal};
ghost use Rattle.ak_history.specs.Scheduler.{asks, replies};
ghost use Rattle.ak_rows.specs.Row.{work};
ghost use Rattle.ak_rows.specs.Histories.{helper_history, helper_asks, helper_replies};

/// What works give.
pub fn values_of_works()
    ensures square { value_of (work Square (negsuc 2)) ≡ Good (pos 9) }
    ensures large_square { value_of (work Square (pos 3037000500)) ≡ Bad (negsuc 7) }
    ensures no_step { value_of (work Mix (pos 0)) ≡ Good (pos 0) }
    ensures one_step { value_of (work Mix (pos 1)) ≡ Good (pos 1817669548) }
    ensures negative { value_of (work Mix (negsuc 0)) ≡ Bad (negsuc 7) }
    ensures beyond { value_of (work Mix (pos 1000001)) ≡ Bad (negsuc 7) }
    ensures failure { value_of (work Fail (pos 5)) ≡ Bad (pos 5) }
{}

/// A history with a helper is legal on one thread.
pub fn helper_history_is_legal()
    ensures { Legal 1 0 helper_history }
{}

/// The scheduler's calls in it, and their replies.
pub fn helper_history_calls()
    ensures asks { asks helper_history ≡ helper_asks }
    ensures replies { replies 0 helper_history ≡ helper_replies }
{}
