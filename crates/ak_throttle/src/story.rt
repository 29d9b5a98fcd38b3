//! A small story that is worked by hand. The bodies are empty: each contract is what the calls must do.

ghost use Rattle.std.specs.Prelude.{ℕ, ◌≡◌, [], ◌∷◌, Some, None, true, false};
ghost use Rattle.ak_throttle.specs.declared.answer.Enqueued.TheVariants.{Start, Waits};
ghost use Rattle.ak_throttle.specs.declared.answer.EnqueueRefused.TheVariants.{Dead};
ghost use Rattle.ak_throttle.specs.Throttle.{fresh_throttle, enqueued, placed, refusal, is_done, running_count, started_by_end, started_by_failure, next_satisfied, satisfied_taken, dropped_taken, ivar_of};
ghost use Rattle.ak_throttle.specs.Story.{four_bodies, one_ended, one_failed, all_over};

/// Two bodies start at once, and a third one waits.
pub fn two_bodies_start()
    ensures first { placed {B = ℕ} 10 (fresh_throttle 2 true) ≡ Start 0 10 }
    ensures third { placed {B = ℕ} 12 (enqueued 11 (enqueued 10 (fresh_throttle 2 true)))
        ≡ Waits 2 }
    ensures running { running_count four_bodies ≡ 2 }
{}

/// When one ends, the front waiting one starts.
pub fn front_body_starts()
    ensures started { started_by_end 1 four_bodies ≡ Some (2, 12) }
    ensures running { running_count one_ended ≡ 2 }
    ensures marked { next_satisfied one_ended ≡ None }
{}

/// A failure stops the throttle: the last body is dropped, and none starts or is taken any more.
pub fn failure_drops_the_rest()
    ensures started { started_by_failure 0 one_ended ≡ None }
    ensures dropped { one_failed.dropped ≡ 13 ∷ [] }
    ensures none { (dropped_taken one_failed).dropped ≡ [] }
    ensures refused { refusal 14 one_failed ≡ Dead 14 }
    ensures running { running_count one_failed ≡ 1 }
    ensures done { is_done one_failed ≡ false }
{}

/// When the last one ends, all are over, and the mark is reached once.
pub fn mark_is_reached()
    ensures done { is_done all_over ≡ true }
    ensures front { ivar_of (next_satisfied all_over) ≡ Some 9 }
    ensures once { next_satisfied (satisfied_taken all_over) ≡ None }
{}
