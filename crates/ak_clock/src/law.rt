//! Laws of the clock. Each function has an empty body: its contract is the law.

ghost use Rattle.std.specs.Prelude.{ℕ, ◌≡◌, ◌↔◌, Bool, List, None, filter};
ghost use Rattle.std.specs.List.{count_by};
ghost use Rattle.ak_clock.specs.declared.alarm.Alarm.{Alarm};
ghost use Rattle.ak_clock.specs.Calls.{DueGives, YieldsGiven, due_ivars};
ghost use Rattle.ak_clock.specs.Clock.{Clock, is_due, due_alarms, alarm_of, without_alarm, without_due, without_yields};
ghost use Rattle.ak_base.specs.Numbers.{AreNumbered};
ghost use Rattle.ak_clock.specs.Order.{number_of, AreByTime};

/// The alarms that are due come in order of time, and of number where the times are equal.
#[tactic(auto, using(crate::proofs::Due::due_in_order))]
pub fn due_alarms_come_in_order()
    ensures { (c : Clock) (low high : ℕ) → AreNumbered number_of low high c.alarms
        → AreByTime (due_alarms c) }
{}

/// The alarms that are due are those pending ones whose time has come, each as often: as many of them pass any test.
#[tactic(auto, using(crate::proofs::Same::same_alarms))]
pub fn due_alarms_are_those_whose_time_has_come()
    ensures { (p : Alarm → Bool) (c : Clock) → count_by p (due_alarms c)
        ≡ count_by p (filter (is_due c.time) c.alarms) }
{}

/// Where no alarm of a number is pending, an abort changes nothing.
#[tactic(auto, using(crate::proofs::Numbered::none_pending))]
pub fn abort_of_none_changes_nothing()
    ensures { (e : ℕ) (c : Clock) → alarm_of e c ≡ None → without_alarm e c ≡ c }
{}

/// Calls of `due`, made until one finds none, give the deferreds of exactly the alarms that are due, in order of time and
/// then of number, and leave the others: what a cycle takes at once as it begins.
#[tactic(auto, using(crate::proofs::Calls::due_exactly))]
pub fn due_one_at_a_time_gives_all_that_are_due()
    ensures { (ivars : List ℕ) (c after : Clock) (high : ℕ) → AreNumbered number_of 0 high c.alarms
        → DueGives ivars c after ↔ ((ivars ≡ due_ivars c) × (after ≡ without_due c)) }
{}

/// Calls of `next_yield`, made until one finds none, give exactly the deferreds that wait for the next cycle, the oldest
/// first, and leave none: what a cycle takes at once as it begins.
#[tactic(auto, using(crate::proofs::Calls::yields_exactly))]
pub fn yields_one_at_a_time_are_all_that_wait()
    ensures { (ivars : List ℕ) (c after : Clock)
        → YieldsGiven ivars c after ↔ ((ivars ≡ c.yields) × (after ≡ without_yields c)) }
{}
