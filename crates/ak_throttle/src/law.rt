//! Laws of throttles. Each function has an empty body: its contract is the law.

ghost use Rattle.std.specs.Prelude.{ℕ, ◌≡◌, ◌≤◌, ◌↔◌, List, Bool, length};
ghost use Rattle.ak_throttle.specs.Throttle.{Throttle, fresh_throttle, running_count, without_dropped, without_satisfied};
ghost use Rattle.ak_throttle.specs.Calls.{DroppedGiven, DoneGiven, done_ivars};
ghost use Rattle.ak_throttle.specs.Runs.{Call, AreAllowed, after, all_starts, numbers_from};

/// Whatever is called, at most so many bodies run. The bodies may be of any type `B`.
#[tactic(auto, using(crate::proofs::Order::few_run))]
pub fn at_most_so_many_bodies_run<B>()
    ensures { (most : ℕ) (stop : Bool) (calls : List (Call B))
        → AreAllowed calls (fresh_throttle most stop)
        → running_count (after calls (fresh_throttle most stop)) ≤ most }
{}

/// Whatever is called, the bodies start in the order of their numbers, from 0 on, and none is left out. The bodies may be
/// of any type `B`.
#[tactic(auto, using(crate::proofs::Order::in_order))]
pub fn bodies_start_in_order<B>()
    ensures { (most : ℕ) (stop : Bool) (calls : List (Call B))
        → AreAllowed calls (fresh_throttle most stop)
        → all_starts calls (fresh_throttle most stop) ≡ numbers_from 0 (length (all_starts calls (fresh_throttle most stop))) }
{}

/// Calls of `next_dropped`, made until one finds none, give exactly the bodies that were dropped, front first, and leave
/// none: what is raised at once where a failure stops a throttle. The bodies may be of any type `B`.
#[tactic(auto, using(crate::proofs::Calls::dropped_exactly))]
pub fn dropped_one_at_a_time_are_all_that_were_dropped<B>()
    ensures { (bodies : List B) (t after : Throttle B)
        → DroppedGiven bodies t after ↔ ((bodies ≡ t.dropped) × (after ≡ without_dropped t)) }
{}

/// Calls of `next_done`, made until one finds none, give exactly the deferreds before which every body is over, the oldest
/// first, and leave the others: what is filled at once where a body is over. The bodies may be of any type `B`.
#[tactic(auto, using(crate::proofs::Calls::done_exactly))]
pub fn done_one_at_a_time_are_all_that_are_done<B>()
    ensures { (ivars : List ℕ) (t after : Throttle B)
        → DoneGiven ivars t after ↔ ((ivars ≡ done_ivars t) × (after ≡ without_satisfied t)) }
{}
