//! Laws of the queues. Each function has an empty body: its contract is the law.

ghost use Rattle.std.specs.Prelude.{ℕ, ◌≡◌, ◌<◌, ◌++◌, List, Bool, not};
ghost use Rattle.ak_rings.specs.Queues.{Queues, no_jobs, has_pick, recounted, has_no_job};
ghost use Rattle.ak_rings.specs.Runs.{Call, after, waiting, pushes, picks};

/// No job is lost, doubled or overtaken by one of the same priority, whatever is called: those that were picked, with those
/// that still wait behind them, are those that were pushed. The frames may be of any type `F`.
#[tactic(auto, using(crate::proofs::Order::pushes_in_order))]
pub fn picks_are_pushes_in_order<F>()
    ensures { (low : Bool) (limit : ℕ) (calls : List (Call F))
        → picks low calls (no_jobs limit) ++ waiting low (after calls (no_jobs limit)) ≡ pushes low calls (no_jobs limit) }
{}

/// When a cycle begins there is a job to pick exactly where one waits. The frames may be of any type `F`.
#[tactic(auto, using(crate::proofs::Order::cycle_begins))]
pub fn cycle_begins_with_a_pick<F>()
    ensures { (q : Queues F) → 0 < q.limit → has_pick (recounted q) ≡ not (has_no_job q) }
{}
