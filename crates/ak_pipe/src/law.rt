//! Laws of pipes. Each function has an empty body: its contract is the law.

ghost use Rattle.std.specs.Prelude.{ℕ, ℤ, ◌≡◌, ◌<◌, ◌≤◌, ◌↔◌, List, [], length, take};
ghost use Rattle.ak_pipe.specs.Pipe.{Pipe, fresh_pipe, items_of, freed_pushbacks, without_freed, without_settled, without_owed};
ghost use Rattle.ak_pipe.specs.Calls.{FreeGiven, FlushedGiven, EofGiven, settlements};
ghost use Rattle.ak_pipe.specs.Runs.{Call, after, handed_out};

/// Whatever is called, the numbers that reads get are the first of those that were written, in order. The reads may be
/// of any type `R`.
#[tactic(auto, using(crate::proofs::Order::in_order))]
pub fn numbers_come_out_in_order<R>()
    ensures { (budget : ℕ) (calls : List (Call R))
        → handed_out calls (fresh_pipe budget) ≡ take (after calls (fresh_pipe budget)).consumed (after calls (fresh_pipe budget)).written }
{}

/// All pushbacks are freed where the length is at most the budget, and none where it is more. The reads may be of any
/// type `R`.
#[tactic(auto, using(crate::proofs::Order::freed_within, crate::proofs::Order::kept_above))]
pub fn pushbacks_wait_above_the_budget<R>()
    ensures within { (p : Pipe R) → length (items_of p) ≤ p.budget
        → freed_pushbacks p ≡ p.pushbacks }
    ensures above { (p : Pipe R) → p.budget < length (items_of p) → freed_pushbacks p ≡ [] }
{}

/// Calls of `next_free`, made until one finds none, give exactly the pushbacks of which the pipe is free, the oldest first,
/// and leave none of them: what a read frees at once. The reads may be of any type `R`.
#[tactic(auto, using(crate::proofs::Calls::free_exactly))]
pub fn pushbacks_one_at_a_time_are_all_that_are_freed<R>()
    ensures { (ivars : List ℕ) (p after : Pipe R)
        → FreeGiven ivars p after ↔ ((ivars ≡ freed_pushbacks p) × (after ≡ without_freed p)) }
{}

/// Calls of `next_flushed`, made until one finds none, give exactly the settled flushes with what they learn, the oldest
/// first, and leave the others: what a read or the reader's close settles at once. The reads may be of any type `R`.
#[tactic(auto, using(crate::proofs::Calls::settled_exactly))]
pub fn flushes_one_at_a_time_are_all_that_are_settled<R>()
    ensures { (settled : List (ℕ × ℤ)) (p after : Pipe R)
        → FlushedGiven settled p after ↔ ((settled ≡ settlements p) × (after ≡ without_settled p)) }
{}

/// Calls of `next_eof`, made until one finds none, give exactly the reads that are owed the end, the oldest first, and leave
/// none: what a close tells at once. The reads may be of any type `R`.
#[tactic(auto, using(crate::proofs::Calls::eof_exactly))]
pub fn ends_one_at_a_time_are_all_that_are_owed<R>()
    ensures { (reads : List R) (p after : Pipe R)
        → EofGiven reads p after ↔ ((reads ≡ p.owed) × (after ≡ without_owed p)) }
{}
