//! Which of the bodies that started are over.

ghost use Rattle.std.specs.Prelude.{◌≡◌, ◌+◌, ◌-◌, ◌<◌, ◌≤◌, ◌^◌, [], ◌∷◌, ◌++◌, Some, true, false, not, count_by, replicate, length, slice_get, slice_set, OnOk, OnErr};
ghost use Rattle.std.specs.List.{prefix_len};
ghost use Rattle.std.specs.VecDeque.{deque_len, deque_capacity};
ghost use Rattle.ak_throttle.specs.Started.{is_first_running, is_marked_over};

use ak_base::list::NoMemory;
use ak_base::number::BodyNo;
use std::alloc::Global;
use std::collections::VecDeque;
use std::marker::Model;

/// The bodies that started, in order of their numbers: which of them are over. Those in front that are over are only
/// counted.
#[derive(Debug, Drop)]
pub struct Progress {
    over_first: u32,
    others: VecDeque<bool>,
    running: u32,
}

impl Model for Progress {
    ghost use Rattle.std.specs.Prelude.{◌≡◌, ◌+◌, ◌-◌, ◌<◌, ◌^◌, ◌++◌, true, not, count_by, replicate};
    ghost use Rattle.std.specs.VecDeque.{deque_len, deque_capacity};
    ghost use Rattle.ak_throttle.specs.Started.{Started, is_first_running};

    ghost Value = { Started };

    ghost view = { λ p. record {
      overs = replicate p.over_first true ++ p.others.items;
      spare = deque_capacity p.others - deque_len p.others;
    } };

    ghost invariant = { λ p. (p.running ≡ count_by not p.others.items) × (is_first_running p.others.items ≡ true) × (p.over_first + deque_len p.others < 2 ^ 32) };
}

impl Progress {
    /// No body started. It takes no memory.
    pub fn new(alloc: Global) -> Progress
        ensures { result.overs ≡ [] }
    {
        Progress {
            over_first: 0,
            others: VecDeque::new(alloc),
            running: 0,
        }
    }

    /// Makes room for `n` more bodies.
    pub fn reserve(&mut self, n: usize) -> Result<(), NoMemory>
        ensures room { OnOk result (n ≤ self.new.spare) }
        ensures overs { self.new.overs ≡ self.old.overs }
        ensures spare { self.old.spare ≤ self.new.spare }
    {
        self.others.reserve(n)
    }

    /// How many bodies started.
    pub fn count(&self) -> u32
        ensures { result ≡ length self.now.overs }
    {
        self.over_first + self.others.len() as u32
    }

    /// How many of them run.
    pub fn running(&self) -> u32
        ensures { result ≡ count_by not self.now.overs }
    {
        self.running
    }

    #[tactic(auto, using(crate::proofs::Overs::over_first))]
    /// How many are over before the first that runs.
    pub fn over_first(&self) -> u32
        ensures { result ≡ prefix_len is_marked_over self.now.overs }
    {
        self.over_first
    }

    /// One more body runs, for which there is room.
    pub fn start(&mut self)
        requires room { 0 < self.old.spare }
        requires numbers { length self.old.overs < 2 ^ 32 - 1 }
        ensures overs { self.new.overs ≡ self.old.overs ++ false ∷ [] }
        ensures spare { self.old.spare ≤ self.new.spare + 1 }
    {
        self.others.push_back_reserved(false);
        self.running += 1;
    }

    /// A body that runs is over.
    pub fn end(&mut self, no: BodyNo)
        requires { slice_get self.old.overs no ≡ Some false }
        ensures overs { self.new.overs ≡ slice_set self.old.overs no true }
        ensures running { count_by not self.new.overs + 1 ≡ count_by not self.old.overs }
        ensures spare { self.old.spare ≤ self.new.spare }
    {
        mark_over(&mut self.others, (no.number() - self.over_first) as usize);
        self.running -= 1;
        self.over_first = count_front(&mut self.others, self.over_first);
    }
}

// One that runs is over.
#[tactic(auto, using(crate::proofs::Overs::one_fewer))]
fn mark_over(others: &mut VecDeque<bool>, at: usize)
    requires { slice_get others.old.items at ≡ Some false }
    ensures items { others.new.items ≡ slice_set others.old.items at true }
    ensures running { count_by not others.new.items + 1 ≡ count_by not others.old.items }
    ensures len { deque_len others.new ≡ deque_len others.old }
    ensures room { deque_capacity others.new ≡ deque_capacity others.old }
{
    others[at] = true;
}

// Counts those in front that are over, and keeps only the others.
fn count_front(others: &mut VecDeque<bool>, over_first: u32) -> u32
    requires { over_first + deque_len others.old < 2 ^ 32 }
    ensures overs { replicate result true ++ others.new.items ≡ replicate over_first true
        ++ others.old.items }
    ensures first { is_first_running others.new.items ≡ true }
    ensures running { count_by not others.new.items ≡ count_by not others.old.items }
    ensures len { result + deque_len others.new ≡ over_first + deque_len others.old }
    ensures more { over_first ≤ result }
    ensures room { deque_capacity others.new ≡ deque_capacity others.old }
{
    let mut count = over_first;
    while is_front_over(others) {
        others.pop_front();
        count += 1;
    }
    count
}

// Whether the first body is over.
fn is_front_over(others: &VecDeque<bool>) -> bool
    ensures { result ≡ not (is_first_running others.now.items) }
{
    match others.front() {
        Some(over) => *over,
        None => false,
    }
}
