//! The jobs that wait, and the pick of the next one.

ghost use Rattle.std.specs.Prelude.{◌≡◌, ◌+◌, ◌-◌, ◌<◌, ◌≤◌, ◌^◌, not, OnOk};
ghost use Rattle.ak_rings.specs.Queues.{no_jobs, with_job, pick_of, has_pick, picked_from, recounted, has_no_job};

use crate::job::Job;
use ak_base::list::NoMemory;
use ak_base::number::{Ctx, JobNo};
use std::alloc::{AllocError, Global};
use std::collections::VecDeque;
use std::marker::Model;

/// The jobs that wait, in a queue for each priority, with how many of each ran in this cycle and how many may. Contracts
/// see the queues, and for how many more jobs each has room (own; Async has two such queues).
#[derive(Debug, Drop)]
pub struct Rings<F> {
    normal: VecDeque<Job<F>>,
    low: VecDeque<Job<F>>,
    normal_ran: u32,
    low_ran: u32,
    limit: u32,
    next: u64,
}

impl<F> Model for Rings<F> {
    ghost use Rattle.std.specs.Prelude.{◌-◌, ◌≤◌, min};
    ghost use Rattle.std.specs.VecDeque.{deque_len, deque_capacity};
    ghost use Rattle.ak_rings.specs.Queues.{QueueRooms};

    ghost Value = { QueueRooms F };

    ghost view = { λ r. record {
      queues = record {
        normal = r.normal.items;
        low = r.low.items;
        normal_ran = r.normal_ran;
        low_ran = r.low_ran;
        limit = r.limit;
        next = r.next;
      };
      spare = min (deque_capacity r.normal - deque_len r.normal) (deque_capacity r.low - deque_len r.low);
    } };

    ghost invariant = { λ r. (r.normal_ran ≤ r.limit) × (r.low_ran ≤ r.limit) × (1 ≤ r.limit) };
}

impl<F> Rings<F> {
    /// Queues in which nothing waits. In a cycle at most `limit` jobs of each priority run, which is at least 1. It
    /// takes no memory.
    pub fn make(alloc: Global, limit: u32) -> Rings<F>
        requires { 1 ≤ limit }
        ensures { result.queues ≡ no_jobs limit }
    {
        Rings {
            normal: VecDeque::new(alloc),
            low: VecDeque::new(alloc),
            normal_ran: 0,
            low_ran: 0,
            limit,
            next: 0,
        }
    }

    /// Makes room for `n` more jobs in each queue, and sees that there are numbers for them: fewer than
    /// 18,446,744,073,709,551,616 are drawn.
    ///
    /// # Errors
    ///
    /// `NoMemory`. The queues are then as before, and have no less room.
    pub fn reserve(&mut self, n: u32) -> Result<(), NoMemory>
        ensures room { OnOk result (n ≤ self.new.spare) }
        ensures numbers { OnOk result (self.old.queues.next + n < 2 ^ 64) }
        ensures queues { self.new.queues ≡ self.old.queues }
        ensures spare { self.old.spare ≤ self.new.spare }
    {
        if self.next > u64::MAX - n as u64 {
            return Err(AllocError);
        }
        self.normal.reserve(n as usize)?;
        self.low.reserve(n as usize)?;
        Ok(())
    }

    /// Puts a job last in the queue of its context's priority, and gives its number: how many were put before, which
    /// are fewer than 18,446,744,073,709,551,615. Each queue has room for one more. It takes no memory.
    pub fn push(&mut self, ctx: Ctx, frame: F) -> JobNo
        requires room { 0 < self.old.spare }
        requires numbers { self.old.queues.next < 2 ^ 64 - 1 }
        ensures number { result ≡ self.old.queues.next }
        ensures queues { self.new.queues ≡ with_job ctx frame self.old.queues }
        ensures spare { self.old.spare ≤ self.new.spare + 1 }
    {
        let no = JobNo::new(self.next);
        self.next += 1;
        let is_low = ctx.low;
        let job = Job { no, ctx, frame };
        if is_low {
            self.low.push_back_reserved(job);
        } else {
            self.normal.push_back_reserved(job);
        }
        no
    }

    /// Whether there is a job to pick.
    pub fn can_pick(&self) -> bool
        ensures { result ≡ has_pick self.now.queues }
    {
        (!self.normal.is_empty() && self.normal_ran < self.limit)
            || (!self.low.is_empty() && self.low_ran < self.limit)
    }

    /// Takes the next job: the front normal one where fewer normal jobs than the limit ran in this cycle, or else the
    /// front low one under the same rule. `None` exactly where neither is there, and nothing changes then.
    pub fn pick(&mut self) -> Option<Job<F>>
        ensures job { result ≡ pick_of self.old.queues }
        ensures queues { self.new.queues ≡ picked_from self.old.queues }
        ensures spare { self.old.spare ≤ self.new.spare }
    {
        if !self.normal.is_empty() && self.normal_ran < self.limit {
            self.normal_ran += 1;
            self.normal.pop_front()
        } else if !self.low.is_empty() && self.low_ran < self.limit {
            self.low_ran += 1;
            self.low.pop_front()
        } else {
            None
        }
    }

    /// Begins a cycle: none of its jobs ran. There is a job to pick then exactly where one waits.
    pub fn reset(&mut self)
        ensures queues { self.new.queues ≡ recounted self.old.queues }
        ensures picks { has_pick self.new.queues ≡ not (has_no_job self.old.queues) }
        ensures spare { self.new.spare ≡ self.old.spare }
    {
        self.normal_ran = 0;
        self.low_ran = 0;
    }

    /// Whether no job waits, of either priority.
    pub fn is_empty(&self) -> bool
        ensures { result ≡ has_no_job self.now.queues }
    {
        self.normal.is_empty() && self.low.is_empty()
    }
}
