//! One thread of a pool.

ghost use Rattle.std.specs.Prelude.{◌≡◌, Some, OnOk, OnErr};
ghost use Rattle.ak_base.specs.Lists.{first_of};
ghost use Rattle.ak_pool.specs.Threads.{idle_thread, is_idle, runs_general, is_taken, serves, vacated, is_left, with_own, with_running, run_own_by, without_running, with_end, reserved_for};

use crate::task::Task;
use ak_base::list::NoMemory;
use ak_base::number::HelperNo;
use std::alloc::Global;
use std::collections::VecDeque;
use std::marker::Model;

/// What a thread runs, the helper for which it is reserved, whether that helper is ended, and the helper's works that
/// wait, oldest first.
#[derive(Debug, Drop)]
pub struct Thread {
    running: Option<Task>,
    helper: Option<HelperNo>,
    ended: bool,
    queue: VecDeque<Task>,
}

impl Model for Thread {
    ghost use Rattle.ak_pool.specs.Threads.{ThreadState};

    ghost Value = { ThreadState };

    ghost view = { λ t. record {
      running = t.running;
      helper = t.helper;
      ended = t.ended;
      queue = t.queue.items;
    } };
}

impl Thread {
    /// A thread that runs nothing and is not reserved. It takes no memory.
    pub fn idle(alloc: Global) -> Thread
        ensures { result ≡ idle_thread }
    {
        Thread {
            running: None,
            helper: None,
            ended: false,
            queue: VecDeque::new(alloc),
        }
    }

    pub fn running(&self) -> Option<Task>
        ensures { result ≡ self.now.running }
    {
        self.running
    }

    pub fn helper(&self) -> Option<HelperNo>
        ensures { result ≡ self.now.helper }
    {
        self.helper
    }

    pub fn is_idle(&self) -> bool
        ensures { result ≡ is_idle self.now }
    {
        self.running.is_none() && self.helper.is_none()
    }

    pub fn runs_general(&self) -> bool
        ensures { result ≡ runs_general self.now }
    {
        self.running.is_some() && self.helper.is_none()
    }

    pub fn is_taken(&self) -> bool
        ensures { result ≡ is_taken self.now }
    {
        self.helper.is_some()
    }

    /// Whether the thread is the helper's, which is not ended.
    pub fn serves(&self, helper: HelperNo) -> bool
        ensures { result ≡ serves helper self.now }
    {
        match self.helper {
            Some(other) => other.number() == helper.number() && !self.ended,
            None => false,
        }
    }

    /// The helper's next work.
    pub fn next(&self) -> Option<Task>
        ensures { result ≡ first_of self.now.queue }
    {
        self.queue.front().copied()
    }

    /// Puts a work last among the helper's.
    pub fn put(&mut self, task: Task) -> Result<(), NoMemory>
        ensures ok { OnOk result (self.new ≡ with_own task self.old) }
        ensures err { OnErr result (self.new ≡ self.old) }
    {
        self.queue.push_back(task)?;
        Ok(())
    }

    pub fn run(&mut self, task: Task)
        ensures { self.new ≡ with_running task self.old }
    {
        self.running = Some(task);
    }

    /// Begins the helper's next work. `None` exactly where none waits, and nothing changes then.
    pub fn run_own(&mut self) -> Option<Task>
        ensures task { result ≡ first_of self.old.queue }
        ensures thread { self.new ≡ run_own_by (first_of self.old.queue) self.old }
    {
        match self.queue.pop_front() {
            None => None,
            Some(task) => {
                self.running = Some(task.copied());
                Some(task)
            }
        }
    }

    pub fn finish(&mut self)
        ensures { self.new ≡ without_running self.old }
    {
        self.running = None;
        self.vacate();
    }

    /// Ends the helper, which goes on while it has works.
    pub fn end_helper(&mut self)
        ensures { self.new ≡ with_end self.old }
    {
        self.ended = true;
        self.vacate();
    }

    pub fn reserve(&mut self, helper: HelperNo)
        ensures { self.new ≡ reserved_for helper self.old }
    {
        self.helper = Some(helper);
    }

    // Gives the thread back where its helper is over.
    fn vacate(&mut self)
        ensures { self.new ≡ vacated self.old }
    {
        if self.ended && self.running.is_none() && self.queue.is_empty() {
            self.helper = None;
            self.ended = false;
        }
    }
}
