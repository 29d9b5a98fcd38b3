//! What a pool keeps beside its history.

ghost use Rattle.std.specs.Prelude.{◌≡◌, ◌<◌, ◌+◌, ◌-◌, ◌^◌, ◌++◌, Some, None, OnOk, OnErr, IfOk, IfSome, length, map, count_by, true, is_some, if◌then◌else◌};
ghost use Rattle.ak_base.specs.Lists.{first_of};
ghost use Rattle.std.specs.List.{position};
ghost use Rattle.ak_pool.specs.Threads.{serves, is_idle, is_taken, runs_general};
ghost use Rattle.ak_pool.specs.Desks.{no_works, thread_at, with_general, with_helped, submitted, is_served, next_of, begun_by, finished_by, fetched, answer_of, answered, ended_at, due_of, free_of};

use crate::task::Task;
use crate::thread::Thread;
use ak_base::list::{Items, NoMemory};
use ak_base::number::{HelperNo, ThreadNo, WorkNo};
use ak_history::event::Ids;
use ak_labor::work::{Arrivals, Outcome, Work};
use std::alloc::Global;
use std::collections::VecDeque;
use std::marker::Model;

/// The threads, the general works that wait, the finished works that were not fetched, how many works and helpers were
/// asked for, and whether nothing more is asked.
///
/// There is room for a finished work for each event that is still to come of the works that were handed in.
#[derive(Debug, Drop)]
pub struct Desk {
    alloc: Global,
    threads: Vec<Thread>,
    waiting: VecDeque<Task>,
    owed: Vec<(WorkNo, Outcome)>,
    submits: u32,
    helpers: u32,
    closed: bool,
    due: usize,
}

impl Model for Desk {
    ghost use Rattle.ak_pool.specs.Desks.{DeskState};

    ghost Value = { DeskState };

    ghost use Rattle.ak_pool.specs.Kept.{desk_of, IsKept};

    ghost view = { desk_of };

    ghost invariant = { IsKept };
}

impl Desk {
    /// So many threads, to which nothing was handed in.
    pub fn make(alloc: Global, threads: u32) -> Result<Desk, NoMemory>
        ensures { IfOk result (λ d. d ≡ no_works threads) }
    {
        let rows = idle_threads(alloc, threads)?;
        Ok(Desk {
            alloc,
            threads: rows,
            waiting: VecDeque::new(alloc),
            owed: Vec::new(alloc),
            submits: 0,
            helpers: 0,
            closed: false,
            due: 0,
        })
    }

    pub fn threads(&self) -> usize
        ensures threads { result ≡ length self.now.threads }
        ensures small { result < 2 ^ 32 }
    {
        self.threads.len()
    }

    pub fn thread(&self, t: usize) -> &Thread
        requires { t < length self.now.threads }
        ensures { result.now ≡ thread_at self.now t }
    {
        &self.threads[t]
    }

    pub fn submits(&self) -> u32
        ensures { result ≡ self.now.submits }
    {
        self.submits
    }

    pub fn helpers(&self) -> u32
        ensures { result ≡ self.now.helpers }
    {
        self.helpers
    }

    pub fn is_closed(&self) -> bool
        ensures { result ≡ self.now.closed }
    {
        self.closed
    }

    pub fn owed(&self) -> &[(WorkNo, Outcome)]
        ensures { result.now ≡ self.now.owed }
    {
        self.owed.as_slice()
    }

    /// How many events are still to come of the works that were handed in.
    pub fn due(&self) -> usize
        ensures { result ≡ due_of self.now }
    {
        self.due
    }

    /// The thread of a helper that is granted and not ended.
    pub fn place_of(&self, helper: HelperNo) -> Option<usize>
        ensures { result ≡ position (serves helper) self.now.threads }
    {
        self.threads.iter().position(|thread| thread.serves(helper))
    }

    /// Whether the helper that is named is granted and not ended.
    pub fn is_served(&self, helper: &Option<HelperNo>) -> bool
        ensures { result ≡ is_served helper.now self.now }
    {
        match helper {
            None => true,
            Some(helper) => self.place_of(*helper).is_some(),
        }
    }

    /// The work that the thread may start next.
    pub fn next(&self, t: usize) -> Option<Task>
        requires { t < length self.now.threads }
        ensures { result ≡ next_of self.now t }
    {
        let thread = &self.threads[t];
        match thread.helper() {
            None => self.waiting.front().copied(),
            Some(_) => thread.next(),
        }
    }

    /// The thread that a further helper is granted.
    pub fn answer(&self) -> Option<ThreadNo>
        ensures { result ≡ answer_of self.now }
    {
        if self.free() == 0 {
            return None;
        }
        match self.first_idle() {
            None => None,
            Some(place) => Some(ThreadNo::new(place as u32)),
        }
    }

    // The first thread that neither runs a work nor is reserved.
    fn first_idle(&self) -> Option<usize>
        ensures place { result ≡ position is_idle self.now.threads }
        ensures within { IfSome result (λ t. t < length self.now.threads) }
        ensures small { length self.now.threads < 2 ^ 32 }
    {
        self.threads.iter().position(|thread| thread.is_idle())
    }

    // How many threads a further helper may choose from.
    fn free(&self) -> usize
        ensures { result ≡ free_of self.now }
    {
        self.threads
            .len()
            .saturating_sub(self.taken())
            .saturating_sub(self.general())
            .saturating_sub(self.waiting.len())
    }

    // How many threads are reserved.
    fn taken(&self) -> usize
        ensures { result ≡ count_by is_taken self.now.threads }
    {
        self.threads
            .iter()
            .filter(|thread| thread.is_taken())
            .count()
    }

    // How many threads run general works.
    fn general(&self) -> usize
        ensures { result ≡ count_by runs_general self.now.threads }
    {
        self.threads
            .iter()
            .filter(|thread| thread.runs_general())
            .count()
    }

    /// The numbers of the finished works that were not fetched.
    pub fn owed_ids(&self) -> Result<Ids, NoMemory>
        ensures { IfOk result (λ ids. ids ≡ map (λ pair. pair.0) self.now.owed) }
    {
        let ids: Vec<WorkNo> = self.owed.iter().map(|pair| pair.0).collect(self.alloc)?;
        Ok(Items::from_vec(ids))
    }

    /// Puts the finished works that were not fetched behind those of `into`.
    pub fn copy_owed(&self, into: &mut Arrivals) -> Result<(), NoMemory>
        ensures { OnOk result
            (into.new ≡ record into.old { works = into.old.works ++ self.now.owed }) }
    {
        for pair in self.owed.as_slice() {
            into.push(*pair)?;
        }
        Ok(())
    }

    /// Hands in a work, for any thread or for the thread of a helper that is granted and not ended.
    pub fn submit(&mut self, work: Work, helper: &Option<HelperNo>) -> Result<(), NoMemory>
        requires numbers { self.old.submits < 2 ^ 32 - 1 }
        requires served { is_served helper.now self.old ≡ true }
        ensures ok { OnOk result (self.new ≡ submitted work helper.now self.old) }
        ensures due { OnOk result (due_of self.new ≡ due_of self.old + 2) }
        ensures err { OnErr result (self.new ≡ self.old) }
    {
        let Some(helper) = helper else {
            return self.submit_general(work);
        };
        let Some(t) = self.place_of(*helper) else {
            unreachable!()
        };
        self.submit_helped(work, t)
    }

    fn submit_general(&mut self, work: Work) -> Result<(), NoMemory>
        requires { self.old.submits < 2 ^ 32 - 1 }
        ensures ok { OnOk result (self.new ≡ with_general work self.old) }
        ensures due { OnOk result (due_of self.new ≡ due_of self.old + 2) }
        ensures err { OnErr result (self.new ≡ self.old) }
    {
        self.owed.reserve(self.due + 2)?;
        let id = WorkNo::new(self.submits);
        self.waiting.push_back(Task { id, work })?;
        self.submits += 1;
        self.due += 2;
        Ok(())
    }

    fn submit_helped(&mut self, work: Work, t: usize) -> Result<(), NoMemory>
        requires numbers { self.old.submits < 2 ^ 32 - 1 }
        requires place { t < length self.old.threads }
        ensures ok { OnOk result (self.new ≡ with_helped work t self.old) }
        ensures due { OnOk result (due_of self.new ≡ due_of self.old + 2) }
        ensures err { OnErr result (self.new ≡ self.old) }
    {
        self.owed.reserve(self.due + 2)?;
        let id = WorkNo::new(self.submits);
        let thread = &mut self.threads[t];
        thread.put(Task { id, work })?;
        self.submits += 1;
        self.due += 2;
        Ok(())
    }

    /// The thread, which runs nothing, begins the work that it may start next. `None` exactly where there is none, and
    /// nothing changes then.
    pub fn begin(&mut self, t: usize) -> Option<Task>
        requires place { t < length self.old.threads }
        requires idle { (thread_at self.old t).running ≡ None }
        ensures task { result ≡ next_of self.old t }
        ensures desk { self.new ≡ begun_by (next_of self.old t) t self.old }
        ensures due { due_of self.new + (if is_some result then 1 else 0) ≡ due_of self.old }
    {
        let thread = &self.threads[t];
        match thread.helper() {
            None => self.begin_general(t),
            Some(_) => self.begin_own(t),
        }
    }

    fn begin_general(&mut self, t: usize) -> Option<Task>
        requires place { t < length self.old.threads }
        requires idle { (thread_at self.old t).running ≡ None }
        requires general { (thread_at self.old t).helper ≡ None }
        ensures task { result ≡ first_of self.old.waiting }
        ensures desk { self.new ≡ begun_by (first_of self.old.waiting) t self.old }
        ensures due { due_of self.new + (if is_some result then 1 else 0) ≡ due_of self.old }
    {
        match self.waiting.pop_front() {
            None => None,
            Some(task) => {
                let thread = &mut self.threads[t];
                thread.run(task.copied());
                self.due -= 1;
                Some(task)
            }
        }
    }

    fn begin_own(&mut self, t: usize) -> Option<Task>
        requires place { t < length self.old.threads }
        requires idle { (thread_at self.old t).running ≡ None }
        requires own { is_some (thread_at self.old t).helper ≡ true }
        ensures task { result ≡ first_of (thread_at self.old t).queue }
        ensures desk { self.new ≡ begun_by (first_of (thread_at self.old t).queue) t self.old }
        ensures due { due_of self.new + (if is_some result then 1 else 0) ≡ due_of self.old }
    {
        let thread = &mut self.threads[t];
        match thread.run_own() {
            None => None,
            Some(task) => {
                self.due -= 1;
                Some(task)
            }
        }
    }

    /// The thread ends the work that it runs, whose number is given.
    pub fn finish(&mut self, t: usize, id: WorkNo, outcome: Outcome)
        requires place { t < length self.old.threads }
        requires runs { is_some (thread_at self.old t).running ≡ true }
        ensures desk { self.new ≡ finished_by t id outcome self.old }
        ensures due { due_of self.new + 1 ≡ due_of self.old }
    {
        let thread = &mut self.threads[t];
        thread.finish();
        self.owed.push_reserved((id, outcome));
        self.due -= 1;
    }

    /// Every finished work is fetched.
    pub fn fetch(&mut self)
        ensures { self.new ≡ fetched self.old }
    {
        self.owed.clear();
    }

    /// A helper was asked for, and answered.
    pub fn note_helper(&mut self, answer: &Option<ThreadNo>)
        requires { self.old.helpers < 2 ^ 32 - 1 }
        ensures desk { self.new ≡ answered answer.now self.old }
        ensures due { due_of self.new ≡ due_of self.old }
    {
        match answer {
            None => self.helpers += 1,
            Some(t) => self.grant(*t),
        }
    }

    fn grant(&mut self, t: ThreadNo)
        requires { self.old.helpers < 2 ^ 32 - 1 }
        ensures desk { self.new ≡ answered (Some t) self.old }
        ensures due { due_of self.new ≡ due_of self.old }
    {
        let helper = HelperNo::new(self.helpers);
        let place = t.number() as usize;
        if place < self.threads.len() {
            let thread = &mut self.threads[place];
            thread.reserve(helper);
        }
        self.helpers += 1;
    }

    /// Ends a helper that is granted and not ended; another is left as it is.
    pub fn end_helper(&mut self, helper: HelperNo)
        ensures desk { self.new ≡ ended_at (position (serves helper) self.old.threads) self.old }
        ensures due { due_of self.new ≡ due_of self.old }
    {
        let Some(t) = self.place_of(helper) else {
            return;
        };
        let thread = &mut self.threads[t];
        thread.end_helper();
    }

    pub fn close(&mut self)
        ensures { self.new ≡ record self.old { closed = true } }
    {
        self.closed = true;
    }
}

// So many threads that run nothing.
fn idle_threads(alloc: Global, threads: u32) -> Result<Vec<Thread>, NoMemory>
    ensures { IfOk result (λ rows. rows.items ≡ (no_works threads).threads) }
{
    let mut rows = Vec::with_capacity(alloc, threads as usize)?;
    for _ in 0..threads {
        rows.push_reserved(Thread::idle(alloc));
    }
    Ok(rows)
}
