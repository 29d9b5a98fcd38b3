//! The pool.

ghost use Rattle.std.specs.Prelude.{ℕ, ◌≡◌, ◌<◌, ◌≤◌, ◌+◌, ◌-◌, ◌^◌, ◌↔◌, [], ◌∷◌, ◌++◌, Some, None, true, false, count_by, length, OnOk, OnErr, IfOk};
ghost use Rattle.std.specs.List.{list_any};
ghost use Rattle.ak_history.specs.Events.{is_submit, is_helper_new, is_close, is_running, is_active, owed, helper_answer, free_threads, asked, unfetched, is_fetched, is_answered, has_left};
ghost use Rattle.ak_history.specs.Legal.{Legal, IsLegalAfter, IsServed, IsIdle};
ghost use Rattle.ak_pool.specs.Pools.{IsOpen, brought, owes, MayStart, answer_to, waiting_for};
ghost use Rattle.ak_pool.specs.Takes.{Takes};

use crate::desk::Desk;
use crate::requests::Requests;
use ak_base::list::{Items, NoMemory};
use ak_base::number::{AskerNo, HelperNo, Num, RequestNo, ThreadNo, WorkNo};
use ak_history::event::{Event, History};
use ak_labor::work::{Arrivals, Outcome, Work};
use std::alloc::Global;
use std::marker::Model;

/// What a thread is given that asks for a work.
#[derive(Clone, Copy, PartialEq, Eq, Debug)]
pub enum Taken {
    /// A work, which the thread has begun.
    Got { id: WorkNo, work: Work },
    /// Nothing that the thread may start waits now.
    NotYet,
    /// Nothing more is to be started.
    Closed,
}

/// A pool of threads and askers, without a thread in it. Contracts see how many of both it has, its history, which is legal
/// for these numbers, and for how many more calls of `drain`, `helper` and `end_helper` there is room. Own; after the outline
/// of Async's thread pool.
///
/// There is always room for one close, for the start and the finish of each work that was handed in, for the end of each
/// asker, and for the answer to each request.
#[derive(Debug, Drop)]
pub struct Pool {
    threads: u32,
    askers: u32,
    events: Vec<Event>,
    desk: Desk,
    requests: Requests,
    spare: usize,
}

impl Model for Pool {
    ghost use Rattle.ak_pool.specs.Pools.{PoolState};

    ghost Value = { PoolState };

    ghost use Rattle.ak_pool.specs.KeptPools.{IsLegalPool};

    ghost view = { λ p. record {
      threads = p.threads;
      askers = p.askers;
      history = p.events.items;
      spare = p.spare;
    } };

    ghost invariant = { IsLegalPool };
}

impl Pool {
    /// A pool of so many threads and askers, of which nothing was asked yet.
    ///
    /// # Errors
    ///
    /// `NoMemory`.
    pub fn make(alloc: Global, threads: u32, askers: u32) -> Result<Pool, NoMemory>
        ensures { IfOk result (λ p. p
            ≡ record { threads = threads; askers = askers; history = []; spare = 0 }) }
    {
        let desk = Desk::make(alloc, threads)?;
        let requests = Requests::make(alloc, askers)?;
        let events = Vec::with_capacity(alloc, askers as usize + 1)?;
        Ok(Pool {
            threads,
            askers,
            events,
            desk,
            requests,
            spare: 0,
        })
    }

    /// Makes room for `n` more calls of `drain`, `helper` and `end_helper`. Nothing was closed before.
    ///
    /// # Errors
    ///
    /// `NoMemory`. The pool is then as before.
    pub fn reserve(&mut self, n: u32) -> Result<(), NoMemory>
        requires { IsOpen self.old.history }
        ensures room { OnOk result (n ≤ self.new.spare) }
        ensures spare { self.old.spare ≤ self.new.spare }
        ensures err { OnErr result (self.new ≡ self.old) }
        ensures history { self.new.history ≡ self.old.history }
        ensures threads { self.new.threads ≡ self.old.threads }
        ensures askers { self.new.askers ≡ self.old.askers }
    {
        let spare = self.spare.max(n as usize);
        self.events
            .reserve(self.desk.due() + self.requests.due() + spare + 1)?;
        self.spare = spare;
        Ok(())
    }

    /// Hands in a work, for any thread or for the thread of a helper that is granted and not ended, and gives its
    /// number: how many were handed in before, which are fewer than 4,294,967,295. Room for its start and its finish is
    /// kept too. Nothing was closed before.
    ///
    /// # Errors
    ///
    /// `NoMemory`. The pool is then as before.
    pub fn submit(&mut self, work: Work, helper: Option<HelperNo>) -> Result<WorkNo, NoMemory>
        requires open { IsOpen self.old.history }
        requires numbers { count_by is_submit self.old.history < 2 ^ 32 - 1 }
        requires served { IsServed self.old.history helper }
        ensures number { IfOk result (λ id. id ≡ count_by is_submit self.old.history) }
        ensures ok { IfOk result (λ id. self.new.history
            ≡ self.old.history ++ Event.Submit id work helper ∷ []) }
        ensures err { OnErr result (self.new ≡ self.old) }
        ensures threads { self.new.threads ≡ self.old.threads }
        ensures askers { self.new.askers ≡ self.old.askers }
        ensures spare { self.new.spare ≡ self.old.spare }
    {
        self.events
            .reserve(self.desk.due() + self.requests.due() + self.spare + 4)?;
        let id = WorkNo::new(self.desk.submits());
        self.desk.submit(work, &helper)?;
        self.events
            .push_reserved(Event::Submit { id, work, helper });
        Ok(id)
    }

    /// The thread, which runs nothing, begins the work that it may start now. `NotYet` exactly where there is none, and
    /// `Closed` exactly where the pool was closed. It takes no memory.
    pub fn take(&mut self, thread: ThreadNo) -> Taken
        requires exists { thread < self.old.threads }
        requires idle { is_running self.old.history thread ≡ false }
        ensures taken { Takes self.old.threads self.old.history thread result self.new.history }
        ensures threads { self.new.threads ≡ self.old.threads }
        ensures askers { self.new.askers ≡ self.old.askers }
        ensures spare { self.new.spare ≡ self.old.spare }
    {
        if self.desk.is_closed() {
            return Taken::Closed;
        }
        match self.desk.begin(thread.number() as usize) {
            None => Taken::NotYet,
            Some(task) => {
                self.events.push_reserved(Event::Start {
                    thread,
                    id: task.id,
                });
                Taken::Got {
                    id: task.id,
                    work: task.work,
                }
            }
        }
    }

    /// The thread ends the work that it has begun; the outcome is the work's value. It takes no memory.
    pub fn finish(&mut self, thread: ThreadNo, id: WorkNo, outcome: Outcome)
        requires { IsLegalAfter self.old.threads self.old.askers self.old.history
            (Event.Finish thread id outcome) }
        ensures history { self.new.history
            ≡ self.old.history ++ Event.Finish thread id outcome ∷ [] }
        ensures threads { self.new.threads ≡ self.old.threads }
        ensures askers { self.new.askers ≡ self.old.askers }
        ensures spare { self.new.spare ≡ self.old.spare }
    {
        self.desk.finish(thread.number() as usize, id, outcome);
        self.events.push_reserved(Event::Finish {
            thread,
            id,
            outcome,
        });
    }

    /// The asker, which has not ended and all of whose requests are answered, makes a request, and gives its number: how many
    /// were made before. Room for its answer is kept too. Nothing was closed before.
    ///
    /// # Errors
    ///
    /// `NoMemory`. The pool is then as before.
    pub fn request(&mut self, asker: AskerNo, num: Num) -> Result<RequestNo, NoMemory>
        requires open { IsOpen self.old.history }
        requires idle { IsIdle self.old.askers self.old.history asker }
        ensures number { IfOk result (λ no. no ≡ length (asked self.old.history)) }
        ensures ok { IfOk result (λ no. self.new.history
            ≡ self.old.history ++ Event.Request no asker num ∷ []) }
        ensures err { OnErr result (self.new ≡ self.old) }
        ensures threads { self.new.threads ≡ self.old.threads }
        ensures askers { self.new.askers ≡ self.old.askers }
        ensures spare { self.new.spare ≡ self.old.spare }
    {
        self.events
            .reserve(self.desk.due() + self.requests.due() + self.spare + 3)?;
        let no = self.requests.request(asker, num)?;
        self.events.push_reserved(Event::Request { no, asker, num });
        Ok(no)
    }

    /// Answers a request that was fetched and is not answered. Nothing was closed before. It takes no memory.
    pub fn answer(&mut self, no: RequestNo, num: Num)
        requires open { IsOpen self.old.history }
        requires fetched { is_fetched self.old.history no ≡ true }
        requires unanswered { is_answered self.old.history no ≡ false }
        ensures history { self.new.history ≡ self.old.history ++ Event.Answered no num ∷ [] }
        ensures threads { self.new.threads ≡ self.old.threads }
        ensures askers { self.new.askers ≡ self.old.askers }
        ensures spare { self.new.spare ≡ self.old.spare }
    {
        self.requests.answer(no, num);
        self.events.push_reserved(Event::Answered { no, num });
    }

    /// The asker, which has not ended and all of whose requests are answered, makes no further one. Nothing was closed before.
    /// It takes no memory.
    pub fn end_asker(&mut self, asker: AskerNo)
        requires open { IsOpen self.old.history }
        requires idle { IsIdle self.old.askers self.old.history asker }
        ensures history { self.new.history ≡ self.old.history ++ Event.AskerEnd asker ∷ [] }
        ensures threads { self.new.threads ≡ self.old.threads }
        ensures askers { self.new.askers ≡ self.old.askers }
        ensures spare { self.new.spare ≡ self.old.spare }
    {
        self.requests.end(asker);
        self.events.push_reserved(Event::AskerEnd { asker });
    }

    /// Fetches the finished works and the requests that were not fetched: `into` then holds the works with their outcomes, in
    /// the order in which they were finished, the requests with their numbers, in the order in which they were made, and how
    /// many askers have not ended, and nothing else. There is room for it. Nothing was closed before.
    ///
    /// # Errors
    ///
    /// `NoMemory`. The pool is then as before, and nothing is known of `into`.
    pub fn drain(&mut self, into: &mut Arrivals) -> Result<(), NoMemory>
        requires open { IsOpen self.old.history }
        requires room { 0 < self.old.spare }
        ensures brought { OnOk result (into.new ≡ brought self.old.askers self.old.history) }
        ensures ok { OnOk result (self.new.history ≡ self.old.history
            ++ Event.Drain (owed self.old.history) (unfetched self.old.history) ∷ []) }
        ensures err { OnErr result (self.new ≡ self.old) }
        ensures threads { self.new.threads ≡ self.old.threads }
        ensures askers { self.new.askers ≡ self.old.askers }
        ensures spare { OnOk result (self.new.spare + 1 ≡ self.old.spare) }
    {
        let ids = self.desk.owed_ids()?;
        let requests = self.requests.unfetched_ids()?;
        into.clear();
        self.desk.copy_owed(into)?;
        self.requests.copy_unfetched(into)?;
        self.desk.fetch();
        self.requests.fetch();
        self.spare -= 1;
        self.events.push_reserved(Event::Drain { ids, requests });
        Ok(())
    }

    /// Asks for a helper: it is granted the least thread that neither runs a work nor is reserved. `None` exactly where
    /// no thread is free. There is room for it, fewer than 4,294,967,295 were asked for before, and nothing was closed.
    /// It takes no memory.
    pub fn helper(&mut self) -> Option<ThreadNo>
        requires open { IsOpen self.old.history }
        requires room { 0 < self.old.spare }
        requires numbers { count_by is_helper_new self.old.history < 2 ^ 32 - 1 }
        ensures answer { result ≡ helper_answer self.old.threads self.old.history }
        ensures refused { (result ≡ None) ↔ (free_threads self.old.threads self.old.history ≡ 0) }
        ensures history { self.new.history ≡ self.old.history
            ++ Event.HelperNew (count_by is_helper_new self.old.history) result ∷ [] }
        ensures threads { self.new.threads ≡ self.old.threads }
        ensures askers { self.new.askers ≡ self.old.askers }
        ensures spare { self.new.spare + 1 ≡ self.old.spare }
    {
        let no = HelperNo::new(self.desk.helpers());
        let answer = self.desk.answer();
        self.desk.note_helper(&answer);
        self.spare -= 1;
        self.events.push_reserved(Event::HelperNew {
            no,
            answer: answer.as_ref().copied(),
        });
        answer
    }

    /// Ends a helper that is granted and not ended: it gives its thread back once its works are finished. There is room
    /// for it. Nothing was closed before. It takes no memory.
    pub fn end_helper(&mut self, no: HelperNo)
        requires open { IsOpen self.old.history }
        requires room { 0 < self.old.spare }
        requires active { is_active self.old.history no ≡ true }
        ensures history { self.new.history ≡ self.old.history ++ Event.HelperEnd no ∷ [] }
        ensures threads { self.new.threads ≡ self.old.threads }
        ensures askers { self.new.askers ≡ self.old.askers }
        ensures spare { self.new.spare + 1 ≡ self.old.spare }
    {
        self.desk.end_helper(no);
        self.spare -= 1;
        self.events.push_reserved(Event::HelperEnd { no });
    }

    /// Nothing more is asked, and nothing more is started. Nothing was closed before. It takes no memory.
    pub fn close(&mut self)
        requires { IsOpen self.old.history }
        ensures history { self.new.history ≡ self.old.history ++ Event.Close ∷ [] }
        ensures threads { self.new.threads ≡ self.old.threads }
        ensures askers { self.new.askers ≡ self.old.askers }
        ensures spare { self.new.spare ≡ self.old.spare }
    {
        self.desk.close();
        self.events.push_reserved(Event::Close);
    }

    /// Whether a drain has something to tell: a finished work or a request that was not fetched, or the end of an asker that
    /// no drain has followed.
    pub fn owes(&self) -> bool
        ensures { result ≡ owes self.now.history }
    {
        if !self.desk.owed().is_empty() {
            return true;
        }
        if !self.requests.unfetched().is_empty() {
            return true;
        }
        self.requests.has_untold_end()
    }

    /// The answer to a request: `None` exactly where it has none.
    pub fn answer_of(&self, no: RequestNo) -> Option<Num>
        ensures { result ≡ answer_to self.now.history no }
    {
        self.requests.answer_of(no)
    }

    /// The request for whose answer the asker waits: `None` exactly where there is none.
    pub fn waiting(&self, asker: AskerNo) -> Option<RequestNo>
        ensures { result ≡ waiting_for self.now.history asker }
    {
        self.requests.waiting(asker)
    }

    /// Whether the asker has ended.
    pub fn ended(&self, asker: AskerNo) -> bool
        ensures { result ≡ has_left self.now.history asker }
    {
        self.requests.ended(asker)
    }

    /// Whether the pool was closed.
    pub fn closed(&self) -> bool
        ensures { result ≡ list_any is_close self.now.history }
    {
        self.desk.is_closed()
    }

    /// The work that the thread, which runs nothing, may start now. `None` exactly where there is none, or where the
    /// pool was closed.
    pub fn may_start(&self, thread: ThreadNo) -> Option<WorkNo>
        requires exists { thread < self.now.threads }
        requires idle { is_running self.now.history thread ≡ false }
        ensures { (id : ℕ)
            → (result ≡ Some id) ↔ MayStart self.now.threads self.now.history thread id }
    {
        if self.desk.is_closed() {
            return None;
        }
        match self.desk.next(thread.number() as usize) {
            None => None,
            Some(task) => Some(task.id),
        }
    }

    /// The events of the history, which is legal.
    pub fn history(&self) -> &[Event]
        ensures history { result.now ≡ self.now.history }
        ensures few { length self.now.history < 2 ^ 63 }
        ensures legal { Legal self.now.threads self.now.askers self.now.history }
    {
        self.events.as_slice()
    }

    /// The history, which is legal. It takes no memory.
    pub fn into_history(self) -> History
        ensures history { result ≡ self.history }
        ensures legal { Legal self.threads self.askers self.history }
    {
        let Pool { events, .. } = self;
        Items::from_vec(events)
    }
}
