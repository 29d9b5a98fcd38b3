//! The judge of a history.

ghost use Rattle.std.specs.Prelude.{◌≡◌, ◌<◌, ◌-◌, ◌^◌, length, map, None, OnOk, IfErr};
ghost use Rattle.ak_history.specs.Legal.{Legal};
ghost use Rattle.ak_pool.specs.Desks.{thread_at, next_of, begun_by};
ghost use Rattle.ak_pool.specs.Askers.{IsFree, AreTied};
ghost use Rattle.ak_pool.specs.Judged.{Says, Fits, FitsRequests, FitsSubmit, FitsStart, FitsFinish, FitsDrain, FitsHelper, FitsEnd, noted, requests_noted};
ghost use Rattle.ak_pool.specs.Refusals.{IsRefused};

use crate::desk::Desk;
use crate::pool::Pool;
use crate::requests::{Made, Requests};
use ak_base::list::NoMemory;
use ak_base::number::{AskerNo, HelperNo, RequestNo, ThreadNo, WorkNo};
use ak_history::event::{Event, History, Ids, RequestIds};
use ak_labor::labor::{Labor, Plain};
use ak_labor::work::Outcome;
use std::alloc::{AllocError, Global};

/// Why a history is refused.
#[derive(Clone, Copy, PartialEq, Eq, Debug)]
pub enum CheckRefused {
    /// The first event that is not legal after those before it stands at this place, from 0.
    Illegal { place: u32 },
    /// There was no memory.
    NoMemory,
}

impl From<AllocError> for CheckRefused {
    ghost use Rattle.std.specs.Prelude.{◌≡◌};
    ghost use Rattle.ak_pool.specs.declared.check.CheckRefused.TheVariants.{NoMemory};

    ghost from_gives = { λ _ e. e ≡ NoMemory };

    fn from(_error: AllocError) -> CheckRefused {
        CheckRefused::NoMemory
    }
}

impl Pool {
    /// Tests whether a history of fewer than 4,294,967,295 events is legal for so many threads and askers. It looks at each
    /// event once, and computes the value of each work that is finished.
    ///
    /// # Errors
    ///
    /// `Illegal`, exactly at the first event that is not legal after those before it; `NoMemory`.
    pub fn check(
        alloc: Global,
        history: &History,
        threads: u32,
        askers: u32,
    ) -> Result<(), CheckRefused>
        requires { length history.now < 2 ^ 32 - 1 }
        ensures legal { OnOk result (Legal threads askers history.now) }
        ensures refused { IfErr result (IsRefused threads askers history.now) }
    {
        let mut desk = Desk::make(alloc, threads)?;
        let mut requests = Requests::make(alloc, askers)?;
        for (place, event) in history.as_slice().iter().enumerate() {
            if !fits(&desk, &requests, event) {
                return Err(CheckRefused::Illegal {
                    place: place as u32,
                });
            }
            note(&mut desk, event)?;
            note_request(&mut requests, event)?;
        }
        Ok(())
    }
}

// Whether the event is legal next.
fn fits(desk: &Desk, requests: &Requests, event: &Event) -> bool
    ensures { Says result (Fits desk.now event.now × FitsRequests requests.now event.now) }
{
    fits_desk(desk, event) && fits_requests(requests, event)
}

// Whether the event is legal next, by the desk.
fn fits_desk(desk: &Desk, event: &Event) -> bool
    ensures { Says result (Fits desk.now event.now) }
{
    match event {
        Event::Submit {
            id,
            work: _,
            helper,
        } => fits_submit(desk, *id, helper),
        Event::Start { thread, id } => fits_start(desk, *thread, *id),
        Event::Finish {
            thread,
            id,
            outcome,
        } => fits_finish(desk, *thread, *id, *outcome),
        Event::Request { .. } | Event::AskerEnd { .. } | Event::Answered { .. } => {
            !desk.is_closed()
        }
        Event::Drain { ids, requests: _ } => fits_drain(desk, ids),
        Event::HelperNew { no, answer } => fits_helper(desk, *no, answer),
        Event::HelperEnd { no } => fits_end(desk, *no),
        Event::Close => !desk.is_closed(),
    }
}

// Whether the event is legal next, by the requests.
fn fits_requests(requests: &Requests, event: &Event) -> bool
    ensures { Says result (FitsRequests requests.now event.now) }
{
    match event {
        Event::Request { no, asker, num: _ } => fits_request(requests, *no, *asker),
        Event::AskerEnd { asker } => requests.is_free(*asker),
        Event::Drain {
            ids: _,
            requests: ids,
        } => are_requests(ids.as_slice(), requests.unfetched()),
        Event::Answered { no, num: _ } => requests.is_unanswered(*no),
        _ => true,
    }
}

// Whether the asker may make a request next under the number.
fn fits_request(requests: &Requests, no: RequestNo, asker: AskerNo) -> bool
    ensures { Says result ((no ≡ length requests.now.made) × IsFree requests.now asker) }
{
    no.number() == requests.made() as u64 && requests.is_free(asker)
}

// Whether these are the numbers of the requests, in order.
fn are_requests(ids: &[RequestNo], made: &[Made]) -> bool
    ensures { Says result (ids.now ≡ map (λ r. r.no) made.now) }
{
    if ids.len() != made.len() {
        return false;
    }
    for k in 0..ids.len() {
        if ids[k].number() != made[k].no.number() {
            return false;
        }
    }
    true
}

// Whether a work may be handed in next under the number, for the helper if one is named.
fn fits_submit(desk: &Desk, id: WorkNo, helper: &Option<HelperNo>) -> bool
    ensures { Says result (FitsSubmit desk.now id helper.now) }
{
    if desk.is_closed() || id.number() != desk.submits() {
        return false;
    }
    desk.is_served(helper)
}

// Whether the thread may begin the work next.
fn fits_start(desk: &Desk, thread: ThreadNo, id: WorkNo) -> bool
    ensures { Says result (FitsStart desk.now thread id) }
{
    let place = thread.number() as usize;
    if desk.is_closed() || place >= desk.threads() {
        return false;
    }
    if desk.thread(place).running().is_some() {
        return false;
    }
    match desk.next(place) {
        None => false,
        Some(task) => task.id.number() == id.number(),
    }
}

// Whether the thread runs the work, and the outcome is its value.
fn fits_finish(desk: &Desk, thread: ThreadNo, id: WorkNo, outcome: Outcome) -> bool
    ensures { Says result (FitsFinish desk.now thread id outcome) }
{
    let place = thread.number() as usize;
    if place >= desk.threads() {
        return false;
    }
    match desk.thread(place).running() {
        None => false,
        Some(task) => {
            if task.id.number() != id.number() {
                return false;
            }
            let mut hand = Plain::make();
            hand.carry(&task.work) == outcome
        }
    }
}

// Whether these are the finished works that were not fetched.
fn fits_drain(desk: &Desk, ids: &Ids) -> bool
    ensures { Says result (FitsDrain desk.now ids.now) }
{
    if desk.is_closed() {
        return false;
    }
    are_ids(ids.as_slice(), desk.owed())
}

// Whether these are the numbers of the works, in order.
fn are_ids(ids: &[WorkNo], works: &[(WorkNo, Outcome)]) -> bool
    ensures { Says result (ids.now ≡ map (λ work. work.0) works.now) }
{
    if ids.len() != works.len() {
        return false;
    }
    for k in 0..ids.len() {
        if ids[k].number() != works[k].0.number() {
            return false;
        }
    }
    true
}

// Whether a helper may be asked for next under the number, with the answer.
fn fits_helper(desk: &Desk, no: HelperNo, answer: &Option<ThreadNo>) -> bool
    ensures { Says result (FitsHelper desk.now no answer.now) }
{
    if desk.is_closed() || no.number() != desk.helpers() {
        return false;
    }
    match (answer, desk.answer()) {
        (None, None) => true,
        (Some(thread), Some(other)) => thread.number() == other.number(),
        _ => false,
    }
}

// Whether the helper may be ended next.
fn fits_end(desk: &Desk, no: HelperNo) -> bool
    ensures { Says result (FitsEnd desk.now no) }
{
    if desk.is_closed() {
        return false;
    }
    desk.place_of(no).is_some()
}

// The desk after an event that is legal.
fn note(desk: &mut Desk, event: &Event) -> Result<(), NoMemory>
    requires fits { Fits desk.old event.now }
    requires submits { desk.old.submits < 2 ^ 32 - 1 }
    requires helpers { desk.old.helpers < 2 ^ 32 - 1 }
    ensures { OnOk result (desk.new ≡ noted event.now desk.old) }
{
    match event {
        Event::Submit {
            id: _,
            work,
            helper,
        } => return desk.submit(*work, helper),
        Event::Start { thread, id: _ } => begin(desk, *thread),
        Event::Finish {
            thread,
            id,
            outcome,
        } => desk.finish(thread.number() as usize, *id, *outcome),
        Event::Request { .. } | Event::AskerEnd { .. } | Event::Answered { .. } => (),
        Event::Drain { .. } => desk.fetch(),
        Event::HelperNew { no: _, answer } => desk.note_helper(answer),
        Event::HelperEnd { no } => desk.end_helper(*no),
        Event::Close => desk.close(),
    }
    Ok(())
}

// The requests after an event that is legal.
fn note_request(requests: &mut Requests, event: &Event) -> Result<(), NoMemory>
    requires fits { FitsRequests requests.old event.now }
    requires tied { AreTied requests.old }
    ensures { OnOk result (requests.new ≡ requests_noted event.now requests.old) }
{
    match event {
        Event::Request { no: _, asker, num } => {
            let _no = requests.request(*asker, *num)?;
        }
        Event::AskerEnd { asker } => requests.end(*asker),
        Event::Drain { .. } => requests.fetch(),
        Event::Answered { no, num } => requests.answer(*no, *num),
        _ => (),
    }
    Ok(())
}

// The thread begins the work that it may start next.
fn begin(desk: &mut Desk, thread: ThreadNo)
    requires place { thread < length desk.old.threads }
    requires idle { (thread_at desk.old thread).running ≡ None }
    ensures { desk.new ≡ begun_by (next_of desk.old thread) thread desk.old }
{
    let _task = desk.begin(thread.number() as usize);
}
