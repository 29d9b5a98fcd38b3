//! The words of each line of a history.

ghost use Rattle.std.specs.Prelude.{◌≡◌, IfOk};
ghost use Rattle.ak_row.specs.Parts.{Leaves};
ghost use Rattle.ak_history.specs.Taking.{line_of, submit_of, start_of, finish_of, request_of, asker_end_of, requests_of, drain_of, answered_of, helper_of, helper_end_of, close_of, idle_of, for_whom_at, answer_at, work_at};

use crate::event::{Event, RequestIds};
use crate::line::{FirstWord, HistoryLine};
use ak_base::list::{Items, NoMemory};
use ak_base::number::{HelperNo, RequestNo, ThreadNo, WorkNo};
use ak_labor::work::Work;
use ak_row::row::Row;
use ak_row::word::{long, thing};
use std::alloc::Global;

/// The line of a history that has these words: `None` exactly where there is none.
#[tactic(auto, unfolding(crate::specs::Taking::line_of))]
pub fn line(alloc: Global, row: &mut Row) -> Result<Option<HistoryLine>, NoMemory>
    ensures { IfOk result (λ found. found ≡ line_of row.old) }
{
    let Some(word) = row.word() else {
        return Ok(None);
    };
    let Some(first) = FirstWord::named(word) else {
        return Ok(None);
    };
    match first {
        FirstWord::Submit => Ok(submit(row).map(HistoryLine::Of)),
        FirstWord::Start => Ok(start(row).map(HistoryLine::Of)),
        FirstWord::Finish => Ok(finish(row).map(HistoryLine::Of)),
        FirstWord::Request => Ok(request(row).map(HistoryLine::Of)),
        FirstWord::AskerEnd => Ok(asker_end(row).map(HistoryLine::Of)),
        FirstWord::Drain => Ok(drain(alloc, row)?.map(HistoryLine::Of)),
        FirstWord::Answered => Ok(answered(row).map(HistoryLine::Of)),
        FirstWord::Idle => Ok(idle(row)),
        FirstWord::Helper => Ok(helper(row).map(HistoryLine::Of)),
        FirstWord::HelperEnd => Ok(helper_end(row).map(HistoryLine::Of)),
        FirstWord::Close => Ok(close(row).map(HistoryLine::Of)),
    }
}

#[tactic(auto, unfolding(crate::specs::Taking::submit_of))]
fn submit(row: &mut Row) -> Option<Event>
    ensures { result ≡ submit_of row.old }
{
    let id = row.number()?;
    let helper = for_whom(row)?;
    let work = work(row)?;
    row.end()?;
    Some(Event::Submit { id, work, helper })
}

/// The helper for whom a work is, and `None` for any thread.
#[tactic(auto, unfolding(crate::specs::Taking::for_whom_at))]
fn for_whom(row: &mut Row) -> Option<Option<HelperNo>>
    ensures { Leaves (λ h. h) result row.new (for_whom_at row.old) }
{
    match row.word()? {
        b"general" => Some(None),
        b"helper" => {
            let helper = row.number()?;
            Some(Some(helper))
        }
        _ => None,
    }
}

#[tactic(auto, unfolding(crate::specs::Taking::work_at))]
fn work(row: &mut Row) -> Option<Work>
    ensures { Leaves (λ w. w) result row.new (work_at row.old) }
{
    let kind = row.kind()?;
    let num = row.signed()?;
    Some(Work { kind, num })
}

#[tactic(auto, unfolding(crate::specs::Taking::start_of))]
fn start(row: &mut Row) -> Option<Event>
    ensures { result ≡ start_of row.old }
{
    let thread = row.number()?;
    let id = row.number()?;
    row.end()?;
    Some(Event::Start { thread, id })
}

#[tactic(auto, unfolding(crate::specs::Taking::finish_of))]
fn finish(row: &mut Row) -> Option<Event>
    ensures { result ≡ finish_of row.old }
{
    let thread = row.number()?;
    let id = row.number()?;
    let outcome = row.outcome()?;
    row.end()?;
    Some(Event::Finish {
        thread,
        id,
        outcome,
    })
}

#[tactic(auto, unfolding(crate::specs::Taking::request_of))]
fn request(row: &mut Row) -> Option<Event>
    ensures { result ≡ request_of row.old }
{
    let no = row.request()?;
    let asker = row.number()?;
    let num = row.signed()?;
    row.end()?;
    Some(Event::Request { no, asker, num })
}

#[tactic(auto, unfolding(crate::specs::Taking::asker_end_of))]
fn asker_end(row: &mut Row) -> Option<Event>
    ensures { result ≡ asker_end_of row.old }
{
    let asker = row.number()?;
    row.end()?;
    Some(Event::AskerEnd { asker })
}

/// A drain that brings something: works, and behind the word `requests` requests.
fn drain(alloc: Global, row: &mut Row) -> Result<Option<Event>, NoMemory>
    ensures { IfOk result (λ found. found ≡ drain_of row.old) }
{
    let mut ids = Items::make(alloc);
    while let Some(word) = row.word() {
        if word == b"requests".as_slice() {
            let Some(requests) = requests(alloc, row)? else {
                return Ok(None);
            };
            return Ok(Some(Event::Drain { ids, requests }));
        }
        let Some(id) = thing(word) else {
            return Ok(None);
        };
        ids.push(WorkNo::new(id))?;
    }
    if ids.len() == 0 {
        return Ok(None);
    }
    let requests = Items::make(alloc);
    Ok(Some(Event::Drain { ids, requests }))
}

/// The requests of a drain, one at least.
fn requests(alloc: Global, row: &mut Row) -> Result<Option<RequestIds>, NoMemory>
    ensures { IfOk result (λ found. found ≡ requests_of row.old) }
{
    let mut requests = Items::make(alloc);
    while let Some(word) = row.word() {
        let Some(no) = long(word) else {
            return Ok(None);
        };
        requests.push(RequestNo::new(no))?;
    }
    if requests.len() == 0 {
        return Ok(None);
    }
    Ok(Some(requests))
}

#[tactic(auto, unfolding(crate::specs::Taking::answered_of))]
fn answered(row: &mut Row) -> Option<Event>
    ensures { result ≡ answered_of row.old }
{
    let no = row.request()?;
    let num = row.signed()?;
    row.end()?;
    Some(Event::Answered { no, num })
}

/// A run of drains that bring nothing.
#[tactic(auto, unfolding(crate::specs::Taking::idle_of))]
fn idle(row: &mut Row) -> Option<HistoryLine>
    ensures { result ≡ idle_of row.old }
{
    let n = row.count()?;
    row.end()?;
    Some(HistoryLine::Idle(n))
}

#[tactic(auto, unfolding(crate::specs::Taking::helper_of))]
fn helper(row: &mut Row) -> Option<Event>
    ensures { result ≡ helper_of row.old }
{
    let no = row.number()?;
    let answer = answer(row)?;
    row.end()?;
    Some(Event::HelperNew { no, answer })
}

/// The thread that a helper is granted, and `None` where it is refused.
#[tactic(auto, unfolding(crate::specs::Taking::answer_at))]
fn answer(row: &mut Row) -> Option<Option<ThreadNo>>
    ensures { Leaves (λ t. t) result row.new (answer_at row.old) }
{
    match row.word()? {
        b"granted" => {
            let thread = row.number()?;
            Some(Some(thread))
        }
        b"refused" => Some(None),
        _ => None,
    }
}

#[tactic(auto, unfolding(crate::specs::Taking::helper_end_of))]
fn helper_end(row: &mut Row) -> Option<Event>
    ensures { result ≡ helper_end_of row.old }
{
    let no = row.number()?;
    row.end()?;
    Some(Event::HelperEnd { no })
}

#[tactic(auto, unfolding(crate::specs::Taking::close_of))]
fn close(row: &mut Row) -> Option<Event>
    ensures { result ≡ close_of row.old }
{
    row.end()?;
    Some(Event::Close)
}
