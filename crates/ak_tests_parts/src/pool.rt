//! The pool without a thread in it, and the judge of histories.

use ak_base::list::NoMemory;
use ak_base::number::{AskerNo, RequestNo, ThreadNo, WorkNo};
use ak_history::reading::read_history;
use ak_history::refusal::HistoryRefused;
use ak_labor::work::{Arrivals, Work, WorkKind};
use ak_pool::check::CheckRefused;
use ak_pool::pool::{Pool, Taken};
use std::alloc::Global;

#[test]
fn thread_takes_the_work_that_waits(rt: HostRuntime) -> Result<(), NoMemory> {
    let mut pool = Pool::make(rt.alloc(), 1, 0)?;
    let thread = ThreadNo::new(0);
    let work = Work {
        kind: WorkKind::Square,
        num: 3,
    };
    assert_eq!(rt; pool.may_start(thread), None);
    let id = pool.submit(work, None)?;
    assert_eq!(rt; (id, pool.may_start(thread)), (WorkNo::new(0), Some(id)));
    assert_eq!(rt; pool.take(thread), Taken::Got { id, work });
    Ok(())
}

#[test]
fn closed_pool_gives_nothing(rt: HostRuntime) -> Result<(), NoMemory> {
    let mut pool = Pool::make(rt.alloc(), 2, 0)?;
    pool.reserve(2)?;
    assert_eq!(rt; pool.helper(), Some(ThreadNo::new(0)));
    let mut into = Arrivals::make(rt.alloc());
    pool.drain(&mut into)?;
    assert!(rt; into.len() == 0 && !pool.owes());
    pool.close();
    assert_eq!(rt; pool.may_start(ThreadNo::new(1)), None);
    assert_eq!(rt; pool.take(ThreadNo::new(1)), Taken::Closed);
    Ok(())
}

#[test]
fn request_is_answered(rt: HostRuntime) -> Result<(), NoMemory> {
    let mut pool = Pool::make(rt.alloc(), 1, 1)?;
    let asker = AskerNo::new(0);
    let no = pool.request(asker, 5)?;
    assert_eq!(rt; (no, pool.waiting(asker)), (RequestNo::new(0), Some(no)));
    assert_eq!(rt; (pool.answer_of(no), pool.owes()), (None, true));
    pool.reserve(1)?;
    let mut into = Arrivals::make(rt.alloc());
    pool.drain(&mut into)?;
    assert_eq!(rt; (into.len(), into.requests(), into.left()), (0, 1, 1));
    assert_eq!(rt; into.request(0).copied(), Some((no, 5)));
    pool.answer(no, 6);
    assert_eq!(rt; (pool.answer_of(no), pool.waiting(asker)), (Some(6), None));
    assert_eq!(rt;
        (pool.owes(), pool.ended(asker), pool.closed()),
        (false, false, false)
    );
    Ok(())
}

#[test]
fn end_of_an_asker_is_told(rt: HostRuntime) -> Result<(), NoMemory> {
    let mut pool = Pool::make(rt.alloc(), 1, 1)?;
    let asker = AskerNo::new(0);
    pool.reserve(1)?;
    pool.end_asker(asker);
    assert_eq!(rt; (pool.ended(asker), pool.owes()), (true, true));
    let mut into = Arrivals::make(rt.alloc());
    pool.drain(&mut into)?;
    assert_eq!(rt; (into.requests(), into.left(), pool.owes()), (0, 0, false));
    Ok(())
}

/// What the judge says of a short text of a history: the place of the first event that is not
/// legal, or none.
fn judged(
    alloc: Global,
    text: &str,
    threads: u32,
    askers: u32,
) -> Result<Option<u32>, HistoryRefused> {
    if text.len() > 1000 {
        return Err(HistoryRefused::BadLine { line: 0 });
    }
    let recorded = read_history(alloc, text.as_bytes(), 1)?;
    if recorded.history.len() > 1000 {
        return Err(HistoryRefused::BadLine { line: 0 });
    }
    match Pool::check(alloc, &recorded.history, threads, askers) {
        Ok(()) => Ok(None),
        Err(CheckRefused::Illegal { place }) => Ok(Some(place)),
        Err(CheckRefused::NoMemory) => Err(HistoryRefused::NoMemory),
    }
}

/// Two threads, of which helpers reserve one and then both.
const TWO: &str = "helper 0 granted 0
submit 0 general square 3
helper 1 refused
start 1 0
finish 1 0 good 9
submit 1 helper 0 mix 1
start 0 1
helper 2 granted 1
drain 0
finish 0 1 good 1817669548
helperend 0
helper 3 granted 0
close
";

/// A helper that has a work when it ends, and a general work that waits for its thread.
const ONE: &str = "idle 1
helper 0 granted 0
helper 1 refused
submit 0 general square 3
submit 1 helper 0 square 4
helperend 0
idle 2
start 0 1
finish 0 1 good 16
start 0 0
finish 0 0 good 9
";

#[test]
fn histories_are_judged(rt: HostRuntime) -> Result<(), HistoryRefused> {
    for (text, threads, place) in [
        (TWO, 2, None),
        (TWO, 1, Some(3)),
        (ONE, 1, None),
        (ONE, 2, Some(2)),
        (
            "submit 0 general square 3\nstart 0 0\nfinish 0 0 good 9\ndrain 0\nclose",
            1,
            None,
        ),
        (
            "submit 0 general square 3\nstart 0 0\nclose\nfinish 0 0 good 9",
            1,
            None,
        ),
        ("submit 0 general square 3\nclose\nstart 0 0", 1, Some(2)),
        (
            "submit 0 general square 3\nstart 0 0\nfinish 0 0 good 8",
            1,
            Some(2),
        ),
    ] {
        assert_eq!(rt;
            judged(rt.alloc(), text, threads, 0)?,
            place,
            "{threads} threads: {text}"
        );
    }
    Ok(())
}

#[test]
fn drain_fetches_every_finished_work(rt: HostRuntime) -> Result<(), HistoryRefused> {
    for (drain, place) in [
        ("drain 1 0\nidle 1\nclose", None),
        ("drain 1", Some(12)),
        ("drain 0 1", Some(12)),
        ("idle 1", Some(12)),
    ] {
        let text = format!(in rt.alloc(); "{ONE}{drain}")?;
        assert_eq!(rt; judged(rt.alloc(), &text, 1, 0)?, place, "{drain}");
    }
    Ok(())
}

/// One asker with two requests, between whose answers a work is done.
const ASKER: &str = "request 0 0 0
drain requests 0
idle 6
answered 0 5
request 1 0 1
drain requests 1
idle 6
submit 0 general square 7
start 1 0
finish 1 0 good 49
drain 0
idle 12
answered 1 5
askerend 0
idle 3
close
";

/// Two askers with two requests each, of which the last are not answered.
const ASKERS: &str = "request 0 0 0
request 1 1 1000
drain requests 0 1
idle 15
answered 0 -1
request 2 0 1
drain requests 2
answered 1 -1
request 3 1 1001
drain requests 3
idle 13
close
";

#[test]
fn requests_are_judged(rt: HostRuntime) -> Result<(), HistoryRefused> {
    for (text, threads, askers, place) in [
        (ASKER, 2, 1, None),
        (ASKER, 2, 0, Some(0)),
        (ASKERS, 3, 2, None),
        (ASKERS, 3, 1, Some(1)),
        ("idle 2\nrequest 0 0 5\nanswered 0 6", 1, 1, Some(3)),
        (
            "idle 2\nrequest 0 0 5\ndrain requests 0\nidle 1\nclose",
            1,
            1,
            None,
        ),
        ("request 0 0 0\nidle 5\ndrain requests 0", 3, 1, Some(1)),
        (
            "request 0 0 0\nrequest 1 1 1000\ndrain requests 0 1\nidle 2\nhelper 1 granted 1",
            2,
            2,
            Some(5),
        ),
        ("request 0 0 5\nrequest 1 0 6", 1, 1, Some(1)),
        ("request 0 0 5\naskerend 0", 1, 1, Some(1)),
        ("askerend 0\nrequest 0 0 5", 1, 1, Some(1)),
        ("askerend 0\naskerend 0", 1, 1, Some(1)),
        ("request 1 0 5", 1, 1, Some(0)),
        (
            "request 0 0 5\nrequest 1 1 6\ndrain requests 1 0",
            1,
            2,
            Some(2),
        ),
        (
            "request 0 0 5\ndrain requests 0\nanswered 0 6\nanswered 0 6",
            1,
            1,
            Some(3),
        ),
        ("close\nrequest 0 0 5", 1, 1, Some(1)),
    ] {
        assert_eq!(rt;
            judged(rt.alloc(), text, threads, askers)?,
            place,
            "{threads} threads, {askers} askers: {text}"
        );
    }
    Ok(())
}
