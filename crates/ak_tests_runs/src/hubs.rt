//! A hub of one thread, one call after another.

ghost use Rattle.std.specs.Prelude.{◌≡◌, ◌<◌, suc, false, IfOk};
ghost use Rattle.ak_history.specs.Events.{is_running};
ghost use Rattle.ak_hub.specs.Hubs.{IsPassOf, IsGivenBack, seen_by};

use crate::works::{fetch, hand_in};
use ak_base::buffer::Buffer;
use ak_base::memory::MemSink;
use ak_base::number::{ThreadNo, WorkNo};
use ak_history::event::History;
use ak_history::text::put_history;
use ak_hub::hub::{Hub, HubPass, HubRefused};
use ak_labor::labor::{Labor, Plain};
use ak_labor::work::{Arrivals, Outcome, Work, WorkKind};
use ak_pool::pool::Taken;
use std::alloc::{AllocError, Global};
use std::sync::Wait;
use std::test::*;

/// What a thread was answered that asked for a work, and what it carried.
#[derive(Clone, Copy, PartialEq, Eq, Debug)]
enum Answer {
    Carried(WorkNo, Outcome),
    NotYet,
    Closed,
}

// The thread asks once for a work, and carries and finishes what it is given.
fn ask_once<R: Wait>(rt: &R, hub: &Hub, pass: &mut HubPass, thread: ThreadNo) -> Answer
    requires pass { IsPassOf hub.now (suc thread) pass.old }
    requires exists { thread < hub.now.threads }
    requires idle { is_running (seen_by pass.old) thread ≡ false }
    ensures pass { IsGivenBack hub.now (suc thread) pass.old pass.new }
    ensures idle { is_running (seen_by pass.new) thread ≡ false }
{
    match hub.take(rt, pass, thread) {
        Taken::Got { id, work } => {
            let outcome = Plain::make().carry(&work);
            hub.finish(rt, pass, thread, id, outcome);
            Answer::Carried(id, outcome)
        }
        Taken::NotYet => Answer::NotYet,
        Taken::Closed => Answer::Closed,
    }
}

/// What the calls on a hub gave.
#[derive(Drop)]
struct Answers {
    handed: WorkNo,
    answers: [Answer; 3],
    fetched: Arrivals,
    given: u32,
    made: u32,
    history: History,
}

// The first pass hands in `square 3`, the second carries it and asks once more. The first fetches and closes, and the
// second asks again.
fn row<R: Wait>(rt: &R, alloc: Global) -> Result<Answers, AllocError> {
    let (hub, mut first) = Hub::make(alloc, 1, 0)?;
    let mut second = hub.pass(&mut first);
    let thread = ThreadNo::new(0);
    let work = Work {
        kind: WorkKind::Square,
        num: 3,
    };
    let mut fetched = Arrivals::make(alloc);
    let handed = hand_in(rt, &hub, &mut first, work)?;
    let carried = ask_once(rt, &hub, &mut second, thread);
    let further = ask_once(rt, &hub, &mut second, thread);
    fetch(rt, &hub, &mut first, &mut fetched)?;
    hub.close(rt, &mut first);
    let late = ask_once(rt, &hub, &mut second, thread);
    let passes = vec![in alloc; first]?;
    let Err(
        HubRefused::Missing {
            hub,
            mut passes,
            given,
            made,
        },
    ) = hub.dissolve(passes)
    else {
        return Err(AllocError);
    };
    passes.push(second)?;
    match hub.dissolve(passes) {
        Ok(history) => Ok(Answers {
            handed,
            answers: [carried, further, late],
            fetched,
            given,
            made,
            history,
        }),
        Err(_) => Err(AllocError),
    }
}

// The text of a history.
fn text_of(alloc: Global, history: &History) -> Result<Vec<u8>, AllocError> {
    let mut sink = MemSink::make(alloc, 1000, 1000, Vec::new(alloc))?;
    let mut buffer = Buffer::new();
    let written = put_history(history, &mut buffer, &mut sink).is_ok();
    if !written || buffer.flush(&mut sink).is_err() {
        return Ok(Vec::new(alloc));
    }
    Vec::from_slice(alloc, sink.taken())
}

#[test]
fn one_thread_carries_one_work(rt: HostRuntime) -> Result<(), Fail> {
    let row = row(&rt, rt.alloc())?;
    let id = WorkNo::new(0);
    let thread = ThreadNo::new(0);
    let outcome = Outcome::Good(9);
    assert_eq!(rt; row.handed, id);
    assert_eq!(rt;
        row.answers,
        [Answer::Carried(id, outcome), Answer::NotYet, Answer::Closed]
    );
    assert_eq!(rt; row.fetched.len(), 1);
    assert_eq!(rt; row.fetched.get(0).copied(), Some((id, outcome)));
    assert_eq!(rt; (row.given, row.made), (1, 2));
    let text = text_of(rt.alloc(), &row.history)?;
    assert_eq!(rt;
        text.as_slice(),
        b"submit 0 general square 3\nstart 0 0\nfinish 0 0 good 9\ndrain 0\nclose\n".as_slice()
    );
    Ok(())
}
