//! The port of a record, call by call.

ghost use Rattle.std.specs.Prelude.{◌≡◌, IfOk};
ghost use Rattle.ak_history.specs.Legal.{Legal};

use ak_base::list::NoMemory;
use ak_base::number::WorkNo;
use ak_history::event::History;
use ak_history::reading::read_history;
use ak_labor::ask::Ask;
use ak_labor::port::Port;
use ak_labor::work::{Arrivals, Outcome, Work, WorkKind};
use ak_pool::pool::Pool;
use ak_replay::port::{Departure, Naming, ReplayPort};
use std::alloc::{AllocError, Global};
use std::marker::Brand;
use std::test::*;

/// A work is handed in and fetched.
const RECORD: &str = "submit 0 general square 4
start 0 0
finish 0 0 good 16
drain 0
close
";

/// The record of one thread and no askers that a short text is: want of memory also where it is no legal one.
fn record_of(alloc: Global, text: &str) -> Result<History, NoMemory>
    ensures { IfOk result (λ history. Legal 1 0 history) }
{
    if text.len() > 1000 {
        return Err(AllocError);
    }
    let Ok(recorded) = read_history(alloc, text.as_bytes(), 1) else {
        return Err(AllocError);
    };
    if recorded.history.len() > 1000 || Pool::check(alloc, &recorded.history, 1, 0).is_err() {
        return Err(AllocError);
    }
    Ok(recorded.history)
}

// Whether the first helper of the record that `B` names is granted.
fn is_granted<B: Naming>(alloc: Global, history: History) -> Option<bool>
    requires legal { Legal 1 0 history }
    requires named { B.recording ≡ record { threads = 1; askers = 0; history = history } }
{
    let mut port: ReplayPort<B> = ReplayPort::make(alloc, history, 1, 0);
    match port.helper() {
        Ok(granted) => Some(granted),
        Err(_) => None,
    }
}

#[test]
fn helper_is_granted_as_in_the_record(rt: HostRuntime) -> Result<(), NoMemory> {
    let history = record_of(rt.alloc(), "helper 0 granted 0\n")?;
    assert_eq!(rt; is_granted::<Brand>(rt.alloc(), history), Some(true));
    Ok(())
}

// Hands in a work, fetches what has come, and closes: the number of the work, and what has come.
fn fetched<B: Naming>(alloc: Global, history: History) -> Option<(WorkNo, Arrivals)>
    requires legal { Legal 1 0 history }
    requires named { B.recording ≡ record { threads = 1; askers = 0; history = history } }
{
    let mut port: ReplayPort<B> = ReplayPort::make(alloc, history, 1, 0);
    let mut arrived = Arrivals::make(alloc);
    let work = Work {
        kind: WorkKind::Square,
        num: 4,
    };
    let id = port.submit(work, None).ok()?;
    port.drain(&mut arrived).ok()?;
    port.close().ok()?;
    Some((id, arrived))
}

#[test]
fn work_comes_as_in_the_record(rt: HostRuntime) -> Result<(), NoMemory> {
    let history = record_of(rt.alloc(), RECORD)?;
    let Some((id, arrived)) = fetched::<Brand>(rt.alloc(), history) else {
        return Err(AllocError);
    };
    assert_eq!(rt; id, WorkNo::new(0));
    assert_eq!(rt; arrived.len(), 1);
    assert_eq!(rt; arrived.get(0), Some(&(WorkNo::new(0), Outcome::Good(16))));
    Ok(())
}

// Where the record that `B` names is left by a drain.
fn left_by_a_drain<B: Naming>(alloc: Global, history: History) -> Option<Departure>
    requires legal { Legal 1 0 history }
    requires named { B.recording ≡ record { threads = 1; askers = 0; history = history } }
{
    let mut port: ReplayPort<B> = ReplayPort::make(alloc, history, 1, 0);
    let mut arrived = Arrivals::make(alloc);
    match port.drain(&mut arrived) {
        Ok(()) => None,
        Err(_) => port.departure(),
    }
}

#[test]
fn another_call_leaves_the_record(rt: HostRuntime) -> Result<(), NoMemory> {
    let history = record_of(rt.alloc(), RECORD)?;
    let stray = left_by_a_drain::<Brand>(rt.alloc(), history);
    assert!(rt;
        matches!(
            stray,
            Some(Departure::Stray {
                place: 0,
                asked: Ask::Drain,
                ..
            })
        )
    );
    Ok(())
}

#[test]
fn empty_record_is_too_short(rt: HostRuntime) -> Result<(), NoMemory> {
    let history = record_of(rt.alloc(), "")?;
    let short = left_by_a_drain::<Brand>(rt.alloc(), history);
    assert!(rt; matches!(short, Some(Departure::Short { asked: Ask::Drain })));
    Ok(())
}
