//! How the events of a record are passed.

ghost use Rattle.std.specs.Prelude.{◌≡◌, ◌≤◌, ◌<◌, ◌^◌, MatchBool, length, slice_get, OnOk, OnErr, IfOk};
ghost use Rattle.std.specs.Option.{option_copied};
ghost use Rattle.ak_history.specs.Scheduler.{ask_of as ask_in};
ghost use Rattle.ak_replay.specs.Passing.{IsCall, IsNoted, IsPassed, IsAtCall, CanCount, counted, is_grant as grants};

use ak_base::list::NoMemory;
use ak_history::event::{Event, History};
use ak_labor::ask::Ask;
use ak_labor::work::Arrivals;

/// How much of a record was passed: how many events, and of them how many calls, submits and new helpers.
#[derive(Clone, Copy, PartialEq, Eq, Debug)]
pub struct Progress {
    pub events: usize,
    pub calls: u64,
    pub submits: u32,
    pub helpers: u32,
}

impl Progress {
    /// Nothing was passed.
    pub const START: Progress = Progress {
        events: 0,
        calls: 0,
        submits: 0,
        helpers: 0,
    };

    /// One more event was passed, which is this call.
    pub fn count(&mut self, ask: &Ask)
        requires { CanCount ask.now self.old }
        ensures { self.new ≡ counted ask.now self.old }
    {
        self.events += 1;
        self.calls += 1;
        match ask {
            Ask::Submit { .. } => self.submits += 1,
            Ask::HelperNew { .. } => self.helpers += 1,
            _ => {}
        }
    }
}

/// The call that an event of the scheduler stands for. Events of threads and askers stand for none.
fn ask_of(event: &Event) -> Option<Ask>
    ensures { result ≡ ask_in event.now }
{
    match event {
        Event::Submit { id, work, helper } => Some(Ask::Submit {
            id: *id,
            work: *work,
            helper: *helper,
        }),
        Event::Drain { .. } => Some(Ask::Drain),
        Event::Answered { no, num } => Some(Ask::Answer { no: *no, num: *num }),
        Event::HelperNew { no, .. } => Some(Ask::HelperNew { no: *no }),
        Event::HelperEnd { no } => Some(Ask::HelperEnd { no: *no }),
        Event::Close => Some(Ask::Close),
        Event::Start { .. }
        | Event::Finish { .. }
        | Event::Request { .. }
        | Event::AskerEnd { .. } => None,
    }
}

/// Whether the next event is this call.
pub fn is_call(next: Option<&Event>, ask: &Ask) -> bool
    ensures { MatchBool result (IsCall ask.now (option_copied next.entry))
        (IsCall ask.now (option_copied next.entry) → ⊥) }
{
    match next {
        Some(event) => ask_of(event) == Some(*ask),
        None => false,
    }
}

/// Whether a helper was granted a thread.
pub fn is_grant(event: &Event) -> bool
    ensures { result ≡ grants event.now }
{
    matches!(
        event,
        Event::HelperNew {
            answer: Some(_),
            ..
        }
    )
}

/// Adds what the event of a thread or of an asker brings to the next drain. The answer is whether it is one.
fn note(due: &mut Arrivals, event: &Event) -> Result<bool, NoMemory>
    ensures noted { IfOk result (λ other. IsNoted other event.now due.old due.new) }
    ensures err { OnErr result (due.new ≡ due.old) }
{
    match event {
        Event::Finish { id, outcome, .. } => due.push((*id, *outcome))?,
        Event::Request { no, num, .. } => due.push_request(*no, *num)?,
        Event::AskerEnd { .. } => due.set_left(due.left().saturating_sub(1)),
        Event::Start { .. } => {}
        _ => return Ok(false),
    }
    Ok(true)
}

/// Passes the events of threads and askers up to the next call, or to the end.
///
/// # Errors
///
/// `NoMemory`. The events until then are passed.
pub fn pass(history: &History, passed: &mut usize, due: &mut Arrivals) -> Result<(), NoMemory>
    requires within { passed.old ≤ length history.now }
    requires short { length history.now < 2 ^ 63 }
    ensures passed { IsPassed history.now passed.old passed.new due.old due.new }
    ensures stops { OnOk result (IsAtCall (slice_get history.now passed.new)) }
{
    while let Some(event) = history.get(*passed) {
        if !note(due, event)? {
            break;
        }
        *passed += 1;
    }
    Ok(())
}
