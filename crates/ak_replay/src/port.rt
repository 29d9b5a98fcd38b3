//! The scheduler's port over a record.

ghost use Rattle.std.specs.Prelude.{◌≡◌, ◌≤◌, [], None, OnOk, IfErr, false};
ghost use Rattle.ak_labor.specs.Calls.{IsOpen};
ghost use Rattle.ak_labor.specs.Waits.{is_drain};
ghost use Rattle.ak_history.specs.Legal.{Legal};
ghost use Rattle.ak_replay.specs.Replays.{IsNext, HasRoom, HasFailed, HasWalked, HasPassedCall, DepartsBy, Recording, no_recording, recording_of, asked_of, replied_of};

use crate::passing::{Progress, is_call, is_grant, pass};
use ak_base::number::{HelperNo, Num, RequestNo, WorkNo};
use ak_history::event::{Event, History};
use ak_labor::ask::Ask;
use ak_labor::port::{Port, PortError};
use ak_labor::work::{Arrivals, Work};
use std::alloc::Global;
use std::marker::{Brand, Model, PhantomData};
use std::mem::swap;

/// The name of the record that a port is over. It stands in the port's type, so that what a run over the port says is known of
/// that record.
pub trait Naming {
    ghost recording: { Recording };
}

impl Naming for Brand {
    ghost recording = { no_recording };
}

/// The fault of a replay: the call that was made is not the record's next one. `ReplayPort::departure` tells what is.
#[derive(Clone, Copy, PartialEq, Eq, Debug)]
pub struct Missed;

/// Where a replay leaves its record.
#[derive(Debug, Drop)]
pub enum Departure {
    /// At this place of the record, counted from 0, stands another call than the one that was made.
    Stray {
        place: usize,
        asked: Ask,
        kept: Event,
    },
    /// No call is left in the record for the one that was made.
    Short {
        asked: Ask,
    },
}

/// A port whose pool is a record: a legal history. Each call of the scheduler has to be the record's next one, and its reply is
/// the one that the history gave. Events of threads and askers are passed on the way. It never waits. Own.
///
/// Contracts see the numbers of threads and askers, the record, how many of its events were passed, the call that was missed, and
/// the waits. After a call was missed nothing more may be asked.
#[derive(Drop)]
pub struct ReplayPort<B: Naming> {
    threads: u32,
    askers: u32,
    history: History,
    at: Progress,
    due: Arrivals,
    missed: Option<Ask>,
    waits: Vec<u64>,
    of: PhantomData<B>,
}

impl<B: Naming> Model for ReplayPort<B> {
    ghost use Rattle.ak_replay.specs.Replays.{ReplayState, IsReplayOf};

    ghost Value = { ReplayState };

    ghost view = { λ p. record {
      threads = p.threads;
      askers = p.askers;
      history = p.history;
      passed = p.at.events;
      missed = p.missed;
      waits = p.waits.items;
    } };

    ghost invariant = { λ p.
        IsReplayOf B.recording p.threads p.askers p.history p.at p.due p.missed };
}

impl<B: Naming> ReplayPort<B> {
    /// The pool of the record that `B` names, of which nothing was passed. The history is legal for so many threads and askers.
    /// It takes no memory.
    pub fn make(alloc: Global, history: History, threads: u32, askers: u32) -> ReplayPort<B>
        requires legal { Legal threads askers history }
        requires named { B.recording
            ≡ record { threads = threads; askers = askers; history = history } }
        ensures { result ≡ record {
          threads = threads;
          askers = askers;
          history = history;
          passed = 0;
          missed = None;
          waits = [];
        } }
    {
        let mut due = Arrivals::make(alloc);
        due.set_left(askers);
        let _short = history.len();
        ReplayPort {
            threads,
            askers,
            history,
            at: Progress::START,
            due,
            missed: None,
            waits: Vec::new(alloc),
            of: PhantomData,
        }
    }

    /// The record, whole. It takes no memory.
    pub fn history(self) -> History
        ensures history { result ≡ self.history }
        ensures named { recording_of self ≡ B.recording }
    {
        self.history
    }

    /// Where the replay left its record, once a call was missed: `None` where none was. It takes no memory.
    pub fn departure(self) -> Option<Departure>
        ensures departs { DepartsBy self result }
        ensures named { recording_of self ≡ B.recording }
    {
        let asked = self.missed?;
        let place = self.at.events;
        let mut events = self.history.into_vec();
        if place < events.len() {
            let kept = events.swap_remove(place);
            return Some(Departure::Stray { place, asked, kept });
        }
        Some(Departure::Short { asked })
    }

    // Passes on to the next call, which is to be this one.
    fn find(&mut self, ask: Ask) -> Result<(), PortError<Missed>>
        requires { IsOpen (asked_of self.old) (replied_of self.old) }
        ensures same { self.new
            ≡ record self.old { passed = self.new.passed; missed = self.new.missed } }
        ensures walked { HasWalked self.old self.new }
        ensures found { OnOk result (IsNext self.new ask × (self.new.missed ≡ None)) }
        ensures failed { IfErr result (λ e. HasFailed ask e self.old self.new) }
    {
        pass(&self.history, &mut self.at.events, &mut self.due)?;
        if is_call(self.history.get(self.at.events), &ask) {
            return Ok(());
        }
        self.missed = Some(ask);
        Err(PortError::Fault(Missed))
    }

    // Passes the next call, which is to be this one, and no drain.
    fn expect(&mut self, ask: Ask) -> Result<(), PortError<Missed>>
        requires open { IsOpen (asked_of self.old) (replied_of self.old) }
        requires no_drain { is_drain ask ≡ false }
        requires room { HasRoom ask self.old }
        ensures same { self.new
            ≡ record self.old { passed = self.new.passed; missed = self.new.missed } }
        ensures on { self.old.passed ≤ self.new.passed }
        ensures ok { OnOk result (HasPassedCall ask self.old self.new) }
        ensures failed { IfErr result (λ e. HasFailed ask e self.old self.new) }
    {
        self.find(ask)?;
        self.at.count(&ask);
        Ok(())
    }
}

impl<B: Naming> Port for ReplayPort<B> {
    ghost use Rattle.std.specs.Prelude.{length, ◌-◌};
    ghost use Rattle.ak_replay.specs.Replays.{asked_of, replied_of};

    type Fault = Missed;

    ghost threads = { λ p. p.threads };

    ghost askers = { λ p. p.askers };

    ghost asked = { asked_of };

    ghost replies = { replied_of };

    ghost turns = { λ p. length p.history - p.passed };

    ghost waits = { λ p. p.waits };

    fn drain(&mut self, into: &mut Arrivals) -> Result<(), PortError<Missed>> {
        self.find(Ask::Drain)?;
        let left = self.due.left();
        into.clear();
        swap(into, &mut self.due);
        self.due.set_left(left);
        self.at.count(&Ask::Drain);
        Ok(())
    }

    fn submit(
        &mut self,
        work: Work,
        helper: Option<HelperNo>,
    ) -> Result<WorkNo, PortError<Missed>> {
        let id = WorkNo::new(self.at.submits);
        self.expect(Ask::Submit { id, work, helper })?;
        Ok(id)
    }

    fn helper(&mut self) -> Result<bool, PortError<Missed>> {
        let no = HelperNo::new(self.at.helpers);
        self.expect(Ask::HelperNew { no })?;
        let last = self.history.get(self.at.events - 1);
        Ok(last.is_some_and(is_grant))
    }

    fn end_helper(&mut self, no: HelperNo) -> Result<(), PortError<Missed>> {
        self.expect(Ask::HelperEnd { no })
    }

    fn answer(&mut self, no: RequestNo, num: Num) -> Result<(), PortError<Missed>> {
        self.expect(Ask::Answer { no, num })
    }

    fn close(&mut self) -> Result<(), PortError<Missed>> {
        self.expect(Ask::Close)
    }

    fn wait(&mut self) -> Result<(), PortError<Missed>> {
        if self.waits.push(self.at.calls).is_err() {
            return Err(PortError::NoMemory);
        }
        Ok(())
    }
}
