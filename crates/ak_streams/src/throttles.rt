//! The throttles of a run.

ghost use Rattle.std.specs.Prelude.{◌≡◌, ◌-◌, ◌<◌, ◌≤◌, ◌^◌, length, false, Some, OnOk, IfOk};
ghost use Rattle.ak_base.specs.Lists.{first_of};
ghost use Rattle.ak_throttle.specs.declared.stage.Stage.TheVariants.{Running};
ghost use Rattle.ak_throttle.specs.Throttle as plain;
ghost use Rattle.ak_streams.specs.Throttles.{no_throttling, with_fresh, throttle_in, with_throttle_in, body_in, with_started_in, started_in, with_fate_in};

use crate::bodies::Bodies;
use ak_base::list::NoMemory;
use ak_base::number::{BodyNo, IvarNo, ThrottleNo};
use ak_frames::frame::BodyId;
use ak_machine::held::{Body, Fate, Started};
use ak_throttle::answer::{EnqueueRefused, Enqueued};
use ak_throttle::throttle::Throttle;
use std::alloc::{AllocError, Global};
use std::marker::Model;

/// The throttles of a run. Contracts see the list of them, and of each the bodies that have started. Own.
#[derive(Debug, Drop)]
pub struct Throttles {
    throttles: Vec<Throttle<Body>>,
    started: Vec<Bodies>,
    alloc: Global,
}

impl Model for Throttles {
    ghost use Rattle.ak_streams.specs.Throttles.{Throttling};

    ghost Value = { Throttling };

    ghost view = { λ t. record { throttles = t.throttles.items; started = t.started.items } };
}

impl Throttles {
    /// No throttle. It takes no memory.
    pub fn make(alloc: Global) -> Throttles
        ensures { result ≡ no_throttling }
    {
        Throttles {
            throttles: Vec::new(alloc),
            started: Vec::new(alloc),
            alloc,
        }
    }

    /// A fresh throttle of which at most `k` bodies run, at least 1, and its number: how many throttles there were. Where
    /// `stop` is true a body that fails stops it.
    ///
    /// # Errors
    ///
    /// `NoMemory`, also where no number of 32 bits is left.
    pub fn begin(&mut self, k: u32, stop: bool) -> Result<ThrottleNo, NoMemory>
        requires { 1 ≤ k }
        ensures number { IfOk result (λ t. t ≡ length self.old.throttles) }
        ensures fresh { OnOk result (self.new ≡ with_fresh k stop self.old) }
    {
        if self.throttles.len() >= u32::MAX as usize {
            return Err(AllocError);
        }
        let t = ThrottleNo::new(self.throttles.len() as u32);
        self.throttles.push(Throttle::make(self.alloc, k, stop))?;
        self.started.push(Bodies::make(self.alloc))?;
        Ok(t)
    }

    /// Whether a throttle that exists is dead.
    pub fn is_dead(&self, t: ThrottleNo) -> bool
        requires { t < length self.now.throttles }
        ensures { result ≡ (throttle_in t self.now).dead }
    {
        self.throttles[t.number() as usize].is_dead()
    }

    /// Enqueues a body in a throttle that exists and is not dead: it starts where fewer than the most run, and else waits,
    /// last.
    ///
    /// # Errors
    ///
    /// `NoMemory`.
    pub fn enqueue(&mut self, t: ThrottleNo, body: Body) -> Result<Enqueued<Body>, NoMemory>
        requires exists { t < length self.old.throttles }
        requires alive { (throttle_in t self.old).dead ≡ false }
        requires few { length (throttle_in t self.old).bodies < 2 ^ 32 - 1 }
        ensures placed { IfOk result (λ e. e ≡ plain.placed body (throttle_in t self.old)) }
        ensures enqueued { OnOk result (self.new
            ≡ with_throttle_in t (plain.enqueued body (throttle_in t self.old)) self.old) }
    {
        match self.throttles[t.number() as usize].enqueue(body) {
            Ok(placed) => Ok(placed),
            Err(EnqueueRefused::NoMemory(_)) => Err(AllocError),
            Err(EnqueueRefused::Dead(_)) => unreachable!(),
        }
    }

    /// A body that runs ends: the front waiting body runs now, and comes with its number.
    pub fn end(&mut self, b: BodyId) -> Option<(BodyNo, Body)>
        requires exists { b.throttle < length self.old.throttles }
        requires runs { plain.stage_in b.no (throttle_in b.throttle self.old) ≡ Some Running }
        ensures front { result ≡ plain.started_by_end b.no (throttle_in b.throttle self.old) }
        ensures ended { self.new ≡ with_throttle_in b.throttle
            (plain.after_end b.no (throttle_in b.throttle self.old)) self.old }
    {
        self.throttles[b.throttle.number() as usize].ended(b.no)
    }

    /// A body that runs fails: this is its end, or stops the throttle.
    pub fn fail(&mut self, b: BodyId) -> Option<(BodyNo, Body)>
        requires exists { b.throttle < length self.old.throttles }
        requires runs { plain.stage_in b.no (throttle_in b.throttle self.old) ≡ Some Running }
        ensures front { result ≡ plain.started_by_failure b.no (throttle_in b.throttle self.old) }
        ensures failed { self.new ≡ with_throttle_in b.throttle
            (plain.after_failure b.no (throttle_in b.throttle self.old)) self.old }
    {
        self.throttles[b.throttle.number() as usize].failed(b.no)
    }

    /// Takes the front dropped body of a throttle that exists: `None` exactly where none is left.
    pub fn next_dropped(&mut self, t: ThrottleNo) -> Option<Body>
        requires { t < length self.old.throttles }
        ensures front { result ≡ first_of (throttle_in t self.old).dropped }
        ensures rest { self.new
            ≡ with_throttle_in t (plain.dropped_taken (throttle_in t self.old)) self.old }
    {
        self.throttles[t.number() as usize].next_dropped()
    }

    /// Has a deferred wait until every body so far of a throttle that exists is over: `true` exactly where all are over
    /// already.
    ///
    /// # Errors
    ///
    /// `NoMemory`.
    pub fn done_when(&mut self, t: ThrottleNo, i: IvarNo) -> Result<bool, NoMemory>
        requires { t < length self.old.throttles }
        ensures done { IfOk result (λ done. done ≡ plain.is_done (throttle_in t self.old)) }
        ensures awaited { OnOk result (self.new
            ≡ with_throttle_in t (plain.awaited i (throttle_in t self.old)) self.old) }
    {
        self.throttles[t.number() as usize].done_when(i)
    }

    /// Takes the oldest deferred of a throttle that exists for which every body is over: `None` exactly where there is none.
    pub fn next_done(&mut self, t: ThrottleNo) -> Option<IvarNo>
        requires { t < length self.old.throttles }
        ensures front { result ≡ plain.ivar_of (plain.next_satisfied (throttle_in t self.old)) }
        ensures rest { self.new
            ≡ with_throttle_in t (plain.satisfied_taken (throttle_in t self.old)) self.old }
    {
        self.throttles[t.number() as usize].next_done()
    }

    /// One more body of a throttle that exists has started.
    ///
    /// # Errors
    ///
    /// `NoMemory`.
    pub fn start(&mut self, t: ThrottleNo, body: Started) -> Result<(), NoMemory>
        requires { t < length self.old.started }
        ensures { OnOk result (self.new ≡ with_started_in t body self.old) }
    {
        self.started[t.number() as usize].push(body)?;
        Ok(())
    }

    /// A body: `None` exactly where it has not started.
    pub fn body(&self, b: BodyId) -> Option<Started>
        ensures { result ≡ body_in b self.now }
    {
        match self.started.get(b.throttle.number() as usize) {
            Some(bodies) => bodies.get(b.no),
            None => None,
        }
    }

    /// A body that has started came so far.
    pub fn set_fate(&mut self, b: BodyId, fate: Fate)
        requires exists { b.throttle < length self.old.started }
        requires started { b.no < length (started_in b.throttle self.old) }
        ensures { self.new ≡ with_fate_in fate b self.old }
    {
        self.started[b.throttle.number() as usize].set_fate(b.no, fate);
    }
}
