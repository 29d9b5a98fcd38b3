//! A throttle.

ghost use Rattle.std.specs.Prelude.{◌≡◌, ◌+◌, ◌-◌, ◌<◌, ◌≤◌, ◌^◌, [], ◌∷◌, ◌++◌, true, false, not, Some, None, Err, is_some, length, count_by, OnOk, OnErr, IfOk, IfErr, if◌then◌else◌};
ghost use Rattle.std.specs.List.{prefix_len};
ghost use Rattle.std.specs.VecDeque.{deque_len, deque_capacity};
ghost use Rattle.ak_base.specs.Lists.{first_of, rest_of};
ghost use Rattle.ak_throttle.specs.declared.stage.Stage.TheVariants.{Waiting, Running, Over};
ghost use Rattle.ak_throttle.specs.Throttle as plain;
ghost use Rattle.ak_throttle.specs.Seen as seen;

use crate::answer::{EnqueueRefused, Enqueued};
use crate::progress::Progress;
use crate::stage::Mark;
use ak_base::list::NoMemory;
use ak_base::number::{BodyNo, IvarNo};
use std::alloc::Global;
use std::collections::VecDeque;
use std::marker::Model;

/// A throttle: at most so many of its bodies run, and they start in the order of their numbers. Contracts see the
/// greatest number that run, the mode, whether it is dead, each body so far, waiting, running or over, the bodies that
/// were dropped, and the marks of `done_when` (after Async's `Throttle`; the two modes and the order of the steps are
/// own).
#[derive(Debug, Drop)]
pub struct Throttle<B> {
    most: u32,
    stop: bool,
    dead: bool,
    progress: Progress,
    // those that wait or, where it is dead, were dropped and not fetched
    bodies: VecDeque<B>,
    lost: u32,
    marks: VecDeque<Mark>,
}

impl<B> Model for Throttle<B> {
    ghost use Rattle.ak_throttle.specs.Throttle.{Throttle as Plain};
    ghost use Rattle.ak_throttle.specs.Seen.{throttle_of, IsKept};

    ghost Value = { Plain B };

    ghost view = { λ t. throttle_of t.most t.stop t.dead t.progress.overs t.lost t.bodies.items t.marks.items };

    ghost invariant = { λ t. IsKept t.most t.dead t.progress t.lost t.bodies.items t.marks.items };
}

impl<B> Throttle<B> {
    /// A throttle without bodies, of which at most `k` run, at least 1. Where `stop` is true a body that fails makes it
    /// dead. It takes no memory.
    pub fn make(alloc: Global, k: u32, stop: bool) -> Throttle<B>
        requires { 1 ≤ k }
        ensures { result ≡ plain.fresh_throttle k stop }
    {
        Throttle {
            most: k,
            stop,
            dead: false,
            progress: Progress::new(alloc),
            bodies: VecDeque::new(alloc),
            lost: 0,
            marks: VecDeque::new(alloc),
        }
    }

    /// Enqueues a body under the next number: how many were enqueued before, which are fewer than 4,294,967,295. `Start`
    /// exactly where fewer than the greatest number run; else it waits, last.
    ///
    /// # Errors
    ///
    /// `Dead` exactly where the throttle is dead, and else `NoMemory`. Nothing has changed, and the body comes back.
    pub fn enqueue(&mut self, body: B) -> Result<Enqueued<B>, EnqueueRefused<B>>
        requires { length self.old.bodies < 2 ^ 32 - 1 }
        ensures placed { IfOk result (λ e. e ≡ plain.placed body self.old) }
        ensures ok { OnOk result (self.new ≡ plain.enqueued body self.old) }
        ensures refused { IfErr result (λ r. r ≡ plain.refusal body self.old) }
        ensures err { OnErr result (self.new ≡ self.old) }
        ensures dead { self.old.dead ≡ true → result ≡ Err (EnqueueRefused.Dead body) }
        ensures most { plain.running_count self.new ≤ self.new.most }
    {
        if self.dead {
            Err(EnqueueRefused::Dead(body))
        } else if self.progress.running() < self.most {
            self.start_at_once(body)
        } else {
            self.wait_last(body)
        }
    }

    /// A body that runs ends. The front waiting body runs now, and comes with its number to be started: `None` exactly
    /// where none waits. It takes no memory.
    pub fn ended(&mut self, no: BodyNo) -> Option<(BodyNo, B)>
        requires { plain.stage_in no self.old ≡ Some Running }
        ensures started { result ≡ plain.started_by_end no self.old }
        ensures bodies { self.new ≡ plain.after_end no self.old }
        ensures most { plain.running_count self.new ≤ self.new.most }
    {
        self.progress.end(no);
        start_front(self.dead, &mut self.progress, &mut self.bodies)
    }

    /// A body that runs fails. Where a failure doesn't stop the throttle, this is `ended`. Where it does, the throttle
    /// is dead, the bodies that wait are dropped, and the answer is `None`. It takes no memory.
    pub fn failed(&mut self, no: BodyNo) -> Option<(BodyNo, B)>
        requires { plain.stage_in no self.old ≡ Some Running }
        ensures started { result ≡ plain.started_by_failure no self.old }
        ensures bodies { self.new ≡ plain.after_failure no self.old }
        ensures most { plain.running_count self.new ≤ self.new.most }
    {
        if self.stop {
            self.stop_at(no);
            None
        } else {
            self.ended(no)
        }
    }

    /// Whether it is dead: no body starts any more.
    pub fn is_dead(&self) -> bool
        ensures { result ≡ self.now.dead }
    {
        self.dead
    }

    /// Takes the front dropped body: `None` exactly where none is left, and nothing changes then.
    pub fn next_dropped(&mut self) -> Option<B>
        ensures front { result ≡ first_of self.old.dropped }
        ensures rest { self.new ≡ plain.dropped_taken self.old }
    {
        if self.dead {
            self.bodies.pop_front()
        } else {
            None
        }
    }

    /// Has a deferred wait until every body so far is over: `true` exactly where all are over already, and then nothing
    /// is kept.
    ///
    /// # Errors
    ///
    /// `NoMemory`. The throttle is then as before.
    pub fn done_when(&mut self, i: IvarNo) -> Result<bool, NoMemory>
        ensures done { IfOk result (λ done. done ≡ plain.is_done self.old) }
        ensures ok { OnOk result (self.new ≡ plain.awaited i self.old) }
        ensures err { OnErr result (self.new ≡ self.old) }
    {
        if self.is_done() {
            return Ok(true);
        }
        let count = self.count();
        self.marks.push_back(Mark { ivar: i, count })?;
        Ok(false)
    }

    /// Takes the oldest deferred for which every body it waits for is over: `None` exactly where there is none, and
    /// nothing changes then.
    pub fn next_done(&mut self) -> Option<IvarNo>
        ensures front { result ≡ plain.ivar_of (plain.next_satisfied self.old) }
        ensures rest { self.new ≡ plain.satisfied_taken self.old }
    {
        let over = self.over_front();
        take_reached(&mut self.marks, over)
    }

    // Starts a body at once.
    fn start_at_once(&mut self, body: B) -> Result<Enqueued<B>, EnqueueRefused<B>>
        requires numbers { length self.old.bodies < 2 ^ 32 - 1 }
        requires alive { self.old.dead ≡ false }
        requires room { plain.has_room self.old ≡ true }
        ensures placed { IfOk result (λ e. e ≡ Enqueued.Start (length self.old.bodies) body) }
        ensures ok { OnOk result (self.new ≡ record self.old {
          bodies =
              self.old.bodies ++ Running ∷ [];
        }) }
        ensures refused { IfErr result (λ r. r ≡ EnqueueRefused.NoMemory body) }
        ensures err { OnErr result (self.new ≡ self.old) }
        ensures most { plain.running_count self.new ≤ self.new.most }
    {
        if self.progress.reserve(1).is_err() {
            return Err(EnqueueRefused::NoMemory(body));
        }
        let no = BodyNo::new(self.progress.count());
        self.progress.start();
        Ok(Enqueued::Start { no, body })
    }

    // Has a body wait.
    fn wait_last(&mut self, body: B) -> Result<Enqueued<B>, EnqueueRefused<B>>
        requires numbers { length self.old.bodies < 2 ^ 32 - 1 }
        requires alive { self.old.dead ≡ false }
        requires room { plain.has_room self.old ≡ false }
        ensures placed { IfOk result (λ e. e ≡ Enqueued.Waits (length self.old.bodies)) }
        ensures ok { OnOk result (self.new ≡ record self.old {
          bodies =
              self.old.bodies ++ Waiting body ∷ [];
        }) }
        ensures refused { IfErr result (λ r. r ≡ EnqueueRefused.NoMemory body) }
        ensures err { OnErr result (self.new ≡ self.old) }
        ensures most { plain.running_count self.new ≤ self.new.most }
    {
        if self.progress.reserve(self.bodies.len() + 1).is_err() {
            return Err(EnqueueRefused::NoMemory(body));
        }
        if self.bodies.reserve(1).is_err() {
            return Err(EnqueueRefused::NoMemory(body));
        }
        let no = BodyNo::new(self.count());
        self.bodies.push_back_reserved(body);
        Ok(Enqueued::Waits { no })
    }

    // A body that runs fails, and the throttle is dead.
    fn stop_at(&mut self, no: BodyNo)
        requires { plain.stage_in no self.old ≡ Some Running }
        ensures bodies { self.new ≡ plain.killed (plain.body_over no self.old) }
        ensures most { plain.running_count self.new ≤ self.new.most }
    {
        self.progress.end(no);
        self.lost = lost(self.dead, self.lost, &self.bodies);
        self.dead = true;
    }

    // Whether every body is over.
    fn is_done(&self) -> bool
        ensures { result ≡ plain.is_done self.now }
    {
        self.progress.over_first() == self.progress.count() && (self.dead || self.bodies.is_empty())
    }

    // How many bodies are over before the first that is not.
    fn over_front(&self) -> u32
        ensures { result ≡ prefix_len plain.is_over self.now.bodies }
    {
        if self.is_done() {
            self.count()
        } else {
            self.progress.over_first()
        }
    }

    // How many bodies there are.
    fn count(&self) -> u32
        ensures { result ≡ length self.now.bodies }
    {
        if self.dead {
            self.progress.count() + self.lost
        } else {
            self.progress.count() + self.bodies.len() as u32
        }
    }
}

// The front body starts, where the throttle lives and one waits.
fn start_front<B>(
    dead: bool,
    progress: &mut Progress,
    bodies: &mut VecDeque<B>,
) -> Option<(BodyNo, B)>
    requires room { dead ≡ false → deque_len bodies.old ≤ progress.old.spare }
    requires numbers { dead ≡ false → length progress.old.overs + deque_len bodies.old < 2 ^ 32 }
    ensures front { result ≡ seen.front_started dead (length progress.old.overs) bodies.old.items }
    ensures overs { progress.new.overs ≡ seen.overs_after dead progress.old.overs bodies.old.items }
    ensures waiting { bodies.new.items ≡ seen.waiting_after dead bodies.old.items }
    ensures room { dead ≡ false → deque_len bodies.new ≤ progress.new.spare }
{
    if dead {
        return None;
    }
    let body = bodies.pop_front()?;
    let no = BodyNo::new(progress.count());
    progress.start();
    Some((no, body))
}

// How many bodies were dropped, when the throttle is dead.
fn lost<B>(dead: bool, lost: u32, bodies: &VecDeque<B>) -> u32
    requires { dead ≡ false → deque_len bodies.now < 2 ^ 32 }
    ensures { result ≡ seen.lost_after dead lost bodies.now.items }
{
    if dead { lost } else { bodies.len() as u32 }
}

// Takes the oldest mark, where it reaches no further than so many bodies.
fn take_reached(marks: &mut VecDeque<Mark>, over: u32) -> Option<IvarNo>
    ensures front { result ≡ seen.reached over marks.old.items }
    ensures rest { marks.new.items ≡ seen.without_reached over marks.old.items }
{
    if is_reached(marks, over) {
        marks.pop_front().map(|mark| mark.ivar)
    } else {
        None
    }
}

// Whether there is a mark, and the oldest reaches no further than so many bodies.
fn is_reached(marks: &VecDeque<Mark>, over: u32) -> bool
    ensures { result ≡ is_some (seen.reached over marks.now.items) }
{
    match marks.front() {
        Some(mark) => mark.count <= over,
        None => false,
    }
}
