//! What an error does.

ghost use Rattle.std.specs.Prelude.{◌≡◌, ◌≢◌, ◌∷◌, ◌<◌, length, map, IfOk, IfSome, OnOk, Some};
ghost use Rattle.ak_cells.specs.Names.{name_in};
ghost use Rattle.ak_monitor.specs.Monitors.{path, catcher as catcher_of};
ghost use Rattle.ak_machine.specs.State.{State};
ghost use Rattle.ak_machine.specs.Mapped.{handled_mapped};
ghost use Rattle.ak_machine.specs.Errors.{send as send_of, next_errors_filled, handled};
ghost use Rattle.ak_state.specs.Seen.{doing};
ghost use Rattle.ak_state.specs.Fits.{FitsSome};
ghost use Rattle.ak_state.specs.Errors.{path_filled, handlers_of, handler_of, acted_at, acted_by, reacted, TellsDrawn, all_filled, AreDrawn, after_is, Ends};

use crate::local::numbered;
use crate::parts::Parts;
use ak_base::list::NoMemory;
use ak_base::number::{Ctx, GroupNo, IvarNo, MonNo, Num};
use ak_frames::frame::{BodyId, Frame, Ret, Task};
use ak_machine::flow::Flow;
use ak_machine::held::Handler;
use ak_trace::entry::{Ending, Entry};
use std::collections::VecDeque;

/// What a handler does with an error: it calls a procedure in a job, or tells a guard or a body.
#[derive(Debug, Drop)]
pub enum Reaction {
    Calls { ctx: Ctx, task: Task },
    Tells(GroupNo),
    TellsBody(BodyId),
}

impl Parts {
    /// An error goes up the path of a monitor to the first that is detached, which catches it; where none is, the run
    /// ends.
    pub fn send(&mut self, mon: MonNo, num: Num) -> Result<Flow, NoMemory>
        requires monitor { mon < length self.old.plain.monitors }
        requires fits { FitsSome self.old.plain }
        ensures sent { IfOk result (λ flow. send_of mon num self.old.plain
            ≡ after_is flow self.new.plain) }
        ensures names { OnOk result (self.new.names ≡ self.old.names) }
        ensures told { IfOk result (λ flow. Ends flow self.new.plain.trace) }
    {
        let caught = self.catcher(mon);
        self.note(Entry::Error { num, mon })?;
        match caught {
            Some(c) => {
                self.note(Entry::Caught { mon: c })?;
                self.fill_path(mon, c, num)?;
                self.handle(c, num)?;
                Ok(Flow::On)
            }
            None => {
                self.note(Entry::Unhandled { num })?;
                self.note(Entry::End {
                    why: Ending::Unhandled,
                })?;
                Ok(Flow::Unhandled(num))
            }
        }
    }

    /// The monitor that catches what is raised in one: `None` exactly where none of its path is detached.
    fn catcher(&self, mon: MonNo) -> Option<MonNo>
        requires { mon < length self.now.plain.monitors }
        ensures catcher { result ≡ catcher_of self.now.plain.monitors mon }
        ensures drawn { IfSome result (λ c. c < length self.now.plain.monitors) }
    {
        self.lists.monitors.route(mon).caught
    }

    /// The monitor above one that lies below the catcher.
    fn above(&self, mon: MonNo, c: MonNo) -> MonNo
        requires monitor { mon < length self.now.plain.monitors }
        requires below { mon ≢ c }
        requires caught { catcher_of self.now.plain.monitors mon ≡ Some c }
        ensures older { result < mon }
        ensures path { path self.now.plain.monitors mon
            ≡ mon ∷ path self.now.plain.monitors result }
        ensures caught { catcher_of self.now.plain.monitors result ≡ Some c }
    {
        match self.lists.monitors.parent(mon) {
            Some(parent) => parent,
            None => unreachable!(),
        }
    }

    /// The next errors of the path are filled, from a monitor up to the one that caught the error.
    fn fill_path(&mut self, mon: MonNo, c: MonNo, num: Num) -> Result<(), NoMemory>
        requires monitor { mon < length self.old.plain.monitors }
        requires catcher { c < length self.old.plain.monitors }
        requires caught { catcher_of self.old.plain.monitors mon ≡ Some c }
        requires fits { FitsSome self.old.plain }
        ensures { OnOk result (self.new ≡ doing (path_filled mon c num) self.old) }
    {
        let mut at = mon;
        while at.number() != c.number() {
            let above = self.above(at, c);
            self.fill_next_errors(at, num)?;
            at = above;
        }
        self.fill_next_errors(c, num)?;
        Ok(())
    }

    /// The deferreds that wait for the next error of a monitor are filled, the oldest first, and wait no more.
    fn fill_next_errors(&mut self, mon: MonNo, num: Num) -> Result<(), NoMemory>
        requires monitor { mon < length self.old.plain.monitors }
        requires fits { FitsSome self.old.plain }
        ensures { OnOk result (self.new ≡ doing (λ s. next_errors_filled num s mon) self.old) }
    {
        let waiting = self.lists.monitors.take_next_errors(mon);
        self.fill_all(waiting, num)?;
        Ok(())
    }

    /// Each of these deferreds is filled, where it is empty.
    fn fill_all(&mut self, waiting: VecDeque<IvarNo>, num: Num) -> Result<(), NoMemory>
        requires { AreDrawn (map (name_in self.old.names) waiting.items) self.old.plain }
        ensures { OnOk result (self.new
            ≡ doing (all_filled num (map (name_in self.old.names) waiting.items)) self.old) }
    {
        let mut waiting = waiting;
        while let Some(i) = waiting.pop_front() {
            self.check_drawn(i);
            self.fill(i, num)?;
        }
        Ok(())
    }

    /// The handlers of a monitor act, the oldest first.
    fn handle(&mut self, c: MonNo, num: Num) -> Result<(), NoMemory>
        requires monitor { c < length self.old.plain.monitors }
        requires fits { FitsSome self.old.plain }
        ensures { OnOk result (self.new ≡ doing (handled c num) self.old) }
    {
        let count = self.handler_count(c);
        for k in 0..count {
            self.act(c, k, num)?;
        }
        Ok(())
    }

    /// How many handlers a monitor has.
    fn handler_count(&self, c: MonNo) -> usize
        requires { c < length self.now.plain.monitors }
        ensures { result ≡ length (handlers_of c self.now.plain) }
    {
        self.lists.monitors.handlers(c).len()
    }

    /// One handler of a monitor acts, in the context of its registration.
    fn act(&mut self, c: MonNo, k: usize, num: Num) -> Result<(), NoMemory>
        requires monitor { c < length self.old.plain.monitors }
        requires handler { k < length (handlers_of c self.old.plain) }
        requires fits { FitsSome self.old.plain }
        ensures { OnOk result (self.new ≡ doing (acted_at c k num) self.old) }
    {
        match self.reaction(c, k, num)? {
            Reaction::Calls { ctx, task } => self.enqueue(ctx, task),
            Reaction::Tells(guard) => self.tell_guard(guard, num),
            Reaction::TellsBody(body) => self.tell_body(&body, num),
        }
    }

    /// One handler of a monitor, with the context of its registration.
    fn handler(&self, c: MonNo, k: usize) -> &(Ctx, Handler)
        requires monitor { c < length self.now.plain.monitors }
        requires handler { k < length (handlers_of c self.now.plain) }
        ensures { handler_of c k self.now.plain
            ≡ Some (handled_mapped (name_in self.now.names) result.now) }
    {
        &self.lists.monitors.handlers(c)[k]
    }

    /// What one handler of a monitor does with an error.
    fn reaction(&self, c: MonNo, k: usize, num: Num) -> Result<Reaction, NoMemory>
        requires monitor { c < length self.now.plain.monitors }
        requires handler { k < length (handlers_of c self.now.plain) }
        requires fits { FitsSome self.now.plain }
        ensures acts { IfOk result (λ reaction. (s : State)
            → reacted (name_in self.now.names) num reaction s
            ≡ acted_by num (handler_of c k self.now.plain) s) }
        ensures guard { IfOk result (λ reaction. TellsDrawn reaction self.now.plain) }
    {
        let handler = self.handler(c, k);
        match &handler.1 {
            Handler::OnError { proc, vals } => {
                let vals = numbered(self.alloc, num, vals)?;
                let frame = Frame::Call {
                    proc: *proc,
                    vals,
                    ret: Ret::Drop,
                };
                Ok(Reaction::Calls {
                    ctx: handler.0,
                    task: Task { frame, value: None },
                })
            }
            Handler::OfGuard(guard) => Ok(Reaction::Tells(*guard)),
            Handler::OfBody(body) => Ok(Reaction::TellsBody(*body)),
        }
    }
}
