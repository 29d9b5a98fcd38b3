//! Bodies of throttles: to start one, and what ends one or makes it fail.

ghost use Rattle.std.specs.Prelude.{◌≡◌, ◌<◌, length, Some, OnOk, IfSome};
ghost use Rattle.std.specs.Option.{option_map};
ghost use Rattle.ak_cells.specs.Names.{name_in};
ghost use Rattle.ak_throttle.specs.declared.stage.Stage.TheVariants.{Running};
ghost use Rattle.ak_throttle.specs.Throttle.{stage_in, started_by_end, after_end, started_by_failure, after_failure, dropped_taken};
ghost use Rattle.ak_machine.specs.Mapped.{values_mapped, ret_mapped, handler_mapped, body_mapped, started_mapped};
ghost use Rattle.ak_machine.specs.Monitors.{called_under};
ghost use Rattle.ak_machine.specs.Throttles.{throttle_at, started_of, started_at as body_at, with_started, with_fate, body_called, front_called, body_left, body_ended, body_waits, body_acts, drops_raised, body_lost, body_failed};
ghost use Rattle.ak_state.specs.Seen.{doing};
ghost use Rattle.ak_state.specs.Fits.{FitsSome};
ghost use Rattle.ak_state.specs.Bodies.{stepped, front_mapped, undecided, is_failing, first_dropped};

use crate::parts::Parts;
use ak_base::list::NoMemory;
use ak_base::number::{BodyNo, Ctx, IvarNo, Num, ThrottleNo};
use ak_frames::frame::{BodyId, Frame, Ret, Task};
use ak_frames::value::Vals;
use ak_machine::held::{Body, Callback, Fate, Handler, Started};
use ak_throttle::law::dropped_one_at_a_time_are_all_that_were_dropped;
use ak_trace::entry::Entry;

/// The error of a body that a throttle dropped.
const DROPPED: Num = -6;

impl Parts {
    /// A number comes to a body: it decides an undecided one, fills its result and ends it.
    pub fn end_body(&mut self, b: &BodyId, num: Num) -> Result<(), NoMemory>
        requires { FitsSome self.old.plain }
        ensures { OnOk result (self.new ≡ doing (body_ended b.now num) self.old) }
    {
        if let Some(body) = self.undecided(b) {
            self.set_fate(b, Fate::Over);
            self.check_drawn(body.to);
            self.fill(body.to, num)?;
            self.leave_body(b)?;
            self.fill_marks(b.throttle)?;
        }
        Ok(())
    }

    /// A deferred comes to a body: an undecided one waits for it, in the context of its `enqueue`.
    pub fn await_body(&mut self, b: &BodyId, i: IvarNo) -> Result<(), NoMemory>
        requires { i < length self.old.plain.cells.ivars }
        ensures { OnOk result (self.new
            ≡ doing (body_waits b.now (name_in self.old.names i)) self.old) }
    {
        if let Some(body) = self.undecided(b) {
            self.register(i, body.ctx, Frame::BodyDone { body: *b })?;
        }
        Ok(())
    }

    /// An error comes to a body: it makes an undecided one fail in a job of its own, and else is only noted.
    pub fn tell_body(&mut self, b: &BodyId, num: Num) -> Result<(), NoMemory>
        ensures { OnOk result (self.new ≡ doing (body_acts b.now num) self.old) }
    {
        match self.undecided(b) {
            Some(body) => {
                self.set_fate(b, Fate::Failing);
                let frame = Frame::BodyFailed { body: *b, num };
                self.enqueue(body.ctx, Task { frame, value: None })
            }
            None => self.note(Entry::Rest { num }),
        }
    }

    /// A body that an error decided fails, but for the error that is sent on.
    pub fn fail_body(&mut self, b: &BodyId) -> Result<(), NoMemory>
        requires { FitsSome self.old.plain }
        ensures { OnOk result (self.new ≡ doing (body_failed b.now) self.old) }
    {
        if self.is_failing(b) {
            self.set_fate(b, Fate::Over);
            self.lose_body(b)?;
        }
        Ok(())
    }

    /// A body starts: it is called in a fresh detached monitor that has it as its handler.
    pub fn start_body(&mut self, b: &BodyId, body: Body) -> Result<(), NoMemory>
        requires throttle { b.now.throttle < length self.old.plain.started }
        requires monitor { body.ctx.mon < length self.old.plain.monitors }
        ensures { OnOk result (self.new
            ≡ doing (body_called b.now (body_mapped (name_in self.old.names) body)) self.old) }
    {
        let Body { ctx, call } = body;
        let Callback { proc, vals, to } = call;
        self.note_start(
            b.throttle,
            Started {
                fate: Fate::Undecided,
                ctx,
                to,
            },
        )?;
        self.call_under(Handler::OfBody(*b), &ctx, proc, vals, Ret::ThrottleBody(*b))
    }

    /// A call in a fresh detached monitor below the context's, which has this handler.
    fn call_under(
        &mut self,
        handler: Handler,
        ctx: &Ctx,
        proc: usize,
        vals: Vals,
        ret: Ret,
    ) -> Result<(), NoMemory>
        requires { ctx.now.mon < length self.old.plain.monitors }
        ensures { OnOk result (self.new ≡ doing
            (called_under (handler_mapped (name_in self.old.names) handler) ctx.now proc
            (values_mapped (name_in self.old.names) vals)
            (ret_mapped (name_in self.old.names) ret)) self.old) }
    {
        let mon = self.monitor(ctx.mon)?;
        self.detach(mon)?;
        self.on_error(mon, *ctx, handler)?;
        let frame = Frame::Call { proc, vals, ret };
        self.enqueue(Ctx { mon, ..*ctx }, Task { frame, value: None })
    }

    /// One more body of a throttle has started.
    fn note_start(&mut self, t: ThrottleNo, body: Started) -> Result<(), NoMemory>
        requires { t < length self.old.plain.started }
        ensures { OnOk result (self.new ≡ doing
            (with_started t (started_mapped (name_in self.old.names) body)) self.old) }
    {
        self.lists.throttles.start(t, body)?;
        Ok(())
    }

    /// A body, where it is undecided.
    fn undecided(&self, b: &BodyId) -> Option<Started>
        ensures { option_map (started_mapped (name_in self.now.names)) result
            ≡ undecided b.now self.now.plain }
    {
        let body = self.lists.throttles.body(*b)?;
        match body.fate {
            Fate::Undecided => Some(body),
            Fate::Failing => None,
            Fate::Over => None,
        }
    }

    /// Whether an error decided a body, and the job in which it fails has not run.
    fn is_failing(&self, b: &BodyId) -> bool
        ensures { result ≡ is_failing (body_at b.now self.now.plain).fate }
    {
        match self.lists.throttles.body(*b) {
            Some(body) => matches!(body.fate, Fate::Failing),
            None => false,
        }
    }

    /// A body that has started came so far.
    fn set_fate(&mut self, b: &BodyId, fate: Fate)
        requires throttle { b.now.throttle < length self.old.plain.started }
        requires started { b.now.no < length (started_of b.now.throttle self.old.plain) }
        ensures { self.new ≡ doing (with_fate fate b.now) self.old }
    {
        self.lists.throttles.set_fate(*b, fate);
    }

    /// A throttle's front body starts, where there is one.
    fn start_front(&mut self, t: ThrottleNo, front: Option<(BodyNo, Body)>) -> Result<(), NoMemory>
        requires throttle { t < length self.old.plain.started }
        requires monitor { IfSome front (λ x. x.1.ctx.mon < length self.old.plain.monitors) }
        ensures { OnOk result (self.new ≡ doing
            (front_called t (option_map (front_mapped (name_in self.old.names)) front))
            self.old) }
    {
        match front {
            Some((no, body)) => {
                let id = BodyId { throttle: t, no };
                self.start_body(&id, body)
            }
            None => Ok(()),
        }
    }

    /// A body runs no longer, and the first that waits starts.
    fn leave_body(&mut self, b: &BodyId) -> Result<(), NoMemory>
        requires runs { stage_in b.now.no (throttle_at b.now.throttle self.old.plain) ≡ Some Running }
        requires throttle { b.now.throttle < length self.old.plain.throttles }
        requires fits { FitsSome self.old.plain }
        ensures { OnOk result (self.new ≡ doing (body_left b.now) self.old) }
    {
        let front = self.take_ended(b);
        self.start_front(b.throttle, front)?;
        Ok(())
    }

    /// A body that failed runs no longer, and either the first that waits starts, or the throttle is dead and the bodies that
    /// wait are dropped.
    fn lose_body(&mut self, b: &BodyId) -> Result<(), NoMemory>
        requires runs { stage_in b.now.no (throttle_at b.now.throttle self.old.plain) ≡ Some Running }
        requires throttle { b.now.throttle < length self.old.plain.throttles }
        requires fits { FitsSome self.old.plain }
        requires over { (body_at b.now self.old.plain).fate ≡ Fate.Over }
        ensures { OnOk result (self.new ≡ doing (body_lost b.now) self.old) }
    {
        let front = self.take_failed(b);
        self.start_front(b.throttle, front)?;
        self.raise_drops(b.throttle)?;
        self.fill_marks(b.throttle)?;
        Ok(())
    }

    /// A body ends, and the first that waits comes with its number, where one does.
    fn take_ended(&mut self, b: &BodyId) -> Option<(BodyNo, Body)>
        requires runs { stage_in b.now.no (throttle_at b.now.throttle self.old.plain) ≡ Some Running }
        requires throttle { b.now.throttle < length self.old.plain.throttles }
        ensures front { option_map (front_mapped (name_in self.old.names)) result
            ≡ started_by_end b.now.no (throttle_at b.now.throttle self.old.plain) }
        ensures rest { self.new ≡ doing (stepped (after_end b.now.no) b.now.throttle) self.old }
    {
        self.lists.throttles.end(*b)
    }

    /// A body fails, and the first that waits comes with its number, where one starts.
    fn take_failed(&mut self, b: &BodyId) -> Option<(BodyNo, Body)>
        requires runs { stage_in b.now.no (throttle_at b.now.throttle self.old.plain) ≡ Some Running }
        requires throttle { b.now.throttle < length self.old.plain.throttles }
        ensures front { option_map (front_mapped (name_in self.old.names)) result
            ≡ started_by_failure b.now.no (throttle_at b.now.throttle self.old.plain) }
        ensures rest { self.new ≡ doing (stepped (after_failure b.now.no) b.now.throttle) self.old }
    {
        self.lists.throttles.fail(*b)
    }

    /// An error is raised for every dropped body where it was enqueued, front first.
    fn raise_drops(&mut self, t: ThrottleNo) -> Result<(), NoMemory>
        requires { t < length self.old.plain.throttles }
        ensures { OnOk result (self.new ≡ doing (drops_raised t) self.old) }
    {
        // For the proof alone: calls that take one body each take all that were dropped.
        dropped_one_at_a_time_are_all_that_were_dropped::<Body>();
        while let Some(body) = self.next_dropped(t) {
            let frame = Frame::Raise { num: DROPPED };
            self.enqueue(body.ctx, Task { frame, value: None })?;
        }
        Ok(())
    }

    /// Takes the front dropped body: `None` exactly where none is left.
    fn next_dropped(&mut self, t: ThrottleNo) -> Option<Body>
        requires { t < length self.old.plain.throttles }
        ensures first { option_map (body_mapped (name_in self.old.names)) result
            ≡ first_dropped t self.old.plain }
        ensures rest { self.new ≡ doing (stepped dropped_taken t) self.old }
    {
        self.lists.throttles.next_dropped(t)
    }
}
