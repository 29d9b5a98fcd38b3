//! Throttles: to make one, to enqueue a body, and what waits for the end of bodies.

ghost use Rattle.std.specs.Prelude.{◌≡◌, ◌-◌, ◌<◌, ◌≤◌, ◌^◌, false, length, OnOk, IfOk};
ghost use Rattle.std.specs.Option.{option_map};
ghost use Rattle.ak_cells.specs.Names.{name_in};
ghost use Rattle.ak_throttle.specs.Throttle.{placed, enqueued, awaited, is_done, satisfied_taken};
ghost use Rattle.ak_machine.specs.Mapped.{values_mapped, body_mapped};
ghost use Rattle.ak_machine.specs.Throttles.{throttle_at, with_throttle, body_enqueued, done_awaited, marks_filled};
ghost use Rattle.ak_state.specs.Seen.{doing};
ghost use Rattle.ak_state.specs.Fits.{FitsSome};
ghost use Rattle.ak_state.specs.Bodies.{stepped, body_begun, placed_mapped, first_done};

use crate::parts::Parts;
use ak_base::list::NoMemory;
use ak_base::number::{Ctx, IvarNo, ThrottleNo};
use ak_frames::frame::BodyId;
use ak_frames::value::Vals;
use ak_machine::held::{Body, Callback};
use ak_throttle::answer::Enqueued;
use ak_throttle::law::done_one_at_a_time_are_all_that_are_done;

impl Parts {
    /// A fresh throttle of which at most `most` bodies run, and its number.
    pub fn throttle(&mut self, most: u32, stop: bool) -> Result<ThrottleNo, NoMemory>
        requires { 1 ≤ most }
        ensures number { IfOk result (λ t. t ≡ length self.old.plain.throttles) }
        ensures fresh { OnOk result (self.new ≡ doing (with_throttle most stop) self.old) }
    {
        let t = self.lists.throttles.begin(most, stop)?;
        Ok(t)
    }

    /// Whether a throttle is dead.
    pub fn is_dead(&self, t: ThrottleNo) -> bool
        requires { t < length self.now.plain.throttles }
        ensures { result ≡ (throttle_at t self.now.plain).dead }
    {
        self.lists.throttles.is_dead(t)
    }

    /// A body that calls a procedure is enqueued for a fresh deferred, in a throttle that is not dead.
    pub fn begin_body(
        &mut self,
        t: ThrottleNo,
        ctx: &Ctx,
        proc: usize,
        vals: Vals,
    ) -> Result<IvarNo, NoMemory>
        requires throttle { t < length self.old.plain.throttles }
        requires alive { (throttle_at t self.old.plain).dead ≡ false }
        requires monitor { ctx.now.mon < length self.old.plain.monitors }
        requires fits { FitsSome self.old.plain }
        ensures number { IfOk result (λ i. i ≡ length self.old.plain.cells.ivars) }
        ensures own { IfOk result (λ i. name_in self.old.names i ≡ i) }
        ensures begun { OnOk result (self.new ≡ doing
            (body_begun t ctx.now proc (values_mapped (name_in self.old.names) vals)) self.old) }
    {
        let to = self.fresh()?;
        let call = Callback { proc, vals, to };
        self.enqueue_body(t, Body { ctx: *ctx, call })?;
        Ok(to)
    }

    /// A deferred waits until every body so far is over, or is filled with 0 at once where all are.
    pub fn await_bodies(&mut self, t: ThrottleNo, i: IvarNo) -> Result<(), NoMemory>
        requires throttle { t < length self.old.plain.throttles }
        requires drawn { i < length self.old.plain.cells.ivars }
        ensures { OnOk result (self.new
            ≡ doing (done_awaited t (name_in self.old.names i)) self.old) }
    {
        if self.done_when(t, i)? {
            self.fill(i, 0)?;
        }
        Ok(())
    }

    /// Each deferred whose bodies are over is filled with 0, the oldest first.
    pub fn fill_marks(&mut self, t: ThrottleNo) -> Result<(), NoMemory>
        requires throttle { t < length self.old.plain.throttles }
        requires fits { FitsSome self.old.plain }
        ensures { OnOk result (self.new ≡ doing (marks_filled t) self.old) }
    {
        // For the proof alone: calls that take one deferred each take all whose bodies are over.
        done_one_at_a_time_are_all_that_are_done::<Body>();
        while let Some(i) = self.next_done(t) {
            self.check_drawn(i);
            self.fill(i, 0)?;
        }
        Ok(())
    }

    /// A body is enqueued: it starts at once where fewer than the most run.
    fn enqueue_body(&mut self, t: ThrottleNo, body: Body) -> Result<(), NoMemory>
        requires throttle { t < length self.old.plain.throttles }
        requires alive { (throttle_at t self.old.plain).dead ≡ false }
        requires few { length (throttle_at t self.old.plain).bodies < 2 ^ 32 - 1 }
        requires monitor { body.ctx.mon < length self.old.plain.monitors }
        requires paired { t < length self.old.plain.started }
        ensures { OnOk result (self.new
            ≡ doing (body_enqueued t (body_mapped (name_in self.old.names) body)) self.old) }
    {
        match self.place_body(t, body)? {
            Enqueued::Start { no, body } => {
                let id = BodyId { throttle: t, no };
                self.start_body(&id, body)
            }
            Enqueued::Waits { .. } => Ok(()),
        }
    }

    /// A body goes to a throttle that is not dead, and comes back where it starts.
    fn place_body(&mut self, t: ThrottleNo, body: Body) -> Result<Enqueued<Body>, NoMemory>
        requires throttle { t < length self.old.plain.throttles }
        requires alive { (throttle_at t self.old.plain).dead ≡ false }
        requires few { length (throttle_at t self.old.plain).bodies < 2 ^ 32 - 1 }
        ensures placed { IfOk result (λ e. placed_mapped (name_in self.old.names) e
            ≡ placed (body_mapped (name_in self.old.names) body) (throttle_at t self.old.plain)) }
        ensures enqueued { OnOk result (self.new ≡ doing
            (stepped (enqueued (body_mapped (name_in self.old.names) body)) t) self.old) }
    {
        let placed = self.lists.throttles.enqueue(t, body)?;
        Ok(placed)
    }

    /// A deferred waits until every body so far is over; the answer is whether all are.
    fn done_when(&mut self, t: ThrottleNo, i: IvarNo) -> Result<bool, NoMemory>
        requires { t < length self.old.plain.throttles }
        ensures done { IfOk result (λ done. done ≡ is_done (throttle_at t self.old.plain)) }
        ensures awaited { OnOk result (self.new
            ≡ doing (stepped (awaited (name_in self.old.names i)) t) self.old) }
    {
        let done = self.lists.throttles.done_when(t, i)?;
        Ok(done)
    }

    /// Takes the oldest deferred whose bodies are over: `None` exactly where there is none.
    fn next_done(&mut self, t: ThrottleNo) -> Option<IvarNo>
        requires { t < length self.old.plain.throttles }
        ensures first { option_map (name_in self.old.names) result
            ≡ first_done t self.old.plain }
        ensures rest { self.new ≡ doing (stepped satisfied_taken t) self.old }
    {
        self.lists.throttles.next_done(t)
    }
}
