//! Ivars, and the jobs that wait: to enqueue, to draw, to register, to fill, to connect.

ghost use Rattle.std.specs.Prelude.{◌≡◌, ◌<◌, ◌-◌, ◌^◌, [], ◌∷◌, ◌++◌, length, fold, None, OnOk, IfOk, false, true};
ghost use Rattle.ak_cells.specs.Names.{name_in};
ghost use Rattle.ak_machine.specs.State.{State};
ghost use Rattle.ak_machine.specs.Deferred.{enqueue, with_ivar, number_at as full_with, is_empty, fill, register, connect};
ghost use Rattle.ak_machine.specs.Mapped.{task_mapped, frame_mapped};
ghost use Rattle.ak_state.specs.Seen.{doing, enqueued_for, with_jobs};
ghost use Rattle.ak_state.specs.Groups.{waits_under};

use crate::cells;
use crate::parts::Parts;
use ak_base::list::NoMemory;
use ak_base::number::{Ctx, IvarNo, Num, RegNo};
use ak_cells::cells::Cells;
use ak_cells::registration::{Connected, Placed, Woken};
use ak_frames::frame::{Frame, Task};
use ak_rings::rings::Rings;
use ak_trace::entry::{Entry, Trace};

impl Parts {
    /// A job for the task, last in the queue of its priority.
    pub fn enqueue(&mut self, ctx: Ctx, task: Task) -> Result<(), NoMemory>
        ensures { OnOk result (self.new ≡ doing
            (enqueue ctx (task_mapped (name_in self.old.names) task)) self.old) }
    {
        push_job(&mut self.queues, &mut self.trace, ctx, task)?;
        Ok(())
    }

    /// A fresh empty ivar, and its number.
    pub fn fresh(&mut self) -> Result<IvarNo, NoMemory>
        ensures number { IfOk result (λ i. i ≡ length self.old.plain.cells.ivars) }
        ensures fresh { OnOk result (self.new ≡ doing with_ivar self.old) }
        ensures own { IfOk result (λ i. name_in self.old.names i ≡ i) }
        ensures few { OnOk result (length self.old.plain.cells.ivars < 2 ^ 32 - 1) }
    {
        self.cells.reserve(1, 0)?;
        Ok(self.cells.fresh())
    }

    /// The frame waits for an ivar, under the number that is the answer, or is enqueued with the number of the ivar.
    pub fn register(&mut self, i: IvarNo, ctx: Ctx, frame: Frame) -> Result<Option<RegNo>, NoMemory>
        requires { i < length self.old.plain.cells.ivars }
        ensures registered { OnOk result (self.new ≡ doing
            (register (name_in self.old.names i) ctx (frame_mapped (name_in self.old.names) frame))
            self.old) }
        ensures number { IfOk result (λ registration. registration
            ≡ waits_under (full_with (name_in self.old.names i) self.old.plain) self.old.plain) }
    {
        self.cells.reserve(0, 1)?;
        match cells::register(&mut self.cells, i, &ctx, frame) {
            Placed::Kept(registration) => Ok(Some(registration)),
            Placed::Full { num, frame } => {
                let value = Some(num);
                self.enqueue(ctx, Task { frame, value })?;
                Ok(None)
            }
        }
    }

    /// An ivar that is empty is filled, and its handlers are enqueued. The answer is whether it was empty.
    pub fn fill(&mut self, i: IvarNo, num: Num) -> Result<bool, NoMemory>
        requires { i < length self.old.plain.cells.ivars }
        ensures empty { IfOk result (λ was_empty. was_empty
            ≡ is_empty (name_in self.old.names i) self.old.plain) }
        ensures filled { OnOk result (self.new
            ≡ doing (fill (name_in self.old.names i) num) self.old) }
        ensures full { IfOk result (λ was_empty. was_empty ≡ false → self.new ≡ self.old) }
    {
        let ivar = cells::name(&mut self.cells, i);
        match cells::fill(&mut self.cells, i, num) {
            Ok(()) => {
                note_fill(
                    &mut self.cells,
                    &mut self.queues,
                    &mut self.trace,
                    ivar,
                    num,
                )?;
                Ok(true)
            }
            Err(_) => Ok(false),
        }
    }

    /// An empty result takes what another ivar has, or its place. By one holder no run meets a full one.
    pub fn connect(&mut self, r: IvarNo, i: IvarNo) -> Result<(), NoMemory>
        requires result_drawn { r < length self.old.plain.cells.ivars }
        requires right_drawn { i < length self.old.plain.cells.ivars }
        requires empty { full_with (name_in self.old.names r) self.old.plain ≡ None }
        ensures { OnOk result (self.new.plain
            ≡ connect (name_in self.old.names r) (name_in self.old.names i) self.old.plain) }
    {
        let result = cells::name(&mut self.cells, r);
        let right = cells::name(&mut self.cells, i);
        match cells::connect(&mut self.cells, r, i) {
            Connected::Same => Ok(()),
            Connected::ResultFull => unreachable!(),
            Connected::Filled(num) => {
                note_fill(
                    &mut self.cells,
                    &mut self.queues,
                    &mut self.trace,
                    result,
                    num,
                )?;
                Ok(())
            }
            Connected::Joined => {
                self.trace.push(Entry::Join { result, right })?;
                Ok(())
            }
        }
    }

    /// A number whose name was drawn was drawn.
    pub fn check_drawn(&self, i: IvarNo)
        ensures { name_in self.now.names i < length self.now.plain.cells.ivars
            → i < length self.now.plain.cells.ivars }
    {
        let _cells = &self.cells;
    }
}

/// A job for the task, with its entry.
fn push_job(
    queues: &mut Rings<Task>,
    trace: &mut Trace,
    ctx: Ctx,
    task: Task,
) -> Result<(), NoMemory>
    ensures { OnOk result ((s : State) → with_jobs queues.new.queues trace.new s
        ≡ enqueue ctx task (with_jobs queues.old.queues trace.old s)) }
{
    let low = ctx.low;
    queues.reserve(1)?;
    let job = queues.push(ctx, task);
    trace.push(Entry::Enq { job, low })?;
    Ok(())
}

/// A job for the frame with the number that woke it.
fn push_woken(
    queues: &mut Rings<Task>,
    trace: &mut Trace,
    woken: Woken<Frame>,
) -> Result<(), NoMemory>
    ensures { OnOk result ((s : State) → with_jobs queues.new.queues trace.new s
        ≡ enqueued_for (with_jobs queues.old.queues trace.old s) woken) }
{
    let Woken { ctx, num, frame } = woken;
    push_job(
        queues,
        trace,
        ctx,
        Task {
            frame,
            value: Some(num),
        },
    )?;
    Ok(())
}

/// A fill has its entry, and the handlers that it woke are enqueued. None is woken any more, after want of memory either.
fn note_fill(
    cells: &mut Cells<Frame>,
    queues: &mut Rings<Task>,
    trace: &mut Trace,
    ivar: IvarNo,
    num: Num,
) -> Result<(), NoMemory>
    ensures cells { cells.new.named ≡ record cells.old.named { woken = [] } }
    ensures jobs { OnOk result ((s : State) → with_jobs queues.new.queues trace.new s
        ≡ fold enqueued_for (with_jobs queues.old.queues (trace.old ++ Entry.Fill ivar num ∷ []) s)
        cells.old.named.woken) }
{
    match trace.push(Entry::Fill { ivar, num }) {
        Ok(()) => wake_all(cells, queues, trace),
        Err(e) => {
            drop_woken(cells);
            Err(e)
        }
    }
}

/// The woken handlers are enqueued, the oldest first. None is woken any more, after want of memory either.
fn wake_all(
    cells: &mut Cells<Frame>,
    queues: &mut Rings<Task>,
    trace: &mut Trace,
) -> Result<(), NoMemory>
    ensures cells { cells.new.named ≡ record cells.old.named { woken = [] } }
    ensures jobs { OnOk result ((s : State) → with_jobs queues.new.queues trace.new s
        ≡ fold enqueued_for (with_jobs queues.old.queues trace.old s) cells.old.named.woken) }
{
    while let Some(woken) = cells.next_woken() {
        match push_woken(queues, trace, woken) {
            Ok(()) => {}
            Err(e) => {
                drop_woken(cells);
                return Err(e);
            }
        }
    }
    Ok(())
}

/// The woken handlers are dropped.
fn drop_woken(cells: &mut Cells<Frame>)
    ensures { cells.new.named ≡ record cells.old.named { woken = [] } }
{
    while let Some(_woken) = cells.next_woken() {}
}
