//! What the job of each kind of frame does.

ghost use Rattle.std.specs.Prelude.{◌≡◌, ◌<◌, ◌∷◌, length, None, IfOk, IfSome};
ghost use Rattle.ak_machine.specs.Job.{run_frame as frame_run, run_call_if as call_run, value_or_zero, nothing_left as no_rest};
ghost use Rattle.ak_holders.specs.Returns.{FrameReturns, CallReturns};
ghost use Rattle.ak_state.specs.Drawn.{drawn};
ghost use Rattle.ak_state.specs.Fits.{Fits, FrameFits, CallbackFits};
ghost use Rattle.ak_state.specs.Reads.{frame_named, call_named};
ghost use Rattle.ak_exec.specs.Steps.{ProgressTells, progress_is, rest_is};
ghost use Rattle.ak_exec.specs.Typed.{ProgressFits};

use crate::job::{Progress, Rest, Running, run_call};
use ak_base::list::{Items, NoMemory};
use ak_base::number::{Ctx, Num};
use ak_frames::frame::{Frame, Ret, Task};
use ak_frames::value::{Vals, Value};
use ak_labor::ask::Ask;
use ak_machine::flow::Flow;
use ak_machine::held::Callback;
use ak_program::program::Program;
use ak_state::parts::Parts;

/// The number that woke a job; 0 where it waited for none.
fn number_of(value: Option<Num>) -> Num
    ensures { result ≡ value_or_zero value }
{
    match value {
        Some(num) => num,
        None => 0,
    }
}

/// The values of a frame that waited, with the number that woke it in front.
fn with_value(value: Option<Num>, vals: Vals) -> Result<Vals, NoMemory>
    ensures { IfOk result (λ all. all ≡ Value.Num (value_or_zero value) ∷ vals) }
{
    let mut all = vals.into_vec();
    all.insert(0, Value::Num(number_of(value)))?;
    Ok(Items::from_vec(all))
}

/// A call that waited runs in this same job, where there is one.
fn run_call_if<'p>(
    program: &'p Program,
    parts: &mut Parts,
    ctx: Ctx,
    call: Option<Callback>,
) -> Result<Progress<'p>, NoMemory>
    requires monitor { ctx.mon < length parts.old.plain.monitors }
    requires call { IfSome (call_named parts.old call)
        (CallbackFits program.now.procs (drawn parts.old.plain)) }
    requires returns { CallReturns program.now.procs ctx (call_named parts.old call)
        parts.old.plain }
    requires fits { Fits program.now.procs parts.old.plain }
    ensures fits { IfOk result (ProgressFits program.now.procs parts.new) }
    ensures told { IfOk result (λ progress. ProgressTells progress parts.new.plain.trace) }
    ensures runs { IfOk result (λ progress.
        call_run program.now.procs ctx (call_named parts.old call) parts.old.plain
        ≡ progress_is parts.new progress) }
{
    let Some(Callback { proc, vals, to }) = call else {
        return Ok(Progress::Over(Flow::On));
    };
    let ret = Ret::To(to);
    run_call(program, parts, Running { ctx, ret }, proc, vals)
}

/// A frame, with the number that woke it where it waited for one.
pub fn run_task<'p>(
    program: &'p Program,
    parts: &mut Parts,
    ctx: Ctx,
    task: Task,
) -> Result<Progress<'p>, NoMemory>
    requires monitor { ctx.mon < length parts.old.plain.monitors }
    requires frame { FrameFits program.now.procs (drawn parts.old.plain)
        (frame_named parts.old task.frame) }
    requires returns { FrameReturns program.now.procs ctx
        (frame_named parts.old task.frame) (value_or_zero task.value) parts.old.plain }
    requires fits { Fits program.now.procs parts.old.plain }
    ensures fits { IfOk result (ProgressFits program.now.procs parts.new) }
    ensures told { IfOk result (λ progress. ProgressTells progress parts.new.plain.trace) }
    ensures runs { IfOk result (λ progress.
        frame_run program.now.procs ctx (frame_named parts.old task.frame)
        (value_or_zero task.value) parts.old.plain ≡ progress_is parts.new progress) }
{
    let Task { frame, value } = task;
    match frame {
        Frame::Call { proc, vals, ret } => {
            run_call(program, parts, Running { ctx, ret }, proc, vals)
        }
        Frame::OnValue { proc, vals, ret } => {
            let all = with_value(value, vals)?;
            run_call(program, parts, Running { ctx, ret }, proc, all)
        }
        Frame::AllPart { group, part } => {
            let call = parts.end_part(group, part, number_of(value))?;
            run_call_if(program, parts, ctx, call)
        }
        Frame::ChoicePart { group } => {
            let call = parts.end_choice(group)?;
            run_call_if(program, parts, ctx, call)
        }
        Frame::TryDone { guard } => {
            parts.end_try(guard, number_of(value))?;
            Ok(Progress::Over(Flow::On))
        }
        Frame::BodyDone { body } => {
            parts.end_body(&body, number_of(value))?;
            Ok(Progress::Over(Flow::On))
        }
        Frame::BodyFailed { body, num } => {
            parts.fail_body(&body)?;
            let flow = parts.send(ctx.mon, num)?;
            Ok(Progress::Over(flow))
        }
        Frame::Raise { num } => {
            let raised = parts.send(ctx.mon, num)?;
            Ok(Progress::Over(raised))
        }
        Frame::AnswerOut { request } => {
            let num = number_of(value);
            parts.answer_out(request, num)?;
            let ask = Ask::Answer { no: request, num };
            Ok(Progress::Asking(ask, nothing_left(parts, ctx)))
        }
    }
}

/// A job that has nothing left but its end, with a return that goes nowhere.
fn nothing_left<'p>(parts: &Parts, ctx: Ctx) -> Rest<'p>
    ensures { rest_is parts.now result ≡ no_rest ctx }
{
    Rest {
        running: Running {
            ctx,
            ret: Ret::Drop,
        },
        vals: parts.no_vals(),
        lines: &[],
    }
}
