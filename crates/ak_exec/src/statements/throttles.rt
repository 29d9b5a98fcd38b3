//! Statements on throttles.

ghost use Rattle.std.specs.Prelude.{◌<◌, ◌≤◌, length, IfOk};
ghost use Rattle.ak_state.specs.Fits.{FitsSome};
ghost use Rattle.ak_state.specs.Reads.{named, IsThrottleAt, AreBound};
ghost use Rattle.ak_exec.specs.Steps.{Does};

use crate::statement::Step;
use ak_base::list::NoMemory;
use ak_base::number::{Ctx, Num};
use ak_frames::value::{Vals, Value};
use ak_program::statement::{NumArgs, NumStmt};
use ak_state::parts::Parts;

/// The error of a body for a dead throttle.
const DEAD_THROTTLE: Num = -5;

pub fn throttle(
    parts: &mut Parts,
    ctx: Ctx,
    vals: &mut Vals,
    t: usize,
    k: u32,
    stop: bool,
) -> Result<Step, NoMemory>
    requires { 1 ≤ k }
    ensures { IfOk result (λ step.
        Does ctx (NumStmt.Throttle t k stop) parts.old vals.old step parts.new vals.new) }
{
    let throttle = parts.throttle(k, stop)?;
    vals.push(Value::Thr(throttle))?;
    Ok(Step::Goes)
}

pub fn enqueue(
    parts: &mut Parts,
    ctx: Ctx,
    vals: &mut Vals,
    r: usize,
    t: usize,
    proc: usize,
    args: &NumArgs,
) -> Result<Step, NoMemory>
    requires throttle { IsThrottleAt parts.old.plain (named parts.old vals.old) t }
    requires args { AreBound (named parts.old vals.old) args.now }
    requires monitor { ctx.mon < length parts.old.plain.monitors }
    requires fits { FitsSome parts.old.plain }
    ensures { IfOk result (λ step.
        Does ctx (NumStmt.Enqueue r t proc args.now) parts.old vals.old
        step parts.new vals.new) }
{
    let throttle = parts.throttle_at(vals, t);
    if parts.is_dead(throttle) {
        return Ok(Step::Raises(DEAD_THROTTLE));
    }
    let values = parts.args_at(vals, args)?;
    let result = parts.begin_body(throttle, &ctx, proc, values)?;
    vals.push(Value::Def(result))?;
    Ok(Step::Goes)
}

pub fn throttle_done(
    parts: &mut Parts,
    ctx: Ctx,
    vals: &mut Vals,
    r: usize,
    t: usize,
) -> Result<Step, NoMemory>
    requires { IsThrottleAt parts.old.plain (named parts.old vals.old) t }
    ensures { IfOk result (λ step.
        Does ctx (NumStmt.ThrottleDone r t) parts.old vals.old step parts.new vals.new) }
{
    let throttle = parts.throttle_at(vals, t);
    let result = parts.fresh()?;
    parts.await_bodies(throttle, result)?;
    vals.push(Value::Def(result))?;
    Ok(Step::Goes)
}
