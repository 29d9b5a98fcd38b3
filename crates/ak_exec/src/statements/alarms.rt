//! Statements on the clock, and on deferreds that wait for a time or for the next cycle.

ghost use Rattle.std.specs.Prelude.{IfOk};
ghost use Rattle.ak_state.specs.Fits.{FitsSome};
ghost use Rattle.ak_state.specs.Reads.{named, IsNumAt, IsEventAt};
ghost use Rattle.ak_exec.specs.Steps.{Does};

use crate::statement::Step;
use crate::statements::values::OVERFLOW;
use ak_base::list::NoMemory;
use ak_base::number::{Ctx, Num};
use ak_clock::alarm::TickRefused;
use ak_frames::value::{Vals, Value};
use ak_program::statement::{NumAtom, NumStmt};
use ak_state::parts::Parts;

/// The error of a clock that would go back.
const NEGATIVE_TICK: Num = -9;

pub fn yield_cycle(parts: &mut Parts, ctx: Ctx, vals: &mut Vals, r: usize) -> Result<Step, NoMemory>
    ensures { IfOk result (λ step.
        Does ctx (NumStmt.Yield r) parts.old vals.old step parts.new vals.new) }
{
    let result = parts.begin_yield()?;
    vals.push(Value::Def(result))?;
    Ok(Step::Goes)
}

pub fn after(
    parts: &mut Parts,
    ctx: Ctx,
    vals: &mut Vals,
    r: usize,
    n: NumAtom,
) -> Result<Step, NoMemory>
    requires number { IsNumAt (named parts.old vals.old) n }
    requires fits { FitsSome parts.old.plain }
    ensures { IfOk result (λ step.
        Does ctx (NumStmt.After r n) parts.old vals.old step parts.new vals.new) }
{
    let span = parts.number_at(vals, n);
    if !parts.has_time(span) {
        return Ok(Step::Raises(OVERFLOW));
    }
    let timed = parts.begin_alarm(span)?;
    vals.push(Value::Def(timed.to))?;
    Ok(Step::Goes)
}

pub fn event(
    parts: &mut Parts,
    ctx: Ctx,
    vals: &mut Vals,
    e: usize,
    r: usize,
    n: NumAtom,
) -> Result<Step, NoMemory>
    requires number { IsNumAt (named parts.old vals.old) n }
    requires fits { FitsSome parts.old.plain }
    ensures { IfOk result (λ step.
        Does ctx (NumStmt.Event e r n) parts.old vals.old step parts.new vals.new) }
{
    let span = parts.number_at(vals, n);
    if !parts.has_time(span) {
        return Ok(Step::Raises(OVERFLOW));
    }
    let timed = parts.begin_alarm(span)?;
    vals.push(Value::Event(timed.event))?;
    vals.push(Value::Def(timed.to))?;
    Ok(Step::Goes)
}

pub fn abort(parts: &mut Parts, ctx: Ctx, vals: &Vals, e: usize) -> Result<Step, NoMemory>
    requires event { IsEventAt (named parts.old vals.now) e }
    requires fits { FitsSome parts.old.plain }
    ensures { IfOk result (λ step.
        Does ctx (NumStmt.Abort e) parts.old vals.now step parts.new vals.now) }
{
    let event = parts.event_at(vals, e);
    parts.abort(event)?;
    Ok(Step::Goes)
}

pub fn tick(parts: &mut Parts, ctx: Ctx, vals: &Vals, n: NumAtom) -> Result<Step, NoMemory>
    requires { IsNumAt (named parts.old vals.now) n }
    ensures { IfOk result (λ step.
        Does ctx (NumStmt.Tick n) parts.old vals.now step parts.new vals.now) }
{
    let span = parts.number_at(vals, n);
    match parts.tick(span) {
        Ok(()) => Ok(Step::Goes),
        Err(TickRefused::Negative) => Ok(Step::Raises(NEGATIVE_TICK)),
        Err(TickRefused::Overflow) => Ok(Step::Raises(OVERFLOW)),
    }
}
