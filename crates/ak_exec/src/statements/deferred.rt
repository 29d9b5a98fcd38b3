//! Statements on ivars and deferreds.

ghost use Rattle.std.specs.Prelude.{IfOk};
ghost use Rattle.ak_state.specs.Reads.{named, IsNumAt, IsDeferredAt, AreBound};
ghost use Rattle.ak_exec.specs.Steps.{Does};

use crate::statement::Step;
use ak_base::list::NoMemory;
use ak_base::number::{Ctx, Num};
use ak_frames::frame::{Frame, Ret};
use ak_frames::value::{Vals, Value};
use ak_program::statement::{NumArgs, NumAtom, NumStmt};
use ak_state::parts::Parts;

/// The error of a fill of a full ivar.
const FULL_IVAR: Num = -3;

pub fn ivar(parts: &mut Parts, ctx: Ctx, vals: &mut Vals, i: usize) -> Result<Step, NoMemory>
    ensures { IfOk result (λ step.
        Does ctx (NumStmt.Ivar i) parts.old vals.old step parts.new vals.new) }
{
    let ivar = parts.fresh()?;
    vals.push(Value::Ivar(ivar))?;
    Ok(Step::Goes)
}

pub fn never(parts: &mut Parts, ctx: Ctx, vals: &mut Vals, r: usize) -> Result<Step, NoMemory>
    ensures { IfOk result (λ step.
        Does ctx (NumStmt.Never r) parts.old vals.old step parts.new vals.new) }
{
    let result = parts.fresh()?;
    vals.push(Value::Def(result))?;
    Ok(Step::Goes)
}

pub fn fill(
    parts: &mut Parts,
    ctx: Ctx,
    vals: &Vals,
    i: usize,
    a: NumAtom,
) -> Result<Step, NoMemory>
    requires deferred { IsDeferredAt parts.old.plain (named parts.old vals.now) i }
    requires number { IsNumAt (named parts.old vals.now) a }
    ensures { IfOk result (λ step.
        Does ctx (NumStmt.Fill i a) parts.old vals.now step parts.new vals.now) }
{
    let ivar = parts.deferred_at(vals, i);
    let num = parts.number_at(vals, a);
    if parts.fill(ivar, num)? {
        Ok(Step::Goes)
    } else {
        Ok(Step::Raises(FULL_IVAR))
    }
}

pub fn offer(
    parts: &mut Parts,
    ctx: Ctx,
    vals: &Vals,
    i: usize,
    a: NumAtom,
) -> Result<Step, NoMemory>
    requires deferred { IsDeferredAt parts.old.plain (named parts.old vals.now) i }
    requires number { IsNumAt (named parts.old vals.now) a }
    ensures { IfOk result (λ step.
        Does ctx (NumStmt.Offer i a) parts.old vals.now step parts.new vals.now) }
{
    let ivar = parts.deferred_at(vals, i);
    let num = parts.number_at(vals, a);
    parts.fill(ivar, num)?;
    Ok(Step::Goes)
}

pub fn upon(
    parts: &mut Parts,
    ctx: Ctx,
    vals: &Vals,
    d: usize,
    proc: usize,
    args: &NumArgs,
) -> Result<Step, NoMemory>
    requires deferred { IsDeferredAt parts.old.plain (named parts.old vals.now) d }
    requires args { AreBound (named parts.old vals.now) args.now }
    ensures { IfOk result (λ step.
        Does ctx (NumStmt.Upon d proc args.now) parts.old vals.now step parts.new vals.now) }
{
    let ivar = parts.deferred_at(vals, d);
    let vals = parts.args_at(vals, args)?;
    parts.register(
        ivar,
        ctx,
        Frame::OnValue {
            proc,
            vals,
            ret: Ret::Drop,
        },
    )?;
    Ok(Step::Goes)
}

pub fn bind(
    parts: &mut Parts,
    ctx: Ctx,
    vals: &mut Vals,
    r: usize,
    d: usize,
    proc: usize,
    args: &NumArgs,
) -> Result<Step, NoMemory>
    requires deferred { IsDeferredAt parts.old.plain (named parts.old vals.old) d }
    requires args { AreBound (named parts.old vals.old) args.now }
    ensures { IfOk result (λ step.
        Does ctx (NumStmt.Bind r d proc args.now) parts.old vals.old step parts.new vals.new) }
{
    let ivar = parts.deferred_at(vals, d);
    let values = parts.args_at(vals, args)?;
    let result = parts.fresh()?;
    parts.register(
        ivar,
        ctx,
        Frame::OnValue {
            proc,
            vals: values,
            ret: Ret::To(result),
        },
    )?;
    vals.push(Value::Def(result))?;
    Ok(Step::Goes)
}
