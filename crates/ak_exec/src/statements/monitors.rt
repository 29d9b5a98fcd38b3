//! Statements on monitors and errors.

ghost use Rattle.std.specs.Prelude.{◌<◌, length, IfOk};
ghost use Rattle.ak_state.specs.Reads.{named, IsNumAt, IsMonitorAt, AreBound};
ghost use Rattle.ak_state.specs.Fits.{FitsSome};
ghost use Rattle.ak_exec.specs.Steps.{Does};

use crate::statement::Step;
use ak_base::list::NoMemory;
use ak_base::number::Ctx;
use ak_frames::frame::{Frame, Ret, Task};
use ak_frames::value::{Vals, Value};
use ak_machine::flow::Flow;
use ak_machine::held::Handler;
use ak_program::statement::{NumArgs, NumAtom, NumStmt};
use ak_state::parts::Parts;

pub fn monitor(parts: &mut Parts, ctx: Ctx, vals: &mut Vals, m: usize) -> Result<Step, NoMemory>
    requires { ctx.mon < length parts.old.plain.monitors }
    ensures { IfOk result (λ step.
        Does ctx (NumStmt.Monitor m) parts.old vals.old step parts.new vals.new) }
{
    let mon = parts.monitor(ctx.mon)?;
    vals.push(Value::Mon(mon))?;
    Ok(Step::Goes)
}

pub fn within(
    parts: &mut Parts,
    ctx: Ctx,
    vals: &Vals,
    m: usize,
    proc: usize,
    args: &NumArgs,
) -> Result<Step, NoMemory>
    requires monitor { IsMonitorAt parts.old.plain (named parts.old vals.now) m }
    requires args { AreBound (named parts.old vals.now) args.now }
    ensures { IfOk result (λ step.
        Does ctx (NumStmt.Within m proc args.now) parts.old vals.now step parts.new vals.now) }
{
    let mon = parts.monitor_at(vals, m);
    let vals = parts.args_at(vals, args)?;
    let frame = Frame::Call {
        proc,
        vals,
        ret: Ret::Drop,
    };
    parts.enqueue(Ctx { mon, ..ctx }, Task { frame, value: None })?;
    Ok(Step::Goes)
}

pub fn detach(parts: &mut Parts, ctx: Ctx, vals: &Vals, m: usize) -> Result<Step, NoMemory>
    requires { IsMonitorAt parts.old.plain (named parts.old vals.now) m }
    ensures { IfOk result (λ step.
        Does ctx (NumStmt.Detach m) parts.old vals.now step parts.new vals.now) }
{
    let mon = parts.monitor_at(vals, m);
    parts.detach(mon)?;
    Ok(Step::Goes)
}

pub fn on_error(
    parts: &mut Parts,
    ctx: Ctx,
    vals: &Vals,
    m: usize,
    proc: usize,
    args: &NumArgs,
) -> Result<Step, NoMemory>
    requires monitor { IsMonitorAt parts.old.plain (named parts.old vals.now) m }
    requires args { AreBound (named parts.old vals.now) args.now }
    ensures { IfOk result (λ step.
        Does ctx (NumStmt.OnError m proc args.now) parts.old vals.now step parts.new vals.now) }
{
    let mon = parts.monitor_at(vals, m);
    let vals = parts.args_at(vals, args)?;
    parts.on_error(mon, ctx, Handler::OnError { proc, vals })?;
    Ok(Step::Goes)
}

pub fn next_error(
    parts: &mut Parts,
    ctx: Ctx,
    vals: &mut Vals,
    r: usize,
    m: usize,
) -> Result<Step, NoMemory>
    requires { IsMonitorAt parts.old.plain (named parts.old vals.old) m }
    ensures { IfOk result (λ step.
        Does ctx (NumStmt.NextError r m) parts.old vals.old step parts.new vals.new) }
{
    let mon = parts.monitor_at(vals, m);
    let result = parts.fresh()?;
    parts.await_error(mon, result)?;
    vals.push(Value::Def(result))?;
    Ok(Step::Goes)
}

pub fn send(
    parts: &mut Parts,
    ctx: Ctx,
    vals: &Vals,
    m: usize,
    a: NumAtom,
) -> Result<Step, NoMemory>
    requires monitor { IsMonitorAt parts.old.plain (named parts.old vals.now) m }
    requires number { IsNumAt (named parts.old vals.now) a }
    requires fits { FitsSome parts.old.plain }
    ensures { IfOk result (λ step.
        Does ctx (NumStmt.Send m a) parts.old vals.now step parts.new vals.now) }
{
    let mon = parts.monitor_at(vals, m);
    let num = parts.number_at(vals, a);
    match parts.send(mon, num)? {
        Flow::On => Ok(Step::Goes),
        flow => Ok(Step::Ends(flow)),
    }
}
