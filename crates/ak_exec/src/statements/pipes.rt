//! Statements on pipes.

ghost use Rattle.std.specs.Prelude.{◌<◌, length, IfOk};
ghost use Rattle.ak_state.specs.Fits.{FitsSome};
ghost use Rattle.ak_state.specs.Reads.{named, IsNumAt, IsPipeAt, AreBound};
ghost use Rattle.ak_exec.specs.Steps.{Does};

use crate::statement::Step;
use ak_base::list::NoMemory;
use ak_base::number::{Ctx, Num};
use ak_frames::value::{Vals, Value};
use ak_machine::held::{Callback, Read};
use ak_program::statement::{NumArgs, NumAtom, NumStmt};
use ak_state::parts::Parts;

/// The error of a number for a closed pipe.
const CLOSED_PIPE: Num = -4;

pub fn pipe(
    parts: &mut Parts,
    ctx: Ctx,
    vals: &mut Vals,
    p: usize,
    b: u32,
) -> Result<Step, NoMemory>
    ensures { IfOk result (λ step.
        Does ctx (NumStmt.Pipe p b) parts.old vals.old step parts.new vals.new) }
{
    let pipe = parts.pipe(b)?;
    vals.push(Value::Pipe(pipe))?;
    Ok(Step::Goes)
}

pub fn write(
    parts: &mut Parts,
    ctx: Ctx,
    vals: &mut Vals,
    r: usize,
    p: usize,
    a: NumAtom,
) -> Result<Step, NoMemory>
    requires pipe { IsPipeAt parts.old.plain (named parts.old vals.old) p }
    requires number { IsNumAt (named parts.old vals.old) a }
    ensures { IfOk result (λ step.
        Does ctx (NumStmt.Write r p a) parts.old vals.old step parts.new vals.new) }
{
    let pipe = parts.pipe_at(vals, p);
    if parts.is_closed(pipe) {
        return Ok(Step::Raises(CLOSED_PIPE));
    }
    let num = parts.number_at(vals, a);
    let result = parts.fresh()?;
    parts.write(pipe, result, num)?;
    vals.push(Value::Def(result))?;
    Ok(Step::Goes)
}

pub fn put(parts: &mut Parts, ctx: Ctx, vals: &Vals, p: usize, a: NumAtom) -> Result<Step, NoMemory>
    requires pipe { IsPipeAt parts.old.plain (named parts.old vals.now) p }
    requires number { IsNumAt (named parts.old vals.now) a }
    ensures { IfOk result (λ step.
        Does ctx (NumStmt.Put p a) parts.old vals.now step parts.new vals.now) }
{
    let pipe = parts.pipe_at(vals, p);
    if parts.is_closed(pipe) {
        return Ok(Step::Raises(CLOSED_PIPE));
    }
    let num = parts.number_at(vals, a);
    parts.put(pipe, num)?;
    Ok(Step::Goes)
}

pub fn rd(
    parts: &mut Parts,
    ctx: Ctx,
    vals: &mut Vals,
    r: usize,
    p: usize,
    proc: usize,
    args: &NumArgs,
    eof: usize,
    eof_args: &NumArgs,
) -> Result<Step, NoMemory>
    requires pipe { IsPipeAt parts.old.plain (named parts.old vals.old) p }
    requires args { AreBound (named parts.old vals.old) args.now }
    requires eof_args { AreBound (named parts.old vals.old) eof_args.now }
    requires fits { FitsSome parts.old.plain }
    ensures { IfOk result (λ step.
        Does ctx (NumStmt.Read r p proc args.now eof eof_args.now) parts.old vals.old
        step parts.new vals.new) }
{
    let pipe = parts.pipe_at(vals, p);
    let values = parts.args_at(vals, args)?;
    let eof_values = parts.args_at(vals, eof_args)?;
    let result = parts.fresh()?;
    let item = Callback {
        proc,
        vals: values,
        to: result,
    };
    let eof = Callback {
        proc: eof,
        vals: eof_values,
        to: result,
    };
    parts.read(pipe, Read { ctx, item, eof })?;
    vals.push(Value::Def(result))?;
    Ok(Step::Goes)
}

pub fn close(parts: &mut Parts, ctx: Ctx, vals: &Vals, p: usize) -> Result<Step, NoMemory>
    requires { IsPipeAt parts.old.plain (named parts.old vals.now) p }
    ensures { IfOk result (λ step.
        Does ctx (NumStmt.Close p) parts.old vals.now step parts.new vals.now) }
{
    let pipe = parts.pipe_at(vals, p);
    parts.close(pipe)?;
    Ok(Step::Goes)
}

pub fn close_read(parts: &mut Parts, ctx: Ctx, vals: &Vals, p: usize) -> Result<Step, NoMemory>
    requires pipe { IsPipeAt parts.old.plain (named parts.old vals.now) p }
    requires fits { FitsSome parts.old.plain }
    ensures { IfOk result (λ step.
        Does ctx (NumStmt.CloseRead p) parts.old vals.now step parts.new vals.now) }
{
    let pipe = parts.pipe_at(vals, p);
    parts.close_read(pipe)?;
    Ok(Step::Goes)
}

pub fn flushed(
    parts: &mut Parts,
    ctx: Ctx,
    vals: &mut Vals,
    r: usize,
    p: usize,
) -> Result<Step, NoMemory>
    requires { IsPipeAt parts.old.plain (named parts.old vals.old) p }
    ensures { IfOk result (λ step.
        Does ctx (NumStmt.Flushed r p) parts.old vals.old step parts.new vals.new) }
{
    let pipe = parts.pipe_at(vals, p);
    let result = parts.fresh()?;
    parts.await_flush(pipe, result)?;
    vals.push(Value::Def(result))?;
    Ok(Step::Goes)
}
