//! Statements that enqueue a job, or end the one that runs.

ghost use Rattle.std.specs.Prelude.{length, IfOk};
ghost use Rattle.ak_machine.specs.Deferred.{called};
ghost use Rattle.ak_machine.specs.Effect.{args_of, Goes};
ghost use Rattle.ak_state.specs.Reads.{named, IsNumAt, IsBound, AreBound};
ghost use Rattle.ak_exec.specs.Steps.{Takes, Does};

use crate::statement::Step;
use ak_base::list::NoMemory;
use ak_base::number::Ctx;
use ak_frames::frame::{Frame, Ret, Task};
use ak_frames::value::Vals;
use ak_program::statement::{NumArgs, NumAtom, NumStmt};
use ak_state::parts::Parts;

/// A job that calls a procedure, of low priority or not.
pub fn call(
    parts: &mut Parts,
    ctx: Ctx,
    vals: &Vals,
    proc: usize,
    args: &NumArgs,
) -> Result<Step, NoMemory>
    requires { AreBound (named parts.old vals.now) args.now }
    ensures { IfOk result (λ step.
        Takes (Goes (called ctx proc (args_of (named parts.old vals.now) args.now) Ret.Drop
        parts.old.plain) (named parts.old vals.now)) step parts.old parts.new vals.now) }
{
    let vals = parts.args_at(vals, args)?;
    let frame = Frame::Call {
        proc,
        vals,
        ret: Ret::Drop,
    };
    parts.enqueue(ctx, Task { frame, value: None })?;
    Ok(Step::Goes)
}

pub fn raise(parts: &mut Parts, ctx: Ctx, vals: &Vals, a: NumAtom) -> Result<Step, NoMemory>
    requires { IsNumAt (named parts.old vals.now) a }
    ensures { IfOk result (λ step.
        Does ctx (NumStmt.Raise a) parts.old vals.now step parts.new vals.now) }
{
    Ok(Step::Raises(parts.number_at(vals, a)))
}

pub fn ret(parts: &mut Parts, ctx: Ctx, vals: &Vals, a: NumAtom) -> Result<Step, NoMemory>
    requires { IsBound (length (named parts.old vals.now)) a }
    ensures { IfOk result (λ step.
        Does ctx (NumStmt.Ret a) parts.old vals.now step parts.new vals.now) }
{
    Ok(Step::Returns(parts.value_at(vals, a)))
}
