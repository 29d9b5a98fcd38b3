//! Statements on works and helpers, and the stop.

ghost use Rattle.std.specs.Prelude.{None, Some, IfOk};
ghost use Rattle.ak_machine.specs.Effect.{Asks, result_bound};
ghost use Rattle.ak_state.specs.Arrivals.{with_submit};
ghost use Rattle.ak_state.specs.Reads.{named, IsNumAt, IsHelperAt};
ghost use Rattle.ak_exec.specs.Steps.{Takes, Does};

use crate::statement::Step;
use ak_base::list::NoMemory;
use ak_base::number::{Ctx, HelperNo, Num};
use ak_frames::value::{Vals, Value};
use ak_labor::ask::Ask;
use ak_labor::work::{Work, WorkKind};
use ak_program::statement::{NumAtom, NumStmt};
use ak_state::parts::Parts;

/// The error of a work for a helper that was refused or has ended.
const NO_HELPER: Num = -7;

pub fn work(
    parts: &mut Parts,
    ctx: Ctx,
    vals: &mut Vals,
    r: usize,
    kind: WorkKind,
    a: NumAtom,
) -> Result<Step, NoMemory>
    requires { IsNumAt (named parts.old vals.old) a }
    ensures { IfOk result (λ step.
        Does ctx (NumStmt.Work r kind a) parts.old vals.old step parts.new vals.new) }
{
    let num = parts.number_at(vals, a);
    submit(parts, ctx, vals, Work { kind, num }, None)
}

pub fn helper(
    parts: &mut Parts,
    ctx: Ctx,
    vals: &Vals,
    h: usize,
    x: usize,
) -> Result<Step, NoMemory>
    ensures { IfOk result (λ step.
        Does ctx (NumStmt.Helper h x) parts.old vals.now step parts.new vals.now) }
{
    let no = parts.next_helper()?;
    Ok(Step::Asks(Ask::HelperNew { no }))
}

pub fn helper_work(
    parts: &mut Parts,
    ctx: Ctx,
    vals: &mut Vals,
    r: usize,
    h: usize,
    kind: WorkKind,
    a: NumAtom,
) -> Result<Step, NoMemory>
    requires helper { IsHelperAt (named parts.old vals.old) h }
    requires number { IsNumAt (named parts.old vals.old) a }
    ensures { IfOk result (λ step.
        Does ctx (NumStmt.HelperWork r h kind a) parts.old vals.old step parts.new vals.new) }
{
    let no = parts.helper_at(vals, h);
    if !parts.is_active(no) {
        return Ok(Step::Raises(NO_HELPER));
    }
    let num = parts.number_at(vals, a);
    submit(parts, ctx, vals, Work { kind, num }, Some(no))
}

pub fn helper_done(parts: &mut Parts, ctx: Ctx, vals: &Vals, h: usize) -> Result<Step, NoMemory>
    requires { IsHelperAt (named parts.old vals.now) h }
    ensures { IfOk result (λ step.
        Does ctx (NumStmt.HelperDone h) parts.old vals.now step parts.new vals.now) }
{
    let no = parts.helper_at(vals, h);
    if !parts.is_active(no) {
        return Ok(Step::Goes);
    }
    parts.end_helper(no);
    Ok(Step::Asks(Ask::HelperEnd { no }))
}

/// A work is handed in, and its result is bound.
fn submit(
    parts: &mut Parts,
    ctx: Ctx,
    vals: &mut Vals,
    work: Work,
    helper: Option<HelperNo>,
) -> Result<Step, NoMemory>
    ensures { IfOk result (λ step. Takes
        (Asks (Ask.Submit parts.old.plain.next_work work helper)
        (with_submit ctx work helper parts.old.plain)
        (result_bound parts.old.plain (named parts.old vals.old)))
        step parts.old parts.new vals.new) }
{
    let submitted = parts.submit(ctx, &work, &helper)?;
    vals.push(Value::Def(submitted.to))?;
    Ok(Step::Asks(Ask::Submit {
        id: submitted.id,
        work,
        helper,
    }))
}
