//! Statements that are decided once.

ghost use Rattle.std.specs.Prelude.{◌<◌, ◌≤◌, length, IfOk};
ghost use Rattle.ak_state.specs.Reads.{named, AreDeferredsAt, AreChoicesAt, AreBound};
ghost use Rattle.ak_exec.specs.Steps.{Does};

use crate::statement::Step;
use ak_base::list::NoMemory;
use ak_base::number::Ctx;
use ak_frames::value::{Vals, Value};
use ak_machine::held::Callback;
use ak_program::statement::{NumArgs, NumChoices, NumStmt, Places};
use ak_script::statement::GuardMode;
use ak_state::parts::Parts;

pub fn all(
    parts: &mut Parts,
    ctx: Ctx,
    vals: &mut Vals,
    r: usize,
    deferreds: &Places,
    proc: usize,
    args: &NumArgs,
) -> Result<Step, NoMemory>
    requires few { length deferreds.now ≤ 8 }
    requires deferreds { AreDeferredsAt parts.old.plain (named parts.old vals.old) deferreds.now }
    requires args { AreBound (named parts.old vals.old) args.now }
    ensures { IfOk result (λ step.
        Does ctx (NumStmt.All r deferreds.now proc args.now) parts.old vals.old
        step parts.new vals.new) }
{
    let ivars = parts.deferreds_at(vals, deferreds)?;
    let values = parts.args_at(vals, args)?;
    let result = parts.fresh()?;
    let call = Callback {
        proc,
        vals: values,
        to: result,
    };
    parts.begin_all(&ctx, ivars.as_slice(), call)?;
    vals.push(Value::Def(result))?;
    Ok(Step::Goes)
}

pub fn any(
    parts: &mut Parts,
    ctx: Ctx,
    vals: &mut Vals,
    r: usize,
    deferreds: &Places,
) -> Result<Step, NoMemory>
    requires { AreDeferredsAt parts.old.plain (named parts.old vals.old) deferreds.now }
    ensures { IfOk result (λ step.
        Does ctx (NumStmt.Any r deferreds.now) parts.old vals.old step parts.new vals.new) }
{
    let ivars = parts.deferreds_at(vals, deferreds)?;
    let result = parts.fresh()?;
    parts.begin_any(&ctx, ivars, result)?;
    vals.push(Value::Def(result))?;
    Ok(Step::Goes)
}

pub fn choose(
    parts: &mut Parts,
    ctx: Ctx,
    vals: &mut Vals,
    r: usize,
    choices: &NumChoices,
    args: &NumArgs,
) -> Result<Step, NoMemory>
    requires choices { AreChoicesAt parts.old.plain (named parts.old vals.old) choices.now }
    requires args { AreBound (named parts.old vals.old) args.now }
    ensures { IfOk result (λ step.
        Does ctx (NumStmt.Choose r choices.now args.now) parts.old vals.old
        step parts.new vals.new) }
{
    let all = parts.choices_at(vals, choices)?;
    let values = parts.args_at(vals, args)?;
    let result = parts.fresh()?;
    parts.begin_choice(&ctx, all, values, result)?;
    vals.push(Value::Def(result))?;
    Ok(Step::Goes)
}

pub fn try_body(
    parts: &mut Parts,
    ctx: Ctx,
    vals: &mut Vals,
    r: usize,
    proc: usize,
    args: &NumArgs,
    catch: usize,
    catch_args: &NumArgs,
    mode: GuardMode,
) -> Result<Step, NoMemory>
    requires monitor { ctx.mon < length parts.old.plain.monitors }
    requires args { AreBound (named parts.old vals.old) args.now }
    requires catch_args { AreBound (named parts.old vals.old) catch_args.now }
    ensures { IfOk result (λ step.
        Does ctx (NumStmt.Try r proc args.now catch catch_args.now mode) parts.old vals.old
        step parts.new vals.new) }
{
    let values = parts.args_at(vals, args)?;
    let catch_values = parts.args_at(vals, catch_args)?;
    let result = parts.fresh()?;
    let catch = Callback {
        proc: catch,
        vals: catch_values,
        to: result,
    };
    parts.begin_try(&ctx, mode, proc, values, catch)?;
    vals.push(Value::Def(result))?;
    Ok(Step::Goes)
}
