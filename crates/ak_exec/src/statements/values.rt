//! Statements on numbers.

ghost use Rattle.std.specs.Prelude.{IfOk};
ghost use Rattle.ak_state.specs.Reads.{named, IsNumAt};
ghost use Rattle.ak_exec.specs.Steps.{Does};

use crate::arithmetic::{Given, compute};
use crate::statement::Step;
use ak_base::list::NoMemory;
use ak_base::number::{Ctx, Num};
use ak_frames::value::{Vals, Value};
use ak_program::statement::{NumAtom, NumStmt};
use ak_script::statement::Operator;
use ak_state::parts::Parts;
use ak_trace::entry::Entry;

/// The error of a number beyond 64 bits.
pub const OVERFLOW: Num = -1;

/// The error of a division by zero.
const ZERO_DIVISOR: Num = -2;

pub fn set(
    parts: &mut Parts,
    ctx: Ctx,
    vals: &mut Vals,
    x: usize,
    a: NumAtom,
    op: Operator,
    b: NumAtom,
) -> Result<Step, NoMemory>
    requires left { IsNumAt (named parts.old vals.old) a }
    requires right { IsNumAt (named parts.old vals.old) b }
    ensures { IfOk result (λ step.
        Does ctx (NumStmt.Set x a op b) parts.old vals.old step parts.new vals.new) }
{
    let left = parts.number_at(vals, a);
    let right = parts.number_at(vals, b);
    match compute(op, left, right) {
        Given::Num(num) => {
            vals.push(Value::Num(num))?;
            Ok(Step::Goes)
        }
        Given::Overflow => Ok(Step::Raises(OVERFLOW)),
        Given::ZeroDivisor => Ok(Step::Raises(ZERO_DIVISOR)),
    }
}

pub fn print(parts: &mut Parts, ctx: Ctx, vals: &Vals, a: NumAtom) -> Result<Step, NoMemory>
    requires { IsNumAt (named parts.old vals.now) a }
    ensures { IfOk result (λ step.
        Does ctx (NumStmt.Print a) parts.old vals.now step parts.new vals.now) }
{
    let num = parts.number_at(vals, a);
    parts.note(Entry::Print { num })?;
    Ok(Step::Goes)
}
