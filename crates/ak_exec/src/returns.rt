//! What a return does.

ghost use Rattle.std.specs.Prelude.{◌≡◌, ◌<◌, length, None, OnOk};
ghost use Rattle.ak_cells.specs.Names.{name_in};
ghost use Rattle.ak_machine.specs.Deferred.{number_at as full_with};
ghost use Rattle.ak_machine.specs.Job.{returned as returned_by};
ghost use Rattle.ak_holders.specs.Returns.{IsEmptyResult};
ghost use Rattle.ak_state.specs.Drawn.{drawn};
ghost use Rattle.ak_state.specs.Fits.{RetFits, FitsSome};
ghost use Rattle.ak_exec.specs.Typed.{IsReturned};
ghost use Rattle.ak_state.specs.Reads.{value_named, ret_named};

use ak_base::list::NoMemory;
use ak_base::number::{GroupNo, IvarNo, Num};
use ak_frames::frame::{BodyId, Ret};
use ak_frames::value::Value;
use ak_state::parts::Parts;

/// A number is returned: the result is filled, where it is empty.
fn return_number(parts: &mut Parts, r: IvarNo, num: Num) -> Result<(), NoMemory>
    requires { name_in parts.old.names r < length parts.old.plain.cells.ivars }
    ensures { OnOk result (parts.new.plain
        ≡ returned_by (Ret.To (name_in parts.old.names r)) (Value.Num num) parts.old.plain) }
{
    parts.check_drawn(r);
    parts.fill(r, num)?;
    Ok(())
}

/// A deferred is returned: the result, which is empty, is connected with it.
fn return_deferred(parts: &mut Parts, r: IvarNo, i: IvarNo) -> Result<(), NoMemory>
    requires result { name_in parts.old.names r < length parts.old.plain.cells.ivars }
    requires deferred { name_in parts.old.names i < length parts.old.plain.cells.ivars }
    requires empty { full_with (name_in parts.old.names r) parts.old.plain ≡ None }
    ensures { OnOk result (parts.new.plain
        ≡ returned_by (Ret.To (name_in parts.old.names r)) (Value.Def (name_in parts.old.names i))
        parts.old.plain) }
{
    parts.check_drawn(r);
    parts.check_drawn(i);
    parts.connect(r, i)
}

/// A value is returned to a result.
fn return_value(parts: &mut Parts, r: IvarNo, value: Value) -> Result<(), NoMemory>
    requires result { name_in parts.old.names r < length parts.old.plain.cells.ivars }
    requires value { IsReturned (drawn parts.old.plain)
        (value_named parts.old value) }
    requires empty { full_with (name_in parts.old.names r) parts.old.plain ≡ None }
    ensures { OnOk result (parts.new.plain
        ≡ returned_by (Ret.To (name_in parts.old.names r))
        (value_named parts.old value) parts.old.plain) }
{
    match value {
        Value::Num(num) => return_number(parts, r, num),
        Value::Ivar(i) => return_deferred(parts, r, i),
        Value::Def(i) => return_deferred(parts, r, i),
        _ => unreachable!(),
    }
}

/// A value is returned to a guard.
fn return_to_guard(parts: &mut Parts, g: GroupNo, value: Value) -> Result<(), NoMemory>
    requires guard { g < length parts.old.plain.groups }
    requires value { IsReturned (drawn parts.old.plain) (value_named parts.old value) }
    requires fits { FitsSome parts.old.plain }
    ensures { OnOk result (parts.new.plain
        ≡ returned_by (Ret.TryBody g) (value_named parts.old value) parts.old.plain) }
{
    match value {
        Value::Num(num) => parts.end_try(g, num),
        Value::Ivar(i) => await_value(parts, g, i),
        Value::Def(i) => await_value(parts, g, i),
        _ => unreachable!(),
    }
}

/// A guard waits for a deferred.
fn await_value(parts: &mut Parts, g: GroupNo, i: IvarNo) -> Result<(), NoMemory>
    requires guard { g < length parts.old.plain.groups }
    requires deferred { name_in parts.old.names i < length parts.old.plain.cells.ivars }
    requires fits { FitsSome parts.old.plain }
    ensures { OnOk result (parts.new.plain
        ≡ returned_by (Ret.TryBody g) (Value.Def (name_in parts.old.names i)) parts.old.plain) }
{
    parts.check_drawn(i);
    parts.await_try(g, i)
}

/// A value is returned to a body of a throttle.
fn return_to_body(parts: &mut Parts, b: &BodyId, value: Value) -> Result<(), NoMemory>
    requires value { IsReturned (drawn parts.old.plain) (value_named parts.old value) }
    requires fits { FitsSome parts.old.plain }
    ensures { OnOk result (parts.new.plain
        ≡ returned_by (Ret.ThrottleBody b.now) (value_named parts.old value) parts.old.plain) }
{
    match value {
        Value::Num(num) => parts.end_body(b, num),
        Value::Ivar(i) => await_result(parts, b, i),
        Value::Def(i) => await_result(parts, b, i),
        _ => unreachable!(),
    }
}

/// A body waits for a deferred.
fn await_result(parts: &mut Parts, b: &BodyId, i: IvarNo) -> Result<(), NoMemory>
    requires { name_in parts.old.names i < length parts.old.plain.cells.ivars }
    ensures { OnOk result (parts.new.plain
        ≡ returned_by (Ret.ThrottleBody b.now) (Value.Def (name_in parts.old.names i))
        parts.old.plain) }
{
    parts.check_drawn(i);
    parts.await_body(b, i)
}

/// A procedure returns.
pub fn returned(parts: &mut Parts, ret: Ret, value: Value) -> Result<(), NoMemory>
    requires ret { RetFits (drawn parts.old.plain)
        (ret_named parts.old ret) }
    requires value { IsReturned (drawn parts.old.plain)
        (value_named parts.old value) }
    requires empty { IsEmptyResult (ret_named parts.old ret) parts.old.plain }
    requires fits { FitsSome parts.old.plain }
    ensures { OnOk result (parts.new.plain
        ≡ returned_by (ret_named parts.old ret)
        (value_named parts.old value) parts.old.plain) }
{
    match ret {
        Ret::Drop => Ok(()),
        Ret::To(r) => return_value(parts, r, value),
        Ret::TryBody(guard) => return_to_guard(parts, guard, value),
        Ret::ThrottleBody(body) => return_to_body(parts, &body, value),
    }
}
