//! Values of locals. What a statement reads is there and of the right kind, since the program is sound.

ghost use Rattle.std.specs.Prelude.{◌≡◌, ◌∷◌, ◌<◌, length, IfOk};
ghost use Rattle.ak_machine.specs.Effect.{local, number_of, name_of};
ghost use Rattle.ak_state.specs.Reads.{IsNum, IsName, IsMon, IsPipeName, IsThr, IsEvent, IsHelper};

use ak_base::list::{Items, NoMemory};
use ak_base::number::{EventNo, HelperNo, IvarNo, MonNo, Num, PipeNo, ThrottleNo};
use ak_frames::value::{Vals, Value};
use std::alloc::Global;

/// The value of a local.
pub fn local_at(vals: &Vals, k: usize) -> Value
    requires { k < length vals.now }
    ensures { result ≡ local vals.now k }
{
    match vals.get(k) {
        Some(value) => *value,
        None => unreachable!(),
    }
}

/// The number that a value is.
pub fn num_of(value: Value) -> Num
    requires { IsNum value }
    ensures { result ≡ number_of value }
{
    match value {
        Value::Num(num) => num,
        _ => unreachable!(),
    }
}

/// The ivar that a value names.
pub fn ivar_of(value: Value) -> IvarNo
    requires { IsName value }
    ensures { result ≡ name_of value }
{
    match value {
        Value::Ivar(i) => i,
        Value::Def(i) => i,
        _ => unreachable!(),
    }
}

/// The monitor that a value names.
pub fn mon_of(value: Value) -> MonNo
    requires { IsMon value }
    ensures { result ≡ name_of value }
{
    match value {
        Value::Mon(mon) => mon,
        _ => unreachable!(),
    }
}

/// The pipe that a value names.
pub fn pipe_of(value: Value) -> PipeNo
    requires { IsPipeName value }
    ensures { result ≡ name_of value }
{
    match value {
        Value::Pipe(p) => p,
        _ => unreachable!(),
    }
}

/// The throttle that a value names.
pub fn thr_of(value: Value) -> ThrottleNo
    requires { IsThr value }
    ensures { result ≡ name_of value }
{
    match value {
        Value::Thr(t) => t,
        _ => unreachable!(),
    }
}

/// The alarm that a value names.
pub fn event_of(value: Value) -> EventNo
    requires { IsEvent value }
    ensures { result ≡ name_of value }
{
    match value {
        Value::Event(e) => e,
        _ => unreachable!(),
    }
}

/// The helper that a value names.
pub fn helper_of(value: Value) -> HelperNo
    requires { IsHelper value }
    ensures { result ≡ name_of value }
{
    match value {
        Value::Helper(helper) => helper,
        _ => unreachable!(),
    }
}

/// Values with a number put before them.
pub fn numbered(alloc: Global, num: Num, vals: &Vals) -> Result<Vals, NoMemory>
    ensures { IfOk result (λ all. all ≡ Value.Num num ∷ vals.now) }
{
    let mut all = Vec::with_capacity(alloc, vals.len() + 1)?;
    all.push(Value::Num(num))?;
    all.extend_from_slice(vals.as_slice())?;
    Ok(Items::from_vec(all))
}

/// Values with a number put before them, where there is room for one more.
pub fn put_first(num: Num, vals: Vals) -> Result<Vals, NoMemory>
    ensures { IfOk result (λ all. all ≡ Value.Num num ∷ vals) }
{
    let mut all = vals.into_vec();
    all.insert(0, Value::Num(num))?;
    Ok(Items::from_vec(all))
}
