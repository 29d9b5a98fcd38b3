//! The locals that a procedure binds: its parameters, and the names of its statements.

ghost use Rattle.std.specs.Prelude.{◌≡◌, [], ◌∷◌, ◌++◌, None, IfOk};
ghost use Rattle.ak_script.specs.Statements.{binds, bound};
ghost use Rattle.ak_valid.specs.Numbered.{param_names};
ghost use Rattle.ak_valid.specs.Faults.{twice_named, least};

use crate::locals::Locals;
use crate::refusal::FaultKind;
use ak_base::list::{NoMemory, Word};
use ak_script::script::{Kind, Param};
use ak_script::statement::Stmt;

/// Binds a name, unless it is bound.
fn one<'a>(
    locals: &mut Locals<'a>,
    name: &'a Word,
    kind: Kind,
) -> Result<Option<FaultKind>, NoMemory>
    ensures { IfOk result
        (λ fault. (fault ≡ least (twice_named (param_names locals.old) (name.now ∷ [])))
        × (fault ≡ None → locals.new ≡ locals.old ++ bound name.now kind ∷ [])) }
{
    if locals.add(name.as_slice(), kind)? {
        Ok(None)
    } else {
        Ok(Some(FaultKind::TwiceNamed))
    }
}

/// Binds two names, the first first.
fn two<'a>(
    locals: &mut Locals<'a>,
    first: &'a Word,
    first_kind: Kind,
    second: &'a Word,
    second_kind: Kind,
) -> Result<Option<FaultKind>, NoMemory>
    ensures { IfOk result
        (λ fault. (fault ≡ least (twice_named (param_names locals.old)
        (first.now ∷ second.now ∷ []))) × (fault ≡ None
        → locals.new ≡ locals.old ++ bound first.now first_kind ∷ bound second.now second_kind
        ∷ [])) }
{
    if !locals.add(first.as_slice(), first_kind)? {
        return Ok(Some(FaultKind::TwiceNamed));
    }
    one(locals, second, second_kind)
}

/// Binds the parameters, as far as none is bound.
pub fn params<'a>(
    locals: &mut Locals<'a>,
    params: &'a [Param],
) -> Result<Option<FaultKind>, NoMemory>
    ensures { IfOk result
        (λ fault. (fault ≡ least (twice_named (param_names locals.old)
        (param_names params.now))) × (fault ≡ None → locals.new ≡ locals.old ++ params.now)) }
{
    for param in params {
        if !locals.add(param.name.as_slice(), param.kind)? {
            return Ok(Some(FaultKind::TwiceNamed));
        }
    }
    Ok(None)
}

/// Binds the names of a statement.
#[tactic(auto, using(crate::proofs::Binding::nothing_more))]
pub fn statement<'a>(locals: &mut Locals<'a>, stmt: &'a Stmt) -> Result<Option<FaultKind>, NoMemory>
    ensures { IfOk result
        (λ fault. (fault ≡ least (twice_named (param_names locals.old)
        (param_names (binds stmt.now)))) × (fault ≡ None
        → locals.new ≡ locals.old ++ binds stmt.now)) }
{
    match stmt {
        Stmt::Set { x, .. } => one(locals, x, Kind::Num),
        Stmt::Ivar { i } => one(locals, i, Kind::Ivar),
        Stmt::Bind { r, .. } => one(locals, r, Kind::Def),
        Stmt::All { r, .. } => one(locals, r, Kind::Def),
        Stmt::Any { r, .. } => one(locals, r, Kind::Def),
        Stmt::Choose { r, .. } => one(locals, r, Kind::Def),
        Stmt::Yield { r } => one(locals, r, Kind::Def),
        Stmt::Never { r } => one(locals, r, Kind::Def),
        Stmt::After { r, .. } => one(locals, r, Kind::Def),
        Stmt::Event { e, r, .. } => two(locals, e, Kind::Event, r, Kind::Def),
        Stmt::Monitor { m } => one(locals, m, Kind::Mon),
        Stmt::NextError { r, .. } => one(locals, r, Kind::Def),
        Stmt::Try { r, .. } => one(locals, r, Kind::Def),
        Stmt::Throttle { t, .. } => one(locals, t, Kind::Thr),
        Stmt::Enqueue { r, .. } => one(locals, r, Kind::Def),
        Stmt::ThrottleDone { r, .. } => one(locals, r, Kind::Def),
        Stmt::Pipe { p, .. } => one(locals, p, Kind::Pipe),
        Stmt::Write { r, .. } => one(locals, r, Kind::Def),
        Stmt::Read { r, .. } => one(locals, r, Kind::Def),
        Stmt::Flushed { r, .. } => one(locals, r, Kind::Def),
        Stmt::Work { r, .. } => one(locals, r, Kind::Def),
        Stmt::Helper { h, x } => two(locals, h, Kind::Helper, x, Kind::Num),
        Stmt::HelperWork { r, .. } => one(locals, r, Kind::Def),
        _ => Ok(None),
    }
}
