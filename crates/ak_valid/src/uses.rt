//! The locals that a statement uses, but for the arguments of its calls.

ghost use Rattle.std.specs.Prelude.{◌≡◌, [], ◌∷◌, ◌++◌, map, None};
ghost use Rattle.std.specs.List.{flat_map, list_any};
ghost use Rattle.ak_script.specs.declared.script.Kind.TheVariants as of_kind;
ghost use Rattle.ak_valid.specs.Uses.{local as local_use, number as number_use, returned as returned_use, uses};
ghost use Rattle.ak_valid.specs.Valid.{prefix_uses};
ghost use Rattle.ak_valid.specs.Faults.{may_serve, kind_faults, use_faults, least};

use crate::least::lesser;
use crate::locals::Locals;
use crate::refusal::FaultKind;
use ak_base::list::Word;
use ak_script::script::{Kind, Prefix};
use ak_script::statement::{Atom, Choice, Stmt};

/// Whether a local of the one kind may stand where the other is wanted.
pub fn serves(kind: Kind, wanted: Kind) -> bool
    ensures { result ≡ may_serve kind wanted }
{
    kind == wanted || (kind == Kind::Ivar && wanted == Kind::Def)
}

/// Something of the one kind where the other is wanted.
pub fn kind(kind: Kind, wanted: Kind) -> Option<FaultKind>
    ensures { result ≡ least (kind_faults kind (wanted ∷ [])) }
{
    if serves(kind, wanted) {
        None
    } else {
        Some(FaultKind::WrongKind)
    }
}

/// A local where one kind is wanted.
pub fn local(locals: &Locals, name: &Word, wanted: Kind) -> Option<FaultKind>
    ensures { result ≡ least (use_faults locals.now (local_use name.now wanted)) }
{
    match locals.kind(name.as_slice()) {
        None => Some(FaultKind::UnknownName),
        Some(found) => kind(found, wanted),
    }
}

/// A number, or a local that is one.
fn number(locals: &Locals, a: &Atom) -> Option<FaultKind>
    ensures { result ≡ least (flat_map (use_faults locals.now) (number_use a.now)) }
{
    match a {
        Atom::Literal(_) => None,
        Atom::Local(name) => local(locals, name, Kind::Num),
    }
}

/// What a procedure may return: a number or a deferred.
fn returned(locals: &Locals, a: &Atom) -> Option<FaultKind>
    ensures { result ≡ least (flat_map (use_faults locals.now) (returned_use a.now)) }
{
    match a {
        Atom::Literal(_) => None,
        Atom::Local(name) => returned_local(locals, name),
    }
}

/// A local that a procedure may return.
fn returned_local(locals: &Locals, name: &Word) -> Option<FaultKind>
    ensures { result ≡ least
        (use_faults locals.now (record {
          name = name.now;
          wanted =
              of_kind.Num ∷ of_kind.Def ∷ [];
        })) }
{
    match locals.kind(name.as_slice()) {
        None => Some(FaultKind::UnknownName),
        Some(found) if serves(found, Kind::Num) || serves(found, Kind::Def) => None,
        Some(_) => Some(FaultKind::WrongKind),
    }
}

/// Two numbers.
fn numbers(locals: &Locals, a: &Atom, b: &Atom) -> Option<FaultKind>
    ensures { result ≡ least
        (flat_map (use_faults locals.now) (number_use a.now ++ number_use b.now)) }
{
    lesser(number(locals, a), number(locals, b))
}

/// A local alone.
fn one(locals: &Locals, name: &Word, wanted: Kind) -> Option<FaultKind>
    ensures { result ≡ least (flat_map (use_faults locals.now) (local_use name.now wanted ∷ [])) }
{
    local(locals, name, wanted)
}

/// A local and a number.
fn local_and_number(locals: &Locals, name: &Word, wanted: Kind, a: &Atom) -> Option<FaultKind>
    ensures { result ≡ least
        (flat_map (use_faults locals.now) (local_use name.now wanted ∷ number_use a.now)) }
{
    lesser(local(locals, name, wanted), number(locals, a))
}

/// A list of deferreds.
fn deferreds(locals: &Locals, names: &[Word]) -> Option<FaultKind>
    ensures { result ≡ least
        (flat_map (use_faults locals.now) (map (λ d. local_use d of_kind.Def) names.now)) }
{
    let mut fault = None;
    for name in names {
        fault = lesser(fault, local(locals, name, Kind::Def));
    }
    fault
}

/// The deferreds of a `choose`.
fn choices(locals: &Locals, choices: &[Choice]) -> Option<FaultKind>
    ensures { result ≡ least
        (flat_map (use_faults locals.now)
        (map (λ choice. local_use choice.d of_kind.Def) choices.now)) }
{
    let mut fault = None;
    for choice in choices {
        fault = lesser(fault, local(locals, &choice.d, Kind::Def));
    }
    fault
}

/// The number of a prefix.
pub fn prefix(locals: &Locals, prefix: &Option<Prefix>) -> Option<FaultKind>
    ensures { result ≡ least (flat_map (use_faults locals.now) (prefix_uses prefix.now)) }
{
    match prefix {
        None => None,
        Some(Prefix::If(a)) => number(locals, a),
        Some(Prefix::Unless(a)) => number(locals, a),
    }
}

/// The locals that a statement uses, but for the arguments of its calls.
pub fn statement(locals: &Locals, stmt: &Stmt) -> Option<FaultKind>
    ensures { result ≡ least (flat_map (use_faults locals.now) (uses stmt.now)) }
{
    match stmt {
        Stmt::Set { a, b, .. } => numbers(locals, a, b),
        Stmt::Print { a } | Stmt::Raise { a } | Stmt::Work { a, .. } => number(locals, a),
        Stmt::After { n, .. } | Stmt::Event { n, .. } | Stmt::Tick { n } => number(locals, n),
        Stmt::Fill { i, a } | Stmt::Offer { i, a } => local_and_number(locals, i, Kind::Ivar, a),
        Stmt::Send { m, a } => local_and_number(locals, m, Kind::Mon, a),
        Stmt::Write { p, a, .. } | Stmt::Put { p, a } => local_and_number(locals, p, Kind::Pipe, a),
        Stmt::HelperWork { h, a, .. } => local_and_number(locals, h, Kind::Helper, a),
        Stmt::Upon { d, .. } | Stmt::Bind { d, .. } => one(locals, d, Kind::Def),
        Stmt::All {
            deferreds: names,
            ..
        }
        | Stmt::Any {
            deferreds: names,
            ..
        } => deferreds(locals, names.as_slice()),
        Stmt::Choose { choices: list, .. } => choices(locals, list.as_slice()),
        Stmt::Abort { e } => one(locals, e, Kind::Event),
        Stmt::Within { m, .. } | Stmt::Detach { m } => one(locals, m, Kind::Mon),
        Stmt::OnError { m, .. } | Stmt::NextError { m, .. } => one(locals, m, Kind::Mon),
        Stmt::Enqueue { t, .. } | Stmt::ThrottleDone { t, .. } => one(locals, t, Kind::Thr),
        Stmt::Read { p, .. } | Stmt::Flushed { p, .. } => one(locals, p, Kind::Pipe),
        Stmt::Close { p } | Stmt::CloseRead { p } => one(locals, p, Kind::Pipe),
        Stmt::HelperDone { h } => one(locals, h, Kind::Helper),
        Stmt::Ret { a } => returned(locals, a),
        _ => None,
    }
}
