//! The procedures that a statement calls, and what it passes to them.

ghost use Rattle.std.specs.Prelude.{◌≡◌, ◌+◌, ◌==◌, ℕ, List, [], ◌∷◌, ◌++◌, length, map, take, drop, None, if◌then◌else◌};
ghost use Rattle.std.specs.List.{flat_map};
ghost use Rattle.std.specs.Option.{option_map_or};
ghost use Rattle.ak_valid.specs.Uses.{Callee, callees};
ghost use Rattle.ak_valid.specs.Valid.{proc_named};
ghost use Rattle.ak_valid.specs.Faults.{unknown_faults, passed_faults, args_faults, front_faults, count_faults, takes_faults, callee_faults, least};

use crate::least::lesser;
use crate::locals::Locals;
use crate::procs::Procs;
use crate::refusal::FaultKind;
use crate::uses;
use ak_base::list::Word;
use ak_script::script::{Kind, Param};
use ak_script::statement::{Args, Atom, Choice, Stmt};

/// An argument that is no known local.
fn unknown(locals: &Locals, a: &Atom) -> Option<FaultKind>
    ensures { result ≡ least (unknown_faults locals.now a.now) }
{
    match a {
        Atom::Local(name) if locals.kind(name.as_slice()).is_none() => Some(FaultKind::UnknownName),
        _ => None,
    }
}

/// Arguments that are no known locals.
fn any_unknown(locals: &Locals, args: &[Atom]) -> Option<FaultKind>
    ensures { result ≡ least (flat_map (unknown_faults locals.now) args.now) }
{
    let mut fault = None;
    for a in args {
        fault = lesser(fault, unknown(locals, a));
    }
    fault
}

/// An argument in the place of a parameter.
fn passed(locals: &Locals, a: &Atom, param: &Param) -> Option<FaultKind>
    ensures { result ≡ least (passed_faults locals.now a.now param.now) }
{
    match a {
        Atom::Literal(_) => uses::kind(Kind::Num, param.kind),
        Atom::Local(name) => uses::local(locals, name, param.kind),
    }
}

/// Arguments and parameters, as far as both reach.
fn all_passed(locals: &Locals, args: &[Atom], params: &[Param]) -> Option<FaultKind>
    ensures { result ≡ least (args_faults locals.now args.now params.now) }
{
    let mut fault = None;
    for (a, param) in args.iter().zip(params) {
        fault = lesser(fault, passed(locals, a, param));
    }
    fault
}

/// Parameters that take the numbers in front.
fn front(params: &[Param]) -> Option<FaultKind>
    ensures { result ≡ least (flat_map front_faults params.now) }
{
    let mut fault = None;
    for param in params {
        fault = lesser(fault, uses::kind(Kind::Num, param.kind));
    }
    fault
}

/// Whether so many values are as many as the parameters.
fn count(params: &[Param], in_front: usize, args: &[Atom]) -> Option<FaultKind>
    ensures { result ≡ least (if (in_front + length args.now)
        == length params.now then [] else FaultKind.WrongCount ∷ []) }
{
    if in_front <= params.len() && args.len() == params.len() - in_front {
        None
    } else {
        Some(FaultKind::WrongCount)
    }
}

/// What a call passes to these parameters.
fn takes(locals: &Locals, params: &[Param], in_front: usize, args: &[Atom]) -> Option<FaultKind>
    ensures { (called : List ℕ)
        → result ≡ least (takes_faults locals.now params.now
        (record { name = called; front = in_front; args = args.now })) }
{
    let (numbers, rest) = params.split_at(in_front.min(params.len()));
    let kinds = lesser(front(numbers), all_passed(locals, args, rest));
    lesser(kinds, count(params, in_front, args))
}

/// What a call passes to the procedure of the name.
fn called(
    procs: &Procs,
    locals: &Locals,
    proc: &Word,
    in_front: usize,
    args: &[Atom],
) -> Option<FaultKind>
    ensures { result ≡ least
        (option_map_or (λ found. takes_faults locals.now found.params
        (record { name = proc.now; front = in_front; args = args.now }))
        (proc_named procs.now proc.now) (FaultKind.UnknownName ∷ [])) }
{
    match procs.named(proc.as_slice()) {
        None => Some(FaultKind::UnknownName),
        Some(found) => takes(locals, found.params.as_slice(), in_front, args),
    }
}

/// A call with so many numbers in front of the arguments.
#[tactic(auto, using(crate::proofs::LeastKinds::least_append))]
fn call(
    procs: &Procs,
    locals: &Locals,
    proc: &Word,
    in_front: usize,
    args: &[Atom],
) -> Option<FaultKind>
    ensures { result ≡ least
        (callee_faults procs.now locals.now (record {
          name = proc.now;
          front = in_front;
          args =
              args.now;
        })) }
{
    lesser(
        any_unknown(locals, args),
        called(procs, locals, proc, in_front, args),
    )
}

/// A call alone.
fn one(
    procs: &Procs,
    locals: &Locals,
    proc: &Word,
    in_front: usize,
    args: &[Atom],
) -> Option<FaultKind>
    ensures { result ≡ least
        (flat_map (callee_faults procs.now locals.now)
        (record { name = proc.now; front = in_front; args = args.now } ∷ [])) }
{
    call(procs, locals, proc, in_front, args)
}

/// The calls of a `choose`, each with the value of a deferred.
fn choices(procs: &Procs, locals: &Locals, choices: &[Choice], args: &[Atom]) -> Option<FaultKind>
    ensures { result ≡ least
        (flat_map (callee_faults procs.now locals.now)
        (map (λ choice. record { name = choice.proc; front = 1; args = args.now }) choices.now)) }
{
    let mut fault = None;
    for choice in choices {
        fault = lesser(fault, call(procs, locals, &choice.proc, 1, args));
    }
    fault
}

/// The calls of a `try`: its body, and the handler with the error.
#[tactic(auto, using(crate::proofs::LeastKinds::least_append))]
fn trying(
    procs: &Procs,
    locals: &Locals,
    proc: &Word,
    args: &Args,
    catch: &Word,
    catch_args: &Args,
) -> Option<FaultKind>
    ensures { result ≡ least
        (flat_map (callee_faults procs.now locals.now)
        (record { name = proc.now; front = 0; args = args.now }
        ∷ record { name = catch.now; front = 1; args = catch_args.now } ∷ [])) }
{
    lesser(
        call(procs, locals, proc, 0, args.as_slice()),
        one(procs, locals, catch, 1, catch_args.as_slice()),
    )
}

/// The calls of a read: with the item, or at the end of the pipe.
#[tactic(auto, using(crate::proofs::LeastKinds::least_append))]
fn reading(
    procs: &Procs,
    locals: &Locals,
    proc: &Word,
    args: &Args,
    eof: &Word,
    eof_args: &Args,
) -> Option<FaultKind>
    ensures { result ≡ least
        (flat_map (callee_faults procs.now locals.now)
        (record { name = proc.now; front = 1; args = args.now }
        ∷ record { name = eof.now; front = 0; args = eof_args.now } ∷ [])) }
{
    lesser(
        call(procs, locals, proc, 1, args.as_slice()),
        one(procs, locals, eof, 0, eof_args.as_slice()),
    )
}

/// The procedures that a statement calls.
pub fn statement(procs: &Procs, locals: &Locals, stmt: &Stmt) -> Option<FaultKind>
    ensures { result ≡ least (flat_map (callee_faults procs.now locals.now) (callees stmt.now)) }
{
    match stmt {
        Stmt::Sched { proc, args } => one(procs, locals, proc, 0, args.as_slice()),
        Stmt::Low { proc, args } => one(procs, locals, proc, 0, args.as_slice()),
        Stmt::Within { proc, args, .. } => one(procs, locals, proc, 0, args.as_slice()),
        Stmt::Enqueue { proc, args, .. } => one(procs, locals, proc, 0, args.as_slice()),
        Stmt::Upon { proc, args, .. } => one(procs, locals, proc, 1, args.as_slice()),
        Stmt::Bind { proc, args, .. } => one(procs, locals, proc, 1, args.as_slice()),
        Stmt::OnError { proc, args, .. } => one(procs, locals, proc, 1, args.as_slice()),
        Stmt::All {
            deferreds,
            proc,
            args,
            ..
        } => one(procs, locals, proc, deferreds.len(), args.as_slice()),
        Stmt::Choose {
            choices: list,
            args,
            ..
        } => choices(procs, locals, list.as_slice(), args.as_slice()),
        Stmt::Try {
            proc,
            args,
            catch,
            catch_args,
            ..
        } => trying(procs, locals, proc, args, catch, catch_args),
        Stmt::Read {
            proc,
            args,
            eof,
            eof_args,
            ..
        } => reading(procs, locals, proc, args, eof, eof_args),
        _ => None,
    }
}
