//! The lines of a script in their order, up to the first with a fault.

ghost use Rattle.std.specs.Prelude.{◌≡◌, [], ◌∷◌, ◌++◌, None, Some, IfOk, OnOk, IfErr};
ghost use Rattle.std.specs.List.{flat_map};
ghost use Rattle.std.specs.Option.{option_map_or};
ghost use Rattle.ak_script.specs.Statements.{binds};
ghost use Rattle.ak_syntax.specs.Grammar.{locals as locals_of};
ghost use Rattle.ak_valid.specs.Faults.{twice_named, main_faults, head_faults, statement_faults, body_lines, proc_lines, first_fault, kind_number, least};
ghost use Rattle.ak_valid.specs.Refusals.{Refuses};

use crate::least::{lesser, refuse};
use crate::locals::Locals;
use crate::names::Names;
use crate::procs::Procs;
use crate::refusal::{FaultKind, ValidRefused};
use crate::{binds, calls, uses};
use ak_base::list::NoMemory;
use ak_script::script::{Proc, Statement};
use std::alloc::Global;

/// A line of a body. Where it has no fault, the locals that it binds are put last.
fn line<'a>(
    procs: &Procs,
    locals: &mut Locals<'a>,
    statement: &'a Statement,
) -> Result<(), ValidRefused>
    ensures ok { OnOk result
        ((least (statement_faults procs.now locals.old statement.now) ≡ None)
        × (locals.new ≡ locals.old ++ binds statement.now.stmt)) }
    ensures err { IfErr result
        (λ e. Refuses (option_map_or (λ kind. Some (statement.now.line, kind_number kind))
        (least (statement_faults procs.now locals.old statement.now)) None) e) }
{
    let condition = uses::prefix(locals, &statement.prefix);
    let used = uses::statement(locals, &statement.stmt);
    let called = calls::statement(procs, locals, &statement.stmt);
    let twice = binds::statement(locals, &statement.stmt)?;
    refuse(
        statement.line,
        lesser(lesser(lesser(twice, condition), used), called),
    )?;
    Ok(())
}

/// The lines of a body. Where none has a fault, the locals that they bind are put last.
fn body<'a>(
    procs: &Procs,
    locals: &mut Locals<'a>,
    body: &'a [Statement],
) -> Result<(), ValidRefused>
    ensures ok { OnOk result ((first_fault (body_lines procs.now locals.old body.now) ≡ None)
        × (locals.new ≡ locals.old ++ flat_map (λ statement. binds statement.stmt) body.now)) }
    ensures err { IfErr result
        (λ e. Refuses (first_fault (body_lines procs.now locals.old body.now)) e) }
{
    for statement in body {
        line(procs, locals, statement)?;
    }
    Ok(())
}

/// The name of a procedure, which is put last where it is new.
fn name<'a>(seen: &mut Names<'a>, proc: &'a Proc) -> Result<Option<FaultKind>, NoMemory>
    ensures { IfOk result (λ fault. (fault ≡ least (twice_named seen.old (proc.now.name ∷ [])))
        × (fault ≡ None → seen.new ≡ seen.old ++ proc.now.name ∷ [])) }
{
    if seen.add(proc.name.as_slice())? {
        Ok(None)
    } else {
        Ok(Some(FaultKind::TwiceNamed))
    }
}

/// The parameters of a procedure that is named `main`.
fn main(proc: &Proc) -> Option<FaultKind>
    ensures { result ≡ least (main_faults proc.now) }
{
    if b"main".as_slice() == proc.name.as_slice() && proc.params.len() != 0 {
        Some(FaultKind::WrongCount)
    } else {
        None
    }
}

/// The first line of a procedure: its parameters as the first locals.
fn head<'a>(alloc: Global, seen: &mut Names<'a>, proc: &'a Proc) -> Result<Locals<'a>, ValidRefused>
    ensures ok { IfOk result (λ locals. (least (head_faults seen.old proc.now) ≡ None)
        × (seen.new ≡ seen.old ++ proc.now.name ∷ []) × (locals ≡ proc.now.params)) }
    ensures err { IfErr result
        (λ e. Refuses (option_map_or (λ kind. Some (proc.now.line, kind_number kind))
        (least (head_faults seen.old proc.now)) None) e) }
{
    let mut locals = Locals::with_capacity(alloc, proc.params.len() + proc.body.len())?;
    let twice = name(seen, proc)?;
    let params = binds::params(&mut locals, proc.params.as_slice())?;
    refuse(proc.line, lesser(lesser(twice, params), main(proc)))?;
    Ok(locals)
}

/// The lines of a procedure: its locals.
pub fn proc<'a>(
    alloc: Global,
    procs: &Procs,
    seen: &mut Names<'a>,
    proc: &'a Proc,
) -> Result<Locals<'a>, ValidRefused>
    ensures ok { IfOk result
        (λ locals. (first_fault (proc_lines procs.now seen.old proc.now) ≡ None)
        × (seen.new ≡ seen.old ++ proc.now.name ∷ []) × (locals ≡ locals_of proc.now)) }
    ensures err { IfErr result
        (λ e. Refuses (first_fault (proc_lines procs.now seen.old proc.now)) e) }
{
    let mut locals = head(alloc, seen, proc)?;
    body(procs, &mut locals, proc.body.as_slice())?;
    Ok(locals)
}
