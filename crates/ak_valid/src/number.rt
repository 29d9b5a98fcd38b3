//! Procedures and their lines by places.

ghost use Rattle.std.specs.Prelude.{◌≡◌, map, IfOk};
ghost use Rattle.ak_syntax.specs.Grammar.{locals as locals_of};
ghost use Rattle.ak_valid.specs.Numbered.{numbered_prefix, numbered_statement, numbered_param, numbered_proc, param_names, proc_names};

use crate::locals::Locals;
use crate::places::atom;
use crate::procs::Procs;
use crate::statements;
use ak_base::list::{Items, NoMemory};
use ak_program::program::{NumParam, NumPrefix, NumProc, NumStatement};
use ak_script::script::{Param, Prefix, Proc, Statement};
use std::alloc::Global;

/// A parameter by its place.
fn param(locals: &Locals, param: &Param) -> NumParam
    ensures { result ≡ numbered_param (param_names locals.now) param.now }
{
    NumParam {
        name: locals.place(param.name.as_slice()),
        kind: param.kind,
    }
}

/// Parameters by their places.
fn params(alloc: Global, locals: &Locals, params: &[Param]) -> Result<Items<NumParam>, NoMemory>
    ensures { IfOk result
        (λ numbered. numbered ≡ map (numbered_param (param_names locals.now)) params.now) }
{
    let mut numbered = Vec::with_capacity(alloc, params.len())?;
    for item in params {
        numbered.push(param(locals, item))?;
    }
    Ok(Items::from_vec(numbered))
}

/// A prefix, with its number or local by its place.
fn prefix(locals: &Locals, prefix: &Option<Prefix>) -> Option<NumPrefix>
    ensures { result ≡ numbered_prefix (param_names locals.now) prefix.now }
{
    match prefix {
        None => None,
        Some(Prefix::If(a)) => Some(NumPrefix::If(atom(locals, a))),
        Some(Prefix::Unless(a)) => Some(NumPrefix::Unless(atom(locals, a))),
    }
}

/// A line of a body.
fn line(
    alloc: Global,
    procs: &Procs,
    locals: &Locals,
    statement: &Statement,
) -> Result<NumStatement, NoMemory>
    ensures { IfOk result
        (λ numbered. numbered ≡ numbered_statement (proc_names procs.now)
        (param_names locals.now) statement.now) }
{
    Ok(NumStatement {
        line: statement.line,
        prefix: prefix(locals, &statement.prefix),
        stmt: statements::statement(alloc, procs, locals, &statement.stmt)?,
    })
}

/// The lines of a body.
fn body(
    alloc: Global,
    procs: &Procs,
    locals: &Locals,
    body: &[Statement],
) -> Result<Items<NumStatement>, NoMemory>
    ensures { IfOk result
        (λ numbered. numbered ≡ map (numbered_statement (proc_names procs.now)
        (param_names locals.now)) body.now) }
{
    let mut numbered = Vec::with_capacity(alloc, body.len())?;
    for statement in body {
        numbered.push(line(alloc, procs, locals, statement)?)?;
    }
    Ok(Items::from_vec(numbered))
}

/// A procedure, whose locals these are.
pub fn proc(alloc: Global, procs: &Procs, locals: &Locals, proc: &Proc) -> Result<NumProc, NoMemory>
    requires { locals.now ≡ locals_of proc.now }
    ensures { IfOk result (λ numbered. numbered ≡ numbered_proc (proc_names procs.now) proc.now) }
{
    Ok(NumProc {
        name: procs.place(proc.name.as_slice()),
        line: proc.line,
        params: params(alloc, locals, proc.params.as_slice())?,
        body: body(alloc, procs, locals, proc.body.as_slice())?,
    })
}
