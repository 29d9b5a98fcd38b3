//! Functions by name, with numbers in place of their names.

ghost use Rattle.std.specs.Prelude.{◌≡◌, [], ◌++◌, ◌<◌, ◌≤◌, ℕ, None, List, length, map, slice_get, Some, IfErr, IfOk, OnOk};
ghost use Rattle.ak_let_syntax.specs.Grammar.{binds};
ghost use Rattle.ak_let_reader.specs.NameFaults.{body_judged, first_fault, fun_judged, funs_judged, least, name_fault, stmt_faults};
ghost use Rattle.ak_let_reader.specs.Numbered.{fun_names, numbered, numbered_fun, numbered_lines, numbered_stmt};
ghost use Rattle.ak_let_reader.specs.Refusals.{AreBefore, RefusesFor, line_fault};

use crate::functions::Functions;
use crate::locals::Locals;
use crate::{faults, number};
use ak_base::list::Items;
use ak_let::source::{Fun, Line, Source};
use ak_let_syntax::named::{NamedFun, NamedLine};
use ak_let_syntax::refusal::{LetFault, LetRefused};
use std::alloc::Global;

/// The source of functions by name: a function by its place, a local by how many are newer.
///
/// # Errors
///
/// The first line with a fault of names and the least kind of its faults; or want of memory.
pub fn numbered(alloc: Global, funs: &[NamedFun]) -> Result<Source, LetRefused>
    ensures ok { IfOk result
        (λ source. (name_fault funs.now ≡ None) × (source ≡ numbered funs.now)) }
    ensures err { IfErr result (λ e. RefusesFor (name_fault funs.now) e) }
{
    let named = Functions::of(alloc, funs)?;
    if named.named(b"main".as_slice()).is_none() {
        return Err(LetRefused::at(0, LetFault::NoMain));
    }
    let numbered = functions(alloc, &named, funs)?;
    Ok(Source {
        funs: numbered,
        main: named.place(b"main".as_slice()),
    })
}

fn functions(alloc: Global, named: &Functions, funs: &[NamedFun]) -> Result<Items<Fun>, LetRefused>
    requires { named.now ≡ funs.now }
    ensures ok { IfOk result
        (λ numbered. (first_fault (funs_judged funs.now [] funs.now) ≡ None)
        × (numbered ≡ map (numbered_fun (fun_names funs.now)) funs.now)) }
    ensures err { IfErr result
        (λ e. RefusesFor (first_fault (funs_judged funs.now [] funs.now)) e) }
{
    let mut numbered = Items::from_vec(Vec::with_capacity(alloc, funs.len())?);
    for (place, fun) in funs.iter().enumerate() {
        numbered.push(function(alloc, named, place, fun)?)?;
    }
    Ok(numbered)
}

/// A function, before which so many stand.
fn function(
    alloc: Global,
    named: &Functions,
    place: usize,
    fun: &NamedFun,
) -> Result<Fun, LetRefused>
    requires { place ≤ length named.now }
    ensures ok { IfOk result
        (λ numbered. ((before : List (List ℕ)) → AreBefore named.now place before
        → first_fault (fun_judged named.now before fun.now) ≡ None)
        × (numbered ≡ numbered_fun (fun_names named.now) fun.now)) }
    ensures err { IfErr result (λ e. (before : List (List ℕ)) → AreBefore named.now place before
        → RefusesFor (first_fault (fun_judged named.now before fun.now)) e) }
{
    refuse(fun.number, faults::head(named, place, fun))?;
    let known = Locals::of(alloc, fun.params.as_slice())?;
    let lines = lines(alloc, named, known, fun.lines.as_slice())?;
    Ok(Fun {
        params: fun.params.len(),
        lines,
    })
}

/// The lines of a function behind those that bind the known locals.
fn lines<'a>(
    alloc: Global,
    named: &Functions,
    mut known: Locals<'a>,
    lines: &'a [NamedLine],
) -> Result<Items<Line>, LetRefused>
    ensures ok { IfOk result
        (λ numbered. (first_fault (body_judged named.now known.entry lines.now) ≡ None)
        × (numbered ≡ numbered_lines (fun_names named.now) known.entry lines.now)) }
    ensures err { IfErr result
        (λ e. RefusesFor (first_fault (body_judged named.now known.entry lines.now)) e) }
{
    let mut numbered = Items::from_vec(Vec::with_capacity(alloc, lines.len())?);
    for one in lines {
        numbered.push(line(alloc, named, &mut known, one)?)?;
    }
    Ok(numbered)
}

/// A line of a function; the local that it binds is known from then on.
fn line<'a>(
    alloc: Global,
    named: &Functions,
    known: &mut Locals<'a>,
    line: &'a NamedLine,
) -> Result<Line, LetRefused>
    ensures ok { IfOk result
        (λ numbered. (least (stmt_faults named.now known.old line.now.stmt) ≡ None)
        × (numbered ≡ numbered_stmt (fun_names named.now) known.old line.now.stmt)
        × (known.new ≡ binds line.now.stmt ++ known.old)) }
    ensures err { IfErr result (λ e. RefusesFor (line_fault line.now.number
        (least (stmt_faults named.now known.old line.now.stmt))) e) }
{
    refuse(line.number, faults::stmt(named, known, &line.stmt))?;
    let numbered = number::stmt(alloc, named, known, &line.stmt)?;
    if let Some(x) = faults::bound(&line.stmt) {
        known.bind(x.as_slice())?;
    }
    Ok(numbered)
}

/// Refuses a line by the least kind of its faults, where it has one.
fn refuse(line: u32, fault: Option<LetFault>) -> Result<(), LetRefused>
    ensures ok { OnOk result (fault ≡ None) }
    ensures err { IfErr result (λ e. RefusesFor (line_fault line fault) e) }
{
    match fault {
        None => Ok(()),
        Some(kind) => Err(LetRefused::at(line, kind)),
    }
}
