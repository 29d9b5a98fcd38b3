//! Words of statements by their places.

ghost use Rattle.std.specs.Prelude.{◌≡◌, map, IfOk};
ghost use Rattle.ak_valid.specs.Numbered.{at, work_kind, numbered_atom, numbered_choice, param_names, proc_names};

use crate::locals::Locals;
use crate::procs::Procs;
use ak_base::list::{Items, NoMemory, Word};
use ak_labor::work::WorkKind;
use ak_program::statement::{NumArgs, NumAtom, NumChoice, NumChoices, Places};
use ak_script::statement::{Atom, Choice, WorkWord};
use std::alloc::Global;

/// What a word of a work asks for.
pub fn kind(word: WorkWord) -> WorkKind
    ensures { result ≡ work_kind word }
{
    match word {
        WorkWord::Square => WorkKind::Square,
        WorkWord::Mix => WorkKind::Mix,
        WorkWord::Fail => WorkKind::Fail,
    }
}

/// A number, or a local by its place.
pub fn atom(locals: &Locals, a: &Atom) -> NumAtom
    ensures { result ≡ numbered_atom (param_names locals.now) a.now }
{
    match a {
        Atom::Literal(n) => NumAtom::Literal(*n),
        Atom::Local(name) => NumAtom::Local(locals.place(name.as_slice())),
    }
}

/// Arguments.
pub fn args(alloc: Global, locals: &Locals, args: &[Atom]) -> Result<NumArgs, NoMemory>
    ensures { IfOk result
        (λ numbered. numbered ≡ map (numbered_atom (param_names locals.now)) args.now) }
{
    let mut numbered = Vec::with_capacity(alloc, args.len())?;
    for a in args {
        numbered.push(atom(locals, a))?;
    }
    Ok(Items::from_vec(numbered))
}

/// A list of deferreds.
pub fn places(alloc: Global, locals: &Locals, names: &[Word]) -> Result<Places, NoMemory>
    ensures { IfOk result (λ numbered. numbered ≡ map (at (param_names locals.now)) names.now) }
{
    let mut numbered = Vec::with_capacity(alloc, names.len())?;
    for name in names {
        numbered.push(locals.place(name.as_slice()))?;
    }
    Ok(Items::from_vec(numbered))
}

/// A deferred of a `choose`, and its procedure.
fn choice(procs: &Procs, locals: &Locals, choice: &Choice) -> NumChoice
    ensures { result ≡ numbered_choice (proc_names procs.now) (param_names locals.now) choice.now }
{
    NumChoice {
        d: locals.place(choice.d.as_slice()),
        proc: procs.place(choice.proc.as_slice()),
    }
}

/// The deferreds of a `choose`.
pub fn choices(
    alloc: Global,
    procs: &Procs,
    locals: &Locals,
    choices: &[Choice],
) -> Result<NumChoices, NoMemory>
    ensures { IfOk result
        (λ numbered. numbered ≡ map (numbered_choice (proc_names procs.now)
        (param_names locals.now)) choices.now) }
{
    let mut numbered = Vec::with_capacity(alloc, choices.len())?;
    for item in choices {
        numbered.push(choice(procs, locals, item))?;
    }
    Ok(Items::from_vec(numbered))
}
