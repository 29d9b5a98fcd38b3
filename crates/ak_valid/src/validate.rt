//! The test of a script.

ghost use Rattle.std.specs.Prelude.{◌≡◌, [], ◌∷◌, None, map, IfOk, IfErr};
ghost use Rattle.ak_valid.specs.Numbered.{numbered as numbered_script, main_of, ask_of, numbered_proc, proc_names};
ghost use Rattle.ak_valid.specs.Faults.{line_zero, procs_lines, script_lines, first_fault};
ghost use Rattle.ak_valid.specs.Firsts.{AreFirsts};
ghost use Rattle.ak_valid.specs.Refusals.{Refuses, IsRefusal};
ghost use Rattle.ak_valid.specs.Valid.{Valid};

use crate::names::Names;
use crate::procs::Procs;
use crate::refusal::{FaultKind, ValidRefused};
use crate::{check, number, requests};
use ak_base::list::{Items, NoMemory};
use ak_program::program::{NumProc, Program};
use ak_script::script::{Proc, Script};
use std::alloc::Global;

/// The program of a script: each procedure by its place in the script, each local by its place among the parameters
/// and the names that the statements bind, from 0. Its `main` is the procedure of that name. Its `ask` is the first
/// procedure named `ask` that has one parameter, which is a number; a script may be without. The program is sound: a name
/// is used behind the line that binds it and as its kind allows, each call fits, and each statement has the form of the
/// grammar. A script is refused exactly where it has a fault, by the first line that has one, in the order of the lines,
/// and the least kind of that line's faults; line 0 comes before all. The script is spent. Own.
pub fn validate(alloc: Global, script: Script) -> Result<Program, ValidRefused>
    ensures ok { IfOk result
        (λ program. Valid script × (program ≡ record {
          procs = numbered_script script;
          main = main_of script;
          ask = ask_of script;
        })) }
    ensures err { IfErr result (λ refusal. IsRefusal script refusal) }
{
    let procs = script.into_procs();
    let named = by_name(alloc, procs.as_slice())?;
    let main = place_of_main(&named)?;
    let numbered = number_procs(alloc, &named, procs.as_slice())?;
    let ask = requests::ask(procs.as_slice());
    Ok(Program::new(numbered, main, ask))
}

/// The procedures by their names, of each name the first.
fn by_name<'a>(alloc: Global, procs: &'a [Proc]) -> Result<Procs<'a>, NoMemory>
    ensures { IfOk result (λ named. AreFirsts named procs.now) }
{
    let mut named = Procs::with_capacity(alloc, procs.len())?;
    for proc in procs {
        named.add(proc)?;
    }
    Ok(named)
}

/// The place of `main`.
fn place_of_main(named: &Procs) -> Result<usize, ValidRefused>
    ensures ok { IfOk result (λ main. (first_fault (line_zero named.now ∷ []) ≡ None)
        × (main ≡ main_of named.now)) }
    ensures err { IfErr result
        (λ refusal. Refuses (first_fault (line_zero named.now ∷ [])) refusal) }
{
    match named.named(b"main".as_slice()) {
        None => Err(ValidRefused::At {
            line: 0,
            kind: FaultKind::NoMain.number(),
        }),
        Some(_) => Ok(named.place(b"main".as_slice())),
    }
}

/// The procedures by their places, up to the first line with a fault.
fn number_procs(
    alloc: Global,
    named: &Procs,
    procs: &[Proc],
) -> Result<Items<NumProc>, ValidRefused>
    ensures ok { IfOk result
        (λ numbered. (first_fault (procs_lines named.now [] procs.now) ≡ None)
        × (numbered ≡ map (numbered_proc (proc_names named.now)) procs.now)) }
    ensures err { IfErr result
        (λ refusal. Refuses (first_fault (procs_lines named.now [] procs.now)) refusal) }
{
    let mut seen = Names::with_capacity(alloc, procs.len())?;
    let mut numbered = Items::from_vec(Vec::with_capacity(alloc, procs.len())?);
    for proc in procs {
        let locals = check::proc(alloc, named, &mut seen, proc)?;
        numbered.push(number::proc(alloc, named, &locals, proc)?)?;
    }
    Ok(numbered)
}
