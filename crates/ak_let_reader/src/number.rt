//! The words of a line by their numbers: functions by their places, locals by how many are newer.

ghost use Rattle.std.specs.Prelude.{◌≡◌, map, IfOk};
ghost use Rattle.ak_valid.specs.Numbered.{work_kind};
ghost use Rattle.ak_let_reader.specs.Numbered.{fun_names, numbered_atom, numbered_stmt, numbered_when};

use crate::functions::Functions;
use crate::locals::Locals;
use ak_base::list::{Items, NoMemory};
use ak_labor::work::WorkKind;
use ak_let::source::{Atom as NumAtom, Line};
use ak_let_syntax::named::NamedStmt;
use ak_script::statement::{Atom, WorkWord};
use std::alloc::Global;

/// A line, where these locals are known.
pub fn stmt(
    alloc: Global,
    funs: &Functions,
    known: &Locals,
    stmt: &NamedStmt,
) -> Result<Line, NoMemory>
    ensures { IfOk result
        (λ line. line ≡ numbered_stmt (fun_names funs.now) known.now stmt.now) }
{
    match stmt {
        NamedStmt::Let { value, .. } => Ok(Line::Let {
            value: atom(known, value),
        }),
        NamedStmt::Compute {
            left,
            operator,
            right,
            ..
        } => Ok(Line::Compute {
            left: atom(known, left),
            operator: *operator,
            right: atom(known, right),
        }),
        NamedStmt::Print { when, value } => Ok(Line::Print {
            when: condition(known, when),
            value: atom(known, value),
        }),
        NamedStmt::Raise { when, value } => Ok(Line::Raise {
            when: condition(known, when),
            value: atom(known, value),
        }),
        NamedStmt::Return { when, value } => Ok(Line::Return {
            when: condition(known, when),
            value: atom(known, value),
        }),
        NamedStmt::Await { function, args, .. } => {
            let args = atoms(alloc, known, args.as_slice())?;
            Ok(Line::Await {
                function: funs.place(function.as_slice()),
                args,
            })
        }
        NamedStmt::AwaitWork { kind, value, .. } => Ok(Line::AwaitWork {
            kind: work(*kind),
            value: atom(known, value),
        }),
        NamedStmt::Try {
            function,
            args,
            handler,
            ..
        } => {
            let args = atoms(alloc, known, args.as_slice())?;
            Ok(Line::Try {
                function: funs.place(function.as_slice()),
                args,
                handler: funs.place(handler.as_slice()),
            })
        }
    }
}

fn atom(known: &Locals, a: &Atom) -> NumAtom
    ensures { result ≡ numbered_atom known.now a.now }
{
    match a {
        Atom::Literal(n) => NumAtom::Given(*n),
        Atom::Local(name) => NumAtom::Known(known.place(name.as_slice())),
    }
}

fn condition(known: &Locals, when: &Option<Atom>) -> Option<NumAtom>
    ensures { result ≡ numbered_when known.now when.now }
{
    match when {
        None => None,
        Some(a) => Some(atom(known, a)),
    }
}

fn atoms(alloc: Global, known: &Locals, atoms: &[Atom]) -> Result<Items<NumAtom>, NoMemory>
    ensures { IfOk result (λ numbered. numbered ≡ map (numbered_atom known.now) atoms.now) }
{
    let mut numbered = Vec::with_capacity(alloc, atoms.len())?;
    for a in atoms {
        numbered.push(atom(known, a))?;
    }
    Ok(Items::from_vec(numbered))
}

/// What a word of a work asks for.
fn work(word: WorkWord) -> WorkKind
    ensures { result ≡ work_kind word }
{
    match word {
        WorkWord::Square => WorkKind::Square,
        WorkWord::Mix => WorkKind::Mix,
        WorkWord::Fail => WorkKind::Fail,
    }
}
