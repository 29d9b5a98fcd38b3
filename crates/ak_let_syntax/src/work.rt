//! The word `work`, which is no name.

ghost use Rattle.std.specs.Prelude.{◌≡◌, map};
ghost use Rattle.std.specs.List.{list_any};
ghost use Rattle.ak_syntax.specs.Table.{Named, Valued};
ghost use Rattle.ak_let_syntax.specs.Grammar.{is_work, takes_work, names_work, row, when_places};

use crate::named::{Form, NamedStmt};
use ak_base::list::Word;
use ak_script::statement::Atom;

/// Whether the word stands in front of a work.
pub fn is_work(word: &[u8]) -> bool
    ensures { result ≡ is_work word.now }
{
    word == b"work".as_slice()
}

/// Whether some name of the line is `work`.
#[tactic(auto, using(ak_syntax::proofs::Lists::any_mapped))]
pub fn names_work(form: &Form) -> bool
    ensures { result ≡ names_work form.now }
{
    match form {
        Form::Head { name, params, .. } => is_work(name.as_slice())
            || names_are_work(params.as_slice()),
        Form::Body(line) => stmt_names_work(&line.stmt),
        Form::End => false,
    }
}

fn stmt_names_work(stmt: &NamedStmt) -> bool
    ensures { result ≡ list_any takes_work (row stmt.now) }
{
    match stmt {
        NamedStmt::Let { x, value } => is_work(x.as_slice()) || is_local_work(value),
        NamedStmt::Compute { x, left, right, .. } => {
            is_work(x.as_slice()) || is_local_work(left) || is_local_work(right)
        }
        NamedStmt::Print { when, value }
        | NamedStmt::Raise { when, value }
        | NamedStmt::Return { when, value } => when_is_work(when) || is_local_work(value),
        NamedStmt::Await { x, function, args } => {
            is_work(x.as_slice()) || is_work(function.as_slice()) || args_are_work(args.as_slice())
        }
        NamedStmt::AwaitWork { x, value, .. } => is_work(x.as_slice()) || is_local_work(value),
        NamedStmt::Try {
            x,
            function,
            args,
            handler,
        } => {
            is_work(x.as_slice())
                || is_work(function.as_slice())
                || args_are_work(args.as_slice())
                || is_work(handler.as_slice())
        }
    }
}

fn is_local_work(atom: &Atom) -> bool
    ensures { result ≡ takes_work (Valued atom.now) }
{
    match atom {
        Atom::Literal(_) => false,
        Atom::Local(name) => is_work(name.as_slice()),
    }
}

fn when_is_work(when: &Option<Atom>) -> bool
    ensures { result ≡ list_any takes_work (when_places when.now) }
{
    match when {
        None => false,
        Some(atom) => is_local_work(atom),
    }
}

fn names_are_work(names: &[Word]) -> bool
    ensures { result ≡ list_any is_work names.now }
{
    names.iter().any(|name| is_work(name.as_slice()))
}

#[tactic(auto, using(ak_syntax::proofs::Lists::any_mapped))]
fn args_are_work(args: &[Atom]) -> bool
    ensures { result ≡ list_any takes_work (map Valued args.now) }
{
    any_local_is_work(args)
}

fn any_local_is_work(args: &[Atom]) -> bool
    ensures { result ≡ list_any (λ a. takes_work (Valued a)) args.now }
{
    args.iter().any(|arg| is_local_work(arg))
}
