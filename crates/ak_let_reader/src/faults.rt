//! The faults of names in one line.

ghost use Rattle.std.specs.Prelude.{◌≡◌, [], ◌∷◌, ◌++◌, ◌≤◌, ℕ, List, length, MatchOption};
ghost use Rattle.std.specs.List.{flat_map, list_any};
ghost use Rattle.std.specs.Str.{bytes_eq};
ghost use Rattle.ak_valid.specs.Kinds.{lesser_by};
ghost use Rattle.ak_let_syntax.specs.Faults.{kind_number};
ghost use Rattle.ak_let_syntax.specs.Grammar.{binds};
ghost use Rattle.ak_let_reader.specs.NameFaults.{call_faults, calls, head_faults, least, main_faults, stmt_faults, twice_faults, use_faults, uses, when_uses};
ghost use Rattle.ak_let_reader.specs.Refusals.{AreBefore};

use crate::functions::Functions;
use crate::locals::Locals;
use ak_base::list::Word;
use ak_let_syntax::named::{NamedFun, NamedStmt};
use ak_let_syntax::refusal::LetFault;
use ak_script::statement::Atom;

/// The lesser of two kinds that may be there.
fn lesser(a: Option<LetFault>, b: Option<LetFault>) -> Option<LetFault>
    ensures { result ≡ lesser_by kind_number a b }
{
    match (a, b) {
        (Some(first), Some(second)) => {
            if second.number() < first.number() {
                b
            } else {
                a
            }
        }
        (Some(_), None) => a,
        (None, _) => b,
    }
}

/// The least kind of a line's faults, where these locals are known.
#[tactic(auto, using(ak_valid::proofs::LeastKinds::least_by_append))]
pub fn stmt(funs: &Functions, known: &Locals, stmt: &NamedStmt) -> Option<LetFault>
    ensures { result ≡ least (stmt_faults funs.now known.now stmt.now) }
{
    lesser(
        lesser(twice(known, stmt), used(known, stmt)),
        called(funs, stmt),
    )
}

/// The local that a line binds.
pub fn bound(stmt: &NamedStmt) -> Option<&Word>
    ensures { MatchOption result (binds stmt.now ≡ []) (λ x. binds stmt.now ≡ x.now ∷ []) }
{
    match stmt {
        NamedStmt::Let { x, .. }
        | NamedStmt::Compute { x, .. }
        | NamedStmt::Await { x, .. }
        | NamedStmt::AwaitWork { x, .. }
        | NamedStmt::Try { x, .. } => Some(x),
        NamedStmt::Print { .. } | NamedStmt::Raise { .. } | NamedStmt::Return { .. } => None,
    }
}

fn twice(known: &Locals, stmt: &NamedStmt) -> Option<LetFault>
    ensures { result ≡ least (twice_faults known.now (binds stmt.now)) }
{
    let x = bound(stmt)?;
    if known.has(x.as_slice()) {
        return Some(LetFault::TwiceNamed);
    }
    None
}

#[tactic(auto, using(ak_valid::proofs::LeastKinds::least_by_append))]
fn used(known: &Locals, stmt: &NamedStmt) -> Option<LetFault>
    ensures { result ≡ least (flat_map (use_faults known.now) (uses stmt.now)) }
{
    match stmt {
        NamedStmt::Let { value, .. } | NamedStmt::AwaitWork { value, .. } => atom(known, value),
        NamedStmt::Compute { left, right, .. } => lesser(atom(known, left), atom(known, right)),
        NamedStmt::Print { when, value }
        | NamedStmt::Raise { when, value }
        | NamedStmt::Return { when, value } => action(known, when, value),
        NamedStmt::Await { args, .. } | NamedStmt::Try { args, .. } => {
            atoms(known, args.as_slice())
        }
    }
}

fn atom(known: &Locals, a: &Atom) -> Option<LetFault>
    ensures { result ≡ least (use_faults known.now a.now) }
{
    match a {
        Atom::Literal(_) => None,
        Atom::Local(name) => {
            if known.has(name.as_slice()) {
                None
            } else {
                Some(LetFault::UnknownName)
            }
        }
    }
}

/// What may stand behind a condition, with it.
#[tactic(auto, using(ak_valid::proofs::LeastKinds::least_by_append))]
fn action(known: &Locals, when: &Option<Atom>, value: &Atom) -> Option<LetFault>
    ensures { result
        ≡ least (flat_map (use_faults known.now) (when_uses when.now ++ value.now ∷ [])) }
{
    match when {
        None => atom(known, value),
        Some(a) => lesser(atom(known, a), atom(known, value)),
    }
}

fn atoms(known: &Locals, atoms: &[Atom]) -> Option<LetFault>
    ensures { result ≡ least (flat_map (use_faults known.now) atoms.now) }
{
    let mut fault = None;
    for a in atoms {
        fault = lesser(fault, atom(known, a));
    }
    fault
}

#[tactic(auto, using(ak_valid::proofs::LeastKinds::least_by_append))]
fn called(funs: &Functions, stmt: &NamedStmt) -> Option<LetFault>
    ensures { result ≡ least (flat_map (call_faults funs.now) (calls stmt.now)) }
{
    match stmt {
        NamedStmt::Await { function, args, .. } => call(funs, function, args.len()),
        NamedStmt::Try {
            function,
            args,
            handler,
            ..
        } => lesser(call(funs, function, args.len()), call(funs, handler, 1)),
        NamedStmt::Let { .. }
        | NamedStmt::Compute { .. }
        | NamedStmt::Print { .. }
        | NamedStmt::Raise { .. }
        | NamedStmt::Return { .. }
        | NamedStmt::AwaitWork { .. } => None,
    }
}

/// A call of the function with so many numbers.
fn call(funs: &Functions, name: &Word, count: usize) -> Option<LetFault>
    ensures { result ≡ least (call_faults funs.now (record { name = name.now; count = count })) }
{
    match funs.named(name.as_slice()) {
        None => Some(LetFault::UnknownName),
        Some(fun) => {
            if fun.params.len() == count {
                None
            } else {
                Some(LetFault::WrongCount)
            }
        }
    }
}

/// The least kind of the faults of a function's first line, where so many functions stand before.
#[tactic(auto, using(ak_valid::proofs::LeastKinds::least_by_append))]
pub fn head(funs: &Functions, place: usize, fun: &NamedFun) -> Option<LetFault>
    requires { place ≤ length funs.now }
    ensures { (before : List (List ℕ)) → AreBefore funs.now place before
        → result ≡ least (head_faults before fun.now) }
{
    lesser(
        lesser(
            named_before(funs, place, fun),
            named_twice(fun.params.as_slice()),
        ),
        main(fun),
    )
}

fn named_before(funs: &Functions, place: usize, fun: &NamedFun) -> Option<LetFault>
    requires { place ≤ length funs.now }
    ensures { (before : List (List ℕ)) → AreBefore funs.now place before
        → result ≡ least (twice_faults before (fun.now.name ∷ [])) }
{
    if funs.place(fun.name.as_slice()) < place {
        return Some(LetFault::TwiceNamed);
    }
    None
}

fn named_twice(params: &[Word]) -> Option<LetFault>
    ensures { result ≡ least (twice_faults [] params.now) }
{
    for (i, name) in params.iter().enumerate() {
        if stands(&params[..i], name) {
            return Some(LetFault::TwiceNamed);
        }
    }
    None
}

/// Whether the name is among these.
fn stands(names: &[Word], name: &Word) -> bool
    ensures { result ≡ list_any (bytes_eq name.now) names.now }
{
    names
        .iter()
        .any(|other| name.as_slice() == other.as_slice())
}

fn main(fun: &NamedFun) -> Option<LetFault>
    ensures { result ≡ least (main_faults fun.now) }
{
    if b"main".as_slice() == fun.name.as_slice() && fun.params.len() != 0 {
        return Some(LetFault::WrongCount);
    }
    None
}
