//! The lines of a function.

ghost use Rattle.std.specs.Prelude.{◌≡◌};
ghost use Rattle.ak_syntax.specs.Words.{Leaves};
ghost use Rattle.ak_let_syntax.specs.Lines.{stmt_from, bound_at, operation_at, let_at, await_at, awaited_from, try_at, when_at, action_from};

use crate::named::NamedStmt;
use crate::work::is_work;
use ak_base::list::Word;
use ak_script::statement::{Atom, Operator};
use ak_syntax::cursor::{Cursor, Until};
use ak_syntax::refusal::{Fault, GrammarKind};
use ak_syntax::word::{name, operator_named};
use std::alloc::Global;

/// The line that begins with the word, by the words behind it.
#[tactic(auto, unfolding(crate::specs::Lines::stmt_from))]
pub fn stmt(alloc: Global, first: &[u8], words: &mut Cursor) -> Result<NamedStmt, Fault>
    ensures { Leaves (λ s. s) result words.new (stmt_from first.now words.old) }
{
    if first == b"let".as_slice() {
        return let_line(alloc, words);
    }
    if first == b"await".as_slice() {
        return await_line(alloc, words);
    }
    if first == b"try".as_slice() {
        return try_line(alloc, words);
    }
    if first == b"when".as_slice() {
        return when_line(alloc, words);
    }
    action(alloc, None, first, words)
}

/// The local that a line binds, and its `=`.
#[tactic(auto, unfolding(crate::specs::Lines::bound_at))]
fn bound(alloc: Global, words: &mut Cursor) -> Result<Word, Fault>
    ensures { Leaves (λ x. x) result words.new (bound_at words.old) }
{
    let x = words.name(alloc)?;
    words.exactly(b"=".as_slice())?;
    Ok(x)
}

/// Behind an atom: an operator and another atom, or the end of the line.
#[tactic(auto, unfolding(crate::specs::Lines::operation_at))]
fn operation(alloc: Global, words: &mut Cursor) -> Result<Option<(Operator, Atom)>, Fault>
    ensures { Leaves (λ x. x) result words.new (operation_at words.old) }
{
    let Some(word) = words.listed(Until::LineEnd)? else {
        return Ok(None);
    };
    let Some(operator) = operator_named(word) else {
        return Err(Fault::Grammar(GrammarKind::BadLine));
    };
    let right = words.one_atom(alloc)?;
    Ok(Some((operator, right)))
}

/// `let x = a` or `let x = a op b`.
#[tactic(auto, unfolding(crate::specs::Lines::let_at))]
fn let_line(alloc: Global, words: &mut Cursor) -> Result<NamedStmt, Fault>
    ensures { Leaves (λ s. s) result words.new (let_at words.old) }
{
    let x = bound(alloc, words)?;
    let value = words.atom(alloc)?;
    match operation(alloc, words)? {
        None => Ok(NamedStmt::Let { x, value }),
        Some((operator, right)) => Ok(NamedStmt::Compute {
            x,
            left: value,
            operator,
            right,
        }),
    }
}

/// `await x = F a ..` or `await x = work K a`.
#[tactic(auto, unfolding(crate::specs::Lines::await_at))]
fn await_line(alloc: Global, words: &mut Cursor) -> Result<NamedStmt, Fault>
    ensures { Leaves (λ s. s) result words.new (await_at words.old) }
{
    let x = bound(alloc, words)?;
    let word = words.word()?;
    awaited(alloc, x, word, words)
}

/// Behind `await x =`: a work, or a function and its arguments.
#[tactic(auto, unfolding(crate::specs::Lines::awaited_from))]
fn awaited(alloc: Global, x: Word, word: &[u8], words: &mut Cursor) -> Result<NamedStmt, Fault>
    ensures { Leaves (λ s. s) result words.new (awaited_from x word.now words.old) }
{
    if is_work(word) {
        let (kind, value) = words.work_atom(alloc)?;
        return Ok(NamedStmt::AwaitWork { x, kind, value });
    }
    let function = name(alloc, word)?;
    let args = words.args(alloc, Until::LineEnd)?;
    Ok(NamedStmt::Await { x, function, args })
}

/// `try x = F a .. else G`.
#[tactic(auto, unfolding(crate::specs::Lines::try_at))]
fn try_line(alloc: Global, words: &mut Cursor) -> Result<NamedStmt, Fault>
    ensures { Leaves (λ s. s) result words.new (try_at words.old) }
{
    let x = bound(alloc, words)?;
    let function = words.name(alloc)?;
    let args = words.args(alloc, Until::Else)?;
    let handler = words.one_name(alloc)?;
    Ok(NamedStmt::Try {
        x,
        function,
        args,
        handler,
    })
}

/// A line behind `when`.
#[tactic(auto, unfolding(crate::specs::Lines::when_at))]
fn when_line(alloc: Global, words: &mut Cursor) -> Result<NamedStmt, Fault>
    ensures { Leaves (λ s. s) result words.new (when_at words.old) }
{
    let when = words.atom(alloc)?;
    let word = words.word()?;
    action(alloc, Some(when), word, words)
}

/// What may stand behind a condition, by its first word: `print a`, `raise a` or `return a`.
#[tactic(auto, unfolding(crate::specs::Lines::action_from))]
fn action(
    alloc: Global,
    when: Option<Atom>,
    word: &[u8],
    words: &mut Cursor,
) -> Result<NamedStmt, Fault>
    ensures { Leaves (λ s. s) result words.new (action_from when word.now words.old) }
{
    if word == b"print".as_slice() {
        let value = words.one_atom(alloc)?;
        return Ok(NamedStmt::Print { when, value });
    }
    if word == b"raise".as_slice() {
        let value = words.one_atom(alloc)?;
        return Ok(NamedStmt::Raise { when, value });
    }
    if word == b"return".as_slice() {
        let value = words.one_atom(alloc)?;
        return Ok(NamedStmt::Return { when, value });
    }
    Err(Fault::Grammar(GrammarKind::BadLine))
}
