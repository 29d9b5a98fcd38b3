//! Forms of lines.

ghost use Rattle.std.specs.Prelude.{◌≡◌};
ghost use Rattle.ak_syntax.specs.Words.{Leaves};
ghost use Rattle.ak_syntax.specs.Lines.{form_from, head_at, async_at, end_form_at, if_at, unless_at, conditional_at, plain_at};

use crate::cursor::Cursor;
use crate::limit::bound_count;
use crate::line_form::Form;
use crate::refusal::{Fault, GrammarKind};
use crate::rows::statement;
use ak_script::script::{Prefix, Statement};
use std::alloc::Global;

/// The form of the line of this number that begins with the word, by the words behind it.
#[tactic(auto, unfolding(crate::specs::Lines::form_from))]
pub fn form(alloc: Global, number: u32, first: &[u8], words: &mut Cursor) -> Result<Form, Fault>
    ensures { Leaves (λ f. f) result words.new (form_from number first.now words.old) }
{
    if first == b"proc".as_slice() {
        return head(alloc, number, words);
    }
    if first == b"end".as_slice() {
        return end(words);
    }
    if first == b"if".as_slice() {
        return if_statement(alloc, number, words);
    }
    if first == b"unless".as_slice() {
        return unless_statement(alloc, number, words);
    }
    if first == b"async".as_slice() {
        return version(words);
    }
    plain(alloc, number, first, words)
}

/// The first line of a procedure: `proc NAME p:kind ..`.
#[tactic(auto, unfolding(crate::specs::Lines::head_at))]
fn head(alloc: Global, number: u32, words: &mut Cursor) -> Result<Form, Fault>
    ensures { Leaves (λ f. f) result words.new (head_at number words.old) }
{
    let name = words.name(alloc)?;
    let params = words.params(alloc)?;
    Ok(Form::Head {
        name,
        line: number,
        params,
    })
}

/// The line of version 2: `async 2`.
#[tactic(auto, unfolding(crate::specs::Lines::async_at))]
fn version(words: &mut Cursor) -> Result<Form, Fault>
    ensures { Leaves (λ f. f) result words.new (async_at words.old) }
{
    words.exactly(b"2".as_slice())?;
    words.end()?;
    Ok(Form::Async)
}

/// The last line of a procedure: `end`.
#[tactic(auto, unfolding(crate::specs::Lines::end_form_at))]
fn end(words: &mut Cursor) -> Result<Form, Fault>
    ensures { Leaves (λ f. f) result words.new (end_form_at words.old) }
{
    words.end()?;
    Ok(Form::End)
}

/// A statement without a prefix.
#[tactic(auto, unfolding(crate::specs::Lines::plain_at))]
fn plain(alloc: Global, number: u32, first: &[u8], words: &mut Cursor) -> Result<Form, Fault>
    ensures { Leaves (λ f. f) result words.new (plain_at number first.now words.old) }
{
    let stmt = statement(alloc, first, words)?;
    Ok(Form::Body(Statement {
        line: number,
        prefix: None,
        stmt,
    }))
}

/// A statement behind `if`.
#[tactic(auto, unfolding(crate::specs::Lines::if_at))]
fn if_statement(alloc: Global, number: u32, words: &mut Cursor) -> Result<Form, Fault>
    ensures { Leaves (λ f. f) result words.new (if_at number words.old) }
{
    let a = words.atom(alloc)?;
    conditional(alloc, number, Prefix::If(a), words)
}

/// A statement behind `unless`.
#[tactic(auto, unfolding(crate::specs::Lines::unless_at))]
fn unless_statement(alloc: Global, number: u32, words: &mut Cursor) -> Result<Form, Fault>
    ensures { Leaves (λ f. f) result words.new (unless_at number words.old) }
{
    let a = words.atom(alloc)?;
    conditional(alloc, number, Prefix::Unless(a), words)
}

/// A statement behind its prefix: it may bind no name.
#[tactic(auto, unfolding(crate::specs::Lines::conditional_at))]
fn conditional(
    alloc: Global,
    number: u32,
    prefix: Prefix,
    words: &mut Cursor,
) -> Result<Form, Fault>
    ensures { Leaves (λ f. f) result words.new (conditional_at number prefix words.old) }
{
    let first = words.word()?;
    let stmt = statement(alloc, first, words)?;
    if bound_count(&stmt) != 0 {
        return Err(Fault::Grammar(GrammarKind::BadLine));
    }
    Ok(Form::Body(Statement {
        line: number,
        prefix: Some(prefix),
        stmt,
    }))
}
