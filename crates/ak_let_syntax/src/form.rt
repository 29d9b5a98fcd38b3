//! Forms of lines.

ghost use Rattle.std.specs.Prelude.{◌≡◌};
ghost use Rattle.ak_syntax.specs.Words.{Leaves};
ghost use Rattle.ak_let_syntax.specs.Lines.{form_from, any_form_from, head_at, end_form_at, body_from};

use crate::named::{Form, NamedLine};
use crate::stmt::stmt;
use crate::work::names_work;
use ak_syntax::cursor::{Cursor, Until};
use ak_syntax::refusal::{Fault, GrammarKind};
use std::alloc::Global;

/// The form of the line of this number that begins with the word, by the words behind it. No name of it is `work`.
#[tactic(auto, unfolding(crate::specs::Lines::form_from))]
pub fn form(alloc: Global, number: u32, first: &[u8], words: &mut Cursor) -> Result<Form, Fault>
    ensures { Leaves (λ f. f) result words.new (form_from number first.now words.old) }
{
    let form = any_form(alloc, number, first, words)?;
    if names_work(&form) {
        return Err(Fault::Grammar(GrammarKind::BadLine));
    }
    Ok(form)
}

#[tactic(auto, unfolding(crate::specs::Lines::any_form_from))]
fn any_form(alloc: Global, number: u32, first: &[u8], words: &mut Cursor) -> Result<Form, Fault>
    ensures { Leaves (λ f. f) result words.new (any_form_from number first.now words.old) }
{
    if first == b"fun".as_slice() {
        return head(alloc, number, words);
    }
    if first == b"end".as_slice() {
        return end(words);
    }
    body(alloc, number, first, words)
}

/// The first line of a function: `fun NAME p ..`.
#[tactic(auto, unfolding(crate::specs::Lines::head_at))]
fn head(alloc: Global, number: u32, words: &mut Cursor) -> Result<Form, Fault>
    ensures { Leaves (λ f. f) result words.new (head_at number words.old) }
{
    let name = words.name(alloc)?;
    let params = words.names(alloc, Until::LineEnd)?;
    Ok(Form::Head {
        name,
        number,
        params,
    })
}

/// The last line of a function: `end`.
#[tactic(auto, unfolding(crate::specs::Lines::end_form_at))]
fn end(words: &mut Cursor) -> Result<Form, Fault>
    ensures { Leaves (λ f. f) result words.new (end_form_at words.old) }
{
    words.end()?;
    Ok(Form::End)
}

/// A line of a function.
#[tactic(auto, unfolding(crate::specs::Lines::body_from))]
fn body(alloc: Global, number: u32, first: &[u8], words: &mut Cursor) -> Result<Form, Fault>
    ensures { Leaves (λ f. f) result words.new (body_from number first.now words.old) }
{
    let stmt = stmt(alloc, first, words)?;
    Ok(Form::Body(NamedLine { number, stmt }))
}
