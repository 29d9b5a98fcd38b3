//! Functions by name, read from a text.

ghost use Rattle.std.specs.Prelude.{◌≡◌, ◌<◌, ℕ, List, length};
ghost use Rattle.ak_text.specs.Lines.{text_lines};
ghost use Rattle.ak_let_syntax.specs.declared.named.NamedFun.{NamedFun as Fun};
ghost use Rattle.ak_let_syntax.specs.declared.refusal.LetFault.{LetFault as Kind};
ghost use Rattle.ak_let_syntax.specs.Answers.{IsRight, Gives, Refuses};
ghost use Rattle.ak_let_syntax.specs.Faults.{GrammarFault};
ghost use Rattle.ak_let_syntax.specs.Grammar.{Reads};
ghost use Rattle.ak_let_syntax.specs.Lines.{Tells, refused_at, taking, no_lines};
ghost use Rattle.ak_syntax.specs.Takings.{scanned};

use crate::named::NamedFun;
use crate::reader::Reader;
use crate::refusal::{LetFault, LetRefused, LineRefused};
use ak_base::list::Items;
use ak_text::text::lines;
use std::alloc::Global;

/// The functions that the bytes are, or the first line with a fault and the least kind of its faults, where they are none.
/// A text that ends inside of a function is a bad line behind the last.
///
/// # Errors
///
/// The fault, or want of memory: a text of 4 GiB counts as such, since lines are numbered by 32 bits.
pub fn parse(alloc: Global, bytes: &[u8]) -> Result<Items<NamedFun>, LetRefused>
    ensures right { IsRight bytes.now result }
    ensures funs { (funs : List Fun) → Reads bytes.now funs → Gives result funs }
    ensures fault { (line : ℕ) (kind : Kind) → GrammarFault bytes.now line kind
        → Refuses result line kind }
{
    if bytes.len() >= u32::MAX as usize {
        return Err(LetRefused::NoMemory);
    }
    parse_lines(alloc, bytes)
}

fn parse_lines(alloc: Global, bytes: &[u8]) -> Result<Items<NamedFun>, LetRefused>
    requires { length bytes.now < 4294967295 }
    ensures { Tells result (scanned taking no_lines 0 (text_lines bytes.now)) }
{
    let mut reader = Reader::new(alloc);
    let mut last = 0;
    for line in lines(bytes) {
        last = line.number();
        match reader.take(alloc, &line) {
            Ok(()) => {}
            Err(refused) => return Err(refused_at(last, refused)),
        }
    }
    if reader.is_open() {
        return Err(LetRefused::at(last + 1, LetFault::BadLine));
    }
    Ok(reader.into_funs())
}

fn refused_at(line: u32, refused: LineRefused) -> LetRefused
    ensures { result ≡ refused_at line refused }
{
    match refused {
        LineRefused::Line(fault) => LetRefused::at(line, fault),
        LineRefused::NoMemory => LetRefused::NoMemory,
    }
}
