//! The reader of scripts.

ghost use Rattle.std.specs.Prelude.{◌≡◌, ◌≤◌, ℕ, List, length};
ghost use Rattle.ak_text.specs.Lines.{text_lines};
ghost use Rattle.ak_script.specs.declared.script.Proc.{Proc};
ghost use Rattle.ak_syntax.specs.declared.refusal.GrammarKind.{GrammarKind as Kind};
ghost use Rattle.ak_syntax.specs.Answers.{IsRight, IsScript, IsFault};
ghost use Rattle.ak_syntax.specs.Faults.{GrammarFault};
ghost use Rattle.ak_syntax.specs.Grammar.{Reads};
ghost use Rattle.ak_syntax.specs.Lines.{Tells, taking, no_lines, refused_of};
ghost use Rattle.ak_syntax.specs.Takings.{scanned};

use crate::reader::Reader;
use crate::refusal::{Fault, GrammarKind, ParseRefused};
use ak_script::script::Script;
use ak_text::text::lines;
use std::alloc::Global;

/// The most bytes of a script.
const MAX_BYTES: usize = 1_048_576;

/// The script that the bytes are, or the first line with a fault and the least kind of its faults, where they are none.
/// A text over its limit of 1,048,576 bytes is line 0, and one that ends inside of a procedure is a bad line behind the
/// last.
pub fn parse(alloc: Global, bytes: &[u8]) -> Result<Script, ParseRefused>
    ensures right { IsRight bytes.now result }
    ensures script { (script : List Proc) → Reads bytes.now script → IsScript result script }
    ensures fault { (line : ℕ) (kind : Kind) → GrammarFault bytes.now line kind
        → IsFault result line kind }
{
    if bytes.len() > MAX_BYTES {
        return Err(ParseRefused::at(0, GrammarKind::TooLong));
    }
    parse_lines(alloc, bytes)
}

fn parse_lines(alloc: Global, bytes: &[u8]) -> Result<Script, ParseRefused>
    requires { length bytes.now ≤ 1048576 }
    ensures { Tells result (scanned taking no_lines 0 (text_lines bytes.now)) }
{
    let mut reader = Reader::new(alloc);
    let mut last = 0;
    for line in lines(bytes) {
        last = line.number();
        match reader.take(alloc, &line) {
            Ok(()) => {}
            Err(fault) => return Err(refused(last, fault)),
        }
    }
    if reader.is_open() {
        return Err(ParseRefused::at(last + 1, GrammarKind::BadLine));
    }
    Ok(reader.into_script())
}

fn refused(line: u32, fault: Fault) -> ParseRefused
    ensures { result ≡ refused_of line fault }
{
    match fault {
        Fault::Grammar(kind) => ParseRefused::at(line, kind),
        Fault::NoMemory => ParseRefused::NoMemory,
    }
}
