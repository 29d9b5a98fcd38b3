//! From a source to the text of its script.

ghost use Rattle.std.specs.Prelude.{◌≡◌, IfOk};
ghost use Rattle.ak_let.specs.Compile.{compiled};
ghost use Rattle.ak_let_text.specs.Compiles.{Compiles};
ghost use Rattle.ak_let_text.specs.Named.{named};
ghost use Rattle.ak_let_text.specs.Text.{script_text};
ghost use Rattle.ak_let_script.specs.Script.{IsScriptOf};

use ak_base::list::NoMemory;
use ak_let::law::{compiled_is_correct, procedures_are_few};
use ak_let::source::Source;
use ak_let_compile::compile::compile;
use ak_let_text::law::{compiled_is_numbered, script_is_valid, text_is_read};
use ak_let_text::writer::write_script;
use std::alloc::Global;

/// The text of a source's script: a valid script, within every limit of scripts, whose runs are those of the source.
///
/// # Errors
///
/// Want of memory.
pub fn script_of(alloc: Global, source: &Source) -> Result<Vec<u8>, NoMemory>
    requires { Compiles source.now }
    ensures text { IfOk result (λ bytes. bytes.items ≡ script_text (named (compiled source.now))) }
    ensures script { IfOk result (λ bytes. IsScriptOf source.now bytes.items) }
{
    // For the proof alone: the laws of what is compiled.
    text_is_read();
    script_is_valid();
    compiled_is_numbered();
    compiled_is_correct();
    procedures_are_few();
    let procs = compile(alloc, source)?;
    write_script(alloc, procs.as_slice())
}
