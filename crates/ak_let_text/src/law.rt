//! That the text of a compiled source is a valid script, and the script its program. Each function has an empty body: its
//! contract is the law.

ghost use Rattle.ak_syntax.specs.Grammar.{Reads};
ghost use Rattle.ak_valid.specs.Valid.{Valid};
ghost use Rattle.ak_let.specs.declared.source.Source.{Source};
ghost use Rattle.ak_let.specs.Compile.{compiled, program_of};
ghost use Rattle.ak_let_text.specs.Compiles.{Compiles, IsNumberedTo};
ghost use Rattle.ak_let_text.specs.Named.{named};
ghost use Rattle.ak_let_text.specs.Text.{script_text};

/// The text of a source that compiles is read as its script, within every limit of scripts.
pub fn text_is_read()
    ensures { (p : Source) → Compiles p
        → Reads (script_text (named (compiled p))) (named (compiled p)) }
{}

/// That script is valid.
pub fn script_is_valid()
    ensures { (p : Source) → Compiles p → Valid (named (compiled p)) }
{}

/// The script's program is the compiled one.
pub fn compiled_is_numbered()
    ensures { (p : Source) → Compiles p → IsNumberedTo (named (compiled p)) (program_of p) }
{}
