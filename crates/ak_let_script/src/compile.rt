//! The compiler of the let dialect: from a text to the text of a script.

ghost use Rattle.std.specs.Prelude.{◌≡◌, ℕ, IfErr, IfOk, MatchResult};
ghost use Rattle.ak_let.specs.declared.source.Source.{Source};
ghost use Rattle.ak_let_syntax.specs.declared.refusal.LetFault.{LetFault as Kind};
ghost use Rattle.ak_let_syntax.specs.Answers.{Refuses};
ghost use Rattle.ak_let_reader.specs.Answers.{HasFault, IsSource};
ghost use Rattle.ak_let_script.specs.Compiled.{IsCompiled, IsRefusal};
ghost use Rattle.ak_let_script.specs.Script.{IsScriptOf};

use crate::script::script_of;
use ak_let_reader::law::source_compiles;
use ak_let_reader::read::read_source;
use ak_let_syntax::refusal::LetRefused;
use std::alloc::Global;

/// The script of a text of the let dialect: valid, within every limit of scripts, with at most `2 l + 8` procedures where the
/// text has `l` lines with words. Each run of it prints what the plain evaluator of the source prints, takes the same works, and
/// ends as it does, under every legal history of the pool; a run that is ended by its limit of jobs gives a beginning of
/// both. Own; after Async's `let%bind` and functions that await.
///
/// # Errors
///
/// Exactly where the text is no source: its first line with a fault, and the least kind of that line's faults. Or want of memory.
pub fn compile(alloc: Global, bytes: &[u8]) -> Result<Vec<u8>, LetRefused>
    // the promise on the let dialect stands in IsCompiled
    ensures script { IfOk result (λ script. IsCompiled bytes.now script.items) }
    ensures source { (source : Source) → IsSource bytes.now source
        → MatchResult result (λ script. IsScriptOf source script.items)
        (λ e. e ≡ LetRefused.NoMemory) }

    // a refusal has its cause, and each cause is a refusal
    ensures refusal { IfErr result (λ e. IsRefusal bytes.now e) }
    ensures fault { (line : ℕ) (kind : Kind) → HasFault bytes.now line kind
        → Refuses result line kind }
{
    let source = read_source(alloc, bytes)?;
    // For the proof alone: what was read compiles.
    source_compiles();
    let script = script_of(alloc, &source)?;
    Ok(script)
}
