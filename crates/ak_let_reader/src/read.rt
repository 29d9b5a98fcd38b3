//! The reader of the let dialect.

ghost use Rattle.std.specs.Prelude.{◌≡◌, ℕ};
ghost use Rattle.ak_let.specs.declared.source.Source.{Source as Wanted};
ghost use Rattle.ak_let_syntax.specs.declared.refusal.LetFault.{LetFault as Kind};
ghost use Rattle.ak_let_syntax.specs.Answers.{Gives, Refuses};
ghost use Rattle.ak_let_reader.specs.Answers.{HasFault, IsRight, IsSource};

use crate::names::numbered;
use ak_let::source::Source;
use ak_let_syntax::parse::parse;
use ak_let_syntax::refusal::LetRefused;
use std::alloc::Global;

/// The source that a text of the let dialect is.
///
/// # Errors
///
/// Exactly where the text is none: its first line with a fault, and the least kind of that line's faults. A fault of the grammar, kinds
/// 31, 36 and 37, comes before those of names, 32 to 35, wherever they stand. Or want of memory, as which a text of 4 GiB counts.
pub fn read_source(alloc: Global, bytes: &[u8]) -> Result<Source, LetRefused>
    ensures right { IsRight bytes.now result }
    ensures source { (source : Wanted) → IsSource bytes.now source → Gives result source }
    ensures fault { (line : ℕ) (kind : Kind) → HasFault bytes.now line kind
        → Refuses result line kind }
{
    let funs = parse(alloc, bytes)?;
    numbered(alloc, funs.as_slice())
}
