//! The top call of the tools.

ghost use Rattle.std.specs.Prelude.{◌≡◌, ◌≤◌, ◌↔◌, ℕ};
ghost use Rattle.ak_base.specs.Streams.{Rose};
ghost use Rattle.ak_tools.specs.declared.words.Tool.{Tool as Wanted};
ghost use Rattle.ak_tools.specs.Compiling.{Reports};
ghost use Rattle.ak_tools.specs.Words.{IsTool, IsUsageFault, Means};

use crate::compiling::compile_source;
use crate::status::ToolStatus;
use crate::words::{Tool, read_tool};
use ak_base::list::Word;
use ak_base::sink::Sink;
use ak_base::source::Source;
use std::alloc::Global;

/// Carries out the tool that the words give. `let` reads a source of the let dialect and writes its script to the sink. Own.
///
/// The source is read to its end, to a failed read, or until it gave 67,108,865 bytes. Each read has room for a byte at
/// least. Nothing is written before the whole script is made, and no empty piece is ever written.
///
/// The statuses, in the order in which their causes are tried: `Usage` where the words are no tool; `ReadFault`; `Refused` by
/// line 0 and kind 20 where the source has more than 67,108,864 bytes; `Refused` by its first line with a fault, and the
/// least kind of that line's faults, 31 to 37; then `Done` or `WriteFault`. `NoMemory` may come before the first byte is
/// written.
pub fn tools<S: Source, K: Sink>(
    alloc: Global,
    words: &[Word],
    source: &mut S,
    sink: &mut K,
) -> ToolStatus
    ensures reports { (tool : Wanted) → Means words.now tool
        → Reports tool (S.left source.old) (K.taken sink.old) (K.taken sink.new) result }

    // words that are no tool
    ensures usage { (place : ℕ) → (result ≡ ToolStatus.Usage place)
        ↔ IsUsageFault words.now place }
    ensures bare { (place : ℕ) → result ≡ ToolStatus.Usage place
        → K.taken sink.new ≡ K.taken sink.old }

    // faults of reading and writing come only where a count rose
    ensures read_fault { result ≡ ToolStatus.ReadFault
        → IsTool words.now × Rose (S.faults source.old) (S.faults source.new) }
    ensures write_fault { result ≡ ToolStatus.WriteFault
        → IsTool words.now × Rose (K.faults sink.old) (K.faults sink.new) }
    ensures source_faults { S.faults source.old ≤ S.faults source.new }
    ensures sink_faults { K.faults sink.old ≤ K.faults sink.new }
{
    match read_tool(words) {
        Ok(Tool::Let) => compile_source(alloc, source, sink),
        Err(place) => ToolStatus::Usage { place },
    }
}
