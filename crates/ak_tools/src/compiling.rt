//! The tool that compiles a source of the let dialect.

ghost use Rattle.std.specs.Prelude.{◌≡◌, ◌≢◌, ◌≤◌, ℕ, IfErr, IfOk};
ghost use Rattle.ak_base.specs.Streams.{Rose};
ghost use Rattle.ak_let.specs.declared.source.Source.{Source as LetSource};
ghost use Rattle.ak_let_syntax.specs.declared.refusal.LetFault.{LetFault as Fault};
ghost use Rattle.ak_let_syntax.specs.Faults.{kind_number};
ghost use Rattle.ak_let_reader.specs.Answers.{HasFault, IsSource};
ghost use Rattle.ak_let_script.specs.Compiled.{IsCompiled};
ghost use Rattle.ak_tools.specs.Compiling.{IsScript, ReportsScript, TellsFault, TellsSource};
ghost use Rattle.ak_tools.specs.Stops.{Accepts, IsRefusalOf, IsStop, Refuses};

use crate::status::ToolStatus;
use ak_base::sink::{Sink, WriteFailed, write_all};
use ak_base::source::Source;
use ak_let_script::compile::compile;
use ak_reading::reading::{Text, read_source};
use std::alloc::Global;

/// The most bytes that the source of a tool may have.
const SOURCE_LIMIT: usize = 67_108_864;

/// The kind of a source that has more.
const TOO_LONG: u8 = 20;

/// Reads a source of the let dialect and writes its script.
pub fn compile_source<S: Source, K: Sink>(alloc: Global, source: &mut S, sink: &mut K) -> ToolStatus
    ensures reports { ReportsScript (S.left source.old) (K.taken sink.old) (K.taken sink.new)
        result }
    ensures usage { (place : ℕ) → result ≢ ToolStatus.Usage place }
    ensures read_fault { result ≡ ToolStatus.ReadFault
        → Rose (S.faults source.old) (S.faults source.new) }
    ensures write_fault { result ≡ ToolStatus.WriteFault
        → Rose (K.faults sink.old) (K.faults sink.new) }
    ensures source_faults { S.faults source.old ≤ S.faults source.new }
    ensures sink_faults { K.faults sink.old ≤ K.faults sink.new }
{
    match script_from(alloc, source) {
        Ok(script) => match write_all(sink, script.as_slice()) {
            Ok(()) => ToolStatus::Done,
            Err(WriteFailed) => ToolStatus::WriteFault,
        },
        Err(status) => status,
    }
}

/// The script of a source, or the status that tells why there is none.
fn script_from<S: Source>(alloc: Global, source: &mut S) -> Result<Vec<u8>, ToolStatus>
    ensures script { IfOk result (λ script. IsScript (S.left source.old) script.items) }
    ensures stop { IfErr result
        (IsStop (S.left source.old) (S.faults source.old) (S.faults source.new)) }
    ensures refuses { (line kind : ℕ) → TellsFault (S.left source.old) line kind
        → Refuses line kind result }
    ensures accepts { TellsSource (S.left source.old) → Accepts result }
    ensures faults { S.faults source.old ≤ S.faults source.new }
{
    match read_source(alloc, source, SOURCE_LIMIT)? {
        Text::Whole(bytes) => script_of_text(alloc, bytes.as_slice()),
        Text::TooLong(_) => Err(ToolStatus::Refused {
            line: 0,
            kind: TOO_LONG,
        }),
    }
}

/// The script of a text, or the status that tells why there is none.
fn script_of_text(alloc: Global, bytes: &[u8]) -> Result<Vec<u8>, ToolStatus>
    ensures script { IfOk result (λ script. IsCompiled bytes.now script.items) }
    ensures refusal { IfErr result (IsRefusalOf bytes.now) }
    ensures refuses { (line : ℕ) (fault : Fault) → HasFault bytes.now line fault
        → Refuses line (kind_number fault) result }
    ensures accepts { (source : LetSource) → IsSource bytes.now source → Accepts result }
{
    Ok(compile(alloc, bytes)?)
}
