//! The command that tests a script.

ghost use Rattle.std.specs.Prelude.{◌≡◌, ◌≤◌, ◌↔◌, ℕ, [], false, OnOk, OnErr, Some, codes, slice_get};
ghost use Rattle.ak_base.specs.Streams.{Rose, HasWritten};
ghost use Rattle.ak_words.specs.declared.command.Command.TheVariants.{Check};
ghost use Rattle.ak_words.specs.Words.{Means, IsCommand, IsUsageFault};
ghost use Rattle.ak_top.specs.Output.{valid_line};
ghost use Rattle.ak_top.specs.Refusals.{TellsScript};
ghost use Rattle.ak_top.specs.Reports.{is_carried_out, Took, ReportsCheck, EndsWell};

use crate::running::check_source;
use crate::status::{Report, Status};
use ak_base::buffer::Buffer;
use ak_base::list::{Items, Word};
use ak_base::sink::{Sink, WriteFailed};
use ak_base::source::Source;
use ak_words::command::{Command, read_command};
use std::alloc::Global;

/// Carries out the command that the words give, the first of which is `check`, as `top` does: it reads a script from the
/// source, and writes the line `valid` where it has no fault. Own.
///
/// The statuses: `Usage` where further words stand behind the first; `ReadFault`; `Refused` by the first line of the
/// script with a fault, and the least kind of its faults; then `Done` or `WriteFault`. `NoMemory` may come before the
/// first byte is written. The report has no trace and no history.
pub fn check_words<S: Source, K: Sink>(
    alloc: Global,
    words: &[Word],
    source: &mut S,
    sink: &mut K,
) -> Report
    requires { slice_get words.now 0 ≡ Some (codes "check") }
    ensures reports { Means words.now Check → ReportsCheck (S.left source.old) result }
    ensures took { Means words.now Check
        → Took result.status (K.taken sink.old) (K.taken sink.new) valid_line }

    // words that are no command
    ensures usage { (place : ℕ) → (result.status ≡ Status.Usage place)
        ↔ IsUsageFault words.now place }
    ensures bare { is_carried_out result.status ≡ false → K.taken sink.new ≡ K.taken sink.old }
    ensures without { (result.trace ≡ []) × (result.history ≡ []) }

    // faults of reading and writing come only where a count rose, and without them a script that is valid is found so
    ensures read_fault { result.status ≡ Status.ReadFault
        → IsCommand words.now × Rose (S.faults source.old) (S.faults source.new) }
    ensures write_fault { result.status ≡ Status.WriteFault
        → IsCommand words.now × Rose (K.faults sink.old) (K.faults sink.new) }
    ensures complete { Means words.now Check → TellsScript (S.left source.old)
        → (Rose (S.faults source.old) (S.faults source.new) → ⊥) → (Rose (K.faults sink.old) (K.faults sink.new) → ⊥)
        → EndsWell result.status }
    ensures source_faults { S.faults source.old ≤ S.faults source.new }
    ensures sink_faults { K.faults sink.old ≤ K.faults sink.new }
{
    match read_command(words) {
        Ok(Command::Check) => check_command(alloc, source, sink),
        Ok(Command::Run(_) | Command::Replay(_)) => unreachable!(),
        Err(place) => without_run(alloc, Status::Usage { place }),
    }
}

// The report of a command without a run.
pub(crate) fn without_run(alloc: Global, status: Status) -> Report
    ensures { result ≡ record { status = status; trace = []; history = [] } }
{
    Report {
        status,
        trace: Items::make(alloc),
        history: Items::make(alloc),
    }
}

// Reads a script, tests it and writes that it is valid.
pub(crate) fn check_command<S: Source, K: Sink>(
    alloc: Global,
    source: &mut S,
    sink: &mut K,
) -> Report
    ensures reports { ReportsCheck (S.left source.old) result }
    ensures took { Took result.status (K.taken sink.old) (K.taken sink.new) valid_line }
    ensures read_fault { result.status ≡ Status.ReadFault
        → Rose (S.faults source.old) (S.faults source.new) }
    ensures write_fault { result.status ≡ Status.WriteFault
        → Rose (K.faults sink.old) (K.faults sink.new) }
    ensures source_faults { S.faults source.old ≤ S.faults source.new }
    ensures sink_faults { K.faults sink.old ≤ K.faults sink.new }
{
    match check_source(alloc, source) {
        Ok(()) => match write_valid(sink) {
            Ok(()) => without_run(alloc, Status::Done),
            Err(WriteFailed) => without_run(alloc, Status::WriteFault),
        },
        Err(stop) => without_run(alloc, stop.status()),
    }
}

// Writes the line of a script without a fault.
fn write_valid<K: Sink>(sink: &mut K) -> Result<(), WriteFailed>
    ensures { HasWritten result
        (K.taken sink.old) (K.taken sink.new) (K.faults sink.old) (K.faults sink.new) valid_line }
{
    let mut buffer = Buffer::new();
    buffer.put(sink, b"valid\n")?;
    buffer.flush(sink)?;
    Ok(())
}
