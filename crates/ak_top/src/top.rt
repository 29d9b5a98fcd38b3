//! The top call.

ghost use Rattle.std.specs.Prelude.{◌≡◌, ◌≢◌, ◌≤◌, ◌↔◌, ◌⊎◌, ℕ, [], length, false, OnOk, OnErr};
ghost use Rattle.std.specs.List.{AllByRecursion};
ghost use Rattle.ak_base.specs.Streams.{Rose, HasWritten};
ghost use Rattle.ak_crew.specs.Crews.{AreUnused};
ghost use Rattle.ak_cycle.specs.Turns.{IsFinished};
ghost use Rattle.ak_machine.specs.Status.{status_of};
ghost use Rattle.ak_words.specs.declared.command.Command.{Command as Order};
ghost use Rattle.ak_words.specs.Words.{Means, IsCommand, IsUsageFault};
ghost use Rattle.ak_top.specs.Commands.{Reports, TellsWhole};
ghost use Rattle.ak_top.specs.Hands.{AreAfterRun, AreAfter};
ghost use Rattle.ak_top.specs.Output.{output, output_of};
ghost use Rattle.ak_top.specs.Reports.{is_carried_out, Took, ReportsRun, EndsWell};
ghost use Rattle.ak_top.specs.Status.{IsStatusOf};

use crate::check::{check_command, without_run};
use crate::replay::replay_command;
use crate::running::{Ran, run_source};
use crate::status::{Report, Status, status_of_trace};
use ak_base::buffer::Buffer;
use ak_base::list::Word;
use ak_base::sink::{Sink, WriteFailed};
use ak_base::source::Source;
use ak_history::event::History;
use ak_history::text::put_history;
use ak_labor::config::Config;
use ak_labor::labor::Labor;
use ak_trace::entry::Trace;
use ak_trace::text::put_trace;
use ak_words::command::{Command, read_command};
use std::alloc::Global;
use std::sync::Wait;
use std::thread::Threads;

/// Carries out the command that the words give. `run` reads a script from the source, runs it, each thread with the hand
/// at its place, and writes the text of its trace and of its history to the sink. `replay` reads a script, the line `%pool`
/// and a history, runs the script over that history on the calling thread, and writes the same of it. `check` reads a
/// script and writes the line `valid` where it has no fault. Own.
///
/// The source is read to its end, to a failed read, or until it gave one byte more than it may have: 1,048,576, or
/// 67,108,864 for `replay`. Each read has room for a byte at least. Nothing is written before the run has ended, no empty piece is ever written, and
/// writing takes no memory.
///
/// The statuses, in the order in which their causes are tried: `Usage` where the words are no command; `ReadFault`;
/// `Refused` by the first line of the script with a fault, and the least kind of its faults; of a replay `BadHistory`, by
/// the first line of the history at fault, then `Stray` and `Short`, where the script makes another call than the history
/// has next; then the run's own end, or `WriteFault`. `NoMemory` may come before the first byte is written.
///
/// The hands come back: after a run in their order, each having carried as many works as its thread finished; after want
/// of memory in a run nothing is known of them; and else as they came.
pub fn top<S: Source, K: Sink, L: Labor + Drop, R: Threads + Wait + Sync>(
    rt: &R,
    alloc: Global,
    words: &[Word],
    source: &mut S,
    sink: &mut K,
    hands: Vec<L>,
) -> (Report, Vec<L>)
    requires hands { (length hands.items ≡ 32) × AllByRecursion (λ h. L.carried h ≡ 0) hands.items }

    // the headline stands in the report of a run
    ensures reports { (command : Order) → Means words.now command
        → Reports command (S.left source.old) result.0 }
    ensures took { (command : Order) → Means words.now command
        → Took result.0.status (K.taken sink.old) (K.taken sink.new)
        (output_of command result.0.trace result.0.history) }

    // the hands, by the command and its status
    ensures hands { (command : Order) → Means words.now command
        → AreAfter L.carried hands.items result.1.items command result.0 }
    ensures unused { (place : ℕ) → result.0.status ≡ Status.Usage place
        → result.1.items ≡ hands.items }

    // words that are no command
    ensures usage { (place : ℕ) → (result.0.status ≡ Status.Usage place)
        ↔ IsUsageFault words.now place }
    ensures bare { is_carried_out result.0.status ≡ false
        → (result.0.trace ≡ []) × (result.0.history ≡ [])
        × (K.taken sink.new ≡ K.taken sink.old) }

    // faults of reading and writing come only where a count rose, and without them a command comes to its end
    ensures read_fault { result.0.status ≡ Status.ReadFault
        → IsCommand words.now × Rose (S.faults source.old) (S.faults source.new) }
    ensures write_fault { result.0.status ≡ Status.WriteFault
        → IsCommand words.now × Rose (K.faults sink.old) (K.faults sink.new) }
    ensures complete { (command : Order) → Means words.now command
        → TellsWhole command (S.left source.old)
        → (Rose (S.faults source.old) (S.faults source.new) → ⊥) → (Rose (K.faults sink.old) (K.faults sink.new) → ⊥)
        → EndsWell result.0.status }
    ensures source_faults { S.faults source.old ≤ S.faults source.new }
    ensures sink_faults { K.faults sink.old ≤ K.faults sink.new }
{
    match read_command(words) {
        Ok(Command::Run(config)) => run_command(rt, alloc, config, source, sink, hands),
        Ok(Command::Replay(config)) => (replay_command(alloc, config, source, sink), hands),
        Ok(Command::Check) => (check_command(alloc, source, sink), hands),
        Err(place) => (without_run(alloc, Status::Usage { place }), hands),
    }
}

// Reads a script, runs it and writes what comes of it.
fn run_command<S: Source, K: Sink, L: Labor + Drop, R: Threads + Wait + Sync>(
    rt: &R,
    alloc: Global,
    config: Config,
    source: &mut S,
    sink: &mut K,
    hands: Vec<L>,
) -> (Report, Vec<L>)
    requires limit { 1 ≤ config.limit }
    requires threads { (1 ≤ config.threads) × (config.threads ≤ 32) }
    requires askers { config.askers ≡ 0 }
    requires hands { AreUnused L.carried config.threads hands.items }
    ensures reports { ReportsRun config (S.left source.old) result.0 }
    ensures took { Took result.0.status (K.taken sink.old) (K.taken sink.new)
        (output result.0.trace result.0.history) }
    ensures hands { AreAfterRun L.carried hands.items result.1.items result.0.history
        result.0.status }
    ensures read_fault { result.0.status ≡ Status.ReadFault
        → Rose (S.faults source.old) (S.faults source.new) }
    ensures write_fault { result.0.status ≡ Status.WriteFault
        → Rose (K.faults sink.old) (K.faults sink.new) }
    ensures usage { (place : ℕ) → result.0.status ≢ Status.Usage place }
    ensures source_faults { S.faults source.old ≤ S.faults source.new }
    ensures sink_faults { K.faults sink.old ≤ K.faults sink.new }
{
    let (answer, hands) = run_source(rt, alloc, config, source, hands);
    match answer {
        Ok(ran) => (write_run(ran, sink), hands),
        Err(stop) => (without_run(alloc, stop.status()), hands),
    }
}

// Writes a run, and reports it.
pub(crate) fn write_run<K: Sink>(ran: Ran, sink: &mut K) -> Report
    requires { IsFinished (status_of ran.trace) }
    ensures trace { result.trace ≡ ran.trace }
    ensures history { result.history ≡ ran.history }
    ensures status { IsStatusOf (status_of ran.trace) result.status
        ⊎ (result.status ≡ Status.WriteFault) }
    ensures took { Took result.status (K.taken sink.old) (K.taken sink.new)
        (output ran.trace ran.history) }
    ensures write_fault { result.status ≡ Status.WriteFault
        → Rose (K.faults sink.old) (K.faults sink.new) }
    ensures faults { K.faults sink.old ≤ K.faults sink.new }
{
    let Ran { trace, history } = ran;
    let status = match write_output(&trace, &history, sink) {
        Ok(()) => status_of_trace(&trace),
        Err(WriteFailed) => Status::WriteFault,
    };
    Report {
        status,
        trace,
        history,
    }
}

// Writes the text of a trace and of a history.
fn write_output<K: Sink>(trace: &Trace, history: &History, sink: &mut K) -> Result<(), WriteFailed>
    ensures { HasWritten result
        (K.taken sink.old) (K.taken sink.new) (K.faults sink.old) (K.faults sink.new) (output trace.now history.now) }
{
    let mut buffer = Buffer::new();
    put_trace(trace, &mut buffer, sink)?;
    buffer.put(sink, b"%pool\n")?;
    put_history(history, &mut buffer, sink)?;
    buffer.flush(sink)?;
    Ok(())
}
