//! The command that runs a script again over a history.

ghost use Rattle.std.specs.Prelude.{◌≡◌, ◌≢◌, ◌<◌, ◌≤◌, ◌+◌, ◌↔◌, ℕ, [], length, true, false, IfOk, IfErr, Some, None, codes, slice_get};
ghost use Rattle.ak_base.specs.Streams.{Rose};
ghost use Rattle.ak_cycle.specs.Turns.{IsFinished};
ghost use Rattle.ak_labor.specs.declared.config.Config.{Config as Settings};
ghost use Rattle.ak_machine.specs.Status.{status_of};
ghost use Rattle.ak_exec.specs.Worlds.{ServesAskers};
ghost use Rattle.ak_meets.specs.Meets.{Yes};
ghost use Rattle.ak_record.specs.Cuts.{IsUncut};
ghost use Rattle.ak_words.specs.declared.command.Command.TheVariants.{Replay};
ghost use Rattle.ak_words.specs.Words.{Means, IsCommand, IsUsageFault};
ghost use Rattle.ak_top.specs.Output.{output};
ghost use Rattle.ak_top.specs.Replays.{Outcome, Goes, Gives, GivesCut, GivesUncut, IsServing, GivesFrom, GivesTold, RunsOver, ReplaysTo, IsReplay, HasCause, ReportsReplay, IsStop, AnswerTells, IsPlaced, status_departed};
ghost use Rattle.ak_top.specs.Refusals.{FaultWith};
ghost use Rattle.ak_top.specs.Reports.{is_carried_out, Took, EndsWell};
ghost use Rattle.ak_top.specs.Stops.{IsProgramOf, IsNoProgramWith, Refuses, Accepts};

use crate::check::without_run;
use crate::running::{Ran, load};
use crate::status::{Report, Status};
use crate::stop::Stop;
use crate::top::write_run;
use ak_base::list::Word;
use ak_base::sink::Sink;
use ak_base::source::Source;
use ak_labor::config::Config;
use ak_program::program::Program;
use ak_reading::reading::{RECORD_LIMIT, Text, read_source};
use ak_record::cut::cut_at_pool;
use ak_record::record::{RecordRefused, read_record};
use ak_replay::port::Departure;
use ak_rerun::rerun::{RerunRefused, rerun};
use ak_words::command::{Command, read_command};
use std::alloc::Global;

/// The kind of a source with more bytes than it may have.
const TOO_LONG: u8 = 2;

/// The kind of a script without the procedure that its askers want.
const NO_ASK: u8 = 11;

/// Carries out the command that the words give, the first of which is `replay`, as `top` does: it reads a script, the line
/// `%pool` and a history from the source, runs the script over that history, and writes the text of its trace and of the
/// history. Own.
///
/// The source has at most 67,108,864 bytes. The statuses, in the order in which their causes are tried: `Usage`;
/// `ReadFault`; `Refused`; `BadHistory` by the first line behind `%pool` at fault, or by the line after the last where no
/// line is `%pool`; `Stray` and `Short` where the script makes another call than the history has next; then the run's own
/// end, or `WriteFault`. `NoMemory` may come before the first byte is written.
pub fn replay_words<S: Source, K: Sink>(
    alloc: Global,
    words: &[Word],
    source: &mut S,
    sink: &mut K,
) -> Report
    requires { slice_get words.now 0 ≡ Some (codes "replay") }
    ensures reports { (config : Settings) → Means words.now (Replay config)
        → ReportsReplay config (S.left source.old) result }
    ensures took { (config : Settings) → Means words.now (Replay config)
        → Took result.status (K.taken sink.old) (K.taken sink.new)
        (output result.trace result.history) }

    // words that are no command
    ensures usage { (place : ℕ) → (result.status ≡ Status.Usage place)
        ↔ IsUsageFault words.now place }
    ensures bare { is_carried_out result.status ≡ false → K.taken sink.new ≡ K.taken sink.old }

    // faults of reading and writing come only where a count rose, and without them a replay comes to its end
    ensures read_fault { result.status ≡ Status.ReadFault
        → IsCommand words.now × Rose (S.faults source.old) (S.faults source.new) }
    ensures write_fault { result.status ≡ Status.WriteFault
        → IsCommand words.now × Rose (K.faults sink.old) (K.faults sink.new) }
    ensures complete { (config : Settings) → Means words.now (Replay config)
        → GivesTold config (S.left source.old) (Goes Yes)
        → (Rose (S.faults source.old) (S.faults source.new) → ⊥) → (Rose (K.faults sink.old) (K.faults sink.new) → ⊥)
        → EndsWell result.status }
    ensures source_faults { S.faults source.old ≤ S.faults source.new }
    ensures sink_faults { K.faults sink.old ≤ K.faults sink.new }
{
    match read_command(words) {
        Ok(Command::Replay(config)) => replay_command(alloc, config, source, sink),
        Ok(_) => unreachable!(),
        Err(place) => without_run(alloc, Status::Usage { place }),
    }
}

// Runs a script of a source over its history, and writes what comes of it.
pub(crate) fn replay_command<S: Source, K: Sink>(
    alloc: Global,
    config: Config,
    source: &mut S,
    sink: &mut K,
) -> Report
    requires limit { 1 ≤ config.limit }
    requires askers { config.askers ≤ 16 }
    ensures reports { ReportsReplay config (S.left source.old) result }
    ensures took { Took result.status (K.taken sink.old) (K.taken sink.new)
        (output result.trace result.history) }
    ensures read_fault { result.status ≡ Status.ReadFault
        → Rose (S.faults source.old) (S.faults source.new) }
    ensures write_fault { result.status ≡ Status.WriteFault
        → Rose (K.faults sink.old) (K.faults sink.new) }
    ensures source_faults { S.faults source.old ≤ S.faults source.new }
    ensures sink_faults { K.faults sink.old ≤ K.faults sink.new }
{
    match replay_source(alloc, config, source) {
        Ok(ran) => write_run(ran, sink),
        Err(status) => without_run(alloc, status),
    }
}

// Reads a source, and runs its script over its history.
fn replay_source<S: Source>(alloc: Global, config: Config, source: &mut S) -> Result<Ran, Status>
    requires limit { 1 ≤ config.limit }
    requires askers { config.askers ≤ 16 }
    ensures ran { IfOk result (λ ran.
        IsReplay config (S.left source.old) ran.trace ran.history) }
    ensures finished { IfOk result (λ ran. IsFinished (status_of ran.trace)) }
    ensures caused { IfErr result (HasCause (GivesFrom config (S.left source.old))) }
    ensures bare { IfErr result (λ status. is_carried_out status ≡ false) }
    ensures read_fault { IfErr result (λ status. status ≡ Status.ReadFault
        → Rose (S.faults source.old) (S.faults source.new)) }
    ensures tells { (outcome : Outcome) → GivesTold config (S.left source.old) outcome
        → AnswerTells result outcome }
    ensures faults { S.faults source.old ≤ S.faults source.new }
{
    match read_source(alloc, source, RECORD_LIMIT) {
        Ok(Text::Whole(bytes)) => replay_bytes(alloc, config, bytes.as_slice()),
        Ok(Text::TooLong(bytes)) => {
            drop(bytes);
            Err(Status::Refused {
                line: 0,
                kind: TOO_LONG,
            })
        }
        Err(error) => Err(Stop::from(error).status()),
    }
}

// Runs the script in a source's bytes over its history.
fn replay_bytes(alloc: Global, config: Config, source: &[u8]) -> Result<Ran, Status>
    requires short { length source.now ≤ 67108864 }
    requires limit { 1 ≤ config.limit }
    requires askers { config.askers ≤ 16 }
    ensures ran { IfOk result (λ ran. ReplaysTo config source.now ran.trace ran.history) }
    ensures finished { IfOk result (λ ran. IsFinished (status_of ran.trace)) }
    ensures caused { IfErr result (HasCause (Gives config source.now)) }
    ensures stops { IfErr result IsStop }
    ensures tells { (outcome : Outcome) → Gives config source.now outcome
        → AnswerTells result outcome }
{
    match cut_at_pool(source) {
        Ok(cut) => replay_cut(alloc, config, cut.script, cut.history, cut.number + 1),
        Err(after) => Err(without_record(alloc, config, source, after)),
    }
}

// Runs a script over the history behind it.
fn replay_cut(
    alloc: Global,
    config: Config,
    script: &[u8],
    record_bytes: &[u8],
    first: u32,
) -> Result<Ran, Status>
    requires few { first + length record_bytes.now < 4294967295 }
    requires limit { 1 ≤ config.limit }
    requires askers { config.askers ≤ 16 }
    ensures ran { IfOk result (λ ran.
        RunsOver config script.now record_bytes.now first ran.trace ran.history) }
    ensures finished { IfOk result (λ ran. IsFinished (status_of ran.trace)) }
    ensures caused { IfErr result (HasCause (GivesCut config script.now record_bytes.now first)) }
    ensures stops { IfErr result IsStop }
    ensures tells { (outcome : Outcome)
        → GivesCut config script.now record_bytes.now first outcome
        → AnswerTells result outcome }
{
    let program = match load_serving(alloc, config.askers, script) {
        Ok(program) => program,
        Err(stop) => return Err(stop.status()),
    };
    match read_record(alloc, record_bytes, first, config.threads, config.askers) {
        Ok(history) => match rerun(alloc, program, config, history) {
            Ok(again) => Ok(Ran {
                trace: again.trace,
                history: again.history,
            }),
            Err(RerunRefused::Departs(departure)) => Err(departed(departure)),
            Err(RerunRefused::NoMemory) => Err(Status::NoMemory),
        },
        Err(RecordRefused::BadHistory { line }) => {
            drop(program);
            Err(Status::BadHistory { line })
        }
        Err(RecordRefused::NoMemory) => {
            drop(program);
            Err(Status::NoMemory)
        }
    }
}

// Why a source without a line `%pool` is not replayed.
fn without_record(alloc: Global, config: Config, source: &[u8], after: u32) -> Status
    requires askers { config.askers ≤ 16 }
    ensures caused { HasCause (GivesUncut config source.now after) result }
    ensures stops { IsStop result }
    ensures tells { (outcome : Outcome) → GivesUncut config source.now after outcome
        → AnswerTells (Err result) outcome }
{
    match load_serving(alloc, config.askers, source) {
        Ok(program) => {
            drop(program);
            Status::BadHistory { line: after }
        }
        Err(stop) => stop.status(),
    }
}

// The program of the script in these bytes, which serves so many askers.
fn load_serving(alloc: Global, askers: u32, bytes: &[u8]) -> Result<Program, Stop>
    requires few { askers ≤ 16 }
    ensures program { IfOk result (IsProgramOf bytes.now) }
    ensures serves { IfOk result (λ program. ServesAskers program askers) }
    ensures stop { IfErr result (IsNoProgramWith askers bytes.now) }
    ensures refuses { (line kind : ℕ) → FaultWith askers bytes.now line kind
        → Refuses line kind result }
    ensures accepts { IsServing askers bytes.now → Accepts result }
{
    match load(alloc, bytes) {
        Ok(program) => {
            if lacks_ask(&program, askers) {
                drop(program);
                return Err(Stop::Refused {
                    line: 0,
                    kind: NO_ASK,
                });
            }
            Ok(program)
        }
        Err(stop) => Err(stop),
    }
}

// Whether there are askers and the program has no procedure that serves them.
fn lacks_ask(program: &Program, askers: u32) -> bool
    requires few { askers ≤ 16 }
    ensures lacks { result ≡ true → (1 ≤ askers) × (program.now.ask ≡ None) }
    ensures serves { result ≡ false → ServesAskers program.now askers }
{
    match program.ask() {
        Some(_) => false,
        None => askers > 0,
    }
}

// The status of a departure from a record.
fn departed(departure: Departure) -> Status
    requires { IsPlaced departure }
    ensures { result ≡ status_departed departure }
{
    match departure {
        Departure::Stray { place, asked, kept } => Status::Stray {
            place: place as u32,
            asked,
            kept,
        },
        Departure::Short { asked } => Status::Short { asked },
    }
}
