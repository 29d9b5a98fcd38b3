//! A script from its source to its trace.

ghost use Rattle.std.specs.Prelude.{◌≡◌, ◌≤◌, ℕ, List, IfOk, IfErr, OnOk};
ghost use Rattle.ak_script.specs.declared.script.Proc.{Proc};
ghost use Rattle.ak_crew.specs.Crews.{AreUnused};
ghost use Rattle.ak_cycle.specs.Turns.{IsFinished};
ghost use Rattle.ak_machine.specs.Status.{status_of};
ghost use Rattle.ak_top.specs.Hands.{HaveCarried, AreKept};
ghost use Rattle.ak_top.specs.Headline.{IsScript, RunsTo, IsRun, IsValidSource};
ghost use Rattle.ak_reading.specs.Reading.{WasRead};
ghost use Rattle.ak_top.specs.Refusals.{ScriptFault, TellsFault, TellsScript};
ghost use Rattle.ak_top.specs.Stops.{IsStop, IsNoProgram, IsProgramOf, Refuses, Accepts};

use crate::stop::Stop;
use ak_base::source::Source;
use ak_crew::crew::crew;
use ak_history::event::History;
use ak_labor::config::Config;
use ak_labor::labor::Labor;
use ak_program::program::Program;
use ak_reading::reading::{SCRIPT_LIMIT, Text, read_source};
use ak_syntax::parse::parse;
use ak_trace::entry::Trace;
use ak_valid::validate::validate;
use std::alloc::Global;
use std::sync::Wait;
use std::thread::Threads;

/// The trace and the history of a run.
#[derive(Debug, Drop)]
pub struct Ran {
    pub trace: Trace,
    pub history: History,
}

/// Reads a script and runs it. The hands come back; where there was no memory nothing is known of them.
pub fn run_source<S: Source, L: Labor + Drop, R: Threads + Wait + Sync>(
    rt: &R,
    alloc: Global,
    config: Config,
    source: &mut S,
    hands: Vec<L>,
) -> (Result<Ran, Stop>, Vec<L>)
    requires limit { 1 ≤ config.limit }
    requires threads { (1 ≤ config.threads) × (config.threads ≤ 32) }
    requires askers { config.askers ≡ 0 }
    requires hands { AreUnused L.carried config.threads hands.items }
    ensures ran { IfOk result.0 (λ ran. IsRun config (S.left source.old) ran.trace ran.history) }
    ensures finished { IfOk result.0 (λ ran. IsFinished (status_of ran.trace)) }
    ensures carried { IfOk result.0
        (λ ran. HaveCarried L.carried hands.items result.1.items ran.history) }
    ensures kept { IfErr result.0 (AreKept hands.items result.1.items) }
    ensures stop { IfErr result.0
        (IsStop (S.left source.old) (S.faults source.old) (S.faults source.new)) }
    ensures refuses { (line kind : ℕ) → TellsFault (S.left source.old) line kind
        → Refuses line kind result.0 }
    ensures accepts { TellsScript (S.left source.old) → Accepts result.0 }
    ensures faults { S.faults source.old ≤ S.faults source.new }
{
    match read_source(alloc, source, SCRIPT_LIMIT) {
        Ok(text) => run_bytes(rt, alloc, config, text.bytes(), hands),
        Err(error) => (Err(Stop::from(error)), hands),
    }
}

/// Reads a script and tests it.
pub fn check_source<S: Source>(alloc: Global, source: &mut S) -> Result<(), Stop>
    ensures valid { OnOk result (IsValidSource (S.left source.old)) }
    ensures stop { IfErr result
        (IsStop (S.left source.old) (S.faults source.old) (S.faults source.new)) }
    ensures refuses { (line kind : ℕ) → TellsFault (S.left source.old) line kind
        → Refuses line kind result }
    ensures accepts { TellsScript (S.left source.old) → Accepts result }
    ensures faults { S.faults source.old ≤ S.faults source.new }
{
    match read_source(alloc, source, SCRIPT_LIMIT) {
        Ok(text) => check_bytes(alloc, text.bytes()),
        Err(error) => Err(Stop::from(error)),
    }
}

// Tests the script in these bytes.
fn check_bytes(alloc: Global, bytes: &[u8]) -> Result<(), Stop>
    ensures valid { OnOk result ((script : List Proc) × IsScript bytes.now script) }
    ensures stop { IfErr result (IsNoProgram bytes.now) }
    ensures refuses { (line kind : ℕ) → ScriptFault bytes.now line kind
        → Refuses line kind result }
    ensures accepts { (script : List Proc) → IsScript bytes.now script → Accepts result }
{
    match load(alloc, bytes) {
        Ok(_program) => Ok(()),
        Err(stop) => Err(stop),
    }
}

// Runs the script in these bytes.
fn run_bytes<L: Labor + Drop, R: Threads + Wait + Sync>(
    rt: &R,
    alloc: Global,
    config: Config,
    bytes: &[u8],
    hands: Vec<L>,
) -> (Result<Ran, Stop>, Vec<L>)
    requires limit { 1 ≤ config.limit }
    requires threads { (1 ≤ config.threads) × (config.threads ≤ 32) }
    requires askers { config.askers ≡ 0 }
    requires hands { AreUnused L.carried config.threads hands.items }
    ensures ran { IfOk result.0 (λ ran. RunsTo config bytes.now ran.trace ran.history) }
    ensures finished { IfOk result.0 (λ ran. IsFinished (status_of ran.trace)) }
    ensures carried { IfOk result.0
        (λ ran. HaveCarried L.carried hands.items result.1.items ran.history) }
    ensures kept { IfErr result.0 (AreKept hands.items result.1.items) }
    ensures stop { IfErr result.0 (IsNoProgram bytes.now) }
    ensures refuses { (line kind : ℕ) → ScriptFault bytes.now line kind
        → Refuses line kind result.0 }
    ensures accepts { (script : List Proc) → IsScript bytes.now script → Accepts result.0 }
{
    match load(alloc, bytes) {
        Ok(program) => run_program(rt, alloc, config, bytes, program, hands),
        Err(stop) => (Err(stop), hands),
    }
}

// Runs a program over a crew.
fn run_program<L: Labor + Drop, R: Threads + Wait + Sync>(
    rt: &R,
    alloc: Global,
    config: Config,
    bytes: &[u8],
    program: Program,
    hands: Vec<L>,
) -> (Result<Ran, Stop>, Vec<L>)
    requires limit { 1 ≤ config.limit }
    requires threads { (1 ≤ config.threads) × (config.threads ≤ 32) }
    requires askers { config.askers ≡ 0 }
    requires hands { AreUnused L.carried config.threads hands.items }
    requires program { IsProgramOf bytes.now program }
    ensures ran { IfOk result.0 (λ ran. RunsTo config bytes.now ran.trace ran.history) }
    ensures finished { IfOk result.0 (λ ran. IsFinished (status_of ran.trace)) }
    ensures carried { IfOk result.0
        (λ ran. HaveCarried L.carried hands.items result.1.items ran.history) }
    ensures stop { IfErr result.0 (λ stop. stop ≡ Stop.NoMemory) }
{
    match crew(rt, alloc, program, config, hands) {
        Ok(ran) => (
            Ok(Ran {
                trace: ran.trace,
                history: ran.history,
            }),
            ran.hands,
        ),
        Err(_) => (Err(Stop::NoMemory), Vec::new(alloc)),
    }
}

// The program of the script in these bytes.
pub(crate) fn load(alloc: Global, bytes: &[u8]) -> Result<Program, Stop>
    ensures program { IfOk result (IsProgramOf bytes.now) }
    ensures stop { IfErr result (IsNoProgram bytes.now) }
    ensures refuses { (line kind : ℕ) → ScriptFault bytes.now line kind → Refuses line kind result }
    ensures accepts { (script : List Proc) → IsScript bytes.now script → Accepts result }
{
    match parse(alloc, bytes) {
        Ok(script) => match validate(alloc, script) {
            Ok(program) => Ok(program),
            Err(refused) => Err(Stop::from(refused)),
        },
        Err(refused) => Err(Stop::from(refused)),
    }
}
