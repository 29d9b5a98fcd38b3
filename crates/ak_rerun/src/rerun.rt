//! A program that is run again over the record of a pool.

ghost use Rattle.std.specs.Prelude.{◌≡◌, ◌≤◌, IfOk, IfErr};
ghost use Rattle.ak_history.specs.Legal.{Legal};
ghost use Rattle.ak_exec.specs.Worlds.{ServesAskers};
ghost use Rattle.ak_meets.specs.Meets.{Meeting, Meets};
ghost use Rattle.ak_rerun.specs.Reruns.{IsRerun, DepartsFrom, Tells};

use ak_cycle::cycle::run;
use ak_history::event::History;
use ak_labor::config::Config;
use ak_labor::port::PortError;
use ak_meets::law::{has_called, one_meeting};
use ak_program::program::Program;
use ak_replay::port::{Departure, Missed, Naming, ReplayPort};
use ak_trace::entry::Trace;
use std::alloc::Global;
use std::marker::Brand;

/// What a program gives that is run again: its trace, and the record as it was.
#[derive(Debug, Drop)]
pub struct Replayed {
    pub trace: Trace,
    pub history: History,
}

/// Why a program gives nothing that is run again.
#[derive(Debug, Drop)]
pub enum RerunRefused {
    /// It makes another call than the record has next.
    Departs(Departure),
    NoMemory,
}

/// Runs a program over the record of a pool: a history that is legal for the threads of the settings. At most
/// `config.limit` jobs of a priority run in a cycle, which is at least 1. There are at most 16 askers, and none where the program
/// has no procedure `ask`. Own.
///
/// `Ok` exactly where the run and the record go together to the run's end, want of memory aside: the trace is the machine's
/// for the replies of the record, and the record holds exactly the calls that the machine makes.
///
/// # Errors
///
/// `Departs`, exactly where the machine makes another call than the record has next, with its place, the call, and the event
/// that stands there; or where no call is left, with the call. `NoMemory` for want of memory.
pub fn rerun(
    alloc: Global,
    program: Program,
    config: Config,
    history: History,
) -> Result<Replayed, RerunRefused>
    requires limit { 1 ≤ config.limit }
    requires served { ServesAskers program config.askers }
    requires legal { Legal config.threads config.askers history }
    ensures ran { IfOk result (λ ran.
        IsRerun program config history ran.trace × (ran.history ≡ history)) }
    ensures departs { IfErr result (DepartsFrom program config history) }
    ensures exact { (m : Meeting) → Meets program config history m → Tells result m }
{
    one_meeting();
    run_on::<Brand>(alloc, program, config, history)
}

// The same over the record that `B` names.
fn run_on<B: Naming>(
    alloc: Global,
    program: Program,
    config: Config,
    history: History,
) -> Result<Replayed, RerunRefused>
    requires named { B.recording ≡ record {
      threads = config.threads;
      askers = config.askers;
      history = history;
    } }
    requires limit { 1 ≤ config.limit }
    requires served { ServesAskers program config.askers }
    requires legal { Legal config.threads config.askers history }
    ensures ran { IfOk result (λ ran.
        IsRerun program config history ran.trace × (ran.history ≡ history)) }
    ensures departs { IfErr result (DepartsFrom program config history) }
{
    // For the proof alone: the calls of a run are those that it wanted.
    has_called();
    let mut port: ReplayPort<B> = ReplayPort::make(alloc, history, config.threads, config.askers);
    match run(alloc, program, config, &mut port) {
        Ok(trace) => Ok(Replayed {
            trace,
            history: port.history(),
        }),
        Err(PortError::NoMemory) => Err(RerunRefused::NoMemory),
        Err(PortError::Fault(Missed)) => match port.departure() {
            Some(departure) => Err(RerunRefused::Departs(departure)),
            None => unreachable!(),
        },
    }
}
