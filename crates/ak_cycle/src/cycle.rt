//! Whole runs.

ghost use Rattle.std.specs.Prelude.{◌≡◌, ◌≤◌, ◌<◌, [], true, IfOk, OnOk};
ghost use Rattle.ak_labor.specs.Calls.{IsFault};
ghost use Rattle.ak_labor.specs.Waits.{outstanding};
ghost use Rattle.ak_machine.specs.Run.{run_of};
ghost use Rattle.ak_machine.specs.Status.{status_of};
ghost use Rattle.ak_exec.specs.Asks.{IsNoMemory};
ghost use Rattle.ak_exec.specs.Worlds.{ServesAskers};
ghost use Rattle.ak_laws.specs.Laws.{ObeysLaws};
ghost use Rattle.ak_cycle.specs.Runs.{HasEndedWith, WantsLast, WantsNext, EndsIdle, EndsClosed, IsQuiet};
ghost use Rattle.ak_cycle.specs.Turns.{IsAt, GoesOn, IsFinished, jobs_left, first_world};

use crate::round::reach_pick;
use crate::turn::run_next;
use ak_base::list::NoMemory;
use ak_exec::world::{World, begin_cycle, trace};
use ak_labor::config::Config;
use ak_labor::port::{Port, PortError};
use ak_laws::law::obeys_laws;
use ak_program::program::Program;
use ak_trace::entry::Trace;
use std::alloc::Global;

/// Runs a program on the scheduler, with a port as its pool: one of so many threads as the settings say, which was
/// asked nothing yet. At most `config.limit` jobs of a priority run in a cycle, which is at least 1. There are as many
/// askers as the settings say, at most 16, and 0 where the program has no procedure `ask`. Own; after Async's scheduler in
/// outline.
///
/// On `Ok` the trace is the machine's for the port's replies, the machine has ended, and what the port was asked is
/// what the machine asks, with its waits; the last call is the close. Where the trace ends idle, a reply has brought
/// each work that was handed in, and as many requests have no answer as askers are left. The trace obeys the laws of traces
/// that are proved.
///
/// # Errors
///
/// `Fault`, only where a call of the port answered it: the machine then wants the reply to that call, which stands last
/// among the port's calls and alone has no reply. `NoMemory` for want of memory: the calls on the port until then are
/// those of the machine, each with its reply, the machine wants the reply to a call that was not made, and the port can
/// still be closed. The waits are the machine's too, which has one more where a wait found no memory.
pub fn run<P: Port>(
    alloc: Global,
    program: Program,
    config: Config,
    port: &mut P,
) -> Result<Trace, PortError<P::Fault>>
    requires limit { 1 ≤ config.limit }
    requires threads { config.threads ≡ P.threads port.old }
    requires askers { config.askers ≡ P.askers port.old }
    requires served { ServesAskers program config.askers }
    requires asked { P.asked port.old ≡ [] }
    requires replied { P.replies port.old ≡ [] }
    requires waited { P.waits port.old ≡ [] }
    ensures ended { IfOk result (λ trace.
        HasEndedWith (run_of program config (P.replies port.new)) trace
        (P.asked port.new) (P.waits port.new)) }
    ensures finished { IfOk result (λ trace. IsFinished (status_of trace)) }
    ensures idle { IfOk result (λ trace.
        EndsIdle trace → outstanding (P.asked port.new) (P.replies port.new) ≡ []) }
    ensures quiet { IfOk result (λ trace.
        EndsIdle trace → IsQuiet config.askers (P.asked port.new) (P.replies port.new)) }
    ensures laws { IfOk result (λ trace. ObeysLaws config.limit trace) }
    ensures closed { OnOk result (EndsClosed (P.asked port.new)) }
    ensures threads { P.threads port.new ≡ P.threads port.old }
    ensures askers { P.askers port.new ≡ P.askers port.old }
    ensures fault { IsFault result → WantsLast (run_of program config (P.replies port.new))
        (P.asked port.new) (P.replies port.new) (P.waits port.new) }
    ensures memory { IsNoMemory result → WantsNext (run_of program config (P.replies port.new))
        (P.asked port.new) (P.replies port.new) (P.waits port.new) }
{
    // For the proof alone: the program is sound, and so its runs obey the laws.
    let _main = program.main();
    obeys_laws();
    let mut world = begin(alloc, program, config)?;
    let driven = drive(alloc, &mut world, port);
    let trace = trace(world);
    driven?;
    Ok(trace)
}

// The world of a program, whose first cycle has begun.
fn begin(alloc: Global, program: Program, config: Config) -> Result<World, NoMemory>
    requires limit { 1 ≤ config.limit }
    requires served { ServesAskers program config.askers }
    ensures { IfOk result (λ world. world ≡ first_world program config) }
{
    let mut world = World::make(alloc, program, config)?;
    begin_cycle(&mut world)?;
    Ok(world)
}

// Turns, to the end of the run, and the close of the port.
fn drive<P: Port>(alloc: Global, world: &mut World, port: &mut P) -> Result<(), PortError<P::Fault>>
    requires at { IsAt world.old.program world.old.config world.old
        (P.asked port.old) (P.replies port.old) (P.waits port.old) }
    requires threads { world.old.config.threads ≡ P.threads port.old }
    requires askers { world.old.config.askers ≡ P.askers port.old }
    ensures ended { OnOk result (HasEndedWith
        (run_of world.old.program world.old.config (P.replies port.new)) world.new.plain.trace
        (P.asked port.new) (P.waits port.new)) }
    ensures finished { OnOk result (IsFinished (status_of world.new.plain.trace)) }
    ensures idle { OnOk result (EndsIdle world.new.plain.trace
        → outstanding (P.asked port.new) (P.replies port.new) ≡ []) }
    ensures quiet { OnOk result (EndsIdle world.new.plain.trace
        → IsQuiet world.old.config.askers (P.asked port.new) (P.replies port.new)) }
    ensures closed { OnOk result (EndsClosed (P.asked port.new)) }
    ensures threads { P.threads port.new ≡ P.threads port.old }
    ensures askers { P.askers port.new ≡ P.askers port.old }
    ensures fault { IsFault result → WantsLast
        (run_of world.old.program world.old.config (P.replies port.new))
        (P.asked port.new) (P.replies port.new) (P.waits port.new) }
    ensures memory { IsNoMemory result → WantsNext
        (run_of world.old.program world.old.config (P.replies port.new))
        (P.asked port.new) (P.replies port.new) (P.waits port.new) }
{
    let mut on = true;
    while on {
        on = turn(alloc, world, port)?;
    }
    port.close()?;
    Ok(())
}

// Drains and cycles up to the next job, and that job. The answer is whether the run goes on.
fn turn<P: Port>(
    alloc: Global,
    world: &mut World,
    port: &mut P,
) -> Result<bool, PortError<P::Fault>>
    requires at { IsAt world.old.program world.old.config world.old
        (P.asked port.old) (P.replies port.old) (P.waits port.old) }
    requires threads { world.old.config.threads ≡ P.threads port.old }
    requires askers { world.old.config.askers ≡ P.askers port.old }
    ensures on { IfOk result (λ on. GoesOn on world.old.program world.old.config world.new
        (P.asked port.new) (P.replies port.new) (P.waits port.new)) }
    ensures left { IfOk result (λ on. on ≡ true → jobs_left world.new < jobs_left world.old) }
    ensures threads { P.threads port.new ≡ P.threads port.old }
    ensures askers { P.askers port.new ≡ P.askers port.old }
    ensures fault { IsFault result → WantsLast
        (run_of world.old.program world.old.config (P.replies port.new))
        (P.asked port.new) (P.replies port.new) (P.waits port.new) }
    ensures memory { IsNoMemory result
        → WantsNext (run_of world.old.program world.old.config (P.replies port.new))
        (P.asked port.new) (P.replies port.new) (P.waits port.new) }
{
    if !reach_pick(alloc, world, port)? {
        return Ok(false);
    }
    run_next(world, port)
}
