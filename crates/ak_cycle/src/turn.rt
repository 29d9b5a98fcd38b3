//! The next job, or the end of a run at its limit of jobs.

ghost use Rattle.std.specs.Prelude.{◌≡◌, ◌<◌, true, IfOk};
ghost use Rattle.ak_labor.specs.Calls.{IsFault};
ghost use Rattle.ak_machine.specs.Run.{run_of};
ghost use Rattle.ak_rings.specs.Queues.{has_pick};
ghost use Rattle.ak_exec.specs.Asks.{IsNoMemory};
ghost use Rattle.ak_cycle.specs.Runs.{WantsLast, WantsNext};
ghost use Rattle.ak_cycle.specs.Turns.{IsServed, GoesOn, jobs_left};

use ak_exec::world::{World, finish, pick, run_frame, spent};
use ak_labor::port::{Port, PortError};
use ak_machine::flow::Flow;
use ak_trace::entry::Ending;

/// Runs the next job, where fewer ran than the limit allows, and else ends the run. The answer is whether it goes on.
pub fn run_next<P: Port>(world: &mut World, port: &mut P) -> Result<bool, PortError<P::Fault>>
    requires served { IsServed world.old.program world.old.config world.old
        (P.asked port.old) (P.replies port.old) (P.waits port.old) }
    requires pick { has_pick world.old.plain.queues ≡ true }
    requires askers { world.old.config.askers ≡ P.askers port.old }
    ensures on { IfOk result (λ on. GoesOn on world.old.program world.old.config world.new
        (P.asked port.new) (P.replies port.new) (P.waits port.new)) }
    ensures left { IfOk result (λ on. on ≡ true → jobs_left world.new < jobs_left world.old) }
    ensures threads { P.threads port.new ≡ P.threads port.old }
    ensures askers { P.askers port.new ≡ P.askers port.old }
    ensures fault { IsFault result → WantsLast
        (run_of world.old.program world.old.config (P.replies port.new))
        (P.asked port.new) (P.replies port.new) (P.waits port.new) }
    ensures memory { IsNoMemory result
        → WantsNext (run_of world.old.program world.old.config (P.replies port.new))
        (P.asked port.new) (P.replies port.new) (P.waits port.new) }
{
    if spent(world) {
        finish(world, Ending::Jobs)?;
        return Ok(false);
    }
    let _no = pick(world);
    match run_frame(world, port)? {
        Flow::On => Ok(true),
        _ => Ok(false),
    }
}
