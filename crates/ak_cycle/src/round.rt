//! Drains, and the ends of cycles, up to where a job can be picked.

ghost use Rattle.std.specs.Prelude.{◌≡◌, ◌≤◌, ◌<◌, ◌+◌, false, true, drop, length, map, Some, None, IfOk, OnOk, if◌then◌else◌};
ghost use Rattle.ak_labor.specs.Calls.{IsFault};
ghost use Rattle.ak_machine.specs.Cycle.{has_more, arrive_all as all_arrive, requests_served};
ghost use Rattle.ak_machine.specs.Run.{run_of};
ghost use Rattle.ak_rings.specs.Queues.{has_pick};
ghost use Rattle.ak_ledger.specs.Outside.{AreOut, work_kept};
ghost use Rattle.ak_state.specs.Errors.{after_is, Ends};
ghost use Rattle.ak_exec.specs.Asks.{IsNoMemory};
ghost use Rattle.ak_exec.specs.Worlds.{with_state};
ghost use Rattle.ak_cycle.specs.Runs.{WantsLast, WantsNext};
ghost use Rattle.ak_cycle.specs.Turns.{IsAt, IsServed, GoesOn, IsBrought, has_waited, drains_left, may_come, HasGained, MayBeServed, AreNext, ending_of, arrived_to};

use ak_base::list::NoMemory;
use ak_exec::world::{
    World, arrive, arrive_request, begin_cycle, can_pick, finish, more, outstanding, quiet,
    set_left, stuck,
};
use ak_labor::port::{Port, PortError};
use ak_labor::work::Arrivals;
use ak_machine::flow::Flow;
use ak_trace::entry::Ending;
use std::alloc::Global;

/// Drains and cycles, until a job can be picked. The answer is whether the run goes on.
pub fn reach_pick<P: Port>(
    alloc: Global,
    world: &mut World,
    port: &mut P,
) -> Result<bool, PortError<P::Fault>>
    requires at { IsAt world.old.program world.old.config world.old
        (P.asked port.old) (P.replies port.old) (P.waits port.old) }
    requires threads { world.old.config.threads ≡ P.threads port.old }
    requires askers { world.old.config.askers ≡ P.askers port.old }
    ensures brought { IfOk result (λ on. IsBrought on world.old.program world.old.config world.new
        (P.asked port.new) (P.replies port.new) (P.waits port.new)) }
    ensures pick { IfOk result (λ on. on ≡ true → has_pick world.new.plain.queues ≡ true) }
    ensures ran { OnOk result (world.new.ran ≡ world.old.ran) }
    ensures threads { P.threads port.new ≡ P.threads port.old }
    ensures askers { P.askers port.new ≡ P.askers port.old }
    ensures fault { IsFault result → WantsLast
        (run_of world.old.program world.old.config (P.replies port.new))
        (P.asked port.new) (P.replies port.new) (P.waits port.new) }
    ensures memory { IsNoMemory result
        → WantsNext (run_of world.old.program world.old.config (P.replies port.new))
        (P.asked port.new) (P.replies port.new) (P.waits port.new) }
{
    let mut arrivals = Arrivals::make(alloc);
    loop {
        if !fetch(world, port, &mut arrivals)? {
            return Ok(false);
        }
        if can_pick(world) {
            return Ok(true);
        }
        if !end_cycle(world, port)? {
            return Ok(false);
        }
    }
}

/// One drain, whose works and then requests arrive. The answer is whether the run goes on: an error that nobody catches ends it.
fn fetch<P: Port>(
    world: &mut World,
    port: &mut P,
    arrivals: &mut Arrivals,
) -> Result<bool, PortError<P::Fault>>
    requires at { IsAt world.old.program world.old.config world.old
        (P.asked port.old) (P.replies port.old) (P.waits port.old) }
    requires askers { world.old.config.askers ≡ P.askers port.old }
    ensures brought { IfOk result (λ on. IsBrought on world.old.program world.old.config world.new
        (P.asked port.new) (P.replies port.new) (P.waits port.new)) }
    ensures gained { IfOk result (λ on. on ≡ true → HasGained world.old world.new
        (P.asked port.old) (P.waits port.old) (P.turns port.old) (P.turns port.new)) }
    ensures ran { OnOk result (world.new.ran ≡ world.old.ran) }
    ensures threads { P.threads port.new ≡ P.threads port.old }
    ensures askers { P.askers port.new ≡ P.askers port.old }
    ensures turns { P.turns port.new ≤ P.turns port.old }
    ensures waits { P.waits port.new ≡ P.waits port.old }
    ensures fault { IsFault result → WantsLast
        (run_of world.old.program world.old.config (P.replies port.new))
        (P.asked port.new) (P.replies port.new) (P.waits port.new) }
    ensures memory { IsNoMemory result
        → WantsNext (run_of world.old.program world.old.config (P.replies port.new))
        (P.asked port.new) (P.replies port.new) (P.waits port.new) }
{
    port.drain(arrivals)?;
    match arrive_all(world, arrivals)? {
        Flow::On => {
            arrive_requests(world, arrivals)?;
            set_left(world, arrivals.left());
            Ok(true)
        }
        _ => Ok(false),
    }
}

/// The works of a drain arrive in order, until one ends the run.
fn arrive_all(world: &mut World, arrivals: &Arrivals) -> Result<Flow, NoMemory>
    requires free { world.old.picked ≡ None }
    requires out { AreOut (map work_kept world.old.plain.works) arrivals.now.works }
    ensures arrived { IfOk result (λ flow. all_arrive arrivals.now.works world.old.plain
        ≡ Some (after_is flow world.new.plain)) }
    ensures told { IfOk result (λ flow. Ends flow world.new.plain.trace) }
    ensures world { OnOk result (world.new ≡ with_state world.new.plain world.old) }
{
    for k in 0..arrivals.len() {
        match arrive_at(world, arrivals, k) {
            Ok(Flow::On) => {}
            Ok(flow) => return Ok(flow),
            Err(e) => return Err(e),
        }
    }
    Ok(Flow::On)
}

/// One of them arrives.
fn arrive_at(world: &mut World, arrivals: &Arrivals, k: usize) -> Result<Flow, NoMemory>
    requires free { world.old.picked ≡ None }
    requires some { k < length arrivals.now.works }
    requires out { AreOut (map work_kept world.old.plain.works) (drop k arrivals.now.works) }
    ensures arrived { IfOk result (λ flow. all_arrive (drop k arrivals.now.works) world.old.plain
        ≡ arrived_to flow (drop (k + 1) arrivals.now.works) world.new.plain) }
    ensures told { IfOk result (λ flow. Ends flow world.new.plain.trace) }
    ensures out { IfOk result (λ flow. flow ≡ Flow.On
        → AreOut (map work_kept world.new.plain.works) (drop (k + 1) arrivals.now.works)) }
    ensures world { OnOk result (world.new ≡ with_state world.new.plain world.old) }
{
    match arrivals.get(k) {
        Some((work, outcome)) => arrive(world, *work, *outcome),
        None => unreachable!(),
    }
}

/// The requests of a drain arrive in order.
fn arrive_requests(world: &mut World, arrivals: &Arrivals) -> Result<(), NoMemory>
    requires free { world.old.picked ≡ None }
    requires served { MayBeServed world.old.program.ask arrivals.now.requests }
    requires next { AreNext arrivals.now.requests world.old.plain }
    ensures arrived { OnOk result (requests_served world.old.program.ask arrivals.now.requests
        world.old.plain ≡ Some world.new.plain) }
    ensures world { OnOk result (world.new ≡ with_state world.new.plain world.old) }
{
    for k in 0..arrivals.requests() {
        request_at(world, arrivals, k)?;
    }
    Ok(())
}

/// One of them arrives.
fn request_at(world: &mut World, arrivals: &Arrivals, k: usize) -> Result<(), NoMemory>
    requires free { world.old.picked ≡ None }
    requires some { k < length arrivals.now.requests }
    requires served { MayBeServed world.old.program.ask (drop k arrivals.now.requests) }
    requires next { AreNext (drop k arrivals.now.requests) world.old.plain }
    ensures arrived { OnOk result
        (requests_served world.old.program.ask (drop k arrivals.now.requests) world.old.plain
        ≡ requests_served world.new.program.ask (drop (k + 1) arrivals.now.requests)
        world.new.plain) }
    ensures served { OnOk result
        (MayBeServed world.new.program.ask (drop (k + 1) arrivals.now.requests)) }
    ensures next { OnOk result (AreNext (drop (k + 1) arrivals.now.requests) world.new.plain) }
    ensures world { OnOk result (world.new ≡ with_state world.new.plain world.old) }
{
    let Some((no, num)) = arrivals.request(k) else {
        unreachable!()
    };
    arrive_request(world, *no, *num)?;
    Ok(())
}

/// Why the run ends, where no job can be picked and nothing is left to do: `None` where a request or a work may come.
fn ending(world: &World) -> Option<Ending>
    ensures { result ≡ ending_of world.now.config.threads world.now.plain }
{
    if !quiet(world) {
        None
    } else if !outstanding(world) {
        Some(Ending::Idle)
    } else if stuck(world) {
        Some(Ending::Stuck)
    } else {
        None
    }
}

/// Begins the next cycle where something is left to do, or where a request or a work may come; and else ends the run. The
/// answer is whether it goes on.
fn end_cycle<P: Port>(world: &mut World, port: &mut P) -> Result<bool, PortError<P::Fault>>
    requires served { IsServed world.old.program world.old.config world.old
        (P.asked port.old) (P.replies port.old) (P.waits port.old) }
    requires pick { has_pick world.old.plain.queues ≡ false }
    requires threads { world.old.config.threads ≡ P.threads port.old }
    requires askers { world.old.config.askers ≡ P.askers port.old }
    ensures on { IfOk result (λ on. GoesOn on world.old.program world.old.config world.new
        (P.asked port.new) (P.replies port.new) (P.waits port.new)) }
    ensures left { IfOk result (λ on. on ≡ true
        → drains_left world.new (has_waited (P.asked port.new) (P.waits port.new))
        ≤ (if has_more world.old.plain then 2 else 1)) }
    ensures come { OnOk result (may_come world.new.plain ≡ may_come world.old.plain) }
    ensures ran { OnOk result (world.new.ran ≡ world.old.ran) }
    ensures threads { P.threads port.new ≡ P.threads port.old }
    ensures askers { P.askers port.new ≡ P.askers port.old }
    ensures turns { P.turns port.new ≤ P.turns port.old }
    ensures fault { IsFault result → WantsLast
        (run_of world.old.program world.old.config (P.replies port.new))
        (P.asked port.new) (P.replies port.new) (P.waits port.new) }
    ensures memory { IsNoMemory result
        → WantsNext (run_of world.old.program world.old.config (P.replies port.new))
        (P.asked port.new) (P.replies port.new) (P.waits port.new) }
{
    if more(world) {
        begin_cycle(world)?;
        return Ok(true);
    }
    match ending(world) {
        Some(why) => {
            finish(world, why)?;
            Ok(false)
        }
        None => {
            port.wait()?;
            begin_cycle(world)?;
            Ok(true)
        }
    }
}
