//! The scheduler's state with its program, and the calls that a cycle is made of.

ghost use Rattle.std.specs.Prelude.{◌≡◌, ◌≤◌, ◌<◌, [], ◌∷◌, length, not, find, IsSome, Some, None, OnOk, OnErr, IfOk, nat_le, false, true};
ghost use Rattle.std.specs.Option.{option_map};
ghost use Rattle.ak_base.specs.Lists.{is_empty_list};
ghost use Rattle.ak_rings.specs.Queues.{pick_of, has_pick};
ghost use Rattle.ak_labor.specs.Calls.{IsOpen, IsFault};
ghost use Rattle.ak_machine.specs.Cycle.{cycle_begun, has_more, is_stuck, is_quiet, with_left, is_work, arrive as arrives, requests_served};
ghost use Rattle.ak_machine.specs.Deferred.{noting};
ghost use Rattle.ak_state.specs.Errors.{Ends, after_is};
ghost use Rattle.ak_exec.specs.Throttled.{ThrottlesHold};
ghost use Rattle.ak_exec.specs.Worlds.{with_pick, with_state, first_state, ServesAskers, JobLeads, JobFaults, JobStops};
ghost use Rattle.ak_ledger.specs.Outside.{IsInStep};
ghost use Rattle.ak_exec.specs.Asks.{IsInStepAfter, IsQuietSince, IsNoMemory};

use crate::asks::run_through;
use ak_base::list::{Items, NoMemory};
use ak_base::number::{Ctx, JobNo, MonNo, Num, RequestNo, WorkNo};
use ak_frames::frame::{Frame, Ret, Task};
use ak_labor::config::Config;
use ak_labor::port::{Port, PortError};
use ak_labor::work::Outcome;
use ak_machine::flow::Flow;
use ak_program::program::Program;
use ak_rings::job::Job;
use ak_state::parts::Parts;
use ak_trace::entry::{Ending, Entry, Trace};
use std::alloc::Global;
use std::marker::Model;

/// The whole state of a scheduler but its port: the program, the settings, the parts, the job that was picked and has
/// not run yet, and how many jobs were picked. Contracts see the plain state that the parts stand for. Own.
#[derive(Debug, Drop)]
pub struct World {
    program: Program,
    config: Config,
    parts: Parts,
    picked: Option<Job<Task>>,
    ran: u32,
}

impl Model for World {
    ghost use Rattle.ak_exec.specs.Worlds.{Worldly, IsWhole, world_of};

    ghost Value = { Worldly };

    ghost view = { λ w. world_of w.program w.config w.parts w.picked w.ran };

    ghost invariant = { λ w. IsWhole (world_of w.program w.config w.parts w.picked w.ran) };
}

impl World {
    /// The world of a program. The call of `main` is enqueued as job 0 in the root
    /// monitor, at normal priority. At most `config.limit` jobs of a priority run in a cycle, which is at least 1. There
    /// are `config.askers` askers, which are at most 16, and 0 where the program has no procedure `ask`.
    ///
    /// # Errors
    ///
    /// `NoMemory`.
    pub fn make(alloc: Global, program: Program, config: Config) -> Result<World, NoMemory>
        requires limit { 1 ≤ config.limit }
        requires askers { ServesAskers program config.askers }
        ensures world { IfOk result (λ world. world
            ≡ record {
              program = program;
              config = config;
              plain = first_state program config;
              picked = None;
              ran = 0;
            }) }
    {
        let mut parts = Parts::make(alloc, config.limit, config.askers)?;
        let ctx = Ctx {
            mon: MonNo::new(0),
            low: false,
        };
        let frame = Frame::Call {
            proc: program.main(),
            vals: Items::make(alloc),
            ret: Ret::Drop,
        };
        parts.enqueue(ctx, Task { frame, value: None })?;
        Ok(World {
            program,
            config,
            parts,
            picked: None,
            ran: 0,
        })
    }
}

/// Whether there is a job to pick: one waits, and fewer of its priority than the limit ran in this cycle.
pub fn can_pick(world: &World) -> bool
    ensures { result ≡ has_pick world.now.plain.queues }
{
    world.parts.can_pick()
}

/// Whether as many jobs were picked as a run may have.
pub fn spent(world: &World) -> bool
    ensures { result ≡ nat_le world.now.config.jobs world.now.ran }
{
    world.config.jobs <= world.ran
}

/// Takes the next job out of its queue and keeps it until it runs, where none is kept and the jobs are not spent. The
/// answer is its number: `None` exactly where there is no job to pick, and nothing changes then.
pub fn pick(world: &mut World) -> Option<JobNo>
    requires free { world.old.picked ≡ None }
    requires unspent { world.old.ran < world.old.config.jobs }
    ensures number { result ≡ option_map (λ job. job.no) (pick_of world.old.plain.queues) }
    ensures world { world.new ≡ with_pick world.old }
{
    prove!(world.ran < world.config.jobs);
    match world.parts.pick() {
        Some(job) => {
            let no = job.no;
            world.ran += 1;
            world.picked = Some(job);
            Some(no)
        }
        None => None,
    }
}

/// Runs the job that was picked, to its end, with its calls on the port, and keeps none. The works and helpers of the world are
/// those of the port's calls and replies, each of the calls has its reply, and none was the close.
///
/// # Errors
///
/// `Fault`, only where a call of the port answered it: the job came to that call, which stands last among the port's calls and
/// alone has no reply. `NoMemory`: each call has its reply. The world is given up then.
pub fn run_frame<P: Port>(world: &mut World, port: &mut P) -> Result<Flow, PortError<P::Fault>>
    requires picked { IsSome world.old.picked }
    requires open { IsOpen (P.asked port.old) (P.replies port.old) }
    requires in_step { IsInStep (P.askers port.old) (P.asked port.old) (P.replies port.old)
        world.old.plain }
    ensures runs { IfOk result (λ flow. JobLeads world.old flow world.new.plain
        (P.asked port.old) (P.asked port.new) (P.replies port.old) (P.replies port.new)) }
    ensures told { IfOk result (λ flow. Ends flow world.new.plain.trace) }
    ensures world { OnOk result (world.new
        ≡ record world.old { plain = world.new.plain; picked = None }) }
    ensures open { OnOk result (IsOpen (P.asked port.new) (P.replies port.new)) }
    ensures quiet { OnOk result
        (IsQuietSince (P.askers port.old) (P.replies port.old) (P.replies port.new)) }
    ensures in_step { IfOk result (λ flow. IsInStepAfter (P.askers port.new)
        (P.asked port.new) (P.replies port.new) flow world.new.plain) }
    ensures fault { IsFault result → JobFaults world.old
        (P.asked port.old) (P.asked port.new) (P.replies port.old) (P.replies port.new) }
    ensures memory { IsNoMemory result → JobStops world.old
        (P.asked port.old) (P.asked port.new) (P.replies port.old) (P.replies port.new) }
    ensures threads { P.threads port.new ≡ P.threads port.old }
    ensures askers { P.askers port.new ≡ P.askers port.old }
    ensures turns { P.turns port.new ≤ P.turns port.old }
    ensures waits { P.waits port.new ≡ P.waits port.old }
{
    let Some(job) = world.picked.take() else {
        unreachable!()
    };
    match run_through(&world.program, &mut world.parts, port, job) {
        Ok(flow) => Ok(flow),
        Err(e) => {
            world.parts.reset(world.config.limit, world.config.askers);
            Err(e)
        }
    }
}

/// The outcome of an outstanding work arrives: a value fills the work's result, and an error is sent to the monitor of the context
/// that submitted it.
///
/// # Errors
///
/// `NoMemory`. The world is given up then.
pub fn arrive(world: &mut World, work: WorkNo, outcome: Outcome) -> Result<Flow, NoMemory>
    requires out { IsSome (find (is_work work) world.old.plain.works) }
    requires free { world.old.picked ≡ None }
    ensures arrived { IfOk result (λ flow. arrives work outcome world.old.plain
        ≡ Some (after_is flow world.new.plain)) }
    ensures told { IfOk result (λ flow. Ends flow world.new.plain.trace) }
    ensures world { OnOk result (world.new ≡ with_state world.new.plain world.old) }
{
    match world.parts.arrive(work, outcome) {
        Ok(flow) => Ok(flow),
        Err(e) => {
            world.parts.reset(world.config.limit, world.config.askers);
            Err(e)
        }
    }
}

/// A request of the next number comes to a world whose program has a procedure `ask`: its answer goes out from a fresh deferred,
/// to which the call of `ask` with the request's number returns.
///
/// # Errors
///
/// `NoMemory`. The world is given up then.
pub fn arrive_request(world: &mut World, no: RequestNo, num: Num) -> Result<(), NoMemory>
    requires served { IsSome world.old.program.ask }
    requires next { no ≡ length world.old.plain.requests }
    requires free { world.old.picked ≡ None }
    ensures arrived { OnOk result (requests_served world.old.program.ask ((no, num) ∷ [])
        world.old.plain ≡ Some world.new.plain) }
    ensures world { OnOk result (world.new ≡ with_state world.new.plain world.old) }
{
    let Some(ask) = world.program.ask() else {
        unreachable!()
    };
    match world.parts.arrive_request(ask, no, num) {
        Ok(()) => Ok(()),
        Err(e) => {
            world.parts.reset(world.config.limit, world.config.askers);
            Err(e)
        }
    }
}

/// Begins a cycle: the pending yields are filled, and then the alarms that are due. There is a job to pick then exactly
/// where something is left to do.
///
/// # Errors
///
/// `NoMemory`. The world is given up then.
pub fn begin_cycle(world: &mut World) -> Result<(), NoMemory>
    ensures world { OnOk result (world.new ≡ with_state (cycle_begun world.old.plain) world.old) }
    ensures picks { OnOk result (has_pick world.new.plain.queues ≡ has_more world.new.plain) }
{
    match world.parts.begin_cycle() {
        Ok(()) => Ok(()),
        Err(e) => {
            world.picked = None;
            world.parts.reset(world.config.limit, world.config.askers);
            Err(e)
        }
    }
}

/// Whether a job waits in a queue, a yield is pending or an alarm is due.
pub fn more(world: &World) -> bool
    ensures { result ≡ has_more world.now.plain }
{
    world.parts.has_more()
}

/// Whether a work is outstanding.
pub fn outstanding(world: &World) -> bool
    ensures { result ≡ not (is_empty_list world.now.plain.works) }
{
    world.parts.has_work()
}

/// Whether a work is outstanding, every such work is general, and at least as many helpers as there are threads are
/// granted and not ended.
pub fn stuck(world: &World) -> bool
    ensures { result ≡ is_stuck world.now.config.threads world.now.plain }
{
    world.parts.is_stuck(world.config.threads)
}

/// At most so many bodies of each throttle run at once, and those that have started are the first ones, in the order of their
/// numbers: a law of every world, and so of every run.
pub fn throttles_hold(world: &World)
    ensures { ThrottlesHold world.now.plain }
{
    // For the proof alone: what every world keeps.
    let _parts = &world.parts;
}

/// Keeps how many askers are left, as the last reply to a drain says.
pub fn set_left(world: &mut World, left: u32)
    ensures { world.new ≡ with_state (with_left left world.old.plain) world.old }
{
    world.parts.set_left(left);
}

/// Whether every asker that is left waits for an answer.
pub fn quiet(world: &World) -> bool
    ensures { result ≡ is_quiet world.now.plain }
{
    world.parts.is_quiet()
}

/// Writes why the run ends.
///
/// # Errors
///
/// `NoMemory`. The world is then as before.
pub fn finish(world: &mut World, why: Ending) -> Result<(), NoMemory>
    ensures ok { OnOk result (world.new
        ≡ with_state (noting (Entry.End why) world.old.plain) world.old) }
    ensures err { OnErr result (world.new ≡ world.old) }
{
    world.parts.note(Entry::End { why })?;
    Ok(())
}

/// The trace.
pub fn trace(world: World) -> Trace
    ensures { result ≡ world.plain.trace }
{
    let World { parts, .. } = world;
    parts.into_trace()
}
