//! The laws of the trace of a run. Each contract is a law; no function does anything.

ghost use Rattle.std.specs.Prelude.{ℕ, ◌≡◌, ◌<◌, List, [], length};
ghost use Rattle.std.specs.List.{AllByRecursion};
ghost use Rattle.ak_labor.specs.Calls.{Reply};
ghost use Rattle.ak_program.specs.Programs.{NumProgram, ProgramIsSound};
ghost use Rattle.ak_labor.specs.declared.config.Config.{Config};
ghost use Rattle.ak_machine.specs.Run.{HasEnded, run_of, machine_after};
ghost use Rattle.ak_laws.specs.Ends.{EndsOnce};
ghost use Rattle.ak_laws.specs.Order.{IsInOrder};
ghost use Rattle.ak_laws.specs.Jobs.{JobsInOrder, CyclesAreLimited};
ghost use Rattle.ak_laws.specs.Requests.{RequestsAreServed};
ghost use Rattle.ak_laws.specs.Works.{BringsValues, WorksArriveOnce};
ghost use Rattle.ak_laws.specs.Errors.{path_from, path_in, ErrorsGoUp};
ghost use Rattle.ak_laws.specs.Executed.{executed};
ghost use Rattle.ak_laws.specs.Reads.{ReadsGetWhatWasWritten};
ghost use Rattle.ak_laws.specs.Laws.{ObeysLaws};

use ak_holders::law::fills_once;
use ak_trace::entry::Entry;

/// The trace of every run that has ended has its end once, as the last entry. Own.
#[tactic(auto, using(crate::proofs::Ends::ends_once))]
pub fn ends_once()
    ensures { (program : NumProgram) (config : Config) (replies : List Reply)
        → (run_of program config replies).outcome ≡ HasEnded → EndsOnce (run_of program config replies).trace }
{}

/// The jobs of every run that has ended are numbered from 0 as they are enqueued, and run in order: the front one of its
/// priority, a low one only where no normal one may run, and at most so many of each priority in a cycle as the settings say.
/// From Async's scheduler in outline.
#[tactic(auto, using(crate::proofs::Order::runs_in_order))]
pub fn runs_in_order()
    ensures { (program : NumProgram) (config : Config) (replies : List Reply)
        → (run_of program config replies).outcome ≡ HasEnded
        → IsInOrder config.limit (run_of program config replies).trace }
{}

/// The jobs of a trace are in order exactly where both laws of jobs hold of it. Own.
pub fn in_order_is_both_laws()
    ensures laws { (limit : ℕ) (trace : List Entry) → IsInOrder limit trace → JobsInOrder trace × CyclesAreLimited limit trace }
    ensures order { (limit : ℕ) (trace : List Entry) → JobsInOrder trace → CyclesAreLimited limit trace → IsInOrder limit trace }
{}

/// The jobs of every run that has ended are numbered from 0 as they are enqueued, run once they are, and run in that order among
/// those of their priority. From Async's scheduler in outline.
pub fn jobs_in_order()
    ensures { (program : NumProgram) (config : Config) (replies : List Reply)
        → (run_of program config replies).outcome ≡ HasEnded → JobsInOrder (run_of program config replies).trace }
{}

/// In each cycle of every run that has ended at most so many jobs of each priority run as the settings say, and a low one only
/// where each normal one that was enqueued ran, or as many normal ones as may ran in this cycle. Own.
pub fn cycles_are_limited()
    ensures { (program : NumProgram) (config : Config) (replies : List Reply)
        → (run_of program config replies).outcome ≡ HasEnded
        → CyclesAreLimited config.limit (run_of program config replies).trace }
{}

/// In every run that has ended requests are numbered from 0 as they arrive, and each is answered at most once, with the number that
/// fills its deferred. Own.
pub fn requests_are_served()
    ensures { (program : NumProgram) (config : Config) (replies : List Reply)
        → (run_of program config replies).outcome ≡ HasEnded → RequestsAreServed (run_of program config replies).trace }
{}

/// In every run that has ended works are numbered from 0 as they are submitted, and each arrives at most once, after its submit and
/// with its value, where the replies bring values. Own.
pub fn works_arrive_once()
    ensures { (program : NumProgram) (config : Config) (replies : List Reply)
        → (run_of program config replies).outcome ≡ HasEnded
        → AllByRecursion (BringsValues (run_of program config replies).trace) replies
        → WorksArriveOnce (run_of program config replies).trace }
{}

/// The path of a monitor is the same with any number of steps beyond that of the entries: none ends for want of steps. Own.
pub fn path_has_its_steps()
    ensures { (before : List Entry) (m steps : ℕ) → length before < steps
        → path_from steps before [] m ≡ path_in before m }
{}

/// In every run that has ended, of a sound program, each error is caught at once, at the first monitor that is detached there: the
/// one in which it was raised, its parent, and so on to the root. Where none of them is detached, the error is unhandled and the
/// run ends by it. Nothing else is caught, unhandled or ends a run so, and only what was just caught is dropped. From Async's
/// documentation of monitors in outline; that the path begins with the monitor of the error, and what becomes of later errors, is
/// own.
pub fn errors_go_up()
    ensures { (program : NumProgram) → ProgramIsSound program.procs program.main program.ask
        → (config : Config) (replies : List Reply) → (run_of program config replies).outcome ≡ HasEnded
        → ErrorsGoUp (run_of program config replies).trace }
{}

/// In every run, at each reply and for each pipe, what its reads got is what was written to it, in order, each number once: the
/// numbers that they got are the first that were written, and while its reader is open the others are its items. Each read that gets
/// a number is called with it. From Async's documentation of `Pipe`.
pub fn reads_get_what_was_written()
    ensures { (program : NumProgram) (config : Config) (replies : List Reply) (p : ℕ)
        → ReadsGetWhatWasWritten p (executed program config replies) (machine_after program config replies).state }
{}

/// The trace of every run that has ended, of a sound program, obeys the laws that no reply can break: it ends once, its jobs are in
/// order and within the limits, each ivar is filled at most once, its requests are served, and its errors go up. Own.
pub fn obeys_laws()
    ensures { (program : NumProgram) → ProgramIsSound program.procs program.main program.ask
        → (config : Config) (replies : List Reply) → (run_of program config replies).outcome ≡ HasEnded
        → ObeysLaws config.limit (run_of program config replies).trace }
{
    fills_once();
}
