//! Jobs that ask the pool, over a port.

ghost use Rattle.std.specs.Prelude.{◌≡◌, ◌≤◌, ◌<◌, ◌+◌, [], length, Some, IfOk, OnOk};
ghost use Rattle.ak_labor.specs.Calls.{IsAsked, IsOpen, IsFault};
ghost use Rattle.ak_machine.specs.Job.{Over, run_job as job_run};
ghost use Rattle.ak_holders.specs.Held.{HeldBy, JobWaits};
ghost use Rattle.ak_ledger.specs.Answers.{AnswersAreOwed, hand_of};
ghost use Rattle.ak_ledger.specs.Outside.{IsInStep};
ghost use Rattle.ak_state.specs.Drawn.{drawn};
ghost use Rattle.ak_state.specs.Errors.{after_is, Ends};
ghost use Rattle.ak_state.specs.Fits.{Fits, JobFits};
ghost use Rattle.ak_state.specs.Reads.{job_named};
ghost use Rattle.ak_exec.specs.Asks.{PoolTakes, Answers, reply_is, resumed, bound_to, ResumesWay, ResumesReturn, IsRunning, lines_left, Leads, FaultsFrom, StopsFrom, IsInStepAfter, IsQuietSince, IsNoMemory};
ghost use Rattle.ak_exec.specs.Steps.{ProgressTells, rest_is, progress_is};
ghost use Rattle.ak_exec.specs.Typed.{ProgressFits};

use crate::job::{Progress, Rest, run_job, run_lines};
use ak_base::list::NoMemory;
use ak_base::number::{HelperNo, Num};
use ak_frames::frame::Task;
use ak_frames::value::{Vals, Value};
use ak_labor::ask::Ask;
use ak_labor::port::{Port, PortError};
use ak_machine::flow::Flow;
use ak_program::program::Program;
use ak_rings::job::Job;
use ak_state::parts::Parts;

/// What the pool answers to a call of a job: a helper is granted or refused, and nothing more is said to the other calls.
#[derive(Clone, Copy, PartialEq, Eq, Debug)]
pub enum Answer {
    Done,
    Helper { no: HelperNo, granted: bool },
}

/// A job, to its end, with its calls on the port. Where it returns to a deferred, that deferred is empty.
pub fn run_through<P: Port>(
    program: &Program,
    parts: &mut Parts,
    port: &mut P,
    job: Job<Task>,
) -> Result<Flow, PortError<P::Fault>>
    requires job { JobFits program.now.procs (drawn parts.old.plain) (job_named parts.old job) }
    requires waits { JobWaits program.now.procs (job_named parts.old job) parts.old.plain }
    requires fits { Fits program.now.procs parts.old.plain }
    requires owed { AnswersAreOwed (hand_of (Some (job_named parts.old job))) parts.old.plain }
    requires open { IsOpen (P.asked port.old) (P.replies port.old) }
    requires in_step { IsInStep (P.askers port.old) (P.asked port.old) (P.replies port.old)
        parts.old.plain }
    ensures fits { OnOk result (Fits program.now.procs parts.new.plain) }
    ensures told { IfOk result (λ flow. Ends flow parts.new.plain.trace) }
    ensures held { OnOk result (HeldBy program.now.procs [] parts.new.plain) }
    ensures owed { OnOk result (AnswersAreOwed [] parts.new.plain) }
    ensures open { OnOk result (IsOpen (P.asked port.new) (P.replies port.new)) }
    ensures quiet { OnOk result
        (IsQuietSince (P.askers port.old) (P.replies port.old) (P.replies port.new)) }
    ensures in_step { IfOk result (λ flow. IsInStepAfter (P.askers port.new)
        (P.asked port.new) (P.replies port.new) flow parts.new.plain) }
    ensures runs { IfOk result (λ flow. Leads program.now (P.asked port.old) (P.replies port.old)
        (job_run program.now.procs (job_named parts.old job) parts.old.plain)
        (P.asked port.new) (P.replies port.new) (Over (after_is flow parts.new.plain))) }
    ensures fault { IsFault result → FaultsFrom program.now (P.asked port.old) (P.replies port.old)
        (job_run program.now.procs (job_named parts.old job) parts.old.plain)
        (P.asked port.new) (P.replies port.new) }
    ensures memory { IsNoMemory result
        → StopsFrom program.now (P.asked port.old) (P.replies port.old)
        (job_run program.now.procs (job_named parts.old job) parts.old.plain)
        (P.asked port.new) (P.replies port.new) }
    ensures threads { P.threads port.new ≡ P.threads port.old }
    ensures askers { P.askers port.new ≡ P.askers port.old }
    ensures turns { P.turns port.new ≤ P.turns port.old }
    ensures waits { P.waits port.new ≡ P.waits port.old }
{
    // For the proof alone: its contract says that the program is sound.
    let _main = program.main();
    let mut progress = run_job(program, parts, job)?;
    loop {
        match progress {
            Progress::Over(flow) => return Ok(flow),
            Progress::Asking(ask, rest) => {
                progress = go_on(program, parts, port, ask, rest)?;
            }
        }
    }
}

/// What a job asked is asked, and it goes on with the answer.
fn go_on<'p, P: Port>(
    program: &Program,
    parts: &mut Parts,
    port: &mut P,
    ask: Ask,
    rest: Rest<'p>,
) -> Result<Progress<'p>, PortError<P::Fault>>
    requires running { IsRunning program.now.procs (P.askers port.old) parts.old
        (Progress.Asking ask rest) (P.asked port.old) (P.replies port.old) }
    ensures running { IfOk result (λ progress. IsRunning program.now.procs (P.askers port.new)
        parts.new progress (P.asked port.new) (P.replies port.new)) }
    ensures quiet { OnOk result
        (IsQuietSince (P.askers port.old) (P.replies port.old) (P.replies port.new)) }
    ensures leads { IfOk result (λ progress.
        Leads program.now (P.asked port.old) (P.replies port.old)
        (progress_is parts.old (Progress.Asking ask rest.entry))
        (P.asked port.new) (P.replies port.new) (progress_is parts.new progress)) }
    ensures fewer { IfOk result (λ progress.
        lines_left progress < 1 + length rest.entry.lines.now) }
    ensures fault { IsFault result → FaultsFrom program.now (P.asked port.old) (P.replies port.old)
        (progress_is parts.old (Progress.Asking ask rest.entry))
        (P.asked port.new) (P.replies port.new) }
    ensures memory { IsNoMemory result
        → StopsFrom program.now (P.asked port.old) (P.replies port.old)
        (progress_is parts.old (Progress.Asking ask rest.entry))
        (P.asked port.new) (P.replies port.new) }
    ensures threads { P.threads port.new ≡ P.threads port.old }
    ensures askers { P.askers port.new ≡ P.askers port.old }
    ensures turns { P.turns port.new ≤ P.turns port.old }
    ensures waits { P.waits port.new ≡ P.waits port.old }
{
    let answer = ask_pool(port, ask)?;
    let progress = resume(program, parts, answer, rest)?;
    Ok(progress)
}

/// Asks the pool, and gives its answer.
fn ask_pool<P: Port>(port: &mut P, ask: Ask) -> Result<Answer, PortError<P::Fault>>
    requires open { IsOpen (P.asked port.old) (P.replies port.old) }
    requires takes { PoolTakes (P.asked port.old) (P.replies port.old) ask }
    ensures asked { IsAsked ask reply_is
        (P.asked port.old) (P.asked port.new) (P.replies port.old) (P.replies port.new) result }
    ensures answers { IfOk result (Answers ask) }
    ensures threads { P.threads port.new ≡ P.threads port.old }
    ensures askers { P.askers port.new ≡ P.askers port.old }
    ensures turns { P.turns port.new ≤ P.turns port.old }
    ensures waits { P.waits port.new ≡ P.waits port.old }
{
    match ask {
        Ask::Submit { work, helper, .. } => {
            let _id = port.submit(work, helper)?;
            Ok(Answer::Done)
        }
        Ask::HelperNew { no } => {
            let granted = port.helper()?;
            Ok(Answer::Helper { no, granted })
        }
        Ask::HelperEnd { no } => {
            port.end_helper(no)?;
            Ok(Answer::Done)
        }
        Ask::Answer { no, num } => {
            port.answer(no, num)?;
            Ok(Answer::Done)
        }
        Ask::Drain => unreachable!(),
        Ask::Close => unreachable!(),
    }
}

/// A job goes on with the answer to what it asked.
fn resume<'p>(
    program: &Program,
    parts: &mut Parts,
    answer: Answer,
    rest: Rest<'p>,
) -> Result<Progress<'p>, NoMemory>
    requires way { ResumesWay program.now.procs answer (rest_is parts.old rest)
        parts.old.plain }
    requires returns { ResumesReturn answer (rest_is parts.old rest) parts.old.plain }
    ensures fits { IfOk result (ProgressFits program.now.procs parts.new) }
    ensures told { IfOk result (λ progress. ProgressTells progress parts.new.plain.trace) }
    ensures runs { IfOk result (λ progress.
        resumed answer (rest_is parts.old rest.entry) parts.old.plain
        ≡ progress_is parts.new progress) }
{
    let Rest {
        running,
        vals,
        lines,
    } = rest;
    match answer {
        Answer::Done => run_lines(program, parts, running, lines, vals),
        Answer::Helper { no, granted } => {
            parts.add_helper(no, granted)?;
            let bound = with_helper(vals, no, granted)?;
            run_lines(program, parts, running, lines, bound)
        }
    }
}

/// The values of a job with a helper that it asked for, beside whether it was granted.
fn with_helper(vals: Vals, no: HelperNo, granted: bool) -> Result<Vals, NoMemory>
    ensures { IfOk result (λ all. all ≡ bound_to no granted vals) }
{
    let mut all = vals;
    all.push(Value::Helper(no))?;
    all.push(Value::Num(granted as Num))?;
    Ok(all)
}
