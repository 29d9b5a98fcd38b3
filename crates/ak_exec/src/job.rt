//! How a job runs: its statements, to its end.

ghost use Rattle.std.specs.Prelude.{◌≡◌, ◌+◌, ◌<◌, length, drop, None, IfOk, IfNone, IfSome};
ghost use Rattle.ak_cells.specs.Names.{name_in};
ghost use Rattle.ak_machine.specs.Effect.{holds};
ghost use Rattle.ak_machine.specs.Job.{run_lines as lines_run, run_job as job_run, lines_of};
ghost use Rattle.ak_machine.specs.Statement.{line_effect};
ghost use Rattle.ak_holders.specs.Returns.{LinesReturn, JobReturns};
ghost use Rattle.ak_state.specs.Drawn.{drawn};
ghost use Rattle.ak_state.specs.Fits.{Fits, FitsSome, RetFits, CallFits, JobFits};
ghost use Rattle.ak_exec.specs.Typed.{IsUnderWay, HaltFits, ProgressFits};
ghost use Rattle.ak_state.specs.Reads.{named, ret_named, job_named};
ghost use Rattle.ak_exec.specs.Ready.{IsReady, IsTold};
ghost use Rattle.ak_exec.specs.Steps.{Takes, HaltTells, ProgressTells, progress_of, progress_is};

use crate::frames::run_task;
use crate::returns::returned;
use crate::statement::{Step, run_statement};
use ak_base::list::NoMemory;
use ak_base::number::Ctx;
use ak_frames::frame::{Ret, Task};
use ak_frames::value::{Vals, Value};
use ak_labor::ask::Ask;
use ak_machine::flow::Flow;
use ak_program::program::{NumPrefix, NumStatement, Program};
use ak_rings::job::Job;
use ak_state::parts::Parts;
use ak_trace::entry::{Ending, Entry};

/// Where a job runs, and what its return is for.
#[derive(Clone, Copy, PartialEq, Eq, Debug)]
pub struct Running {
    pub ctx: Ctx,
    pub ret: Ret,
}

/// What is left of a job that asked the pool: where it runs, its values, and its lines from here on.
#[derive(Debug, Drop)]
pub struct Rest<'p> {
    pub running: Running,
    pub vals: Vals,
    pub lines: &'p [NumStatement],
}

/// How far a job came: it is over, or it asked the pool first.
#[derive(Debug, Drop)]
pub enum Progress<'p> {
    Over(Flow),
    Asking(Ask, Rest<'p>),
}

/// Why a job does not go on with its next line: it is over, or it asked the pool first.
#[derive(Clone, Copy, PartialEq, Eq, Debug)]
pub enum Halt {
    Over(Flow),
    Asking(Ask),
}

/// Whether a line's statement is run.
fn is_run(parts: &Parts, prefix: Option<NumPrefix>, vals: &Vals) -> bool
    requires { IsTold (named parts.now vals.now) prefix }
    ensures { result ≡ holds prefix (named parts.now vals.now) }
{
    match prefix {
        None => true,
        Some(NumPrefix::If(atom)) => parts.number_at(vals, atom) != 0,
        Some(NumPrefix::Unless(atom)) => parts.number_at(vals, atom) == 0,
    }
}

/// One line of a job.
fn run_line(
    parts: &mut Parts,
    ctx: Ctx,
    line: &NumStatement,
    vals: &mut Vals,
) -> Result<Step, NoMemory>
    requires told { IsTold (named parts.old vals.old) line.now.prefix }
    requires ready { IsReady parts.old.plain (named parts.old vals.old) line.now.stmt }
    requires monitor { ctx.mon < length parts.old.plain.monitors }
    requires fits { FitsSome parts.old.plain }
    ensures { IfOk result (λ step.
        Takes (line_effect ctx line.now parts.old.plain (named parts.old vals.old))
        step parts.old parts.new vals.new) }
{
    if is_run(parts, line.prefix, vals) {
        run_statement(parts, ctx, &line.stmt, vals)
    } else {
        Ok(Step::Goes)
    }
}

/// One of the lines runs: `None` where the job goes on with the others.
fn advance(
    program: &Program,
    parts: &mut Parts,
    job: &Running,
    lines: &[NumStatement],
    k: usize,
    vals: &mut Vals,
) -> Result<Option<Halt>, NoMemory>
    requires way { IsUnderWay program.now.procs parts.old.plain (named parts.old vals.old)
        job.now.ctx (ret_named parts.old job.now.ret) (drop k lines.now) }
    requires some { k < length lines.now }
    requires returns { LinesReturn job.now.ctx (ret_named parts.old job.now.ret)
        (drop k lines.now) parts.old.plain (named parts.old vals.old) }
    ensures returns { IfOk result (λ next. IfNone next
        (LinesReturn job.now.ctx (ret_named parts.new job.now.ret)
        (drop (k + 1) lines.now) parts.new.plain (named parts.new vals.new))) }
    ensures way { IfOk result (λ next.
        IfNone next (IsUnderWay program.now.procs parts.new.plain (named parts.new vals.new)
        job.now.ctx (ret_named parts.new job.now.ret) (drop (k + 1) lines.now))) }
    ensures fits { IfOk result (λ next. IfSome next (HaltFits program.now.procs parts.new.plain
        (named parts.new vals.new) job.now.ctx (ret_named parts.new job.now.ret)
        (drop (k + 1) lines.now))) }
    ensures told { IfOk result (λ next.
        IfSome next (λ halt. HaltTells halt parts.new.plain.trace)) }
    ensures runs { IfOk result (λ next.
        lines_run job.now.ctx (ret_named parts.old job.now.ret) (drop k lines.now)
        parts.old.plain (named parts.old vals.old)
        ≡ progress_of next job.now.ctx (ret_named parts.new job.now.ret)
        (drop (k + 1) lines.now) parts.new.plain (named parts.new vals.new)) }
{
    let step = run_line(parts, job.ctx, &lines[k], vals)?;
    match step {
        Step::Goes => Ok(None),
        Step::Raises(num) => {
            let flow = parts.send(job.ctx.mon, num)?;
            Ok(Some(Halt::Over(flow)))
        }
        Step::Returns(value) => {
            returned(parts, job.ret, value)?;
            Ok(Some(Halt::Over(Flow::On)))
        }
        Step::Stops => {
            parts.note(Entry::End {
                why: Ending::Stopped,
            })?;
            Ok(Some(Halt::Over(Flow::Stopped)))
        }
        Step::Ends(flow) => Ok(Some(Halt::Over(flow))),
        Step::Asks(ask) => Ok(Some(Halt::Asking(ask))),
    }
}

/// The lines of a procedure, to its end or to where it asks the pool. Where it returns to a deferred, that deferred is empty.
pub fn run_lines<'p>(
    program: &Program,
    parts: &mut Parts,
    running: Running,
    lines: &'p [NumStatement],
    vals: Vals,
) -> Result<Progress<'p>, NoMemory>
    requires way { IsUnderWay program.now.procs parts.old.plain (named parts.old vals)
        running.ctx (ret_named parts.old running.ret) lines.now }
    requires returns { LinesReturn running.ctx (ret_named parts.old running.ret)
        lines.now parts.old.plain (named parts.old vals) }
    ensures fits { IfOk result (ProgressFits program.now.procs parts.new) }
    ensures told { IfOk result (λ progress. ProgressTells progress parts.new.plain.trace) }
    ensures runs { IfOk result (λ progress.
        lines_run running.ctx (ret_named parts.old running.ret) lines.now parts.old.plain
        (named parts.old vals) ≡ progress_is parts.new progress) }
{
    let mut vals = vals;
    for k in 0..lines.len() {
        match advance(program, parts, &running, lines, k, &mut vals) {
            Ok(None) => {}
            Ok(Some(Halt::Over(flow))) => return Ok(Progress::Over(flow)),
            Ok(Some(Halt::Asking(ask))) => {
                let lines = &lines[k + 1..];
                return Ok(Progress::Asking(
                    ask,
                    Rest {
                        running,
                        vals,
                        lines,
                    },
                ));
            }
            Err(e) => return Err(e),
        }
    }
    returned(parts, running.ret, Value::Num(0))?;
    Ok(Progress::Over(Flow::On))
}

/// The lines of a procedure.
fn lines_at(program: &Program, proc: usize) -> &[NumStatement]
    requires { proc < length program.now.procs }
    ensures { result.now ≡ lines_of program.now.procs proc }
{
    match program.proc(proc) {
        Some(proc) => proc.body.as_slice(),
        None => unreachable!(),
    }
}

/// A call of a procedure, to its end or to where it asks the pool.
pub fn run_call<'p>(
    program: &'p Program,
    parts: &mut Parts,
    running: Running,
    proc: usize,
    vals: Vals,
) -> Result<Progress<'p>, NoMemory>
    requires monitor { running.ctx.mon < length parts.old.plain.monitors }
    requires call { CallFits program.now.procs (drawn parts.old.plain) proc
        (named parts.old vals) }
    requires returns { LinesReturn running.ctx (ret_named parts.old running.ret)
        (lines_of program.now.procs proc) parts.old.plain (named parts.old vals) }
    requires ret { RetFits (drawn parts.old.plain)
        (ret_named parts.old running.ret) }
    requires fits { Fits program.now.procs parts.old.plain }
    ensures fits { IfOk result (ProgressFits program.now.procs parts.new) }
    ensures told { IfOk result (λ progress. ProgressTells progress parts.new.plain.trace) }
    ensures runs { IfOk result (λ progress.
        lines_run running.ctx (ret_named parts.old running.ret)
        (lines_of program.now.procs proc) parts.old.plain (named parts.old vals)
        ≡ progress_is parts.new progress) }
{
    // For the proof alone: its contract says that the program is sound.
    let _main = program.main();
    run_lines(program, parts, running, lines_at(program, proc), vals)
}

/// A job with its entry, to its end or to where it asks the pool.
pub fn run_job<'p>(
    program: &'p Program,
    parts: &mut Parts,
    job: Job<Task>,
) -> Result<Progress<'p>, NoMemory>
    requires job { JobFits program.now.procs (drawn parts.old.plain)
        (job_named parts.old job) }
    requires returns { JobReturns program.now.procs (job_named parts.old job)
        parts.old.plain }
    requires fits { Fits program.now.procs parts.old.plain }
    ensures fits { IfOk result (ProgressFits program.now.procs parts.new) }
    ensures told { IfOk result (λ progress. ProgressTells progress parts.new.plain.trace) }
    ensures runs { IfOk result (λ progress.
        job_run program.now.procs (job_named parts.old job) parts.old.plain
        ≡ progress_is parts.new progress) }
{
    let Job { no, ctx, frame } = job;
    parts.note(Entry::Job { job: no })?;
    run_task(program, parts, ctx, frame)
}
