//! What each statement does, by groups.

ghost use Rattle.std.specs.Prelude.{◌<◌, length, IfOk};
ghost use Rattle.ak_state.specs.Fits.{FitsSome};
ghost use Rattle.ak_state.specs.Reads.{named};
ghost use Rattle.ak_exec.specs.Ready.{IsReady};
ghost use Rattle.ak_exec.specs.Steps.{Does};

use crate::statements::alarms::{abort, after, event, tick, yield_cycle};
use crate::statements::deferred::{bind, fill, ivar, never, offer, upon};
use crate::statements::groups::{all, any, choose, try_body};
use crate::statements::jobs::{call, raise, ret};
use crate::statements::monitors::{detach, monitor, next_error, on_error, send, within};
use crate::statements::pipes::{close, close_read, flushed, pipe, put, rd, write};
use crate::statements::throttles::{enqueue, throttle, throttle_done};
use crate::statements::values::{print, set};
use crate::statements::works::{helper, helper_done, helper_work, work};
use ak_base::list::NoMemory;
use ak_base::number::{Ctx, Num};
use ak_frames::value::{Vals, Value};
use ak_labor::ask::Ask;
use ak_machine::flow::Flow;
use ak_program::statement::NumStmt;
use ak_state::parts::Parts;

/// Where a job goes after a statement.
#[derive(Clone, Copy, PartialEq, Eq, Debug)]
pub enum Step {
    Goes,
    Raises(Num),
    Returns(Value),
    Stops,
    /// An error that nobody caught ends the run.
    Ends(Flow),
    /// It asks the pool, and goes on with the reply.
    Asks(Ask),
}

/// One statement of a job.
pub fn run_statement(
    parts: &mut Parts,
    ctx: Ctx,
    stmt: &NumStmt,
    vals: &mut Vals,
) -> Result<Step, NoMemory>
    requires ready { IsReady parts.old.plain (named parts.old vals.old) stmt.now }
    requires monitor { ctx.mon < length parts.old.plain.monitors }
    requires fits { FitsSome parts.old.plain }
    ensures { IfOk result (λ step.
        Does ctx stmt.now parts.old vals.old step parts.new vals.new) }
{
    match stmt {
        NumStmt::Set { x, a, op, b } => set(parts, ctx, vals, *x, *a, *op, *b),
        NumStmt::Print { a } => print(parts, ctx, vals, *a),
        NumStmt::Ivar { i } => ivar(parts, ctx, vals, *i),
        NumStmt::Fill { i, a } => fill(parts, ctx, vals, *i, *a),
        NumStmt::Offer { i, a } => offer(parts, ctx, vals, *i, *a),
        NumStmt::Upon { d, proc, args } => upon(parts, ctx, vals, *d, *proc, args),
        NumStmt::Bind { r, d, proc, args } => { bind(parts, ctx, vals, *r, *d, *proc, args) }
        NumStmt::All {
            r,
            deferreds,
            proc,
            args,
        } => all(parts, ctx, vals, *r, deferreds, *proc, args),
        NumStmt::Any { r, deferreds } => any(parts, ctx, vals, *r, deferreds),
        NumStmt::Choose { r, choices, args } => choose(parts, ctx, vals, *r, choices, args),
        NumStmt::Sched { proc, args } => {
            call(parts, Ctx { low: false, ..ctx }, vals, *proc, args)
        }
        NumStmt::Low { proc, args } => { call(parts, Ctx { low: true, ..ctx }, vals, *proc, args) }
        NumStmt::Yield { r } => yield_cycle(parts, ctx, vals, *r),
        NumStmt::Never { r } => never(parts, ctx, vals, *r),
        NumStmt::After { r, n } => after(parts, ctx, vals, *r, *n),
        NumStmt::Event { e, r, n } => event(parts, ctx, vals, *e, *r, *n),
        NumStmt::Abort { e } => abort(parts, ctx, vals, *e),
        NumStmt::Tick { n } => tick(parts, ctx, vals, *n),
        NumStmt::Monitor { m } => monitor(parts, ctx, vals, *m),
        NumStmt::Within { m, proc, args } => within(parts, ctx, vals, *m, *proc, args),
        NumStmt::Detach { m } => detach(parts, ctx, vals, *m),
        NumStmt::OnError { m, proc, args } => on_error(parts, ctx, vals, *m, *proc, args),
        NumStmt::NextError { r, m } => next_error(parts, ctx, vals, *r, *m),
        NumStmt::Send { m, a } => send(parts, ctx, vals, *m, *a),
        NumStmt::Try {
            r,
            proc,
            args,
            catch,
            catch_args,
            mode,
        } => try_body(parts, ctx, vals, *r, *proc, args, *catch, catch_args, *mode),
        NumStmt::Throttle { t, k, stop } => throttle(parts, ctx, vals, *t, *k, *stop),
        NumStmt::Enqueue { r, t, proc, args } => { enqueue(parts, ctx, vals, *r, *t, *proc, args) }
        NumStmt::ThrottleDone { r, t } => throttle_done(parts, ctx, vals, *r, *t),
        NumStmt::Pipe { p, b } => pipe(parts, ctx, vals, *p, *b),
        NumStmt::Write { r, p, a } => write(parts, ctx, vals, *r, *p, *a),
        NumStmt::Put { p, a } => put(parts, ctx, vals, *p, *a),
        NumStmt::Read {
            r,
            p,
            proc,
            args,
            eof,
            eof_args,
        } => rd(parts, ctx, vals, *r, *p, *proc, args, *eof, eof_args),
        NumStmt::Close { p } => close(parts, ctx, vals, *p),
        NumStmt::CloseRead { p } => close_read(parts, ctx, vals, *p),
        NumStmt::Flushed { r, p } => flushed(parts, ctx, vals, *r, *p),
        NumStmt::Raise { a } => raise(parts, ctx, vals, *a),
        NumStmt::Work { r, kind, a } => work(parts, ctx, vals, *r, *kind, *a),
        NumStmt::Helper { h, x } => helper(parts, ctx, vals, *h, *x),
        NumStmt::HelperWork { r, h, kind, a } => {
            helper_work(parts, ctx, vals, *r, *h, *kind, *a)
        }
        NumStmt::HelperDone { h } => helper_done(parts, ctx, vals, *h),
        NumStmt::Stop => Ok(Step::Stops),
        NumStmt::Ret { a } => ret(parts, ctx, vals, *a),
    }
}
