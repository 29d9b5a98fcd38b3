//! Statements: a function for each group of rows of their table, by the first word.

ghost use Rattle.std.specs.Prelude.{◌≡◌};
ghost use Rattle.ak_syntax.specs.Words.{Leaves};
ghost use Rattle.ak_syntax.specs.Rows.{statement_at, value_row, deferred_row, group_row, job_row, monitor_row, throttle_row, pipe_row, closing_row, pool_row};

use crate::cursor::{Cursor, Until};
use crate::keyword::{
    ClosingWord, DeferredWord, GroupWord, JobWord, MonitorWord, PipeWord, PoolWord, ThrottleWord,
    ValueWord,
};
use crate::refusal::{Fault, GrammarKind};
use ak_script::statement::Stmt;
use std::alloc::Global;

/// The statement that begins with the keyword, by the words behind it.
#[tactic(auto, unfolding(crate::specs::Rows::statement_at))]
pub fn statement(alloc: Global, keyword: &[u8], words: &mut Cursor) -> Result<Stmt, Fault>
    ensures { Leaves (λ x. x) result words.new (statement_at keyword.now words.old) }
{
    if let Some(first) = ValueWord::named(keyword) {
        return value(alloc, first, words);
    }
    if let Some(first) = DeferredWord::named(keyword) {
        return deferred(alloc, first, words);
    }
    if let Some(first) = GroupWord::named(keyword) {
        return group(alloc, first, words);
    }
    if let Some(first) = JobWord::named(keyword) {
        return job(alloc, first, words);
    }
    if let Some(first) = MonitorWord::named(keyword) {
        return monitor(alloc, first, words);
    }
    if let Some(first) = ThrottleWord::named(keyword) {
        return throttle(alloc, first, words);
    }
    if let Some(first) = PipeWord::named(keyword) {
        return pipe(alloc, first, words);
    }
    if let Some(first) = ClosingWord::named(keyword) {
        return closing(alloc, first, words);
    }
    if let Some(first) = PoolWord::named(keyword) {
        return pool(alloc, first, words);
    }
    Err(Fault::Grammar(GrammarKind::BadLine))
}

/// Statements on numbers, printing, and the end of a procedure.
#[tactic(auto, unfolding(crate::specs::Rows::value_row))]
fn value(alloc: Global, first: ValueWord, words: &mut Cursor) -> Result<Stmt, Fault>
    ensures { Leaves (λ x. x) result words.new (value_row first words.old) }
{
    match first {
        ValueWord::Set => {
            let x = words.name(alloc)?;
            let a = words.atom(alloc)?;
            let op = words.operator()?;
            let b = words.atom(alloc)?;
            words.end()?;
            Ok(Stmt::Set { x, a, op, b })
        }
        ValueWord::Print => {
            let a = words.one_atom(alloc)?;
            Ok(Stmt::Print { a })
        }
        ValueWord::Raise => {
            let a = words.one_atom(alloc)?;
            Ok(Stmt::Raise { a })
        }
        ValueWord::Ret => {
            let a = words.one_atom(alloc)?;
            Ok(Stmt::Ret { a })
        }
        ValueWord::Stop => {
            words.end()?;
            Ok(Stmt::Stop)
        }
    }
}

/// Statements on deferreds.
#[tactic(auto, unfolding(crate::specs::Rows::deferred_row))]
fn deferred(alloc: Global, first: DeferredWord, words: &mut Cursor) -> Result<Stmt, Fault>
    ensures { Leaves (λ x. x) result words.new (deferred_row first words.old) }
{
    match first {
        DeferredWord::Ivar => {
            let i = words.one_name(alloc)?;
            Ok(Stmt::Ivar { i })
        }
        DeferredWord::Fill => {
            let (i, a) = words.name_atom(alloc)?;
            Ok(Stmt::Fill { i, a })
        }
        DeferredWord::Offer => {
            let (i, a) = words.name_atom(alloc)?;
            Ok(Stmt::Offer { i, a })
        }
        DeferredWord::Upon => {
            let d = words.name(alloc)?;
            let (proc, args) = words.call(alloc)?;
            Ok(Stmt::Upon { d, proc, args })
        }
        DeferredWord::Bind => {
            let r = words.name(alloc)?;
            let d = words.name(alloc)?;
            let (proc, args) = words.call(alloc)?;
            Ok(Stmt::Bind { r, d, proc, args })
        }
        DeferredWord::Yield => {
            let r = words.one_name(alloc)?;
            Ok(Stmt::Yield { r })
        }
        DeferredWord::Never => {
            let r = words.one_name(alloc)?;
            Ok(Stmt::Never { r })
        }
    }
}

/// Statements on groups of deferreds.
#[tactic(auto, unfolding(crate::specs::Rows::group_row))]
fn group(alloc: Global, first: GroupWord, words: &mut Cursor) -> Result<Stmt, Fault>
    ensures { Leaves (λ x. x) result words.new (group_row first words.old) }
{
    match first {
        GroupWord::All => {
            let r = words.name(alloc)?;
            let deferreds = words.some_names(alloc, Until::Then)?;
            let (proc, args) = words.call(alloc)?;
            Ok(Stmt::All {
                r,
                deferreds,
                proc,
                args,
            })
        }
        GroupWord::Any => {
            let r = words.name(alloc)?;
            let deferreds = words.some_names(alloc, Until::LineEnd)?;
            Ok(Stmt::Any { r, deferreds })
        }
        GroupWord::Choose => {
            let r = words.name(alloc)?;
            let choices = words.some_choices(alloc)?;
            let args = words.args(alloc, Until::LineEnd)?;
            Ok(Stmt::Choose { r, choices, args })
        }
        GroupWord::Try => {
            let r = words.name(alloc)?;
            let (proc, args, catch, catch_args, mode) = words.guarded_calls(alloc)?;
            Ok(Stmt::Try {
                r,
                proc,
                args,
                catch,
                catch_args,
                mode,
            })
        }
    }
}

/// Statements on jobs and the clock.
#[tactic(auto, unfolding(crate::specs::Rows::job_row))]
fn job(alloc: Global, first: JobWord, words: &mut Cursor) -> Result<Stmt, Fault>
    ensures { Leaves (λ x. x) result words.new (job_row first words.old) }
{
    match first {
        JobWord::Sched => {
            let (proc, args) = words.call(alloc)?;
            Ok(Stmt::Sched { proc, args })
        }
        JobWord::Low => {
            let (proc, args) = words.call(alloc)?;
            Ok(Stmt::Low { proc, args })
        }
        JobWord::After => {
            let (r, n) = words.name_atom(alloc)?;
            Ok(Stmt::After { r, n })
        }
        JobWord::Event => {
            let e = words.name(alloc)?;
            let (r, n) = words.name_atom(alloc)?;
            Ok(Stmt::Event { e, r, n })
        }
        JobWord::Abort => {
            let e = words.one_name(alloc)?;
            Ok(Stmt::Abort { e })
        }
        JobWord::Tick => {
            let n = words.one_atom(alloc)?;
            Ok(Stmt::Tick { n })
        }
    }
}

/// Statements on monitors.
#[tactic(auto, unfolding(crate::specs::Rows::monitor_row))]
fn monitor(alloc: Global, first: MonitorWord, words: &mut Cursor) -> Result<Stmt, Fault>
    ensures { Leaves (λ x. x) result words.new (monitor_row first words.old) }
{
    match first {
        MonitorWord::Monitor => {
            let m = words.one_name(alloc)?;
            Ok(Stmt::Monitor { m })
        }
        MonitorWord::Within => {
            let m = words.name(alloc)?;
            let (proc, args) = words.call(alloc)?;
            Ok(Stmt::Within { m, proc, args })
        }
        MonitorWord::Detach => {
            let m = words.one_name(alloc)?;
            Ok(Stmt::Detach { m })
        }
        MonitorWord::OnError => {
            let m = words.name(alloc)?;
            let (proc, args) = words.call(alloc)?;
            Ok(Stmt::OnError { m, proc, args })
        }
        MonitorWord::NextError => {
            let (r, m) = words.two_names(alloc)?;
            Ok(Stmt::NextError { r, m })
        }
        MonitorWord::Send => {
            let (m, a) = words.name_atom(alloc)?;
            Ok(Stmt::Send { m, a })
        }
    }
}

/// Statements on throttles.
#[tactic(auto, unfolding(crate::specs::Rows::throttle_row))]
fn throttle(alloc: Global, first: ThrottleWord, words: &mut Cursor) -> Result<Stmt, Fault>
    ensures { Leaves (λ x. x) result words.new (throttle_row first words.old) }
{
    match first {
        ThrottleWord::Throttle => {
            let t = words.name(alloc)?;
            let k = words.count(1)?;
            let stop = words.mode()?;
            words.end()?;
            Ok(Stmt::Throttle { t, k, stop })
        }
        ThrottleWord::Enqueue => {
            let r = words.name(alloc)?;
            let t = words.name(alloc)?;
            let (proc, args) = words.call(alloc)?;
            Ok(Stmt::Enqueue { r, t, proc, args })
        }
        ThrottleWord::ThrottleDone => {
            let (r, t) = words.two_names(alloc)?;
            Ok(Stmt::ThrottleDone { r, t })
        }
    }
}

/// Statements on pipes.
#[tactic(auto, unfolding(crate::specs::Rows::pipe_row))]
fn pipe(alloc: Global, first: PipeWord, words: &mut Cursor) -> Result<Stmt, Fault>
    ensures { Leaves (λ x. x) result words.new (pipe_row first words.old) }
{
    match first {
        PipeWord::Pipe => {
            let p = words.name(alloc)?;
            let b = words.count(0)?;
            words.end()?;
            Ok(Stmt::Pipe { p, b })
        }
        PipeWord::Write => {
            let r = words.name(alloc)?;
            let (p, a) = words.name_atom(alloc)?;
            Ok(Stmt::Write { r, p, a })
        }
        PipeWord::Put => {
            let (p, a) = words.name_atom(alloc)?;
            Ok(Stmt::Put { p, a })
        }
        PipeWord::Read => {
            let r = words.name(alloc)?;
            let p = words.name(alloc)?;
            let (proc, args, eof, eof_args) = words.two_calls(alloc)?;
            Ok(Stmt::Read {
                r,
                p,
                proc,
                args,
                eof,
                eof_args,
            })
        }
    }
}

/// Statements on the ends of pipes.
#[tactic(auto, unfolding(crate::specs::Rows::closing_row))]
fn closing(alloc: Global, first: ClosingWord, words: &mut Cursor) -> Result<Stmt, Fault>
    ensures { Leaves (λ x. x) result words.new (closing_row first words.old) }
{
    match first {
        ClosingWord::Close => {
            let p = words.one_name(alloc)?;
            Ok(Stmt::Close { p })
        }
        ClosingWord::CloseRead => {
            let p = words.one_name(alloc)?;
            Ok(Stmt::CloseRead { p })
        }
        ClosingWord::Flushed => {
            let (r, p) = words.two_names(alloc)?;
            Ok(Stmt::Flushed { r, p })
        }
    }
}

/// Statements on works.
#[tactic(auto, unfolding(crate::specs::Rows::pool_row))]
fn pool(alloc: Global, first: PoolWord, words: &mut Cursor) -> Result<Stmt, Fault>
    ensures { Leaves (λ x. x) result words.new (pool_row first words.old) }
{
    match first {
        PoolWord::Work => {
            let r = words.name(alloc)?;
            let (kind, a) = words.work_atom(alloc)?;
            Ok(Stmt::Work { r, kind, a })
        }
        PoolWord::Helper => {
            let (h, x) = words.two_names(alloc)?;
            Ok(Stmt::Helper { h, x })
        }
        PoolWord::HelperWork => {
            let r = words.name(alloc)?;
            let h = words.name(alloc)?;
            let (kind, a) = words.work_atom(alloc)?;
            Ok(Stmt::HelperWork { r, h, kind, a })
        }
        PoolWord::HelperDone => {
            let h = words.one_name(alloc)?;
            Ok(Stmt::HelperDone { h })
        }
    }
}
