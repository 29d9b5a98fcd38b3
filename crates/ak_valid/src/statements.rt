//! Statements by their places.

ghost use Rattle.std.specs.Prelude.{◌≡◌, map, IfOk};
ghost use Rattle.ak_program.specs.declared.statement.NumStmt.TheVariants as by_place;
ghost use Rattle.ak_valid.specs.Numbered.{at, work_kind, numbered_atom, numbered_choice, numbered_stmt, param_names, proc_names};

use crate::locals::Locals;
use crate::places::{
    args as numbered_args, atom, choices as numbered_choices, kind as work_of, places,
};
use crate::procs::Procs;
use ak_base::list::{NoMemory, Word};
use ak_program::statement::NumStmt;
use ak_script::statement::{Args, Atom, Choices, GuardMode, Names, Operator, Stmt, WorkWord};
use std::alloc::Global;

/// A statement by its places.
pub fn statement(
    alloc: Global,
    procs: &Procs,
    locals: &Locals,
    stmt: &Stmt,
) -> Result<NumStmt, NoMemory>
    ensures { IfOk result
        (λ numbered. numbered ≡ numbered_stmt (proc_names procs.now)
        (param_names locals.now) stmt.now) }
{
    match stmt {
        Stmt::Set { x, a, op, b } => Ok(set(locals, x, a, *op, b)),
        Stmt::Print { a } => Ok(print(locals, a)),
        Stmt::Ivar { i } => Ok(ivar(locals, i)),
        Stmt::Fill { i, a } => Ok(fill(locals, i, a)),
        Stmt::Offer { i, a } => Ok(offer(locals, i, a)),
        Stmt::Upon { d, proc, args } => upon(alloc, procs, locals, d, proc, args),
        Stmt::Bind { r, d, proc, args } => bind(alloc, procs, locals, r, d, proc, args),
        Stmt::All {
            r,
            deferreds,
            proc,
            args,
        } => all(alloc, procs, locals, r, deferreds, proc, args),
        Stmt::Any { r, deferreds } => any(alloc, locals, r, deferreds),
        Stmt::Choose { r, choices, args } => choose(alloc, procs, locals, r, choices, args),
        Stmt::Sched { proc, args } => sched(alloc, procs, locals, proc, args),
        Stmt::Low { proc, args } => low(alloc, procs, locals, proc, args),
        Stmt::Yield { r } => Ok(yielding(locals, r)),
        Stmt::Never { r } => Ok(never(locals, r)),
        Stmt::After { r, n } => Ok(after(locals, r, n)),
        Stmt::Event { e, r, n } => Ok(event(locals, e, r, n)),
        Stmt::Abort { e } => Ok(abort(locals, e)),
        Stmt::Tick { n } => Ok(tick(locals, n)),
        Stmt::Monitor { m } => Ok(monitor(locals, m)),
        Stmt::Within { m, proc, args } => within(alloc, procs, locals, m, proc, args),
        Stmt::Detach { m } => Ok(detach(locals, m)),
        Stmt::OnError { m, proc, args } => on_error(alloc, procs, locals, m, proc, args),
        Stmt::NextError { r, m } => Ok(next_error(locals, r, m)),
        Stmt::Raise { a } => Ok(raise(locals, a)),
        Stmt::Send { m, a } => Ok(send(locals, m, a)),
        Stmt::Try {
            r,
            proc,
            args,
            catch,
            catch_args,
            mode,
        } => trying(
            alloc, procs, locals, r, proc, args, catch, catch_args, *mode,
        ),
        Stmt::Throttle { t, k, stop } => Ok(throttle(locals, t, *k, *stop)),
        Stmt::Enqueue { r, t, proc, args } => enqueue(alloc, procs, locals, r, t, proc, args),
        Stmt::ThrottleDone { r, t } => Ok(throttle_done(locals, r, t)),
        Stmt::Pipe { p, b } => Ok(pipe(locals, p, *b)),
        Stmt::Write { r, p, a } => Ok(write(locals, r, p, a)),
        Stmt::Put { p, a } => Ok(put(locals, p, a)),
        Stmt::Read {
            r,
            p,
            proc,
            args,
            eof,
            eof_args,
        } => read(alloc, procs, locals, r, p, proc, args, eof, eof_args),
        Stmt::Close { p } => Ok(close(locals, p)),
        Stmt::CloseRead { p } => Ok(close_read(locals, p)),
        Stmt::Flushed { r, p } => Ok(flushed(locals, r, p)),
        Stmt::Work { r, kind, a } => Ok(work(locals, r, *kind, a)),
        Stmt::Helper { h, x } => Ok(helper(locals, h, x)),
        Stmt::HelperWork { r, h, kind, a } => Ok(helper_work(locals, r, h, *kind, a)),
        Stmt::HelperDone { h } => Ok(helper_done(locals, h)),
        Stmt::Stop => Ok(NumStmt::Stop),
        Stmt::Ret { a } => Ok(ret(locals, a)),
    }
}

fn set(locals: &Locals, x: &Word, a: &Atom, op: Operator, b: &Atom) -> NumStmt
    ensures { result ≡ by_place.Set (at (param_names locals.now) x.now)
        (numbered_atom (param_names locals.now) a.now) op
        (numbered_atom (param_names locals.now) b.now) }
{
    NumStmt::Set {
        x: locals.place(x.as_slice()),
        a: atom(locals, a),
        op,
        b: atom(locals, b),
    }
}

fn print(locals: &Locals, a: &Atom) -> NumStmt
    ensures { result ≡ by_place.Print (numbered_atom (param_names locals.now) a.now) }
{
    NumStmt::Print { a: atom(locals, a) }
}

fn ivar(locals: &Locals, i: &Word) -> NumStmt
    ensures { result ≡ by_place.Ivar (at (param_names locals.now) i.now) }
{
    NumStmt::Ivar {
        i: locals.place(i.as_slice()),
    }
}

fn fill(locals: &Locals, i: &Word, a: &Atom) -> NumStmt
    ensures { result ≡ by_place.Fill (at (param_names locals.now) i.now)
        (numbered_atom (param_names locals.now) a.now) }
{
    NumStmt::Fill {
        i: locals.place(i.as_slice()),
        a: atom(locals, a),
    }
}

fn offer(locals: &Locals, i: &Word, a: &Atom) -> NumStmt
    ensures { result ≡ by_place.Offer (at (param_names locals.now) i.now)
        (numbered_atom (param_names locals.now) a.now) }
{
    NumStmt::Offer {
        i: locals.place(i.as_slice()),
        a: atom(locals, a),
    }
}

fn upon(
    alloc: Global,
    procs: &Procs,
    locals: &Locals,
    d: &Word,
    proc: &Word,
    args: &Args,
) -> Result<NumStmt, NoMemory>
    ensures { IfOk result
        (λ stmt. stmt ≡ by_place.Upon (at (param_names locals.now) d.now)
        (at (proc_names procs.now) proc.now)
        (map (numbered_atom (param_names locals.now)) args.now)) }
{
    Ok(NumStmt::Upon {
        d: locals.place(d.as_slice()),
        proc: procs.place(proc.as_slice()),
        args: numbered_args(alloc, locals, args.as_slice())?,
    })
}

fn bind(
    alloc: Global,
    procs: &Procs,
    locals: &Locals,
    r: &Word,
    d: &Word,
    proc: &Word,
    args: &Args,
) -> Result<NumStmt, NoMemory>
    ensures { IfOk result
        (λ stmt. stmt ≡ by_place.Bind (at (param_names locals.now) r.now)
        (at (param_names locals.now) d.now) (at (proc_names procs.now) proc.now)
        (map (numbered_atom (param_names locals.now)) args.now)) }
{
    Ok(NumStmt::Bind {
        r: locals.place(r.as_slice()),
        d: locals.place(d.as_slice()),
        proc: procs.place(proc.as_slice()),
        args: numbered_args(alloc, locals, args.as_slice())?,
    })
}

fn all(
    alloc: Global,
    procs: &Procs,
    locals: &Locals,
    r: &Word,
    deferreds: &Names,
    proc: &Word,
    args: &Args,
) -> Result<NumStmt, NoMemory>
    ensures { IfOk result
        (λ stmt. stmt ≡ by_place.All (at (param_names locals.now) r.now)
        (map (at (param_names locals.now)) deferreds.now) (at (proc_names procs.now) proc.now)
        (map (numbered_atom (param_names locals.now)) args.now)) }
{
    Ok(NumStmt::All {
        r: locals.place(r.as_slice()),
        deferreds: places(alloc, locals, deferreds.as_slice())?,
        proc: procs.place(proc.as_slice()),
        args: numbered_args(alloc, locals, args.as_slice())?,
    })
}

fn any(alloc: Global, locals: &Locals, r: &Word, deferreds: &Names) -> Result<NumStmt, NoMemory>
    ensures { IfOk result
        (λ stmt. stmt ≡ by_place.Any (at (param_names locals.now) r.now)
        (map (at (param_names locals.now)) deferreds.now)) }
{
    Ok(NumStmt::Any {
        r: locals.place(r.as_slice()),
        deferreds: places(alloc, locals, deferreds.as_slice())?,
    })
}

fn choose(
    alloc: Global,
    procs: &Procs,
    locals: &Locals,
    r: &Word,
    choices: &Choices,
    args: &Args,
) -> Result<NumStmt, NoMemory>
    ensures { IfOk result
        (λ stmt. stmt ≡ by_place.Choose (at (param_names locals.now) r.now)
        (map (numbered_choice (proc_names procs.now) (param_names locals.now)) choices.now)
        (map (numbered_atom (param_names locals.now)) args.now)) }
{
    Ok(NumStmt::Choose {
        r: locals.place(r.as_slice()),
        choices: numbered_choices(alloc, procs, locals, choices.as_slice())?,
        args: numbered_args(alloc, locals, args.as_slice())?,
    })
}

fn sched(
    alloc: Global,
    procs: &Procs,
    locals: &Locals,
    proc: &Word,
    args: &Args,
) -> Result<NumStmt, NoMemory>
    ensures { IfOk result
        (λ stmt. stmt ≡ by_place.Sched (at (proc_names procs.now) proc.now)
        (map (numbered_atom (param_names locals.now)) args.now)) }
{
    Ok(NumStmt::Sched {
        proc: procs.place(proc.as_slice()),
        args: numbered_args(alloc, locals, args.as_slice())?,
    })
}

fn low(
    alloc: Global,
    procs: &Procs,
    locals: &Locals,
    proc: &Word,
    args: &Args,
) -> Result<NumStmt, NoMemory>
    ensures { IfOk result
        (λ stmt. stmt ≡ by_place.Low (at (proc_names procs.now) proc.now)
        (map (numbered_atom (param_names locals.now)) args.now)) }
{
    Ok(NumStmt::Low {
        proc: procs.place(proc.as_slice()),
        args: numbered_args(alloc, locals, args.as_slice())?,
    })
}

fn yielding(locals: &Locals, r: &Word) -> NumStmt
    ensures { result ≡ by_place.Yield (at (param_names locals.now) r.now) }
{
    NumStmt::Yield {
        r: locals.place(r.as_slice()),
    }
}

fn never(locals: &Locals, r: &Word) -> NumStmt
    ensures { result ≡ by_place.Never (at (param_names locals.now) r.now) }
{
    NumStmt::Never {
        r: locals.place(r.as_slice()),
    }
}

fn after(locals: &Locals, r: &Word, n: &Atom) -> NumStmt
    ensures { result ≡ by_place.After (at (param_names locals.now) r.now)
        (numbered_atom (param_names locals.now) n.now) }
{
    NumStmt::After {
        r: locals.place(r.as_slice()),
        n: atom(locals, n),
    }
}

fn event(locals: &Locals, e: &Word, r: &Word, n: &Atom) -> NumStmt
    ensures { result ≡ by_place.Event (at (param_names locals.now) e.now)
        (at (param_names locals.now) r.now) (numbered_atom (param_names locals.now) n.now) }
{
    NumStmt::Event {
        e: locals.place(e.as_slice()),
        r: locals.place(r.as_slice()),
        n: atom(locals, n),
    }
}

fn abort(locals: &Locals, e: &Word) -> NumStmt
    ensures { result ≡ by_place.Abort (at (param_names locals.now) e.now) }
{
    NumStmt::Abort {
        e: locals.place(e.as_slice()),
    }
}

fn tick(locals: &Locals, n: &Atom) -> NumStmt
    ensures { result ≡ by_place.Tick (numbered_atom (param_names locals.now) n.now) }
{
    NumStmt::Tick { n: atom(locals, n) }
}

fn monitor(locals: &Locals, m: &Word) -> NumStmt
    ensures { result ≡ by_place.Monitor (at (param_names locals.now) m.now) }
{
    NumStmt::Monitor {
        m: locals.place(m.as_slice()),
    }
}

fn within(
    alloc: Global,
    procs: &Procs,
    locals: &Locals,
    m: &Word,
    proc: &Word,
    args: &Args,
) -> Result<NumStmt, NoMemory>
    ensures { IfOk result
        (λ stmt. stmt ≡ by_place.Within (at (param_names locals.now) m.now)
        (at (proc_names procs.now) proc.now)
        (map (numbered_atom (param_names locals.now)) args.now)) }
{
    Ok(NumStmt::Within {
        m: locals.place(m.as_slice()),
        proc: procs.place(proc.as_slice()),
        args: numbered_args(alloc, locals, args.as_slice())?,
    })
}

fn detach(locals: &Locals, m: &Word) -> NumStmt
    ensures { result ≡ by_place.Detach (at (param_names locals.now) m.now) }
{
    NumStmt::Detach {
        m: locals.place(m.as_slice()),
    }
}

fn on_error(
    alloc: Global,
    procs: &Procs,
    locals: &Locals,
    m: &Word,
    proc: &Word,
    args: &Args,
) -> Result<NumStmt, NoMemory>
    ensures { IfOk result
        (λ stmt. stmt ≡ by_place.OnError (at (param_names locals.now) m.now)
        (at (proc_names procs.now) proc.now)
        (map (numbered_atom (param_names locals.now)) args.now)) }
{
    Ok(NumStmt::OnError {
        m: locals.place(m.as_slice()),
        proc: procs.place(proc.as_slice()),
        args: numbered_args(alloc, locals, args.as_slice())?,
    })
}

fn next_error(locals: &Locals, r: &Word, m: &Word) -> NumStmt
    ensures { result ≡ by_place.NextError (at (param_names locals.now) r.now)
        (at (param_names locals.now) m.now) }
{
    NumStmt::NextError {
        r: locals.place(r.as_slice()),
        m: locals.place(m.as_slice()),
    }
}

fn raise(locals: &Locals, a: &Atom) -> NumStmt
    ensures { result ≡ by_place.Raise (numbered_atom (param_names locals.now) a.now) }
{
    NumStmt::Raise { a: atom(locals, a) }
}

fn send(locals: &Locals, m: &Word, a: &Atom) -> NumStmt
    ensures { result ≡ by_place.Send (at (param_names locals.now) m.now)
        (numbered_atom (param_names locals.now) a.now) }
{
    NumStmt::Send {
        m: locals.place(m.as_slice()),
        a: atom(locals, a),
    }
}

fn trying(
    alloc: Global,
    procs: &Procs,
    locals: &Locals,
    r: &Word,
    proc: &Word,
    args: &Args,
    catch: &Word,
    catch_args: &Args,
    mode: GuardMode,
) -> Result<NumStmt, NoMemory>
    ensures { IfOk result
        (λ stmt. stmt ≡ by_place.Try (at (param_names locals.now) r.now)
        (at (proc_names procs.now) proc.now)
        (map (numbered_atom (param_names locals.now)) args.now)
        (at (proc_names procs.now) catch.now)
        (map (numbered_atom (param_names locals.now)) catch_args.now) mode) }
{
    Ok(NumStmt::Try {
        r: locals.place(r.as_slice()),
        proc: procs.place(proc.as_slice()),
        args: numbered_args(alloc, locals, args.as_slice())?,
        catch: procs.place(catch.as_slice()),
        catch_args: numbered_args(alloc, locals, catch_args.as_slice())?,
        mode,
    })
}

fn throttle(locals: &Locals, t: &Word, k: u32, stop: bool) -> NumStmt
    ensures { result ≡ by_place.Throttle (at (param_names locals.now) t.now) k stop }
{
    NumStmt::Throttle {
        t: locals.place(t.as_slice()),
        k,
        stop,
    }
}

fn enqueue(
    alloc: Global,
    procs: &Procs,
    locals: &Locals,
    r: &Word,
    t: &Word,
    proc: &Word,
    args: &Args,
) -> Result<NumStmt, NoMemory>
    ensures { IfOk result
        (λ stmt. stmt ≡ by_place.Enqueue (at (param_names locals.now) r.now)
        (at (param_names locals.now) t.now) (at (proc_names procs.now) proc.now)
        (map (numbered_atom (param_names locals.now)) args.now)) }
{
    Ok(NumStmt::Enqueue {
        r: locals.place(r.as_slice()),
        t: locals.place(t.as_slice()),
        proc: procs.place(proc.as_slice()),
        args: numbered_args(alloc, locals, args.as_slice())?,
    })
}

fn throttle_done(locals: &Locals, r: &Word, t: &Word) -> NumStmt
    ensures { result ≡ by_place.ThrottleDone (at (param_names locals.now) r.now)
        (at (param_names locals.now) t.now) }
{
    NumStmt::ThrottleDone {
        r: locals.place(r.as_slice()),
        t: locals.place(t.as_slice()),
    }
}

fn pipe(locals: &Locals, p: &Word, b: u32) -> NumStmt
    ensures { result ≡ by_place.Pipe (at (param_names locals.now) p.now) b }
{
    NumStmt::Pipe {
        p: locals.place(p.as_slice()),
        b,
    }
}

fn write(locals: &Locals, r: &Word, p: &Word, a: &Atom) -> NumStmt
    ensures { result ≡ by_place.Write (at (param_names locals.now) r.now)
        (at (param_names locals.now) p.now) (numbered_atom (param_names locals.now) a.now) }
{
    NumStmt::Write {
        r: locals.place(r.as_slice()),
        p: locals.place(p.as_slice()),
        a: atom(locals, a),
    }
}

fn put(locals: &Locals, p: &Word, a: &Atom) -> NumStmt
    ensures { result ≡ by_place.Put (at (param_names locals.now) p.now)
        (numbered_atom (param_names locals.now) a.now) }
{
    NumStmt::Put {
        p: locals.place(p.as_slice()),
        a: atom(locals, a),
    }
}

fn read(
    alloc: Global,
    procs: &Procs,
    locals: &Locals,
    r: &Word,
    p: &Word,
    proc: &Word,
    args: &Args,
    eof: &Word,
    eof_args: &Args,
) -> Result<NumStmt, NoMemory>
    ensures { IfOk result
        (λ stmt. stmt ≡ by_place.Read (at (param_names locals.now) r.now)
        (at (param_names locals.now) p.now) (at (proc_names procs.now) proc.now)
        (map (numbered_atom (param_names locals.now)) args.now)
        (at (proc_names procs.now) eof.now)
        (map (numbered_atom (param_names locals.now)) eof_args.now)) }
{
    Ok(NumStmt::Read {
        r: locals.place(r.as_slice()),
        p: locals.place(p.as_slice()),
        proc: procs.place(proc.as_slice()),
        args: numbered_args(alloc, locals, args.as_slice())?,
        eof: procs.place(eof.as_slice()),
        eof_args: numbered_args(alloc, locals, eof_args.as_slice())?,
    })
}

fn close(locals: &Locals, p: &Word) -> NumStmt
    ensures { result ≡ by_place.Close (at (param_names locals.now) p.now) }
{
    NumStmt::Close {
        p: locals.place(p.as_slice()),
    }
}

fn close_read(locals: &Locals, p: &Word) -> NumStmt
    ensures { result ≡ by_place.CloseRead (at (param_names locals.now) p.now) }
{
    NumStmt::CloseRead {
        p: locals.place(p.as_slice()),
    }
}

fn flushed(locals: &Locals, r: &Word, p: &Word) -> NumStmt
    ensures { result ≡ by_place.Flushed (at (param_names locals.now) r.now)
        (at (param_names locals.now) p.now) }
{
    NumStmt::Flushed {
        r: locals.place(r.as_slice()),
        p: locals.place(p.as_slice()),
    }
}

fn work(locals: &Locals, r: &Word, kind: WorkWord, a: &Atom) -> NumStmt
    ensures { result ≡ by_place.Work (at (param_names locals.now) r.now) (work_kind kind)
        (numbered_atom (param_names locals.now) a.now) }
{
    NumStmt::Work {
        r: locals.place(r.as_slice()),
        kind: work_of(kind),
        a: atom(locals, a),
    }
}

fn helper(locals: &Locals, h: &Word, x: &Word) -> NumStmt
    ensures { result ≡ by_place.Helper (at (param_names locals.now) h.now)
        (at (param_names locals.now) x.now) }
{
    NumStmt::Helper {
        h: locals.place(h.as_slice()),
        x: locals.place(x.as_slice()),
    }
}

fn helper_work(locals: &Locals, r: &Word, h: &Word, kind: WorkWord, a: &Atom) -> NumStmt
    ensures { result ≡ by_place.HelperWork (at (param_names locals.now) r.now)
        (at (param_names locals.now) h.now) (work_kind kind)
        (numbered_atom (param_names locals.now) a.now) }
{
    NumStmt::HelperWork {
        r: locals.place(r.as_slice()),
        h: locals.place(h.as_slice()),
        kind: work_of(kind),
        a: atom(locals, a),
    }
}

fn helper_done(locals: &Locals, h: &Word) -> NumStmt
    ensures { result ≡ by_place.HelperDone (at (param_names locals.now) h.now) }
{
    NumStmt::HelperDone {
        h: locals.place(h.as_slice()),
    }
}

fn ret(locals: &Locals, a: &Atom) -> NumStmt
    ensures { result ≡ by_place.Ret (numbered_atom (param_names locals.now) a.now) }
{
    NumStmt::Ret { a: atom(locals, a) }
}
