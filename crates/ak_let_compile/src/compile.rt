//! Sources to procedures.

ghost use Rattle.std.specs.Prelude.{◌≡◌, ◌+◌, ◌++◌, ◌<◌, ◌≤◌, ◌^◌, length, OnOk, IfOk};
ghost use Rattle.std.specs.List.{AllByRecursion};
ghost use Rattle.ak_let.specs.Compile.{compiled, fun_procs, line_after, plain, starter};
ghost use Rattle.ak_let.specs.Correct.{FunIsWithin};
ghost use Rattle.ak_let_compile.specs.Drafts.{entry_at};

use crate::draft::Draft;
use crate::entries::Entries;
use ak_base::list::{Items, NoMemory};
use ak_let::source::{Fun, Source};
use ak_program::program::{NumProc, NumStatement};
use ak_program::statement::{NumAtom, NumStmt};
use std::alloc::Global;

/// The procedures of a source: the one that calls `main`, and those of its functions in their order.
///
/// # Errors
///
/// Want of memory.
pub fn compile(alloc: Global, source: &Source) -> Result<Items<NumProc>, NoMemory>
    requires few { length source.now.funs ≤ 128 }
    requires within { AllByRecursion FunIsWithin source.now.funs }
    ensures { IfOk result (λ procs. procs ≡ compiled source.now) }
{
    let entries = Entries::of(alloc, source.funs.as_slice())?;
    let mut procs = Items::make(alloc);
    procs.push(starter(alloc, &entries, source.main)?)?;
    let mut line = 5;
    for (i, fun) in source.funs.as_slice().iter().enumerate() {
        line = function(alloc, &entries, entries.entry(i), line, fun, &mut procs)?;
    }
    Ok(procs)
}

// It draws the ivar of main's answer, and calls main.
fn starter(alloc: Global, entries: &Entries, main: usize) -> Result<NumProc, NoMemory>
    ensures { IfOk result (λ proc. proc ≡ starter (entry_at entries.now) main) }
{
    let mut args = Items::make(alloc);
    args.push(NumAtom::Local(0))?;
    let call = NumStmt::Sched {
        proc: entries.entry(main),
        args,
    };
    let mut body = Items::make(alloc);
    body.push(plain(2, NumStmt::Ivar { i: 0 }))?;
    body.push(plain(3, call))?;
    Ok(NumProc {
        name: 0,
        line: 1,
        params: Items::make(alloc),
        body,
    })
}

// A statement without a condition.
fn plain(line: u32, stmt: NumStmt) -> NumStatement
    ensures { result ≡ plain line stmt }
{
    NumStatement {
        line,
        prefix: None,
        stmt,
    }
}

/// Writes a function: its first procedure and those behind its awaits, in their order. The answer is the number of the line
/// behind them.
///
/// # Errors
///
/// Want of memory.
pub fn function(
    alloc: Global,
    entries: &Entries,
    place: usize,
    line: u32,
    fun: &Fun,
    procs: &mut Items<NumProc>,
) -> Result<u32, NoMemory>
    requires within { FunIsWithin fun.now }
    requires place { place < 2 ^ 30 }
    requires line { line < 2 ^ 30 }
    ensures procs { OnOk result
        (procs.new ≡ procs.old ++ fun_procs (entry_at entries.now) place line fun.now) }
    ensures behind { IfOk result (λ behind.
        behind ≡ line_after line (fun_procs (entry_at entries.now) place line fun.now)) }
    ensures near { IfOk result (λ behind. behind ≤ line + 200) }
{
    let mut draft = Draft::begin(alloc, place, line, fun.params)?;
    for line in fun.lines.as_slice() {
        draft = draft.line(alloc, entries, line, procs)?;
    }
    let i = draft.answer;
    draft.put(
        None,
        NumStmt::Offer {
            i,
            a: NumAtom::Literal(0),
        },
    )?;
    let behind = draft.line + 1;
    procs.push(draft.into_proc())?;
    Ok(behind)
}
