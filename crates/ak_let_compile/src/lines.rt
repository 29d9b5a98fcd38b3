//! How each line of a source is written.

ghost use Rattle.std.specs.Prelude.{◌≡◌, [], ◌∷◌, ◌++◌, ◌+◌, ◌<◌, ◌^◌, length, OnOk, IfOk};
ghost use Rattle.ak_let_compile.specs.Drafts.{HasRoom, IsLined, Steps, answered_in, attempted_in, called_in, computed_in, ended_in, entry_at, guarded_in, resumed_in};

use crate::draft::Draft;
use crate::entries::Entries;
use ak_base::list::{Items, NoMemory};
use ak_let::source::{Atom, Line};
use ak_program::program::NumProc;
use ak_program::statement::{NumAtom, NumStmt};
use ak_script::statement::Operator;
use std::alloc::Global;

impl Draft {
    /// Writes a line. Where it awaits, the procedure ends and is put last, and the next is begun.
    ///
    /// # Errors
    ///
    /// Want of memory.
    pub fn line(
        mut self,
        alloc: Global,
        entries: &Entries,
        line: &Line,
        procs: &mut Items<NumProc>,
    ) -> Result<Draft, NoMemory>
        requires room { HasRoom self }
        requires lined { IsLined self }
        ensures { IfOk result (λ next.
            Steps (entry_at entries.now) self line.now procs.old procs.new next) }
    {
        match line {
            Line::Let { value } => {
                let atom = self.locals.atom(*value);
                self.locals.bind(atom)?;
                Ok(self)
            }
            Line::Compute {
                left,
                operator,
                right,
            } => {
                self.compute(*left, *operator, *right)?;
                Ok(self)
            }
            Line::Print { when, value } => {
                let prefix = self.locals.when(*when);
                let a = self.locals.atom(*value);
                self.put(prefix, NumStmt::Print { a })?;
                Ok(self)
            }
            Line::Raise { when, value } => {
                let prefix = self.locals.when(*when);
                let a = self.locals.atom(*value);
                self.put(prefix, NumStmt::Raise { a })?;
                Ok(self)
            }
            Line::Return { when, value } => {
                self.answer(*when, *value)?;
                Ok(self)
            }
            Line::Await { function, args } => {
                self.call(alloc, entries.entry(*function), args.as_slice())?;
                self.resume(alloc, procs)
            }
            Line::AwaitWork { kind, value } => {
                let a = self.locals.atom(*value);
                let r = self.size;
                self.put(None, NumStmt::Work { r, kind: *kind, a })?;
                self.resume(alloc, procs)
            }
            Line::Try {
                function,
                args,
                handler,
            } => {
                let handler = entries.entry(*handler);
                self.attempt(alloc, entries.entry(*function), args.as_slice(), handler)?;
                self.resume(alloc, procs)
            }
        }
    }

    // `let x = a op b`
    fn compute(&mut self, left: Atom, op: Operator, right: Atom) -> Result<(), NoMemory>
        requires line { self.old.line + 1 < 2 ^ 32 }
        requires size { self.old.size + 1 < 2 ^ 64 }
        ensures { OnOk result (self.new ≡ computed_in self.old left op right) }
    {
        let a = self.locals.atom(left);
        let b = self.locals.atom(right);
        let x = self.size;
        self.put(None, NumStmt::Set { x, a, op, b })?;
        self.locals.bind(NumAtom::Local(x))?;
        self.size += 1;
        Ok(())
    }

    // `return a`: the answer is offered, and the procedure returns.
    fn answer(&mut self, when: Option<Atom>, value: Atom) -> Result<(), NoMemory>
        requires { self.old.line + 2 < 2 ^ 32 }
        ensures { OnOk result (self.new ≡ answered_in self.old when value) }
    {
        let prefix = self.locals.when(when);
        let a = self.locals.atom(value);
        let i = self.answer;
        self.put(prefix, NumStmt::Offer { i, a })?;
        self.put(
            prefix,
            NumStmt::Ret {
                a: NumAtom::Literal(0),
            },
        )?;
        Ok(())
    }

    // The function is called with the ivar of its answer.
    fn call(&mut self, alloc: Global, entry: usize, args: &[Atom]) -> Result<(), NoMemory>
        requires { self.old.line + 2 < 2 ^ 32 }
        ensures { OnOk result (self.new ≡ called_in self.old entry args.now) }
    {
        let i = self.size;
        self.put(None, NumStmt::Ivar { i })?;
        let args = self.locals.args(alloc, args, i)?;
        self.put(None, NumStmt::Sched { proc: entry, args })?;
        Ok(())
    }

    // The function is called in a monitor of its own, whose handler answers in its place.
    fn attempt(
        &mut self,
        alloc: Global,
        entry: usize,
        args: &[Atom],
        handler: usize,
    ) -> Result<(), NoMemory>
        requires line { self.old.line + 5 < 2 ^ 32 }
        requires size { self.old.size + 1 < 2 ^ 64 }
        ensures { OnOk result (self.new ≡ attempted_in self.old entry args.now handler) }
    {
        let m = self.size + 1;
        self.guard(alloc, m, handler)?;
        let args = self.locals.args(alloc, args, self.size)?;
        self.put(
            None,
            NumStmt::Within {
                m,
                proc: entry,
                args,
            },
        )?;
        Ok(())
    }

    // The ivar of an answer, and a monitor whose handler answers it.
    fn guard(&mut self, alloc: Global, m: usize, handler: usize) -> Result<(), NoMemory>
        requires line { self.old.line + 4 < 2 ^ 32 }
        requires monitor { m ≡ self.old.size + 1 }
        ensures { OnOk result (self.new ≡ guarded_in self.old handler) }
    {
        let i = self.size;
        let mut answer = Items::make(alloc);
        answer.push(NumAtom::Local(i))?;
        self.put(None, NumStmt::Ivar { i })?;
        self.put(None, NumStmt::Monitor { m })?;
        self.put(None, NumStmt::Detach { m })?;
        self.put(
            None,
            NumStmt::OnError {
                m,
                proc: handler,
                args: answer,
            },
        )?;
        Ok(())
    }

    // What follows an await goes on with the answer, the locals and this function's own ivar: the next procedure.
    fn resume(mut self, alloc: Global, procs: &mut Items<NumProc>) -> Result<Draft, NoMemory>
        requires line { self.line + 3 < 2 ^ 32 }
        requires lined { IsLined self }
        requires name { self.name + 1 < 2 ^ 64 }
        requires locals { length self.locals + 2 < 2 ^ 64 }
        ensures ended { OnOk result (procs.new ≡ procs.old ++ ended_in self ∷ []) }
        ensures next { IfOk result (λ next. next ≡ resumed_in self) }
    {
        let proc = self.name + 1;
        let count = self.locals.count() + 1;
        let d = self.size;
        let args = self.locals.all(alloc, self.answer)?;
        self.put(None, NumStmt::Upon { d, proc, args })?;
        let first = self.line + 1;
        procs.push(self.into_proc())?;
        Draft::begin(alloc, proc, first, count)
    }
}
