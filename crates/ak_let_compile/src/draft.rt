//! A procedure that is being written.

ghost use Rattle.std.specs.Prelude.{◌≡◌, ◌+◌, ◌<◌, ◌^◌, OnOk, IfOk};
ghost use Rattle.ak_let.specs.Compile.{params_from};
ghost use Rattle.ak_let_compile.specs.Drafts.{begun, proc_of, with_statement};

use crate::locals::Locals;
use ak_base::list::{Items, NoMemory};
use ak_program::program::{NumParam, NumPrefix, NumProc, NumStatement};
use ak_program::statement::NumStmt;
use ak_script::script::Kind;
use std::alloc::Global;

/// A procedure that is being written: a piece of a function, from its begin or from behind an await.
#[derive(Drop)]
pub struct Draft {
    /// Its place among the procedures.
    pub name: usize,
    /// The number of its first line in the script.
    pub first: u32,
    pub params: Items<NumParam>,
    pub body: Items<NumStatement>,
    /// What the locals of the source are.
    pub locals: Locals,
    /// The place of the answer's ivar.
    pub answer: usize,
    /// How many locals it has.
    pub size: usize,
    /// The number of the next line of the script.
    pub line: u32,
}

impl Draft {
    /// A piece with so many locals of the source, none of whose lines is written.
    ///
    /// # Errors
    ///
    /// Want of memory.
    pub fn begin(alloc: Global, name: usize, first: u32, count: usize) -> Result<Draft, NoMemory>
        requires line { first + 1 < 2 ^ 32 }
        requires locals { count + 1 < 2 ^ 64 }
        ensures { IfOk result (λ draft. draft ≡ begun name first count) }
    {
        let params = parameters(alloc, count)?;
        let locals = Locals::first(alloc, count)?;
        Ok(Draft {
            name,
            first,
            params,
            body: Items::make(alloc),
            locals,
            answer: count,
            size: count + 1,
            line: first + 1,
        })
    }

    /// Puts a statement on the next line.
    ///
    /// # Errors
    ///
    /// Want of memory.
    pub fn put(&mut self, prefix: Option<NumPrefix>, stmt: NumStmt) -> Result<(), NoMemory>
        requires { self.old.line + 1 < 2 ^ 32 }
        ensures { OnOk result (self.new ≡ with_statement self.old prefix stmt) }
    {
        let line = self.line;
        self.body.push(NumStatement { line, prefix, stmt })?;
        self.line += 1;
        Ok(())
    }

    /// The procedure as far as it is written.
    pub fn into_proc(self) -> NumProc
        ensures { result ≡ proc_of self }
    {
        NumProc {
            name: self.name,
            line: self.first,
            params: self.params,
            body: self.body,
        }
    }
}

// The parameters of a piece: so many numbers, and the ivar of the answer.
fn parameters(alloc: Global, count: usize) -> Result<Items<NumParam>, NoMemory>
    ensures { IfOk result (λ params. params ≡ params_from 0 count) }
{
    let mut params = Items::make(alloc);
    for name in 0..count {
        params.push(NumParam {
            name,
            kind: Kind::Num,
        })?;
    }
    params.push(NumParam {
        name: count,
        kind: Kind::Ivar,
    })?;
    Ok(params)
}
