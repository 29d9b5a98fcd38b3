//! Scripts, procedures and lines.

ghost use Rattle.std.specs.Prelude.{◌≡◌, slice_get};
ghost use Rattle.std.specs.List.{AllByRecursion};
ghost use Rattle.std.specs.Option.{option_copied};
ghost use Rattle.ak_script.specs.Statements.{ProcIsFormed};

use crate::statement::{Atom, Stmt};
use ak_base::list::{Items, Word};
use std::marker::Model;

/// What a parameter or a local may hold.
#[derive(Clone, Copy, PartialEq, Eq, Debug)]
pub enum Kind {
    Num,
    Ivar,
    Def,
    Mon,
    Pipe,
    Thr,
    Event,
    Helper,
}

/// A parameter of a procedure.
#[derive(Debug, Drop)]
pub struct Param {
    pub name: Word,
    pub kind: Kind,
}

/// The condition before a statement: it runs where the number is not 0, or where it is 0.
#[derive(Debug, Drop)]
pub enum Prefix {
    If(Atom),
    Unless(Atom),
}

/// A statement with the number of its line, and its prefix where it has one.
#[derive(Debug, Drop)]
pub struct Statement {
    pub line: u32,
    pub prefix: Option<Prefix>,
    pub stmt: Stmt,
}

/// A procedure: its name, the number of its first line, its parameters and its statements.
#[derive(Debug, Drop)]
pub struct Proc {
    pub name: Word,
    pub line: u32,
    pub params: Items<Param>,
    pub body: Items<Statement>,
}

/// A script, which contracts see as the list of its procedures. Each statement has the form of the grammar: no prefix stands
/// before one that binds a name, and its lists and numbers lie in their ranges.
#[derive(Debug, Drop)]
pub struct Script {
    procs: Items<Proc>,
}

impl Model for Script {
    ghost use Rattle.std.specs.Prelude.{List};
    ghost use Rattle.std.specs.List.{AllByRecursion};
    ghost use Rattle.ak_script.specs.Statements.{ProcIsFormed};
    ghost use Rattle.ak_script.specs.declared.script.Proc.{Proc};

    ghost Value = { List Proc };

    ghost view = { λ s. s.procs };

    ghost invariant = { λ s. AllByRecursion ProcIsFormed s.procs };
}

impl Script {
    /// The script of these procedures. It takes no memory.
    pub fn new(procs: Items<Proc>) -> Script
        requires { AllByRecursion ProcIsFormed procs }
        ensures { result ≡ procs }
    {
        Script { procs }
    }

    /// The procedures. It takes no memory.
    pub fn into_procs(self) -> Items<Proc>
        ensures value { result ≡ self }
        ensures formed { AllByRecursion ProcIsFormed result }
    {
        let Script { procs } = self;
        procs
    }

    /// Lends the `k`-th procedure from 0: `None` exactly past the last.
    pub fn proc(&self, k: usize) -> Option<&Proc>
        ensures { option_copied result ≡ slice_get self.now k }
    {
        self.procs.get(k)
    }
}
