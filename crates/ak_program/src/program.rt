//! Procedures and programs.

ghost use Rattle.std.specs.Prelude.{◌≡◌, slice_get, is_some};
ghost use Rattle.std.specs.Option.{option_copied};
ghost use Rattle.ak_program.specs.Programs.{ProgramIsSound};

use crate::statement::{NumAtom, NumStmt};
use ak_base::list::Items;
use ak_script::script::Kind;
use std::marker::Model;

/// The condition before a statement: it runs where the number is not 0, or where it is 0.
#[derive(Clone, Copy, PartialEq, Eq, Debug)]
pub enum NumPrefix {
    If(NumAtom),
    Unless(NumAtom),
}

/// A parameter: its place among the locals, and its kind.
#[derive(Clone, Copy, PartialEq, Eq, Debug)]
pub struct NumParam {
    pub name: usize,
    pub kind: Kind,
}

/// A statement with the number of its line in the script, and its prefix where it has one.
#[derive(Debug, Drop)]
pub struct NumStatement {
    pub line: u32,
    pub prefix: Option<NumPrefix>,
    pub stmt: NumStmt,
}

/// A procedure: its place in the program, the number of its first line, its parameters and its statements. Each
/// local is its place among the parameters and the names that the statements bind, from 0.
#[derive(Debug, Drop)]
pub struct NumProc {
    pub name: usize,
    pub line: u32,
    pub params: Items<NumParam>,
    pub body: Items<NumStatement>,
}

/// A valid program: each name is a number, every use fits, and each statement has the form of the grammar.
#[derive(Debug, Drop)]
pub struct Program {
    procs: Items<NumProc>,
    main: usize,
    ask: Option<usize>,
}

impl Model for Program {
    ghost use Rattle.ak_program.specs.Programs.{NumProgram, ProgramIsSound};

    ghost Value = { NumProgram };

    ghost view = { λ p. record { procs = p.procs; main = p.main; ask = p.ask } };

    ghost invariant = { λ p. ProgramIsSound p.procs p.main p.ask };
}

impl Program {
    /// The program of these procedures: the place of `main`, and that of `ask` where it serves requests from outside. It takes no
    /// memory.
    pub fn new(procs: Items<NumProc>, main: usize, ask: Option<usize>) -> Program
        requires { ProgramIsSound procs main ask }
        ensures { result ≡ record { procs = procs; main = main; ask = ask } }
    {
        Program { procs, main, ask }
    }

    /// Lends the `k`-th procedure from 0: `None` exactly past the last.
    pub fn proc(&self, k: usize) -> Option<&NumProc>
        ensures value { option_copied result ≡ slice_get self.now.procs k }
        ensures sound { ProgramIsSound self.now.procs self.now.main self.now.ask }
    {
        self.procs.get(k)
    }

    /// Lends all procedures, in the order of the script.
    pub fn procs(&self) -> &[NumProc]
        ensures { result.now ≡ self.now.procs }
    {
        self.procs.as_slice()
    }

    /// Whether it serves requests from outside: a procedure `ask` stands there, and has one parameter, which is a number.
    pub fn has_ask(&self) -> bool
        ensures { result ≡ is_some self.now.ask }
    {
        self.ask.is_some()
    }

    /// The number of the procedure that serves requests from outside: `None` exactly where `has_ask` is false.
    pub fn ask(&self) -> Option<usize>
        ensures value { result ≡ self.now.ask }
        ensures sound { ProgramIsSound self.now.procs self.now.main self.now.ask }
    {
        self.ask
    }

    /// The number of `main`.
    pub fn main(&self) -> usize
        ensures value { result ≡ self.now.main }
        ensures sound { ProgramIsSound self.now.procs self.now.main self.now.ask }
    {
        self.main
    }
}
