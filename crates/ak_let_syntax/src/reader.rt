//! How far the reader of a source has come.

ghost use Rattle.std.specs.Prelude.{◌≡◌, ◌+◌, length, [], IfOk, is_some};
ghost use Rattle.std.specs.Option.{option_map};
ghost use Rattle.ak_let_syntax.specs.Grammar.{binds, locals};
ghost use Rattle.ak_let_syntax.specs.Lines.{Becomes, HasRoom, grown, added, taken, no_lines, begun_head, begun_line, begun_end, line_exceeds};

use crate::form::form;
use crate::named::{Form, NamedFun, NamedLine, NamedStmt};
use crate::refusal::{LetFault, LineRefused};
use ak_base::list::{Items, NoMemory};
use ak_syntax::cursor::{Cursor, Until};
use ak_text::line::Line;
use std::alloc::Global;
use std::marker::Model;

/// The most functions of a source.
const MAX_FUNS: usize = 128;

/// The most lines of a function.
const MAX_LINES: usize = 15;

/// The most locals of a function: its parameters, and each time that a line binds one.
const MAX_LOCALS: usize = 7;

/// The functions that were read, and the one whose `end` has not come, with the number of its locals.
#[derive(Debug, Drop)]
pub struct Reader {
    funs: Items<NamedFun>,
    begun: Option<NamedFun>,
    local_count: usize,
}

impl Model for Reader {
    ghost use Rattle.std.specs.Prelude.{◌≡◌, ◌≤◌, length, IfSome};
    ghost use Rattle.ak_let_syntax.specs.Faults.{Front};
    ghost use Rattle.ak_let_syntax.specs.Grammar.{locals};

    ghost Value = { Front };

    ghost view = { λ r. record { funs = r.funs; begun = r.begun } };

    ghost invariant = { λ r. IfSome r.begun (λ fun. (r.local_count ≡ length (locals fun)) × (r.local_count ≤ 7)) };
}

impl Reader {
    /// Before the first line.
    pub fn new(alloc: Global) -> Reader
        ensures { result ≡ no_lines }
    {
        Reader {
            funs: Items::make(alloc),
            begun: None,
            local_count: 0,
        }
    }

    /// Takes the next line. Where it is refused, no line may follow.
    #[tactic(auto, unfolding(crate::specs::Lines::taken))]
    pub fn take(&mut self, alloc: Global, line: &Line) -> Result<(), LineRefused>
        ensures { Becomes result self.new (taken self.old line.now) }
    {
        if line.is_bad() {
            return Err(LineRefused::Line(LetFault::BadLine));
        }
        let mut words = Cursor::new(line);
        let Some(first) = words.listed(Until::LineEnd)? else {
            return Ok(());
        };
        let form = form(alloc, line.number(), first, &mut words)?;
        self.add(alloc, form, words.is_faulty())
    }

    #[tactic(auto, unfolding(crate::specs::Lines::added))]
    fn add(&mut self, alloc: Global, form: Form, faulty: bool) -> Result<(), LineRefused>
        ensures { Becomes result self.new (added self.old form faulty) }
    {
        match form {
            Form::Head {
                name,
                number,
                params,
            } => self.begin(NamedFun {
                name,
                number,
                params,
                lines: Items::make(alloc),
            }),
            Form::Body(line) => self.add_line(line, faulty),
            Form::End => self.end(),
        }
    }

    fn begin(&mut self, fun: NamedFun) -> Result<(), LineRefused>
        requires { fun.lines ≡ [] }
        ensures { Becomes result self.new (begun_head self.old.begun self.old fun) }
    {
        if self.begun.is_some() {
            return Err(LineRefused::Line(LetFault::BadLine));
        }
        if fun.params.len() > MAX_LOCALS || self.funs.len() >= MAX_FUNS {
            return Err(LineRefused::Line(LetFault::TooMany));
        }
        self.local_count = fun.params.len();
        self.begun = Some(fun);
        Ok(())
    }

    fn add_line(&mut self, line: NamedLine, faulty: bool) -> Result<(), LineRefused>
        ensures { Becomes result self.new (begun_line self.old.begun self.old line faulty) }
    {
        let local_count = self.room_for(&line, faulty)?;
        self.begun = with_line(self.begun.take(), line)?;
        self.local_count = local_count;
        Ok(())
    }

    /// The number of locals that the function has with the line, where it may come next.
    fn room_for(&self, line: &NamedLine, faulty: bool) -> Result<usize, LineRefused>
        ensures { HasRoom result (begun_line self.now.begun self.now line.now faulty)
            self.now.begun line.now.stmt }
    {
        let Some(fun) = &self.begun else {
            return Err(LineRefused::Line(LetFault::BadLine));
        };
        let local_count = self.local_count + bound_count(&line.stmt);
        if exceeds(fun, line, local_count) {
            return Err(LineRefused::Line(LetFault::TooMany));
        }
        if faulty {
            return Err(LineRefused::Line(LetFault::BadNumber));
        }
        Ok(local_count)
    }

    fn end(&mut self) -> Result<(), LineRefused>
        ensures { Becomes result self.new (begun_end self.old.begun self.old) }
    {
        let Some(fun) = self.begun.take() else {
            return Err(LineRefused::Line(LetFault::BadLine));
        };
        self.funs.push(fun)?;
        Ok(())
    }

    /// Whether a function has begun whose `end` has not come.
    pub fn is_open(&self) -> bool
        ensures { result ≡ is_some self.now.begun }
    {
        self.begun.is_some()
    }

    /// The functions that were read.
    pub fn into_funs(self) -> Items<NamedFun>
        ensures { result ≡ self.funs }
    {
        self.funs
    }
}

/// How many locals a line binds, 0 or 1.
fn bound_count(stmt: &NamedStmt) -> usize
    ensures { result ≡ length (binds stmt.now) }
{
    match stmt {
        NamedStmt::Let { .. }
        | NamedStmt::Compute { .. }
        | NamedStmt::Await { .. }
        | NamedStmt::AwaitWork { .. }
        | NamedStmt::Try { .. } => 1,
        NamedStmt::Print { .. } | NamedStmt::Raise { .. } | NamedStmt::Return { .. } => 0,
    }
}

/// Whether the function has too many lines or locals with the line.
fn exceeds(fun: &NamedFun, line: &NamedLine, local_count: usize) -> bool
    requires { local_count ≡ length (locals fun.now) + length (binds line.now.stmt) }
    ensures { result ≡ line_exceeds fun.now line.now }
{
    fun.lines.len() >= MAX_LINES || local_count > MAX_LOCALS
}

/// The function with one more line.
fn with_line(begun: Option<NamedFun>, line: NamedLine) -> Result<Option<NamedFun>, NoMemory>
    ensures { IfOk result (λ now. now ≡ option_map (λ fun. grown fun line) begun) }
{
    match begun {
        Some(fun) => Ok(Some(grown(fun, line)?)),
        None => Ok(None),
    }
}

fn grown(mut fun: NamedFun, line: NamedLine) -> Result<NamedFun, NoMemory>
    ensures { IfOk result (λ now. now ≡ grown fun line) }
{
    fun.lines.push(line)?;
    Ok(fun)
}
