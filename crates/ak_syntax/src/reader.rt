//! How far the reader of a script has come.

ghost use Rattle.std.specs.Prelude.{◌≡◌, ◌+◌, length, [], IfOk, is_some};
ghost use Rattle.std.specs.List.{AllByRecursion};
ghost use Rattle.std.specs.Option.{option_map};
ghost use Rattle.ak_syntax.specs.Lines.{Becomes, HasRoom, grown, added, taken, no_lines, async_added, begun_head, begun_statement, begun_end, statement_exceeds};
ghost use Rattle.ak_syntax.specs.Grammar.{locals};
ghost use Rattle.ak_script.specs.Statements.{binds, ProcIsFormed};

use crate::cursor::{Cursor, Until};
use crate::form::form;
use crate::limit::{bound_count, longest_list};
use crate::line_form::Form;
use crate::refusal::{Fault, GrammarKind};
use crate::version::Version;
use ak_base::list::{Items, NoMemory};
use ak_script::script::{Proc, Script, Statement};
use ak_text::line::Line;
use std::alloc::Global;
use std::marker::Model;

/// The most procedures of a script.
const MAX_PROCS: usize = 4096;

/// The most statements of a procedure.
const MAX_STATEMENTS: usize = 64;

/// The most locals of a procedure: its parameters, and each name that a statement binds.
const MAX_LOCALS: usize = 64;

/// The most parameters of a procedure, and items of another list of a line.
const MAX_LISTED: usize = 8;

/// The version, the procedures that were read, and the one whose `end` has not come, with the number of its locals.
#[derive(Debug, Drop)]
pub struct Reader {
    of_version: Version,
    procs: Items<Proc>,
    begun: Option<Proc>,
    local_count: usize,
}

impl Model for Reader {
    ghost use Rattle.std.specs.Prelude.{◌≡◌, ◌≤◌, length, IfSome};
    ghost use Rattle.ak_syntax.specs.Faults.{Front};
    ghost use Rattle.ak_syntax.specs.Grammar.{locals};

    ghost Value = { Front };

    ghost view = { λ r. record { of_version = r.of_version; procs = r.procs; begun = r.begun } };

    ghost invariant = { λ r. IfSome r.begun (λ proc. (r.local_count ≡ length (locals proc)) × (r.local_count ≤ 64)) };
}

impl Reader {
    /// Before the first line.
    pub fn new(alloc: Global) -> Reader
        ensures { result ≡ no_lines }
    {
        Reader {
            of_version: Version::One,
            procs: Items::make(alloc),
            begun: None,
            local_count: 0,
        }
    }

    /// Takes the next line. Where it is refused, no line may follow.
    #[tactic(auto, unfolding(crate::specs::Lines::taken))]
    pub fn take(&mut self, alloc: Global, line: &Line) -> Result<(), Fault>
        ensures { Becomes result self.new (taken self.old line.now) }
    {
        if line.is_bad() {
            return Err(Fault::Grammar(GrammarKind::BadLine));
        }
        let mut words = Cursor::new(line);
        let Some(first) = words.listed(Until::LineEnd)? else {
            return Ok(());
        };
        let form = form(alloc, line.number(), first, &mut words)?;
        self.add(alloc, form, words.is_faulty())
    }

    #[tactic(auto, unfolding(crate::specs::Lines::added))]
    fn add(&mut self, alloc: Global, form: Form, faulty: bool) -> Result<(), Fault>
        ensures { Becomes result self.new (added self.old form faulty) }
    {
        match form {
            Form::Async => self.set_version(),
            Form::Head { name, line, params } => self.begin(Proc {
                name,
                line,
                params,
                body: Items::make(alloc),
            }),
            Form::Body(statement) => self.add_statement(statement, faulty),
            Form::End => self.end(),
        }
    }

    /// The line of version 2 comes before all others.
    fn set_version(&mut self) -> Result<(), Fault>
        ensures { Becomes result self.new
            (async_added self.old.of_version self.old.procs self.old.begun) }
    {
        let comes_first = matches!(self.of_version, Version::One) && self.procs.len() == 0;
        if !comes_first || self.begun.is_some() {
            return Err(Fault::Grammar(GrammarKind::BadLine));
        }
        self.of_version = Version::Two;
        Ok(())
    }

    fn begin(&mut self, proc: Proc) -> Result<(), Fault>
        requires { proc.body ≡ [] }
        ensures { Becomes result self.new (begun_head self.old.begun self.old proc) }
    {
        if self.begun.is_some() {
            return Err(Fault::Grammar(GrammarKind::BadLine));
        }
        if proc.params.len() > MAX_LISTED || self.procs.len() >= MAX_PROCS {
            return Err(Fault::Grammar(GrammarKind::TooMany));
        }
        self.local_count = proc.params.len();
        self.begun = Some(proc);
        Ok(())
    }

    fn add_statement(&mut self, statement: Statement, faulty: bool) -> Result<(), Fault>
        ensures { Becomes result self.new
            (begun_statement self.old.begun self.old statement faulty) }
    {
        let local_count = self.room_for(&statement, faulty)?;
        self.begun = with_statement(self.begun.take(), statement)?;
        self.local_count = local_count;
        Ok(())
    }

    /// The number of locals that the procedure has with the statement, where it may come next.
    fn room_for(&self, statement: &Statement, faulty: bool) -> Result<usize, Fault>
        ensures { HasRoom result (begun_statement self.now.begun self.now statement.now faulty)
            self.now.begun statement.now.stmt }
    {
        let Some(proc) = &self.begun else {
            return Err(Fault::Grammar(GrammarKind::BadLine));
        };
        if !self.of_version.has(&statement.stmt) {
            return Err(Fault::Grammar(GrammarKind::BadLine));
        }
        let local_count = self.local_count + bound_count(&statement.stmt);
        if exceeds(proc, statement, local_count) {
            return Err(Fault::Grammar(GrammarKind::TooMany));
        }
        if faulty {
            return Err(Fault::Grammar(GrammarKind::BadNumber));
        }
        Ok(local_count)
    }

    fn end(&mut self) -> Result<(), Fault>
        ensures { Becomes result self.new (begun_end self.old.begun self.old) }
    {
        let Some(proc) = self.begun.take() else {
            return Err(Fault::Grammar(GrammarKind::BadLine));
        };
        self.procs.push(proc)?;
        Ok(())
    }

    /// Whether a procedure has begun whose `end` has not come.
    pub fn is_open(&self) -> bool
        ensures { result ≡ is_some self.now.begun }
    {
        self.begun.is_some()
    }

    /// The script of the procedures that were read.
    pub fn into_script(self) -> Script
        requires { AllByRecursion ProcIsFormed self.procs }
        ensures { result ≡ self.procs }
    {
        Script::new(self.procs)
    }
}

/// Whether the procedure has too many statements or locals with the statement, or this has a list that is too long.
fn exceeds(proc: &Proc, statement: &Statement, local_count: usize) -> bool
    requires { local_count ≡ length (locals proc.now) + length (binds statement.now.stmt) }
    ensures { result ≡ statement_exceeds proc.now statement.now }
{
    if longest_list(&statement.stmt) > MAX_LISTED {
        return true;
    }
    proc.body.len() >= MAX_STATEMENTS || local_count > MAX_LOCALS
}

/// The procedure with one more statement.
fn with_statement(begun: Option<Proc>, statement: Statement) -> Result<Option<Proc>, NoMemory>
    ensures { IfOk result (λ now. now ≡ option_map (λ proc. grown proc statement) begun) }
{
    match begun {
        Some(proc) => Ok(Some(grown(proc, statement)?)),
        None => Ok(None),
    }
}

fn grown(mut proc: Proc, statement: Statement) -> Result<Proc, NoMemory>
    ensures { IfOk result (λ now. now ≡ grown proc statement) }
{
    proc.body.push(statement)?;
    Ok(proc)
}
