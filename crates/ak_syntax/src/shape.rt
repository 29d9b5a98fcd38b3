//! The last words of a statement, with the end of the line: many rows share them.

ghost use Rattle.std.specs.Prelude.{◌≡◌};
ghost use Rattle.ak_syntax.specs.Words.{Leaves};
ghost use Rattle.ak_syntax.specs.Rows.{one_name_at, one_atom_at, name_atom_at, two_names_at, work_atom_at, call_at, two_calls_at, guarded_calls_at};

use crate::cursor::{Cursor, Until};
use crate::refusal::Fault;
use ak_base::list::Word;
use ak_script::statement::{Args, Atom, GuardMode, WorkWord};
use std::alloc::Global;

impl<'a> Cursor<'a> {
    /// A name.
    #[tactic(auto, unfolding(crate::specs::Rows::one_name_at))]
    pub fn one_name(&mut self, alloc: Global) -> Result<Word, Fault>
        ensures { Leaves (λ x. x) result self.new (one_name_at self.old) }
    {
        let name = self.name(alloc)?;
        self.end()?;
        Ok(name)
    }

    /// An atom.
    #[tactic(auto, unfolding(crate::specs::Rows::one_atom_at))]
    pub fn one_atom(&mut self, alloc: Global) -> Result<Atom, Fault>
        ensures { Leaves (λ x. x) result self.new (one_atom_at self.old) }
    {
        let atom = self.atom(alloc)?;
        self.end()?;
        Ok(atom)
    }

    /// A name and an atom.
    #[tactic(auto, unfolding(crate::specs::Rows::name_atom_at))]
    pub fn name_atom(&mut self, alloc: Global) -> Result<(Word, Atom), Fault>
        ensures { Leaves (λ x. x) result self.new (name_atom_at self.old) }
    {
        let name = self.name(alloc)?;
        let atom = self.atom(alloc)?;
        self.end()?;
        Ok((name, atom))
    }

    /// Two names.
    #[tactic(auto, unfolding(crate::specs::Rows::two_names_at))]
    pub fn two_names(&mut self, alloc: Global) -> Result<(Word, Word), Fault>
        ensures { Leaves (λ x. x) result self.new (two_names_at self.old) }
    {
        let first = self.name(alloc)?;
        let second = self.name(alloc)?;
        self.end()?;
        Ok((first, second))
    }

    /// What a work computes, and of what.
    #[tactic(auto, unfolding(crate::specs::Rows::work_atom_at))]
    pub fn work_atom(&mut self, alloc: Global) -> Result<(WorkWord, Atom), Fault>
        ensures { Leaves (λ x. x) result self.new (work_atom_at self.old) }
    {
        let work = self.work()?;
        let atom = self.atom(alloc)?;
        self.end()?;
        Ok((work, atom))
    }

    /// A procedure and its arguments.
    #[tactic(auto, unfolding(crate::specs::Rows::call_at))]
    pub fn call(&mut self, alloc: Global) -> Result<(Word, Args), Fault>
        ensures { Leaves (λ x. x) result self.new (call_at self.old) }
    {
        let proc = self.name(alloc)?;
        let args = self.args(alloc, Until::LineEnd)?;
        Ok((proc, args))
    }

    /// A procedure and its arguments, and behind `else` another one.
    #[tactic(auto, unfolding(crate::specs::Rows::two_calls_at))]
    pub fn two_calls(&mut self, alloc: Global) -> Result<(Word, Args, Word, Args), Fault>
        ensures { Leaves (λ x. x) result self.new (two_calls_at self.old) }
    {
        let proc = self.name(alloc)?;
        let args = self.args(alloc, Until::Else)?;
        let other = self.name(alloc)?;
        let other_args = self.args(alloc, Until::LineEnd)?;
        Ok((proc, args, other, other_args))
    }

    /// The same of a `try`, and what becomes of its later errors.
    #[tactic(auto, unfolding(crate::specs::Rows::guarded_calls_at))]
    pub fn guarded_calls(
        &mut self,
        alloc: Global,
    ) -> Result<(Word, Args, Word, Args, GuardMode), Fault>
        ensures { Leaves (λ x. x) result self.new (guarded_calls_at self.old) }
    {
        let proc = self.name(alloc)?;
        let args = self.args(alloc, Until::Else)?;
        let catch = self.name(alloc)?;
        let (catch_args, mode) = self.guard_args(alloc)?;
        Ok((proc, args, catch, catch_args, mode))
    }
}
