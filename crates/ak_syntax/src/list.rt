//! Lists in a line.

ghost use Rattle.std.specs.Prelude.{◌≡◌, [], ◌∷◌, length, codes};
ghost use Rattle.std.specs.Str.{bytes_eq};
ghost use Rattle.ak_syntax.specs.declared.cursor.Until.TheVariants as until;
ghost use Rattle.ak_syntax.specs.Words.{Leaves, args_at, raise_at, guard_args_at, names_at, params_at, some_names_at, choices_at, some_choices_at};

use crate::cursor::{Cursor, Until};
use crate::refusal::{Fault, GrammarKind};
use crate::word::{atom, name, param};
use ak_base::list::Items;
use ak_script::script::Param;
use ak_script::statement::{Args, Choice, Choices, GuardMode, Names};
use std::alloc::Global;

impl<'a> Cursor<'a> {
    /// Numbers and names of locals.
    pub fn args(&mut self, alloc: Global, until: Until) -> Result<Args, Fault>
        ensures { Leaves (λ xs. xs) result self.new (args_at until self.old) }
    {
        let mut args = Items::make(alloc);
        while let Some(word) = self.listed(until)? {
            let (arg, faulty) = atom(alloc, word)?;
            self.mark(faulty);
            args.push(arg)?;
        }
        Ok(args)
    }

    /// Numbers and names of locals to the end of the line, and whether it ends with `rest raise`.
    pub fn guard_args(&mut self, alloc: Global) -> Result<(Args, GuardMode), Fault>
        ensures { Leaves (λ x. x) result self.new (guard_args_at self.old) }
    {
        let mut args = Items::make(alloc);
        while let Some(word) = self.listed(Until::LineEnd)? {
            if is_rest(word) {
                self.raise()?;
                return Ok((args, GuardMode::Raise));
            }
            let (arg, faulty) = atom(alloc, word)?;
            self.mark(faulty);
            args.push(arg)?;
        }
        Ok((args, GuardMode::Drop))
    }

    /// The end of a line behind `rest`.
    #[tactic(auto, unfolding(crate::specs::Words::raise_at))]
    fn raise(&mut self) -> Result<(), Fault>
        ensures { Leaves (λ u. tt) result self.new (raise_at self.old) }
    {
        self.exactly(b"raise".as_slice())?;
        self.end()
    }

    /// Names.
    pub fn names(&mut self, alloc: Global, until: Until) -> Result<Names, Fault>
        ensures { Leaves (λ xs. xs) result self.new (names_at until self.old) }
    {
        let mut names = Items::make(alloc);
        while let Some(word) = self.listed(until)? {
            names.push(name(alloc, word)?)?;
        }
        Ok(names)
    }

    /// One name or more.
    pub fn some_names(&mut self, alloc: Global, until: Until) -> Result<Names, Fault>
        ensures { Leaves (λ xs. xs) result self.new (some_names_at until self.old) }
    {
        let names = self.names(alloc, until)?;
        if names.len() == 0 {
            return Err(Fault::Grammar(GrammarKind::BadLine));
        }
        Ok(names)
    }

    /// The parameters of a procedure.
    pub fn params(&mut self, alloc: Global) -> Result<Items<Param>, Fault>
        ensures { Leaves (λ xs. xs) result self.new (params_at self.old) }
    {
        let mut params = Items::make(alloc);
        while let Some(word) = self.listed(Until::LineEnd)? {
            params.push(param(alloc, word)?)?;
        }
        Ok(params)
    }

    /// Deferreds of a `choose`, each with its procedure, up to `with`.
    fn choices(&mut self, alloc: Global) -> Result<Choices, Fault>
        ensures { Leaves (λ xs. xs) result self.new (choices_at self.old) }
    {
        let mut choices = Items::make(alloc);
        while let Some(word) = self.listed(Until::With)? {
            let d = name(alloc, word)?;
            let proc = self.name(alloc)?;
            choices.push(Choice { d, proc })?;
        }
        Ok(choices)
    }

    /// One of them or more.
    pub fn some_choices(&mut self, alloc: Global) -> Result<Choices, Fault>
        ensures { Leaves (λ xs. xs) result self.new (some_choices_at self.old) }
    {
        let choices = self.choices(alloc)?;
        if choices.len() == 0 {
            return Err(Fault::Grammar(GrammarKind::BadLine));
        }
        Ok(choices)
    }
}

/// Whether the word begins the end of a line that lets later errors go up.
fn is_rest(word: &[u8]) -> bool
    ensures { result ≡ bytes_eq word.now (codes "rest") }
{
    word == b"rest".as_slice()
}
