//! The words of a line, taken one after the other.

ghost use Rattle.std.specs.Prelude.{◌≡◌, false};
ghost use Rattle.std.specs.Option.{option_map};
ghost use Rattle.ak_text.specs.Lines.{words_of};
ghost use Rattle.ak_syntax.specs.Words.{Leaves, word_at, exactly_at, end_at, name_at, atom_at, count_at, operator_at, work_at, mode_at, listed_at, ends_list, is_line_end, marked};

use crate::refusal::{Fault, GrammarKind};
use crate::word::{atom, count, mode_named, name, operator_named, work_named};
use ak_base::list::Word;
use ak_script::statement::{Atom, Operator, WorkWord};
use ak_text::line::{Line, Words};
use std::alloc::Global;

/// The words that are left of a line, and whether one of those that were taken is to be a number and is none in the
/// range of its place.
#[derive(Debug, Drop)]
pub struct Cursor<'a> {
    words: Words<'a>,
    faulty: bool,
}

/// Where a list ends: with the line, or at a word.
#[derive(Clone, Copy, PartialEq, Eq, Debug)]
pub enum Until {
    LineEnd,
    Then,
    With,
    Else,
}

impl Until {
    fn ends_at(self, word: &[u8]) -> bool
        ensures { result ≡ ends_list self word.now }
    {
        match self {
            Until::LineEnd => false,
            Until::Then => word == b"then".as_slice(),
            Until::With => word == b"with".as_slice(),
            Until::Else => word == b"else".as_slice(),
        }
    }

    fn is_line_end(self) -> bool
        ensures { result ≡ is_line_end self }
    {
        matches!(self, Until::LineEnd)
    }
}

impl<'a> Cursor<'a> {
    pub fn new(line: &Line<'a>) -> Cursor<'a>
        ensures { result ≡ record { words = words_of line.now.text; faulty = false } }
    {
        Cursor {
            words: line.words(),
            faulty: false,
        }
    }

    pub fn is_faulty(&self) -> bool
        ensures { result ≡ self.now.faulty }
    {
        self.faulty
    }

    /// The next word.
    #[tactic(auto, unfolding(crate::specs::Words::word_at))]
    pub fn word(&mut self) -> Result<&'a [u8], Fault>
        ensures { Leaves (λ w. w.now) result self.new (word_at self.old) }
    {
        match self.words.next() {
            Some(word) => Ok(word),
            None => Err(Fault::Grammar(GrammarKind::BadLine)),
        }
    }

    /// This very word.
    #[tactic(auto, unfolding(crate::specs::Words::exactly_at))]
    pub fn exactly(&mut self, wanted: &[u8]) -> Result<(), Fault>
        ensures { Leaves (λ u. tt) result self.new (exactly_at wanted.now self.old) }
    {
        if self.word()? != wanted {
            return Err(Fault::Grammar(GrammarKind::BadLine));
        }
        Ok(())
    }

    /// The end of the line.
    #[tactic(auto, unfolding(crate::specs::Words::end_at))]
    pub fn end(&mut self) -> Result<(), Fault>
        ensures { Leaves (λ u. tt) result self.new (end_at self.old) }
    {
        match self.words.next() {
            Some(_) => Err(Fault::Grammar(GrammarKind::BadLine)),
            None => Ok(()),
        }
    }

    /// The next word of a list, and `None` where the list is over.
    #[tactic(auto, unfolding(crate::specs::Words::listed_at))]
    pub fn listed(&mut self, until: Until) -> Result<Option<&'a [u8]>, Fault>
        ensures { Leaves (λ o. option_map (λ w. w.now) o) result self.new
            (listed_at until self.old) }
    {
        let Some(word) = self.words.next() else {
            if until.is_line_end() {
                return Ok(None);
            }
            return Err(Fault::Grammar(GrammarKind::BadLine));
        };
        if until.ends_at(word) {
            return Ok(None);
        }
        Ok(Some(word))
    }

    /// A name.
    #[tactic(auto, unfolding(crate::specs::Words::name_at))]
    pub fn name(&mut self, alloc: Global) -> Result<Word, Fault>
        ensures { Leaves (λ n. n) result self.new (name_at self.old) }
    {
        let word = self.word()?;
        let name = name(alloc, word)?;
        Ok(name)
    }

    /// A number, or the name of a local.
    #[tactic(auto, unfolding(crate::specs::Words::atom_at))]
    pub fn atom(&mut self, alloc: Global) -> Result<Atom, Fault>
        ensures { Leaves (λ a. a) result self.new (atom_at self.old) }
    {
        let word = self.word()?;
        let (atom, faulty) = atom(alloc, word)?;
        self.mark(faulty);
        Ok(atom)
    }

    /// A number that is no value, from the least one to the greatest that there may be.
    #[tactic(auto, unfolding(crate::specs::Words::count_at))]
    pub fn count(&mut self, least: u32) -> Result<u32, Fault>
        ensures { Leaves (λ k. k) result self.new (count_at least self.old) }
    {
        let word = self.word()?;
        let (count, faulty) = count(word, least)?;
        self.mark(faulty);
        Ok(count)
    }

    /// Notes whether the word that was taken last is a number out of its range.
    pub fn mark(&mut self, faulty: bool)
        ensures { self.new ≡ marked faulty self.old }
    {
        if faulty {
            self.faulty = true;
        }
    }

    /// The operator of a `set`.
    #[tactic(auto, unfolding(crate::specs::Words::operator_at))]
    pub fn operator(&mut self) -> Result<Operator, Fault>
        ensures { Leaves (λ x. x) result self.new (operator_at self.old) }
    {
        match operator_named(self.word()?) {
            Some(operator) => Ok(operator),
            None => Err(Fault::Grammar(GrammarKind::BadLine)),
        }
    }

    /// What a work computes.
    #[tactic(auto, unfolding(crate::specs::Words::work_at))]
    pub fn work(&mut self) -> Result<WorkWord, Fault>
        ensures { Leaves (λ x. x) result self.new (work_at self.old) }
    {
        match work_named(self.word()?) {
            Some(work) => Ok(work),
            None => Err(Fault::Grammar(GrammarKind::BadLine)),
        }
    }

    /// The mode of a throttle, true for `stop`.
    #[tactic(auto, unfolding(crate::specs::Words::mode_at))]
    pub fn mode(&mut self) -> Result<bool, Fault>
        ensures { Leaves (λ x. x) result self.new (mode_at self.old) }
    {
        match mode_named(self.word()?) {
            Some(stop) => Ok(stop),
            None => Err(Fault::Grammar(GrammarKind::BadLine)),
        }
    }
}
