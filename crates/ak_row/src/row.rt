//! The words of a row, taken one after the other.

ghost use Rattle.std.specs.Prelude.{◌≡◌};
ghost use Rattle.ak_row.specs.Parts.{Leaves, row_words, word_at, end_at, thing_at, long_at, count_at, signed_at, kind_at, outcome_at};

use crate::word::{count, kind, long, signed, thing};
use ak_base::number::{JobNo, No, Num, RequestNo};
use ak_labor::work::{Outcome, WorkKind};
use ak_text::line::{Line, Words};
use std::marker::Model;

/// The words that are left of a line. Each call takes the next word, or two for an outcome. It answers `None` exactly where
/// that word is missing or stands for no such thing; the row is of no use from then on.
#[derive(Debug, Drop)]
pub struct Row<'a> {
    words: Words<'a>,
}

impl<'a> Model for Row<'a> {
    ghost use Rattle.std.specs.Prelude.{List, ℕ};

    ghost Value = { List (List ℕ) };

    ghost view = { λ r. r.words };
}

impl<'a> Row<'a> {
    /// All words of the line: `None` exactly where one of its bytes is bad.
    #[tactic(auto, unfolding(crate::specs::Parts::row_words))]
    pub fn of(line: &Line<'a>) -> Option<Row<'a>>
        ensures { result ≡ row_words line.now }
    {
        if line.is_bad() {
            return None;
        }
        Some(Row {
            words: line.words(),
        })
    }

    /// A word as it stands.
    pub fn word(&mut self) -> Option<&'a [u8]>
        ensures { Leaves (λ w. w.now) result self.new (word_at self.old) }
    {
        self.words.next()
    }

    /// The end: that no word is left.
    pub fn end(&mut self) -> Option<()>
        ensures { Leaves (λ u. tt) result self.new (end_at self.old) }
    {
        match self.words.next() {
            Some(_) => None,
            None => Some(()),
        }
    }

    /// The number of a thing, a `u32`.
    #[tactic(auto, unfolding(crate::specs::Parts::thing_at))]
    pub fn number<K>(&mut self) -> Option<No<K>>
        ensures { Leaves (λ n. n) result self.new (thing_at self.old) }
    {
        let number = thing(self.word()?)?;
        Some(No::new(number))
    }

    /// The number of a job, a `u64`.
    #[tactic(auto, unfolding(crate::specs::Parts::long_at))]
    pub fn job(&mut self) -> Option<JobNo>
        ensures { Leaves (λ n. n) result self.new (long_at self.old) }
    {
        let number = long(self.word()?)?;
        Some(JobNo::new(number))
    }

    /// The number of a request, a `u64`.
    #[tactic(auto, unfolding(crate::specs::Parts::long_at))]
    pub fn request(&mut self) -> Option<RequestNo>
        ensures { Leaves (λ n. n) result self.new (long_at self.old) }
    {
        let number = long(self.word()?)?;
        Some(RequestNo::new(number))
    }

    /// How many times: one to 1,000,000.
    #[tactic(auto, unfolding(crate::specs::Parts::count_at))]
    pub fn count(&mut self) -> Option<u32>
        ensures { Leaves (λ n. n) result self.new (count_at self.old) }
    {
        let count = count(self.word()?)?;
        Some(count)
    }

    /// A number with a sign.
    #[tactic(auto, unfolding(crate::specs::Parts::signed_at))]
    pub fn signed(&mut self) -> Option<Num>
        ensures { Leaves (λ n. n) result self.new (signed_at self.old) }
    {
        let number = signed(self.word()?)?;
        Some(number)
    }

    /// What a work computes.
    #[tactic(auto, unfolding(crate::specs::Parts::kind_at))]
    pub fn kind(&mut self) -> Option<WorkKind>
        ensures { Leaves (λ n. n) result self.new (kind_at self.old) }
    {
        let kind = kind(self.word()?)?;
        Some(kind)
    }

    /// An outcome, which is two words.
    #[tactic(auto, unfolding(crate::specs::Parts::outcome_at))]
    pub fn outcome(&mut self) -> Option<Outcome>
        ensures { Leaves (λ n. n) result self.new (outcome_at self.old) }
    {
        match self.word()? {
            b"good" => {
                let num = self.signed()?;
                Some(Outcome::Good(num))
            }
            b"bad" => {
                let num = self.signed()?;
                Some(Outcome::Bad(num))
            }
            _ => None,
        }
    }
}
