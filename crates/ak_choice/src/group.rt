//! One group.

ghost use Rattle.std.specs.Prelude.{◌≡◌, ◌<◌, ◌≤◌, ◌∷◌, ◌++◌, [], IfOk, OnOk, OnErr, true, not, length, slice_index_or, slice_set, Some, None, is_some};
ghost use Rattle.std.specs.List.{list_all};
ghost use Rattle.ak_base.specs.Lists.{first_of, rest_of};
ghost use Rattle.ak_choice.specs.Groups.{fresh_group, has_all};

use ak_base::list::NoMemory;
use ak_base::number::{Num, RegNo};
use std::alloc::Global;
use std::collections::VecDeque;
use std::marker::Model;

/// A group: whether it is decided, the registrations that were noted for it, oldest first, and the number of each part.
#[derive(Debug, Drop)]
pub struct Group {
    decided: bool,
    notes: VecDeque<RegNo>,
    parts: Vec<Option<Num>>,
}

impl Model for Group {
    ghost use Rattle.ak_choice.specs.Groups.{Group as Plain};

    ghost Value = { Plain };

    ghost view = { λ g. record { decided = g.decided; notes = g.notes.items; parts = g.parts.items } };
}

impl Group {
    /// An undecided group of so many parts without a number.
    pub fn new(alloc: Global, parts: u32) -> Result<Group, NoMemory>
        ensures { IfOk result (λ g. g ≡ fresh_group parts) }
    {
        Ok(Group {
            decided: false,
            notes: VecDeque::new(alloc),
            parts: vec![in alloc; None; parts as usize]?,
        })
    }

    /// Puts a registration last. After want of memory nothing has changed.
    pub fn note(&mut self, reg: RegNo) -> Result<(), NoMemory>
        ensures ok { OnOk result (self.new ≡ record self.old {
          notes =
              self.old.notes ++ reg ∷ [];
        }) }
        ensures err { OnErr result (self.new ≡ self.old) }
    {
        self.notes.push_back(reg)?;
        Ok(())
    }

    /// Takes the oldest registration: `None` exactly where none is left, and nothing changes then.
    pub fn next_note(&mut self) -> Option<RegNo>
        ensures front { result ≡ first_of self.old.notes }
        ensures rest { self.new ≡ record self.old { notes = rest_of self.old.notes } }
    {
        self.notes.pop_front()
    }

    /// Whether it is decided.
    pub fn is_decided(&self) -> bool
        ensures { result ≡ self.now.decided }
    {
        self.decided
    }

    /// Decides it, and gives whether it was undecided.
    pub fn decide(&mut self) -> bool
        ensures first { result ≡ not self.old.decided }
        ensures decided { self.new ≡ record self.old { decided = true } }
    {
        let first = !self.decided;
        self.decided = true;
        first
    }

    #[tactic(auto, using(crate::proofs::Decided::all_is_some))]
    /// Gives part `k` its number, and gives whether every part has one now.
    pub fn set_part(&mut self, k: u32, num: Num) -> bool
        requires { k < length self.old.parts }
        ensures all { result ≡ has_all self.new.parts }
        ensures parts { self.new ≡ record self.old {
          parts =
              slice_set self.old.parts k (Some num);
        } }
    {
        self.parts[k as usize] = Some(num);
        has_all_numbers(self.parts.as_slice())
    }

    /// The number of part `k`: `None` exactly where it has none.
    pub fn part(&self, k: u32) -> Option<Num>
        ensures { result ≡ slice_index_or self.now.parts k None }
    {
        self.parts.get(k as usize).copied().flatten()
    }
}

// Whether every part has a number.
fn has_all_numbers(parts: &[Option<Num>]) -> bool
    ensures { result ≡ list_all is_some parts.now }
{
    parts.iter().all(|part| part.is_some())
}
