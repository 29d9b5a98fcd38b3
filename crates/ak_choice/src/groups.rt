//! The groups of a run, and which of them are decided.

ghost use Rattle.std.specs.Prelude.{◌≡◌, ◌<◌, ◌≤◌, [], not, length, None, OnOk, OnErr, IfOk};
ghost use Rattle.ak_base.specs.Lists.{first_of};
ghost use Rattle.ak_choice.specs.Groups as plain;

use crate::group::Group;
use ak_base::list::NoMemory;
use ak_base::number::{GroupNo, Num, RegNo};
use std::alloc::{AllocError, Global};
use std::marker::Model;

/// The groups of `all`, `any` and `choose` and the guards of `try`. Contracts see the list of them: each is undecided or
/// decided, and has the registrations that were noted for it and the numbers of its parts (after Async's `choose`, of
/// which one choice runs at most; the parts of an `all` are own).
#[derive(Debug, Drop)]
pub struct Groups {
    groups: Vec<Group>,
    alloc: Global,
}

impl Model for Groups {
    ghost use Rattle.std.specs.Prelude.{List, ◌<◌, ◌^◌, length};
    ghost use Rattle.ak_choice.specs.Groups.{Group as Plain};

    ghost Value = { List Plain };

    ghost view = { λ g. g.groups.items };
}

impl Groups {
    /// No group was begun. It takes no memory.
    pub fn make(alloc: Global) -> Groups
        ensures { result ≡ [] }
    {
        Groups {
            groups: Vec::new(alloc),
            alloc,
        }
    }

    /// Begins a group, undecided, with so many parts without a number, at most 8, and gives its number: how many groups
    /// there were.
    ///
    /// # Errors
    ///
    /// `NoMemory`, also where no number of 32 bits is left. The groups are then as before.
    pub fn begin(&mut self, parts: u32) -> Result<GroupNo, NoMemory>
        requires few { parts ≤ 8 }
        ensures number { IfOk result (λ g. g ≡ length self.old) }
        ensures ok { OnOk result (self.new ≡ plain.with_group parts self.old) }
        ensures err { OnErr result (self.new ≡ self.old) }
    {
        if self.groups.len() >= u32::MAX as usize {
            return Err(AllocError);
        }
        let g = GroupNo::new(self.groups.len() as u32);
        self.groups.push(Group::new(self.alloc, parts)?)?;
        Ok(g)
    }

    /// Notes a registration for a group that exists, behind the others.
    ///
    /// # Errors
    ///
    /// `NoMemory`. The groups are then as before.
    pub fn note(&mut self, g: GroupNo, reg: RegNo) -> Result<(), NoMemory>
        requires { g < length self.old }
        ensures ok { OnOk result (self.new ≡ plain.with_note g reg self.old) }
        ensures err { OnErr result (self.new ≡ self.old) }
    {
        self.groups[g.number() as usize].note(reg)?;
        Ok(())
    }

    /// Takes the oldest registration that was noted for a group that exists: `None` exactly where none is left, and
    /// nothing changes then.
    pub fn next_note(&mut self, g: GroupNo) -> Option<RegNo>
        requires { g < length self.old }
        ensures front { result ≡ first_of (plain.group_in self.old g).notes }
        ensures rest { self.new ≡ plain.note_taken g self.old }
    {
        self.groups[g.number() as usize].next_note()
    }

    /// Decides a group that exists: `true` exactly where it was undecided.
    pub fn decide(&mut self, g: GroupNo) -> bool
        requires { g < length self.old }
        ensures first { result ≡ not (plain.group_in self.old g).decided }
        ensures decided { self.new ≡ plain.with_decided g self.old }
    {
        self.groups[g.number() as usize].decide()
    }

    /// Whether a group that exists is undecided.
    pub fn undecided(&self, g: GroupNo) -> bool
        requires { g < length self.now }
        ensures { result ≡ not (plain.group_in self.now g).decided }
    {
        !self.groups[g.number() as usize].is_decided()
    }

    /// Gives part `k` of a group that exists its number, where it has none: `true` exactly where every part of the group
    /// has one now.
    pub fn set_part(&mut self, g: GroupNo, k: u32, num: Num) -> bool
        requires exists { g < length self.old }
        requires part { k < length (plain.group_in self.old g).parts }
        requires unset { plain.part_in g k self.old ≡ None }
        ensures all { result ≡ plain.has_all (plain.group_in self.new g).parts }
        ensures parts { self.new ≡ plain.part_set g k num self.old }
    {
        self.groups[g.number() as usize].set_part(k, num)
    }

    /// The number of part `k` of a group that exists: `None` exactly where it has none.
    pub fn part(&self, g: GroupNo, k: u32) -> Option<Num>
        requires { g < length self.now }
        ensures { result ≡ plain.part_in g k self.now }
    {
        self.groups[g.number() as usize].part(k)
    }
}
