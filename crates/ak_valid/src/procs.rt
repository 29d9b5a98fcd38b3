//! The procedures of a script by their names.

ghost use Rattle.std.specs.Prelude.{◌≡◌, [], ◌∷◌, ◌++◌, IfOk, OnOk, if◌then◌else◌};
ghost use Rattle.std.specs.List.{list_any};
ghost use Rattle.std.specs.Option.{option_copied};
ghost use Rattle.std.specs.Str.{bytes_eq};
ghost use Rattle.ak_valid.specs.Numbered.{at, proc_names};
ghost use Rattle.ak_valid.specs.Valid.{proc_named};

use ak_base::list::NoMemory;
use ak_script::script::Proc;
use indexmap::IndexMap;
use std::alloc::Global;
use std::marker::Model;

/// Procedures, of each name the first.
#[derive(Drop)]
pub struct Procs<'a> {
    procs: IndexMap<&'a [u8], &'a Proc>,
}

impl<'a> Model for Procs<'a> {
    ghost use Rattle.std.specs.Prelude.{◌≡◌, List, map};
    ghost use Rattle.ak_script.specs.declared.script.Proc.{Proc};

    ghost Value = { List Proc };

    ghost view = { λ p. map (λ entry. entry.1.now) p.procs.entries };

    ghost invariant = { λ p. map (λ entry. entry.0.now) p.procs.entries ≡ map (λ entry. entry.1.now.name) p.procs.entries };
}

impl<'a> Procs<'a> {
    /// No procedures, with room for so many.
    pub fn with_capacity(alloc: Global, count: usize) -> Result<Procs<'a>, NoMemory>
        ensures { IfOk result (λ procs. procs ≡ []) }
    {
        Ok(Procs {
            procs: IndexMap::with_capacity(alloc, count)?,
        })
    }

    /// Puts the procedure last, where its name is new.
    pub fn add(&mut self, proc: &'a Proc) -> Result<(), NoMemory>
        ensures { OnOk result
            (self.new ≡ (if list_any (bytes_eq proc.now.name)
            (proc_names self.old) then self.old else self.old ++ proc.now ∷ [])) }
    {
        let name = proc.name.as_slice();
        if !self.procs.contains_key(&name) {
            self.procs.insert(name, proc)?;
        }
        Ok(())
    }

    /// The procedure of the name: `None` exactly where it is not among them.
    pub fn named(&self, name: &[u8]) -> Option<&'a Proc>
        ensures { option_copied result ≡ proc_named self.now name.now }
    {
        self.procs.get(&name).copied()
    }

    /// The place of the procedure: their number where it is not among them.
    pub fn place(&self, name: &[u8]) -> usize
        ensures { result ≡ at (proc_names self.now) name.now }
    {
        self.procs.get_index_of(&name).unwrap_or(self.procs.len())
    }
}
