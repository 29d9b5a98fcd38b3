//! Names that have been seen.

ghost use Rattle.std.specs.Prelude.{◌≡◌, [], ◌∷◌, ◌++◌, not, IfOk, if◌then◌else◌};
ghost use Rattle.std.specs.List.{list_any};
ghost use Rattle.std.specs.Str.{bytes_eq};

use ak_base::list::NoMemory;
use indexmap::IndexSet;
use std::alloc::Global;
use std::marker::Model;

/// Names without repeats, in the order in which they were seen.
#[derive(Drop)]
pub struct Names<'a> {
    names: IndexSet<&'a [u8]>,
}

impl<'a> Model for Names<'a> {
    ghost use Rattle.std.specs.Prelude.{ℕ, List, map};

    ghost Value = { List (List ℕ) };

    ghost view = { λ n. map (λ name. name.now) n.names.keys };
}

impl<'a> Names<'a> {
    /// No names, with room for so many.
    pub fn with_capacity(alloc: Global, count: usize) -> Result<Names<'a>, NoMemory>
        ensures { IfOk result (λ names. names ≡ []) }
    {
        Ok(Names {
            names: IndexSet::with_capacity(alloc, count)?,
        })
    }

    /// Puts the name last, where it is new.
    pub fn add(&mut self, name: &'a [u8]) -> Result<bool, NoMemory>
        ensures { IfOk result (λ new. (new ≡ not (list_any (bytes_eq name.now) self.old))
            × (self.new ≡ (if new then self.old ++ name.now ∷ [] else self.old))) }
    {
        Ok(self.names.insert(name)?)
    }
}
