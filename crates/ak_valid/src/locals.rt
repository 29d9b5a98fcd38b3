//! The locals of a procedure by their names.

ghost use Rattle.std.specs.Prelude.{◌≡◌, [], ◌∷◌, ◌++◌, not, IfOk, option_map, if◌then◌else◌};
ghost use Rattle.std.specs.List.{list_any};
ghost use Rattle.std.specs.Str.{bytes_eq};
ghost use Rattle.ak_script.specs.Statements.{bound};
ghost use Rattle.ak_valid.specs.Numbered.{at, param_names};
ghost use Rattle.ak_valid.specs.Valid.{local_named};

use ak_base::list::NoMemory;
use ak_script::script::Kind;
use indexmap::IndexMap;
use std::alloc::Global;
use std::marker::Model;

/// Locals without repeats, each with its kind, in the order in which they are bound.
#[derive(Drop)]
pub struct Locals<'a> {
    kinds: IndexMap<&'a [u8], Kind>,
}

impl<'a> Model for Locals<'a> {
    ghost use Rattle.std.specs.Prelude.{List, map};
    ghost use Rattle.ak_script.specs.declared.script.Param.{Param};
    ghost use Rattle.ak_script.specs.Statements.{bound};

    ghost Value = { List Param };

    ghost view = { λ l. map (λ entry. bound entry.0.now entry.1) l.kinds.entries };
}

impl<'a> Locals<'a> {
    /// No locals, with room for so many.
    pub fn with_capacity(alloc: Global, count: usize) -> Result<Locals<'a>, NoMemory>
        ensures { IfOk result (λ locals. locals ≡ []) }
    {
        Ok(Locals {
            kinds: IndexMap::with_capacity(alloc, count)?,
        })
    }

    /// Puts the local last, where its name is new.
    pub fn add(&mut self, name: &'a [u8], kind: Kind) -> Result<bool, NoMemory>
        ensures { IfOk result
            (λ new. (new ≡ not (list_any (bytes_eq name.now) (param_names self.old)))
            × (self.new ≡ (if new then self.old ++ bound name.now kind ∷ [] else self.old))) }
    {
        if self.kinds.contains_key(&name) {
            return Ok(false);
        }
        self.kinds.insert(name, kind)?;
        Ok(true)
    }

    /// The kind of the local: `None` exactly where it is not among them.
    pub fn kind(&self, name: &[u8]) -> Option<Kind>
        ensures { result ≡ option_map (λ param. param.kind) (local_named self.now name.now) }
    {
        self.kinds.get(&name).copied()
    }

    /// The place of the local: their number where it is not among them.
    pub fn place(&self, name: &[u8]) -> usize
        ensures { result ≡ at (param_names self.now) name.now }
    {
        self.kinds.get_index_of(&name).unwrap_or(self.kinds.len())
    }
}
