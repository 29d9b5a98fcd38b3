//! The locals of a function by their names.

ghost use Rattle.std.specs.Prelude.{◌≡◌, ◌∷◌, IfOk, OnOk};
ghost use Rattle.std.specs.List.{list_any, position, position_or_len};
ghost use Rattle.std.specs.Str.{bytes_eq};
ghost use Rattle.ak_valid.specs.Numbered.{at};

use ak_base::list::{NoMemory, Word};
use std::alloc::Global;
use std::marker::Model;

/// Names of locals: the parameters in their order, and before them each local that was bound later, the newest first.
#[derive(Drop)]
pub struct Locals<'a> {
    names: Vec<&'a [u8]>,
}

impl<'a> Model for Locals<'a> {
    ghost use Rattle.std.specs.Prelude.{ℕ, List, map};

    ghost Value = { List (List ℕ) };

    ghost view = { λ l. map (λ name. name.now) l.names.items };
}

impl<'a> Locals<'a> {
    /// The parameters of a function.
    pub fn of(alloc: Global, params: &'a [Word]) -> Result<Locals<'a>, NoMemory>
        ensures { IfOk result (λ locals. locals ≡ params.now) }
    {
        let mut names = Vec::with_capacity(alloc, params.len())?;
        for param in params {
            names.push(param.as_slice())?;
        }
        Ok(Locals { names })
    }

    /// Binds one more.
    pub fn bind(&mut self, name: &'a [u8]) -> Result<(), NoMemory>
        ensures { OnOk result (self.new ≡ name.now ∷ self.old) }
    {
        self.names.insert(0, name)?;
        Ok(())
    }

    /// Whether the name is among them.
    pub fn has(&self, name: &[u8]) -> bool
        ensures { result ≡ list_any (bytes_eq name.now) self.now }
    {
        stands(self.names.as_slice(), name)
    }

    /// How many are newer than the local of the name: their number where it is not among them.
    pub fn place(&self, name: &[u8]) -> usize
        ensures { result ≡ at self.now name.now }
    {
        place(self.names.as_slice(), name)
    }
}

fn stands(names: &[&[u8]], name: &[u8]) -> bool
    ensures { result ≡ list_any (λ known. bytes_eq name.now known.now) names.now }
{
    names.iter().any(|known| name == *known)
}

fn place(names: &[&[u8]], name: &[u8]) -> usize
    ensures { result ≡ position_or_len (λ known. bytes_eq name.now known.now) names.now }
{
    position(names, name).unwrap_or(names.len())
}

fn position(names: &[&[u8]], name: &[u8]) -> Option<usize>
    ensures { result ≡ position (λ known. bytes_eq name.now known.now) names.now }
{
    names.iter().position(|known| name == *known)
}
