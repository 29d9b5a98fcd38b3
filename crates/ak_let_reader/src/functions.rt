//! The functions of a source by their names.

ghost use Rattle.std.specs.Prelude.{◌≡◌, ℕ, List, [], ◌∷◌, ◌++◌, length, slice_get, IfOk, OnOk};
ghost use Rattle.std.specs.Option.{option_copied};
ghost use Rattle.ak_valid.specs.Numbered.{at};
ghost use Rattle.ak_let_reader.specs.NameFaults.{fun_named};
ghost use Rattle.ak_let_reader.specs.Numbered.{fun_names};
ghost use Rattle.ak_let_reader.specs.Places.{ArePlaces};

use ak_base::list::NoMemory;
use ak_let_syntax::named::NamedFun;
use indexmap::IndexMap;
use std::alloc::Global;
use std::marker::Model;

/// Functions in their order, and of each name the place of the first.
#[derive(Drop)]
pub struct Functions<'a> {
    funs: &'a [NamedFun],
    places: IndexMap<&'a [u8], usize>,
}

impl<'a> Model for Functions<'a> {
    ghost use Rattle.std.specs.Prelude.{List};
    ghost use Rattle.ak_let_syntax.specs.declared.named.NamedFun.{NamedFun};
    ghost use Rattle.ak_let_reader.specs.Places.{ArePlaces};
    ghost use Rattle.ak_let_reader.specs.Numbered.{fun_names};

    ghost Value = { List NamedFun };

    ghost view = { λ f. f.funs.now };

    ghost invariant = { λ f. ArePlaces f.places.entries (fun_names f.funs.now) };
}

impl<'a> Functions<'a> {
    /// Those of a source.
    pub fn of(alloc: Global, funs: &'a [NamedFun]) -> Result<Functions<'a>, NoMemory>
        ensures { IfOk result (λ functions. functions ≡ funs.now) }
    {
        let mut places = IndexMap::with_capacity(alloc, funs.len())?;
        for (i, fun) in funs.iter().enumerate() {
            put(&mut places, fun.name.as_slice(), i)?;
        }
        Ok(Functions { funs, places })
    }

    /// The place of the first function of the name: their number where there is none.
    pub fn place(&self, name: &[u8]) -> usize
        ensures { result ≡ at (fun_names self.now) name.now }
    {
        self.places.get(&name).copied().unwrap_or(self.funs.len())
    }

    /// The first function of the name.
    pub fn named(&self, name: &[u8]) -> Option<&'a NamedFun>
        ensures { option_copied result ≡ fun_named self.now name.now }
    {
        at_place(self.funs, self.place(name))
    }
}

/// Puts a name at its place, where it stands at none before.
fn put<'a>(
    places: &mut IndexMap<&'a [u8], usize>,
    name: &'a [u8],
    place: usize,
) -> Result<(), NoMemory>
    ensures { OnOk result ((names : List (List ℕ)) → place ≡ length names
        → ArePlaces places.old.entries names
        → ArePlaces places.new.entries (names ++ name.now ∷ [])) }
{
    if places.contains_key(&name) {
        return Ok(());
    }
    places.insert(name, place)?;
    Ok(())
}

fn at_place(funs: &[NamedFun], place: usize) -> Option<&NamedFun>
    ensures { option_copied result ≡ slice_get funs.now place }
{
    funs.get(place)
}
