//! What the locals of a source are in its script.

ghost use Rattle.std.specs.Prelude.{◌≡◌, [], ◌∷◌, ◌++◌, length, map, OnOk, IfOk};
ghost use Rattle.ak_program.specs.declared.statement.NumAtom.TheVariants.{Local};
ghost use Rattle.ak_let.specs.Compile.{atom, locals_from, when_holds};

use ak_base::list::{Items, NoMemory};
use ak_let::source::Atom;
use ak_program::program::NumPrefix;
use ak_program::statement::{NumArgs, NumAtom};
use std::alloc::Global;
use std::marker::Model;

/// What each local of the source is, the newest first.
#[derive(Drop)]
pub struct Locals {
    atoms: Vec<NumAtom>,
}

impl Model for Locals {
    ghost use Rattle.std.specs.Prelude.{List};
    ghost use Rattle.ak_program.specs.declared.statement.NumAtom.{NumAtom};

    ghost Value = { List NumAtom };

    ghost view = { λ locals. locals.atoms.items };
}

impl Locals {
    /// The locals that a piece begins with: its first parameters.
    ///
    /// # Errors
    ///
    /// Want of memory.
    pub fn first(alloc: Global, count: usize) -> Result<Locals, NoMemory>
        ensures { IfOk result (λ locals. locals ≡ locals_from 0 count) }
    {
        let mut atoms = Vec::new(alloc);
        for place in 0..count {
            atoms.push(NumAtom::Local(place))?;
        }
        Ok(Locals { atoms })
    }

    /// Binds a local.
    ///
    /// # Errors
    ///
    /// Want of memory; the locals are then as before.
    pub fn bind(&mut self, newest: NumAtom) -> Result<(), NoMemory>
        ensures { OnOk result (self.new ≡ newest ∷ self.old) }
    {
        self.atoms.insert(0, newest)?;
        Ok(())
    }

    /// What an atom of the source is.
    pub fn atom(&self, value: Atom) -> NumAtom
        ensures { result ≡ atom self.now value }
    {
        match value {
            Atom::Given(number) => NumAtom::Literal(number),
            Atom::Known(newer) => self
                .atoms
                .get(newer)
                .copied()
                .unwrap_or(NumAtom::Literal(0)),
        }
    }

    /// The condition of a line.
    pub fn when(&self, when: Option<Atom>) -> Option<NumPrefix>
        ensures { result ≡ when_holds self.now when }
    {
        match when {
            Some(atom) => Some(NumPrefix::If(self.atom(atom))),
            None => None,
        }
    }

    /// What the atoms of a call are, with a local of the script behind them.
    ///
    /// # Errors
    ///
    /// Want of memory.
    pub fn args(&self, alloc: Global, args: &[Atom], last: usize) -> Result<NumArgs, NoMemory>
        ensures { IfOk result (λ atoms. atoms ≡ map (atom self.now) args.now ++ Local last ∷ []) }
    {
        let mut atoms = Vec::new(alloc);
        for arg in args {
            atoms.push(self.atom(*arg))?;
        }
        atoms.push(NumAtom::Local(last))?;
        Ok(Items::from_vec(atoms))
    }

    /// All locals, with one of the script behind them.
    ///
    /// # Errors
    ///
    /// Want of memory.
    pub fn all(&self, alloc: Global, last: usize) -> Result<NumArgs, NoMemory>
        ensures { IfOk result (λ atoms. atoms ≡ self.now ++ Local last ∷ []) }
    {
        let mut atoms: Vec<NumAtom> = self.atoms.iter().copied().collect(alloc)?;
        atoms.push(NumAtom::Local(last))?;
        Ok(Items::from_vec(atoms))
    }

    /// How many there are.
    pub fn count(&self) -> usize
        ensures { result ≡ length self.now }
    {
        self.atoms.len()
    }
}
