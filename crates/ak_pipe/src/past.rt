//! The numbers that were ever written. They exist for proofs alone.

ghost use Rattle.std.specs.Prelude.{◌≡◌, List, ℤ, [], ◌∷◌, ◌++◌};
ghost use Rattle.std.specs.Borrow.{ftrue};

use ak_base::number::Num;
use std::marker::Model;

/// All numbers that were written into a pipe, in order. It takes no bytes, and its calls do nothing at run time.
#[derive(Debug, Drop)]
pub struct Past {
    pub ghost written: { List ℤ },
}

impl Model for Past {
    ghost also_owns = { λ _. ftrue };
}

impl Past {
    /// Nothing was written.
    pub fn new() -> Past
        ensures { result.written ≡ [] }
    {
        Past {}
    }

    /// What was written before, and then one more number.
    pub fn then(_before: &Past, _num: &Num) -> Past
        ensures { result.written ≡ _before.now.written ++ _num.now ∷ [] }
    {
        Past {}
    }
}
