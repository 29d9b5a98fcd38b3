//! A state that is worked by hand. The body is empty: the contract is what the counts must be.

ghost use Rattle.std.specs.Prelude.{◌≡◌, [], ◌∷◌};
ghost use Rattle.ak_ledger.specs.Story.{before_it, answer_waits, answer_goes, counted};

/// A request that has come is owed one answer, and one frame answers it, until its job asks the pool. No other frame answers
/// it, and none answers a request that has not come.
pub fn one_answer_is_owed()
    ensures before { counted before_it ≡ 0 ∷ 0 ∷ 0 ∷ 0 ∷ [] }
    ensures waits { counted answer_waits ≡ 1 ∷ 1 ∷ 0 ∷ 0 ∷ [] }
    ensures goes { counted answer_goes ≡ 0 ∷ 0 ∷ 0 ∷ 0 ∷ [] }
{}
