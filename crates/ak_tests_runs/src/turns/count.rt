//! A number whose log has one event for each unit. Any pass may give one, and it fits any list of numbers.
ghost use Rattle.std.specs.Prelude.{◌≡◌, ℕ, ◌+◌, ◌^◌, ◌<◌, ⊤, List, [], ◌∷◌, length, IsTrue, replicate};
ghost use Rattle.ak_turn.specs.Entries.{IsLog};
ghost use Rattle.ak_turn.specs.Seen.{IsIdleOf, Extends, left};

use ak_turn::guarded::Guarded;
use ak_turn::lock::{DissolveRefused, Pass, Turn};
use std::alloc::{AllocError, Global};
use std::sync::Wait;
use std::test::*;

/// One unit was added.
struct Add;

/// A number of units.
#[derive(Drop)]
struct Count {
    units: u64,
    ghost short: { units < 2 ^ 63 },
}

impl Guarded for Count {
    type Event = Add;

    ghost log = { λ c. replicate c.units record {} };

    ghost may = { λ n e. ⊤ };

    ghost fits = { λ c numbers. ⊤ };

    fn length(&self) -> u64 {
        self.units
    }
}

// Adds one unit where the count has so many, and says whether it did.
fn add_at<R: Wait>(rt: &R, turn: &Turn<Count>, pass: &mut Pass<Count>, units: u64) -> bool
    requires turn { IsIdleOf turn.now pass.old }
    requires room { units + 1 < 2 ^ 63 }
    ensures turn { IsIdleOf turn.now pass.new × (pass.new.number ≡ pass.old.number)
        × (pass.new.spare ≡ pass.old.spare) }
    ensures added { IsTrue result → (was : List (ℕ × _)) × (length was ≡ units)
        × Extends pass.old was × IsLog (λ n e. ⊤) turn.now.numbers was
        × (pass.new ≡ left pass.old was (record {} ∷ [])) }
{
    let mut held = turn.enter(rt, pass);
    if held.value().units == units {
        *held.value_mut() = Count { units: units + 1 };
        turn.leave(pass, held);
        true
    } else {
        turn.leave(pass, held);
        false
    }
}

// Enters and leaves, and changes nothing.
fn visit<R: Wait>(rt: &R, turn: &Turn<Count>, pass: &mut Pass<Count>)
    requires { IsIdleOf turn.now pass.old }
    ensures turn { IsIdleOf turn.now pass.new × (pass.new.number ≡ pass.old.number)
        × (pass.new.spare ≡ pass.old.spare) }
    ensures mine { pass.new.mine ≡ pass.old.mine }
{
    let held = turn.enter(rt, pass);
    turn.leave(pass, held);
}

// Pass 0 adds a unit. Pass 1 comes and goes, and adds one. Where each found what it expected, contracts show the entries
// that both have seen.
fn play<R: Wait>(rt: &R, turn: &Turn<Count>, zero: &mut Pass<Count>, one: &mut Pass<Count>) -> bool
    requires turn { IsIdleOf turn.now zero.old × IsIdleOf turn.now one.old
        × (turn.now.numbers ≡ 0 ∷ 1 ∷ []) }
    requires zero { (zero.old.number ≡ 0) × (zero.old.mine ≡ []) }
    requires one { (one.old.number ≡ 1) × (one.old.mine ≡ []) }
    ensures turn { IsIdleOf turn.now zero.new × (zero.new.spare ≡ zero.old.spare)
        × IsIdleOf turn.now one.new × (one.new.spare ≡ one.old.spare) }
    ensures seen { IsTrue result → (zero.new.seen ≡ (0, record {}) ∷ [])
        × (one.new.seen ≡ (0, record {}) ∷ (1, record {}) ∷ []) }
    ensures mine { IsTrue result → (zero.new.mine ≡ record {} ∷ [])
        × (one.new.mine ≡ record {} ∷ []) }
{
    let first = add_at(rt, turn, zero, 0);
    if !first {
        return false;
    }
    visit(rt, turn, one);
    let second = add_at(rt, turn, one, 1);
    second
}

// Whether the passes found what they expected, the units in the end, and how many numbers were given and made where pass
// 1 alone was handed in.
fn row<R: Wait>(rt: &R, alloc: Global) -> Result<(bool, u64, u32, u32), AllocError> {
    let Ok((turn, mut zero)) = Turn::make(alloc, Count { units: 0 }, &[0, 1]) else {
        return Err(AllocError);
    };
    let mut one = turn.pass(&mut zero);
    let played = play(rt, &turn, &mut zero, &mut one);
    let passes = vec![in alloc; one]?;
    let Err(
        DissolveRefused::Missing {
            turn,
            mut passes,
            given,
            made,
        },
    ) = turn.dissolve(passes)
    else {
        return Err(AllocError);
    };
    passes.push(zero)?;
    match turn.dissolve(passes) {
        Ok(count) => Ok((played, count.units, given, made)),
        Err(_) => Err(AllocError),
    }
}

#[test]
fn two_passes_add_one_each(rt: HostRuntime) -> Result<(), Fail> {
    assert_eq!(rt; row(&rt, rt.alloc())?, (true, 2, 1, 2));
    Ok(())
}
