//! Those who do the works.

ghost use Rattle.std.specs.Prelude.{ℕ, ◌≡◌, ◌+◌, ◌-◌, ◌/◌, ◌<◌, ◌≤◌, ◌^◌, pos, length, IfOk};
ghost use Rattle.std.specs.List.{AllByRecursion};
ghost use Rattle.ak_labor.specs.Value.{value_of, square_of, mix_of, mixed};

use crate::work::{Outcome, Work, WorkKind};
use ak_base::list::NoMemory;
use ak_base::number::Num;
use std::alloc::Global;
use std::marker::Model;

/// A hand that does works, one after another (own).
pub trait Labor: Send {
    /// How many works it has done.
    ghost carried: { Self → ℕ };

    /// Does the work: the answer is the work's value. The hand has done fewer than 18,446,744,073,709,551,615 works
    /// before. The call may wait.
    fn carry(&mut self, work: &Work) -> Outcome
        requires { carried self.old < 2 ^ 64 - 1 }
        ensures value { result ≡ value_of work.now }
        ensures carried { carried self.new ≡ carried self.old + 1 };
}

/// A hand that computes each work where it is called, and waits for nothing. Contracts see how many works it has done.
#[derive(Debug, Drop)]
pub struct Plain {
    carried: u64,
}

impl Model for Plain {
    ghost use Rattle.std.specs.Prelude.{ℕ};

    ghost Value = { ℕ };

    ghost view = { λ p. p.carried };
}

impl Plain {
    /// A hand that has done nothing.
    pub fn make() -> Plain
        ensures { result ≡ 0 }
    {
        Plain { carried: 0 }
    }
}

impl Labor for Plain {
    ghost carried = { λ n. n };

    fn carry(&mut self, work: &Work) -> Outcome {
        self.carried += 1;
        value(work)
    }
}

/// So many hands, each of which has done nothing.
///
/// # Errors
///
/// `NoMemory`.
pub fn plain_hands(alloc: Global, count: u32) -> Result<Vec<Plain>, NoMemory>
    ensures count { IfOk result (λ hands. length hands.items ≡ count) }
    ensures fresh { IfOk result (λ hands. AllByRecursion (λ hand. hand ≡ 0) hands.items) }
{
    let mut hands = Vec::with_capacity(alloc, count as usize)?;
    for _ in 0..count {
        hands.push_reserved(Plain::make());
    }
    Ok(hands)
}

/// The greatest number that is mixed.
const MOST_STEPS: u64 = 1_000_000;

/// The error of a work whose number is outside its range.
const OUT_OF_RANGE: Num = -8;

/// What the work gives.
fn value(work: &Work) -> Outcome
    ensures { result ≡ value_of work.now }
{
    match work.kind {
        WorkKind::Square => square(work.num),
        WorkKind::Mix => mix(work.num),
        WorkKind::Fail => Outcome::Bad(work.num),
    }
}

/// The square of the number, where it has 64 bits.
fn square(num: Num) -> Outcome
    ensures { result ≡ square_of num }
{
    match num.checked_mul(num) {
        Some(square) => Outcome::Good(square),
        None => Outcome::Bad(OUT_OF_RANGE),
    }
}

/// The upper half of the number after as many steps of the generator, for a number from 0 to a million.
fn mix(num: Num) -> Outcome
    ensures { result ≡ mix_of num }
{
    match u64::try_from(num) {
        Ok(steps) if steps <= MOST_STEPS => Outcome::Good((after_steps(steps) >> 32) as Num),
        _ => Outcome::Bad(OUT_OF_RANGE),
    }
}

/// The generator begun with the number, after as many steps.
fn after_steps(steps: u64) -> u64
    requires { steps ≤ 1000000 }
    ensures { result ≡ mixed steps steps }
{
    let mut state = steps;
    for _ in 0..steps {
        state = step(state);
    }
    state
}

/// One step of the generator.
fn step(state: u64) -> u64
    ensures { result ≡ mixed 1 state }
{
    state
        .wrapping_mul(6_364_136_223_846_793_005)
        .wrapping_add(1_442_695_040_888_963_407)
}
