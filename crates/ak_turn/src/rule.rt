//! The rule of the table, and what each kind of step tells the seat that takes it.
use crate::guarded::Guarded;
use crate::view::View;
use atomic_table::{Join, Play, Split, TableRule};
use std::marker::PhantomData;

/// The rule that every step keeps.
pub struct TurnRule<G> {
    marker: PhantomData<G>,
}

impl<G: Guarded> TableRule<Option<G>, View<G::Event>, Vec<u32>> for TurnRule<G> {
    ghost use Rattle.ak_turn.specs.Rule.{TurnKept, newcomer};

    ghost holds = { λ key. TurnKept G.log G.may G.fits key.items };

    ghost first = { λ key. newcomer key.items };
}

/// The seat draws a ticket.
pub struct Draw;

impl<G, E> Play<Option<G>, View<E>> for Draw {
    ghost use Rattle.ak_turn.specs.Steps.{Draws};

    ghost then = { Draws };
}

/// The seat looks which ticket is served, and takes the slot where it is its own.
pub struct Look<G> {
    marker: PhantomData<G>,
}

impl<G: Guarded> Play<Option<G>, View<G::Event>> for Look<G> {
    ghost use Rattle.ak_turn.specs.Steps.{Looks};

    ghost then = { Looks G.log G.may G.fits };
}

/// The holder logs what the value in its slot has beyond the log.
pub struct Log<G> {
    marker: PhantomData<G>,
}

impl<G: Guarded> Play<Option<G>, View<G::Event>> for Log<G> {
    ghost use Rattle.ak_turn.specs.Steps.{Logs};

    ghost then = { Logs G.log G.may };
}

/// The holder gives the slot back and serves the next ticket.
pub struct HandOn;

impl<G, E> Play<Option<G>, View<E>> for HandOn {
    ghost use Rattle.ak_turn.specs.Steps.{HandsOn};

    ghost then = { HandsOn };
}

/// The first spare number goes to a new pass, which has seen what this one has.
pub struct Give;

impl<E> Split<View<E>> for Give {
    ghost use Rattle.ak_turn.specs.Steps.{keeper, taker};

    ghost left = { keeper };

    ghost right = { taker };
}

/// A seat with no pass is shown the number of a pass and the log that it entered with.
pub struct Show;

impl<E> Split<View<E>> for Show {
    ghost use Rattle.ak_turn.specs.Steps.{shown};

    ghost left = { λ v. v };

    ghost right = { shown };
}

/// One seat has the passes of both, and the other is spent.
pub struct Gather;

impl<E> Join<View<E>> for Gather {
    ghost use Rattle.std.specs.Prelude.{[]};
    ghost use Rattle.ak_turn.specs.Rule.{without_pass};
    ghost use Rattle.ak_turn.specs.Steps.{gathered};

    ghost both = { gathered };

    ghost spent = { without_pass [] };
}
