//! A turn and its passes go to other threads, whatever value stands behind them.
ghost use Rattle.std.specs.Prelude.{◌≡◌};
ghost use Rattle.ak_turn.specs.Seen.{IsIdleOf};

use ak_turn::guarded::Guarded;
use ak_turn::lock::{Held, Pass, Turn};
use std::sync::Wait;

fn sent<T: Send>(value: T) -> T
    ensures { result ≡ value }
{
    value
}

fn shared<T: Sync>(value: &T) -> &T
    ensures { result.now ≡ value.now }
{
    value
}

// Proved for every `G`: a turn, a pass and a held value may be sent, and a turn shared.
fn crosses<G: Guarded, R: Wait>(rt: &R, turn: Turn<G>, pass: Pass<G>) -> (Turn<G>, Pass<G>, Held<G>)
    requires { IsIdleOf turn pass }
{
    let turn = sent(turn);
    let mut pass = sent(pass);
    let held = shared(&turn).enter(rt, &mut pass);
    let held = sent(held);
    (turn, pass, held)
}
