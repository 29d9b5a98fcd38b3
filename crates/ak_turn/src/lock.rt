//! A turn and its passes.
ghost use Rattle.std.specs.Prelude.{◌≡◌, ◌≢◌, ◌+◌, ◌<◌, ◌≤◌, List, [], ◌∷◌, ◌++◌, length, IfOk, IfErr, None, true, false, nat_eq, sum_by, min};
ghost use Rattle.std.specs.List.{IsDistinct};
ghost use Rattle.ak_turn.specs.Entries.{events, Each, IsLog};
ghost use Rattle.ak_turn.specs.Seen.{IsIdleOf, idle_passes, number_count};

use crate::guarded::Guarded;
use crate::steps;
use crate::steps::{Desk, Place};
use std::alloc::Global;
use std::marker::Model;
use std::sync::Wait;

/// A value that passes take turns at, with the list of the passes' numbers. Contracts see which turn it is, and its list
/// of numbers. A ticket lock; the log and the passes are a source of their own.
#[derive(Drop)]
pub struct Turn<G: Guarded> {
    table: Desk<G>,
    made: u32,
}

impl<G: Guarded> Model for Turn<G> {
    ghost use Rattle.std.specs.Prelude.{◌≡◌, ◌<◌, length};
    ghost use Rattle.ak_turn.specs.Seen.{TurnView};

    ghost Value = { TurnView };

    ghost view = { λ t. record { id = t.table.shared.table_id; numbers = t.table.shared.key.items } };

    ghost invariant = { λ t. (t.table.shared.table_id.words ≡ 3) × (t.table.shared.table_id.slots ≡ 1) × (t.made ≡ length t.table.shared.key.items) × (t.made < 4294967295) × (0 < t.made) };
}

/// The right to enter a turn, under a number of its own. Contracts see the turn that it belongs to, its number, its spare
/// numbers in order, whether it holds the turn, the entries that it has seen (`seen`), and the events that it gave
/// (`mine`); while it holds the turn also the log as it entered (`was`), which is empty otherwise.
#[derive(Drop)]
pub struct Pass<G: Guarded> {
    seat: Place<G>,
    spare: u32,
    ticket: u64,
}

impl<G: Guarded> Model for Pass<G> {
    ghost use Rattle.std.specs.Prelude.{◌≡◌, length};
    ghost use Rattle.ak_turn.specs.Seen.{PassView, pass_view, IsPass};

    ghost Value = { PassView G.Event };

    ghost view = { λ p. pass_view p.seat.table_id p.seat.me.0 };

    ghost invariant = { λ p. IsPass p.seat.me p.ticket × (p.spare ≡ length (pass_view p.seat.table_id p.seat.me.0).spare) };
}

/// The value, while its pass holds the turn. Contracts see the turn that it came from, the number of the pass, the log as
/// the pass entered (`was`), and the value. If it is dropped, no other pass enters any more.
#[derive(Drop)]
pub struct Held<G: Guarded> {
    value: G,
    shown: Place<G>,
}

impl<G: Guarded> Model for Held<G> {
    ghost use Rattle.ak_turn.specs.Seen.{HeldView, held_view};

    ghost Value = { HeldView G G.Event };

    ghost view = { λ h. held_view h.shown.table_id h.shown.me.0 h.value };
}

/// A turn was not made, for want of memory. The value comes back.
#[derive(Drop)]
pub struct MakeRefused<G> {
    pub value: G,
}

/// A turn was not dissolved. The turn and the passes come back.
#[derive(Drop)]
pub enum DissolveRefused<G: Guarded> {
    /// The passes given have fewer or more numbers than were made.
    Missing {
        turn: Turn<G>,
        passes: Vec<Pass<G>>,
        given: u32,
        made: u32,
    },

    /// Want of memory. No call answers it, since dissolving takes none.
    NoMemory {
        turn: Turn<G>,
        passes: Vec<Pass<G>>,
    },
}

impl<G: Guarded> Turn<G> {
    ghost use Rattle.ak_turn.specs.Seen.{IsOf, Extends, IsWhole, entered, left, new_pass_of};
    ghost use Rattle.ak_turn.specs.Refused.{HandsBack, IsMissing};

    /// A turn over the value, whose log is empty and which fits the numbers, with the pass of the first number; the
    /// others, in order, are its spare numbers. There are 1 to 4,294,967,294 numbers, no two the same. `Err` is want of
    /// memory.
    pub fn make(
        alloc: Global,
        value: G,
        numbers: &[u32],
    ) -> Result<(Turn<G>, Pass<G>), MakeRefused<G>>
        requires value { G.fits value numbers.now × (G.log value ≡ []) }
        requires numbers { (0 < length numbers.now) × (length numbers.now < 4294967295)
            × IsDistinct nat_eq numbers.now }

        ensures turn { IfOk result (λ t. t.0.numbers ≡ numbers.now) }
        ensures pass { IfOk result (λ t. (numbers.now ≡ t.1.number ∷ t.1.spare)
            × (t.1 ≡ new_pass_of t.0 t.1.number t.1.spare [])) }
        ensures err { IfErr result (λ r. r.value ≡ value) }
    {
        let made = numbers.len() as u32;
        match steps::make(alloc, value, numbers) {
            Ok((table, seat)) => Ok((
                Turn { table, made },
                Pass {
                    seat,
                    spare: made - 1,
                    ticket: 0,
                },
            )),
            Err(value) => Err(MakeRefused { value }),
        }
    }

    /// A new pass, which takes the first spare number of `from` and has seen what `from` has. It takes no memory.
    pub fn pass(&self, from: &mut Pass<G>) -> Pass<G>
        requires turn { IsIdleOf self.now from.old }
        requires spare { 0 < length from.old.spare }
        ensures number { from.old.spare ≡ result.number ∷ from.new.spare }
        ensures pass { result ≡ new_pass_of self.now result.number [] from.old.seen }
        ensures from { from.new ≡ record from.old { spare = from.new.spare } }
    {
        let seat = steps::split(&self.table, &mut from.seat);
        from.spare -= 1;
        Pass {
            seat,
            spare: 0,
            ticket: 0,
        }
    }

    /// Waits until no other pass holds the turn, and then gives the value, with the log as it is: what the pass had seen,
    /// and entries of other numbers. It takes no memory. Nothing says that the wait ends, nor in which order passes enter.
    pub fn enter<R: Wait>(&self, rt: &R, pass: &mut Pass<G>) -> Held<G>
        requires { IsIdleOf self.now pass.old }
        ensures pass { pass.new ≡ entered pass.old result.was }
        ensures held { (result.id ≡ self.now.id) × (result.number ≡ pass.old.number) }
        ensures value { G.fits result.value self.now.numbers
            × (G.log result.value ≡ events result.was) }
        ensures extends { Extends pass.old result.was }
        ensures log { IsLog G.may self.now.numbers result.was }
    {
        let (ticket, value) = steps::enter(rt, &self.table, &mut pass.seat);
        pass.ticket = ticket;
        let shown = steps::show(&self.table, &mut pass.seat);
        Held { value, shown }
    }

    /// Gives the value back, with at most one event more in its log, which the pass's number may give. The pass has then
    /// seen the whole log. It takes no memory.
    pub fn leave(&self, pass: &mut Pass<G>, held: Held<G>)
        requires turn { IsOf self.now pass.old × (pass.old.has_turn ≡ true) }
        requires held { (held.id ≡ pass.old.id) × (held.number ≡ pass.old.number)
            × (held.was ≡ pass.old.was) }
        requires value { G.fits held.value self.now.numbers }
        requires log { (es : List G.Event) × (length es ≤ 1)
            × (G.log held.value ≡ events held.was ++ es)
            × Each (G.may pass.old.number) es }

        ensures pass { IsIdleOf self.now pass.new × (pass.new.number ≡ pass.old.number)
            × (pass.new.spare ≡ pass.old.spare) }
        ensures log { (es : List G.Event) → G.log held.value ≡ events held.was ++ es
            → pass.new ≡ left pass.old held.was es }
        ensures seen { IsLog G.may self.now.numbers pass.new.seen
            × (events pass.new.seen ≡ G.log held.value) }
    {
        let Held { value, shown: _ } = held;
        let ticket = pass.ticket;
        steps::leave(&self.table, &mut pass.seat, ticket, value);
    }

    /// The value, from passes with all numbers. `Missing` comes exactly where the passes and their spare numbers are not
    /// as many as the turn's list of numbers, and counts both, the first up to 4,294,967,295. It takes no memory.
    pub fn dissolve(self, passes: Vec<Pass<G>>) -> Result<G, DissolveRefused<G>>
        requires { Each (IsIdleOf self) passes.items }
        ensures ok { IfOk result (λ x. sum_by number_count passes.items ≡ length self.numbers) }
        ensures whole { IfOk result (IsWhole G.log G.may G.fits self.numbers passes.items) }
        ensures err { IfErr result (λ e. sum_by number_count passes.items ≢ length self.numbers) }
        ensures missing { IfErr result
            (IsMissing (min (sum_by number_count passes.items) 4294967295)
            (length self.numbers)) }
        ensures back { IfErr result (HandsBack self passes.items) }
    {
        let given = given(passes.as_slice());
        let made = self.made;
        if given != made {
            return Err(DissolveRefused::Missing {
                turn: self,
                passes,
                given,
                made,
            });
        }
        let Turn { table, made: _ } = self;
        let seat = gather_all(&table, passes);
        Ok(steps::dissolve(table, seat))
    }
}

impl<G: Guarded> Pass<G> {
    fn spare(&self) -> u32
        ensures { result ≡ length self.now.spare }
    {
        self.spare
    }
}

impl<G: Guarded> Held<G> {
    ghost use Rattle.std.specs.Borrow.{Lends, sem};
    ghost use Rattle.ak_turn.specs.contracts.lock.Held.{the_row};

    /// Lends the value.
    pub fn value(&self) -> &G
        ensures { result.now ≡ self.now.value }
    {
        &self.value
    }

    /// Lends the value to be changed.
    pub fn value_mut(&mut self) -> &mut G
        ensures* writes_back { sem 𝓛
            (Lends (the_row G.row G.Event.row G.Guarded) G.row self.entry result
            (λ w. record self.old { value = w })) }
        ensures value { result.now ≡ self.old.value }
    {
        &mut self.value
    }
}

// How many numbers these passes have, up to the greatest `u32`.
fn given<G: Guarded>(passes: &[Pass<G>]) -> u32
    ensures { result ≡ min (sum_by number_count passes.now) 4294967295 }
{
    let mut sum: u32 = 0;
    for pass in passes {
        sum = sum.saturating_add(1).saturating_add(pass.spare());
    }
    sum
}

// One seat with all passes, in their order.
fn gather_all<G: Guarded>(table: &Desk<G>, mut passes: Vec<Pass<G>>) -> Place<G>
    requires table { (table.now.shared.table_id.words ≡ 3) × (table.now.shared.table_id.slots ≡ 1)
        × (0 < length passes.items) }
    requires passes { Each (IsIdleOf record {
      id = table.now.shared.table_id;
      numbers =
          table.now.shared.key.items;
    }) passes.items }
    ensures seat { (result.table_id ≡ table.now.shared.table_id) × (result.me.0.ticket ≡ None)
        × (result.me.0.has_turn ≡ false) }
    ensures passes { idle_passes record {
      id = table.now.shared.table_id;
      numbers =
          table.now.shared.key.items;
    } result.me.0.passes ≡ passes.items }
{
    let Some(last) = passes.pop() else {
        unreachable!()
    };
    let Pass {
        mut seat,
        spare: _,
        ticket: _,
    } = last;
    while let Some(pass) = passes.pop() {
        let Pass {
            seat: mut first,
            spare: _,
            ticket: _,
        } = pass;
        steps::gather(table, &mut first, seat);
        seat = first;
    }
    passes.destroy_empty();
    seat
}
