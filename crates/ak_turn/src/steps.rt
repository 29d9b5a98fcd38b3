//! The steps of a turn, on the seats of its table.
ghost use Rattle.std.specs.Prelude.{◌≡◌, ℕ, ◌+◌, ◌%◌, ◌^◌, ◌<◌, ◌≤◌, List, [], ◌∷◌, length, IfOk, IfErr, Some, None, true, false, nat_eq};
ghost use Rattle.std.specs.List.{IsDistinct};
ghost use Rattle.ak_turn.specs.Entries.{Each, events, IsLog};
ghost use Rattle.ak_turn.specs.Rule.{HasTicket, IsIdle, shares, KnowsLog, newcomer};
ghost use Rattle.ak_turn.specs.Steps.{with_ticket, with_turn, handed_on, logged, logged_as, news, keeper, taker, shown, gathered, MayLeave, IsAll, Entered};
ghost use Rattle.ak_turn.specs.Seen.{SitsAt};
ghost use Rattle.ak_turn.specs.declared.view.PassState.{PassState};
ghost use Rattle.std.specs.Prelude.{length as list_length};
ghost use Rattle.atomic_table.specs.Table.{rest};

use crate::guarded::Guarded;
use crate::rule::{Draw, Gather, Give, HandOn, Log, Look, Show, TurnRule};
use crate::view::View;
use atomic_table::{Refused, Seat, Table};
use std::alloc::{AllocFailed, Global};
use std::hint;
use std::sync::Wait;

/// The table of a turn: three words, one slot with the value, and the list of numbers as its key.
pub type Desk<G> = Table<Option<G>, View<<G as Guarded>::Event>, Vec<u32>, TurnRule<G>, Global>;

/// A seat at it.
pub type Place<G> = Seat<Option<G>, View<<G as Guarded>::Event>>;

/// The word of the next ticket.
const NEXT: usize = 0;

/// The word of the ticket served.
const SERVED: usize = 1;

/// The word of the log's length.
const LENGTH: usize = 2;

/// How often a thread looks before it parks.
const LOOKS: u32 = 100;

/// The low bits of a word, which are what a thread parks on.
fn low_bits(word: u64) -> u32
    ensures { result ≡ word % 2 ^ 32 }
{
    (word % (1 << 32)) as u32
}

/// Draws a ticket, and answers it modulo 2^64.
pub fn draw<G: Guarded>(desk: &Desk<G>, seat: &mut Place<G>) -> u64
    requires desk { SitsAt desk.now.shared.table_id seat.old.table_id }
    requires idle { IsIdle seat.old.me.0 × (1 ≤ shares seat.old.me.0) }
    ensures seat { (seat.new.table_id ≡ seat.old.table_id) × (seat.new.id ≡ seat.old.id) }
    ensures view { (t : ℕ) × (seat.new.me ≡ (with_ticket seat.old.me.0 t, seat.old.me.1))
        × (result ≡ t % 2 ^ 64) }
{
    desk.shared.fetch_add::<Draw>(seat, NEXT, 1)
}

/// Waits until the ticket is served, and takes the slot then. It parks while another ticket is served, once it has looked
/// often enough.
pub fn await_turn<G: Guarded, R: Wait>(rt: &R, desk: &Desk<G>, seat: &mut Place<G>, ticket: u64)
    requires desk { SitsAt desk.now.shared.table_id seat.old.table_id }
    requires waits { HasTicket seat.old.me.0 ticket × (seat.old.me.0.has_turn ≡ false) }
    ensures seat { (seat.new.table_id ≡ seat.old.table_id) × (seat.new.id ≡ seat.old.id) }
    ensures view { Entered G.log G.may G.fits seat.old.me seat.new.me }
{
    let mut looks = 0;
    for _ in rt.forever() {
        let served = desk.shared.load::<Look<G>>(seat, SERVED);
        if served == ticket {
            return;
        }
        if looks < LOOKS {
            looks += 1;
            hint::spin_loop();
        } else {
            desk.shared.park(rt, SERVED, low_bits(served));
        }
    }
    unreachable!()
}

/// Takes the value out of the slot that the seat holds.
pub fn take<G: Guarded>(desk: &Desk<G>, seat: &mut Place<G>) -> G
    requires desk { SitsAt desk.now.shared.table_id seat.old.table_id }
    requires value { (x : G) × (seat.old.me.1 ≡ (0, Some x) ∷ []) }
    ensures seat { (seat.new.table_id ≡ seat.old.table_id) × (seat.new.id ≡ seat.old.id) }
    ensures view { seat.new.me ≡ (seat.old.me.0, (0, None) ∷ []) }
    ensures value { seat.old.me.1 ≡ (0, Some result) ∷ [] }
{
    match desk.shared.exchange(seat, 0, None) {
        Some(value) => value,
        None => unreachable!(),
    }
}

/// Draws a ticket, waits for it, and takes the value. It answers the ticket modulo 2^64, and the value.
pub fn enter<G: Guarded, R: Wait>(rt: &R, desk: &Desk<G>, seat: &mut Place<G>) -> (u64, G)
    requires desk { SitsAt desk.now.shared.table_id seat.old.table_id }
    requires idle { IsIdle seat.old.me.0 × (1 ≤ shares seat.old.me.0) × (seat.old.me.1 ≡ []) }
    ensures seat { (seat.new.table_id ≡ seat.old.table_id) × (seat.new.id ≡ seat.old.id) }
    ensures view { (t : ℕ) × (result.0 ≡ t % 2 ^ 64)
        × (seat.new.me ≡ (with_turn (with_ticket seat.old.me.0 t) seat.new.me.0.was, (0, None) ∷ [])) }
    ensures value { G.fits result.1 seat.old.me.0.numbers
        × (G.log result.1 ≡ events seat.new.me.0.was) }
    ensures log { IsLog G.may seat.old.me.0.numbers seat.new.me.0.was
        × Each (KnowsLog seat.new.me.0.was) seat.old.me.0.passes }
{
    let ticket = draw(desk, seat);
    await_turn(rt, desk, seat, ticket);
    let value = take(desk, seat);
    (ticket, value)
}

/// Puts the value back into the slot that the seat holds.
pub fn put_back<G: Guarded>(desk: &Desk<G>, seat: &mut Place<G>, value: G)
    requires desk { SitsAt desk.now.shared.table_id seat.old.table_id }
    requires empty { seat.old.me.1 ≡ (0, None) ∷ [] }
    ensures seat { (seat.new.table_id ≡ seat.old.table_id) × (seat.new.id ≡ seat.old.id) }
    ensures view { seat.new.me ≡ (seat.old.me.0, (0, Some value) ∷ []) }
{
    match desk.shared.exchange(seat, 0, Some(value)) {
        None => {}
        Some(_) => unreachable!(),
    }
}

/// Logs what the log of the value in the slot has beyond the turn's, by writing its length.
pub fn write_log<G: Guarded>(desk: &Desk<G>, seat: &mut Place<G>, length: u64)
    requires desk { SitsAt desk.now.shared.table_id seat.old.table_id }
    requires turn { seat.old.me.0.has_turn ≡ true }
    requires value { (x : G) × (p : PassState G.Event) × (seat.old.me.1 ≡ (0, Some x) ∷ [])
        × (seat.old.me.0.passes ≡ p ∷ []) × MayLeave G.log G.may G.fits seat.old.me p x
        × (length ≡ list_length (G.log x)) × (length < 2 ^ 63) }
    ensures seat { (seat.new.table_id ≡ seat.old.table_id) × (seat.new.id ≡ seat.old.id) }
    ensures view { seat.new.me
        ≡ (logged seat.old.me.0 (news G.log seat.old.me.0.was seat.old.me.1), seat.old.me.1) }
    ensures log { IsLog G.may seat.old.me.0.numbers seat.new.me.0.was }
{
    desk.shared.store::<Log<G>>(seat, LENGTH, length);
}

/// Gives the slot back and serves the ticket after this one, which is the holder's, modulo 2^64. Threads that wait are
/// woken.
pub fn hand_on<G: Guarded>(desk: &Desk<G>, seat: &mut Place<G>, ticket: u64)
    requires desk { SitsAt desk.now.shared.table_id seat.old.table_id }
    requires holds { (seat.old.me.0.has_turn ≡ true) × HasTicket seat.old.me.0 ticket }
    requires value { (x : G) × (seat.old.me.1 ≡ (0, Some x) ∷ []) × G.fits x seat.old.me.0.numbers
        × (G.log x ≡ events seat.old.me.0.was) }
    ensures seat { (seat.new.table_id ≡ seat.old.table_id) × (seat.new.id ≡ seat.old.id) }
    ensures view { seat.new.me ≡ (handed_on seat.old.me.0, rest seat.old.me.1) }
{
    let next = ticket.wrapping_add(1);
    desk.shared.store::<HandOn>(seat, SERVED, next);
    if desk.shared.peek(NEXT) != next {
        desk.shared.wake_all(SERVED);
    }
}

/// Puts the value back, logs what is new and hands the turn on.
pub fn leave<G: Guarded>(desk: &Desk<G>, seat: &mut Place<G>, ticket: u64, value: G)
    requires desk { SitsAt desk.now.shared.table_id seat.old.table_id }
    requires holds { (seat.old.me.0.has_turn ≡ true) × (seat.old.me.1 ≡ (0, None) ∷ [])
        × HasTicket seat.old.me.0 ticket }
    requires value { (p : PassState G.Event) × (seat.old.me.0.passes ≡ p ∷ [])
        × MayLeave G.log G.may G.fits seat.old.me p value }
    ensures seat { (seat.new.table_id ≡ seat.old.table_id) × (seat.new.id ≡ seat.old.id) }
    ensures view { seat.new.me ≡ (handed_on (logged_as G.log seat.old.me.0 value), []) }
    ensures log { (G.log value ≡ events (logged_as G.log seat.old.me.0 value).was)
        × IsLog G.may seat.old.me.0.numbers (logged_as G.log seat.old.me.0 value).was }
{
    let length = value.length();
    put_back(desk, seat, value);
    write_log(desk, seat, length);
    hand_on(desk, seat, ticket);
}

/// The first spare number goes to a new seat.
pub fn split<G: Guarded>(desk: &Desk<G>, seat: &mut Place<G>) -> Place<G>
    requires desk { SitsAt desk.now.shared.table_id seat.old.table_id }
    requires spare { (p : PassState G.Event) × (n : ℕ) × (ns : List ℕ)
        × (seat.old.me.0.passes ≡ p ∷ [])
        × (p.spare ≡ n ∷ ns) }
    ensures seat { (seat.new.table_id ≡ seat.old.table_id) × (seat.new.id ≡ seat.old.id)
        × (result.table_id ≡ seat.old.table_id) }
    ensures views { (seat.new.me ≡ (keeper seat.old.me.0, seat.old.me.1))
        × (result.me ≡ (taker seat.old.me.0, [])) }
{
    desk.shared.split_seat::<Give>(seat)
}

/// A new seat that has no pass, and knows the number and the log of this one.
pub fn show<G: Guarded>(desk: &Desk<G>, seat: &mut Place<G>) -> Place<G>
    requires desk { SitsAt desk.now.shared.table_id seat.old.table_id }
    ensures seat { (seat.new.table_id ≡ seat.old.table_id) × (seat.new.id ≡ seat.old.id)
        × (result.table_id ≡ seat.old.table_id) }
    ensures views { (seat.new.me ≡ seat.old.me) × (result.me ≡ (shown seat.old.me.0, [])) }
{
    desk.shared.split_seat::<Show>(seat)
}

/// One seat has the passes of both, its own first.
pub fn gather<G: Guarded>(desk: &Desk<G>, seat: &mut Place<G>, other: Place<G>)
    requires desk { SitsAt desk.now.shared.table_id seat.old.table_id
        × (other.table_id ≡ seat.old.table_id) }
    requires idle { (1 ≤ shares seat.old.me.0) × IsIdle other.me.0 × (other.me.1 ≡ []) }
    ensures seat { (seat.new.table_id ≡ seat.old.table_id) × (seat.new.id ≡ seat.old.id) }
    ensures view { seat.new.me ≡ (gathered seat.old.me.0 other.me.0, seat.old.me.1) }
{
    desk.shared.join_seat::<Gather>(seat, other);
}

/// A table with the value in its slot, and the seat of the pass that has every number. Without memory the value comes
/// back.
pub fn make<G: Guarded>(alloc: Global, value: G, numbers: &[u32]) -> Result<(Desk<G>, Place<G>), G>
    requires value { G.fits value numbers.now × (G.log value ≡ []) }
    requires numbers { (0 < length numbers.now) × (length numbers.now < 4294967295)
        × IsDistinct nat_eq numbers.now }
    ensures ok { IfOk result (λ t. SitsAt t.0.shared.table_id t.1.table_id
        × (t.0.shared.key.items ≡ numbers.now) × (t.1.me ≡ (newcomer numbers.now, []))) }
    ensures err { IfErr result (λ x. x ≡ value) }
{
    let Ok(key) = Vec::from_slice(alloc, numbers) else {
        return Err(value);
    };
    let mut slots = match Vec::with_capacity(alloc, 1) {
        Ok(slots) => slots,
        Err(_) => return Err(value),
    };
    if let Err(failed) = slots.push(Some(value)) {
        let AllocFailed { value } = failed;
        slots.destroy_empty();
        return match value {
            Some(value) => Err(value),
            None => unreachable!(),
        };
    }
    match Table::new(alloc, &[0, 0, 0], slots, &key) {
        Ok(made) => Ok(made),
        Err(refused) => {
            let Refused { mut slots } = refused;
            let value = slots.pop();
            slots.destroy_empty();
            match value {
                Some(Some(value)) => Err(value),
                _ => unreachable!(),
            }
        }
    }
}

/// The value, from a seat that has all passes.
pub fn dissolve<G: Guarded>(desk: Desk<G>, seat: Place<G>) -> G
    requires desk { SitsAt desk.shared.table_id seat.table_id }
    requires all { (shares seat.me.0 ≡ length desk.shared.key.items) × IsIdle seat.me.0 }
    ensures { IsAll G.log G.may G.fits desk.shared.key.items seat.me.0.passes result }
{
    let mut closed = desk.close_with(seat);
    let value = closed.take(0);
    closed.free();
    match value {
        Some(value) => value,
        None => unreachable!(),
    }
}
