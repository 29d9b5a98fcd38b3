//! What a seat at the table knows. These types stand in contracts alone: no value of them is made.
use std::collections::LinkedList;

/// One pass: its number, its spare numbers in order, the entries that it has seen, and its own events among them.
pub struct PassState<E> {
    pub number: u32,
    pub spare: LinkedList<u32>,
    pub seen: LinkedList<(u32, E)>,
    pub mine: LinkedList<E>,
}

/// What a seat knows: the turn's list of numbers, the passes that it has, its ticket, whether it has the turn, and with
/// the turn the log. It has one pass while the turn is in use, more once seats were joined, and none where it is spent.
pub struct View<E> {
    pub numbers: LinkedList<u32>,
    pub passes: LinkedList<PassState<E>>,
    pub ticket: Option<u64>,
    pub has_turn: bool,
    pub was: LinkedList<(u32, E)>,
}
