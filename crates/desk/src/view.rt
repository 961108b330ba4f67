// What a seat at the desk's table knows.

use std::collections::LinkedList;

/// An entry with the number of the pass that made it. No value of it is made.
pub struct Numbered<E> {
    pub number: u64,
    pub entry: E,
}

/// Where a seat is in its turn, with its ticket. A seat that was joined into another is spent.
pub enum Stage {
    Spent,
    Idle,
    Waiting(u64),
    Holding(u64),
}

/// A pass that was joined into the first. No value of it is made.
pub struct Joined<E> {
    pub number: u64,
    pub who: u32,
    pub mine: LinkedList<E>,
}

/// What a seat knows: the setup, which a spent seat forgets, the pass's number and connection, what it
/// has seen of the history and what it made itself. Between a join and the look that ends it, what
/// the joined pass had seen is inherited. The last four are the first pass's: the greatest connection
/// that it was split for, how many passes were split from it, how many of these are out, and those
/// that were joined. No value of it is made.
pub struct View<S, E> {
    pub setup: Option<S>,
    pub number: u64,
    pub who: u32,
    pub seen: LinkedList<Numbered<E>>,
    pub mine: LinkedList<E>,
    pub inherited: LinkedList<Numbered<E>>,
    pub stage: Stage,
    pub given: u32,
    pub made: u64,
    pub out: u64,
    pub joined: LinkedList<Joined<E>>,
}
