//! A value with one journal, which threads take turns at.
//!
//! A desk keeps the value in a slot of an `atomic_table`, with a word that counts tickets and one that
//! counts those served. A pass is what a thread has of it. Seven kinds of atomic step are made on the
//! table, and no other: draw a ticket, look at the serving word, take the slot, give it back, publish
//! with one entry or none, split a seat, join a seat.
//!
//! Threads that wait sleep at a lock of std before they draw a ticket, in its order; one that has drawn a
//! ticket is served at once. That a thread's turn comes is not promised.
#![tactic(auto)]

mod act;
mod counting;
mod desk;
mod journaled;
mod law;
mod pass;
mod rule;
mod steps;
mod view;

pub use act::Act;
pub use counting::{CountOn, CountUp, Counted, Counter, HowMany, count_apart, count_to};
pub use desk::Desk;
pub use journaled::Journaled;
pub use law::same_entries;
pub use pass::Pass;
pub use view::{Joined, Numbered, Stage, View};
