//! The facts that marks leave, in their tables; how many there are of what is counted, who has what, and what
//! each connection's end makes.
#![tactic(auto)]

mod counts;
mod facts;
mod hearing;
mod holding;
mod holdings;
mod key_room;
mod owing;
mod row;
mod sums;

pub use counts::Counts;
pub use facts::Facts;
pub use holding::{FIFOS, Holding, LOCKS, SESSIONS, Thing, first_thing, number_of, session_of};
pub use key_room::{KeyRoom, with_more};
