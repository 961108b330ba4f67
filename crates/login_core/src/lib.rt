//! The core of a login manager: the marks of an event, made one by one.
#![tactic(auto)]

mod answering;
mod board;
mod creating;
mod direct;
mod procedure;
mod room;
mod settling;
mod state;
mod turning;

pub use state::{Core, Refused};
