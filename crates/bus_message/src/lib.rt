//! Messages of the D-Bus Specification ("Message Protocol"): how they are cut from a stream that comes in
//! any pieces, and how they are written.
#![tactic(auto)]

mod bodies;
mod checks;
mod cutter;
mod cutting;
mod encoding;
mod fault;
mod fields;
mod header;
mod law;
mod message;
mod names;
mod reading;

pub use bodies::{alone, flag, joined, number, numbered};
pub use cutter::{Cut, Cutter};
pub use encoding::encode;
pub use fault::{Malformed, MessageFault};
pub use law::{
    cut_is_front, in_any_pieces, malformed_for_good, message_is_cut, no_continuation, one_cut,
    one_message, prefix_free,
};
pub use message::Message;
pub use names::{made_bus_name, made_interface, made_member, made_path};
