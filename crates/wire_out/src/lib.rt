//! The mail of a connection: the replies to its calls and the signals to it, by the journal, as messages of the D-Bus
//! Specification ("Message Protocol") and their bytes.
#![tactic(auto)]

mod cursor;
mod delivery;
mod errors;
mod law;
mod messages;
mod paths;
mod replies;
mod signals;
mod values;

pub use cursor::{Cursor, out_of};
pub use law::{mail_goes_on, no_mail_apart, place_goes_on, wire_goes_on};
