//! The server's side of the handshake of the D-Bus Specification ("Authentication Protocol"), with the
//! one mechanism EXTERNAL.
#![tactic(auto)]

mod auth;
mod command;
mod hearing;
mod law;
mod line;
mod step;
mod table;

pub use auth::Auth;
pub use law::{ended_for_good, in_any_pieces, least_length, lines_of_text};
pub use step::{AuthState, AuthStep};
pub use table::Ending;
