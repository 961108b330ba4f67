//! The marks of switching seat0 from one virtual terminal to another: of asking for one, acknowledging a pause, giving
//! a device back, and completing the switch; and of taking a session's devices from it by force and giving them back to
//! it, which other seats need as well (org.freedesktop.login1(5), "Seat Objects" and "Session Objects").
#![tactic(auto)]

mod ahead;
mod asking;
mod awaited;
mod calls;
mod forcing;
mod moving;
mod pauses;
mod rounds;
mod setting;

pub use calls::{acknowledge, ask, force, resume, settle, withdraw};
