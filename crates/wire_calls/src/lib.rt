//! Messages of the D-Bus Specification ("Message Protocol") as calls of org.freedesktop.login1(5): which call a message
//! is, and the message that a call is sent as.
#![tactic(auto)]

mod arguments;
mod bus;
mod law;
mod machine;
mod manager;
mod method;
mod object;
mod reading;
mod seat;
mod session;
mod user;
mod writing;

pub use law::{one_path, requests_may_stand};
pub use reading::{call_of, request_of};
pub use writing::message_of;
