//! The properties of objects (org.freedesktop.login1(5)): the value of one by its name, and all of an object.
#![tactic(auto)]

mod kind;
mod manager;
mod reading;
mod seat;
mod session;
mod user;
mod values;

pub use reading::{get, get_all};
