//! Names, labels and signatures of the D-Bus Specification ("Valid Object Paths", "Valid Names",
//! "Type System").
#![tactic(auto)]

mod basic;
mod fault;
mod frames;
mod grammar;
mod name;
mod parse;
mod signature;
mod types;
mod unescape;

pub use basic::Basic;
pub use fault::NameFault;
pub use name::{BusName, Interface, Member, ObjectPath};
pub use signature::Signature;
pub use types::{Kind, Type};
pub use unescape::{escape_label, unescape_label};
