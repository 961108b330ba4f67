//! The policy: how the text of its table is read, and what it says to an action, by who asks.
#![tactic(auto)]

mod fault;
mod policy;
mod reader;

pub use fault::TableFault;
pub use policy::ask;
pub use reader::read_table;
