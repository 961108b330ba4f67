//! The configuration: how a file of logind.conf(5) is read.
#![tactic(auto)]

mod cut;
mod diagnostic;
mod key;
mod law;
mod reader;
mod saying;
mod setting;
mod span;
mod value;

pub use diagnostic::{ConfFault, Diagnostic};
pub use law::confs_are_allowed;
pub use reader::read_conf;
