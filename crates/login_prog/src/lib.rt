//! The top call of the program `login`.
#![tactic(auto)]

mod command;
mod outside;
mod serve;
mod words;

pub use command::run;
pub use outside::Outside;
pub use replay::StatusLine;
