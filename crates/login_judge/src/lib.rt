//! What the policy says to an event: the first rule that it breaks, by the facts and the setup.
#![tactic(auto)]

mod devices;
mod fits;
mod keys;
mod locks;
mod operations;
mod others;
mod owners;
mod places;
mod properties;
mod session_calls;
mod standing;
mod verdict;

pub use operations::can;
pub use standing::{meant_user, uid_of};
pub use verdict::judge;
