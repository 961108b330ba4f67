//! Tests of `login_edge` and of `login_real`, through their public calls.
//!
//! They stand in a crate of their own, since a crate with tests is proved a second time with them.
#![tactic(auto)]

#[cfg(test)]
mod clocks;
#[cfg(test)]
mod descriptors;
#[cfg(test)]
mod gates;
#[cfg(test)]
mod links;
#[cfg(test)]
mod listeners;
#[cfg(test)]
mod sockets;
#[cfg(test)]
mod streams;
#[cfg(test)]
mod threads;
