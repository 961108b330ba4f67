//! Tests of the tables of facts, of the table of actions, of configurations, of switches, and of texts of ids and
//! seats, through public calls.
//!
//! They stand in a crate of their own, since a crate with tests is proved a second time with them.
#![tactic(auto)]

#[cfg(test)]
mod actions;
#[cfg(test)]
mod confs;
#[cfg(test)]
mod connections;
#[cfg(test)]
mod devices;
#[cfg(test)]
mod hints;
#[cfg(test)]
mod locks;
#[cfg(test)]
mod operations;
#[cfg(test)]
mod seats;
#[cfg(test)]
mod switches;
#[cfg(test)]
mod takes;
#[cfg(test)]
mod texts;
#[cfg(test)]
mod users;
