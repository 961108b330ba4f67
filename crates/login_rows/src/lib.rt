//! Tests that cross crates: whole runs of `login`, over a source and sinks in memory, and calls of the core, of the
//! judge, of offices and of mail that runs do not show.
//!
//! The texts of the cases are those of `login_cases`.
#![tactic(auto)]

#[cfg(test)]
mod core_calls;
#[cfg(test)]
mod devices;
#[cfg(test)]
mod faults;
#[cfg(test)]
mod limits;
#[cfg(test)]
mod lines;
#[cfg(test)]
mod links;
#[cfg(test)]
mod mail;
#[cfg(test)]
mod messages;
#[cfg(test)]
mod offices;
#[cfg(test)]
mod one_by_one;
#[cfg(test)]
mod playing;
#[cfg(test)]
mod power;
#[cfg(test)]
mod properties;
#[cfg(test)]
mod running;
#[cfg(test)]
mod runs;
#[cfg(test)]
mod turns;
