//! Tests of parts of the program, through their public calls: of the desk; of the lines of recordings and transcripts,
//! how they are cut, read and printed; and of messages as calls. What whole runs show is in `login_rows`.
//!
//! They stand in a crate of their own, since a crate with tests is proved a second time with them, and in one, since
//! each check reads the libraries below anew. The expected bytes are written by hand from docs/PROFILE.md, or are those
//! of other D-Bus libraries and programs.
#![tactic(auto)]

#[cfg(test)]
mod answers;
#[cfg(test)]
mod calls;
#[cfg(test)]
mod causes;
#[cfg(test)]
mod clients;
#[cfg(test)]
mod counts;
#[cfg(test)]
mod crowd;
#[cfg(test)]
mod cutting;
#[cfg(test)]
mod entries;
#[cfg(test)]
mod glib;
#[cfg(test)]
mod links;
#[cfg(test)]
mod reading;
#[cfg(test)]
mod rules;
