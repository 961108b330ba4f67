//! Tests of the D-Bus crates through their public calls: names, values, messages and handshakes.
//!
//! The expected bytes are those of the D-Bus Specification and of other programs (GLib, jeepney, sd-bus),
//! and none are taken from the crates' own output.
#![tactic(auto)]

#[cfg(test)]
mod handshakes;
#[cfg(test)]
mod messages;
#[cfg(test)]
mod names;
#[cfg(test)]
mod values;
