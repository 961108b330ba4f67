//! Nothing but tests: of clients that are served, over objects in memory and over real sockets.
#![tactic(auto)]

#[cfg(test)]
mod at_the_desk;
#[cfg(test)]
mod handshakes;
#[cfg(test)]
mod in_memory;
#[cfg(test)]
mod over_sockets;
#[cfg(test)]
mod running;
