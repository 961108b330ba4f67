//! The outside of the program for real: what std reads and writes, as sources and sinks; Unix sockets as a listener and
//! its links, with what wakes them; the machine's clock, and its threads.
#![tactic(auto)]

mod clock;
mod folder;
mod link;
mod listener;
mod reader;
mod sockets;
mod spawner;
mod waker;
mod writer;

pub use clock::MonotonicClock;
pub use link::SocketLink;
pub use listener::SocketListener;
pub use reader::ReaderSource;
pub use spawner::ThreadSpawner;
pub use waker::{LinkWaker, WakingGate};
pub use writer::WriterSink;
