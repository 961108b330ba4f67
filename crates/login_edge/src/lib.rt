//! The outside of the program: sources, sinks, links, listeners, clocks and spawners, which count their faults, gates,
//! and those in memory.
#![tactic(auto)]

mod bell;
mod clock;
mod gate;
mod held_source;
mod hold_gate;
mod link;
mod listener;
mod mem_clock;
mod mem_link;
mod mem_listener;
mod mem_spawner;
mod memory;
mod saying;
mod script;
mod spawner;
mod talk;
mod writing;

ghost use Rattle.std.specs.Prelude.{◌<◌, ℕ, List, length, Option};
ghost use Rattle.login_edge.specs.Edge.{ReadGives, ReadCause, ReadFalls, WriteGives, WriteCause};

pub use bell::Bell;
pub use clock::{Clock, Reading};
pub use gate::{Gate, Leave, OpenGate};
pub use held_source::{HeldSource, Hold};
pub use hold_gate::HoldGate;
pub use link::{Heard, Link};
pub use listener::{Accepted, Listener, Opened};
pub use mem_clock::MemClock;
pub use mem_link::MemLink;
pub use mem_listener::{Arrival, MemListener};
pub use mem_spawner::MemSpawner;
pub use memory::{MemSink, MemSource};
pub use saying::say_all;
pub use script::Turn;
pub use spawner::{Job, Spawner, Started};
pub use talk::Mark;
pub use writing::{WriteEnd, write_all};

/// What a read answers.
#[derive(Clone, Copy, PartialEq, Eq)]
pub enum Got {
    /// So many bytes, at least one, stand at the front of the buffer.
    Bytes(usize),
    /// Nothing is left to read.
    End,
    /// Nothing was read, and the count of faults rose.
    Failed,
}

/// What a write answers.
#[derive(Clone, Copy, PartialEq, Eq)]
pub enum Took {
    /// So many bytes of the front of the piece, at least one, were taken.
    Bytes(usize),
    /// Nothing was taken, and the count of faults rose.
    Failed,
}

/// Bytes that come in, in order.
///
/// A source has a count of faults of 64 bits that never falls. A count that stands at its last value
/// is taken as one that rose. What is left to read is told by sources in memory alone.
pub trait Source {
    /// The bytes that are left to read, where the source tells them.
    ghost left: { Self → Option (List ℕ) };
    /// How many calls failed.
    ghost faults: { Self → ℕ };
    /// At most so many bytes still come.
    ghost remaining: { Self → ℕ };

    /// Puts bytes that come next into the front of the buffer. It takes no memory.
    fn read(&mut self, buf: &mut [u8]) -> Got
        requires { 0 < length buf.old }
        ensures gives { ReadGives (left self.old) (left self.new) result buf.new }
        ensures cause { ReadCause (faults self.old) (faults self.new) result }
        ensures falls { ReadFalls (remaining self.old) (remaining self.new) result };
}

/// A place that bytes are written to, in order.
///
/// A sink has a count of faults of 64 bits that never falls. A count that stands at its last value
/// is taken as one that rose. What was written is told by sinks in memory alone.
pub trait Sink {
    /// The bytes that were taken, where the sink tells them.
    ghost held: { Self → Option (List ℕ) };
    /// How many calls failed.
    ghost faults: { Self → ℕ };

    /// Takes bytes of the front of the piece. To take none is a fault. It takes no memory.
    fn write(&mut self, piece: &[u8]) -> Took
        requires { 0 < length piece.now }
        ensures gives { WriteGives (held self.old) (held self.new) result piece.now }
        ensures cause { WriteCause (faults self.old) (faults self.new) result };
}
