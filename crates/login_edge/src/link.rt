// Connections to clients.

ghost use Rattle.std.specs.Prelude.{◌≡◌, ◌<◌, ℕ, List, length, Option};
ghost use Rattle.login_edge.specs.Exchanges.{Exchange};
ghost use Rattle.login_edge.specs.Hearing.{HearTells, HearGives, HearCause, SayTells};
ghost use Rattle.login_edge.specs.Edge.{WriteCause};

use crate::Took;

/// What a read of a link answers.
#[derive(Clone, Copy, PartialEq, Eq)]
pub enum Heard {
    /// So many bytes, at least one, stand at the front of the buffer.
    Bytes(usize),
    /// Nothing was ready.
    Quiet,
    /// Nothing is left to come.
    End,
    /// Nothing was read, and the count of faults rose.
    Failed,
}

/// A connection to a client, in both directions.
///
/// A link has a count of faults of 64 bits that never falls. A count that stands at its last value
/// is taken as one that rose. Its talk, and what is left to come, are told by links in memory alone.
pub trait Link: Drop {
    /// The number that its listener gave it. Its calls keep it.
    ghost number: { Self → ℕ };
    /// What was heard and said, in order, where the link tells it.
    ghost talk: { Self → Option (List Exchange) };
    /// The bytes that are left to come, where the link tells them.
    ghost left: { Self → Option (List ℕ) };
    /// How many calls failed.
    ghost faults: { Self → ℕ };

    /// Puts bytes that come next into the front of the buffer. It takes no memory.
    fn read(&mut self, buf: &mut [u8]) -> Heard
        requires { 0 < length buf.old }
        ensures tells { HearTells (talk self.old) (talk self.new) result buf.new }
        ensures gives { HearGives (left self.old) (left self.new) result buf.new }
        ensures cause { HearCause (faults self.old) (faults self.new) result }
        ensures number { number self.new ≡ number self.old };

    /// Takes bytes of the front of the piece. To take none is a fault. It takes no memory.
    fn write(&mut self, piece: &[u8]) -> Took
        requires { 0 < length piece.now }
        ensures tells { SayTells (talk self.old) (talk self.new) result piece.now }
        ensures left { left self.new ≡ left self.old }
        ensures cause { WriteCause (faults self.old) (faults self.new) result }
        ensures number { number self.new ≡ number self.old };
}
