// What may hold back the calls of a link.

ghost use Rattle.std.specs.Prelude.{◌≡◌};

use login_base::ConnId;

/// Whether a call may go on.
#[derive(Clone, Copy, PartialEq, Eq)]
pub enum Leave {
    /// The call may be made.
    Go,
    /// The call is to wait, and to ask again.
    Hold,
}

/// What may hold back the calls of a link. It is shared by the threads that serve links.
pub trait Gate {
    /// Whether the n-th call of a link may be made, from 1. It is asked before the call, until it lets go.
    fn pass(&self, who: ConnId, n: u32) -> Leave;

    /// Says that the n-th call of a link was answered.
    fn answered(&self, who: ConnId, n: u32);

    /// Says that links may have mail, or may see the stop: an entry was made that tells something. Where links wait for
    /// what comes, it ends their waits. It takes no memory.
    fn wake(&self);
}

/// A gate that lets every call go.
#[derive(Clone, Copy, Drop)]
pub struct OpenGate;

impl OpenGate {
    /// The gate. It takes no memory.
    pub fn new() -> OpenGate {
        OpenGate
    }
}

impl Gate for OpenGate {
    fn pass(&self, _who: ConnId, _n: u32) -> Leave
        ensures go { result ≡ Leave.Go }
    {
        Leave::Go
    }

    fn answered(&self, _who: ConnId, _n: u32) {}

    fn wake(&self) {}
}
