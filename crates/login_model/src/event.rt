// What happens to the machine.

use crate::call::Call;
use crate::hardware::Hardware;
use login_base::{ConnId, Millis, Uid};

/// A call with its caller.
#[derive(Drop)]
pub struct Request {
    pub who: ConnId,
    /// The caller's number of the call, at least 1.
    pub serial: u32,
    /// Whether no reply is expected.
    pub quiet: bool,
    pub call: Call,
}

/// What one entry of the journal is about.
#[derive(Drop)]
pub enum Event {
    /// A client of this user connects.
    Connect(ConnId, Uid),
    /// A connected client's connection ends.
    Disconnect(ConnId),
    /// A client calls.
    Call(Request),
    /// The machine's hardware does something.
    Hardware(Hardware),
    /// The clock reaches this moment.
    Tick(Millis),
    /// The login manager stops; only disconnects follow.
    Stop,
}
