// How a link ends.

use bus_auth::Ending;
use bus_message::Malformed;
use login_model::Fullness;

/// Why a link has not begun.
#[derive(Clone, Copy, Debug, PartialEq, Eq)]
pub enum Unbegun {
    /// The handshake ended with no connection.
    Refused(Ending),
    /// The client hung up before its BEGIN.
    HungUp,
}

/// How a link ended.
#[derive(Clone, Copy, Debug, PartialEq, Eq)]
pub enum LinkEnd {
    /// The client hung up.
    Closed,
    /// It has not begun.
    NotBegun(Unbegun),
    /// A message of the client is none.
    Malformed(Malformed),
    ReadFault,
    WriteFault,
    NoMemory,
    /// The journal was full for its connect or for a call.
    Full(Fullness),
    /// The entry with this number is the stop.
    Stopped(u32),
    /// There were as many connections as there may be.
    TooMany,
}
