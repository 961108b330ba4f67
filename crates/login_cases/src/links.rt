// What comes in by links and what goes out. The modules say which program wrote the bytes.

mod clients;
pub mod crowd;
mod ends;
pub mod full;
mod machine;
mod manager;
mod objects;
mod operations;
pub mod pieces;
pub mod places;
mod turns;

use crate::Case;

/// The first messages of clients.
pub const FIRST_MESSAGES: Case = Case {
    name: "first messages of clients",
    pieces: clients::CLIENTS,
};

/// Links that do not begin.
pub const NOT_BEGUN: Case = Case {
    name: "links that do not begin",
    pieces: ends::HANDSHAKES,
};

/// Links that are malformed.
pub const MALFORMED: Case = Case {
    name: "links that are malformed",
    pieces: ends::MALFORMED,
};

/// Links that end in a message.
pub const CUT_OFF: Case = Case {
    name: "links that end in a message",
    pieces: ends::CUT_OFF,
};

/// Devices, and what is told of them.
pub const DEVICES: Case = Case {
    name: "devices and what is told",
    pieces: machine::DEVICES,
};

/// Calls of the manager.
pub const MANAGER_CALLS: Case = Case {
    name: "calls of the manager",
    pieces: manager::CALLS,
};

/// Calls that the manager refuses.
pub const MANAGER_REFUSALS: Case = Case {
    name: "refusals of the manager",
    pieces: manager::REFUSED,
};

/// Calls of sessions, users and seats.
pub const OBJECT_CALLS: Case = Case {
    name: "calls of objects",
    pieces: objects::CALLS,
};

/// Operations, and what is told of them.
pub const OPERATIONS: Case = Case {
    name: "operations and what is told",
    pieces: operations::OPERATIONS,
};

/// Links in turn.
pub const TURNS: Case = Case {
    name: "links in turn",
    pieces: turns::TURNS,
};
