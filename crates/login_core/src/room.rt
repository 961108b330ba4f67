// The room of events and of the ends of connections: whether the journal is full, what it needs, and the
// copies of texts that are spare for them.

pub mod copies;
pub mod fullness;
pub mod ledger;
pub mod locks;
pub mod ready;
pub mod slots;
pub mod spares;
pub mod texts;
