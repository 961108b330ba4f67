// The procedures of which events are made.

pub mod closing;
pub mod devices;
pub mod fronting;
pub mod giving_back;
pub mod taking;
pub mod users;
