// How sessions are created.

pub mod created;
pub mod making;
