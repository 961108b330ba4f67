// Inhibitor locks, operations on the machine, and the keys that ask for them.

pub mod asking;
pub mod evening;
mod fronts;
pub mod keys;
pub mod kinds;
pub mod locks;
pub mod set_keys;
pub mod shutdown;
pub mod waiting;
