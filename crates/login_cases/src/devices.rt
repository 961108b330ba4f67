// Devices: how sessions take them, what clients do with their handles, and how they come and go.

pub mod closing;
pub mod denials;
pub mod ending;
pub mod fronts;
pub mod listening;
pub mod many;
pub mod pausing;
pub mod plugging;
pub mod seats;
pub mod switching;
