// What granted events do by themselves.

pub mod activating;
pub mod calls;
pub mod controlling;
pub mod disconnecting;
pub mod ending;
pub mod handles;
pub mod inhibiting;
pub mod leaving;
pub mod performing;
pub mod powering;
pub mod session_calls;
