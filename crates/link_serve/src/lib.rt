//! Serving a link: a client's calls are stepped by turns at the desk of the core, and it is written its replies and
//! signals.
#![tactic(auto)]

mod acts;
mod core_at_desk;
mod law;
mod serving;
mod stepping;

pub use core_at_desk::{CoreAtDesk, DeskOfCore, PassOfCore};
pub use law::serving_goes_on;
pub use serving::serve_link;
pub use stepping::{look_for_stop, step_event, stop};
