//! The links of a login manager: what each has said and is owed, and the core with all of them.
#![tactic(auto)]

mod end;
mod law;
mod office;
mod teller;

pub use end::{LinkEnd, Unbegun};
pub use law::{all_mail, ended_for_good, in_any_pieces};
pub use office::Office;
pub use teller::{HeardPiece, Teller};
