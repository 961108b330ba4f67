//! Names of each kind in order, what is found by going over them, and tables of facts.
#![tactic(auto)]

mod active;
mod home;
mod key_order;
mod listed;
mod locks;
mod name;
mod ordered;
mod places;
mod rows;
mod search;
mod table;

pub use active::{active_on, current_vt, is_active, is_on_seat, seat_of_session, session_on};
pub use home::Home;
pub use key_order::{
    CONNECTIONS, DEVICES, HINTS, LIVES, LOCKS, OWNERS, SEATS, SESSIONS, TAKES, USERS, rank_of,
};
pub use listed::{Listed, are_taken_at_least, list};
pub use locks::{key_lock, matching_lock};
pub use name::{Name, Order, is_above, is_lower};
pub use rows::Rows;
pub use search::{
    IsGraphicsOn, IsOpen, OfUser, OnSeat, Test, find_all, find_first, find_session, find_sessions,
};
pub use table::Table;
