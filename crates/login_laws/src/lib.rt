//! What holds of every legal journal, as functions that do nothing and ensure it: a switch of sessions
//! revokes devices, no operation runs past a lock, and room is kept for every end.
#![tactic(auto)]

mod law;

pub use law::{
    each_end_fits, each_takes_few, ends_have_shares, ends_share_need, handles_are_left,
    hearing_goes_on, keys_are_kept, legal_is_lawful, legal_is_named, lives_are_few,
    next_handle_is_least_free, one_journal, reads_are_heard, room_is_kept, shares_fit, shares_move,
    withdrawal_is_of_each_awaited,
};
