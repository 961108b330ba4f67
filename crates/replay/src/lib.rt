//! Replaying a recording: its lines are read, its events stepped, and its transcript written.
#![tactic(auto)]

mod ahead;
mod cause;
mod closed;
mod early;
mod law;
mod linking;
mod making;
mod numbered;
mod own;
mod placing;
mod play;
mod player;
mod preamble;
mod replaying;
mod reporting;
mod run;
mod start;
mod telling;
mod writing;

pub use ahead::{MOST_LINES, next_line, read_past};
pub use cause::Cause;
pub use closed::{CLOSED_LINE_ROOM, push_named_end};
pub use early::Early;
pub use law::{
    calls_are_of_bytes, ends_for_good, fault_is_of_an_action, lines_have_turns, one_cause,
    one_recording, one_refusal, one_stop, outs_are_said, recording_plays, spelled_recording,
};
pub use numbered::push_counted;
pub use preamble::{SetupEnd, read_setup};
pub use replaying::{ReplayEnd, replay_all};
pub use reporting::{RefusalLine, StatusLine, report};
