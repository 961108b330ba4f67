//! Recordings and transcripts: how their lines are read from a source, spelled, read and printed.
#![tactic(auto)]

mod answer_text;
mod argument;
mod call;
mod due;
mod entry;
mod event;
mod event_text;
mod fact_text;
mod key_text;
mod law;
mod line;
mod line_reader;
mod line_text;
mod mark_text;
mod meaning;
mod notice_text;
mod recorded;
mod verdict_text;
mod word;

pub use due::write_out;
pub use entry::{WriteEnd, entry_text, write_entry};
pub use law::{one_grammar, spelled_again};
pub use line::{Line, LineFault, read_line};
pub use line_reader::{LineReader, Next};
pub use line_text::LineText;
pub use recorded::write_recording;
