// The lines of a text, each answered by the table.

ghost use Rattle.std.specs.Prelude.{◌≡◌, ◌≤◌, ◌<◌, length, take, IfOk, ◌++◌};
ghost use Rattle.bus_auth.specs.Cutting.{Open, cut};
ghost use Rattle.bus_auth.specs.Greeting.{turn_of, run};
ghost use Rattle.bus_auth.specs.inner.Outcomes.{greeting_in, IsOpenIn, HasLinesLeft, open_outcome};

use crate::command::read_command;
use crate::line::{first_end, least_length};
use crate::table::{Ending, Stage, Turn, push_reply, row};
use login_base::{Bytes, NoMemory, Uid};
use std::alloc::Global;

/// The longest line, in bytes before its CR LF.
const MOST_BYTES: usize = 512;

/// So many lines are answered at most.
const MOST_LINES: u8 = 64;

/// A handshake between two lines.
#[derive(Clone, Copy)]
pub struct Talk {
    /// What the server waits for.
    pub stage: Stage,
    /// How many lines were answered.
    pub lines: u8,
}

/// How far a handshake is.
#[derive(Clone, Copy)]
pub enum Progress {
    /// The NUL has not come.
    WaitingForNul,
    /// Lines come.
    Talking(Talk),
    /// The client began to send messages.
    Begun,
    /// It ended with no connection.
    Ended(Ending),
}

/// Where the lines of a text ended.
#[derive(Drop)]
pub(crate) enum Outcome {
    /// A line is open, behind so many bytes of whole lines.
    Talking(Talk, usize),
    /// The client began, with these bytes behind its BEGIN.
    Begun(Bytes),
    Ended(Ending),
}

/// What the lines of a text led to.
#[derive(Drop)]
pub(crate) struct Heard {
    pub replies: Bytes,
    pub outcome: Outcome,
}

/// What a whole line leads to.
#[tactic(auto, unfolding(crate::specs::Greeting::turn_of))]
fn take_line(uid: Uid, talk: Talk, line: &[u8]) -> Turn
    ensures turn { result ≡ turn_of uid talk line.now }
    ensures room { HasLinesLeft result talk.lines }
{
    if line.len() > MOST_BYTES {
        Turn::End(Ending::LineTooLong)
    } else if talk.lines >= MOST_LINES {
        Turn::End(Ending::TooManyLines)
    } else {
        row(talk.stage, read_command(uid, line))
    }
}

/// Answers the lines of a text, in whose first `seen` bytes no line ends.
pub(crate) fn hear_lines(
    alloc: Global,
    uid: Uid,
    guid: &[u8],
    talk: Talk,
    text: &[u8],
    seen: usize,
) -> Result<Heard, NoMemory>
    requires within { seen ≤ length text.now }
    requires seen { cut (take seen text.now) ≡ Open (take seen text.now) }
    ensures heard { IfOk result (λ heard. greeting_in text.now heard ≡ run uid guid.now talk (cut text.now)) }
    ensures line { IfOk result (λ heard. IsOpenIn text.now heard.outcome) }
{
    let mut replies = Vec::new(alloc);
    let mut talk = talk;
    let mut taken = 0;
    let mut seen = seen;
    while let Some(end) = first_end(&text[taken..], seen) {
        let line = &text[taken..taken + end];
        taken += end + 2;
        seen = 0;
        match take_line(uid, talk, line) {
            Turn::Answer(reply, stage) => {
                push_reply(&mut replies, guid, reply)?;
                talk = Talk {
                    stage,
                    lines: talk.lines + 1,
                };
            }
            Turn::Begin => {
                let rest = Vec::from_slice(alloc, &text[taken..])?;
                return Ok(Heard {
                    replies: Bytes::from_vec(replies),
                    outcome: Outcome::Begun(Bytes::from_vec(rest)),
                });
            }
            Turn::End(ending) => {
                return Ok(Heard {
                    replies: Bytes::from_vec(replies),
                    outcome: Outcome::Ended(ending),
                });
            }
        }
    }
    let outcome = open_line(talk, taken, &text[taken..]);
    Ok(Heard {
        replies: Bytes::from_vec(replies),
        outcome,
    })
}

/// How far a handshake is at a line that is open, behind so many bytes.
fn open_line(talk: Talk, taken: usize, line: &[u8]) -> Outcome
    ensures { result ≡ open_outcome talk taken line.now }
{
    if least_length(line) > MOST_BYTES {
        Outcome::Ended(Ending::LineTooLong)
    } else {
        Outcome::Talking(talk, taken)
    }
}
