// The table of the handshake.

ghost use Rattle.std.specs.Prelude.{◌≡◌, ◌++◌, OnOk};
ghost use Rattle.bus_auth.specs.Table.{row, reply_text};

use crate::command::{Command, Response};
use login_base::NoMemory;

/// What the server waits for ("Authentication state diagrams").
#[derive(Clone, Copy)]
pub enum Stage {
    WaitingForAuth,
    WaitingForData,
    WaitingForBegin,
}

/// What the server replies to a line.
#[derive(Clone, Copy)]
pub enum Reply {
    Accepted,
    Challenge,
    Rejected,
    Unknown,
}

/// Why a handshake ended with no connection.
#[derive(Clone, Copy, Debug, PartialEq, Eq)]
pub enum Ending {
    /// The first byte is not NUL.
    NoNul,
    /// BEGIN came before a client was accepted.
    EarlyBegin,
    /// A line has more than 512 bytes before its CR LF.
    LineTooLong,
    /// There was a line after 64 others.
    TooManyLines,
}

/// What a line leads to.
#[derive(Clone, Copy)]
pub enum Turn {
    Answer(Reply, Stage),
    Begin,
    End(Ending),
}

/// The client is the user.
fn accept() -> Turn
    ensures { result ≡ Turn.Answer Reply.Accepted Stage.WaitingForBegin }
{
    Turn::Answer(Reply::Accepted, Stage::WaitingForBegin)
}

/// The client is to say who it is, or nothing.
fn challenge() -> Turn
    ensures { result ≡ Turn.Answer Reply.Challenge Stage.WaitingForData }
{
    Turn::Answer(Reply::Challenge, Stage::WaitingForData)
}

/// The client is to begin anew.
fn reject() -> Turn
    ensures { result ≡ Turn.Answer Reply.Rejected Stage.WaitingForAuth }
{
    Turn::Answer(Reply::Rejected, Stage::WaitingForAuth)
}

/// The row of the table for a command.
pub(crate) fn row(stage: Stage, command: Command) -> Turn
    ensures { result ≡ row stage command }
{
    use Stage::{WaitingForAuth, WaitingForBegin, WaitingForData};
    match (stage, command) {
        (WaitingForAuth, Command::Auth(Response::Identity)) => accept(),
        (WaitingForAuth, Command::Auth(Response::Empty)) => challenge(),
        (WaitingForAuth, Command::Auth(Response::Other) | Command::Error) => reject(),
        (WaitingForAuth, Command::Begin) => Turn::End(Ending::EarlyBegin),
        (WaitingForData, Command::Data(Response::Empty | Response::Identity)) => accept(),
        (WaitingForData, Command::Data(Response::Other)) => reject(),
        (WaitingForData, Command::Cancel | Command::Error) => reject(),
        (WaitingForData, Command::Begin) => Turn::End(Ending::EarlyBegin),
        (WaitingForBegin, Command::Begin) => Turn::Begin,
        (WaitingForBegin, Command::Cancel | Command::Error) => reject(),
        (_, _) => Turn::Answer(Reply::Unknown, stage),
    }
}

/// Puts a reply's line at the end of others.
pub(crate) fn push_reply(replies: &mut Vec<u8>, guid: &[u8], reply: Reply) -> Result<(), NoMemory>
    ensures { OnOk result (replies.new.items ≡ replies.old.items ++ reply_text guid.now reply) }
{
    match reply {
        Reply::Accepted => {
            replies.extend_from_slice(b"OK ")?;
            replies.extend_from_slice(guid)?;
            replies.extend_from_slice(b"\r\n")?;
        }
        Reply::Challenge => replies.extend_from_slice(b"DATA\r\n")?,
        Reply::Rejected => replies.extend_from_slice(b"REJECTED EXTERNAL\r\n")?,
        Reply::Unknown => replies.extend_from_slice(b"ERROR\r\n")?,
    }
    Ok(())
}
