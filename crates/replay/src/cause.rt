// Why a line of a recording is refused.

ghost use Rattle.std.specs.Prelude.{◌≡◌};
ghost use Rattle.replay.specs.Causes.{cause_word};
ghost use Rattle.replay.specs.inner.Causes.{MeansFault};

use recording::LineFault;

/// Why a line of a recording is refused.
#[derive(Clone, Copy, Debug, PartialEq, Eq)]
pub enum Cause {
    /// A word is none of a fixed set.
    UnknownWord,
    /// A word is no number within its type, or a 0 that may not be.
    BadNumber,
    /// A word is no text, or no bytes in hex.
    BadHex,
    /// The line ends where a word must stand.
    MissingWord,
    /// A word stands behind the last one.
    ExtraWord,
    /// There are more than 16384 bytes before the line feed, or more than 4000000000 lines.
    TooLong,
    /// The line may not stand there.
    WrongPlace,
    /// A word is no name of a seat, or a name or an id that is too long.
    BadName,
    /// The line of the table of actions is the first at fault.
    BadAction,
    /// There is no line feed, or no line where one must be.
    Ended,
}

impl Cause {
    /// The word that is printed for the cause.
    pub fn word(self) -> &'static [u8]
        ensures { result.now ≡ cause_word self }
    {
        match self {
            Cause::UnknownWord => b"unknown-word",
            Cause::BadNumber => b"bad-number",
            Cause::BadHex => b"bad-hex",
            Cause::MissingWord => b"missing-word",
            Cause::ExtraWord => b"extra-word",
            Cause::TooLong => b"too-long",
            Cause::WrongPlace => b"wrong-place",
            Cause::BadName => b"bad-name",
            Cause::BadAction => b"bad-action",
            Cause::Ended => b"ended",
        }
    }
}

/// The cause of a line that is not read, where it is not want of memory.
pub fn cause_of(fault: LineFault) -> Option<Cause>
    ensures { MeansFault fault result }
{
    match fault {
        LineFault::UnknownWord => Some(Cause::UnknownWord),
        LineFault::BadNumber => Some(Cause::BadNumber),
        LineFault::BadHex => Some(Cause::BadHex),
        LineFault::MissingWord => Some(Cause::MissingWord),
        LineFault::ExtraWord => Some(Cause::ExtraWord),
        LineFault::TooLong => Some(Cause::TooLong),
        LineFault::BadName => Some(Cause::BadName),
        LineFault::Ended => Some(Cause::Ended),
        LineFault::NoMemory => None,
    }
}
