// The lines of the ends of the program on the errors. No other file spells them.

ghost use Rattle.std.specs.Prelude.{◌≡◌, ◌<◌, ◌≤◌, ◌++◌, [], length, vec_len, vec_capacity};
ghost use Rattle.std.specs.Fmt.{decimal};
ghost use Rattle.replay.specs.Reporting.{Reported, status_line, refusal, full_line, error_line};

use crate::cause::Cause;
use crate::numbered::push_text;
use login_base::push_decimal;
use login_edge::{Sink, write_all};
use login_model::Fullness;
use std::alloc::{AllocError, Global};

/// A line that is the same whenever it is said.
#[derive(Clone, Copy, PartialEq, Eq)]
pub enum StatusLine {
    /// The words of the command line are no command.
    Usage,
    /// The input failed.
    ReadFault,
    /// The output failed.
    WriteFault,
    /// There was no memory.
    NoMemory,
    /// The listener or the clock failed.
    ListenerOrClockFault,
    /// A thread could not be started.
    SpawnFault,
}

impl StatusLine {
    /// The text of the line.
    pub fn text(self) -> &'static [u8]
        ensures { result.now ≡ status_line self }
    {
        match self {
            StatusLine::Usage => {
                b"usage: login replay or login serve --dir DIR or login load N\n"
            }
            StatusLine::ReadFault => b"read fault\n",
            StatusLine::WriteFault => b"write fault\n",
            StatusLine::NoMemory => b"no memory\n",
            StatusLine::ListenerOrClockFault => b"listener or clock fault\n",
            StatusLine::SpawnFault => b"spawn fault\n",
        }
    }
}

/// The line of a refused line, or of a full journal. Its memory is taken before it is needed.
#[derive(Drop)]
pub struct RefusalLine {
    text: Vec<u8>,
    ghost empty: { text.items ≡ [] },
    ghost unused: { vec_len text ≡ 0 },
    ghost room: { 40 ≤ vec_capacity text },
}

impl RefusalLine {
    /// Room for the line of a refusal.
    pub fn new(alloc: Global) -> Result<RefusalLine, AllocError> {
        let text = Vec::with_capacity(alloc, 40)?;
        Ok(RefusalLine { text })
    }

    /// The line that refuses the line with this number for this cause, without memory.
    pub fn of(self, line: u32, cause: Cause) -> Vec<u8>
        ensures { result.items ≡ refusal line cause }
    {
        let RefusalLine { mut text } = self;
        push_text(&mut text, b"line ");
        push_decimal(&mut text, line as u64);
        push_text(&mut text, b": ");
        push_text(&mut text, cause.word());
        push_text(&mut text, b"\n");
        text
    }

    /// The line of a full journal, without memory.
    pub fn full(self, count: Fullness) -> Vec<u8>
        ensures { result.items ≡ full_line count }
    {
        match count {
            Fullness::Entries(number) => self.counted(b"full entries ", number),
            Fullness::Marks(number) => self.counted(b"full marks ", number),
        }
    }

    /// A line of a word or two and a number, without memory.
    fn counted(self, words: &[u8], number: u64) -> Vec<u8>
        requires { length words.now ≤ 13 }
        ensures { result.items ≡ words.now ++ error_line (decimal number) }
    {
        let RefusalLine { mut text } = self;
        push_text(&mut text, words);
        push_decimal(&mut text, number);
        push_text(&mut text, b"\n");
        text
    }
}

/// Writes a line of the errors. Where that fails, what the line says holds all the same.
pub fn report<E: Sink>(errors: &mut E, text: &[u8])
    ensures { Reported (E.held errors.old) (E.held errors.new) (E.faults errors.old) (E.faults errors.new) text.now }
{
    let _ = write_all(errors, text);
}
