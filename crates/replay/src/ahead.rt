// What comes next of a recording.

ghost use Rattle.std.specs.Prelude.{◌<◌};
ghost use Rattle.recording.specs.Reading.{left_to};
ghost use Rattle.replay.specs.Recording.{most_lines};
ghost use Rattle.replay.specs.Rising.{Rises};
ghost use Rattle.replay.specs.Early.{failed, of_reading};
ghost use Rattle.replay.specs.Ahead.{ReadsLine, EndsPast};
ghost use Rattle.replay.specs.inner.Ahead.{Reads};

use crate::cause::{Cause, cause_of};
use crate::early::Early;
use login_edge::Source;
use recording::{Line, LineReader, Next, read_line};
use std::alloc::Global;

/// A recording has at most so many lines.
pub const MOST_LINES: u32 = 4_000_000_000;

/// What comes next of a recording.
#[derive(Drop)]
pub enum Ahead {
    Line(Line),
    /// A line with a fault of its own.
    Refused(Cause),
    /// Nothing is left.
    End,
}

/// Reads the next line of a recording.
pub fn read_ahead<S: Source>(
    alloc: Global,
    lines: &mut LineReader,
    source: &mut S,
) -> Result<Ahead, Early>
    ensures gives { Reads (left_to lines.old (S.left source.old)) (left_to lines.new (S.left source.new)) (S.left source.new) result }
    ensures cause { Rises (failed of_reading result) (S.faults source.old) (S.faults source.new) }
{
    match lines.next(source) {
        Next::Line => {}
        Next::End => return Ok(Ahead::End),
        Next::ReadFault => return Err(Early::ReadFault),
    }
    match read_line(alloc, lines.line()) {
        Ok(line) => Ok(Ahead::Line(line)),
        Err(fault) => match cause_of(fault) {
            Some(cause) => Ok(Ahead::Refused(cause)),
            None => Err(Early::NoMemory),
        },
    }
}

/// Reads the line that stands behind so many of a recording. It is refused where it is none, or missing.
pub fn next_line<S: Source>(
    alloc: Global,
    lines: &mut LineReader,
    source: &mut S,
    number: u32,
) -> Result<Line, Early>
    requires within { number < most_lines }
    ensures gives { ReadsLine number (left_to lines.old (S.left source.old)) (left_to lines.new (S.left source.new)) (S.left source.new) result }
    ensures cause { Rises (failed of_reading result) (S.faults source.old) (S.faults source.new) }
{
    match read_ahead(alloc, lines, source)? {
        Ahead::Line(line) => Ok(line),
        Ahead::Refused(cause) => Err(Early::Script(number + 1, cause)),
        Ahead::End => Err(Early::Script(number + 1, Cause::Ended)),
    }
}

/// Sees what follows where as many lines were read as there may be and more must come.
pub fn read_past<S: Source>(alloc: Global, lines: &mut LineReader, source: &mut S) -> Early
    ensures gives { EndsPast (left_to lines.old (S.left source.old)) (S.left source.new) result }
    ensures cause { Rises (of_reading result) (S.faults source.old) (S.faults source.new) }
{
    match read_ahead(alloc, lines, source) {
        Ok(Ahead::Line(line)) => {
            drop(line);
            Early::Script(MOST_LINES + 1, Cause::TooLong)
        }
        Ok(Ahead::Refused(_)) => Early::Script(MOST_LINES + 1, Cause::TooLong),
        Ok(Ahead::End) => Early::Script(MOST_LINES + 1, Cause::Ended),
        Err(early) => early,
    }
}
