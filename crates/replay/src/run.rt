// A recording is played behind its preamble, and its transcript written.

ghost use Rattle.std.specs.Prelude.{ℕ, List, Option, ◌≤◌, ◌≡◌, ◌+◌, ◌<◌, [], false, length, IfOk, OnOk};
ghost use Rattle.recording.specs.Lines.{IsLine};
ghost use Rattle.recording.specs.Reading.{left_to};
ghost use Rattle.replay.specs.Front.{going, ended};
ghost use Rattle.replay.specs.Preamble.{WasSetUp};
ghost use Rattle.replay.specs.Recording.{most_lines};
ghost use Rattle.replay.specs.Rising.{Rises};
ghost use Rattle.replay.specs.Transcript.{transcript_end, start_of};
ghost use Rattle.replay.specs.inner.Behind.{is_end};
ghost use Rattle.replay.specs.Early.{failed, of_reading};
ghost use Rattle.replay.specs.inner.Early.{of_writing};
ghost use Rattle.replay.specs.inner.Player.{Stands, StandsBehind};
ghost use Rattle.replay.specs.inner.Running.{RunGives, GoesOn};
ghost use Rattle.replay.specs.inner.Turns.{TakesTurn, Turns};
ghost use Rattle.replay.specs.inner.Writing.{Writes};

use crate::ahead::{Ahead, MOST_LINES, next_line, read_ahead, read_past};
use crate::cause::Cause;
use crate::early::Early;
use crate::numbered::end_numbered;
use crate::placing::may_come;
use crate::play::play_line;
use crate::player::Player;
use crate::start::start_text;
use crate::writing::write_text;
use login_base::{Items, NoMemory};
use login_conf::Diagnostic;
use login_edge::{Sink, Source};
use recording::{Line, LineReader};
use std::alloc::Global;

/// The cause of a line behind so many, of which this is its own: behind the most it is too long a
/// recording.
fn cause_behind(lines: u32, own: Cause) -> Cause
    ensures within { lines < most_lines → result ≡ own }
    ensures past { lines ≡ most_lines → result ≡ Cause.TooLong }
{
    if lines == MOST_LINES {
        Cause::TooLong
    } else {
        own
    }
}

/// The last line of a transcript, after so many entries.
fn transcript_end(alloc: Global, count: usize) -> Result<Vec<u8>, NoMemory>
    ensures { IfOk result (λ text. text.items ≡ transcript_end count) }
{
    let mut text = Vec::new(alloc);
    end_numbered(&mut text, b"end ", count as u64)?;
    Ok(text)
}

/// Whether a line ends a recording.
fn is_end(line: &Line) -> bool
    ensures { result ≡ is_end line.now }
{
    matches!(line, Line::End)
}

/// What became of a line behind `go`.
#[derive(Clone, Copy)]
enum Turn {
    /// It was played, and a further line may come.
    Next,
    /// It is the line `end`.
    Closed,
}

/// A recording that is played: what was read and played of it so far. The source that it comes from and
/// the sink that its transcript goes to are lent to each call.
#[derive(Drop)]
pub struct Run {
    alloc: Global,
    lines: LineReader,
    /// How many lines were read.
    number: u32,
    player: Player,
}

impl Run {
    /// A run behind `go`, through which so many lines were read.
    pub fn new(alloc: Global, lines: LineReader, number: u32, player: Player) -> Run
        ensures lines { result.lines ≡ lines }
        ensures number { result.number ≡ number }
        ensures player { result.player ≡ player }
    {
        Run {
            alloc,
            lines,
            number,
            player,
        }
    }

    /// Writes the last line of the transcript.
    fn write_end<K: Sink>(&self, sink: &mut K) -> Result<(), Early>
        ensures gives { Writes (K.held sink.old) (K.held sink.new) (transcript_end (length self.now.player.office.core.journal)) result }
        ensures cause { Rises (failed of_writing result) (K.faults sink.old) (K.faults sink.new) }
    {
        let text = transcript_end(self.alloc, self.player.core().journal().len())?;
        write_text(sink, text.as_slice())
    }

    /// Ends the transcript after the line `end`, and sees that no line follows.
    fn finish<S: Source, K: Sink>(&mut self, source: &mut S, sink: &mut K) -> Result<(), Early>
        requires within { self.old.number ≤ most_lines }
        ensures gives { GoesOn ended self.old.player self.old.number (left_to self.old.lines (S.left source.old)) (S.left source.new) (K.held sink.old) (K.held sink.new) result }
        ensures read { Rises (failed of_reading result) (S.faults source.old) (S.faults source.new) }
        ensures write { Rises (failed of_writing result) (K.faults sink.old) (K.faults sink.new) }
    {
        self.write_end(sink)?;
        match read_ahead(self.alloc, &mut self.lines, source)? {
            Ahead::Line(line) => {
                drop(line);
                Err(Early::Script(
                    self.number + 1,
                    cause_behind(self.number, Cause::WrongPlace),
                ))
            }
            Ahead::Refused(cause) => Err(Early::Script(
                self.number + 1,
                cause_behind(self.number, cause),
            )),
            Ahead::End => Ok(()),
        }
    }

    /// Does what a line says that stands behind those that were read.
    fn take_line<K: Sink>(&mut self, line: Line, sink: &mut K) -> Result<Turn, Early>
        requires line { IsLine line }
        requires stands { Stands self.old.player }
        requires within { self.old.number < most_lines }
        ensures gives { TakesTurn self.old.player self.new.player line self.old.number (K.held sink.old) (K.held sink.new) result }
        ensures cause { Rises (failed of_writing result) (K.faults sink.old) (K.faults sink.new) }
        ensures unread { failed of_reading result ≡ false }
        ensures stands { OnOk result (Stands self.new.player) }
        ensures lines { self.new.lines ≡ self.old.lines }
        ensures number { self.new.number ≡ self.old.number }
    {
        if is_end(&line) {
            drop(line);
            return Ok(Turn::Closed);
        }
        if !may_come(&self.player, &line) {
            drop(line);
            return Err(Early::Script(self.number + 1, Cause::WrongPlace));
        }
        play_line(self.alloc, &mut self.player, line, sink)?;
        Ok(Turn::Next)
    }

    /// Reads the next line, and does what it says.
    fn take_next<S: Source, K: Sink>(&mut self, source: &mut S, sink: &mut K) -> Result<Turn, Early>
        requires stands { Stands self.old.player }
        requires within { self.old.number < most_lines }
        ensures gives { Turns self.old.player self.new.player self.old.number (left_to self.old.lines (S.left source.old)) (left_to self.new.lines (S.left source.new)) (S.left source.new) (K.held sink.old) (K.held sink.new) result }
        ensures read { Rises (failed of_reading result) (S.faults source.old) (S.faults source.new) }
        ensures write { Rises (failed of_writing result) (K.faults sink.old) (K.faults sink.new) }
        ensures stands { OnOk result (Stands self.new.player) }
        ensures number { OnOk result (self.new.number ≡ self.old.number + 1) }
    {
        let line = next_line(self.alloc, &mut self.lines, source, self.number)?;
        let turn = self.take_line(line, sink)?;
        self.number += 1;
        Ok(turn)
    }

    /// Plays the lines of a recording, from behind `go`, through the end of the text.
    fn play_lines<S: Source, K: Sink>(&mut self, source: &mut S, sink: &mut K) -> Result<(), Early>
        requires stands { Stands self.old.player }
        requires few { self.old.number ≤ most_lines }
        ensures gives { GoesOn going self.old.player self.old.number (left_to self.old.lines (S.left source.old)) (S.left source.new) (K.held sink.old) (K.held sink.new) result }
        ensures read { Rises (failed of_reading result) (S.faults source.old) (S.faults source.new) }
        ensures write { Rises (failed of_writing result) (K.faults sink.old) (K.faults sink.new) }
    {
        while self.number < MOST_LINES {
            match self.take_next(source, sink)? {
                Turn::Next => {}
                Turn::Closed => return self.finish(source, sink),
            }
        }
        Err(read_past(self.alloc, &mut self.lines, source))
    }

    /// Writes what the transcript has before its entries, and plays the lines, of which none was played before.
    pub fn play_all<S: Source, K: Sink>(
        &mut self,
        wrong: &Items<Diagnostic>,
        source: &mut S,
        sink: &mut K,
    ) -> Result<(), Early>
        requires few { self.old.number ≤ most_lines }
        requires nothing { StandsBehind self.old.player [] }
        ensures gives { (all : Option (List ℕ)) → WasSetUp all self.old.player.office.core.setup wrong.now self.old.number (left_to self.old.lines (S.left source.old))
            → RunGives all (S.left source.new) (K.held sink.old) (K.held sink.new) result }
        ensures read { Rises (failed of_reading result) (S.faults source.old) (S.faults source.new) }
        ensures write { Rises (failed of_writing result) (K.faults sink.old) (K.faults sink.new) }
    {
        let start = start_text(self.alloc, wrong.as_slice())?;
        write_text(sink, &start)?;
        self.play_lines(source, sink)
    }
}
