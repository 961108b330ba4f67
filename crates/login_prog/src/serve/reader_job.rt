// The input, which a thread is to read: lines of hardware, and `stop`.

ghost use Rattle.std.specs.Prelude.{◌≡◌, ◌<◌, ◌≤◌};
ghost use Rattle.desk.specs.History.{of_pass};
ghost use Rattle.recording.specs.Reading.{left_to};
ghost use Rattle.replay.specs.Recording.{most_lines};
ghost use Rattle.login_prog.specs.inner.Input.{Ended, FaultsBy, LineSays, MayEnd, NextIs, ReadsOne, early_end, refused_end};

use desk::Desk;
use link_serve::{CoreAtDesk, PassOfCore, step_event, stop};
use login_core::Refused;
use login_edge::{Gate, Job, Source};
use login_model::{Event, Fullness, Hardware};
use recording::{Line, LineReader};
use replay::{Cause, Early, MOST_LINES, next_line, read_past};
use std::alloc::Global;
use std::snapshot::Snapshot;
use std::sync::Wait;
use std::thread::Promise;

/// How the reading of the input ended.
#[derive(Clone, Copy, PartialEq, Eq)]
pub enum ReaderEnd {
    /// The line `stop` was read.
    Stop,
    /// The line with this number is refused for this cause.
    Script(u32, Cause),
    /// The journal is full for the event of the next line, by this count.
    Full(Fullness),
    /// Somebody else has made the stop.
    Stopped,
    ReadFault,
    NoMemory,
}

/// The input behind `go`, which a thread is to read, with a pass of its own.
#[derive(Drop)]
pub struct ReaderJob<'a, R, S, G> {
    pub rt: &'a R,
    pub alloc: Global,
    pub desk: &'a Desk<CoreAtDesk>,
    pub gate: &'a G,
    pub pass: PassOfCore,
    pub lines: LineReader,
    pub source: S,
    /// How many lines were read before.
    pub lines_read: u32,
    ghost fits: { pass.desk ≡ desk.now },
    ghost who: { pass.view.who ≡ 0 },
    ghost known: { of_pass pass.view.number pass.view.seen ≡ pass.view.mine },
    ghost within: { lines_read ≤ most_lines },
}

/// The input, what the reader's pass knows, and how the reading ended, if it was read.
#[derive(Drop)]
pub struct ReaderOut<S> {
    pub source: S,
    pub pass: PassOfCore,
    pub end: Option<ReaderEnd>,
}

/// What the handle of the reader's thread keeps.
#[derive(Drop)]
pub struct ReaderNote<S> {
    pub pass: Snapshot<PassOfCore>,
    pub lines: Snapshot<LineReader>,
    pub source: Snapshot<S>,
    pub lines_read: u32,
}

impl<S: Source + Drop> Promise<ReaderOut<S>> for ReaderNote<S> {
    ghost use Rattle.recording.specs.Reading.{left_to};
    ghost use Rattle.login_prog.specs.inner.Jobs.{ReaderGives};

    ghost kept_by = { λ note out. ReaderGives S.left S.faults note.lines_read (left_to note.lines.value (S.left note.source.value)) note.pass.value note.source.value out.pass out.source out.end };
}

/// How reading ends that ended early.
fn early_end(early: Early) -> ReaderEnd
    requires { MayEnd early }
    ensures { result ≡ early_end early }
{
    match early {
        Early::Script(number, cause) => ReaderEnd::Script(number, cause),
        Early::ReadFault => ReaderEnd::ReadFault,
        Early::NoMemory => ReaderEnd::NoMemory,
        Early::Full(_) | Early::WriteFault => unreachable!(),
    }
}

/// Why an event of the input has no entry, as the end of the reading.
fn refused_end(why: Refused) -> ReaderEnd
    ensures { result ≡ refused_end why }
{
    match why {
        Refused::NoMemory => ReaderEnd::NoMemory,
        Refused::Full(count) => ReaderEnd::Full(count),
        Refused::Stopped(_) => ReaderEnd::Stopped,
    }
}

/// What the line behind so many says to the hardware. The stop ends the reading, and another line is refused.
fn hardware_in(line: Line, number: u32) -> Result<Hardware, ReaderEnd>
    requires within { number < most_lines }
    ensures { LineSays number line result }
{
    match line {
        Line::Event(Event::Hardware(hardware)) => Ok(hardware),
        Line::Event(Event::Stop) => Err(ReaderEnd::Stop),
        other => {
            drop(other);
            Err(ReaderEnd::Script(number + 1, Cause::WrongPlace))
        }
    }
}

/// Reads what happens to the hardware by the line that stands behind so many.
fn next_hardware<S: Source>(
    alloc: Global,
    lines: &mut LineReader,
    source: &mut S,
    number: u32,
) -> Result<Hardware, ReaderEnd>
    requires within { number < most_lines }
    ensures gives { NextIs number (left_to lines.old (S.left source.old)) (left_to lines.new (S.left source.new)) (S.left source.new) result }
    ensures faults { FaultsBy result (S.faults source.old) (S.faults source.new) }
{
    match next_line(alloc, lines, source, number) {
        Ok(line) => hardware_in(line, number),
        Err(early) => Err(early_end(early)),
    }
}

impl<'a, R: Wait, S: Source + Drop, G: Gate> ReaderJob<'a, R, S, G> {
    /// Makes the entry of the line that stands behind so many.
    fn read_line(&mut self, number: u32) -> Result<(), ReaderEnd>
        requires within { number < most_lines }
        ensures desk { self.new.pass.desk ≡ self.old.pass.desk }
        ensures reads { ReadsOne number self.old.pass.view self.new.pass.view (left_to self.old.lines (S.left self.old.source)) (left_to self.new.lines (S.left self.new.source))
            (S.left self.new.source) (S.faults self.old.source) (S.faults self.new.source) result }
    {
        let hardware = next_hardware(self.alloc, &mut self.lines, &mut self.source, number)?;
        let event = Event::Hardware(hardware);
        match step_event(self.rt, self.desk, self.gate, &mut self.pass, event) {
            Ok(_) => Ok(()),
            Err(why) => Err(refused_end(why)),
        }
    }

    /// Reads until the line `stop`, or until something else ends the reading.
    fn read_lines(&mut self) -> ReaderEnd
        ensures desk { self.new.pass.desk ≡ self.old.pass.desk }
        ensures reads { Ended self.old.lines_read self.old.pass.view self.new.pass.view (left_to self.old.lines (S.left self.old.source))
            (S.left self.new.source) (S.faults self.old.source) (S.faults self.new.source) result }
    {
        for number in self.lines_read..MOST_LINES {
            if let Err(end) = self.read_line(number) {
                return end;
            }
        }
        early_end(read_past(self.alloc, &mut self.lines, &mut self.source))
    }
}

impl<'a, R: Wait, S: Source + Drop, G: Gate> Job for ReaderJob<'a, R, S, G> {
    ghost use Rattle.recording.specs.Reading.{left_to};
    ghost use Rattle.login_prog.specs.inner.Jobs.{ReaderGives};

    type Out = ReaderOut<S>;

    type Note = ReaderNote<S>;

    ghost gives = { λ job out. ReaderGives S.left S.faults job.lines_read (left_to job.lines (S.left job.source)) job.pass job.source out.pass out.source out.end };

    fn note(&self) -> ReaderNote<S> {
        ReaderNote {
            pass: Snapshot::of(&self.pass),
            lines: Snapshot::of(&self.lines),
            source: Snapshot::of(&self.source),
            lines_read: self.lines_read,
        }
    }

    fn work(self) -> ReaderOut<S> {
        let mut job = self;
        let end = job.read_lines();
        stop(job.rt, job.desk, job.gate, &mut job.pass);
        let ReaderJob {
            rt: _,
            alloc: _,
            desk: _,
            gate: _,
            pass,
            lines: _,
            source,
            lines_read: _,
        } = job;
        ReaderOut {
            source,
            pass,
            end: Some(end),
        }
    }

    fn decline(self) -> ReaderOut<S> {
        let ReaderJob {
            rt: _,
            alloc: _,
            desk: _,
            gate: _,
            pass,
            lines: _,
            source,
            lines_read: _,
        } = self;
        ReaderOut {
            source,
            pass,
            end: None,
        }
    }
}
