// A recording is replayed, and its end is said.

ghost use Rattle.std.specs.Prelude.{◌≡◌};
ghost use Rattle.replay.specs.Replaying.{ReplayGives, is_read_fault, is_write_fault};
ghost use Rattle.replay.specs.Reporting.{ReportsEnd};
ghost use Rattle.replay.specs.Rising.{Rises};
ghost use Rattle.replay.specs.Early.{failed, of_reading};
ghost use Rattle.replay.specs.inner.Early.{of_writing};
ghost use Rattle.replay.specs.inner.Running.{RunGives, end_of};

use crate::cause::Cause;
use crate::early::Early;
use crate::player::Player;
use crate::preamble::read_opening;
use crate::reporting::{RefusalLine, StatusLine, report};
use crate::run::Run;
use login_edge::{Sink, Source};
use login_model::Fullness;
use recording::LineReader;
use std::alloc::Global;

/// How a replay ended.
#[derive(Clone, Copy, Debug, PartialEq, Eq)]
pub enum ReplayEnd {
    /// The whole transcript was written.
    Done,
    /// The line with this number is refused for this cause.
    Script(u32, Cause),
    /// The journal is full for an event of the next line, by this count. The output has the transcript of the
    /// lines before it, and the blocks of the entries that this line made.
    Full(Fullness),
    /// The input failed. The output has the transcript of all whole lines before the fault.
    ReadFault,
    /// The output failed. It has a front of the transcript.
    WriteFault,
    /// There was no memory. The output has a front of the transcript.
    NoMemory,
}

/// How a replay ended, which was done or ended early.
fn replay_end(run: Result<(), Early>) -> ReplayEnd
    ensures { result ≡ end_of run }
{
    match run {
        Ok(()) => ReplayEnd::Done,
        Err(Early::Script(number, cause)) => ReplayEnd::Script(number, cause),
        Err(Early::Full(count)) => ReplayEnd::Full(count),
        Err(Early::ReadFault) => ReplayEnd::ReadFault,
        Err(Early::WriteFault) => ReplayEnd::WriteFault,
        Err(Early::NoMemory) => ReplayEnd::NoMemory,
    }
}

/// Replays a recording, without a word on the errors.
fn replay_text<S: Source, K: Sink>(alloc: Global, source: &mut S, sink: &mut K) -> Result<(), Early>
    ensures gives { RunGives (S.left source.old) (S.left source.new) (K.held sink.old) (K.held sink.new) result }
    ensures read { Rises (failed of_reading result) (S.faults source.old) (S.faults source.new) }
    ensures write { Rises (failed of_writing result) (K.faults sink.old) (K.faults sink.new) }
{
    let mut lines = LineReader::new(alloc)?;
    let opening = read_opening(alloc, &mut lines, source)?;
    let player = Player::new(alloc, opening.setup)?;
    let mut run = Run::new(alloc, lines, opening.lines_read, player);
    let played = run.play_all(&opening.wrong, source, sink);
    // By name: so the end of each of its types is proved apart, and not all of them here.
    drop(run);
    played
}

/// Writes the line of an end on the errors.
fn report_end<E: Sink>(refusal: RefusalLine, end: ReplayEnd, errors: &mut E)
    ensures { ReportsEnd (E.held errors.old) (E.held errors.new) (E.faults errors.old) (E.faults errors.new) end }
{
    match end {
        ReplayEnd::Done => {}
        ReplayEnd::Script(number, cause) => report(errors, &refusal.of(number, cause)),
        ReplayEnd::Full(count) => report(errors, &refusal.full(count)),
        ReplayEnd::ReadFault => report(errors, StatusLine::ReadFault.text()),
        ReplayEnd::WriteFault => report(errors, StatusLine::WriteFault.text()),
        ReplayEnd::NoMemory => report(errors, StatusLine::NoMemory.text()),
    }
}

/// Replays a recording: reads it from the source, and writes its transcript to the sink. An end other
/// than `Done` has its line on the errors; where that can't be written the end stays.
pub fn replay_all<S: Source, K: Sink, E: Sink>(
    alloc: Global,
    source: &mut S,
    sink: &mut K,
    errors: &mut E,
) -> ReplayEnd
    ensures gives { ReplayGives (S.left source.old) (S.left source.new) (K.held sink.old) (K.held sink.new) result }
    ensures read { Rises (is_read_fault result) (S.faults source.old) (S.faults source.new) }
    ensures write { Rises (is_write_fault result) (K.faults sink.old) (K.faults sink.new) }
    ensures said { ReportsEnd (E.held errors.old) (E.held errors.new) (E.faults errors.old) (E.faults errors.new) result }
{
    let refusal = match RefusalLine::new(alloc) {
        Ok(refusal) => refusal,
        Err(_) => {
            report(errors, StatusLine::NoMemory.text());
            return ReplayEnd::NoMemory;
        }
    };
    let end = replay_end(replay_text(alloc, source, sink));
    report_end(refusal, end, errors);
    end
}
