// A journal that is written as a recording, which plays it again.

use crate::lines::play_whole;
use crate::playing::finish;
use crate::running::{compare, joined, source};
use login_base::{Items, NoMemory};
use login_cases::devices::fronts::{ASKS, SESSIONS, TAKES};
use login_cases::devices::pausing::ACKNOWLEDGED;
use login_core::Core;
use login_edge::MemSink;
use recording::{LineReader, Next, WriteEnd, write_recording};
use replay::{SetupEnd, read_setup};
use std::alloc::Global;
use std::process::Abort;
use std::test::Fail;

/// Room enough for the recording.
const ROOM: usize = 4_000;

/// More lines than the recording has.
const MANY: u32 = 100;

/// The same users as those of the sessions, in the other order, and lines of both texts.
const PREAMBLE: &[u8] = b"\
login-recording 1
user 1001 1001 bob
conf
user 1000 1000 alice
conf [Login]
action chvt no no yes
go
";

/// How a recording of it begins.
const FRONT: &[u8] = b"\
login-recording 1
guid 0123456789abcdef0123456789abcdef
user 1000 1000 alice
user 1001 1001 bob
conf
conf [Login]
action chvt no no yes
go
";

/// So long is the preamble of the sessions.
const SESSIONS_PREAMBLE: usize = 61;

/// A core that stepped the events of this recording.
fn stepped(alloc: Global, text: &[u8]) -> Result<Core, NoMemory> {
    let mut source = source(alloc, text, &[])?;
    let mut lines = LineReader::new(alloc)?;
    let SetupEnd::Ready(setup, wrong, _) = read_setup(alloc, &mut lines, &mut source) else {
        return Err(NoMemory);
    };
    drop(wrong);
    let mut core = Core::new(alloc, setup)?;
    for _ in 0..MANY {
        if lines.next(&mut source) != Next::Line {
            break;
        }
        play_whole(alloc, &mut core, lines.line());
    }
    Ok(core)
}

/// What became of the recording of the journal of a core that stepped the events of this text.
fn recorded(
    alloc: Global,
    text: &[u8],
    room: usize,
) -> Result<(Result<(), WriteEnd>, MemSink), NoMemory> {
    let mut sink = MemSink::new(alloc, room, Items::new(alloc))?;
    let core = stepped(alloc, text)?;
    let end = write_recording(alloc, core.setup(), core.journal(), &mut sink);
    finish(core);
    Ok((end, sink))
}

/// The events of the sessions, whose switch completes.
fn events(alloc: Global) -> Result<Vec<u8>, NoMemory> {
    joined(
        alloc,
        &[
            &SESSIONS.0.as_bytes()[SESSIONS_PREAMBLE..],
            TAKES.0.as_bytes(),
            ASKS.0.as_bytes(),
            ACKNOWLEDGED.0.as_bytes(),
        ],
    )
}

/// The same behind a preamble.
fn events_behind(alloc: Global, preamble: &[u8]) -> Result<Vec<u8>, NoMemory> {
    let events = events(alloc)?;
    joined(alloc, &[preamble, events.as_slice()])
}

/// Their transcript.
fn blocks(alloc: Global) -> Result<Vec<u8>, NoMemory> {
    joined(
        alloc,
        &[
            SESSIONS.1.as_bytes(),
            TAKES.1.as_bytes(),
            ASKS.1.as_bytes(),
            ACKNOWLEDGED.1.as_bytes(),
        ],
    )
}

/// The recording of the journal of a core that stepped the events of a text, which has to be this one.
fn record<R: Abort>(rt: &R, alloc: Global, text: &[u8], want: &[u8]) -> Result<MemSink, NoMemory> {
    let (end, sink) = recorded(alloc, text, ROOM)?;
    assert!(rt; end == Ok(()) && sink.held() == want);
    Ok(sink)
}

#[test]
fn recordings_play_their_journals_again(rt: HostRuntime) -> Result<(), Fail> {
    let alloc = rt.alloc();
    let text = events_behind(alloc, PREAMBLE)?;
    let want = events_behind(alloc, FRONT)?;
    let sink = record(&rt, alloc, text.as_slice(), want.as_slice())?;
    let blocks = blocks(alloc)?;
    compare(&rt, alloc, sink.held(), blocks.as_slice(), 0, "")
}

/// Writes the recording where there is room for so many bytes alone, so that a write fails.
fn record_in<R: Abort>(
    rt: &R,
    alloc: Global,
    text: &[u8],
    want: &[u8],
    room: usize,
) -> Result<(), NoMemory> {
    let (end, sink) = recorded(alloc, text, room)?;
    assert!(rt; end == Err(WriteEnd::WriteFault));
    assert!(rt; want.starts_with(sink.held()), "with room for {room}");
    Ok(())
}

#[test]
fn recordings_stop_at_a_write_that_fails(rt: HostRuntime) -> Result<(), Fail> {
    let alloc = rt.alloc();
    let text = events_behind(alloc, PREAMBLE)?;
    let want = events_behind(alloc, FRONT)?;
    for room in [0, 20, 80, 120, 400] {
        record_in(&rt, alloc, text.as_slice(), want.as_slice(), room)?;
    }
    Ok(())
}
