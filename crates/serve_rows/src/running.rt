// How the tests run `login serve`, and what a run left.

ghost use Rattle.std.specs.Prelude.{◌≡◌};

use login_base::{Bytes, Items, Millis, NoMemory, Word};
use login_edge::{
    Clock, Gate, Link, Listener, MemClock, MemListener, MemSink, MemSource, MemSpawner, OpenGate,
    Source, Spawner,
};
use login_prog::{Outside, run};
use std::alloc::Global;
use std::process::Abort;
use std::sync::Wait;
use std::test::Fail;
use std::thread::Threads;

/// Room enough for what a run of a test writes.
const ROOM: usize = 6_000_000;

/// What a run left.
#[derive(Drop)]
pub struct Outcome<N> {
    pub status: u8,
    listener: N,
    output: MemSink,
    errors: MemSink,
}

impl<N> Outcome<N> {
    /// What the run wrote to its output.
    pub fn output(&self) -> &[u8] {
        self.output.held()
    }

    /// What the run wrote to its errors.
    pub fn errors(&self) -> &[u8] {
        self.errors.held()
    }

    /// The listener, as the run handed it back.
    pub fn into_listener(self) -> N {
        let Outcome {
            status: _,
            listener,
            output: _,
            errors: _,
        } = self;
        listener
    }
}

fn words_of(alloc: Global, words: &[&str]) -> Result<Items<Word>, NoMemory> {
    let mut list = Items::new(alloc);
    for word in words {
        list.push(Word::from_slice(alloc, word.as_bytes())?)?;
    }
    Ok(list)
}

/// A text as bytes.
pub fn bytes(alloc: Global, text: &[u8]) -> Result<Bytes, NoMemory> {
    Ok(Bytes::from_vec(Vec::from_slice(alloc, text)?))
}

/// A clock that stands.
pub fn still_clock(alloc: Global) -> Result<MemClock, NoMemory> {
    let readings = Items::from_vec(vec![in alloc; Millis(0)]?);
    MemClock::new(alloc, readings, Items::new(alloc), None)
}

/// A spawner that declines no start.
pub fn threads(alloc: Global) -> Result<MemSpawner, NoMemory> {
    MemSpawner::new(alloc, Items::new(alloc))
}

/// A sink with room for what a run of a test writes.
pub fn sink(alloc: Global) -> Result<MemSink, NoMemory> {
    MemSink::new(alloc, ROOM, Items::new(alloc))
}

/// Runs the program with these words over this outside.
pub fn run_with<
    R: Wait + Threads + Sync,
    S: Source + Drop + Send,
    L: Link + Send,
    N: Listener<Link = L> + Drop,
    C: Clock + Drop,
    P: Spawner + Drop,
    G: Gate + Sync,
>(
    rt: &R,
    alloc: Global,
    words: &[&str],
    outside: Outside<S, MemSink, MemSink, N, C, P>,
    gate: &G,
) -> Result<Outcome<N>, NoMemory>
    requires new { N.given outside.listener ≡ 0 }
{
    let words = words_of(alloc, words)?;
    let (status, outside) = run(rt, alloc, &words, outside, gate);
    let Outside {
        input: _,
        output,
        errors,
        listener,
        clock: _,
        spawner: _,
    } = outside;
    Ok(Outcome {
        status,
        listener,
        output,
        errors,
    })
}

/// The last line of the transcript of a recording, which has to be accepted whole.
fn replayed_end<R: Abort + Wait + Threads + Sync>(
    rt: &R,
    alloc: Global,
    recording: &[u8],
) -> Result<u64, Fail> {
    let outside = Outside {
        input: MemSource::new(alloc, bytes(alloc, recording)?, Items::new(alloc))?,
        output: sink(alloc)?,
        errors: sink(alloc)?,
        listener: MemListener::new(alloc, Items::new(alloc), Items::new(alloc))?,
        clock: still_clock(alloc)?,
        spawner: threads(alloc)?,
    };
    let run = run_with(rt, alloc, &["replay"], outside, &OpenGate)?;
    assert_eq!(rt; run.status, 0);
    Ok(entries_told(run.output()))
}

/// How many lines of a text begin with this one, or are it.
pub fn lines_like(text: &[u8], front: &[u8]) -> u64 {
    let lines = text.split(|byte| *byte == b'\n');
    lines.filter(|line| line.starts_with(front)).count() as u64
}

/// How many entries a transcript tells: each has a line that is granted or denied.
fn entries_told(transcript: &[u8]) -> u64 {
    lines_like(transcript, b" granted").saturating_add(lines_like(transcript, b" denied"))
}

/// How many events a recording has behind `go`: all its lines but `end`.
pub fn events_recorded(recording: &[u8]) -> u64 {
    let mut count = 0u64;
    let mut is_behind = false;
    for line in recording.split(|byte| *byte == b'\n') {
        if is_behind && !line.is_empty() && line != b"end".as_slice() {
            count = count.saturating_add(1);
        }
        is_behind = is_behind || line == b"go".as_slice();
    }
    count
}

/// The recording of a run plays again, to as many entries.
pub fn plays_again<R: Abort + Wait + Threads + Sync, N>(
    rt: &R,
    alloc: Global,
    run: &Outcome<N>,
) -> Result<(), Fail> {
    let entries = replayed_end(rt, alloc, run.output())?;
    assert_eq!(rt; events_recorded(run.output()), entries);
    Ok(())
}
