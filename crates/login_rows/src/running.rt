// How the tests run the program, and what a run left.

ghost use Rattle.std.specs.Prelude.{◌≡◌, [], IfOk};

use login_base::{Bytes, Items, Millis, NoMemory, Word};
use login_cases::{Answered, Beginning, Case, Refused};
use login_edge::{MemClock, MemListener, MemSink, MemSource, MemSpawner, OpenGate, Source};
use login_prog::{Outside, run};
use std::alloc::{AllocError, Global};
use std::process::Abort;
use std::sync::Wait;
use std::test::Fail;
use std::thread::Threads;

/// Room enough for what a run of a test writes.
const ROOM: usize = 9_000_000;

/// What a run left.
#[derive(Drop)]
pub struct Outcome<S> {
    pub status: u8,
    pub input: S,
    output: MemSink,
    errors: MemSink,
}

impl<S> Outcome<S> {
    /// What the run wrote to its output.
    pub fn output(&self) -> &[u8] {
        self.output.held()
    }

    /// What the run wrote to its errors.
    pub fn errors(&self) -> &[u8] {
        self.errors.held()
    }
}

/// A source of these bytes, whose reads of these numbers fail.
pub fn source(alloc: Global, text: &[u8], fails: &[u64]) -> Result<MemSource, NoMemory> {
    let bytes = Bytes::from_vec(Vec::from_slice(alloc, text)?);
    MemSource::new(
        alloc,
        bytes,
        Items::from_vec(Vec::from_slice(alloc, fails)?),
    )
}

/// A clock that stands.
fn clock(alloc: Global) -> Result<MemClock, NoMemory> {
    let readings = Items::from_vec(vec![in alloc; Millis(0)]?);
    MemClock::new(alloc, readings, Items::new(alloc), None)
}

/// The words of a command.
fn words_of(alloc: Global, words: &[&[u8]]) -> Result<Items<Word>, NoMemory> {
    let mut list = Items::new(alloc);
    for word in words {
        list.push(Word::from_slice(alloc, word)?)?;
    }
    Ok(list)
}

/// An output whose writes of these numbers fail.
fn output(alloc: Global, fails: &[u64]) -> Result<MemSink, NoMemory> {
    let fails = Items::from_vec(Vec::from_slice(alloc, fails)?);
    MemSink::new(alloc, ROOM, fails)
}

/// A listener of which no link comes.
fn listener(alloc: Global) -> Result<MemListener, NoMemory>
    ensures new { IfOk result (λ listener. listener.register.links ≡ []) }
{
    MemListener::new(alloc, Items::new(alloc), Items::new(alloc))
}

/// An outside with this input and this listener. Of the writes to its output those of these numbers fail.
fn outside<S: Source + Drop>(
    alloc: Global,
    input: S,
    listener: MemListener,
    fails: &[u64],
) -> Result<Outside<S, MemSink, MemSink, MemListener, MemClock, MemSpawner>, NoMemory>
    ensures listener { IfOk result (λ outside. outside.listener ≡ listener) }
{
    Ok(Outside {
        input,
        output: output(alloc, fails)?,
        errors: output(alloc, &[])?,
        listener,
        clock: clock(alloc)?,
        spawner: MemSpawner::new(alloc, Items::new(alloc))?,
    })
}

/// Runs the program with these words. Of its writes to the output those of these numbers fail. No link comes.
pub fn run_with<R: Wait + Threads + Sync, S: Source + Drop + Send>(
    rt: &R,
    alloc: Global,
    words: &[&[u8]],
    input: S,
    fails: &[u64],
) -> Result<Outcome<S>, NoMemory> {
    let outside = outside(alloc, input, listener(alloc)?, fails)?;
    let list = words_of(alloc, words)?;
    let (status, outside) = run(rt, alloc, &list, outside, &OpenGate);
    let Outside {
        input,
        output,
        errors,
        ..
    } = outside;
    Ok(Outcome {
        status,
        input,
        output,
        errors,
    })
}

/// Runs `login replay` over this recording.
pub fn replay<R: Wait + Threads + Sync>(
    rt: &R,
    alloc: Global,
    text: &[u8],
) -> Result<Outcome<MemSource>, NoMemory> {
    run_with(rt, alloc, &[b"replay"], source(alloc, text, &[])?, &[])
}

/// Adds the pieces, one after the other.
pub fn push_all(text: &mut Vec<u8>, pieces: &[&[u8]]) -> Result<(), NoMemory> {
    for piece in pieces {
        text.extend_from_slice(piece)?;
    }
    Ok(())
}

/// The pieces, one after the other.
pub fn joined(alloc: Global, pieces: &[&[u8]]) -> Result<Vec<u8>, NoMemory> {
    let mut text = Vec::new(alloc);
    push_all(&mut text, pieces)?;
    Ok(text)
}

/// Adds a line that was formatted.
pub fn push(text: &mut Vec<u8>, line: Result<String, AllocError>) -> Result<(), NoMemory> {
    text.extend_from_slice(line?.as_bytes())?;
    Ok(())
}

/// Compares all that a run left. What differs is told with the name of its case, and its place among its lines.
pub fn expect<R: Abort, S>(
    rt: &R,
    run: &Outcome<S>,
    status: u8,
    output: &[u8],
    errors: &[u8],
    name: &str,
    at: usize,
) {
    assert_eq!(rt; run.status, status, "{name}: at {at}");
    assert_eq!(rt; run.output(), output, "{name}: at {at}");
    assert_eq!(rt; run.errors(), errors, "{name}: at {at}");
}

/// Runs the recording of a case, and compares all that it leaves.
pub fn compare_case<R: Abort + Wait + Threads + Sync>(
    rt: &R,
    alloc: Global,
    name: &str,
    recording: &[u8],
    transcript: &[u8],
    status: u8,
    errors: &str,
) -> Result<(), Fail> {
    let run = replay(rt, alloc, recording)?;
    expect(rt, &run, status, transcript, errors.as_bytes(), name, 0);
    Ok(())
}

/// The same of the only recording of a test.
pub fn compare<R: Abort + Wait + Threads + Sync>(
    rt: &R,
    alloc: Global,
    recording: &[u8],
    transcript: &[u8],
    status: u8,
    errors: &str,
) -> Result<(), Fail> {
    compare_case(rt, alloc, "run", recording, transcript, status, errors)
}

/// Runs the recording of a case, which is accepted whole, and compares its transcript.
pub fn accept_case<R: Abort + Wait + Threads + Sync>(
    rt: &R,
    alloc: Global,
    case: &Case,
) -> Result<(), Fail> {
    let mut recording = Vec::new(alloc);
    let mut transcript = Vec::new(alloc);
    for (lines, blocks) in case.pieces {
        recording.extend_from_slice(lines.as_bytes())?;
        transcript.extend_from_slice(blocks.as_bytes())?;
    }
    compare_case(
        rt,
        alloc,
        case.name,
        recording.as_slice(),
        transcript.as_slice(),
        0,
        "",
    )
}

/// The same of each of these cases.
pub fn accept_cases<R: Abort + Wait + Threads + Sync>(
    rt: &R,
    alloc: Global,
    cases: &[Case],
) -> Result<(), Fail> {
    for case in cases {
        accept_case(rt, alloc, case)?;
    }
    Ok(())
}

/// Runs a recording with these lines behind a front, none of which makes a mark, and compares what each
/// of them is answered.
fn answer<R: Abort + Wait + Threads + Sync>(
    rt: &R,
    alloc: Global,
    name: &str,
    front: &Beginning,
    lines: &[(&str, &str)],
) -> Result<(), Fail> {
    let mut recording = Vec::from_slice(alloc, front.piece.0.as_bytes())?;
    let mut transcript = Vec::from_slice(alloc, front.piece.1.as_bytes())?;
    let mut number = front.entries;
    for (line, reply) in lines {
        number = number.saturating_add(1);
        push_all(&mut recording, &[line.as_bytes(), b"\n"])?;
        let block = format!(in alloc; "{number} {line}\n {reply}\n");
        push(&mut transcript, block)?;
    }
    recording.extend_from_slice(b"end\n")?;
    push(&mut transcript, format!(in alloc; "end {number}\n"))?;
    compare_case(
        rt,
        alloc,
        name,
        recording.as_slice(),
        transcript.as_slice(),
        0,
        "",
    )
}

/// The same of each of these cases.
pub fn answer_cases<R: Abort + Wait + Threads + Sync>(
    rt: &R,
    alloc: Global,
    cases: &[Answered],
) -> Result<(), Fail> {
    for case in cases {
        answer(rt, alloc, case.name, &case.beginning, case.lines)?;
    }
    Ok(())
}

/// Runs a recording that ends with this line, which has to be refused with these errors.
fn refuse_one<R: Abort + Wait + Threads + Sync>(
    rt: &R,
    alloc: Global,
    pieces: &[&[u8]],
    transcript: &[u8],
    errors: &str,
    name: &str,
    at: usize,
) -> Result<(), Fail> {
    let text = joined(alloc, pieces)?;
    let run = replay(rt, alloc, text.as_slice())?;
    expect(rt, &run, 2, transcript, errors.as_bytes(), name, at);
    Ok(())
}

/// Runs a recording that ends with each of the lines in turn. Each has to be refused as line `number`,
/// for its cause.
pub fn refuse<R: Abort + Wait + Threads + Sync>(
    rt: &R,
    alloc: Global,
    name: &str,
    front: &[u8],
    lines: &[(&[u8], &str)],
    number: u32,
    transcript: &[u8],
) -> Result<(), Fail> {
    for (at, (line, cause)) in lines.iter().enumerate() {
        let errors = format!(in alloc; "line {number}: {cause}\n")?;
        let pieces = [front, line];
        refuse_one(rt, alloc, &pieces, transcript, errors.as_str(), name, at)?;
    }
    Ok(())
}

/// The same of each of these cases.
pub fn refuse_cases<R: Abort + Wait + Threads + Sync>(
    rt: &R,
    alloc: Global,
    cases: &[Refused],
) -> Result<(), Fail> {
    for case in cases {
        refuse(
            rt,
            alloc,
            case.name,
            case.front,
            case.lines,
            case.number,
            case.transcript,
        )?;
    }
    Ok(())
}
