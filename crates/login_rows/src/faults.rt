// Words that are not accepted, and reads and writes that fail.

use crate::one_by_one::OneByOne;
use crate::running::{Outcome, expect, joined, run_with, source};
use login_base::NoMemory;
use login_cases::turns::{BLOCKS, LINES};
use std::alloc::Global;
use std::process::Abort;
use std::sync::Wait;
use std::thread::Threads;

/// What is written where the words are not accepted.
const USAGE: &[u8] = b"usage: login replay or login serve --dir DIR or login load N\n";

/// More reads, or writes, than a run of the tests makes.
const MANY: u64 = 10_000;

/// Words that are no command.
const WORDS: [&[&[u8]]; 19] = [
    &[],
    &[b""],
    &[b"Replay"],
    &[b"repla"],
    &[b"replays"],
    &[b"replay "],
    &[b"replay\n"],
    &[b"replay", b""],
    &[b"replay", b"replay"],
    &[b"--help"],
    &[b"--version"],
    &[b"serve"],
    &[b"serve", b"--dir"],
    &[b"serve", b"--dir", b""],
    &[b"serve", b"--dir", b"-d"],
    &[b"serve", b"--dir="],
    &[b"serve", b"--dir", b"d", b"d"],
    &[b"load", b"5"],
    &[b"\xff"],
];

/// Runs the program with these words, which are refused: it reads nothing.
fn refuse_words<R: Abort + Wait + Threads + Sync>(
    rt: &R,
    alloc: Global,
    words: &[&[u8]],
    text: &[u8],
    at: usize,
) -> Result<(), NoMemory> {
    let refused = run_with(rt, alloc, words, source(alloc, text, &[])?, &[])?;
    expect(rt, &refused, 1, b"", USAGE, "words", at);
    assert!(rt; refused.input.rest() == text, "at {at}");
    Ok(())
}

#[test]
fn other_words_are_refused(rt: HostRuntime) -> Result<(), NoMemory> {
    let alloc = rt.alloc();
    let text = joined(alloc, &LINES)?;
    for (at, words) in WORDS.iter().enumerate() {
        refuse_words(&rt, alloc, words, text.as_slice(), at)?;
    }
    Ok(())
}

/// Whether a run came to the call of the outside with this number, which fails: then it left a front of the transcript
/// and the line of the fault, and else the whole transcript.
fn came_to<S>(
    rt: &impl Abort,
    run: &Outcome<S>,
    call: u64,
    status: u8,
    errors: &[u8],
    want: &[u8],
) -> bool {
    if run.status == 0 {
        assert!(rt; run.output() == want);
        return false;
    }
    assert!(rt;
        run.status == status && run.errors() == errors,
        "at call {call}"
    );
    assert!(rt; want.starts_with(run.output()), "at call {call}");
    true
}

/// Whether a run comes to the read with this number, which fails.
fn fails_at_read<R: Abort + Wait + Threads + Sync>(
    rt: &R,
    alloc: Global,
    text: &[u8],
    want: &[u8],
    read: u64,
) -> Result<bool, NoMemory> {
    let input = OneByOne::new(source(alloc, text, &[read])?);
    let broken = run_with(rt, alloc, &[b"replay"], input, &[])?;
    Ok(came_to(rt, &broken, read, 3, b"read fault\n", want))
}

#[test]
fn each_read_fails_once(rt: HostRuntime) -> Result<(), NoMemory> {
    let alloc = rt.alloc();
    let text = joined(alloc, &LINES)?;
    let want = joined(alloc, &BLOCKS)?;
    let mut faults: usize = 0;
    for read in 1..MANY {
        if !fails_at_read(&rt, alloc, text.as_slice(), want.as_slice(), read)? {
            break;
        }
        faults = faults.saturating_add(1);
    }
    // One read for each byte, and the one that finds the end.
    assert!(rt; faults == text.len() + 1);
    Ok(())
}

/// Whether a run comes to the write with this number, which fails: something is then left out.
fn fails_at_write<R: Abort + Wait + Threads + Sync>(
    rt: &R,
    alloc: Global,
    text: &[u8],
    want: &[u8],
    write: u64,
) -> Result<bool, NoMemory> {
    let input = source(alloc, text, &[])?;
    let broken = run_with(rt, alloc, &[b"replay"], input, &[write])?;
    let came = came_to(rt, &broken, write, 4, b"write fault\n", want);
    assert!(rt;
        !came || broken.output().len() < want.len(),
        "at write {write}"
    );
    Ok(came)
}

#[test]
fn each_write_fails_once(rt: HostRuntime) -> Result<(), NoMemory> {
    let alloc = rt.alloc();
    let text = joined(alloc, &LINES)?;
    let want = joined(alloc, &BLOCKS)?;
    let mut faults: usize = 0;
    for write in 1..MANY {
        if !fails_at_write(&rt, alloc, text.as_slice(), want.as_slice(), write)? {
            break;
        }
        faults = faults.saturating_add(1);
    }
    // One write for each block.
    assert!(rt; faults == BLOCKS.len());
    Ok(())
}
