// What comes in by links and what goes out, and the limit of connected links.

mod crowd;
mod full;
mod pieces;
mod places;
mod talking;

use crate::running::{accept_case, compare, push};
use login_base::NoMemory;
use login_cases::links;
use std::alloc::Global;
use std::process::Abort;
use std::sync::Wait;
use std::test::Fail;
use std::thread::Threads;

/// So many connections may be connected at once.
const LINKS: u32 = 64;

/// A recording that connects so many connections of root, through its last `connect`.
fn recording(alloc: Global, count: u32) -> Result<Vec<u8>, NoMemory> {
    let mut text = Vec::from_slice(alloc, b"login-recording 1\ngo\n")?;
    for who in 1..=count {
        push(&mut text, format!(in alloc; "connect {who} 0\n"))?;
    }
    Ok(text)
}

/// The front of its transcript, with the blocks of as many connections as are granted.
fn transcript(alloc: Global, count: u32) -> Result<Vec<u8>, NoMemory> {
    let mut text = Vec::from_slice(alloc, b"login-transcript 1\n")?;
    for who in 1..=count {
        let block = format!(in alloc; "{who} connect {who} 0\n granted\n set conn {who} 0\n");
        push(&mut text, block)?;
    }
    Ok(text)
}

/// The blocks of the connections behind the last that is granted, where there are so many.
fn denied(count: u32) -> &'static [u8] {
    match count {
        65 => b"65 connect 65 0\n denied P26 limit links 64\n",
        66 =>
            b"65 connect 65 0\n denied P26 limit links 64\n66 connect 66 0\n denied P26 limit links 64\n",
        _ => b"",
    }
}

/// Connects so many connections, and goes on with this line: the last line of the transcript, the errors and the
/// status.
fn connect<R: Abort + Wait + Threads + Sync>(
    rt: &R,
    alloc: Global,
    count: u32,
    line: &[u8],
    last: &[u8],
    errors: &str,
    status: u8,
) -> Result<(), Fail> {
    let mut text = recording(alloc, count)?;
    text.extend_from_slice(line)?;
    let mut want = transcript(alloc, LINKS)?;
    want.extend_from_slice(denied(count))?;
    want.extend_from_slice(last)?;
    compare(rt, alloc, text.as_slice(), want.as_slice(), status, errors)
}

/// A line behind so many connections, the last line of the transcript, the errors and the status.
const COUNTS: [(u32, &[u8], &[u8], &str, u8); 5] = [
    (64, b"end\n", b"end 64\n", "", 0),
    (66, b"end\n", b"end 66\n", "", 0),
    (
        65,
        b"call 65 1 control c1 false\n",
        b"",
        "line 68: wrong-place\n",
        2,
    ),
    (65, b"connect 65 0\n", b"", "line 68: wrong-place\n", 2),
    (65, b"disconnect 65\n", b"", "line 68: wrong-place\n", 2),
];

#[test]
fn the_next_link_is_denied(rt: HostRuntime) -> Result<(), Fail> {
    for (count, line, last, errors, status) in COUNTS {
        connect(&rt, rt.alloc(), count, line, last, errors, status)?;
    }
    Ok(())
}

// A test for each case: a table of all would be too long a text for one proof.
#[test]
fn first_messages_are_answered(rt: HostRuntime) -> Result<(), Fail> {
    accept_case(&rt, rt.alloc(), &links::FIRST_MESSAGES)
}

#[test]
fn links_do_not_begin(rt: HostRuntime) -> Result<(), Fail> {
    accept_case(&rt, rt.alloc(), &links::NOT_BEGUN)
}

#[test]
fn links_are_malformed(rt: HostRuntime) -> Result<(), Fail> {
    accept_case(&rt, rt.alloc(), &links::MALFORMED)
}

#[test]
fn links_end_in_a_message(rt: HostRuntime) -> Result<(), Fail> {
    accept_case(&rt, rt.alloc(), &links::CUT_OFF)
}

#[test]
fn devices_are_told(rt: HostRuntime) -> Result<(), Fail> {
    accept_case(&rt, rt.alloc(), &links::DEVICES)
}

#[test]
fn manager_answers(rt: HostRuntime) -> Result<(), Fail> {
    accept_case(&rt, rt.alloc(), &links::MANAGER_CALLS)
}

#[test]
fn manager_refuses(rt: HostRuntime) -> Result<(), Fail> {
    accept_case(&rt, rt.alloc(), &links::MANAGER_REFUSALS)
}

#[test]
fn objects_answer(rt: HostRuntime) -> Result<(), Fail> {
    accept_case(&rt, rt.alloc(), &links::OBJECT_CALLS)
}

#[test]
fn operations_are_told(rt: HostRuntime) -> Result<(), Fail> {
    accept_case(&rt, rt.alloc(), &links::OPERATIONS)
}

#[test]
fn links_take_turns(rt: HostRuntime) -> Result<(), Fail> {
    accept_case(&rt, rt.alloc(), &links::TURNS)
}
