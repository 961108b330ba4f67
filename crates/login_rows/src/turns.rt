// Two connections that take turns controlling a session.

use crate::one_by_one::OneByOne;
use crate::running::{compare, expect, joined, run_with, source};
use login_cases::turns::{BLOCKS, LINES};
use std::alloc::Global;
use std::process::Abort;
use std::sync::Wait;
use std::test::Fail;
use std::thread::Threads;

#[test]
fn clients_take_turns(rt: HostRuntime) -> Result<(), Fail> {
    let alloc = rt.alloc();
    let text = joined(alloc, &LINES)?;
    let want = joined(alloc, &BLOCKS)?;
    compare(&rt, alloc, text.as_slice(), want.as_slice(), 0, "")?;
    let slow = OneByOne::new(source(alloc, text.as_slice(), &[])?);
    let slow = run_with(&rt, alloc, &[b"replay"], slow, &[])?;
    expect(&rt, &slow, 0, want.as_slice(), b"", "one by one", 0);
    Ok(())
}

/// Runs a recording of these lines and of the front of another, which is refused with these errors.
fn refuse_cut<R: Abort + Wait + Threads + Sync>(
    rt: &R,
    alloc: Global,
    lines: &[&[u8]],
    front: &[u8],
    want: &[u8],
    errors: &str,
) -> Result<(), Fail> {
    let mut text = joined(alloc, lines)?;
    text.extend_from_slice(front)?;
    compare(rt, alloc, text.as_slice(), want, 2, errors)
}

/// The same with each front of a line, where the lines before it make these blocks.
fn refuse_cuts<R: Abort + Wait + Threads + Sync>(
    rt: &R,
    alloc: Global,
    lines: &[&[u8]],
    line: &[u8],
    blocks: &[&[u8]],
) -> Result<(), Fail> {
    let number = lines.len().saturating_add(1);
    let errors = format!(in alloc; "line {number}: ended\n")?;
    let want = joined(alloc, blocks)?;
    for count in 0..line.len() {
        let front = &line[..count];
        refuse_cut(rt, alloc, lines, front, want.as_slice(), errors.as_str())?;
    }
    Ok(())
}

/// A recording that ends within line L, or before it, is refused at L, with the blocks before L.
#[test]
fn recordings_that_are_cut_are_refused(rt: HostRuntime) -> Result<(), Fail> {
    for (before, line) in LINES.iter().enumerate() {
        let blocks = if before < 3 { 0 } else { before - 2 };
        refuse_cuts(&rt, rt.alloc(), &LINES[..before], line, &BLOCKS[..blocks])?;
    }
    Ok(())
}

/// Runs a recording of these lines, one that is no line of a recording, and the rest: the line is refused behind these
/// blocks.
fn refuse_foreign<R: Abort + Wait + Threads + Sync>(
    rt: &R,
    alloc: Global,
    lines: &[&[u8]],
    rest: &[&[u8]],
    blocks: &[&[u8]],
) -> Result<(), Fail> {
    let number = lines.len().saturating_add(1);
    let errors = format!(in alloc; "line {number}: unknown-word\n")?;
    let want = joined(alloc, blocks)?;
    let mut text = joined(alloc, lines)?;
    text.extend_from_slice(b"frob\n")?;
    for line in rest {
        text.extend_from_slice(line)?;
    }
    compare(
        rt,
        alloc,
        text.as_slice(),
        want.as_slice(),
        2,
        errors.as_str(),
    )
}

/// A line that is no line of a recording, in front of each line and behind the last one.
#[test]
fn foreign_lines_are_refused(rt: HostRuntime) -> Result<(), Fail> {
    for before in 0..LINES.len() + 1 {
        let blocks = if before < 3 { 0 } else { before - 2 };
        let (lines, rest) = (&LINES[..before], &LINES[before..]);
        refuse_foreign(&rt, rt.alloc(), lines, rest, &BLOCKS[..blocks])?;
    }
    Ok(())
}
