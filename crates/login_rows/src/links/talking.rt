// What a link says in pieces, and what comes of it.

use crate::running::compare;
use login_base::NoMemory;
use login_cases::links::pieces::{Part, Talk};
use std::alloc::Global;
use std::process::Abort;
use std::sync::Wait;
use std::test::Fail;
use std::thread::Threads;

/// Which text of a part is meant.
#[derive(Clone, Copy)]
enum Of {
    Blocks,
    Due,
    Closed,
}

/// A text of a part.
fn text_of(part: &Part, of: Of) -> &'static [u8] {
    match of {
        Of::Blocks => part.blocks,
        Of::Due => part.due,
        Of::Closed => part.closed,
    }
}

/// Puts a line of these words and these bytes, which are in hex, at the end.
fn push_line(text: &mut Vec<u8>, words: &[u8], hex: &[u8]) -> Result<(), NoMemory> {
    text.extend_from_slice(words)?;
    text.extend_from_slice(hex)?;
    text.push(b'\n')?;
    Ok(())
}

/// Puts at the end one of the texts of each part that ends behind one of these places, and not behind the other.
fn push_ended(
    text: &mut Vec<u8>,
    parts: &[Part],
    from: usize,
    to: usize,
    of: Of,
) -> Result<(), NoMemory> {
    let mut end: usize = 0;
    for part in parts {
        end = end.saturating_add(part.sent.len());
        if from < end && end <= to {
            text.extend_from_slice(text_of(part, of))?;
        }
    }
    Ok(())
}

/// Puts at the end what a transcript has of the hex digits from one place on to another.
fn push_told(
    alloc: Global,
    text: &mut Vec<u8>,
    parts: &[Part],
    from: usize,
    to: usize,
) -> Result<(), NoMemory> {
    let mut due = Vec::new(alloc);
    push_ended(&mut due, parts, from, to, Of::Due)?;
    push_ended(text, parts, from, to, Of::Blocks)?;
    if !due.as_slice().is_empty() {
        push_line(text, b"out 2 ", due.as_slice())?;
    }
    push_ended(text, parts, from, to, Of::Closed)
}

/// Runs a recording in which link 2 sends so many bytes a line, and compares its transcript.
pub fn accept_talk<R: Abort + Wait + Threads + Sync>(
    rt: &R,
    alloc: Global,
    talk: &Talk,
    size: usize,
) -> Result<(), Fail> {
    let mut sent = Vec::new(alloc);
    for part in talk.parts {
        sent.extend_from_slice(part.sent)?;
    }
    let mut recording = Vec::from_slice(alloc, talk.front.0.as_bytes())?;
    let mut transcript = Vec::from_slice(alloc, talk.front.1.as_bytes())?;
    let mut from: usize = 0;
    for digits in sent.chunks(size.saturating_mul(2).max(1)) {
        let to = from.saturating_add(digits.len());
        push_line(&mut recording, b"in 2 ", digits)?;
        push_told(alloc, &mut transcript, talk.parts, from, to)?;
        from = to;
    }
    recording.extend_from_slice(talk.rest.0.as_bytes())?;
    transcript.extend_from_slice(talk.rest.1.as_bytes())?;
    compare(
        rt,
        alloc,
        recording.as_slice(),
        transcript.as_slice(),
        0,
        "",
    )
}
