// What handles hear.

use crate::running::{accept_cases, compare, joined, push};
use login_base::NoMemory;
use login_cases::devices::fronts::{SESSIONS, TAKES};
use login_cases::devices::listening::{CASES, LISTENS};
use std::alloc::Global;
use std::test::Fail;

/// Adds the lines of inputs with the values from one to another.
fn input_lines(alloc: Global, text: &mut Vec<u8>, first: u32, last: u32) -> Result<(), NoMemory> {
    for value in first..=last {
        push(text, format!(in alloc; "input 13 64 2 8 {value}\n"))?;
    }
    Ok(())
}

/// Adds their blocks, each of which has its value and so much as its number.
fn input_blocks(
    alloc: Global,
    text: &mut Vec<u8>,
    first: u32,
    last: u32,
    more: u32,
) -> Result<(), NoMemory> {
    for value in first..=last {
        let number = value.saturating_add(more);
        let block = format!(in alloc; "{number} input 13 64 2 8 {value}\n granted\n");
        push(text, block)?;
    }
    Ok(())
}

/// Adds the inputs with the values from one to another, as an answer prints them.
fn heard(alloc: Global, text: &mut Vec<u8>, first: u32, last: u32) -> Result<(), NoMemory> {
    text.extend_from_slice(b" granted [")?;
    for value in first..=last {
        let space = if value == first { "" } else { " " };
        push(text, format!(in alloc; "{space}(2 8 {value})"))?;
    }
    text.extend_from_slice(b"]\n")?;
    Ok(())
}

/// A recording of twice so many inputs with the values from 1, and a read behind each half.
fn halves(alloc: Global, count: u32) -> Result<Vec<u8>, NoMemory> {
    let front = [SESSIONS.0.as_bytes(), LISTENS.0.as_bytes()];
    let mut text = joined(alloc, &front)?;
    input_lines(alloc, &mut text, 1, count)?;
    text.extend_from_slice(b"call 2 3 read 3\n")?;
    input_lines(
        alloc,
        &mut text,
        count.saturating_add(1),
        count.saturating_mul(2),
    )?;
    text.extend_from_slice(b"call 2 4 read 3\ncall 2 5 read 3\nend\n")?;
    Ok(text)
}

/// Adds the blocks of so many inputs, and of a read that answers those with the values from `first`.
fn first_half(alloc: Global, text: &mut Vec<u8>, count: u32, first: u32) -> Result<(), NoMemory> {
    input_blocks(alloc, text, 1, count, 10)?;
    let number = count.saturating_add(11);
    push(text, format!(in alloc; "{number} call 2 3 read 3\n"))?;
    heard(alloc, text, first, count)
}

/// The same of as many inputs again, and of a read that answers none.
fn second_half(alloc: Global, text: &mut Vec<u8>, count: u32, first: u32) -> Result<(), NoMemory> {
    let last = count.saturating_mul(2);
    input_blocks(alloc, text, count.saturating_add(1), last, 11)?;
    let number = last.saturating_add(12);
    push(text, format!(in alloc; "{number} call 2 4 read 3\n"))?;
    heard(alloc, text, first, last)?;
    let number = last.saturating_add(13);
    let end = format!(in alloc; "{number} call 2 5 read 3\n granted []\nend {number}\n");
    push(text, end)
}

/// Its transcript, where the reads answer the inputs with the values from these.
fn transcript_of_halves(
    alloc: Global,
    count: u32,
    first: u32,
    second: u32,
) -> Result<Vec<u8>, NoMemory> {
    let front = [SESSIONS.1.as_bytes(), LISTENS.1.as_bytes()];
    let mut text = joined(alloc, &front)?;
    first_half(alloc, &mut text, count, first)?;
    second_half(alloc, &mut text, count, second)?;
    Ok(text)
}

#[test]
fn handles_hear(rt: HostRuntime) -> Result<(), Fail> {
    accept_cases(&rt, rt.alloc(), &CASES)
}

#[test]
fn the_last_inputs_are_kept(rt: HostRuntime) -> Result<(), Fail> {
    let alloc = rt.alloc();
    let cases = [(1, 1, 2), (64, 1, 65), (65, 2, 67), (130, 67, 197)];
    for (count, first, second) in cases {
        let recording = halves(alloc, count)?;
        let transcript = transcript_of_halves(alloc, count, first, second)?;
        compare(
            &rt,
            alloc,
            recording.as_slice(),
            transcript.as_slice(),
            0,
            "",
        )?;
    }
    Ok(())
}

/// Two sessions have taken the device, which reports 65 inputs and 70 more; the active one reads behind each, and
/// then the other one.
fn heard_by_one(alloc: Global) -> Result<Vec<u8>, NoMemory> {
    let front = [SESSIONS.0.as_bytes(), TAKES.0.as_bytes()];
    let mut text = joined(alloc, &front)?;
    input_lines(alloc, &mut text, 1, 65)?;
    text.extend_from_slice(b"call 2 4 read 4\n")?;
    input_lines(alloc, &mut text, 66, 135)?;
    text.extend_from_slice(b"call 2 5 read 4\ncall 3 4 read 6\nend\n")?;
    Ok(text)
}

/// Adds the blocks of 65 inputs and of a read, and of 70 more and of another.
fn read_twice(alloc: Global, text: &mut Vec<u8>) -> Result<(), NoMemory> {
    input_blocks(alloc, text, 1, 65, 13)?;
    text.extend_from_slice(b"79 call 2 4 read 4\n")?;
    heard(alloc, text, 2, 65)?;
    input_blocks(alloc, text, 66, 135, 14)?;
    text.extend_from_slice(b"150 call 2 5 read 4\n")?;
    heard(alloc, text, 72, 135)
}

/// Its transcript: the active session reads the last 64 each time, and the other one nothing.
fn told_to_one(alloc: Global) -> Result<Vec<u8>, NoMemory> {
    let front = [SESSIONS.1.as_bytes(), TAKES.1.as_bytes()];
    let mut text = joined(alloc, &front)?;
    read_twice(alloc, &mut text)?;
    text.extend_from_slice(b"151 call 3 4 read 6\n denied P27 not-live\nend 151\n")?;
    Ok(text)
}

#[test]
fn the_active_session_alone_reads(rt: HostRuntime) -> Result<(), Fail> {
    let alloc = rt.alloc();
    let recording = heard_by_one(alloc)?;
    let transcript = told_to_one(alloc)?;
    compare(
        &rt,
        alloc,
        recording.as_slice(),
        transcript.as_slice(),
        0,
        "",
    )
}
