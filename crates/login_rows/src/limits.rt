// The greatest lengths of texts and lines, the greatest numbers, and how many users there may be.

use crate::running::{accept_case, compare, joined, push, replay};
use login_base::NoMemory;
use login_cases::limits::NUMBERS;
use std::alloc::Global;
use std::process::Abort;
use std::sync::Wait;
use std::test::Fail;
use std::thread::Threads;

/// A text of so many letters between two other texts.
fn framed(alloc: Global, front: &[u8], letters: usize, rest: &[u8]) -> Result<Vec<u8>, NoMemory> {
    let middle = vec![in alloc; b'a'; letters]?;
    joined(alloc, &[front, middle.as_slice(), rest])
}

/// Runs a recording with a text of so many letters, and compares its status and its errors.
fn end_with<R: Abort + Wait + Threads + Sync>(
    rt: &R,
    alloc: Global,
    pieces: (&[u8], usize, &[u8]),
    status: u8,
    errors: &[u8],
) -> Result<(), NoMemory> {
    let (front, letters, rest) = pieces;
    let text = framed(alloc, front, letters, rest)?;
    let run = replay(rt, alloc, text.as_slice())?;
    assert!(rt;
        run.status == status && run.errors() == errors,
        "at {letters} bytes"
    );
    Ok(())
}

/// In front of the name of a user.
const USER: &[u8] = b"login-recording 1\nuser 1 1 ";

/// In front of the name of a session that ends.
const EXIT: &[u8] = b"login-recording 1\ngo\nexit ";

/// What stands in front of how many letters and behind them, and how that ends.
const LENGTHS: [(&[u8], usize, &[u8], u8, &[u8]); 9] = [
    (USER, 255, b"\ngo\nend\n", 0, b""),
    (USER, 256, b"\ngo\nend\n", 2, b"line 2: bad-name\n"),
    (EXIT, 512, b"\nend\n", 0, b""),
    (EXIT, 513, b"\nend\n", 2, b"line 3: bad-name\n"),
    (USER, 16_375, b"\ngo\nend\n", 2, b"line 2: bad-name\n"),
    (USER, 16_376, b"\ngo\nend\n", 2, b"line 2: too-long\n"),
    (USER, 16_375, b"", 2, b"line 2: ended\n"),
    (USER, 16_376, b"", 2, b"line 2: too-long\n"),
    (USER, 100_000, b"\ngo\nend\n", 2, b"line 2: too-long\n"),
];

#[test]
fn texts_and_lines_have_a_greatest_length(rt: HostRuntime) -> Result<(), NoMemory> {
    for (front, letters, rest, status, errors) in LENGTHS {
        end_with(&rt, rt.alloc(), (front, letters, rest), status, errors)?;
    }
    Ok(())
}

#[test]
fn the_greatest_numbers(rt: HostRuntime) -> Result<(), Fail> {
    accept_case(&rt, rt.alloc(), &NUMBERS)
}

/// A recording of a setup with so many users beside root, and no event.
fn users(alloc: Global, count: u32) -> Result<Vec<u8>, NoMemory> {
    let mut text = Vec::from_slice(alloc, b"login-recording 1\n")?;
    for uid in 1..=count {
        push(&mut text, format!(in alloc; "user {uid} {uid} u{uid}\n"))?;
    }
    text.extend_from_slice(b"go\nend\n")?;
    Ok(text)
}

#[test]
fn a_setup_has_a_greatest_number_of_users(rt: HostRuntime) -> Result<(), Fail> {
    let alloc = rt.alloc();
    let cases = [
        (1024, 0, b"login-transcript 1\nend 0\n".as_slice(), ""),
        (1025, 2, b"".as_slice(), "line 1026: wrong-place\n"),
    ];
    for (count, status, output, errors) in cases {
        let text = users(alloc, count)?;
        compare(&rt, alloc, text.as_slice(), output, status, errors)?;
    }
    Ok(())
}
