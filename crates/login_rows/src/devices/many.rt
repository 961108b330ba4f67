// As many devices as may be taken, and as may be present.

use crate::running::{compare, joined, push};
use login_base::NoMemory;
use login_cases::devices::fronts::SESSIONS;
use login_cases::devices::many;
use std::alloc::Global;
use std::test::Fail;

/// So many devices may be present.
const PRESENT: u32 = 4096;

/// Adds the lines of so many input devices, from the minor number 1.
fn add_lines(alloc: Global, text: &mut Vec<u8>, count: u32) -> Result<(), NoMemory> {
    for minor in 1..=count {
        push(text, format!(in alloc; "add 14 {minor} evdev seat0\n"))?;
    }
    Ok(())
}

/// Adds their blocks, behind so many entries.
fn add_blocks(alloc: Global, text: &mut Vec<u8>, before: u32, count: u32) -> Result<(), NoMemory> {
    for minor in 1..=count {
        let number = minor.saturating_add(before);
        let block = format!(in alloc;
            "{number} add 14 {minor} evdev seat0\n granted\n set dev 14:{minor} evdev seat0\n"
        );
        push(text, block)?;
    }
    Ok(())
}

/// Adds the lines with which the first of them are taken.
fn take_lines(alloc: Global, text: &mut Vec<u8>, count: u32) -> Result<(), NoMemory> {
    for minor in 1..=count {
        let serial = minor.saturating_add(1);
        push(
            text,
            format!(in alloc; "call 2 {serial} take c1 14 {minor}\n"),
        )?;
    }
    Ok(())
}

/// Adds their blocks, behind so many entries and two handles.
fn take_blocks(alloc: Global, text: &mut Vec<u8>, before: u32, count: u32) -> Result<(), NoMemory> {
    for minor in 1..=count {
        let number = minor.saturating_add(before);
        let serial = minor.saturating_add(1);
        let handle = minor.saturating_add(2);
        let block = format!(in alloc;
            "{number} call 2 {serial} take c1 14 {minor}\n granted {handle} false\n set owner {handle} device 2 c1 14:{minor}\n set taken c1 14:{minor} {handle}\n set live {handle} true\n"
        );
        push(text, block)?;
    }
    Ok(())
}

/// A recording that takes one device more than may be.
fn taking(alloc: Global) -> Result<Vec<u8>, NoMemory> {
    let mut text = joined(alloc, &[SESSIONS.0.as_bytes()])?;
    add_lines(alloc, &mut text, 129)?;
    take_lines(alloc, &mut text, 128)?;
    text.extend_from_slice(many::FULL.0.as_bytes())?;
    Ok(text)
}

/// Its transcript.
fn taken(alloc: Global) -> Result<Vec<u8>, NoMemory> {
    let mut text = joined(alloc, &[SESSIONS.1.as_bytes()])?;
    add_blocks(alloc, &mut text, 9, 129)?;
    take_blocks(alloc, &mut text, 138, 128)?;
    text.extend_from_slice(many::FULL.1.as_bytes())?;
    Ok(text)
}

/// A recording that adds one device more than may be.
fn adding(alloc: Global) -> Result<Vec<u8>, NoMemory> {
    let mut text = joined(alloc, &[b"login-recording 1\ngo\n"])?;
    add_lines(alloc, &mut text, PRESENT)?;
    text.extend_from_slice(many::PRESENT.0.as_bytes())?;
    Ok(text)
}

/// Its transcript.
fn added(alloc: Global) -> Result<Vec<u8>, NoMemory> {
    let mut text = joined(alloc, &[b"login-transcript 1\n"])?;
    add_blocks(alloc, &mut text, 0, PRESENT)?;
    text.extend_from_slice(many::PRESENT.1.as_bytes())?;
    Ok(text)
}

#[test]
fn a_session_takes_a_greatest_number(rt: HostRuntime) -> Result<(), Fail> {
    let recording = taking(rt.alloc())?;
    let transcript = taken(rt.alloc())?;
    compare(
        &rt,
        rt.alloc(),
        recording.as_slice(),
        transcript.as_slice(),
        0,
        "",
    )
}

#[test]
fn a_greatest_number_is_present(rt: HostRuntime) -> Result<(), Fail> {
    let recording = adding(rt.alloc())?;
    let transcript = added(rt.alloc())?;
    compare(
        &rt,
        rt.alloc(),
        recording.as_slice(),
        transcript.as_slice(),
        0,
        "",
    )
}
