// Calls of properties, of peers and of the bus as messages, and their replies byte by byte.

use crate::running::{compare_case, push, push_all};
use login_base::NoMemory;
use login_cases::Beginning;
use login_cases::messages::{BUSCTL, DBUS_SEND, Exchange, GDBUS, MORE};
use login_cases::properties::SOME;
use std::alloc::Global;
use std::process::Abort;
use std::sync::Wait;
use std::test::Fail;
use std::thread::Threads;

/// Adds a call, what it is answered, and its reply.
fn push_answer(transcript: &mut Vec<u8>, message: &Exchange) -> Result<(), NoMemory> {
    let Exchange {
        sent: _,
        call,
        answer,
        reply,
    } = *message;
    push_all(
        transcript,
        &[call, b"\n ", answer, b"\nout 3 ", reply, b"\n"],
    )
}

/// A link of user 1001 is made and sends its greeting; then it sends these, and each is answered at once.
fn accept_messages<R: Abort + Wait + Threads + Sync>(
    rt: &R,
    alloc: Global,
    name: &str,
    front: &Beginning,
    messages: &[Exchange],
) -> Result<(), Fail> {
    let mut recording = Vec::from_slice(alloc, front.piece.0.as_bytes())?;
    let mut transcript = Vec::from_slice(alloc, front.piece.1.as_bytes())?;
    let mut number = front.entries.saturating_add(1);
    recording.extend_from_slice(
        b"link 3 1001\nin 3 00415554482045585445524e414c0d0a444154410d0a424547494e0d0a\n",
    )?;
    let greeted = format!(in alloc;
        "{number} connect 3 1001\n granted\n set conn 3 1001\nout 3 444154410d0a4f4b2030303131323233333434353536363737383839396161626263636464656566660d0a\n"
    );
    push(&mut transcript, greeted)?;
    for message in messages {
        number = number.saturating_add(1);
        push_all(&mut recording, &[b"in 3 ", message.sent, b"\n"])?;
        push(&mut transcript, format!(in alloc; "{number} call 3 "))?;
        push_answer(&mut transcript, message)?;
    }
    recording.extend_from_slice(b"end\n")?;
    push(&mut transcript, format!(in alloc; "end {number}\n"))?;
    compare_case(
        rt,
        alloc,
        name,
        recording.as_slice(),
        transcript.as_slice(),
        0,
        "",
    )
}

#[test]
fn messages_of_busctl(rt: HostRuntime) -> Result<(), Fail> {
    accept_messages(&rt, rt.alloc(), "busctl", &SOME, &BUSCTL)
}

#[test]
fn messages_of_dbus_send(rt: HostRuntime) -> Result<(), Fail> {
    accept_messages(&rt, rt.alloc(), "dbus-send", &SOME, &DBUS_SEND)
}

#[test]
fn messages_of_gdbus(rt: HostRuntime) -> Result<(), Fail> {
    accept_messages(&rt, rt.alloc(), "gdbus", &SOME, &GDBUS)
}

#[test]
fn more_messages(rt: HostRuntime) -> Result<(), Fail> {
    accept_messages(&rt, rt.alloc(), "more", &SOME, &MORE)
}
