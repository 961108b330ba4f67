// What no clause can show: that the calls succeed where there is memory, and what they answer to bytes of other
// programs.

ghost use Rattle.std.specs.Prelude.{◌≡◌, false, true};
ghost use Rattle.login_model.specs.Texts.{has_object};
ghost use Rattle.wire_calls.specs.Sending.{HasTexts, is_other};

use crate::clients::CLIENTS;
use crate::glib::{ARGUMENTS, Case, MANAGER, MESSAGES, NO_METHODS, NO_OBJECTS, OBJECTS, STANDARD};
use bus_message::{Cutter, Message};
use login_base::{ConnId, HandleNo, Items, NoMemory};
use login_model::{Answer, Call, Entry, Event, OpKind, Verdict};
use recording::entry_text;
use std::alloc::Global;
use wire_calls::{message_of, request_of};

/// The line of the event that connection 2 makes with a message.
fn event_line(alloc: Global, message: &Message) -> Result<Vec<u8>, NoMemory> {
    let mut journal = Items::new(alloc);
    journal.push(Entry {
        event: Event::Call(request_of(alloc, ConnId(2), message)?),
        verdict: Verdict::Granted,
        answer: Answer::Nothing,
        marks: Items::new(alloc),
    })?;
    let mut line = Vec::new(alloc);
    for entry in journal.as_slice() {
        line.extend_from_slice(entry_text(alloc, 1, entry)?.as_slice())?;
    }
    Ok(line)
}

/// Whether an entry is one of this event, granted and without an answer.
fn is_event(line: &[u8], event: &[u8]) -> bool {
    match line.strip_prefix(b"1 ".as_slice()) {
        Some(rest) => rest.strip_prefix(event) == Some(b"\n granted\n".as_slice()),
        None => false,
    }
}

/// Whether a message is this event.
fn is_message(alloc: Global, message: &Message, event: &[u8]) -> Result<bool, NoMemory> {
    Ok(is_event(event_line(alloc, message)?.as_slice(), event))
}

/// Whether the bytes are one message, and it is the call.
fn is_call(alloc: Global, case: &Case) -> Result<bool, NoMemory> {
    let mut cutter = Cutter::new(alloc);
    let cut = cutter.feed(alloc, case.bytes)?;
    match cut.messages.as_slice() {
        [message] => is_message(alloc, message, case.event),
        _ => Ok(false),
    }
}

/// The place of the first case that is not its call.
fn first_other(alloc: Global, cases: &[Case]) -> Result<Option<usize>, NoMemory> {
    for (place, case) in cases.iter().enumerate() {
        if !is_call(alloc, case)? {
            return Ok(Some(place));
        }
    }
    Ok(None)
}

#[test]
fn methods_of_the_manager(rt: HostRuntime) -> Result<(), NoMemory> {
    assert_eq!(rt; first_other(rt.alloc(), MANAGER)?, None);
    Ok(())
}

#[test]
fn methods_of_other_objects(rt: HostRuntime) -> Result<(), NoMemory> {
    assert_eq!(rt; first_other(rt.alloc(), OBJECTS)?, None);
    Ok(())
}

#[test]
fn paths_of_no_object(rt: HostRuntime) -> Result<(), NoMemory> {
    assert_eq!(rt; first_other(rt.alloc(), NO_OBJECTS)?, None);
    Ok(())
}

#[test]
fn names_of_no_method(rt: HostRuntime) -> Result<(), NoMemory> {
    assert_eq!(rt; first_other(rt.alloc(), NO_METHODS)?, None);
    Ok(())
}

#[test]
fn methods_beside_the_own_ones(rt: HostRuntime) -> Result<(), NoMemory> {
    assert_eq!(rt; first_other(rt.alloc(), STANDARD)?, None);
    Ok(())
}

#[test]
fn signatures_and_limits(rt: HostRuntime) -> Result<(), NoMemory> {
    assert_eq!(rt; first_other(rt.alloc(), ARGUMENTS)?, None);
    Ok(())
}

#[test]
fn other_messages(rt: HostRuntime) -> Result<(), NoMemory> {
    assert_eq!(rt; first_other(rt.alloc(), MESSAGES)?, None);
    Ok(())
}

#[test]
fn messages_of_clients(rt: HostRuntime) -> Result<(), NoMemory> {
    assert_eq!(rt; first_other(rt.alloc(), CLIENTS)?, None);
    Ok(())
}

/// The message that a call is sent as.
fn sent(alloc: Global, call: Call) -> Result<Message, NoMemory>
    requires ordinary { is_other call ≡ false }
    requires texts { HasTexts call }
    requires object { has_object call ≡ true }
{
    let message = message_of(alloc, &call, 7);
    drop(call);
    message
}

/// Whether a call is sent as a message that is this event.
fn is_sent(alloc: Global, call: Call, event: &[u8]) -> Result<bool, NoMemory>
    requires ordinary { is_other call ≡ false }
    requires texts { HasTexts call }
    requires object { has_object call ≡ true }
{
    let message = sent(alloc, call)?;
    is_message(alloc, &message, event)
}

#[test]
fn mode_is_sent(rt: HostRuntime) -> Result<(), NoMemory> {
    assert!(rt;
        is_sent(
            rt.alloc(),
            Call::SetMode(HandleNo(4), 1),
            b"call 2 7 set-mode 4 1"
        )?
    );
    Ok(())
}

#[test]
fn ping_is_sent(rt: HostRuntime) -> Result<(), NoMemory> {
    assert!(rt; is_sent(rt.alloc(), Call::Ping, b"call 2 7 ping")?);
    Ok(())
}

#[test]
fn power_is_sent(rt: HostRuntime) -> Result<(), NoMemory> {
    assert!(rt;
        is_sent(
            rt.alloc(),
            Call::Power(OpKind::HybridSleep),
            b"call 2 7 power hybrid-sleep"
        )?
    );
    Ok(())
}
