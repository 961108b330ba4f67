// Entries are made one after the other.

use crate::lines::{played, refusal};
use crate::playing::{close, finish, new_core};
use login_base::{ConnId, Uid};
use login_core::Refused;
use login_model::{Answer, Event, Fact, Key, Mark, Verdict};
use std::test::Fail;

#[test]
fn a_core_begins_without_entries(rt: HostRuntime) -> Result<(), Fail> {
    let core = new_core(rt.alloc())?;
    assert_eq!(rt; core.journal().len(), 0);
    assert_eq!(rt; core.setup().users.len(), 2);
    finish(core);
    Ok(())
}

/// Whether these marks say alone that the first connection is the user's with the number 1000.
fn are_connected(marks: &[Mark]) -> bool {
    match marks {
        [Mark::Set(Key::Conn(who), Fact::Connected(uid))] => who.0 == 1 && uid.0 == 1000,
        _ => false,
    }
}

#[test]
fn room_is_made_and_the_event_stepped(rt: HostRuntime) -> Result<(), Fail> {
    let core = played(rt.alloc(), &[b"connect 1 1000"])?;
    assert_eq!(rt; core.journal().len(), 1);
    for entry in core.journal().as_slice() {
        assert!(rt; matches!(entry.event, Event::Connect(ConnId(1), Uid(1000))));
        assert!(rt; matches!(entry.verdict, Verdict::Granted));
        assert!(rt; matches!(entry.answer, Answer::Nothing));
        assert!(rt; are_connected(entry.marks.as_slice()));
    }
    finish(core);
    Ok(())
}

#[test]
fn only_disconnects_come_after_the_stop(rt: HostRuntime) -> Result<(), Fail> {
    let mut core = played(rt.alloc(), &[b"connect 1 0", b"stop"])?;
    let stopped = Some(Refused::Stopped(2));
    assert!(rt; refusal(rt.alloc(), &mut core, b"tick 0") == stopped);
    assert!(rt; refusal(rt.alloc(), &mut core, b"stop") == stopped);
    assert_eq!(rt; core.journal().len(), 2);
    assert!(rt; close(&mut core, ConnId(1)));
    assert_eq!(rt; core.journal().len(), 3);
    finish(core);
    Ok(())
}
