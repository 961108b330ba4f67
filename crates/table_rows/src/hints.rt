// What no clause can show: that there is room.

use login_base::{NoMemory, SessId};
use login_model::{Fact, Key};
use login_table::Table;
use sessions::Sessions;
use std::process::Abort;

/// A session that is idle.
fn tell_hints(rt: &impl Abort, sessions: &mut Sessions) -> Result<(), NoMemory> {
    sessions.room(1)?;
    sessions.apply(Key::Idle(SessId(1)), Fact::Flag(true));
    match sessions.look(&Key::Idle(SessId(1))) {
        Some(fact) => assert!(rt; matches!(fact, Fact::Flag(true))),
        None => assert!(rt; false),
    }
    assert!(rt; sessions.next::<SessId>(None).is_none());
    assert!(rt; sessions.look(&Key::Vt).is_none());
    Ok(())
}

#[test]
fn hints_are_told(rt: HostRuntime) -> Result<(), NoMemory> {
    let mut sessions = Sessions::new(rt.alloc());
    let told = tell_hints(&rt, &mut sessions);
    drop(sessions);
    told
}
