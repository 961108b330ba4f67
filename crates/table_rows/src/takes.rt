// What no clause can show: that there is room, and each call once.

use device_revoke::DeviceRevoke;
use login_base::{ConnId, DevNo, HandleNo, NoMemory, SessId};
use login_model::{Fact, Key, Owner};
use login_table::Table;
use std::process::Abort;

const CARD: DevNo = DevNo {
    major: 226,
    minor: 0,
};

const MOUSE: DevNo = DevNo {
    major: 13,
    minor: 64,
};

/// Devices that two sessions take, one of which is given back.
fn tell_taken(rt: &impl Abort, revoke: &mut DeviceRevoke) -> Result<(), NoMemory> {
    revoke.room(4)?;
    revoke.apply(Key::Taken(SessId(2), CARD), Fact::Handle(HandleNo(3)));
    revoke.apply(Key::Taken(SessId(2), MOUSE), Fact::Handle(HandleNo(4)));
    revoke.apply(Key::Taken(SessId(3), CARD), Fact::Handle(HandleNo(5)));
    assert!(rt; revoke.next_taken(SessId(2), None) == Some(MOUSE));
    assert!(rt; revoke.next_taken(SessId(2), Some(MOUSE)) == Some(CARD));
    assert!(rt; revoke.next_taken(SessId(2), Some(CARD)) == None);
    assert!(rt; revoke.next_taken(SessId(1), None) == None);
    assert!(rt; revoke.next_taker(CARD, None) == Some(SessId(2)));
    assert!(rt; revoke.next_taker(CARD, Some(SessId(2))) == Some(SessId(3)));
    assert!(rt; revoke.next_taker(MOUSE, Some(SessId(2))) == None);
    revoke.apply(Key::Taken(SessId(2), CARD), Fact::Absent);
    assert!(rt; revoke.next_taker(CARD, None) == Some(SessId(3)));
    assert!(rt; revoke.next_taken(SessId(2), Some(MOUSE)) == None);
    assert!(rt; revoke.next_taken(SessId(3), None) == Some(CARD));
    Ok(())
}

#[test]
fn taken_devices_are_told_in_their_order(rt: HostRuntime) -> Result<(), NoMemory> {
    let mut revoke = DeviceRevoke::new(rt.alloc());
    let told = tell_taken(&rt, &mut revoke);
    drop(revoke);
    told
}

/// A handle, and that it is live.
fn tell_handles(rt: &impl Abort, revoke: &mut DeviceRevoke) -> Result<(), NoMemory> {
    revoke.room(2)?;
    revoke.apply(
        Key::Owner(HandleNo(3)),
        Fact::Owned(Owner::Device(ConnId(2), SessId(1), CARD)),
    );
    revoke.apply(Key::Live(HandleNo(3)), Fact::Flag(true));
    match revoke.look(&Key::Owner(HandleNo(3))) {
        Some(fact) => assert!(rt; fact.is_owned()),
        None => assert!(rt; false),
    }
    match revoke.look(&Key::Live(HandleNo(3))) {
        Some(fact) => assert!(rt; fact.is_set()),
        None => assert!(rt; false),
    }
    assert!(rt; revoke.look(&Key::Vt).is_none());
    Ok(())
}

#[test]
fn handles_are_told(rt: HostRuntime) -> Result<(), NoMemory> {
    let mut revoke = DeviceRevoke::new(rt.alloc());
    let told = tell_handles(&rt, &mut revoke);
    drop(revoke);
    told
}
