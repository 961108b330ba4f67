// What no clause can show: that there is room, and each call once.

use inhibitors::Inhibitors;
use login_base::{ConnId, LockNo, NoMemory, Uid, Word};
use login_model::{Boxed, Fact, Inhibited, Key, Lock, LockMode};
use login_table::Table;
use std::alloc::Global;
use std::process::Abort;

const SLEEP: Inhibited = Inhibited {
    shutdown: false,
    sleep: true,
    idle: false,
    handle_power_key: false,
    handle_suspend_key: false,
    handle_hibernate_key: false,
    handle_lid_switch: false,
};

/// A lock that delays sleep.
fn delay(alloc: Global) -> Result<Fact, NoMemory> {
    let lock = Lock {
        what: SLEEP,
        mode: LockMode::Delay,
        uid: Uid(1000),
        who: Word::new(alloc),
        why: Word::new(alloc),
        holder: ConnId(2),
    };
    Ok(Fact::Lock(Boxed::new(alloc, lock)?))
}

/// Two locks, one of which goes.
fn tell_locks(rt: &(impl Abort + AllocGlobal), locks: &mut Inhibitors) -> Result<(), NoMemory> {
    locks.room(3)?;
    locks.apply(Key::Lock(LockNo(7)), delay(rt.alloc())?);
    locks.apply(Key::Lock(LockNo(2)), delay(rt.alloc())?);
    assert!(rt; locks.next::<LockNo>(None) == Some(LockNo(2)));
    assert!(rt; locks.next::<LockNo>(Some(LockNo(2))) == Some(LockNo(7)));
    locks.apply(Key::Lock(LockNo(7)), Fact::Absent);
    assert!(rt; locks.next::<LockNo>(Some(LockNo(2))) == None);
    assert!(rt; locks.look(&Key::Lock(LockNo(2))).is_some());
    assert!(rt; locks.look(&Key::Vt).is_none());
    Ok(())
}

#[test]
fn locks_are_told_in_their_order(rt: HostRuntime) -> Result<(), NoMemory> {
    let mut locks = Inhibitors::new(rt.alloc());
    let told = tell_locks(&rt, &mut locks);
    drop(locks);
    told
}
