// What no clause can show: that there is room, and each call once.

use login_base::{NoMemory, Uid};
use login_model::{Fact, Key};
use login_table::Table;
use std::process::Abort;
use users_linger::UsersLinger;

/// Two users, one of whom goes.
fn tell_users(rt: &impl Abort, users: &mut UsersLinger) -> Result<(), NoMemory> {
    users.room(3)?;
    users.apply(Key::User(Uid(1000)), Fact::Known);
    users.apply(Key::User(Uid(120)), Fact::Known);
    users.apply(Key::User(Uid(1000)), Fact::Absent);
    assert!(rt; users.next::<Uid>(None) == Some(Uid(120)));
    assert!(rt; users.next::<Uid>(Some(Uid(120))) == None);
    Ok(())
}

#[test]
fn users_are_told_in_their_order(rt: HostRuntime) -> Result<(), NoMemory> {
    let mut users = UsersLinger::new(rt.alloc());
    let told = tell_users(&rt, &mut users);
    drop(users);
    told
}

/// A user, and a key of another table.
fn tell_user(rt: &impl Abort, users: &mut UsersLinger) -> Result<(), NoMemory> {
    users.room(1)?;
    users.apply(Key::User(Uid(7)), Fact::Known);
    match users.look(&Key::User(Uid(7))) {
        Some(fact) => assert!(rt; fact.is_user()),
        None => assert!(rt; false),
    }
    assert!(rt; users.look(&Key::Linger(Uid(7))).is_some());
    assert!(rt; users.look(&Key::Vt).is_none());
    Ok(())
}

#[test]
fn a_key_of_another_table_is_not_told(rt: HostRuntime) -> Result<(), NoMemory> {
    let mut users = UsersLinger::new(rt.alloc());
    let told = tell_user(&rt, &mut users);
    drop(users);
    told
}
