// What no clause can show: that there is room, and each call once.

use controller::Controller;
use login_base::{ConnId, NoMemory, SessId, Uid};
use login_model::{Fact, Key};
use login_table::Table;
use std::process::Abort;

/// Two connections, one of which goes.
fn tell_connections(rt: &impl Abort, controller: &mut Controller) -> Result<(), NoMemory> {
    controller.room(3)?;
    controller.apply(Key::Conn(ConnId(7)), Fact::Connected(Uid(1000)));
    controller.apply(Key::Conn(ConnId(2)), Fact::Connected(Uid(0)));
    controller.apply(Key::Conn(ConnId(7)), Fact::Absent);
    assert!(rt; controller.next::<ConnId>(None) == Some(ConnId(2)));
    assert!(rt; controller.next::<ConnId>(Some(ConnId(2))) == None);
    Ok(())
}

#[test]
fn connections_are_told_in_their_order(rt: HostRuntime) -> Result<(), NoMemory> {
    let mut controller = Controller::new(rt.alloc());
    let told = tell_connections(&rt, &mut controller);
    drop(controller);
    told
}

#[test]
fn a_session_has_its_controller(rt: HostRuntime) -> Result<(), NoMemory> {
    let mut controller = Controller::new(rt.alloc());
    controller.room(1)?;
    controller.apply(Key::Ctl(SessId(1)), Fact::Controller(ConnId(2)));
    match controller.look(&Key::Ctl(SessId(1))) {
        Some(fact) => assert!(rt; fact.is_controller(ConnId(2))),
        None => assert!(rt; false),
    }
    assert!(rt; controller.next::<ConnId>(None).is_none());
    assert!(rt; controller.look(&Key::Vt).is_none());
    Ok(())
}
