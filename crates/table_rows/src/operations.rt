// What no clause can show: that there is room.

use login_base::{Millis, NoMemory};
use login_model::{Fact, Key, OpKind, Operation};
use login_table::Table;
use power_ops::PowerOps;
use std::process::Abort;

/// An operation that waits.
fn tell_operation(rt: &impl Abort, power: &mut PowerOps) -> Result<(), NoMemory> {
    power.room(2)?;
    power.apply(Key::Now, Fact::Moment(Millis(5)));
    power.apply(
        Key::Op,
        Fact::Operation(Operation::Waiting(OpKind::Suspend, Millis(5), false)),
    );
    match power.look(&Key::Op) {
        Some(fact) => assert!(rt; fact.under_way() == Some(OpKind::Suspend)),
        None => assert!(rt; false),
    }
    assert!(rt; power.look(&Key::Docked).is_some());
    assert!(rt; power.look(&Key::Vt).is_none());
    Ok(())
}

#[test]
fn an_operation_is_told(rt: HostRuntime) -> Result<(), NoMemory> {
    let mut power = PowerOps::new(rt.alloc());
    let told = tell_operation(&rt, &mut power);
    drop(power);
    told
}
