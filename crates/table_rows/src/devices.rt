// What no clause can show: that there is room, and each call once.

ghost use Rattle.std.specs.Prelude.{◌≡◌, []};

use device_model::DeviceModel;
use login_base::{DevNo, HandleNo, NoMemory, SeatName};
use login_model::{Boxed, DevKind, Fact, Inputs, Key};
use login_table::Table;
use std::process::Abort;

const MOUSE: DevNo = DevNo {
    major: 13,
    minor: 64,
};

const CARD: DevNo = DevNo {
    major: 226,
    minor: 0,
};

/// Two devices, one of which goes, and a mode.
fn tell_devices(
    rt: &(impl Abort + AllocGlobal),
    devices: &mut DeviceModel,
) -> Result<(), NoMemory> {
    devices.room(4)?;
    devices.apply(
        Key::Dev(CARD),
        Fact::Device(DevKind::Drm, Boxed::new(rt.alloc(), SeatName::SEAT0)?),
    );
    devices.apply(
        Key::Dev(MOUSE),
        Fact::Device(DevKind::Evdev, Boxed::new(rt.alloc(), SeatName::SEAT0)?),
    );
    devices.apply(Key::Mode(CARD), Fact::Number(7));
    assert!(rt; devices.next::<DevNo>(None) == Some(MOUSE));
    assert!(rt; devices.next::<DevNo>(Some(MOUSE)) == Some(CARD));
    devices.apply(Key::Dev(CARD), Fact::Absent);
    assert!(rt; devices.next::<DevNo>(Some(MOUSE)) == None);
    match devices.look(&Key::Mode(CARD)) {
        Some(fact) => assert!(rt; matches!(fact, Fact::Number(7))),
        None => assert!(rt; false),
    }
    assert!(rt; devices.look(&Key::Vt).is_none());
    Ok(())
}

#[test]
fn devices_are_told_in_their_order(rt: HostRuntime) -> Result<(), NoMemory> {
    let mut devices = DeviceModel::new(rt.alloc());
    let told = tell_devices(&rt, &mut devices);
    drop(devices);
    told
}

/// A handle that hears more than its ring holds.
fn tell_heard(rt: &impl Abort, devices: &mut DeviceModel, out: &mut Inputs) -> Result<(), NoMemory>
    requires { devices.old.ears ≡ [] }
{
    devices.rings(2)?;
    devices.listen(HandleNo(3), MOUSE);
    devices.input(CARD, 1, 30, 1);
    assert!(rt; devices.heard(HandleNo(3)).is_empty());
    for value in 0..65 {
        devices.input(MOUSE, 1, 30, value);
    }
    assert!(rt; devices.listens(HandleNo(3)));
    assert!(rt; devices.heard(HandleNo(3)).len() == 64);
    devices.drain(HandleNo(3), out);
    assert!(rt; out.as_slice().len() == 64);
    assert!(rt; out.as_slice()[0].value == 1);
    assert!(rt; out.as_slice()[63].value == 64);
    assert!(rt; devices.listens(HandleNo(3)));
    assert!(rt; devices.heard(HandleNo(3)).is_empty());
    Ok(())
}

#[test]
fn a_handle_hears_its_device(rt: HostRuntime) -> Result<(), NoMemory> {
    let mut out = Inputs::new(rt.alloc())?;
    let mut devices = DeviceModel::new(rt.alloc());
    let told = tell_heard(&rt, &mut devices, &mut out);
    drop(devices);
    drop(out);
    told
}

/// A ring that a second handle has.
fn tell_again(rt: &impl Abort, devices: &mut DeviceModel) -> Result<(), NoMemory>
    requires { devices.old.ears ≡ [] }
{
    devices.rings(1)?;
    devices.listen(HandleNo(3), MOUSE);
    devices.input(MOUSE, 1, 30, 1);
    devices.deaf(HandleNo(3));
    devices.listen(HandleNo(4), CARD);
    assert!(rt; devices.heard(HandleNo(4)).is_empty());
    devices.input(CARD, 1, 31, 0);
    assert!(rt; devices.heard(HandleNo(4)).len() == 1);
    Ok(())
}

#[test]
fn a_ring_is_used_again(rt: HostRuntime) -> Result<(), NoMemory> {
    let mut devices = DeviceModel::new(rt.alloc());
    let told = tell_again(&rt, &mut devices);
    drop(devices);
    told
}

/// Two handles that listen, one of which ceases.
fn tell_listening(rt: &impl Abort, devices: &mut DeviceModel) -> Result<(), NoMemory>
    requires { devices.old.ears ≡ [] }
{
    devices.rings(2)?;
    assert!(rt; devices.listening() == 0);
    devices.listen(HandleNo(3), MOUSE);
    devices.listen(HandleNo(4), CARD);
    devices.input(MOUSE, 1, 30, 1);
    assert!(rt; devices.listening() == 2);
    assert!(rt; devices.listens(HandleNo(4)));
    assert!(rt; !devices.listens(HandleNo(5)));
    devices.deaf(HandleNo(3));
    assert!(rt; devices.listening() == 1);
    assert!(rt; !devices.listens(HandleNo(3)));
    assert!(rt; devices.listens(HandleNo(4)));
    Ok(())
}

#[test]
fn it_is_told_who_listens(rt: HostRuntime) -> Result<(), NoMemory> {
    let mut devices = DeviceModel::new(rt.alloc());
    let told = tell_listening(&rt, &mut devices);
    drop(devices);
    told
}
