// What handles hear of their devices, settled behind the marks of an entry. Nothing here takes memory.

ghost use Rattle.std.specs.Prelude.{◌≡◌, ◌==◌, false, true, IsSome, None, option_map};
ghost use Rattle.login_base.specs.declared.ids.HandleNo.{HandleNo as AnyHandle};
ghost use Rattle.device_model.specs.Ears.{heard_of};
ghost use Rattle.login_laws.specs.Hearing.{begins, drained, heard_event, is_turned};
ghost use Rattle.login_facts.specs.Ears.{AreEnough, KeepsRings, ListenLive, ListenOn, begun_anew, deafened, heard_with, listened_to, of_evdev, settled, turned_by};
ghost use Rattle.login_facts.specs.Rings.{ring_count};

use device_model::DeviceModel;
use device_revoke::DeviceRevoke;
use login_base::{DevNo, HandleNo};
use login_model::{Call, Event, Fact, Hardware, Inputs, Key, Mark, Verdict};
use login_table::Table;

/// The handle that a mark makes live or dead.
fn turned_by(mark: &Mark) -> Option<HandleNo>
    ensures { result ≡ turned_by mark.now }
{
    match mark {
        Mark::Set(Key::Live(handle), _) => Some(*handle),
        _ => None,
    }
}

/// What a handle heard is read, if it listens, and forgotten.
fn forget(devices: &mut DeviceModel, handle: HandleNo, read: &mut Inputs)
    ensures own { heard_of devices.new.ears handle ≡ option_map drained (heard_of devices.old.ears handle) }
    ensures others { (g : AnyHandle) → (g.0 == handle.0) ≡ false → heard_of devices.new.ears g ≡ heard_of devices.old.ears g }
    ensures keeps { KeepsRings devices.old devices.new }
{
    if devices.listens(handle) {
        devices.drain(handle, read);
    }
}

/// Handles hear what a granted event brings, and what one of them had heard is read.
fn bring(devices: &mut DeviceModel, event: &Event, read: &mut Inputs)
    ensures heard { (h : AnyHandle) → heard_of devices.new.ears h ≡ heard_event h event.now (heard_of devices.old.ears h) }
    ensures keeps { KeepsRings devices.old devices.new }
{
    match event {
        Event::Hardware(Hardware::Input(device, kind, code, value)) => {
            devices.input(*device, *kind, *code, *value);
        }
        Event::Call(request) => {
            if let Call::ReadInput(handle) = &request.call {
                forget(devices, *handle, read);
            }
        }
        _ => {}
    }
}

/// Handles hear what an event brings, if it was granted, and what one of them had heard is read.
fn bring_granted(devices: &mut DeviceModel, event: &Event, verdict: Verdict, read: &mut Inputs)
    ensures heard { (h : AnyHandle) → heard_of devices.new.ears h ≡ heard_with h event.now verdict (heard_of devices.old.ears h) }
    ensures keeps { KeepsRings devices.old devices.new }
{
    match verdict {
        Verdict::Granted => bring(devices, event, read),
        Verdict::Denied(_) => {}
    }
}

/// A handle listens no more.
fn stop_hearing(devices: &mut DeviceModel, handle: HandleNo)
    ensures own { heard_of devices.new.ears handle ≡ None }
    ensures others { (g : AnyHandle) → (g.0 == handle.0) ≡ false → heard_of devices.new.ears g ≡ heard_of devices.old.ears g }
    ensures keeps { KeepsRings devices.old devices.new }
{
    if devices.listens(handle) {
        devices.deaf(handle);
    }
}

/// The handles that these marks make live or dead listen no more.
fn deafen(devices: &mut DeviceModel, marks: &[Mark])
    ensures heard { (h : AnyHandle) → heard_of devices.new.ears h ≡ deafened h marks.now (heard_of devices.old.ears h) }
    ensures keeps { KeepsRings devices.old devices.new }
{
    for mark in marks {
        if let Some(handle) = turned_by(mark) {
            stop_hearing(devices, handle);
        }
    }
}

/// The device to which a handle with this owner listens, if it is an input device.
fn listened_to(devices: &DeviceModel, owner: &Fact) -> Option<DevNo>
    ensures { result ≡ listened_to devices.now.trail owner.now }
{
    let device = owner.handle_device()?;
    devices.fact(&Key::Dev(device)).is_evdev().then_some(device)
}

/// A live handle of an input device begins to listen to it, unless it listens.
fn begin_hearing(takes: &DeviceRevoke, devices: &mut DeviceModel, handle: HandleNo)
    requires live { ListenLive devices.old.ears takes.now.trail }
    requires enough { AreEnough (ring_count devices.old.ears devices.old.rings) takes.now.trail }
    ensures own { heard_of devices.old.ears handle ≡ None → heard_of devices.new.ears handle ≡ of_evdev devices.old.trail (begins takes.now.trail handle) }
    ensures kept { IsSome (heard_of devices.old.ears handle) → heard_of devices.new.ears handle ≡ heard_of devices.old.ears handle }
    ensures others { (g : AnyHandle) → (g.0 == handle.0) ≡ false → heard_of devices.new.ears g ≡ heard_of devices.old.ears g }
    ensures keeps { KeepsRings devices.old devices.new }
{
    if devices.listens(handle) || !takes.fact(&Key::Live(handle)).is_set() {
        return;
    }
    if let Some(device) = listened_to(devices, takes.fact(&Key::Owner(handle))) {
        devices.listen(handle, device);
    }
}

/// Those of the handles that these marks make live or dead which are live now, and of input devices, begin to listen
/// anew.
fn begin_anew(takes: &DeviceRevoke, devices: &mut DeviceModel, marks: &[Mark])
    requires deaf { (h : AnyHandle) → is_turned h marks.now ≡ true → heard_of devices.old.ears h ≡ None }
    requires live { ListenLive devices.old.ears takes.now.trail }
    requires enough { AreEnough (ring_count devices.old.ears devices.old.rings) takes.now.trail }
    ensures heard { (h : AnyHandle) → heard_of devices.new.ears h ≡ begun_anew h marks.now takes.now.trail devices.old.trail (heard_of devices.old.ears h) }
    ensures keeps { KeepsRings devices.old devices.new }
{
    for mark in marks {
        if let Some(handle) = turned_by(mark) {
            begin_hearing(takes, devices, handle);
        }
    }
}

/// What handles hear is settled behind the marks of an entry: each hears what a granted event brings, and those
/// of input devices that the marks make live begin anew. What is read goes to `read`.
pub fn settle(
    takes: &DeviceRevoke,
    devices: &mut DeviceModel,
    event: &Event,
    verdict: Verdict,
    marks: &[Mark],
    read: &mut Inputs,
)
    requires listen { ListenOn devices.old.ears marks.now takes.now.trail }
    requires enough { AreEnough (ring_count devices.old.ears devices.old.rings) takes.now.trail }
    ensures heard { (h : AnyHandle) → heard_of devices.new.ears h ≡ settled h event.now verdict marks.now takes.now.trail devices.old.trail (heard_of devices.old.ears h) }
    ensures keeps { KeepsRings devices.old devices.new }
{
    bring_granted(devices, event, verdict, read);
    deafen(devices, marks);
    begin_anew(takes, devices, marks);
}
