// The message that a call is sent as.

ghost use Rattle.std.specs.Prelude.{◌≡◌, ◌++◌, [], ◌∷◌, false, true, IfOk, IfSome, None, OnOk};
ghost use Rattle.bus_value.specs.Values.{array, none};
ghost use Rattle.bus_names.specs.Reading.{path_fault};
ghost use Rattle.login_model.specs.Texts.{has_object};
ghost use Rattle.wire_calls.specs.declared.method.Method.TheVariants.{User};
ghost use Rattle.wire_calls.specs.declared.user.UserMethod.TheVariants.{Kill};
ghost use Rattle.wire_calls.specs.inner.Fitting.{FitsAny, FitsMethod};
ghost use Rattle.wire_calls.specs.Methods.{signed_any};
ghost use Rattle.wire_calls.specs.Reading.{call_of};
ghost use Rattle.wire_calls.specs.Sending.{HasTexts, IsSent, arguments_of, creation_values, device_values, flag, inhibition_values, interface_at, is_other, message_with, number, own_sent_as, path_at, place_values, property_type, purpose_values, sent_as, setting_values, signal, text};

use crate::bus::{BusMethod, PeerMethod, PropertiesMethod};
use crate::machine::MachineMethod;
use crate::manager::ManagerMethod;
use crate::method::{AnyMethod, Method};
use crate::reading::METHOD_CALL;
use crate::seat::SeatMethod;
use crate::session::SessionMethod;
use crate::user::UserMethod;
use bus_message::{Message, alone, flag, made_interface, made_member, number};
use bus_names::{Basic, Interface, Member, ObjectPath, Type};
use bus_value::{BasicValue, Order, Value, Values};
use login_base::{DevNo, Items, NoMemory, Uid, Word};
use login_model::{Call, Creation, Inhibition, PropertyName};
use std::alloc::Global;

/// The method that sends a signal to the processes of a user.
fn kill_of(uid: Uid) -> Method
    ensures method { result ≡ User uid Kill }
    ensures fits { FitsMethod result }
{
    Method::User(uid, UserMethod::Kill)
}

/// The method of an object's own interface as which a call is sent: the manager's where it has one.
#[tactic(auto, unfolding(crate::specs::Sending::own_sent_as))]
fn own_sent_as(call: &Call) -> Result<Option<Method>, NoMemory>
    ensures method { IfOk result (λ method. method ≡ own_sent_as call.now) }
    ensures fits { IfOk result (λ method. IfSome method FitsMethod) }
{
    Ok(Some(match call {
        Call::Create(_) => Method::Manager(ManagerMethod::CreateSession),
        Call::GetSession(_) => Method::Manager(ManagerMethod::GetSession),
        Call::GetUser(_) => Method::Manager(ManagerMethod::GetUser),
        Call::GetSeat(_) => Method::Manager(ManagerMethod::GetSeat),
        Call::ListSessions => Method::Manager(ManagerMethod::ListSessions),
        Call::ListUsers => Method::Manager(ManagerMethod::ListUsers),
        Call::ListSeats => Method::Manager(ManagerMethod::ListSeats),
        Call::ListInhibitors => Method::Manager(ManagerMethod::ListInhibitors),
        Call::Activate(_) => Method::Manager(ManagerMethod::ActivateSession),
        Call::ActivateOnSeat(..) => Method::Manager(ManagerMethod::ActivateSessionOnSeat),
        Call::Lock(_) => Method::Manager(ManagerMethod::LockSession),
        Call::Unlock(_) => Method::Manager(ManagerMethod::UnlockSession),
        Call::LockAll => Method::Manager(ManagerMethod::LockSessions),
        Call::UnlockAll => Method::Manager(ManagerMethod::UnlockSessions),
        Call::Kill(..) => Method::Manager(ManagerMethod::KillSession),
        Call::Terminate(_) => Method::Manager(ManagerMethod::TerminateSession),
        Call::TerminateUser(_) => Method::Manager(ManagerMethod::TerminateUser),
        Call::TerminateSeat(_) => Method::Manager(ManagerMethod::TerminateSeat),
        Call::SetLinger(..) => Method::Manager(ManagerMethod::SetUserLinger),
        Call::Power(kind) => Method::Manager(ManagerMethod::Power(*kind)),
        Call::Can(kind) => Method::Manager(ManagerMethod::Can(*kind)),
        Call::Inhibit(_) => Method::Manager(ManagerMethod::Inhibit),
        Call::SetIdle(id, _) => Method::Session(id.text().copied()?, SessionMethod::SetIdleHint),
        Call::SetLocked(id, _) => Method::Session(
            id.text().copied()?,
            SessionMethod::SetLockedHint,
        ),
        Call::Control(id, _) => Method::Session(id.text().copied()?, SessionMethod::TakeControl),
        Call::Uncontrol(id) => Method::Session(id.text().copied()?, SessionMethod::ReleaseControl),
        Call::TakeDevice(id, _) => Method::Session(id.text().copied()?, SessionMethod::TakeDevice),
        Call::ReleaseDevice(id, _) => Method::Session(
            id.text().copied()?,
            SessionMethod::ReleaseDevice,
        ),
        Call::PauseComplete(id, _) => {
            Method::Session(id.text().copied()?, SessionMethod::PauseDeviceComplete)
        }
        Call::SwitchTo(seat, _) => Method::Seat(seat.copied()?, SeatMethod::SwitchTo),
        Call::SwitchToNext(seat) => Method::Seat(seat.copied()?, SeatMethod::SwitchToNext),
        Call::SwitchToPrevious(seat) => Method::Seat(seat.copied()?, SeatMethod::SwitchToPrevious),
        Call::KillUser(uid, _) => kill_of(*uid),
        Call::ReadInput(_) => Method::Machine(MachineMethod::Read),
        Call::SetMode(..) => Method::Machine(MachineMethod::SetMode),
        Call::Close(_) => Method::Machine(MachineMethod::Close),
        Call::Hello => Method::Bus(BusMethod::Hello),
        Call::GetNameOwner(_) => Method::Bus(BusMethod::GetNameOwner),
        Call::AddMatch(_) => Method::Bus(BusMethod::AddMatch),
        Call::RemoveMatch(_) => Method::Bus(BusMethod::RemoveMatch),
        Call::GetProperty(_) | Call::GetAllProperties(..) | Call::SetProperty(_) => {
            return Ok(None);
        }
        Call::Ping | Call::GetMachineId => return Ok(None),
        Call::NoCall | Call::NoObject | Call::NoMethod | Call::BadArguments => return Ok(None),
    }))
}

/// The method as which a call is sent.
#[tactic(auto, unfolding(crate::specs::Sending::sent_as))]
fn sent_as(call: &Call) -> Result<Option<AnyMethod>, NoMemory>
    ensures method { IfOk result (λ method. method ≡ sent_as call.now) }
    ensures fits { IfOk result (λ method. IfSome method FitsAny) }
{
    Ok(Some(match call {
        Call::GetProperty(x) => AnyMethod::Properties(x.path.copied()?, PropertiesMethod::Get),
        Call::GetAllProperties(path, _) => {
            AnyMethod::Properties(path.copied()?, PropertiesMethod::GetAll)
        }
        Call::SetProperty(x) => AnyMethod::Properties(x.path.copied()?, PropertiesMethod::Set),
        Call::Ping => AnyMethod::Peer(PeerMethod::Ping),
        Call::GetMachineId => AnyMethod::Peer(PeerMethod::GetMachineId),
        _ => return Ok(own_sent_as(call)?.map(AnyMethod::Own)),
    }))
}

/// A text as a value.
fn text(word: &Word) -> Result<Value, NoMemory>
    ensures { IfOk result (λ value. value ≡ text word.now) }
{
    Ok(Value::basic(BasicValue::Str(word.copied()?)))
}

/// A signal as a value.
fn signal(value: i32) -> Value
    ensures { result ≡ signal value }
{
    Value::basic(BasicValue::I32(value))
}

/// No further properties of a session.
fn no_properties(alloc: Global) -> Result<Value, NoMemory>
    ensures { IfOk result (λ value. value ≡ array property_type none) }
{
    let parts = [Type::basic(Basic::Str), Type::variant()];
    let property = Type::structure(alloc, Vec::from_array(alloc, parts)?)?;
    Ok(Value::array(property, Vec::new(alloc)))
}

/// A device's numbers.
fn device_values(alloc: Global, device: DevNo) -> Result<Vec<Value>, NoMemory>
    ensures { IfOk result (λ values. values.items ≡ device_values device) }
{
    Ok(Vec::from_array(alloc, [number(device.major), number(device.minor)])?)
}

/// Adds a text.
fn push_text(out: &mut Vec<Value>, word: &Word) -> Result<(), NoMemory>
    ensures { OnOk result (out.new.items ≡ out.old.items ++ text word.now ∷ []) }
{
    out.push(text(word)?)?;
    Ok(())
}

/// Adds a number.
fn push_number(out: &mut Vec<Value>, value: u32) -> Result<(), NoMemory>
    ensures { OnOk result (out.new.items ≡ out.old.items ++ number value ∷ []) }
{
    out.push(number(value))?;
    Ok(())
}

/// Adds whose a session is and what it is for.
fn push_purpose(out: &mut Vec<Value>, x: &Creation) -> Result<(), NoMemory>
    ensures { OnOk result (out.new.items ≡ out.old.items ++ purpose_values x.now) }
{
    push_number(out, x.uid.0)?;
    push_number(out, x.process)?;
    push_text(out, &x.service)?;
    push_text(out, &x.session_type)?;
    push_text(out, &x.class)?;
    push_text(out, &x.desktop)
}

/// Adds where a session is and where its user is.
fn push_place(out: &mut Vec<Value>, x: &Creation) -> Result<(), NoMemory>
    ensures { OnOk result (out.new.items ≡ out.old.items ++ place_values x.now) }
{
    push_text(out, &x.seat)?;
    push_number(out, x.vt)?;
    push_text(out, &x.tty)?;
    push_text(out, &x.display)?;
    out.push(flag(x.remote))?;
    push_text(out, &x.remote_user)?;
    push_text(out, &x.remote_host)
}

/// What a session is created with, and no further properties.
fn creation_values(alloc: Global, x: &Creation) -> Result<Vec<Value>, NoMemory>
    ensures { IfOk result (λ values. values.items ≡ creation_values x.now) }
{
    let mut out = Vec::new(alloc);
    push_purpose(&mut out, x)?;
    push_place(&mut out, x)?;
    out.push(no_properties(alloc)?)?;
    Ok(out)
}

/// What a lock is asked for with.
fn inhibition_values(alloc: Global, x: &Inhibition) -> Result<Vec<Value>, NoMemory>
    ensures { IfOk result (λ values. values.items ≡ inhibition_values x.now) }
{
    let mut out = Vec::new(alloc);
    push_text(&mut out, &x.what)?;
    push_text(&mut out, &x.who)?;
    push_text(&mut out, &x.why)?;
    push_text(&mut out, &x.mode)?;
    Ok(out)
}

/// Two texts.
fn two_texts(alloc: Global, first: &Word, second: &Word) -> Result<Vec<Value>, NoMemory>
    ensures { IfOk result (λ values. values.items ≡ text first.now ∷ text second.now ∷ []) }
{
    let mut out = alone(alloc, text(first)?)?;
    push_text(&mut out, second)?;
    Ok(out)
}

/// A session, which of its processes, and the signal.
fn kill_values(alloc: Global, id: &Word, whom: &Word, number: i32) -> Result<Vec<Value>, NoMemory>
    ensures { IfOk result (λ values. values.items ≡ text id.now ∷ text whom.now ∷ signal number ∷ []) }
{
    let mut out = two_texts(alloc, id, whom)?;
    out.push(signal(number))?;
    Ok(out)
}

/// A user, whether it lingers, and that nobody is asked to authenticate.
fn linger_values(alloc: Global, uid: u32, on: bool) -> Result<Vec<Value>, NoMemory>
    ensures { IfOk result (λ values. values.items ≡ number uid ∷ flag on ∷ flag false ∷ []) }
{
    Ok(Vec::from_array(alloc, [number(uid), flag(on), flag(false)])?)
}

/// A property, and a value to which it would be set.
fn setting_values(alloc: Global, x: &PropertyName) -> Result<Vec<Value>, NoMemory>
    ensures { IfOk result (λ values. values.items ≡ setting_values x.now) }
{
    let mut out = two_texts(alloc, &x.interface, &x.name)?;
    out.push(Value::variant(alloc, flag(false))?)?;
    Ok(out)
}

/// The arguments with which a call is sent.
#[tactic(auto, unfolding(crate::specs::Sending::arguments_of))]
fn arguments_of(alloc: Global, call: &Call) -> Result<Vec<Value>, NoMemory>
    ensures { IfOk result (λ values. values.items ≡ arguments_of call.now) }
{
    match call {
        Call::Create(x) => creation_values(alloc, x.get()),
        Call::GetSession(id) => alone(alloc, text(id.text())?),
        Call::GetUser(uid) => alone(alloc, number(uid.0)),
        Call::GetSeat(seat) => alone(alloc, text(seat)?),
        Call::Activate(id) => alone(alloc, text(id.text())?),
        Call::ActivateOnSeat(id, seat) => two_texts(alloc, id.text(), seat),
        Call::Lock(id) => alone(alloc, text(id.text())?),
        Call::Unlock(id) => alone(alloc, text(id.text())?),
        Call::Kill(id, whom, number) => kill_values(alloc, id.text(), whom, *number),
        Call::Terminate(id) => alone(alloc, text(id.text())?),
        Call::TerminateUser(uid) => alone(alloc, number(uid.0)),
        Call::TerminateSeat(seat) => alone(alloc, text(seat)?),
        Call::SetLinger(uid, on) => linger_values(alloc, uid.0, *on),
        Call::Power(_) => alone(alloc, flag(false)),
        Call::Inhibit(x) => inhibition_values(alloc, x),
        Call::SetIdle(_, on) => alone(alloc, flag(*on)),
        Call::SetLocked(_, on) => alone(alloc, flag(*on)),
        Call::Control(_, force) => alone(alloc, flag(*force)),
        Call::TakeDevice(_, device) => device_values(alloc, *device),
        Call::ReleaseDevice(_, device) => device_values(alloc, *device),
        Call::PauseComplete(_, device) => device_values(alloc, *device),
        Call::SwitchTo(_, vt) => alone(alloc, number(*vt)),
        Call::KillUser(_, number) => alone(alloc, signal(*number)),
        Call::ReadInput(handle) => alone(alloc, number(handle.0)),
        Call::SetMode(handle, mode) => Ok(Vec::from_array(
            alloc,
            [number(handle.0), number(*mode)],
        )?),
        Call::Close(handle) => alone(alloc, number(handle.0)),
        Call::ListSessions | Call::ListUsers | Call::ListSeats | Call::ListInhibitors => {
            Ok(Vec::new(alloc))
        }
        Call::LockAll | Call::UnlockAll | Call::Can(_) | Call::Uncontrol(_) => Ok(Vec::new(alloc)),
        Call::SwitchToNext(_) | Call::SwitchToPrevious(_) => Ok(Vec::new(alloc)),
        Call::GetProperty(x) => two_texts(alloc, &x.interface, &x.name),
        Call::GetAllProperties(_, interface) => alone(alloc, text(interface)?),
        Call::SetProperty(x) => setting_values(alloc, x),
        Call::GetNameOwner(name) => alone(alloc, text(name)?),
        Call::AddMatch(rule) | Call::RemoveMatch(rule) => alone(alloc, text(rule)?),
        Call::Ping | Call::GetMachineId | Call::Hello => Ok(Vec::new(alloc)),
        Call::NoCall | Call::NoObject | Call::NoMethod | Call::BadArguments => Ok(Vec::new(alloc)),
    }
}

/// The path of a method's object, its interface and its name.
fn address(alloc: Global, method: AnyMethod) -> Result<(ObjectPath, Interface, Member), NoMemory>
    requires { path_fault (path_at method) ≡ None }
    ensures { IfOk result (λ address. (address.0 ≡ path_at method) × (address.1 ≡ interface_at method) × (address.2 ≡ (signed_any method).name)) }
{
    let member = made_member(alloc, method.name())?;
    let (path, interface) = method.into_place(alloc)?;
    let interface = made_interface(alloc, interface)?;
    Ok((path, interface, member))
}

/// The call of a method with these arguments.
fn message_with(
    alloc: Global,
    method: AnyMethod,
    arguments: Vec<Value>,
    serial: u32,
) -> Result<Message, NoMemory>
    requires { path_fault (path_at method) ≡ None }
    ensures { IfOk result (λ message. message ≡ message_with method arguments.items serial) }
{
    match address(alloc, method) {
        Ok((path, interface, member)) => Ok(Message {
            order: Order::Little,
            kind: METHOD_CALL,
            flags: 0,
            serial,
            path: Some(path),
            interface: Some(interface),
            member: Some(member),
            error: None,
            reply_to: None,
            destination: None,
            sender: None,
            body: Values::made(Items::from_vec(arguments)),
        }),
        Err(error) => {
            drop(arguments);
            Err(error)
        }
    }
}

/// The message that a call is sent as, which is read as the call again: the method of the manager where it has one,
/// else that of the session, the seat, the user, the machine or the bus, or of properties. What asks a peer is sent to
/// the manager.
pub fn message_of(alloc: Global, call: &Call, serial: u32) -> Result<Message, NoMemory>
    requires ordinary { is_other call.now ≡ false }
    requires texts { HasTexts call.now }
    requires object { has_object call.now ≡ true }
    ensures sent { IfOk result (λ message. IsSent call.now serial message) }
    ensures read { IfOk result (λ message. call_of message ≡ call.now) }
{
    match sent_as(call)? {
        Some(method) => {
            let arguments = arguments_of(alloc, call)?;
            message_with(alloc, method, arguments, serial)
        }
        None => unreachable!(),
    }
}
