// The signals that notices are sent as.

ghost use Rattle.std.specs.Prelude.{◌≡◌, ◌++◌, ◌∷◌, [], IfOk, OnOk, None, false, true};
ghost use Rattle.login_base.specs.Seat.{is_seat_name};
ghost use Rattle.bus_names.specs.Reading.{member_fault};
ghost use Rattle.bus_names.specs.Types.{variant as variant_type};
ghost use Rattle.bus_names.specs.declared.basic.Basic.TheVariants.{Str};
ghost use Rattle.bus_value.specs.Values.{dict, entry, no_entries, variant};
ghost use Rattle.bus_value.specs.declared.basic_value.BasicValue.TheVariants.{Str as StrValue};
ghost use Rattle.wire_out.specs.Signals.{active_changed, changed, manager_signal, seat_changed, session_signal, signals};
ghost use Rattle.wire_out.specs.Messages.{number};
ghost use Rattle.wire_out.specs.inner.Sendable.{CanBeTold};
ghost use Rattle.wire_out.specs.inner.Numbers.{HasNoticeNumbers, IsNumber, IsNumberIf};

use crate::messages::signal_message;
use crate::paths::{seat_path, session_path};
use crate::values::{
    pair, push, reference_or_none, seat_reference, session_reference, text, user_reference,
};
use bus_message::{Message, alone, flag, made_path, number};
use bus_names::{Basic, ObjectPath, Type};
use bus_value::{BasicValue, Value};
use login_base::{DevNo, NoMemory, SeatName, SessId, Word};
use login_model::{
    MANAGER_INTERFACE, MANAGER_PATH, Notice, PROPERTIES_INTERFACE, SEAT_INTERFACE,
    SESSION_INTERFACE, SeatProperty, SessionProperty,
};
use std::alloc::Global;

/// A signal of a session.
fn session_signal(
    alloc: Global,
    session: SessId,
    member: &[u8],
    values: Vec<Value>,
) -> Result<Message, NoMemory>
    requires { member_fault member.now ≡ None }
    ensures message { IfOk result (λ message. message ≡ session_signal session member.now values.items) }
    ensures ranged { OnOk result (IsNumber session.0) }
{
    let object = session_path(alloc, session)?;
    signal_message(alloc, object, SESSION_INTERFACE, member, values)
}

/// A signal of the manager.
fn manager_signal(alloc: Global, member: &[u8], values: Vec<Value>) -> Result<Message, NoMemory>
    requires { member_fault member.now ≡ None }
    ensures { IfOk result (λ message. message ≡ manager_signal member.now values.items) }
{
    let object = made_path(alloc, MANAGER_PATH)?;
    signal_message(alloc, object, MANAGER_INTERFACE, member, values)
}

/// A device's numbers, and a value behind them.
fn device_values(alloc: Global, device: DevNo, last: Value) -> Result<Vec<Value>, NoMemory>
    ensures values { IfOk result (λ values. values.items ≡ number device.major ∷ number device.minor ∷ last ∷ []) }
    ensures ranged { OnOk result (IsNumber device.major × IsNumber device.minor) }
{
    let mut out = pair(alloc, number(device.major), number(device.minor))?;
    push(&mut out, last)?;
    Ok(out)
}

/// One property with its value.
fn property_values(alloc: Global, property: &[u8], value: Value) -> Result<Value, NoMemory>
    ensures { IfOk result (λ made. made ≡ dict Str variant_type (entry (StrValue property.now) (variant value) no_entries)) }
{
    let value = Value::variant(alloc, value)?;
    let name = match Word::from_slice(alloc, property) {
        Ok(name) => BasicValue::Str(name),
        Err(error) => {
            drop(value);
            return Err(error);
        }
    };
    let pairs = Vec::from_array(alloc, [(name, value)])?;
    Ok(Value::dict(Basic::Str, Type::variant(), pairs))
}

/// The signal that a property of an object has changed to this value.
fn changed(
    alloc: Global,
    object: ObjectPath,
    interface: &[u8],
    property: &[u8],
    value: Value,
) -> Result<Message, NoMemory>
    ensures { IfOk result (λ message. message ≡ changed object interface.now property.now value) }
{
    let name = text(alloc, interface)?;
    let mut values = pair(alloc, name, property_values(alloc, property, value)?)?;
    push(
        &mut values,
        Value::array(Type::basic(Basic::Str), Vec::new(alloc)),
    )?;
    signal_message(
        alloc,
        object,
        PROPERTIES_INTERFACE,
        b"PropertiesChanged",
        values,
    )
}

/// Adds a message.
fn push_message(out: &mut Vec<Message>, message: Message) -> Result<(), NoMemory>
    ensures { OnOk result (out.new.items ≡ out.old.items ++ message ∷ []) }
{
    out.push(message)?;
    Ok(())
}

/// Adds the signal that a session is active or not, if it is one.
fn push_active(
    alloc: Global,
    out: &mut Vec<Message>,
    session: Option<SessId>,
    active: bool,
) -> Result<(), NoMemory>
    ensures messages { OnOk result (out.new.items ≡ out.old.items ++ active_changed session active) }
    ensures ranged { OnOk result (IsNumberIf session) }
{
    match session {
        Some(s) => {
            let object = session_path(alloc, s)?;
            let message = changed(
                alloc,
                object,
                SESSION_INTERFACE,
                SessionProperty::Active.name(),
                flag(active),
            )?;
            push_message(out, message)
        }
        None => Ok(()),
    }
}

/// The signal that a seat has another active session.
fn seat_changed(alloc: Global, seat: &SeatName, now: Option<SessId>) -> Result<Message, NoMemory>
    requires { is_seat_name seat.now ≡ true }
    ensures { IfOk result (λ message. message ≡ seat_changed seat.now now) }
{
    let object = seat_path(alloc, seat)?;
    let value = Value::structure(reference_or_none(alloc, now)?);
    changed(
        alloc,
        object,
        SEAT_INTERFACE,
        SeatProperty::ActiveSession.name(),
        value,
    )
}

/// The signals of a change of a seat's active session.
fn active_signals(
    alloc: Global,
    seat: &SeatName,
    before: Option<SessId>,
    now: Option<SessId>,
) -> Result<Vec<Message>, NoMemory>
    requires { is_seat_name seat.now ≡ true }
    ensures messages { IfOk result (λ messages. messages.items ≡ active_changed before false ++ (active_changed now true ++ seat_changed seat.now now ∷ [])) }
    ensures ranged { OnOk result (IsNumberIf before × IsNumberIf now) }
{
    let mut out = Vec::new(alloc);
    push_active(alloc, &mut out, before, false)?;
    push_active(alloc, &mut out, now, true)?;
    push_message(&mut out, seat_changed(alloc, seat, now)?)?;
    Ok(out)
}

/// The one signal of a session.
fn of_session(
    alloc: Global,
    session: SessId,
    member: &[u8],
    values: Vec<Value>,
) -> Result<Vec<Message>, NoMemory>
    requires { member_fault member.now ≡ None }
    ensures messages { IfOk result (λ messages. messages.items ≡ session_signal session member.now values.items ∷ []) }
    ensures ranged { OnOk result (IsNumber session.0) }
{
    let message = session_signal(alloc, session, member, values)?;
    Ok(Vec::from_array(alloc, [message])?)
}

/// The one signal of the manager.
fn of_manager(alloc: Global, member: &[u8], values: Vec<Value>) -> Result<Vec<Message>, NoMemory>
    requires { member_fault member.now ≡ None }
    ensures { IfOk result (λ messages. messages.items ≡ manager_signal member.now values.items ∷ []) }
{
    let message = manager_signal(alloc, member, values)?;
    Ok(Vec::from_array(alloc, [message])?)
}

/// The signals of a notice.
#[tactic(auto, unfolding(crate::specs::Signals::signals))]
pub(crate) fn signals(alloc: Global, notice: &Notice) -> Result<Vec<Message>, NoMemory>
    requires { CanBeTold notice.now }
    ensures messages { IfOk result (λ messages. messages.items ≡ signals notice.now) }
    ensures ranged { OnOk result (HasNoticeNumbers notice.now) }
{
    match notice {
        Notice::Pause(s, device, kind) => {
            let word = text(alloc, kind.name())?;
            of_session(
                alloc,
                *s,
                b"PauseDevice",
                device_values(alloc, *device, word)?,
            )
        }
        Notice::Resume(s, device, handle) => {
            let values = device_values(alloc, *device, number(handle.0))?;
            of_session(alloc, *s, b"ResumeDevice", values)
        }
        Notice::Lock(s) => of_session(alloc, *s, b"Lock", Vec::new(alloc)),
        Notice::Unlock(s) => of_session(alloc, *s, b"Unlock", Vec::new(alloc)),
        Notice::SessionNew(s) => of_manager(alloc, b"SessionNew", session_reference(alloc, *s)?),
        Notice::SessionRemoved(s) => {
            of_manager(alloc, b"SessionRemoved", session_reference(alloc, *s)?)
        }
        Notice::UserNew(uid) => of_manager(alloc, b"UserNew", user_reference(alloc, *uid)?),
        Notice::UserRemoved(uid) => {
            of_manager(alloc, b"UserRemoved", user_reference(alloc, *uid)?)
        }
        Notice::SeatNew(seat) => of_manager(alloc, b"SeatNew", seat_reference(alloc, seat)?),
        Notice::SeatRemoved(seat) => {
            of_manager(alloc, b"SeatRemoved", seat_reference(alloc, seat)?)
        }
        Notice::PrepareShutdown(begins) => {
            of_manager(alloc, b"PrepareForShutdown", alone(alloc, flag(*begins))?)
        }
        Notice::PrepareSleep(begins) => {
            of_manager(alloc, b"PrepareForSleep", alone(alloc, flag(*begins))?)
        }
        Notice::Active(seat, before, now) => active_signals(alloc, seat, *before, *now),
    }
}
