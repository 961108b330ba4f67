// Messages as they are sent, yet without serials.

ghost use Rattle.std.specs.Prelude.{◌≡◌, IfOk, None};
ghost use Rattle.bus_names.specs.Reading.{interface_fault, member_fault};
ghost use Rattle.wire_out.specs.Messages.{error_message, return_message, sender, signal_message};

use crate::values::text;
use bus_message::{Message, alone, made_bus_name, made_interface, made_member};
use bus_names::{BusName, Interface, Member, ObjectPath};
use bus_value::{Order, Value, Values};
use login_base::{Items, NoMemory};
use std::alloc::Global;

const METHOD_RETURN: u8 = 2;

const ERROR: u8 = 3;

const SIGNAL: u8 = 4;

/// The name of the connection that sends the mail.
fn sender(alloc: Global) -> Result<BusName, NoMemory>
    ensures { IfOk result (λ name. name ≡ sender) }
{
    made_bus_name(alloc, b":1.0")
}

/// What a call is answered, by the call's serial.
pub(crate) fn return_message(
    alloc: Global,
    call: u32,
    values: Vec<Value>,
) -> Result<Message, NoMemory>
    ensures { IfOk result (λ message. message ≡ return_message call values.items) }
{
    Ok(Message {
        order: Order::Little,
        kind: METHOD_RETURN,
        flags: 0,
        serial: 0,
        path: None,
        interface: None,
        member: None,
        error: None,
        reply_to: Some(call),
        destination: None,
        sender: Some(sender(alloc)?),
        body: Values::made(Items::from_vec(values)),
    })
}

/// An error with its name and a text for people.
pub(crate) fn error_message(
    alloc: Global,
    call: u32,
    name: &[u8],
    reason: &[u8],
) -> Result<Message, NoMemory>
    requires { interface_fault name.now ≡ None }
    ensures { IfOk result (λ message. message ≡ error_message call name.now reason.now) }
{
    let values = alone(alloc, text(alloc, reason)?)?;
    Ok(Message {
        order: Order::Little,
        kind: ERROR,
        flags: 0,
        serial: 0,
        path: None,
        interface: None,
        member: None,
        error: Some(made_interface(alloc, name)?),
        reply_to: Some(call),
        destination: None,
        sender: Some(sender(alloc)?),
        body: Values::made(Items::from_vec(values)),
    })
}

/// The names that a signal has, and its sender.
fn signal_names(
    alloc: Global,
    interface: &[u8],
    member: &[u8],
) -> Result<(Interface, Member, BusName), NoMemory>
    requires interface { interface_fault interface.now ≡ None }
    requires member { member_fault member.now ≡ None }
    ensures { IfOk result (λ names. (names.0 ≡ interface.now) × (names.1 ≡ member.now) × (names.2 ≡ sender)) }
{
    let interface = made_interface(alloc, interface)?;
    let member = made_member(alloc, member)?;
    let sender = sender(alloc)?;
    Ok((interface, member, sender))
}

/// A signal of an object.
pub(crate) fn signal_message(
    alloc: Global,
    object: ObjectPath,
    interface: &[u8],
    member: &[u8],
    values: Vec<Value>,
) -> Result<Message, NoMemory>
    requires interface { interface_fault interface.now ≡ None }
    requires member { member_fault member.now ≡ None }
    ensures { IfOk result (λ message. message ≡ signal_message object interface.now member.now values.items) }
{
    match signal_names(alloc, interface, member) {
        Ok((interface, member, sender)) => Ok(Message {
            order: Order::Little,
            kind: SIGNAL,
            flags: 0,
            serial: 0,
            path: Some(object),
            interface: Some(interface),
            member: Some(member),
            error: None,
            reply_to: None,
            destination: None,
            sender: Some(sender),
            body: Values::made(Items::from_vec(values)),
        }),
        Err(error) => {
            drop(object);
            drop(values);
            Err(error)
        }
    }
}
