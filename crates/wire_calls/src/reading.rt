// Which call a message is.

ghost use Rattle.std.specs.Prelude.{◌≡◌, ◌&&◌, if◌then◌else◌, IfOk, None, Some};
ghost use Rattle.std.specs.Option.{option_and_then};
ghost use Rattle.wire_calls.specs.Methods.{properties_named};
ghost use Rattle.login_model.specs.Objects.{properties_interface};
ghost use Rattle.wire_calls.specs.Reading.{at_path, call_of, is_peer, lets, method_of, on_method, on_object, own_method, peer_method, request_of};

use crate::bus::{PeerMethod, PropertiesMethod};
use crate::method::{AnyMethod, Method, PEER, call_with};
use crate::object::{Object, object_of};
use bus_message::Message;
use bus_names::{Interface, ObjectPath};
use login_base::{ConnId, NoMemory, Word};
use login_model::{Call, PROPERTIES_INTERFACE, Request};
use std::alloc::Global;

/// The kind of messages that are calls.
pub(crate) const METHOD_CALL: u8 = 1;

/// Whether this is the interface that every path has.
fn is_peer(interface: &Option<Interface>) -> bool
    ensures { result ≡ is_peer interface.now }
{
    match interface {
        Some(name) => name.as_slice() == PEER,
        None => false,
    }
}

/// Whether what a message says of the interface lets a method be looked up in this one.
fn lets(interface: &Option<Interface>, own: &[u8]) -> bool
    ensures { result ≡ lets interface.now own.now }
{
    match interface {
        Some(name) => name.as_slice() == own,
        None => true,
    }
}

/// The method of properties with a name, of the object with this path.
fn properties_named(
    alloc: Global,
    path: &ObjectPath,
    name: &[u8],
) -> Result<Option<AnyMethod>, NoMemory>
    ensures { IfOk result (λ method. method ≡ properties_named path.now name.now) }
{
    match PropertiesMethod::named(name) {
        Some(method) => {
            let path = Word::from_slice(alloc, path.as_slice())?;
            Ok(Some(AnyMethod::Properties(path, method)))
        }
        None => Ok(None),
    }
}

/// The method of peers with a name, where what a message says of the interface lets it be one.
fn peer_method(interface: &Option<Interface>, name: &[u8]) -> Option<AnyMethod>
    ensures { result ≡ peer_method interface.now name.now }
{
    if lets(interface, PEER) {
        Some(AnyMethod::Peer(PeerMethod::named(name)?))
    } else {
        None
    }
}

/// The method with a name of an object's own interface.
fn own_method(interface: &Option<Interface>, name: &[u8], object: Object) -> Option<AnyMethod>
    ensures { result ≡ own_method interface.now name.now object }
{
    if lets(interface, object.interface()) {
        Some(AnyMethod::Own(Method::named(object, name)?))
    } else {
        None
    }
}

/// The method with a name of the properties of the object with this path, if it has properties.
fn properties_method(
    alloc: Global,
    path: &ObjectPath,
    interface: &Option<Interface>,
    name: &[u8],
    has_properties: bool,
) -> Result<Option<AnyMethod>, NoMemory>
    ensures { IfOk result (λ method. method ≡ if has_properties && lets interface.now properties_interface then properties_named path.now name.now else None) }
{
    if has_properties && lets(interface, PROPERTIES_INTERFACE) {
        properties_named(alloc, path, name)
    } else {
        Ok(None)
    }
}

/// The method of the object with this path that an interface and a name name.
fn method_named(
    alloc: Global,
    path: &ObjectPath,
    interface: &Option<Interface>,
    name: &[u8],
    object: Object,
) -> Result<Option<AnyMethod>, NoMemory>
    ensures { IfOk result (λ method. method ≡ method_of path.now interface.now (Some name.now) object) }
{
    let has_properties = object.has_properties();
    if let Some(method) = own_method(interface, name, object) {
        return Ok(Some(method));
    }
    let method = properties_method(alloc, path, interface, name, has_properties)?;
    Ok(method.or(peer_method(interface, name)))
}

/// The call that a method is with a message's arguments, if there is such a method.
fn on_method(alloc: Global, method: Option<AnyMethod>, message: &Message) -> Result<Call, NoMemory>
    ensures { IfOk result (λ call. call ≡ on_method message.now.body method) }
{
    match method {
        Some(method) => call_with(alloc, method, &message.body),
        None => Ok(Call::NoMethod),
    }
}

/// The call that a message to an object of this path is.
fn on_object(
    alloc: Global,
    message: &Message,
    path: &ObjectPath,
    object: Object,
) -> Result<Call, NoMemory>
    ensures { IfOk result (λ call. call ≡ on_object message.now path.now (Some object)) }
{
    let Some(member) = &message.member else {
        return Ok(Call::NoMethod);
    };
    let method = method_named(alloc, path, &message.interface, member.as_slice(), object)?;
    on_method(alloc, method, message)
}

/// The call that a message is whose interface is not that of peers.
fn at_path(alloc: Global, message: &Message) -> Result<Call, NoMemory>
    ensures { IfOk result (λ call. call ≡ at_path message.now message.now.path) }
{
    let Some(path) = &message.path else {
        return Ok(Call::NoObject);
    };
    match object_of(alloc, path.as_slice())? {
        Some(object) => on_object(alloc, message, path, object),
        None => Ok(Call::NoObject),
    }
}

/// The method of peers that a message names.
fn peer_of(message: &Message) -> Option<AnyMethod>
    ensures { result ≡ option_and_then (peer_method message.now.interface) message.now.member }
{
    peer_method(&message.interface, message.member.as_ref()?.as_slice())
}

/// The call that a message is, whatever its kind and its fields are. The destination is not looked at.
#[tactic(auto, unfolding(crate::specs::Reading::call_of))]
pub fn call_of(alloc: Global, message: &Message) -> Result<Call, NoMemory>
    ensures { IfOk result (λ call. call ≡ call_of message.now) }
{
    if message.kind != METHOD_CALL {
        Ok(Call::NoCall)
    } else if is_peer(&message.interface) {
        on_method(alloc, peer_of(message), message)
    } else {
        at_path(alloc, message)
    }
}

/// The request that a connection's message is.
pub fn request_of(alloc: Global, who: ConnId, message: &Message) -> Result<Request, NoMemory>
    ensures { IfOk result (λ request. request ≡ request_of who message.now) }
{
    Ok(Request {
        who,
        serial: message.serial,
        quiet: message.flags % 2 == 1,
        call: call_of(alloc, message)?,
    })
}
