// The methods of all objects.

ghost use Rattle.std.specs.Prelude.{◌≡◌, IfOk};
ghost use Rattle.std.specs.Str.{bytes_eq};
ghost use Rattle.wire_calls.specs.Arguments.{signature_of};
ghost use Rattle.wire_calls.specs.Calls.{call_with};
ghost use Rattle.wire_calls.specs.inner.KeptArguments.{front_call};

use crate::arguments::{are_short, is_short};
use crate::bus::{BusMethod, PeerMethod, PropertiesMethod, bus_call, peer_call, properties_call};
use crate::machine::{MachineMethod, machine_call};
use crate::manager::{ManagerMethod, manager_call};
use crate::object::Object;
use crate::seat::{SeatMethod, seat_call};
use crate::session::{SessionMethod, session_call};
use crate::user::{UserMethod, user_call};
use bus_message::made_path;
use bus_names::ObjectPath;
use bus_value::{Value, Values};
use login_base::{NoMemory, Uid, Word};
use login_model::{Call, NamedSession, PROPERTIES_INTERFACE};
use std::alloc::Global;

/// The interface of peers, which every path has.
pub(crate) const PEER: &[u8] = b"org.freedesktop.DBus.Peer";

/// A method of an object's own interface.
#[derive(Drop)]
pub enum Method {
    Manager(ManagerMethod),
    /// Of the session with this id.
    Session(Word, SessionMethod),
    /// Of the seat with this name.
    Seat(Word, SeatMethod),
    User(Uid, UserMethod),
    Machine(MachineMethod),
    Bus(BusMethod),
}

impl Method {
    ghost use Rattle.std.specs.Prelude.{◌≡◌, IfOk};
    ghost use Rattle.wire_calls.specs.Calls.{is_short_method, method_call};
    ghost use Rattle.wire_calls.specs.Methods.{method_named, object_of, signed};

    /// The object's own method with a name.
    pub(crate) fn named(object: Object, name: &[u8]) -> Option<Method>
        ensures { result ≡ method_named object name.now }
    {
        match object {
            Object::Manager => Some(Method::Manager(ManagerMethod::named(name)?)),
            Object::Session(id) => Some(Method::Session(id, SessionMethod::named(name)?)),
            Object::Seat(seat) => Some(Method::Seat(seat, SeatMethod::named(name)?)),
            Object::User(uid) => Some(Method::User(uid, UserMethod::named(name)?)),
            Object::Machine => Some(Method::Machine(MachineMethod::named(name)?)),
            Object::Bus => Some(Method::Bus(BusMethod::named(name)?)),
        }
    }

    /// The method's name.
    pub(crate) fn name(&self) -> &'static [u8]
        ensures { result.now ≡ (signed self.now).name }
    {
        match self {
            Method::Manager(method) => method.name(),
            Method::Session(_, method) => method.name(),
            Method::Seat(_, method) => method.name(),
            Method::User(_, method) => method.name(),
            Method::Machine(method) => method.name(),
            Method::Bus(method) => method.name(),
        }
    }

    /// The object that it is of.
    pub(crate) fn into_object(self) -> Object
        ensures { result ≡ object_of self }
    {
        match self {
            Method::Manager(_) => Object::Manager,
            Method::Session(id, _) => Object::Session(id),
            Method::Seat(seat, _) => Object::Seat(seat),
            Method::User(uid, _) => Object::User(uid),
            Method::Machine(_) => Object::Machine,
            Method::Bus(_) => Object::Bus,
        }
    }

    /// The signature of its arguments.
    fn takes(&self) -> &'static [u8]
        ensures { result.now ≡ (signed self.now).takes }
    {
        match self {
            Method::Manager(method) => method.takes(),
            Method::Session(_, method) => method.takes(),
            Method::Seat(_, method) => method.takes(),
            Method::User(_, method) => method.takes(),
            Method::Machine(method) => method.takes(),
            Method::Bus(method) => method.takes(),
        }
    }

    /// Whether the text that its path names is within the limit.
    fn is_short(&self) -> bool
        ensures { result ≡ is_short_method self.now }
    {
        match self {
            Method::Session(name, _) => is_short(name),
            Method::Seat(name, _) => is_short(name),
            Method::Manager(_) | Method::User(..) | Method::Machine(_) | Method::Bus(_) => true,
        }
    }

    /// The call that it is with arguments of its signature.
    fn call(self, alloc: Global, values: &[Value]) -> Result<Call, NoMemory>
        ensures { IfOk result (λ call. call ≡ method_call self values.now) }
    {
        match self {
            Method::Manager(method) => manager_call(alloc, method, values),
            Method::Session(id, method) => {
                session_call(alloc, NamedSession::new(id), method, values)
            }
            Method::Seat(seat, method) => seat_call(alloc, seat, method, values),
            Method::User(uid, method) => Ok(user_call(uid, method, values)),
            Method::Machine(method) => Ok(machine_call(method, values)),
            Method::Bus(method) => bus_call(alloc, method, values),
        }
    }
}

/// A method of any interface.
#[derive(Drop)]
pub enum AnyMethod {
    /// Of an object's own interface.
    Own(Method),
    /// Of the properties of the object with this path.
    Properties(Word, PropertiesMethod),
    /// Of peers, on whatever path.
    Peer(PeerMethod),
}

impl AnyMethod {
    ghost use Rattle.std.specs.Prelude.{◌≡◌, IfOk, None};
    ghost use Rattle.bus_names.specs.Reading.{path_fault};
    ghost use Rattle.wire_calls.specs.Calls.{any_call, is_short_any};
    ghost use Rattle.wire_calls.specs.Methods.{signed_any};
    ghost use Rattle.wire_calls.specs.inner.KeptArguments.{kept};
    ghost use Rattle.wire_calls.specs.Sending.{interface_at, path_at};

    /// The method's name.
    pub(crate) fn name(&self) -> &'static [u8]
        ensures { result.now ≡ (signed_any self.now).name }
    {
        match self {
            AnyMethod::Own(method) => method.name(),
            AnyMethod::Properties(_, method) => method.name(),
            AnyMethod::Peer(method) => method.name(),
        }
    }

    /// The signature of its arguments.
    fn takes(&self) -> &'static [u8]
        ensures { result.now ≡ (signed_any self.now).takes }
    {
        match self {
            AnyMethod::Own(method) => method.takes(),
            AnyMethod::Properties(_, method) => method.takes(),
            AnyMethod::Peer(method) => method.takes(),
        }
    }

    /// How many of its arguments the call is made of. The further properties of a session and the value that would be
    /// set stand behind these.
    fn kept(&self) -> usize
        ensures { result ≡ kept self.now }
    {
        match self {
            AnyMethod::Own(Method::Manager(ManagerMethod::CreateSession)) => 13,
            AnyMethod::Properties(_, PropertiesMethod::Set) => 2,
            _ => self.takes().len(),
        }
    }

    /// Whether the text that its path names, or the path of a property's call, is within the limit.
    fn is_short(&self) -> bool
        ensures { result ≡ is_short_any self.now }
    {
        match self {
            AnyMethod::Own(method) => method.is_short(),
            AnyMethod::Properties(path, _) => is_short(path),
            AnyMethod::Peer(_) => true,
        }
    }

    /// The call that it is with arguments of its signature.
    fn call(self, alloc: Global, values: &[Value]) -> Result<Call, NoMemory>
        ensures { IfOk result (λ call. call ≡ any_call self values.now) }
    {
        match self {
            AnyMethod::Own(method) => method.call(alloc, values),
            AnyMethod::Properties(path, method) => properties_call(alloc, path, method, values),
            AnyMethod::Peer(method) => Ok(peer_call(method)),
        }
    }

    /// The path of its object and its interface.
    pub(crate) fn into_place(self, alloc: Global) -> Result<(ObjectPath, &'static [u8]), NoMemory>
        requires { path_fault (path_at self) ≡ None }
        ensures path { IfOk result (λ place. place.0 ≡ path_at self) }
        ensures interface { IfOk result (λ place. place.1.now ≡ interface_at self) }
    {
        match self {
            AnyMethod::Own(method) => {
                let object = method.into_object();
                let interface = object.interface();
                Ok((object.path(alloc)?, interface))
            }
            AnyMethod::Properties(path, _) => Ok((
                made_path(alloc, path.as_slice())?,
                PROPERTIES_INTERFACE,
            )),
            AnyMethod::Peer(_) => Ok((Object::Manager.path(alloc)?, PEER)),
        }
    }
}

/// Whether the values are of this signature.
fn is_of(alloc: Global, body: &Values, takes: &[u8]) -> Result<bool, NoMemory>
    ensures { IfOk result (λ same. same ≡ bytes_eq (signature_of body.now) takes.now) }
{
    Ok(body.letters(alloc)?.as_slice() == takes)
}

/// The call that a method is with the arguments in front that it keeps.
fn front_call(alloc: Global, method: AnyMethod, values: &[Value]) -> Result<Call, NoMemory>
    ensures { IfOk result (λ call. call ≡ front_call method values.now) }
{
    if !method.is_short() || !are_short(values) {
        return Ok(Call::BadArguments);
    }
    method.call(alloc, values)
}

/// The call that a method is with any arguments. No values are made for those of another signature, nor of those that
/// the call does not keep.
#[tactic(auto, unfolding(crate::specs::Calls::call_with))]
pub(crate) fn call_with(alloc: Global, method: AnyMethod, body: &Values) -> Result<Call, NoMemory>
    ensures { IfOk result (λ call. call ≡ call_with method body.now) }
{
    if !is_of(alloc, body, method.takes())? {
        return Ok(Call::BadArguments);
    }
    let values = body.front(alloc, method.kept())?;
    front_call(alloc, method, values.as_slice())
}
