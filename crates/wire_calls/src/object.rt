// The objects that calls are of, by their paths.

ghost use Rattle.std.specs.Prelude.{◌≡◌, ◌++◌, IfOk};
ghost use Rattle.std.specs.Fmt.{decimal};
ghost use Rattle.login_base.specs.Labels.{escape};
ghost use Rattle.wire_calls.specs.Objects.{object_of, text_of, user_front, user_of};

use bus_message::{joined, made_path, numbered};
use bus_names::{NameFault, ObjectPath, unescape_label};
use bus_value::is_text;
use login_base::{NoMemory, Uid, Word, escape, read_number};
use login_model::{
    MANAGER_INTERFACE, MANAGER_PATH, SEAT_FRONT, SEAT_INTERFACE, SESSION_FRONT, SESSION_INTERFACE,
    USER_FRONT, USER_INTERFACE,
};
use std::alloc::Global;

const MACHINE: &[u8] = b"/login/model/machine";

const BUS: &[u8] = b"/org/freedesktop/DBus";

/// An object with an interface of its own, whether there is such a one or not (org.freedesktop.login1(5)).
#[derive(Drop)]
pub enum Object {
    Manager,
    /// The session with this id.
    Session(Word),
    /// The seat with this name.
    Seat(Word),
    User(Uid),
    /// The modelled machine.
    Machine,
    /// The bus itself (D-Bus Specification, "Message Bus Messages").
    Bus,
}

impl Object {
    ghost use Rattle.std.specs.Prelude.{◌≡◌, IfOk, None};
    ghost use Rattle.bus_names.specs.Reading.{path_fault};
    ghost use Rattle.wire_calls.specs.Objects.{has_properties, interface_of, path_of};

    /// The interface that is its own.
    pub(crate) fn interface(&self) -> &'static [u8]
        ensures { result.now ≡ interface_of self.now }
    {
        match self {
            Object::Manager => MANAGER_INTERFACE,
            Object::Session(_) => SESSION_INTERFACE,
            Object::Seat(_) => SEAT_INTERFACE,
            Object::User(_) => USER_INTERFACE,
            Object::Machine => b"login.model.Machine1",
            Object::Bus => b"org.freedesktop.DBus",
        }
    }

    /// Whether it has properties.
    pub(crate) fn has_properties(&self) -> bool
        ensures { result ≡ has_properties self.now }
    {
        match self {
            Object::Manager | Object::Session(_) | Object::Seat(_) | Object::User(_) => true,
            Object::Machine | Object::Bus => false,
        }
    }

    /// The bytes of its path.
    fn path_bytes(&self, alloc: Global) -> Result<Vec<u8>, NoMemory>
        ensures { IfOk result (λ path. path.items ≡ path_of self.now) }
    {
        match self {
            Object::Manager => Ok(Vec::from_slice(alloc, MANAGER_PATH)?),
            Object::Session(id) => escaped(alloc, SESSION_FRONT, id),
            Object::Seat(seat) => escaped(alloc, SEAT_FRONT, seat),
            Object::User(uid) => user_path(alloc, *uid),
            Object::Machine => Ok(Vec::from_slice(alloc, MACHINE)?),
            Object::Bus => Ok(Vec::from_slice(alloc, BUS)?),
        }
    }

    /// Its path.
    pub(crate) fn path(&self, alloc: Global) -> Result<ObjectPath, NoMemory>
        requires { path_fault (path_of self.now) ≡ None }
        ensures { IfOk result (λ path. path ≡ path_of self.now) }
    {
        let bytes = self.path_bytes(alloc)?;
        made_path(alloc, bytes.as_slice())
    }
}

/// The escape of a text behind a front.
fn escaped(alloc: Global, front: &[u8], text: &Word) -> Result<Vec<u8>, NoMemory>
    ensures { IfOk result (λ bytes. bytes.items ≡ front.now ++ escape text.now) }
{
    let label = escape(alloc, text.as_slice())?;
    joined(alloc, front, label.as_slice())
}

/// The path of a user.
fn user_path(alloc: Global, uid: Uid) -> Result<Vec<u8>, NoMemory>
    ensures { IfOk result (λ bytes. bytes.items ≡ user_front ++ decimal uid.0) }
{
    numbered(alloc, USER_FRONT, uid.0)
}

/// The text of which a label is the escape, if it is UTF-8 without NUL.
fn text_of(alloc: Global, label: &[u8]) -> Result<Option<Word>, NoMemory>
    ensures { IfOk result (λ text. text ≡ text_of label.now) }
{
    match unescape_label(alloc, label) {
        Ok(text) if is_text(text.as_slice()) => Ok(Some(text)),
        Err(NameFault::NoMemory) => Err(NoMemory),
        _ => Ok(None),
    }
}

/// The user whose number this is.
fn user_of(digits: &[u8]) -> Option<Uid>
    ensures { result ≡ user_of digits.now }
{
    Some(Uid(read_number(digits)?))
}

/// The object that has a path.
#[tactic(auto, unfolding(crate::specs::Objects::object_of))]
pub(crate) fn object_of(alloc: Global, path: &[u8]) -> Result<Option<Object>, NoMemory>
    ensures { IfOk result (λ object. object ≡ object_of path.now) }
{
    if path == MANAGER_PATH {
        Ok(Some(Object::Manager))
    } else if path == MACHINE {
        Ok(Some(Object::Machine))
    } else if path == BUS {
        Ok(Some(Object::Bus))
    } else if let Some(label) = path.strip_prefix(SESSION_FRONT) {
        Ok(text_of(alloc, label)?.map(Object::Session))
    } else if let Some(label) = path.strip_prefix(SEAT_FRONT) {
        Ok(text_of(alloc, label)?.map(Object::Seat))
    } else if let Some(digits) = path.strip_prefix(USER_FRONT) {
        Ok(user_of(digits).map(Object::User))
    } else {
        Ok(None)
    }
}
