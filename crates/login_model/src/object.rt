// The objects that have properties, and their paths (org.freedesktop.login1(5)).

ghost use Rattle.std.specs.Prelude.{◌≡◌, ◌≤◌, ◌<◌, IfOk, IfSome, IsNone, length, take};
ghost use Rattle.login_base.specs.Limits.{most_seat_name};
ghost use Rattle.login_base.specs.Labels.{decoded};
ghost use Rattle.login_model.specs.Objects.{is_label, is_object, named_object, seat_at, session_at, user_at};

use crate::paths::{
    MANAGER_INTERFACE, MANAGER_PATH, SEAT_FRONT, SEAT_INTERFACE, SESSION_FRONT, SESSION_INTERFACE,
    USER_FRONT, USER_INTERFACE,
};
use crate::property::{ManagerProperty, SeatProperty, SessionProperty, UserProperty};
use crate::rule::Rule;
use login_base::{
    LONGEST_SEAT_NAME, NoMemory, SeatName, SessId, Uid, decoded, escape, first_decoded, is_text,
    read_number,
};
use std::alloc::Global;

/// An object with properties, whether there is such a one or not.
#[derive(Clone, Copy)]
pub enum Object {
    Manager,
    Session(SessId),
    Seat(SeatName),
    User(Uid),
}

impl Object {
    ghost use Rattle.std.specs.Prelude.{◌≡◌};
    ghost use Rattle.login_model.specs.Objects.{has_named, has_property, is_own_interface, own_interface};

    /// The interface that is its own.
    fn interface(&self) -> &'static [u8]
        ensures { result.now ≡ own_interface self.now }
    {
        match self {
            Object::Manager => MANAGER_INTERFACE,
            Object::Session(_) => SESSION_INTERFACE,
            Object::Seat(_) => SEAT_INTERFACE,
            Object::User(_) => USER_INTERFACE,
        }
    }

    /// Whether a text names its own interface. The empty one does.
    pub fn is_own_interface(&self, interface: &[u8]) -> bool
        ensures { result ≡ is_own_interface self.now interface.now }
    {
        interface.is_empty() || interface == self.interface()
    }

    /// Whether it has a property of this name.
    fn has_named(&self, name: &[u8]) -> bool
        ensures { result ≡ has_named self.now name.now }
    {
        match self {
            Object::Manager => ManagerProperty::read(name).is_some(),
            Object::Session(_) => SessionProperty::read(name).is_some(),
            Object::Seat(_) => SeatProperty::read(name).is_some(),
            Object::User(_) => UserProperty::read(name).is_some(),
        }
    }

    /// Whether it has a property of this name under an interface.
    pub fn has_property(&self, interface: &[u8], name: &[u8]) -> bool
        ensures { result ≡ has_property self.now interface.now name.now }
    {
        self.is_own_interface(interface) && self.has_named(name)
    }
}

/// Puts the text of which an element may be the escape at the front of memory, and tells how long it is; none where
/// it is longer than any seat's name, as no session's id is.
fn decode(element: &[u8], text: &mut [u8; LONGEST_SEAT_NAME]) -> Option<usize>
    ensures within { IfSome result (λ size. size ≤ most_seat_name) }
    ensures text { IfSome result (λ size. take size text.new ≡ decoded element.now) }
    ensures long { IsNone result → most_seat_name < length (decoded element.now) }
{
    let mut size = 0;
    let mut rest = element;
    while let Some((byte, behind)) = first_decoded(rest) {
        if size == LONGEST_SEAT_NAME {
            return None;
        }
        text[size] = byte;
        size += 1;
        rest = behind;
    }
    Some(size)
}

/// The session with the id that an element has.
fn session_at(element: &[u8]) -> Option<Object>
    ensures { result ≡ session_at element.now }
{
    let mut text = [0; LONGEST_SEAT_NAME];
    let size = decode(element, &mut text)?;
    Some(Object::Session(SessId::read(&text[..size])?))
}

/// The seat with the name that an element has.
fn seat_at(element: &[u8]) -> Option<Object>
    ensures { result ≡ seat_at element.now }
{
    let mut text = [0; LONGEST_SEAT_NAME];
    let size = decode(element, &mut text)?;
    match SeatName::read(&text[..size]) {
        Ok(seat) => Some(Object::Seat(seat)),
        Err(_) => None,
    }
}

/// The user with this number.
fn user_at(digits: &[u8]) -> Option<Object>
    ensures { result ≡ user_at digits.now }
{
    Some(Object::User(Uid(read_number(digits)?)))
}

/// The object that a path names, or the rule that is broken since what it names can't be there. It takes no memory.
#[tactic(auto, unfolding(crate::specs::Objects::named_object))]
pub fn named_object(path: &[u8]) -> Result<Object, Rule>
    ensures { result ≡ named_object path.now }
{
    if path == MANAGER_PATH {
        Ok(Object::Manager)
    } else if let Some(element) = path.strip_prefix(SESSION_FRONT) {
        session_at(element).ok_or(Rule::NoSuchSession)
    } else if let Some(element) = path.strip_prefix(SEAT_FRONT) {
        seat_at(element).ok_or(Rule::NoSuchSeat)
    } else if let Some(digits) = path.strip_prefix(USER_FRONT) {
        user_at(digits).ok_or(Rule::NoSuchUser)
    } else {
        Err(Rule::UnknownObject)
    }
}

/// Whether an element is the escape of a text.
fn is_label(alloc: Global, element: &[u8]) -> Result<bool, NoMemory>
    ensures { IfOk result (λ is. is ≡ is_label element.now) }
{
    let text = decoded(alloc, element)?;
    if !is_text(text.as_slice()) {
        return Ok(false);
    }
    Ok(escape(alloc, text.as_slice())?.as_slice() == element)
}

/// Whether a path is that of the manager, a session, a seat or a user, whether there is such a one or not.
#[tactic(auto, unfolding(crate::specs::Objects::is_object))]
pub fn is_object(alloc: Global, path: &[u8]) -> Result<bool, NoMemory>
    ensures { IfOk result (λ is. is ≡ is_object path.now) }
{
    if path == MANAGER_PATH {
        Ok(true)
    } else if let Some(element) = path.strip_prefix(SESSION_FRONT) {
        is_label(alloc, element)
    } else if let Some(element) = path.strip_prefix(SEAT_FRONT) {
        is_label(alloc, element)
    } else if let Some(digits) = path.strip_prefix(USER_FRONT) {
        Ok(read_number(digits).is_some())
    } else {
        Ok(false)
    }
}
