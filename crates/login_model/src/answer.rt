// What a granted call is answered.

ghost use Rattle.std.specs.Prelude.{◌≡◌};

use crate::boxed::Boxed;
use crate::lock::Lock;
use crate::property::{PropertyRow, PropertyValue};
use crate::table::Say;
use login_base::{ConnId, HandleNo, Items, SeatName, SessId, Uid, Word};

/// What CreateSession of org.freedesktop.login1(5) answers. The object path and the runtime
/// directory follow from the session and the user; that the session existed before is always false.
#[derive(Clone, Copy)]
pub struct Created {
    pub session: SessId,
    pub fifo: HandleNo,
    pub uid: Uid,
    pub seat: Option<SeatName>,
    pub vt: u32,
}

/// A row of what ListSessions of org.freedesktop.login1(5) answers. The object path follows from the
/// session.
#[derive(Drop)]
pub struct SessionRow {
    pub session: SessId,
    pub uid: Uid,
    /// The user's name in the setup.
    pub name: Word,
    pub seat: Option<Boxed<SeatName>>,
}

impl SessionRow {
    /// The session's seat, if it has one.
    pub fn seat_name(&self) -> Option<SeatName>
        ensures { result ≡ self.now.seat }
    {
        match &self.seat {
            Some(seat) => Some(*seat.get()),
            None => None,
        }
    }
}

/// A row of what ListUsers of org.freedesktop.login1(5) answers. The object path follows from the user.
#[derive(Drop)]
pub struct KnownUser {
    pub uid: Uid,
    /// The user's name in the setup.
    pub name: Word,
}

/// What an input device reported (struct input_event of Linux).
#[derive(Clone, Copy, PartialEq, Eq)]
pub struct Input {
    pub kind: u16,
    pub code: u16,
    pub value: i32,
}

/// The values of a reply.
#[derive(Drop)]
pub enum Answer {
    /// No value: an event that is no call, a denied one, and a call that answers nothing.
    Nothing,
    /// CreateSession.
    Created(Boxed<Created>),
    /// GetSession: the path of the session's object.
    Session(SessId),
    /// GetUser: the path of the user's object.
    User(Uid),
    /// GetSeat: the path of the seat's object.
    Seat(Boxed<SeatName>),
    /// ListSessions.
    Sessions(Items<SessionRow>),
    /// ListUsers.
    Users(Items<KnownUser>),
    /// ListSeats: their names; the object paths follow from them.
    Seats(Items<SeatName>),
    /// ListInhibitors: the locks that stand.
    Inhibitors(Items<Lock>),
    /// Can of an operation.
    Can(Say),
    /// Read: the inputs, the oldest first.
    Inputs(Items<Input>),
    /// Inhibit: the handle that keeps the lock.
    Handle(HandleNo),
    /// TakeDevice: the handle, and whether the session is inactive.
    Taken(HandleNo, bool),
    /// Get of a property.
    Property(PropertyValue),
    /// GetAll: the properties in their order.
    Properties(Items<PropertyRow>),
    /// GetMachineId: the identity of the server.
    MachineId(Word),
    /// Hello and GetNameOwner: the unique name of a connection, `:1.` and its number. That of number 0 is the
    /// login manager's own.
    UniqueName(ConnId),
}
