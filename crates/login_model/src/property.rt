// The properties of objects by name, and their values (org.freedesktop.login1(5)).

use crate::boxed::Boxed;
use crate::lock::Inhibited;
use login_base::{Items, Millis, SeatName, SessId, Uid, Word};

/// A property of the manager.
#[derive(Clone, Copy)]
pub enum ManagerProperty {
    BlockInhibited,
    DelayInhibited,
    InhibitDelayMax,
    CurrentInhibitors,
    CurrentSessions,
    PreparingForShutdown,
    PreparingForSleep,
    Docked,
}

impl ManagerProperty {
    ghost use Rattle.std.specs.Prelude.{◌≡◌};
    ghost use Rattle.login_model.specs.PropertyNames.{manager_property_name, manager_named};

    /// All of them, in the order in which they are listed.
    pub const ALL: [ManagerProperty; 8] = [
        ManagerProperty::BlockInhibited,
        ManagerProperty::DelayInhibited,
        ManagerProperty::InhibitDelayMax,
        ManagerProperty::CurrentInhibitors,
        ManagerProperty::CurrentSessions,
        ManagerProperty::PreparingForShutdown,
        ManagerProperty::PreparingForSleep,
        ManagerProperty::Docked,
    ];

    /// The property's name.
    pub fn name(self) -> &'static [u8]
        ensures { result.now ≡ manager_property_name self }
    {
        match self {
            ManagerProperty::BlockInhibited => b"BlockInhibited",
            ManagerProperty::DelayInhibited => b"DelayInhibited",
            ManagerProperty::InhibitDelayMax => b"InhibitDelayMaxUSec",
            ManagerProperty::CurrentInhibitors => b"NCurrentInhibitors",
            ManagerProperty::CurrentSessions => b"NCurrentSessions",
            ManagerProperty::PreparingForShutdown => b"PreparingForShutdown",
            ManagerProperty::PreparingForSleep => b"PreparingForSleep",
            ManagerProperty::Docked => b"Docked",
        }
    }

    /// The property with a name.
    pub fn read(name: &[u8]) -> Option<ManagerProperty>
        ensures { result ≡ manager_named name.now }
    {
        ManagerProperty::ALL
            .iter()
            .copied()
            .find(|property| property.name() == name)
    }
}

/// A property of a session.
#[derive(Clone, Copy)]
pub enum SessionProperty {
    Id,
    User,
    Name,
    Vt,
    Seat,
    Tty,
    Display,
    Remote,
    RemoteHost,
    RemoteUser,
    Service,
    Desktop,
    Scope,
    Leader,
    Type,
    Class,
    Active,
    State,
    IdleHint,
    LockedHint,
}

impl SessionProperty {
    ghost use Rattle.std.specs.Prelude.{◌≡◌};
    ghost use Rattle.login_model.specs.PropertyNames.{session_property_name, session_named};

    /// All of them, in the order in which they are listed.
    pub const ALL: [SessionProperty; 20] = [
        SessionProperty::Id,
        SessionProperty::User,
        SessionProperty::Name,
        SessionProperty::Vt,
        SessionProperty::Seat,
        SessionProperty::Tty,
        SessionProperty::Display,
        SessionProperty::Remote,
        SessionProperty::RemoteHost,
        SessionProperty::RemoteUser,
        SessionProperty::Service,
        SessionProperty::Desktop,
        SessionProperty::Scope,
        SessionProperty::Leader,
        SessionProperty::Type,
        SessionProperty::Class,
        SessionProperty::Active,
        SessionProperty::State,
        SessionProperty::IdleHint,
        SessionProperty::LockedHint,
    ];

    /// The property's name.
    pub fn name(self) -> &'static [u8]
        ensures { result.now ≡ session_property_name self }
    {
        match self {
            SessionProperty::Id => b"Id",
            SessionProperty::User => b"User",
            SessionProperty::Name => b"Name",
            SessionProperty::Vt => b"VTNr",
            SessionProperty::Seat => b"Seat",
            SessionProperty::Tty => b"TTY",
            SessionProperty::Display => b"Display",
            SessionProperty::Remote => b"Remote",
            SessionProperty::RemoteHost => b"RemoteHost",
            SessionProperty::RemoteUser => b"RemoteUser",
            SessionProperty::Service => b"Service",
            SessionProperty::Desktop => b"Desktop",
            SessionProperty::Scope => b"Scope",
            SessionProperty::Leader => b"Leader",
            SessionProperty::Type => b"Type",
            SessionProperty::Class => b"Class",
            SessionProperty::Active => b"Active",
            SessionProperty::State => b"State",
            SessionProperty::IdleHint => b"IdleHint",
            SessionProperty::LockedHint => b"LockedHint",
        }
    }

    /// The property with a name.
    pub fn read(name: &[u8]) -> Option<SessionProperty>
        ensures { result ≡ session_named name.now }
    {
        SessionProperty::ALL
            .iter()
            .copied()
            .find(|property| property.name() == name)
    }
}

/// A property of a user.
#[derive(Clone, Copy)]
pub enum UserProperty {
    Uid,
    Gid,
    Name,
    Slice,
    State,
    Sessions,
    Linger,
}

impl UserProperty {
    ghost use Rattle.std.specs.Prelude.{◌≡◌};
    ghost use Rattle.login_model.specs.PropertyNames.{user_property_name, user_named};

    /// All of them, in the order in which they are listed.
    pub const ALL: [UserProperty; 7] = [
        UserProperty::Uid,
        UserProperty::Gid,
        UserProperty::Name,
        UserProperty::Slice,
        UserProperty::State,
        UserProperty::Sessions,
        UserProperty::Linger,
    ];

    /// The property's name.
    pub fn name(self) -> &'static [u8]
        ensures { result.now ≡ user_property_name self }
    {
        match self {
            UserProperty::Uid => b"UID",
            UserProperty::Gid => b"GID",
            UserProperty::Name => b"Name",
            UserProperty::Slice => b"Slice",
            UserProperty::State => b"State",
            UserProperty::Sessions => b"Sessions",
            UserProperty::Linger => b"Linger",
        }
    }

    /// The property with a name.
    pub fn read(name: &[u8]) -> Option<UserProperty>
        ensures { result ≡ user_named name.now }
    {
        UserProperty::ALL
            .iter()
            .copied()
            .find(|property| property.name() == name)
    }
}

/// A property of a seat.
#[derive(Clone, Copy)]
pub enum SeatProperty {
    Id,
    ActiveSession,
    CanTty,
    CanGraphical,
    Sessions,
}

impl SeatProperty {
    ghost use Rattle.std.specs.Prelude.{◌≡◌};
    ghost use Rattle.login_model.specs.PropertyNames.{seat_property_name, seat_named};

    /// All of them, in the order in which they are listed.
    pub const ALL: [SeatProperty; 5] = [
        SeatProperty::Id,
        SeatProperty::ActiveSession,
        SeatProperty::CanTty,
        SeatProperty::CanGraphical,
        SeatProperty::Sessions,
    ];

    /// The property's name.
    pub fn name(self) -> &'static [u8]
        ensures { result.now ≡ seat_property_name self }
    {
        match self {
            SeatProperty::Id => b"Id",
            SeatProperty::ActiveSession => b"ActiveSession",
            SeatProperty::CanTty => b"CanTTY",
            SeatProperty::CanGraphical => b"CanGraphical",
            SeatProperty::Sessions => b"Sessions",
        }
    }

    /// The property with a name.
    pub fn read(name: &[u8]) -> Option<SeatProperty>
        ensures { result ≡ seat_named name.now }
    {
        SeatProperty::ALL
            .iter()
            .copied()
            .find(|property| property.name() == name)
    }
}

/// A property of an object of some kind.
#[derive(Clone, Copy)]
pub enum Property {
    Manager(ManagerProperty),
    Session(SessionProperty),
    User(UserProperty),
    Seat(SeatProperty),
}

impl Property {
    ghost use Rattle.std.specs.Prelude.{◌≡◌};
    ghost use Rattle.login_model.specs.PropertyNames.{property_name};

    /// The property's name.
    pub fn name(self) -> &'static [u8]
        ensures { result.now ≡ property_name self }
    {
        match self {
            Property::Manager(property) => property.name(),
            Property::Session(property) => property.name(),
            Property::User(property) => property.name(),
            Property::Seat(property) => property.name(),
        }
    }
}

/// The value of a property, by its type. Object paths follow from what they name.
#[derive(Drop)]
pub enum PropertyValue {
    Text(Word),
    /// A number of 32 bits.
    Number(u32),
    /// A number that is sent with 64 bits.
    Count(u32),
    /// A time, told in microseconds.
    Time(Millis),
    Flag(bool),
    /// What locks hold up, as a text.
    Inhibited(Inhibited),
    /// A user, by number and path.
    User(Uid),
    /// A seat, by name and path, if there is one.
    Seat(Option<Boxed<SeatName>>),
    /// A session, by id and path, if there is one.
    Session(Option<SessId>),
    /// Sessions, each by id and path.
    Sessions(Items<SessId>),
}

/// A property with its value.
#[derive(Drop)]
pub struct PropertyRow {
    pub property: Property,
    pub value: PropertyValue,
}
