// What is known, and under which keys.

ghost use Rattle.std.specs.Prelude.{◌≡◌, None, Some, MatchOption};
ghost use Rattle.login_model.specs.declared.fact.Fact.{Fact as FactValue};
ghost use Rattle.login_model.specs.Facts.{is_on_terminal};

use crate::boxed::Boxed;
use crate::hardware::{DevKind, HardKey};
use crate::lock::{Inhibited, Lock, LockMode};
use crate::operation::{OpKind, Operation};
use crate::session::{Class, KillWhom, Phase, Session};
use crate::setup::Setup;
use login_base::{ConnId, DevNo, HandleNo, LockNo, Millis, SeatName, SessId, Uid};

/// What a fact is about.
#[derive(Clone, Copy)]
pub enum Key {
    /// Whose a connection is.
    Conn(ConnId),
    /// What a session is.
    Sess(SessId),
    /// Whether a session says that it is idle.
    Idle(SessId),
    /// Whether a session says that its screen is locked.
    Locked(SessId),
    /// Which signal a session's processes were sent last.
    Sig(SessId),
    /// Which connection controls a session.
    Ctl(SessId),
    /// Whether a user is known.
    User(Uid),
    /// Whether a user lingers.
    Linger(Uid),
    /// Whose a handle is, and what for.
    Owner(HandleNo),
    /// Whether a handle gives access to its device.
    Live(HandleNo),
    /// Whether a seat is there.
    Seat(SeatName),
    /// Which session is active on a seat without virtual terminals.
    Act(SeatName),
    /// The current virtual terminal of seat0.
    Vt,
    /// Whether a getty is asked for on a virtual terminal.
    Getty(u32),
    /// The virtual terminal to which seat0 is about to switch.
    Pending,
    /// The handle with which a session has taken a device.
    Taken(SessId, DevNo),
    /// Whether a session has still to acknowledge the pause of a device.
    Awaited(SessId, DevNo),
    /// What a device is.
    Dev(DevNo),
    /// The mode of a graphics device.
    Mode(DevNo),
    /// What an inhibitor lock holds up.
    Lock(LockNo),
    /// What the machine as a whole is being made to do.
    Op,
    /// Whether the machine is in its dock.
    Docked,
    /// The moment that the clock reached last.
    Now,
}

/// Whose a handle is, and what for.
#[derive(Clone, Copy)]
pub enum Owner {
    /// The connection has it to use the device in the session.
    Device(ConnId, SessId, DevNo),
    /// The connection has it to keep the session open.
    Fifo(ConnId, SessId),
    /// The connection has it to keep the lock.
    Lock(ConnId, LockNo),
    /// It was given out and closed.
    Closed,
}

/// A fact. Each key has those that its meaning allows.
#[derive(Drop)]
pub enum Fact {
    /// Nothing is there.
    Absent,
    /// A connected client's user.
    Connected(Uid),
    /// A session that was created.
    Session(Boxed<Session>),
    /// Yes or no.
    Flag(bool),
    /// A signal, and which of a session's processes were sent it.
    Signal(KillWhom, i32),
    /// A session's controller.
    Controller(ConnId),
    /// A user that is known.
    Known,
    /// A user that is kept for a while since this moment.
    Leaving(Millis),
    /// A handle that was given out.
    Owned(Owner),
    /// The handle of a device that is taken.
    Handle(HandleNo),
    /// A seat that is there.
    Present,
    /// The session that is active on a seat.
    Active(SessId),
    /// A number.
    Number(u32),
    /// A moment.
    Moment(Millis),
    /// A device, and the seat that it is on.
    Device(DevKind, Boxed<SeatName>),
    /// A lock that stands.
    Lock(Boxed<Lock>),
    /// What the machine as a whole is being made to do.
    Operation(Operation),
}

impl Key {
    ghost use Rattle.login_model.specs.Fresh.{gives};

    /// How many handles a setting of the key to this fact gives out.
    pub fn gives(&self, fact: &Fact) -> u32
        ensures { result ≡ gives self.now fact.now }
    {
        match self {
            Key::Owner(_) => u32::from(fact.is_owned()),
            _ => 0,
        }
    }
}

/// Whether a session is an open one of seat0 on the terminal that the fact names.
fn is_session_on(session: &Session, terminal: &Fact) -> bool
    ensures { result ≡ is_on_terminal terminal.now (FactValue.Session session.now) }
{
    match session {
        Session {
            phase: Phase::Open,
            seat: Some(seat),
            vt,
            ..
        } => seat.is_seat0() && terminal.is_this_number(*vt),
        _ => false,
    }
}

/// What a fact says. Each call answers None, no or 0 of a fact of another kind.
impl Fact {
    ghost use Rattle.login_model.specs.Facts.{is_absent, client_in, is_connected_fact, is_client_of, client_or, session_in_fact, is_session_fact, is_open_fact, is_closing_fact, user_or_root, is_session_of, seat_in_fact, vt_in, fifo_in, leader_in, is_open_of, is_other_user, is_seated_of, seated_user, terminal_in, is_on_terminal, is_set, controller_in, is_controlled_fact, is_controller_fact, is_known, is_user_fact, is_leaving_fact, is_overdue_fact, owner_in, is_owned_fact, holder_in, is_fifo_of, fifo_owner, fifo_session, handle_device, handle_in, is_handle_fact, is_this_handle, is_seat_fact, active_in, is_acting_fact, number_in_fact, number_or_zero, is_number_fact, is_this_number, moment_in_fact, moment_or_zero, device_kind_in, is_device_fact, is_evdev, graphics_seat, lock_in_fact, lock_holder, is_lock_fact, is_lock_of, holds_back, handles_key, inhibited_in, operation_in, under_way_in, running_in};

    /// Whether nothing is there.
    pub fn is_absent(&self) -> bool
        ensures { result ≡ is_absent self.now }
    {
        matches!(self, Fact::Absent)
    }

    /// The user of a connected client.
    pub fn client(&self) -> Option<Uid>
        ensures { result ≡ client_in self.now }
    {
        match self {
            Fact::Connected(user) => Some(*user),
            _ => None,
        }
    }

    /// Whether it is that of a connected client.
    pub fn is_connected(&self) -> bool
        ensures { result ≡ is_connected_fact self.now }
    {
        matches!(self, Fact::Connected(_))
    }

    /// Whether it is that of a connected client of this user.
    pub fn is_client_of(&self, uid: u32) -> bool
        ensures { result ≡ is_client_of uid self.now }
    {
        self.client() == Some(Uid(uid))
    }

    /// The number of a connected client's user, or that number.
    pub fn client_or(&self, uid: u32) -> u32
        ensures { result ≡ client_or uid self.now }
    {
        self.client().map_or(uid, |user| user.0)
    }

    /// A session that was created, gone or not.
    pub fn session(&self) -> Option<&Session>
        ensures { MatchOption result (session_in_fact self.now ≡ None) (λ it. session_in_fact self.now ≡ Some it.now) }
    {
        match self {
            Fact::Session(session) => Some(session.get()),
            _ => None,
        }
    }

    /// Whether it is that of a session that is not gone.
    pub fn is_session(&self) -> bool
        ensures { result ≡ is_session_fact self.now }
    {
        self.is_open() || self.is_closing()
    }

    /// Whether it is that of an open session.
    pub fn is_open(&self) -> bool
        ensures { result ≡ is_open_fact self.now }
    {
        self.session()
            .is_some_and(|session| session.phase == Phase::Open)
    }

    /// Whether it is that of a session that is closing.
    pub fn is_closing(&self) -> bool
        ensures { result ≡ is_closing_fact self.now }
    {
        self.session()
            .is_some_and(|session| session.phase == Phase::Closing)
    }

    /// The user of a session, or root.
    pub fn user_or_root(&self) -> Uid
        ensures { result ≡ user_or_root self.now }
    {
        self.session().map_or(Uid(0), |session| session.uid)
    }

    /// Whether it is that of a user's session, gone or not.
    pub fn is_session_of(&self, uid: u32) -> bool
        ensures { result ≡ is_session_of uid self.now }
    {
        self.session().is_some_and(|session| session.uid.0 == uid)
    }

    /// Whether it is that of a user's open session.
    pub fn is_open_of(&self, uid: u32) -> bool
        ensures { result ≡ is_open_of uid self.now }
    {
        self.is_open() && self.is_session_of(uid)
    }

    /// Whether it is that of another user's open session of the class of users.
    pub fn is_other_user(&self, uid: u32) -> bool
        ensures { result ≡ is_other_user uid self.now }
    {
        self.session().is_some_and(|session| {
            session.phase == Phase::Open && session.class == Class::User && session.uid.0 != uid
        })
    }

    /// Whether it is that of a user's open session that has a seat.
    pub fn is_seated_of(&self, uid: u32) -> bool
        ensures { result ≡ is_seated_of uid self.now }
    {
        self.seated_user() == Some(uid)
    }

    /// The user of an open session that has a seat.
    pub fn seated_user(&self) -> Option<u32>
        ensures { result ≡ seated_user self.now }
    {
        match self.session()? {
            Session {
                phase: Phase::Open,
                seat: Some(_),
                uid,
                ..
            } => Some(uid.0),
            _ => None,
        }
    }

    /// The seat of a session.
    pub fn seat(&self) -> Option<SeatName>
        ensures { result ≡ seat_in_fact self.now }
    {
        self.session()?.seat
    }

    /// The virtual terminal of a session, or 0.
    pub fn vt(&self) -> u32
        ensures { result ≡ vt_in self.now }
    {
        self.session().map_or(0, |session| session.vt)
    }

    /// The handle whose closing closes a session, or 0.
    pub fn fifo(&self) -> HandleNo
        ensures { result ≡ fifo_in self.now }
    {
        self.session().map_or(HandleNo(0), |session| session.fifo)
    }

    /// The connection that leads a session.
    pub fn leader(&self) -> Option<ConnId>
        ensures { result ≡ leader_in self.now }
    {
        Some(self.session()?.leader)
    }

    /// The virtual terminal of an open session of seat0.
    pub fn terminal(&self) -> Option<u32>
        ensures { result ≡ terminal_in self.now }
    {
        match self.session()? {
            Session {
                phase: Phase::Open,
                seat: Some(seat),
                vt,
                ..
            } => { if seat.is_seat0() { Some(*vt) } else { None } }
            _ => None,
        }
    }

    /// Whether it is that of an open session of seat0 on the terminal that the other fact names.
    pub fn is_on_terminal(&self, terminal: &Fact) -> bool
        ensures { result ≡ is_on_terminal terminal.now self.now }
    {
        self.session()
            .is_some_and(|session| is_session_on(session, terminal))
    }

    /// Whether it is a yes.
    pub fn is_set(&self) -> bool
        ensures { result ≡ is_set self.now }
    {
        matches!(self, Fact::Flag(true))
    }

    /// A session's controller.
    pub fn controller(&self) -> Option<ConnId>
        ensures { result ≡ controller_in self.now }
    {
        match self {
            Fact::Controller(who) => Some(*who),
            _ => None,
        }
    }

    /// Whether it names a controller.
    pub fn is_controlled(&self) -> bool
        ensures { result ≡ is_controlled_fact self.now }
    {
        matches!(self, Fact::Controller(_))
    }

    /// Whether it names this controller.
    pub fn is_controller(&self, who: ConnId) -> bool
        ensures { result ≡ is_controller_fact who self.now }
    {
        self.controller() == Some(who)
    }

    /// Whether it is that of a user who is known.
    pub fn is_known(&self) -> bool
        ensures { result ≡ is_known self.now }
    {
        matches!(self, Fact::Known)
    }

    /// Whether it is that of a user who is not absent.
    pub fn is_user(&self) -> bool
        ensures { result ≡ is_user_fact self.now }
    {
        matches!(self, Fact::Known | Fact::Leaving(_))
    }

    /// Whether it is that of a user who leaves after a delay.
    pub fn is_leaving(&self) -> bool
        ensures { result ≡ is_leaving_fact self.now }
    {
        matches!(self, Fact::Leaving(_))
    }

    /// Whether it is that of a user whose delay is over at a moment.
    pub fn is_overdue(&self, setup: &Setup, moment: u64) -> bool
        ensures { result ≡ is_overdue_fact setup.now moment self.now }
    {
        match self {
            Fact::Leaving(since) => setup.conf.user_stop_delay.0 <= moment.saturating_sub(since.0),
            _ => false,
        }
    }

    /// Whose a handle is that was given out, or that it was closed.
    pub fn owner(&self) -> Option<Owner>
        ensures { result ≡ owner_in self.now }
    {
        match self {
            Fact::Owned(owner) => Some(*owner),
            _ => None,
        }
    }

    /// Whether it is that of a handle that someone has.
    pub fn is_owned(&self) -> bool
        ensures { result ≡ is_owned_fact self.now }
    {
        self.holder().is_some()
    }

    /// The connection that has a handle.
    pub fn holder(&self) -> Option<ConnId>
        ensures { result ≡ holder_in self.now }
    {
        match self.owner()? {
            Owner::Device(who, ..) | Owner::Fifo(who, _) | Owner::Lock(who, _) => Some(who),
            Owner::Closed => None,
        }
    }

    /// Whether it is that of a handle with which a connection keeps a session open.
    pub fn is_fifo_of(&self, who: ConnId) -> bool
        ensures { result ≡ is_fifo_of who self.now }
    {
        matches!(self.owner(), Some(Owner::Fifo(other, _)) if other == who)
    }

    /// The connection that keeps a session open with a handle.
    pub fn fifo_owner(&self) -> Option<ConnId>
        ensures { result ≡ fifo_owner self.now }
    {
        match self {
            Fact::Owned(Owner::Fifo(who, _)) => Some(*who),
            _ => None,
        }
    }

    /// The session that a handle keeps open.
    pub fn fifo_session(&self) -> Option<SessId>
        ensures { result ≡ fifo_session self.now }
    {
        match self {
            Fact::Owned(Owner::Fifo(_, session)) => Some(*session),
            _ => None,
        }
    }

    /// The device of a handle that is a device's.
    pub fn handle_device(&self) -> Option<DevNo>
        ensures { result ≡ handle_device self.now }
    {
        match self {
            Fact::Owned(Owner::Device(_, _, device)) => Some(*device),
            _ => None,
        }
    }

    /// The handle with which a device is taken.
    pub fn handle(&self) -> Option<HandleNo>
        ensures { result ≡ handle_in self.now }
    {
        match self {
            Fact::Handle(handle) => Some(*handle),
            _ => None,
        }
    }

    /// Whether it is that of a device that is taken.
    pub fn is_handle(&self) -> bool
        ensures { result ≡ is_handle_fact self.now }
    {
        matches!(self, Fact::Handle(_))
    }

    /// Whether it is that of a device that is taken with this handle.
    pub fn is_this_handle(&self, handle: HandleNo) -> bool
        ensures { result ≡ is_this_handle handle self.now }
    {
        self.handle() == Some(handle)
    }

    /// Whether it is that of a seat that is present.
    pub fn is_seat(&self) -> bool
        ensures { result ≡ is_seat_fact self.now }
    {
        matches!(self, Fact::Present)
    }

    /// The session that was made active on a seat.
    pub fn active(&self) -> Option<SessId>
        ensures { result ≡ active_in self.now }
    {
        match self {
            Fact::Active(session) => Some(*session),
            _ => None,
        }
    }

    /// Whether it names this session as the one that was made active on a seat.
    pub fn is_acting(&self, session: SessId) -> bool
        ensures { result ≡ is_acting_fact session self.now }
    {
        self.active() == Some(session)
    }

    /// A number.
    pub fn number(&self) -> Option<u32>
        ensures { result ≡ number_in_fact self.now }
    {
        match self {
            Fact::Number(number) => Some(*number),
            _ => None,
        }
    }

    /// A number, or 0.
    pub fn number_or_zero(&self) -> u32
        ensures { result ≡ number_or_zero self.now }
    {
        self.number().unwrap_or(0)
    }

    /// Whether it is a number.
    pub fn is_number(&self) -> bool
        ensures { result ≡ is_number_fact self.now }
    {
        matches!(self, Fact::Number(_))
    }

    /// Whether it is this number.
    pub fn is_this_number(&self, number: u32) -> bool
        ensures { result ≡ is_this_number number self.now }
    {
        self.number() == Some(number)
    }

    /// A moment.
    pub fn moment(&self) -> Option<Millis>
        ensures { result ≡ moment_in_fact self.now }
    {
        match self {
            Fact::Moment(moment) => Some(*moment),
            _ => None,
        }
    }

    /// A moment in milliseconds, or 0.
    pub fn moment_or_zero(&self) -> u64
        ensures { result ≡ moment_or_zero self.now }
    {
        self.moment().map_or(0, |moment| moment.0)
    }

    /// The kind of a device that is present.
    pub fn device_kind(&self) -> Option<DevKind>
        ensures { result ≡ device_kind_in self.now }
    {
        match self {
            Fact::Device(kind, _) => Some(*kind),
            _ => None,
        }
    }

    /// Whether it is that of a device that is present.
    pub fn is_device(&self) -> bool
        ensures { result ≡ is_device_fact self.now }
    {
        matches!(self, Fact::Device(_, _))
    }

    /// Whether it is that of an input device, which alone can be read.
    pub fn is_evdev(&self) -> bool
        ensures { result ≡ is_evdev self.now }
    {
        self.device_kind() == Some(DevKind::Evdev)
    }

    /// The seat of a graphics device that is present.
    pub fn graphics_seat(&self) -> Option<SeatName>
        ensures { result ≡ graphics_seat self.now }
    {
        match self {
            Fact::Device(DevKind::Drm, seat) => Some(*seat.get()),
            _ => None,
        }
    }

    /// A lock that stands.
    pub fn lock(&self) -> Option<&Lock>
        ensures { MatchOption result (lock_in_fact self.now ≡ None) (λ it. lock_in_fact self.now ≡ Some it.now) }
    {
        match self {
            Fact::Lock(lock) => Some(lock.get()),
            _ => None,
        }
    }

    /// The connection whose lock it is.
    pub fn lock_holder(&self) -> Option<ConnId>
        ensures { result ≡ lock_holder self.now }
    {
        Some(self.lock()?.holder)
    }

    /// Whether it is that of a lock that stands.
    pub fn is_lock(&self) -> bool
        ensures { result ≡ is_lock_fact self.now }
    {
        matches!(self, Fact::Lock(_))
    }

    /// Whether it is that of a connection's lock.
    pub fn is_lock_of(&self, who: ConnId) -> bool
        ensures { result ≡ is_lock_of who self.now }
    {
        self.lock().is_some_and(|lock| lock.holder == who)
    }

    /// Whether it is that of a lock of this mode that holds up an operation.
    pub fn holds_back(&self, kind: OpKind, mode: LockMode) -> bool
        ensures { result ≡ holds_back kind mode self.now }
    {
        self.lock()
            .is_some_and(|lock| lock.mode == mode && lock.what.holds_up(kind))
    }

    /// What the lock holds up whose it is, if that has this mode; else nothing.
    pub fn inhibited(&self, mode: LockMode) -> Inhibited
        ensures { result ≡ inhibited_in mode self.now }
    {
        self.lock()
            .map_or(Inhibited::NOTHING, |lock| lock.inhibited(mode))
    }

    /// Whether it is that of a lock that takes a key from the login manager.
    pub fn handles_key(&self, key: HardKey) -> bool
        ensures { result ≡ handles_key key self.now }
    {
        self.lock().is_some_and(|lock| lock.what.holds_key(key))
    }

    /// What the machine as a whole is being made to do.
    pub fn operation(&self) -> Option<Operation>
        ensures { result ≡ operation_in self.now }
    {
        match self {
            Fact::Operation(operation) => Some(*operation),
            _ => None,
        }
    }

    /// The operation that waits or runs.
    pub fn under_way(&self) -> Option<OpKind>
        ensures { result ≡ under_way_in self.now }
    {
        match self {
            Fact::Operation(Operation::Waiting(kind, ..) | Operation::Running(kind)) => Some(*kind),
            _ => None,
        }
    }

    /// The operation that runs.
    pub fn running(&self) -> Option<OpKind>
        ensures { result ≡ running_in self.now }
    {
        match self {
            Fact::Operation(Operation::Running(kind)) => Some(*kind),
            _ => None,
        }
    }
}
