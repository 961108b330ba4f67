// What a client calls: one variant for each member of org.freedesktop.login1(5), of the modelled
// machine's interface and of the D-Bus Specification that is answered, and four for other messages.

use crate::boxed::Boxed;
use crate::named::NamedSession;
use crate::operation::OpKind;
use login_base::{DevNo, HandleNo, Uid, Word};

/// The most bytes of a text of a call, and of a session's id that ends.
pub const LONGEST_CALL_TEXT: usize = 512;

/// What CreateSession of org.freedesktop.login1(5) is called with.
#[derive(Drop)]
pub struct Creation {
    pub uid: Uid,
    /// The leader's process, which is a connection's number; 0 is the caller.
    pub process: u32,
    pub service: Word,
    pub session_type: Word,
    pub class: Word,
    pub desktop: Word,
    pub seat: Word,
    pub vt: u32,
    pub tty: Word,
    pub display: Word,
    pub remote: bool,
    pub remote_user: Word,
    pub remote_host: Word,
}

/// What Inhibit of org.freedesktop.login1(5) is called with.
#[derive(Drop)]
pub struct Inhibition {
    /// What is inhibited: words parted by colons.
    pub what: Word,
    /// Who asks, for people to read.
    pub who: Word,
    /// Why, for people to read.
    pub why: Word,
    pub mode: Word,
}

/// A property of an object, as org.freedesktop.DBus.Properties names it.
#[derive(Drop)]
pub struct PropertyName {
    /// The path of the object.
    pub path: Word,
    /// The interface; the empty text is the object's own.
    pub interface: Word,
    pub name: Word,
}

/// A call of a client, with its arguments. Sessions are named by their ids, seats by their names, as
/// the client wrote them.
#[derive(Drop)]
pub enum Call {
    /// Manager.CreateSession.
    Create(Boxed<Creation>),
    /// Manager.GetSession.
    GetSession(NamedSession),
    /// Manager.GetUser.
    GetUser(Uid),
    /// Manager.GetSeat.
    GetSeat(Word),
    /// Manager.ListSessions.
    ListSessions,
    /// Manager.ListUsers.
    ListUsers,
    /// Manager.ListSeats.
    ListSeats,
    /// Manager.ListInhibitors.
    ListInhibitors,
    /// Manager.ActivateSession, or Session.Activate.
    Activate(NamedSession),
    /// Manager.ActivateSessionOnSeat, or Seat.ActivateSession: a session and a seat.
    ActivateOnSeat(NamedSession, Word),
    /// Manager.LockSession, or Session.Lock.
    Lock(NamedSession),
    /// Manager.UnlockSession, or Session.Unlock.
    Unlock(NamedSession),
    /// Manager.LockSessions.
    LockAll,
    /// Manager.UnlockSessions.
    UnlockAll,
    /// Manager.KillSession, or Session.Kill: a session, which of its processes, and the signal.
    Kill(NamedSession, Word, i32),
    /// Manager.TerminateSession, or Session.Terminate.
    Terminate(NamedSession),
    /// Manager.TerminateUser, or User.Terminate.
    TerminateUser(Uid),
    /// Manager.TerminateSeat, or Seat.Terminate.
    TerminateSeat(Word),
    /// Manager.SetUserLinger: a user, and whether it lingers.
    SetLinger(Uid, bool),
    /// Manager.PowerOff, Reboot and so on.
    Power(OpKind),
    /// Manager.CanPowerOff, CanReboot and so on.
    Can(OpKind),
    /// Manager.Inhibit.
    Inhibit(Inhibition),
    /// Session.SetIdleHint.
    SetIdle(NamedSession, bool),
    /// Session.SetLockedHint.
    SetLocked(NamedSession, bool),
    /// Session.TakeControl of the session with this id, and whether by force.
    Control(NamedSession, bool),
    /// Session.ReleaseControl of the session with this id.
    Uncontrol(NamedSession),
    /// Session.TakeDevice.
    TakeDevice(NamedSession, DevNo),
    /// Session.ReleaseDevice.
    ReleaseDevice(NamedSession, DevNo),
    /// Session.PauseDeviceComplete.
    PauseComplete(NamedSession, DevNo),
    /// Seat.SwitchTo: a seat and a virtual terminal.
    SwitchTo(Word, u32),
    /// Seat.SwitchToNext.
    SwitchToNext(Word),
    /// Seat.SwitchToPrevious.
    SwitchToPrevious(Word),
    /// User.Kill: a user and the signal.
    KillUser(Uid, i32),
    /// Machine1.Read: the input of a device.
    ReadInput(HandleNo),
    /// Machine1.SetMode: a graphics device and its mode.
    SetMode(HandleNo, u32),
    /// Machine1.Close.
    Close(HandleNo),
    /// Properties.Get.
    GetProperty(PropertyName),
    /// Properties.GetAll of the object with this path, and of an interface.
    GetAllProperties(Word, Word),
    /// Properties.Set. The value is not kept, since no property can be set.
    SetProperty(PropertyName),
    /// Peer.Ping.
    Ping,
    /// Peer.GetMachineId.
    GetMachineId,
    /// DBus.Hello.
    Hello,
    /// DBus.GetNameOwner.
    GetNameOwner(Word),
    /// DBus.AddMatch.
    AddMatch(Word),
    /// DBus.RemoveMatch.
    RemoveMatch(Word),
    /// A message that is no call. It is granted and has no reply.
    NoCall,
    /// A call of an object that cannot be there.
    NoObject,
    /// A call of a member that the object does not have.
    NoMethod,
    /// A call whose arguments have other types, or one of whose texts has more than 512 bytes.
    BadArguments,
}
