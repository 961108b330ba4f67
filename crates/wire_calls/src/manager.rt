// The manager's own methods.

ghost use Rattle.std.specs.Prelude.{◌≡◌, IfOk};
ghost use Rattle.wire_calls.specs.Calls.{creation_of, inhibition_of, manager_call};

use crate::arguments::{flag_at, four_texts, number_at, session_at, signed_at, text_at, two_texts};
use bus_value::Value;
use login_base::{NoMemory, Uid};
use login_model::{Boxed, Call, Creation, Inhibition, NamedSession, OpKind};
use std::alloc::Global;

/// A method of the manager (org.freedesktop.login1(5), "The Manager Object").
#[derive(Clone, Copy)]
pub enum ManagerMethod {
    CreateSession,
    GetSession,
    GetUser,
    GetSeat,
    ListSessions,
    ListUsers,
    ListSeats,
    ListInhibitors,
    ActivateSession,
    ActivateSessionOnSeat,
    LockSession,
    UnlockSession,
    LockSessions,
    UnlockSessions,
    KillSession,
    TerminateSession,
    TerminateUser,
    TerminateSeat,
    SetUserLinger,
    /// PowerOff, Reboot and so on.
    Power(OpKind),
    /// CanPowerOff, CanReboot and so on.
    Can(OpKind),
    Inhibit,
}

impl ManagerMethod {
    ghost use Rattle.std.specs.Prelude.{◌≡◌};
    ghost use Rattle.login_model.specs.Words.{named};
    ghost use Rattle.wire_calls.specs.Methods.{can_name, manager_method, manager_methods, power_name};

    /// All methods.
    const ALL: [ManagerMethod; 34] = [
        ManagerMethod::CreateSession,
        ManagerMethod::GetSession,
        ManagerMethod::GetUser,
        ManagerMethod::GetSeat,
        ManagerMethod::ListSessions,
        ManagerMethod::ListUsers,
        ManagerMethod::ListSeats,
        ManagerMethod::ListInhibitors,
        ManagerMethod::ActivateSession,
        ManagerMethod::ActivateSessionOnSeat,
        ManagerMethod::LockSession,
        ManagerMethod::UnlockSession,
        ManagerMethod::LockSessions,
        ManagerMethod::UnlockSessions,
        ManagerMethod::KillSession,
        ManagerMethod::TerminateSession,
        ManagerMethod::TerminateUser,
        ManagerMethod::TerminateSeat,
        ManagerMethod::SetUserLinger,
        ManagerMethod::Power(OpKind::PowerOff),
        ManagerMethod::Power(OpKind::Reboot),
        ManagerMethod::Power(OpKind::Halt),
        ManagerMethod::Power(OpKind::Suspend),
        ManagerMethod::Power(OpKind::Hibernate),
        ManagerMethod::Power(OpKind::HybridSleep),
        ManagerMethod::Power(OpKind::SuspendThenHibernate),
        ManagerMethod::Can(OpKind::PowerOff),
        ManagerMethod::Can(OpKind::Reboot),
        ManagerMethod::Can(OpKind::Halt),
        ManagerMethod::Can(OpKind::Suspend),
        ManagerMethod::Can(OpKind::Hibernate),
        ManagerMethod::Can(OpKind::HybridSleep),
        ManagerMethod::Can(OpKind::SuspendThenHibernate),
        ManagerMethod::Inhibit,
    ];

    /// The name of the method that asks for an operation.
    fn power_name(kind: OpKind) -> &'static [u8]
        ensures { result.now ≡ power_name kind }
    {
        match kind {
            OpKind::PowerOff => b"PowerOff",
            OpKind::Reboot => b"Reboot",
            OpKind::Halt => b"Halt",
            OpKind::Suspend => b"Suspend",
            OpKind::Hibernate => b"Hibernate",
            OpKind::HybridSleep => b"HybridSleep",
            OpKind::SuspendThenHibernate => b"SuspendThenHibernate",
        }
    }

    /// The name of the method that asks whether an operation may be asked for.
    fn can_name(kind: OpKind) -> &'static [u8]
        ensures { result.now ≡ can_name kind }
    {
        match kind {
            OpKind::PowerOff => b"CanPowerOff",
            OpKind::Reboot => b"CanReboot",
            OpKind::Halt => b"CanHalt",
            OpKind::Suspend => b"CanSuspend",
            OpKind::Hibernate => b"CanHibernate",
            OpKind::HybridSleep => b"CanHybridSleep",
            OpKind::SuspendThenHibernate => b"CanSuspendThenHibernate",
        }
    }

    /// The method's name.
    pub(crate) fn name(self) -> &'static [u8]
        ensures { result.now ≡ (manager_method self).name }
    {
        match self {
            ManagerMethod::CreateSession => b"CreateSession",
            ManagerMethod::GetSession => b"GetSession",
            ManagerMethod::GetUser => b"GetUser",
            ManagerMethod::GetSeat => b"GetSeat",
            ManagerMethod::ListSessions => b"ListSessions",
            ManagerMethod::ListUsers => b"ListUsers",
            ManagerMethod::ListSeats => b"ListSeats",
            ManagerMethod::ListInhibitors => b"ListInhibitors",
            ManagerMethod::ActivateSession => b"ActivateSession",
            ManagerMethod::ActivateSessionOnSeat => b"ActivateSessionOnSeat",
            ManagerMethod::LockSession => b"LockSession",
            ManagerMethod::UnlockSession => b"UnlockSession",
            ManagerMethod::LockSessions => b"LockSessions",
            ManagerMethod::UnlockSessions => b"UnlockSessions",
            ManagerMethod::KillSession => b"KillSession",
            ManagerMethod::TerminateSession => b"TerminateSession",
            ManagerMethod::TerminateUser => b"TerminateUser",
            ManagerMethod::TerminateSeat => b"TerminateSeat",
            ManagerMethod::SetUserLinger => b"SetUserLinger",
            ManagerMethod::Power(kind) => ManagerMethod::power_name(kind),
            ManagerMethod::Can(kind) => ManagerMethod::can_name(kind),
            ManagerMethod::Inhibit => b"Inhibit",
        }
    }

    /// The signature of its arguments.
    pub(crate) fn takes(self) -> &'static [u8]
        ensures { result.now ≡ (manager_method self).takes }
    {
        match self {
            ManagerMethod::CreateSession => b"uusssssussbssa(sv)",
            ManagerMethod::GetSession
            | ManagerMethod::GetSeat
            | ManagerMethod::ActivateSession
            | ManagerMethod::LockSession
            | ManagerMethod::UnlockSession
            | ManagerMethod::TerminateSession
            | ManagerMethod::TerminateSeat => b"s",
            ManagerMethod::GetUser | ManagerMethod::TerminateUser => b"u",
            ManagerMethod::ActivateSessionOnSeat => b"ss",
            ManagerMethod::KillSession => b"ssi",
            ManagerMethod::SetUserLinger => b"ubb",
            ManagerMethod::Power(_) => b"b",
            ManagerMethod::Inhibit => b"ssss",
            ManagerMethod::ListSessions
            | ManagerMethod::ListUsers
            | ManagerMethod::ListSeats
            | ManagerMethod::ListInhibitors
            | ManagerMethod::LockSessions
            | ManagerMethod::UnlockSessions
            | ManagerMethod::Can(_) => b"",
        }
    }

    /// The method with a name.
    pub(crate) fn named(name: &[u8]) -> Option<ManagerMethod>
        ensures { result ≡ named (λ method. (manager_method method).name) manager_methods name.now }
    {
        ManagerMethod::ALL
            .iter()
            .copied()
            .find(|method| method.name() == name)
    }
}

/// What a session is created with.
fn creation(alloc: Global, values: &[Value]) -> Result<Creation, NoMemory>
    ensures { IfOk result (λ made. made ≡ creation_of values.now) }
{
    let remote_host = text_at(alloc, values, 12)?;
    let ((service, session_type), (class, desktop)) = four_texts(alloc, values, (2, 3), (4, 5))?;
    let ((seat, tty), (display, remote_user)) = four_texts(alloc, values, (6, 8), (9, 11))?;
    Ok(Creation {
        uid: Uid(number_at(values, 0)),
        process: number_at(values, 1),
        service,
        session_type,
        class,
        desktop,
        seat,
        vt: number_at(values, 7),
        tty,
        display,
        remote: flag_at(values, 10),
        remote_user,
        remote_host,
    })
}

/// What a lock is asked for with.
fn inhibition(alloc: Global, values: &[Value]) -> Result<Inhibition, NoMemory>
    ensures { IfOk result (λ made. made ≡ inhibition_of values.now) }
{
    let ((what, who), (why, mode)) = four_texts(alloc, values, (0, 1), (2, 3))?;
    Ok(Inhibition {
        what,
        who,
        why,
        mode,
    })
}

/// The call that a method is with these arguments.
pub(crate) fn manager_call(
    alloc: Global,
    method: ManagerMethod,
    values: &[Value],
) -> Result<Call, NoMemory>
    ensures { IfOk result (λ call. call ≡ manager_call method values.now) }
{
    Ok(match method {
        ManagerMethod::CreateSession => {
            Call::Create(Boxed::new(alloc, creation(alloc, values)?)?)
        }
        ManagerMethod::GetSession => Call::GetSession(session_at(alloc, values, 0)?),
        ManagerMethod::GetUser => Call::GetUser(Uid(number_at(values, 0))),
        ManagerMethod::GetSeat => Call::GetSeat(text_at(alloc, values, 0)?),
        ManagerMethod::ListSessions => Call::ListSessions,
        ManagerMethod::ListUsers => Call::ListUsers,
        ManagerMethod::ListSeats => Call::ListSeats,
        ManagerMethod::ListInhibitors => Call::ListInhibitors,
        ManagerMethod::ActivateSession => Call::Activate(session_at(alloc, values, 0)?),
        ManagerMethod::ActivateSessionOnSeat => {
            let (id, seat) = two_texts(alloc, values, 0, 1)?;
            Call::ActivateOnSeat(NamedSession::new(id), seat)
        }
        ManagerMethod::LockSession => Call::Lock(session_at(alloc, values, 0)?),
        ManagerMethod::UnlockSession => Call::Unlock(session_at(alloc, values, 0)?),
        ManagerMethod::LockSessions => Call::LockAll,
        ManagerMethod::UnlockSessions => Call::UnlockAll,
        ManagerMethod::KillSession => {
            let (id, whom) = two_texts(alloc, values, 0, 1)?;
            Call::Kill(NamedSession::new(id), whom, signed_at(values, 2))
        }
        ManagerMethod::TerminateSession => Call::Terminate(session_at(alloc, values, 0)?),
        ManagerMethod::TerminateUser => Call::TerminateUser(Uid(number_at(values, 0))),
        ManagerMethod::TerminateSeat => Call::TerminateSeat(text_at(alloc, values, 0)?),
        ManagerMethod::SetUserLinger => {
            Call::SetLinger(Uid(number_at(values, 0)), flag_at(values, 1))
        }
        ManagerMethod::Power(kind) => Call::Power(kind),
        ManagerMethod::Can(kind) => Call::Can(kind),
        ManagerMethod::Inhibit => Call::Inhibit(inhibition(alloc, values)?),
    })
}
