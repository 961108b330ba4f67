// The own methods of sessions.

ghost use Rattle.std.specs.Prelude.{◌≡◌, IfOk};
ghost use Rattle.wire_calls.specs.Calls.{session_call};

use crate::arguments::{device_at, flag_at, signed_at, text_at};
use bus_value::Value;
use login_base::NoMemory;
use login_model::{Call, NamedSession};
use std::alloc::Global;

/// A method of a session (org.freedesktop.login1(5), "Session Objects").
#[derive(Clone, Copy)]
pub enum SessionMethod {
    Terminate,
    Activate,
    Lock,
    Unlock,
    Kill,
    SetIdleHint,
    SetLockedHint,
    TakeControl,
    ReleaseControl,
    TakeDevice,
    ReleaseDevice,
    PauseDeviceComplete,
}

impl SessionMethod {
    ghost use Rattle.std.specs.Prelude.{◌≡◌};
    ghost use Rattle.login_model.specs.Words.{named};
    ghost use Rattle.wire_calls.specs.Methods.{session_method, session_methods};

    /// All methods.
    const ALL: [SessionMethod; 12] = [
        SessionMethod::Terminate,
        SessionMethod::Activate,
        SessionMethod::Lock,
        SessionMethod::Unlock,
        SessionMethod::Kill,
        SessionMethod::SetIdleHint,
        SessionMethod::SetLockedHint,
        SessionMethod::TakeControl,
        SessionMethod::ReleaseControl,
        SessionMethod::TakeDevice,
        SessionMethod::ReleaseDevice,
        SessionMethod::PauseDeviceComplete,
    ];

    /// The method's name.
    pub(crate) fn name(self) -> &'static [u8]
        ensures { result.now ≡ (session_method self).name }
    {
        match self {
            SessionMethod::Terminate => b"Terminate",
            SessionMethod::Activate => b"Activate",
            SessionMethod::Lock => b"Lock",
            SessionMethod::Unlock => b"Unlock",
            SessionMethod::Kill => b"Kill",
            SessionMethod::SetIdleHint => b"SetIdleHint",
            SessionMethod::SetLockedHint => b"SetLockedHint",
            SessionMethod::TakeControl => b"TakeControl",
            SessionMethod::ReleaseControl => b"ReleaseControl",
            SessionMethod::TakeDevice => b"TakeDevice",
            SessionMethod::ReleaseDevice => b"ReleaseDevice",
            SessionMethod::PauseDeviceComplete => b"PauseDeviceComplete",
        }
    }

    /// The signature of its arguments.
    pub(crate) fn takes(self) -> &'static [u8]
        ensures { result.now ≡ (session_method self).takes }
    {
        match self {
            SessionMethod::Terminate
            | SessionMethod::Activate
            | SessionMethod::Lock
            | SessionMethod::Unlock
            | SessionMethod::ReleaseControl => b"",
            SessionMethod::Kill => b"si",
            SessionMethod::SetIdleHint
            | SessionMethod::SetLockedHint
            | SessionMethod::TakeControl => b"b",
            SessionMethod::TakeDevice
            | SessionMethod::ReleaseDevice
            | SessionMethod::PauseDeviceComplete => b"uu",
        }
    }

    /// The method with a name.
    pub(crate) fn named(name: &[u8]) -> Option<SessionMethod>
        ensures { result ≡ named (λ method. (session_method method).name) session_methods name.now }
    {
        SessionMethod::ALL
            .iter()
            .copied()
            .find(|method| method.name() == name)
    }
}

/// The call that a method of the session with this id is with these arguments.
pub(crate) fn session_call(
    alloc: Global,
    id: NamedSession,
    method: SessionMethod,
    values: &[Value],
) -> Result<Call, NoMemory>
    ensures { IfOk result (λ call. call ≡ session_call id method values.now) }
{
    Ok(match method {
        SessionMethod::Terminate => Call::Terminate(id),
        SessionMethod::Activate => Call::Activate(id),
        SessionMethod::Lock => Call::Lock(id),
        SessionMethod::Unlock => Call::Unlock(id),
        SessionMethod::Kill => Call::Kill(id, text_at(alloc, values, 0)?, signed_at(values, 1)),
        SessionMethod::SetIdleHint => Call::SetIdle(id, flag_at(values, 0)),
        SessionMethod::SetLockedHint => Call::SetLocked(id, flag_at(values, 0)),
        SessionMethod::TakeControl => Call::Control(id, flag_at(values, 0)),
        SessionMethod::ReleaseControl => Call::Uncontrol(id),
        SessionMethod::TakeDevice => Call::TakeDevice(id, device_at(values)),
        SessionMethod::ReleaseDevice => Call::ReleaseDevice(id, device_at(values)),
        SessionMethod::PauseDeviceComplete => Call::PauseComplete(id, device_at(values)),
    })
}
