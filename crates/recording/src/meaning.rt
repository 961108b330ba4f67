// What a written event means.

ghost use Rattle.std.specs.Prelude.{◌≡◌, true, nat_le, length, IfOk};
ghost use Rattle.login_model.specs.Texts.{has_object};
ghost use Rattle.recording.specs.Meaning.{are_short, meant_call, meant_event};
ghost use Rattle.login_model.specs.Limits.{text_limit};

use login_base::{NoMemory, Word};
use login_model::{Call, Creation, Event, LONGEST_CALL_TEXT, PropertyName, Request, is_object};
use std::alloc::Global;

fn is_short(text: &Word) -> bool
    ensures { result ≡ nat_le (length text.now) text_limit }
{
    text.len() <= LONGEST_CALL_TEXT
}

/// Whether each text of a creation has at most 512 bytes.
fn is_short_creation(x: &Creation) -> bool
    ensures { result ≡ are_short (Call.Create x.now) }
{
    is_short(&x.service)
        && is_short(&x.session_type)
        && is_short(&x.class)
        && is_short(&x.desktop)
        && is_short(&x.seat)
        && is_short(&x.tty)
        && is_short(&x.display)
        && is_short(&x.remote_user)
        && is_short(&x.remote_host)
}

/// Whether each text of a property's name has at most 512 bytes.
fn is_short_property(x: &PropertyName) -> bool
    ensures { result ≡ are_short (Call.GetProperty x.now) }
{
    is_short(&x.path) && is_short(&x.interface) && is_short(&x.name)
}

/// Whether each text of a call has at most 512 bytes.
fn are_short(call: &Call) -> bool
    ensures { result ≡ are_short call.now }
{
    match call {
        Call::Create(x) => is_short_creation(x.get()),
        Call::Inhibit(x) => {
            is_short(&x.what) && is_short(&x.who) && is_short(&x.why) && is_short(&x.mode)
        }
        Call::GetProperty(x) | Call::SetProperty(x) => is_short_property(x),
        Call::ActivateOnSeat(id, text) | Call::Kill(id, text, _) => {
            is_short(id.text()) && is_short(text)
        }
        Call::GetAllProperties(path, interface) => is_short(path) && is_short(interface),
        Call::SetIdle(id, _) | Call::SetLocked(id, _) | Call::Control(id, _) => {
            is_short(id.text())
        }
        Call::TakeDevice(id, _) | Call::ReleaseDevice(id, _) | Call::PauseComplete(id, _) => {
            is_short(id.text())
        }
        Call::GetSession(id)
        | Call::Activate(id)
        | Call::Lock(id)
        | Call::Unlock(id)
        | Call::Terminate(id)
        | Call::Uncontrol(id) => is_short(id.text()),
        Call::SwitchTo(seat, _) => is_short(seat),
        Call::GetSeat(text)
        | Call::TerminateSeat(text)
        | Call::SwitchToNext(text)
        | Call::SwitchToPrevious(text)
        | Call::GetNameOwner(text)
        | Call::AddMatch(text)
        | Call::RemoveMatch(text) => is_short(text),
        Call::GetUser(_) | Call::TerminateUser(_) | Call::SetLinger(_, _) => true,
        Call::KillUser(_, _) | Call::ReadInput(_) | Call::SetMode(_, _) | Call::Close(_) => true,
        Call::ListSessions | Call::ListUsers | Call::ListSeats | Call::ListInhibitors => true,
        Call::LockAll | Call::UnlockAll | Call::Power(_) | Call::Can(_) => true,
        Call::Ping | Call::GetMachineId | Call::Hello => true,
        Call::NoCall | Call::NoObject | Call::NoMethod | Call::BadArguments => true,
    }
}

/// Whether the path of a property's call is that of an object with properties; other calls have no path.
fn has_object(alloc: Global, call: &Call) -> Result<bool, NoMemory>
    ensures { IfOk result (λ has. has ≡ has_object call.now) }
{
    match call {
        Call::GetProperty(x) | Call::SetProperty(x) => is_object(alloc, x.path.as_slice()),
        Call::GetAllProperties(path, _) => is_object(alloc, path.as_slice()),
        _ => Ok(true),
    }
}

/// What a call means that is written so, where its path is of an object, or it has none.
fn meant_there(call: Call) -> Call
    requires { has_object call ≡ true }
    ensures { result ≡ meant_call call }
{
    if are_short(&call) {
        call
    } else {
        drop(call);
        Call::BadArguments
    }
}

/// What a call means that is written so.
fn meant_call(alloc: Global, call: Call) -> Result<Call, NoMemory>
    ensures { IfOk result (λ meant. meant ≡ meant_call call) }
{
    match has_object(alloc, &call) {
        Ok(true) => Ok(meant_there(call)),
        Ok(false) => {
            drop(call);
            Ok(Call::NoObject)
        }
        Err(NoMemory) => {
            drop(call);
            Err(NoMemory)
        }
    }
}

/// What an event means that is written so.
pub(crate) fn meant(alloc: Global, event: Event) -> Result<Event, NoMemory>
    ensures { IfOk result (λ meant. meant ≡ meant_event event) }
{
    match event {
        Event::Call(request) => {
            let Request {
                who,
                serial,
                quiet,
                call,
            } = request;
            let call = meant_call(alloc, call)?;
            Ok(Event::Call(Request {
                who,
                serial,
                quiet,
                call,
            }))
        }
        other => Ok(other),
    }
}
