// The connections that an event concerns: those whose shares it may raise.

ghost use Rattle.std.specs.Prelude.{◌≡◌};
ghost use Rattle.login_core.specs.inner.Concerning.{AreActive, AreTouched, caller, controller_of, fifo_owner_of, is_named, is_who, source};

use crate::board::Draft;
use login_base::{ConnId, SessId};
use login_model::{Call, Event, Key, Look};

/// The connection that asks, where an event is a call.
fn caller(event: &Event) -> Option<ConnId>
    ensures { result ≡ caller event.now }
{
    match event {
        Event::Call(request) => Some(request.who),
        _ => None,
    }
}

/// The session for which an event takes a device.
fn source(event: &Event) -> Option<SessId>
    ensures { result ≡ source event.now }
{
    match event {
        Event::Call(request) => match &request.call {
            Call::TakeDevice(id, _) => id.session(),
            _ => None,
        },
        _ => None,
    }
}

/// Whether there is a connection, and it is this one.
fn is_who(who: ConnId, one: Option<ConnId>) -> bool
    ensures { result ≡ is_who who one }
{
    match one {
        Some(other) => other.0 == who.0,
        None => false,
    }
}

/// Whether a connection is one of these.
pub fn is_named(named: &[Option<ConnId>], who: ConnId) -> bool
    ensures { result ≡ is_named who named.now }
{
    named.iter().any(|one| is_who(who, *one))
}

impl Draft {
    /// Who controls the session that there may be.
    pub fn controller_of(&self, session: Option<SessId>) -> Option<ConnId>
        ensures { result ≡ controller_of self.now.trail session }
    {
        self.controller(session?)
    }

    /// Who owns the fifo of the session that there may be.
    pub fn fifo_owner_of(&self, session: Option<SessId>) -> Option<ConnId>
        ensures { result ≡ fifo_owner_of self.now.trail session }
    {
        let fifo = self.fact(&Key::Sess(session?)).fifo();
        self.fact(&Key::Owner(fifo)).fifo_owner()
    }

    /// Whom an event touches: who asks, and who has the session for which a call takes a device.
    pub fn touched(&self, event: &Event) -> [Option<ConnId>; 3]
        ensures { AreTouched self.now.trail event.now result }
    {
        let source = source(event);
        [
            caller(event),
            self.controller_of(source),
            self.fifo_owner_of(source),
        ]
    }

    /// Who has the session that is active on seat0: its controller, and the owner of its fifo.
    pub fn active_holders(&self) -> [Option<ConnId>; 2]
        ensures { AreActive self.now.trail result }
    {
        let active = self.active();
        [self.controller_of(active), self.fifo_owner_of(active)]
    }
}
