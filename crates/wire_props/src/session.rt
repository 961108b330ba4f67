// The properties of sessions.

ghost use Rattle.std.specs.Prelude.{◌≡◌, ◌++◌, IfOk};
ghost use Rattle.login_model.specs.Properties.{data_value, is_active_state, is_in_use, scope_name, session_state, session_value};
ghost use Rattle.login_model.specs.declared.property.Property.TheVariants.{Session as SessionName};

use crate::kind::OfKind;
use crate::values::{seat, text};
use login_base::{NoMemory, SessId, Word};
use login_model::{Key, Look, Property, PropertyValue, Session, SessionProperty, Setup, State};
use login_table::{is_active, seat_of_session};
use std::alloc::Global;

/// Whether an open session is active on its seat, or needs none.
pub(crate) fn is_in_use<F: Look>(facts: &F, session: SessId) -> bool
    ensures { result ≡ is_in_use (F.trail facts.now) session }
{
    seat_of_session(facts, session).is_none() || is_active(facts, session)
}

/// The state of a session.
fn session_state<F: Look>(facts: &F, session: SessId) -> State
    ensures { result ≡ session_state (F.trail facts.now) session }
{
    if !facts.fact(&Key::Sess(session)).is_open() {
        State::Closing
    } else if is_in_use(facts, session) {
        State::Active
    } else {
        State::Online
    }
}

fn is_active_state(state: State) -> bool
    ensures { result ≡ is_active_state state }
{
    matches!(state, State::Active)
}

/// A text between two others.
fn enclosed(alloc: Global, front: &[u8], name: &[u8], end: &[u8]) -> Result<PropertyValue, NoMemory>
    ensures { IfOk result (λ value. value ≡ PropertyValue.Text (front.now ++ (name.now ++ end.now))) }
{
    let mut bytes = Vec::from_slice(alloc, front)?;
    bytes.extend_from_slice(name)?;
    bytes.extend_from_slice(end)?;
    Ok(PropertyValue::Text(Word::from_vec(bytes)))
}

/// The name of a session's scope unit.
fn scope(alloc: Global, session: SessId) -> Result<PropertyValue, NoMemory>
    ensures { IfOk result (λ value. value ≡ PropertyValue.Text (scope_name session)) }
{
    let id = session.text(alloc)?;
    enclosed(alloc, b"session-", id.as_slice(), b".scope")
}

/// A property of a session that was made.
fn data_value<F: Look>(
    alloc: Global,
    facts: &F,
    setup: &Setup,
    session: SessId,
    known: &Session,
    property: SessionProperty,
) -> Result<PropertyValue, NoMemory>
    ensures { IfOk result (λ value. value ≡ data_value setup.now (F.trail facts.now) session known.now property) }
{
    match property {
        SessionProperty::Id => Ok(PropertyValue::Text(session.text(alloc)?)),
        SessionProperty::User => Ok(PropertyValue::User(known.uid)),
        SessionProperty::Name => text(alloc, setup.user_name(known.uid.0)),
        SessionProperty::Vt => Ok(PropertyValue::Number(known.vt)),
        SessionProperty::Seat => seat(alloc, known.seat),
        SessionProperty::Tty => text(alloc, known.texts.tty.as_slice()),
        SessionProperty::Display => text(alloc, known.texts.display.as_slice()),
        SessionProperty::Remote => Ok(PropertyValue::Flag(known.remote)),
        SessionProperty::RemoteHost => text(alloc, known.texts.remote_host.as_slice()),
        SessionProperty::RemoteUser => text(alloc, known.texts.remote_user.as_slice()),
        SessionProperty::Service => text(alloc, known.texts.service.as_slice()),
        SessionProperty::Desktop => text(alloc, known.texts.desktop.as_slice()),
        SessionProperty::Scope => scope(alloc, session),
        SessionProperty::Leader => Ok(PropertyValue::Number(known.leader.0)),
        SessionProperty::Type => text(alloc, known.session_type.name()),
        SessionProperty::Class => text(alloc, known.class.name()),
        SessionProperty::Active => {
            let is_active = is_active_state(session_state(facts, session));
            Ok(PropertyValue::Flag(is_active))
        }
        SessionProperty::State => text(alloc, session_state(facts, session).name()),
        SessionProperty::IdleHint => {
            let is_idle = facts.fact(&Key::Idle(session)).is_set();
            Ok(PropertyValue::Flag(is_idle))
        }
        SessionProperty::LockedHint => {
            let is_locked = facts.fact(&Key::Locked(session)).is_set();
            Ok(PropertyValue::Flag(is_locked))
        }
    }
}

impl OfKind<SessId> for SessionProperty {
    ghost value = { session_value };

    ghost property = { SessionName };

    fn property(self) -> Property {
        Property::Session(self)
    }

    fn value<F: Look>(
        self,
        alloc: Global,
        facts: &F,
        setup: &Setup,
        name: SessId,
    ) -> Result<PropertyValue, NoMemory> {
        match facts.fact(&Key::Sess(name)).session() {
            Some(known) => data_value(alloc, facts, setup, name, known, self),
            None => Ok(PropertyValue::Flag(false)),
        }
    }
}
