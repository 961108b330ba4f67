// The properties of users.

ghost use Rattle.std.specs.Prelude.{◌≡◌, IfOk};
ghost use Rattle.login_model.specs.Facts.{is_open_of};
ghost use Rattle.login_model.specs.Properties.{is_used_by, slice_name, user_state, user_value};
ghost use Rattle.login_model.specs.Trail.{value};
ghost use Rattle.login_model.specs.Where.{sessions_of};
ghost use Rattle.login_model.specs.declared.fact.Key.TheVariants.{Sess};
ghost use Rattle.login_model.specs.declared.property.Property.TheVariants.{User as UserName};

use crate::kind::OfKind;
use crate::session::is_in_use;
use crate::values::text;
use login_base::{NoMemory, SessId, Uid, Word, append_decimal};
use login_model::{Key, Look, Property, PropertyValue, Setup, State, UserProperty};
use login_table::{OfUser, Test, find_session, find_sessions};
use std::alloc::Global;

/// The session is an open one of this user.
#[derive(Drop)]
struct OpenOf(u32);

impl Test<SessId> for OpenOf {
    ghost meets = { λ test t s. is_open_of test.0 (value t (Sess s)) };

    fn is_met<F: Look>(&self, facts: &F, session: SessId) -> bool {
        facts.fact(&Key::Sess(session)).is_open_of(self.0)
    }
}

/// The session is an open one of this user, and its state is active.
#[derive(Drop)]
struct UsedBy(u32);

impl Test<SessId> for UsedBy {
    ghost meets = { λ test t s. is_used_by t test.0 s };

    fn is_met<F: Look>(&self, facts: &F, session: SessId) -> bool {
        facts.fact(&Key::Sess(session)).is_open_of(self.0) && is_in_use(facts, session)
    }
}

/// The state of a user.
#[tactic(auto, unfolding(login_model::specs::Properties::user_state))]
fn user_state<F: Look>(facts: &F, uid: u32) -> State
    ensures { result ≡ user_state (F.trail facts.now) uid }
{
    if find_session(facts, &UsedBy(uid)).is_some() {
        State::Active
    } else if find_session(facts, &OpenOf(uid)).is_some() {
        State::Online
    } else if facts.fact(&Key::Linger(Uid(uid))).is_set() {
        State::Lingering
    } else {
        State::Closing
    }
}

/// The name of a user's slice unit.
fn slice(alloc: Global, uid: u32) -> Result<PropertyValue, NoMemory>
    ensures { IfOk result (λ value. value ≡ PropertyValue.Text (slice_name uid)) }
{
    let mut name = Vec::from_slice(alloc, b"user-")?;
    append_decimal(&mut name, u64::from(uid))?;
    name.extend_from_slice(b".slice")?;
    Ok(PropertyValue::Text(Word::from_vec(name)))
}

/// The sessions of a user that are not gone.
#[tactic(auto, unfolding(login_model::specs::Where::sessions_of))]
fn sessions_of<F: Look>(alloc: Global, facts: &F, uid: Uid) -> Result<PropertyValue, NoMemory>
    ensures { IfOk result (λ value. value ≡ PropertyValue.Sessions (sessions_of (F.trail facts.now) uid.0)) }
{
    let sessions = find_sessions(alloc, facts, &OfUser(uid))?;
    Ok(PropertyValue::Sessions(sessions))
}

impl OfKind<Uid> for UserProperty {
    ghost value = { user_value };

    ghost property = { UserName };

    fn property(self) -> Property {
        Property::User(self)
    }

    fn value<F: Look>(
        self,
        alloc: Global,
        facts: &F,
        setup: &Setup,
        name: Uid,
    ) -> Result<PropertyValue, NoMemory> {
        match self {
            UserProperty::Uid => Ok(PropertyValue::Number(name.0)),
            UserProperty::Gid => Ok(PropertyValue::Number(setup.user_group(name.0))),
            UserProperty::Name => text(alloc, setup.user_name(name.0)),
            UserProperty::Slice => slice(alloc, name.0),
            UserProperty::State => text(alloc, user_state(facts, name.0).name()),
            UserProperty::Sessions => sessions_of(alloc, facts, name),
            UserProperty::Linger => {
                let lingers = facts.fact(&Key::Linger(name)).is_set();
                Ok(PropertyValue::Flag(lingers))
            }
        }
    }
}
