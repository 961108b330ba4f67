// The value of a property, and all properties of an object.

ghost use Rattle.std.specs.Prelude.{◌≡◌, IfOk};
ghost use Rattle.std.specs.Option.{option_map};
ghost use Rattle.login_model.specs.Properties.{rows_of, value_of};

use crate::kind::{OfKind, rows};
use login_base::{Items, NoMemory, Word};
use login_model::{
    Answer, Look, ManagerProperty, Object, PropertyRow, PropertyValue, SeatProperty,
    SessionProperty, Setup, UserProperty,
};
use std::alloc::Global;

/// The value of a property, if there is such a one.
fn value<N: Copy, P: OfKind<N>, F: Look>(
    alloc: Global,
    facts: &F,
    setup: &Setup,
    name: N,
    property: Option<P>,
) -> Result<Option<PropertyValue>, NoMemory>
    ensures { IfOk result (λ value. value ≡ option_map (P.value setup.now (F.trail facts.now) name) property) }
{
    match property {
        Some(property) => Ok(Some(property.value(alloc, facts, setup, name)?)),
        None => Ok(None),
    }
}

/// The value of the property with a name.
#[tactic(auto, unfolding(login_model::specs::Properties::value_of))]
fn value_of<F: Look>(
    alloc: Global,
    facts: &F,
    setup: &Setup,
    object: &Object,
    name: &[u8],
) -> Result<Option<PropertyValue>, NoMemory>
    ensures { IfOk result (λ value. value ≡ value_of setup.now (F.trail facts.now) object.now name.now) }
{
    match object {
        Object::Manager => value(alloc, facts, setup, (), ManagerProperty::read(name)),
        Object::Session(session) => {
            value(alloc, facts, setup, *session, SessionProperty::read(name))
        }
        Object::User(uid) => value(alloc, facts, setup, *uid, UserProperty::read(name)),
        Object::Seat(seat) => value(alloc, facts, setup, *seat, SeatProperty::read(name)),
    }
}

/// What a Get of an object's property with this name answers; None where it has no such property. No other
/// property's value is made.
pub fn get<F: Look>(
    alloc: Global,
    facts: &F,
    setup: &Setup,
    object: &Object,
    name: &Word,
) -> Result<Option<Answer>, NoMemory>
    ensures { IfOk result (λ answer. answer ≡ option_map Answer.Property (value_of setup.now (F.trail facts.now) object.now name.now)) }
{
    let value = value_of(alloc, facts, setup, object, name.as_slice())?;
    Ok(value.map(Answer::Property))
}

/// All properties of an object, in order.
#[tactic(auto, unfolding(login_model::specs::Properties::rows_of))]
fn rows_of<F: Look>(
    alloc: Global,
    facts: &F,
    setup: &Setup,
    object: &Object,
) -> Result<Items<PropertyRow>, NoMemory>
    ensures { IfOk result (λ rows. rows ≡ rows_of setup.now (F.trail facts.now) object.now) }
{
    match object {
        Object::Manager => rows(alloc, facts, setup, (), &ManagerProperty::ALL),
        Object::Session(session) => rows(alloc, facts, setup, *session, &SessionProperty::ALL),
        Object::User(uid) => rows(alloc, facts, setup, *uid, &UserProperty::ALL),
        Object::Seat(seat) => rows(alloc, facts, setup, *seat, &SeatProperty::ALL),
    }
}

/// What a GetAll of an object's own interface answers.
pub fn get_all<F: Look>(
    alloc: Global,
    facts: &F,
    setup: &Setup,
    object: &Object,
) -> Result<Answer, NoMemory>
    ensures { IfOk result (λ answer. answer ≡ Answer.Properties (rows_of setup.now (F.trail facts.now) object.now)) }
{
    Ok(Answer::Properties(rows_of(alloc, facts, setup, object)?))
}
