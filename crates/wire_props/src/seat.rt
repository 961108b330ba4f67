// The properties of seats.

ghost use Rattle.std.specs.Prelude.{◌≡◌, IfOk};
ghost use Rattle.login_model.specs.Properties.{seat_value};
ghost use Rattle.login_model.specs.Taking.{has_graphics};
ghost use Rattle.login_model.specs.Where.{sessions_on};
ghost use Rattle.login_model.specs.declared.property.Property.TheVariants.{Seat as SeatsOwn};

use crate::kind::OfKind;
use crate::values::text;
use login_base::{DevNo, NoMemory, SeatName};
use login_model::{Look, Property, PropertyValue, SeatProperty, Setup};
use login_table::{IsGraphicsOn, OnSeat, active_on, find_first, find_sessions};
use std::alloc::Global;

/// Whether a graphics device is on a seat.
fn has_graphics<F: Look>(facts: &F, seat: SeatName) -> bool
    ensures { result ≡ has_graphics (F.trail facts.now) seat }
{
    find_first::<DevNo, F, IsGraphicsOn>(facts, &IsGraphicsOn(seat)).is_some()
}

/// The sessions on a seat that are not gone.
#[tactic(auto, unfolding(login_model::specs::Where::sessions_on))]
fn sessions_on<F: Look>(alloc: Global, facts: &F, seat: SeatName) -> Result<PropertyValue, NoMemory>
    ensures { IfOk result (λ value. value ≡ PropertyValue.Sessions (sessions_on (F.trail facts.now) seat)) }
{
    let sessions = find_sessions(alloc, facts, &OnSeat(seat))?;
    Ok(PropertyValue::Sessions(sessions))
}

impl OfKind<SeatName> for SeatProperty {
    ghost value = { λ setup t name p. seat_value t name p };

    ghost property = { SeatsOwn };

    fn property(self) -> Property {
        Property::Seat(self)
    }

    fn value<F: Look>(
        self,
        alloc: Global,
        facts: &F,
        setup: &Setup,
        name: SeatName,
    ) -> Result<PropertyValue, NoMemory> {
        match self {
            SeatProperty::Id => text(alloc, name.as_slice()),
            SeatProperty::ActiveSession => Ok(PropertyValue::Session(active_on(facts, name))),
            SeatProperty::CanTty => Ok(PropertyValue::Flag(name.is_seat0())),
            SeatProperty::CanGraphical => Ok(PropertyValue::Flag(has_graphics(facts, name))),
            SeatProperty::Sessions => sessions_on(alloc, facts, name),
        }
    }
}
