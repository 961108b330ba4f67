// The properties of a kind of objects.

ghost use Rattle.std.specs.Prelude.{◌≡◌, IfOk, map};
ghost use Rattle.login_model.specs.Trail.{Trail};
ghost use Rattle.login_model.specs.declared.property.Property.{Property as AnyProperty};
ghost use Rattle.login_model.specs.declared.property.PropertyRow.{PropertyRow as AnyRow};
ghost use Rattle.login_model.specs.declared.property.PropertyValue.{PropertyValue as AnyValue};
ghost use Rattle.login_model.specs.declared.setup.Setup.{Setup as AnySetup};

use login_base::{Items, NoMemory};
use login_model::{Look, Property, PropertyRow, PropertyValue, Setup};
use std::alloc::Global;

/// A property of a kind of objects, whose names are of type `N`.
pub(crate) trait OfKind<N: Copy>: Copy {
    /// Its value of the object with a name, under a setup and after these marks.
    ghost value: { AnySetup → Trail → N → Self → AnyValue };

    /// It as a property of any kind.
    ghost property: { Self → AnyProperty };

    fn property(self) -> Property
        ensures { result ≡ property self };

    /// Its value of the object with a name.
    fn value<F: Look>(
        self,
        alloc: Global,
        facts: &F,
        setup: &Setup,
        name: N,
    ) -> Result<PropertyValue, NoMemory>
        ensures { IfOk result (λ v. v ≡ value setup.now (F.trail facts.now) name self) };
}

/// A property with its value.
fn row<N: Copy, P: OfKind<N>, F: Look>(
    alloc: Global,
    facts: &F,
    setup: &Setup,
    name: N,
    property: P,
) -> Result<PropertyRow, NoMemory>
    ensures property { IfOk result (λ row. row.property ≡ P.property property) }
    ensures value { IfOk result (λ row. row.value ≡ P.value setup.now (F.trail facts.now) name property) }
{
    let value = property.value(alloc, facts, setup, name)?;
    Ok(PropertyRow {
        property: property.property(),
        value,
    })
}

/// These properties of an object, in order.
pub(crate) fn rows<N: Copy, P: OfKind<N>, F: Look>(
    alloc: Global,
    facts: &F,
    setup: &Setup,
    name: N,
    properties: &[P],
) -> Result<Items<PropertyRow>, NoMemory>
    ensures { IfOk result (λ rows. rows ≡ map (λ p. let r : AnyRow = record { property = P.property p; value = P.value setup.now (F.trail facts.now) name p } in r) properties.now) }
{
    let mut rows = Items::new(alloc);
    for property in properties {
        let made = row(alloc, facts, setup, name, *property)?;
        rows.push(made)?;
    }
    Ok(rows)
}
