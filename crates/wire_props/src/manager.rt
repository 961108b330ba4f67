// The properties of the manager.

ghost use Rattle.std.specs.Prelude.{◌≡◌, IfOk};
ghost use Rattle.login_model.specs.Facts.{under_way_in};
ghost use Rattle.login_model.specs.Properties.{inhibited_among, inhibited_by, is_preparing_for, manager_value};
ghost use Rattle.login_model.specs.Trail.{value};
ghost use Rattle.login_model.specs.Where.{locks};
ghost use Rattle.login_model.specs.declared.fact.Key.TheVariants.{Op};
ghost use Rattle.login_model.specs.declared.property.Property.TheVariants.{Manager};

use crate::kind::OfKind;
use login_base::{LockNo, NoMemory};
use login_model::{
    Inhibited, Key, LockMode, Look, ManagerProperty, OpKind, Property, PropertyValue, Setup,
};
use login_table::list;
use std::alloc::Global;

/// What these locks hold up that stand and have this mode.
fn inhibited_among<F: Look>(facts: &F, mode: LockMode, locks: &[LockNo]) -> Inhibited
    ensures { result ≡ inhibited_among (F.trail facts.now) mode locks.now }
{
    let mut inhibited = Inhibited::NOTHING;
    for lock in locks {
        inhibited = inhibited.or(facts.fact(&Key::Lock(*lock)).inhibited(mode));
    }
    inhibited
}

/// What the locks of a mode that stand hold up.
#[tactic(auto, unfolding(login_model::specs::Properties::inhibited_by, login_model::specs::Where::locks))]
fn inhibited_by<F: Look>(alloc: Global, facts: &F, mode: LockMode) -> Result<Inhibited, NoMemory>
    ensures { IfOk result (λ inhibited. inhibited ≡ inhibited_by (F.trail facts.now) mode) }
{
    let locks = list::<LockNo, F>(alloc, facts)?;
    Ok(inhibited_among(facts, mode, locks.as_slice()))
}

/// Whether an operation that may wait or run is a shutdown, or is none.
fn is_of(is_shutdown: bool, kind: Option<OpKind>) -> bool
    ensures { result ≡ is_preparing_for is_shutdown kind }
{
    match kind {
        Some(kind) => kind.is_shutdown() == is_shutdown,
        None => false,
    }
}

/// Whether an operation waits or runs that is a shutdown, or is none.
fn is_preparing_for<F: Look>(facts: &F, is_shutdown: bool) -> PropertyValue
    ensures { result ≡ PropertyValue.Flag (is_preparing_for is_shutdown (under_way_in (value (F.trail facts.now) Op))) }
{
    PropertyValue::Flag(is_of(is_shutdown, facts.fact(&Key::Op).under_way()))
}

impl OfKind<()> for ManagerProperty {
    ghost value = { λ setup t name p. manager_value setup t p };

    ghost property = { Manager };

    fn property(self) -> Property {
        Property::Manager(self)
    }

    fn value<F: Look>(
        self,
        alloc: Global,
        facts: &F,
        setup: &Setup,
        name: (),
    ) -> Result<PropertyValue, NoMemory> {
        Ok(match self {
            ManagerProperty::BlockInhibited => {
                PropertyValue::Inhibited(inhibited_by(alloc, facts, LockMode::Block)?)
            }
            ManagerProperty::DelayInhibited => {
                PropertyValue::Inhibited(inhibited_by(alloc, facts, LockMode::Delay)?)
            }
            ManagerProperty::InhibitDelayMax => PropertyValue::Time(setup.conf.inhibit_delay_max),
            ManagerProperty::CurrentInhibitors => PropertyValue::Count(facts.lock_count()),
            ManagerProperty::CurrentSessions => PropertyValue::Count(facts.session_count()),
            ManagerProperty::PreparingForShutdown => is_preparing_for(facts, true),
            ManagerProperty::PreparingForSleep => is_preparing_for(facts, false),
            ManagerProperty::Docked => PropertyValue::Flag(facts.fact(&Key::Docked).is_set()),
        })
    }
}
