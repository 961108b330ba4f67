// Events become entries, whose blocks are written.

ghost use Rattle.std.specs.Prelude.{◌≡◌, None, [], ◌∷◌, map};
ghost use Rattle.login_core.specs.State.{IsReady};
ghost use Rattle.login_model.specs.Full.{full};
ghost use Rattle.login_model.specs.Legal.{AreInPlace, IsPlaced};
ghost use Rattle.login_model.specs.declared.event.Event.TheVariants as event;
ghost use Rattle.login_office.specs.Offices.{IsSame};
ghost use Rattle.replay.specs.Rising.{Rises};
ghost use Rattle.replay.specs.Early.{failed};
ghost use Rattle.replay.specs.inner.Early.{of_writing};
ghost use Rattle.replay.specs.inner.Making.{Makes, MakesRoom};

use crate::early::Early;
use login_base::Items;
use login_core::Refused;
use login_edge::Sink;
use login_model::{Event, Request};
use login_office::Office;
use recording::{WriteEnd, write_entry};
use std::alloc::Global;

/// Makes room for an event that may come next.
fn make_room(office: &mut Office, event: &Event) -> Result<(), Early>
    requires placed { IsPlaced office.old.core.journal event.now }
    ensures gives { MakesRoom office.old.core office.new.core event.now result }
    ensures same { IsSame office.old office.new }
{
    match office.room(event) {
        Ok(()) => Ok(()),
        Err(Refused::NoMemory) => Err(Early::NoMemory),
        Err(Refused::Full(count)) => Err(Early::Full(count)),
        Err(Refused::Stopped(_)) => unreachable!(),
    }
}

/// Steps an event that room was made for, and writes its entry.
fn step_event<K: Sink>(
    alloc: Global,
    office: &mut Office,
    event: Event,
    sink: &mut K,
) -> Result<(), Early>
    requires placed { IsPlaced office.old.core.journal event }
    requires ready { IsReady office.old.core event }
    requires room { full office.old.core.setup office.old.core.journal event ≡ None }
    ensures gives { Makes office.old (event ∷ []) office.new (K.held sink.old) (K.held sink.new) result }
    ensures cause { Rises (failed of_writing result) (K.faults sink.old) (K.faults sink.new) }
{
    let number = (office.core().journal().len() + 1) as u32;
    let entry = office.act(event);
    match write_entry(alloc, number, entry, sink) {
        Ok(()) => Ok(()),
        Err(WriteEnd::WriteFault) => Err(Early::WriteFault),
        Err(WriteEnd::NoMemory) => Err(Early::NoMemory),
    }
}

/// Makes the entry of an event that may come next, where the journal has room, and writes it.
pub fn make<K: Sink>(
    alloc: Global,
    office: &mut Office,
    event: Event,
    sink: &mut K,
) -> Result<(), Early>
    requires placed { IsPlaced office.old.core.journal event }
    ensures gives { Makes office.old (event ∷ []) office.new (K.held sink.old) (K.held sink.new) result }
    ensures cause { Rises (failed of_writing result) (K.faults sink.old) (K.faults sink.new) }
{
    match make_room(office, &event) {
        Ok(()) => step_event(alloc, office, event, sink),
        Err(early) => {
            drop(event);
            Err(early)
        }
    }
}

/// Makes the entries of calls, one after the other.
pub fn make_calls<K: Sink>(
    alloc: Global,
    office: &mut Office,
    calls: Items<Request>,
    sink: &mut K,
) -> Result<(), Early>
    requires placed { AreInPlace office.old.core.setup office.old.core.journal (map event.Call calls) }
    ensures gives { Makes office.old (map event.Call calls) office.new (K.held sink.old) (K.held sink.new) result }
    ensures cause { Rises (failed of_writing result) (K.faults sink.old) (K.faults sink.new) }
{
    for call in calls.into_vec() {
        make(alloc, office, Event::Call(call), sink)?;
    }
    Ok(())
}
