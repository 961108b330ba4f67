// Turns at the desk that anybody takes: an event, the stop, and a look.

ghost use Rattle.std.specs.Prelude.{◌≡◌, ◌<◌};
ghost use Rattle.link_serve.specs.Acting.{FitsAlone, FitsBehind};
ghost use Rattle.link_serve.specs.Owners.{event_who};
ghost use Rattle.link_serve.specs.Turned.{LookTells, StepTells, StopTells};

use crate::acts::{Looking, Step};
use crate::core_at_desk::{DeskOfCore, PassOfCore};
use login_core::Refused;
use login_edge::Gate;
use login_model::Event;
use std::sync::Wait;

/// Makes the entry of an event that is of the pass's connection, and wakes the links where it tells something. Whether
/// it was granted, or why there is no entry.
pub fn step_event<R: Wait, G: Gate>(
    rt: &R,
    desk: &DeskOfCore,
    gate: &G,
    pass: &mut PassOfCore,
    event: Event,
) -> Result<bool, Refused>
    requires desk { pass.old.desk ≡ desk.now }
    requires who { event_who event ≡ pass.old.view.who }
    requires alone { FitsAlone event }
    requires behind { 0 < pass.old.view.who → FitsBehind event pass.old.view.mine }
    ensures desk { pass.new.desk ≡ pass.old.desk }
    ensures steps { StepTells event pass.old.view pass.new.view result }
{
    match desk.act(rt, pass, &mut Step::new(event)) {
        Some(Ok(made)) => {
            if made.tells {
                gate.wake();
            }
            Ok(made.granted)
        }
        Some(Err(why)) => Err(why),
        None => unreachable!(),
    }
}

/// Makes the stop's entry, if it is not there.
pub fn stop<R: Wait, G: Gate>(rt: &R, desk: &DeskOfCore, gate: &G, pass: &mut PassOfCore)
    requires desk { pass.old.desk ≡ desk.now }
    requires who { pass.old.view.who ≡ 0 }
    ensures desk { pass.new.desk ≡ pass.old.desk }
    ensures stops { StopTells pass.old.view pass.new.view }
{
    let _ = step_event(rt, desk, gate, pass, Event::Stop);
}

/// The number of the stop's entry, if it is there.
pub fn look_for_stop<R: Wait>(rt: &R, desk: &DeskOfCore, pass: &mut PassOfCore) -> Option<u32>
    requires desk { pass.old.desk ≡ desk.now }
    ensures desk { pass.new.desk ≡ pass.old.desk }
    ensures looks { LookTells pass.old.view pass.new.view result }
{
    desk.act(rt, pass, &mut Looking)
}
