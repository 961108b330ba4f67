// How the events of lines are read and stepped.

ghost use Rattle.std.specs.Prelude.{IfSome, IsTrue};
ghost use Rattle.login_model.specs.Conf.{IsAllowed};
ghost use Rattle.login_model.specs.Legal.{IsPlaced};
ghost use Rattle.recording.specs.Lines.{IsEventLine};
ghost use Rattle.wire_out.specs.Conditions.{IsMailable};
ghost use Rattle.login_rows.specs.Going.{GoesOn};
ghost use Rattle.login_rows.specs.Named.{IsNamed};

use crate::playing::{is_connected, is_unused, new_core};
use login_base::NoMemory;
use login_core::{Core, Refused};
use login_model::{Conf, Event};
use recording::{Line, read_line};
use std::alloc::Global;

/// Whether whom an event names is as it must be after the entries so far.
fn is_named(core: &Core, event: &Event) -> bool
    ensures { IsTrue result → IsNamed core.now.journal event.now }
{
    match event {
        Event::Connect(who, _) => is_unused(core.journal().as_slice(), *who),
        Event::Disconnect(who) => is_connected(core, *who),
        Event::Call(request) => is_connected(core, request.who),
        Event::Hardware(_) | Event::Tick(_) | Event::Stop => true,
    }
}

/// Whether the event of a line may come next.
#[tactic(auto, using(crate::proofs::Placed::placed))]
pub fn is_next(core: &Core, event: &Event) -> bool
    requires { IsEventLine event.now }
    ensures { IsTrue result → IsPlaced core.now.journal event.now }
{
    core.stopped(event).is_none() && is_named(core, event)
}

/// Makes room for an event, and steps it; whether it could.
fn step(core: &mut Core, event: Event) -> bool
    requires { IsEventLine event }
    ensures { IsTrue result → GoesOn core.old.journal core.new.journal }
{
    if !is_next(core, &event) {
        drop(event);
        return false;
    }
    match core.room(&event) {
        Ok(()) => {
            core.step(event);
            true
        }
        Err(_) => {
            drop(event);
            false
        }
    }
}

/// The event of a line with its line feed, if it is one of an event.
fn event_of(alloc: Global, line: &[u8]) -> Option<Event>
    ensures { IfSome result IsEventLine }
{
    match read_line(alloc, line) {
        Ok(Line::Event(event)) => Some(event),
        Ok(other) => {
            drop(other);
            None
        }
        Err(_) => None,
    }
}

/// The event of a line to which the line feed is put.
pub fn event(alloc: Global, line: &[u8]) -> Option<Event>
    ensures { IfSome result IsEventLine }
{
    let Ok(line) = ended(alloc, line) else {
        return None;
    };
    event_of(alloc, line.as_slice())
}

/// A line with the line feed at its end.
fn ended(alloc: Global, line: &[u8]) -> Result<Vec<u8>, NoMemory> {
    let mut text = Vec::from_slice(alloc, line)?;
    text.push(b'\n')?;
    Ok(text)
}

/// Steps the event of a line with its line feed; whether it is one that may come next.
pub fn play_whole(alloc: Global, core: &mut Core, line: &[u8]) -> bool
    ensures { IsTrue result → GoesOn core.old.journal core.new.journal }
{
    match event_of(alloc, line) {
        Some(event) => step(core, event),
        None => false,
    }
}

/// The same of a line to which the line feed is put.
pub fn play(alloc: Global, core: &mut Core, line: &[u8]) -> bool
    ensures { IsTrue result → GoesOn core.old.journal core.new.journal }
{
    match event(alloc, line) {
        Some(event) => step(core, event),
        None => false,
    }
}

/// The same of these lines, as long as each could be played.
pub fn play_all(alloc: Global, core: &mut Core, lines: &[&[u8]]) -> bool {
    for line in lines {
        if !play(alloc, core, line) {
            return false;
        }
    }
    true
}

/// A core that stepped the events of these lines.
pub fn played(alloc: Global, lines: &[&[u8]]) -> Result<Core, NoMemory> {
    let mut core = new_core(alloc)?;
    if play_all(alloc, &mut core, lines) {
        Ok(core)
    } else {
        drop(core);
        Err(NoMemory)
    }
}

/// What refuses room for an event, if anything does.
#[tactic(auto, using(crate::proofs::Placed::asked))]
fn refuse(core: &mut Core, event: &Event) -> Option<Refused>
    requires { IsEventLine event.now }
{
    if is_named(core, event) {
        core.room(event).err()
    } else {
        None
    }
}

/// What refuses room for the event of a line, if anything does.
pub fn refusal(alloc: Global, core: &mut Core, line: &[u8]) -> Option<Refused> {
    let event = event(alloc, line)?;
    let refused = refuse(core, &event);
    drop(event);
    refused
}

/// Whether a configuration lets there be no more sessions and locks, and wait no longer, than any may.
fn is_allowed(conf: &Conf) -> bool
    ensures { IsTrue result → IsAllowed conf.now }
{
    conf.sessions_max <= 32768
        && conf.inhibitors_max <= 32768
        && conf.inhibit_delay_max.0 <= 4_000_000_000_000
}

/// Whether there is mail of a core's journal.
pub fn is_mailable(core: &Core) -> bool
    ensures { IsTrue result → IsMailable core.now.journal }
{
    core.journal();
    is_allowed(&core.setup().conf)
}
