// One line of a recording, behind `go`.

ghost use Rattle.std.specs.Prelude.{◌≡◌, None, OnOk};
ghost use Rattle.recording.specs.declared.line.Line.TheVariants as line;
ghost use Rattle.replay.specs.Rising.{Rises};
ghost use Rattle.replay.specs.Early.{failed};
ghost use Rattle.replay.specs.inner.Early.{of_writing};
ghost use Rattle.replay.specs.inner.Player.{Stands, ended_in};
ghost use Rattle.replay.specs.inner.Playing.{ComesNext, MakesLine, PlaysLine};

use crate::early::Early;
use crate::linking::{hang_up, hear, open_link};
use crate::making::make;
use crate::own::Own;
use crate::player::Player;
use crate::telling::tell;
use login_base::ConnId;
use login_edge::Sink;
use login_model::Event;
use recording::Line;
use std::alloc::Global;

/// Makes the entry of an event that has a line of its own.
fn make_event<K: Sink>(
    alloc: Global,
    player: &mut Player,
    event: Event,
    sink: &mut K,
) -> Result<Option<Own>, Early>
    requires next { ComesNext player.old (line.Event event) }
    ensures gives { MakesLine player.old (line.Event event) player.new (K.held sink.old) (K.held sink.new) result }
    ensures cause { Rises (failed of_writing result) (K.faults sink.old) (K.faults sink.new) }
{
    if player.keep_number(&event).is_err() {
        drop(event);
        return Err(Early::NoMemory);
    }
    make(alloc, &mut player.office, event, sink)?;
    Ok(None)
}

/// Makes the entries of a line that may come next, and writes them.
fn make_line<K: Sink>(
    alloc: Global,
    player: &mut Player,
    line: Line,
    sink: &mut K,
) -> Result<Option<Own>, Early>
    requires next { ComesNext player.old line }
    ensures gives { MakesLine player.old line player.new (K.held sink.old) (K.held sink.new) result }
    ensures cause { Rises (failed of_writing result) (K.faults sink.old) (K.faults sink.new) }
{
    match line {
        Line::Event(event) => make_event(alloc, player, event, sink),
        Line::Link(who, user) => open_link(alloc, player, who, user),
        Line::In(who, bytes) => hear(alloc, player, who, &bytes, sink),
        Line::Hangup(who) => hang_up(alloc, player, who, sink),
        other => {
            drop(other);
            unreachable!()
        }
    }
}

/// The link that has ended.
fn ended(own: &Option<Own>) -> Option<ConnId>
    ensures { result ≡ ended_in own.now }
{
    match own {
        Some(own) if own.end.is_some() => Some(own.who),
        _ => None,
    }
}

/// Plays a line that may come next: makes its entries, and tells its links what they are owed.
pub fn play_line<K: Sink>(
    alloc: Global,
    player: &mut Player,
    line: Line,
    sink: &mut K,
) -> Result<(), Early>
    requires next { ComesNext player.old line }
    ensures gives { PlaysLine player.old line player.new (K.held sink.old) (K.held sink.new) result }
    ensures stands { OnOk result (Stands player.new) }
    ensures cause { Rises (failed of_writing result) (K.faults sink.old) (K.faults sink.new) }
{
    let own = make_line(alloc, player, line, sink)?;
    tell(alloc, &mut player.office, &own, sink)?;
    if let Some(who) = ended(&own) {
        player.office.forget(who);
    }
    Ok(())
}
