// Whether a line may come next.

ghost use Rattle.std.specs.Prelude.{◌≡◌, ◌↔◌, IsTrue, List, Some, None};
ghost use Rattle.std.specs.Option.{is_some};
ghost use Rattle.login_model.specs.Legal.{IsPlaced, trail_of};
ghost use Rattle.login_model.specs.Stopping.{stopped};
ghost use Rattle.login_model.specs.Where.{is_connected};
ghost use Rattle.login_model.specs.declared.event.Event.TheVariants as event;
ghost use Rattle.recording.specs.Lines.{IsEventLine, IsLine};
ghost use Rattle.replay.specs.Played.{Played, journal_of, played_lines};
ghost use Rattle.replay.specs.Recording.{IsOfNoLink, MayCome};
ghost use Rattle.replay.specs.inner.Placing.{IsNamed, MayOpen};
ghost use Rattle.replay.specs.inner.Player.{StandsBehind};

use crate::player::Player;
use login_base::ConnId;
use login_core::Core;
use login_model::{Event, Key, Look};
use recording::Line;

/// Whether a client is connected.
pub fn is_connected(core: &Core, who: ConnId) -> bool
    ensures { result ≡ is_connected (trail_of core.now.journal) who }
{
    core.fact(&Key::Conn(who)).is_connected()
}

/// Whether the stop has come: behind it nothing comes but ends.
pub fn has_stopped(core: &Core) -> bool
    ensures { result ≡ is_some (stopped core.now.journal event.Stop) }
{
    core.stopped(&Event::Stop).is_some()
}

/// Whether whom an event names is as it must be after the lines so far. A link's connect and disconnect come of
/// its bytes.
fn is_named(player: &Player, event: &Event) -> bool
    ensures { (played : List Played) → StandsBehind player.now played → IsTrue result ↔ IsNamed played event.now }
{
    match event {
        Event::Connect(who, _) => player.is_unused(*who),
        Event::Disconnect(who) => is_connected(player.core(), *who) && !player.is_open(*who),
        Event::Call(request) => is_connected(player.core(), request.who),
        Event::Hardware(_) | Event::Tick(_) | Event::Stop => true,
    }
}

/// Whether an event may come after the lines so far.
fn is_placed(player: &Player, event: &Event) -> bool
    requires { IsEventLine event.now }
    ensures { (played : List Played) → StandsBehind player.now played
        → IsTrue result ↔ (IsPlaced (journal_of played) event.now × IsOfNoLink (played_lines played) event.now) }
{
    match player.core().stopped(event) {
        Some(_) => false,
        None => is_named(player, event),
    }
}

/// Whether a link of this number may open.
fn may_open(player: &Player, who: ConnId) -> bool
    ensures { (played : List Played) → StandsBehind player.now played → IsTrue result ↔ MayOpen played who }
{
    player.is_unused(who) && !has_stopped(player.core())
}

/// Whether a line may come after the lines so far. The time grows with the logarithm of how many there were.
pub fn may_come(player: &Player, line: &Line) -> bool
    requires { IsLine line.now }
    ensures { (played : List Played) → StandsBehind player.now played → IsTrue result ↔ MayCome played line.now }
{
    match line {
        Line::Event(event) => is_placed(player, event),
        Line::Link(who, _) => may_open(player, *who),
        Line::In(who, _) | Line::Hangup(who) => player.is_open(*who),
        Line::Header(_)
        | Line::Guid(_)
        | Line::User(_)
        | Line::Conf(_)
        | Line::Action(_)
        | Line::Go
        | Line::End => false,
    }
}
