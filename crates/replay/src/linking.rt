// What the lines of links make: their events, and what is said of the handshake.

ghost use Rattle.std.specs.Prelude.{ℕ, List, Option, ◌≡◌, Some, None, false, IfOk, IsSome, [], ◌∷◌, if◌then◌else◌};
ghost use Rattle.std.specs.Option.{is_some};
ghost use Rattle.login_model.specs.Legal.{AreInPlace, IsLegal, trail_of};
ghost use Rattle.login_model.specs.Stopping.{stopped};
ghost use Rattle.login_model.specs.Where.{is_connected};
ghost use Rattle.login_model.specs.declared.event.Event.TheVariants as event;
ghost use Rattle.login_office.specs.Offices.{teller_of};
ghost use Rattle.recording.specs.declared.line.Line.TheVariants as line;
ghost use Rattle.replay.specs.Rising.{Rises};
ghost use Rattle.replay.specs.Early.{failed};
ghost use Rattle.replay.specs.inner.Early.{of_writing};
ghost use Rattle.replay.specs.inner.Making.{Makes, connect_of, done, end_then, heard_events, is_in_then, turns_of};
ghost use Rattle.replay.specs.inner.Player.{user_at};
ghost use Rattle.replay.specs.inner.Playing.{ComesNext, MakesLine, with_own};

use crate::early::Early;
use crate::making::{make, make_calls};
use crate::own::Own;
use crate::placing::{has_stopped, is_connected};
use crate::player::Player;
use login_base::{Bytes, ConnId, Items, Uid};
use login_edge::Sink;
use login_model::{Event, Request};
use login_office::{HeardPiece, LinkEnd, Office, Unbegun};
use std::alloc::Global;

/// What a piece brings that was heard on a link: as whom the link begins, if it does, its calls, and whether it ends.
#[derive(Drop)]
struct Brought {
    who: ConnId,
    begins: Option<Uid>,
    calls: Items<Request>,
    ends: bool,
}

/// Makes the calls of a connected link, and its disconnect where it has ended.
fn make_turns<K: Sink>(
    alloc: Global,
    office: &mut Office,
    brought: Brought,
    sink: &mut K,
) -> Result<(), Early>
    requires placed { AreInPlace office.old.core.setup office.old.core.journal (turns_of brought.who brought.calls brought.ends) }
    ensures gives { Makes office.old (turns_of brought.who brought.calls brought.ends) office.new (K.held sink.old) (K.held sink.new) result }
    ensures cause { Rises (failed of_writing result) (K.faults sink.old) (K.faults sink.new) }
{
    let Brought {
        who,
        calls,
        ends,
        ..
    } = brought;
    make_calls(alloc, office, calls, sink)?;
    if ends {
        make(alloc, office, Event::Disconnect(who), sink)?;
    }
    Ok(())
}

/// Makes the connect of a link that begins, as this user. Says whether the link is connected then.
fn let_in<K: Sink>(
    alloc: Global,
    office: &mut Office,
    who: ConnId,
    begins: Option<Uid>,
    sink: &mut K,
) -> Result<bool, Early>
    requires placed { AreInPlace office.old.core.setup office.old.core.journal (connect_of who begins) }
    ensures gives { Makes office.old (connect_of who begins) office.new (K.held sink.old) (K.held sink.new) (done result) }
    ensures let_in { IfOk result (λ here. here ≡ is_connected (trail_of office.new.core.journal) who) }
    ensures cause { Rises (failed of_writing result) (K.faults sink.old) (K.faults sink.new) }
{
    if let Some(user) = begins {
        make(alloc, office, Event::Connect(who, user), sink)?;
    }
    Ok(is_connected(office.core(), who))
}

/// Makes the events of a piece that was heard on a link. Says whether the link was connected when its calls came.
fn make_heard<K: Sink>(
    alloc: Global,
    office: &mut Office,
    brought: Brought,
    sink: &mut K,
) -> Result<bool, Early>
    requires legal { IsLegal office.old.core.setup office.old.core.journal }
    requires placed { AreInPlace office.old.core.setup office.old.core.journal (heard_events office.old.core.setup office.old.core.journal brought.who brought.begins brought.calls brought.ends) }
    ensures gives { Makes office.old (heard_events office.old.core.setup office.old.core.journal brought.who brought.begins brought.calls brought.ends) office.new (K.held sink.old) (K.held sink.new) (done result) }
    ensures let_in { IfOk result (λ here. here ≡ is_in_then office.old.core.setup office.old.core.journal brought.who brought.begins) }
    ensures cause { Rises (failed of_writing result) (K.faults sink.old) (K.faults sink.new) }
{
    let is_in = let_in(alloc, office, brought.who, brought.begins, sink)?;
    if is_in {
        make_turns(alloc, office, brought, sink)?;
    }
    Ok(is_in)
}

/// How a link ends with a piece: since it is not let in, or as its bytes show.
fn end_of(begins: bool, is_in: bool, shown: Option<LinkEnd>) -> Option<LinkEnd>
    ensures { result ≡ end_then begins is_in shown }
{
    if begins && !is_in {
        Some(LinkEnd::TooMany)
    } else {
        shown
    }
}

/// The user of a link that begins.
fn beginner(player: &Player, who: ConnId, begins: bool) -> Option<Uid>
    ensures { result ≡ (if begins then user_at who.0 player.now.links else None) }
{
    if begins { player.open_user(who) } else { None }
}

/// Hears a piece on a link that has not ended, and makes the events that it brings.
fn hear_piece<K: Sink>(
    alloc: Global,
    player: &mut Player,
    who: ConnId,
    piece: &[u8],
    sink: &mut K,
) -> Result<Own, Early>
    requires next { ComesNext player.old (line.In who piece.now) }
    requires going { is_some (stopped player.old.office.core.journal event.Stop) ≡ false }
    requires link { IsSome (teller_of player.old.office who) }
    ensures gives { MakesLine player.old (line.In who piece.now) player.new (K.held sink.old) (K.held sink.new) (with_own result) }
    ensures cause { Rises (failed of_writing result) (K.faults sink.old) (K.faults sink.new) }
{
    let HeardPiece {
        replies,
        begins,
        calls,
        end,
    } = player.office.hear(alloc, who, piece)?;
    let user = beginner(player, who, begins);
    let brought = Brought {
        who,
        begins: user,
        calls,
        ends: end.is_some(),
    };
    let is_in = make_heard(alloc, &mut player.office, brought, sink)?;
    Ok(Own {
        who,
        replies,
        end: end_of(begins, is_in, end),
    })
}

/// Hears the bytes of a line. Behind the stop they are not acted on, nor those of a link that has ended.
pub fn hear<K: Sink>(
    alloc: Global,
    player: &mut Player,
    who: ConnId,
    bytes: &Bytes,
    sink: &mut K,
) -> Result<Option<Own>, Early>
    requires next { ComesNext player.old (line.In who bytes.now) }
    ensures gives { MakesLine player.old (line.In who bytes.now) player.new (K.held sink.old) (K.held sink.new) result }
    ensures cause { Rises (failed of_writing result) (K.faults sink.old) (K.faults sink.new) }
{
    if has_stopped(player.core()) || !player.office.is_open(who) {
        return Ok(None);
    }
    Ok(Some(hear_piece(alloc, player, who, bytes.as_slice(), sink)?))
}

/// Ends a link that has not ended, with its input.
fn end_input<K: Sink>(
    alloc: Global,
    office: &mut Office,
    who: ConnId,
    sink: &mut K,
) -> Result<Own, Early>
    ensures gives { Makes office.old (if is_connected (trail_of office.old.core.journal) who then event.Disconnect who ∷ [] else []) office.new (K.held sink.old) (K.held sink.new) (done result) }
    ensures who { IfOk result (λ own. own.who ≡ who) }
    ensures replies { IfOk result (λ own. own.replies ≡ []) }
    ensures end { IfOk result (λ own. own.end ≡ Some (if is_connected (trail_of office.old.core.journal) who then LinkEnd.Closed else LinkEnd.NotBegun Unbegun.HungUp)) }
    ensures cause { Rises (failed of_writing result) (K.faults sink.old) (K.faults sink.new) }
{
    let has_begun = is_connected(office.core(), who);
    if has_begun {
        make(alloc, office, Event::Disconnect(who), sink)?;
    }
    let end = if has_begun {
        LinkEnd::Closed
    } else {
        LinkEnd::NotBegun(Unbegun::HungUp)
    };
    Ok(Own {
        who,
        replies: Bytes::new(alloc),
        end: Some(end),
    })
}

/// Ends the input of a link, which may have ended before.
pub fn hang_up<K: Sink>(
    alloc: Global,
    player: &mut Player,
    who: ConnId,
    sink: &mut K,
) -> Result<Option<Own>, Early>
    requires next { ComesNext player.old (line.Hangup who) }
    ensures gives { MakesLine player.old (line.Hangup who) player.new (K.held sink.old) (K.held sink.new) result }
    ensures cause { Rises (failed of_writing result) (K.faults sink.old) (K.faults sink.new) }
{
    player.links.remove(&who.0);
    if !player.office.is_open(who) {
        return Ok(None);
    }
    Ok(Some(end_input(alloc, &mut player.office, who, sink)?))
}

/// Opens a link, on which nothing was heard yet.
pub fn open_link(
    alloc: Global,
    player: &mut Player,
    who: ConnId,
    user: Uid,
) -> Result<Option<Own>, Early>
    requires next { ComesNext player.old (line.Link who user) }
    ensures gives { (held : Option (List ℕ)) → MakesLine player.old (line.Link who user) player.new held held result }
    ensures unwritten { failed of_writing result ≡ false }
{
    player.open_link(alloc, who, user)?;
    Ok(None)
}
