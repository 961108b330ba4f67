// What is said on links behind the entries of a line. Only who is connected has mail, and only the line's own link can
// have further replies or end: no other link is looked at.

ghost use Rattle.std.specs.Prelude.{◌≡◌, ◌++◌, List, None, IfOk, OnOk};
ghost use Rattle.login_model.specs.Legal.{trail_of};
ghost use Rattle.login_model.specs.Names.{IsNext, conn_lt, is_above};
ghost use Rattle.login_office.specs.Offices.{teller_of};
ghost use Rattle.replay.specs.Played.{Played};
ghost use Rattle.replay.specs.Rising.{Rises};
ghost use Rattle.replay.specs.Transcript.{closed_text, links_text, out_text};
ghost use Rattle.replay.specs.Early.{failed};
ghost use Rattle.replay.specs.inner.Early.{of_writing};
ghost use Rattle.replay.specs.inner.Player.{Brings, HasMade, HasTold, own_end, own_replies};
ghost use Rattle.replay.specs.inner.Telling.{AllFetched, Fetched, IsOwnOf, TellsText, all_told, hears, is_between, nearest, own_who, told_text, unfetched};
ghost use Rattle.replay.specs.inner.Writing.{Writes};

use crate::closed::closed_line;
use crate::early::Early;
use crate::own::Own;
use crate::writing::write_text;
use login_base::{Bytes, ConnId, NoMemory};
use login_core::Core;
use login_edge::Sink;
use login_model::Look;
use login_office::{LinkEnd, Office};
use recording::{WriteEnd, write_out};
use std::alloc::Global;

/// The number of the line's own link.
fn own_who(own: &Option<Own>) -> Option<ConnId>
    ensures { result ≡ own_who own.now }
{
    match own {
        Some(own) => Some(own.who),
        None => None,
    }
}

/// The replies of the handshake that a line brought about on a link.
fn own_replies(own: &Option<Own>, who: ConnId) -> &[u8]
    ensures { result.now ≡ own_replies own.now who }
{
    match own {
        Some(own) if own.who.0 == who.0 => own.replies.as_slice(),
        _ => &[],
    }
}

/// How a link has ended by a line.
fn own_end(own: &Option<Own>, who: ConnId) -> Option<LinkEnd>
    ensures { result ≡ own_end own.now who }
{
    match own {
        Some(own) if own.who.0 == who.0 => own.end,
        _ => None,
    }
}

/// Whether a number is above another, or above nothing.
fn is_above(after: Option<ConnId>, who: ConnId) -> bool
    ensures { result ≡ is_above conn_lt after who }
{
    match after {
        Some(after) => after.0 < who.0,
        None => true,
    }
}

/// Whether a number is above one, and below the next.
fn is_between(after: Option<ConnId>, who: ConnId, next: Option<ConnId>) -> bool
    ensures { result ≡ is_between after who next }
{
    match next {
        Some(next) => is_above(after, who) && who.0 < next.0,
        None => is_above(after, who),
    }
}

/// The line's own link where it is next, and otherwise the next connection.
fn nearest(own: Option<ConnId>, after: Option<ConnId>, next: Option<ConnId>) -> Option<ConnId>
    ensures { result ≡ nearest own after next }
{
    match own {
        Some(own) if is_between(after, own, next) => Some(own),
        _ => next,
    }
}

/// The next of those to whom something may have to be said.
fn next_hearer(core: &Core, own: Option<ConnId>, after: Option<ConnId>) -> Option<ConnId>
    ensures { IsNext conn_lt (hears (trail_of core.now.journal) own) after result }
{
    nearest(own, after, core.next_conn(after))
}

/// The mail that a link is due; none where it has no teller.
fn fetch(alloc: Global, office: &mut Office, who: ConnId) -> Result<Bytes, NoMemory>
    ensures mail { IfOk result (λ bytes. bytes ≡ unfetched office.old.core.journal (teller_of office.old who)) }
    ensures fetched { OnOk result (Fetched office.old who office.new) }
{
    if office.is_open(who) {
        office.mail(alloc, who)
    } else {
        Ok(Bytes::new(alloc))
    }
}

/// Replies, and mail behind them.
fn replies_and_mail(alloc: Global, replies: &[u8], mail: Bytes) -> Result<Bytes, NoMemory>
    ensures { IfOk result (λ bytes. bytes ≡ replies.now ++ mail) }
{
    if replies.is_empty() {
        return Ok(mail);
    }
    let mut bytes = Vec::new(alloc);
    bytes.extend_from_slice(replies)?;
    bytes.extend_from_slice(mail.as_slice())?;
    Ok(Bytes::from_vec(bytes))
}

/// Writes the bytes that a link is due, if there are any.
fn write_due<K: Sink>(alloc: Global, who: ConnId, bytes: &[u8], sink: &mut K) -> Result<(), Early>
    ensures gives { Writes (K.held sink.old) (K.held sink.new) (out_text who bytes.now) result }
    ensures cause { Rises (failed of_writing result) (K.faults sink.old) (K.faults sink.new) }
{
    if bytes.is_empty() {
        return Ok(());
    }
    match write_out(alloc, who, bytes, sink) {
        Ok(()) => Ok(()),
        Err(WriteEnd::WriteFault) => Err(Early::WriteFault),
        Err(WriteEnd::NoMemory) => Err(Early::NoMemory),
    }
}

/// Writes that a link has ended, if it has.
fn write_closed<K: Sink>(
    alloc: Global,
    who: ConnId,
    end: Option<LinkEnd>,
    sink: &mut K,
) -> Result<(), Early>
    ensures gives { Writes (K.held sink.old) (K.held sink.new) (closed_text who None end) result }
    ensures cause { Rises (failed of_writing result) (K.faults sink.old) (K.faults sink.new) }
{
    match end {
        Some(end) => {
            let text = closed_line(alloc, who, end)?;
            write_text(sink, text.as_slice())
        }
        None => Ok(()),
    }
}

/// Writes what is to be said on a link.
fn write_told<K: Sink>(
    alloc: Global,
    who: ConnId,
    bytes: &[u8],
    end: Option<LinkEnd>,
    sink: &mut K,
) -> Result<(), Early>
    ensures gives { TellsText (K.held sink.old) (K.held sink.new) (out_text who bytes.now ++ closed_text who None end) result }
    ensures cause { Rises (failed of_writing result) (K.faults sink.old) (K.faults sink.new) }
{
    write_due(alloc, who, bytes, sink)?;
    write_closed(alloc, who, end, sink)
}

/// Says to one what is to be said.
fn tell_one<K: Sink>(
    alloc: Global,
    office: &mut Office,
    who: ConnId,
    own: &Option<Own>,
    sink: &mut K,
) -> Result<(), Early>
    ensures gives { TellsText (K.held sink.old) (K.held sink.new) (told_text office.old own.now who) result }
    ensures fetched { OnOk result (Fetched office.old who office.new) }
    ensures cause { Rises (failed of_writing result) (K.faults sink.old) (K.faults sink.new) }
{
    let mail = fetch(alloc, office, who)?;
    let bytes = replies_and_mail(alloc, own_replies(own, who), mail)?;
    write_told(alloc, who, bytes.as_slice(), own_end(own, who), sink)
}

/// Says to each what is to be said, in the order of their numbers.
fn tell_each<K: Sink>(
    alloc: Global,
    office: &mut Office,
    own: &Option<Own>,
    sink: &mut K,
) -> Result<(), Early>
    ensures gives { TellsText (K.held sink.old) (K.held sink.new) (all_told office.old own.now) result }
    ensures fetched { OnOk result (AllFetched office.old own.now office.new) }
    ensures cause { Rises (failed of_writing result) (K.faults sink.old) (K.faults sink.new) }
{
    let mut after = None;
    while let Some(who) = next_hearer(office.core(), own_who(own), after) {
        tell_one(alloc, office, who, own, sink)?;
        after = Some(who);
    }
    Ok(())
}

/// Says to each what is to be said. Where no link is open nobody is gone over.
fn tell_all<K: Sink>(
    alloc: Global,
    office: &mut Office,
    own: &Option<Own>,
    sink: &mut K,
) -> Result<(), Early>
    ensures gives { TellsText (K.held sink.old) (K.held sink.new) (all_told office.old own.now) result }
    ensures fetched { OnOk result (AllFetched office.old own.now office.new) }
    ensures cause { Rises (failed of_writing result) (K.faults sink.old) (K.faults sink.new) }
{
    if own.is_none() && office.has_no_links() {
        return Ok(());
    }
    tell_each(alloc, office, own, sink)
}

/// Says behind the entries of a line what is to be said on links.
pub fn tell<K: Sink>(
    alloc: Global,
    office: &mut Office,
    own: &Option<Own>,
    sink: &mut K,
) -> Result<(), Early>
    ensures gives { (before : List Played) (p : Played) → HasMade office.old before p → Brings office.old.core.setup before p own.now → IsOwnOf office.old p own.now
        → TellsText (K.held sink.old) (K.held sink.new) (links_text office.old.core.setup before p) result }
    ensures told { (before : List Played) (p : Played) → HasMade office.old before p → Brings office.old.core.setup before p own.now → IsOwnOf office.old p own.now
        → OnOk result (HasTold office.old office.new before p) }
    ensures cause { Rises (failed of_writing result) (K.faults sink.old) (K.faults sink.new) }
{
    tell_all(alloc, office, own, sink)
}
