// How offices are made, their events stepped and their links heard.

ghost use Rattle.login_model.specs.Legal.{IsPlaced};

use crate::lines;
use crate::playing::{is_connected, is_next, setup};
use login_base::{Bytes, ConnId, Items, NoMemory, Uid};
use login_model::{Event, Request};
use login_office::{HeardPiece, Office};
use std::alloc::Global;

/// An office of the setup with alice and bob.
pub fn new_office(alloc: Global) -> Result<Office, NoMemory> {
    Office::new(alloc, setup(alloc)?)
}

/// Closes the link of a connection; whether it was connected.
pub fn close(office: &mut Office, who: ConnId) -> bool {
    if !is_connected(office.core(), who) {
        return false;
    }
    office.close_link(who);
    true
}

/// Makes room for an event that may come next, and steps it; whether it could.
fn act(office: &mut Office, event: Event) -> bool
    requires { IsPlaced office.old.core.journal event }
{
    match office.room(&event) {
        Ok(()) => {
            office.act(event);
            true
        }
        Err(_) => {
            drop(event);
            false
        }
    }
}

/// The same of any event of a link.
pub fn play(office: &mut Office, event: Event) -> bool {
    if is_next(office.core(), &event) {
        act(office, event)
    } else {
        drop(event);
        false
    }
}

/// The same of the event of a line.
pub fn play_line(office: &mut Office, alloc: Global, line: &[u8]) -> bool {
    let Some(event) = lines::event(alloc, line) else {
        return false;
    };
    if lines::is_next(office.core(), &event) {
        act(office, event)
    } else {
        drop(event);
        false
    }
}

/// Makes these calls one after the other; whether it could.
pub fn play_calls(office: &mut Office, calls: Items<Request>) -> bool {
    let mut all = true;
    for call in calls.into_vec() {
        all = play(office, Event::Call(call)) && all;
    }
    all
}

/// Opens a link of alice; whether it could.
pub fn open(office: &mut Office, alloc: Global, c: ConnId) -> Result<bool, NoMemory> {
    if office.is_open(c) {
        return Ok(false);
    }
    office.open_link(alloc, c, Uid(1000))?;
    Ok(true)
}

/// What a piece of a link that is open led to.
pub fn hear(
    office: &mut Office,
    alloc: Global,
    c: ConnId,
    piece: &[u8],
) -> Result<Option<HeardPiece>, NoMemory> {
    if !office.is_open(c) {
        return Ok(None);
    }
    Ok(Some(office.hear(alloc, c, piece)?))
}

/// The mail of a link that is open.
pub fn mail(office: &mut Office, alloc: Global, c: ConnId) -> Result<Option<Bytes>, NoMemory> {
    if !office.is_open(c) {
        return Ok(None);
    }
    Ok(Some(office.mail(alloc, c)?))
}
