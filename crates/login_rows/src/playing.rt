// How tests make cores, and which events of links may come next.

ghost use Rattle.std.specs.Prelude.{◌≡◌, ◌≢◌, ◌∷◌, ◌↔◌, [], IfOk, IsTrue, true};
ghost use Rattle.std.specs.List.{AllByRecursion};
ghost use Rattle.login_model.specs.Conf.{IsAllowed};
ghost use Rattle.login_model.specs.Legal.{Fits, IsPlaced, IsUnused, connects, trail_of};
ghost use Rattle.login_model.specs.Setups.{IsGuid, IsSetup, IsUserRow};
ghost use Rattle.login_model.specs.Texts.{IsText, texts, has_object};
ghost use Rattle.login_model.specs.Where.{is_connected};

use login_base::{Bytes, ConnId, Items, NoMemory, Uid, Word};
use login_core::Core;
use login_model::{Call, Conf, Entry, Event, Key, Look, Setup, Table, UserRow};
use std::alloc::Global;

/// The identity of the server.
fn guid(alloc: Global) -> Result<Word, NoMemory>
    ensures { IfOk result IsGuid }
{
    Word::from_slice(alloc, b"0123456789abcdef0123456789abcdef")
}

/// Whether a setup may have a user.
fn is_user_row(row: &UserRow) -> bool
    ensures { IsTrue result ↔ IsUserRow row.now }
{
    0 < row.uid.0 && is_text(row.name.as_slice(), 255)
}

/// The user with this number and this name.
fn user(alloc: Global, uid: u32, name: &[u8]) -> Result<UserRow, NoMemory> {
    Ok(UserRow {
        uid: Uid(uid),
        gid: uid,
        name: Word::from_slice(alloc, name)?,
    })
}

/// Whether a setup may have two users.
fn are_users(first: &UserRow, second: &UserRow) -> bool
    ensures first_row { IsTrue result → IsUserRow first.now }
    ensures second_row { IsTrue result → IsUserRow second.now }
    ensures two { IsTrue result → second.now.uid.0 ≢ first.now.uid.0 }
{
    is_user_row(first) && is_user_row(second) && second.uid.0 != first.uid.0
}

/// The users of a setup with two beside root.
fn both(alloc: Global, first: UserRow, second: UserRow) -> Result<Items<UserRow>, NoMemory>
    ensures { IfOk result (λ users. users ≡ first ∷ second ∷ []) }
{
    Ok(Items::from_vec(Vec::from_array(alloc, [first, second])?))
}

/// A setup with the users alice, with the number 1000, and bob, with 1001.
pub fn setup(alloc: Global) -> Result<Setup, NoMemory>
    ensures set_up { IfOk result IsSetup }
    ensures allowed { IfOk result (λ setup. IsAllowed setup.conf) }
{
    let alice = user(alloc, 1000, b"alice")?;
    let bob = user(alloc, 1001, b"bob")?;
    if !are_users(&alice, &bob) {
        drop(alice);
        drop(bob);
        return Err(NoMemory);
    }
    Ok(Setup {
        guid: guid(alloc)?,
        users: both(alloc, alice, bob)?,
        conf: Conf::default(),
        conf_text: Bytes::new(alloc),
        table: Table::default(),
        table_text: Bytes::new(alloc),
    })
}

/// A core of this setup.
pub fn new_core(alloc: Global) -> Result<Core, NoMemory>
    ensures { IfOk result (λ core. core.journal ≡ []) }
{
    Core::new(alloc, setup(alloc)?)
}

fn is_connect_of(who: ConnId, event: &Event) -> bool
    ensures { IsTrue result ↔ connects who event.now }
{
    match event {
        Event::Connect(other, _) => other.0 == who.0,
        _ => false,
    }
}

/// Whether no entry's event connects this connection.
pub fn is_unused(entries: &[Entry], who: ConnId) -> bool
    ensures { IsTrue result ↔ IsUnused who entries.now }
{
    entries
        .iter()
        .all(|entry| !is_connect_of(who, &entry.event))
}

/// Whether a client is connected.
pub fn is_connected(core: &Core, who: ConnId) -> bool
    ensures { result ≡ is_connected (trail_of core.now.journal) who }
{
    core.fact(&Key::Conn(who)).is_connected()
}

/// Whether these bytes are a text of at most so many bytes: UTF-8 without NUL.
fn is_text(text: &[u8], most: usize) -> bool
    ensures { IsTrue result ↔ IsText most text.now }
{
    str::from_utf8(text).is_ok() && !text.contains(&0) && text.len() <= most
}

/// Whether a call is one that the links of offices make, with a text that it may have.
fn fits_call(call: &Call) -> bool
    ensures texts { IsTrue result → AllByRecursion (IsText 512) (texts call.now) }
    ensures object { IsTrue result → has_object call.now ≡ true }
{
    match call {
        Call::GetSession(id) => is_text(id.text().as_slice(), 512),
        _ => false,
    }
}

/// Whether whom an event of a link names is as it must be after the entries so far.
fn fits(core: &Core, event: &Event) -> bool
    ensures { IsTrue result → Fits core.now.journal event.now }
{
    match event {
        Event::Connect(who, _) => 0 < who.0 && is_unused(core.journal().as_slice(), *who),
        Event::Call(request) => {
            is_connected(core, request.who) && 0 < request.serial && fits_call(&request.call)
        }
        _ => false,
    }
}

/// Whether an event of a link may come next.
pub fn is_next(core: &Core, event: &Event) -> bool
    ensures { IsTrue result → IsPlaced core.now.journal event.now }
{
    core.stopped(event).is_none() && fits(core, event)
}

/// Closes the link of a connection; whether it was connected.
pub fn close(core: &mut Core, who: ConnId) -> bool {
    if !is_connected(core, who) {
        return false;
    }
    core.close_link(who);
    true
}

/// Drops a core. Its many parts are dropped here alone, so that each test need not be proved to drop them.
pub fn finish(core: Core) {
    drop(core);
}
