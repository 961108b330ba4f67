// The private state of one link.

ghost use Rattle.std.specs.Prelude.{◌≡◌, ◌≢◌, [], IfOk, OnOk, OnErr, Some};
ghost use Rattle.std.specs.Result.{IsOkAnd};
ghost use Rattle.bus_auth.specs.Greeting.{Begun, Ended};
ghost use Rattle.bus_auth.specs.declared.table.Ending.{Ending};
ghost use Rattle.login_model.specs.Legal.{IsUnused};
ghost use Rattle.wire_calls.specs.Reading.{requests_of};
ghost use Rattle.wire_out.specs.Conditions.{IsMailable};
ghost use Rattle.wire_out.specs.Places.{IsPlaceIn, place_of};
ghost use Rattle.login_office.specs.Hearing.{HasEnded, HasHeard, Hears, IsEnded, IsLink, KeepsLink, MayCome};
ghost use Rattle.login_office.specs.Links.{end_of};
ghost use Rattle.login_office.specs.Mailing.{Fetches};
ghost use Rattle.login_office.specs.inner.Reading.{Reads, ReadsStep};
ghost use Rattle.login_office.specs.declared.end.LinkEnd.{LinkEnd};
ghost use Rattle.login_office.specs.declared.end.LinkEnd.TheVariants.{Malformed as IsMalformed, NotBegun};
ghost use Rattle.login_office.specs.declared.end.Unbegun.TheVariants.{Refused};

use crate::end::{LinkEnd, Unbegun};
use bus_auth::{Auth, AuthState, AuthStep};
use bus_message::{Cutter, Malformed, Message};
use login_base::{Bytes, ConnId, Items, NoMemory, Uid, Word};
use login_model::{Journal, Request};
use std::alloc::Global;
use std::marker::Model;
use wire_calls::request_of;
use wire_out::Cursor;

/// What was heard on a link, how far it is, and how much of its mail was fetched.
pub struct Teller {
    who: ConnId,
    auth: Auth,
    /// The stream behind BEGIN.
    cutter: Cutter,
    cursor: Cursor,
}

// By hand, so that the ends of the types below are proved here alone.
impl Drop for Teller {
    fn drop(self) {
        let Self {
            who: _,
            auth,
            cutter,
            cursor,
        } = self;
        drop(auth);
        drop(cutter);
        drop(cursor);
    }
}

impl Model for Teller {
    ghost use Rattle.login_office.specs.Hearing.{TellerState};

    ghost Value = { TellerState };

    ghost view = { λ t. record { who = t.who; auth = t.auth; stream = t.cutter; place = t.cursor } };
}

/// What a piece led to.
#[derive(Drop)]
pub struct HeardPiece {
    /// What is to be sent to the client of its handshake.
    pub replies: Bytes,
    /// Whether the client begins with this piece.
    pub begins: bool,
    /// The calls that the piece made whole.
    pub calls: Items<Request>,
    /// How the link has ended: not begun, or malformed.
    pub end: Option<LinkEnd>,
}

/// The requests of a connection that messages are.
fn requests_of(alloc: Global, who: ConnId, messages: &[Message]) -> Result<Items<Request>, NoMemory>
    ensures { IfOk result (λ requests. requests ≡ requests_of who messages.now) }
{
    let mut requests = Items::new(alloc);
    for message in messages {
        requests.push(request_of(alloc, who, message)?)?;
    }
    Ok(requests)
}

/// Cuts the messages that are whole with the bytes, as requests of a connection. A stream that is malformed takes no
/// memory.
fn read_requests(
    alloc: Global,
    who: ConnId,
    cutter: &mut Cutter,
    bytes: &[u8],
) -> Result<Items<Request>, NoMemory>
    ensures read { IfOk result (λ requests. Reads who cutter.old bytes.now cutter.new requests) }
    ensures calls { IfOk result (λ requests. MayCome who requests) }
    ensures ended { (place : Malformed) → cutter.old.malformed ≡ Some place → IsOkAnd result (λ requests. requests ≡ []) }
    ensures still { (place : Malformed) → cutter.old.malformed ≡ Some place → cutter.new ≡ cutter.old }
    ensures err { OnErr result (cutter.new ≡ cutter.old) }
{
    if cutter.malformed().is_some() {
        return Ok(Items::new(alloc));
    }
    let (requests, _) = cutter.feed_as(alloc, bytes, |messages| requests_of(alloc, who, messages))?;
    Ok(requests)
}

/// The end of a link whose messages are malformed.
fn end_of(malformed: Option<Malformed>) -> Option<LinkEnd>
    ensures { result ≡ end_of malformed }
{
    malformed.map(LinkEnd::Malformed)
}

/// What a step of the handshake is, and the messages behind it.
fn read_step(
    alloc: Global,
    who: ConnId,
    cutter: &mut Cutter,
    step: AuthStep,
) -> Result<HeardPiece, NoMemory>
    ensures read { IfOk result (λ heard. ReadsStep who step cutter.old cutter.new heard) }
    ensures calls { IfOk result (λ heard. MayCome who heard.calls) }
    ensures err { OnErr result (cutter.new ≡ cutter.old) }
{
    let AuthStep { replies, state } = step;
    let none = Items::new(alloc);
    match state {
        AuthState::Going => Ok(HeardPiece {
            replies,
            begins: false,
            calls: none,
            end: None,
        }),
        AuthState::Begun(rest) => Ok(HeardPiece {
            replies,
            begins: true,
            calls: read_requests(alloc, who, cutter, rest.as_slice())?,
            end: end_of(cutter.malformed()),
        }),
        AuthState::Ended(ending) => Ok(HeardPiece {
            replies,
            begins: false,
            calls: none,
            end: Some(LinkEnd::NotBegun(Unbegun::Refused(ending))),
        }),
    }
}

impl Teller {
    /// The teller of a link on which nothing was heard, with a client that is to be this user.
    pub fn new(alloc: Global, who: ConnId, uid: Uid, guid: &Word) -> Result<Teller, NoMemory>
        ensures link { IfOk result (λ teller. IsLink teller who uid guid.now) }
        ensures heard { IfOk result (λ teller. HasHeard teller []) }
        ensures place { IfOk result (λ teller. teller.place ≡ place_of who []) }
    {
        Teller::at(alloc, who, uid, guid, Cursor::new(who))
    }

    /// The same of a number that no connect in this journal had: its mail is looked for behind the journal alone.
    pub fn behind(
        alloc: Global,
        who: ConnId,
        uid: Uid,
        guid: &Word,
        journal: &Journal,
    ) -> Result<Teller, NoMemory>
        requires unused { IsUnused who journal.now.items }
        ensures link { IfOk result (λ teller. IsLink teller who uid guid.now) }
        ensures heard { IfOk result (λ teller. HasHeard teller []) }
        ensures place { IfOk result (λ teller. teller.place ≡ place_of who journal.now.items) }
    {
        Teller::at(alloc, who, uid, guid, Cursor::behind(who, journal))
    }

    /// The teller of a link on which nothing was heard, at a place of the connection's mail.
    fn at(
        alloc: Global,
        who: ConnId,
        uid: Uid,
        guid: &Word,
        cursor: Cursor,
    ) -> Result<Teller, NoMemory>
        ensures link { IfOk result (λ teller. IsLink teller who uid guid.now) }
        ensures heard { IfOk result (λ teller. HasHeard teller []) }
        ensures place { IfOk result (λ teller. teller.place ≡ cursor) }
    {
        Ok(Teller {
            who,
            auth: Auth::new(alloc, uid, guid.copied()?),
            cutter: Cutter::new(alloc),
            cursor,
        })
    }

    /// Hears what the client sent next. A link that has ended takes no memory, and keeps no byte.
    pub fn hear(&mut self, alloc: Global, piece: &[u8]) -> Result<HeardPiece, NoMemory>
        // It goes on as one that hears all bytes at once.
        ensures heard { IfOk result (λ heard. Hears self.old piece.now self.new heard) }
        ensures link { OnOk result (KeepsLink self.old self.new) }
        ensures calls { IfOk result (λ heard. MayCome self.old.who heard.calls) }

        // A link that has ended stays as it is, and gives nothing more.
        ensures ended { (end : LinkEnd) → HasEnded self.old end → IsEnded result end }
        ensures still { (end : LinkEnd) → HasEnded self.old end → self.new ≡ self.old }
        ensures err { OnErr result (self.new ≡ self.old) }
    {
        if self.auth.is_begun() {
            self.read(alloc, piece)
        } else {
            self.greet(alloc, piece)
        }
    }

    /// Hears what comes behind BEGIN.
    fn read(&mut self, alloc: Global, piece: &[u8]) -> Result<HeardPiece, NoMemory>
        requires { self.old.auth.state ≡ Begun [] }
        ensures heard { IfOk result (λ heard. Hears self.old piece.now self.new heard) }
        ensures link { OnOk result (KeepsLink self.old self.new) }
        ensures calls { IfOk result (λ heard. MayCome self.old.who heard.calls) }
        ensures ended { (place : Malformed) → self.old.stream.malformed ≡ Some place → IsEnded result (IsMalformed place) }
        ensures still { (place : Malformed) → self.old.stream.malformed ≡ Some place → self.new ≡ self.old }
        ensures err { OnErr result (self.new ≡ self.old) }
    {
        Ok(HeardPiece {
            replies: Bytes::new(alloc),
            begins: false,
            calls: read_requests(alloc, self.who, &mut self.cutter, piece)?,
            end: end_of(self.cutter.malformed()),
        })
    }

    /// Hears what comes of the handshake, and behind its BEGIN. The handshake goes on only where nothing lacks memory.
    fn greet(&mut self, alloc: Global, piece: &[u8]) -> Result<HeardPiece, NoMemory>
        requires { self.old.auth.state ≢ Begun [] }
        ensures heard { IfOk result (λ heard. Hears self.old piece.now self.new heard) }
        ensures link { OnOk result (KeepsLink self.old self.new) }
        ensures calls { IfOk result (λ heard. MayCome self.old.who heard.calls) }
        ensures ended { (ending : Ending) → self.old.auth.state ≡ Ended ending → IsEnded result (NotBegun (Refused ending)) }
        ensures still { (ending : Ending) → self.old.auth.state ≡ Ended ending → self.new ≡ self.old }
        ensures err { OnErr result (self.new ≡ self.old) }
    {
        if let Some(ending) = self.auth.ending() {
            return Ok(HeardPiece {
                replies: Bytes::new(alloc),
                begins: false,
                calls: Items::new(alloc),
                end: Some(LinkEnd::NotBegun(Unbegun::Refused(ending))),
            });
        }
        let mut auth = self.auth.copied()?;
        let step = auth.feed(alloc, piece)?;
        let heard = read_step(alloc, self.who, &mut self.cutter, step)?;
        self.auth = auth;
        Ok(heard)
    }

    /// The mail that is due by the journal and was not fetched. After want of memory it is still due.
    pub fn mail(&mut self, alloc: Global, journal: &Journal) -> Result<Bytes, NoMemory>
        requires place { IsPlaceIn self.old.place journal.now.items }
        requires mailable { IsMailable journal.now.items }
        ensures fetched { IfOk result (λ bytes. Fetches self.old journal.now.items self.new bytes) }
        ensures err { OnErr result (self.new ≡ self.old) }
    {
        self.cursor.due(alloc, journal)
    }
}
