// What a connection has, and which sessions a user, a terminal and a seat have: each thing with the number of whose it
// is.

ghost use Rattle.std.specs.Prelude.{◌≡◌, nat_lt};
ghost use Rattle.login_model.specs.Names.{is_above};
ghost use Rattle.login_facts.specs.Holding.{control_in, first_thing, hash_of, held_lock_in, holding_in, holding_lt, is_in_front, is_passed, is_within, number, number_of, numbered_lt, on_terminal_in, owned_fifo_in, placed_in, rank, seated_in, session_of, thing_lt, things_of, turn};

use login_base::{HandleNo, LockNo, SeatName, SessId};
use login_model::{Fact, Key};

/// The rank of sessions among what one has.
pub const SESSIONS: u8 = 0;

/// The rank of locks.
pub const LOCKS: u8 = 1;

/// The rank of fifos.
pub const FIFOS: u8 = 2;

/// The rank of sessions at their places.
pub const PLACED: u8 = 3;

/// A thing that a connection, a user, a terminal or a seat may have.
#[derive(Clone, Copy)]
pub enum Thing {
    /// A session.
    Session(SessId),
    /// A lock.
    Lock(LockNo),
    /// The fifo of a session, by its handle.
    Fifo(SessId, HandleNo),
    /// A session at a place of its seat.
    Placed(u32, SessId),
}

impl Thing {
    /// The rank of its kind.
    fn rank(&self) -> u8
        ensures { result ≡ rank self.now }
    {
        match self {
            Thing::Session(_) => SESSIONS,
            Thing::Lock(_) => LOCKS,
            Thing::Fifo(_, _) => FIFOS,
            Thing::Placed(_, _) => PLACED,
        }
    }

    /// Its number. A fifo stands under the number of its session, and what is placed under its place.
    pub fn number(&self) -> u32
        ensures { result ≡ number self.now }
    {
        match self {
            Thing::Session(session) => session.0,
            Thing::Lock(lock) => lock.0,
            Thing::Fifo(session, _) => session.0,
            Thing::Placed(place, _) => *place,
        }
    }

    /// The turn of a fifo among those of one session, and of a session among those at one place.
    fn turn(&self) -> u32
        ensures { result ≡ turn self.now }
    {
        match self {
            Thing::Fifo(_, handle) => handle.0,
            Thing::Placed(_, session) => session.0,
            _ => 0,
        }
    }

    /// Whether it is of a number below another's, or of a turn below that.
    fn is_numbered_below(&self, other: &Thing) -> bool
        ensures { result ≡ numbered_lt self.now other.now }
    {
        self.number() < other.number()
            || (self.number() == other.number() && self.turn() < other.turn())
    }

    /// Whether it stands in front of another.
    fn is_below(&self, other: &Thing) -> bool
        ensures { result ≡ thing_lt self.now other.now }
    {
        self.rank() < other.rank() || (self.rank() == other.rank() && self.is_numbered_below(other))
    }
}

/// A thing that somebody has.
#[derive(Clone, Copy)]
pub struct Holding {
    /// The number of whose it is: a connection's, a user's, a terminal's, or that of a seat's name.
    pub whose: u32,
    pub thing: Thing,
}

/// Whether a number is above another, or above none.
fn is_above(above: Option<u32>, number: u32) -> bool
    ensures { result ≡ is_above nat_lt above number }
{
    match above {
        Some(other) => other < number,
        None => true,
    }
}

impl Holding {
    /// Whether it stands in front of another.
    pub fn is_below(&self, other: &Holding) -> bool
        ensures { result ≡ holding_lt self.now other.now }
    {
        self.whose < other.whose || (self.whose == other.whose && self.thing.is_below(&other.thing))
    }

    /// Whether it is in front of what somebody has of a kind above a number.
    pub fn is_passed(&self, whose: u32, rank: u8, above: Option<u32>) -> bool
        ensures { result ≡ is_passed whose rank above self.now }
    {
        let other = self.thing.rank();
        self.whose < whose
            || (self.whose == whose
                && (other < rank || (other == rank && !is_above(above, self.thing.number()))))
    }

    /// Whether it is in front of what somebody has of a kind from a number on.
    pub fn is_in_front(&self, whose: u32, rank: u8, from: u32) -> bool
        ensures { result ≡ is_in_front whose rank from self.now }
    {
        let other = self.thing.rank();
        self.whose < whose
            || (self.whose == whose
                && (other < rank || (other == rank && self.thing.number() < from)))
    }

    /// Whether it is not behind all that somebody has of a kind.
    pub fn is_within(&self, whose: u32, rank: u8) -> bool
        ensures { result ≡ is_within whose rank self.now }
    {
        self.whose < whose || (self.whose == whose && self.thing.rank() <= rank)
    }
}

/// What a connection has by the fact of a session's controller.
fn control_in(session: SessId, fact: &Fact) -> Option<Holding>
    ensures { result ≡ control_in session fact.now }
{
    let whose = fact.controller()?.0;
    let thing = Thing::Session(session);
    Some(Holding { whose, thing })
}

/// What a connection has by the fact of a lock.
fn held_lock_in(number: LockNo, fact: &Fact) -> Option<Holding>
    ensures { result ≡ held_lock_in number fact.now }
{
    let whose = fact.lock_holder()?.0;
    let thing = Thing::Lock(number);
    Some(Holding { whose, thing })
}

/// What a connection has by the fact of a handle's owner.
fn owned_fifo_in(handle: HandleNo, fact: &Fact) -> Option<Holding>
    ensures { result ≡ owned_fifo_in handle fact.now }
{
    let whose = fact.fifo_owner()?.0;
    let thing = Thing::Fifo(fact.fifo_session()?, handle);
    Some(Holding { whose, thing })
}

/// What a connection has by a fact under a key.
fn holding_in(key: &Key, fact: &Fact) -> Option<Holding>
    ensures { result ≡ holding_in key.now fact.now }
{
    match key {
        Key::Ctl(session) => control_in(*session, fact),
        Key::Lock(number) => held_lock_in(*number, fact),
        Key::Owner(handle) => owned_fifo_in(*handle, fact),
        _ => None,
    }
}

/// What a user has by the fact of a session: it is open, and has a seat.
fn seated_in(session: SessId, fact: &Fact) -> Option<Holding>
    ensures { result ≡ seated_in session fact.now }
{
    let whose = fact.seated_user()?;
    let thing = Thing::Session(session);
    Some(Holding { whose, thing })
}

/// What a terminal has by the fact of a session: it is open, and on seat0.
fn on_terminal_in(session: SessId, fact: &Fact) -> Option<Holding>
    ensures { result ≡ on_terminal_in session fact.now }
{
    let whose = fact.terminal()?;
    let thing = Thing::Session(session);
    Some(Holding { whose, thing })
}

/// A number of a seat's name, the same for the same name. Two names may have one.
pub fn hash_of(seat: &SeatName) -> u32
    ensures { result ≡ hash_of seat.now }
{
    let mut hash: u32 = 0;
    for byte in seat.as_slice() {
        hash = hash.wrapping_mul(31).wrapping_add(u32::from(*byte));
    }
    hash
}

/// What a seat has by the fact of a session: it is open. Its place is its terminal on seat0, and its number on another
/// seat.
fn placed_in(session: SessId, fact: &Fact) -> Option<Holding>
    ensures { result ≡ placed_in session fact.now }
{
    if !fact.is_open() {
        return None;
    }
    let seat = fact.seat()?;
    let place = if seat.is_seat0() {
        fact.vt()
    } else {
        session.0
    };
    Some(Holding {
        whose: hash_of(&seat),
        thing: Thing::Placed(place, session),
    })
}

/// What a fact says that somebody has.
#[derive(Clone, Copy)]
pub struct Things {
    pub of_connection: Option<Holding>,
    pub of_user: Option<Holding>,
    pub of_terminal: Option<Holding>,
    pub of_seat: Option<Holding>,
}

/// What a fact under a key says that somebody has.
pub fn things_of(key: &Key, fact: &Fact) -> Things
    ensures { result ≡ things_of key.now fact.now }
{
    match key {
        Key::Sess(session) => Things {
            of_connection: None,
            of_user: seated_in(*session, fact),
            of_terminal: on_terminal_in(*session, fact),
            of_seat: placed_in(*session, fact),
        },
        _ => Things {
            of_connection: holding_in(key, fact),
            of_user: None,
            of_terminal: None,
            of_seat: None,
        },
    }
}

/// The first of some things.
pub fn first_thing(things: &[Holding]) -> Option<Thing>
    ensures { result ≡ first_thing things.now }
{
    match things {
        [first, ..] => Some(first.thing),
        [] => None,
    }
}

/// The session of a thing.
pub fn session_of(thing: Option<Thing>) -> Option<SessId>
    ensures { result ≡ session_of thing }
{
    match thing {
        Some(Thing::Session(session)) => Some(session),
        Some(Thing::Fifo(session, _)) => Some(session),
        _ => None,
    }
}

/// The number of a session, if there is one.
pub fn number_of(session: Option<SessId>) -> Option<u32>
    ensures { result ≡ number_of session }
{
    match session {
        Some(session) => Some(session.0),
        None => None,
    }
}
