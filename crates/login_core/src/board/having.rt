// What a connection has of what stands.

ghost use Rattle.std.specs.Prelude.{◌≡◌};
ghost use Rattle.login_model.specs.Direct.{is_lock_of};
ghost use Rattle.login_model.specs.Names.{IsNext, lock_lt, session_lt};
ghost use Rattle.login_model.specs.Policy.{controls};
ghost use Rattle.login_model.specs.Trail.{value};
ghost use Rattle.login_model.specs.Where.{is_lock, is_session};
ghost use Rattle.login_laws.specs.Sound.{Fifos};
ghost use Rattle.login_core.specs.inner.Chosen.{is_chosen};
ghost use Rattle.login_core.specs.inner.Ending.{is_kept_open_by};
ghost use Rattle.login_facts.specs.Holding.{AreThose, IsNextThing, OfConnections, OfSeats, first_standing, hash_of, is_lower, is_standing, is_such, lock_number, lock_of, placed_rank};

use crate::board::Draft;
use login_base::{ConnId, LockNo, SeatName, SessId};
use login_facts::{FIFOS, Holding, LOCKS, SESSIONS, Thing, number_of, session_of};
use login_model::{Key, Look};

/// The lock that a thing is.
fn lock_of(thing: Option<Thing>) -> Option<LockNo>
    ensures { result ≡ lock_of thing }
{
    match thing {
        Some(Thing::Lock(lock)) => Some(lock),
        _ => None,
    }
}

/// The number of a lock, if there is one.
fn lock_number(lock: Option<LockNo>) -> Option<u32>
    ensures { result ≡ lock_number lock }
{
    match lock {
        Some(lock) => Some(lock.0),
        None => None,
    }
}

impl Draft {
    /// Whether a thing stands: its session is there, or is open by this fifo.
    fn is_standing(&self, thing: &Thing) -> bool
        ensures { result ≡ is_standing self.now.trail thing.now }
    {
        match thing {
            Thing::Session(session) => self.fact(&Key::Sess(*session)).is_session(),
            Thing::Lock(_) | Thing::Placed(_, _) => true,
            Thing::Fifo(session, handle) => {
                let fact = self.fact(&Key::Sess(*session));
                fact.is_open() && fact.fifo().0 == handle.0
            }
        }
    }

    /// The first of some things that stands.
    fn first_standing(&self, things: &[Holding]) -> Option<Thing>
        ensures { result ≡ first_standing self.now.trail things.now }
    {
        for holding in things {
            if self.is_standing(&holding.thing) {
                return Some(holding.thing);
            }
        }
        None
    }

    /// The first thing of a kind above a number that a connection has, and that stands. It goes over what this
    /// connection has of the kind alone.
    fn next_thing(&self, who: ConnId, rank: u8, above: Option<u32>) -> Option<Thing>
        ensures { IsNextThing OfConnections (is_standing self.now.trail) self.now.trail who.0 rank above result }
    {
        self.first_standing(self.facts.of_connection(who, rank, above))
    }

    /// The least session above that one that is there and that a connection controls.
    pub fn next_controlled(&self, who: ConnId, above: Option<SessId>) -> Option<SessId>
        ensures { IsNext session_lt (is_chosen (is_session self.now.trail) (controls self.now.trail who)) above result }
    {
        session_of(self.next_thing(who, SESSIONS, number_of(above)))
    }

    /// The least lock above that one that a connection has.
    pub fn next_held(&self, who: ConnId, above: Option<LockNo>) -> Option<LockNo>
        ensures { IsNext lock_lt (is_chosen (is_lock self.now.trail) (λ l. is_lock_of who (value self.now.trail (Key.Lock l)))) above result }
    {
        lock_of(self.next_thing(who, LOCKS, lock_number(above)))
    }

    /// The least session above that one that a connection keeps open. The fifo of an open session is its own.
    pub fn next_kept_open(&self, who: ConnId, above: Option<SessId>) -> Option<SessId>
        requires { Fifos self.now.trail }
        ensures { IsNext session_lt (is_chosen (is_session self.now.trail) (is_kept_open_by who self.now.trail)) above result }
    {
        session_of(self.next_thing(who, FIFOS, number_of(above)))
    }
}

/// Sessions at their places.
impl Draft {
    /// The open sessions of a seat above a place, or above none, and those of seats whose names have the same number, in
    /// the order of their places.
    pub fn placed_above(&self, seat: &SeatName, above: Option<u32>) -> &[Holding]
        ensures { AreThose OfSeats (is_such (hash_of seat.now) placed_rank above) self.now.trail result.now }
    {
        self.facts.of_seat(seat, above)
    }

    /// Those below a place, or below none.
    pub fn placed_below(&self, seat: &SeatName, below: Option<u32>) -> &[Holding]
        ensures { AreThose OfSeats (is_lower (hash_of seat.now) placed_rank below) self.now.trail result.now }
    {
        self.facts.of_seat_below(seat, below)
    }
}
