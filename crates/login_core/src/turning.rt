// How a seat turns to the next or the previous of its sessions.

ghost use Rattle.std.specs.Prelude.{◌≡◌};
ghost use Rattle.login_model.specs.Procedure.{if_some};
ghost use Rattle.login_model.specs.Turning.{first_of, last_of, turn_to_next, turn_to_previous};
ghost use Rattle.login_core.specs.inner.Places.{around, behind, current_place, is_open_on, is_placed_on, places, places_among, turn_to, turn_to_place};
ghost use Rattle.login_core.specs.inner.Draft.{marked_by, Fits};

use crate::board::Draft;
use login_base::{SeatName, SessId};
use login_facts::{Holding, Thing};
use login_model::{Key, Look};
use login_table::{active_on, current_vt, is_on_seat};

/// Which way a seat turns.
#[derive(Clone, Copy)]
pub(crate) enum Way {
    Next,
    Previous,
}

#[tactic(auto, using(crate::proofs::Growing::growing))]
impl Draft {
    /// Whether a session is on a seat, and open.
    fn is_open_on(&self, seat: SeatName, session: SessId) -> bool
        ensures { result ≡ is_open_on self.now.trail seat session }
    {
        is_on_seat(self, seat.as_slice(), session) && self.fact(&Key::Sess(session)).is_open()
    }

    /// Whether a thing is an open session at a place of a seat.
    fn is_placed_on(&self, seat: SeatName, thing: &Thing) -> bool
        ensures { result ≡ is_placed_on self.now.trail seat thing.now }
    {
        match thing {
            Thing::Placed(_, session) => self.is_open_on(seat, *session),
            _ => false,
        }
    }

    /// The first of the places of a seat at which these sessions are.
    fn first_place(&self, seat: SeatName, things: &[Holding]) -> Option<u32>
        ensures { result ≡ first_of (places_among self.now.trail seat things.now) }
    {
        for holding in things {
            if self.is_placed_on(seat, &holding.thing) {
                return Some(holding.thing.number());
            }
        }
        None
    }

    /// The last of these places.
    fn last_place(&self, seat: SeatName, things: &[Holding]) -> Option<u32>
        ensures { result ≡ last_of (places_among self.now.trail seat things.now) }
    {
        for passed in 0..things.len() {
            let thing = things[things.len() - 1 - passed].thing;
            if self.is_placed_on(seat, &thing) {
                return Some(thing.number());
            }
        }
        None
    }

    /// The nearest place of an open session behind a place of a seat, or the first of all.
    fn nearest_place(&self, way: Way, seat: SeatName, start: Option<u32>) -> Option<u32>
        ensures { result ≡ behind way start (places self.now.trail seat) }
    {
        match way {
            Way::Next => self.first_place(seat, self.placed_above(&seat, start)),
            Way::Previous => self.last_place(seat, self.placed_below(&seat, start)),
        }
    }

    /// The place of a seat's active session, or of its current terminal.
    fn current_place(&self, seat: SeatName) -> Option<u32>
        ensures { result ≡ current_place self.now.trail seat }
    {
        if seat.is_seat0() {
            Some(current_vt(self))
        } else {
            match active_on(self, seat) {
                Some(session) => Some(session.0),
                None => None,
            }
        }
    }

    /// The next place of a seat.
    fn next_place(&self, way: Way, seat: SeatName) -> Option<u32>
        ensures { result ≡ around way (current_place self.now.trail seat) (places self.now.trail seat) }
    {
        let start = self.current_place(seat);
        match self.nearest_place(way, seat, start) {
            Some(place) => Some(place),
            None => self.nearest_place(way, seat, None),
        }
    }

    fn turn_to_place(&mut self, seat: SeatName, place: u32)
        requires room { Fits (turn_to_place seat place) self.old }
        ensures marked { self.new ≡ marked_by (turn_to_place seat place) self.old }
    {
        if seat.is_seat0() {
            self.request(place);
        } else {
            self.front(seat, SessId(place));
        }
    }

    fn turn_to_some(&mut self, seat: SeatName, place: Option<u32>)
        requires room { Fits (if_some (turn_to_place seat) place) self.old }
        ensures marked { self.new ≡ marked_by (if_some (turn_to_place seat) place) self.old }
    {
        if let Some(place) = place {
            self.turn_to_place(seat, place);
        }
    }

    fn turn_to(&mut self, way: Way, seat: SeatName)
        requires room { Fits (turn_to way seat) self.old }
        ensures marked { self.new ≡ marked_by (turn_to way seat) self.old }
    {
        let place = self.next_place(way, seat);
        self.turn_to_some(seat, place);
    }

    /// The next session of a seat becomes active, in the order of terminals on seat0, of sessions on
    /// another seat.
    pub fn turn_to_next(&mut self, seat: SeatName)
        requires room { Fits (turn_to_next seat) self.old }
        ensures marked { self.new ≡ marked_by (turn_to_next seat) self.old }
    {
        self.turn_to(Way::Next, seat);
    }

    /// The previous session of a seat becomes active.
    pub fn turn_to_previous(&mut self, seat: SeatName)
        requires room { Fits (turn_to_previous seat) self.old }
        ensures marked { self.new ≡ marked_by (turn_to_previous seat) self.old }
    {
        self.turn_to(Way::Previous, seat);
    }
}
