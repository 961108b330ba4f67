// What connections, users, terminals and seats have.

ghost use Rattle.std.specs.Prelude.{◌≡◌, ◌-◌, ℕ, None, OnOk};
ghost use Rattle.login_model.specs.Trail.{Trail};
ghost use Rattle.login_facts.specs.Holding.{AreHeld, AreThose, OfConnections, OfSeats, OfTerminals, OfUsers, hash_of, is_lower, is_such, no_rows, number_of, placed_rank, session_rank, shifted};
ghost use Rattle.login_facts.specs.inner.Holdings.{HasSpare, rows_of};

use crate::holding::{Holding, PLACED, SESSIONS, Things, hash_of, number_of};
use crate::row::Row;
use login_base::{ConnId, NoMemory, SeatName, SessId};
use std::alloc::Global;

/// What connections, users, terminals and seats have.
#[derive(Drop)]
pub struct Holdings {
    /// The sessions that connections control, their locks, and the fifos of sessions.
    connections: Row,
    /// The open sessions of users that have a seat.
    users: Row,
    /// The open sessions on terminals of seat0.
    terminals: Row,
    /// The open sessions of seats, at their places, by a number of the seat's name.
    seats: Row,
}

impl Holdings {
    /// Nobody has anything. It takes no memory.
    pub fn new(alloc: Global) -> Holdings
        ensures { rows_of result ≡ no_rows }
    {
        Holdings {
            connections: Row::new(alloc),
            users: Row::new(alloc),
            terminals: Row::new(alloc),
            seats: Row::new(alloc),
        }
    }

    /// Makes room in each row for so many more.
    pub fn reserve(&mut self, more: usize) -> Result<(), NoMemory>
        ensures ok { OnOk result (HasSpare more self.new) }
        ensures rows { rows_of self.new ≡ rows_of self.old }
        ensures spare { (n : ℕ) → HasSpare n self.old → HasSpare n self.new }
    {
        self.connections.reserve(more)?;
        self.users.reserve(more)?;
        self.terminals.reserve(more)?;
        self.seats.reserve(more)?;
        Ok(())
    }

    /// What is lost is taken out, and what is gained put in. It takes no memory.
    pub fn shift(&mut self, lost: Things, gained: Things)
        requires { HasSpare 1 self.old }
        ensures rows { rows_of self.new ≡ shifted lost gained (rows_of self.old) }
        ensures spare { (n : ℕ) → HasSpare n self.old → HasSpare (n - 1) self.new }
    {
        self.connections
            .shift(lost.of_connection, gained.of_connection);
        self.users.shift(lost.of_user, gained.of_user);
        self.terminals.shift(lost.of_terminal, gained.of_terminal);
        self.seats.shift(lost.of_seat, gained.of_seat);
    }

    /// What a connection has of a kind above a number, in order.
    pub fn of_connection(&self, who: ConnId, rank: u8, above: Option<u32>) -> &[Holding]
        ensures { (t : Trail) → AreHeld (rows_of self.now) t → AreThose OfConnections (is_such who.0 rank above) t result.now }
    {
        self.connections.such(who.0, rank, above)
    }

    /// The open sessions of a user above one that have a seat, in order.
    pub fn of_user(&self, uid: u32, above: Option<SessId>) -> &[Holding]
        ensures { (t : Trail) → AreHeld (rows_of self.now) t → AreThose OfUsers (is_such uid session_rank (number_of above)) t result.now }
    {
        self.users.such(uid, SESSIONS, number_of(above))
    }

    /// The open sessions of seat0 on a terminal, in order.
    pub fn of_terminal(&self, vt: u32) -> &[Holding]
        ensures { (t : Trail) → AreHeld (rows_of self.now) t → AreThose OfTerminals (is_such vt session_rank None) t result.now }
    {
        self.terminals.such(vt, SESSIONS, None)
    }

    /// The open sessions of a seat above a place, or above none, and those of seats whose names have the same number, in
    /// the order of their places.
    pub fn of_seat(&self, seat: &SeatName, above: Option<u32>) -> &[Holding]
        ensures { (t : Trail) → AreHeld (rows_of self.now) t → AreThose OfSeats (is_such (hash_of seat.now) placed_rank above) t result.now }
    {
        self.seats.such(hash_of(seat), PLACED, above)
    }

    /// Those below a place, or below none.
    pub fn of_seat_below(&self, seat: &SeatName, below: Option<u32>) -> &[Holding]
        ensures { (t : Trail) → AreHeld (rows_of self.now) t → AreThose OfSeats (is_lower (hash_of seat.now) placed_rank below) t result.now }
    {
        self.seats.lower(hash_of(seat), PLACED, below)
    }
}
