// The order of keys.

ghost use Rattle.std.specs.Prelude.{◌≡◌};
ghost use Rattle.login_model.specs.Names.{seat_lt};
ghost use Rattle.login_table.specs.KeyOrder.{key_lt, mixed_lt, number, pair_lt, part_lt, rank_of, turn};

use crate::name::Order;
use login_base::{DevNo, SeatName, SessId};
use login_model::Key;

/// The rank of connections. The kinds that tell what is there come first.
pub const CONNECTIONS: u8 = 0;

/// The rank of sessions.
pub const SESSIONS: u8 = 1;

/// The rank of users, and of whether they linger.
pub const USERS: u8 = 2;

/// The rank of seats.
pub const SEATS: u8 = 3;

/// The rank of devices.
pub const DEVICES: u8 = 4;

/// The rank of locks.
pub const LOCKS: u8 = 5;

/// The rank of the owners of handles.
pub const OWNERS: u8 = 7;

/// The rank of the handles that give access.
pub const LIVES: u8 = 8;

/// The rank of the devices that sessions have taken.
pub const TAKES: u8 = 13;

/// The rank of the hints that sessions give, and of the last signals that they were sent.
pub const HINTS: u8 = 19;

/// The rank of a key's kind. All hints of a session stand together, and so does what is told of a user, so that
/// what comes of a new one goes behind all that was told of those before.
pub fn rank_of(key: &Key) -> u8
    ensures { result ≡ rank_of key.now }
{
    match key {
        Key::Conn(_) => CONNECTIONS,
        Key::Sess(_) => SESSIONS,
        Key::User(_) | Key::Linger(_) => USERS,
        Key::Seat(_) => SEATS,
        Key::Dev(_) => DEVICES,
        Key::Lock(_) => LOCKS,
        Key::Ctl(_) => 6,
        Key::Owner(_) => OWNERS,
        Key::Live(_) => LIVES,
        Key::Act(_) => 9,
        Key::Vt => 10,
        Key::Getty(_) => 11,
        Key::Pending => 12,
        Key::Taken(_, _) => TAKES,
        Key::Awaited(_, _) => 14,
        Key::Mode(_) => 15,
        Key::Op => 16,
        Key::Docked => 17,
        Key::Now => 18,
        Key::Idle(_) | Key::Locked(_) | Key::Sig(_) => HINTS,
    }
}

fn is_pair_below(session: SessId, device: DevNo, other: SessId, another: DevNo) -> bool
    ensures { result ≡ pair_lt session device other another }
{
    session.0 < other.0 || (session.0 == other.0 && device.is_below(another))
}

/// Whether the name of a seat is below another. It reads them where they are, since each copy of one costs more
/// than a comparison.
fn is_seat_below(seat: &SeatName, other: &SeatName) -> bool
    ensures { result ≡ seat_lt seat.now other.now }
{
    seat.as_slice() < other.as_slice()
}

/// The number of the session or the user by which a key stands in its rank.
fn number(key: &Key) -> u32
    ensures { result ≡ number key.now }
{
    match key {
        Key::Sess(session) | Key::Idle(session) | Key::Locked(session) | Key::Sig(session) =>
            session.0,
        Key::User(user) | Key::Linger(user) => user.0,
        _ => 0,
    }
}

/// The turn of a key among those of one session or one user.
fn turn(key: &Key) -> u8
    ensures { result ≡ turn key.now }
{
    match key {
        Key::Idle(_) | Key::Linger(_) => 1,
        Key::Locked(_) => 2,
        Key::Sig(_) => 3,
        _ => 0,
    }
}

/// Whether a key is below another of its rank, which is of another kind.
fn is_part_below(a: &Key, b: &Key) -> bool
    ensures { result ≡ part_lt a.now b.now }
{
    number(a) < number(b) || (number(a) == number(b) && turn(a) < turn(b))
}

/// Whether a key is below one of another kind.
fn is_mixed_below(a: &Key, b: &Key) -> bool
    ensures { result ≡ mixed_lt a.now b.now }
{
    rank_of(a) < rank_of(b) || (rank_of(a) == rank_of(b) && is_part_below(a, b))
}

/// Whether a key is below another.
pub fn is_key_below(a: &Key, b: &Key) -> bool
    ensures { result ≡ key_lt a.now b.now }
{
    match (a, b) {
        (Key::Conn(x), Key::Conn(y)) => x.is_below(*y),
        (Key::Sess(x), Key::Sess(y)) => x.is_below(*y),
        (Key::User(x), Key::User(y)) => x.is_below(*y),
        (Key::Seat(x), Key::Seat(y)) => is_seat_below(x, y),
        (Key::Dev(x), Key::Dev(y)) => x.is_below(*y),
        (Key::Lock(x), Key::Lock(y)) => x.is_below(*y),
        (Key::Idle(x), Key::Idle(y)) => x.is_below(*y),
        (Key::Locked(x), Key::Locked(y)) => x.is_below(*y),
        (Key::Sig(x), Key::Sig(y)) => x.is_below(*y),
        (Key::Ctl(x), Key::Ctl(y)) => x.is_below(*y),
        (Key::Linger(x), Key::Linger(y)) => x.is_below(*y),
        (Key::Owner(x), Key::Owner(y)) => x.0 < y.0,
        (Key::Live(x), Key::Live(y)) => x.0 < y.0,
        (Key::Act(x), Key::Act(y)) => is_seat_below(x, y),
        (Key::Getty(x), Key::Getty(y)) => *x < *y,
        (Key::Taken(s, x), Key::Taken(r, y)) => is_pair_below(*s, *x, *r, *y),
        (Key::Awaited(s, x), Key::Awaited(r, y)) => is_pair_below(*s, *x, *r, *y),
        (Key::Mode(x), Key::Mode(y)) => x.is_below(*y),
        _ => is_mixed_below(a, b),
    }
}

/// The number of what a key names, where it has one.
pub fn numbered(key: &Key) -> u32 {
    match key {
        Key::Conn(who) => who.0,
        Key::Sess(session) | Key::Ctl(session) => session.0,
        Key::User(user) => user.0,
        Key::Lock(lock) => lock.0,
        Key::Owner(handle) | Key::Live(handle) => handle.0,
        _ => 0,
    }
}
