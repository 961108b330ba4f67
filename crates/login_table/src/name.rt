// Names of one kind: what sessions, users, connections, seats, devices and locks have in common.

ghost use Rattle.std.specs.Prelude.{◌≡◌, ℕ, nat_lt, Bool, Option, None, Some, refl};
ghost use Rattle.login_model.specs.declared.fact.Key.{Key};
ghost use Rattle.login_model.specs.declared.fact.Key.TheVariants as key_about;
ghost use Rattle.login_model.specs.declared.fact.Fact.{Fact};
ghost use Rattle.login_table.specs.Nearest.{is_lower};
ghost use Rattle.login_model.specs.Names.{is_above, session_lt, user_lt, conn_lt, seat_lt, device_lt, lock_lt, session_in, user_in, conn_in, seat_in, device_in, lock_in};
ghost use Rattle.login_model.specs.Start.{seat0};
ghost use Rattle.login_model.specs.Where.{is_session_fact, is_user_fact, is_connected_fact, is_seat_fact, is_device_fact, is_lock_fact};
ghost use Rattle.login_model.specs.Kind.{IsOrder, AreKeys};
ghost use Rattle.login_model.proofs.NameLaws.{number_order, session_order, user_order, conn_order, seat_order, device_order, lock_order, session_keys, user_keys, conn_keys, seat_keys, device_keys, lock_keys};
ghost use Rattle.login_table.specs.KeyOrder.{key_lt, rank_of};
ghost use Rattle.login_table.specs.Rows.{says_there};
ghost use Rattle.login_table.specs.declared.key_order.TheConstants.{CONNECTIONS, DEVICES, LOCKS, SEATS, SESSIONS, USERS};

use crate::key_order::{CONNECTIONS, DEVICES, LOCKS, SEATS, SESSIONS, USERS};
use login_base::{ConnId, DevNo, LockNo, SeatName, SessId, Uid};
use login_model::{Fact, Key};

/// A name of a kind that has an order.
pub trait Order: Copy {
    ghost lt: { Self → Self → Bool };

    /// Whether the name is below another.
    fn is_below(self, other: Self) -> bool
        ensures { result ≡ lt self other };

    ghost order: { IsOrder lt };
}

/// Whether a name is above another, or there is no other.
pub fn is_above<N: Order>(above: Option<N>, name: N) -> bool
    ensures { result ≡ is_above N.lt above name }
{
    match above {
        Some(other) => other.is_below(name),
        None => true,
    }
}

/// Whether a name is below another, or there is no other.
pub fn is_lower<N: Order>(name: N, best: Option<N>) -> bool
    ensures { result ≡ is_lower N.lt name best }
{
    match best {
        Some(other) => name.is_below(other),
        None => true,
    }
}

/// A name that keys are about.
pub trait Name: Order {
    ghost name_in: { Key → Option Self };

    ghost key_of: { Self → Key };

    ghost is_fact: { Fact → Bool };

    ghost first: { Option Self };

    /// The name of this kind that a key is about.
    fn in_key(key: &Key) -> Option<Self>
        ensures { result ≡ name_in key.now };

    /// The key that tells whether what the name stands for is there.
    fn key(self) -> Key
        ensures { result ≡ key_of self };

    /// Whether that key's fact says that it is there.
    fn is_there(fact: &Fact) -> bool
        ensures { result ≡ is_fact fact.now };

    /// The name whose thing is there at the start, if there is one.
    fn at_start() -> Option<Self>
        ensures { result ≡ first };

    ghost rank: { ℕ };

    /// The rank of the kind of that key.
    fn rank() -> u8
        ensures { result ≡ rank };

    ghost keys: { AreKeys name_in key_of is_fact first };

    ghost of_rank: { (a : Self) → rank_of (key_of a) ≡ Self.rank };

    ghost ordered: { (a b : Self) → key_lt (key_of a) (key_of b) ≡ Self.lt a b };

    ghost said: { (a : Self) (x : Fact) → says_there (key_of a) x ≡ is_fact x };
}

impl Order for SessId {
    ghost lt = { session_lt };

    ghost order = { session_order };

    fn is_below(self, other: SessId) -> bool {
        self.0 < other.0
    }
}

impl Name for SessId {
    ghost name_in = { session_in };

    ghost key_of = { key_about.Sess };

    ghost is_fact = { is_session_fact };

    ghost first = { None };

    ghost keys = { session_keys };

    ghost rank = { SESSIONS };

    ghost of_rank = { λ a. refl };

    ghost ordered = { λ a b. refl };

    ghost said = { λ a x. refl };

    fn in_key(key: &Key) -> Option<SessId> {
        match key {
            Key::Sess(session) => Some(*session),
            _ => None,
        }
    }

    fn key(self) -> Key {
        Key::Sess(self)
    }

    fn is_there(fact: &Fact) -> bool {
        fact.is_session()
    }

    fn at_start() -> Option<SessId> {
        None
    }

    fn rank() -> u8 {
        SESSIONS
    }
}

impl Order for Uid {
    ghost lt = { user_lt };

    ghost order = { user_order };

    fn is_below(self, other: Uid) -> bool {
        self.0 < other.0
    }
}

impl Name for Uid {
    ghost name_in = { user_in };

    ghost key_of = { key_about.User };

    ghost is_fact = { is_user_fact };

    ghost first = { None };

    ghost keys = { user_keys };

    ghost rank = { USERS };

    ghost of_rank = { λ a. refl };

    ghost ordered = { λ a b. refl };

    ghost said = { λ a x. refl };

    fn in_key(key: &Key) -> Option<Uid> {
        match key {
            Key::User(user) => Some(*user),
            _ => None,
        }
    }

    fn key(self) -> Key {
        Key::User(self)
    }

    fn is_there(fact: &Fact) -> bool {
        fact.is_user()
    }

    fn at_start() -> Option<Uid> {
        None
    }

    fn rank() -> u8 {
        USERS
    }
}

impl Order for ConnId {
    ghost lt = { conn_lt };

    ghost order = { conn_order };

    fn is_below(self, other: ConnId) -> bool {
        self.0 < other.0
    }
}

impl Name for ConnId {
    ghost name_in = { conn_in };

    ghost key_of = { key_about.Conn };

    ghost is_fact = { is_connected_fact };

    ghost first = { None };

    ghost keys = { conn_keys };

    ghost rank = { CONNECTIONS };

    ghost of_rank = { λ a. refl };

    ghost ordered = { λ a b. refl };

    ghost said = { λ a x. refl };

    fn in_key(key: &Key) -> Option<ConnId> {
        match key {
            Key::Conn(who) => Some(*who),
            _ => None,
        }
    }

    fn key(self) -> Key {
        Key::Conn(self)
    }

    fn is_there(fact: &Fact) -> bool {
        fact.is_connected()
    }

    fn at_start() -> Option<ConnId> {
        None
    }

    fn rank() -> u8 {
        CONNECTIONS
    }
}

impl Order for SeatName {
    ghost lt = { seat_lt };

    ghost order = { seat_order };

    fn is_below(self, other: SeatName) -> bool {
        self.as_slice() < other.as_slice()
    }
}

impl Name for SeatName {
    ghost name_in = { seat_in };

    ghost key_of = { key_about.Seat };

    ghost is_fact = { is_seat_fact };

    ghost first = { Some seat0 };

    ghost keys = { seat_keys };

    ghost rank = { SEATS };

    ghost of_rank = { λ a. refl };

    ghost ordered = { λ a b. refl };

    ghost said = { λ a x. refl };

    fn in_key(key: &Key) -> Option<SeatName> {
        match key {
            Key::Seat(seat) => Some(*seat),
            _ => None,
        }
    }

    fn key(self) -> Key {
        Key::Seat(self)
    }

    fn is_there(fact: &Fact) -> bool {
        fact.is_seat()
    }

    fn at_start() -> Option<SeatName> {
        Some(SeatName::SEAT0)
    }

    fn rank() -> u8 {
        SEATS
    }
}

impl Order for DevNo {
    ghost lt = { device_lt };

    ghost order = { device_order };

    fn is_below(self, other: DevNo) -> bool {
        self.major < other.major || (self.major == other.major && self.minor < other.minor)
    }
}

impl Name for DevNo {
    ghost name_in = { device_in };

    ghost key_of = { key_about.Dev };

    ghost is_fact = { is_device_fact };

    ghost first = { None };

    ghost keys = { device_keys };

    ghost rank = { DEVICES };

    ghost of_rank = { λ a. refl };

    ghost ordered = { λ a b. refl };

    ghost said = { λ a x. refl };

    fn in_key(key: &Key) -> Option<DevNo> {
        match key {
            Key::Dev(device) => Some(*device),
            _ => None,
        }
    }

    fn key(self) -> Key {
        Key::Dev(self)
    }

    fn is_there(fact: &Fact) -> bool {
        fact.is_device()
    }

    fn at_start() -> Option<DevNo> {
        None
    }

    fn rank() -> u8 {
        DEVICES
    }
}

impl Order for LockNo {
    ghost lt = { lock_lt };

    ghost order = { lock_order };

    fn is_below(self, other: LockNo) -> bool {
        self.0 < other.0
    }
}

impl Name for LockNo {
    ghost name_in = { lock_in };

    ghost key_of = { key_about.Lock };

    ghost is_fact = { is_lock_fact };

    ghost first = { None };

    ghost keys = { lock_keys };

    ghost rank = { LOCKS };

    ghost of_rank = { λ a. refl };

    ghost ordered = { λ a b. refl };

    ghost said = { λ a x. refl };

    fn in_key(key: &Key) -> Option<LockNo> {
        match key {
            Key::Lock(lock) => Some(*lock),
            _ => None,
        }
    }

    fn key(self) -> Key {
        Key::Lock(self)
    }

    fn is_there(fact: &Fact) -> bool {
        fact.is_lock()
    }

    fn at_start() -> Option<LockNo> {
        None
    }

    fn rank() -> u8 {
        LOCKS
    }
}

impl Order for u32 {
    ghost lt = { nat_lt };

    ghost order = { number_order };

    fn is_below(self, other: u32) -> bool {
        self < other
    }
}
