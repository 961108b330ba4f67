// The facts, in their tables.

ghost use Rattle.std.specs.Prelude.{◌≡◌, ◌+◌, ◌<◌, ◌≤◌, ◌^◌, if◌then◌else◌, [], ◌∷◌, IsSome, List, OnErr, OnOk, Some, false, true, length, nat_lt};
ghost use Rattle.login_model.specs.Trail.{Trail, value, was_set};
ghost use Rattle.login_model.specs.Fresh.{next_session, next_handle, next_lock};
ghost use Rattle.login_model.specs.Names.{IsNext, session_lt, user_lt, conn_lt, seat_lt, device_lt, lock_lt};
ghost use Rattle.login_model.specs.Where.{is_session, is_user, is_connected, is_seat, is_device, is_lock};
ghost use Rattle.login_model.specs.Devices.{is_taken};
ghost use Rattle.login_model.specs.declared.mark.Mark.TheVariants.{Set};
ghost use Rattle.login_facts.specs.Counts.{AreCounted};
ghost use Rattle.device_model.specs.Ears.{heard_of};
ghost use Rattle.login_base.specs.declared.ids.DevNo.{DevNo as AnyDevice};
ghost use Rattle.login_base.specs.declared.ids.HandleNo.{HandleNo as AnyHandle};
ghost use Rattle.login_model.specs.declared.answer.Input.{Input as AnyInput};
ghost use Rattle.login_facts.specs.Ears.{AreEnough, ListenOn, settled};
ghost use Rattle.login_facts.specs.Rings.{ring_count};
ghost use Rattle.login_table.specs.Home.{home};
ghost use Rattle.login_laws.specs.Amounts.{Part as AnyPart, new_in, part};
ghost use Rattle.login_facts.specs.KeyRooms.{keys_of};
ghost use Rattle.login_facts.specs.Dues.{NamesKnown};
ghost use Rattle.login_facts.specs.Facts.{StandFor, StandsForFew, TablesStand, table};
ghost use Rattle.login_facts.specs.Owing.{owed};
ghost use Rattle.login_facts.specs.Sums.{sum_in};
ghost use Rattle.login_facts.specs.Holding.{AreThose, OfConnections, OfSeats, OfTerminals, OfUsers, hash_of, is_lower, is_such, number_of, placed_rank, session_rank};

use crate::counts::Counts;
use crate::hearing::settle;
use crate::holding::{Holding, things_of};
use crate::holdings::Holdings;
use crate::key_room::KeyRoom;
use crate::owing::{Dues, Owing, Touched, connection_in, taker_in, taker_in_key};
use controller::Controller;
use device_model::DeviceModel;
use device_revoke::DeviceRevoke;
use inhibitors::Inhibitors;
use login_base::{ConnId, DevNo, HandleNo, LockNo, NoMemory, SeatName, SessId, Uid};
use login_model::{Event, Fact, Input, Inputs, Key, Mark, Verdict};
use login_table::{Home, Table};
use power_ops::PowerOps;
use seats_vts::SeatsVts;
use sessions::Sessions;
use std::alloc::Global;
use std::marker::Model;
use users_linger::UsersLinger;

/// What is left of room for keys where one goes in, which takes some of it if it is new.
fn left(room: usize, is_new: bool) -> usize
    requires { is_new ≡ true → 0 < room }
    ensures { room ≡ result + (if is_new then 1 else 0) }
{
    if is_new { room - 1 } else { room }
}

/// The facts, how many there are of what needs room, the numbers of the next session, the next handle and the next
/// lock, what each connection has, and what its end makes. They stand for the marks whose settings were put in. With
/// the devices stands what handles hear of them.
pub struct Facts {
    users: UsersLinger,
    sessions: Sessions,
    seats: SeatsVts,
    devices: DeviceModel,
    controls: Controller,
    takes: DeviceRevoke,
    locks: Inhibitors,
    power: PowerOps,
    counts: Counts,
    session: u32,
    handle: u32,
    lock: u32,
    holdings: Holdings,
    owing: Owing,
    /// How many more settings can be put in beside the tables.
    spare: usize,
    /// How many more keys of each part can be set that were not set before: tables have rows for them, and so have the
    /// sums of what connections' ends make.
    fresh: KeyRoom,
}

/// By hand, so that a crate that lets facts go does not prove the end of each type in them.
impl Drop for Facts {
    fn drop(self) {
        let Self {
            users,
            sessions,
            seats,
            devices,
            controls,
            takes,
            locks,
            power,
            counts: _,
            session: _,
            handle: _,
            lock: _,
            holdings,
            owing,
            spare: _,
            fresh: _,
        } = self;
        drop(users);
        drop(sessions);
        drop(seats);
        drop(devices);
        drop(controls);
        drop(takes);
        drop(locks);
        drop(power);
        drop(holdings);
        drop(owing);
    }
}

impl Model for Facts {
    ghost use Rattle.std.specs.Prelude.{◌≤◌};
    ghost use Rattle.login_facts.specs.Facts.{Tables};
    ghost use Rattle.login_facts.specs.inner.Holdings.{HasSpare, rows_of};

    ghost Value = { Tables };

    ghost view = { λ f. record {
      users = f.users.trail;
      sessions = f.sessions.trail;
      seats = f.seats.trail;
      devices = f.devices.trail;
      controls = f.controls.trail;
      takes = f.takes.trail;
      locks = f.locks.trail;
      power = f.power.trail;
      ears = f.devices.ears;
      rings = f.devices.rings;
      counts = f.counts;
      session = f.session;
      handle = f.handle;
      lock = f.lock;
      held = rows_of f.holdings;
      owing = f.owing;
      spare = f.spare;
      fresh = f.fresh;
    } };

    ghost invariant = { λ f. (f.fresh.others ≤ f.users.spare) × (f.fresh.others ≤ f.sessions.spare) × (f.fresh.others ≤ f.seats.spare) × (f.fresh.others ≤ f.devices.spare) × (f.fresh.others ≤ f.controls.spare) × (f.fresh.taken ≤ f.takes.spare) × (f.fresh.others ≤ f.locks.spare) × (f.fresh.others ≤ f.power.spare) × (f.fresh.others ≤ f.owing.marks.spare) × (f.fresh.taken ≤ f.owing.taken.spare) × HasSpare f.spare f.holdings };
}

#[tactic(auto, unfolding(crate::specs::Facts::StandFor))]
impl Facts {
    /// The facts of no marks. It takes no memory.
    pub fn new(alloc: Global) -> Facts
        ensures stands { StandFor result [] }
        ensures ears { result.ears ≡ [] }
    {
        Facts {
            users: UsersLinger::new(alloc),
            sessions: Sessions::new(alloc),
            seats: SeatsVts::new(alloc),
            devices: DeviceModel::new(alloc),
            controls: Controller::new(alloc),
            takes: DeviceRevoke::new(alloc),
            locks: Inhibitors::new(alloc),
            power: PowerOps::new(alloc),
            counts: Counts::NONE,
            session: 1,
            handle: 1,
            lock: 1,
            holdings: Holdings::new(alloc),
            owing: Owing::new(alloc),
            spare: 0,
            fresh: KeyRoom::NONE,
        }
    }

    /// Makes room for so many more settings, beside the tables.
    pub fn reserve(&mut self, more: usize) -> Result<(), NoMemory>
        ensures ok { OnOk result (more ≤ self.new.spare) }
        ensures stands { (t : Trail) → StandFor self.old t → StandFor self.new t }
        ensures spare { self.old.spare ≤ self.new.spare }
        ensures fresh { self.new.fresh ≡ self.old.fresh }
        ensures ears { self.new.ears ≡ self.old.ears }
        ensures rings { self.new.rings ≡ self.old.rings }
    {
        if more <= self.spare {
            return Ok(());
        }
        self.holdings.reserve(more)?;
        self.spare = more;
        Ok(())
    }

    /// Makes room in the tables for so many more keys of each part that were not set before. Any of the others may be of a
    /// connection that comes, any of what is taken of a session that takes its first device.
    pub fn reserve_keys(&mut self, keys: KeyRoom) -> Result<(), NoMemory>
        ensures ok { OnOk result ((p : AnyPart) → keys_of p keys ≤ keys_of p self.new.fresh) }
        ensures refused { OnErr result (self.new.fresh ≡ self.old.fresh) }
        ensures stands { (t : Trail) → StandFor self.old t → StandFor self.new t }
        ensures spare { self.new.spare ≡ self.old.spare }
        ensures fresh { (p : AnyPart) → keys_of p self.old.fresh ≤ keys_of p self.new.fresh }
        ensures ears { self.new.ears ≡ self.old.ears }
        ensures rings { self.new.rings ≡ self.old.rings }
    {
        if self.fresh.fits(keys) {
            return Ok(());
        }
        let fresh = self.fresh.widened(keys);
        self.users.room(fresh.others)?;
        self.sessions.room(fresh.others)?;
        self.seats.room(fresh.others)?;
        self.devices.room(fresh.others)?;
        self.controls.room(fresh.others)?;
        self.takes.room(fresh.taken)?;
        self.locks.room(fresh.others)?;
        self.power.room(fresh.others)?;
        self.owing.reserve(fresh)?;
        self.fresh = fresh;
        Ok(())
    }

    /// Makes rings for so many handles, with those that are in use.
    pub fn make_rings(&mut self, handles: usize) -> Result<(), NoMemory>
        ensures ok { OnOk result (handles ≤ ring_count self.new.ears self.new.rings) }
        ensures stands { (t : Trail) → StandFor self.old t → StandFor self.new t }
        ensures spare { self.new.spare ≡ self.old.spare }
        ensures fresh { self.new.fresh ≡ self.old.fresh }
        ensures ears { self.new.ears ≡ self.old.ears }
        ensures rings { self.old.rings ≤ self.new.rings }
    {
        let spare = handles.saturating_sub(self.devices.listening());
        self.devices.rings(spare)
    }

    /// The fact under a key in a table.
    fn fact_in(&self, at: Home, key: &Key) -> &Fact
        ensures { result.now ≡ value (table self.now at) key.now }
    {
        match at {
            Home::Users => self.users.fact(key),
            Home::Sessions => self.sessions.fact(key),
            Home::Seats => self.seats.fact(key),
            Home::Devices => self.devices.fact(key),
            Home::Controls => self.controls.fact(key),
            Home::Takes => self.takes.fact(key),
            Home::Locks => self.locks.fact(key),
            Home::Power => self.power.fact(key),
        }
    }

    /// The fact under a key in its table.
    pub fn read(&self, key: &Key) -> &Fact
        ensures { (t : Trail) → TablesStand self.now t → result.now ≡ value t key.now }
    {
        self.fact_in(Home::of(key), key)
    }

    /// The fact of the last setting of a key, or the fact at the start.
    pub fn fact(&self, key: &Key) -> &Fact
        ensures { (t : Trail) → StandFor self.now t → result.now ≡ value t key.now }
    {
        self.read(key)
    }

    /// Puts a setting in the tables.
    fn put_in(&mut self, key: Key, fact: Fact)
        requires spare { 0 < self.old.spare }
        requires fresh { was_set (table self.old (home key)) key ≡ false → 0 < keys_of (part key) self.old.fresh }
        requires few { StandsForFew TablesStand self.old }
        ensures stands { (t : Trail) → TablesStand self.old t → TablesStand self.new (Set key fact ∷ t) }
        ensures spare { self.old.spare ≡ self.new.spare + 1 }
        ensures fresh { (p : AnyPart) → keys_of p self.old.fresh ≡ keys_of p self.new.fresh + new_in p (table self.old (home key)) key }
        ensures owing { self.new.owing ≡ self.old.owing }
        ensures ears { self.new.ears ≡ self.old.ears }
        ensures rings { self.new.rings ≡ self.old.rings }
    {
        let before = self.read(&key);
        let lost = Counts::of(&key, before);
        let lost_things = things_of(&key, before);
        let gained = Counts::of(&key, &fact);
        self.counts = self.counts.moved(lost, gained);
        self.holdings.shift(lost_things, things_of(&key, &fact));
        self.session += gained.opened;
        self.handle += key.gives(&fact);
        self.lock += gained.locks;
        self.spare -= 1;
        match Home::of(&key) {
            Home::Users => {
                self.fresh.others = left(self.fresh.others, self.users.set(key, fact));
            }
            Home::Sessions => {
                self.fresh.others = left(self.fresh.others, self.sessions.set(key, fact));
            }
            Home::Seats => {
                self.fresh.others = left(self.fresh.others, self.seats.set(key, fact));
            }
            Home::Devices => {
                self.fresh.others = left(self.fresh.others, self.devices.set(key, fact));
            }
            Home::Controls => {
                self.fresh.others = left(self.fresh.others, self.controls.set(key, fact));
            }
            Home::Takes => {
                self.fresh.taken = left(self.fresh.taken, self.takes.set(key, fact));
            }
            Home::Locks => {
                self.fresh.others = left(self.fresh.others, self.locks.set(key, fact));
            }
            Home::Power => {
                self.fresh.others = left(self.fresh.others, self.power.set(key, fact));
            }
        }
    }

    /// Puts a setting in. It takes no memory. A key that was set before takes no room in its table.
    pub fn set(&mut self, key: Key, fact: Fact)
        requires known { NamesKnown fact self.old.controls }
        requires spare { 0 < self.old.spare }
        requires fresh { was_set (table self.old (home key)) key ≡ false → 0 < keys_of (part key) self.old.fresh }
        requires few { StandsForFew StandFor self.old }
        ensures stands { (t : Trail) → StandFor self.old t → StandFor self.new (Set key fact ∷ t) }
        ensures spare { self.old.spare ≡ self.new.spare + 1 }
        ensures fresh { (p : AnyPart) → keys_of p self.old.fresh ≡ keys_of p self.new.fresh + new_in p (table self.old (home key)) key }
        ensures ears { self.new.ears ≡ self.old.ears }
        ensures rings { self.new.rings ≡ self.old.rings }
    {
        let before = self.fact(&key);
        let touched = Touched::by(&key, before, &fact);
        let lost_taker = taker_in(&key, before);
        let taker = taker_in(&key, &fact);
        let comer = connection_in(&key);
        let keyed = taker_in_key(&key);
        let lost = Dues::of(self, touched);
        self.owing.lose(lost);
        self.put_in(key, fact);
        self.owing.welcome(comer, keyed);
        self.owing.shift(lost_taker, taker);
        let gained = Dues::of(self, touched);
        self.owing.gain(gained);
    }

    /// How many devices a session has taken.
    pub fn taken_by(&self, session: SessId) -> u32
        requires { sum_in self.now.owing.taken.items session.0 < 2 ^ 32 }
        ensures { result ≡ sum_in self.now.owing.taken.items session.0 }
    {
        self.owing.taken.of(session.0) as u32
    }

    /// The marks that the end of a connection makes for its sessions and its locks.
    pub fn owed(&self, who: ConnId) -> u64
        ensures { (t : Trail) → StandFor self.now t → result ≡ owed t who }
    {
        self.owing.marks.of(who.0)
    }

    /// How many there are of what is counted.
    pub fn counts(&self) -> Counts
        ensures { (t : Trail) → StandFor self.now t → AreCounted result t }
    {
        self.counts
    }

    /// The number of the next session.
    pub fn fresh_session(&self) -> SessId
        ensures { (t : Trail) → StandFor self.now t → result ≡ next_session t }
    {
        SessId(self.session)
    }

    /// The number of the next handle.
    pub fn fresh_handle(&self) -> HandleNo
        ensures { (t : Trail) → StandFor self.now t → result ≡ next_handle t }
    {
        HandleNo(self.handle)
    }

    /// The number of the next lock.
    pub fn fresh_lock(&self) -> LockNo
        ensures { (t : Trail) → StandFor self.now t → result ≡ next_lock t }
    {
        LockNo(self.lock)
    }

    /// The least session above that one that is not gone.
    pub fn next_session(&self, above: Option<SessId>) -> Option<SessId>
        ensures { (t : Trail) → StandFor self.now t → IsNext session_lt (is_session t) above result }
    {
        self.sessions.next(above)
    }

    /// The least user above that one that is not absent.
    pub fn next_user(&self, above: Option<Uid>) -> Option<Uid>
        ensures { (t : Trail) → StandFor self.now t → IsNext user_lt (is_user t) above result }
    {
        self.users.next(above)
    }

    /// The least seat above that one that is there.
    pub fn next_seat(&self, above: Option<SeatName>) -> Option<SeatName>
        ensures { (t : Trail) → StandFor self.now t → IsNext seat_lt (is_seat t) above result }
    {
        self.seats.next(above)
    }

    /// The least device above that one that is there.
    pub fn next_device(&self, above: Option<DevNo>) -> Option<DevNo>
        ensures { (t : Trail) → StandFor self.now t → IsNext device_lt (is_device t) above result }
    {
        self.devices.next(above)
    }

    /// The least lock above that one that stands.
    pub fn next_lock(&self, above: Option<LockNo>) -> Option<LockNo>
        ensures { (t : Trail) → StandFor self.now t → IsNext lock_lt (is_lock t) above result }
    {
        self.locks.next(above)
    }

    /// The least connection above that one that is connected.
    pub fn next_conn(&self, above: Option<ConnId>) -> Option<ConnId>
        ensures { (t : Trail) → StandFor self.now t → IsNext conn_lt (is_connected t) above result }
    {
        self.controls.next(above)
    }

    /// The least device above that one that a session has taken.
    pub fn next_taken(&self, session: SessId, above: Option<DevNo>) -> Option<DevNo>
        ensures { (t : Trail) → StandFor self.now t → IsNext device_lt (is_taken t session) above result }
    {
        self.takes.next_taken(session, above)
    }

    /// The least session above that one that has a device taken.
    pub fn next_taker(&self, device: DevNo, above: Option<SessId>) -> Option<SessId>
        ensures { (t : Trail) → StandFor self.now t → IsNext session_lt (λ s. is_taken t s device) above result }
    {
        self.takes.next_taker(device, above)
    }

    /// What a connection has of a kind above a number, in order.
    pub fn of_connection(&self, who: ConnId, rank: u8, above: Option<u32>) -> &[Holding]
        ensures { (t : Trail) → StandFor self.now t → AreThose OfConnections (is_such who.0 rank above) t result.now }
    {
        self.holdings.of_connection(who, rank, above)
    }

    /// The open sessions of a user above one that have a seat, in order.
    pub fn of_user(&self, uid: u32, above: Option<SessId>) -> &[Holding]
        ensures { (t : Trail) → StandFor self.now t → AreThose OfUsers (is_such uid session_rank (number_of above)) t result.now }
    {
        self.holdings.of_user(uid, above)
    }

    /// The open sessions of seat0 on a terminal, in order.
    pub fn of_terminal(&self, vt: u32) -> &[Holding]
        ensures { (t : Trail) → StandFor self.now t → AreThose OfTerminals (is_such vt session_rank None) t result.now }
    {
        self.holdings.of_terminal(vt)
    }

    /// The open sessions of a seat above a place, or above none, and those of seats whose names have the same number, in
    /// the order of their places.
    pub fn of_seat(&self, seat: &SeatName, above: Option<u32>) -> &[Holding]
        ensures { (t : Trail) → StandFor self.now t → AreThose OfSeats (is_such (hash_of seat.now) placed_rank above) t result.now }
    {
        self.holdings.of_seat(seat, above)
    }

    /// Those below a place, or below none.
    pub fn of_seat_below(&self, seat: &SeatName, below: Option<u32>) -> &[Holding]
        ensures { (t : Trail) → StandFor self.now t → AreThose OfSeats (is_lower (hash_of seat.now) placed_rank below) t result.now }
    {
        self.holdings.of_seat_below(seat, below)
    }

    /// What a handle that listens has heard, the oldest first.
    pub fn heard(&self, handle: HandleNo) -> &[Input]
        requires { IsSome (heard_of self.now.ears handle) }
        ensures { (d : AnyDevice) (xs : List AnyInput) → heard_of self.now.ears handle ≡ Some (d, xs) → result.now ≡ xs }
    {
        self.devices.heard(handle)
    }

    /// What handles hear is settled behind the marks of an entry: each hears what a granted event brings, and
    /// those of input devices that the marks make live begin anew. What is read goes to `read`. It takes no memory.
    pub fn settle_ears(
        &mut self,
        event: &Event,
        verdict: Verdict,
        marks: &[Mark],
        read: &mut Inputs,
    )
        requires listen { ListenOn self.old.ears marks.now self.old.takes }
        requires enough { AreEnough (ring_count self.old.ears self.old.rings) self.old.takes }
        ensures heard { (h : AnyHandle) → heard_of self.new.ears h ≡ settled h event.now verdict marks.now self.old.takes self.old.devices (heard_of self.old.ears h) }
        ensures rings { ring_count self.new.ears self.new.rings ≡ ring_count self.old.ears self.old.rings }
        ensures stands { (t : Trail) → StandFor self.old t → StandFor self.new t }
        ensures spare { self.new.spare ≡ self.old.spare }
        ensures fresh { self.new.fresh ≡ self.old.fresh }
    {
        settle(&self.takes, &mut self.devices, event, verdict, marks, read);
    }
}
