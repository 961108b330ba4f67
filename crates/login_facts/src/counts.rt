// How many there are of what needs room, has a limit or is asked for by its number.

ghost use Rattle.std.specs.Prelude.{◌≡◌, ◌+◌, ◌<◌, ◌≤◌, ◌^◌, length};
ghost use Rattle.login_laws.specs.Few.{most_taken};
ghost use Rattle.login_laws.specs.Need.{marks_over_devices, marks_over_holders, marks_over_users};
ghost use Rattle.login_laws.specs.Shares.{active_share_rise};
ghost use Rattle.login_model.specs.Full.{marks_needed};
ghost use Rattle.login_model.specs.Limits.{taken_limit};
ghost use Rattle.login_model.specs.Trail.{Trail};
ghost use Rattle.login_model.specs.Where.{sessions};
ghost use Rattle.login_facts.specs.Counts.{AreCounted, CanAllMove, Follow, HoldersAreThere, counts_of, holding_in, one_if};

use login_model::{Fact, Key, LockMode, MOST_TAKEN, OpKind};

/// What is kept for marks beside the sums over what stands.
const MARKS_IN_RESERVE: u64 = 64;

/// By how many marks an event may raise those of the end of who has seat0's active session, beside those of devices.
const SHARE_BESIDE: u64 = 12;

/// How many there are of what needs room in the journal, has a limit or is asked for by its number.
#[derive(Clone, Copy)]
pub struct Counts {
    /// Clients that are connected.
    pub connections: u32,
    /// Sessions that some connection controls.
    pub controlled: u32,
    /// Devices that are there.
    pub devices: u32,
    /// Users that leave after a delay.
    pub leaving: u32,
    /// Locks that stand.
    pub locks: u32,
    /// Sessions that are open.
    pub opened: u32,
    /// Sessions that are not gone.
    pub present: u32,
    /// Locks that block what ends the machine's run.
    pub shutdown_blocks: u32,
    /// Locks that delay it.
    pub shutdown_delays: u32,
    /// Locks that block sleep.
    pub sleep_blocks: u32,
    /// Locks that delay it.
    pub sleep_delays: u32,
    /// Pairs of a session and a device that it has taken.
    pub taken: u32,
    /// Users that are not absent.
    pub users: u32,
}

/// One where it is so, else none.
fn one_if(is_so: bool) -> u32
    ensures { result ≡ one_if is_so }
{
    if is_so { 1 } else { 0 }
}

/// A count that loses so many and gains so many.
fn moved(count: u32, lost: u32, gained: u32) -> u32
    requires lost { lost ≤ count }
    requires gained { count + gained < 2 ^ 32 }
    ensures { result + lost ≡ count + gained }
{
    count - lost + gained
}

impl Counts {
    /// Nothing is there.
    pub const NONE: Counts = Counts {
        connections: 0,
        controlled: 0,
        devices: 0,
        leaving: 0,
        locks: 0,
        opened: 0,
        present: 0,
        shutdown_blocks: 0,
        shutdown_delays: 0,
        sleep_blocks: 0,
        sleep_delays: 0,
        taken: 0,
        users: 0,
    };

    /// What one fact under a key counts for.
    pub fn of(key: &Key, fact: &Fact) -> Counts
        ensures { result ≡ counts_of key.now fact.now }
    {
        match key {
            Key::Conn(_) => Counts {
                connections: one_if(fact.is_connected()),
                ..Counts::NONE
            },
            Key::Ctl(_) => Counts {
                controlled: one_if(fact.is_controlled()),
                ..Counts::NONE
            },
            Key::Dev(_) => Counts {
                devices: one_if(fact.is_device()),
                ..Counts::NONE
            },
            Key::Lock(_) => Counts {
                locks: one_if(fact.is_lock()),
                shutdown_blocks: one_if(fact.holds_back(OpKind::PowerOff, LockMode::Block)),
                shutdown_delays: one_if(fact.holds_back(OpKind::PowerOff, LockMode::Delay)),
                sleep_blocks: one_if(fact.holds_back(OpKind::Suspend, LockMode::Block)),
                sleep_delays: one_if(fact.holds_back(OpKind::Suspend, LockMode::Delay)),
                ..Counts::NONE
            },
            Key::Sess(_) => Counts {
                opened: one_if(fact.is_open()),
                present: one_if(fact.is_session()),
                ..Counts::NONE
            },
            Key::Taken(_, _) => Counts {
                taken: one_if(fact.is_handle()),
                ..Counts::NONE
            },
            Key::User(_) => Counts {
                leaving: one_if(fact.is_leaving()),
                users: one_if(fact.is_user()),
                ..Counts::NONE
            },
            _ => Counts::NONE,
        }
    }

    /// How many locks of a mode there are that hold up an operation.
    pub fn holding(self, kind: OpKind, mode: LockMode) -> u32
        ensures { result ≡ holding_in self kind mode }
    {
        match (kind.is_shutdown(), mode) {
            (true, LockMode::Block) => self.shutdown_blocks,
            (true, LockMode::Delay) => self.shutdown_delays,
            (false, LockMode::Block) => self.sleep_blocks,
            (false, LockMode::Delay) => self.sleep_delays,
        }
    }

    /// The counts when so many are lost and so many are gained.
    pub fn moved(self, lost: Counts, gained: Counts) -> Counts
        requires { CanAllMove self lost gained }
        ensures { Follow self lost gained result }
    {
        Counts {
            connections: moved(self.connections, lost.connections, gained.connections),
            controlled: moved(self.controlled, lost.controlled, gained.controlled),
            devices: moved(self.devices, lost.devices, gained.devices),
            leaving: moved(self.leaving, lost.leaving, gained.leaving),
            locks: moved(self.locks, lost.locks, gained.locks),
            opened: moved(self.opened, lost.opened, gained.opened),
            present: moved(self.present, lost.present, gained.present),
            shutdown_blocks: moved(
                self.shutdown_blocks,
                lost.shutdown_blocks,
                gained.shutdown_blocks,
            ),
            shutdown_delays: moved(
                self.shutdown_delays,
                lost.shutdown_delays,
                gained.shutdown_delays,
            ),
            sleep_blocks: moved(self.sleep_blocks, lost.sleep_blocks, gained.sleep_blocks),
            sleep_delays: moved(self.sleep_delays, lost.sleep_delays, gained.sleep_delays),
            taken: moved(self.taken, lost.taken, gained.taken),
            users: moved(self.users, lost.users, gained.users),
        }
    }

    /// The most marks of going over all users.
    pub fn marks_over_users(self) -> u64
        ensures value { (t : Trail) → AreCounted self t → result ≡ marks_over_users t }
        ensures bound { result < 2 ^ 34 }
    {
        4 * u64::from(self.users)
    }

    /// The most devices that one session may have taken: no more than all have, nor than the limit.
    pub fn most_taken(self) -> u32
        ensures value { (t : Trail) → AreCounted self t → HoldersAreThere t → result ≡ most_taken t }
        ensures bound { result ≤ taken_limit }
    {
        self.taken.min(MOST_TAKEN)
    }

    /// The most marks of what one or two sessions have taken.
    pub fn marks_over_devices(self) -> u64
        ensures value { (t : Trail) → AreCounted self t → HoldersAreThere t → result ≡ marks_over_devices (most_taken t) }
        ensures bound { result < 2 ^ 10 }
    {
        6 * u64::from(self.most_taken())
    }

    /// The most marks of one for each session.
    pub fn marks_over_sessions(self) -> u64
        ensures value { (t : Trail) → AreCounted self t → result ≡ length (sessions t) }
        ensures bound { result < 2 ^ 32 }
    {
        u64::from(self.present)
    }

    /// The most marks of closing each of some sessions, or of taking a device from all of them.
    pub fn marks_over_holders(self) -> u64
        ensures value { (t : Trail) → AreCounted self t → HoldersAreThere t → result ≡ marks_over_holders t }
        ensures bound { result < 2 ^ 36 }
    {
        3 * u64::from(self.taken) + 8 * u64::from(self.present)
    }

    /// The most marks by which an event raises those of a connection's end.
    pub fn active_share_rise(self) -> u64
        ensures value { (t : Trail) → AreCounted self t → HoldersAreThere t → result ≡ active_share_rise t }
        ensures bound { result < 2 ^ 35 }
    {
        4 * u64::from(self.taken) + SHARE_BESIDE
    }

    /// The marks with those that an event and all ends may make.
    pub fn marks_needed(self, marks: u32) -> u64
        ensures { (t : Trail) → AreCounted self t → HoldersAreThere t → result ≡ marks_needed t marks }
    {
        u64::from(marks)
            + u64::from(self.connections)
            + u64::from(self.controlled)
            + 4 * u64::from(self.locks)
            + 4 * u64::from(self.opened)
            + 32 * u64::from(self.taken)
            + 8 * u64::from(self.present)
            + 4 * u64::from(self.users)
            + MARKS_IN_RESERVE
    }
}
