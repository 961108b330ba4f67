// What tells facts.

ghost use Rattle.std.specs.Prelude.{◌≡◌, length, not};
ghost use Rattle.login_model.specs.Trail.{Trail, value};
ghost use Rattle.login_model.specs.Fresh.{next_handle};
ghost use Rattle.login_model.specs.Names.{IsNext, session_lt, user_lt, conn_lt, seat_lt, device_lt, lock_lt};
ghost use Rattle.login_model.specs.Where.{is_session, is_user, is_connected, is_seat, is_device, is_lock, sessions, connections, devices, locks, session_on};
ghost use Rattle.login_model.specs.Standing.{has_active, has_seat};
ghost use Rattle.login_model.specs.Locks.{matching};
ghost use Rattle.login_model.specs.Procedure.{is_empty};
ghost use Rattle.login_model.specs.Devices.{is_taken};

use crate::fact::{Fact, Key};
use crate::lock::LockMode;
use crate::operation::OpKind;
use login_base::{ConnId, DevNo, HandleNo, LockNo, SeatName, SessId, Uid};

/// What tells facts: it stands for a list of marks. None of its calls takes memory. Each `next` call
/// gives the least name above the one handed in, or the least of all for None; it answers None where
/// there is no such name. How many there are, and who is where, is answered without going over all names
/// where that is kept beside the facts.
pub trait Look {
    /// The marks that it stands for, the newest first.
    ghost trail: { Self → Trail };

    /// The fact of the last setting of the key, or the fact at the start.
    fn fact(&self, key: &Key) -> &Fact
        ensures { result.now ≡ value (trail self.now) key.now };

    /// The number of the next handle that is given out.
    fn fresh_handle(&self) -> HandleNo
        ensures { result ≡ next_handle (trail self.now) };

    /// The next session that is not gone.
    fn next_session(&self, after: Option<SessId>) -> Option<SessId>
        ensures { IsNext session_lt (is_session (trail self.now)) after result };

    /// The next user that is not absent.
    fn next_user(&self, after: Option<Uid>) -> Option<Uid>
        ensures { IsNext user_lt (is_user (trail self.now)) after result };

    /// The next seat that is present.
    fn next_seat(&self, after: Option<SeatName>) -> Option<SeatName>
        ensures { IsNext seat_lt (is_seat (trail self.now)) after result };

    /// The next device that is present.
    fn next_device(&self, after: Option<DevNo>) -> Option<DevNo>
        ensures { IsNext device_lt (is_device (trail self.now)) after result };

    /// The next device that a session has taken.
    fn next_taken(&self, session: SessId, after: Option<DevNo>) -> Option<DevNo>
        ensures { IsNext device_lt (is_taken (trail self.now) session) after result };

    /// The next session that has a device taken.
    fn next_taker(&self, device: DevNo, after: Option<SessId>) -> Option<SessId>
        ensures { IsNext session_lt (λ s. is_taken (trail self.now) s device) after result };

    /// The next lock that stands.
    fn next_lock(&self, after: Option<LockNo>) -> Option<LockNo>
        ensures { IsNext lock_lt (is_lock (trail self.now)) after result };

    /// The next connected connection.
    fn next_conn(&self, after: Option<ConnId>) -> Option<ConnId>
        ensures { IsNext conn_lt (is_connected (trail self.now)) after result };

    /// How many sessions are not gone.
    fn session_count(&self) -> u32
        ensures { result ≡ length (sessions (trail self.now)) };

    /// How many clients are connected.
    fn conn_count(&self) -> u32
        ensures { result ≡ length (connections (trail self.now)) };

    /// How many devices are there.
    fn device_count(&self) -> u32
        ensures { result ≡ length (devices (trail self.now)) };

    /// How many locks stand.
    fn lock_count(&self) -> u32
        ensures { result ≡ length (locks (trail self.now)) };

    /// Whether a lock of a mode stands that holds up an operation.
    fn is_held_up(&self, kind: OpKind, mode: LockMode) -> bool
        ensures { result ≡ not (is_empty (matching (trail self.now) kind mode)) };

    /// The open session of seat0 that has a virtual terminal.
    fn on_terminal(&self, vt: u32) -> Option<SessId>
        ensures { result ≡ session_on (trail self.now) vt };

    /// Whether an open session of a user has a seat.
    fn is_seated(&self, uid: u32) -> bool
        ensures { result ≡ has_seat (trail self.now) uid };

    /// Whether an open session of a user is active on its seat.
    fn is_active_user(&self, uid: u32) -> bool
        ensures { result ≡ has_active (trail self.now) uid };
}
