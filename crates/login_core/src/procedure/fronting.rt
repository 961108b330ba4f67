// How a session becomes active on a seat without virtual terminals.

ghost use Rattle.std.specs.Prelude.{◌≡◌};
ghost use Rattle.login_model.specs.Where.{is_active, active_on};
ghost use Rattle.login_model.specs.Devices.{taken_devices};
ghost use Rattle.login_model.specs.Procedure.{if_some, force, resume, take_seat, front};
ghost use Rattle.login_core.specs.inner.Draft.{marked_by, Fits};

use crate::board::Draft;
use login_base::{SeatName, SessId};
use login_model::Notice;
use login_table::{active_on, is_active};

#[tactic(auto, using(crate::proofs::Growing::growing))]
impl Draft {
    /// The live handles of a session's devices are dead, if there is a session.
    pub fn force_some(&mut self, session: Option<SessId>)
        requires room { Fits (if_some force session) self.old }
        ensures marked { self.new ≡ marked_by (if_some force session) self.old }
    {
        if let Some(session) = session {
            self.force(session);
        }
    }

    /// A seat without virtual terminals has another active session, and all are told.
    pub fn take_seat(&mut self, seat: SeatName, session: SessId, old: Option<SessId>)
        requires room { Fits (take_seat seat session old) self.old }
        ensures marked { self.new ≡ marked_by (take_seat seat session old) self.old }
    {
        self.force_some(old);
        self.put_active(seat, session);
        self.tell_all(Notice::Active(seat, old, Some(session)));
    }

    fn come_front(&mut self, seat: SeatName, session: SessId)
        requires room { Fits (λ t. resume session (take_seat seat session (active_on t seat) t)) self.old }
        ensures marked { self.new ≡ marked_by (λ t. resume session (take_seat seat session (active_on t seat) t)) self.old }
    {
        let old = active_on(self, seat);
        self.take_seat(seat, session, old);
        self.resume(session);
    }

    /// A session becomes active on a seat without virtual terminals, unless it is.
    #[tactic(auto, unfolding(login_model::specs::Procedure::front))]
    pub fn front(&mut self, seat: SeatName, session: SessId)
        requires room { Fits (front seat session) self.old }
        ensures marked { self.new ≡ marked_by (front seat session) self.old }
    {
        if !is_active(self, session) {
            self.come_front(seat, session);
        }
    }
}
