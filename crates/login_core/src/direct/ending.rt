// How the sessions of a user, of a seat and of a connection end.

ghost use Rattle.std.specs.Prelude.{◌≡◌};
ghost use Rattle.login_model.specs.Where.{sessions_of, sessions_on};
ghost use Rattle.login_model.specs.Procedure.{each, shut};
ghost use Rattle.login_model.specs.Direct.{end_sessions};
ghost use Rattle.login_laws.proofs.Widens.{shut-widens};
ghost use Rattle.login_laws.specs.Sound.{Fifos};
ghost use Rattle.login_core.specs.inner.Spares.{AreClosing};
ghost use Rattle.login_core.specs.inner.Draft.{marked_by, Fits};

use crate::board::Draft;
use crate::board::rounds::{KeptOpenBy, Task};
use crate::room::spares::Spares;
use login_base::{ConnId, SeatName, SessId, Uid};
use login_table::{OfUser, OnSeat};

/// A session is shut by the copies that are kept of its texts.
impl Task<SessId> for Spares {
    ghost does = { λ x s t. shut s t };

    ghost agrees = { λ x t. AreClosing x.items t };

    ghost adds = { λ x s t. shut-widens s t };

    fn run(&mut self, draft: &mut Draft, session: SessId) {
        draft.shut_kept(session, self);
    }
}

impl Draft {
    /// An open session closes, by the copies that are kept of its texts.
    pub fn shut_kept(&mut self, session: SessId, closing: &mut Spares)
        requires copies { AreClosing closing.old.items self.old.trail }
        requires room { Fits (shut session) self.old }
        ensures marked { self.new ≡ marked_by (shut session) self.old }
        ensures copies { AreClosing closing.new.items self.new.trail }
    {
        let copies = closing.take(session);
        self.shut(session, copies);
    }

    /// The sessions of a user close.
    #[tactic(auto, unfolding(login_model::specs::Where::sessions_of, login_model::specs::Where::sessions))]
    pub fn terminate_user(&mut self, user: Uid, closing: &mut Spares)
        requires copies { AreClosing closing.old.items self.old.trail }
        requires room { Fits (λ t. each shut (sessions_of t user.0) t) self.old }
        ensures marked { self.new ≡ marked_by (λ t. each shut (sessions_of t user.0) t) self.old }
        ensures copies { AreClosing closing.new.items self.new.trail }
    {
        self.for_each_that(OfUser(user), closing);
    }

    /// The sessions on a seat close.
    #[tactic(auto, unfolding(login_model::specs::Where::sessions_on, login_model::specs::Where::sessions))]
    pub fn terminate_seat(&mut self, seat: SeatName, closing: &mut Spares)
        requires copies { AreClosing closing.old.items self.old.trail }
        requires room { Fits (λ t. each shut (sessions_on t seat) t) self.old }
        ensures marked { self.new ≡ marked_by (λ t. each shut (sessions_on t seat) t) self.old }
        ensures copies { AreClosing closing.new.items self.new.trail }
    {
        self.for_each_that(OnSeat(seat), closing);
    }

    /// The sessions that a connection keeps open close.
    pub fn end_sessions(&mut self, who: ConnId, closing: &mut Spares)
        requires fifos { Fifos self.old.trail }
        requires copies { AreClosing closing.old.items self.old.trail }
        requires room { Fits (end_sessions who) self.old }
        ensures marked { self.new ≡ marked_by (end_sessions who) self.old }
        ensures copies { AreClosing closing.new.items self.new.trail }
    {
        self.for_each(&KeptOpenBy(who), closing);
    }
}
