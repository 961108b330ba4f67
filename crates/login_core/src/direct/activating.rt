// How sessions are brought to their seats.

ghost use Rattle.std.specs.Prelude.{◌≡◌, Some};
ghost use Rattle.login_model.specs.Trail.{value};
ghost use Rattle.login_model.specs.Switching.{request};
ghost use Rattle.login_model.specs.Turning.{vt_in};
ghost use Rattle.login_model.specs.Direct.{activate_on, activate};
ghost use Rattle.login_core.specs.inner.Draft.{marked_by, Fits};

use crate::board::Draft;
use login_base::{SeatName, SessId};
use login_model::{Fact, Key, Look};
use login_table::seat_of_session;

#[tactic(auto, using(crate::proofs::Growing::growing))]
impl Draft {
    /// The virtual terminal of a session, or 0.
    pub(crate) fn vt_of(&self, session: SessId) -> u32
        ensures { result ≡ vt_in (value self.now.trail (Key.Sess session)) }
    {
        self.fact(&Key::Sess(session)).vt()
    }

    /// The terminal of a session is asked for.
    fn request_terminal_of(&mut self, session: SessId)
        requires room { Fits (λ t. request (vt_in (value t (Key.Sess session))) t) self.old }
        ensures marked { self.new ≡ marked_by (λ t. request (vt_in (value t (Key.Sess session))) t) self.old }
    {
        let vt = self.vt_of(session);
        self.request(vt);
    }

    fn activate_at(&mut self, seat: SeatName, session: SessId)
        requires room { Fits (activate_on (Some seat) session) self.old }
        ensures marked { self.new ≡ marked_by (activate_on (Some seat) session) self.old }
    {
        if seat.is_seat0() {
            self.request_terminal_of(session);
        } else {
            self.front(seat, session);
        }
    }

    fn activate_on(&mut self, seat: Option<SeatName>, session: SessId)
        requires room { Fits (activate_on seat session) self.old }
        ensures marked { self.new ≡ marked_by (activate_on seat session) self.old }
    {
        if let Some(seat) = seat {
            self.activate_at(seat, session);
        }
    }

    /// A session is brought to its seat: on seat0 its terminal is asked for.
    #[tactic(auto, unfolding(login_model::specs::Direct::activate))]
    pub fn activate(&mut self, session: SessId)
        requires room { Fits (activate session) self.old }
        ensures marked { self.new ≡ marked_by (activate session) self.old }
    {
        let seat = seat_of_session(self, session);
        self.activate_on(seat, session);
    }
}
