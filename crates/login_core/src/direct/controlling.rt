// How connections take control of sessions, and sessions come to their seats.

ghost use Rattle.std.specs.Prelude.{◌≡◌};
ghost use Rattle.login_model.specs.Trail.{value};
ghost use Rattle.login_model.specs.Devices.{taken_devices};
ghost use Rattle.login_model.specs.Direct.{control_from, control, lock_session, unlock_session};
ghost use Rattle.login_core.specs.inner.HandedOn.{controller_fact};
ghost use Rattle.login_core.specs.inner.Draft.{marked_by, Fits};
ghost use Rattle.login_facts.specs.Dues.{WasConnected};

use crate::board::Draft;
use login_base::{ConnId, SessId};
use login_model::Notice;

#[tactic(auto, using(crate::proofs::Growing::growing))]
impl Draft {
    /// A connection takes control of a session: from another one, if there is one.
    fn control_from(&mut self, controller: Option<ConnId>, who: ConnId, session: SessId)
        requires known { WasConnected self.old.trail who }
        requires room { Fits (control_from (controller_fact controller) who session) self.old }
        ensures marked { self.new ≡ marked_by (control_from (controller_fact controller) who session) self.old }
    {
        match controller {
            Some(other) => {
                if !(other.0 == who.0) {
                    self.oust(session, who);
                }
            }
            None => self.put_controller(session, who),
        }
    }

    /// A connection takes control of a session, unless it has it.
    pub fn control(&mut self, who: ConnId, session: SessId)
        requires known { WasConnected self.old.trail who }
        requires room { Fits (control who session) self.old }
        ensures marked { self.new ≡ marked_by (control who session) self.old }
    {
        let controller = self.controller(session);
        self.control_from(controller, who, session);
    }

    /// A session's screen is to be locked.
    pub fn lock_session(&mut self, session: SessId)
        requires room { Fits (lock_session session) self.old }
        ensures marked { self.new ≡ marked_by (lock_session session) self.old }
    {
        self.tell_all(Notice::Lock(session));
    }

    /// A session's screen is to be unlocked.
    pub fn unlock_session(&mut self, session: SessId)
        requires room { Fits (unlock_session session) self.old }
        ensures marked { self.new ≡ marked_by (unlock_session session) self.old }
    {
        self.tell_all(Notice::Unlock(session));
    }
}
