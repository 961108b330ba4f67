// How sessions give back their devices.

ghost use Rattle.std.specs.Prelude.{◌≡◌};
ghost use Rattle.login_model.specs.Devices.{taken_devices};
ghost use Rattle.login_model.specs.Procedure.{untake, release, revoke, oust};
ghost use Rattle.login_laws.proofs.Widens.{untake-widens, revoke-widens};
ghost use Rattle.login_core.specs.inner.Draft.{marked_by, Fits};
ghost use Rattle.login_facts.specs.Dues.{WasConnected};

use crate::board::Draft;
use crate::board::rounds::{TakenBy, Task};
use login_base::{ConnId, DevNo, SessId};
use login_model::{Key, Look, Notice, PauseKind};

/// A session gives a device back.
#[derive(Drop)]
struct Untake(SessId);

impl Task<DevNo> for Untake {
    ghost does = { λ x d t. untake x.0 d t };

    ghost adds = { λ x d t. untake-widens x.0 d t };

    fn run(&mut self, draft: &mut Draft, device: DevNo) {
        draft.untake(self.0, device);
    }
}

/// A device goes from a session.
#[derive(Drop)]
struct Revoke(SessId);

impl Task<DevNo> for Revoke {
    ghost does = { λ x d t. revoke x.0 d t };

    ghost adds = { λ x d t. revoke-widens x.0 d t };

    fn run(&mut self, draft: &mut Draft, device: DevNo) {
        draft.revoke(self.0, device);
    }
}

#[tactic(auto, using(crate::proofs::Growing::growing))]
impl Draft {
    /// A session gives back its devices, and has no controller.
    #[tactic(auto, using(crate::proofs::Growing::growing), unfolding(login_model::specs::Procedure::release, login_model::specs::Devices::taken_devices))]
    pub fn release(&mut self, session: SessId)
        requires room { Fits (release session) self.old }
        ensures marked { self.new ≡ marked_by (release session) self.old }
    {
        self.for_each(&TakenBy(session), &mut Untake(session));
        self.put_absent(Key::Ctl(session));
    }

    /// A device goes from a session, whose controller is told.
    pub(crate) fn revoke(&mut self, session: SessId, device: DevNo)
        requires room { Fits (revoke session device) self.old }
        ensures marked { self.new ≡ marked_by (revoke session device) self.old }
    {
        let controller = self.controller(session);
        self.tell_controller(controller, Notice::Pause(session, device, PauseKind::Gone));
        self.untake(session, device);
    }

    /// Another connection takes control of a session by force.
    #[tactic(auto, using(crate::proofs::Growing::growing), unfolding(login_model::specs::Procedure::oust, login_model::specs::Devices::taken_devices))]
    pub fn oust(&mut self, session: SessId, who: ConnId)
        requires known { WasConnected self.old.trail who }
        requires room { Fits (oust session who) self.old }
        ensures marked { self.new ≡ marked_by (oust session who) self.old }
    {
        self.for_each(&TakenBy(session), &mut Revoke(session));
        self.put_controller(session, who);
    }
}
