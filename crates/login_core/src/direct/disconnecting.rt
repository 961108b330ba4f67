// How connections end.

ghost use Rattle.std.specs.Prelude.{◌≡◌};
ghost use Rattle.login_model.specs.Procedure.{each, release};
ghost use Rattle.login_model.specs.Direct.{controlled_by, unlock, disconnect};
ghost use Rattle.login_model.specs.Trail.{put};
ghost use Rattle.login_model.specs.declared.fact.Key.TheVariants.{Lock};
ghost use Rattle.login_model.specs.declared.fact.Fact.TheVariants.{Absent};
ghost use Rattle.login_laws.proofs.Widens.{put-widens, release-widens};
ghost use Rattle.login_laws.specs.Sound.{Fifos};
ghost use Rattle.login_core.specs.inner.Spares.{AreClosing};
ghost use Rattle.login_core.specs.inner.Draft.{marked_by, Fits};

use crate::board::Draft;
use crate::board::rounds::{ControlledBy, HeldBy, Task};
use crate::room::spares::Spares;
use login_base::{ConnId, LockNo, SessId};
use login_model::Key;

/// A session is given back by its controller.
#[derive(Drop)]
struct Release;

impl Task<SessId> for Release {
    ghost does = { λ x s t. release s t };

    ghost adds = { λ x s t. release-widens s t };

    fn run(&mut self, draft: &mut Draft, session: SessId) {
        draft.release(session);
    }
}

/// A lock is gone.
#[derive(Drop)]
struct DropLock;

impl Task<LockNo> for DropLock {
    ghost does = { λ x l t. put (Lock l) Absent t };

    ghost adds = { λ x l t. put-widens (Lock l) Absent t };

    fn run(&mut self, draft: &mut Draft, lock: LockNo) {
        draft.put_absent(Key::Lock(lock));
    }
}

#[tactic(auto, using(crate::proofs::Growing::growing))]
impl Draft {
    /// A connection gives back the sessions that it controls.
    fn release_controlled(&mut self, who: ConnId)
        requires room { Fits (λ t. each release (controlled_by t who) t) self.old }
        ensures marked { self.new ≡ marked_by (λ t. each release (controlled_by t who) t) self.old }
    {
        self.for_each(&ControlledBy(who), &mut Release);
    }

    /// The locks of a connection are gone.
    fn drop_locks(&mut self, who: ConnId)
        requires room { Fits (unlock who) self.old }
        ensures marked { self.new ≡ marked_by (unlock who) self.old }
    {
        self.for_each(&HeldBy(who), &mut DropLock);
    }

    /// A connection ends: it gives back what it controls, the sessions that it keeps open are shut, and
    /// its locks are gone.
    pub fn disconnect(&mut self, who: ConnId, closing: &mut Spares)
        requires fifos { Fifos self.old.trail }
        requires copies { AreClosing closing.old.items self.old.trail }
        requires room { Fits (disconnect who) self.old }
        ensures marked { self.new ≡ marked_by (disconnect who) self.old }
        ensures copies { AreClosing closing.new.items self.new.trail }
    {
        self.release_controlled(who);
        self.end_sessions(who, closing);
        self.drop_locks(who);
        self.put_absent(Key::Conn(who));
    }
}
