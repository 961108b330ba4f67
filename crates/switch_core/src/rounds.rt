// Doing the same with each device that a session has taken, in order.

ghost use Rattle.std.specs.Prelude.{◌≡◌};
ghost use Rattle.login_base.specs.declared.ids.DevNo.{DevNo as AnyDevice};
ghost use Rattle.login_model.specs.Trail.{Trail};
ghost use Rattle.login_model.specs.Devices.{taken_devices};
ghost use Rattle.login_model.specs.Procedure.{each};
ghost use Rattle.login_laws.proofs.Grows.{Grows};
ghost use Rattle.switch_core.specs.inner.Ahead.{Fits, Suited, marked_by};
ghost use Rattle.switch_core.specs.inner.Keeping.{Keeps, is_switching};

use crate::ahead::Ahead;
use login_base::{DevNo, SessId};
use login_model::Look;

/// What is done with each of a session's devices.
pub trait Task {
    ghost does: { Self → AnyDevice → Trail → Trail };

    /// What has to hold of the marks so far, now and after each device.
    ghost suits: { Self → Trail → Type 0 };

    /// Does it with one device.
    fn run<F: Look>(&self, ahead: &mut Ahead<'_, F>, device: DevNo)
        requires room { Fits (does self.now device) ahead.old }
        requires suits { suits self.now ahead.old.trail }
        ensures marked { ahead.new ≡ marked_by (does self.now device) ahead.old };

    ghost adds: { (x : Self) (d : AnyDevice) (t : Trail) → Grows t (does x d t) };
}

impl<'a, F: Look> Ahead<'a, F> {
    /// A task is done with each device that a session has taken, in order. What was appended so far took and gave back
    /// none.
    pub fn for_each<X: Task>(&mut self, session: SessId, task: &X)
        requires stays { Keeps is_switching self.old.before self.old.trail }
        requires room { Fits (λ t. each (X.does task.now) (taken_devices t session) t) self.old }
        requires suited { Suited (X.suits task.now) (X.does task.now) }
        requires suits { X.suits task.now (each (X.does task.now) (taken_devices self.old.trail session) self.old.trail) }
        ensures marked { self.new ≡ marked_by (λ t. each (X.does task.now) (taken_devices t session) t) self.old }
    {
        let mut above = None;
        while let Some(device) = self.next_taken(session, above) {
            task.run(self, device);
            above = Some(device);
        }
    }
}
