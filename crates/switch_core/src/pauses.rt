// How pauses are acknowledged, and devices given back.

ghost use Rattle.std.specs.Prelude.{◌≡◌};
ghost use Rattle.login_model.specs.Procedure.{kill, no, untake};
ghost use Rattle.login_model.specs.Taking.{acknowledge};
ghost use Rattle.login_model.specs.Trail.{put, value};
ghost use Rattle.switch_core.specs.inner.Ahead.{Fits, marked_by};
ghost use Rattle.switch_core.specs.inner.HandedOn.{handle_fact};

use crate::ahead::Ahead;
use login_base::{DevNo, HandleNo, SessId};
use login_model::{Key, Look};

#[tactic(auto, using(crate::proofs::Growing::growing))]
impl<'a, F: Look> Ahead<'a, F> {
    /// The handle of a taken device is dead.
    fn make_dead(&mut self, taken: Option<HandleNo>)
        requires room { Fits (kill (handle_fact taken)) self.old }
        ensures marked { self.new ≡ marked_by (kill (handle_fact taken)) self.old }
    {
        if let Some(handle) = taken {
            self.put_flag(Key::Live(handle), false);
        }
    }

    /// A device is no longer taken: its handle is dead, and its pause is not awaited.
    pub fn untake(&mut self, session: SessId, device: DevNo)
        requires room { Fits (untake session device) self.old }
        ensures marked { self.new ≡ marked_by (untake session device) self.old }
    {
        let taken = self.handle_of(session, device);
        self.make_dead(taken);
        self.put_flag(Key::Awaited(session, device), false);
        self.put_absent(Key::Taken(session, device));
    }

    /// A pause is awaited no more, and the handle is dead.
    fn end_pause(&mut self, session: SessId, device: DevNo)
        requires room { Fits (λ t. kill (value t (Key.Taken session device)) (put (Key.Awaited session device) no t)) self.old }
        ensures marked { self.new ≡ marked_by (λ t. kill (value t (Key.Taken session device)) (put (Key.Awaited session device) no t)) self.old }
    {
        let taken = self.handle_of(session, device);
        self.put_flag(Key::Awaited(session, device), false);
        self.make_dead(taken);
    }

    /// A pause that is awaited is acknowledged.
    #[tactic(auto, unfolding(login_model::specs::Taking::acknowledge))]
    pub fn acknowledge(&mut self, session: SessId, device: DevNo)
        requires room { Fits (acknowledge session device) self.old }
        ensures marked { self.new ≡ marked_by (acknowledge session device) self.old }
    {
        if self.fact(&Key::Awaited(session, device)).is_set() {
            self.end_pause(session, device);
        }
    }
}
