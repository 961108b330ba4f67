// How devices are taken from sessions by force, and come back.

ghost use Rattle.std.specs.Prelude.{◌≡◌};
ghost use Rattle.login_model.specs.Trail.{value, put};
ghost use Rattle.login_model.specs.Fresh.{next_handle};
ghost use Rattle.login_model.specs.Devices.{taken_devices};
ghost use Rattle.login_model.specs.Procedure.{if_some, yes, no, tell_controller, force_handle, force_device, force, renew, revive, resume_handle, resume_device, resume};
ghost use Rattle.login_model.specs.declared.fact.Key.TheVariants.{Taken};
ghost use Rattle.login_laws.proofs.Carried.{force_handle-carried, resume_handle-carried};
ghost use Rattle.login_laws.proofs.Grows.{grows};
ghost use Rattle.switch_core.specs.inner.HandedOn.{handle_fact, controller_fact, kind_fact};
ghost use Rattle.login_model.specs.Facts.{device_kind_in};
ghost use Rattle.switch_core.specs.inner.Ahead.{Anything, Fits, marked_by};
ghost use Rattle.switch_core.specs.Handles.{IsNumbered};
ghost use Rattle.switch_core.specs.inner.Keeping.{Keeps, is_switching};

use crate::ahead::Ahead;
use crate::rounds::Task;
use login_base::{ConnId, DevNo, HandleNo, SessId};
use login_model::{DevKind, Fact, Key, Look, Notice, PauseKind, Whom};

/// A live device of a session is taken from it by force.
#[derive(Drop)]
struct Force(SessId);

impl Task for Force {
    ghost does = { λ x d t. force_device x.0 d t };

    ghost suits = { λ x. Anything };

    fn run<F: Look>(&self, ahead: &mut Ahead<'_, F>, device: DevNo) {
        ahead.force_device(self.0, device);
    }

    ghost adds = { λ x d t. force_handle-carried grows x.0 d (value t (Taken x.0 d)) t };
}

/// A device of a session comes back to it.
#[derive(Drop)]
struct Resume(SessId);

impl Task for Resume {
    ghost does = { λ x d t. resume_device x.0 d t };

    ghost suits = { λ x. IsNumbered };

    fn run<F: Look>(&self, ahead: &mut Ahead<'_, F>, device: DevNo) {
        ahead.resume_device(self.0, device);
    }

    ghost adds = { λ x d t. resume_handle-carried grows x.0 d (value t (Taken x.0 d)) t };
}

#[tactic(auto, using(crate::proofs::Growing::growing))]
impl<'a, F: Look> Ahead<'a, F> {
    /// A live handle is dead, and the controller is told.
    fn force_live(&mut self, session: SessId, device: DevNo, handle: HandleNo)
        requires room { Fits (λ t. tell_controller (value t (Key.Ctl session)) (Notice.Pause session device PauseKind.Force) (put (Key.Live handle) no t)) self.old }
        ensures marked { self.new ≡ marked_by (λ t. tell_controller (value t (Key.Ctl session)) (Notice.Pause session device PauseKind.Force) (put (Key.Live handle) no t)) self.old }
    {
        let controller = self.controller(session);
        self.put_flag(Key::Live(handle), false);
        self.tell_controller(controller, Notice::Pause(session, device, PauseKind::Force));
    }

    fn force_handle(&mut self, session: SessId, device: DevNo, taken: Option<HandleNo>)
        requires room { Fits (force_handle session device (handle_fact taken)) self.old }
        ensures marked { self.new ≡ marked_by (force_handle session device (handle_fact taken)) self.old }
    {
        if let Some(handle) = taken {
            if self.is_live(handle) {
                self.force_live(session, device, handle);
            }
        }
    }

    fn force_device(&mut self, session: SessId, device: DevNo)
        requires room { Fits (force_device session device) self.old }
        ensures marked { self.new ≡ marked_by (force_device session device) self.old }
    {
        let taken = self.handle_of(session, device);
        self.force_handle(session, device, taken);
    }

    /// The live handles of a session's devices are dead.
    #[tactic(auto, using(crate::proofs::Growing::growing), unfolding(login_model::specs::Procedure::force, login_model::specs::Devices::taken_devices))]
    pub fn force(&mut self, session: SessId)
        requires stays { Keeps is_switching self.old.before self.old.trail }
        requires room { Fits (force session) self.old }
        ensures marked { self.new ≡ marked_by (force session) self.old }
    {
        self.for_each(session, &Force(session));
    }

    /// A dead evdev handle stays dead: the session gets a fresh one, and its controller is told.
    fn renew(
        &mut self,
        session: SessId,
        device: DevNo,
        handle: HandleNo,
        controller: Option<ConnId>,
    )
        requires room { Fits (renew session device handle (controller_fact controller)) self.old }
        ensures marked { self.new ≡ marked_by (renew session device handle (controller_fact controller)) self.old }
    {
        if let Some(who) = controller {
            self.put_owner(handle, who, session, device);
            self.put_flag(Key::Live(handle), true);
            self.put_handle(session, device, handle);
            self.tell(Whom::One(who), Notice::Resume(session, device, handle));
        }
    }

    /// A fresh handle, in place of a dead one of an evdev device.
    fn renew_dead(&mut self, session: SessId, device: DevNo)
        requires numbered { IsNumbered self.old.trail }
        requires room { Fits (λ t. renew session device (next_handle t) (value t (Key.Ctl session)) t) self.old }
        ensures marked { self.new ≡ marked_by (λ t. renew session device (next_handle t) (value t (Key.Ctl session)) t) self.old }
    {
        let controller = self.controller(session);
        let fresh = self.fresh_handle();
        self.renew(session, device, fresh, controller);
    }

    fn tell_resumed(&mut self, session: SessId, device: DevNo, handle: HandleNo)
        requires room { Fits (λ t. tell_controller (value t (Key.Ctl session)) (Notice.Resume session device handle) t) self.old }
        ensures marked { self.new ≡ marked_by (λ t. tell_controller (value t (Key.Ctl session)) (Notice.Resume session device handle) t) self.old }
    {
        let controller = self.controller(session);
        self.tell_controller(controller, Notice::Resume(session, device, handle));
    }

    /// A dead handle of a DRM device is live again, and the controller is told.
    fn revive_dead(&mut self, session: SessId, device: DevNo, handle: HandleNo)
        requires room { Fits (λ t. tell_controller (value t (Key.Ctl session)) (Notice.Resume session device handle) (put (Key.Live handle) yes t)) self.old }
        ensures marked { self.new ≡ marked_by (λ t. tell_controller (value t (Key.Ctl session)) (Notice.Resume session device handle) (put (Key.Live handle) yes t)) self.old }
    {
        let controller = self.controller(session);
        self.put_flag(Key::Live(handle), true);
        self.tell_controller(controller, Notice::Resume(session, device, handle));
    }

    /// A dead handle of a device of this kind comes back, or is renewed.
    fn revive(&mut self, session: SessId, device: DevNo, handle: HandleNo, kind: Option<DevKind>)
        requires numbered { IsNumbered self.old.trail }
        requires room { Fits (revive session device handle (kind_fact kind)) self.old }
        ensures marked { self.new ≡ marked_by (revive session device handle (kind_fact kind)) self.old }
    {
        if let Some(kind) = kind {
            match kind {
                DevKind::Drm => self.revive_dead(session, device, handle),
                DevKind::Evdev => self.renew_dead(session, device),
            }
        }
    }

    fn revive_device(&mut self, session: SessId, device: DevNo, handle: HandleNo)
        requires numbered { IsNumbered self.old.trail }
        requires room { Fits (λ t. revive session device handle (value t (Key.Dev device)) t) self.old }
        ensures marked { self.new ≡ marked_by (λ t. revive session device handle (value t (Key.Dev device)) t) self.old }
    {
        let kind = self.fact(&Key::Dev(device)).device_kind();
        self.revive(session, device, handle, kind);
    }

    fn resume_handle(&mut self, session: SessId, device: DevNo, taken: Option<HandleNo>)
        requires numbered { IsNumbered self.old.trail }
        requires room { Fits (resume_handle session device (handle_fact taken)) self.old }
        ensures marked { self.new ≡ marked_by (resume_handle session device (handle_fact taken)) self.old }
    {
        if let Some(handle) = taken {
            if self.is_live(handle) {
                self.tell_resumed(session, device, handle);
            } else {
                self.revive_device(session, device, handle);
            }
        }
    }

    fn resume_device(&mut self, session: SessId, device: DevNo)
        requires numbered { IsNumbered self.old.trail }
        requires room { Fits (resume_device session device) self.old }
        ensures marked { self.new ≡ marked_by (resume_device session device) self.old }
    {
        let taken = self.handle_of(session, device);
        self.resume_handle(session, device, taken);
    }

    /// The handles of a session's devices are live, and its controller is told of each.
    #[tactic(auto, using(crate::proofs::Growing::growing), unfolding(login_model::specs::Procedure::resume, login_model::specs::Devices::taken_devices))]
    pub fn resume(&mut self, session: SessId)
        requires stays { Keeps is_switching self.old.before self.old.trail }
        requires numbered { IsNumbered (resume session self.old.trail) }
        requires room { Fits (resume session) self.old }
        ensures marked { self.new ≡ marked_by (resume session) self.old }
    {
        self.for_each(session, &Resume(session));
    }

    /// The live handles of a session's devices are dead, if there is a session.
    pub fn force_some(&mut self, session: Option<SessId>)
        requires stays { Keeps is_switching self.old.before self.old.trail }
        requires room { Fits (if_some force session) self.old }
        ensures marked { self.new ≡ marked_by (if_some force session) self.old }
    {
        if let Some(session) = session {
            self.force(session);
        }
    }

    /// The handles of a session's devices are live, if there is a session.
    pub fn resume_some(&mut self, session: Option<SessId>)
        requires stays { Keeps is_switching self.old.before self.old.trail }
        requires numbered { IsNumbered (if_some resume session self.old.trail) }
        requires room { Fits (if_some resume session) self.old }
        ensures marked { self.new ≡ marked_by (if_some resume session) self.old }
    {
        if let Some(session) = session {
            self.resume(session);
        }
    }
}
