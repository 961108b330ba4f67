// How seat0 is asked to go to another virtual terminal.

ghost use Rattle.std.specs.Prelude.{◌≡◌};
ghost use Rattle.login_model.specs.Trail.{value, put};
ghost use Rattle.login_model.specs.Start.{seat0};
ghost use Rattle.login_model.specs.Where.{active_on};
ghost use Rattle.login_model.specs.Devices.{taken_devices};
ghost use Rattle.login_model.specs.Procedure.{if_some, yes, no, tell_controller, resume};
ghost use Rattle.login_model.specs.Facts.{is_number_fact};
ghost use Rattle.login_model.specs.Switching.{await_handle, await_device, await_devices, unawait_devices, ask_switch, withdraw_switch, request};
ghost use Rattle.login_model.specs.declared.fact.Key.TheVariants.{Taken, Awaited};
ghost use Rattle.login_laws.proofs.Carried.{await_handle-carried};
ghost use Rattle.login_laws.proofs.Grows.{grows, grows-switched, put-grows};
ghost use Rattle.switch_core.specs.inner.HandedOn.{handle_fact};
ghost use Rattle.switch_core.specs.inner.Ahead.{Anything, Fits, marked_by};
ghost use Rattle.switch_core.specs.Handles.{IsNumbered};
ghost use Rattle.switch_core.specs.inner.Keeping.{Keeps, is_switching};

use crate::ahead::Ahead;
use crate::rounds::Task;
use login_base::{DevNo, HandleNo, SessId};
use login_model::{Fact, Key, Look, Notice, PauseKind};

/// The pause of a session's device is awaited, if it is live.
#[derive(Drop)]
struct Await(SessId);

impl Task for Await {
    ghost does = { λ x d t. await_device x.0 d t };

    ghost suits = { λ x. Anything };

    fn run<F: Look>(&self, ahead: &mut Ahead<'_, F>, device: DevNo) {
        ahead.await_device(self.0, device);
    }

    ghost adds = { λ x d t. await_handle-carried grows grows-switched x.0 d (value t (Taken x.0 d)) t };
}

/// The pause of a session's device is not awaited.
#[derive(Drop)]
struct Unawait(SessId);

impl Task for Unawait {
    ghost does = { λ x d t. put (Awaited x.0 d) no t };

    ghost suits = { λ x. Anything };

    fn run<F: Look>(&self, ahead: &mut Ahead<'_, F>, device: DevNo) {
        ahead.put_flag(Key::Awaited(self.0, device), false);
    }

    ghost adds = { λ x d t. put-grows (Awaited x.0 d) no t };
}

#[tactic(auto, using(crate::proofs::Growing::growing))]
impl<'a, F: Look> Ahead<'a, F> {
    /// A live device is to be let go of: that is awaited, and the controller is told.
    fn await_live(&mut self, session: SessId, device: DevNo)
        requires room { Fits (λ t. tell_controller (value t (Key.Ctl session)) (Notice.Pause session device PauseKind.Pause) (put (Key.Awaited session device) yes t)) self.old }
        ensures marked { self.new ≡ marked_by (λ t. tell_controller (value t (Key.Ctl session)) (Notice.Pause session device PauseKind.Pause) (put (Key.Awaited session device) yes t)) self.old }
    {
        let controller = self.controller(session);
        self.put_flag(Key::Awaited(session, device), true);
        self.tell_controller(controller, Notice::Pause(session, device, PauseKind::Pause));
    }

    fn await_handle(&mut self, session: SessId, device: DevNo, taken: Option<HandleNo>)
        requires room { Fits (await_handle session device (handle_fact taken)) self.old }
        ensures marked { self.new ≡ marked_by (await_handle session device (handle_fact taken)) self.old }
    {
        if let Some(handle) = taken {
            if self.is_live(handle) {
                self.await_live(session, device);
            }
        }
    }

    fn await_device(&mut self, session: SessId, device: DevNo)
        requires room { Fits (await_device session device) self.old }
        ensures marked { self.new ≡ marked_by (await_device session device) self.old }
    {
        let taken = self.handle_of(session, device);
        self.await_handle(session, device, taken);
    }

    /// The pauses of a session's live devices are awaited.
    #[tactic(auto, using(crate::proofs::Growing::growing), unfolding(login_model::specs::Switching::await_devices, login_model::specs::Devices::taken_devices))]
    fn await_devices(&mut self, session: SessId)
        requires stays { Keeps is_switching self.old.before self.old.trail }
        requires room { Fits (await_devices session) self.old }
        ensures marked { self.new ≡ marked_by (await_devices session) self.old }
    {
        self.for_each(session, &Await(session));
    }

    /// No pause of a session's devices is awaited.
    #[tactic(auto, using(crate::proofs::Growing::growing), unfolding(login_model::specs::Switching::unawait_devices, login_model::specs::Devices::taken_devices))]
    fn unawait_devices(&mut self, session: SessId)
        requires stays { Keeps is_switching self.old.before self.old.trail }
        requires room { Fits (unawait_devices session) self.old }
        ensures marked { self.new ≡ marked_by (unawait_devices session) self.old }
    {
        self.for_each(session, &Unawait(session));
    }

    fn await_some(&mut self, session: Option<SessId>)
        requires stays { Keeps is_switching self.old.before self.old.trail }
        requires room { Fits (if_some await_devices session) self.old }
        ensures marked { self.new ≡ marked_by (if_some await_devices session) self.old }
    {
        if let Some(session) = session {
            self.await_devices(session);
        }
    }

    fn unawait_some(&mut self, session: Option<SessId>)
        requires stays { Keeps is_switching self.old.before self.old.trail }
        requires room { Fits (if_some unawait_devices session) self.old }
        ensures marked { self.new ≡ marked_by (if_some unawait_devices session) self.old }
    {
        if let Some(session) = session {
            self.unawait_devices(session);
        }
    }

    /// Another terminal is asked for, and the pauses of the active session's devices are awaited.
    fn begin_switch(&mut self, vt: u32)
        requires stays { Keeps is_switching self.old.before self.old.trail }
        requires room { Fits (λ t. if_some await_devices (active_on t seat0) (put Key.Pending (Fact.Number vt) t)) self.old }
        ensures marked { self.new ≡ marked_by (λ t. if_some await_devices (active_on t seat0) (put Key.Pending (Fact.Number vt) t)) self.old }
    {
        let active = self.active();
        self.put_number(Key::Pending, vt);
        self.await_some(active);
    }

    /// A switch goes to another terminal, or begins.
    fn ask_switch(&mut self, vt: u32, was_pending: bool)
        requires stays { Keeps is_switching self.old.before self.old.trail }
        requires room { Fits (ask_switch vt was_pending) self.old }
        ensures marked { self.new ≡ marked_by (ask_switch vt was_pending) self.old }
    {
        if was_pending {
            self.put_number(Key::Pending, vt);
        } else {
            self.begin_switch(vt);
        }
    }

    /// No switch is pending, no pause is awaited, and the active session goes on.
    fn withdraw_switch(&mut self)
        requires stays { Keeps is_switching self.old.before self.old.trail }
        requires numbered { IsNumbered (withdraw_switch self.old.trail) }
        requires room { Fits withdraw_switch self.old }
        ensures marked { self.new ≡ marked_by withdraw_switch self.old }
    {
        let active = self.active();
        self.put_absent(Key::Pending);
        self.unawait_some(active);
        self.resume_some(active);
    }

    /// Whether a switch of virtual terminals is pending.
    fn is_pending(&self) -> bool
        ensures { result ≡ is_number_fact (value self.now.trail Key.Pending) }
    {
        self.fact(&Key::Pending).is_number()
    }

    /// Another terminal is asked for; the current one withdraws a switch that is pending.
    #[tactic(auto, unfolding(login_model::specs::Switching::request))]
    pub fn request(&mut self, vt: u32)
        requires stays { Keeps is_switching self.old.before self.old.trail }
        requires numbered { IsNumbered (request vt self.old.trail) }
        requires room { Fits (request vt) self.old }
        ensures marked { self.new ≡ marked_by (request vt) self.old }
    {
        let is_pending = self.is_pending();
        if vt == self.current_vt() {
            if is_pending {
                self.withdraw_switch();
            }
        } else {
            self.ask_switch(vt, is_pending);
        }
    }
}
