// How sessions take devices, and set modes.

ghost use Rattle.std.specs.Prelude.{◌≡◌};
ghost use Rattle.login_model.specs.Trail.{value};
ghost use Rattle.login_model.specs.Fresh.{next_handle};
ghost use Rattle.login_model.specs.Taking.{enliven, set_mode, take_device};
ghost use Rattle.login_core.specs.inner.Handles.{owner_fact};
ghost use Rattle.login_core.specs.inner.Draft.{marked_by, Fits};

use crate::board::Draft;
use login_base::{ConnId, DevNo, HandleNo, SessId};
use login_model::{Fact, Key, Look, Owner};
use login_table::is_active;

#[tactic(auto, using(crate::proofs::Growing::growing))]
impl Draft {
    /// A handle is live, if it is to be.
    fn enliven(&mut self, handle: HandleNo, is_live: bool)
        requires room { Fits (enliven handle is_live) self.old }
        ensures marked { self.new ≡ marked_by (enliven handle is_live) self.old }
    {
        if is_live {
            self.put_flag(Key::Live(handle), true);
        }
    }

    /// A session takes a device with this handle, which is live where the session is active.
    #[tactic(auto, using(crate::proofs::Growing::growing), unfolding(login_model::specs::Taking::take_device))]
    fn take_with(&mut self, who: ConnId, session: SessId, device: DevNo, handle: HandleNo)
        requires room { Fits (take_device who session device handle) self.old }
        ensures marked { self.new ≡ marked_by (take_device who session device handle) self.old }
    {
        let is_live = is_active(self, session);
        self.put_owner(handle, Owner::Device(who, session, device));
        self.put_handle(session, device, handle);
        self.enliven(handle, is_live);
    }

    /// A session takes a device with a fresh handle.
    pub fn take_device(&mut self, who: ConnId, session: SessId, device: DevNo)
        requires room { Fits (λ t. take_device who session device (next_handle t) t) self.old }
        ensures marked { self.new ≡ marked_by (λ t. take_device who session device (next_handle t) t) self.old }
    {
        let handle = self.fresh_handle();
        self.take_with(who, session, device, handle);
    }

    fn set_mode_of(&mut self, owner: Option<Owner>, mode: u32)
        requires room { Fits (set_mode (owner_fact owner) mode) self.old }
        ensures marked { self.new ≡ marked_by (set_mode (owner_fact owner) mode) self.old }
    {
        if let Some(owner) = owner {
            match owner {
                Owner::Device(_, _, device) => self.put_number(Key::Mode(device), mode),
                Owner::Fifo(_, _) | Owner::Lock(_, _) | Owner::Closed => {}
            }
        }
    }

    /// The device of a handle is in a mode.
    pub fn set_mode(&mut self, handle: HandleNo, mode: u32)
        requires room { Fits (λ t. set_mode (value t (Key.Owner handle)) mode t) self.old }
        ensures marked { self.new ≡ marked_by (λ t. set_mode (value t (Key.Owner handle)) mode t) self.old }
    {
        let owner = self.fact(&Key::Owner(handle)).owner();
        self.set_mode_of(owner, mode);
    }
}
