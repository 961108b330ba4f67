// How handles close.

ghost use Rattle.std.specs.Prelude.{◌≡◌, if◌then◌else◌, true};
ghost use Rattle.login_model.specs.Trail.{value, put};
ghost use Rattle.login_model.specs.Where.{is_open};
ghost use Rattle.login_model.specs.Procedure.{untake, shut};
ghost use Rattle.login_model.specs.Direct.{is_this_handle, close_handle, close_owned, close};
ghost use Rattle.login_core.specs.inner.Texts.{AreSome};
ghost use Rattle.login_core.specs.inner.Handles.{owner_fact, AreForClosing};
ghost use Rattle.login_model.specs.Facts.{owner_in};
ghost use Rattle.login_core.specs.inner.Draft.{marked_by, Fits};

use crate::board::Draft;
use crate::room::copies::Copies;
use login_base::{DevNo, HandleNo, LockNo, SessId};
use login_model::{Fact, Key, Look, Owner};

#[tactic(auto, using(crate::proofs::Growing::growing))]
impl Draft {
    /// Nobody has the handle any more.
    fn close_handle(&mut self, handle: HandleNo)
        requires room { Fits (close_handle handle) self.old }
        ensures marked { self.new ≡ marked_by (close_handle handle) self.old }
    {
        self.put_owner(handle, Owner::Closed);
    }

    /// The session that the handle kept open is shut.
    fn close_fifo(&mut self, handle: HandleNo, session: SessId, closing: Option<Copies>)
        requires closing { is_open self.old.trail session ≡ true → AreSome (value self.old.trail (Key.Sess session)) closing }
        requires room { Fits (λ t. shut session (close_handle handle t)) self.old }
        ensures marked { self.new ≡ marked_by (λ t. shut session (close_handle handle t)) self.old }
    {
        self.close_handle(handle);
        self.shut(session, closing);
    }

    /// The lock that the handle kept is gone.
    fn close_lock(&mut self, handle: HandleNo, lock: LockNo)
        requires room { Fits (λ t. close_handle handle (put (Key.Lock lock) Fact.Absent t)) self.old }
        ensures marked { self.new ≡ marked_by (λ t. close_handle handle (put (Key.Lock lock) Fact.Absent t)) self.old }
    {
        self.put_absent(Key::Lock(lock));
        self.close_handle(handle);
    }

    /// A device that is taken with this handle is not taken.
    fn untake_with(&mut self, handle: HandleNo, session: SessId, device: DevNo)
        requires room { Fits (λ t. if is_this_handle handle (value t (Key.Taken session device)) then untake session device t else t) self.old }
        ensures marked { self.new ≡ marked_by (λ t. if is_this_handle handle (value t (Key.Taken session device)) then untake session device t else t) self.old }
    {
        if self
            .fact(&Key::Taken(session, device))
            .is_this_handle(handle)
        {
            self.untake(session, device);
        }
    }

    fn close_device(&mut self, handle: HandleNo, session: SessId, device: DevNo)
        requires room { Fits (λ t. close_handle handle (if is_this_handle handle (value t (Key.Taken session device)) then untake session device t else t)) self.old }
        ensures marked { self.new ≡ marked_by (λ t. close_handle handle (if is_this_handle handle (value t (Key.Taken session device)) then untake session device t else t)) self.old }
    {
        self.untake_with(handle, session, device);
        self.close_handle(handle);
    }

    fn close_owned(&mut self, handle: HandleNo, owner: Option<Owner>, closing: Option<Copies>)
        requires closing { AreForClosing self.old.trail (owner_fact owner) closing }
        requires room { Fits (close_owned handle (owner_fact owner)) self.old }
        ensures marked { self.new ≡ marked_by (close_owned handle (owner_fact owner)) self.old }
    {
        if let Some(Owner::Fifo(_, session)) = owner {
            self.close_fifo(handle, session, closing);
            return;
        }
        drop(closing);
        match owner {
            Some(Owner::Lock(_, lock)) => self.close_lock(handle, lock),
            Some(Owner::Device(_, session, device)) => self.close_device(handle, session, device),
            _ => {}
        }
    }

    /// A handle is closed, and what it kept goes with it. An open session that it kept open needs the
    /// copies of its texts.
    pub fn close(&mut self, handle: HandleNo, closing: Option<Copies>)
        requires closing { AreForClosing self.old.trail (value self.old.trail (Key.Owner handle)) closing }
        requires room { Fits (close handle) self.old }
        ensures marked { self.new ≡ marked_by (close handle) self.old }
    {
        let owner = self.fact(&Key::Owner(handle)).owner();
        self.close_owned(handle, owner, closing);
    }
}
