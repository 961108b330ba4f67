// Small settings and notices, and what is read for them.

ghost use Rattle.std.specs.Prelude.{◌≡◌};
ghost use Rattle.login_model.specs.Devices.{is_live};
ghost use Rattle.login_model.specs.Facts.{controller_in, handle_in};
ghost use Rattle.login_model.specs.Procedure.{tell_controller};
ghost use Rattle.login_model.specs.Trail.{put, tell_all, value};
ghost use Rattle.switch_core.specs.inner.Ahead.{Fits, marked_by};
ghost use Rattle.switch_core.specs.inner.HandedOn.{controller_fact};

use crate::ahead::Ahead;
use login_base::{ConnId, DevNo, HandleNo, SessId};
use login_model::{Fact, Key, Look, Notice, Owner, Whom};

#[tactic(auto, using(crate::proofs::Growing::growing))]
impl<'a, F: Look> Ahead<'a, F> {
    /// The handle with which a session has taken a device.
    pub fn handle_of(&self, session: SessId, device: DevNo) -> Option<HandleNo>
        ensures { result ≡ handle_in (value self.now.trail (Key.Taken session device)) }
    {
        self.fact(&Key::Taken(session, device)).handle()
    }

    /// The connection that controls a session.
    pub fn controller(&self, session: SessId) -> Option<ConnId>
        ensures { result ≡ controller_in (value self.now.trail (Key.Ctl session)) }
    {
        self.fact(&Key::Ctl(session)).controller()
    }

    /// Whether a handle gives access to its device.
    pub fn is_live(&self, handle: HandleNo) -> bool
        ensures { result ≡ is_live self.now.trail handle }
    {
        self.fact(&Key::Live(handle)).is_set()
    }

    /// There is nothing under a key.
    pub fn put_absent(&mut self, key: Key)
        requires room { Fits (put key Fact.Absent) self.old }
        ensures marked { self.new ≡ marked_by (put key Fact.Absent) self.old }
    {
        self.put(key, Fact::Absent);
    }

    /// A key has a flag.
    pub fn put_flag(&mut self, key: Key, is_so: bool)
        requires room { Fits (put key (Fact.Flag is_so)) self.old }
        ensures marked { self.new ≡ marked_by (put key (Fact.Flag is_so)) self.old }
    {
        self.put(key, Fact::Flag(is_so));
    }

    /// A key has a number.
    pub fn put_number(&mut self, key: Key, number: u32)
        requires room { Fits (put key (Fact.Number number)) self.old }
        ensures marked { self.new ≡ marked_by (put key (Fact.Number number)) self.old }
    {
        self.put(key, Fact::Number(number));
    }

    /// A handle is one of a device, which a session of this controller has taken.
    pub fn put_owner(&mut self, handle: HandleNo, who: ConnId, session: SessId, device: DevNo)
        requires room { Fits (put (Key.Owner handle) (Fact.Owned (Owner.Device who session device))) self.old }
        ensures marked { self.new ≡ marked_by (put (Key.Owner handle) (Fact.Owned (Owner.Device who session device))) self.old }
    {
        self.put(
            Key::Owner(handle),
            Fact::Owned(Owner::Device(who, session, device)),
        );
    }

    /// A session has taken a device with a handle.
    pub fn put_handle(&mut self, session: SessId, device: DevNo, handle: HandleNo)
        requires room { Fits (put (Key.Taken session device) (Fact.Handle handle)) self.old }
        ensures marked { self.new ≡ marked_by (put (Key.Taken session device) (Fact.Handle handle)) self.old }
    {
        self.put(Key::Taken(session, device), Fact::Handle(handle));
    }

    /// Sends a notice to all.
    pub fn tell_all(&mut self, notice: Notice)
        requires room { Fits (tell_all notice) self.old }
        ensures marked { self.new ≡ marked_by (tell_all notice) self.old }
    {
        self.tell(Whom::All, notice);
    }

    /// Sends a notice to a controller, if there is one.
    pub fn tell_controller(&mut self, controller: Option<ConnId>, notice: Notice)
        requires room { Fits (tell_controller (controller_fact controller) notice) self.old }
        ensures marked { self.new ≡ marked_by (tell_controller (controller_fact controller) notice) self.old }
    {
        if let Some(who) = controller {
            self.tell(Whom::One(who), notice);
        }
    }
}
