// Small settings and notices, and what is read for them.

ghost use Rattle.std.specs.Prelude.{◌≡◌};
ghost use Rattle.login_model.specs.Trail.{value, put, tell_all};
ghost use Rattle.login_model.specs.Procedure.{tell_controller};
ghost use Rattle.login_core.specs.inner.HandedOn.{controller_fact};
ghost use Rattle.login_model.specs.Facts.{controller_in};
ghost use Rattle.login_core.specs.inner.Draft.{marked_by, Fits};
ghost use Rattle.login_facts.specs.Dues.{NamesKnown, WasConnected};

use crate::board::Draft;
use crate::room::slots::SeatSlots;
use login_base::{ConnId, DevNo, HandleNo, SeatName, SessId};
use login_model::{DevKind, Fact, Key, Look, Notice, Owner, Whom};

#[tactic(auto, using(crate::proofs::Growing::growing))]
impl Draft {
    /// The connection that controls a session.
    pub fn controller(&self, session: SessId) -> Option<ConnId>
        ensures { result ≡ controller_in (value self.now.trail (Key.Ctl session)) }
    {
        self.fact(&Key::Ctl(session)).controller()
    }

    /// There is nothing under a key.
    pub fn put_absent(&mut self, key: Key)
        requires room { Fits (put key Fact.Absent) self.old }
        ensures marked { self.new ≡ marked_by (put key Fact.Absent) self.old }
    {
        self.put(key, Fact::Absent, Fact::Absent);
    }

    /// A key has a flag.
    pub fn put_flag(&mut self, key: Key, is_so: bool)
        requires room { Fits (put key (Fact.Flag is_so)) self.old }
        ensures marked { self.new ≡ marked_by (put key (Fact.Flag is_so)) self.old }
    {
        self.put(key, Fact::Flag(is_so), Fact::Flag(is_so));
    }

    /// A key has a number.
    pub fn put_number(&mut self, key: Key, number: u32)
        requires room { Fits (put key (Fact.Number number)) self.old }
        ensures marked { self.new ≡ marked_by (put key (Fact.Number number)) self.old }
    {
        self.put(key, Fact::Number(number), Fact::Number(number));
    }

    /// A handle has an owner. A connection that owns it as a fifo was connected once.
    pub fn put_owner(&mut self, handle: HandleNo, owner: Owner)
        requires known { NamesKnown (Fact.Owned owner) self.old.trail }
        requires room { Fits (put (Key.Owner handle) (Fact.Owned owner)) self.old }
        ensures marked { self.new ≡ marked_by (put (Key.Owner handle) (Fact.Owned owner)) self.old }
    {
        self.put(Key::Owner(handle), Fact::Owned(owner), Fact::Owned(owner));
    }

    /// A session has taken a device with a handle.
    pub fn put_handle(&mut self, session: SessId, device: DevNo, handle: HandleNo)
        requires room { Fits (put (Key.Taken session device) (Fact.Handle handle)) self.old }
        ensures marked { self.new ≡ marked_by (put (Key.Taken session device) (Fact.Handle handle)) self.old }
    {
        self.put(
            Key::Taken(session, device),
            Fact::Handle(handle),
            Fact::Handle(handle),
        );
    }

    /// A connection, which was connected once, controls a session.
    pub fn put_controller(&mut self, session: SessId, who: ConnId)
        requires known { WasConnected self.old.trail who }
        requires room { Fits (put (Key.Ctl session) (Fact.Controller who)) self.old }
        ensures marked { self.new ≡ marked_by (put (Key.Ctl session) (Fact.Controller who)) self.old }
    {
        self.put(
            Key::Ctl(session),
            Fact::Controller(who),
            Fact::Controller(who),
        );
    }

    /// A session is the active one of a seat without virtual terminals.
    pub fn put_active(&mut self, seat: SeatName, session: SessId)
        requires room { Fits (put (Key.Act seat) (Fact.Active session)) self.old }
        ensures marked { self.new ≡ marked_by (put (Key.Act seat) (Fact.Active session)) self.old }
    {
        self.put(Key::Act(seat), Fact::Active(session), Fact::Active(session));
    }

    /// A seat is present.
    pub fn put_present(&mut self, seat: SeatName)
        requires room { Fits (put (Key.Seat seat) Fact.Present) self.old }
        ensures marked { self.new ≡ marked_by (put (Key.Seat seat) Fact.Present) self.old }
    {
        self.put(Key::Seat(seat), Fact::Present, Fact::Present);
    }

    /// A device of a kind is on a seat. The memory of the seat comes twice: for the mark and for the facts.
    pub fn put_device(&mut self, device: DevNo, kind: DevKind, seat: SeatName, slots: SeatSlots)
        requires room { Fits (put (Key.Dev device) (Fact.Device kind seat)) self.old }
        ensures marked { self.new ≡ marked_by (put (Key.Dev device) (Fact.Device kind seat)) self.old }
    {
        let SeatSlots { mark, fact } = slots;
        self.put(
            Key::Dev(device),
            Fact::Device(kind, mark.fill(seat)),
            Fact::Device(kind, fact.fill(seat)),
        );
    }

    /// Sends a notice to all.
    pub fn tell_all(&mut self, notice: Notice)
        requires room { Fits (tell_all notice) self.old }
        ensures marked { self.new ≡ marked_by (tell_all notice) self.old }
    {
        self.tell(Whom::All, notice);
    }

    /// Sends a notice to a controller, if there is one.
    pub fn tell_controller(&mut self, controller: Option<ConnId>, notice: Notice)
        requires room { Fits (tell_controller (controller_fact controller) notice) self.old }
        ensures marked { self.new ≡ marked_by (tell_controller (controller_fact controller) notice) self.old }
    {
        if let Some(who) = controller {
            self.tell(Whom::One(who), notice);
        }
    }
}
