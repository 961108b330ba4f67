// How devices come and go, and seats with them.

ghost use Rattle.std.specs.Prelude.{◌≡◌};
ghost use Rattle.login_model.specs.Trail.{put, tell_all};
ghost use Rattle.login_model.specs.Where.{sessions_on};
ghost use Rattle.login_model.specs.Procedure.{each, revoke, shut};
ghost use Rattle.login_model.specs.Taking.{add_device, appear_seat, has_graphics, lose_seat, remove_device, takers};
ghost use Rattle.login_laws.proofs.Widens.{revoke-widens};
ghost use Rattle.login_core.specs.inner.Spares.{AreClosing};
ghost use Rattle.login_core.specs.inner.HandedOn.{graphics_fact};
ghost use Rattle.login_core.specs.inner.Draft.{marked_by, Fits};

use crate::board::Draft;
use crate::board::rounds::{TakersOf, Task};
use crate::room::slots::SeatSlots;
use crate::room::spares::Spares;
use login_base::{DevNo, SeatName, SessId};
use login_model::{DevKind, Fact, Key, Look, Notice};
use login_table::IsGraphicsOn;

/// A device goes from a session.
#[derive(Drop)]
struct RevokeFrom(DevNo);

impl Task<SessId> for RevokeFrom {
    ghost does = { λ x s t. revoke s x.0 t };

    ghost adds = { λ x s t. revoke-widens s x.0 t };

    fn run(&mut self, draft: &mut Draft, session: SessId) {
        draft.revoke(session, self.0);
    }
}

#[tactic(auto, using(crate::proofs::Growing::growing))]
impl Draft {
    /// A seat is there, and all are told.
    fn bring_seat(&mut self, seat: SeatName)
        requires room { Fits (λ t. tell_all (Notice.SeatNew seat) (put (Key.Seat seat) Fact.Present t)) self.old }
        ensures marked { self.new ≡ marked_by (λ t. tell_all (Notice.SeatNew seat) (put (Key.Seat seat) Fact.Present t)) self.old }
    {
        self.put_present(seat);
        self.tell_all(Notice::SeatNew(seat));
    }

    /// A seat appears with its first graphics device.
    fn appear_seat(&mut self, kind: DevKind, seat: SeatName)
        requires room { Fits (appear_seat kind seat) self.old }
        ensures marked { self.new ≡ marked_by (appear_seat kind seat) self.old }
    {
        match kind {
            DevKind::Drm => {
                if !self.fact(&Key::Seat(seat)).is_seat() {
                    self.bring_seat(seat);
                }
            }
            DevKind::Evdev => {}
        }
    }

    /// A device of a kind comes to a seat, for whose name there is memory.
    #[tactic(auto, using(crate::proofs::Growing::growing), unfolding(login_model::specs::Taking::add_device))]
    pub fn add_device(&mut self, device: DevNo, kind: DevKind, seat: SeatName, slots: SeatSlots)
        requires room { Fits (add_device device kind seat) self.old }
        ensures marked { self.new ≡ marked_by (add_device device kind seat) self.old }
    {
        self.put_device(device, kind, seat, slots);
        self.appear_seat(kind, seat);
    }

    /// A device goes from the sessions that have it taken, in order.
    fn revoke_takers(&mut self, device: DevNo)
        requires room { Fits (λ t. each (λ s u. revoke s device u) (takers t device) t) self.old }
        ensures marked { self.new ≡ marked_by (λ t. each (λ s u. revoke s device u) (takers t device) t) self.old }
    {
        self.for_each(&TakersOf(device), &mut RevokeFrom(device));
    }

    /// A device is absent, and so it is from sessions.
    fn drop_device(&mut self, device: DevNo)
        requires room { Fits (λ t. put (Key.Mode device) (Fact.Number 0) (put (Key.Dev device) Fact.Absent (each (λ s u. revoke s device u) (takers t device) t))) self.old }
        ensures marked { self.new ≡ marked_by (λ t. put (Key.Mode device) (Fact.Number 0) (put (Key.Dev device) Fact.Absent (each (λ s u. revoke s device u) (takers t device) t))) self.old }
    {
        self.revoke_takers(device);
        self.put_absent(Key::Dev(device));
        self.put_number(Key::Mode(device), 0);
    }

    /// Whether a graphics device is on a seat.
    fn has_graphics(&self, seat: SeatName) -> bool
        ensures { result ≡ has_graphics self.now.trail seat }
    {
        self.next_that(&IsGraphicsOn(seat), None).is_some()
    }

    /// The sessions on a seat close, the seat is absent, and all are told.
    fn remove_seat(&mut self, seat: SeatName, closing: &mut Spares)
        requires copies { AreClosing closing.old.items self.old.trail }
        requires room { Fits (λ t. tell_all (Notice.SeatRemoved seat) (put (Key.Seat seat) Fact.Absent (each shut (sessions_on t seat) t))) self.old }
        ensures marked { self.new ≡ marked_by (λ t. tell_all (Notice.SeatRemoved seat) (put (Key.Seat seat) Fact.Absent (each shut (sessions_on t seat) t))) self.old }
        ensures copies { AreClosing closing.new.items self.new.trail }
    {
        self.terminate_seat(seat, closing);
        self.put_absent(Key::Seat(seat));
        self.tell_all(Notice::SeatRemoved(seat));
    }

    /// A seat from which a graphics device went goes with its last one; seat0 stays.
    fn lose_graphics(&mut self, seat: SeatName, closing: &mut Spares)
        requires copies { AreClosing closing.old.items self.old.trail }
        requires room { Fits (lose_seat (Fact.Device DevKind.Drm seat)) self.old }
        ensures marked { self.new ≡ marked_by (lose_seat (Fact.Device DevKind.Drm seat)) self.old }
        ensures copies { AreClosing closing.new.items self.new.trail }
    {
        if !seat.is_seat0() && !self.has_graphics(seat) {
            self.remove_seat(seat, closing);
        }
    }

    fn lose_seat(&mut self, graphics: Option<SeatName>, closing: &mut Spares)
        requires copies { AreClosing closing.old.items self.old.trail }
        requires room { Fits (lose_seat (graphics_fact graphics)) self.old }
        ensures marked { self.new ≡ marked_by (lose_seat (graphics_fact graphics)) self.old }
        ensures copies { AreClosing closing.new.items self.new.trail }
    {
        if let Some(seat) = graphics {
            self.lose_graphics(seat, closing);
        }
    }

    /// A device goes: from the sessions that have it taken, and from its seat.
    pub fn remove_device(&mut self, device: DevNo, closing: &mut Spares)
        requires copies { AreClosing closing.old.items self.old.trail }
        requires room { Fits (remove_device device) self.old }
        ensures marked { self.new ≡ marked_by (remove_device device) self.old }
        ensures copies { AreClosing closing.new.items self.new.trail }
    {
        let graphics = self.fact(&Key::Dev(device)).graphics_seat();
        self.drop_device(device);
        self.lose_seat(graphics, closing);
    }
}
