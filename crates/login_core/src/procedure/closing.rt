// How sessions close.

ghost use Rattle.std.specs.Prelude.{◌≡◌, if◌then◌else◌, true, None};
ghost use Rattle.login_model.specs.Trail.{value};
ghost use Rattle.login_model.specs.Where.{is_open, is_active, seat_of_session};
ghost use Rattle.login_model.specs.Devices.{taken_devices};
ghost use Rattle.login_model.specs.Procedure.{if_some, release, in_phase, set_phase, vacate, leave_seat, shut};
ghost use Rattle.login_core.specs.inner.Texts.{HasTexts, AreCopies, AreSome};
ghost use Rattle.login_core.specs.inner.Draft.{marked_by, Fits};

use crate::board::Draft;
use crate::room::copies::Copies;
use login_base::{SeatName, SessId};
use login_model::{Fact, Key, Look, Notice, Phase, Session, SessionTexts, Slot};
use login_table::{is_active, seat_of_session};

/// A session in another phase, with a copy of its texts.
fn session_in_phase(session: &Session, phase: Phase, texts: SessionTexts) -> Session
    requires { texts ≡ session.now.texts }
    ensures { result ≡ record session.now { phase = phase } }
{
    Session {
        phase,
        uid: session.uid,
        seat: session.seat,
        vt: session.vt,
        session_type: session.session_type,
        class: session.class,
        leader: session.leader,
        fifo: session.fifo,
        remote: session.remote,
        texts,
    }
}

/// A session's fact in another phase, with a copy of its texts, in this memory.
fn in_phase(fact: &Fact, phase: Phase, texts: SessionTexts, slot: Slot<Session>) -> Fact
    requires { HasTexts fact.now texts }
    ensures { result ≡ in_phase phase fact.now }
{
    match fact.session() {
        Some(session) => Fact::Session(slot.fill(session_in_phase(session, phase, texts))),
        None => Fact::Absent,
    }
}

#[tactic(auto, using(crate::proofs::Growing::growing))]
impl Draft {
    /// A session goes into another phase. Its texts come as two copies: for the mark and for the facts.
    pub fn set_phase(&mut self, session: SessId, phase: Phase, copies: Copies)
        requires copies { AreCopies (value self.old.trail (Key.Sess session)) copies }
        requires room { Fits (set_phase session phase) self.old }
        ensures marked { self.new ≡ marked_by (set_phase session phase) self.old }
    {
        let Copies {
            mark,
            fact,
            mark_slot,
            fact_slot,
        } = copies;
        let mark = in_phase(self.fact(&Key::Sess(session)), phase, mark, mark_slot);
        let fact = in_phase(self.fact(&Key::Sess(session)), phase, fact, fact_slot);
        self.put(Key::Sess(session), mark, fact);
    }

    /// A seat without virtual terminals has no active session.
    fn vacate(&mut self, seat: SeatName)
        requires room { Fits (vacate seat) self.old }
        ensures marked { self.new ≡ marked_by (vacate seat) self.old }
    {
        if !seat.is_seat0() {
            self.put_absent(Key::Act(seat));
        }
    }

    /// The seat of a session that was active on it has none, and all are told.
    fn leave_seat(&mut self, session: SessId, seat: SeatName)
        requires room { Fits (leave_seat session seat) self.old }
        ensures marked { self.new ≡ marked_by (leave_seat session seat) self.old }
    {
        self.vacate(seat);
        self.tell_all(Notice::Active(seat, Some(session), None));
    }

    fn leave_some(&mut self, session: SessId, seat: Option<SeatName>)
        requires room { Fits (if_some (leave_seat session) seat) self.old }
        ensures marked { self.new ≡ marked_by (if_some (leave_seat session) seat) self.old }
    {
        if let Some(seat) = seat {
            self.leave_seat(session, seat);
        }
    }

    /// The seat on which a session is active.
    fn active_seat(&self, session: SessId) -> Option<SeatName>
        ensures { result ≡ (if is_active self.now.trail session then seat_of_session self.now.trail session else None) }
    {
        if is_active(self, session) {
            seat_of_session(self, session)
        } else {
            None
        }
    }

    /// A session gives back its devices and its controller, is closing, and leaves its seat.
    fn close_session(&mut self, session: SessId, copies: Copies)
        requires copies { AreCopies (value self.old.trail (Key.Sess session)) copies }
        requires room { Fits (λ t. if_some (leave_seat session) (if is_active t session then seat_of_session t session else None) (set_phase session Phase.Closing (release session t))) self.old }
        ensures marked { self.new ≡ marked_by (λ t. if_some (leave_seat session) (if is_active t session then seat_of_session t session else None) (set_phase session Phase.Closing (release session t))) self.old }
    {
        let seat = self.active_seat(session);
        self.release(session);
        self.set_phase(session, Phase::Closing, copies);
        self.leave_some(session, seat);
    }

    /// An open session closes.
    #[tactic(auto, unfolding(login_model::specs::Procedure::shut))]
    pub fn shut(&mut self, session: SessId, copies: Option<Copies>)
        requires copies { is_open self.old.trail session ≡ true → AreSome (value self.old.trail (Key.Sess session)) copies }
        requires room { Fits (shut session) self.old }
        ensures marked { self.new ≡ marked_by (shut session) self.old }
    {
        if self.fact(&Key::Sess(session)).is_open() {
            if let Some(copies) = copies {
                self.close_session(session, copies);
            }
        }
    }
}
