// What granted calls do.

ghost use Rattle.std.specs.Prelude.{◌≡◌, true};
ghost use Rattle.login_base.specs.Seat.{is_seat_name};
ghost use Rattle.login_model.specs.Trail.{value};
ghost use Rattle.login_model.specs.Facts.{fifo_session};
ghost use Rattle.login_model.specs.Policy.{meant_user};
ghost use Rattle.login_model.specs.Procedure.{each, if_some, shut};
ghost use Rattle.login_model.specs.Turning.{turn_to_next, turn_to_previous};
ghost use Rattle.login_model.specs.Where.{sessions_on};
ghost use Rattle.login_model.specs.Direct.{linger, close, direct_call};
ghost use Rattle.login_model.specs.Words.{whom_of};
ghost use Rattle.login_core.specs.Ready.{AreReadyToCall};
ghost use Rattle.login_core.specs.inner.Spares.{AreClosing, HaveTexts};
ghost use Rattle.login_core.specs.inner.Calls.{IsPlain, NamesRightly, call_on};
ghost use Rattle.login_core.specs.inner.Draft.{marked_by, Fits};
ghost use Rattle.login_facts.specs.Dues.{WasConnected};

use crate::board::Draft;
use crate::room::spares::Spares;
use crate::room::texts::Texts;
use login_base::{ConnId, HandleNo, SeatName, SessId, Uid, Word};
use login_judge::meant_user;
use login_model::{Call, Key, KillWhom, Look, Setup};

/// Whom a text names; the empty one is all.
fn whom_of(text: &[u8]) -> KillWhom
    ensures { result ≡ whom_of text.now }
{
    KillWhom::read(text).unwrap_or(KillWhom::All)
}

#[tactic(auto, using(crate::proofs::Growing::growing))]
impl Draft {
    /// What a call does to the session that it names.
    fn call_on(&mut self, who: ConnId, session: SessId, call: &Call)
        requires known { WasConnected self.old.trail who }
        requires room { Fits (call_on who call.now session) self.old }
        ensures marked { self.new ≡ marked_by (call_on who call.now session) self.old }
    {
        match call {
            Call::Activate(_) | Call::ActivateOnSeat(_, _) => self.activate(session),
            Call::Lock(_) => self.lock_session(session),
            Call::Unlock(_) => self.unlock_session(session),
            Call::Kill(_, whom, signal) => {
                self.put_signal(session, whom_of(whom.as_slice()), *signal);
            }
            Call::SetIdle(_, is_idle) => self.put_idle(session, *is_idle),
            Call::SetLocked(_, is_locked) => self.put_locked(session, *is_locked),
            Call::Control(_, _) => self.control(who, session),
            Call::Uncontrol(_) => self.release(session),
            Call::TakeDevice(_, device) => self.take_device(who, session, *device),
            Call::ReleaseDevice(_, device) => self.untake(session, *device),
            Call::PauseComplete(_, device) => self.acknowledge(session, *device),
            _ => {}
        }
    }

    /// What a call does to the session that it names, if it names one.
    fn call_session(&mut self, who: ConnId, session: Option<SessId>, call: &Call)
        requires known { WasConnected self.old.trail who }
        requires room { Fits (if_some (call_on who call.now) session) self.old }
        ensures marked { self.new ≡ marked_by (if_some (call_on who call.now) session) self.old }
    {
        if let Some(session) = session {
            self.call_on(who, session, call);
        }
    }

    fn linger_meant(&mut self, setup: &Setup, who: ConnId, user: Uid, lingers: bool)
        requires room { Fits (λ t. linger setup.now (record { 0 = meant_user t who user.0 }) lingers t) self.old }
        ensures marked { self.new ≡ marked_by (λ t. linger setup.now (record { 0 = meant_user t who user.0 }) lingers t) self.old }
    {
        let user = Uid(meant_user(self, who, user.0));
        self.linger(setup, user, lingers);
    }

    fn next_on(&mut self, seat: &Word)
        requires named { is_seat_name seat.now ≡ true }
        requires room { Fits (turn_to_next seat.now) self.old }
        ensures marked { self.new ≡ marked_by (turn_to_next seat.now) self.old }
    {
        if let Ok(seat) = SeatName::read(seat.as_slice()) {
            self.turn_to_next(seat);
        }
    }

    fn previous_on(&mut self, seat: &Word)
        requires named { is_seat_name seat.now ≡ true }
        requires room { Fits (turn_to_previous seat.now) self.old }
        ensures marked { self.new ≡ marked_by (turn_to_previous seat.now) self.old }
    {
        if let Ok(seat) = SeatName::read(seat.as_slice()) {
            self.turn_to_previous(seat);
        }
    }

    fn terminate_on(&mut self, seat: &Word, closing: &mut Spares)
        requires named { is_seat_name seat.now ≡ true }
        requires copies { AreClosing closing.old.items self.old.trail }
        requires room { Fits (λ t. each shut (sessions_on t seat.now) t) self.old }
        ensures marked { self.new ≡ marked_by (λ t. each shut (sessions_on t seat.now) t) self.old }
        ensures copies { AreClosing closing.new.items self.new.trail }
    {
        if let Ok(seat) = SeatName::read(seat.as_slice()) {
            self.terminate_seat(seat, closing);
        }
    }

    fn terminate_some(&mut self, session: Option<SessId>, closing: &mut Spares)
        requires copies { AreClosing closing.old.items self.old.trail }
        requires room { Fits (if_some shut session) self.old }
        ensures marked { self.new ≡ marked_by (if_some shut session) self.old }
        ensures copies { AreClosing closing.new.items self.new.trail }
    {
        if let Some(session) = session {
            self.shut_kept(session, closing);
        }
    }

    /// The session whose fifo a handle is.
    fn session_of_fifo(&self, handle: HandleNo) -> Option<SessId>
        ensures { result ≡ fifo_session (value self.now.trail (Key.Owner handle)) }
    {
        self.fact(&Key::Owner(handle)).fifo_session()
    }

    /// A handle closes, by the copies that are kept for the session that it keeps open.
    fn close_kept(&mut self, handle: HandleNo, closing: &mut Spares)
        requires copies { AreClosing closing.old.items self.old.trail }
        requires room { Fits (close handle) self.old }
        ensures marked { self.new ≡ marked_by (close handle) self.old }
        ensures copies { AreClosing closing.new.items self.new.trail }
    {
        let copies = match self.session_of_fifo(handle) {
            Some(session) => closing.take(session),
            None => None,
        };
        self.close(handle, copies);
    }

    /// A call that needs no texts.
    fn call_plain(&mut self, setup: &Setup, who: ConnId, call: &Call)
        requires known { WasConnected self.old.trail who }
        requires plain { IsPlain call.now }
        requires named { NamesRightly call.now }
        requires room { Fits (direct_call setup.now who call.now) self.old }
        ensures marked { self.new ≡ marked_by (direct_call setup.now who call.now) self.old }
    {
        match call {
            Call::LockAll => self.lock_all(),
            Call::UnlockAll => self.unlock_all(),
            Call::KillUser(user, signal) => self.kill_user(*user, *signal),
            Call::SetLinger(user, lingers) => self.linger_meant(setup, who, *user, *lingers),
            Call::SwitchTo(_, vt) => self.request(*vt),
            Call::SwitchToNext(seat) => self.next_on(seat),
            Call::SwitchToPrevious(seat) => self.previous_on(seat),
            Call::SetMode(handle, mode) => self.set_mode(*handle, *mode),
            Call::Power(kind) => self.power(*kind),
            Call::Activate(id)
            | Call::ActivateOnSeat(id, _)
            | Call::Lock(id)
            | Call::Unlock(id)
            | Call::Kill(id, _, _)
            | Call::SetIdle(id, _)
            | Call::SetLocked(id, _)
            | Call::Control(id, _)
            | Call::Uncontrol(id)
            | Call::TakeDevice(id, _)
            | Call::ReleaseDevice(id, _)
            | Call::PauseComplete(id, _) => self.call_session(who, id.session(), call),
            _ => {}
        }
    }

    /// What a granted call does by itself.
    pub fn direct_call(&mut self, setup: &Setup, who: ConnId, call: &Call, texts: &mut Texts)
        requires known { WasConnected self.old.trail who }
        requires named { NamesRightly call.now }
        requires ready { AreReadyToCall call.now texts.old }
        requires texts { HaveTexts texts.old self.old.trail }
        requires room { Fits (direct_call setup.now who call.now) self.old }
        ensures marked { self.new ≡ marked_by (direct_call setup.now who call.now) self.old }
        ensures texts { HaveTexts texts.new self.new.trail }
    {
        match call {
            Call::Create(creation) => self.create_session(who, creation.get(), texts),
            Call::Terminate(id) => self.terminate_some(id.session(), &mut texts.closing),
            Call::TerminateUser(user) => self.terminate_user(*user, &mut texts.closing),
            Call::TerminateSeat(seat) => self.terminate_on(seat, &mut texts.closing),
            Call::Close(handle) => self.close_kept(*handle, &mut texts.closing),
            Call::Inhibit(inhibition) => self.inhibit_kept(who, inhibition, texts),
            _ => self.call_plain(setup, who, call),
        }
    }
}
