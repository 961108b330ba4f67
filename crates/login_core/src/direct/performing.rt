// What a granted event does by itself.

ghost use Rattle.std.specs.Prelude.{◌≡◌, IfSome, true};
ghost use Rattle.login_base.specs.SessionId.{session_of};
ghost use Rattle.login_model.specs.Trail.{Trail, put};
ghost use Rattle.login_model.specs.Fresh.{next_session, next_handle};
ghost use Rattle.login_model.specs.Where.{is_open, is_session};
ghost use Rattle.login_model.specs.Creating.{create};
ghost use Rattle.login_model.specs.Direct.{at_session, direct, exit, happen};
ghost use Rattle.login_model.specs.Taking.{add_device};
ghost use Rattle.login_model.specs.Policy.{verdict as policy_verdict};
ghost use Rattle.login_model.specs.declared.rule.Verdict.TheVariants.{Granted};
ghost use Rattle.login_laws.specs.Sound.{IsSound};
ghost use Rattle.login_core.specs.inner.Calls.{ExitsHere, HappensPlain};
ghost use Rattle.login_core.specs.Ready.{AreReady, AreReadyFor, AreReadyToHappen, HasSlots};
ghost use Rattle.login_core.specs.inner.Spares.{HaveTexts};
ghost use Rattle.login_core.specs.inner.Draft.{marked_by, Fits};
ghost use Rattle.login_facts.specs.Dues.{CallerIsKnown, WasConnected};

use crate::board::Draft;
use crate::room::texts::{FreshTexts, Texts};
use login_base::{ConnId, DevNo, SeatName, SessId, Uid, Word};
use login_model::{Creation, DevKind, Event, Fact, Hardware, Key, Setup};

#[tactic(auto, using(crate::proofs::Growing::growing))]
impl Draft {
    /// A session is created, and the copies for its end are kept.
    pub fn create_session(&mut self, who: ConnId, creation: &Creation, texts: &mut Texts)
        requires known { WasConnected self.old.trail who }
        requires ready { AreReadyFor creation.now texts.old }
        requires texts { HaveTexts texts.old self.old.trail }
        requires room { Fits (λ t. create who creation.now (next_session t) (next_handle t) t) self.old }
        ensures marked { self.new ≡ marked_by (λ t. create who creation.now (next_session t) (next_handle t) t) self.old }
        ensures texts { HaveTexts texts.new self.new.trail }
    {
        let session = self.fresh_session();
        match texts.fresh.take() {
            Some(fresh) => {
                let FreshTexts {
                    created,
                    closing,
                    gone,
                } = fresh;
                self.create(who, creation, created);
                texts.closing.keep(session, closing);
                texts.gone.keep(session, gone);
            }
            None => unreachable!(),
        }
    }

    /// A session is gone.
    pub fn exit_session(&mut self, setup: &Setup, session: SessId, texts: &mut Texts)
        requires here { is_session self.old.trail session ≡ true }
        requires texts { HaveTexts texts.old self.old.trail }
        requires room { Fits (exit setup.now session) self.old }
        ensures marked { self.new ≡ marked_by (exit setup.now session) self.old }
        ensures texts { HaveTexts texts.new self.new.trail }
    {
        let closing = texts.closing.take(session);
        match texts.gone.take(session) {
            Some(gone) => self.exit(setup, session, closing, gone),
            None => unreachable!(),
        }
    }

    fn exit_id(&mut self, setup: &Setup, id: &Word, texts: &mut Texts)
        requires here { IfSome (session_of id.now) (λ s. is_session self.old.trail s ≡ true) }
        requires texts { HaveTexts texts.old self.old.trail }
        requires room { Fits (at_session (exit setup.now) id.now) self.old }
        ensures marked { self.new ≡ marked_by (at_session (exit setup.now) id.now) self.old }
        ensures texts { HaveTexts texts.new self.new.trail }
    {
        if let Some(session) = SessId::read(id.as_slice()) {
            self.exit_session(setup, session, texts);
        }
    }

    /// A device comes, and the memory that was made for its seat is used.
    fn add_kept(&mut self, device: DevNo, kind: DevKind, seat: SeatName, texts: &mut Texts)
        requires ready { HasSlots texts.old.seats }
        requires texts { HaveTexts texts.old self.old.trail }
        requires room { Fits (add_device device kind seat) self.old }
        ensures marked { self.new ≡ marked_by (add_device device kind seat) self.old }
        ensures texts { HaveTexts texts.new self.new.trail }
    {
        match texts.seats.take() {
            Some(slots) => self.add_device(device, kind, seat, slots),
            None => unreachable!(),
        }
    }

    /// What happens that needs no texts.
    fn happen_plain(&mut self, setup: &Setup, hardware: &Hardware)
        requires plain { HappensPlain hardware.now }
        requires room { Fits (happen setup.now hardware.now) self.old }
        ensures marked { self.new ≡ marked_by (happen setup.now hardware.now) self.old }
    {
        match hardware {
            Hardware::VtKey(vt) => self.request(*vt),
            Hardware::Key(key) => self.press(setup, *key),
            Hardware::Dock(is_docked) => self.put_flag(Key::Docked, *is_docked),
            Hardware::JobDone => self.job_done(),
            _ => {}
        }
    }

    /// What happens to the machine.
    fn happen(&mut self, setup: &Setup, hardware: &Hardware, texts: &mut Texts)
        requires here { ExitsHere self.old.trail hardware.now }
        requires ready { AreReadyToHappen hardware.now texts.old }
        requires texts { HaveTexts texts.old self.old.trail }
        requires room { Fits (happen setup.now hardware.now) self.old }
        ensures marked { self.new ≡ marked_by (happen setup.now hardware.now) self.old }
        ensures texts { HaveTexts texts.new self.new.trail }
    {
        match hardware {
            Hardware::Add(device, kind, seat) => self.add_kept(*device, *kind, *seat.get(), texts),
            Hardware::Remove(device) => self.remove_device(*device, &mut texts.closing),
            Hardware::Exit(id) => self.exit_id(setup, id, texts),
            _ => self.happen_plain(setup, hardware),
        }
    }

    /// A connection is there.
    fn connect(&mut self, who: ConnId, user: Uid)
        requires room { Fits (put (Key.Conn who) (Fact.Connected user)) self.old }
        ensures marked { self.new ≡ marked_by (put (Key.Conn who) (Fact.Connected user)) self.old }
    {
        self.put(Key::Conn(who), Fact::Connected(user), Fact::Connected(user));
    }

    /// What a granted event does by itself.
    #[tactic(auto, unfolding(login_model::specs::Direct::direct))]
    pub fn direct(&mut self, setup: &Setup, event: &Event, texts: &mut Texts)
        requires granted { policy_verdict setup.now self.old.trail event.now ≡ Granted }
        requires known { CallerIsKnown event.now self.old.trail }
        requires sound { IsSound setup.now self.old.trail }
        requires ready { AreReady event.now texts.old }
        requires texts { HaveTexts texts.old self.old.trail }
        requires room { Fits (direct setup.now event.now) self.old }
        ensures marked { self.new ≡ marked_by (direct setup.now event.now) self.old }
        ensures texts { HaveTexts texts.new self.new.trail }
    {
        match event {
            Event::Connect(who, user) => self.connect(*who, *user),
            Event::Disconnect(who) => self.disconnect(*who, &mut texts.closing),
            Event::Call(request) => self.direct_call(setup, request.who, &request.call, texts),
            Event::Hardware(hardware) => self.happen(setup, hardware, texts),
            Event::Tick(moment) => self.tick(setup, *moment),
            Event::Stop => {}
        }
    }
}
