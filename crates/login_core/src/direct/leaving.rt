// How users linger and leave, and sessions end.

ghost use Rattle.std.specs.Prelude.{◌≡◌, not, true};
ghost use Rattle.login_model.specs.Trail.{value, put, tell_all};
ghost use Rattle.login_laws.proofs.Widens.{forget-widens};
ghost use Rattle.login_model.specs.Where.{is_open, sessions_of, moment_or_zero, now};
ghost use Rattle.login_model.specs.Procedure.{each, is_empty, is_kept, forget, leave, set_phase, shut};
ghost use Rattle.login_model.specs.Direct.{leave_known, begin_linger, end_linger, linger, user_or_root, exit, is_overdue_fact, overdue, tick};
ghost use Rattle.login_core.specs.inner.Texts.{AreCopies, AreSome};
ghost use Rattle.login_core.specs.inner.Leaving.{is_overdue};
ghost use Rattle.login_model.specs.Facts.{is_known};
ghost use Rattle.login_core.specs.inner.Draft.{marked_by, Fits};

use crate::board::Draft;
use crate::board::rounds::Task;
use crate::room::copies::Copies;
use login_base::{Millis, SessId, Uid};
use login_model::{Fact, Key, Look, Notice, Phase, Setup};
use login_table::{OfUser, Test, find_session};

/// The user's delay is over at a moment.
#[derive(Drop)]
struct Overdue<'a> {
    setup: &'a Setup,
    moment: u64,
}

impl<'a> Test<Uid> for Overdue<'a> {
    ghost meets = { λ o t u. is_overdue o.setup.now o.moment t u };

    fn is_met<F: Look>(&self, facts: &F, user: Uid) -> bool {
        facts
            .fact(&Key::User(user))
            .is_overdue(self.setup, self.moment)
    }
}

/// A user is absent.
#[derive(Drop)]
struct Forget;

impl Task<Uid> for Forget {
    ghost does = { λ x u t. forget u t };

    ghost adds = { λ x u t. forget-widens u t };

    fn run(&mut self, draft: &mut Draft, user: Uid) {
        draft.forget(user);
    }
}

#[tactic(auto, using(crate::proofs::Growing::growing, crate::proofs::Departing::leaving))]
impl Draft {
    /// Whether a user has a session that is not gone.
    fn has_session(&self, user: Uid) -> bool
        ensures { result ≡ not (is_empty (sessions_of self.now.trail user.0)) }
    {
        find_session(self, &OfUser(user)).is_some()
    }

    /// Whether a session keeps a user, or the user lingers.
    pub fn is_kept(&self, user: Uid) -> bool
        ensures { result ≡ is_kept self.now.trail user }
    {
        self.has_session(user) || self.fact(&Key::Linger(user)).is_set()
    }

    /// The moment that the clock reached last, in milliseconds.
    fn now(&self) -> u64
        ensures { result ≡ now self.now.trail }
    {
        self.fact(&Key::Now).moment_or_zero()
    }

    /// A user is leaving since the moment that it is.
    fn begin_leaving(&mut self, user: Uid)
        requires room { Fits (λ t. put (Key.User user) (Fact.Leaving (record { 0 = now t })) t) self.old }
        ensures marked { self.new ≡ marked_by (λ t. put (Key.User user) (Fact.Leaving (record { 0 = now t })) t) self.old }
    {
        let since = Millis(self.now());
        self.put_leaving(user, since);
    }

    /// A user whom nothing keeps is absent after the delay of the configuration, which begins now.
    #[tactic(auto, unfolding(login_model::specs::Procedure::leave))]
    pub fn leave(&mut self, setup: &Setup, user: Uid)
        requires room { Fits (leave setup.now user) self.old }
        ensures marked { self.new ≡ marked_by (leave setup.now user) self.old }
    {
        if !self.is_kept(user) {
            if setup.conf.user_stop_delay.0 == 0 {
                self.forget(user);
            } else {
                self.begin_leaving(user);
            }
        }
    }

    /// A user who is known leaves if nothing keeps them.
    fn leave_known(&mut self, setup: &Setup, user: Uid)
        requires room { Fits (λ t. leave_known setup.now user (value t (Key.User user)) t) self.old }
        ensures marked { self.new ≡ marked_by (λ t. leave_known setup.now user (value t (Key.User user)) t) self.old }
    {
        if self.fact(&Key::User(user)).is_known() {
            self.leave(setup, user);
        }
    }

    /// A user lingers, and is known.
    fn begin_linger(&mut self, user: Uid)
        requires room { Fits (begin_linger user) self.old }
        ensures marked { self.new ≡ marked_by (begin_linger user) self.old }
    {
        self.put_flag(Key::Linger(user), true);
        self.know(user);
    }

    /// A user lingers no more, and leaves if nothing else keeps them.
    fn end_linger(&mut self, setup: &Setup, user: Uid)
        requires room { Fits (end_linger setup.now user) self.old }
        ensures marked { self.new ≡ marked_by (end_linger setup.now user) self.old }
    {
        self.put_flag(Key::Linger(user), false);
        self.leave_known(setup, user);
    }

    /// A user lingers, or does so no more.
    pub fn linger(&mut self, setup: &Setup, user: Uid, lingers: bool)
        requires room { Fits (linger setup.now user lingers) self.old }
        ensures marked { self.new ≡ marked_by (linger setup.now user lingers) self.old }
    {
        if lingers {
            self.begin_linger(user);
        } else {
            self.end_linger(setup, user);
        }
    }

    /// The users whose delay is over at a moment are absent.
    #[tactic(auto, using(crate::proofs::Growing::growing), unfolding(login_model::specs::Direct::overdue, login_model::specs::Where::users))]
    fn forget_overdue(&mut self, setup: &Setup, moment: u64)
        requires room { Fits (λ t. each forget (overdue setup.now t moment) t) self.old }
        ensures marked { self.new ≡ marked_by (λ t. each forget (overdue setup.now t moment) t) self.old }
    {
        if self.has_leavers() {
            self.for_each_that(Overdue { setup, moment }, &mut Forget);
        }
    }

    /// The clock stands at a moment.
    fn put_now(&mut self, moment: Millis)
        requires room { Fits (put Key.Now (Fact.Moment moment)) self.old }
        ensures marked { self.new ≡ marked_by (put Key.Now (Fact.Moment moment)) self.old }
    {
        self.put(Key::Now, Fact::Moment(moment), Fact::Moment(moment));
    }

    /// The clock stands at a moment, and users whose delay is over are absent.
    pub fn tick(&mut self, setup: &Setup, moment: Millis)
        requires room { Fits (tick setup.now moment) self.old }
        ensures marked { self.new ≡ marked_by (tick setup.now moment) self.old }
    {
        self.put_now(moment);
        self.forget_overdue(setup, moment.0);
    }

    /// A session closes, if it is open, and is gone, and all are told. Its texts come as copies for both.
    fn remove_session(&mut self, session: SessId, closing: Option<Copies>, gone: Copies)
        requires closing { is_open self.old.trail session ≡ true → AreSome (value self.old.trail (Key.Sess session)) closing }
        requires gone { AreCopies (value self.old.trail (Key.Sess session)) gone }
        requires room { Fits (λ t. tell_all (Notice.SessionRemoved session) (set_phase session Phase.Gone (shut session t))) self.old }
        ensures marked { self.new ≡ marked_by (λ t. tell_all (Notice.SessionRemoved session) (set_phase session Phase.Gone (shut session t))) self.old }
    {
        self.shut(session, closing);
        self.set_phase(session, Phase::Gone, gone);
        self.tell_all(Notice::SessionRemoved(session));
    }

    /// The last process of a session is gone. The copies of its texts are for its closing, if it is open,
    /// and for its end.
    pub fn exit(&mut self, setup: &Setup, session: SessId, closing: Option<Copies>, gone: Copies)
        requires closing { is_open self.old.trail session ≡ true → AreSome (value self.old.trail (Key.Sess session)) closing }
        requires gone { AreCopies (value self.old.trail (Key.Sess session)) gone }
        requires room { Fits (exit setup.now session) self.old }
        ensures marked { self.new ≡ marked_by (exit setup.now session) self.old }
    {
        let owner = self.fact(&Key::Sess(session)).user_or_root();
        self.remove_session(session, closing, gone);
        self.leave(setup, owner);
    }
}
