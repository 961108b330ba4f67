// What the calls on sessions set and tell.

ghost use Rattle.std.specs.Prelude.{◌≡◌};
ghost use Rattle.login_base.specs.declared.ids.SessId.{SessId as SessionId};
ghost use Rattle.login_model.specs.Trail.{Trail, put};
ghost use Rattle.login_model.specs.Where.{open_sessions, sessions_of};
ghost use Rattle.login_model.specs.Procedure.{each};
ghost use Rattle.login_model.specs.declared.fact.Key.TheVariants.{Sig};
ghost use Rattle.login_model.specs.declared.fact.Fact.TheVariants.{Signal};
ghost use Rattle.login_model.specs.declared.session.KillWhom.TheVariants.{All};
ghost use Rattle.login_model.specs.declared.mark.Notice.TheVariants.{Lock, Unlock};
ghost use Rattle.login_laws.proofs.Widens.{put-widens, tell_all-widens};
ghost use Rattle.login_model.specs.Direct.{lock_session, unlock_session};
ghost use Rattle.login_core.specs.inner.Draft.{marked_by, Fits};

use crate::board::Draft;
use crate::board::rounds::Task;
use login_base::{SessId, Uid};
use login_model::{Fact, Key, KillWhom};
use login_table::{IsOpen, OfUser};

/// The screen of a session is to be locked.
#[derive(Drop)]
struct LockScreen;

impl Task<SessId> for LockScreen {
    ghost does = { λ x s t. lock_session s t };

    ghost adds = { λ x s t. tell_all-widens (Lock s) t };

    fn run(&mut self, draft: &mut Draft, session: SessId) {
        draft.lock_session(session);
    }
}

/// The screen of a session is to be unlocked.
#[derive(Drop)]
struct UnlockScreen;

impl Task<SessId> for UnlockScreen {
    ghost does = { λ x s t. unlock_session s t };

    ghost adds = { λ x s t. tell_all-widens (Unlock s) t };

    fn run(&mut self, draft: &mut Draft, session: SessId) {
        draft.unlock_session(session);
    }
}

/// A signal is sent to all processes of a session.
#[derive(Drop)]
struct SignalAll(i32);

impl Task<SessId> for SignalAll {
    ghost does = { λ x s t. put (Sig s) (Signal All x.0) t };

    ghost adds = { λ x s t. put-widens (Sig s) (Signal All x.0) t };

    fn run(&mut self, draft: &mut Draft, session: SessId) {
        draft.put_signal(session, KillWhom::All, self.0);
    }
}

#[tactic(auto, using(crate::proofs::Growing::growing))]
impl Draft {
    /// The screens of all open sessions are to be locked.
    #[tactic(auto, using(crate::proofs::Growing::growing), unfolding(login_model::specs::Where::open_sessions, login_model::specs::Where::sessions))]
    pub fn lock_all(&mut self)
        requires room { Fits (λ t. each lock_session (open_sessions t) t) self.old }
        ensures marked { self.new ≡ marked_by (λ t. each lock_session (open_sessions t) t) self.old }
    {
        self.for_each_that(IsOpen, &mut LockScreen);
    }

    /// The screens of all open sessions are to be unlocked.
    #[tactic(auto, using(crate::proofs::Growing::growing), unfolding(login_model::specs::Where::open_sessions, login_model::specs::Where::sessions))]
    pub fn unlock_all(&mut self)
        requires room { Fits (λ t. each unlock_session (open_sessions t) t) self.old }
        ensures marked { self.new ≡ marked_by (λ t. each unlock_session (open_sessions t) t) self.old }
    {
        self.for_each_that(IsOpen, &mut UnlockScreen);
    }

    /// A signal is sent to processes of a session.
    pub fn put_signal(&mut self, session: SessId, whom: KillWhom, signal: i32)
        requires room { Fits (put (Key.Sig session) (Fact.Signal whom signal)) self.old }
        ensures marked { self.new ≡ marked_by (put (Key.Sig session) (Fact.Signal whom signal)) self.old }
    {
        self.put(
            Key::Sig(session),
            Fact::Signal(whom, signal),
            Fact::Signal(whom, signal),
        );
    }

    /// A signal is sent to all processes of a user's sessions.
    #[tactic(auto, using(crate::proofs::Growing::growing), unfolding(login_model::specs::Where::sessions_of, login_model::specs::Where::sessions))]
    pub fn kill_user(&mut self, user: Uid, signal: i32)
        requires room { Fits (λ t. each (λ (s : SessionId) (t : Trail). put (Key.Sig s) (Fact.Signal KillWhom.All signal) t) (sessions_of t user.0) t) self.old }
        ensures marked { self.new ≡ marked_by (λ t. each (λ (s : SessionId) (t : Trail). put (Key.Sig s) (Fact.Signal KillWhom.All signal) t) (sessions_of t user.0) t) self.old }
    {
        self.for_each_that(OfUser(user), &mut SignalAll(signal));
    }

    /// A session says whether it is idle.
    pub fn put_idle(&mut self, session: SessId, is_idle: bool)
        requires room { Fits (put (Key.Idle session) (Fact.Flag is_idle)) self.old }
        ensures marked { self.new ≡ marked_by (put (Key.Idle session) (Fact.Flag is_idle)) self.old }
    {
        self.put_flag(Key::Idle(session), is_idle);
    }

    /// A session says whether its screen is locked.
    pub fn put_locked(&mut self, session: SessId, is_locked: bool)
        requires room { Fits (put (Key.Locked session) (Fact.Flag is_locked)) self.old }
        ensures marked { self.new ≡ marked_by (put (Key.Locked session) (Fact.Flag is_locked)) self.old }
    {
        self.put_flag(Key::Locked(session), is_locked);
    }
}
