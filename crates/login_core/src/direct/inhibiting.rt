// How locks begin to stand.

ghost use Rattle.std.specs.Prelude.{◌≡◌, true};
ghost use Rattle.login_model.specs.Fresh.{next_handle, next_lock};
ghost use Rattle.login_model.specs.Locks.{asked_lock, is_what, mode_of, what_of};
ghost use Rattle.login_model.specs.Policy.{uid_of};
ghost use Rattle.login_model.specs.Power.{inhibit};
ghost use Rattle.login_model.specs.Trail.{put};
ghost use Rattle.login_core.specs.Ready.{AreOfLock, HasLock};
ghost use Rattle.login_core.specs.inner.Spares.{HaveTexts};
ghost use Rattle.login_core.specs.Texts.{lock_texts};
ghost use Rattle.login_core.specs.inner.Draft.{marked_by, Fits};
ghost use Rattle.login_facts.specs.Dues.{WasConnected};

use crate::board::Draft;
use crate::room::locks::{LockCopies, LockTexts};
use crate::room::texts::Texts;
use login_base::{ConnId, HandleNo, LockNo, Uid};
use login_judge::uid_of;
use login_model::{Boxed, Fact, Inhibited, Inhibition, Key, Lock, LockMode, Look, Owner};

/// What a text inhibits.
fn what_of(text: &[u8]) -> Inhibited
    requires { is_what text.now ≡ true }
    ensures { result ≡ what_of text.now }
{
    match Inhibited::read(text) {
        Some(what) => what,
        None => unreachable!(),
    }
}

/// The mode that a text names.
#[tactic(auto, unfolding(login_model::specs::Locks::mode_of))]
fn mode_of(text: &[u8]) -> LockMode
    ensures { result ≡ mode_of text.now }
{
    LockMode::read(text).unwrap_or(LockMode::Block)
}

/// The lock that a call asks for, with a copy of its texts.
fn asked_lock(who: ConnId, uid: Uid, inhibition: &Inhibition, texts: LockTexts) -> Lock
    requires named { is_what inhibition.now.what ≡ true }
    requires texts { texts ≡ lock_texts inhibition.now }
    ensures { result ≡ asked_lock who uid inhibition.now }
{
    Lock {
        what: what_of(inhibition.what.as_slice()),
        mode: mode_of(inhibition.mode.as_slice()),
        uid,
        who: texts.who,
        why: texts.why,
        holder: who,
    }
}

/// The lock that a call asks for, for its mark and for the facts.
fn asked_twice(
    who: ConnId,
    uid: Uid,
    inhibition: &Inhibition,
    copies: LockCopies,
) -> (Boxed<Lock>, Boxed<Lock>)
    requires named { is_what inhibition.now.what ≡ true }
    requires copies { AreOfLock inhibition.now copies }
    ensures mark { result.0 ≡ asked_lock who uid inhibition.now }
    ensures fact { result.1 ≡ asked_lock who uid inhibition.now }
{
    let LockCopies {
        mark,
        fact,
        mark_slot,
        fact_slot,
    } = copies;
    let mark = asked_lock(who, uid, inhibition, mark);
    let fact = asked_lock(who, uid, inhibition, fact);
    (mark_slot.fill(mark), fact_slot.fill(fact))
}

#[tactic(auto, using(crate::proofs::Growing::growing))]
impl Draft {
    /// The user of a connection.
    fn user_of(&self, who: ConnId) -> Uid
        ensures { result ≡ record { 0 = uid_of self.now.trail who } }
    {
        Uid(uid_of(self, who))
    }

    /// A lock stands. It comes twice: for the mark and for the facts.
    fn put_lock(&mut self, number: LockNo, lock: Boxed<Lock>, copy: Boxed<Lock>)
        requires copy { copy ≡ lock }
        requires known { WasConnected self.old.trail lock.holder }
        requires room { Fits (put (Key.Lock number) (Fact.Lock lock)) self.old }
        ensures marked { self.new ≡ marked_by (put (Key.Lock number) (Fact.Lock lock)) self.old }
    {
        self.put(Key::Lock(number), Fact::Lock(lock), Fact::Lock(copy));
    }

    /// A lock of this number stands, and the handle of this number keeps it.
    fn inhibit_numbered(
        &mut self,
        number: LockNo,
        handle: HandleNo,
        lock: Boxed<Lock>,
        copy: Boxed<Lock>,
    )
        requires copy { copy ≡ lock }
        requires known { WasConnected self.old.trail lock.holder }
        requires room { Fits (inhibit lock number handle) self.old }
        ensures marked { self.new ≡ marked_by (inhibit lock number handle) self.old }
    {
        let holder = lock.get().holder;
        self.put_lock(number, lock, copy);
        self.put_owner(handle, Owner::Lock(holder, number));
    }

    /// The lock that a call asks for stands, with the next number and the next handle. Its texts come as two copies.
    pub fn inhibit(&mut self, who: ConnId, inhibition: &Inhibition, copies: LockCopies)
        requires known { WasConnected self.old.trail who }
        requires named { is_what inhibition.now.what ≡ true }
        requires copies { AreOfLock inhibition.now copies }
        requires room { Fits (λ t. inhibit (asked_lock who (record { 0 = uid_of t who }) inhibition.now) (next_lock t) (next_handle t) t) self.old }
        ensures marked { self.new ≡ marked_by (λ t. inhibit (asked_lock who (record { 0 = uid_of t who }) inhibition.now) (next_lock t) (next_handle t) t) self.old }
    {
        let user = self.user_of(who);
        let number = self.fresh_lock();
        let handle = self.fresh_handle();
        let (lock, copy) = asked_twice(who, user, inhibition, copies);
        self.inhibit_numbered(number, handle, lock, copy);
    }

    /// The lock that a call asks for stands, by the copies that are kept of its texts.
    pub fn inhibit_kept(&mut self, who: ConnId, inhibition: &Inhibition, texts: &mut Texts)
        requires known { WasConnected self.old.trail who }
        requires named { is_what inhibition.now.what ≡ true }
        requires ready { HasLock inhibition.now texts.old.lock }
        requires texts { HaveTexts texts.old self.old.trail }
        requires room { Fits (λ t. inhibit (asked_lock who (record { 0 = uid_of t who }) inhibition.now) (next_lock t) (next_handle t) t) self.old }
        ensures marked { self.new ≡ marked_by (λ t. inhibit (asked_lock who (record { 0 = uid_of t who }) inhibition.now) (next_lock t) (next_handle t) t) self.old }
        ensures texts { HaveTexts texts.new self.new.trail }
    {
        match texts.lock.take() {
            Some(copies) => self.inhibit(who, inhibition, copies),
            None => unreachable!(),
        }
    }
}
