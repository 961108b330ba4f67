// Doing the same with each of some names, in order.

ghost use Rattle.std.specs.Prelude.{◌≡◌, Bool, List, filter};
ghost use Rattle.login_model.specs.Trail.{Trail, value};
ghost use Rattle.login_model.specs.Names.{IsNext, device_lt, lock_in, lock_lt, session_in, session_lt, names, insert_some};
ghost use Rattle.login_model.specs.Devices.{taken_in, is_taken};
ghost use Rattle.login_model.specs.Procedure.{each};
ghost use Rattle.login_model.specs.Where.{is_lock, is_session};
ghost use Rattle.login_model.specs.Direct.{is_lock_of};
ghost use Rattle.login_model.specs.Policy.{controls};
ghost use Rattle.login_model.specs.declared.fact.Key.TheVariants.{Lock};
ghost use Rattle.login_model.proofs.Keys.{both};
ghost use Rattle.login_model.proofs.InOrder.{Enumerates, enumerated, locks-enumerated, sessions-enumerated, taken-enumerated};
ghost use Rattle.login_laws.proofs.Widens.{Widens};
ghost use Rattle.login_laws.specs.Sound.{Fifos};
ghost use Rattle.login_table.specs.Listed.{is_there, listed};
ghost use Rattle.login_core.specs.inner.Chosen.{is_chosen};
ghost use Rattle.login_core.specs.inner.Ending.{is_kept_open_by};
ghost use Rattle.login_core.specs.inner.Rounds.{SparesAbove, StaysSuited};
ghost use Rattle.login_core.specs.inner.Draft.{marked_by, Fits};

use crate::board::Draft;
use login_base::{ConnId, DevNo, LockNo, SessId};
use login_model::Look;
use login_table::{Listed, Test};

/// Names of one kind that are told one after the other.
pub trait Choice<N> {
    ghost lt: { N → N → Bool };

    /// Whether a name is one of them, after these marks.
    ghost is_in: { Self → Trail → N → Bool };

    /// They and others, ascending.
    ghost among: { Self → Trail → List N };

    /// What has to hold of the marks so far for the next to be told.
    ghost suits: { Self → Trail → Type 0 } = { λ c t. Unit {0} };

    /// The next of them.
    fn next(&self, draft: &Draft, above: Option<N>) -> Option<N>
        requires { suits self.now draft.now.trail }
        ensures { IsNext lt (is_in self.now draft.now.trail) above result };

    ghost whole: { (c : Self) (t : Trail) → Enumerates lt (is_in c t) (among c t) };
}

/// What is done with each of some names.
pub trait Task<N> {
    ghost does: { Self → N → Trail → Trail };

    /// Whether what it keeps agrees with the marks so far.
    ghost agrees: { Self → Trail → Type 0 } = { λ x t. Unit {0} };

    /// Does it with one name.
    fn run(&mut self, draft: &mut Draft, name: N)
        requires room { Fits (does self.old name) draft.old }
        requires agrees { agrees self.old draft.old.trail }
        ensures marked { draft.new ≡ marked_by (does self.old name) draft.old }
        ensures same { does self.new ≡ does self.old }
        ensures agrees { agrees self.new draft.new.trail };

    ghost adds: { (x : Self) (n : N) (t : Trail) → Widens t (does x n t) };
}

/// The devices that a session has taken.
#[derive(Drop)]
pub struct TakenBy(pub SessId);

impl Choice<DevNo> for TakenBy {
    ghost lt = { device_lt };

    ghost is_in = { λ c t d. is_taken t c.0 d };

    ghost among = { λ c t. names device_lt (taken_in c.0) t };

    ghost whole = { λ c t. taken-enumerated t c.0 };

    fn next(&self, draft: &Draft, above: Option<DevNo>) -> Option<DevNo>
        ensures { IsNext device_lt (is_taken draft.now.trail self.now.0) above result }
    {
        draft.next_taken(self.0, above)
    }
}

/// The sessions that are there and have a device taken.
#[derive(Drop)]
pub struct TakersOf(pub DevNo);

impl Choice<SessId> for TakersOf {
    ghost lt = { session_lt };

    ghost is_in = { λ c t s. is_chosen (is_session t) (λ r. is_taken t r c.0) s };

    ghost among = { λ c t. names session_lt session_in t };

    ghost whole = { λ c t. (
        let all = sessions-enumerated t in
        record {
          order = all.order;
          ascending = all.ascending;
          complete = λ s e. all.complete s (both (is_session t s) (is_taken t s c.0) e).0;
        }
        ) };

    fn next(&self, draft: &Draft, above: Option<SessId>) -> Option<SessId>
        ensures { IsNext session_lt (is_chosen (is_session draft.now.trail) (λ s. is_taken draft.now.trail s self.now.0)) above result }
    {
        draft.next_taker_there(self.0, above)
    }
}

/// The sessions that are there and that a connection controls.
#[derive(Drop)]
pub struct ControlledBy(pub ConnId);

impl Choice<SessId> for ControlledBy {
    ghost lt = { session_lt };

    ghost is_in = { λ c t s. is_chosen (is_session t) (controls t c.0) s };

    ghost among = { λ c t. names session_lt session_in t };

    ghost whole = { λ c t. (
        let all = sessions-enumerated t in
        record {
          order = all.order;
          ascending = all.ascending;
          complete = λ s e. all.complete s (both (is_session t s) (controls t c.0 s) e).0;
        }
        ) };

    fn next(&self, draft: &Draft, above: Option<SessId>) -> Option<SessId>
        ensures { IsNext session_lt (is_chosen (is_session draft.now.trail) (controls draft.now.trail self.now.0)) above result }
    {
        draft.next_controlled(self.0, above)
    }
}

/// The open sessions whose fifos a connection holds.
#[derive(Drop)]
pub struct KeptOpenBy(pub ConnId);

impl Choice<SessId> for KeptOpenBy {
    ghost lt = { session_lt };

    ghost is_in = { λ c t s. is_chosen (is_session t) (is_kept_open_by c.0 t) s };

    ghost among = { λ c t. names session_lt session_in t };

    ghost suits = { λ c t. Fifos t };

    ghost whole = { λ c t. (
        let all = sessions-enumerated t in
        record {
          order = all.order;
          ascending = all.ascending;
          complete = λ s e. all.complete s (both (is_session t s) (is_kept_open_by c.0 t s) e).0;
        }
        ) };

    fn next(&self, draft: &Draft, above: Option<SessId>) -> Option<SessId>
        requires { Fifos draft.now.trail }
        ensures { IsNext session_lt (is_chosen (is_session draft.now.trail) (is_kept_open_by self.now.0 draft.now.trail)) above result }
    {
        draft.next_kept_open(self.0, above)
    }
}

/// The locks of a connection.
#[derive(Drop)]
pub struct HeldBy(pub ConnId);

impl Choice<LockNo> for HeldBy {
    ghost lt = { lock_lt };

    ghost is_in = { λ c t l. is_chosen (is_lock t) (λ k. is_lock_of c.0 (value t (Lock k))) l };

    ghost among = { λ c t. names lock_lt lock_in t };

    ghost whole = { λ c t. (
        let all = locks-enumerated t in
        record {
          order = all.order;
          ascending = all.ascending;
          complete = λ l e. all.complete l (both (is_lock t l) (is_lock_of c.0 (value t (Lock l))) e).0;
        }
        ) };

    fn next(&self, draft: &Draft, above: Option<LockNo>) -> Option<LockNo>
        ensures { IsNext lock_lt (is_chosen (is_lock draft.now.trail) (λ l. is_lock_of self.now.0 (value draft.now.trail (Lock l)))) above result }
    {
        draft.next_held(self.0, above)
    }
}

/// Those names of a kind that are there and meet a test.
#[derive(Drop)]
struct ThatMeet<T>(T);

impl<N: Listed, T: Test<N> + Drop> Choice<N> for ThatMeet<T> {
    ghost lt = { N.lt };

    ghost is_in = { λ c t n. is_chosen (is_there N.key_of N.is_fact t) (T.meets c.0 t) n };

    ghost among = { λ c t. insert_some N.lt N.first (names N.lt N.name_in t) };

    ghost whole = { λ c t. (
        let all = enumerated N.lt N.order N.name_in N.key_of N.is_fact N.first N.keys t in
        record {
          order = all.order;
          ascending = all.ascending;
          complete = λ n e. all.complete n (both (is_there N.key_of N.is_fact t n) (T.meets c.0 t n) e).0;
        }
        ) };

    fn next(&self, draft: &Draft, above: Option<N>) -> Option<N>
        ensures { IsNext N.lt (is_chosen (is_there N.key_of N.is_fact draft.now.trail) (T.meets self.now.0 draft.now.trail)) above result }
    {
        draft.next_that(&self.0, above)
    }
}

impl Draft {
    /// A task is done with each name of a choice, in order. It leaves those above a name in the choice, and what the
    /// choice rests on.
    pub fn for_each<N: Copy, C: Choice<N>, X: Task<N>>(&mut self, choice: &C, task: &mut X)
        requires spares { SparesAbove C.lt (C.is_in choice.now) (X.does task.old) }
        requires stays { StaysSuited (C.suits choice.now) (X.does task.old) }
        requires suits { C.suits choice.now self.old.trail }
        requires agrees { X.agrees task.old self.old.trail }
        requires room { Fits (λ t. each (X.does task.old) (filter (C.is_in choice.now t) (C.among choice.now t)) t) self.old }
        ensures marked { self.new ≡ marked_by (λ t. each (X.does task.old) (filter (C.is_in choice.now t) (C.among choice.now t)) t) self.old }
        ensures agrees { X.agrees task.new self.new.trail }
    {
        let mut above = None;
        while let Some(name) = choice.next(self, above) {
            task.run(self, name);
            above = Some(name);
        }
    }

    /// A task is done with each name of a kind that is there and meets a test, in order.
    pub fn for_each_that<N: Listed, T: Test<N> + Drop, X: Task<N>>(&mut self, test: T, task: &mut X)
        requires spares { SparesAbove N.lt (λ t. is_chosen (is_there N.key_of N.is_fact t) (T.meets test t)) (X.does task.old) }
        requires agrees { X.agrees task.old self.old.trail }
        requires room { Fits (λ t. each (X.does task.old) (filter (T.meets test t) (listed N.lt N.name_in N.key_of N.is_fact N.first t)) t) self.old }
        ensures marked { self.new ≡ marked_by (λ t. each (X.does task.old) (filter (T.meets test t) (listed N.lt N.name_in N.key_of N.is_fact N.first t)) t) self.old }
        ensures agrees { X.agrees task.new self.new.trail }
    {
        self.for_each(&ThatMeet(test), task);
    }
}
