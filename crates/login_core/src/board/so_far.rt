// The facts of a draft, as they stand for the marks so far. More can be put at the end of its list meanwhile.

ghost use Rattle.std.specs.Prelude.{◌≡◌};
ghost use Rattle.login_facts.specs.Counts.{AreCounted};
ghost use Rattle.login_facts.specs.Facts.{StandFor};
ghost use Rattle.login_core.specs.inner.UnderWay.{so_far};

use login_base::{ConnId, DevNo, HandleNo, LockNo, Reserved, SeatName, SessId, Uid};
use login_facts::{Counts, Facts};
use login_model::{Fact, Journal, Key, LockMode, Look, Mark, OpKind};
use std::marker::Model;
use std::snapshot::Snapshot;

/// The facts as a journal and some marks leave them. Only contracts see which these are.
#[derive(Drop)]
pub struct SoFar<'a> {
    facts: &'a Facts,
    journal: &'a Snapshot<Journal>,
    marks: Snapshot<Reserved<Mark>>,
}

impl<'a> Model for SoFar<'a> {
    ghost use Rattle.login_model.specs.Trail.{Trail};
    ghost use Rattle.login_facts.specs.Facts.{StandFor};
    ghost use Rattle.login_core.specs.inner.UnderWay.{so_far};

    ghost Value = { Trail };

    ghost view = { λ s. so_far s.journal.now.value.items s.marks.value.items };

    ghost invariant = { λ s. StandFor s.facts.now (so_far s.journal.now.value.items s.marks.value.items) };
}

impl<'a> SoFar<'a> {
    /// The facts as these marks leave them.
    pub fn of(facts: &'a Facts, journal: &'a Snapshot<Journal>, marks: &Reserved<Mark>) -> SoFar<'a>
        requires { StandFor facts.now (so_far journal.now.value.items marks.now.items) }
        ensures { result ≡ so_far journal.now.value.items marks.now.items }
    {
        SoFar {
            facts,
            journal,
            marks: Snapshot::of(marks),
        }
    }

    /// How many there are of what is counted.
    fn counts(&self) -> Counts
        ensures { AreCounted result self.now }
    {
        self.facts.counts()
    }

    /// The facts.
    pub fn facts(&self) -> &Facts
        ensures { StandFor result.now self.now }
    {
        self.facts
    }
}

impl<'a> Look for SoFar<'a> {
    ghost trail = { λ s. s };

    fn fact(&self, key: &Key) -> &Fact {
        self.facts.fact(key)
    }

    fn fresh_handle(&self) -> HandleNo {
        self.facts.fresh_handle()
    }

    fn next_session(&self, after: Option<SessId>) -> Option<SessId> {
        self.facts.next_session(after)
    }

    fn next_user(&self, after: Option<Uid>) -> Option<Uid> {
        self.facts.next_user(after)
    }

    fn next_seat(&self, after: Option<SeatName>) -> Option<SeatName> {
        self.facts.next_seat(after)
    }

    fn next_device(&self, after: Option<DevNo>) -> Option<DevNo> {
        self.facts.next_device(after)
    }

    fn next_taken(&self, session: SessId, after: Option<DevNo>) -> Option<DevNo> {
        self.facts.next_taken(session, after)
    }

    fn next_taker(&self, device: DevNo, after: Option<SessId>) -> Option<SessId> {
        self.facts.next_taker(device, after)
    }

    fn next_lock(&self, after: Option<LockNo>) -> Option<LockNo> {
        self.facts.next_lock(after)
    }

    fn next_conn(&self, after: Option<ConnId>) -> Option<ConnId> {
        self.facts.next_conn(after)
    }

    fn session_count(&self) -> u32 {
        self.facts.counts().present
    }

    fn conn_count(&self) -> u32 {
        self.facts.counts().connections
    }

    fn device_count(&self) -> u32 {
        self.facts.counts().devices
    }

    fn lock_count(&self) -> u32 {
        self.facts.counts().locks
    }

    fn is_held_up(&self, kind: OpKind, mode: LockMode) -> bool {
        0 < self.counts().holding(kind, mode)
    }

    fn on_terminal(&self, vt: u32) -> Option<SessId> {
        self.session_on(vt)
    }

    fn is_seated(&self, uid: u32) -> bool {
        self.has_seat(uid)
    }

    fn is_active_user(&self, uid: u32) -> bool {
        self.has_active(uid)
    }
}
