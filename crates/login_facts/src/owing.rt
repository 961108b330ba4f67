// What connections owe: the marks that the end of each makes for its sessions and its locks.

ghost use Rattle.std.specs.Prelude.{ℕ, ◌≡◌, ◌+◌, ◌<◌, ◌≤◌, ◌^◌, [], IfSome, OnOk, false};
ghost use Rattle.login_base.specs.declared.ids.ConnId.{ConnId as AnyConnection};
ghost use Rattle.login_base.specs.declared.ids.SessId.{SessId as AnySession};
ghost use Rattle.login_model.specs.Trail.{Trail, value};
ghost use Rattle.login_facts.specs.Dues.{AreOwed, AreTaken, EachCharged, EachDue, HasRow, HasTaker, AllNamesKnown, WasConnected, charge_at, connection_in, dues_at, new_rows, new_takers, taker_at, taker_in, taker_in_key, touched_at, touched_by};
ghost use Rattle.login_facts.specs.Facts.{TablesStand};
ghost use Rattle.login_facts.specs.Owing.{charge, due_at, keeper, keeper_in, of_some, other_than};
ghost use Rattle.login_facts.specs.Sums.{KeepRows, has_row, sum_in};

use crate::facts::Facts;
use crate::key_room::KeyRoom;
use crate::sums::Sums;
use login_base::{ConnId, LockNo, NoMemory, SessId};
use login_model::{Fact, Key};
use std::alloc::Global;

/// What a setting tells of: sessions, of which a handle may go from one to another, or a lock.
#[derive(Clone, Copy)]
pub enum Touched {
    /// Sessions, one, two or none.
    Sessions(Option<SessId>, Option<SessId>),
    /// A lock.
    Lock(LockNo),
}

/// The second session, if it is there and is not the first.
fn other_than(one: Option<SessId>, other: Option<SessId>) -> Option<SessId>
    ensures { result ≡ other_than one other }
{
    match (one, other) {
        (Some(one), Some(other)) => { if one.0 == other.0 { None } else { Some(other) } }
        (None, Some(other)) => Some(other),
        (_, None) => None,
    }
}

impl Touched {
    /// What a setting of a key from one fact to another tells of.
    pub fn by(key: &Key, before: &Fact, fact: &Fact) -> Touched
        ensures { result ≡ touched_by key.now before.now fact.now }
    {
        match key {
            Key::Ctl(session) => Touched::Sessions(Some(*session), None),
            Key::Sess(session) => Touched::Sessions(Some(*session), None),
            Key::Taken(session, _) => Touched::Sessions(Some(*session), None),
            Key::Owner(_) => {
                let first = before.fifo_session();
                Touched::Sessions(first, other_than(first, fact.fifo_session()))
            }
            Key::Lock(lock) => Touched::Lock(*lock),
            _ => Touched::Sessions(None, None),
        }
    }
}

/// The connection whose key this is.
pub fn connection_in(key: &Key) -> Option<ConnId>
    ensures { result ≡ connection_in key.now }
{
    match key {
        Key::Conn(who) => Some(*who),
        _ => None,
    }
}

/// The session that a key of what is taken is about.
pub fn taker_in_key(key: &Key) -> Option<SessId>
    ensures { result ≡ taker_in_key key.now }
{
    match key {
        Key::Taken(session, _) => Some(*session),
        _ => None,
    }
}

/// The session that a fact says has a device taken.
pub fn taker_in(key: &Key, fact: &Fact) -> Option<SessId>
    ensures { result ≡ taker_in key.now fact.now }
{
    match key {
        Key::Taken(session, _) => {
            if fact.is_handle() {
                Some(*session)
            } else {
                None
            }
        }
        _ => None,
    }
}

/// The connection that keeps a session open with the handle of a fact.
fn keeper_in(session: SessId, fact: &Fact) -> Option<ConnId>
    ensures { result ≡ keeper_in session fact.now }
{
    if fact.fifo_session()?.0 == session.0 {
        fact.fifo_owner()
    } else {
        None
    }
}

/// What a session makes at the ends of the connections that have it.
#[derive(Clone, Copy)]
pub struct Charge {
    /// Who controls it.
    controller: Option<ConnId>,
    /// Who keeps it open.
    keeper: Option<ConnId>,
    /// How many devices it has taken.
    taken: u32,
}

impl Charge {
    /// Nothing.
    const NONE: Charge = Charge {
        controller: None,
        keeper: None,
        taken: 0,
    };

    /// Who keeps a session of this fact open.
    fn keeper(facts: &Facts, session: SessId, fact: &Fact) -> Option<ConnId>
        ensures { (t : Trail) → TablesStand facts.now t → fact.now ≡ value t (Key.Sess session) → result ≡ keeper t session }
    {
        if fact.is_open() {
            keeper_in(session, facts.read(&Key::Owner(fact.fifo())))
        } else {
            None
        }
    }

    /// What a session makes.
    fn of(facts: &Facts, session: SessId) -> Charge
        requires few { sum_in facts.now.owing.taken.items session.0 < 2 ^ 32 }
        ensures charge { (t : Trail) → TablesStand facts.now t → AreTaken facts.now.owing t → (c : AnyConnection) → charge_at result c ≡ charge t c session }
        ensures known { (t : Trail) → TablesStand facts.now t → AllNamesKnown t → EachCharged (WasConnected t) result }
    {
        let fact = facts.read(&Key::Sess(session));
        if !fact.is_session() {
            return Charge::NONE;
        }
        Charge {
            controller: facts.read(&Key::Ctl(session)).controller(),
            keeper: Charge::keeper(facts, session, fact),
            taken: facts.taken_by(session),
        }
    }

    /// What a session makes that there may be.
    fn of_some(facts: &Facts, session: Option<SessId>) -> Charge
        requires few { (s : AnySession) → sum_in facts.now.owing.taken.items s.0 < 2 ^ 32 }
        ensures charge { (t : Trail) → TablesStand facts.now t → AreTaken facts.now.owing t → (c : AnyConnection) → charge_at result c ≡ of_some (charge t c) session }
        ensures known { (t : Trail) → TablesStand facts.now t → AllNamesKnown t → EachCharged (WasConnected t) result }
    {
        match session {
            Some(session) => Charge::of(facts, session),
            None => Charge::NONE,
        }
    }
}

/// What all that a setting touches makes at the ends of connections.
#[derive(Clone, Copy)]
pub enum Dues {
    /// What two sessions make.
    Sessions(Charge, Charge),
    /// What a lock makes, by its holder.
    Lock(Option<ConnId>),
}

impl Dues {
    /// What is due of what a setting touches.
    pub fn of(facts: &Facts, touched: Touched) -> Dues
        requires few { (s : AnySession) → sum_in facts.now.owing.taken.items s.0 < 2 ^ 32 }
        ensures dues { (t : Trail) → TablesStand facts.now t → AreTaken facts.now.owing t → (c : AnyConnection) → dues_at result c ≡ touched_at t c touched }
        ensures known { (t : Trail) → TablesStand facts.now t → AllNamesKnown t → EachDue (WasConnected t) result }
    {
        match touched {
            Touched::Sessions(one, other) => {
                Dues::Sessions(Charge::of_some(facts, one), Charge::of_some(facts, other))
            }
            Touched::Lock(lock) => Dues::Lock(facts.read(&Key::Lock(lock)).lock_holder()),
        }
    }
}

/// What connections owe, and how many devices sessions have taken.
#[derive(Drop)]
pub struct Owing {
    /// The marks of each connection's end. Each that was connected has a row.
    pub marks: Sums,
    /// How many devices each session has taken. Each that took one once has a row.
    pub taken: Sums,
}

impl Owing {
    /// Nobody owes anything. It takes no memory.
    pub fn new(alloc: Global) -> Owing
        ensures { AreOwed result [] }
    {
        Owing {
            marks: Sums::new(alloc),
            taken: Sums::new(alloc),
        }
    }

    /// Makes room for so many more keys of each part. Any of the others may be of a connection that comes, any of what is
    /// taken of a session that takes its first device.
    pub fn reserve(&mut self, keys: KeyRoom) -> Result<(), NoMemory>
        ensures marks { OnOk result (keys.others ≤ self.new.marks.spare) }
        ensures taken { OnOk result (keys.taken ≤ self.new.taken.spare) }
        ensures keeps_marks { self.old.marks.spare ≤ self.new.marks.spare }
        ensures keeps_taken { self.old.taken.spare ≤ self.new.taken.spare }
        ensures owed { (t : Trail) → AreOwed self.old t → AreOwed self.new t }
    {
        self.marks.reserve(keys.others)?;
        self.taken.reserve(keys.taken)
    }

    /// A connection that comes, and a session that takes its first device, have a row from then on. It takes no memory.
    pub fn welcome(&mut self, comer: Option<ConnId>, taker: Option<SessId>)
        requires room { IfSome comer (λ c. has_row self.old.marks.items c.0 ≡ false → 0 < self.old.marks.spare) }
        requires taker_room { IfSome taker (λ s. has_row self.old.taken.items s.0 ≡ false → 0 < self.old.taken.spare) }
        ensures marks { (n : ℕ) → sum_in self.new.marks.items n ≡ sum_in self.old.marks.items n }
        ensures row { IfSome comer (HasRow self.new) }
        ensures rows { KeepRows self.old.marks.items self.new.marks.items }
        ensures spare { self.old.marks.spare ≤ self.new.marks.spare + new_rows self.old comer }
        ensures taken { (n : ℕ) → sum_in self.new.taken.items n ≡ sum_in self.old.taken.items n }
        ensures taker { IfSome taker (HasTaker self.new) }
        ensures takers { KeepRows self.old.taken.items self.new.taken.items }
        ensures taken_spare { self.old.taken.spare ≤ self.new.taken.spare + new_takers self.old taker }
    {
        if let Some(who) = comer {
            self.marks.open(who.0);
        }
        if let Some(session) = taker {
            self.taken.open(session.0);
        }
    }

    /// A connection that there may be owes so much less, and not nothing.
    fn lose_at(&mut self, who: Option<ConnId>, lost: u64)
        requires some { 0 < lost }
        requires within { (c : AnyConnection) → due_at who lost c ≤ sum_in self.old.marks.items c.0 }
        ensures marks { (c : AnyConnection) → sum_in self.new.marks.items c.0 + due_at who lost c ≡ sum_in self.old.marks.items c.0 }
        ensures rows { KeepRows self.old.marks.items self.new.marks.items }
        ensures spare { self.old.marks.spare ≤ self.new.marks.spare }
        ensures taken { self.new.taken ≡ self.old.taken }
    {
        if let Some(who) = who {
            self.marks.lose(who.0, lost);
        }
    }

    /// A connection that there may be owes so much more.
    fn gain_at(&mut self, who: Option<ConnId>, gained: u64)
        requires row { IfSome who (HasRow self.old) }
        requires bound { (c : AnyConnection) → sum_in self.old.marks.items c.0 + due_at who gained c < 2 ^ 64 }
        ensures marks { (c : AnyConnection) → sum_in self.new.marks.items c.0 ≡ sum_in self.old.marks.items c.0 + due_at who gained c }
        ensures rows { KeepRows self.old.marks.items self.new.marks.items }
        ensures spare { self.old.marks.spare ≤ self.new.marks.spare }
        ensures taken { self.new.taken ≡ self.old.taken }
    {
        if let Some(who) = who {
            self.marks.gain(who.0, gained);
        }
    }

    /// What a session makes is owed no more.
    fn lose_charge(&mut self, lost: Charge)
        requires { (c : AnyConnection) → charge_at lost c ≤ sum_in self.old.marks.items c.0 }
        ensures marks { (c : AnyConnection) → sum_in self.new.marks.items c.0 + charge_at lost c ≡ sum_in self.old.marks.items c.0 }
        ensures rows { KeepRows self.old.marks.items self.new.marks.items }
        ensures spare { self.old.marks.spare ≤ self.new.marks.spare }
        ensures taken { self.new.taken ≡ self.old.taken }
    {
        let devices = 2 * u64::from(lost.taken);
        self.lose_at(lost.controller, 1 + devices);
        self.lose_at(lost.keeper, 4 + devices);
    }

    /// What a session makes is owed as well.
    fn gain_charge(&mut self, gained: Charge)
        requires rows { EachCharged (HasRow self.old) gained }
        requires bound { (c : AnyConnection) → sum_in self.old.marks.items c.0 + charge_at gained c < 2 ^ 64 }
        ensures marks { (c : AnyConnection) → sum_in self.new.marks.items c.0 ≡ sum_in self.old.marks.items c.0 + charge_at gained c }
        ensures rows { KeepRows self.old.marks.items self.new.marks.items }
        ensures spare { self.old.marks.spare ≤ self.new.marks.spare }
        ensures taken { self.new.taken ≡ self.old.taken }
    {
        let devices = 2 * u64::from(gained.taken);
        self.gain_at(gained.controller, 1 + devices);
        self.gain_at(gained.keeper, 4 + devices);
    }

    /// What is due is owed no more.
    pub fn lose(&mut self, lost: Dues)
        requires { (c : AnyConnection) → dues_at lost c ≤ sum_in self.old.marks.items c.0 }
        ensures marks { (c : AnyConnection) → sum_in self.new.marks.items c.0 + dues_at lost c ≡ sum_in self.old.marks.items c.0 }
        ensures rows { KeepRows self.old.marks.items self.new.marks.items }
        ensures spare { self.old.marks.spare ≤ self.new.marks.spare }
        ensures taken { self.new.taken ≡ self.old.taken }
    {
        match lost {
            Dues::Sessions(one, other) => {
                self.lose_charge(one);
                self.lose_charge(other);
            }
            Dues::Lock(holder) => self.lose_at(holder, 2),
        }
    }

    /// What is due is owed as well.
    pub fn gain(&mut self, gained: Dues)
        requires rows { EachDue (HasRow self.old) gained }
        requires bound { (c : AnyConnection) → sum_in self.old.marks.items c.0 + dues_at gained c < 2 ^ 64 }
        ensures marks { (c : AnyConnection) → sum_in self.new.marks.items c.0 ≡ sum_in self.old.marks.items c.0 + dues_at gained c }
        ensures rows { KeepRows self.old.marks.items self.new.marks.items }
        ensures spare { self.old.marks.spare ≤ self.new.marks.spare }
        ensures taken { self.new.taken ≡ self.old.taken }
    {
        match gained {
            Dues::Sessions(one, other) => {
                self.gain_charge(one);
                self.gain_charge(other);
            }
            Dues::Lock(holder) => self.gain_at(holder, 2),
        }
    }

    /// A session that there may be has taken a device less.
    fn lose_taker(&mut self, lost: Option<SessId>)
        requires { (s : AnySession) → taker_at lost s ≤ sum_in self.old.taken.items s.0 }
        ensures taken { (s : AnySession) → sum_in self.new.taken.items s.0 + taker_at lost s ≡ sum_in self.old.taken.items s.0 }
        ensures rows { KeepRows self.old.taken.items self.new.taken.items }
        ensures spare { self.old.taken.spare ≤ self.new.taken.spare }
        ensures marks { self.new.marks ≡ self.old.marks }
    {
        if let Some(session) = lost {
            self.taken.lose(session.0, 1);
        }
    }

    /// A session that there may be has taken a device more.
    fn gain_taker(&mut self, gained: Option<SessId>)
        requires row { IfSome gained (HasTaker self.old) }
        requires bound { (s : AnySession) → sum_in self.old.taken.items s.0 + taker_at gained s < 2 ^ 64 }
        ensures taken { (s : AnySession) → sum_in self.new.taken.items s.0 ≡ sum_in self.old.taken.items s.0 + taker_at gained s }
        ensures rows { KeepRows self.old.taken.items self.new.taken.items }
        ensures spare { self.old.taken.spare ≤ self.new.taken.spare }
        ensures marks { self.new.marks ≡ self.old.marks }
    {
        if let Some(session) = gained {
            self.taken.gain(session.0, 1);
        }
    }

    /// A session has taken a device less, and one has taken a device more. It takes no memory.
    pub fn shift(&mut self, lost: Option<SessId>, gained: Option<SessId>)
        requires within { (s : AnySession) → taker_at lost s ≤ sum_in self.old.taken.items s.0 }
        requires row { IfSome gained (HasTaker self.old) }
        requires bound { (s : AnySession) → sum_in self.old.taken.items s.0 + taker_at gained s < 2 ^ 64 }
        ensures taken { (s : AnySession) → sum_in self.new.taken.items s.0 + taker_at lost s ≡ sum_in self.old.taken.items s.0 + taker_at gained s }
        ensures rows { KeepRows self.old.taken.items self.new.taken.items }
        ensures spare { self.old.taken.spare ≤ self.new.taken.spare }
        ensures marks { self.new.marks ≡ self.old.marks }
    {
        self.lose_taker(lost);
        self.gain_taker(gained);
    }
}
