// The marks of the entry under way, with the facts that the marks leave; and the journal beside them.

pub mod choosing;
pub mod concerning;
pub mod ends;
pub mod going_over;
pub mod having;
pub mod keys;
pub mod rounds;
pub mod seated;
pub mod setting;
pub mod shares;
pub mod so_far;
pub mod taking_over;

ghost use Rattle.std.specs.Prelude.{ℕ, ◌≡◌, ◌==◌, ◌+◌, ◌<◌, ◌≤◌, ◌^◌, [], false, IfOk, IsSome, List, OnOk, OnErr, Some, length};
ghost use Rattle.login_base.specs.declared.ids.ConnId.{ConnId as AnyConnection};
ghost use Rattle.login_base.specs.declared.ids.DevNo.{DevNo as AnyDevice};
ghost use Rattle.login_base.specs.declared.ids.HandleNo.{HandleNo as AnyHandle};
ghost use Rattle.login_model.specs.declared.answer.Input.{Input as AnyInput};
ghost use Rattle.login_model.specs.declared.mark.Mark.{Mark as AnyMark};
ghost use Rattle.login_model.specs.Trail.{after, put};
ghost use Rattle.login_laws.specs.Amounts.{Part as AnyPart, keys_in};
ghost use Rattle.login_facts.specs.KeyRooms.{keys_of};
ghost use Rattle.login_model.specs.Fresh.{next_lock, next_session};
ghost use Rattle.login_facts.specs.Counts.{AreCounted};
ghost use Rattle.device_model.specs.Ears.{heard_of};
ghost use Rattle.login_facts.specs.Dues.{NamesKnown};
ghost use Rattle.login_facts.specs.Counts.{leavers};
ghost use Rattle.login_core.specs.inner.Draft.{marked_by, reaching, tell, with_ears, with_keys, with_rings, Fits};
ghost use Rattle.login_facts.specs.Ears.{AreEnough, ListenLive, settled};
ghost use Rattle.login_core.specs.inner.Ledger.{end_room, next_room, with_trimmed};
ghost use Rattle.login_facts.specs.Rings.{ring_count};

use crate::board::so_far::SoFar;
use crate::room::ledger::Ledger;
use login_base::{ConnId, DevNo, HandleNo, LockNo, NoMemory, Reserved, SeatName, SessId, Uid};
use login_facts::{Counts, Facts, KeyRoom, with_more};
use login_model::{
    Answer, Event, Fact, Input, Inputs, Journal, Key, LockMode, Look, Mark, Notice, OpKind,
    Verdict, Whom, is_same_fact,
};
use std::alloc::Global;
use std::marker::Model;
use std::mem;
use std::snapshot::Snapshot;

/// How many marks there may be in all.
#[derive(Clone, Copy)]
pub struct Reach {
    /// With those of the entry under way: its list has room for them.
    pub entry: u32,
    /// With those of later entries too: what stands beside the tables has room for them.
    pub all: u32,
}

/// The marks of the entry under way, and the facts that they leave with those before them. The journal is
/// apart: only contracts see it here.
#[derive(Drop)]
pub struct Draft {
    journal: Snapshot<Journal>,
    marks: Reserved<Mark>,
    facts: Facts,
    /// How many marks there are in all.
    made: u32,
    reach: Reach,
}

impl Model for Draft {
    ghost use Rattle.login_core.specs.inner.Draft.{DraftState, IsDraft, all_keys};
    ghost use Rattle.login_core.specs.inner.UnderWay.{so_far};
    ghost use Rattle.std.specs.Prelude.{◌+◌};
    ghost use Rattle.login_model.specs.Legal.{trail_of};

    ghost Value = { DraftState };

    ghost view = { λ d. record {
      before = trail_of d.journal.value.items;
      trail = so_far d.journal.value.items d.marks.items;
      reach = d.reach.entry;
      far = d.reach.all;
      keys = all_keys (so_far d.journal.value.items d.marks.items) d.facts.fresh;
      ears = d.facts.ears;
      rings = d.facts.rings;
    } };

    ghost invariant = { λ d. IsDraft (so_far d.journal.value.items d.marks.items) d.marks d.facts d.made d.reach };
}

impl Draft {
    /// No marks, and room for none. It takes no memory.
    pub fn new(alloc: Global) -> Draft
        ensures before { result.before ≡ [] }
        ensures trail { result.trail ≡ [] }
        ensures reach { result.reach ≡ 0 }
        ensures far { result.far ≡ 0 }
        ensures ears { result.ears ≡ [] }
    {
        Draft {
            journal: Snapshot::of(&Journal::new(alloc)),
            marks: Reserved::new(alloc),
            facts: Facts::new(alloc),
            made: 0,
            reach: Reach { entry: 0, all: 0 },
        }
    }

    /// Whether a user leaves. Where none does, no delay is over.
    pub fn has_leavers(&self) -> bool
        ensures { result ≡ false → leavers self.now.trail ≡ [] }
    {
        0 < self.facts.counts().leaving
    }

    /// How many marks there are in all.
    pub fn made(&self) -> u32
        ensures count { result ≡ length self.now.trail }
        ensures within { result ≤ self.now.reach }
    {
        self.made
    }

    /// How far marks may go so that there is room for so many in all: an eighth further than is asked for, where it is
    /// not made so far yet. What connections have is gone over when it gets room, so it gets it for some entries to come.
    fn far_for(&self, far: u32) -> u32
        requires { far + 2 < 2 ^ 31 }
        ensures far { far ≤ result }
        ensures keeps { self.now.far ≤ result }
        ensures numbered { result + 2 < 2 ^ 32 }
        ensures within { length self.now.trail ≤ self.now.reach }
    {
        if far <= self.reach.all {
            self.reach.all
        } else {
            self.made + with_more((far - self.made) as usize) as u32
        }
    }

    /// Makes room for so many more marks of the entry under way, for so many in all, each of which may be a setting,
    /// and for so many more keys of each part that were not set before.
    pub fn reserve(&mut self, next: u32, far: u32, keys: KeyRoom) -> Result<(), NoMemory>
        requires more { self.old.far ≤ far }
        requires within { length self.old.trail + next ≤ far }
        requires numbered { far + 2 < 2 ^ 32 }
        ensures made { OnOk result (self.new ≡ with_keys self.new.keys (reaching (length self.old.trail + next) far self.old)) }
        ensures keys { OnOk result ((p : AnyPart) → keys_in p self.old.trail + keys_of p keys ≤ keys_of p self.new.keys) }
        ensures keeps_keys { (p : AnyPart) → keys_of p self.old.keys ≤ keys_of p self.new.keys }
        ensures refused { OnErr result (self.new ≡ self.old) }
    {
        self.marks.reserve(with_more(next as usize))?;
        self.facts.reserve((far - self.made) as usize)?;
        self.facts.reserve_keys(keys)?;
        self.reach = Reach {
            entry: self.made + next,
            all: far,
        };
        Ok(())
    }

    /// The marks of closed entries are put in memory of their size. The widest list that comes free so is that of the
    /// entry under way, if its own is narrower.
    fn trim(&mut self, journal: &mut Ledger) -> Result<(), NoMemory>
        requires { self.old.trail ≡ self.old.before }
        ensures same { self.new ≡ self.old }
        ensures all { OnOk result (journal.new.trimmed ≡ length journal.new.items) }
        ensures journal { journal.new ≡ with_trimmed journal.new.trimmed journal.old }
    {
        journal.trim(&mut self.marks)
    }

    /// This list becomes that of the entry under way. The answer is the one before. It takes no memory.
    fn change_list(&mut self, list: Reserved<Mark>) -> Reserved<Mark>
        requires empty { list.items ≡ [] }
        requires no_marks { self.old.trail ≡ self.old.before }
        ensures room { (n : ℕ) → n ≤ list.spare → length self.old.trail + n ≤ self.old.far → length self.old.trail + n ≤ self.new.reach }
        ensures rest { self.new ≡ reaching self.new.reach self.old.far self.old }
        ensures empty { result.items ≡ [] }
    {
        let more = list.spare().min((self.reach.all - self.made) as usize);
        self.reach.entry = self.made + more as u32;
        mem::replace(&mut self.marks, list)
    }

    /// Makes rings for so many handles, with those that are in use.
    pub fn make_rings(&mut self, handles: usize) -> Result<(), NoMemory>
        ensures ok { OnOk result (handles ≤ ring_count self.new.ears self.new.rings) }
        ensures rings { self.old.rings ≤ self.new.rings }
        ensures rest { self.new ≡ with_rings self.new.rings self.old }
    {
        self.facts.make_rings(handles)
    }

    /// What a handle that listens has heard, the oldest first.
    pub fn heard(&self, handle: HandleNo) -> &[Input]
        requires { IsSome (heard_of self.now.ears handle) }
        ensures { (d : AnyDevice) (xs : List AnyInput) → heard_of self.now.ears handle ≡ Some (d, xs) → result.now ≡ xs }
    {
        self.facts.heard(handle)
    }

    /// What handles hear is settled behind the marks of the entry under way. What is read goes to `read`. It
    /// takes no memory.
    pub fn settle_ears(&mut self, event: &Event, verdict: Verdict, read: &mut Inputs)
        requires live { ListenLive self.old.ears self.old.before }
        requires enough { AreEnough (ring_count self.old.ears self.old.rings) self.old.trail }
        ensures heard { (ms : List AnyMark) → after self.old.before ms ≡ self.old.trail → (h : AnyHandle) → heard_of self.new.ears h ≡ settled h event.now verdict ms self.old.trail self.old.trail (heard_of self.old.ears h) }
        ensures rings { ring_count self.new.ears self.new.rings ≡ ring_count self.old.ears self.old.rings }
        ensures rest { self.new ≡ with_ears self.new.ears self.new.rings self.old }
    {
        self.facts
            .settle_ears(event, verdict, self.marks.as_slice(), read);
    }

    /// The number of the next session.
    pub fn fresh_session(&self) -> SessId
        ensures { result ≡ next_session self.now.trail }
    {
        self.facts.fresh_session()
    }

    /// The number of the next lock.
    pub fn fresh_lock(&self) -> LockNo
        ensures { result ≡ next_lock self.now.trail }
    {
        self.facts.fresh_lock()
    }

    /// How many there are of what is counted.
    pub fn counts(&self) -> Counts
        ensures { AreCounted result self.now.trail }
    {
        self.facts.counts()
    }

    /// The facts, as they stand for the marks so far.
    pub fn so_far(&self) -> SoFar<'_>
        ensures { result ≡ self.now.trail }
    {
        SoFar::of(&self.facts, &self.journal, &self.marks)
    }

    /// Sets a fact, unless it is so already. The fact comes twice: for the mark and for the facts.
    /// A connection that the fact names was connected once.
    pub fn put(&mut self, key: Key, fact: Fact, copy: Fact)
        requires copy { copy ≡ fact }
        requires known { NamesKnown fact self.old.trail }
        requires room { Fits (put key fact) self.old }
        ensures marked { self.new ≡ marked_by (put key fact) self.old }
    {
        if is_same_fact(self.fact(&key), &fact) {
            return;
        }
        self.made += 1;
        self.facts.set(key, copy);
        self.marks.push(Mark::Set(key, fact));
    }

    /// Sends a notice.
    pub fn tell(&mut self, whom: Whom, notice: Notice)
        requires room { Fits (tell whom notice) self.old }
        ensures marked { self.new ≡ marked_by (tell whom notice) self.old }
    {
        self.made += 1;
        self.marks.push(Mark::Say(whom, notice));
    }
}

impl Look for Draft {
    ghost trail = { λ d. d.trail };

    fn fact(&self, key: &Key) -> &Fact {
        self.facts.fact(key)
    }

    fn fresh_handle(&self) -> HandleNo {
        self.facts.fresh_handle()
    }

    fn next_session(&self, after: Option<SessId>) -> Option<SessId> {
        self.facts.next_session(after)
    }

    fn next_user(&self, after: Option<Uid>) -> Option<Uid> {
        self.facts.next_user(after)
    }

    fn next_seat(&self, after: Option<SeatName>) -> Option<SeatName> {
        self.facts.next_seat(after)
    }

    fn next_device(&self, after: Option<DevNo>) -> Option<DevNo> {
        self.facts.next_device(after)
    }

    fn next_taken(&self, session: SessId, after: Option<DevNo>) -> Option<DevNo> {
        self.facts.next_taken(session, after)
    }

    fn next_taker(&self, device: DevNo, after: Option<SessId>) -> Option<SessId> {
        self.facts.next_taker(device, after)
    }

    fn next_lock(&self, after: Option<LockNo>) -> Option<LockNo> {
        self.facts.next_lock(after)
    }

    fn next_conn(&self, after: Option<ConnId>) -> Option<ConnId> {
        self.facts.next_conn(after)
    }

    fn session_count(&self) -> u32 {
        self.facts.counts().present
    }

    fn conn_count(&self) -> u32 {
        self.facts.counts().connections
    }

    fn device_count(&self) -> u32 {
        self.facts.counts().devices
    }

    fn lock_count(&self) -> u32 {
        self.facts.counts().locks
    }

    fn is_held_up(&self, kind: OpKind, mode: LockMode) -> bool {
        self.so_far().is_held_up(kind, mode)
    }

    fn on_terminal(&self, vt: u32) -> Option<SessId> {
        self.so_far().session_on(vt)
    }

    fn is_seated(&self, uid: u32) -> bool {
        self.so_far().has_seat(uid)
    }

    fn is_active_user(&self, uid: u32) -> bool {
        self.so_far().has_active(uid)
    }
}

/// The journal, and the entry under way.
#[derive(Drop)]
pub struct Board {
    pub journal: Ledger,
    pub draft: Draft,
    /// The list of the entry under way waits here while the marks of a connection's end go to that end's own. At other
    /// times it is one without memory.
    idle: Reserved<Mark>,
    pub alloc: Global,
}

impl Board {
    ghost use Rattle.login_model.specs.Legal.{trail_of};
    ghost use Rattle.login_core.specs.inner.Board.{Closes, IsBegun};

    /// The empty journal, and no marks. It takes no memory.
    fn new(alloc: Global) -> Board
        ensures journal { result.journal.items ≡ [] }
        ensures marks { result.draft.trail ≡ [] }
        ensures ears { result.draft.ears ≡ [] }
        ensures ends { (c : AnyConnection) → end_room result.journal c ≡ 0 }
        ensures begun { IsBegun result }
    {
        Board {
            journal: Ledger::new(alloc),
            draft: Draft::new(alloc),
            idle: Reserved::new(alloc),
            alloc,
        }
    }

    /// The empty journal with room for an entry, and no marks.
    pub fn with_room(alloc: Global) -> Result<Board, NoMemory>
        ensures journal { IfOk result (λ board. board.journal.items ≡ []) }
        ensures entries { IfOk result (λ board. 1 ≤ board.journal.entries) }
        ensures marks { IfOk result (λ board. board.draft.trail ≡ []) }
        ensures ears { IfOk result (λ board. board.draft.ears ≡ []) }
        ensures ends { IfOk result (λ board. (c : AnyConnection) → end_room board.journal c ≡ 0) }
        ensures begun { IfOk result (λ board. IsBegun board) }
    {
        let mut board = Board::new(alloc);
        match board.reserve(1, 0, 0, KeyRoom::NONE) {
            Ok(()) => Ok(board),
            Err(NoMemory) => {
                drop(board);
                Err(NoMemory)
            }
        }
    }

    /// Makes room for so many more entries, for so many marks of the next one, for so many marks in all, each of which
    /// may be a setting, and for so many more keys of each part that were not set before. The entries, the marks in all
    /// and the keys for which there is room already stay.
    pub fn reserve(
        &mut self,
        entries: u32,
        next: u32,
        far: u32,
        keys: KeyRoom,
    ) -> Result<(), NoMemory>
        requires within { length self.old.draft.trail + next ≤ far }
        requires numbered { far + 2 < 2 ^ 31 }
        requires begun { IsBegun self.old }
        requires no_marks { self.old.draft.trail ≡ self.old.draft.before }
        ensures entries { OnOk result (entries ≤ self.new.journal.entries) }
        ensures reach { OnOk result (length self.new.draft.trail + next ≤ self.new.draft.reach) }
        ensures far { OnOk result (far ≤ self.new.draft.far) }
        ensures keys { OnOk result ((p : AnyPart) → keys_in p self.old.draft.trail + keys_of p keys ≤ keys_of p self.new.draft.keys) }
        ensures keeps_keys { (p : AnyPart) → keys_of p self.old.draft.keys ≤ keys_of p self.new.draft.keys }
        ensures keeps_entries { self.old.journal.entries ≤ self.new.journal.entries }
        ensures keeps_far { self.old.draft.far ≤ self.new.draft.far }
        ensures ends { (c : AnyConnection) → end_room self.new.journal c ≡ end_room self.old.journal c }
        ensures items { self.new.journal.items ≡ self.old.journal.items }
        ensures trimmed { OnOk result (self.new.journal.trimmed ≡ length self.new.journal.items) }
        ensures trail { self.new.draft.trail ≡ self.old.draft.trail }
        ensures within { length self.new.draft.trail ≤ self.new.draft.reach }
        ensures ears { self.new.draft.ears ≡ self.old.draft.ears }
        ensures rings { self.new.draft.rings ≡ self.old.draft.rings }
        ensures begun { IsBegun self.new }
    {
        let far = self.draft.far_for(far);
        self.journal.reserve_entries(entries)?;
        self.draft.trim(&mut self.journal)?;
        self.draft.reserve(next, far, keys)
    }

    /// The list that is kept for the end of a connection becomes that of the entry under way. It takes no memory.
    pub fn begin_end(&mut self, who: ConnId)
        requires begun { IsBegun self.old }
        requires no_marks { self.old.draft.trail ≡ self.old.draft.before }
        ensures reach { (n : ℕ) → n ≤ end_room self.old.journal who → length self.old.draft.trail + n ≤ self.old.draft.far → length self.old.draft.trail + n ≤ self.new.draft.reach }
        ensures draft { self.new.draft ≡ reaching self.new.draft.reach self.old.draft.far self.old.draft }
        ensures next { next_room self.old.journal ≤ next_room self.new.journal }
        ensures own { end_room self.new.journal who ≡ 0 }
        ensures others { (c : AnyConnection) → (c.0 == who.0) ≡ false → end_room self.new.journal c ≡ end_room self.old.journal c }
        ensures items { self.new.journal.items ≡ self.old.journal.items }
        ensures entries { self.new.journal.entries ≡ self.old.journal.entries }
        ensures begun { IsBegun self.new }
    {
        let list = self.journal.take_end(who);
        let idle = self.draft.change_list(list);
        drop(mem::replace(&mut self.idle, idle));
    }

    /// The marks of the entry under way become the journal's last entry. It takes no memory.
    pub fn close_entry(&mut self, event: Event, verdict: Verdict, answer: Answer)
        requires begun { IsBegun self.old }
        requires entries { 0 < self.old.journal.entries }
        ensures closes { Closes event verdict answer self.old self.new }
        ensures no_marks { self.new.draft.trail ≡ trail_of self.new.journal.items }
        ensures entries { self.new.journal.entries + 1 ≡ self.old.journal.entries }
        ensures within { length self.new.draft.trail ≤ self.new.draft.reach }
        ensures far { self.new.draft.far ≡ self.old.draft.far }
        ensures keys { self.new.draft.keys ≡ self.old.draft.keys }
        ensures ends { (c : AnyConnection) → end_room self.new.journal c ≡ end_room self.old.journal c }
        ensures next { next_room self.new.journal ≡ next_room self.old.journal }
        ensures ears { self.new.draft.ears ≡ self.old.draft.ears }
        ensures rings { self.new.draft.rings ≡ self.old.draft.rings }
        ensures begun { IsBegun self.new }
    {
        let draft = &mut self.draft;
        let marks = mem::replace(&mut draft.marks, self.idle.take());
        self.journal.close(event, verdict, answer, marks);
        draft.journal = Snapshot::of(self.journal.journal());
        draft.reach.entry = draft.made;
    }
}
