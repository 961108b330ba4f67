// The journal, and the room that is kept for its next entries.

ghost use Rattle.std.specs.Prelude.{◌≡◌, ℕ, ◌==◌, ◌+◌, ◌<◌, ◌≤◌, ◌^◌, ◌++◌, [], ◌∷◌, false, length, IfOk, OnOk};
ghost use Rattle.login_base.specs.declared.ids.ConnId.{ConnId as AnyConnection};
ghost use Rattle.login_core.specs.inner.Ledger.{end_room, next_room, with_entries, with_trimmed};
ghost use Rattle.login_core.specs.inner.UnderWay.{entry_of};

use indexmap::IndexMap;
use login_base::{ConnId, NoMemory, Reserved};
use login_facts::with_more;
use login_model::{Answer, Entry, Event, Journal, Mark, Verdict};
use std::alloc::Global;
use std::marker::Model;
use std::mem;

/// The journal, with room for more entries. The entry of a connection's end is made without memory, so each connection
/// has an empty list for its marks. The marks of the oldest entries, so many as are trimmed, are in memory of their
/// size; those of the others are in the lists that they were made in.
#[derive(Drop)]
pub struct Ledger {
    journal: Journal,
    /// For how many more entries there is room.
    entries: u32,
    /// By the numbers of their connections, in a hash table: a connection that ends costs the others nothing.
    ends: IndexMap<u32, Reserved<Mark>>,
    /// The list of the connection that comes next.
    next_end: Reserved<Mark>,
    trimmed: usize,
    alloc: Global,
}

impl Model for Ledger {
    ghost use Rattle.std.specs.Prelude.{length};
    ghost use Rattle.indexmap.specs.IndexMap.{spare};
    ghost use Rattle.login_core.specs.inner.Ledger.{LedgerState, IsLedger};

    ghost Value = { LedgerState };

    ghost view = { λ l. record {
      items = l.journal.items;
      entries = l.entries;
      trimmed = l.trimmed;
      ends = l.ends.entries;
      next_end = l.next_end;
      ends_spare = spare l.ends;
    } };

    ghost invariant = { λ l. IsLedger l.entries l.journal.spare l.trimmed (length l.journal.items) l.ends.entries l.next_end };
}

/// Of two empty lists the wider is kept.
fn keep_wider(kept: &mut Reserved<Mark>, list: Reserved<Mark>)
    requires empty { list.items ≡ [] }
    requires kept_empty { kept.old.items ≡ [] }
    ensures empty { kept.new.items ≡ [] }
    ensures kept { kept.old.spare ≤ kept.new.spare }
    ensures list { list.spare ≤ kept.new.spare }
{
    if kept.spare() < list.spare() {
        drop(mem::replace(kept, list));
    } else {
        drop(list);
    }
}

/// Makes an empty list as wide as so many marks want, and an eighth wider. One that is more than twice as wide as that
/// is exchanged for a narrower one, if there is memory for it.
fn fit(list: &mut Reserved<Mark>, marks: u64, alloc: Global) -> Result<(), NoMemory>
    requires { list.old.items ≡ [] }
    ensures empty { list.new.items ≡ [] }
    ensures room { OnOk result (marks ≤ list.new.spare) }
    ensures keeps { (n : ℕ) → n ≤ list.old.spare → n ≤ marks → n ≤ list.new.spare }
{
    let wanted = with_more(marks as usize);
    if list.spare() / 2 <= wanted {
        return list.reserve(wanted);
    }
    let mut narrower = Reserved::new(alloc);
    match narrower.reserve(wanted) {
        Ok(()) => drop(mem::replace(list, narrower)),
        Err(NoMemory) => drop(narrower),
    }
    Ok(())
}

impl Ledger {
    /// The empty journal, without room. It takes no memory.
    pub fn new(alloc: Global) -> Ledger
        ensures items { result.items ≡ [] }
        ensures entries { result.entries ≡ 0 }
        ensures ends { (c : AnyConnection) → end_room result c ≡ 0 }
    {
        Ledger {
            journal: Journal::new(alloc),
            entries: 0,
            ends: IndexMap::new(alloc),
            next_end: Reserved::new(alloc),
            trimmed: 0,
            alloc,
        }
    }

    /// The journal.
    pub fn journal(&self) -> &Journal
        ensures { result.now.items ≡ self.now.items }
    {
        &self.journal
    }

    /// Makes room for so many more entries. What there is room for already stays.
    pub fn reserve_entries(&mut self, entries: u32) -> Result<(), NoMemory>
        ensures entries { OnOk result (entries ≤ self.new.entries) }
        ensures keeps { self.old.entries ≤ self.new.entries }
        ensures rest { self.new ≡ with_entries self.new.entries self.old }
    {
        self.journal.reserve(entries as usize)?;
        self.entries = self.entries.max(entries);
        Ok(())
    }

    /// Puts the marks of the next entry that isn't trimmed in memory of their size. The answer is the list that they had.
    fn trim_entry(&mut self, entry: usize) -> Result<Reserved<Mark>, NoMemory>
        requires next { entry ≡ self.old.trimmed }
        requires there { entry < length self.old.items }
        requires numbered { entry + 1 < 2 ^ 64 }
        ensures trimmed { OnOk result (self.new.trimmed ≡ self.old.trimmed + 1) }
        ensures rest { self.new ≡ with_trimmed self.new.trimmed self.old }
        ensures empty { IfOk result (λ list. list.items ≡ []) }
    {
        let list = self.journal.trim(entry, self.alloc)?;
        self.trimmed = entry + 1;
        Ok(list)
    }

    /// Puts the marks of closed entries in memory of their size. The widest list that comes free so takes the place
    /// of this one, if that is narrower.
    pub fn trim(&mut self, widest: &mut Reserved<Mark>) -> Result<(), NoMemory>
        requires { widest.old.items ≡ [] }
        ensures all { OnOk result (self.new.trimmed ≡ length self.new.items) }
        ensures rest { self.new ≡ with_trimmed self.new.trimmed self.old }
        ensures empty { widest.new.items ≡ [] }
        ensures spare { widest.old.spare ≤ widest.new.spare }
    {
        for entry in self.trimmed..self.journal.len() {
            keep_wider(widest, self.trim_entry(entry)?);
        }
        Ok(())
    }

    /// Makes room for so many marks at the end of a connection, and gives back what is more than twice that. One that has
    /// no list gets none.
    pub fn reserve_end(&mut self, who: ConnId, marks: u64) -> Result<(), NoMemory>
        ensures room { OnOk result (0 < end_room self.old who → marks ≤ end_room self.new who) }
        ensures own { (n : ℕ) → n ≤ end_room self.old who → n ≤ marks → n ≤ end_room self.new who }
        ensures others { (c : AnyConnection) → (c.0 == who.0) ≡ false → end_room self.new c ≡ end_room self.old c }
        ensures next { next_room self.new ≡ next_room self.old }
        ensures items { self.new.items ≡ self.old.items }
        ensures entries { self.new.entries ≡ self.old.entries }
    {
        let alloc = self.alloc;
        let Some(list) = self.ends.get_mut(&who.0) else {
            return Ok(());
        };
        fit(list, marks, alloc)
    }

    /// Makes room for one connection more, and for so many marks at its end.
    pub fn prepare_end(&mut self, marks: u64) -> Result<(), NoMemory>
        ensures room { OnOk result (marks ≤ next_room self.new) }
        ensures keeps { next_room self.old ≤ next_room self.new }
        ensures ends { (c : AnyConnection) → end_room self.new c ≡ end_room self.old c }
        ensures items { self.new.items ≡ self.old.items }
        ensures entries { self.new.entries ≡ self.old.entries }
    {
        self.ends.reserve(1)?;
        self.next_end.reserve(with_more(marks as usize))
    }

    /// A connection gets the list that was made for the one that comes next. It takes no memory.
    pub fn admit(&mut self, who: ConnId)
        requires { 0 < next_room self.old }
        ensures own { end_room self.new who ≡ next_room self.old }
        ensures others { (c : AnyConnection) → (c.0 == who.0) ≡ false → end_room self.new c ≡ end_room self.old c }
        ensures items { self.new.items ≡ self.old.items }
        ensures entries { self.new.entries ≡ self.old.entries }
    {
        match self.ends.insert(who.0, self.next_end.take()) {
            Ok(before) => drop(before),
            Err(_) => unreachable!(),
        }
    }

    /// Takes the list of a connection: an empty one, with the room that was made for its end. It takes no memory.
    pub fn take_end(&mut self, who: ConnId) -> Reserved<Mark>
        ensures empty { result.items ≡ [] }
        ensures room { end_room self.old who ≤ result.spare }
        ensures own { end_room self.new who ≡ 0 }
        ensures others { (c : AnyConnection) → (c.0 == who.0) ≡ false → end_room self.new c ≡ end_room self.old c }
        ensures next { next_room self.old ≤ next_room self.new }
        ensures items { self.new.items ≡ self.old.items }
        ensures entries { self.new.entries ≡ self.old.entries }
    {
        match self.ends.swap_remove(&who.0) {
            Some(list) => list,
            None => Reserved::new(self.alloc),
        }
    }

    /// Puts an entry with these marks at the end. It takes no memory.
    pub fn close(&mut self, event: Event, verdict: Verdict, answer: Answer, marks: Reserved<Mark>)
        requires { 0 < self.old.entries }
        ensures items { self.new.items ≡ self.old.items ++ entry_of event verdict answer marks.items ∷ [] }
        ensures entries { self.new.entries + 1 ≡ self.old.entries }
        ensures ends { (c : AnyConnection) → end_room self.new c ≡ end_room self.old c }
        ensures next { next_room self.new ≡ next_room self.old }
    {
        self.entries -= 1;
        self.journal.push(Entry {
            event,
            verdict,
            answer,
            marks: marks.into_items(),
        });
    }
}
