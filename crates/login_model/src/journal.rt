// The journal of a machine.

ghost use Rattle.std.specs.Prelude.{◌≡◌, ◌+◌, ◌<◌, ◌≤◌, ◌^◌, ◌++◌, [], ◌∷◌, length, OnOk, IfOk, slice_get, Some};

use crate::mark::{Entry, Mark};
use login_base::{NoMemory, Reserved};
use std::alloc::Global;
use std::marker::Model;

/// For how many entries at least memory is taken beside those that are asked for, where there is not enough. With them the
/// list is wide enough to be a mapping of its own from the first entry on, so it leaves no gaps among other lists as it
/// grows.
const LEAST_SPARE: usize = 3_400;

/// The entries so far, the oldest first, and room for more.
#[derive(Drop)]
pub struct Journal {
    entries: Vec<Entry>,
}

impl Model for Journal {
    ghost use Rattle.std.specs.Prelude.{◌-◌, vec_len, vec_capacity};
    ghost use Rattle.login_base.specs.Room.{Room};
    ghost use Rattle.login_model.specs.declared.mark.Entry.{Entry};

    ghost Value = { Room Entry };

    ghost view = { λ s. record { items = s.entries.items; spare = vec_capacity s.entries - vec_len s.entries } };
}

impl Journal {
    /// The empty journal. It takes no memory.
    pub fn new(alloc: Global) -> Journal
        ensures { result.items ≡ [] }
    {
        Journal {
            entries: Vec::new(alloc),
        }
    }

    /// How many entries there are. Takes no memory.
    pub fn len(&self) -> usize
        ensures value { result ≡ length self.now.items }
        ensures bound { result < 2 ^ 63 }
    {
        self.entries.len()
    }

    /// The entry with the number `i + 1`. Takes no memory.
    pub fn entry(&self, i: usize) -> &Entry
        requires { i < length self.now.items }
        ensures { slice_get self.now.items i ≡ Some result.now }
    {
        &self.entries[i]
    }

    /// The entries in order. Takes no memory.
    pub fn as_slice(&self) -> &[Entry]
        ensures { result.now ≡ self.now.items }
    {
        self.entries.as_slice()
    }

    /// Makes room for so many more entries. Where there is none yet, it takes memory for an eighth of those that there are
    /// beside these, and for `LEAST_SPARE` at least, so that a long journal seldom gets memory and has little that it does
    /// not use.
    pub fn reserve(&mut self, more: usize) -> Result<(), NoMemory>
        ensures ok { OnOk result (more ≤ self.new.spare) }
        ensures items { self.new.items ≡ self.old.items }
        ensures spare { self.old.spare ≤ self.new.spare }
    {
        let entries = self.entries.len();
        if self.entries.capacity() - entries < more {
            let spare = (entries / 8).max(LEAST_SPARE);
            self.entries.reserve_exact(more.saturating_add(spare))?;
        }
        Ok(())
    }

    /// Puts an entry at the end. It takes no memory.
    pub fn push(&mut self, entry: Entry)
        requires { 0 < self.old.spare }
        ensures items { self.new.items ≡ self.old.items ++ entry ∷ [] }
        ensures spare { self.old.spare ≤ self.new.spare + 1 }
    {
        match self.entries.push(entry) {
            Ok(()) => {}
            Err(_) => unreachable!(),
        }
    }

    /// Puts the marks of the entry with the number `i + 1` in memory of their size. The answer is the memory
    /// that they had, for the marks of another entry. Where memory is wanting nothing changes.
    pub fn trim(&mut self, i: usize, alloc: Global) -> Result<Reserved<Mark>, NoMemory>
        requires { i < length self.old.items }
        ensures items { self.new.items ≡ self.old.items }
        ensures spare { self.new.spare ≡ self.old.spare }
        ensures empty { IfOk result (λ had. had.items ≡ []) }
    {
        self.entries[i].marks.trim(alloc)
    }
}
