// Sums by number.

ghost use Rattle.std.specs.Prelude.{ℕ, ◌≡◌, ◌+◌, ◌<◌, ◌≤◌, ◌^◌, [], OnOk, false, if◌then◌else◌, true};
ghost use Rattle.login_facts.specs.Sums.{KeepRows, has_row, part, sum_in};

use indexmap::IndexMap;
use login_base::NoMemory;
use std::alloc::Global;
use std::marker::Model;

/// A sum for each number. A number that has no row has zero.
#[derive(Drop)]
pub struct Sums {
    /// In a hash table, so that a number costs the same however many there are.
    rows: IndexMap<u32, u64>,
}

impl Model for Sums {
    ghost use Rattle.std.specs.Prelude.{ℕ};
    ghost use Rattle.indexmap.specs.IndexMap.{spare};
    ghost use Rattle.login_base.specs.Room.{Room};

    ghost Value = { Room (ℕ × ℕ) };

    ghost view = { λ s. record { items = s.rows.entries; spare = spare s.rows } };
}

impl Sums {
    /// Each number has zero. It takes no memory.
    pub fn new(alloc: Global) -> Sums
        ensures { result.items ≡ [] }
    {
        Sums {
            rows: IndexMap::new(alloc),
        }
    }

    /// Makes room for so many numbers more.
    pub fn reserve(&mut self, more: usize) -> Result<(), NoMemory>
        ensures ok { OnOk result (more ≤ self.new.spare) }
        ensures items { self.new.items ≡ self.old.items }
        ensures spare { self.old.spare ≤ self.new.spare }
    {
        self.rows.reserve(more)?;
        Ok(())
    }

    /// The sum of a number.
    pub fn of(&self, number: u32) -> u64
        ensures { result ≡ sum_in self.now.items number }
    {
        match self.rows.get(&number) {
            Some(sum) => *sum,
            None => 0,
        }
    }

    /// Makes a row for a number, where it has none. It takes no memory.
    pub fn open(&mut self, number: u32)
        requires room { has_row self.old.items number ≡ false → 0 < self.old.spare }
        ensures sums { (n : ℕ) → sum_in self.new.items n ≡ sum_in self.old.items n }
        ensures row { has_row self.new.items number ≡ true }
        ensures rows { KeepRows self.old.items self.new.items }
        ensures spare { self.old.spare ≤ self.new.spare + (if has_row self.old.items number then 0 else 1) }
    {
        if self.rows.contains_key(&number) {
            return;
        }
        match self.rows.insert(number, 0) {
            Ok(_) => {}
            Err(_) => unreachable!(),
        }
    }

    /// Takes so much, and not nothing, off the sum of a number. Its row stays, also where it comes to zero.
    pub fn lose(&mut self, number: u32, lost: u64)
        requires some { 0 < lost }
        requires within { lost ≤ sum_in self.old.items number }
        ensures sums { (n : ℕ) → sum_in self.new.items n + part number lost n ≡ sum_in self.old.items n }
        ensures rows { KeepRows self.old.items self.new.items }
        ensures spare { self.old.spare ≤ self.new.spare }
    {
        let left = self.of(number) - lost;
        match self.rows.get_mut(&number) {
            Some(sum) => *sum = left,
            None => unreachable!(),
        }
    }

    /// Adds so much to the sum of a number that has a row.
    pub fn gain(&mut self, number: u32, gained: u64)
        requires row { has_row self.old.items number ≡ true }
        requires bound { sum_in self.old.items number + gained < 2 ^ 64 }
        ensures sums { (n : ℕ) → sum_in self.new.items n ≡ sum_in self.old.items n + part number gained n }
        ensures rows { KeepRows self.old.items self.new.items }
        ensures spare { self.old.spare ≤ self.new.spare }
    {
        let sum = self.of(number) + gained;
        match self.rows.get_mut(&number) {
            Some(kept) => *kept = sum,
            None => unreachable!(),
        }
    }
}
