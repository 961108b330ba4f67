// A spawner that starts threads, but for the starts whose numbers are listed.

ghost use Rattle.std.specs.Prelude.{◌≡◌, ◌↔◌, IfOk, Contains, true, false};
ghost use Rattle.login_edge.specs.Faults.{Rose, one_more};

use crate::memory::is_listed;
use crate::spawner::Spawner;
use login_base::{Items, NoMemory};
use std::alloc::Global;
use std::marker::Model;

/// A spawner that starts threads, but for the starts whose numbers, from 1, are listed: there the job
/// declines. The count of starts stands still at its last value.
#[derive(Drop)]
pub struct MemSpawner {
    declined: Items<u64>,
    starts: u64,
    faults: u64,
}

impl Model for MemSpawner {
    ghost use Rattle.login_edge.specs.SpawnerInMemory.{SpawnerState};

    ghost Value = { SpawnerState };

    ghost view = { λ s. record { declined = s.declined; starts = s.starts; faults = s.faults } };
}

impl MemSpawner {
    /// A spawner that declines these starts. It needs no more memory than they have.
    pub fn new(_alloc: Global, declined: Items<u64>) -> Result<MemSpawner, NoMemory>
        ensures declined { IfOk result (λ spawner. spawner.declined ≡ declined) }
        ensures counts { IfOk result (λ spawner. (spawner.starts ≡ 0) × (spawner.faults ≡ 0)) }
    {
        Ok(MemSpawner {
            declined,
            starts: 0,
            faults: 0,
        })
    }
}

impl Spawner for MemSpawner {
    ghost faults = { λ s. s.faults };

    fn admits(&mut self) -> bool
        ensures yes { result ≡ true → self.new.faults ≡ self.old.faults }
        ensures no { result ≡ false → Rose self.old.faults self.new.faults }

        ensures declines { (result ≡ false) ↔ Contains self.old.declined self.new.starts }
        ensures faults { result ≡ false → self.new.faults ≡ one_more self.old.faults }
        ensures starts { self.new.starts ≡ one_more self.old.starts }
        ensures listed { self.new.declined ≡ self.old.declined }
    {
        self.starts = self.starts.saturating_add(1);
        if is_listed(&self.declined, self.starts) {
            self.faults = self.faults.saturating_add(1);
            return false;
        }
        true
    }

    fn refused(&mut self)
        ensures rose { Rose self.old.faults self.new.faults }
        ensures faults { self.new.faults ≡ one_more self.old.faults }
        ensures listed { (self.new.declined ≡ self.old.declined) × (self.new.starts ≡ self.old.starts) }
    {
        self.faults = self.faults.saturating_add(1);
    }
}
