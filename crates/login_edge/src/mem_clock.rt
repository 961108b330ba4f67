// A clock in memory. Of its calls those whose numbers are listed fail.

ghost use Rattle.std.specs.Prelude.{◌≡◌, ◌<◌, ◌+◌, ◌-◌, ◌^◌, ◌↔◌, ◌⊎◌, Some, IfOk, Contains, length};
ghost use Rattle.std.specs.Option.{option_map};
ghost use Rattle.login_edge.specs.Readings.{with_reading, ClockCause};
ghost use Rattle.login_edge.specs.Faults.{one_more};
ghost use Rattle.login_edge.specs.ClockInMemory.{told_of, reading_at};

use crate::bell::{Bell, ring};
use crate::clock::{Clock, Reading};
use crate::memory::is_listed;
use login_base::{Items, Millis, NoMemory};
use std::alloc::Global;
use std::marker::Model;

/// A clock that gives its readings, and then the last one again and again.
///
/// The calls whose numbers, from 1, are listed fail, and so does each once it was called 2^64 - 1
/// times; the number of calls stands still there. A failed call leaves the readings where they were, and rings
/// the bell, if there is one.
#[derive(Drop)]
pub struct MemClock {
    readings: Items<Millis>,
    given: u64,
    asked: u64,
    fails: Items<u64>,
    faults: u64,
    bell: Option<Bell>,
}

impl Model for MemClock {
    ghost use Rattle.std.specs.Prelude.{length, ◌≤◌, ◌<◌};
    ghost use Rattle.login_edge.specs.ClockInMemory.{ClockState};

    ghost Value = { ClockState };

    ghost view = { λ c. record {
      script = c.readings;
      given = c.given;
      asked = c.asked;
      fails = c.fails;
      faults = c.faults;
    } };

    ghost invariant = { λ c. (c.given ≤ c.asked) × (0 < length c.readings) };
}

impl MemClock {
    /// A clock with these readings. It needs no more memory than they have.
    pub fn new(
        _alloc: Global,
        readings: Items<Millis>,
        fails: Items<u64>,
        bell: Option<Bell>,
    ) -> Result<MemClock, NoMemory>
        requires { 0 < length readings }
        ensures script { IfOk result (λ clock. clock.script ≡ readings) }
        ensures fails { IfOk result (λ clock. clock.fails ≡ fails) }
        ensures counts { IfOk result (λ clock. (clock.given ≡ 0) × (clock.asked ≡ 0) × (clock.faults ≡ 0)) }
    {
        Ok(MemClock {
            readings,
            given: 0,
            asked: 0,
            fails,
            faults: 0,
            bell,
        })
    }
}

impl Clock for MemClock {
    ghost told = { λ c. Some (told_of c) };

    ghost faults = { λ c. c.faults };

    fn now(&mut self) -> Reading
        ensures tells { Some (told_of self.new) ≡ option_map (with_reading result) (Some (told_of self.old)) }
        ensures cause { ClockCause self.old.faults self.new.faults result }

        ensures fails { (result ≡ Reading.Failed)
            ↔ (Contains self.old.fails self.new.asked ⊎ (self.old.asked ≡ 2 ^ 64 - 1)) }
        ensures faults { result ≡ Reading.Failed → self.new.faults ≡ one_more self.old.faults }
        ensures reading { (moment : _) → result ≡ Reading.At moment
            → (moment ≡ reading_at self.old.script self.old.given) × (self.new.given ≡ self.old.given + 1) }
        ensures script { (self.new.script ≡ self.old.script) × (self.new.fails ≡ self.old.fails) }
    {
        let is_spent = self.asked == u64::MAX;
        self.asked = self.asked.saturating_add(1);
        if is_spent || is_listed(&self.fails, self.asked) {
            self.faults = self.faults.saturating_add(1);
            ring(&self.bell);
            return Reading::Failed;
        }
        let last = self.readings.len() - 1;
        let at = last.min(self.given as usize);
        self.given += 1;
        Reading::At(self.readings.as_slice()[at])
    }
}
