// Threads of the machine.

ghost use Rattle.std.specs.Prelude.{◌≡◌};

use login_edge::Spawner;
use std::marker::Model;

/// A spawner that starts a thread wherever the machine lets it.
#[derive(Drop)]
pub struct ThreadSpawner {
    faults: u64,
}

impl Model for ThreadSpawner {
    ghost use Rattle.login_real.specs.Sockets.{FaultCount};

    ghost Value = { FaultCount };

    ghost view = { λ s. record { faults = s.faults } };
}

impl ThreadSpawner {
    /// The spawner with no fault so far.
    pub fn new() -> ThreadSpawner
        ensures faults { result.faults ≡ 0 }
    {
        ThreadSpawner { faults: 0 }
    }
}

impl Spawner for ThreadSpawner {
    ghost faults = { λ s. s.faults };

    fn admits(&mut self) -> bool {
        true
    }

    fn refused(&mut self) {
        self.faults = self.faults.saturating_add(1);
    }
}
