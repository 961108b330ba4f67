// A gate in memory that holds one call.

ghost use Rattle.std.specs.Prelude.{◌≡◌, IfOk};
ghost use Rattle.login_edge.specs.Limits.{most_holds};

use crate::gate::{Gate, Leave};
use login_base::{ConnId, NoMemory};
use std::sync::atomic::{AtomicBool, AtomicU64, Ordering};
use std::thread;

/// How often a gate holds at most, where nothing else is said.
const MOST_HOLDS: u64 = 1_000_000;

/// A gate that holds one call, by its link and its number, until another was answered, at most so many
/// times. Each time it lets another thread run. It holds no other call.
#[derive(Drop)]
pub struct HoldGate {
    pub held: (ConnId, u32),
    pub until: (ConnId, u32),
    pub most: u64,
    is_answered: AtomicBool,
    holds: AtomicU64,
}

impl HoldGate {
    /// A gate that holds the first call until the second was answered, at most 1,000,000 times. It needs no memory.
    pub fn new(held: (ConnId, u32), until: (ConnId, u32)) -> Result<HoldGate, NoMemory>
        ensures held { IfOk result (λ gate. gate.held ≡ held) }
        ensures until { IfOk result (λ gate. gate.until ≡ until) }
        ensures most { IfOk result (λ gate. gate.most ≡ most_holds) }
    {
        HoldGate::at_most(MOST_HOLDS, held, until)
    }

    /// The same, which holds it at most so many times.
    pub fn at_most(
        most: u64,
        held: (ConnId, u32),
        until: (ConnId, u32),
    ) -> Result<HoldGate, NoMemory>
        ensures held { IfOk result (λ gate. gate.held ≡ held) }
        ensures until { IfOk result (λ gate. gate.until ≡ until) }
        ensures most { IfOk result (λ gate. gate.most ≡ most) }
    {
        Ok(HoldGate {
            held,
            until,
            most,
            is_answered: AtomicBool::new(false),
            holds: AtomicU64::new(0),
        })
    }
}

impl Gate for HoldGate {
    fn pass(&self, who: ConnId, n: u32) -> Leave
        ensures holds { result ≡ Leave.Hold → (who, n) ≡ self.now.held }
    {
        let is_held = who == self.held.0 && n == self.held.1;
        if !is_held || self.is_answered.load(Ordering::SeqCst) {
            return Leave::Go;
        }
        if self.holds.fetch_add(1, Ordering::SeqCst) >= self.most {
            return Leave::Go;
        }
        thread::yield_now();
        Leave::Hold
    }

    fn answered(&self, who: ConnId, n: u32) {
        if who == self.until.0 && n == self.until.1 {
            self.is_answered.store(true, Ordering::SeqCst);
        }
    }

    fn wake(&self) {}
}
