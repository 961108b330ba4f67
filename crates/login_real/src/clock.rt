// The machine's clock.

ghost use Rattle.std.specs.Prelude.{◌≡◌, None};

use login_base::Millis;
use login_edge::{Clock, Reading};
use std::marker::Model;
use std::time::{Clock as SystemClock, Duration};

/// The machine's monotonic clock, in milliseconds since its first reading. It tells no readings.
#[derive(Drop)]
pub struct MonotonicClock<'r, R> {
    rt: &'r R,
    /// What the machine's clock read at the first reading.
    start: Option<Duration>,
    faults: u64,
}

impl<'r, R> Model for MonotonicClock<'r, R> {
    ghost use Rattle.login_real.specs.Sockets.{FaultCount};

    ghost Value = { FaultCount };

    ghost view = { λ c. record { faults = c.faults } };
}

impl<'r, R: SystemClock> MonotonicClock<'r, R> {
    /// The clock with no reading so far.
    pub fn new(rt: &'r R) -> MonotonicClock<'r, R>
        ensures faults { result.faults ≡ 0 }
    {
        MonotonicClock {
            rt,
            start: None,
            faults: 0,
        }
    }

    /// What the machine's clock read at the first reading, which is this one if there was none.
    fn start_at(&mut self, time: Duration) -> Duration
        ensures { self.new.faults ≡ self.old.faults }
    {
        match self.start {
            Some(start) => start,
            None => {
                self.start = Some(time);
                time
            }
        }
    }
}

/// So many milliseconds, as far as 64 bits go.
fn millis(time: Duration) -> Millis {
    Millis(time.as_millis().min(u64::MAX as u128) as u64)
}

impl<'r, R: SystemClock> Clock for MonotonicClock<'r, R> {
    ghost told = { λ c. None };

    ghost faults = { λ c. c.faults };

    fn now(&mut self) -> Reading {
        match self.rt.monotonic() {
            Ok(time) => {
                let start = self.start_at(time);
                Reading::At(millis(time.saturating_sub(start)))
            }
            Err(_) => {
                self.faults = self.faults.saturating_add(1);
                Reading::Failed
            }
        }
    }
}
