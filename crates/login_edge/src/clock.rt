// The time.

ghost use Rattle.std.specs.Prelude.{◌≡◌, ℕ, Option};
ghost use Rattle.std.specs.Option.{option_map};
ghost use Rattle.login_edge.specs.Readings.{Readings, with_reading, ClockCause};

use login_base::Millis;

/// What a clock answers.
#[derive(Clone, Copy, PartialEq, Eq)]
pub enum Reading {
    /// The present moment.
    At(Millis),
    /// There is no reading, and the count of faults rose.
    Failed,
}

/// A clock.
///
/// A clock has a count of faults of 64 bits that never falls. A count that stands at its last value
/// is taken as one that rose. Its readings, and how often it was asked, are told by clocks in memory
/// alone; the number of calls has 64 bits too, and stands still at its last value. Readings need not
/// ascend.
pub trait Clock {
    /// Its readings and its calls, where the clock tells them.
    ghost told: { Self → Option Readings };
    /// How many calls failed.
    ghost faults: { Self → ℕ };

    /// Reads the clock. It takes no memory.
    fn now(&mut self) -> Reading
        ensures tells { told self.new ≡ option_map (with_reading result) (told self.old) }
        ensures cause { ClockCause (faults self.old) (faults self.new) result };
}
