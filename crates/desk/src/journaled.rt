// What the value at a desk stands for.

ghost use Rattle.std.specs.Prelude.{ℕ, List};

/// A value that stands for a setup and a journal. Each entry is of one connection; number 0 is the
/// machine itself.
pub trait Journaled: Drop {
    type Setup;

    type Entry;

    ghost who: { Self.Entry → ℕ };

    ghost setup: { Self → Self.Setup };

    ghost journal: { Self → List Self.Entry };
}
