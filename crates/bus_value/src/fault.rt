// Why bytes are refused.

use login_base::NoMemory;
use std::alloc::{AllocError, AllocFailed};

/// Why bytes spell no values. An offset counts from where the first byte stands on; one that is above the last `usize`
/// is reported as that.
#[derive(Clone, Copy, Debug, PartialEq, Eq)]
pub enum ValueFault {
    /// The bytes of the value at this offset are not all there.
    Short(usize),
    /// The byte at this offset is padding and not zero.
    Padding(usize),
    /// The boolean at this offset is neither 0 nor 1.
    BadBool(usize),
    /// The text at this offset is not UTF-8, or has a zero byte inside or none behind it, or is no path or no
    /// signature.
    BadText(usize),
    /// The length of an array stands at this offset, and is above 2^26, or its elements do not fill it; or the first
    /// byte behind the last value.
    BadLength(usize),
    /// The variant at this offset has a signature of no type or of several, or is nested too deep.
    BadVariant(usize),
    /// There was no memory.
    NoMemory,
}

impl From<AllocError> for ValueFault {
    ghost use Rattle.std.specs.Prelude.{◌≡◌};
    ghost use Rattle.bus_value.specs.declared.fault.ValueFault.TheVariants.{NoMemory};

    ghost from_gives = { λ _ e. e ≡ NoMemory };

    fn from(_e: AllocError) -> ValueFault {
        ValueFault::NoMemory
    }
}

impl<T: Drop> From<AllocFailed<T>> for ValueFault {
    ghost use Rattle.std.specs.Prelude.{◌≡◌};
    ghost use Rattle.bus_value.specs.declared.fault.ValueFault.TheVariants.{NoMemory};

    ghost from_gives = { λ _ e. e ≡ NoMemory };

    fn from(_e: AllocFailed<T>) -> ValueFault {
        ValueFault::NoMemory
    }
}

impl From<NoMemory> for ValueFault {
    ghost use Rattle.std.specs.Prelude.{◌≡◌};
    ghost use Rattle.bus_value.specs.declared.fault.ValueFault.TheVariants.{NoMemory as no_memory};

    ghost from_gives = { λ _ e. e ≡ no_memory };

    fn from(_e: NoMemory) -> ValueFault {
        ValueFault::NoMemory
    }
}
