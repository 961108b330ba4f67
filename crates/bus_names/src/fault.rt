// Why a text is refused.

use login_base::NoMemory;
use std::alloc::{AllocError, AllocFailed};

/// Why a text is no name, no label or no signature. An offset counts bytes from 0.
#[derive(Clone, Copy, Debug, PartialEq, Eq)]
pub enum NameFault {
    /// The first byte with which no continuation is a name, or the length.
    BadName(usize),
    /// No text has this escape.
    BadLabel,
    /// The first byte with which no continuation is a signature, or the length; 255 for a longer text.
    BadSignature(usize),
    /// The opening of an array or a struct that is nested too deep.
    TooDeep(usize),
    /// There was no memory.
    NoMemory,
}

impl From<AllocError> for NameFault {
    ghost use Rattle.std.specs.Prelude.{◌≡◌};
    ghost use Rattle.bus_names.specs.declared.fault.NameFault.TheVariants.{NoMemory};

    ghost from_gives = { λ _ e. e ≡ NoMemory };

    fn from(_e: AllocError) -> NameFault {
        NameFault::NoMemory
    }
}

impl<T: Drop> From<AllocFailed<T>> for NameFault {
    ghost use Rattle.std.specs.Prelude.{◌≡◌};
    ghost use Rattle.bus_names.specs.declared.fault.NameFault.TheVariants.{NoMemory};

    ghost from_gives = { λ _ e. e ≡ NoMemory };

    fn from(_e: AllocFailed<T>) -> NameFault {
        NameFault::NoMemory
    }
}

impl From<NoMemory> for NameFault {
    ghost use Rattle.std.specs.Prelude.{◌≡◌};
    ghost use Rattle.bus_names.specs.declared.fault.NameFault.TheVariants.{NoMemory as no_memory};

    ghost from_gives = { λ _ e. e ≡ no_memory };

    fn from(_e: NoMemory) -> NameFault {
        NameFault::NoMemory
    }
}
