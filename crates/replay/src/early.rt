// How a recording ends before all of it is read and done.

ghost use Rattle.std.specs.Prelude.{◌≡◌};
ghost use Rattle.replay.specs.declared.early.Early.TheVariants as early;

use crate::cause::Cause;
use login_base::NoMemory;
use login_model::Fullness;
use std::alloc::AllocError;

/// How the reading of a recording's lines, or its replay, ends before it is done.
#[derive(Clone, Copy, Debug)]
pub enum Early {
    /// The line with this number is refused for this cause.
    Script(u32, Cause),
    /// The journal is full for an event of the next line, by this count.
    Full(Fullness),
    ReadFault,
    WriteFault,
    NoMemory,
}

impl From<NoMemory> for Early {
    ghost from_gives = { λ _ e. e ≡ early.NoMemory };

    fn from(_: NoMemory) -> Early {
        Early::NoMemory
    }
}

impl From<AllocError> for Early {
    ghost from_gives = { λ _ e. e ≡ early.NoMemory };

    fn from(_: AllocError) -> Early {
        Early::NoMemory
    }
}
