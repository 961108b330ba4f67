// Why the text of a table is refused.

ghost use Rattle.std.specs.Prelude.{◌≡◌};
ghost use Rattle.login_policy.specs.Reading.{line_of_fault};
ghost use Rattle.login_policy.specs.declared.fault.TableFault.TheVariants as fault;

use login_base::NoMemory;
use std::alloc::AllocError;

/// Why the text of a table is refused: what is wrong with the first line at fault, and its number, from 1.
#[derive(Clone, Copy, Debug, PartialEq, Eq)]
pub enum TableFault {
    /// It is not four words of which the last three are cells, or no line feed ends it.
    BadLine(u64),
    /// Its first word is no name of an action.
    UnknownAction(u64),
    /// A line before it has the same action.
    Repeated(u64),
    /// There was no memory.
    NoMemory,
}

impl TableFault {
    /// The number of the line at fault. Where there was no memory, none is.
    pub fn line(self) -> Option<u64>
        ensures { result ≡ line_of_fault self }
    {
        match self {
            TableFault::BadLine(number)
            | TableFault::UnknownAction(number)
            | TableFault::Repeated(number) => Some(number),
            TableFault::NoMemory => None,
        }
    }
}

impl From<NoMemory> for TableFault {
    ghost from_gives = { λ _ e. e ≡ fault.NoMemory };

    fn from(_: NoMemory) -> TableFault {
        TableFault::NoMemory
    }
}

impl From<AllocError> for TableFault {
    ghost from_gives = { λ _ e. e ≡ fault.NoMemory };

    fn from(_: AllocError) -> TableFault {
        TableFault::NoMemory
    }
}
