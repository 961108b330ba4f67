// Which of the table's rows have a kind of key.

ghost use Rattle.std.specs.Prelude.{◌≡◌};
ghost use Rattle.device_revoke.specs.inner.Kinds.{kind_at};

use login_table::{LIVES, OWNERS, TAKES};

/// A kind of key that has rows of its own.
#[derive(Clone, Copy)]
pub enum Kind {
    /// Whose a handle is.
    Owners,
    /// Whether a handle gives access.
    Lives,
    /// What a session has taken.
    Takes,
    /// Whether a pause is awaited.
    Awaits,
}

impl Kind {
    /// The kind by its rank in the order of keys. All others go with the awaited pauses.
    pub(crate) fn at(rank: u8) -> Kind
        ensures { result ≡ kind_at rank }
    {
        if rank == OWNERS {
            Kind::Owners
        } else if rank == LIVES {
            Kind::Lives
        } else if rank == TAKES {
            Kind::Takes
        } else {
            Kind::Awaits
        }
    }
}
