// The rule of the desk's table.

use crate::journaled::Journaled;
use crate::view::View;
use atomic_table::{Seat, Shared, TableRule};
use std::snapshot::Snapshot;

/// Seats take turns at the value in the order of their tickets.
pub struct Turns;

impl<V: Journaled> TableRule<Option<V>, View<V::Setup, V::Entry>, Snapshot<V>> for Turns {
    ghost use Rattle.desk.specs.inner.Rule.{TurnRule};
    ghost use Rattle.desk.specs.Views.{first_view};

    ghost holds = { λ key. TurnRule V.setup V.journal V.who (V.setup key.value) };

    ghost first = { λ key. first_view (V.setup key.value) };
}

pub(crate) type Place<V> = Seat<Option<V>, View<<V as Journaled>::Setup, <V as Journaled>::Entry>>;
