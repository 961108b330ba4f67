// What a thread has of a desk between its turns.

ghost use Rattle.desk.specs.Views.{Settled};

use crate::view::View;
use atomic_table::Badge;
use login_base::ConnId;
use std::marker::Model;

/// A pass. Contracts see the desk that it is of, and what it knows.
#[derive(Drop)]
pub struct Pass<S, E> {
    pub(crate) who: ConnId,
    pub(crate) badge: Badge<View<S, E>>,
}

impl<S, E> Model for Pass<S, E> {
    ghost use Rattle.desk.specs.Passes.{PassState};
    ghost use Rattle.desk.specs.inner.Passes.{OneSettled, one_view};

    ghost Value = { PassState S E };

    ghost view = { λ p. record { desk = p.badge.table_id; view = one_view p.badge.views } };

    ghost invariant = { λ p. OneSettled p.who.0 p.badge.views };
}

impl<S, E> Pass<S, E> {
    /// Does nothing: for whoever is handed a pass and needs what holds of each one.
    pub fn settled(&self)
        ensures { Settled self.now.view }
    {
        let _ = &self.badge;
    }
}
