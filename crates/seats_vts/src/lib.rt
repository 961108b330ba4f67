//! The seats, and the virtual terminals of seat0 (sd-login(3); org.freedesktop.login1(5), "Seat
//! Objects").
#![tactic(auto)]

ghost use Rattle.std.specs.Prelude.{◌≡◌};
ghost use Rattle.login_table.specs.Home.{is_home};
ghost use Rattle.login_table.specs.declared.home.Home.TheVariants.{Seats};

use login_base::NoMemory;
use login_model::{Fact, Key};
use login_table::{Home, Rows, Table};
use std::alloc::Global;
use std::marker::Model;

/// Which seats are there, which session was made active on one without terminals, the current and the
/// pending virtual terminal of seat0, and where a getty is asked for.
#[derive(Drop)]
pub struct SeatsVts {
    rows: Rows,
}

impl Model for SeatsVts {
    ghost use Rattle.login_table.specs.Rows.{RowList};

    ghost Value = { RowList };

    ghost view = { λ t. t.rows };
}

impl Table for SeatsVts {
    ghost owns = { is_home Seats };

    ghost list = { λ t. t };

    fn is_own(key: &Key) -> bool {
        Home::Seats.has(key)
    }

    fn new(alloc: Global) -> SeatsVts {
        SeatsVts {
            rows: Rows::new(alloc),
        }
    }

    fn part(&self, _kind: u8) -> &Rows {
        &self.rows
    }

    fn room(&mut self, keys: usize) -> Result<(), NoMemory> {
        self.rows.reserve(keys)
    }

    fn set(&mut self, key: Key, fact: Fact) -> bool {
        self.rows.set(key, fact)
    }
}
