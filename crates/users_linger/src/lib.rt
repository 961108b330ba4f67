//! Which users are known, and which of them linger (sd-login(3), loginctl(1) `enable-linger`).
#![tactic(auto)]

ghost use Rattle.std.specs.Prelude.{◌≡◌};
ghost use Rattle.login_table.specs.Home.{is_home};
ghost use Rattle.login_table.specs.declared.home.Home.TheVariants.{Users};

use login_base::NoMemory;
use login_model::{Fact, Key};
use login_table::{Home, Rows, Table};
use std::alloc::Global;
use std::marker::Model;

/// Whether each user is known, and whether it lingers.
#[derive(Drop)]
pub struct UsersLinger {
    rows: Rows,
}

impl Model for UsersLinger {
    ghost use Rattle.login_table.specs.Rows.{RowList};

    ghost Value = { RowList };

    ghost view = { λ t. t.rows };
}

impl Table for UsersLinger {
    ghost owns = { is_home Users };

    ghost list = { λ t. t };

    fn is_own(key: &Key) -> bool {
        Home::Users.has(key)
    }

    fn new(alloc: Global) -> UsersLinger {
        UsersLinger {
            rows: Rows::new(alloc),
        }
    }

    fn part(&self, _kind: u8) -> &Rows {
        &self.rows
    }

    fn room(&mut self, keys: usize) -> Result<(), NoMemory> {
        self.rows.reserve(keys)
    }

    fn set(&mut self, key: Key, fact: Fact) -> bool {
        self.rows.set(key, fact)
    }
}
