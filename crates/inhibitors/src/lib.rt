//! The inhibitor locks that stand (org.freedesktop.login1(5), Manager.Inhibit).
#![tactic(auto)]

ghost use Rattle.std.specs.Prelude.{◌≡◌};
ghost use Rattle.login_table.specs.Home.{is_home};
ghost use Rattle.login_table.specs.declared.home.Home.TheVariants.{Locks};

use login_base::NoMemory;
use login_model::{Fact, Key};
use login_table::{Home, Rows, Table};
use std::alloc::Global;
use std::marker::Model;

/// What each inhibitor lock holds up, how, and for whom.
#[derive(Drop)]
pub struct Inhibitors {
    rows: Rows,
}

impl Model for Inhibitors {
    ghost use Rattle.login_table.specs.Rows.{RowList};

    ghost Value = { RowList };

    ghost view = { λ t. t.rows };
}

impl Table for Inhibitors {
    ghost owns = { is_home Locks };

    ghost list = { λ t. t };

    fn is_own(key: &Key) -> bool {
        Home::Locks.has(key)
    }

    fn new(alloc: Global) -> Inhibitors {
        Inhibitors {
            rows: Rows::new(alloc),
        }
    }

    fn part(&self, _kind: u8) -> &Rows {
        &self.rows
    }

    fn room(&mut self, keys: usize) -> Result<(), NoMemory> {
        self.rows.reserve(keys)
    }

    fn set(&mut self, key: Key, fact: Fact) -> bool {
        self.rows.set(key, fact)
    }
}
