//! The operation that the machine as a whole is made to do, the clock and the dock, and the marks of asking for an
//! operation, of starting it, and of its end (org.freedesktop.login1(5), Manager.PowerOff and the calls beside it).
#![tactic(auto)]

ghost use Rattle.std.specs.Prelude.{◌≡◌};
ghost use Rattle.login_table.specs.Home.{is_home};
ghost use Rattle.login_table.specs.declared.home.Home.TheVariants.{Power};

mod operations;

use login_base::NoMemory;
use login_model::{Fact, Key};
use login_table::{Home, Rows, Table};
pub use operations::{ended, request, settle};
use std::alloc::Global;
use std::marker::Model;

/// How far an operation has come, the moment that the clock reached last, and whether the machine is in its dock.
#[derive(Drop)]
pub struct PowerOps {
    rows: Rows,
}

impl Model for PowerOps {
    ghost use Rattle.login_table.specs.Rows.{RowList};

    ghost Value = { RowList };

    ghost view = { λ t. t.rows };
}

impl Table for PowerOps {
    ghost owns = { is_home Power };

    ghost list = { λ t. t };

    fn is_own(key: &Key) -> bool {
        Home::Power.has(key)
    }

    fn new(alloc: Global) -> PowerOps {
        PowerOps {
            rows: Rows::new(alloc),
        }
    }

    fn part(&self, _kind: u8) -> &Rows {
        &self.rows
    }

    fn room(&mut self, keys: usize) -> Result<(), NoMemory> {
        self.rows.reserve(keys)
    }

    fn set(&mut self, key: Key, fact: Fact) -> bool {
        self.rows.set(key, fact)
    }
}
