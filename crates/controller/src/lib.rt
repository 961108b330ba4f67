//! Which clients are connected, and which of them controls each session (org.freedesktop.login1(5),
//! "Session Objects").
#![tactic(auto)]

ghost use Rattle.std.specs.Prelude.{◌≡◌};
ghost use Rattle.login_table.specs.Home.{is_home};
ghost use Rattle.login_table.specs.declared.home.Home.TheVariants.{Controls};

use login_base::NoMemory;
use login_model::{Fact, Key};
use login_table::{CONNECTIONS, Home, Rows, Table, rank_of};
use std::alloc::Global;
use std::marker::Model;

/// Whose each connection is, and which connection controls each session. The numbers of both keep growing, so
/// each has rows of its own.
#[derive(Drop)]
pub struct Controller {
    connections: Rows,
    controls: Rows,
}

impl Model for Controller {
    ghost use Rattle.login_table.specs.inner.Parts.{joined};
    ghost use Rattle.login_table.specs.Rows.{RowList};
    ghost use Rattle.login_table.specs.declared.key_order.TheConstants.{CONNECTIONS};

    ghost Value = { RowList };

    ghost view = { λ t. joined CONNECTIONS t.connections t.controls };
}

#[tactic(auto, unfolding(login_table::specs::inner::Parts::joined))]
impl Table for Controller {
    ghost owns = { is_home Controls };

    ghost list = { λ t. t };

    fn is_own(key: &Key) -> bool {
        Home::Controls.has(key)
    }

    fn new(alloc: Global) -> Controller {
        Controller {
            connections: Rows::new(alloc),
            controls: Rows::new(alloc),
        }
    }

    fn part(&self, rank: u8) -> &Rows {
        if rank == CONNECTIONS {
            &self.connections
        } else {
            &self.controls
        }
    }

    fn room(&mut self, keys: usize) -> Result<(), NoMemory> {
        self.connections.reserve(keys)?;
        self.controls.reserve(keys)
    }

    fn set(&mut self, key: Key, fact: Fact) -> bool {
        if rank_of(&key) == CONNECTIONS {
            self.connections.set(key, fact)
        } else {
            self.controls.set(key, fact)
        }
    }
}
