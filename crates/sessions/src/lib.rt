//! The sessions, their hints and the last signal sent to each (org.freedesktop.login1(5), "Session
//! Objects").
#![tactic(auto)]

ghost use Rattle.std.specs.Prelude.{◌≡◌};
ghost use Rattle.login_table.specs.Home.{is_home};
ghost use Rattle.login_table.specs.declared.home.Home.TheVariants.{Sessions};

use login_base::NoMemory;
use login_model::{Fact, Key};
use login_table::{Home, Rows, SESSIONS, Table, rank_of};
use std::alloc::Global;
use std::marker::Model;

/// What each session is, whether it is idle or locked, and the last signal sent to it. What is told of one
/// besides has rows of its own, so that a hint which comes late moves no session in their order.
#[derive(Drop)]
pub struct Sessions {
    sessions: Rows,
    hints: Rows,
}

impl Model for Sessions {
    ghost use Rattle.login_table.specs.inner.Parts.{joined};
    ghost use Rattle.login_table.specs.Rows.{RowList};
    ghost use Rattle.login_table.specs.declared.key_order.TheConstants.{SESSIONS};

    ghost Value = { RowList };

    ghost view = { λ t. joined SESSIONS t.sessions t.hints };
}

#[tactic(auto, unfolding(login_table::specs::inner::Parts::joined))]
impl Table for Sessions {
    ghost owns = { is_home Sessions };

    ghost list = { λ t. t };

    fn is_own(key: &Key) -> bool {
        Home::Sessions.has(key)
    }

    fn new(alloc: Global) -> Sessions {
        Sessions {
            sessions: Rows::new(alloc),
            hints: Rows::new(alloc),
        }
    }

    fn part(&self, rank: u8) -> &Rows {
        if rank == SESSIONS {
            &self.sessions
        } else {
            &self.hints
        }
    }

    fn room(&mut self, keys: usize) -> Result<(), NoMemory> {
        self.sessions.reserve(keys)?;
        self.hints.reserve(keys)
    }

    fn set(&mut self, key: Key, fact: Fact) -> bool {
        if rank_of(&key) == SESSIONS {
            self.sessions.set(key, fact)
        } else {
            self.hints.set(key, fact)
        }
    }
}
