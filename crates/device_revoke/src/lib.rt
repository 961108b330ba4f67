//! The devices that sessions have taken: with which handles, whose these are and whether they give access,
//! and which pauses have still to be acknowledged (org.freedesktop.login1(5), "Session Objects").
#![tactic(auto)]

ghost use Rattle.std.specs.Prelude.{◌≡◌};
ghost use Rattle.login_table.specs.Home.{is_home};
ghost use Rattle.login_table.specs.declared.home.Home.TheVariants.{Takes};
ghost use Rattle.login_model.specs.Devices.{is_taken};
ghost use Rattle.login_model.specs.Names.{IsNext, device_lt, session_lt};
ghost use Rattle.login_model.specs.Trail.{Trail};
ghost use Rattle.login_table.specs.Stands.{Stands};

mod kind;

use crate::kind::Kind;
use login_base::{DevNo, NoMemory, SessId};
use login_model::{Fact, Key};
use login_table::{Home, Rows, Table, rank_of};
use std::alloc::Global;
use std::marker::Model;

/// Whose each handle is, which handles give access to their devices, what sessions have taken, and which
/// pauses are awaited. The numbers of handles and sessions keep growing, so each kind has rows of its own.
#[derive(Drop)]
pub struct DeviceRevoke {
    owners: Rows,
    lives: Rows,
    takes: Rows,
    awaits: Rows,
}

impl Model for DeviceRevoke {
    ghost use Rattle.login_table.specs.inner.Parts.{joined};
    ghost use Rattle.login_table.specs.Rows.{RowList};
    ghost use Rattle.login_table.specs.declared.key_order.TheConstants.{LIVES, OWNERS, TAKES};

    ghost Value = { RowList };

    ghost view = { λ t. joined OWNERS t.owners (joined LIVES t.lives (joined TAKES t.takes t.awaits)) };
}

#[tactic(auto, unfolding(login_table::specs::inner::Parts::joined))]
impl Table for DeviceRevoke {
    ghost owns = { is_home Takes };

    ghost list = { λ t. t };

    fn is_own(key: &Key) -> bool {
        Home::Takes.has(key)
    }

    fn new(alloc: Global) -> DeviceRevoke {
        DeviceRevoke {
            owners: Rows::new(alloc),
            lives: Rows::new(alloc),
            takes: Rows::new(alloc),
            awaits: Rows::new(alloc),
        }
    }

    fn part(&self, rank: u8) -> &Rows {
        match Kind::at(rank) {
            Kind::Owners => &self.owners,
            Kind::Lives => &self.lives,
            Kind::Takes => &self.takes,
            Kind::Awaits => &self.awaits,
        }
    }

    fn room(&mut self, keys: usize) -> Result<(), NoMemory> {
        self.owners.reserve(keys)?;
        self.lives.reserve(keys)?;
        self.takes.reserve(keys)?;
        self.awaits.reserve(keys)
    }

    fn set(&mut self, key: Key, fact: Fact) -> bool {
        match Kind::at(rank_of(&key)) {
            Kind::Owners => self.owners.set(key, fact),
            Kind::Lives => self.lives.set(key, fact),
            Kind::Takes => self.takes.set(key, fact),
            Kind::Awaits => self.awaits.set(key, fact),
        }
    }
}

impl DeviceRevoke {
    /// The least device above that one that a session has taken.
    pub fn next_taken(&self, session: SessId, above: Option<DevNo>) -> Option<DevNo>
        ensures { (t : Trail) → Stands (is_home Takes) self.now.trail t → IsNext device_lt (is_taken t session) above result }
    {
        self.takes.next_taken(session, above)
    }

    /// The least session above that one that has a device taken.
    pub fn next_taker(&self, device: DevNo, above: Option<SessId>) -> Option<SessId>
        ensures { (t : Trail) → Stands (is_home Takes) self.now.trail t → IsNext session_lt (λ s. is_taken t s device) above result }
    {
        self.takes.next_taker(device, above)
    }
}
