// Copies of sessions' texts, spare for the end of each session.

ghost use Rattle.std.specs.Prelude.{◌≡◌, ◌==◌, ◌<◌, ◌≤◌, false, Some, None, OnOk};
ghost use Rattle.login_core.specs.inner.Spares.{copies_in};

use crate::room::copies::Copies;
use indexmap::IndexMap;
use login_base::{NoMemory, SessId};
use std::alloc::Global;
use std::marker::Model;

/// Copies of the texts of sessions. A session ends without memory, so they are made when it is created.
#[derive(Drop)]
pub struct Spares {
    /// By the numbers of their sessions, in a hash table: a session that ends costs the others nothing.
    copies: IndexMap<u32, Copies>,
}

impl Model for Spares {
    ghost use Rattle.std.specs.Prelude.{ℕ};
    ghost use Rattle.indexmap.specs.IndexMap.{spare};
    ghost use Rattle.login_base.specs.Room.{Room};
    ghost use Rattle.login_core.specs.declared.room.copies.Copies.{Copies};

    ghost Value = { Room (ℕ × Copies) };

    ghost view = { λ s. record { items = s.copies.entries; spare = spare s.copies } };
}

impl Spares {
    /// No copies. It takes no memory.
    pub fn new(alloc: Global) -> Spares
        ensures { (s : SessId) → copies_in result.items s ≡ None }
    {
        Spares {
            copies: IndexMap::new(alloc),
        }
    }

    /// Makes room for one session more.
    pub fn reserve(&mut self) -> Result<(), NoMemory>
        ensures ok { OnOk result (0 < self.new.spare) }
        ensures items { self.new.items ≡ self.old.items }
    {
        self.copies.reserve(1)?;
        Ok(())
    }

    /// Keeps the copies of a session's texts. It takes no memory.
    pub fn keep(&mut self, session: SessId, copies: Copies)
        requires { 0 < self.old.spare }
        ensures own { copies_in self.new.items session ≡ Some copies }
        ensures others { (s : SessId) → (s.0 == session.0) ≡ false → copies_in self.new.items s ≡ copies_in self.old.items s }
    {
        match self.copies.insert(session.0, copies) {
            Ok(before) => drop(before),
            Err(_) => unreachable!(),
        }
    }

    /// Takes the copies of a session's texts. It takes no memory.
    pub fn take(&mut self, session: SessId) -> Option<Copies>
        ensures value { result ≡ copies_in self.old.items session }
        ensures own { copies_in self.new.items session ≡ None }
        ensures others { (s : SessId) → (s.0 == session.0) ≡ false → copies_in self.new.items s ≡ copies_in self.old.items s }
        ensures spare { self.old.spare ≤ self.new.spare }
    {
        self.copies.swap_remove(&session.0)
    }
}
