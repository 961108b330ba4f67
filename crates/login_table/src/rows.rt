// Facts in rows, each under its own key.

ghost use Rattle.std.specs.Prelude.{◌≡◌, ◌+◌, ◌<◌, ◌≤◌, if◌then◌else◌, [], ◌∷◌, OnOk, false, not};
ghost use Rattle.login_model.specs.Trail.{value, was_set};
ghost use Rattle.login_model.specs.Names.{IsNext, device_lt, session_lt};
ghost use Rattle.login_model.specs.Devices.{is_taken};
ghost use Rattle.login_model.specs.declared.fact.Key.{Key as AnyKey};
ghost use Rattle.login_model.specs.declared.mark.Mark.TheVariants.{Set};
ghost use Rattle.login_table.specs.Rows.{says_there};

use crate::name::{Name, is_above, is_lower};
use crate::ordered::Ordered;
use crate::places::Places;
use login_base::{DevNo, NoMemory, SessId};
use login_model::{Fact, Key, StartFacts};
use std::alloc::Global;
use std::marker::Model;

/// A fact under its key.
#[derive(Drop)]
pub(crate) struct Row {
    pub(crate) key: Key,
    pub(crate) fact: Fact,
}

/// Facts, each under its own key: a row for each key that was ever set, in the order of the keys. Under all other keys
/// stand the facts at the start. The places of what is there are kept beside them, so that going over what is there
/// passes nothing that is gone.
#[derive(Drop)]
pub struct Rows {
    rows: Ordered,
    there: Places,
    start: StartFacts,
}

impl Model for Rows {
    ghost use Rattle.std.specs.Prelude.{◌-◌, ◌≤◌, length, min};
    ghost use Rattle.login_table.specs.inner.Keys.{AreThere};
    ghost use Rattle.login_table.specs.inner.Places.{PlacesAscend, keys_at};
    ghost use Rattle.login_table.specs.Rows.{Ascend, RowList, as_trail};

    ghost Value = { RowList };

    ghost view = { λ r. record { trail = as_trail r.rows.items; spare = min r.rows.room r.there.room - length r.rows.items } };

    ghost invariant = { λ r. (Ascend r.rows.items × PlacesAscend (length r.rows.items) r.there.list × AreThere (keys_at r.rows.items r.there.list) (as_trail r.rows.items)) × length r.rows.items ≤ r.there.room };
}

/// Whether a fact says that what its key names is there.
fn says_there(key: &Key, fact: &Fact) -> bool
    ensures { result ≡ says_there key.now fact.now }
{
    match key {
        Key::Conn(_) => fact.is_connected(),
        Key::Sess(_) => fact.is_session(),
        Key::User(_) => fact.is_user(),
        Key::Seat(_) => fact.is_seat(),
        Key::Dev(_) => fact.is_device(),
        Key::Lock(_) => fact.is_lock(),
        Key::Taken(_, _) => fact.is_handle(),
        _ => false,
    }
}

impl Rows {
    ghost use Rattle.login_table.specs.Listed.{is_there};
    ghost use Rattle.login_table.specs.inner.Nearest.{nearer};

    /// No facts but those at the start. It takes no memory.
    pub fn new(alloc: Global) -> Rows
        ensures { result.trail ≡ [] }
    {
        Rows {
            rows: Ordered::new(alloc),
            there: Places::new(alloc),
            start: StartFacts::new(),
        }
    }

    /// Makes room for so many more rows, and for a place of each.
    pub fn reserve(&mut self, more: usize) -> Result<(), NoMemory>
        ensures ok { OnOk result (more ≤ self.new.spare) }
        ensures trail { self.new.trail ≡ self.old.trail }
        ensures spare { self.old.spare ≤ self.new.spare }
    {
        self.rows.reserve(more)?;
        self.there.reserve(self.rows.room())
    }

    /// The fact under a key.
    pub fn fact(&self, key: &Key) -> &Fact
        ensures { result.now ≡ value self.now.trail key.now }
    {
        match self.rows.find(key) {
            Some(row) => &row.fact,
            None => self.start.fact(key),
        }
    }

    /// Sets the fact under a key. It takes no memory. The answer is whether the key is new: it was not set before.
    pub fn set(&mut self, key: Key, fact: Fact) -> bool
        requires { was_set self.old.trail key ≡ false → 0 < self.old.spare }
        ensures new_key { result ≡ not (was_set self.old.trail key) }
        ensures facts { (k : AnyKey) → value self.new.trail k ≡ value (Set key fact ∷ self.old.trail) k }
        ensures keys { (k : AnyKey) → was_set self.new.trail k ≡ was_set (Set key fact ∷ self.old.trail) k }
        ensures spare { self.old.spare ≤ self.new.spare + (if result then 1 else 0) }
    {
        let is_in = says_there(&key, &fact);
        let at = self.rows.place(&key);
        if self.rows.is_row_of(at, &key) {
            self.rows.exchange(at, fact);
            self.there.put(at, is_in);
            return false;
        }
        self.there.raise(at);
        self.there.put(at, is_in);
        self.rows.insert(at, Row { key, fact });
        true
    }

    /// The lower of the best name and the one at the start, if that is there and above.
    fn nearer_first<N: Name>(&self, above: Option<N>, best: Option<N>) -> Option<N>
        ensures { result ≡ nearer N.lt (is_there N.key_of N.is_fact self.now.trail) above N.first best }
    {
        match N::at_start() {
            Some(name) => {
                if is_above(above, name)
                    && is_lower(name, best)
                    && N::is_there(self.fact(&name.key()))
                {
                    Some(name)
                } else {
                    best
                }
            }
            None => best,
        }
    }

    /// The least name of a kind above that one that is there.
    pub fn next<N: Name>(&self, above: Option<N>) -> Option<N>
        ensures { IsNext N.lt (is_there N.key_of N.is_fact self.now.trail) above result }
    {
        let found = self.there.next(&self.rows, above);
        self.nearer_first(above, found)
    }

    /// The least device above that one that a session has taken. It is found by halving.
    pub fn next_taken(&self, session: SessId, above: Option<DevNo>) -> Option<DevNo>
        ensures { IsNext device_lt (is_taken self.now.trail session) above result }
    {
        self.there.next_taken(&self.rows, session, above)
    }

    /// The least session above that one that has a device taken. It is found by halving, from one that has anything
    /// taken to the next.
    pub fn next_taker(&self, device: DevNo, above: Option<SessId>) -> Option<SessId>
        ensures { IsNext session_lt (λ s. is_taken self.now.trail s device) above result }
    {
        self.there.next_taker(&self.rows, device, above)
    }
}
