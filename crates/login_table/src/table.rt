// What tables of facts have in common.

ghost use Rattle.std.specs.Prelude.{◌≡◌, ◌+◌, ◌<◌, ◌≤◌, if◌then◌else◌, Bool, [], ◌∷◌, OnOk, MatchOption, None, Some, not, true, false};
ghost use Rattle.login_model.specs.Trail.{Trail, value, was_set};
ghost use Rattle.login_model.specs.Names.{IsNext};
ghost use Rattle.login_model.specs.declared.fact.Key.{Key as AnyKey};
ghost use Rattle.login_model.specs.declared.mark.Mark.TheVariants.{Set};
ghost use Rattle.login_table.specs.KeyOrder.{rank_of};
ghost use Rattle.login_table.specs.Listed.{is_there};
ghost use Rattle.login_table.specs.Rows.{RowList};
ghost use Rattle.login_table.specs.Stands.{Stands, own_fact};

use crate::key_order::rank_of;
use crate::name::Name;
use crate::rows::Rows;
use login_base::NoMemory;
use login_model::{Fact, Key};
use std::alloc::Global;

/// A table of facts: those under the keys that are its own. It stands for marks whose settings were
/// applied. A table gives its keys and the rows of each kind of key, and has the rest from here. A table of
/// kinds whose names all keep growing has rows for each of them, so that a new one comes last in their order too.
pub trait Table {
    /// Whether a key is one of its own.
    ghost owns: { AnyKey → Bool };

    /// Its facts as settings, and how many more keys can be set for the first time without memory.
    ghost list: { Self → RowList };

    /// Whether a key is one of its own.
    fn is_own(key: &Key) -> bool
        ensures { result ≡ owns key.now };

    /// The table of no marks. It takes no memory.
    fn new(alloc: Global) -> Self
        ensures stands { Stands owns (list result).trail [] }
        ensures none { (list result).trail ≡ [] };

    /// The rows with the facts under the keys of one kind, by its rank.
    fn part(&self, rank: u8) -> &Rows
        ensures { (k : AnyKey) → rank_of k ≡ rank → value result.now.trail k ≡ value (list self.now).trail k };

    /// Makes the spare at least so much: so many more keys can be set for the first time without memory.
    fn room(&mut self, keys: usize) -> Result<(), NoMemory>
        ensures ok { OnOk result (keys ≤ (list self.new).spare) }
        ensures same { (list self.new).trail ≡ (list self.old).trail }
        ensures spare { (list self.old).spare ≤ (list self.new).spare };

    /// Sets the fact under a key. It takes no memory. The answer is whether the key is new: it was not set before.
    fn set(&mut self, key: Key, fact: Fact) -> bool
        requires { was_set (list self.old).trail key ≡ false → 0 < (list self.old).spare }
        ensures new_key { result ≡ not (was_set (list self.old).trail key) }
        ensures facts { (k : AnyKey) → value (list self.new).trail k ≡ value (Set key fact ∷ (list self.old).trail) k }
        ensures keys { (k : AnyKey) → was_set (list self.new).trail k ≡ was_set (Set key fact ∷ (list self.old).trail) k }
        ensures spare { (list self.old).spare ≤ (list self.new).spare + (if result then 1 else 0) };

    /// The fact of the last setting of a key, or the fact at the start.
    fn fact(&self, key: &Key) -> &Fact
        ensures { result.now ≡ value (list self.now).trail key.now }
    {
        self.part(rank_of(key)).fact(key)
    }

    /// The fact under a key, where it is one of the table's.
    fn look(&self, key: &Key) -> Option<&Fact>
        ensures { MatchOption result (own_fact owns (list self.now).trail key.now ≡ None) (λ fact. own_fact owns (list self.now).trail key.now ≡ Some fact.now) }
    {
        if Self::is_own(key) {
            Some(self.fact(key))
        } else {
            None
        }
    }

    /// Applies a setting. One under another table's key changes nothing. It takes no memory.
    fn apply(&mut self, key: Key, fact: Fact)
        requires { was_set (list self.old).trail key ≡ false → 0 < (list self.old).spare }
        ensures stands { (t : Trail) → Stands owns (list self.old).trail t → Stands owns (list self.new).trail (Set key fact ∷ t) }
        ensures other { owns key ≡ false → self.new ≡ self.old }
        ensures spare { (list self.old).spare ≤ (list self.new).spare + 1 }
    {
        if Self::is_own(&key) {
            self.set(key, fact);
        }
    }

    /// The least name of a kind above that one that is there. The keys of the kind are the table's.
    fn next<N: Name>(&self, above: Option<N>) -> Option<N>
        requires { (a : N) → owns (N.key_of a) ≡ true }
        ensures { (t : Trail) → Stands owns (list self.now).trail t → IsNext N.lt (is_there N.key_of N.is_fact t) above result }
    {
        self.part(N::rank()).next(above)
    }
}
