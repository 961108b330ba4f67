// The first lock that stands in the way.

ghost use Rattle.std.specs.Prelude.{◌≡◌};
ghost use Rattle.login_model.specs.Facts.{handles_key, holds_back};
ghost use Rattle.login_model.specs.Locks.{key_locks, matching};
ghost use Rattle.login_model.specs.Trail.{value};
ghost use Rattle.login_model.specs.declared.fact.Key.TheVariants.{Lock};
ghost use Rattle.login_table.specs.Listed.{first};

use crate::search::{Test, find_first};
use login_base::LockNo;
use login_model::{HardKey, Key, LockMode, Look, OpKind};

/// The lock has this mode and holds up the operation.
#[derive(Drop)]
struct HoldsBack {
    kind: OpKind,
    mode: LockMode,
}

impl Test<LockNo> for HoldsBack {
    ghost meets = { λ test t l. holds_back test.kind test.mode (value t (Lock l)) };

    fn is_met<F: Look>(&self, facts: &F, lock: LockNo) -> bool {
        facts
            .fact(&Key::Lock(lock))
            .holds_back(self.kind, self.mode)
    }
}

/// The lock takes the key from the login manager.
#[derive(Drop)]
struct HandlesKey(HardKey);

impl Test<LockNo> for HandlesKey {
    ghost meets = { λ test t l. handles_key test.0 (value t (Lock l)) };

    fn is_met<F: Look>(&self, facts: &F, lock: LockNo) -> bool {
        facts.fact(&Key::Lock(lock)).handles_key(self.0)
    }
}

/// The first lock of a mode that holds up an operation.
pub fn matching_lock<F: Look>(facts: &F, kind: OpKind, mode: LockMode) -> Option<LockNo>
    ensures { result ≡ first (matching (F.trail facts.now) kind mode) }
{
    find_first(facts, &HoldsBack { kind, mode })
}

/// The first lock that takes a key from the login manager.
pub fn key_lock<F: Look>(facts: &F, key: HardKey) -> Option<LockNo>
    ensures { result ≡ first (key_locks (F.trail facts.now) key) }
{
    find_first(facts, &HandlesKey(key))
}
