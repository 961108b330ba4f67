// Copies of the texts of a lock, made before it stands.

ghost use Rattle.std.specs.Prelude.{◌≡◌, IfOk};
ghost use Rattle.login_core.specs.Ready.{AreOfLock};
ghost use Rattle.login_core.specs.Texts.{lock_texts};

use login_base::{NoMemory, Word};
use login_model::{Inhibition, Lock, Slot};
use std::alloc::Global;

/// What people read of a lock.
#[derive(Drop)]
pub struct LockTexts {
    pub who: Word,
    pub why: Word,
}

/// The texts of a lock that is asked for, and memory for the lock: for its mark and for its fact.
#[derive(Drop)]
pub struct LockCopies {
    pub mark: LockTexts,
    pub fact: LockTexts,
    pub mark_slot: Slot<Lock>,
    pub fact_slot: Slot<Lock>,
}

/// A copy of the texts of the lock that a call asks for.
fn copied_texts(inhibition: &Inhibition) -> Result<LockTexts, NoMemory>
    ensures { IfOk result (λ texts. texts ≡ lock_texts inhibition.now) }
{
    Ok(LockTexts {
        who: inhibition.who.copied()?,
        why: inhibition.why.copied()?,
    })
}

/// Two copies of the texts of the lock that a call asks for, and memory for two locks.
pub fn lock_copies(alloc: Global, inhibition: &Inhibition) -> Result<LockCopies, NoMemory>
    ensures { IfOk result (λ copies. AreOfLock inhibition.now copies) }
{
    let mark = copied_texts(inhibition)?;
    let fact = copied_texts(inhibition)?;
    let mark_slot = Slot::new(alloc)?;
    let fact_slot = Slot::new(alloc)?;
    Ok(LockCopies {
        mark,
        fact,
        mark_slot,
        fact_slot,
    })
}
