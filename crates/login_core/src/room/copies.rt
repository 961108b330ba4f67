// Copies of texts, made before they are needed.

ghost use Rattle.std.specs.Prelude.{◌≡◌, IfOk};
ghost use Rattle.login_model.specs.Creating.{session_texts};

use login_base::NoMemory;
use login_model::{Creation, Session, SessionTexts, Slot};
use std::alloc::Global;

/// The texts of a session that is created, and memory for the session: for its mark and for its fact.
#[derive(Drop)]
pub struct Copies {
    pub mark: SessionTexts,
    pub fact: SessionTexts,
    pub mark_slot: Slot<Session>,
    pub fact_slot: Slot<Session>,
}

/// A copy of the texts with which a session is created.
fn copied_texts(creation: &Creation) -> Result<SessionTexts, NoMemory>
    ensures { IfOk result (λ texts. texts ≡ session_texts creation.now) }
{
    Ok(SessionTexts {
        service: creation.service.copied()?,
        desktop: creation.desktop.copied()?,
        tty: creation.tty.copied()?,
        display: creation.display.copied()?,
        remote_user: creation.remote_user.copied()?,
        remote_host: creation.remote_host.copied()?,
    })
}

/// Two copies of the texts with which a session is created, and memory for two sessions.
pub fn copies_of(alloc: Global, creation: &Creation) -> Result<Copies, NoMemory>
    ensures mark { IfOk result (λ copies. copies.mark ≡ session_texts creation.now) }
    ensures fact { IfOk result (λ copies. copies.fact ≡ session_texts creation.now) }
{
    let mark_slot = Slot::new(alloc)?;
    let fact_slot = Slot::new(alloc)?;
    let mark = copied_texts(creation)?;
    let fact = copied_texts(creation)?;
    Ok(Copies {
        mark,
        fact,
        mark_slot,
        fact_slot,
    })
}
