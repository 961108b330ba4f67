// How notices are printed.

ghost use Rattle.std.specs.Prelude.{◌≡◌, ◌++◌, ◌∷◌, OnOk};
ghost use Rattle.login_model.specs.Words.{pause_word};
ghost use Rattle.recording.specs.MarkWords.{session_or_dash, notice_words};
ghost use Rattle.login_model.specs.inner.Prefixed.{spaced};

use crate::key_text::{push_device_word, push_numbered, push_seat, push_session};
use crate::line_text::LineText;
use login_base::{NoMemory, SessId};
use login_model::{Notice, PauseKind};

/// Adds a session's id, or `-` for none.
fn push_session_or_dash(text: &mut LineText, session: Option<SessId>) -> Result<(), NoMemory>
    ensures { OnOk result (text.new ≡ text.old ++ 32 ∷ session_or_dash session) }
{
    match session {
        Some(session) => text.session(session),
        None => text.push(b" -"),
    }
}

fn push_pause_kind(text: &mut LineText, kind: PauseKind) -> Result<(), NoMemory>
    ensures { OnOk result (text.new ≡ text.old ++ 32 ∷ pause_word kind) }
{
    text.word(kind.name())
}

/// Adds the words of a notice.
#[tactic(auto, unfolding(crate::specs::MarkWords::notice_words))]
pub(crate) fn push_notice(text: &mut LineText, notice: &Notice) -> Result<(), NoMemory>
    ensures { OnOk result (text.new ≡ text.old ++ spaced (notice_words notice.now)) }
{
    match notice {
        Notice::Pause(session, device, kind) => {
            text.word(b"pause")?;
            text.session(*session)?;
            push_device_word(text, *device)?;
            push_pause_kind(text, *kind)
        }
        Notice::Resume(session, device, handle) => {
            text.word(b"resume")?;
            text.session(*session)?;
            push_device_word(text, *device)?;
            text.number(handle.0)
        }
        Notice::Lock(session) => push_session(text, b"lock", *session),
        Notice::Unlock(session) => push_session(text, b"unlock", *session),
        Notice::SessionNew(session) => push_session(text, b"session-new", *session),
        Notice::SessionRemoved(session) => push_session(text, b"session-removed", *session),
        Notice::UserNew(uid) => push_numbered(text, b"user-new", uid.0),
        Notice::UserRemoved(uid) => push_numbered(text, b"user-removed", uid.0),
        Notice::SeatNew(seat) => push_seat(text, b"seat-new", seat),
        Notice::SeatRemoved(seat) => push_seat(text, b"seat-removed", seat),
        Notice::PrepareShutdown(begins) => {
            text.word(b"prepare")?;
            text.word(b"shutdown")?;
            text.flag(*begins)
        }
        Notice::PrepareSleep(begins) => {
            text.word(b"prepare")?;
            text.word(b"sleep")?;
            text.flag(*begins)
        }
        Notice::Active(seat, old, new) => {
            text.word(b"active")?;
            text.word(seat.as_slice())?;
            push_session_or_dash(text, *old)?;
            push_session_or_dash(text, *new)
        }
    }
}
