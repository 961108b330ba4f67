// How keys are printed.

ghost use Rattle.std.specs.Prelude.{◌≡◌, ◌++◌, ◌∷◌, OnOk};
ghost use Rattle.std.specs.Fmt.{decimal};
ghost use Rattle.login_base.specs.SessionId.{session_text};
ghost use Rattle.recording.specs.MarkWords.{device_word, key_words};
ghost use Rattle.login_model.specs.inner.Prefixed.{spaced};

use crate::line_text::LineText;
use login_base::{DevNo, NoMemory, SeatName, SessId};
use login_model::Key;

/// Adds a space and a device's two numbers, with a colon between them.
pub(crate) fn push_device_word(text: &mut LineText, device: DevNo) -> Result<(), NoMemory>
    ensures { OnOk result (text.new ≡ text.old ++ 32 ∷ device_word device) }
{
    text.number(device.major)?;
    text.push(b":")?;
    text.digits(device.minor)
}

/// Adds a word and a number.
pub(crate) fn push_numbered(text: &mut LineText, word: &[u8], n: u32) -> Result<(), NoMemory>
    ensures { OnOk result (text.new ≡ text.old ++ 32 ∷ (word.now ++ 32 ∷ decimal n)) }
{
    text.word(word)?;
    text.number(n)
}

/// Adds a word and a session's id.
pub(crate) fn push_session(
    text: &mut LineText,
    word: &[u8],
    session: SessId,
) -> Result<(), NoMemory>
    ensures { OnOk result (text.new ≡ text.old ++ 32 ∷ (word.now ++ 32 ∷ session_text session)) }
{
    text.word(word)?;
    text.session(session)
}

/// Adds a word and a seat's name.
pub(crate) fn push_seat(text: &mut LineText, word: &[u8], seat: &SeatName) -> Result<(), NoMemory>
    ensures { OnOk result (text.new ≡ text.old ++ 32 ∷ (word.now ++ 32 ∷ seat.now)) }
{
    text.word(word)?;
    text.word(seat.as_slice())
}

/// Adds a word and a device.
fn push_device(text: &mut LineText, word: &[u8], device: DevNo) -> Result<(), NoMemory>
    ensures { OnOk result (text.new ≡ text.old ++ 32 ∷ (word.now ++ 32 ∷ device_word device)) }
{
    text.word(word)?;
    push_device_word(text, device)
}

/// Adds a word, a session's id and a device.
fn push_pair(
    text: &mut LineText,
    word: &[u8],
    session: SessId,
    device: DevNo,
) -> Result<(), NoMemory>
    ensures { OnOk result (text.new ≡ text.old ++ 32 ∷ (word.now ++ 32 ∷ (session_text session ++ 32 ∷ device_word device))) }
{
    text.word(word)?;
    text.session(session)?;
    push_device_word(text, device)
}

/// Adds the words of a key.
#[tactic(auto, unfolding(crate::specs::MarkWords::key_words))]
pub(crate) fn push_key(text: &mut LineText, key: &Key) -> Result<(), NoMemory>
    ensures { OnOk result (text.new ≡ text.old ++ spaced (key_words key.now)) }
{
    match key {
        Key::Conn(who) => push_numbered(text, b"conn", who.0),
        Key::Sess(session) => push_session(text, b"sess", *session),
        Key::Idle(session) => push_session(text, b"idle", *session),
        Key::Locked(session) => push_session(text, b"locked", *session),
        Key::Sig(session) => push_session(text, b"sig", *session),
        Key::Ctl(session) => push_session(text, b"ctl", *session),
        Key::User(uid) => push_numbered(text, b"user", uid.0),
        Key::Linger(uid) => push_numbered(text, b"linger", uid.0),
        Key::Owner(handle) => push_numbered(text, b"owner", handle.0),
        Key::Live(handle) => push_numbered(text, b"live", handle.0),
        Key::Seat(seat) => push_seat(text, b"seat", seat),
        Key::Act(seat) => push_seat(text, b"act", seat),
        Key::Vt => text.word(b"vt"),
        Key::Getty(vt) => push_numbered(text, b"getty", *vt),
        Key::Pending => text.word(b"pending"),
        Key::Taken(session, device) => push_pair(text, b"taken", *session, *device),
        Key::Awaited(session, device) => push_pair(text, b"awaited", *session, *device),
        Key::Dev(device) => push_device(text, b"dev", *device),
        Key::Mode(device) => push_device(text, b"mode", *device),
        Key::Lock(lock) => push_numbered(text, b"lock", lock.0),
        Key::Op => text.word(b"op"),
        Key::Docked => text.word(b"docked"),
        Key::Now => text.word(b"now"),
    }
}
