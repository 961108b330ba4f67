// The paths of objects (org.freedesktop.login1(5)).

ghost use Rattle.std.specs.Prelude.{◌≡◌, IfOk, OnOk, true};
ghost use Rattle.login_base.specs.Labels.{escape};
ghost use Rattle.login_base.specs.Seat.{is_seat_name};
ghost use Rattle.login_model.specs.Paths.{runtime_path, seat_path, session_path, user_path};
ghost use Rattle.wire_out.specs.inner.Numbers.{IsNumber};

use bus_message::{joined, made_path, numbered};
use bus_names::ObjectPath;
use login_base::{NoMemory, SeatName, SessId, Uid, Word, escape};
use login_model::{SEAT_FRONT, SESSION_FRONT, USER_FRONT};
use std::alloc::Global;

/// The bytes of the path of a session's object.
#[tactic(auto, unfolding(login_model::specs::Paths::session_path))]
fn session_bytes(alloc: Global, session: SessId) -> Result<Vec<u8>, NoMemory>
    ensures { IfOk result (λ path. path.items ≡ session_path session) }
{
    let id = session.text(alloc)?;
    let label = escape(alloc, id.as_slice())?;
    joined(alloc, SESSION_FRONT, label.as_slice())
}

/// The path of a session's object.
pub(crate) fn session_path(alloc: Global, session: SessId) -> Result<ObjectPath, NoMemory>
    ensures path { IfOk result (λ path. path ≡ session_path session) }
    ensures ranged { OnOk result (IsNumber session.0) }
{
    let path = session_bytes(alloc, session)?;
    made_path(alloc, path.as_slice())
}

/// The bytes of the path of a seat's object.
#[tactic(auto, unfolding(login_model::specs::Paths::seat_path))]
fn seat_bytes(alloc: Global, seat: &SeatName) -> Result<Vec<u8>, NoMemory>
    ensures { IfOk result (λ path. path.items ≡ seat_path seat.now) }
{
    let label = seat.label(alloc)?;
    joined(alloc, SEAT_FRONT, label.as_slice())
}

/// The path of a seat's object.
pub(crate) fn seat_path(alloc: Global, seat: &SeatName) -> Result<ObjectPath, NoMemory>
    requires { is_seat_name seat.now ≡ true }
    ensures { IfOk result (λ path. path ≡ seat_path seat.now) }
{
    let path = seat_bytes(alloc, seat)?;
    made_path(alloc, path.as_slice())
}

/// The bytes of the path of a user's object.
#[tactic(auto, unfolding(login_model::specs::Paths::user_path))]
fn user_bytes(alloc: Global, uid: Uid) -> Result<Vec<u8>, NoMemory>
    ensures { IfOk result (λ path. path.items ≡ user_path uid) }
{
    numbered(alloc, USER_FRONT, uid.0)
}

/// The path of a user's object.
pub(crate) fn user_path(alloc: Global, uid: Uid) -> Result<ObjectPath, NoMemory>
    ensures path { IfOk result (λ path. path ≡ user_path uid) }
    ensures ranged { OnOk result (IsNumber uid.0) }
{
    let path = user_bytes(alloc, uid)?;
    made_path(alloc, path.as_slice())
}

/// The path of a user's runtime directory.
#[tactic(auto, unfolding(login_model::specs::Paths::runtime_path))]
pub(crate) fn runtime_path(alloc: Global, uid: Uid) -> Result<Word, NoMemory>
    ensures { IfOk result (λ path. path ≡ runtime_path uid) }
{
    let path = numbered(alloc, b"/run/user/", uid.0)?;
    Ok(Word::from_vec(path))
}
