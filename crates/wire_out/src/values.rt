// Values of replies and signals.

ghost use Rattle.std.specs.Prelude.{◌≡◌, ◌++◌, ◌∷◌, [], IfOk, OnOk, true};
ghost use Rattle.login_base.specs.Seat.{is_seat_name};
ghost use Rattle.login_base.specs.SessionId.{session_text};
ghost use Rattle.login_model.specs.Paths.{seat_path, session_path, user_path};
ghost use Rattle.wire_out.specs.Messages.{path, text};
ghost use Rattle.wire_out.specs.Replies.{seat_text};
ghost use Rattle.wire_out.specs.References.{no_reference, reference_or_none, seat_or_none, seat_reference, session_reference, user_reference};
ghost use Rattle.wire_out.specs.inner.Sendable.{IsSeatIf};
ghost use Rattle.wire_out.specs.inner.Numbers.{IsNumber, IsNumberIf};

use crate::paths::{seat_path, session_path, user_path};
use bus_message::{made_path, number};
use bus_value::{BasicValue, Value};
use login_base::{NoMemory, SeatName, SessId, Uid, Word};
use login_model::Boxed;
use std::alloc::Global;

/// A text.
pub(crate) fn text(alloc: Global, bytes: &[u8]) -> Result<Value, NoMemory>
    ensures { IfOk result (λ value. value ≡ text bytes.now) }
{
    Ok(Value::basic(BasicValue::Str(Word::from_slice(alloc, bytes)?)))
}

/// A session's id.
pub(crate) fn session_id(alloc: Global, session: SessId) -> Result<Value, NoMemory>
    ensures value { IfOk result (λ value. value ≡ text (session_text session)) }
    ensures ranged { OnOk result (IsNumber session.0) }
{
    Ok(Value::basic(BasicValue::Str(session.text(alloc)?)))
}

/// The path of a session's object.
pub(crate) fn session_object(alloc: Global, session: SessId) -> Result<Value, NoMemory>
    ensures value { IfOk result (λ value. value ≡ path (session_path session)) }
    ensures ranged { OnOk result (IsNumber session.0) }
{
    Ok(Value::basic(BasicValue::Path(session_path(alloc, session)?)))
}

/// The path of a user's object.
pub(crate) fn user_object(alloc: Global, uid: Uid) -> Result<Value, NoMemory>
    ensures value { IfOk result (λ value. value ≡ path (user_path uid)) }
    ensures ranged { OnOk result (IsNumber uid.0) }
{
    Ok(Value::basic(BasicValue::Path(user_path(alloc, uid)?)))
}

/// The path of a seat's object.
pub(crate) fn seat_object(alloc: Global, seat: &SeatName) -> Result<Value, NoMemory>
    requires { is_seat_name seat.now ≡ true }
    ensures { IfOk result (λ value. value ≡ path (seat_path seat.now)) }
{
    Ok(Value::basic(BasicValue::Path(seat_path(alloc, seat)?)))
}

/// A seat's name, or the empty text for none.
pub(crate) fn seat_name(alloc: Global, seat: Option<SeatName>) -> Result<Value, NoMemory>
    ensures { IfOk result (λ value. value ≡ text (seat_text seat)) }
{
    match seat {
        Some(name) => text(alloc, name.as_slice()),
        None => text(alloc, b""),
    }
}

/// Two values.
pub(crate) fn pair(alloc: Global, first: Value, second: Value) -> Result<Vec<Value>, NoMemory>
    ensures { IfOk result (λ values. values.items ≡ first ∷ second ∷ []) }
{
    Ok(Vec::from_array(alloc, [first, second])?)
}

/// A session's id and the path of its object.
pub(crate) fn session_reference(alloc: Global, session: SessId) -> Result<Vec<Value>, NoMemory>
    ensures values { IfOk result (λ values. values.items ≡ session_reference session) }
    ensures ranged { OnOk result (IsNumber session.0) }
{
    let path = session_path(alloc, session)?;
    let id = session_id(alloc, session)?;
    pair(alloc, id, Value::basic(BasicValue::Path(path)))
}

/// A seat's name and the path of its object.
pub(crate) fn seat_reference(alloc: Global, seat: &SeatName) -> Result<Vec<Value>, NoMemory>
    requires { is_seat_name seat.now ≡ true }
    ensures { IfOk result (λ values. values.items ≡ seat_reference seat.now) }
{
    let path = seat_path(alloc, seat)?;
    let name = text(alloc, seat.as_slice())?;
    pair(alloc, name, Value::basic(BasicValue::Path(path)))
}

/// A user's number and the path of its object.
pub(crate) fn user_reference(alloc: Global, uid: Uid) -> Result<Vec<Value>, NoMemory>
    ensures values { IfOk result (λ values. values.items ≡ user_reference uid) }
    ensures ranged { OnOk result (IsNumber uid.0) }
{
    let object = user_object(alloc, uid)?;
    pair(alloc, number(uid.0), object)
}

/// The empty text and the root path.
fn no_reference(alloc: Global) -> Result<Vec<Value>, NoMemory>
    ensures { IfOk result (λ values. values.items ≡ no_reference) }
{
    let root = made_path(alloc, b"/")?;
    let name = text(alloc, b"")?;
    pair(alloc, name, Value::basic(BasicValue::Path(root)))
}

/// A session's id and path, or the empty id and the root path for none.
pub(crate) fn reference_or_none(
    alloc: Global,
    session: Option<SessId>,
) -> Result<Vec<Value>, NoMemory>
    ensures values { IfOk result (λ values. values.items ≡ reference_or_none session) }
    ensures ranged { OnOk result (IsNumberIf session) }
{
    match session {
        Some(session) => session_reference(alloc, session),
        None => no_reference(alloc),
    }
}

/// A seat's name and path, or the empty name and the root path for none.
pub(crate) fn seat_or_none(
    alloc: Global,
    seat: &Option<Boxed<SeatName>>,
) -> Result<Vec<Value>, NoMemory>
    requires { IsSeatIf seat.now }
    ensures { IfOk result (λ values. values.items ≡ seat_or_none seat.now) }
{
    match seat {
        Some(seat) => seat_reference(alloc, seat.get()),
        None => no_reference(alloc),
    }
}

/// Adds a value at the end.
pub(crate) fn push(out: &mut Vec<Value>, value: Value) -> Result<(), NoMemory>
    ensures { OnOk result (out.new.items ≡ out.old.items ++ value ∷ []) }
{
    out.push(value)?;
    Ok(())
}
