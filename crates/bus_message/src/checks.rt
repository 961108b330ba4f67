// Whether the fields of a message are as they are to be.

ghost use Rattle.std.specs.Prelude.{◌≡◌, ◌<◌, length, take, []};
ghost use Rattle.bus_message.specs.inner.Faults.{Gives};
ghost use Rattle.bus_message.specs.Fields.{found, is_typed, is_bad, has_required};
ghost use Rattle.bus_message.specs.Checks.{Tells};
ghost use Rattle.bus_message.specs.inner.Checks.{field_at};
ghost use Rattle.bus_message.specs.inner.KnownFields.{first_bad, known_hold, shown};
ghost use Rattle.bus_message.specs.Reading.{unless_bad};

use crate::fault::{MessageFault, Refusal, refuse};
use crate::fields::{is_there, types, u32_at};
use crate::message::Message;
use bus_value::Field;

/// The highest number of a field that is known.
pub(crate) const MOST_KNOWN: u8 = 9;

/// Whether the first field with a known number holds what it is to hold; the message is what the fields tell.
fn reads(message: &Message, fields: &[Field], wanted: u8) -> bool
    requires { Tells message.now (shown fields.now) }
    ensures { result ≡ is_typed wanted (found wanted (shown fields.now)) }
{
    match wanted {
        1 => message.path.is_some(),
        2 => message.interface.is_some(),
        3 => message.member.is_some(),
        4 => message.error.is_some(),
        5 => message.reply_to.is_some(),
        6 => message.destination.is_some(),
        7 => message.sender.is_some(),
        8 => types(fields, 8).is_some(),
        9 => u32_at(fields, 9).is_some(),
        _ => false,
    }
}

/// Whether the field at a place, whose number is known or 0, has the number 0, stands among those before it or holds
/// another value.
fn is_bad(message: &Message, fields: &[Field], index: usize) -> bool
    requires tells { Tells message.now (shown fields.now) }
    requires within { index < length fields.now }
    ensures { result ≡ is_bad (take index (shown fields.now)) (field_at (shown fields.now) index) }
{
    let known = fields[index].number;
    if known > MOST_KNOWN {
        return false;
    }
    if is_there(&fields[..index], known) {
        return true;
    }
    !reads(message, fields, known)
}

/// Whether each known field stands there once and holds what it is to hold.
fn check_each(message: &Message, fields: &[Field]) -> Result<(), Refusal>
    requires { Tells message.now (shown fields.now) }
    ensures { Gives result (unless_bad (first_bad [] fields.now)) }
{
    for index in 0..fields.len() {
        if is_bad(message, fields, index) {
            return refuse(MessageFault::BadField, fields[index].offset);
        }
    }
    Ok(())
}

/// Whether no field is missing that the message's kind requires.
#[tactic(auto, unfolding(crate::specs::Fields::has_required))]
fn has_required(message: &Message) -> bool
    ensures { result ≡ has_required message.now }
{
    match message.kind {
        1 => message.path.is_some() && message.member.is_some(),
        2 => message.reply_to.is_some(),
        3 => message.error.is_some() && message.reply_to.is_some(),
        4 => message.path.is_some() && message.interface.is_some() && message.member.is_some(),
        _ => true,
    }
}

/// Whether the fields are as they are to be, of which the message tells.
pub(crate) fn check_fields(message: &Message, fields: &[Field]) -> Result<(), Refusal>
    requires { Tells message.now (shown fields.now) }
    ensures { Gives result (known_hold message.now fields.now) }
{
    check_each(message, fields)?;
    if !has_required(message) {
        return refuse(MessageFault::MissingField, 0);
    }
    match u32_at(fields, 9) {
        Some(count) if count != 0 => refuse(MessageFault::FdsNotAgreed, 0),
        _ => Ok(()),
    }
}
