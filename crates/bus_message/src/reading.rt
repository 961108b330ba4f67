// How a whole message is read.

ghost use Rattle.std.specs.Prelude.{◌≡◌, ◌<◌, ◌+◌, ◌^◌, length, IfOk};
ghost use Rattle.bus_value.specs.Faults.{zeros};
ghost use Rattle.bus_value.specs.Reading.{read_all};
ghost use Rattle.bus_message.specs.Faults.{for_cause};
ghost use Rattle.bus_message.specs.inner.Faults.{Gives};
ghost use Rattle.bus_message.specs.Headers.{size};
ghost use Rattle.bus_message.specs.inner.Headers.{HasShortLengths};
ghost use Rattle.bus_message.specs.inner.KnownFields.{fields_known, known_message, shown, with_known};
ghost use Rattle.bus_message.specs.inner.Parts.{target_in, parties_in};
ghost use Rattle.bus_message.specs.Reading.{padding_read, headed, body_read, message_of};

use crate::checks::{MOST_KNOWN, check_fields};
use crate::fault::{MessageFault, Refusal, refuse, refused};
use crate::fields::{bus_name, interface, member, path, types, u32_at};
use crate::header::Header;
use crate::message::Message;
use bus_names::{BusName, Interface, Member, ObjectPath, Signature};
use bus_value::{Field, Order, Values, read_fields, read_values, signature_of};
use login_base::{Items, NoMemory};
use std::alloc::Global;

/// The values of these types that the bytes of a body spell.
fn read(
    alloc: Global,
    order: Order,
    start: usize,
    types: &Signature,
    bytes: &[u8],
) -> Result<Values, Refusal>
    ensures { Gives result (for_cause MessageFault.BadBody (read_all order start types.now bytes.now)) }
{
    match read_values(alloc, order, start, types, bytes) {
        Ok(values) => Ok(values),
        Err(fault) => Err(refused(MessageFault::BadBody, fault)),
    }
}

/// The known fields. All are checked, and the others are not kept.
#[tactic(auto, unfolding(crate::specs::inner::KnownFields::fields_known))]
fn known_fields(alloc: Global, header: Header, bytes: &[u8]) -> Result<Items<Field>, Refusal>
    requires room { HasShortLengths header }
    requires whole { length bytes.now ≡ size header }
    ensures { Gives result (fields_known header bytes.now) }
{
    let list = &bytes[12..header.fields_end()];
    match read_fields(alloc, header.order, 12, MOST_KNOWN, list) {
        Ok(fields) => Ok(fields),
        Err(fault) => Err(refused(MessageFault::BadField, fault)),
    }
}

/// Whether this padding is zero, which stands from `at` on.
fn check_zeros(padding: &[u8], at: usize) -> Result<(), Refusal>
    requires { at + length padding.now < 2 ^ 64 }
    ensures { Gives result (for_cause MessageFault.BadField (zeros at padding.now)) }
{
    for index in 0..padding.len() {
        if padding[index] != 0 {
            return refuse(MessageFault::BadField, at + index);
        }
    }
    Ok(())
}

/// Whether the padding behind the fields is zero.
#[tactic(auto, unfolding(crate::specs::Reading::padding_read))]
fn check_padding(header: Header, bytes: &[u8]) -> Result<(), Refusal>
    requires room { HasShortLengths header }
    requires whole { length bytes.now ≡ size header }
    ensures { Gives result (padding_read header bytes.now) }
{
    let end = header.fields_end();
    check_zeros(&bytes[end..header.body_start()], end)
}

/// The target of a call, or the source of a signal.
#[derive(Drop)]
struct Target {
    path: Option<ObjectPath>,
    interface: Option<Interface>,
    member: Option<Member>,
}

/// What the fields say of the target.
fn read_target(alloc: Global, fields: &[Field]) -> Result<Target, NoMemory>
    ensures { IfOk result (λ target. target ≡ target_in (shown fields.now)) }
{
    Ok(Target {
        path: path(fields, 1)?,
        interface: interface(alloc, fields, 2)?,
        member: member(alloc, fields, 3)?,
    })
}

/// Who sends a message, and to whom.
#[derive(Drop)]
struct Parties {
    destination: Option<BusName>,
    sender: Option<BusName>,
}

/// What the fields say of both sides.
fn read_parties(alloc: Global, fields: &[Field]) -> Result<Parties, NoMemory>
    ensures { IfOk result (λ parties. parties ≡ parties_in (shown fields.now)) }
{
    Ok(Parties {
        destination: bus_name(alloc, fields, 6)?,
        sender: bus_name(alloc, fields, 7)?,
    })
}

/// What header and fields tell, with no body.
fn headed(alloc: Global, header: Header, fields: &[Field]) -> Result<Message, NoMemory>
    ensures { IfOk result (λ message. message ≡ headed header (shown fields.now)) }
{
    let Target {
        path,
        interface: name,
        member,
    } = read_target(alloc, fields)?;
    let Parties {
        destination,
        sender,
    } = read_parties(alloc, fields)?;
    Ok(Message {
        order: header.order,
        kind: header.kind,
        flags: header.flags,
        serial: header.serial,
        path,
        interface: name,
        member,
        error: interface(alloc, fields, 4)?,
        reply_to: u32_at(fields, 5),
        destination,
        sender,
        body: Values::made(Items::new(alloc)),
    })
}

/// The values of the body, by the signature in the fields.
#[tactic(auto, unfolding(crate::specs::Reading::body_read))]
fn read_body(
    alloc: Global,
    header: Header,
    fields: &[Field],
    bytes: &[u8],
) -> Result<Values, Refusal>
    requires room { HasShortLengths header }
    requires whole { length bytes.now ≡ size header }
    ensures { Gives result (body_read header (shown fields.now) bytes.now) }
{
    let start = header.body_start();
    let body = &bytes[start..];
    match types(fields, 8) {
        Some(types) => read(alloc, header.order, start, types, body),
        None => {
            let none = signature_of(alloc, b"")?;
            read(alloc, header.order, start, &none, body)
        }
    }
}

/// The message with these fields.
fn with_fields(
    alloc: Global,
    header: Header,
    fields: &[Field],
    bytes: &[u8],
) -> Result<Message, Refusal>
    requires room { HasShortLengths header }
    requires whole { length bytes.now ≡ size header }
    ensures { Gives result (with_known header bytes.now fields.now) }
{
    let message = headed(alloc, header, fields)?;
    check_fields(&message, fields)?;
    let body = read_body(alloc, header, fields, bytes)?;
    Ok(Message { body, ..message })
}

/// The message, by its known fields.
#[tactic(auto, unfolding(crate::specs::inner::KnownFields::known_message))]
fn known_message(alloc: Global, header: Header, bytes: &[u8]) -> Result<Message, Refusal>
    requires room { HasShortLengths header }
    requires whole { length bytes.now ≡ size header }
    ensures { Gives result (known_message header bytes.now) }
{
    let fields = known_fields(alloc, header, bytes)?;
    check_padding(header, bytes)?;
    with_fields(alloc, header, fields.as_slice(), bytes)
}

/// The message that the bytes are, which have this header.
pub(crate) fn read_message(alloc: Global, header: Header, bytes: &[u8]) -> Result<Message, Refusal>
    requires room { HasShortLengths header }
    requires whole { length bytes.now ≡ size header }
    ensures { Gives result (message_of header bytes.now) }
{
    known_message(alloc, header, bytes)
}
