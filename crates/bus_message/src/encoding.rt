// How messages are written.

ghost use Rattle.std.specs.Prelude.{◌≡◌, ◌≤◌, ◌<◌, ◌^◌, ◌++◌, ◌∷◌, [], length, IsTrue, IfOk, OnOk, Some, None};
ghost use Rattle.std.specs.Option.{option_map};
ghost use Rattle.bus_names.specs.Reading.{path_fault, interface_fault, member_fault, bus_name_fault};
ghost use Rattle.bus_names.specs.Signatures.{IsWithin};
ghost use Rattle.bus_value.specs.Limits.{AllFit};
ghost use Rattle.bus_value.specs.Typed.{AreTyped};
ghost use Rattle.bus_value.specs.Values.{basic, vals, shapes};
ghost use Rattle.bus_value.specs.declared.basic_value.BasicValue.TheVariants.{Str, Path, U32, Sig};
ghost use Rattle.bus_value.specs.Fields.{field_type};
ghost use Rattle.bus_message.specs.Fields.{has_required};
ghost use Rattle.bus_message.specs.Grammar.{IsSpelled};
ghost use Rattle.bus_message.specs.Headers.{most_written, order_letter};
ghost use Rattle.bus_message.specs.inner.Named.{HasAnswer, HasNames, HasParties, HasRanges, HasTarget, IsNameIf, IsU32If};
ghost use Rattle.bus_message.specs.Spelling.{assembled, answer_fields, body_offset, body_types, field, field_if, fields_of, list_of, message_bytes, opening, party_fields, target_fields};

use crate::message::Message;
use bus_names::{Basic, BusName, Interface, Member, ObjectPath, Type};
use bus_value::{BasicValue, Order, Value, Values, pad_size, push_padding, push_u32, write_values};
use login_base::{Bytes, Items, NoMemory, Word};
use std::alloc::Global;

/// A field of a message.
fn field(alloc: Global, number: u8, value: BasicValue) -> Result<Value, NoMemory>
    ensures { IfOk result (λ made. made ≡ field number value) }
{
    let inside = Value::variant(alloc, Value::basic(value))?;
    let parts = [Value::basic(BasicValue::Byte(number)), inside];
    Ok(Value::structure(Vec::from_array(alloc, parts)?))
}

/// Puts a field at the end.
fn push_field(
    alloc: Global,
    out: &mut Vec<Value>,
    number: u8,
    value: BasicValue,
) -> Result<(), NoMemory>
    ensures { OnOk result (out.new.items ≡ out.old.items ++ field number value ∷ []) }
{
    let made = field(alloc, number, value)?;
    out.push(made)?;
    Ok(())
}

/// Puts a field with a text at the end.
fn push_text(alloc: Global, out: &mut Vec<Value>, number: u8, text: &[u8]) -> Result<(), NoMemory>
    ensures { OnOk result (out.new.items ≡ out.old.items ++ field number (Str text.now) ∷ []) }
{
    push_field(
        alloc,
        out,
        number,
        BasicValue::Str(Word::from_slice(alloc, text)?),
    )
}

/// Puts a field with an object path at the end, if there is one.
fn push_path(
    alloc: Global,
    out: &mut Vec<Value>,
    number: u8,
    path: &Option<ObjectPath>,
) -> Result<(), NoMemory>
    ensures field { OnOk result (out.new.items ≡ out.old.items ++ field_if number (option_map (λ p. Path p) path.now)) }
    ensures name { OnOk result (IsNameIf path_fault path.now) }
{
    match path {
        Some(path) => {
            let _text = path.as_slice();
            push_field(alloc, out, number, BasicValue::Path(path.copied()?))
        }
        None => Ok(()),
    }
}

/// Puts a field with the name of an interface or of an error at the end, if there is one.
fn push_interface(
    alloc: Global,
    out: &mut Vec<Value>,
    number: u8,
    name: &Option<Interface>,
) -> Result<(), NoMemory>
    ensures field { OnOk result (out.new.items ≡ out.old.items ++ field_if number (option_map (λ t. Str t) name.now)) }
    ensures name { OnOk result (IsNameIf interface_fault name.now) }
{
    match name {
        Some(name) => push_text(alloc, out, number, name.as_slice()),
        None => Ok(()),
    }
}

/// Puts a field with the name of a member at the end, if there is one.
fn push_member(
    alloc: Global,
    out: &mut Vec<Value>,
    number: u8,
    name: &Option<Member>,
) -> Result<(), NoMemory>
    ensures field { OnOk result (out.new.items ≡ out.old.items ++ field_if number (option_map (λ t. Str t) name.now)) }
    ensures name { OnOk result (IsNameIf member_fault name.now) }
{
    match name {
        Some(name) => push_text(alloc, out, number, name.as_slice()),
        None => Ok(()),
    }
}

/// Puts a field with the name of a connection at the end, if there is one.
fn push_bus_name(
    alloc: Global,
    out: &mut Vec<Value>,
    number: u8,
    name: &Option<BusName>,
) -> Result<(), NoMemory>
    ensures field { OnOk result (out.new.items ≡ out.old.items ++ field_if number (option_map (λ t. Str t) name.now)) }
    ensures name { OnOk result (IsNameIf bus_name_fault name.now) }
{
    match name {
        Some(name) => push_text(alloc, out, number, name.as_slice()),
        None => Ok(()),
    }
}

/// Puts a field with a number at the end, if there is one.
fn push_number(
    alloc: Global,
    out: &mut Vec<Value>,
    number: u8,
    value: Option<u32>,
) -> Result<(), NoMemory>
    ensures field { OnOk result (out.new.items ≡ out.old.items ++ field_if number (option_map (λ n. U32 n) value)) }
    ensures number { OnOk result (IsU32If value) }
{
    match value {
        Some(value) => push_field(alloc, out, number, BasicValue::U32(value)),
        None => Ok(()),
    }
}

/// Puts the field with the signature of a body at the end, if the body is not empty.
fn push_signature(alloc: Global, out: &mut Vec<Value>, body: &Values) -> Result<(), NoMemory>
    requires { IsWithin (shapes (vals body.now)) }
    ensures { OnOk result (out.new.items ≡ out.old.items ++ field_if 8 (body_types body.now)) }
{
    let types = body.types(alloc)?;
    if types.types().is_empty() {
        return Ok(());
    }
    push_field(alloc, out, 8, BasicValue::Sig(types))
}

/// Puts the fields of a call's target, or of a signal's source, at the end.
fn push_target(alloc: Global, out: &mut Vec<Value>, message: &Message) -> Result<(), NoMemory>
    ensures fields { OnOk result (out.new.items ≡ out.old.items ++ target_fields message.now) }
    ensures names { OnOk result (HasTarget message.now) }
{
    push_path(alloc, out, 1, &message.path)?;
    push_interface(alloc, out, 2, &message.interface)?;
    push_member(alloc, out, 3, &message.member)
}

/// Puts the fields of an answer at the end.
fn push_answer(alloc: Global, out: &mut Vec<Value>, message: &Message) -> Result<(), NoMemory>
    ensures fields { OnOk result (out.new.items ≡ out.old.items ++ answer_fields message.now) }
    ensures names { OnOk result (HasAnswer message.now) }
{
    push_interface(alloc, out, 4, &message.error)?;
    push_number(alloc, out, 5, message.reply_to)
}

/// Puts the fields that say who sends and to whom at the end.
fn push_parties(alloc: Global, out: &mut Vec<Value>, message: &Message) -> Result<(), NoMemory>
    ensures fields { OnOk result (out.new.items ≡ out.old.items ++ party_fields message.now) }
    ensures names { OnOk result (HasParties message.now) }
{
    push_bus_name(alloc, out, 6, &message.destination)?;
    push_bus_name(alloc, out, 7, &message.sender)
}

/// The fields in ascending order.
#[tactic(auto, unfolding(crate::specs::Spelling::fields_of))]
fn fields_of(alloc: Global, message: &Message) -> Result<Vec<Value>, NoMemory>
    requires { IsWithin (shapes (vals message.now.body)) }
    ensures fields { IfOk result (λ fields. fields.items ≡ fields_of message.now) }
    ensures names { IfOk result (λ fields. HasNames message.now) }
{
    let mut out = Vec::new(alloc);
    push_target(alloc, &mut out, message)?;
    push_answer(alloc, &mut out, message)?;
    push_parties(alloc, &mut out, message)?;
    push_signature(alloc, &mut out, &message.body)?;
    Ok(out)
}

/// The type of a field.
fn field_type(alloc: Global) -> Result<Type, NoMemory>
    ensures { IfOk result (λ made. made ≡ field_type) }
{
    let parts = [Type::basic(Basic::Byte), Type::variant()];
    Type::structure(alloc, Vec::from_array(alloc, parts)?)
}

/// The one value that the fields are.
fn list_of(alloc: Global, message: &Message) -> Result<Values, NoMemory>
    requires { IsWithin (shapes (vals message.now.body)) }
    ensures list { IfOk result (λ list. list ≡ list_of (fields_of message.now)) }
    ensures names { IfOk result (λ list. HasNames message.now) }
{
    let fields = fields_of(alloc, message)?;
    let mut list = Items::new(alloc);
    list.push(Value::array(field_type(alloc)?, fields))?;
    Ok(Values::made(list))
}

/// The letter of an order of bytes.
fn order_letter(order: Order) -> u8
    ensures { result ≡ order_letter order }
{
    match order {
        Order::Little => b'l',
        Order::Big => b'B',
    }
}

/// The first twelve bytes of a message whose body has so many bytes.
fn opening(alloc: Global, message: &Message, body: u32) -> Result<Vec<u8>, NoMemory>
    ensures bytes { IfOk result (λ bytes. bytes.items ≡ opening message.now body) }
    ensures ranges { IfOk result (λ bytes. HasRanges message.now) }
{
    let (kind, flags, serial) = (message.kind, message.flags, message.serial);
    let mut out = Vec::new(alloc);
    out.extend_from_slice(&[order_letter(message.order), kind, flags, 1])?;
    push_u32(&mut out, message.order, body)?;
    push_u32(&mut out, message.order, serial)?;
    Ok(out)
}

/// The message whose fields and body have these bytes.
fn assemble(alloc: Global, message: &Message, list: &[u8], body: &[u8]) -> Result<Bytes, NoMemory>
    requires { length body.now < 2 ^ 32 }
    ensures { IfOk result (λ bytes. (bytes ≡ assembled message.now list.now body.now) × HasRanges message.now) }
{
    let mut out = opening(alloc, message, body.len() as u32)?;
    out.extend_from_slice(list)?;
    push_padding(&mut out, 0, 8)?;
    out.extend_from_slice(body)?;
    Ok(Bytes::from_vec(out))
}

/// The bytes of the message, with its fields in ascending order. The condition is that it has the fields that its kind
/// requires, and that fields and body are within the limits of the D-Bus Specification; but the whole may be 2^27 bytes
/// long.
#[tactic(auto, unfolding(crate::specs::Spelling::message_bytes))]
pub fn encode(alloc: Global, message: &Message) -> Result<Bytes, NoMemory>
    requires kind { 0 < message.now.kind }
    requires serial { 0 < message.now.serial }
    requires fields { IsTrue (has_required message.now) }
    requires field_limits { AllFit message.now.order 12 (vals (list_of (fields_of message.now))) }
    requires types { IsWithin (shapes (vals message.now.body)) }
    requires body { AreTyped 0 (shapes (vals message.now.body)) (vals message.now.body) }
    requires body_limits { AllFit message.now.order (body_offset message.now) (vals message.now.body) }
    requires size { length (message_bytes message.now) ≤ most_written }
    ensures written { IfOk result (λ bytes. bytes ≡ message_bytes message.now) }
    // these bytes are the message, however long it is
    ensures spelled { IfOk result (λ bytes. IsSpelled bytes message.now) }
{
    let fields = list_of(alloc, message)?;
    let list = write_values(alloc, message.order, 12, &fields)?;
    let end = 12 + list.len();
    let start = end + pad_size(0, end, 8);
    let body = write_values(alloc, message.order, start, &message.body)?;
    assemble(alloc, message, list.as_slice(), body.as_slice())
}
