// What no clause can show: bytes that an encoder of its own wrote, jeepney 0.8.0, and that the calls succeed.

ghost use Rattle.std.specs.Prelude.{◌≡◌, ◌∷◌, [], ◌<◌, ◌^◌, length, IfOk};
ghost use Rattle.bus_names.specs.Types as shapes;
ghost use Rattle.bus_value.specs.Values.{vals, basic, array, variant, none, more, dict, entry, no_entries};
ghost use Rattle.bus_value.specs.Limits.{AllFit, HasShortLength};

mod accepted;
mod basic;
mod both_orders;
mod containers;
mod fault_places;
mod faults;

use accepted::Spelled;
use basic::{NUMBERS, Number, SMALL_NUMBERS, STRUCTS, Struct, TEXTS, Text};
use bus_names::{Basic, NameFault, ObjectPath, Signature, Type};
use bus_value::{
    BasicValue, Order, Value, ValueFault, ValueKind, Values, read_values, write_values,
};
use containers::CONTAINERS;
use faults::Fault;
use login_base::{Items, NoMemory, Word};
use std::alloc::Global;
use std::slice;

/// Whether the value is written as these bytes.
fn is_written(
    alloc: Global,
    order: Order,
    start: usize,
    value: Value,
    bytes: &[u8],
) -> Result<bool, NoMemory>
    requires { AllFit order start (vals (value ∷ [])) }
{
    let mut values = Items::new(alloc);
    values.push(value)?;
    let values = Values::made(values);
    Ok(write_values(alloc, order, start, &values)?.as_slice() == bytes)
}

/// A value of a type of numbers.
fn number(kind: Basic, number: i64) -> BasicValue
    ensures { HasShortLength result }
{
    match kind {
        Basic::Byte => BasicValue::Byte(u8::try_from(number).unwrap_or(0)),
        Basic::Bool => BasicValue::Bool(number == 1),
        Basic::I16 => BasicValue::I16(i16::try_from(number).unwrap_or(0)),
        Basic::U16 => BasicValue::U16(u16::try_from(number).unwrap_or(0)),
        Basic::I32 => BasicValue::I32(i32::try_from(number).unwrap_or(0)),
        Basic::U32 => BasicValue::U32(u32::try_from(number).unwrap_or(0)),
        Basic::I64 => BasicValue::I64(number),
        _ => BasicValue::U64(u64::try_from(number).unwrap_or(0)),
    }
}

/// The values that the bytes spell, under a signature.
fn read(
    alloc: Global,
    order: Order,
    start: usize,
    signature: &[u8],
    bytes: &[u8],
) -> Result<Items<Value>, ValueFault> {
    match Signature::read(alloc, signature) {
        Ok(types) => {
            let values = read_values(alloc, order, start, &types, bytes)?;
            Ok(values.into_list(alloc)?)
        }
        Err(_) => Err(ValueFault::NoMemory),
    }
}

/// Whether the values of these types that the bytes spell are written as these bytes.
fn is_same(
    alloc: Global,
    order: Order,
    start: usize,
    types: &Signature,
    bytes: &[u8],
) -> Result<bool, ValueFault> {
    let values = read_values(alloc, order, start, types, bytes)?;
    Ok(write_values(alloc, order, start, &values)?.as_slice() == bytes)
}

/// The same under a signature.
fn is_written_again(
    alloc: Global,
    order: Order,
    start: usize,
    signature: &[u8],
    bytes: &[u8],
) -> Result<bool, ValueFault> {
    match Signature::read(alloc, signature) {
        Ok(types) => is_same(alloc, order, start, &types, bytes),
        Err(_) => Ok(false),
    }
}

/// The number in a value of a type of numbers.
fn payload(value: &BasicValue) -> Option<i64> {
    match value {
        BasicValue::Byte(number) => Some(i64::from(*number)),
        BasicValue::Bool(truth) => Some(if *truth { 1 } else { 0 }),
        BasicValue::I16(number) => Some(i64::from(*number)),
        BasicValue::U16(number) => Some(i64::from(*number)),
        BasicValue::I32(number) => Some(i64::from(*number)),
        BasicValue::U32(number) => Some(i64::from(*number)),
        BasicValue::I64(number) => Some(*number),
        BasicValue::U64(number) => i64::try_from(*number).ok(),
        _ => None,
    }
}

/// Whether this is the number alone.
fn is_number(values: &[Value], number: i64) -> bool {
    match values {
        [value] => match value.kind() {
            ValueKind::Basic(value) => payload(value) == Some(number),
            _ => false,
        },
        _ => false,
    }
}

/// Whether this is the text alone.
fn is_text(alloc: Global, values: &[Value], text: &[u8]) -> Result<bool, NoMemory> {
    match values {
        [value] => match value.kind() {
            ValueKind::Basic(BasicValue::Str(word)) => Ok(word.as_slice() == text),
            ValueKind::Basic(BasicValue::Path(path)) => Ok(path.as_slice() == text),
            ValueKind::Basic(BasicValue::Sig(types)) => Ok(types.text(alloc)?.as_slice() == text),
            _ => Ok(false),
        },
        _ => Ok(false),
    }
}

/// Whether each of these is read, and written again.
fn are_written_again(alloc: Global, cases: &[Spelled]) -> Result<bool, ValueFault> {
    for case in cases {
        let (signature, order, start, bytes) = *case;
        if !is_written_again(alloc, order, start, signature, bytes)? {
            return Ok(false);
        }
    }
    Ok(true)
}

#[test]
fn containers_are_written_again(rt: HostRuntime) -> Result<(), ValueFault> {
    assert!(rt; are_written_again(rt.alloc(), &CONTAINERS)?);
    Ok(())
}

#[test]
fn values_in_each_place_are_written_again(rt: HostRuntime) -> Result<(), ValueFault> {
    assert!(rt; are_written_again(rt.alloc(), &accepted::VALUES_A)?);
    Ok(())
}

#[test]
fn texts_in_each_place_are_written_again(rt: HostRuntime) -> Result<(), ValueFault> {
    assert!(rt; are_written_again(rt.alloc(), &accepted::VALUES_B)?);
    Ok(())
}

#[test]
fn containers_in_each_place_are_written_again(rt: HostRuntime) -> Result<(), ValueFault> {
    assert!(rt; are_written_again(rt.alloc(), &accepted::VALUES_C)?);
    Ok(())
}

#[test]
fn values_at_the_limits_are_written_again(rt: HostRuntime) -> Result<(), ValueFault> {
    assert!(rt; are_written_again(rt.alloc(), &accepted::LIMITS)?);
    Ok(())
}

/// Whether reading the bytes ends with this fault.
fn is_told(alloc: Global, case: Fault) -> bool {
    let (signature, order, start, bytes, fault) = case;
    match read(alloc, order, start, signature, bytes) {
        Ok(_) => false,
        Err(found) => found == fault,
    }
}

/// Whether each of these ends with its fault.
fn are_told(alloc: Global, cases: &[Fault]) -> bool {
    cases.iter().all(|case| is_told(alloc, *case))
}

#[test]
fn faults_of_numbers_are_told(rt: HostRuntime) {
    assert!(rt; are_told(rt.alloc(), &faults::NUMBERS));
}

#[test]
fn faults_of_texts_are_told(rt: HostRuntime) {
    assert!(rt; are_told(rt.alloc(), &faults::TEXTS));
}

#[test]
fn faults_of_containers_are_told(rt: HostRuntime) {
    assert!(rt; are_told(rt.alloc(), &faults::CONTAINERS));
}

#[test]
fn values_cut_off_are_told(rt: HostRuntime) {
    assert!(rt; are_told(rt.alloc(), &fault_places::SHORT));
}

#[test]
fn padding_not_zero_are_told(rt: HostRuntime) {
    assert!(rt; are_told(rt.alloc(), &fault_places::PADDING));
}

#[test]
fn booleans_and_texts_in_containers_are_told(rt: HostRuntime) {
    assert!(rt; are_told(rt.alloc(), &fault_places::PLACES));
}

#[test]
fn texts_not_utf_8_are_told(rt: HostRuntime) {
    assert!(rt; are_told(rt.alloc(), &faults::UTF_8));
}

#[test]
fn ends_of_arrays_are_told(rt: HostRuntime) {
    assert!(rt; are_told(rt.alloc(), &fault_places::ENDS));
}

#[test]
fn parts_cut_off_are_told(rt: HostRuntime) {
    assert!(rt; are_told(rt.alloc(), &fault_places::PARTS));
}

#[test]
fn limits_are_told(rt: HostRuntime) {
    assert!(rt; are_told(rt.alloc(), &fault_places::LIMITS));
}

#[test]
fn first_faults_are_told(rt: HostRuntime) {
    assert!(rt; are_told(rt.alloc(), &fault_places::FIRST));
}

/// Whether the bytes are read as the number.
fn is_number_read(alloc: Global, row: Number) -> Result<bool, ValueFault> {
    let (kind, payload, order, start, bytes) = row;
    let values = read(alloc, order, start, &[kind.letter()], bytes)?;
    Ok(is_number(values.as_slice(), payload))
}

/// Whether the number is written as the bytes.
fn is_number_written(alloc: Global, row: Number) -> Result<bool, NoMemory> {
    let (kind, payload, order, start, bytes) = row;
    is_written(
        alloc,
        order,
        start,
        Value::basic(number(kind, payload)),
        bytes,
    )
}

/// Both, and whether what is read is written again.
fn is_number_spelled(alloc: Global, row: Number) -> Result<bool, ValueFault> {
    let (kind, _, order, start, bytes) = row;
    Ok(
        is_number_read(alloc, row)?
            && is_number_written(alloc, row)?
            && is_written_again(alloc, order, start, &[kind.letter()], bytes)?,
    )
}

fn are_numbers_spelled(alloc: Global, rows: &[Number]) -> Result<bool, ValueFault> {
    for row in rows {
        if !is_number_spelled(alloc, *row)? {
            return Ok(false);
        }
    }
    Ok(true)
}

#[test]
fn small_numbers_are_read_and_written(rt: HostRuntime) -> Result<(), ValueFault> {
    assert!(rt; are_numbers_spelled(rt.alloc(), &SMALL_NUMBERS)?);
    Ok(())
}

#[test]
fn numbers_are_read_and_written(rt: HostRuntime) -> Result<(), ValueFault> {
    assert!(rt; are_numbers_spelled(rt.alloc(), &NUMBERS)?);
    Ok(())
}

/// A value of a type of texts.
fn text(alloc: Global, kind: Basic, text: &[u8]) -> Result<BasicValue, NameFault>
    requires { length text.now < 2 ^ 32 }
    ensures { IfOk result HasShortLength }
{
    match kind {
        Basic::Path => Ok(BasicValue::Path(ObjectPath::read(alloc, text)?)),
        Basic::Sig => Ok(BasicValue::Sig(Signature::read(alloc, text)?)),
        _ => Ok(BasicValue::Str(Word::from_slice(alloc, text)?)),
    }
}

/// Whether the bytes are read as the text.
fn is_text_read(alloc: Global, row: Text) -> Result<bool, ValueFault> {
    let (kind, payload, order, start, bytes) = row;
    let values = read(alloc, order, start, &[kind.letter()], bytes)?;
    Ok(is_text(alloc, values.as_slice(), payload)?)
}

/// Whether the text is written as the bytes, where it is short.
fn is_text_written(alloc: Global, row: Text) -> Result<bool, NoMemory> {
    let (kind, payload, order, start, bytes) = row;
    if payload.len() >= 100 {
        return Ok(true);
    }
    match text(alloc, kind, payload) {
        Ok(value) => is_written(alloc, order, start, Value::basic(value), bytes),
        Err(NameFault::NoMemory) => Err(NoMemory),
        Err(_) => Ok(false),
    }
}

/// Both, and whether what is read is written again.
fn is_text_spelled(alloc: Global, row: Text) -> Result<bool, ValueFault> {
    let (kind, _, order, start, bytes) = row;
    Ok(
        is_text_read(alloc, row)?
            && is_text_written(alloc, row)?
            && is_written_again(alloc, order, start, &[kind.letter()], bytes)?,
    )
}

fn are_texts_spelled(alloc: Global, rows: &[Text]) -> Result<bool, ValueFault> {
    for row in rows {
        if !is_text_spelled(alloc, *row)? {
            return Ok(false);
        }
    }
    Ok(true)
}

#[test]
fn texts_are_read_and_written(rt: HostRuntime) -> Result<(), ValueFault> {
    assert!(rt; are_texts_spelled(rt.alloc(), &TEXTS)?);
    Ok(())
}

/// Whether this is the struct of the two numbers alone.
fn is_struct(values: &[Value]) -> bool {
    match values {
        [value] => match value.kind() {
            ValueKind::Struct([first, second]) => {
                is_number(slice::from_ref(first), 1) && is_number(slice::from_ref(second), 2)
            }
            _ => false,
        },
        _ => false,
    }
}

/// Whether the bytes are read as the struct.
fn is_struct_read(alloc: Global, row: Struct) -> Result<bool, ValueFault> {
    let (order, start, bytes) = row;
    Ok(is_struct(read(alloc, order, start, b"(yu)", bytes)?.as_slice()))
}

/// Whether the struct is written as the bytes.
fn is_struct_written(alloc: Global, row: Struct) -> Result<bool, NoMemory> {
    let (order, start, bytes) = row;
    let first = Value::basic(BasicValue::Byte(1));
    let second = Value::basic(BasicValue::U32(2));
    let value = Value::structure(vec![in alloc; first, second]?);
    is_written(alloc, order, start, value, bytes)
}

fn are_structs_spelled(alloc: Global, rows: &[Struct]) -> Result<bool, ValueFault> {
    for row in rows {
        if !is_struct_read(alloc, *row)? || !is_struct_written(alloc, *row)? {
            return Ok(false);
        }
    }
    Ok(true)
}

#[test]
fn structs_are_read_and_written(rt: HostRuntime) -> Result<(), ValueFault> {
    assert!(rt; are_structs_spelled(rt.alloc(), &STRUCTS)?);
    Ok(())
}

fn variant(alloc: Global) -> Result<Value, NoMemory>
    ensures { IfOk result (λ value. value ≡ variant (basic (BasicValue.U32 9))) }
{
    Value::variant(alloc, Value::basic(BasicValue::U32(9)))
}

fn no_numbers(alloc: Global) -> Value
    ensures { result ≡ array (shapes.basic Basic.U64) none }
{
    Value::array(Type::basic(Basic::U64), Vec::new(alloc))
}

fn numbers(alloc: Global) -> Result<Value, NoMemory>
    ensures { IfOk result (λ value. value ≡ array (shapes.basic Basic.U16) (more (basic (BasicValue.U16 1)) (more (basic (BasicValue.U16 2)) none))) }
{
    let first = Value::basic(BasicValue::U16(1));
    let second = Value::basic(BasicValue::U16(2));
    Ok(Value::array(Type::basic(Basic::U16), vec![in alloc; first, second]?))
}

fn pairs(alloc: Global) -> Result<Value, NoMemory>
    ensures { IfOk result (λ value. value ≡ dict Basic.Str shapes.variant (entry (BasicValue.Str (107 ∷ [])) (variant (basic (BasicValue.Byte 1))) no_entries)) }
{
    let key = BasicValue::Str(Word::from_slice(alloc, b"k")?);
    let value = Value::variant(alloc, Value::basic(BasicValue::Byte(1)))?;
    let mut pairs = Vec::new(alloc);
    pairs.push((key, value))?;
    Ok(Value::dict(Basic::Str, Type::variant(), pairs))
}

#[test]
fn containers_are_written(rt: HostRuntime) -> Result<(), NoMemory> {
    let alloc = rt.alloc();
    let bytes = b"\x01u\x00\x00\x09\x00\x00\x00";
    assert!(rt; is_written(alloc, Order::Little, 0, variant(alloc)?, bytes)?);
    let bytes = b"\x01u\x00\x00\x00\x00\x00\x09";
    assert!(rt; is_written(alloc, Order::Big, 0, variant(alloc)?, bytes)?);
    let bytes = b"\x00\x00\x00\x00\x00\x00\x00\x00";
    assert!(rt; is_written(alloc, Order::Little, 0, no_numbers(alloc), bytes)?);
    assert!(rt; is_written(alloc, Order::Big, 0, no_numbers(alloc), bytes)?);
    let bytes = b"\x04\x00\x00\x00\x01\x00\x02\x00";
    assert!(rt; is_written(alloc, Order::Little, 0, numbers(alloc)?, bytes)?);
    let bytes = b"\x00\x00\x00\x04\x00\x01\x00\x02";
    assert!(rt; is_written(alloc, Order::Big, 0, numbers(alloc)?, bytes)?);
    let bytes = b"\x0a\x00\x00\x00\x00\x00\x00\x00\x01\x00\x00\x00k\x00\x01y\x00\x01";
    assert!(rt; is_written(alloc, Order::Little, 0, pairs(alloc)?, bytes)?);
    let bytes = b"\x00\x00\x00\x0a\x00\x00\x00\x00\x00\x00\x00\x01k\x00\x01y\x00\x01";
    assert!(rt; is_written(alloc, Order::Big, 0, pairs(alloc)?, bytes)?);
    Ok(())
}

/// Variants in one another, with a byte in the innermost.
fn nested(alloc: Global, count: usize) -> Result<Vec<u8>, NoMemory> {
    let mut bytes = Vec::new(alloc);
    for _ in 1..count {
        bytes.extend_from_slice(b"\x01v\x00")?;
    }
    bytes.extend_from_slice(b"\x01y\x00\x07")?;
    Ok(bytes)
}

/// 32 arrays in one another, around a variant of 31 more, of which none is in the outermost.
const DEEPEST: [u8; 168] = [
    0xa4, 0x00, 0x00, 0x00, 0xa0, 0x00, 0x00, 0x00, 0x9c, 0x00, 0x00, 0x00, 0x98, 0x00, 0x00, 0x00,
    0x94, 0x00, 0x00, 0x00, 0x90, 0x00, 0x00, 0x00, 0x8c, 0x00, 0x00, 0x00, 0x88, 0x00, 0x00, 0x00,
    0x84, 0x00, 0x00, 0x00, 0x80, 0x00, 0x00, 0x00, 0x7c, 0x00, 0x00, 0x00, 0x78, 0x00, 0x00, 0x00,
    0x74, 0x00, 0x00, 0x00, 0x70, 0x00, 0x00, 0x00, 0x6c, 0x00, 0x00, 0x00, 0x68, 0x00, 0x00, 0x00,
    0x64, 0x00, 0x00, 0x00, 0x60, 0x00, 0x00, 0x00, 0x5c, 0x00, 0x00, 0x00, 0x58, 0x00, 0x00, 0x00,
    0x54, 0x00, 0x00, 0x00, 0x50, 0x00, 0x00, 0x00, 0x4c, 0x00, 0x00, 0x00, 0x48, 0x00, 0x00, 0x00,
    0x44, 0x00, 0x00, 0x00, 0x40, 0x00, 0x00, 0x00, 0x3c, 0x00, 0x00, 0x00, 0x38, 0x00, 0x00, 0x00,
    0x34, 0x00, 0x00, 0x00, 0x30, 0x00, 0x00, 0x00, 0x2c, 0x00, 0x00, 0x00, 0x28, 0x00, 0x00, 0x00,
    0x20, 0x61, 0x61, 0x61, 0x61, 0x61, 0x61, 0x61, 0x61, 0x61, 0x61, 0x61, 0x61, 0x61, 0x61, 0x61,
    0x61, 0x61, 0x61, 0x61, 0x61, 0x61, 0x61, 0x61, 0x61, 0x61, 0x61, 0x61, 0x61, 0x61, 0x61, 0x61,
    0x79, 0x00, 0x00, 0x00, 0x00, 0x00, 0x00, 0x00,
];

#[test]
fn arrays_nest_64_deep_with_a_variant(rt: HostRuntime) -> Result<(), ValueFault> {
    assert!(rt;
        is_written_again(
            rt.alloc(),
            Order::Little,
            0,
            b"aaaaaaaaaaaaaaaaaaaaaaaaaaaaaaaav",
            &DEEPEST
        )?
    );
    Ok(())
}

#[test]
fn variants_nest_64_deep(rt: HostRuntime) -> Result<(), ValueFault> {
    let alloc = rt.alloc();
    let bytes = nested(alloc, 64)?;
    assert!(rt; read(alloc, Order::Little, 0, b"v", &bytes).is_ok());
    let bytes = nested(alloc, 65)?;
    assert!(rt;
        match read(alloc, Order::Little, 0, b"v", &bytes) {
            Ok(_) => false,
            Err(fault) => fault == ValueFault::BadVariant(189),
        }
    );
    Ok(())
}

/// Whether this is an array of the two numbers.
fn is_pair_of_numbers(values: &[Value]) -> bool {
    match values {
        [value] => match value.kind() {
            ValueKind::Array(_, [first, second]) => {
                is_number(slice::from_ref(first), 1) && is_number(slice::from_ref(second), 2)
            }
            _ => false,
        },
        _ => false,
    }
}

/// Whether this is a variant of the number.
fn is_variant(values: &[Value], number: i64) -> bool {
    match values {
        [value] => match value.kind() {
            ValueKind::Variant(inner) => is_number(slice::from_ref(inner), number),
            _ => false,
        },
        _ => false,
    }
}

/// Whether this is a dict of the one key `k`, with a variant of 1.
fn is_dict(values: &[Value]) -> bool {
    match values {
        [value] => match value.kind() {
            ValueKind::Dict(Basic::Str, _, [(BasicValue::Str(key), value)]) => {
                key.as_slice() == b"k".as_slice() && is_variant(slice::from_ref(value), 1)
            }
            _ => false,
        },
        _ => false,
    }
}

#[test]
fn containers_are_read(rt: HostRuntime) -> Result<(), ValueFault> {
    let alloc = rt.alloc();
    let bytes = b"\x01u\x00\x00\x09\x00\x00\x00";
    assert!(rt; is_variant(read(alloc, Order::Little, 0, b"v", bytes)?.as_slice(), 9));
    let bytes = b"\x01u\x00\x00\x00\x00\x00\x09";
    assert!(rt; is_variant(read(alloc, Order::Big, 0, b"v", bytes)?.as_slice(), 9));
    let bytes = b"\x00\x00\x00\x00\x00\x00\x00\x00";
    assert!(rt; read(alloc, Order::Little, 0, b"at", bytes)?.len() == 1);
    let bytes = b"\x04\x00\x00\x00\x01\x00\x02\x00";
    assert!(rt; is_pair_of_numbers(read(alloc, Order::Little, 0, b"aq", bytes)?.as_slice()));
    let bytes = b"\x00\x00\x00\x04\x00\x01\x00\x02";
    assert!(rt; is_pair_of_numbers(read(alloc, Order::Big, 0, b"aq", bytes)?.as_slice()));
    let bytes = b"\x0a\x00\x00\x00\x00\x00\x00\x00\x01\x00\x00\x00k\x00\x01y\x00\x01";
    assert!(rt; is_dict(read(alloc, Order::Little, 0, b"a{sv}", bytes)?.as_slice()));
    let bytes = b"\x00\x00\x00\x0a\x00\x00\x00\x00\x00\x00\x00\x01k\x00\x01y\x00\x01";
    assert!(rt; is_dict(read(alloc, Order::Big, 0, b"a{sv}", bytes)?.as_slice()));
    Ok(())
}
