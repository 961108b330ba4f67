// The values of a body as arguments.

ghost use Rattle.std.specs.Prelude.{◌≡◌, None, Some, IfOk, MatchOption};
ghost use Rattle.bus_value.specs.Fields.{basic_in};
ghost use Rattle.wire_calls.specs.Arguments.{are_short, basic_at, device_in, flag_at, is_short, is_short_value, number_at, signed_at, text_at};

use bus_value::{BasicValue, Value, ValueKind};
use login_base::{DevNo, NoMemory, Word};
use login_model::{LONGEST_CALL_TEXT, NamedSession};
use std::alloc::Global;

/// A value, where it is of a basic type.
fn basic_in(value: &Value) -> Option<&BasicValue>
    ensures { MatchOption result (basic_in value.now ≡ None) (λ inside. basic_in value.now ≡ Some inside.now) }
{
    match value.kind() {
        ValueKind::Basic(inside) => Some(inside),
        _ => None,
    }
}

/// The value at a place, where it is of a basic type.
fn basic_at(values: &[Value], place: usize) -> Option<&BasicValue>
    ensures { MatchOption result (basic_at place values.now ≡ None) (λ value. basic_at place values.now ≡ Some value.now) }
{
    match values.get(place) {
        Some(value) => basic_in(value),
        None => None,
    }
}

/// The text at a place; elsewhere the empty one.
pub(crate) fn text_at(alloc: Global, values: &[Value], place: usize) -> Result<Word, NoMemory>
    ensures { IfOk result (λ text. text ≡ text_at place values.now) }
{
    match basic_at(values, place) {
        Some(BasicValue::Str(text)) => text.copied(),
        _ => Ok(Word::new(alloc)),
    }
}

/// The session that the text at a place names.
pub(crate) fn session_at(
    alloc: Global,
    values: &[Value],
    place: usize,
) -> Result<NamedSession, NoMemory>
    ensures { IfOk result (λ named. named ≡ text_at place values.now) }
{
    Ok(NamedSession::new(text_at(alloc, values, place)?))
}

/// The texts at two places.
pub(crate) fn two_texts(
    alloc: Global,
    values: &[Value],
    first: usize,
    second: usize,
) -> Result<(Word, Word), NoMemory>
    ensures { IfOk result (λ texts. (texts.0 ≡ text_at first values.now) × (texts.1 ≡ text_at second values.now)) }
{
    let first = text_at(alloc, values, first)?;
    let second = text_at(alloc, values, second)?;
    Ok((first, second))
}

/// The texts at four places, which stand in twos.
pub(crate) fn four_texts(
    alloc: Global,
    values: &[Value],
    first: (usize, usize),
    second: (usize, usize),
) -> Result<((Word, Word), (Word, Word)), NoMemory>
    ensures first { IfOk result (λ texts. (texts.0.0 ≡ text_at first.0 values.now) × (texts.0.1 ≡ text_at first.1 values.now)) }
    ensures second { IfOk result (λ texts. (texts.1.0 ≡ text_at second.0 values.now) × (texts.1.1 ≡ text_at second.1 values.now)) }
{
    let first = two_texts(alloc, values, first.0, first.1)?;
    let second = two_texts(alloc, values, second.0, second.1)?;
    Ok((first, second))
}

/// The number at a place; elsewhere 0.
pub(crate) fn number_at(values: &[Value], place: usize) -> u32
    ensures { result ≡ number_at place values.now }
{
    match basic_at(values, place) {
        Some(BasicValue::U32(number)) => *number,
        _ => 0,
    }
}

/// The signed number at a place; elsewhere 0.
pub(crate) fn signed_at(values: &[Value], place: usize) -> i32
    ensures { result ≡ signed_at place values.now }
{
    match basic_at(values, place) {
        Some(BasicValue::I32(number)) => *number,
        _ => 0,
    }
}

/// The flag at a place; elsewhere false.
pub(crate) fn flag_at(values: &[Value], place: usize) -> bool
    ensures { result ≡ flag_at place values.now }
{
    match basic_at(values, place) {
        Some(BasicValue::Bool(flag)) => *flag,
        _ => false,
    }
}

/// The device whose two numbers stand in front.
pub(crate) fn device_at(values: &[Value]) -> DevNo
    ensures { result ≡ device_in values.now }
{
    DevNo {
        major: number_at(values, 0),
        minor: number_at(values, 1),
    }
}

/// Whether a text is within the limit.
pub(crate) fn is_short(text: &Word) -> bool
    ensures { result ≡ is_short text.now }
{
    text.len() <= LONGEST_CALL_TEXT
}

fn is_short_value(value: &Value) -> bool
    ensures { result ≡ is_short_value value.now }
{
    match basic_in(value) {
        Some(BasicValue::Str(text)) => is_short(text),
        _ => true,
    }
}

/// Whether the texts among arguments are within the limit.
pub(crate) fn are_short(values: &[Value]) -> bool
    ensures { result ≡ are_short values.now }
{
    values.iter().all(|value| is_short_value(value))
}
