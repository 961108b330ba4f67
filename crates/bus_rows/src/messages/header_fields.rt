// The fields of messages that other programs sent, as `read_fields` gives them.

use super::clients::{HELLO, Sent};
use bus_value::{BasicValue, Field, Order, ValueFault, read_fields, read_u32};
use login_base::NoMemory;
use std::alloc::Global;

/// The numbers and the offsets of the fields in busctl's call of Hello: each field begins on a boundary of 8, and has
/// its number, a signature, the length of a text, the text and a zero byte.
const PLACES: [(u8, usize); 4] = [(1, 16), (3, 48), (2, 64), (6, 96)];

fn order_of(bytes: &[u8]) -> Order {
    if bytes.starts_with(b"B") {
        Order::Big
    } else {
        Order::Little
    }
}

/// The fields in the bytes of a message, with their length in front, and so many bytes behind them.
fn list_in(order: Order, bytes: &[u8], more: usize) -> Option<&[u8]> {
    let Some((_, list)) = bytes.split_at_checked(12) else {
        return None;
    };
    if list.len() < 4 {
        return None;
    }
    let count = (read_u32(order, list) as usize).saturating_add(4);
    match list.split_at_checked(count.saturating_add(more)) {
        Some((fields, _)) => Some(fields),
        None => None,
    }
}

/// Whether a value is this text.
fn is_text(value: &BasicValue, wanted: &[u8]) -> bool {
    match value {
        BasicValue::Str(text) => text.as_slice() == wanted,
        BasicValue::Path(path) => path.as_slice() == wanted,
        _ => false,
    }
}

/// Whether a value is this number.
fn is_number(value: &BasicValue, wanted: Option<u32>) -> bool {
    match value {
        BasicValue::U32(number) => Some(*number) == wanted,
        _ => false,
    }
}

/// Whether a value is the signature with these letters.
fn are_types(alloc: Global, value: &BasicValue, wanted: &[u8]) -> Result<bool, NoMemory> {
    match value {
        BasicValue::Sig(types) => Ok(types.text(alloc)?.as_slice() == wanted),
        _ => Ok(false),
    }
}

/// Whether the value of the field with a number is what was sent.
fn is_value(alloc: Global, number: u8, value: &BasicValue, sent: &Sent) -> Result<bool, NoMemory> {
    match number {
        1 => Ok(is_text(value, sent.path)),
        2 => Ok(is_text(value, sent.interface)),
        3 => Ok(is_text(value, sent.member)),
        4 => Ok(is_text(value, sent.error)),
        5 => Ok(is_number(value, sent.reply_to)),
        6 => Ok(is_text(value, sent.destination)),
        7 => Ok(is_text(value, sent.sender)),
        8 => are_types(alloc, value, sent.types),
        _ => Ok(false),
    }
}

/// Whether each of the fields is what was sent.
fn are_values(alloc: Global, fields: &[Field], sent: &Sent) -> Result<bool, NoMemory> {
    for field in fields {
        let is_so = match &field.value {
            Some(value) => is_value(alloc, field.number, value, sent)?,
            None => false,
        };
        if !is_so {
            return Ok(false);
        }
    }
    Ok(true)
}

/// Whether there is a field with this number.
fn is_there(fields: &[Field], number: u8) -> bool {
    for field in fields {
        if field.number == number {
            return true;
        }
    }
    false
}

/// Whether those fields are there that were sent.
fn are_there(fields: &[Field], sent: &Sent) -> bool {
    is_there(fields, 1) != sent.path.is_empty()
        && is_there(fields, 2) != sent.interface.is_empty()
        && is_there(fields, 3) != sent.member.is_empty()
        && is_there(fields, 4) != sent.error.is_empty()
        && is_there(fields, 5) == sent.reply_to.is_some()
        && is_there(fields, 6) != sent.destination.is_empty()
        && is_there(fields, 7) != sent.sender.is_empty()
        && (is_there(fields, 8) || sent.types.is_empty())
}

/// Whether the fields of a message are read, and are what was sent.
pub(super) fn are_read(alloc: Global, sent: &Sent) -> Result<bool, NoMemory> {
    let order = order_of(sent.bytes);
    let Some(list) = list_in(order, sent.bytes, 0) else {
        return Ok(false);
    };
    match read_fields(alloc, order, 12, 8, list) {
        Ok(fields) => Ok(
            are_there(fields.as_slice(), sent) && are_values(alloc, fields.as_slice(), sent)?,
        ),
        Err(ValueFault::NoMemory) => Err(NoMemory),
        Err(_) => Ok(false),
    }
}

/// Whether the fields have these numbers and offsets, but for those above a number.
fn are_at(fields: &[Field], most: u8) -> bool {
    let mut next = fields.iter();
    for (number, offset) in PLACES {
        if number <= most {
            match next.next() {
                Some(field) if field.number == number && field.offset == offset => {}
                _ => return false,
            }
        }
    }
    next.next().is_none()
}

#[test]
fn numbers_and_offsets_of_fields(rt: HostRuntime) -> Result<(), ValueFault> {
    let alloc = rt.alloc();
    let list = list_in(Order::Little, HELLO, 0).unwrap_or(b"");
    for most in 0..=9 {
        let fields = read_fields(alloc, Order::Little, 12, most, list)?;
        assert!(rt; are_at(fields.as_slice(), most));
    }
    Ok(())
}

/// The fault of the fields in busctl's call of Hello, where so many bytes of the list are there, and so many behind it.
fn fault_of(alloc: Global, there: usize, more: usize) -> Option<ValueFault> {
    let list = list_in(Order::Little, HELLO, more).unwrap_or(b"");
    let Some((front, _)) = list.split_at_checked(there) else {
        return None;
    };
    read_fields(alloc, Order::Little, 12, 9, front).err()
}

#[test]
fn lists_of_another_length(rt: HostRuntime) {
    let alloc = rt.alloc();
    assert!(rt; fault_of(alloc, 112, 0) == Some(ValueFault::Short(12)));
    assert!(rt; fault_of(alloc, 113, 0).is_none());
    assert!(rt; fault_of(alloc, 114, 1) == Some(ValueFault::BadLength(125)));
}
