// The fields of a message.

ghost use Rattle.std.specs.Prelude.{◌≡◌, ◌<◌, None, Some, is_some, IfOk, MatchOption};
ghost use Rattle.bus_names.specs.Reading.{interface_fault, member_fault, bus_name_fault};
ghost use Rattle.bus_message.specs.Fields.{found, plain, path_at, text_at, u32_at, types_at, name_at, signature};
ghost use Rattle.bus_message.specs.inner.KnownFields.{shown};
ghost use Rattle.bus_message.specs.inner.Names.{Names};

use bus_names::{BusName, Interface, Member, NameFault, ObjectPath, Signature};
use bus_value::{BasicValue, Field};
use login_base::NoMemory;
use std::alloc::Global;

/// Whether a field has this number.
pub(crate) fn is_there(fields: &[Field], wanted: u8) -> bool
    ensures { result ≡ is_some (found wanted (shown fields.now)) }
{
    for field in fields {
        if field.number == wanted {
            return true;
        }
    }
    false
}

/// The value of the first field with this number, where it is of a basic type.
fn plain(fields: &[Field], wanted: u8) -> Option<&BasicValue>
    ensures { MatchOption result (plain (found wanted (shown fields.now)) ≡ None) (λ value. plain (found wanted (shown fields.now)) ≡ Some value.now) }
{
    for field in fields {
        if field.number == wanted {
            return match &field.value {
                Some(value) => Some(value),
                None => None,
            };
        }
    }
    None
}

/// The object path in a field.
fn path_in(fields: &[Field], wanted: u8) -> Option<&ObjectPath>
    ensures { MatchOption result (path_at (found wanted (shown fields.now)) ≡ None) (λ path. path_at (found wanted (shown fields.now)) ≡ Some path.now) }
{
    match plain(fields, wanted) {
        Some(BasicValue::Path(path)) => Some(path),
        _ => None,
    }
}

/// The object path that a field holds.
pub(crate) fn path(fields: &[Field], wanted: u8) -> Result<Option<ObjectPath>, NoMemory>
    ensures { IfOk result (λ path. path ≡ path_at (found wanted (shown fields.now))) }
{
    match path_in(fields, wanted) {
        Some(path) => Ok(Some(path.copied()?)),
        None => Ok(None),
    }
}

/// The number that a field holds.
pub(crate) fn u32_at(fields: &[Field], wanted: u8) -> Option<u32>
    ensures { result ≡ u32_at (found wanted (shown fields.now)) }
{
    match plain(fields, wanted) {
        Some(BasicValue::U32(number)) => Some(*number),
        _ => None,
    }
}

/// The signature that a field holds.
pub(crate) fn types(fields: &[Field], wanted: u8) -> Option<&Signature>
    ensures { MatchOption result (types_at (found wanted (shown fields.now)) ≡ None) (λ types. types_at (found wanted (shown fields.now)) ≡ Some types.now) }
{
    match plain(fields, wanted) {
        Some(BasicValue::Sig(types)) => Some(types),
        _ => None,
    }
}

/// The text that a field holds.
fn text(fields: &[Field], wanted: u8) -> Option<&[u8]>
    ensures { MatchOption result (text_at (found wanted (shown fields.now)) ≡ None) (λ text. text_at (found wanted (shown fields.now)) ≡ Some text.now) }
{
    match plain(fields, wanted) {
        Some(BasicValue::Str(text)) => Some(text.as_slice()),
        _ => None,
    }
}

/// The name that was read, if the text is one.
fn named<T: Drop>(answer: Result<T, NameFault>) -> Result<Option<T>, NoMemory>
    ensures { Names result answer }
{
    match answer {
        Ok(name) => Ok(Some(name)),
        Err(NameFault::NoMemory) => Err(NoMemory),
        Err(_) => Ok(None),
    }
}

/// The name of an interface or of an error that a field holds.
pub(crate) fn interface(
    alloc: Global,
    fields: &[Field],
    wanted: u8,
) -> Result<Option<Interface>, NoMemory>
    ensures { IfOk result (λ name. name ≡ name_at interface_fault (found wanted (shown fields.now))) }
{
    match text(fields, wanted) {
        Some(text) => named(Interface::read(alloc, text)),
        None => Ok(None),
    }
}

/// The name of a member that a field holds.
pub(crate) fn member(
    alloc: Global,
    fields: &[Field],
    wanted: u8,
) -> Result<Option<Member>, NoMemory>
    ensures { IfOk result (λ name. name ≡ name_at member_fault (found wanted (shown fields.now))) }
{
    match text(fields, wanted) {
        Some(text) => named(Member::read(alloc, text)),
        None => Ok(None),
    }
}

/// The name of a connection that a field holds.
pub(crate) fn bus_name(
    alloc: Global,
    fields: &[Field],
    wanted: u8,
) -> Result<Option<BusName>, NoMemory>
    ensures { IfOk result (λ name. name ≡ name_at bus_name_fault (found wanted (shown fields.now))) }
{
    match text(fields, wanted) {
        Some(text) => named(BusName::read(alloc, text)),
        None => Ok(None),
    }
}
