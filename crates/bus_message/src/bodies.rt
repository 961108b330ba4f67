// Values and texts of which bodies are made.

ghost use Rattle.std.specs.Prelude.{◌≡◌, ◌++◌, ◌∷◌, [], IfOk};
ghost use Rattle.std.specs.Fmt.{decimal};
ghost use Rattle.bus_message.specs.Bodies.{flag, number};

use bus_value::{BasicValue, Value};
use login_base::{NoMemory, append_decimal};
use std::alloc::Global;

/// A number of 32 bits as a value.
pub fn number(value: u32) -> Value
    ensures { result ≡ number value }
{
    Value::basic(BasicValue::U32(value))
}

/// A flag as a value.
pub fn flag(value: bool) -> Value
    ensures { result ≡ flag value }
{
    Value::basic(BasicValue::Bool(value))
}

/// One value alone.
pub fn alone(alloc: Global, value: Value) -> Result<Vec<Value>, NoMemory>
    ensures { IfOk result (λ values. values.items ≡ value ∷ []) }
{
    Ok(Vec::from_array(alloc, [value])?)
}

/// The bytes of a text behind a front.
pub fn joined(alloc: Global, front: &[u8], text: &[u8]) -> Result<Vec<u8>, NoMemory>
    ensures { IfOk result (λ bytes. bytes.items ≡ front.now ++ text.now) }
{
    let mut bytes = Vec::from_slice(alloc, front)?;
    bytes.extend_from_slice(text)?;
    Ok(bytes)
}

/// A number in decimal behind a front.
pub fn numbered(alloc: Global, front: &[u8], number: u32) -> Result<Vec<u8>, NoMemory>
    ensures { IfOk result (λ bytes. bytes.items ≡ front.now ++ decimal number) }
{
    let mut bytes = Vec::from_slice(alloc, front)?;
    append_decimal(&mut bytes, u64::from(number))?;
    Ok(bytes)
}
