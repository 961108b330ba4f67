// How values of basic types are written.

ghost use Rattle.std.specs.Prelude.{◌≡◌, ◌+◌, ◌++◌, ◌<◌, ◌^◌, OnOk, OnErr, length};
ghost use Rattle.std.specs.Io.{StartsWith};
ghost use Rattle.bus_value.specs.Alignment.{alignment, IsAlignment};
ghost use Rattle.bus_value.specs.Spelling.{text_bytes, signature_bytes, basic_bytes, basic_spelling};
ghost use Rattle.bus_value.specs.Limits.{HasShortLength};
ghost use Rattle.bus_value.specs.BasicValues.{kind_of};

use crate::basic_value::BasicValue;
use crate::numbers::{push_padding, push_u16, push_u32, push_u64};
use crate::order::Order;
use bus_names::{Basic, Signature};
use login_base::NoMemory;
use std::alloc::Global;

/// The boundary on which the values of a basic type begin.
pub fn alignment(kind: Basic) -> usize
    ensures value { result ≡ alignment kind }
    ensures valid { IsAlignment (alignment kind) }
{
    match kind {
        Basic::Byte | Basic::Sig => 1,
        Basic::I16 | Basic::U16 => 2,
        Basic::Bool | Basic::I32 | Basic::U32 | Basic::Str | Basic::Path | Basic::Handle => 4,
        Basic::I64 | Basic::U64 | Basic::Double => 8,
    }
}

/// Puts a length, a text and a zero byte at the end.
fn push_text(out: &mut Vec<u8>, order: Order, text: &[u8]) -> Result<(), NoMemory>
    requires { length text.now < 2 ^ 32 }
    ensures value { OnOk result (out.new.items ≡ out.old.items ++ text_bytes order text.now) }
    ensures kept { OnErr result (StartsWith out.new.items out.old.items) }
{
    push_u32(out, order, text.len() as u32)?;
    out.extend_from_slice(text)?;
    out.push(0)?;
    Ok(())
}

/// Puts the length of a signature, its letters and a zero byte at the end.
pub fn push_signature(alloc: Global, out: &mut Vec<u8>, types: &Signature) -> Result<(), NoMemory>
    ensures value { OnOk result (out.new.items ≡ out.old.items ++ signature_bytes types.now) }
    ensures kept { OnErr result (StartsWith out.new.items out.old.items) }
{
    let text = types.text(alloc)?;
    out.push(text.len() as u8)?;
    out.extend_from_slice(text.as_slice())?;
    out.push(0)?;
    Ok(())
}

/// Puts a value behind its padding at the end.
fn push_bytes(
    alloc: Global,
    out: &mut Vec<u8>,
    order: Order,
    value: &BasicValue,
) -> Result<(), NoMemory>
    requires { HasShortLength value.now }
    ensures value { OnOk result (out.new.items ≡ out.old.items ++ basic_bytes order value.now) }
    ensures kept { OnErr result (StartsWith out.new.items out.old.items) }
{
    match value {
        BasicValue::Byte(number) => {
            out.push(*number)?;
            Ok(())
        }
        BasicValue::Bool(truth) => push_u32(out, order, if *truth { 1 } else { 0 }),
        BasicValue::I16(number) => push_u16(out, order, number.cast_unsigned()),
        BasicValue::U16(number) => push_u16(out, order, *number),
        BasicValue::I32(number) => push_u32(out, order, number.cast_unsigned()),
        BasicValue::U32(number) | BasicValue::Handle(number) => push_u32(out, order, *number),
        BasicValue::I64(number) => push_u64(out, order, number.cast_unsigned()),
        BasicValue::U64(number) => push_u64(out, order, *number),
        BasicValue::Double(bytes) => {
            out.extend_from_slice(bytes)?;
            Ok(())
        }
        BasicValue::Str(text) => push_text(out, order, text.as_slice()),
        BasicValue::Path(path) => push_text(out, order, path.as_slice()),
        BasicValue::Sig(types) => push_signature(alloc, out, types),
    }
}

/// Puts a value at the end, where the bytes stand from the offset `start` on.
pub fn push_basic(
    alloc: Global,
    out: &mut Vec<u8>,
    start: usize,
    order: Order,
    value: &BasicValue,
) -> Result<(), NoMemory>
    requires { HasShortLength value.now }
    ensures value { OnOk result (out.new.items ≡ out.old.items ++ basic_spelling order (start + length out.old.items) value.now) }
    ensures kept { OnErr result (StartsWith out.new.items out.old.items) }
{
    push_padding(out, start, alignment(value.kind()))?;
    push_bytes(alloc, out, order, value)
}
