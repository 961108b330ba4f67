// Values of basic types.

ghost use Rattle.std.specs.Prelude.{◌≡◌};

use bus_names::{Basic, ObjectPath, Signature};
use login_base::Word;

/// A value of a basic type.
#[derive(Drop)]
pub enum BasicValue {
    Byte(u8),
    Bool(bool),
    I16(i16),
    U16(u16),
    I32(i32),
    U32(u32),
    I64(i64),
    U64(u64),
    /// The eight bytes of a double, as they stand.
    Double([u8; 8]),
    /// A text.
    Str(Word),
    /// The path of an object.
    Path(ObjectPath),
    /// A signature.
    Sig(Signature),
    /// The index of a file descriptor.
    Handle(u32),
}

impl BasicValue {
    ghost use Rattle.bus_value.specs.BasicValues.{kind_of};

    /// The value's type.
    pub fn kind(&self) -> Basic
        ensures { result ≡ kind_of self.now }
    {
        match self {
            BasicValue::Byte(_) => Basic::Byte,
            BasicValue::Bool(_) => Basic::Bool,
            BasicValue::I16(_) => Basic::I16,
            BasicValue::U16(_) => Basic::U16,
            BasicValue::I32(_) => Basic::I32,
            BasicValue::U32(_) => Basic::U32,
            BasicValue::I64(_) => Basic::I64,
            BasicValue::U64(_) => Basic::U64,
            BasicValue::Double(_) => Basic::Double,
            BasicValue::Str(_) => Basic::Str,
            BasicValue::Path(_) => Basic::Path,
            BasicValue::Sig(_) => Basic::Sig,
            BasicValue::Handle(_) => Basic::Handle,
        }
    }
}
