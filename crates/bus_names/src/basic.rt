// The basic types.

ghost use Rattle.std.specs.Prelude.{◌≡◌};

/// A basic type of the D-Bus Specification ("Basic types").
#[derive(Clone, Copy, PartialEq, Eq)]
pub enum Basic {
    Byte,
    Bool,
    I16,
    U16,
    I32,
    U32,
    I64,
    U64,
    Double,
    /// A text.
    Str,
    /// The path of an object.
    Path,
    /// A signature.
    Sig,
    /// The index of a file descriptor.
    Handle,
}

impl Basic {
    ghost use Rattle.bus_names.specs.Types.{letter};
    ghost use Rattle.bus_names.specs.Letters.{basic_at};

    /// Its letter in a signature.
    pub fn letter(self) -> u8
        ensures { result ≡ letter self }
    {
        match self {
            Basic::Byte => b'y',
            Basic::Bool => b'b',
            Basic::I16 => b'n',
            Basic::U16 => b'q',
            Basic::I32 => b'i',
            Basic::U32 => b'u',
            Basic::I64 => b'x',
            Basic::U64 => b't',
            Basic::Double => b'd',
            Basic::Str => b's',
            Basic::Path => b'o',
            Basic::Sig => b'g',
            Basic::Handle => b'h',
        }
    }

    /// The basic type of a letter.
    pub fn from_letter(letter: u8) -> Option<Basic>
        ensures { result ≡ basic_at letter }
    {
        match letter {
            b'y' => Some(Basic::Byte),
            b'b' => Some(Basic::Bool),
            b'n' => Some(Basic::I16),
            b'q' => Some(Basic::U16),
            b'i' => Some(Basic::I32),
            b'u' => Some(Basic::U32),
            b'x' => Some(Basic::I64),
            b't' => Some(Basic::U64),
            b'd' => Some(Basic::Double),
            b's' => Some(Basic::Str),
            b'o' => Some(Basic::Path),
            b'g' => Some(Basic::Sig),
            b'h' => Some(Basic::Handle),
            _ => None,
        }
    }
}
