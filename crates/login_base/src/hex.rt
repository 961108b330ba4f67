// Digits of base 16, in lower case.

ghost use Rattle.std.specs.Prelude.{◌≡◌, ◌<◌, ◌↔◌, ℕ, IsSome, IsTrue, IfSome, IfNone};
ghost use Rattle.std.specs.Option.{unwrap_or};
ghost use Rattle.login_base.specs.Hex.{hex_digit, is_hex_digit, hex_value};

/// The digit of a number.
pub fn hex_digit(number: u8) -> u8
    requires { number < 16 }
    ensures { result ≡ hex_digit number }
{
    if number < 10 {
        b'0' + number
    } else {
        b'a' + (number - 10)
    }
}

/// Whether a byte is a digit.
pub fn is_hex_digit(byte: u8) -> bool
    ensures { result ≡ is_hex_digit byte }
{
    matches!(byte, b'0'..=b'9' | b'a'..=b'f')
}

/// The value of a digit.
pub fn hex_value(byte: u8) -> Option<u8>
    ensures some { IsSome result ↔ IsTrue (is_hex_digit byte) }
    ensures value { unwrap_or result 0 ≡ hex_value byte }
    ensures found { IfSome result (λ value. (value < 16) × (byte ≡ hex_digit value)) }
    ensures none { IfNone result ((value : ℕ) → value < 16 → byte ≡ hex_digit value → ⊥) }
{
    match byte {
        b'0'..=b'9' => Some(byte - b'0'),
        b'a'..=b'f' => Some(byte - b'a' + 10),
        _ => None,
    }
}
