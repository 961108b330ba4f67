// Which bytes are a text.

ghost use Rattle.std.specs.Prelude.{◌≡◌};
ghost use Rattle.std.specs.Str.{is_utf8};
ghost use Rattle.login_base.specs.Texts.{has_no_zero, is_text};

use std::str;

/// Whether bytes are UTF-8.
fn is_utf8(text: &[u8]) -> bool
    ensures { result ≡ is_utf8 text.now }
{
    str::from_utf8(text).is_ok()
}

/// Whether no byte is NUL.
fn has_no_zero(text: &[u8]) -> bool
    ensures { result ≡ has_no_zero text.now }
{
    text.iter().all(|byte| *byte != 0)
}

/// Whether bytes are a text: UTF-8 without NUL.
pub fn is_text(text: &[u8]) -> bool
    ensures { result ≡ is_text text.now }
{
    is_utf8(text) && has_no_zero(text)
}
