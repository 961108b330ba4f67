// Elements of object paths as texts.

ghost use Rattle.std.specs.Prelude.{◌≡◌, IfOk, Some};
ghost use Rattle.login_base.specs.Labels.{escape};
ghost use Rattle.bus_names.specs.Unescape.{unescaped, Unescapes, NoEscape};

use crate::fault::NameFault;
use login_base::{NoMemory, Word};
use std::alloc::Global;

/// The text as one element of an object path (sd_bus_path_encode(3)): each byte but letters and digits of
/// ASCII is `_` and two hex digits, so is a digit in first place, and the empty text is `_`. It is
/// read as the text again.
pub fn escape_label(alloc: Global, text: &[u8]) -> Result<Word, NoMemory>
    ensures value { IfOk result (λ word. word ≡ escape text.now) }
    ensures again { unescaped (escape text.now) ≡ Some text.now }
{
    login_base::escape(alloc, text)
}

/// The text whose escape this is; `BadLabel` exactly where there is none.
pub fn unescape_label(alloc: Global, label: &[u8]) -> Result<Word, NameFault>
    ensures value { Unescapes result (unescaped label.now) }
    ensures read { IfOk result (λ text. label.now ≡ escape text) }
    ensures refused { result ≡ Err NameFault.BadLabel → NoEscape label.now }
{
    let text = login_base::decoded(alloc, label)?;
    let escape = login_base::escape(alloc, text.as_slice())?;
    if escape.as_slice() == label {
        Ok(Word::from_vec(text))
    } else {
        Err(NameFault::BadLabel)
    }
}
