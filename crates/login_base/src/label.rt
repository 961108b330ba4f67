// Texts as elements of object paths.

ghost use Rattle.std.specs.Prelude.{◌≡◌, ◌≤◌, ◌<◌, ◌+◌, ◌++◌, ◌∷◌, [], OnOk, IfOk, IfSome, MatchOption, length};
ghost use Rattle.std.specs.List.{flat_map};
ghost use Rattle.login_base.specs.Labels.{is_letter, escape_of, first_byte, later_byte, escape, decoded};

use crate::hex::{hex_digit, hex_value};
use crate::memory::NoMemory;
use crate::word::Word;
use std::alloc::Global;

fn is_letter(byte: u8) -> bool
    ensures { result ≡ is_letter byte }
{
    matches!(byte, b'a'..=b'z' | b'A'..=b'Z')
}

fn push_escape(out: &mut Vec<u8>, byte: u8) -> Result<(), NoMemory>
    ensures { OnOk result (out.new.items ≡ out.old.items ++ escape_of byte) }
{
    out.extend_from_slice(&[b'_', hex_digit(byte / 16), hex_digit(byte % 16)])?;
    Ok(())
}

fn push_first(out: &mut Vec<u8>, byte: u8) -> Result<(), NoMemory>
    ensures { OnOk result (out.new.items ≡ out.old.items ++ first_byte byte) }
{
    if is_letter(byte) {
        out.push(byte)?;
        Ok(())
    } else {
        push_escape(out, byte)
    }
}

fn push_later(out: &mut Vec<u8>, byte: u8) -> Result<(), NoMemory>
    ensures { OnOk result (out.new.items ≡ out.old.items ++ later_byte byte) }
{
    if is_letter(byte) || byte.is_ascii_digit() {
        out.push(byte)?;
        Ok(())
    } else {
        push_escape(out, byte)
    }
}

/// The text as one element of an object path (sd_bus_path_encode(3)): each byte but letters and digits of
/// ASCII is `_` and two hex digits, so is a digit in first place, and the empty text is `_`.
pub fn escape(alloc: Global, text: &[u8]) -> Result<Word, NoMemory>
    ensures { IfOk result (λ word. word ≡ escape text.now) }
{
    match text.split_first() {
        None => Word::from_slice(alloc, b"_"),
        Some((first, rest)) => {
            let mut out = Vec::new(alloc);
            push_first(&mut out, *first)?;
            for byte in rest {
                push_later(&mut out, *byte)?;
            }
            Ok(Word::from_vec(out))
        }
    }
}

/// The first byte of the text of which an element is the escape, and what is behind it: an underscore and two
/// digits are one byte, and an underscore at the end is none.
pub fn first_decoded(element: &[u8]) -> Option<(u8, &[u8])>
    ensures value { MatchOption result (decoded element.now ≡ []) (λ it. decoded element.now ≡ it.0 ∷ decoded it.1.now) }
    ensures shorter { IfSome result (λ it. length it.1.now < length element.now) }
{
    match element {
        [] | [b'_'] => None,
        [b'_', high, low, rest @ ..] => {
            let high = hex_value(*high).unwrap_or(0);
            let low = hex_value(*low).unwrap_or(0);
            Some((16 * high + low, rest))
        }
        [byte, rest @ ..] => Some((*byte, rest)),
    }
}

/// The text of which an element may be the escape.
pub fn decoded(alloc: Global, element: &[u8]) -> Result<Vec<u8>, NoMemory>
    ensures { IfOk result (λ text. text.items ≡ decoded element.now) }
{
    let mut text = Vec::new(alloc);
    let mut rest = element;
    while let Some((byte, behind)) = first_decoded(rest) {
        text.push(byte)?;
        rest = behind;
    }
    Ok(text)
}
