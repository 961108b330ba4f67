// How single words of a line are read.

ghost use Rattle.std.specs.Prelude.{◌≡◌, ◌<◌, ◌≤◌, ◌/◌, ◌%◌, ◌++◌, [], ℕ, List, None, Some, IfOk, IfErr, IfSome, IfNone, IsTrue, ◌↔◌};
ghost use Rattle.std.specs.List.{flat_map, list_all};
ghost use Rattle.std.specs.Str.{bytes_eq};
ghost use Rattle.login_base.specs.Number.{number_of, whole_of};
ghost use Rattle.login_model.specs.Texts.{IsText};
ghost use Rattle.login_base.specs.Hex.{hex_digit, is_hex_digit};
ghost use Rattle.recording.specs.Text.{stands, spell_byte, spell_text};
ghost use Rattle.recording.specs.Bytes.{AreBytes};
ghost use Rattle.recording.specs.Hex.{is_guid};
ghost use Rattle.login_model.specs.Words.{device_kind_named, key_named, operation_named};
ghost use Rattle.recording.specs.Words.{positive_of, small_of, from_zero, negative, signed_of, flag_of, text_of, hex_of};
ghost use Rattle.recording.specs.inner.Words.{Gives, guid_of, seat_of};

use login_base::{Bytes, SeatName, Word, hex_value, is_hex_digit};
use login_model::{DevKind, HardKey, OpKind};
use std::alloc::Global;

/// The most bytes of a line without its line feed, and so of a text that it can hold.
pub(crate) const LONGEST_TEXT: usize = 16384;

/// The most bytes of a user's name.
pub(crate) const LONGEST_USER: usize = 255;

/// Why words are not read.
#[derive(Clone, Copy, PartialEq, Eq)]
pub(crate) enum Misread {
    /// They say no value of the form that is asked for.
    Misfit,
    NoMemory,
}

/// Whether a word is this one.
pub(crate) fn is_word(word: &[u8], expected: &[u8]) -> bool
    ensures { result ≡ bytes_eq word.now expected.now }
{
    word == expected
}

/// A number below 2^32.
pub(crate) fn number(word: &[u8]) -> Result<u32, Misread>
    ensures { Gives (number_of word.now) result }
{
    match login_base::read_number(word) {
        Some(n) => Ok(n),
        None => Err(Misread::Misfit),
    }
}

/// A number above 0 and below 2^32.
pub(crate) fn positive(word: &[u8]) -> Result<u32, Misread>
    ensures { Gives (positive_of word.now) result }
{
    let n = number(word)?;
    if n == 0 {
        return Err(Misread::Misfit);
    }
    Ok(n)
}

/// `true` or `false`.
pub(crate) fn flag(word: &[u8]) -> Result<bool, Misread>
    ensures { Gives (flag_of word.now) result }
{
    if is_word(word, b"true") {
        Ok(true)
    } else if is_word(word, b"false") {
        Ok(false)
    } else {
        Err(Misread::Misfit)
    }
}

/// A number below 2^16.
pub(crate) fn small(word: &[u8]) -> Result<u16, Misread>
    ensures { Gives (small_of word.now) result }
{
    let n = number(word)?;
    if n < 65536 {
        Ok(n as u16)
    } else {
        Err(Misread::Misfit)
    }
}

/// A number below 2^64.
pub(crate) fn moment(word: &[u8]) -> Result<u64, Misread>
    ensures { Gives (whole_of word.now) result }
{
    match login_base::read_whole(word) {
        Some(n) => Ok(n),
        None => Err(Misread::Misfit),
    }
}

/// A number of 31 bits as a signed one.
fn from_zero(n: u32) -> Result<i32, Misread>
    ensures { Gives (from_zero n) result }
{
    if n < 2147483648 {
        Ok(n as i32)
    } else {
        Err(Misread::Misfit)
    }
}

/// The negative of a number from 1 to 2^31.
fn negative(n: u32) -> Result<i32, Misread>
    ensures { Gives (negative n) result }
{
    if 1 <= n && n <= 2147483648 {
        Ok(-((n - 1) as i32) - 1)
    } else {
        Err(Misread::Misfit)
    }
}

/// A signed number of 32 bits.
pub(crate) fn signed(word: &[u8]) -> Result<i32, Misread>
    ensures { Gives (signed_of word.now) result }
{
    let Some((first, digits)) = word.split_first() else {
        return Err(Misread::Misfit);
    };
    if *first == b'-' {
        negative(number(digits)?)
    } else {
        from_zero(number(word)?)
    }
}

/// A kind of device.
pub(crate) fn device_kind(word: &[u8]) -> Result<DevKind, Misread>
    ensures { Gives (device_kind_named word.now) result }
{
    match DevKind::read(word) {
        Some(kind) => Ok(kind),
        None => Err(Misread::Misfit),
    }
}

/// A key of the machine.
pub(crate) fn key(word: &[u8]) -> Result<HardKey, Misread>
    ensures { Gives (key_named word.now) result }
{
    match HardKey::read(word) {
        Some(key) => Ok(key),
        None => Err(Misread::Misfit),
    }
}

/// An operation's kind.
pub(crate) fn operation(word: &[u8]) -> Result<OpKind, Misread>
    ensures { Gives (operation_named word.now) result }
{
    match OpKind::read(word) {
        Some(kind) => Ok(kind),
        None => Err(Misread::Misfit),
    }
}

/// A seat's name, which stands as it is.
#[tactic(auto, unfolding(crate::specs::inner::Words::seat_of))]
pub(crate) fn seat(word: &[u8]) -> Result<SeatName, Misread>
    ensures { Gives (seat_of word.now) result }
{
    match SeatName::read(word) {
        Ok(seat) => Ok(seat),
        Err(_) => Err(Misread::Misfit),
    }
}

/// Whether each byte is a hex digit in lower case.
fn are_hex_digits(word: &[u8]) -> bool
    ensures { result ≡ list_all is_hex_digit word.now }
{
    word.iter().all(|byte| is_hex_digit(*byte))
}

/// Whether a word is the identity of a server: 32 hex digits in lower case.
pub(crate) fn is_guid(word: &[u8]) -> bool
    ensures { result ≡ is_guid word.now }
{
    word.len() == 32 && are_hex_digits(word)
}

/// The identity of a server.
pub(crate) fn guid(alloc: Global, word: &[u8]) -> Result<Word, Misread>
    ensures { Gives (guid_of word.now) result }
{
    if !is_guid(word) {
        return Err(Misread::Misfit);
    }
    match Word::from_slice(alloc, word) {
        Ok(guid) => Ok(guid),
        Err(_) => Err(Misread::NoMemory),
    }
}

/// Whether a byte stands for itself.
pub(crate) fn stands_for_itself(byte: u8) -> bool
    ensures { result ≡ stands byte }
{
    (33..=126).contains(&byte) && byte != b'%'
}

/// The byte that two hex digits spell.
fn escaped(high: u8, low: u8) -> Option<u8>
    ensures found { IfSome result (λ byte. (byte < 256) × (high ≡ hex_digit (byte / 16)) × (low ≡ hex_digit (byte % 16))) }
    ensures none { IfNone result ((byte : ℕ) → byte < 256 → high ≡ hex_digit (byte / 16) → low ≡ hex_digit (byte % 16) → ⊥) }
{
    Some(16 * hex_value(high)? + hex_value(low)?)
}

/// The bytes, one at least, that pairs of hex digits in lower case spell.
pub(crate) fn hex(alloc: Global, word: &[u8]) -> Result<Bytes, Misread>
    ensures { Gives (hex_of word.now) result }
{
    if word.is_empty() {
        return Err(Misread::Misfit);
    }
    let mut bytes = Vec::new(alloc);
    let mut rest = word;
    while let [high, low, after @ ..] = rest {
        let Some(byte) = escaped(*high, *low) else {
            return Err(Misread::Misfit);
        };
        if bytes.push(byte).is_err() {
            return Err(Misread::NoMemory);
        }
        rest = after;
    }
    if rest.is_empty() {
        Ok(Bytes::from_vec(bytes))
    } else {
        Err(Misread::Misfit)
    }
}

/// The first byte of a text whose spelling this is, and the spelling of the rest.
fn first_byte(word: &[u8]) -> Option<(u8, &[u8])>
    ensures found { IfSome result (λ x. (x.0 < 256) × (word.now ≡ spell_byte x.0 ++ x.1.now)) }
    ensures none { IfNone result ((b : ℕ) (rest : List ℕ) → b < 256 → word.now ≡ spell_byte b ++ rest → ⊥) }
{
    match word {
        [b'%', high, low, rest @ ..] => match escaped(*high, *low) {
            Some(byte) if !stands_for_itself(byte) => Some((byte, rest)),
            _ => None,
        },
        [byte, rest @ ..] if stands_for_itself(*byte) => Some((*byte, rest)),
        _ => None,
    }
}

/// The text whose bytes are spelled so.
fn unspelled(alloc: Global, word: &[u8]) -> Result<Vec<u8>, Misread>
    ensures found { IfOk result (λ text. AreBytes text.items × (word.now ≡ flat_map spell_byte text.items)) }
    ensures none { result ≡ Err Misread.Misfit → (text : List ℕ) → AreBytes text → word.now ≡ flat_map spell_byte text → ⊥ }
{
    let mut text = Vec::new(alloc);
    let mut rest = word;
    while !rest.is_empty() {
        let Some((byte, after)) = first_byte(rest) else {
            return Err(Misread::Misfit);
        };
        if text.push(byte).is_err() {
            return Err(Misread::NoMemory);
        }
        rest = after;
    }
    Ok(text)
}

/// Whether bytes are a text of at most so many bytes: UTF-8 without NUL.
fn is_short_text(text: &[u8], most: usize) -> bool
    ensures { IsTrue result ↔ IsText most text.now }
{
    login_base::is_text(text) && text.len() <= most
}

/// The text of at most so many bytes that a word spells.
pub(crate) fn text(alloc: Global, word: &[u8], most: usize) -> Result<Word, Misread>
    ensures { Gives (text_of most word.now) result }
{
    if word.is_empty() {
        return Err(Misread::Misfit);
    }
    if is_word(word, b"%") {
        return Ok(Word::new(alloc));
    }
    let text = unspelled(alloc, word)?;
    if !is_short_text(&text, most) {
        return Err(Misread::Misfit);
    }
    Ok(Word::from_vec(text))
}
