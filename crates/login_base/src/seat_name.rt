// Names of seats, kept in place.

ghost use Rattle.std.specs.Prelude.{◌≡◌, ◌↔◌, ◌≤◌, true, length, IsTrue, IsOk, IfOk, codes, replicate, ◌++◌, ◌-◌};
ghost use Rattle.login_base.specs.Limits.{most_seat_name};
ghost use Rattle.login_base.specs.Seat.{seat0, is_seat_name, is_seat_byte};
ghost use Rattle.std.specs.List.{list_all};
ghost use Rattle.std.specs.Str.{bytes_eq};
ghost use Rattle.login_base.specs.Labels.{escape};

use crate::label;
use crate::memory::NoMemory;
use crate::word::Word;
use std::alloc::Global;
use std::marker::Model;

/// The longest name of a seat, in bytes.
pub const LONGEST_SEAT_NAME: usize = 255;

/// Why a text is no seat's name.
#[derive(Clone, Copy, Debug, PartialEq, Eq)]
pub enum SeatFault {
    BadSeatName,
}

/// A seat's name: it begins with `seat`, has only letters, digits, dashes and underscores of ASCII,
/// and at most 255 bytes (sd-login(3)). It is kept in place, and copied without memory.
#[derive(Clone, Copy)]
pub struct SeatName {
    size: usize,
    bytes: [u8; LONGEST_SEAT_NAME],
}

impl Model for SeatName {
    ghost use Rattle.std.specs.Prelude.{List, ℕ, length, take, replicate, ◌++◌, ◌-◌};
    ghost use Rattle.login_base.specs.Limits.{most_seat_name};
    ghost use Rattle.login_base.specs.inner.Padded.{IsPadded, length_of_name, padded_again};

    ghost Value = { List ℕ };

    ghost view = { λ s. take s.size s.bytes };

    ghost invariant = { λ s. IsPadded s.size s.bytes };

    // The bytes behind the name are zero, so that equal names are equal to the byte.
    ghost inverse = { λ text. record { size = length text; bytes = text ++ replicate (most_seat_name - length text) 0 } };

    ghost inverse_ok = { λ s h i. record {
      size = length_of_name s.size s.bytes h i;
      bytes = padded_again s.size s.bytes h i;
    } };
}

/// Whether a byte may stand in a seat's name.
fn is_allowed(byte: u8) -> bool
    ensures { result ≡ is_seat_byte byte }
{
    matches!(byte, b'a'..=b'z' | b'A'..=b'Z' | b'0'..=b'9' | b'-' | b'_')
}

/// Whether each byte may stand in a seat's name.
fn are_allowed(text: &[u8]) -> bool
    ensures { result ≡ list_all is_seat_byte text.now }
{
    text.iter().all(|byte| is_allowed(*byte))
}

/// Whether a text is a seat's name.
fn is_name(text: &[u8]) -> bool
    ensures { result ≡ is_seat_name text.now }
{
    text.len() >= 4
        && &text[..4] == b"seat".as_slice()
        && are_allowed(text)
        && text.len() <= LONGEST_SEAT_NAME
}

/// The text with zeros behind it.
fn padded(text: &[u8]) -> [u8; LONGEST_SEAT_NAME]
    requires { length text.now ≤ most_seat_name }
    ensures { result ≡ text.now ++ replicate (most_seat_name - length text.now) 0 }
{
    let mut bytes = [0; LONGEST_SEAT_NAME];
    bytes[..text.len()].copy_from_slice(text);
    bytes
}

impl SeatName {
    /// The seat that is always there, and the only one with virtual terminals.
    pub const SEAT0: SeatName = SeatName {
        size: 5,
        bytes: [
            b's', b'e', b'a', b't', b'0', 0, 0, 0, 0, 0, 0, 0, 0, 0, 0, 0, 0, 0, 0, 0, 0, 0, 0, 0,
            0, 0, 0, 0, 0, 0, 0, 0, 0, 0, 0, 0, 0, 0, 0, 0, 0, 0, 0, 0, 0, 0, 0, 0, 0, 0, 0, 0, 0,
            0, 0, 0, 0, 0, 0, 0, 0, 0, 0, 0, 0, 0, 0, 0, 0, 0, 0, 0, 0, 0, 0, 0, 0, 0, 0, 0, 0, 0,
            0, 0, 0, 0, 0, 0, 0, 0, 0, 0, 0, 0, 0, 0, 0, 0, 0, 0, 0, 0, 0, 0, 0, 0, 0, 0, 0, 0, 0,
            0, 0, 0, 0, 0, 0, 0, 0, 0, 0, 0, 0, 0, 0, 0, 0, 0, 0, 0, 0, 0, 0, 0, 0, 0, 0, 0, 0, 0,
            0, 0, 0, 0, 0, 0, 0, 0, 0, 0, 0, 0, 0, 0, 0, 0, 0, 0, 0, 0, 0, 0, 0, 0, 0, 0, 0, 0, 0,
            0, 0, 0, 0, 0, 0, 0, 0, 0, 0, 0, 0, 0, 0, 0, 0, 0, 0, 0, 0, 0, 0, 0, 0, 0, 0, 0, 0, 0,
            0, 0, 0, 0, 0, 0, 0, 0, 0, 0, 0, 0, 0, 0, 0, 0, 0, 0, 0, 0, 0, 0, 0, 0, 0, 0, 0, 0, 0,
            0, 0, 0, 0, 0, 0, 0, 0, 0, 0, 0, 0, 0, 0, 0, 0, 0, 0, 0, 0, 0, 0, 0, 0, 0, 0, 0, 0,
        ],
    };

    /// Whether it is that seat.
    pub fn is_seat0(&self) -> bool
        ensures { result ≡ bytes_eq self.now seat0 }
    {
        self.as_slice() == b"seat0".as_slice()
    }

    /// The seat of this name.
    pub fn read(text: &[u8]) -> Result<SeatName, SeatFault>
        ensures found { IsOk result ↔ IsTrue (is_seat_name text.now) }
        ensures name { IfOk result (λ seat. seat ≡ text.now) }
    {
        if !is_name(text) {
            return Err(SeatFault::BadSeatName);
        }
        Ok(SeatName {
            size: text.len(),
            bytes: padded(text),
        })
    }

    /// Tells that it is a seat's name, as each is. It does nothing.
    pub fn tell_name(&self)
        ensures { is_seat_name self.now ≡ true }
    {
        let _ = &self.size;
    }

    /// The name as one element of an object path.
    pub fn label(&self, alloc: Global) -> Result<Word, NoMemory>
        ensures { IfOk result (λ word. word ≡ escape self.now) }
    {
        label::escape(alloc, self.as_slice())
    }

    /// The name's bytes.
    pub fn as_slice(&self) -> &[u8]
        ensures { result.now ≡ self.now }
    {
        &self.bytes[..self.size]
    }
}
