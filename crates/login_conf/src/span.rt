// Spans of time: numbers with units.

ghost use Rattle.std.specs.Prelude.{◌≡◌, ◌≢◌, ◌≤◌, ◌<◌, ◌+◌, ◌*◌, ◌==◌, [], ◌∷◌, length, position, not, IfSome};
ghost use Rattle.std.specs.Option.{option_map, option_and_then};
ghost use Rattle.std.specs.List.{prefix_len};
ghost use Rattle.std.specs.Char.{is_ascii_digit};
ghost use Rattle.login_conf.specs.Spans.{unit_of, within, number_in, unit_in, part_of, begins_part, parts, span_of, span};
ghost use Rattle.login_conf.specs.Text.{to_last};
ghost use Rattle.login_conf.specs.inner.Sums.{added, sum_within};

use login_base::{Millis, read_whole};

/// The longest span in milliseconds.
const MOST: u64 = 4_000_000_000_000;

/// How many milliseconds a unit has. With no unit a number is one of seconds.
fn read_unit(word: &[u8]) -> Option<u64>
    ensures value { result ≡ unit_of word.now }
    ensures positive { IfSome result (λ millis. 0 < millis) }
{
    if word == b"ms".as_slice() {
        Some(1)
    } else if word == b"".as_slice() || word == b"s".as_slice() || word == b"sec".as_slice() {
        Some(1_000)
    } else if word == b"min".as_slice() {
        Some(60_000)
    } else if word == b"h".as_slice() {
        Some(3_600_000)
    } else if word == b"d".as_slice() {
        Some(86_400_000)
    } else if word == b"w".as_slice() {
        Some(604_800_000)
    } else {
        None
    }
}

/// Whether a byte is a decimal digit.
fn is_digit(byte: u8) -> bool
    ensures { result ≡ is_ascii_digit byte }
{
    byte.is_ascii_digit()
}

/// The place of a text's first byte that is no digit.
fn first_other(text: &[u8]) -> Option<usize>
    ensures { result ≡ position (λ b. not (is_ascii_digit b)) text.now }
{
    text.iter().position(|byte| !is_digit(*byte))
}

/// How many digits a text begins with.
fn digits(text: &[u8]) -> usize
    ensures value { result ≡ prefix_len is_ascii_digit text.now }
    ensures bound { result ≤ length text.now }
{
    match first_other(text) {
        Some(count) => count,
        None => text.len(),
    }
}

/// Whether a byte is a space.
fn is_space(byte: u8) -> bool
    ensures { result ≡ (byte == 32) }
{
    byte == b' '
}

/// A text without the spaces at its end.
fn without_spaces(text: &[u8]) -> &[u8]
    ensures { result.now ≡ to_last (λ b. b == 32) text.now }
{
    let mut text = text;
    while let Some((last, front)) = text.split_last() {
        if !is_space(*last) {
            return text;
        }
        text = front;
    }
    text
}

/// A number of units, in milliseconds, up to the longest span.
fn scaled(number: u64, unit: u64) -> Option<u64>
    requires { 0 < unit }
    ensures { result ≡ within (number * unit) }
{
    if number <= MOST / unit {
        Some(number * unit)
    } else {
        None
    }
}

/// The number of a part of a span.
fn read_number(part: &[u8]) -> Option<u64>
    ensures { result ≡ number_in part.now }
{
    let count = digits(part);
    read_whole(&part[..count])
}

/// The unit of a part, in milliseconds, behind which spaces may stand.
fn read_unit_in(part: &[u8]) -> Option<u64>
    ensures value { result ≡ unit_in part.now }
    ensures positive { IfSome result (λ millis. 0 < millis) }
{
    let count = digits(part);
    read_unit(without_spaces(&part[count..]))
}

/// A part of a span: a number and its unit.
fn read_part(part: &[u8]) -> Option<u64>
    ensures { result ≡ option_and_then within (part_of part.now) }
{
    match read_number(part) {
        Some(number) => match read_unit_in(part) {
            Some(unit) => scaled(number, unit),
            None => None,
        },
        None => None,
    }
}

/// Whether a part begins at a byte behind another.
fn begins_part(before: u8, byte: u8) -> bool
    ensures { result ≡ begins_part before byte }
{
    !is_digit(before) && is_digit(byte)
}

/// The first part of a text, and what stands behind it: a part begins at a digit behind another byte.
fn first_part(text: &[u8]) -> (&[u8], &[u8])
    requires { text.now ≢ [] }
    ensures parts { parts text.now ≡ result.0.now ∷ parts result.1.now }
    ensures shorter { length result.1.now < length text.now }
{
    for at in 1..text.len() {
        if begins_part(text[at - 1], text[at]) {
            return (&text[..at], &text[at..]);
        }
    }
    (text, &[])
}

/// Two spans after one another, up to the longest span.
fn joined(first: u64, second: u64) -> Option<u64>
    requires first { first ≤ MOST }
    requires second { second ≤ MOST }
    ensures { result ≡ within (first + second) }
{
    let sum = first + second;
    if sum <= MOST { Some(sum) } else { None }
}

/// A sum and a part of a span, up to the longest span.
fn added(sum: u64, part: &[u8]) -> Option<u64>
    requires { sum ≤ MOST }
    ensures { result ≡ added sum part.now }
{
    match read_part(part) {
        Some(millis) => joined(sum, millis),
        None => None,
    }
}

/// How many milliseconds the parts of a text have.
fn sum_of_parts(text: &[u8]) -> Option<u64>
    ensures { result ≡ sum_within text.now }
{
    let mut sum = 0;
    let mut rest = text;
    while !rest.is_empty() {
        let (part, behind) = first_part(rest);
        match added(sum, part) {
            Some(next) => {
                sum = next;
                rest = behind;
            }
            None => return None,
        }
    }
    Some(sum)
}

/// A span.
pub(crate) fn read_span(text: &[u8]) -> Option<Millis>
    ensures { result ≡ option_map span (span_of text.now) }
{
    if text.is_empty() {
        return None;
    }
    match sum_of_parts(text) {
        Some(sum) => Some(Millis(sum)),
        None => None,
    }
}
