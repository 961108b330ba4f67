// What values say.

ghost use Rattle.std.specs.Prelude.{◌≡◌};
ghost use Rattle.std.specs.Str.{str_eq_ignore_ascii_case};
ghost use Rattle.login_conf.specs.Values.{number_to, is_yes, is_no, flag_of, key_action_of};

use login_base::read_number;
use login_model::{KeyAction, OpKind};

/// A number up to another.
pub(crate) fn number_to(most: u32, value: &[u8]) -> Option<u32>
    ensures { result ≡ number_to most value.now }
{
    match read_number(value) {
        Some(number) if number <= most => Some(number),
        _ => None,
    }
}

/// Whether a value is this word, in any ASCII case.
fn is_in_any_case(value: &[u8], word: &[u8]) -> bool
    ensures { result ≡ str_eq_ignore_ascii_case value.now word.now }
{
    value.eq_ignore_ascii_case(word)
}

/// Whether a value says yes.
fn is_yes(value: &[u8]) -> bool
    ensures { result ≡ is_yes value.now }
{
    is_in_any_case(value, b"1")
        || is_in_any_case(value, b"yes")
        || is_in_any_case(value, b"true")
        || is_in_any_case(value, b"on")
}

/// Whether a value says no.
fn is_no(value: &[u8]) -> bool
    ensures { result ≡ is_no value.now }
{
    is_in_any_case(value, b"0")
        || is_in_any_case(value, b"no")
        || is_in_any_case(value, b"false")
        || is_in_any_case(value, b"off")
}

/// A boolean.
pub(crate) fn read_flag(value: &[u8]) -> Option<bool>
    ensures { result ≡ flag_of value.now }
{
    if is_yes(value) {
        Some(true)
    } else if is_no(value) {
        Some(false)
    } else {
        None
    }
}

/// What a key is to bring about.
pub(crate) fn read_action(value: &[u8]) -> Option<KeyAction>
    ensures { result ≡ key_action_of value.now }
{
    if value == b"ignore".as_slice() {
        Some(KeyAction::Ignore)
    } else if value == b"lock".as_slice() {
        Some(KeyAction::Lock)
    } else {
        match OpKind::read(value) {
            Some(kind) => Some(KeyAction::Operation(kind)),
            None => None,
        }
    }
}
