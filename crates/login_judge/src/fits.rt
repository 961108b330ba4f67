// Whether values are those that a call takes.

ghost use Rattle.std.specs.Prelude.{◌≡◌};
ghost use Rattle.std.specs.Str.{bytes_eq};
ghost use Rattle.login_model.specs.Start.{seat0};
ghost use Rattle.login_model.specs.Words.{whom_word};
ghost use Rattle.login_model.specs.Policy.{broken_if, bad_arguments, is_type, is_class, is_vt, is_seat_or_none, fits_seat, fits_creation, is_signal, is_whom};

use login_base::{SeatName, Word};
use login_model::{Class, Creation, KillWhom, Rule, SessionType};

pub(crate) fn broken_if(broken: bool, rule: Rule) -> Option<Rule>
    ensures { result ≡ broken_if broken rule }
{
    if broken { Some(rule) } else { None }
}

pub(crate) fn bad_arguments(fits: bool) -> Option<Rule>
    ensures { result ≡ bad_arguments fits }
{
    broken_if(!fits, Rule::BadArguments)
}

/// Whether a text names a type of sessions, or is empty.
fn is_type(text: &[u8]) -> bool
    ensures { result ≡ is_type text.now }
{
    text.is_empty() || SessionType::read(text).is_some()
}

/// Whether a text names a class of sessions, or is empty.
fn is_class(text: &[u8]) -> bool
    ensures { result ≡ is_class text.now }
{
    text.is_empty() || Class::read(text).is_some()
}

/// The highest number of a virtual terminal.
const LAST_TERMINAL: u32 = 63;

/// The highest number of a signal.
const LAST_SIGNAL: i32 = 64;

/// Whether there is a virtual terminal of this number.
pub(crate) fn is_vt(vt: u32) -> bool
    ensures { result ≡ is_vt vt }
{
    1 <= vt && vt <= LAST_TERMINAL
}

fn is_seat_or_none(text: &[u8]) -> bool
    ensures { result ≡ is_seat_or_none text.now }
{
    text.is_empty() || SeatName::read(text).is_ok()
}

/// Whether a text is the name of seat0.
pub(crate) fn is_seat0(text: &[u8]) -> bool
    ensures { result ≡ bytes_eq text.now seat0 }
{
    text == SeatName::SEAT0.as_slice()
}

fn fits_seat(seat: &[u8], vt: u32) -> bool
    ensures { result ≡ fits_seat seat.now vt }
{
    if is_seat0(seat) { is_vt(vt) } else { vt == 0 }
}

/// Whether a session can be created with these values.
pub(crate) fn fits_creation(creation: &Creation) -> bool
    ensures { result ≡ fits_creation creation.now }
{
    is_type(creation.session_type.as_slice())
        && is_class(creation.class.as_slice())
        && is_seat_or_none(creation.seat.as_slice())
        && fits_seat(creation.seat.as_slice(), creation.vt)
}

/// Whether there is a signal of this number.
pub(crate) fn is_signal(signal: i32) -> bool
    ensures { result ≡ is_signal signal }
{
    1 <= signal && signal <= LAST_SIGNAL
}

pub(crate) fn is_leader(who: &Word) -> bool
    ensures { result ≡ bytes_eq who.now (whom_word KillWhom.Leader) }
{
    who.as_slice() == KillWhom::Leader.name()
}

/// Whether a text says whom a signal is for.
pub(crate) fn is_whom(who: &Word) -> bool
    ensures { result ≡ is_whom who.now }
{
    let text = who.as_slice();
    text.is_empty() || KillWhom::read(text).is_some()
}
