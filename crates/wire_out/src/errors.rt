// The names and texts of errors.

ghost use Rattle.std.specs.Prelude.{◌≡◌, ◌++◌, ◌∷◌, IfOk, OnOk};
ghost use Rattle.std.specs.Fmt.{decimal};
ghost use Rattle.login_base.specs.SessionId.{session_text};
ghost use Rattle.login_model.specs.RuleWords.{detail_words, limit_number, limit_words};
ghost use Rattle.wire_out.specs.Errors.{error_name, nobody_error, rule_text};
ghost use Rattle.wire_out.specs.inner.Numbers.{HasRuleNumber, IsNumber};
ghost use Rattle.login_model.specs.inner.Prefixed.{spaced};

use login_base::{NoMemory, SessId, Word, append_decimal};
use login_model::{Call, Limit, Rule};
use std::alloc::Global;

/// The error where nobody is there: a name without an owner, or a process that is not connected.
fn nobody_error(call: &Call) -> &'static [u8]
    ensures { result.now ≡ nobody_error call.now }
{
    if let Call::GetNameOwner(_) = call {
        return b"org.freedesktop.DBus.Error.NameHasNoOwner";
    }
    b"org.freedesktop.DBus.Error.UnixProcessIdUnknown"
}

/// The name of the error that a call is answered where it breaks a rule.
#[tactic(auto, unfolding(crate::specs::Errors::error_name))]
pub(crate) fn error_name(call: &Call, rule: Rule) -> &'static [u8]
    ensures { result.now ≡ error_name call.now rule }
{
    match rule {
        Rule::UnknownObject => b"org.freedesktop.DBus.Error.UnknownObject",
        Rule::UnknownMethod => b"org.freedesktop.DBus.Error.UnknownMethod",
        Rule::BadArguments => b"org.freedesktop.DBus.Error.InvalidArgs",
        Rule::NoSuchSession => b"org.freedesktop.login1.NoSuchSession",
        Rule::NoSuchUser => b"org.freedesktop.login1.NoSuchUser",
        Rule::NoSuchSeat => b"org.freedesktop.login1.NoSuchSeat",
        Rule::NoSuchHandle => b"org.freedesktop.login1.NoSuchHandle",
        Rule::NoSuchDevice => b"org.freedesktop.login1.NoSuchDevice",
        Rule::NotRoot | Rule::NotOwner | Rule::NotYours | Rule::ActionRefused(_) => {
            b"org.freedesktop.DBus.Error.AccessDenied"
        }
        Rule::ActionChallenge(_) => {
            b"org.freedesktop.DBus.Error.InteractiveAuthorizationRequired"
        }
        Rule::SessionClosing => b"org.freedesktop.login1.SessionClosing",
        Rule::NoSeat => b"org.freedesktop.login1.NoSeat",
        Rule::SessionNotOnSeat => b"org.freedesktop.login1.SessionNotOnSeat",
        Rule::DeviceNotOnSeat => b"org.freedesktop.login1.DeviceNotOnSeat",
        Rule::Controlled(_) => b"org.freedesktop.login1.Controlled",
        Rule::NotInControl => b"org.freedesktop.login1.NotInControl",
        Rule::DeviceTaken => b"org.freedesktop.login1.DeviceTaken",
        Rule::DeviceNotTaken => b"org.freedesktop.login1.DeviceNotTaken",
        Rule::VtBusy(_) => b"org.freedesktop.login1.VtBusy",
        Rule::OperationInProgress(_) => b"org.freedesktop.login1.OperationInProgress",
        Rule::Inhibited(_) => b"org.freedesktop.login1.Inhibited",
        Rule::DelayNotOffered => b"org.freedesktop.login1.DelayNotOffered",
        Rule::Limit(_) => b"org.freedesktop.DBus.Error.LimitsExceeded",
        Rule::NotLive => b"org.freedesktop.login1.NotLive",
        Rule::WrongKind => b"org.freedesktop.login1.WrongKind",
        Rule::DevicePresent => b"org.freedesktop.login1.DevicePresent",
        Rule::DeviceAbsent => b"org.freedesktop.login1.DeviceAbsent",
        Rule::NoJob => b"org.freedesktop.login1.NoJob",
        Rule::ClockBackwards(_) => b"org.freedesktop.login1.ClockBackwards",
        Rule::KeyIgnored => b"org.freedesktop.login1.KeyIgnored",
        Rule::UnknownProperty => b"org.freedesktop.DBus.Error.UnknownProperty",
        Rule::ReadOnlyProperty => b"org.freedesktop.DBus.Error.PropertyReadOnly",
        Rule::Nobody => nobody_error(call),
    }
}

/// Adds a space and a word.
fn push_word(out: &mut Vec<u8>, word: &[u8]) -> Result<(), NoMemory>
    ensures { OnOk result (out.new.items ≡ out.old.items ++ 32 ∷ word.now) }
{
    out.push(b' ')?;
    out.extend_from_slice(word)?;
    Ok(())
}

/// Adds a space and a number in decimal.
fn push_number(out: &mut Vec<u8>, number: u64) -> Result<(), NoMemory>
    ensures { OnOk result (out.new.items ≡ out.old.items ++ 32 ∷ decimal number) }
{
    out.push(b' ')?;
    append_decimal(out, number)
}

/// Adds a space and a session's id.
fn push_session(alloc: Global, out: &mut Vec<u8>, session: SessId) -> Result<(), NoMemory>
    ensures text { OnOk result (out.new.items ≡ out.old.items ++ 32 ∷ session_text session) }
    ensures ranged { OnOk result (IsNumber session.0) }
{
    let id = session.text(alloc)?;
    push_word(out, id.as_slice())
}

/// Adds the name and the number of a limit.
fn push_limit(out: &mut Vec<u8>, limit: Limit) -> Result<(), NoMemory>
    ensures text { OnOk result (out.new.items ≡ out.old.items ++ spaced (limit_words limit)) }
    ensures ranged { OnOk result (IsNumber (limit_number limit)) }
{
    push_word(out, limit.name())?;
    push_number(out, u64::from(limit.number()))
}

/// Adds what a rule names.
fn push_detail(alloc: Global, out: &mut Vec<u8>, rule: Rule) -> Result<(), NoMemory>
    ensures text { OnOk result (out.new.items ≡ out.old.items ++ spaced (detail_words rule)) }
    ensures ranged { OnOk result (HasRuleNumber rule) }
{
    match rule {
        Rule::ActionRefused(action) => push_word(out, action.name()),
        Rule::ActionChallenge(action) => push_word(out, action.name()),
        Rule::Controlled(who) => push_number(out, u64::from(who.0)),
        Rule::VtBusy(session) => push_session(alloc, out, session),
        Rule::OperationInProgress(kind) => push_word(out, kind.name()),
        Rule::Inhibited(lock) => push_number(out, u64::from(lock.0)),
        Rule::Limit(limit) => push_limit(out, limit),
        Rule::ClockBackwards(moment) => push_number(out, moment.0),
        _ => Ok(()),
    }
}

/// The text of the error that a broken rule is.
#[tactic(auto, unfolding(crate::specs::Errors::rule_text))]
pub(crate) fn rule_text(alloc: Global, rule: Rule) -> Result<Word, NoMemory>
    ensures text { IfOk result (λ text. text ≡ rule_text rule) }
    ensures ranged { OnOk result (HasRuleNumber rule) }
{
    let mut out = Vec::from_slice(alloc, b"rule")?;
    push_word(&mut out, rule.label())?;
    push_detail(alloc, &mut out, rule)?;
    Ok(Word::from_vec(out))
}
