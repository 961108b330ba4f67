// How words are read as values, one after another. The first word that does not fit gives the cause.

ghost use Rattle.std.specs.Prelude.{◌≡◌, ◌≢◌, ◌≤◌, ℕ, List, [], ◌∷◌, map, IfOk, Err};
ghost use Rattle.recording.specs.declared.line.LineFault.{LineFault};
ghost use Rattle.recording.specs.Causes.{first_fault, end_fault, name_fault};
ghost use Rattle.recording.specs.Words.{text_of};
ghost use Rattle.recording.specs.inner.Arguments.{whole, alone, name_of, creation, Takes, Refuses, Reads, Misreads};
ghost use Rattle.login_model.specs.Limits.{name_limit, text_limit};
ghost use Rattle.recording.specs.Limits.{line_limit};

use crate::line::LineFault;
use crate::word::{
    LONGEST_TEXT, LONGEST_USER, Misread, device_kind, flag, guid, hex, is_word, key, moment,
    number, operation, positive, seat, signed, small, text,
};
use login_base::{Bytes, ConnId, DevNo, HandleNo, Millis, NoMemory, SeatName, Uid, Word};
use login_model::{
    Boxed, Creation, DevKind, HardKey, Inhibition, LONGEST_CALL_TEXT, NamedSession, OpKind,
    PropertyName,
};
use std::alloc::Global;

/// A kind of word.
#[derive(Clone, Copy, PartialEq, Eq)]
pub(crate) enum WordKind {
    /// A number below 2^32.
    Number,
    /// The same, above 0.
    Positive,
    /// A number below 2^16.
    Small,
    /// A signed number of 32 bits.
    Signed,
    /// A number below 2^64.
    Moment,
    /// `true` or `false`.
    Flag,
    /// A text.
    Text,
    /// A text of at most 255 bytes.
    UserName,
    /// A text of at most 512 bytes.
    SessionId,
    /// The name of a seat.
    SeatName,
    /// One byte or more in hex.
    Hex,
    /// 32 hex digits.
    Guid,
    /// `1`.
    Version,
    /// `evdev` or `drm`.
    DeviceKind,
    /// `power`, `suspend`, `hibernate` or `lid`.
    Key,
    /// The kind of an operation.
    Operation,
    /// Any word.
    Anything,
}

/// A value that words at the front of others say.
pub(crate) trait Argument: Sized {
    ghost use Rattle.recording.specs.declared.argument.WordKind.{WordKind};
    ghost use Rattle.std.specs.Prelude.{Option};

    /// The kinds of these words.
    ghost kinds: { List WordKind };

    /// What they say, and the words behind them.
    ghost of: { List (List ℕ) → Option (Self × List (List ℕ)) };

    /// Takes the words from the front of others, and gives those behind them.
    fn take<'a>(alloc: Global, words: &'a [&'a [u8]]) -> Result<(Self, &'a [&'a [u8]]), LineFault>
        ensures found { IfOk result (λ x. Takes kinds of (map (λ word. word.now) words.now) x.0 (map (λ word. word.now) x.1.now)) }
        ensures fault { (fault : LineFault) → result ≡ Err fault → fault ≢ LineFault.NoMemory → Refuses kinds (map (λ word. word.now) words.now) fault };
}

/// The cause of a word that is misread.
fn or_cause<T: Drop>(read: Result<T, Misread>, cause: LineFault) -> Result<T, LineFault>
    ensures { Misreads cause read result }
{
    match read {
        Ok(value) => Ok(value),
        Err(Misread::Misfit) => Err(cause),
        Err(Misread::NoMemory) => Err(LineFault::NoMemory),
    }
}

impl Argument for u32 {
    ghost use Rattle.std.specs.Prelude.{[], ◌∷◌};
    ghost use Rattle.recording.specs.declared.argument.WordKind.TheVariants.{Number as kind};
    ghost use Rattle.login_base.specs.Number.{number_of};
    ghost use Rattle.recording.specs.inner.Arguments.{single};

    ghost kinds = { kind ∷ [] };

    ghost of = { single number_of };

    fn take<'a>(alloc: Global, words: &'a [&'a [u8]]) -> Result<(u32, &'a [&'a [u8]]), LineFault> {
        let Some((word, words)) = words.split_first() else {
            return Err(LineFault::MissingWord);
        };
        let value = or_cause(number(word), LineFault::BadNumber)?;
        Ok((value, words))
    }
}

impl Argument for i32 {
    ghost use Rattle.std.specs.Prelude.{[], ◌∷◌};
    ghost use Rattle.recording.specs.declared.argument.WordKind.TheVariants.{Signed as kind};
    ghost use Rattle.recording.specs.Words.{signed_of};
    ghost use Rattle.recording.specs.inner.Arguments.{single};

    ghost kinds = { kind ∷ [] };

    ghost of = { single signed_of };

    fn take<'a>(alloc: Global, words: &'a [&'a [u8]]) -> Result<(i32, &'a [&'a [u8]]), LineFault> {
        let Some((word, words)) = words.split_first() else {
            return Err(LineFault::MissingWord);
        };
        let value = or_cause(signed(word), LineFault::BadNumber)?;
        Ok((value, words))
    }
}

impl Argument for bool {
    ghost use Rattle.std.specs.Prelude.{[], ◌∷◌};
    ghost use Rattle.recording.specs.declared.argument.WordKind.TheVariants.{Flag as kind};
    ghost use Rattle.recording.specs.Words.{flag_of};
    ghost use Rattle.recording.specs.inner.Arguments.{single};

    ghost kinds = { kind ∷ [] };

    ghost of = { single flag_of };

    fn take<'a>(alloc: Global, words: &'a [&'a [u8]]) -> Result<(bool, &'a [&'a [u8]]), LineFault> {
        let Some((word, words)) = words.split_first() else {
            return Err(LineFault::MissingWord);
        };
        let value = or_cause(flag(word), LineFault::UnknownWord)?;
        Ok((value, words))
    }
}

impl Argument for u16 {
    ghost use Rattle.std.specs.Prelude.{[], ◌∷◌};
    ghost use Rattle.recording.specs.declared.argument.WordKind.TheVariants.{Small as kind};
    ghost use Rattle.recording.specs.Words.{small_of};
    ghost use Rattle.recording.specs.inner.Arguments.{single};

    ghost kinds = { kind ∷ [] };

    ghost of = { single small_of };

    fn take<'a>(alloc: Global, words: &'a [&'a [u8]]) -> Result<(u16, &'a [&'a [u8]]), LineFault> {
        let Some((word, words)) = words.split_first() else {
            return Err(LineFault::MissingWord);
        };
        let value = or_cause(small(word), LineFault::BadNumber)?;
        Ok((value, words))
    }
}

impl Argument for DevKind {
    ghost use Rattle.std.specs.Prelude.{[], ◌∷◌};
    ghost use Rattle.recording.specs.declared.argument.WordKind.TheVariants.{DeviceKind as kind};
    ghost use Rattle.login_model.specs.Words.{device_kind_named};
    ghost use Rattle.recording.specs.inner.Arguments.{single};

    ghost kinds = { kind ∷ [] };

    ghost of = { single device_kind_named };

    fn take<'a>(
        alloc: Global,
        words: &'a [&'a [u8]],
    ) -> Result<(DevKind, &'a [&'a [u8]]), LineFault> {
        let Some((word, words)) = words.split_first() else {
            return Err(LineFault::MissingWord);
        };
        let value = or_cause(device_kind(word), LineFault::UnknownWord)?;
        Ok((value, words))
    }
}

impl Argument for HardKey {
    ghost use Rattle.std.specs.Prelude.{[], ◌∷◌};
    ghost use Rattle.recording.specs.declared.argument.WordKind.TheVariants.{Key as kind};
    ghost use Rattle.login_model.specs.Words.{key_named};
    ghost use Rattle.recording.specs.inner.Arguments.{single};

    ghost kinds = { kind ∷ [] };

    ghost of = { single key_named };

    fn take<'a>(
        alloc: Global,
        words: &'a [&'a [u8]],
    ) -> Result<(HardKey, &'a [&'a [u8]]), LineFault> {
        let Some((word, words)) = words.split_first() else {
            return Err(LineFault::MissingWord);
        };
        let value = or_cause(key(word), LineFault::UnknownWord)?;
        Ok((value, words))
    }
}

impl Argument for OpKind {
    ghost use Rattle.std.specs.Prelude.{[], ◌∷◌};
    ghost use Rattle.recording.specs.declared.argument.WordKind.TheVariants.{Operation as kind};
    ghost use Rattle.login_model.specs.Words.{operation_named};
    ghost use Rattle.recording.specs.inner.Arguments.{single};

    ghost kinds = { kind ∷ [] };

    ghost of = { single operation_named };

    fn take<'a>(
        alloc: Global,
        words: &'a [&'a [u8]],
    ) -> Result<(OpKind, &'a [&'a [u8]]), LineFault> {
        let Some((word, words)) = words.split_first() else {
            return Err(LineFault::MissingWord);
        };
        let value = or_cause(operation(word), LineFault::UnknownWord)?;
        Ok((value, words))
    }
}

impl Argument for SeatName {
    ghost use Rattle.std.specs.Prelude.{[], ◌∷◌};
    ghost use Rattle.recording.specs.declared.argument.WordKind.TheVariants.{SeatName as kind};
    ghost use Rattle.recording.specs.inner.Words.{seat_of};
    ghost use Rattle.recording.specs.inner.Arguments.{single};

    ghost kinds = { kind ∷ [] };

    ghost of = { single seat_of };

    #[tactic(auto, unfolding(crate::specs::inner::Words::seat_of))]
    fn take<'a>(
        alloc: Global,
        words: &'a [&'a [u8]],
    ) -> Result<(SeatName, &'a [&'a [u8]]), LineFault> {
        let Some((word, words)) = words.split_first() else {
            return Err(LineFault::MissingWord);
        };
        let value = or_cause(seat(word), LineFault::BadName)?;
        Ok((value, words))
    }
}

impl Argument for Bytes {
    ghost use Rattle.std.specs.Prelude.{[], ◌∷◌};
    ghost use Rattle.recording.specs.declared.argument.WordKind.TheVariants.{Hex as kind};
    ghost use Rattle.recording.specs.Words.{hex_of};
    ghost use Rattle.recording.specs.inner.Arguments.{single};

    ghost kinds = { kind ∷ [] };

    ghost of = { single hex_of };

    fn take<'a>(
        alloc: Global,
        words: &'a [&'a [u8]],
    ) -> Result<(Bytes, &'a [&'a [u8]]), LineFault> {
        let Some((word, words)) = words.split_first() else {
            return Err(LineFault::MissingWord);
        };
        let value = or_cause(hex(alloc, word), LineFault::BadHex)?;
        Ok((value, words))
    }
}

impl Argument for Word {
    ghost use Rattle.std.specs.Prelude.{[], ◌∷◌};
    ghost use Rattle.recording.specs.declared.argument.WordKind.TheVariants.{Text as kind};
    ghost use Rattle.recording.specs.Words.{text_of};
    ghost use Rattle.recording.specs.inner.Arguments.{single};

    ghost kinds = { kind ∷ [] };

    ghost of = { single (text_of line_limit) };

    fn take<'a>(alloc: Global, words: &'a [&'a [u8]]) -> Result<(Word, &'a [&'a [u8]]), LineFault> {
        let Some((word, words)) = words.split_first() else {
            return Err(LineFault::MissingWord);
        };
        let value = or_cause(text(alloc, word, LONGEST_TEXT), LineFault::BadHex)?;
        Ok((value, words))
    }
}

impl Argument for NamedSession {
    ghost use Rattle.std.specs.Prelude.{[], ◌∷◌};
    ghost use Rattle.recording.specs.declared.argument.WordKind.TheVariants.{Text as kind};
    ghost use Rattle.recording.specs.Words.{text_of};
    ghost use Rattle.recording.specs.inner.Arguments.{single};

    ghost kinds = { kind ∷ [] };

    ghost of = { single (text_of line_limit) };

    fn take<'a>(
        alloc: Global,
        words: &'a [&'a [u8]],
    ) -> Result<(NamedSession, &'a [&'a [u8]]), LineFault> {
        let (text, words) = Word::take(alloc, words)?;
        Ok((NamedSession::new(text), words))
    }
}

/// A number above 0.
#[derive(Clone, Copy)]
pub(crate) struct Positive(pub(crate) u32);

/// A text of at most 255 bytes.
#[derive(Drop)]
pub(crate) struct UserName(pub(crate) Word);

/// A text of at most 512 bytes.
#[derive(Drop)]
pub(crate) struct SessionName(pub(crate) Word);

/// The text of a word, if it has at most so many bytes.
fn name(alloc: Global, word: &[u8], most: usize) -> Result<Word, LineFault>
    requires { most ≤ line_limit }
    ensures { Reads (name_of most word.now) (name_fault most (text_of line_limit word.now)) result }
{
    let name = or_cause(text(alloc, word, LONGEST_TEXT), LineFault::BadHex)?;
    if name.len() > most {
        return Err(LineFault::BadName);
    }
    Ok(name)
}

impl Argument for Uid {
    ghost use Rattle.std.specs.Prelude.{[], ◌∷◌};
    ghost use Rattle.recording.specs.declared.argument.WordKind.TheVariants.{Number as kind};
    ghost use Rattle.recording.specs.inner.Arguments.{users};

    ghost kinds = { kind ∷ [] };

    ghost of = { users };

    fn take<'a>(alloc: Global, words: &'a [&'a [u8]]) -> Result<(Uid, &'a [&'a [u8]]), LineFault> {
        let Some((word, words)) = words.split_first() else {
            return Err(LineFault::MissingWord);
        };
        let value = or_cause(number(word), LineFault::BadNumber)?;
        Ok((Uid(value), words))
    }
}

impl Argument for HandleNo {
    ghost use Rattle.std.specs.Prelude.{[], ◌∷◌};
    ghost use Rattle.recording.specs.declared.argument.WordKind.TheVariants.{Number as kind};
    ghost use Rattle.recording.specs.inner.Arguments.{made, handle_number, numbers};

    ghost kinds = { kind ∷ [] };

    ghost of = { made handle_number numbers };

    fn take<'a>(
        alloc: Global,
        words: &'a [&'a [u8]],
    ) -> Result<(HandleNo, &'a [&'a [u8]]), LineFault> {
        let Some((word, words)) = words.split_first() else {
            return Err(LineFault::MissingWord);
        };
        let value = or_cause(number(word), LineFault::BadNumber)?;
        Ok((HandleNo(value), words))
    }
}

impl Argument for ConnId {
    ghost use Rattle.std.specs.Prelude.{[], ◌∷◌};
    ghost use Rattle.recording.specs.declared.argument.WordKind.TheVariants.{Positive as kind};
    ghost use Rattle.recording.specs.inner.Arguments.{made, connection_id, single};
    ghost use Rattle.recording.specs.Words.{positive_of};

    ghost kinds = { kind ∷ [] };

    ghost of = { made connection_id (single positive_of) };

    fn take<'a>(
        alloc: Global,
        words: &'a [&'a [u8]],
    ) -> Result<(ConnId, &'a [&'a [u8]]), LineFault> {
        let Some((word, words)) = words.split_first() else {
            return Err(LineFault::MissingWord);
        };
        let value = or_cause(positive(word), LineFault::BadNumber)?;
        Ok((ConnId(value), words))
    }
}

impl Argument for Positive {
    ghost use Rattle.std.specs.Prelude.{[], ◌∷◌};
    ghost use Rattle.recording.specs.declared.argument.WordKind.TheVariants.{Positive as kind};
    ghost use Rattle.recording.specs.inner.Arguments.{made, single};
    ghost use Rattle.recording.specs.Words.{positive_of};
    ghost use Rattle.recording.specs.inner.LineReadings.{above_nought};

    ghost kinds = { kind ∷ [] };

    ghost of = { made above_nought (single positive_of) };

    fn take<'a>(
        alloc: Global,
        words: &'a [&'a [u8]],
    ) -> Result<(Positive, &'a [&'a [u8]]), LineFault> {
        let Some((word, words)) = words.split_first() else {
            return Err(LineFault::MissingWord);
        };
        let value = or_cause(positive(word), LineFault::BadNumber)?;
        Ok((Positive(value), words))
    }
}

impl Argument for Millis {
    ghost use Rattle.std.specs.Prelude.{[], ◌∷◌};
    ghost use Rattle.recording.specs.declared.argument.WordKind.TheVariants.{Moment as kind};
    ghost use Rattle.recording.specs.inner.Arguments.{made, single};
    ghost use Rattle.login_base.specs.Number.{whole_of};
    ghost use Rattle.recording.specs.inner.LineReadings.{millis};

    ghost kinds = { kind ∷ [] };

    ghost of = { made millis (single whole_of) };

    fn take<'a>(
        alloc: Global,
        words: &'a [&'a [u8]],
    ) -> Result<(Millis, &'a [&'a [u8]]), LineFault> {
        let Some((word, words)) = words.split_first() else {
            return Err(LineFault::MissingWord);
        };
        let value = or_cause(moment(word), LineFault::BadNumber)?;
        Ok((Millis(value), words))
    }
}

impl Argument for UserName {
    ghost use Rattle.std.specs.Prelude.{[], ◌∷◌};
    ghost use Rattle.recording.specs.declared.argument.WordKind.TheVariants.{UserName as kind};
    ghost use Rattle.recording.specs.inner.Arguments.{made, single, name_of};
    ghost use Rattle.recording.specs.inner.LineReadings.{user_name};

    ghost kinds = { kind ∷ [] };

    ghost of = { made user_name (single (name_of name_limit)) };

    fn take<'a>(
        alloc: Global,
        words: &'a [&'a [u8]],
    ) -> Result<(UserName, &'a [&'a [u8]]), LineFault> {
        let Some((word, words)) = words.split_first() else {
            return Err(LineFault::MissingWord);
        };
        let value = name(alloc, word, LONGEST_USER)?;
        Ok((UserName(value), words))
    }
}

impl Argument for SessionName {
    ghost use Rattle.std.specs.Prelude.{[], ◌∷◌};
    ghost use Rattle.recording.specs.declared.argument.WordKind.TheVariants.{SessionId as kind};
    ghost use Rattle.recording.specs.inner.Arguments.{made, single, name_of};
    ghost use Rattle.recording.specs.inner.LineReadings.{session_name};

    ghost kinds = { kind ∷ [] };

    ghost of = { made session_name (single (name_of text_limit)) };

    fn take<'a>(
        alloc: Global,
        words: &'a [&'a [u8]],
    ) -> Result<(SessionName, &'a [&'a [u8]]), LineFault> {
        let Some((word, words)) = words.split_first() else {
            return Err(LineFault::MissingWord);
        };
        let value = name(alloc, word, LONGEST_CALL_TEXT)?;
        Ok((SessionName(value), words))
    }
}

/// The version of the form, which is 1.
#[derive(Clone, Copy)]
pub(crate) struct Version(pub(crate) u8);

/// The identity of a server.
#[derive(Drop)]
pub(crate) struct Guid(pub(crate) Word);

impl Argument for Version {
    ghost use Rattle.std.specs.Prelude.{[], ◌∷◌};
    ghost use Rattle.recording.specs.declared.argument.WordKind.TheVariants.{Version as kind};
    ghost use Rattle.recording.specs.inner.Arguments.{made, single, version_of};
    ghost use Rattle.recording.specs.inner.LineReadings.{version};

    ghost kinds = { kind ∷ [] };

    ghost of = { made version (single version_of) };

    fn take<'a>(
        _alloc: Global,
        words: &'a [&'a [u8]],
    ) -> Result<(Version, &'a [&'a [u8]]), LineFault> {
        let Some((word, words)) = words.split_first() else {
            return Err(LineFault::MissingWord);
        };
        if is_word(word, b"1") {
            Ok((Version(1), words))
        } else {
            Err(LineFault::UnknownWord)
        }
    }
}

impl Argument for Guid {
    ghost use Rattle.std.specs.Prelude.{[], ◌∷◌};
    ghost use Rattle.recording.specs.declared.argument.WordKind.TheVariants.{Guid as kind};
    ghost use Rattle.recording.specs.inner.Words.{guid_of};
    ghost use Rattle.recording.specs.inner.Arguments.{made, single};
    ghost use Rattle.recording.specs.inner.LineReadings.{identity};

    ghost kinds = { kind ∷ [] };

    ghost of = { made identity (single guid_of) };

    fn take<'a>(alloc: Global, words: &'a [&'a [u8]]) -> Result<(Guid, &'a [&'a [u8]]), LineFault> {
        let Some((word, words)) = words.split_first() else {
            return Err(LineFault::MissingWord);
        };
        let value = or_cause(guid(alloc, word), LineFault::BadHex)?;
        Ok((Guid(value), words))
    }
}

impl<A: Argument + Drop, B: Argument> Argument for (A, B) {
    ghost use Rattle.std.specs.Prelude.{◌++◌};
    ghost use Rattle.recording.specs.inner.Arguments.{pair_of};

    ghost kinds = { A.kinds ++ B.kinds };

    ghost of = { pair_of A.of B.of };

    fn take<'a>(
        alloc: Global,
        words: &'a [&'a [u8]],
    ) -> Result<((A, B), &'a [&'a [u8]]), LineFault> {
        let (first, words) = A::take(alloc, words)?;
        let (second, words) = B::take(alloc, words)?;
        Ok(((first, second), words))
    }
}

impl Argument for DevNo {
    ghost use Rattle.std.specs.Prelude.{[], ◌∷◌};
    ghost use Rattle.recording.specs.declared.argument.WordKind.TheVariants.{Number};
    ghost use Rattle.recording.specs.inner.Arguments.{devices};

    ghost kinds = { Number ∷ Number ∷ [] };

    ghost of = { devices };

    fn take<'a>(
        alloc: Global,
        words: &'a [&'a [u8]],
    ) -> Result<(DevNo, &'a [&'a [u8]]), LineFault> {
        let ((major, minor), words) = <(u32, u32)>::take(alloc, words)?;
        Ok((DevNo { major, minor }, words))
    }
}

impl Argument for PropertyName {
    ghost use Rattle.std.specs.Prelude.{[], ◌∷◌};
    ghost use Rattle.recording.specs.declared.argument.WordKind.TheVariants.{Text};
    ghost use Rattle.recording.specs.inner.Arguments.{properties};

    ghost kinds = { Text ∷ Text ∷ Text ∷ [] };

    ghost of = { properties };

    fn take<'a>(
        alloc: Global,
        words: &'a [&'a [u8]],
    ) -> Result<(PropertyName, &'a [&'a [u8]]), LineFault> {
        let ((path, (interface, name)), words) = <(Word, (Word, Word))>::take(alloc, words)?;
        Ok((
            PropertyName {
                path,
                interface,
                name,
            },
            words,
        ))
    }
}

impl Argument for Inhibition {
    ghost use Rattle.std.specs.Prelude.{[], ◌∷◌};
    ghost use Rattle.recording.specs.declared.argument.WordKind.TheVariants.{Text};
    ghost use Rattle.recording.specs.inner.Arguments.{inhibitions};

    ghost kinds = { Text ∷ Text ∷ Text ∷ Text ∷ [] };

    ghost of = { inhibitions };

    fn take<'a>(
        alloc: Global,
        words: &'a [&'a [u8]],
    ) -> Result<(Inhibition, &'a [&'a [u8]]), LineFault> {
        let (((what, who), (why, mode)), words) = <((Word, Word), (Word, Word))>::take(
            alloc, words,
        )?;
        Ok((
            Inhibition {
                what,
                who,
                why,
                mode,
            },
            words,
        ))
    }
}

/// Whose a session is: a user, a process and a service.
type Owner = (Uid, (u32, Word));

/// What a session is for: a type, a class and a desktop.
type Purpose = (Word, (Word, Word));

/// Where a session is: a seat, its terminal and a tty.
type Place = (Word, (u32, Word));

/// Where a session's user is: a display, whether it is remote, and a user and a host there.
type Origin = ((Word, bool), (Word, Word));

fn created(owner: Owner, purpose: Purpose, place: Place, origin: Origin) -> Creation
    ensures { result ≡ creation ((owner, purpose), (place, origin)) }
{
    let (uid, (process, service)) = owner;
    let (session_type, (class, desktop)) = purpose;
    let (seat, (vt, tty)) = place;
    let ((display, remote), (remote_user, remote_host)) = origin;
    Creation {
        uid,
        process,
        service,
        session_type,
        class,
        desktop,
        seat,
        vt,
        tty,
        display,
        remote,
        remote_user,
        remote_host,
    }
}

impl Argument for Creation {
    ghost use Rattle.std.specs.Prelude.{[], ◌∷◌};
    ghost use Rattle.recording.specs.declared.argument.WordKind.TheVariants.{Number, Text, Flag};
    ghost use Rattle.recording.specs.inner.Arguments.{creations};

    ghost kinds = { Number ∷ Number ∷ Text ∷ Text ∷ Text ∷ Text ∷ Text ∷ Number ∷ Text ∷ Text ∷ Flag ∷ Text ∷ Text ∷ [] };

    ghost of = { creations };

    fn take<'a>(
        alloc: Global,
        words: &'a [&'a [u8]],
    ) -> Result<(Creation, &'a [&'a [u8]]), LineFault> {
        let (((owner, purpose), (place, origin)), words) = <(
            (Owner, Purpose),
            (Place, Origin),
        )>::take(alloc, words)?;
        Ok((created(owner, purpose, place, origin), words))
    }
}

/// A value in memory of its own is said by the same words.
impl<A: Argument + Drop> Argument for Boxed<A> {
    ghost kinds = { A.kinds };

    ghost of = { A.of };

    fn take<'a>(
        alloc: Global,
        words: &'a [&'a [u8]],
    ) -> Result<(Boxed<A>, &'a [&'a [u8]]), LineFault> {
        let (value, words) = A::take(alloc, words)?;
        match Boxed::new(alloc, value) {
            Ok(value) => Ok((value, words)),
            Err(NoMemory) => Err(LineFault::NoMemory),
        }
    }
}

/// All words as one value.
pub(crate) fn read<A: Argument + Drop>(alloc: Global, words: &[&[u8]]) -> Result<A, LineFault>
    ensures { Reads (whole (A.of (map (λ word. word.now) words.now))) (first_fault A.kinds end_fault (map (λ word. word.now) words.now)) result }
{
    let (value, rest) = A::take(alloc, words)?;
    if rest.is_empty() {
        Ok(value)
    } else {
        Err(LineFault::ExtraWord)
    }
}

/// A value where no word follows.
pub(crate) fn read_alone<T: Drop>(value: T, words: &[&[u8]]) -> Result<T, LineFault>
    ensures { Reads (alone value (map (λ word. word.now) words.now)) (first_fault [] end_fault (map (λ word. word.now) words.now)) result }
{
    if words.is_empty() {
        Ok(value)
    } else {
        Err(LineFault::ExtraWord)
    }
}
