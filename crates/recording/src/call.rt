// Calls: how their words are read, and how they are printed.

ghost use Rattle.std.specs.Prelude.{◌≡◌, ◌++◌, ◌∷◌, [], OnOk, map};
ghost use Rattle.std.specs.Fmt.{decimal, signed_decimal};
ghost use Rattle.login_model.specs.Words.{operation_word};
ghost use Rattle.recording.specs.Shapes.{behind_in};
ghost use Rattle.recording.specs.Calls.{manager_shapes, session_shapes, seat_shapes, other_shapes, call_words, device_words, property_words};
ghost use Rattle.recording.specs.Causes.{known_fault, call_fault};
ghost use Rattle.recording.specs.inner.Arguments.{Reads};
ghost use Rattle.recording.specs.inner.CallReadings.{manager_call_of, session_call_of, seat_call_of, other_call_of, call_of};
ghost use Rattle.recording.specs.inner.CallWords.{purpose_words, place_words};
ghost use Rattle.login_model.specs.inner.Prefixed.{spaced};
ghost use Rattle.recording.specs.Text.{spell_text, spell_flag};

use crate::argument::{read, read_alone};
use crate::key_text::push_numbered;
use crate::line::LineFault;
use crate::line_text::LineText;
use crate::word::is_word;
use login_base::{DevNo, NoMemory, Uid, Word};
use login_model::{Call, Creation, Inhibition, NamedSession, OpKind, PropertyName};
use std::alloc::Global;

/// A call of the bus itself, of a property, or a word for another message.
#[tactic(auto, unfolding(crate::specs::inner::CallReadings::other_call_of))]
fn read_other_call(alloc: Global, word: &[u8], words: &[&[u8]]) -> Result<Call, LineFault>
    ensures { Reads (other_call_of word.now (map (λ word. word.now) words.now)) (known_fault (behind_in word.now other_shapes) (map (λ word. word.now) words.now)) result }
{
    if is_word(word, b"get") {
        read(alloc, words).map(Call::GetProperty)
    } else if is_word(word, b"get-all") {
        read(alloc, words).map(|(path, interface)| Call::GetAllProperties(path, interface))
    } else if is_word(word, b"set") {
        read(alloc, words).map(Call::SetProperty)
    } else if is_word(word, b"ping") {
        read_alone(Call::Ping, words)
    } else if is_word(word, b"machine-id") {
        read_alone(Call::GetMachineId, words)
    } else if is_word(word, b"hello") {
        read_alone(Call::Hello, words)
    } else if is_word(word, b"owner") {
        read(alloc, words).map(Call::GetNameOwner)
    } else if is_word(word, b"add-match") {
        read(alloc, words).map(Call::AddMatch)
    } else if is_word(word, b"remove-match") {
        read(alloc, words).map(Call::RemoveMatch)
    } else if is_word(word, b"nothing") {
        read_alone(Call::NoCall, words)
    } else if is_word(word, b"no-object") {
        read_alone(Call::NoObject, words)
    } else if is_word(word, b"no-method") {
        read_alone(Call::NoMethod, words)
    } else if is_word(word, b"bad-args") {
        read_alone(Call::BadArguments, words)
    } else {
        Err(LineFault::UnknownWord)
    }
}

/// A call of a seat, a user or the machine, or one of the others.
#[tactic(auto, unfolding(crate::specs::inner::CallReadings::seat_call_of))]
fn read_seat_call(alloc: Global, word: &[u8], words: &[&[u8]]) -> Result<Call, LineFault>
    ensures { Reads (seat_call_of word.now (map (λ word. word.now) words.now)) (known_fault (behind_in word.now seat_shapes) (map (λ word. word.now) words.now)) result }
{
    if is_word(word, b"switch") {
        read(alloc, words).map(|(seat, vt)| Call::SwitchTo(seat, vt))
    } else if is_word(word, b"next") {
        read(alloc, words).map(Call::SwitchToNext)
    } else if is_word(word, b"prev") {
        read(alloc, words).map(Call::SwitchToPrevious)
    } else if is_word(word, b"terminate-seat") {
        read(alloc, words).map(Call::TerminateSeat)
    } else if is_word(word, b"terminate-user") {
        read(alloc, words).map(Call::TerminateUser)
    } else if is_word(word, b"kill-user") {
        read(alloc, words).map(|(uid, signal)| Call::KillUser(uid, signal))
    } else if is_word(word, b"linger") {
        read(alloc, words).map(|(uid, on)| Call::SetLinger(uid, on))
    } else if is_word(word, b"read") {
        read(alloc, words).map(Call::ReadInput)
    } else if is_word(word, b"set-mode") {
        read(alloc, words).map(|(handle, mode)| Call::SetMode(handle, mode))
    } else if is_word(word, b"close") {
        read(alloc, words).map(Call::Close)
    } else {
        read_other_call(alloc, word, words)
    }
}

/// A call of a session, or one of the others.
#[tactic(auto, unfolding(crate::specs::inner::CallReadings::session_call_of))]
fn read_session_call(alloc: Global, word: &[u8], words: &[&[u8]]) -> Result<Call, LineFault>
    ensures { Reads (session_call_of word.now (map (λ word. word.now) words.now)) (known_fault (behind_in word.now session_shapes) (map (λ word. word.now) words.now)) result }
{
    if is_word(word, b"activate") {
        read(alloc, words).map(Call::Activate)
    } else if is_word(word, b"activate-on") {
        read(alloc, words).map(|(id, seat)| Call::ActivateOnSeat(id, seat))
    } else if is_word(word, b"lock") {
        read(alloc, words).map(Call::Lock)
    } else if is_word(word, b"unlock") {
        read(alloc, words).map(Call::Unlock)
    } else if is_word(word, b"kill") {
        read(alloc, words).map(|(id, (who, signal))| Call::Kill(id, who, signal))
    } else if is_word(word, b"terminate") {
        read(alloc, words).map(Call::Terminate)
    } else if is_word(word, b"idle") {
        read(alloc, words).map(|(id, on)| Call::SetIdle(id, on))
    } else if is_word(word, b"locked") {
        read(alloc, words).map(|(id, on)| Call::SetLocked(id, on))
    } else if is_word(word, b"control") {
        read(alloc, words).map(|(id, force)| Call::Control(id, force))
    } else if is_word(word, b"uncontrol") {
        read(alloc, words).map(Call::Uncontrol)
    } else if is_word(word, b"take") {
        read(alloc, words).map(|(id, device)| Call::TakeDevice(id, device))
    } else if is_word(word, b"release") {
        read(alloc, words).map(|(id, device)| Call::ReleaseDevice(id, device))
    } else if is_word(word, b"paused") {
        read(alloc, words).map(|(id, device)| Call::PauseComplete(id, device))
    } else {
        read_seat_call(alloc, word, words)
    }
}

/// A call of the manager, or one of the others.
#[tactic(auto, unfolding(crate::specs::inner::CallReadings::manager_call_of))]
fn read_manager_call(alloc: Global, word: &[u8], words: &[&[u8]]) -> Result<Call, LineFault>
    ensures { Reads (manager_call_of word.now (map (λ word. word.now) words.now)) (known_fault (behind_in word.now manager_shapes) (map (λ word. word.now) words.now)) result }
{
    if is_word(word, b"create") {
        read(alloc, words).map(Call::Create)
    } else if is_word(word, b"get-session") {
        read(alloc, words).map(Call::GetSession)
    } else if is_word(word, b"get-user") {
        read(alloc, words).map(Call::GetUser)
    } else if is_word(word, b"get-seat") {
        read(alloc, words).map(Call::GetSeat)
    } else if is_word(word, b"list-sessions") {
        read_alone(Call::ListSessions, words)
    } else if is_word(word, b"list-users") {
        read_alone(Call::ListUsers, words)
    } else if is_word(word, b"list-seats") {
        read_alone(Call::ListSeats, words)
    } else if is_word(word, b"list-inhibitors") {
        read_alone(Call::ListInhibitors, words)
    } else if is_word(word, b"lock-all") {
        read_alone(Call::LockAll, words)
    } else if is_word(word, b"unlock-all") {
        read_alone(Call::UnlockAll, words)
    } else if is_word(word, b"power") {
        read(alloc, words).map(Call::Power)
    } else if is_word(word, b"can") {
        read(alloc, words).map(Call::Can)
    } else if is_word(word, b"inhibit") {
        read(alloc, words).map(Call::Inhibit)
    } else {
        read_session_call(alloc, word, words)
    }
}

/// A call with its arguments.
#[tactic(auto, unfolding(crate::specs::inner::CallReadings::call_of))]
pub(crate) fn read_call(alloc: Global, words: &[&[u8]]) -> Result<Call, LineFault>
    ensures { Reads (call_of (map (λ word. word.now) words.now)) (call_fault (map (λ word. word.now) words.now)) result }
{
    let Some((word, words)) = words.split_first() else {
        return Err(LineFault::MissingWord);
    };
    read_manager_call(alloc, word, words)
}

/// Adds whose a session is and what it is for.
fn push_purpose(text: &mut LineText, x: &Creation) -> Result<(), NoMemory>
    ensures { OnOk result (text.new ≡ text.old ++ spaced (purpose_words x.now)) }
{
    text.number(x.uid.0)?;
    text.number(x.process)?;
    text.text(x.service.as_slice())?;
    text.text(x.session_type.as_slice())?;
    text.text(x.class.as_slice())?;
    text.text(x.desktop.as_slice())
}

/// Adds where a session is and where its user is.
fn push_place(text: &mut LineText, x: &Creation) -> Result<(), NoMemory>
    ensures { OnOk result (text.new ≡ text.old ++ spaced (place_words x.now)) }
{
    text.text(x.seat.as_slice())?;
    text.number(x.vt)?;
    text.text(x.tty.as_slice())?;
    text.text(x.display.as_slice())?;
    text.flag(x.remote)?;
    text.text(x.remote_user.as_slice())?;
    text.text(x.remote_host.as_slice())
}

/// Adds the words of a creation.
#[tactic(auto, unfolding(crate::specs::Calls::call_words))]
fn push_creation(text: &mut LineText, x: &Creation) -> Result<(), NoMemory>
    ensures { OnOk result (text.new ≡ text.old ++ spaced (call_words (Call.Create x.now))) }
{
    text.word(b"create")?;
    push_purpose(text, x)?;
    push_place(text, x)
}

/// Adds a device's number.
pub(crate) fn push_device(text: &mut LineText, device: DevNo) -> Result<(), NoMemory>
    ensures { OnOk result (text.new ≡ text.old ++ spaced (device_words device)) }
{
    text.number(device.major)?;
    text.number(device.minor)
}

/// Adds an operation's kind.
pub(crate) fn push_operation(text: &mut LineText, kind: OpKind) -> Result<(), NoMemory>
    ensures { OnOk result (text.new ≡ text.old ++ 32 ∷ operation_word kind) }
{
    text.word(kind.name())
}

/// Adds a word and an operation's kind.
fn push_operating(text: &mut LineText, word: &[u8], kind: OpKind) -> Result<(), NoMemory>
    ensures { OnOk result (text.new ≡ text.old ++ 32 ∷ (word.now ++ 32 ∷ operation_word kind)) }
{
    text.word(word)?;
    push_operation(text, kind)
}

/// Adds a word and a property's names.
fn push_property(text: &mut LineText, word: &[u8], x: &PropertyName) -> Result<(), NoMemory>
    ensures { OnOk result (text.new ≡ text.old ++ 32 ∷ (word.now ++ spaced (property_words x.now))) }
{
    push_two(text, word, &x.path, &x.interface)?;
    text.text(x.name.as_slice())
}

/// Adds the words of an inhibitor lock.
#[tactic(auto, unfolding(crate::specs::Calls::call_words))]
fn push_inhibition(text: &mut LineText, x: &Inhibition) -> Result<(), NoMemory>
    ensures { OnOk result (text.new ≡ text.old ++ spaced (call_words (Call.Inhibit x.now))) }
{
    push_two(text, b"inhibit", &x.what, &x.who)?;
    text.text(x.why.as_slice())?;
    text.text(x.mode.as_slice())
}

/// Adds a word and two numbers.
fn push_numbers(text: &mut LineText, word: &[u8], first: u32, second: u32) -> Result<(), NoMemory>
    ensures { OnOk result (text.new ≡ text.old ++ 32 ∷ (word.now ++ 32 ∷ (decimal first ++ 32 ∷ decimal second))) }
{
    text.word(word)?;
    text.number(first)?;
    text.number(second)
}

/// Adds a word and a text.
fn push_named(text: &mut LineText, word: &[u8], name: &Word) -> Result<(), NoMemory>
    ensures { OnOk result (text.new ≡ text.old ++ 32 ∷ (word.now ++ 32 ∷ spell_text name.now)) }
{
    text.word(word)?;
    text.text(name.as_slice())
}

/// Adds a word and two texts.
fn push_two(text: &mut LineText, word: &[u8], first: &Word, second: &Word) -> Result<(), NoMemory>
    ensures { OnOk result (text.new ≡ text.old ++ 32 ∷ (word.now ++ 32 ∷ (spell_text first.now ++ 32 ∷ spell_text second.now))) }
{
    text.word(word)?;
    text.text(first.as_slice())?;
    text.text(second.as_slice())
}

/// Adds a word and a session's id.
fn push_session_id(text: &mut LineText, word: &[u8], id: &NamedSession) -> Result<(), NoMemory>
    ensures { OnOk result (text.new ≡ text.old ++ 32 ∷ (word.now ++ 32 ∷ spell_text id.now)) }
{
    push_named(text, word, id.text())
}

/// Adds a word, a session's id and a text.
fn push_session_id_with(
    text: &mut LineText,
    word: &[u8],
    id: &NamedSession,
    second: &Word,
) -> Result<(), NoMemory>
    ensures { OnOk result (text.new ≡ text.old ++ 32 ∷ (word.now ++ 32 ∷ (spell_text id.now ++ 32 ∷ spell_text second.now))) }
{
    push_two(text, word, id.text(), second)
}

/// Adds a word, a session's id and a boolean.
fn push_switched(
    text: &mut LineText,
    word: &[u8],
    id: &NamedSession,
    on: bool,
) -> Result<(), NoMemory>
    ensures { OnOk result (text.new ≡ text.old ++ 32 ∷ (word.now ++ 32 ∷ (spell_text id.now ++ 32 ∷ spell_flag on))) }
{
    push_session_id(text, word, id)?;
    text.flag(on)
}

/// Adds a word, a text and a number.
fn push_placed(text: &mut LineText, word: &[u8], name: &Word, n: u32) -> Result<(), NoMemory>
    ensures { OnOk result (text.new ≡ text.old ++ 32 ∷ (word.now ++ 32 ∷ (spell_text name.now ++ 32 ∷ decimal n))) }
{
    text.word(word)?;
    text.text(name.as_slice())?;
    text.number(n)
}

/// Adds a word, a session's id and a device's number.
fn push_aimed(
    text: &mut LineText,
    word: &[u8],
    id: &NamedSession,
    device: DevNo,
) -> Result<(), NoMemory>
    ensures { OnOk result (text.new ≡ text.old ++ 32 ∷ (word.now ++ 32 ∷ (spell_text id.now ++ spaced (device_words device)))) }
{
    push_session_id(text, word, id)?;
    push_device(text, device)
}

/// Adds a word, a number and a signal.
fn push_signal(text: &mut LineText, word: &[u8], n: u32, signal: i32) -> Result<(), NoMemory>
    ensures { OnOk result (text.new ≡ text.old ++ 32 ∷ (word.now ++ 32 ∷ (decimal n ++ 32 ∷ signed_decimal signal))) }
{
    text.word(word)?;
    text.number(n)?;
    text.signed(signal)
}

#[tactic(auto, unfolding(crate::specs::Calls::call_words))]
fn push_linger(text: &mut LineText, uid: Uid, on: bool) -> Result<(), NoMemory>
    ensures { OnOk result (text.new ≡ text.old ++ spaced (call_words (Call.SetLinger uid on))) }
{
    text.word(b"linger")?;
    text.number(uid.0)?;
    text.flag(on)
}

#[tactic(auto, unfolding(crate::specs::Calls::call_words))]
fn push_kill(
    text: &mut LineText,
    id: &NamedSession,
    who: &Word,
    signal: i32,
) -> Result<(), NoMemory>
    ensures { OnOk result (text.new ≡ text.old ++ spaced (call_words (Call.Kill id.now who.now signal))) }
{
    push_session_id_with(text, b"kill", id, who)?;
    text.signed(signal)
}

/// Adds the words of a call.
#[tactic(auto, unfolding(crate::specs::Calls::call_words))]
pub(crate) fn push_call(text: &mut LineText, call: &Call) -> Result<(), NoMemory>
    ensures { OnOk result (text.new ≡ text.old ++ spaced (call_words call.now)) }
{
    match call {
        Call::Create(x) => push_creation(text, x.get()),
        Call::GetSession(id) => push_session_id(text, b"get-session", id),
        Call::GetUser(uid) => push_numbered(text, b"get-user", uid.0),
        Call::GetSeat(seat) => push_named(text, b"get-seat", seat),
        Call::ListSessions => text.word(b"list-sessions"),
        Call::ListUsers => text.word(b"list-users"),
        Call::ListSeats => text.word(b"list-seats"),
        Call::ListInhibitors => text.word(b"list-inhibitors"),
        Call::Activate(id) => push_session_id(text, b"activate", id),
        Call::ActivateOnSeat(id, seat) => push_session_id_with(text, b"activate-on", id, seat),
        Call::Lock(id) => push_session_id(text, b"lock", id),
        Call::Unlock(id) => push_session_id(text, b"unlock", id),
        Call::LockAll => text.word(b"lock-all"),
        Call::UnlockAll => text.word(b"unlock-all"),
        Call::Kill(id, who, signal) => push_kill(text, id, who, *signal),
        Call::Terminate(id) => push_session_id(text, b"terminate", id),
        Call::TerminateUser(uid) => push_numbered(text, b"terminate-user", uid.0),
        Call::TerminateSeat(seat) => push_named(text, b"terminate-seat", seat),
        Call::SetLinger(uid, on) => push_linger(text, *uid, *on),
        Call::Power(kind) => push_operating(text, b"power", *kind),
        Call::Can(kind) => push_operating(text, b"can", *kind),
        Call::Inhibit(x) => push_inhibition(text, x),
        Call::SetIdle(id, on) => push_switched(text, b"idle", id, *on),
        Call::SetLocked(id, on) => push_switched(text, b"locked", id, *on),
        Call::Control(id, force) => push_switched(text, b"control", id, *force),
        Call::Uncontrol(id) => push_session_id(text, b"uncontrol", id),
        Call::TakeDevice(id, device) => push_aimed(text, b"take", id, *device),
        Call::ReleaseDevice(id, device) => push_aimed(text, b"release", id, *device),
        Call::PauseComplete(id, device) => push_aimed(text, b"paused", id, *device),
        Call::SwitchTo(seat, vt) => push_placed(text, b"switch", seat, *vt),
        Call::SwitchToNext(seat) => push_named(text, b"next", seat),
        Call::SwitchToPrevious(seat) => push_named(text, b"prev", seat),
        Call::KillUser(uid, signal) => push_signal(text, b"kill-user", uid.0, *signal),
        Call::ReadInput(handle) => push_numbered(text, b"read", handle.0),
        Call::SetMode(handle, mode) => push_numbers(text, b"set-mode", handle.0, *mode),
        Call::Close(handle) => push_numbered(text, b"close", handle.0),
        Call::GetProperty(x) => push_property(text, b"get", x),
        Call::GetAllProperties(path, interface) => push_two(text, b"get-all", path, interface),
        Call::SetProperty(x) => push_property(text, b"set", x),
        Call::Ping => text.word(b"ping"),
        Call::GetMachineId => text.word(b"machine-id"),
        Call::Hello => text.word(b"hello"),
        Call::GetNameOwner(name) => push_named(text, b"owner", name),
        Call::AddMatch(rule) => push_named(text, b"add-match", rule),
        Call::RemoveMatch(rule) => push_named(text, b"remove-match", rule),
        Call::NoCall => text.word(b"nothing"),
        Call::NoObject => text.word(b"no-object"),
        Call::NoMethod => text.word(b"no-method"),
        Call::BadArguments => text.word(b"bad-args"),
    }
}
