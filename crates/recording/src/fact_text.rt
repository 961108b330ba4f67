// How facts are printed.

ghost use Rattle.std.specs.Prelude.{◌≡◌, ◌++◌, ◌∷◌, OnOk, IfOk};
ghost use Rattle.login_model.specs.Words.{type_word, class_word, whom_word, mode_word, what_text};
ghost use Rattle.recording.specs.MarkWords.{absent_word, session_words_at, or_dash, owner_words, lock_words, skip_word, progress_words, fact_words};
ghost use Rattle.login_model.specs.inner.Prefixed.{spaced};

use crate::call::push_operation;
use crate::event_text::push_device_kind;
use crate::key_text::push_device_word;
use crate::line_text::LineText;
use login_base::{NoMemory, SeatName};
use login_model::{
    Class, Fact, Inhibited, Key, KillWhom, Lock, LockMode, Operation, Owner, Phase, Session,
    SessionType,
};

/// Adds that nothing is there.
fn push_absent(text: &mut LineText, key: &Key) -> Result<(), NoMemory>
    ensures { OnOk result (text.new ≡ text.old ++ 32 ∷ absent_word key.now) }
{
    match key {
        Key::Conn(_) => text.word(b"gone"),
        Key::User(_) => text.word(b"absent"),
        Key::Seat(_) => text.word(b"absent"),
        Key::Dev(_) => text.word(b"absent"),
        _ => text.word(b"-"),
    }
}

fn push_type(text: &mut LineText, session_type: SessionType) -> Result<(), NoMemory>
    ensures { OnOk result (text.new ≡ text.old ++ 32 ∷ type_word session_type) }
{
    text.word(session_type.name())
}

fn push_class(text: &mut LineText, class: Class) -> Result<(), NoMemory>
    ensures { OnOk result (text.new ≡ text.old ++ 32 ∷ class_word class) }
{
    text.word(class.name())
}

/// Adds a seat's name, or `-` for none.
fn push_seat(text: &mut LineText, seat: Option<SeatName>) -> Result<(), NoMemory>
    ensures { OnOk result (text.new ≡ text.old ++ 32 ∷ or_dash seat) }
{
    match seat {
        Some(name) => {
            text.push(b" ")?;
            text.push(name.as_slice())
        }
        None => text.push(b" -"),
    }
}

#[tactic(auto, unfolding(crate::specs::MarkWords::session_words_at))]
fn push_session_fact(text: &mut LineText, x: &Session) -> Result<(), NoMemory>
    ensures { OnOk result (text.new ≡ text.old ++ spaced (session_words_at x.now.phase x.now)) }
{
    match x.phase {
        Phase::Open => {
            text.push(b" open")?;
            text.number(x.uid.0)?;
            push_seat(text, x.seat)?;
            text.number(x.vt)?;
            push_type(text, x.session_type)?;
            push_class(text, x.class)
        }
        Phase::Closing => text.push(b" closing"),
        Phase::Gone => text.push(b" gone"),
    }
}

fn push_kill_whom(text: &mut LineText, whom: KillWhom) -> Result<(), NoMemory>
    ensures { OnOk result (text.new ≡ text.old ++ 32 ∷ whom_word whom) }
{
    text.word(whom.name())
}

#[tactic(auto, unfolding(crate::specs::MarkWords::owner_words))]
fn push_owner(text: &mut LineText, owner: &Owner) -> Result<(), NoMemory>
    ensures { OnOk result (text.new ≡ text.old ++ spaced (owner_words owner.now)) }
{
    match owner {
        Owner::Device(who, session, device) => {
            text.word(b"device")?;
            text.number(who.0)?;
            text.session(*session)?;
            push_device_word(text, *device)
        }
        Owner::Fifo(who, session) => {
            text.word(b"fifo")?;
            text.number(who.0)?;
            text.session(*session)
        }
        Owner::Lock(who, lock) => {
            text.word(b"lock")?;
            text.number(who.0)?;
            text.number(lock.0)
        }
        Owner::Closed => text.word(b"closed"),
    }
}

/// Adds what a lock holds up as one word.
pub(crate) fn push_what(text: &mut LineText, what: &Inhibited) -> Result<(), NoMemory>
    ensures { OnOk result (text.new ≡ text.old ++ what_text what.now) }
{
    let word = what.text(text.alloc())?;
    text.push(word.as_slice())
}

pub(crate) fn push_mode(text: &mut LineText, mode: LockMode) -> Result<(), NoMemory>
    ensures { OnOk result (text.new ≡ text.old ++ 32 ∷ mode_word mode) }
{
    text.word(mode.name())
}

fn push_lock(text: &mut LineText, lock: &Lock) -> Result<(), NoMemory>
    ensures { OnOk result (text.new ≡ text.old ++ spaced (lock_words lock.now)) }
{
    text.push(b" ")?;
    push_what(text, &lock.what)?;
    push_mode(text, lock.mode)?;
    text.number(lock.uid.0)
}

fn push_skip(text: &mut LineText, skip: bool) -> Result<(), NoMemory>
    ensures { OnOk result (text.new ≡ text.old ++ 32 ∷ skip_word skip) }
{
    if skip {
        text.word(b"skip")
    } else {
        text.word(b"noskip")
    }
}

fn push_progress(text: &mut LineText, operation: &Operation) -> Result<(), NoMemory>
    ensures { OnOk result (text.new ≡ text.old ++ spaced (progress_words operation.now)) }
{
    match operation {
        Operation::Idle => text.word(b"idle"),
        Operation::Waiting(kind, since, skip) => {
            text.word(b"waiting")?;
            push_operation(text, *kind)?;
            text.moment(since.0)?;
            push_skip(text, *skip)
        }
        Operation::Running(kind) => {
            text.word(b"running")?;
            push_operation(text, *kind)
        }
    }
}

/// Adds the words of a key's fact.
#[tactic(auto, unfolding(crate::specs::MarkWords::fact_words))]
pub(crate) fn push_fact(text: &mut LineText, key: &Key, fact: &Fact) -> Result<(), NoMemory>
    ensures { OnOk result (text.new ≡ text.old ++ spaced (fact_words key.now fact.now)) }
{
    match fact {
        Fact::Absent => push_absent(text, key),
        Fact::Connected(uid) => text.number(uid.0),
        Fact::Session(x) => push_session_fact(text, x.get()),
        Fact::Flag(on) => text.flag(*on),
        Fact::Signal(whom, n) => {
            push_kill_whom(text, *whom)?;
            text.signed(*n)
        }
        Fact::Controller(who) => text.number(who.0),
        Fact::Known => text.word(b"known"),
        Fact::Leaving(since) => {
            text.word(b"leaving")?;
            text.moment(since.0)
        }
        Fact::Owned(owner) => push_owner(text, owner),
        Fact::Handle(handle) => text.number(handle.0),
        Fact::Present => text.word(b"present"),
        Fact::Active(session) => text.session(*session),
        Fact::Number(n) => text.number(*n),
        Fact::Moment(moment) => text.moment(moment.0),
        Fact::Device(kind, seat) => {
            push_device_kind(text, *kind)?;
            text.word(seat.get().as_slice())
        }
        Fact::Lock(lock) => push_lock(text, lock.get()),
        Fact::Operation(operation) => push_progress(text, operation),
    }
}
