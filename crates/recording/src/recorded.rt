// The recording of a journal: the lines of its setup, and a line for each of its events.

ghost use Rattle.std.specs.Prelude.{ℕ, ◌≡◌, ◌<◌, ◌∷◌, List, IfOk};
ghost use Rattle.std.specs.List.{AllByRecursion};
ghost use Rattle.std.specs.Option.{option_map};
ghost use Rattle.login_model.specs.Setups.{AreDistinct, IsSetup, IsUserRow};
ghost use Rattle.recording.specs.Lines.{spell};
ghost use Rattle.recording.specs.Recorded.{FaultRises, Writes, recording_text};
ghost use Rattle.recording.specs.inner.Parts.{IsNextUser, events_text, front_text, line_of, lines_text, nearer, setup_text, users_text, word_text};

use crate::entry::WriteEnd;
use crate::event_text::push_event;
use crate::line::Line;
use crate::line_text::LineText;
use login_base::{NoMemory, Uid, Word, first_line};
use login_edge::{Sink, WriteEnd as Written, write_all};
use login_model::{Entry, Event, Journal, Setup, UserRow};
use std::alloc::Global;

/// Writes a text.
fn write_text<K: Sink>(sink: &mut K, text: &[u8]) -> Result<(), WriteEnd>
    ensures gives { Writes (K.held sink.old) (K.held sink.new) text.now result }
    ensures cause { FaultRises (K.faults sink.old) (K.faults sink.new) result }
{
    match write_all(sink, text) {
        Written::Done => Ok(()),
        Written::Fault => Err(WriteEnd::WriteFault),
    }
}

/// Writes a text, if there was memory for it.
fn write_made<K: Sink>(sink: &mut K, made: Result<Word, NoMemory>) -> Result<(), WriteEnd>
    ensures gives { (text : List ℕ) → IfOk made (λ word. word ≡ text) → Writes (K.held sink.old) (K.held sink.new) text result }
    ensures cause { FaultRises (K.faults sink.old) (K.faults sink.new) result }
{
    match made {
        Ok(text) => write_text(sink, text.as_slice()),
        Err(NoMemory) => Err(WriteEnd::NoMemory),
    }
}

/// The line of a user.
fn user_text(alloc: Global, row: &UserRow) -> Result<Word, NoMemory>
    ensures { IfOk result (λ text. text ≡ spell (Line.User row.now)) }
{
    let mut text = LineText::new(alloc);
    text.push(b"user")?;
    text.number(row.uid.0)?;
    text.number(row.gid)?;
    text.text(row.name.as_slice())?;
    text.push(b"\n")?;
    Ok(text.into_word())
}

/// The line of an event, behind a space.
fn event_text(alloc: Global, event: &Event) -> Result<Word, NoMemory>
    ensures { IfOk result (λ text. text ≡ 32 ∷ spell (Line.Event event.now)) }
{
    let mut text = LineText::new(alloc);
    push_event(&mut text, event)?;
    text.push(b"\n")?;
    Ok(text.into_word())
}

/// A line of this word and of what stands behind it.
fn word_text(alloc: Global, word: &[u8], behind: &[u8]) -> Result<Word, NoMemory>
    ensures { IfOk result (λ text. text ≡ word_text word.now behind.now) }
{
    let mut text = LineText::new(alloc);
    text.push(word)?;
    text.word(behind)?;
    text.push(b"\n")?;
    Ok(text.into_word())
}

/// Which of the two texts of a setup a line is of.
#[derive(Clone, Copy)]
enum RawText {
    Conf,
    Table,
}

/// A line of one of these texts.
fn raw_line(alloc: Global, text: RawText, line: &[u8]) -> Result<Word, NoMemory>
    ensures { IfOk result (λ written. written ≡ spell (line_of text line.now)) }
{
    match text {
        RawText::Conf => {
            if line.is_empty() {
                Word::from_slice(alloc, b"conf\n")
            } else {
                word_text(alloc, b"conf", line)
            }
        }
        RawText::Table => word_text(alloc, b"action", line),
    }
}

/// Of the users above this one, the one with the lesser number.
fn nearer<'a>(last: Uid, next: Option<&'a UserRow>, row: &'a UserRow) -> Option<&'a UserRow>
    ensures { option_map (λ r. r.now) result ≡ nearer last.0 (option_map (λ r. r.now) next.entry) row.now }
{
    if row.uid.0 <= last.0 {
        return next;
    }
    match next {
        Some(least) => {
            if row.uid.0 < least.uid.0 {
                Some(row)
            } else {
                Some(least)
            }
        }
        None => Some(row),
    }
}

/// The user with the least number above this one.
fn next_user(users: &[UserRow], last: Uid) -> Option<&UserRow>
    ensures { IsNextUser users.now last.0 (option_map (λ r. r.now) result) }
{
    let mut next = None;
    for row in users {
        next = nearer(last, next, row);
    }
    next
}

/// Writes the lines of users in the order of their numbers. There are at most 1024 users, so each next one is
/// looked for, and no list of them is made.
fn write_users<K: Sink>(alloc: Global, users: &[UserRow], sink: &mut K) -> Result<(), WriteEnd>
    requires rows { AllByRecursion IsUserRow users.now }
    requires distinct { AreDistinct users.now }
    ensures gives { Writes (K.held sink.old) (K.held sink.new) (users_text users.now) result }
    ensures cause { FaultRises (K.faults sink.old) (K.faults sink.new) result }
{
    let mut last = Uid(0);
    while let Some(row) = next_user(users, last) {
        write_made(sink, user_text(alloc, row))?;
        last = row.uid;
    }
    Ok(())
}

/// Writes the lines of one of the texts.
fn write_lines<K: Sink>(
    alloc: Global,
    text: RawText,
    bytes: &[u8],
    sink: &mut K,
) -> Result<(), WriteEnd>
    ensures gives { Writes (K.held sink.old) (K.held sink.new) (lines_text text bytes.now) result }
    ensures cause { FaultRises (K.faults sink.old) (K.faults sink.new) result }
{
    let mut rest = bytes;
    while let Some((line, behind)) = first_line(rest) {
        write_made(sink, raw_line(alloc, text, line))?;
        rest = behind;
    }
    Ok(())
}

/// Writes the first line, and the identity. It takes no memory.
fn write_front<K: Sink>(guid: &Word, sink: &mut K) -> Result<(), WriteEnd>
    ensures gives { Writes (K.held sink.old) (K.held sink.new) (front_text guid.now) result }
    ensures cause { FaultRises (K.faults sink.old) (K.faults sink.new) result }
{
    write_text(sink, b"login-recording 1\nguid ")?;
    write_text(sink, guid.as_slice())?;
    write_text(sink, b"\n")
}

/// Writes the lines of a setup, and what is in front of them.
fn write_setup<K: Sink>(alloc: Global, setup: &Setup, sink: &mut K) -> Result<(), WriteEnd>
    requires { IsSetup setup.now }
    ensures gives { Writes (K.held sink.old) (K.held sink.new) (setup_text setup.now) result }
    ensures cause { FaultRises (K.faults sink.old) (K.faults sink.new) result }
{
    write_front(&setup.guid, sink)?;
    write_users(alloc, setup.users.as_slice(), sink)?;
    write_lines(alloc, RawText::Conf, setup.conf_text.as_slice(), sink)?;
    write_lines(alloc, RawText::Table, setup.table_text.as_slice(), sink)
}

/// Writes the line of an event.
fn write_event<K: Sink>(alloc: Global, event: &Event, sink: &mut K) -> Result<(), WriteEnd>
    ensures gives { Writes (K.held sink.old) (K.held sink.new) (spell (Line.Event event.now)) result }
    ensures cause { FaultRises (K.faults sink.old) (K.faults sink.new) result }
{
    match event_text(alloc, event) {
        Ok(text) => write_text(sink, &text.as_slice()[1..]),
        Err(NoMemory) => Err(WriteEnd::NoMemory),
    }
}

/// Writes the lines of the events.
fn write_events<K: Sink>(alloc: Global, entries: &[Entry], sink: &mut K) -> Result<(), WriteEnd>
    ensures gives { Writes (K.held sink.old) (K.held sink.new) (events_text entries.now) result }
    ensures cause { FaultRises (K.faults sink.old) (K.faults sink.new) result }
{
    for entry in entries {
        write_event(alloc, &entry.event, sink)?;
    }
    Ok(())
}

/// Writes the recording of a journal under this setup: the lines of the setup, its users in the order of their
/// numbers, and a line for each event. It holds one line at a time. Where it ends early, the sink took a front
/// of the recording, maybe none of it; where there was no memory, that front is of whole lines.
pub fn write_recording<K: Sink>(
    alloc: Global,
    setup: &Setup,
    journal: &Journal,
    sink: &mut K,
) -> Result<(), WriteEnd>
    requires { IsSetup setup.now }
    ensures gives { Writes (K.held sink.old) (K.held sink.new) (recording_text setup.now journal.now.items) result }
    ensures cause { FaultRises (K.faults sink.old) (K.faults sink.new) result }
{
    write_setup(alloc, setup, sink)?;
    write_text(sink, b"go\n")?;
    write_events(alloc, journal.as_slice(), sink)?;
    write_text(sink, b"end\n")
}
