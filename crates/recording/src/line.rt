// The lines of a recording.

ghost use Rattle.std.specs.Prelude.{◌≡◌, ◌≢◌, ◌⊎◌, Ok, Err, ◌++◌, ◌∷◌, [], map, IfOk, ◌==◌, Some, None};
ghost use Rattle.std.specs.List.{slice_split, join_with_byte, list_any};
ghost use Rattle.recording.specs.Lines.{IsLine};
ghost use Rattle.recording.specs.declared.argument.WordKind.{WordKind};
ghost use Rattle.recording.specs.Shapes.{behind_in, line_shapes};
ghost use Rattle.recording.specs.Causes.{first_fault, end_fault, known_fault, line_fault, words_fault};
ghost use Rattle.recording.specs.Meaning.{IsReadAs};
ghost use Rattle.recording.specs.inner.Meaning.{Means};
ghost use Rattle.recording.specs.inner.Arguments.{Reads};
ghost use Rattle.recording.specs.inner.LineReadings.{action_of, known_line_of, line_of};

use crate::argument::{Guid, Positive, UserName, Version, read, read_alone};
use crate::event::{read_event_line, read_request};
use crate::meaning::meant;
use crate::word::{LONGEST_TEXT, is_word};
use login_base::{Bytes, ConnId, Uid, Word};
use login_model::{Event, UserRow};
use std::alloc::{AllocError, Global};

/// A line of a recording.
#[derive(Drop)]
pub enum Line {
    /// The first line, with the version of the form.
    Header(u8),
    /// The identity of the server: 32 hex digits.
    Guid(Word),
    /// A user of the machine.
    User(UserRow),
    /// A line of the configuration, as it is written.
    Conf(Bytes),
    /// A line of the table of actions: four words, as they are written.
    Action(Bytes),
    /// The setup is whole; events follow.
    Go,
    Event(Event),
    /// A link of this user opens.
    Link(ConnId, Uid),
    /// Bytes come in on a link.
    In(ConnId, Bytes),
    /// The input of a link ends.
    Hangup(ConnId),
    End,
}

/// Why a line is not read. Where several hold, the first from the left of the line counts, behind its
/// length and its line feed.
#[derive(Clone, Copy, Debug, PartialEq, Eq)]
pub enum LineFault {
    /// A word is none of a fixed set.
    UnknownWord,
    /// A word is no number within its type, or a 0 that may not be.
    BadNumber,
    /// A word is no text, or no bytes in hex.
    BadHex,
    /// The line ends where a word must stand.
    MissingWord,
    /// A word stands behind the last one, or bytes behind the line feed.
    ExtraWord,
    /// There are more than 16384 bytes before the line feed.
    TooLong,
    /// A word is no name of a seat, or a name or an id that is too long.
    BadName,
    /// There is no line feed.
    Ended,
    NoMemory,
}

/// The words with a space between any two.
fn joined(alloc: Global, words: &[&[u8]]) -> Result<Bytes, LineFault>
    ensures { IfOk result (λ bytes. bytes ≡ join_with_byte 32 (map (λ word. word.now) words.now)) }
{
    let mut bytes = Vec::new(alloc);
    let mut is_first = true;
    for word in words {
        if !is_first && bytes.push(b' ').is_err() {
            return Err(LineFault::NoMemory);
        }
        if bytes.extend_from_slice(word).is_err() {
            return Err(LineFault::NoMemory);
        }
        is_first = false;
    }
    Ok(Bytes::from_vec(bytes))
}

/// A line of the table of actions: four words, whatever they are.
fn read_action(alloc: Global, words: &[&[u8]]) -> Result<Line, LineFault>
    ensures { Reads (action_of (map (λ word. word.now) words.now)) (first_fault (WordKind.Anything ∷ WordKind.Anything ∷ WordKind.Anything ∷ WordKind.Anything ∷ []) end_fault (map (λ word. word.now) words.now)) result }
{
    match words {
        [_, _, _, _] => match joined(alloc, words) {
            Ok(text) => Ok(Line::Action(text)),
            Err(_) => Err(LineFault::NoMemory),
        },
        [_, _, _, _, ..] => Err(LineFault::ExtraWord),
        _ => Err(LineFault::MissingWord),
    }
}

/// A line of the preamble, or another that is no call.
#[tactic(auto, unfolding(crate::specs::inner::LineReadings::known_line_of))]
fn read_known_line(alloc: Global, word: &[u8], words: &[&[u8]]) -> Result<Line, LineFault>
    ensures { Reads (known_line_of word.now (map (λ word. word.now) words.now)) (known_fault (behind_in word.now line_shapes) (map (λ word. word.now) words.now)) result }
{
    if is_word(word, b"login-recording") {
        let Version(version) = read(alloc, words)?;
        Ok(Line::Header(version))
    } else if is_word(word, b"guid") {
        let Guid(guid) = read(alloc, words)?;
        Ok(Line::Guid(guid))
    } else if is_word(word, b"user") {
        let (Positive(uid), (gid, UserName(name))) = read(alloc, words)?;
        let uid = Uid(uid);
        Ok(Line::User(UserRow { uid, gid, name }))
    } else if is_word(word, b"action") {
        read_action(alloc, words)
    } else if is_word(word, b"go") {
        read_alone(Line::Go, words)
    } else {
        read_event_line(alloc, word, words)
    }
}

/// A line, as it is written.
#[tactic(auto, unfolding(crate::specs::inner::LineReadings::line_of))]
fn read_words(alloc: Global, words: &[&[u8]]) -> Result<Line, LineFault>
    ensures { Reads (line_of (map (λ word. word.now) words.now)) (words_fault (map (λ word. word.now) words.now)) result }
{
    let Some((word, words)) = words.split_first() else {
        return Err(LineFault::UnknownWord);
    };
    if is_word(word, b"call") {
        read_request(alloc, false, words)
    } else if is_word(word, b"send") {
        read_request(alloc, true, words)
    } else if is_word(word, b"conf") {
        match joined(alloc, words) {
            Ok(text) => Ok(Line::Conf(text)),
            Err(_) => Err(LineFault::NoMemory),
        }
    } else {
        read_known_line(alloc, word, words)
    }
}

/// What a written line means. It is refused for want of memory alone.
fn meant_line(alloc: Global, line: Line) -> Result<Line, LineFault>
    ensures { Means line result }
{
    match line {
        Line::Event(event) => match meant(alloc, event) {
            Ok(event) => Ok(Line::Event(event)),
            Err(_) => Err(LineFault::NoMemory),
        },
        other => Ok(other),
    }
}

/// The words of a text, which single spaces part.
fn words(alloc: Global, text: &[u8]) -> Result<Vec<&[u8]>, AllocError>
    ensures { IfOk result (λ words. map (λ word. word.now) words.items ≡ slice_split (λ b. b == 32) text.now) }
{
    text.split(|b| *b == 32).collect(alloc)
}

/// Whether a text goes on behind a line feed.
fn has_feed(text: &[u8]) -> bool
    ensures { result ≡ list_any (λ b. b == 10) text.now }
{
    text.iter().any(|b| *b == b'\n')
}

/// Reads a line, with its line feed if it has one: the bytes through the first line feed, or all that
/// there are, if there is none.
pub fn read_line(alloc: Global, bytes: &[u8]) -> Result<Line, LineFault>
    ensures found { IfOk result (λ line. IsReadAs bytes.now line) }
    ensures fits { IfOk result (λ line. IsLine line) }
    ensures read { (line : Line) → IsReadAs bytes.now line → (result ≡ Ok line) ⊎ (result ≡ Err LineFault.NoMemory) }
    ensures cause { (fault : LineFault) → result ≡ Err fault → fault ≢ LineFault.NoMemory → line_fault bytes.now ≡ Some fault }
    ensures refused { (fault : LineFault) → line_fault bytes.now ≡ Some fault → (result ≡ Err fault) ⊎ (result ≡ Err LineFault.NoMemory) }
{
    let Some((last, text)) = bytes.split_last() else {
        return Err(LineFault::Ended);
    };
    let is_whole = *last == b'\n';
    if text.len() > LONGEST_TEXT || (!is_whole && bytes.len() > LONGEST_TEXT) {
        return Err(LineFault::TooLong);
    }
    if !is_whole {
        return Err(LineFault::Ended);
    }
    if has_feed(text) {
        return Err(LineFault::ExtraWord);
    }
    let Ok(words) = words(alloc, text) else {
        return Err(LineFault::NoMemory);
    };
    match read_words(alloc, &words) {
        Ok(line) => meant_line(alloc, line),
        Err(fault) => Err(fault),
    }
}
