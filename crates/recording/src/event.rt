// How the words of events and of links are read.

ghost use Rattle.std.specs.Prelude.{◌≡◌, [], ◌∷◌, map};
ghost use Rattle.recording.specs.declared.argument.WordKind.{WordKind};
ghost use Rattle.recording.specs.Shapes.{behind_in, event_shapes, hardware_shapes, link_shapes};
ghost use Rattle.recording.specs.Causes.{first_fault, known_fault, call_fault};
ghost use Rattle.recording.specs.inner.Arguments.{Reads};
ghost use Rattle.recording.specs.inner.LineReadings.{request_of, event_line_of, hardware_line_of, link_line_of};

use crate::argument::{Argument, Positive, SessionName, read, read_alone};
use crate::call::read_call;
use crate::line::{Line, LineFault};
use crate::word::is_word;
use login_base::ConnId;
use login_model::{Event, Hardware, Request};
use std::alloc::Global;

/// A link that opens, has input or ends, or the last line.
#[tactic(auto, unfolding(crate::specs::inner::LineReadings::link_line_of))]
fn read_link_line(alloc: Global, word: &[u8], words: &[&[u8]]) -> Result<Line, LineFault>
    ensures { Reads (link_line_of word.now (map (λ word. word.now) words.now)) (known_fault (behind_in word.now link_shapes) (map (λ word. word.now) words.now)) result }
{
    if is_word(word, b"link") {
        let (who, uid) = read(alloc, words)?;
        Ok(Line::Link(who, uid))
    } else if is_word(word, b"in") {
        let (who, bytes) = read(alloc, words)?;
        Ok(Line::In(who, bytes))
    } else if is_word(word, b"hangup") {
        Ok(Line::Hangup(read(alloc, words)?))
    } else if is_word(word, b"end") {
        read_alone(Line::End, words)
    } else {
        Err(LineFault::UnknownWord)
    }
}

/// An event of the hardware, or one of the others.
#[tactic(auto, unfolding(crate::specs::inner::LineReadings::hardware_line_of))]
fn read_hardware_line(alloc: Global, word: &[u8], words: &[&[u8]]) -> Result<Line, LineFault>
    ensures { Reads (hardware_line_of word.now (map (λ word. word.now) words.now)) (known_fault (behind_in word.now hardware_shapes) (map (λ word. word.now) words.now)) result }
{
    if is_word(word, b"add") {
        let (device, (kind, seat)) = read(alloc, words)?;
        Ok(Line::Event(Event::Hardware(Hardware::Add(device, kind, seat))))
    } else if is_word(word, b"remove") {
        Ok(Line::Event(Event::Hardware(Hardware::Remove(read(alloc, words)?))))
    } else if is_word(word, b"input") {
        let (device, (input_type, (code, value))) = read(alloc, words)?;
        Ok(Line::Event(Event::Hardware(Hardware::Input(device, input_type, code, value))))
    } else if is_word(word, b"vtkey") {
        Ok(Line::Event(Event::Hardware(Hardware::VtKey(read(alloc, words)?))))
    } else if is_word(word, b"key") {
        Ok(Line::Event(Event::Hardware(Hardware::Key(read(alloc, words)?))))
    } else if is_word(word, b"dock") {
        Ok(Line::Event(Event::Hardware(Hardware::Dock(read(alloc, words)?))))
    } else if is_word(word, b"exit") {
        let SessionName(id) = read(alloc, words)?;
        Ok(Line::Event(Event::Hardware(Hardware::Exit(id))))
    } else if is_word(word, b"jobdone") {
        read_alone(Line::Event(Event::Hardware(Hardware::JobDone)), words)
    } else {
        read_link_line(alloc, word, words)
    }
}

/// An event that is no call, or one of the others.
#[tactic(auto, unfolding(crate::specs::inner::LineReadings::event_line_of))]
pub(crate) fn read_event_line(
    alloc: Global,
    word: &[u8],
    words: &[&[u8]],
) -> Result<Line, LineFault>
    ensures { Reads (event_line_of word.now (map (λ word. word.now) words.now)) (known_fault (behind_in word.now event_shapes) (map (λ word. word.now) words.now)) result }
{
    if is_word(word, b"connect") {
        let (who, uid) = read(alloc, words)?;
        Ok(Line::Event(Event::Connect(who, uid)))
    } else if is_word(word, b"disconnect") {
        Ok(Line::Event(Event::Disconnect(read(alloc, words)?)))
    } else if is_word(word, b"tick") {
        Ok(Line::Event(Event::Tick(read(alloc, words)?)))
    } else if is_word(word, b"stop") {
        read_alone(Line::Event(Event::Stop), words)
    } else {
        read_hardware_line(alloc, word, words)
    }
}

/// A call, by whether a reply is expected.
pub(crate) fn read_request(alloc: Global, quiet: bool, words: &[&[u8]]) -> Result<Line, LineFault>
    ensures { Reads (request_of quiet (map (λ word. word.now) words.now)) (first_fault (WordKind.Positive ∷ WordKind.Positive ∷ []) call_fault (map (λ word. word.now) words.now)) result }
{
    let ((who, Positive(serial)), words) = <(ConnId, Positive)>::take(alloc, words)?;
    let call = read_call(alloc, words)?;
    Ok(Line::Event(Event::Call(Request {
        who,
        serial,
        quiet,
        call,
    })))
}
