// How entries of the journal are printed.

ghost use Rattle.std.specs.Prelude.{◌≡◌, ◌++◌, ◌∷◌, [], OnOk, IfOk};
ghost use Rattle.std.specs.List.{flat_map};
ghost use Rattle.login_edge.specs.Faults.{Rose};
ghost use Rattle.login_edge.specs.Texts.{Gains, GainsFront};
ghost use Rattle.login_model.specs.declared.mark.Mark.{Mark};
ghost use Rattle.recording.specs.Print.{block, mark_words};
ghost use Rattle.login_model.specs.inner.Prefixed.{spaced};

use crate::event_text::push_event;
use crate::line_text::LineText;
use crate::mark_text::push_mark;
use crate::verdict_text::push_verdict;
use login_base::{NoMemory, Word};
use login_edge::{Sink, WriteEnd as Written, write_all};
use login_model::{Entry, Mark};
use std::alloc::Global;

/// Why a text was not written whole.
#[derive(Clone, Copy, Debug, PartialEq, Eq)]
pub enum WriteEnd {
    /// A write failed. The sink took a front of the text, maybe none of it.
    WriteFault,
    /// There was no memory. Of one entry or one line nothing was written.
    NoMemory,
}

/// Adds the marks, each as a line.
fn push_marks(text: &mut LineText, marks: &[Mark]) -> Result<(), NoMemory>
    ensures { OnOk result (text.new ≡ text.old ++ flat_map (λ (m : Mark). spaced (mark_words m) ++ 10 ∷ []) marks.now) }
{
    for mark in marks {
        push_mark(text, mark)?;
        text.push(b"\n")?;
    }
    Ok(())
}

/// The lines that a transcript has of an entry with this number (from 1): the event, the verdict with
/// what it names or answers, and each mark.
pub fn entry_text(alloc: Global, number: u32, entry: &Entry) -> Result<Word, NoMemory>
    ensures { IfOk result (λ text. text ≡ block number entry.now) }
{
    let mut text = LineText::new(alloc);
    text.digits(number)?;
    push_event(&mut text, &entry.event)?;
    text.push(b"\n")?;
    push_verdict(&mut text, entry.verdict, &entry.answer)?;
    text.push(b"\n")?;
    push_marks(&mut text, entry.marks.as_slice())?;
    Ok(text.into_word())
}

/// Writes the lines that a transcript has of an entry with this number (from 1).
pub fn write_entry<K: Sink>(
    alloc: Global,
    number: u32,
    entry: &Entry,
    sink: &mut K,
) -> Result<(), WriteEnd>
    ensures wrote { OnOk result (Gains (K.held sink.old) (K.held sink.new) (block number entry.now)) }
    ensures faults { OnOk result (K.faults sink.new ≡ K.faults sink.old) }

    ensures front { result ≡ Err WriteEnd.WriteFault
        → GainsFront (K.held sink.old) (K.held sink.new) (block number entry.now) }
    ensures cause { result ≡ Err WriteEnd.WriteFault → Rose (K.faults sink.old) (K.faults sink.new) }

    ensures no_memory { result ≡ Err WriteEnd.NoMemory → sink.new ≡ sink.old }
{
    let Ok(text) = entry_text(alloc, number, entry) else {
        return Err(WriteEnd::NoMemory);
    };
    match write_all(sink, text.as_slice()) {
        Written::Done => Ok(()),
        Written::Fault => Err(WriteEnd::WriteFault),
    }
}
