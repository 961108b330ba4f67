// Parts of the transcript are written.

ghost use Rattle.replay.specs.Rising.{Rises};
ghost use Rattle.replay.specs.Early.{failed};
ghost use Rattle.replay.specs.inner.Early.{of_writing};
ghost use Rattle.replay.specs.inner.Writing.{Writes};

use crate::early::Early;
use login_edge::{Sink, WriteEnd, write_all};

/// Writes a text of the transcript.
pub fn write_text<K: Sink>(sink: &mut K, text: &[u8]) -> Result<(), Early>
    ensures gives { Writes (K.held sink.old) (K.held sink.new) text.now result }
    ensures cause { Rises (failed of_writing result) (K.faults sink.old) (K.faults sink.new) }
{
    match write_all(sink, text) {
        WriteEnd::Done => Ok(()),
        WriteEnd::Fault => Err(Early::WriteFault),
    }
}
