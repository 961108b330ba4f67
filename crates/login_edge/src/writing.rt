// Writing a whole text to a sink that takes it in pieces.

ghost use Rattle.login_edge.specs.Writing.{WrittenAs, WriteRose};

use crate::{Sink, Took};

/// How the writing of a text ended.
#[derive(Clone, Copy, Debug, PartialEq, Eq)]
pub enum WriteEnd {
    /// The whole text was taken.
    Done,
    /// A write failed. A front of the text was taken, maybe none of it.
    Fault,
}

/// Writes the whole text, in as many writes as the sink wants. It stops at the first write that fails.
/// It takes no memory.
pub fn write_all<K: Sink>(sink: &mut K, text: &[u8]) -> WriteEnd
    ensures gives { WrittenAs (K.held sink.old) (K.held sink.new) result text.now }
    ensures cause { WriteRose (K.faults sink.old) (K.faults sink.new) result }
{
    let mut done = 0;
    while done < text.len() {
        match sink.write(&text[done..]) {
            Took::Bytes(n) => done += n,
            Took::Failed => return WriteEnd::Fault,
        }
    }
    WriteEnd::Done
}
