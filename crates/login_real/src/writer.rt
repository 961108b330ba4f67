// A writer of std as a sink. It counts its faults, and tells the bytes that its writer tells.

ghost use Rattle.std.specs.Prelude.{◌≡◌};

use login_edge::{Sink, Took};
use std::io::Write;
use std::marker::Model;
use std::snapshot::Snapshot;

/// A writer as a sink, such as standard output and standard error. It has no buffer of its own: a byte
/// counts as taken only once the writer took it. What was written is told where the writer tells it; a
/// stream of the system tells nothing.
#[derive(Drop)]
pub struct WriterSink<W: Write> {
    writer: W,
    /// The writer as it came. One that told nothing then is taken to tell nothing.
    first: Snapshot<W>,
    faults: u64,
}

impl<W: Write> Model for WriterSink<W> {
    ghost use Rattle.login_real.specs.Streams.{SinkState};
    ghost use Rattle.login_real.specs.inner.Streams.{told_since, TellsOn};

    ghost Value = { SinkState };

    ghost view = { λ s. record {
      held = told_since (W.contents s.first.value) (W.contents s.writer);
      faults = s.faults;
    } };

    ghost invariant = { λ s. TellsOn (W.contents s.first.value) (W.contents s.writer) };
}

impl<W: Write> WriterSink<W> {
    /// The writer with no fault so far.
    pub fn new(writer: W) -> WriterSink<W>
        ensures held { result.held ≡ W.contents writer }
        ensures faults { result.faults ≡ 0 }
    {
        let first = Snapshot::of(&writer);
        WriterSink {
            writer,
            first,
            faults: 0,
        }
    }
}

impl<W: Write> Sink for WriterSink<W> {
    ghost held = { λ s. s.held };

    ghost faults = { λ s. s.faults };

    fn write(&mut self, piece: &[u8]) -> Took {
        match self.writer.write(piece) {
            Ok(n) if n > 0 => Took::Bytes(n),
            _ => {
                self.faults = self.faults.saturating_add(1);
                Took::Failed
            }
        }
    }
}
