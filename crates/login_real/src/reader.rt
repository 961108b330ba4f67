// A reader of std as a source. It counts its faults, and tells the bytes that its reader tells.

ghost use Rattle.std.specs.Prelude.{◌≡◌, ◌<◌, length};
ghost use Rattle.login_edge.specs.Edge.{ReadGives, ReadCause, ReadFalls};
ghost use Rattle.login_real.specs.Streams.{most_bytes, ReadSpends};

use login_edge::{Got, Source};
use std::io::Read;
use std::marker::Model;
use std::snapshot::Snapshot;

/// So many bytes are read at most. A read after them fails.
const MOST_BYTES: u64 = 1 << 40;

/// A reader as a source, such as standard input. What is left to read is told where the reader tells it;
/// a stream of the system tells nothing.
#[derive(Drop)]
pub struct ReaderSource<R: Read> {
    reader: R,
    /// The reader as it came. One that told nothing then is taken to tell nothing.
    first: Snapshot<R>,
    budget: u64,
    faults: u64,
}

impl<R: Read> Model for ReaderSource<R> {
    ghost use Rattle.login_real.specs.Streams.{SourceState};
    ghost use Rattle.login_real.specs.inner.Streams.{told_since, TellsOn};

    ghost Value = { SourceState };

    ghost view = { λ s. record {
      left = told_since (R.remaining s.first.value) (R.remaining s.reader);
      remaining = s.budget;
      faults = s.faults;
    } };

    ghost invariant = { λ s. TellsOn (R.remaining s.first.value) (R.remaining s.reader) };
}

impl<R: Read> ReaderSource<R> {
    /// The reader with no fault so far.
    pub fn new(reader: R) -> ReaderSource<R>
        ensures left { result.left ≡ R.remaining reader }
        ensures remaining { result.remaining ≡ most_bytes }
        ensures faults { result.faults ≡ 0 }
    {
        let first = Snapshot::of(&reader);
        ReaderSource {
            reader,
            first,
            budget: MOST_BYTES,
            faults: 0,
        }
    }
}

impl<R: Read> Source for ReaderSource<R> {
    ghost left = { λ s. s.left };

    ghost faults = { λ s. s.faults };

    ghost remaining = { λ s. s.remaining };

    fn read(&mut self, buf: &mut [u8]) -> Got
        requires { 0 < length buf.old }
        ensures gives { ReadGives self.old.left self.new.left result buf.new }
        ensures cause { ReadCause self.old.faults self.new.faults result }
        ensures falls { ReadFalls self.old.remaining self.new.remaining result }

        ensures spends { ReadSpends self.old.remaining self.new.remaining result }
    {
        let most = buf.len().min(self.budget as usize);
        if most == 0 {
            self.faults = self.faults.saturating_add(1);
            return Got::Failed;
        }
        match self.reader.read(&mut buf[..most]) {
            Ok(0) => Got::End,
            Ok(n) => {
                self.budget -= n as u64;
                Got::Bytes(n)
            }
            Err(_) => {
                self.faults = self.faults.saturating_add(1);
                Got::Failed
            }
        }
    }
}
