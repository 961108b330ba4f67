// What went wrong while links were served, and the status that it gives.

ghost use Rattle.std.specs.Prelude.{◌≡◌, false, None};
ghost use Rattle.login_prog.specs.inner.Endings.{EndsSo, with_reading, with_refused};

use crate::serve::reader_job::ReaderEnd;
use login_core::Refused;
use login_model::Fullness;
use replay::Cause;

/// What went wrong, in the order in which the status tells it.
#[derive(Clone, Copy, Drop)]
pub struct Troubles {
    pub no_memory: bool,
    pub read_fault: bool,
    pub refused_line: Option<(u32, Cause)>,
    pub full: Option<Fullness>,
    pub listener_or_clock: bool,
    pub spawn_fault: bool,
    pub write_fault: bool,
}

/// How serving ended.
#[derive(Clone, Copy, PartialEq, Eq)]
pub enum ServeEnd {
    Done,
    NoMemory,
    ReadFault,
    Script(u32, Cause),
    Full(Fullness),
    ListenerOrClockFault,
    SpawnFault,
    WriteFault,
}

impl Troubles {
    /// Nothing went wrong.
    pub const NONE: Troubles = Troubles {
        no_memory: false,
        read_fault: false,
        refused_line: None,
        full: None,
        listener_or_clock: false,
        spawn_fault: false,
        write_fault: false,
    };

    /// An event of the calling thread has no entry.
    pub fn refused(&mut self, why: Refused)
        ensures { self.new ≡ with_refused why self.old }
    {
        match why {
            Refused::NoMemory => self.no_memory = true,
            Refused::Full(count) => self.full = Some(count),
            Refused::Stopped(_) => {}
        }
    }

    /// The reading of the input ended so.
    pub fn read(&mut self, end: ReaderEnd)
        ensures { self.new ≡ with_reading end self.old }
    {
        match end {
            ReaderEnd::Stop | ReaderEnd::Stopped => {}
            ReaderEnd::Script(number, cause) => self.refused_line = Some((number, cause)),
            ReaderEnd::Full(count) => self.full = Some(count),
            ReaderEnd::ReadFault => self.read_fault = true,
            ReaderEnd::NoMemory => self.no_memory = true,
        }
    }

    /// The end that these give: of several troubles the first.
    pub fn end(&self) -> ServeEnd
        ensures { EndsSo self.now result }
    {
        if self.no_memory {
            return ServeEnd::NoMemory;
        }
        if self.read_fault {
            return ServeEnd::ReadFault;
        }
        if let Some((number, cause)) = self.refused_line {
            return ServeEnd::Script(number, cause);
        }
        if let Some(count) = self.full {
            return ServeEnd::Full(count);
        }
        self.last_end()
    }

    /// The end, where neither memory, nor the input, nor the journal gives it.
    fn last_end(&self) -> ServeEnd
        requires memory { self.now.no_memory ≡ false }
        requires read { self.now.read_fault ≡ false }
        requires line { self.now.refused_line ≡ None }
        requires room { self.now.full ≡ None }
        ensures { EndsSo self.now result }
    {
        if self.listener_or_clock {
            ServeEnd::ListenerOrClockFault
        } else if self.spawn_fault {
            ServeEnd::SpawnFault
        } else if self.write_fault {
            ServeEnd::WriteFault
        } else {
            ServeEnd::Done
        }
    }
}
