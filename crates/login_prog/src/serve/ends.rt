// The lines of links on the errors, and of the end.

ghost use Rattle.std.specs.Prelude.{◌≡◌, ◌≤◌, [], ◌∷◌, vec_capacity};
ghost use Rattle.login_edge.specs.Writing.{WriteRose, WrittenAs};
ghost use Rattle.login_prog.specs.Served.{link_lines};
ghost use Rattle.login_prog.specs.inner.Endings.{ReportsEnd, status_of};
ghost use Rattle.replay.specs.declared.closed.TheConstants.{CLOSED_LINE_ROOM};

use crate::serve::troubles::ServeEnd;
use login_base::NoMemory;
use login_edge::{Sink, WriteEnd, write_all};
use login_office::LinkEnd;
use replay::{CLOSED_LINE_ROOM, RefusalLine, StatusLine, push_counted, push_named_end, report};
use std::alloc::Global;

/// The memory of the lines on the errors, which is taken before it is needed.
#[derive(Drop)]
pub struct ErrorLines {
    line: Vec<u8>,
    refusal: RefusalLine,
    ghost room: { CLOSED_LINE_ROOM ≤ vec_capacity line },
}

impl ErrorLines {
    /// The memory, or none.
    pub fn new(alloc: Global) -> Result<ErrorLines, NoMemory> {
        Ok(ErrorLines {
            line: Vec::with_capacity(alloc, CLOSED_LINE_ROOM)?,
            refusal: RefusalLine::new(alloc)?,
        })
    }

    /// Writes a line for each link that has an end, in order, up to the first that can't be written.
    pub fn write_links<E: Sink>(&mut self, ends: &[Option<LinkEnd>], errors: &mut E) -> WriteEnd
        ensures gives { WrittenAs (E.held errors.old) (E.held errors.new) result (link_lines 1 ends.now) }
        ensures cause { WriteRose (E.faults errors.old) (E.faults errors.new) result }
    {
        for (place, end) in ends.iter().enumerate() {
            match self.write_link(place as u64 + 1, *end, errors) {
                WriteEnd::Done => {}
                WriteEnd::Fault => return WriteEnd::Fault,
            }
        }
        WriteEnd::Done
    }

    /// Writes the line of a link, if it has an end.
    fn write_link<E: Sink>(&mut self, number: u64, end: Option<LinkEnd>, errors: &mut E) -> WriteEnd
        ensures gives { WrittenAs (E.held errors.old) (E.held errors.new) result (link_lines number (end ∷ [])) }
        ensures cause { WriteRose (E.faults errors.old) (E.faults errors.new) result }
    {
        let Some(end) = end else {
            return WriteEnd::Done;
        };
        self.line.clear();
        push_counted(&mut self.line, b"link ", number);
        push_named_end(&mut self.line, end);
        write_all(errors, self.line.as_slice())
    }

    /// Writes the line of the end, and answers its status.
    pub fn write_end<E: Sink>(self, end: ServeEnd, errors: &mut E) -> u8
        ensures status { result ≡ status_of end }
        ensures said { ReportsEnd (E.held errors.old) (E.held errors.new) (E.faults errors.old) (E.faults errors.new) end }
    {
        let ErrorLines { line: _, refusal } = self;
        match end {
            ServeEnd::Done => {}
            ServeEnd::Script(number, cause) => report(errors, &refusal.of(number, cause)),
            ServeEnd::Full(count) => report(errors, &refusal.full(count)),
            ServeEnd::ReadFault => report(errors, StatusLine::ReadFault.text()),
            ServeEnd::WriteFault => report(errors, StatusLine::WriteFault.text()),
            ServeEnd::NoMemory => report(errors, StatusLine::NoMemory.text()),
            ServeEnd::ListenerOrClockFault => {
                report(errors, StatusLine::ListenerOrClockFault.text())
            }
            ServeEnd::SpawnFault => report(errors, StatusLine::SpawnFault.text()),
        }
        status_of(end)
    }
}

/// The status of an end.
fn status_of(end: ServeEnd) -> u8
    ensures { result ≡ status_of end }
{
    match end {
        ServeEnd::Done => 0,
        ServeEnd::Script(_, _) => 2,
        ServeEnd::ReadFault => 3,
        ServeEnd::WriteFault => 4,
        ServeEnd::NoMemory => 5,
        ServeEnd::Full(_) => 6,
        ServeEnd::ListenerOrClockFault => 7,
        ServeEnd::SpawnFault => 8,
    }
}
