// How the end of a link prints.

ghost use Rattle.std.specs.Prelude.{◌≡◌, ◌+◌, ◌≤◌, ◌++◌, IfOk, vec_len, vec_capacity};
ghost use Rattle.replay.specs.Closing.{not_begun_number, closed_line, end_text, named_end_text, end_room};

use crate::numbered::{push_counted, push_text};
use bus_auth::Ending;
use login_base::{ConnId, NoMemory};
use login_model::Fullness;
use login_office::{LinkEnd, Unbegun};
use std::alloc::Global;

/// Room for the line of a link that has ended, in bytes.
pub const CLOSED_LINE_ROOM: usize = 100;

/// The number of why a link has not begun.
pub fn not_begun_number(why: Unbegun) -> u32
    ensures { result ≡ not_begun_number why }
{
    match why {
        Unbegun::Refused(Ending::NoNul) => 1,
        Unbegun::Refused(Ending::EarlyBegin) => 2,
        Unbegun::Refused(Ending::LineTooLong) => 3,
        Unbegun::Refused(Ending::TooManyLines) => 4,
        Unbegun::HungUp => 5,
    }
}

/// Puts what follows the number of a link that has ended so at the end of a text, through the line feed, without
/// memory.
fn push_end(out: &mut Vec<u8>, end: LinkEnd)
    requires room { vec_len out.old + end_room ≤ vec_capacity out.old }
    ensures items { out.new.items ≡ out.old.items ++ end_text end }
    ensures capacity { vec_capacity out.old ≤ vec_capacity out.new }
{
    match end {
        LinkEnd::Closed => {}
        LinkEnd::NotBegun(why) => {
            push_counted(out, b" not-begun ", u64::from(not_begun_number(why)));
        }
        LinkEnd::Malformed(place) => {
            push_counted(out, b" malformed ", place.offset);
            push_counted(out, b" ", u64::from(place.cause.number()));
        }
        LinkEnd::TooMany => push_text(out, b" too-many"),
        LinkEnd::ReadFault => push_text(out, b" read-fault"),
        LinkEnd::WriteFault => push_text(out, b" write-fault"),
        LinkEnd::NoMemory => push_text(out, b" no-memory"),
        LinkEnd::Full(Fullness::Entries(sum)) => push_counted(out, b" full entries ", sum),
        LinkEnd::Full(Fullness::Marks(sum)) => push_counted(out, b" full marks ", sum),
        LinkEnd::Stopped(entry) => push_counted(out, b" stopped ", u64::from(entry)),
    }
    push_text(out, b"\n");
}

/// Puts the same at the end of a text; that a link was closed is said too.
pub fn push_named_end(out: &mut Vec<u8>, end: LinkEnd)
    requires room { vec_len out.old + end_room ≤ vec_capacity out.old }
    ensures items { out.new.items ≡ out.old.items ++ named_end_text end }
    ensures capacity { vec_capacity out.old ≤ vec_capacity out.new }
{
    match end {
        LinkEnd::Closed => push_text(out, b" closed\n"),
        _ => push_end(out, end),
    }
}

/// The line of a link that has ended so.
pub fn closed_line(alloc: Global, who: ConnId, end: LinkEnd) -> Result<Vec<u8>, NoMemory>
    ensures { IfOk result (λ line. line.items ≡ closed_line who end) }
{
    let mut line = Vec::with_capacity(alloc, CLOSED_LINE_ROOM)?;
    push_counted(&mut line, b"closed ", u64::from(who.0));
    push_end(&mut line, end);
    Ok(line)
}
