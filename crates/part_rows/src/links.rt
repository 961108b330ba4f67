// The lines that a transcript has of links. What whole runs print is in `login_rows`.

use login_base::{ConnId, Items, NoMemory};
use login_edge::MemSink;
use recording::{WriteEnd, write_out};
use std::alloc::Global;
use std::process::Abort;
use std::test::Fail;

/// What a link is due that shook hands, and bytes of a message behind that.
const DUE: &[u8] =
    b"DATA\r\nOK 0123456789abcdef0123456789abcdef\r\nERROR\r\nl\x02\0\x01\x27\0\0\0\xff\xa0";

/// The line of these bytes.
const LINE: &[u8] =
    b"out 2 444154410d0a4f4b2030313233343536373839616263646566303132333435363738396162636465660d0a\
    4552524f520d0a6c02000127000000ffa0\n";

/// The line of what a link is due is written so into a sink with this room, which then holds this.
fn is_written(
    rt: &impl Abort,
    alloc: Global,
    due: &[u8],
    room: usize,
    end: Result<(), WriteEnd>,
    held: &[u8],
) -> Result<(), NoMemory> {
    let mut sink = MemSink::new(alloc, room, Items::new(alloc))?;
    assert_eq!(rt; write_out(alloc, ConnId(2), due, &mut sink), end);
    assert_eq!(rt; sink.held(), held);
    Ok(())
}

#[test]
fn writes_what_a_link_is_due_in_hex(rt: HostRuntime) -> Result<(), Fail> {
    is_written(&rt, rt.alloc(), DUE, LINE.len(), Ok(()), LINE)?;
    is_written(
        &rt,
        rt.alloc(),
        DUE,
        LINE.len() - 1,
        Err(WriteEnd::WriteFault),
        b"",
    )?;
    Ok(())
}

#[test]
fn writes_many_bytes_a_piece_at_a_time(rt: HostRuntime) -> Result<(), Fail> {
    let due = vec![in rt.alloc(); b'w'; 4097]?;
    let mut line = Vec::from_slice(rt.alloc(), b"out 2 ")?;
    line.extend_from_slice(&vec![in rt.alloc(); b'7'; 8192]?)?;
    is_written(
        &rt,
        rt.alloc(),
        &due,
        8200,
        Err(WriteEnd::WriteFault),
        &line,
    )?;
    line.extend_from_slice(b"77\n")?;
    is_written(&rt, rt.alloc(), &due, 8201, Ok(()), &line)?;
    Ok(())
}
