// Entries of the journal, as a transcript has them. What whole runs print is in `login_rows`.

use login_base::{ConnId, Items, NoMemory, SessId, Word};
use login_edge::MemSink;
use login_model::{Answer, Call, Entry, Event, Fact, Key, Mark, NamedSession, Request, Verdict};
use recording::{WriteEnd, entry_text, write_entry};
use std::alloc::Global;
use std::process::Abort;
use std::test::Fail;

/// A journal of one entry: the stop, with this verdict and answer. An entry that is owned by a list is
/// proved many times faster than one that is a variable.
fn stopped(alloc: Global, verdict: Verdict, answer: Answer) -> Result<Items<Entry>, NoMemory> {
    let mut journal = Items::new(alloc);
    journal.push(Entry {
        event: Event::Stop,
        verdict,
        answer,
        marks: Items::new(alloc),
    })?;
    Ok(journal)
}

/// The first entry is printed so as the first one.
pub fn is_printed(
    rt: &impl Abort,
    alloc: Global,
    verdict: Verdict,
    answer: Answer,
    expected: &[u8],
) -> Result<(), Fail> {
    let journal = stopped(alloc, verdict, answer)?;
    let [entry] = journal.as_slice() else {
        return Err(Fail::new("no entry"));
    };
    let text = entry_text(alloc, 1, entry)?;
    assert_eq!(rt;
        text.as_slice().strip_prefix(b"1 stop\n".as_slice()),
        Some(expected)
    );
    Ok(())
}

/// A journal of one entry, which has a mark.
fn uncontrolled(alloc: Global) -> Result<Items<Entry>, NoMemory> {
    let id = Word::from_slice(alloc, b"c1")?;
    let mut marks = Items::new(alloc);
    marks.push(Mark::Set(Key::Ctl(SessId(1)), Fact::Absent))?;
    let mut journal = Items::new(alloc);
    journal.push(Entry {
        event: Event::Call(Request {
            who: ConnId(1),
            serial: 2,
            quiet: false,
            call: Call::Uncontrol(NamedSession::new(id)),
        }),
        verdict: Verdict::Granted,
        answer: Answer::Nothing,
        marks,
    })?;
    Ok(journal)
}

/// The entry is written so as the seventh into a sink with this room, which then holds this.
fn is_written(
    rt: &impl Abort,
    alloc: Global,
    entry: &Entry,
    room: usize,
    end: Result<(), WriteEnd>,
    held: &[u8],
) -> Result<(), NoMemory> {
    let mut sink = MemSink::new(alloc, room, Items::new(alloc))?;
    assert_eq!(rt; write_entry(alloc, 7, entry, &mut sink), end);
    assert_eq!(rt; sink.held(), held);
    Ok(())
}

#[test]
fn writes_an_entry_where_there_is_room(rt: HostRuntime) -> Result<(), Fail> {
    let whole = b"7 call 1 2 uncontrol c1\n granted\n set ctl c1 -\n";
    let journal = uncontrolled(rt.alloc())?;
    let [entry] = journal.as_slice() else {
        return Err(Fail::new("no entry"));
    };
    is_written(&rt, rt.alloc(), entry, 50, Ok(()), whole)?;
    is_written(&rt, rt.alloc(), entry, 30, Err(WriteEnd::WriteFault), b"")?;
    Ok(())
}
