// A link in memory, through the bound of its trait.

use login_base::{Items, NoMemory};
use login_edge::{Bell, Heard, Link, MemLink, Turn, WriteEnd, say_all};
use std::alloc::Global;

/// A link with three turns and room for five bytes and five pieces, whose second call fails.
fn link(alloc: Global, bell: &Bell) -> Result<MemLink, NoMemory> {
    let piece = Items::from_vec(Vec::from_slice(alloc, b"abc")?);
    let turns = vec![in alloc;
        Turn::Piece(piece),
        Turn::Piece(Items::new(alloc)),
        Turn::Quiet,
    ]?;
    let fails = Items::from_vec(Vec::from_slice(alloc, &[2])?);
    MemLink::new(
        alloc,
        Items::from_vec(turns),
        5,
        5,
        fails,
        Some(bell.share()),
    )
}

fn hear_once<L: Link>(link: &mut L, buf: &mut [u8; 2]) -> Heard {
    link.read(buf)
}

const ANSWERS: [Heard; 5] = [
    Heard::Bytes(2),
    Heard::Failed,
    Heard::Bytes(1),
    Heard::Quiet,
    Heard::End,
];

#[test]
fn link_gives_its_script_and_keeps_its_talk(rt: HostRuntime) -> Result<(), NoMemory> {
    let alloc = rt.alloc();
    let bell = Bell::new(alloc)?;
    let mut link = link(alloc, &bell)?;
    let mut buf = [0; 2];
    for answer in ANSWERS {
        assert!(rt; hear_once(&mut link, &mut buf) == answer);
    }
    assert!(rt; bell.rings() == 1);
    assert!(rt; say_all(&mut link, b"xyz") == WriteEnd::Fault);
    assert!(rt; say_all(&mut link, b"xy") == WriteEnd::Done);
    assert!(rt; hear_once(&mut link, &mut buf) == Heard::Failed);
    assert!(rt; link.heard() == b"abc".as_slice());
    assert!(rt; link.said() == b"xy".as_slice());
    assert!(rt; link.marks().len() == 5);
    Ok(())
}
