// What no clause can show: that tellers hear, and that an office opens links, hears them and has mail for them, where
// there is memory.

mod cases;
mod playing;
mod tellers;

use cases::{CALL, HANDSHAKE, REPLIES};
use login_base::{ConnId, NoMemory, Uid};
use login_model::Event;
use login_office::{HeardPiece, Office};
use playing::{close, hear, mail, new_office, open, play, play_calls, play_line};
use std::alloc::Global;

/// The reply to alice's first call, which names her session: by hand, from "Message Format".
const REPLY: &[u8] = b"l\x02\0\x01\x27\0\0\0\x01\0\0\0\x1f\0\0\0\
\x05\x01u\0\x01\0\0\0\
\x07\x01s\0\x04\0\0\0:1.0\0\0\0\0\
\x08\x01g\0\x01o\0\0\
\x22\0\0\0/org/freedesktop/login1/session/c1\0";

/// Root is connected, and asks for alice's session.
const BEGIN: [&[u8]; 2] = [
    b"connect 1 0",
    b"call 1 1 create 1000 0 login tty user % seat0 1 tty1 % false % %",
];

/// Alice's session, which the first connection asked for; whether there is one.
fn begin(office: &mut Office, alloc: Global) -> bool {
    let mut all = true;
    for line in BEGIN {
        all = play_line(office, alloc, line) && all;
    }
    all
}

/// Hears a piece of a link, and steps what it brings about; whether it could. What is sent goes behind what was sent.
fn serve(
    office: &mut Office,
    alloc: Global,
    c: ConnId,
    piece: &[u8],
    sent: &mut Vec<u8>,
) -> Result<bool, NoMemory> {
    let Some(heard) = hear(office, alloc, c, piece)? else {
        return Ok(false);
    };
    let HeardPiece {
        replies,
        begins,
        calls,
        end,
    } = heard;
    sent.extend_from_slice(replies.as_slice())?;
    let connected = !begins || play(office, Event::Connect(c, Uid(1000)));
    let played = play_calls(office, calls);
    let Some(bytes) = mail(office, alloc, c)? else {
        return Ok(false);
    };
    sent.extend_from_slice(bytes.as_slice())?;
    Ok(connected && played && end.is_none())
}

/// Whether two links in turn, in pieces of such a size, are each sent what they are to be.
fn are_served(alloc: Global, size: usize) -> Result<bool, NoMemory> {
    let mut office = new_office(alloc)?;
    let mut all = begin(&mut office, alloc);
    all = open(&mut office, alloc, ConnId(2))? && all;
    all = open(&mut office, alloc, ConnId(3))? && all;
    let mut said = Vec::from_slice(alloc, HANDSHAKE)?;
    said.extend_from_slice(CALL)?;
    let mut second = Vec::new(alloc);
    let mut third = Vec::new(alloc);
    for piece in said.chunks(size.max(1)) {
        all = serve(&mut office, alloc, ConnId(2), piece, &mut second)? && all;
        all = serve(&mut office, alloc, ConnId(3), piece, &mut third)? && all;
    }
    // The other link goes on without it.
    office.forget(ConnId(2));
    all = !office.is_open(ConnId(2)) && office.is_open(ConnId(3)) && all;
    all = close(&mut office, ConnId(2)) && !close(&mut office, ConnId(2)) && all;
    drop(office);
    let mut wanted = Vec::from_slice(alloc, REPLIES)?;
    wanted.extend_from_slice(REPLY)?;
    Ok(all && second == wanted && third == wanted)
}

#[test]
fn two_links_in_turn(rt: HostRuntime) -> Result<(), NoMemory> {
    for size in [1, 3, 64, 4096] {
        assert!(rt; are_served(rt.alloc(), size)?, "in pieces of {size}");
    }
    Ok(())
}
