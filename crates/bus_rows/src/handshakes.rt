// What no clause can show: handshakes byte for byte, and that the calls succeed.

mod cases;

use bus_auth::{Auth, AuthState, AuthStep, Ending};
use cases::{CLIENTS, Case, End, LIMITS, ROWS};
use login_base::{NoMemory, Uid, Word};
use std::alloc::Global;
use std::process::Abort;

const GUID: &[u8] = b"0123456789abcdef0123456789abcdef";

/// What was heard of a case.
#[derive(Drop)]
struct Heard {
    replies: Vec<u8>,
    end: End,
    /// The bytes behind BEGIN.
    rest: Vec<u8>,
}

/// Hears one more piece.
fn hear_piece(
    alloc: Global,
    auth: &mut Auth,
    heard: &mut Heard,
    piece: &[u8],
) -> Result<(), NoMemory> {
    if auth.is_begun() {
        heard.rest.extend_from_slice(piece)?;
        return Ok(());
    }
    let AuthStep { replies, state } = auth.feed(alloc, piece)?;
    heard.replies.extend_from_slice(replies.as_slice())?;
    match state {
        AuthState::Going => heard.end = End::Going,
        AuthState::Begun(bytes) => {
            heard.end = End::Begun;
            heard.rest.extend_from_slice(bytes.as_slice())?;
        }
        AuthState::Ended(ending) => heard.end = End::Ended(ending),
    }
    Ok(())
}

/// Hears what was sent in pieces of such a size.
fn hear_pieces(alloc: Global, case: Case<'_>, size: usize) -> Result<Heard, NoMemory> {
    let mut auth = Auth::new(alloc, Uid(case.uid), Word::from_slice(alloc, GUID)?);
    let mut heard = Heard {
        replies: Vec::new(alloc),
        end: End::Going,
        rest: Vec::new(alloc),
    };
    for piece in case.sent.chunks(size.max(1)) {
        hear_piece(alloc, &mut auth, &mut heard, piece)?;
    }
    Ok(heard)
}

/// Compares all that was heard.
fn expect(rt: &impl Abort, heard: &Heard, case: Case<'_>) {
    assert!(rt; heard.replies.as_slice() == case.replies);
    assert!(rt; heard.end == case.end);
    assert!(rt; heard.rest.as_slice() == case.rest);
}

/// Hears what was sent in pieces of each size.
fn hear(rt: &impl Abort, alloc: Global, case: Case<'_>) -> Result<(), NoMemory> {
    for size in SIZES {
        expect(rt, &hear_pieces(alloc, case, size)?, case);
    }
    Ok(())
}

const SIZES: [usize; 5] = [1, 2, 3, 7, 4096];

#[test]
fn handshakes_of_real_clients(rt: HostRuntime) -> Result<(), NoMemory> {
    for case in CLIENTS {
        hear(&rt, rt.alloc(), case)?;
    }
    Ok(())
}

/// Hears what is sent in each row by the user 1000.
fn hear_rows(rt: &impl Abort, alloc: Global, rows: &[(&[u8], &[u8], End)]) -> Result<(), NoMemory> {
    for row in rows {
        let (sent, replies, end) = *row;
        let case = Case {
            uid: 1000,
            sent,
            replies,
            end,
            rest: b"",
        };
        hear(rt, alloc, case)?;
    }
    Ok(())
}

#[test]
fn rows_of_the_table(rt: HostRuntime) -> Result<(), NoMemory> {
    hear_rows(&rt, rt.alloc(), &ROWS)
}

fn repeated(alloc: Global, front: &[u8], part: &[u8], count: usize) -> Result<Vec<u8>, NoMemory> {
    let mut text = Vec::from_slice(alloc, front)?;
    for _ in 0..count {
        text.extend_from_slice(part)?;
    }
    Ok(text)
}

#[test]
fn limits_of_lines(rt: HostRuntime) -> Result<(), NoMemory> {
    let alloc = rt.alloc();
    for limit in LIMITS {
        let mut sent = repeated(alloc, limit.front, limit.part, limit.count)?;
        sent.extend_from_slice(limit.back)?;
        let replies = repeated(alloc, limit.replies, b"ERROR\r\n", limit.errors)?;
        let case = Case {
            uid: 1000,
            sent: sent.as_slice(),
            replies: replies.as_slice(),
            end: limit.end,
            rest: b"",
        };
        hear(&rt, alloc, case)?;
    }
    Ok(())
}
