// Answers that take memory.

use crate::lines::{play, played};
use crate::playing::finish;
use login_base::{HandleNo, SeatName, SessId, Uid};
use login_core::Core;
use login_model::Answer;
use std::test::Fail;

/// Root creates alice's session on the first terminal, whose fifo the caller holds.
pub const CREATED: [&[u8]; 2] = [
    b"connect 1 0",
    b"call 1 1 create 1000 0 login tty user % seat0 1 tty1 % false % %",
];

/// What the entry with this number, counted from 0, is answered.
fn answer_of(core: &Core, number: usize) -> Option<&Answer> {
    core.journal()
        .as_slice()
        .get(number)
        .map(|entry| &entry.answer)
}

/// Whether this says that the first session was created, with the first handle, on seat0.
fn is_created(answer: Option<&Answer>) -> bool {
    match answer {
        Some(Answer::Created(created)) => {
            let created = created.get();
            created.session == SessId(1)
                && created.fifo == HandleNo(1)
                && created.uid == Uid(1000)
                && created.vt == 1
                && is_seat0(created.seat)
        }
        _ => false,
    }
}

fn is_seat0(seat: Option<SeatName>) -> bool {
    match seat {
        Some(seat) => seat.as_slice() == b"seat0".as_slice(),
        None => false,
    }
}

/// Whether this is the row of alice's session alone.
fn is_first_session(answer: Option<&Answer>) -> bool {
    match answer {
        Some(Answer::Sessions(rows)) => match rows.as_slice() {
            [row] => {
                row.session == SessId(1)
                    && row.uid == Uid(1000)
                    && row.name.as_slice() == b"alice".as_slice()
                    && is_seat0(row.seat_name())
            }
            _ => false,
        },
        _ => false,
    }
}

/// Whether this is alice alone.
fn is_alice(answer: Option<&Answer>) -> bool {
    match answer {
        Some(Answer::Users(rows)) => match rows.as_slice() {
            [row] => row.uid == Uid(1000) && row.name.as_slice() == b"alice".as_slice(),
            _ => false,
        },
        _ => false,
    }
}

/// Whether this is seat0 alone.
fn is_first_seat(answer: Option<&Answer>) -> bool {
    match answer {
        Some(Answer::Seats(seats)) => match seats.as_slice() {
            [seat] => is_seat0(Some(*seat)),
            _ => false,
        },
        _ => false,
    }
}

#[test]
fn sessions_are_created_and_listed(rt: HostRuntime) -> Result<(), Fail> {
    let mut core = played(rt.alloc(), &CREATED)?;
    assert!(rt; is_created(answer_of(&core, 1)));
    assert!(rt; play(rt.alloc(), &mut core, b"call 1 2 list-sessions"));
    assert!(rt; is_first_session(answer_of(&core, 2)));
    finish(core);
    Ok(())
}

#[test]
fn users_are_listed(rt: HostRuntime) -> Result<(), Fail> {
    let mut core = played(rt.alloc(), &CREATED)?;
    assert!(rt; play(rt.alloc(), &mut core, b"call 1 2 list-users"));
    assert!(rt; is_alice(answer_of(&core, 2)));
    finish(core);
    Ok(())
}

#[test]
fn seats_are_listed(rt: HostRuntime) -> Result<(), Fail> {
    let mut core = played(rt.alloc(), &CREATED)?;
    assert!(rt; play(rt.alloc(), &mut core, b"call 1 2 list-seats"));
    assert!(rt; is_first_seat(answer_of(&core, 2)));
    finish(core);
    Ok(())
}
