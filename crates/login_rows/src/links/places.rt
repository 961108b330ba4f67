// Lines of links that may not stand where they stand.

use crate::running::{joined, refuse};
use login_cases::links::places::{BEHIND_END, BEHIND_FRONT, BEHIND_STOP, FRONT};
use std::test::Fail;

#[test]
fn lines_of_links_have_their_places(rt: HostRuntime) -> Result<(), Fail> {
    let alloc = rt.alloc();
    let front = FRONT.0.as_bytes();
    let told = FRONT.1.as_bytes();
    refuse(
        &rt,
        alloc,
        "behind the front",
        front,
        &BEHIND_FRONT,
        12,
        told,
    )?;
    let stopped = joined(alloc, &[front, b"stop\n"])?;
    let told = joined(alloc, &[told, b"5 stop\n granted\n"])?;
    refuse(
        &rt,
        alloc,
        "behind the stop",
        stopped.as_slice(),
        &BEHIND_STOP,
        13,
        told.as_slice(),
    )?;
    let ended = joined(alloc, &[stopped.as_slice(), b"end\n"])?;
    let told = joined(alloc, &[told.as_slice(), b"end 5\n"])?;
    refuse(
        &rt,
        alloc,
        "behind the end",
        ended.as_slice(),
        &BEHIND_END,
        14,
        told.as_slice(),
    )
}
