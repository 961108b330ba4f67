// The bytes of a link however they are cut into lines.

use super::talking::accept_talk;
use login_cases::links::pieces::TALKS;
use std::test::Fail;

#[test]
fn links_in_pieces_of_every_size(rt: HostRuntime) -> Result<(), Fail> {
    for (talk, bytes) in TALKS {
        for size in 1..=bytes {
            accept_talk(&rt, rt.alloc(), talk, size)?;
        }
    }
    Ok(())
}
