// The journal is full.

use super::devices::LISTENING;
use crate::lines::{play, play_all, played, refusal};
use crate::playing::{close, finish};
use login_base::ConnId;
use login_core::{Core, Refused};
use login_model::{Fullness, Key, Look};
use std::alloc::Global;
use std::test::Fail;

/// The clock reaches the moment at which it stands.
const TICK: &[u8] = b"tick 0";

/// Plays that so many times; whether there was room each time.
fn tick(alloc: Global, core: &mut Core, times: u32) -> bool {
    for _ in 0..times {
        if !play(alloc, core, TICK) {
            return false;
        }
    }
    true
}

/// Further links of root.
const CONNECTS: [&[u8]; 3] = [b"connect 2 0", b"connect 3 0", b"connect 4 0"];

// The first link controls a session that has taken a device, whose pause is awaited. The others come last, since
// room takes the longer to find the more of them there are.
#[test]
fn links_can_still_end_when_the_journal_is_full(rt: HostRuntime) -> Result<(), Fail> {
    let mut core = played(rt.alloc(), &LISTENING)?;
    assert!(rt; play(rt.alloc(), &mut core, b"vtkey 2"));
    assert!(rt; core.fact(&Key::Pending).is_number());
    assert!(rt; tick(rt.alloc(), &mut core, 199_986));
    assert!(rt; play_all(rt.alloc(), &mut core, &CONNECTS));
    assert_eq!(rt; core.journal().len(), 199_995);
    let full = Some(Refused::Full(Fullness::Entries(200_001)));
    assert_eq!(rt; refusal(rt.alloc(), &mut core, TICK), full);
    for number in 1..4 {
        assert!(rt; close(&mut core, ConnId(number)));
    }
    assert!(rt; !core.fact(&Key::Pending).is_number());
    assert_eq!(rt; core.journal().len(), 199_998);
    finish(core);
    Ok(())
}
