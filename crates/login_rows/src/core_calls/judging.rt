// Verdicts over the facts of a core.

use crate::lines::{event, played};
use crate::playing::finish;
use login_base::ConnId;
use login_core::Core;
use login_judge::{judge, meant_user};
use login_model::{Rule, Verdict};
use std::alloc::Global;
use std::test::Fail;

/// A client of alice's is there.
const CONNECTED: [&[u8]; 1] = [b"connect 1 1000"];

/// Lines, and what is said to their events.
const SAID: [(&[u8], Verdict); 8] = [
    (b"connect 2 0", Verdict::Granted),
    (b"vtkey 63", Verdict::Granted),
    (b"vtkey 64", Verdict::Denied(Rule::BadArguments)),
    (b"tick 0", Verdict::Granted),
    (b"call 1 1 list-seats", Verdict::Granted),
    (b"call 1 1 get-user 1000", Verdict::Denied(Rule::NoSuchUser)),
    (b"call 1 1 linger 7 true", Verdict::Denied(Rule::NoSuchUser)),
    (b"call 1 1 close 1", Verdict::Denied(Rule::NoSuchHandle)),
];

/// What is said to the event of a line.
fn said(alloc: Global, core: &Core, line: &[u8]) -> Option<Verdict> {
    let event = event(alloc, line)?;
    let verdict = judge(core, core.setup(), &event);
    drop(event);
    Some(verdict)
}

#[test]
fn events_are_judged(rt: HostRuntime) -> Result<(), Fail> {
    let core = played(rt.alloc(), &CONNECTED)?;
    for (line, verdict) in &SAID {
        assert!(rt; said(rt.alloc(), &core, line) == Some(*verdict));
    }
    finish(core);
    Ok(())
}

#[test]
fn the_greatest_user_is_the_caller(rt: HostRuntime) -> Result<(), Fail> {
    let core = played(rt.alloc(), &CONNECTED)?;
    assert_eq!(rt; meant_user(&core, ConnId(1), 4_294_967_295), 1000);
    assert_eq!(rt; meant_user(&core, ConnId(1), 0), 0);
    finish(core);
    Ok(())
}
