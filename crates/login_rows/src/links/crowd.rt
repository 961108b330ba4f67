// Links that come when so many connections are connected as may be.

use super::{LINKS, recording, transcript};
use crate::running::compare;
use login_cases::links::crowd::LATE;
use std::test::Fail;

#[test]
fn links_may_be_too_many(rt: HostRuntime) -> Result<(), Fail> {
    let alloc = rt.alloc();
    let mut text = recording(alloc, LINKS)?;
    text.extend_from_slice(LATE.0.as_bytes())?;
    let mut want = transcript(alloc, LINKS)?;
    want.extend_from_slice(LATE.1.as_bytes())?;
    compare(&rt, alloc, text.as_slice(), want.as_slice(), 0, "")
}
