// A journal that is full between two calls of one line.

use crate::running::{compare, push};
use login_cases::links::full::{CALLS, FRONT};
use std::test::Fail;

/// So many keys are pressed then, that there is room for one call more.
const KEYS: u32 = 199_996;

#[test]
fn the_second_call_of_a_line_has_no_room(rt: HostRuntime) -> Result<(), Fail> {
    let alloc = rt.alloc();
    let mut text = Vec::from_slice(alloc, FRONT.0.as_bytes())?;
    let mut want = Vec::from_slice(alloc, FRONT.1.as_bytes())?;
    for key in 1..=KEYS {
        let number = key.saturating_add(1);
        let block = format!(in alloc; "{number} vtkey 0\n denied P03 bad-arguments\n");
        text.extend_from_slice(b"vtkey 0\n")?;
        push(&mut want, block)?;
    }
    text.extend_from_slice(CALLS.0.as_bytes())?;
    want.extend_from_slice(CALLS.1.as_bytes())?;
    compare(
        &rt,
        alloc,
        text.as_slice(),
        want.as_slice(),
        6,
        "full entries 200001\n",
    )
}
