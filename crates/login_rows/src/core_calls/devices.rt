// What is read of a device, by way of the core's own calls.

use crate::lines::{play, play_all, played, refusal};
use crate::playing::finish;
use login_core::Core;
use login_model::{Answer, Input};
use std::test::Fail;

/// The keyboard comes, root creates alice's session, takes control of it, and takes the keyboard.
pub const LISTENING: [&[u8]; 5] = [
    b"add 13 64 evdev seat0",
    b"connect 1 0",
    b"call 1 1 create 1000 0 login tty user % seat0 1 tty1 % false % %",
    b"call 1 2 control c1 false",
    b"call 1 3 take c1 13 64",
];

/// A key of the keyboard is pressed.
const PRESS: &[u8] = b"input 13 64 1 30 1";

/// Another one is.
const PRESS_ANOTHER: &[u8] = b"input 13 64 1 31 1";

/// A read with the handle of the device, the second one that was given out.
const READ: &[u8] = b"call 1 4 read 2";

/// Whether these keys were pressed.
fn are_keys(inputs: &[Input], keys: &[u16]) -> bool {
    for (input, key) in inputs.iter().zip(keys.iter()) {
        if input.code != *key {
            return false;
        }
    }
    inputs.len() == keys.len()
}

/// Whether the last entry answers that these keys were pressed.
fn are_read(core: &Core, keys: &[u16]) -> bool {
    match core.journal().as_slice().last() {
        Some(entry) => match &entry.answer {
            Answer::Inputs(inputs) => are_keys(inputs.as_slice(), keys),
            _ => false,
        },
        None => false,
    }
}

#[test]
fn a_read_empties(rt: HostRuntime) -> Result<(), Fail> {
    let mut core = played(rt.alloc(), &LISTENING)?;
    assert!(rt; play_all(rt.alloc(), &mut core, &[PRESS, PRESS_ANOTHER, READ]));
    assert!(rt; are_read(&core, &[30, 31]));
    assert!(rt; play(rt.alloc(), &mut core, b"call 1 5 read 2"));
    assert!(rt; are_read(&core, &[]));
    finish(core);
    Ok(())
}

/// Room that was made for a read reads nothing: another event may come first, and is then read too.
#[test]
fn room_for_a_read_reads_nothing(rt: HostRuntime) -> Result<(), Fail> {
    let mut core = played(rt.alloc(), &LISTENING)?;
    assert!(rt; play(rt.alloc(), &mut core, PRESS));
    assert!(rt; refusal(rt.alloc(), &mut core, READ).is_none());
    assert!(rt; refusal(rt.alloc(), &mut core, READ).is_none());
    assert!(rt; play_all(rt.alloc(), &mut core, &[PRESS_ANOTHER, READ]));
    assert!(rt; are_read(&core, &[30, 31]));
    finish(core);
    Ok(())
}
