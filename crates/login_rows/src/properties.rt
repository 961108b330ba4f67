// Properties: each of each object once, those that there are not, and that none can be set; and the bus's own calls.

use crate::running::{answer_cases, compare, push};
use login_cases::properties::{ANSWERED, NOWHERE, SOME};
use std::test::Fail;

#[test]
fn objects_have_properties(rt: HostRuntime) -> Result<(), Fail> {
    answer_cases(&rt, rt.alloc(), &ANSWERED)
}

#[test]
fn paths_of_no_object(rt: HostRuntime) -> Result<(), Fail> {
    let alloc = rt.alloc();
    let mut recording = Vec::from_slice(alloc, SOME.piece.0.as_bytes())?;
    let mut transcript = Vec::from_slice(alloc, SOME.piece.1.as_bytes())?;
    let mut number = SOME.entries;
    for path in &NOWHERE {
        number = number.saturating_add(1);
        push(
            &mut recording,
            format!(in alloc; "call 1 9 get-all {path} %\n"),
        )?;
        let block = format!(in alloc; "{number} call 1 9 no-object\n denied P01 unknown-object\n");
        push(&mut transcript, block)?;
    }
    recording.extend_from_slice(b"end\n")?;
    push(&mut transcript, format!(in alloc; "end {number}\n"))?;
    compare(
        &rt,
        alloc,
        recording.as_slice(),
        transcript.as_slice(),
        0,
        "",
    )
}
