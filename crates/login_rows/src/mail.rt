// What connections are sent. The expected messages were written by libdbus.

ghost use Rattle.std.specs.Prelude.{◌≡◌, [], IfOk, IsTrue};
ghost use Rattle.wire_out.specs.Conditions.{IsMailable};
ghost use Rattle.wire_out.specs.Places.{place_of};

use crate::lines::{is_mailable, play};
use crate::playing::{finish, new_core};
use login_base::{ConnId, NoMemory};
use login_cases::mail::{CASES, MailCase};
use login_core::Core;
use std::alloc::Global;
use std::test::Fail;
use wire_out::{Cursor, out_of};

/// The mail by the core's journal behind the first messages.
fn mail_of(alloc: Global, core: &Core, case: &MailCase) -> Result<Vec<u8>, NoMemory>
    requires { IsMailable core.now.journal }
{
    let bytes = out_of(alloc, core.journal(), ConnId(case.who), case.from)?;
    Ok(bytes.into_vec())
}

/// Whether a case's events can be played, and its mail is what is expected.
fn sends(alloc: Global, core: &mut Core, case: &MailCase) -> Result<bool, NoMemory> {
    for line in case.events.split(|byte| *byte == b'\n') {
        if !play(alloc, core, line) {
            return Ok(false);
        }
    }
    if !is_mailable(core) {
        return Ok(false);
    }
    let mail = mail_of(alloc, core, case)?;
    Ok(mail.as_slice() == case.messages)
}

/// The same of a new core.
fn is_sent(alloc: Global, case: &MailCase) -> Result<bool, NoMemory> {
    let mut core = new_core(alloc)?;
    let sent = sends(alloc, &mut core, case);
    finish(core);
    sent
}

/// Plays a line, and adds what is due then; whether the line could be played.
#[tactic(auto, using(crate::proofs::Mailable::placed_later))]
fn add_due(
    alloc: Global,
    core: &mut Core,
    cursor: &mut Cursor,
    mail: &mut Vec<u8>,
    line: &[u8],
) -> Result<bool, NoMemory>
    requires { cursor.old ≡ place_of cursor.old.who core.old.journal }
    ensures { IfOk result (λ played. IsTrue played → cursor.new ≡ place_of cursor.new.who core.new.journal) }
{
    if !play(alloc, core, line) || !is_mailable(core) {
        return Ok(false);
    }
    mail.extend_from_slice(cursor.due(alloc, core.journal())?.as_slice())?;
    Ok(true)
}

/// Whether what is due behind each event of a case makes up its mail.
fn dues(alloc: Global, core: &mut Core, case: &MailCase) -> Result<bool, NoMemory>
    requires { core.old.journal ≡ [] }
{
    let mut cursor = Cursor::new(ConnId(case.who));
    let mut mail = Vec::new(alloc);
    for line in case.events.split(|byte| *byte == b'\n') {
        if !add_due(alloc, core, &mut cursor, &mut mail, line)? {
            return Ok(false);
        }
    }
    Ok(case.from > 0 || mail.as_slice() == case.messages)
}

/// The same of a new core.
fn is_due(alloc: Global, case: &MailCase) -> Result<bool, NoMemory> {
    let mut core = new_core(alloc)?;
    let due = dues(alloc, &mut core, case);
    finish(core);
    due
}

/// The mail is what is expected, and what is due behind each event makes it up.
#[test]
fn mail_is_what_libdbus_writes(rt: HostRuntime) -> Result<(), Fail> {
    for case in CASES {
        let name = case.name;
        assert!(rt; is_sent(rt.alloc(), case)?, "{name}");
        assert!(rt; is_due(rt.alloc(), case)?, "{name}: due");
    }
    Ok(())
}
