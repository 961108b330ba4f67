// How many locks there can be, and what is said to locks, keys and operations under setups other than the
// default one.

use super::answers::CREATED;
use crate::lines::{event, play, played};
use crate::playing::finish;
use login_base::{Bytes, ConnId, Items, LockNo, Word};
use login_core::Core;
use login_judge::{can, judge};
use login_model::{
    Action, Conf, KeyAction, Limit, OpKind, PowerAction, Qualifier, Row, Rule, Say, Setup, Table,
    Verdict,
};
use std::alloc::Global;
use std::test::Fail;

/// Root is connected.
const ROOT: [&[u8]; 1] = [b"connect 1 0"];

/// Asks for a lock that delays sleep.
const DELAY_SLEEP: &[u8] = b"call 1 2 inhibit sleep player % delay";

/// Asks for one that keeps the machine from shutting down.
const BLOCK_SHUTDOWN: &[u8] = b"call 1 2 inhibit shutdown player % block";

/// Asks for a lock that delays sleep, so many times; whether each call came next.
fn lock_sleep(core: &mut Core, alloc: Global, times: u32) -> bool {
    for _ in 0..times {
        if !play(alloc, core, DELAY_SLEEP) {
            return false;
        }
    }
    true
}

/// What was said to the last event.
fn last_verdict(core: &Core) -> Option<Verdict> {
    core.journal().as_slice().last().map(|entry| entry.verdict)
}

/// That so many locks stand.
fn too_many(most: u32) -> Option<Verdict> {
    Some(Verdict::Denied(Rule::Limit(Limit::Inhibitors(most))))
}

#[test]
fn locks_have_a_greatest_number(rt: HostRuntime) -> Result<(), Fail> {
    let mut core = played(rt.alloc(), &ROOT)?;
    assert!(rt; lock_sleep(&mut core, rt.alloc(), 8192));
    assert_eq!(rt; last_verdict(&core), Some(Verdict::Granted));
    assert!(rt; lock_sleep(&mut core, rt.alloc(), 1));
    assert_eq!(rt; last_verdict(&core), too_many(8192));
    assert!(rt; play(rt.alloc(), &mut core, b"call 1 3 close 1"));
    assert!(rt; lock_sleep(&mut core, rt.alloc(), 1));
    assert_eq!(rt; last_verdict(&core), Some(Verdict::Granted));
    finish(core);
    Ok(())
}

/// A setup with this configuration and this table.
fn setup(alloc: Global, conf: Conf, table: Table) -> Setup {
    Setup {
        guid: Word::new(alloc),
        users: Items::new(alloc),
        conf,
        conf_text: Bytes::new(alloc),
        table,
        table_text: Bytes::new(alloc),
    }
}

/// What is said to the event of a line under a setup with this configuration and this table.
fn verdict_under(
    core: &Core,
    alloc: Global,
    conf: Conf,
    table: Table,
    line: &[u8],
) -> Option<Verdict> {
    let event = event(alloc, line)?;
    let setup = setup(alloc, conf, table);
    let verdict = judge(core, &setup, &event);
    drop(setup);
    drop(event);
    Some(verdict)
}

/// A configuration that lets so many locks be.
fn most_locks(most: u32) -> Conf {
    let mut conf = Conf::default();
    conf.inhibitors_max = most;
    conf
}

/// What is said to root's call for a lock where so many can be.
fn verdict_on_lock(core: &Core, alloc: Global, most: u32) -> Option<Verdict> {
    let line = b"call 1 9 inhibit idle player % block";
    verdict_under(core, alloc, most_locks(most), Table::default(), line)
}

#[test]
fn the_number_of_locks_is_configured(rt: HostRuntime) -> Result<(), Fail> {
    let mut core = played(rt.alloc(), &ROOT)?;
    assert_eq!(rt; verdict_on_lock(&core, rt.alloc(), 0), too_many(0));
    assert!(rt; lock_sleep(&mut core, rt.alloc(), 2));
    assert_eq!(rt; verdict_on_lock(&core, rt.alloc(), 1), too_many(1));
    assert_eq!(rt; verdict_on_lock(&core, rt.alloc(), 2), too_many(2));
    assert_eq!(rt;
        verdict_on_lock(&core, rt.alloc(), 3),
        Some(Verdict::Granted)
    );
    finish(core);
    Ok(())
}

/// A configuration in which the power key does this, and passes locks or not.
fn power_key(action: KeyAction, passes: bool) -> Conf {
    let mut conf = Conf::default();
    conf.handle_power_key = action;
    conf.power_key_ignore_inhibited = passes;
    conf
}

/// What is said to the power key where it does this, and passes locks or not.
fn verdict_on_key(core: &Core, alloc: Global, action: KeyAction, passes: bool) -> Option<Verdict> {
    let conf = power_key(action, passes);
    verdict_under(core, alloc, conf, Table::default(), b"key power")
}

const POWER_OFF: KeyAction = KeyAction::Operation(OpKind::PowerOff);

/// That the first lock holds it.
const HELD: Verdict = Verdict::Denied(Rule::Inhibited(LockNo(1)));

/// What the power key does, whether it passes locks, and what is said to it where a lock keeps the machine from
/// shutting down.
const BESIDE_A_BLOCK: [(KeyAction, bool, Verdict); 3] = [
    (POWER_OFF, false, HELD),
    (POWER_OFF, true, Verdict::Granted),
    (KeyAction::Lock, false, Verdict::Granted),
];

/// The same where a lock keeps the key.
const KEPT: [(KeyAction, bool, Verdict); 3] = [
    (POWER_OFF, true, HELD),
    (KeyAction::Lock, true, HELD),
    (KeyAction::Ignore, true, Verdict::Denied(Rule::KeyIgnored)),
];

/// Whether that is said to the power key in each of these cases.
fn are_said(core: &Core, alloc: Global, cases: &[(KeyAction, bool, Verdict)]) -> bool {
    for (action, passes, verdict) in cases {
        if verdict_on_key(core, alloc, *action, *passes) != Some(*verdict) {
            return false;
        }
    }
    true
}

#[test]
fn the_power_key_passes_locks_where_it_is_told_to(rt: HostRuntime) -> Result<(), Fail> {
    let mut core = played(rt.alloc(), &ROOT)?;
    assert!(rt; play(rt.alloc(), &mut core, BLOCK_SHUTDOWN));
    assert!(rt; are_said(&core, rt.alloc(), &BESIDE_A_BLOCK));
    finish(core);
    Ok(())
}

#[test]
fn a_lock_on_the_power_key_holds_what_it_is_told_to_do(rt: HostRuntime) -> Result<(), Fail> {
    let mut core = played(rt.alloc(), &ROOT)?;
    let keep = b"call 1 2 inhibit handle-power-key player % block";
    assert!(rt; play(rt.alloc(), &mut core, keep));
    assert!(rt; are_said(&core, rt.alloc(), &KEPT));
    finish(core);
    Ok(())
}

const BESIDE_OTHERS: Action = Action::Power(PowerAction::PowerOff, Qualifier::MultipleSessions);

const PAST_LOCKS: Action = Action::Power(PowerAction::PowerOff, Qualifier::IgnoreInhibit);

/// A table that says this of powering off beside sessions of others, and past locks, whoever asks.
fn table(beside_others: Say, past_locks: Say) -> Table {
    let mut table = Table::default();
    table.set_row(BESIDE_OTHERS, to_all(beside_others));
    table.set_row(PAST_LOCKS, to_all(past_locks));
    table
}

/// A row that says the same to all but root.
fn to_all(said: Say) -> Row {
    Row {
        any: said,
        inactive: said,
        active: said,
    }
}

/// What is said to the second connection, which asks to power off under this table.
fn verdict_on_power_off(core: &Core, alloc: Global, table: Table) -> Option<Verdict> {
    verdict_under(
        core,
        alloc,
        Conf::default(),
        table,
        b"call 2 1 power poweroff",
    )
}

/// Whether the second connection can power off under this table.
fn can_power_off(core: &Core, alloc: Global, table: Table) -> Say {
    let setup = setup(alloc, Conf::default(), table);
    let said = can(core, &setup, ConnId(2), OpKind::PowerOff);
    drop(setup);
    said
}

/// Another user than alice, who has a session, is connected.
const BOB: &[u8] = b"connect 2 1001";

/// What a table says of others and of locks, and what then is said to powering off.
const TABLES: [(Say, Say, Verdict); 5] = [
    (Say::Yes, Say::Yes, Verdict::Granted),
    (
        Say::Yes,
        Say::No,
        Verdict::Denied(Rule::Inhibited(LockNo(1))),
    ),
    (
        Say::Yes,
        Say::Challenge,
        Verdict::Denied(Rule::Inhibited(LockNo(1))),
    ),
    (
        Say::No,
        Say::Yes,
        Verdict::Denied(Rule::ActionRefused(BESIDE_OTHERS)),
    ),
    (
        Say::Challenge,
        Say::No,
        Verdict::Denied(Rule::ActionChallenge(BESIDE_OTHERS)),
    ),
];

#[test]
fn locks_and_sessions_of_others_each_have_an_action(rt: HostRuntime) -> Result<(), Fail> {
    let mut core = played(rt.alloc(), &CREATED)?;
    assert!(rt; play(rt.alloc(), &mut core, BOB));
    assert!(rt; play(rt.alloc(), &mut core, BLOCK_SHUTDOWN));
    for (beside_others, past_locks, verdict) in &TABLES {
        let table = table(*beside_others, *past_locks);
        assert!(rt; verdict_on_power_off(&core, rt.alloc(), table) == Some(*verdict));
    }
    finish(core);
    Ok(())
}

/// What a table says of others and of locks, and whether it then can be, without a lock and with one.
const ABILITIES: [(Say, Say, Say, Say); 5] = [
    (Say::Yes, Say::Yes, Say::Yes, Say::Yes),
    (Say::Yes, Say::Challenge, Say::Yes, Say::Challenge),
    (Say::Challenge, Say::Yes, Say::Challenge, Say::Challenge),
    (Say::Challenge, Say::No, Say::Challenge, Say::No),
    (Say::No, Say::Challenge, Say::No, Say::No),
];

#[test]
fn the_least_of_two_answers_counts(rt: HostRuntime) -> Result<(), Fail> {
    let mut core = played(rt.alloc(), &CREATED)?;
    assert!(rt; play(rt.alloc(), &mut core, BOB));
    for (beside_others, past_locks, without, _) in &ABILITIES {
        let table = table(*beside_others, *past_locks);
        assert_eq!(rt; can_power_off(&core, rt.alloc(), table), *without);
    }
    assert!(rt; play(rt.alloc(), &mut core, BLOCK_SHUTDOWN));
    for (beside_others, past_locks, _, with) in &ABILITIES {
        let table = table(*beside_others, *past_locks);
        assert_eq!(rt; can_power_off(&core, rt.alloc(), table), *with);
    }
    finish(core);
    Ok(())
}
