// What no clause can show: that marks come behind what is in the list, at a type that tells facts.

ghost use Rattle.std.specs.Prelude.{◌≤◌, [], IfOk};

use login_base::{ConnId, DevNo, HandleNo, LockNo, NoMemory, Reserved, SeatName, SessId, Uid};
use login_model::{Conf, Fact, Key, LockMode, Look, Mark, Notice, OpKind, StartFacts, Whom};
use login_table::is_above;
use std::alloc::Global;
use switch_core::{acknowledge, ask, force, resume, settle, withdraw};

/// A machine to which nothing happened yet.
#[derive(Drop)]
struct Blank {
    facts: StartFacts,
}

impl Look for Blank {
    ghost trail = { λ b. [] };

    fn fact(&self, key: &Key) -> &Fact {
        self.facts.fact(key)
    }

    fn fresh_handle(&self) -> HandleNo {
        HandleNo(1)
    }

    fn next_session(&self, after: Option<SessId>) -> Option<SessId> {
        None
    }

    fn next_user(&self, after: Option<Uid>) -> Option<Uid> {
        None
    }

    fn next_seat(&self, after: Option<SeatName>) -> Option<SeatName> {
        if is_above(after, SeatName::SEAT0) {
            Some(SeatName::SEAT0)
        } else {
            None
        }
    }

    fn next_device(&self, after: Option<DevNo>) -> Option<DevNo> {
        None
    }

    fn next_taken(&self, session: SessId, after: Option<DevNo>) -> Option<DevNo> {
        None
    }

    fn next_taker(&self, device: DevNo, after: Option<SessId>) -> Option<SessId> {
        None
    }

    fn next_lock(&self, after: Option<LockNo>) -> Option<LockNo> {
        None
    }

    fn next_conn(&self, after: Option<ConnId>) -> Option<ConnId> {
        None
    }

    fn session_count(&self) -> u32 {
        0
    }

    fn conn_count(&self) -> u32 {
        0
    }

    fn device_count(&self) -> u32 {
        0
    }

    fn lock_count(&self) -> u32 {
        0
    }

    fn is_held_up(&self, kind: OpKind, mode: LockMode) -> bool {
        false
    }

    fn on_terminal(&self, vt: u32) -> Option<SessId> {
        None
    }

    fn is_seated(&self, uid: u32) -> bool {
        false
    }

    fn is_active_user(&self, uid: u32) -> bool {
        false
    }
}

/// A list with a notice in it, and room for one mark more.
fn begun(alloc: Global) -> Result<Reserved<Mark>, NoMemory>
    ensures { IfOk result (λ out. 1 ≤ out.spare) }
{
    let mut out = Reserved::new(alloc);
    out.reserve(2)?;
    out.push(Mark::Say(Whom::All, Notice::PrepareSleep(true)));
    Ok(out)
}

/// The number that the second of two marks sets.
fn second_number(marks: &[Mark]) -> Option<u32> {
    match marks {
        [_, Mark::Set(_, fact)] => fact.number(),
        _ => None,
    }
}

/// What a request for a terminal makes pending.
fn asked(alloc: Global, vt: u32) -> Result<Option<u32>, NoMemory> {
    let blank = Blank {
        facts: StartFacts::new(),
    };
    let mut out = begun(alloc)?;
    ask(&blank, vt, &mut out);
    Ok(second_number(out.as_slice()))
}

/// Terminals that are asked for, and what is pending then: nothing for the current one.
const CASES: [(u32, Option<u32>); 4] = [(1, None), (2, Some(2)), (63, Some(63)), (64, Some(64))];

#[test]
fn another_terminal_is_pending(rt: HostRuntime) -> Result<(), NoMemory> {
    for (vt, pending) in CASES.iter() {
        assert!(rt; asked(rt.alloc(), *vt)? == *pending);
    }
    Ok(())
}

/// How many marks are in the list after the calls that have nothing to do.
fn quiet_calls(alloc: Global) -> Result<usize, NoMemory> {
    let blank = Blank {
        facts: StartFacts::new(),
    };
    let device = DevNo {
        major: 13,
        minor: 64,
    };
    let mut out = begun(alloc)?;
    acknowledge(&blank, SessId(1), device, &mut out);
    withdraw(&blank, SessId(1), device, &mut out);
    settle(&blank, &Conf::default(), &mut out);
    force(&blank, SessId(1), &mut out);
    resume(&blank, SessId(1), &mut out);
    Ok(out.len())
}

#[test]
fn what_is_not_there_makes_no_marks(rt: HostRuntime) -> Result<(), NoMemory> {
    assert!(rt; quiet_calls(rt.alloc())? == 1);
    Ok(())
}
