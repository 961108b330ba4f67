// The values of each answer. Lists of sessions and users are printed in whole runs too, in `login_rows`.

use crate::entries::is_printed;
use login_base::{ConnId, HandleNo, Items, Millis, NoMemory, SeatName, SessId, Uid, Word};
use login_model::{
    Answer, Boxed, Inhibited, Input, KnownUser, Lock, LockMode, ManagerProperty, Property,
    PropertyRow, PropertyValue, Say, SessionRow, Verdict,
};
use std::alloc::Global;
use std::process::Abort;
use std::test::Fail;

/// The answer is printed so behind a granted event.
fn is_answered(
    rt: &impl Abort,
    alloc: Global,
    answer: Answer,
    expected: &[u8],
) -> Result<(), Fail> {
    is_printed(rt, alloc, Verdict::Granted, answer, expected)
}

#[test]
fn paths_of_objects(rt: HostRuntime) -> Result<(), Fail> {
    let alloc = rt.alloc();
    let seat = SeatName::read(b"seat-x")?;
    is_answered(&rt, alloc, Answer::Nothing, b" granted\n")?;
    is_answered(
        &rt,
        alloc,
        Answer::Session(SessId(3)),
        b" granted /org/freedesktop/login1/session/c3\n",
    )?;
    is_answered(
        &rt,
        alloc,
        Answer::User(Uid(1000)),
        b" granted /org/freedesktop/login1/user/_1000\n",
    )?;
    is_answered(
        &rt,
        alloc,
        Answer::Seat(Boxed::new(alloc, seat)?),
        b" granted /org/freedesktop/login1/seat/seat_2dx\n",
    )
}

#[test]
fn handles_and_what_can_be(rt: HostRuntime) -> Result<(), Fail> {
    let alloc = rt.alloc();
    is_answered(&rt, alloc, Answer::Can(Say::No), b" granted no\n")?;
    is_answered(
        &rt,
        alloc,
        Answer::Can(Say::Challenge),
        b" granted challenge\n",
    )?;
    is_answered(&rt, alloc, Answer::Can(Say::Yes), b" granted yes\n")?;
    is_answered(&rt, alloc, Answer::Handle(HandleNo(5)), b" granted 5\n")?;
    is_answered(
        &rt,
        alloc,
        Answer::Taken(HandleNo(5), false),
        b" granted 5 false\n",
    )?;
    is_answered(
        &rt,
        alloc,
        Answer::Taken(HandleNo(6), true),
        b" granted 6 true\n",
    )
}

/// A row of a session.
fn session_row(
    alloc: Global,
    session: u32,
    uid: u32,
    name: &[u8],
    seat: Option<SeatName>,
) -> Result<SessionRow, NoMemory> {
    let seat = match seat {
        Some(seat) => Some(Boxed::new(alloc, seat)?),
        None => None,
    };
    Ok(SessionRow {
        session: SessId(session),
        uid: Uid(uid),
        name: Word::from_slice(alloc, name)?,
        seat,
    })
}

#[test]
fn a_list_of_sessions(rt: HostRuntime) -> Result<(), Fail> {
    let seat = SeatName::read(b"seat0")?;
    let mut rows = Items::new(rt.alloc());
    rows.push(session_row(rt.alloc(), 1, 1000, b"alice", Some(seat))?)?;
    rows.push(session_row(rt.alloc(), 12, 7, b"", None)?)?;
    let expected =
        b" granted [(c1 1000 alice seat0 /org/freedesktop/login1/session/c1) (c12 7 % % /org/freedesktop/login1/session/c12)]\n";
    is_answered(&rt, rt.alloc(), Answer::Sessions(rows), expected)
}

#[test]
fn a_list_of_users(rt: HostRuntime) -> Result<(), Fail> {
    let mut rows = Items::new(rt.alloc());
    for (uid, name) in [(0, b"root".as_slice()), (1000, b"al ice".as_slice())] {
        rows.push(KnownUser {
            uid: Uid(uid),
            name: Word::from_slice(rt.alloc(), name)?,
        })?;
    }
    let expected =
        b" granted [(0 root /org/freedesktop/login1/user/_0) (1000 al%20ice /org/freedesktop/login1/user/_1000)]\n";
    is_answered(&rt, rt.alloc(), Answer::Users(rows), expected)
}

#[test]
fn a_list_of_seats(rt: HostRuntime) -> Result<(), Fail> {
    let mut names = Items::new(rt.alloc());
    for name in [
        b"seat".as_slice(),
        b"seat-x".as_slice(),
        b"seat0".as_slice(),
    ] {
        names.push(SeatName::read(name)?)?;
    }
    let expected =
        b" granted [(seat /org/freedesktop/login1/seat/seat) (seat-x /org/freedesktop/login1/seat/seat_2dx) (seat0 /org/freedesktop/login1/seat/seat0)]\n";
    is_answered(&rt, rt.alloc(), Answer::Seats(names), expected)?;
    is_answered(
        &rt,
        rt.alloc(),
        Answer::Seats(Items::new(rt.alloc())),
        b" granted []\n",
    )
}

/// A lock on the sleep and the lid.
fn a_lock(alloc: Global) -> Result<Lock, NoMemory> {
    Ok(Lock {
        what: Inhibited {
            shutdown: false,
            sleep: true,
            idle: false,
            handle_power_key: false,
            handle_suspend_key: false,
            handle_hibernate_key: false,
            handle_lid_switch: true,
        },
        mode: LockMode::Block,
        uid: Uid(1000),
        who: Word::from_slice(alloc, b"a player")?,
        why: Word::new(alloc),
        holder: ConnId(7),
    })
}

#[test]
fn a_list_of_locks(rt: HostRuntime) -> Result<(), Fail> {
    let mut locks = Items::new(rt.alloc());
    locks.push(a_lock(rt.alloc())?)?;
    let expected = b" granted [(sleep:handle-lid-switch a%20player % block 1000 7)]\n";
    is_answered(&rt, rt.alloc(), Answer::Inhibitors(locks), expected)
}

#[test]
fn what_devices_reported(rt: HostRuntime) -> Result<(), Fail> {
    let mut inputs = Items::new(rt.alloc());
    for (kind, code, value) in [(1, 30, 1), (3, 65535, -2147483648)] {
        inputs.push(Input { kind, code, value })?;
    }
    let expected = b" granted [(1 30 1) (3 65535 -2147483648)]\n";
    is_answered(&rt, rt.alloc(), Answer::Inputs(inputs), expected)
}

/// The value is printed so.
fn is_valued(
    rt: &impl Abort,
    alloc: Global,
    value: PropertyValue,
    expected: &[u8],
) -> Result<(), Fail> {
    is_answered(rt, alloc, Answer::Property(value), expected)
}

#[test]
fn values_of_single_types(rt: HostRuntime) -> Result<(), Fail> {
    let alloc = rt.alloc();
    let text = Word::from_slice(alloc, b"a b")?;
    is_valued(
        &rt,
        alloc,
        PropertyValue::Text(text),
        b" granted <s a%20b>\n",
    )?;
    is_valued(
        &rt,
        alloc,
        PropertyValue::Text(Word::new(alloc)),
        b" granted <s %>\n",
    )?;
    is_valued(
        &rt,
        alloc,
        PropertyValue::Number(4294967295),
        b" granted <u 4294967295>\n",
    )?;
    is_valued(&rt, alloc, PropertyValue::Count(3), b" granted <t 3>\n")?;
    is_valued(
        &rt,
        alloc,
        PropertyValue::Time(Millis(18446744073709551615)),
        b" granted <t 18446744073709551615000>\n",
    )?;
    is_valued(
        &rt,
        alloc,
        PropertyValue::Flag(true),
        b" granted <b true>\n",
    )?;
    is_valued(
        &rt,
        alloc,
        PropertyValue::Inhibited(a_lock(alloc)?.what),
        b" granted <s sleep:handle-lid-switch>\n",
    )
}

#[test]
fn values_with_paths(rt: HostRuntime) -> Result<(), Fail> {
    let alloc = rt.alloc();
    is_valued(
        &rt,
        alloc,
        PropertyValue::User(Uid(7)),
        b" granted <(uo) (7 /org/freedesktop/login1/user/_7)>\n",
    )?;
    let seat = Boxed::new(alloc, SeatName::read(b"seat-x")?)?;
    is_valued(
        &rt,
        alloc,
        PropertyValue::Seat(Some(seat)),
        b" granted <(so) (seat-x /org/freedesktop/login1/seat/seat_2dx)>\n",
    )?;
    is_valued(
        &rt,
        alloc,
        PropertyValue::Seat(None),
        b" granted <(so) (% /)>\n",
    )
}

#[test]
fn values_with_sessions(rt: HostRuntime) -> Result<(), Fail> {
    let alloc = rt.alloc();
    is_valued(
        &rt,
        alloc,
        PropertyValue::Session(Some(SessId(3))),
        b" granted <(so) (c3 /org/freedesktop/login1/session/c3)>\n",
    )?;
    is_valued(
        &rt,
        alloc,
        PropertyValue::Session(None),
        b" granted <(so) (% /)>\n",
    )?;
    let mut sessions = Items::new(alloc);
    sessions.push(SessId(3))?;
    sessions.push(SessId(12))?;
    is_valued(
        &rt,
        alloc,
        PropertyValue::Sessions(sessions),
        b" granted <a(so) [(c3 /org/freedesktop/login1/session/c3) (c12 /org/freedesktop/login1/session/c12)]>\n",
    )
}

#[test]
fn rows_of_properties_and_the_bus(rt: HostRuntime) -> Result<(), Fail> {
    let alloc = rt.alloc();
    let mut rows = Items::new(alloc);
    rows.push(PropertyRow {
        property: Property::Manager(ManagerProperty::CurrentSessions),
        value: PropertyValue::Count(2),
    })?;
    rows.push(PropertyRow {
        property: Property::Manager(ManagerProperty::Docked),
        value: PropertyValue::Flag(false),
    })?;
    is_answered(
        &rt,
        alloc,
        Answer::Properties(rows),
        b" granted [{NCurrentSessions <t 2>} {Docked <b false>}]\n",
    )?;
    is_answered(
        &rt,
        alloc,
        Answer::Properties(Items::new(alloc)),
        b" granted []\n",
    )?;
    is_answered(
        &rt,
        alloc,
        Answer::UniqueName(ConnId(7)),
        b" granted :1.7\n",
    )?;
    let guid = Word::from_slice(alloc, b"00112233445566778899aabbccddeeff")?;
    is_answered(
        &rt,
        alloc,
        Answer::MachineId(guid),
        b" granted 00112233445566778899aabbccddeeff\n",
    )
}
