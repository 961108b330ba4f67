// `login serve` over objects in memory.

ghost use Rattle.std.specs.Prelude.{◌≡◌, ◌<◌, [], IfOk, length};

use crate::handshakes::{HANDSHAKE, ping};
use crate::running::{
    Outcome, bytes, events_recorded, lines_like, plays_again, run_with, sink, still_clock, threads,
};
use login_base::{Bytes, ConnId, Items, Millis, NoMemory, Uid};
use login_edge::{
    Arrival, Bell, HeldSource, Hold, HoldGate, MemClock, MemLink, MemListener, MemSink, MemSpawner,
    OpenGate, Turn,
};
use login_prog::Outside;
use std::alloc::Global;
use std::process::Abort;
use std::sync::Wait;
use std::test::Fail;
use std::thread::Threads;

/// A link that begins, pings with these serials, and hangs up, ringing a bell.
fn pinging(alloc: Global, serials: &[u32], bell: &Bell) -> Result<MemLink, NoMemory> {
    let mut script = Items::new(alloc);
    script.push(Turn::Piece(bytes(alloc, HANDSHAKE)?))?;
    for serial in serials {
        script.push(Turn::Piece(bytes(alloc, &ping(*serial))?))?;
    }
    MemLink::new(
        alloc,
        script,
        4096,
        64,
        Items::new(alloc),
        Some(bell.share()),
    )
}

/// A preamble with no user.
const PREAMBLE: &[u8] = b"login-recording 1\ngo\n";

/// These lines behind the preamble.
fn behind_preamble(alloc: Global, lines: &[u8]) -> Result<Vec<u8>, NoMemory> {
    let mut text = Vec::from_slice(alloc, PREAMBLE)?;
    text.extend_from_slice(lines)?;
    Ok(text)
}

/// A text with the stop behind it.
fn stopped(text: Vec<u8>) -> Result<Bytes, NoMemory> {
    let mut text = text;
    text.extend_from_slice(b"stop\n")?;
    Ok(Items::from_vec(text))
}

/// The preamble, these lines, and the stop, which is held back until a bell was rung so often.
fn held_input(
    alloc: Global,
    lines: &[u8],
    bell: &Bell,
    rings: u64,
) -> Result<HeldSource, NoMemory> {
    let text = behind_preamble(alloc, lines)?;
    let place = text.len();
    let bytes = stopped(text)?;
    let hold = Hold {
        bell: bell.share(),
        rings,
        place,
    };
    HeldSource::new(alloc, bytes, Items::new(alloc), hold)
}

/// Which call of the outside fails.
#[derive(Clone, Copy, PartialEq, Eq)]
enum Fails {
    Nothing,
    Opening,
    FirstReading,
    FirstStart,
    SecondStart,
    FirstLineOfErrors,
}

/// The number of the call that fails, if it is this one.
fn call_if(alloc: Global, is_it: bool, number: u64) -> Result<Items<u64>, NoMemory> {
    let mut calls = Items::new(alloc);
    if is_it {
        calls.push(number)?;
    }
    Ok(calls)
}

/// A listener to which two links of root come: the first makes two calls, and the second one.
fn two_links(alloc: Global, fails: Fails, bell: &Bell) -> Result<MemListener, NoMemory>
    ensures new { IfOk result (λ listener. listener.register.links ≡ []) }
{
    let script = vec![in alloc;
        Arrival::Link(pinging(alloc, &[1, 2], bell)?, Uid(0)),
        Arrival::Link(pinging(alloc, &[1], bell)?, Uid(0)),
    ]?;
    let fails = call_if(alloc, fails == Fails::Opening, 1)?;
    MemListener::new(alloc, Items::from_vec(script), fails)
}

/// A spawner that starts what is to be started.
fn spawner(alloc: Global, fails: Fails) -> Result<MemSpawner, NoMemory> {
    match fails {
        Fails::FirstStart => MemSpawner::new(alloc, call_if(alloc, true, 1)?),
        _ => MemSpawner::new(alloc, call_if(alloc, fails == Fails::SecondStart, 2)?),
    }
}

/// A clock that stands, and rings the bell where it fails.
fn clock(alloc: Global, fails: Fails, bell: &Bell) -> Result<MemClock, NoMemory> {
    let readings = Items::from_vec(vec![in alloc; Millis(0)]?);
    let fails = call_if(alloc, fails == Fails::FirstReading, 1)?;
    MemClock::new(alloc, readings, fails, Some(bell.share()))
}

/// Serves two links. The second call of the first waits until the first call of the second was answered. The stop waits
/// until both have hung up; where a call fails that keeps one from being served, it waits for the other, or for the
/// clock that fails.
fn serve_two<R: Wait + Threads + Sync>(
    rt: &R,
    alloc: Global,
    fails: Fails,
) -> Result<Outcome<MemListener>, NoMemory> {
    let bell = Bell::new(alloc)?;
    let are_both_served = fails == Fails::Nothing || fails == Fails::FirstLineOfErrors;
    let rings = if are_both_served { 2 } else { 1 };
    let failing = call_if(alloc, fails == Fails::FirstLineOfErrors, 1)?;
    let outside = Outside {
        input: held_input(alloc, b"", &bell, rings)?,
        output: sink(alloc)?,
        errors: MemSink::new(alloc, 4096, failing)?,
        listener: two_links(alloc, fails, &bell)?,
        clock: clock(alloc, fails, &bell)?,
        spawner: spawner(alloc, fails)?,
    };
    let words = ["serve", "--dir", "x"];
    if are_both_served {
        let gate = HoldGate::new((ConnId(1), 2), (ConnId(2), 1))?;
        run_with(rt, alloc, &words, outside, &gate)
    } else {
        run_with(rt, alloc, &words, outside, &OpenGate)
    }
}

/// What a run leaves whose calls of the outside fail so. The links that were let in are those with an entry of their
/// connect.
struct Case {
    fails: Fails,
    status: u8,
    errors: &'static [u8],
    events: u64,
    first: u64,
    second: u64,
}

const CASES: &[Case] = &[
    Case {
        fails: Fails::Nothing,
        status: 0,
        errors: b"link 1 closed\nlink 2 closed\n",
        events: 8,
        first: 1,
        second: 1,
    },
    // The recording is whole.
    Case {
        fails: Fails::FirstLineOfErrors,
        status: 4,
        errors: b"write fault\n",
        events: 8,
        first: 1,
        second: 1,
    },
    // Nothing is served, and nothing recorded.
    Case {
        fails: Fails::Opening,
        status: 7,
        errors: b"listener or clock fault\n",
        events: 0,
        first: 0,
        second: 0,
    },
    // The input's reader is not started: the stop is all that happens.
    Case {
        fails: Fails::FirstStart,
        status: 8,
        errors: b"spawn fault\n",
        events: 1,
        first: 0,
        second: 0,
    },
    // The first link is not started: it is dropped, with no entry and no line, and the other is served.
    Case {
        fails: Fails::SecondStart,
        status: 8,
        errors: b"link 2 closed\nspawn fault\n",
        events: 4,
        first: 0,
        second: 1,
    },
];

/// A run left this status, these errors, and a recording with so many stops.
fn expect_end<R: Abort, N>(rt: &R, run: &Outcome<N>, status: u8, errors: &[u8], stops: u64) {
    assert_eq!(rt; run.status, status);
    assert!(rt; run.errors() == errors);
    assert_eq!(rt; lines_like(run.output(), b"stop"), stops);
}

/// A run left what this case says, and its recording plays again, to as many entries.
fn expect<R: Abort + Wait + Threads + Sync, N>(
    rt: &R,
    alloc: Global,
    run: &Outcome<N>,
    case: &Case,
) -> Result<(), Fail> {
    expect_end(
        rt,
        run,
        case.status,
        case.errors,
        u64::from(case.events > 0),
    );
    assert_eq!(rt; events_recorded(run.output()), case.events);
    assert_eq!(rt; lines_like(run.output(), b"connect 1 "), case.first);
    assert_eq!(rt; lines_like(run.output(), b"connect 2 "), case.second);
    if case.events > 0 {
        plays_again(rt, alloc, run)
    } else {
        Ok(())
    }
}

fn serve_case<R: Abort + Wait + Threads + Sync>(
    rt: &R,
    alloc: Global,
    case: &Case,
) -> Result<(), Fail> {
    let run = serve_two(rt, alloc, case.fails)?;
    expect(rt, alloc, &run, case)
}

/// Two links are served, with nothing that fails or one call of the outside.
#[test]
fn links_are_served_and_faults_told(rt: HostRuntime) -> Result<(), Fail> {
    for case in CASES {
        serve_case(&rt, rt.alloc(), case)?;
    }
    Ok(())
}

/// Where a text stands in another.
fn place_of(text: &[u8], part: &[u8]) -> Option<usize>
    requires { 0 < length part.now }
{
    text.windows(part.len()).position(|window| window == part)
}

/// Links are served beside each other: the second call of the first waited for the call of the second.
#[test]
fn links_are_served_beside_each_other(rt: HostRuntime) -> Result<(), Fail> {
    let run = serve_two(&rt, rt.alloc(), Fails::Nothing)?;
    let second = place_of(run.output(), b"call 1 2 ping\n");
    let first = place_of(run.output(), b"call 2 1 ping\n");
    assert!(rt; first.is_some() && first < second);
    Ok(())
}

/// Where the clock fails at once, what happened until then is recorded.
#[test]
fn clock_that_fails_at_once_ends_the_run(rt: HostRuntime) -> Result<(), Fail> {
    let run = serve_two(&rt, rt.alloc(), Fails::FirstReading)?;
    assert_eq!(rt; run.status, 7);
    assert!(rt; run.errors().ends_with(CLOCK_FAULT));
    assert_eq!(rt; lines_like(run.output(), b"stop"), 1);
    plays_again(&rt, rt.alloc(), &run)
}

/// Serves no link while these lines are read behind a preamble; the stop waits for the bell.
fn serve_none<R: Wait + Threads + Sync>(
    rt: &R,
    alloc: Global,
    lines: &[u8],
    clock: MemClock,
    bell: &Bell,
) -> Result<Outcome<MemListener>, NoMemory> {
    let outside = Outside {
        input: held_input(alloc, lines, bell, 1)?,
        output: sink(alloc)?,
        errors: sink(alloc)?,
        listener: MemListener::new(alloc, Items::new(alloc), Items::new(alloc))?,
        clock,
        spawner: threads(alloc)?,
    };
    run_with(rt, alloc, &["serve", "--dir=x"], outside, &OpenGate)
}

/// A line of the hardware.
const ADDED: &[u8] = b"add 226 0 drm seat0\n";

/// And one that has no place in the input of `serve`.
const TICKED: &[u8] = b"add 226 0 drm seat0\ntick 5\n";

const CLOCK_FAULT: &[u8] = b"listener or clock fault\n";

const REFUSED: &[u8] = b"line 4: wrong-place\n";

/// A clock that reads 0 once, and then fails, ringing the bell.
fn failing_clock(alloc: Global, bell: &Bell) -> Result<MemClock, NoMemory> {
    let readings = Items::from_vec(vec![in alloc; Millis(0)]?);
    let fails = Items::from_vec(Vec::from_slice(alloc, &[2, 3, 4, 5, 6, 7, 8])?);
    MemClock::new(alloc, readings, fails, Some(bell.share()))
}

/// The clock reads 0 once, and then fails, which ends the run.
#[test]
fn failing_clock_ends_the_run(rt: HostRuntime) -> Result<(), Fail> {
    let alloc = rt.alloc();
    let bell = Bell::new(alloc)?;
    let run = serve_none(&rt, alloc, ADDED, failing_clock(alloc, &bell)?, &bell)?;
    expect_end(&rt, &run, 7, CLOCK_FAULT, 1);
    Ok(())
}

/// A refused line ends the run, and what happened before is recorded.
#[test]
fn refused_line_ends_the_run(rt: HostRuntime) -> Result<(), Fail> {
    let alloc = rt.alloc();
    let bell = Bell::new(alloc)?;
    bell.ring();
    let run = serve_none(&rt, alloc, TICKED, still_clock(alloc)?, &bell)?;
    expect_end(&rt, &run, 2, REFUSED, 1);
    assert_eq!(rt; events_recorded(run.output()), 2);
    Ok(())
}
