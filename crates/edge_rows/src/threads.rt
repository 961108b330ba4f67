// Jobs in threads, through the bounds of their traits.

ghost use Rattle.std.specs.Prelude.{◌≡◌, IfSome};

use login_base::{Items, NoMemory};
use login_edge::{
    Bell, Got, HeldSource, Hold, Job, Link, MemLink, MemSpawner, Source, Spawner, Started, say_all,
};
use std::alloc::Global;
use std::snapshot::Snapshot;
use std::sync::Wait;
use std::thread;
use std::thread::{Promise, Scope, Threads};

fn read_once<S: Source + Send + Drop>(source: &mut S, buf: &mut [u8; 4]) -> Got {
    source.read(buf)
}

/// Reads up to where its source waits, rings a bell, reads on, and tells how often the other bell, which
/// its source waits for, had been rung by then.
#[derive(Drop)]
struct ReadOn {
    source: HeldSource,
    own: Bell,
    other: Bell,
}

#[derive(Drop)]
struct AnyNote;

impl Promise<Option<u64>> for AnyNote {
    ghost kept_by = { λ note out. Unit {0} };
}

impl Job for ReadOn {
    type Out = Option<u64>;

    type Note = AnyNote;

    ghost gives = { λ job out. Unit {0} };

    fn note(&self) -> AnyNote {
        AnyNote
    }

    fn work(self) -> Option<u64> {
        let ReadOn {
            mut source,
            own,
            other,
        } = self;
        let mut buf = [0; 4];
        if read_once(&mut source, &mut buf) != Got::Bytes(3) {
            return None;
        }
        own.ring();
        if read_once(&mut source, &mut buf) != Got::Bytes(2) {
            return None;
        }
        Some(other.rings())
    }

    fn decline(self) -> Option<u64> {
        None
    }
}

/// A source of five bytes, the last two of which are held back until this bell was rung.
fn held(alloc: Global, bell: &Bell) -> Result<HeldSource, NoMemory> {
    let text = Items::from_vec(Vec::from_slice(alloc, b"abcde")?);
    let hold = Hold {
        bell: bell.share(),
        rings: 1,
        place: 3,
    };
    HeldSource::new(alloc, text, Items::new(alloc), hold)
}

fn read_on(alloc: Global, own: &Bell, other: &Bell) -> Result<ReadOn, NoMemory> {
    Ok(ReadOn {
        source: held(alloc, other)?,
        own: own.share(),
        other: other.share(),
    })
}

/// What a thread gave; a job that answered here gives nothing.
fn out_of<R: Threads, N: Promise<Option<u64>> + Drop>(
    rt: &R,
    started: Started<Option<u64>, N>,
) -> Option<u64> {
    match started {
        Started::Running(handle) => handle.join(rt),
        Started::Back(_) => None,
    }
}

fn work_in<'s, E, R: Threads, P: Spawner>(
    rt: &R,
    alloc: Global,
    scope: &Scope<'s, E>,
    spawner: &mut P,
    one: ReadOn,
    two: ReadOn,
) -> (Option<u64>, Option<u64>) {
    let one = spawner.start(alloc, scope, one);
    let two = spawner.start(alloc, scope, two);
    (out_of(rt, one), out_of(rt, two))
}

/// Does two jobs in threads beside each other.
fn work_apart<R: Threads + Wait + Sync, P: Spawner>(
    rt: &R,
    alloc: Global,
    spawner: &mut P,
    one: ReadOn,
    two: ReadOn,
) -> (Option<u64>, Option<u64>) {
    thread::scope(thread::scope_env(), rt, |scope| {
        work_in(rt, alloc, scope, spawner, one, two)
    })
}

/// The source of each job waits for the other one's bell; the third start is declined.
#[test]
fn jobs_wait_for_each_other_or_decline(rt: HostRuntime) -> Result<(), NoMemory> {
    let alloc = rt.alloc();
    let one = Bell::new(alloc)?;
    let two = Bell::new(alloc)?;
    let declined = Items::from_vec(Vec::from_slice(alloc, &[3])?);
    let mut spawner = MemSpawner::new(alloc, declined)?;
    for outs in [(Some(1), Some(1)), (None, Some(1))] {
        let first = read_on(alloc, &one, &two)?;
        let second = read_on(alloc, &two, &one)?;
        assert!(rt; work_apart(&rt, alloc, &mut spawner, first, second) == outs);
    }
    assert!(rt; (one.rings(), two.rings()) == (1, 2));
    Ok(())
}

/// Says a text on a link.
#[derive(Drop)]
struct Speak<L: Link> {
    link: L,
}

#[derive(Drop)]
struct SpeakNote<L: Link>(Snapshot<L>);

impl<L: Link> Promise<L> for SpeakNote<L> {
    ghost kept_by = { λ note out. L.number out ≡ L.number note.0.value };
}

impl<L: Link> Job for Speak<L> {
    type Out = L;

    type Note = SpeakNote<L>;

    ghost gives = { λ job out. L.number out ≡ L.number job.link };

    fn note(&self) -> SpeakNote<L> {
        SpeakNote(Snapshot::of(&self.link))
    }

    fn work(self) -> L {
        let Speak { mut link } = self;
        say_all(&mut link, b"hello");
        link
    }

    fn decline(self) -> L {
        let Speak { link } = self;
        link
    }
}

fn speak_in<'s, E, R: Threads, P: Spawner, L: Link + Send + 's>(
    rt: &R,
    alloc: Global,
    scope: &Scope<'s, E>,
    spawner: &mut P,
    link: L,
) -> Option<L>
    ensures { IfSome result (λ out. L.number out ≡ L.number link) }
{
    match spawner.start(alloc, scope, Speak { link }) {
        Started::Running(handle) => Some(handle.join(rt)),
        Started::Back(_) => None,
    }
}

/// Says it in a thread.
fn speak_apart<R: Threads + Wait + Sync>(
    rt: &R,
    alloc: Global,
    spawner: &mut MemSpawner,
    link: MemLink,
) -> Option<MemLink> {
    thread::scope(
        thread::scope_env(),
        rt,
        |scope| speak_in(rt, alloc, scope, spawner, link),
    )
}

/// Whether a link was given back, on which it was said.
fn has_said(link: Option<MemLink>) -> bool {
    match link {
        Some(link) => link.said() == b"hello".as_slice(),
        None => false,
    }
}

#[test]
fn link_speaks_in_a_thread(rt: HostRuntime) -> Result<(), NoMemory> {
    let alloc = rt.alloc();
    let mut spawner = MemSpawner::new(alloc, Items::new(alloc))?;
    let link = MemLink::new(alloc, Items::new(alloc), 8, 2, Items::new(alloc), None)?;
    assert!(rt; has_said(speak_apart(&rt, alloc, &mut spawner, link)));
    Ok(())
}
