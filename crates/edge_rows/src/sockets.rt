// Sockets, the clock and threads of the machine, both ends of each socket in one process.

use crate::descriptors::own_path;
use libc::geteuid;
use login_base::{Items, NoMemory, Uid};
use login_edge::{
    Accepted, Clock, Heard, Job, Link, Listener, Opened, Reading, Spawner, Started, Took, WriteEnd,
    say_all,
};
use login_real::{LinkWaker, MonotonicClock, SocketLink, SocketListener, ThreadSpawner};
use std::alloc::Global;
use std::fs::{Files, Permissions};
use std::io::{ErrorKind, Read, Write};
use std::os::unix::fs::{MetadataExt, PermissionsExt, chown, symlink};
use std::os::unix::net::{UnixListener, UnixStream};
use std::sync::Wait;
use std::sync::atomic::{AtomicBool, Ordering};
use std::test::Fail;
use std::thread::{Promise, Scope, Threads};
use std::time::{Clock as SystemClock, Duration};
use std::{fs, io, thread};

/// The last user of most tests, and of one that takes a while to open its sockets. The first is root.
const FEW: u32 = 3;

const MANY: u32 = 300;

/// Somebody who is not root.
const SOMEBODY: u32 = 1000;

/// A folder that no other test and no other run has, which is not there yet, its users, the last of them, and the
/// socket of that one.
#[derive(Clone, Copy)]
struct Place<'p> {
    dir: &'p str,
    uids: &'p Items<Uid>,
    last: u32,
    socket: &'p str,
}

/// The users from root to the last.
fn users(alloc: Global, last: u32) -> Result<Items<Uid>, NoMemory> {
    let mut uids = Items::new(alloc);
    for uid in 0..last.saturating_add(1) {
        uids.push(Uid(uid))?;
    }
    Ok(uids)
}

fn open_once<N: Listener>(listener: &mut N, dir: &str, uids: &Items<Uid>) -> Opened {
    listener.open(dir.as_bytes(), uids)
}

/// Whether a listener is opened.
fn opens<N: Listener>(listener: &mut N, place: Place) -> bool {
    open_once(listener, place.dir, place.uids) == Opened::Ready
}

/// Whether a folder is refused.
fn refuses<N: Listener>(listener: &mut N, dir: &str, place: Place) -> bool {
    open_once(listener, dir, place.uids) == Opened::Failed
}

/// Asks until a link comes, so often at most.
fn take_link<N: Listener>(listener: &mut N) -> Option<(N::Link, Uid)> {
    for _ in 0..100u32 {
        if let Accepted::Came(link, uid) = listener.accept() {
            return Some((link, uid));
        }
    }
    None
}

fn read_once<L: Link>(link: &mut L, buf: &mut [u8; 4]) -> Heard {
    link.read(buf)
}

fn write_once<L: Link>(link: &mut L, piece: &[u8; 4096]) -> Took {
    link.write(piece)
}

/// The next connection of a client to the socket of the last user, and its link.
fn connected(
    host: &HostRuntime,
    listener: &mut SocketListener<HostRuntime>,
    place: Place,
) -> io::Result<(UnixStream, SocketLink)> {
    let client = UnixStream::connect(host, place.socket)?;
    match take_link(listener) {
        Some((link, uid)) if uid.0 == place.last => Ok((client, link)),
        _ => Err(io::Error::from(ErrorKind::NotConnected)),
    }
}

/// Whether a link hears what its client says, in two pieces.
fn hears(client: &mut UnixStream, link: &mut SocketLink) -> io::Result<bool> {
    let mut buf = [0; 4];
    client.write_all(b"hello")?;
    let first = read_once(link, &mut buf);
    let is_front = &buf == b"hell";
    let second = read_once(link, &mut buf);
    Ok(is_front && first == Heard::Bytes(4) && second == Heard::Bytes(1))
}

/// Whether a client hears what its link says.
fn is_heard(client: &mut UnixStream, link: &mut SocketLink) -> io::Result<bool> {
    let mut buf = [0; 4];
    let said = say_all(link, b"good");
    client.read_exact(&mut buf)?;
    Ok(&buf == b"good" && said == WriteEnd::Done)
}

/// Whether a write fails in the end.
fn fills(link: &mut SocketLink) -> bool {
    let piece = [7; 4096];
    for _ in 0..100_000u32 {
        if write_once(link, &piece) == Took::Failed {
            return true;
        }
    }
    false
}

/// Whether a client that reads nothing fails its link, some seconds on.
fn fails_unread<C: SystemClock>(clock: &C, link: &mut SocketLink) -> io::Result<bool> {
    let start = clock.monotonic()?;
    let has_failed = fills(link);
    let time = clock.monotonic()?.saturating_sub(start);
    Ok(has_failed && time < Duration::from_secs(20))
}

/// Whether both ends hear each other, until the client reads no more.
fn exchange(
    host: &HostRuntime,
    client: &mut UnixStream,
    link: &mut SocketLink,
) -> io::Result<bool> {
    Ok(hears(client, link)? && is_heard(client, link)? && fails_unread(host, link)?)
}

/// Whether a client and its link talk, until the client is gone with mail unread: this ends its link.
fn links_talk(
    host: &HostRuntime,
    listener: &mut SocketListener<HostRuntime>,
    place: Place,
) -> io::Result<bool> {
    let is_open = opens(listener, place);
    let (mut client, mut link) = connected(host, listener, place)?;
    let said = exchange(host, &mut client, &mut link);
    drop(client);
    let heard = read_once(&mut link, &mut [0; 4]);
    drop(link);
    Ok(said? && is_open && heard == Heard::End)
}

/// The mode and the owner of what stands at a place.
fn mode_and_owner<F: Files>(files: &F, path: &str) -> io::Result<(u32, u32)> {
    let found = fs::symlink_metadata(files, path)?;
    Ok((found.permissions().mode() & 0o7777, found.uid()))
}

/// Whether the folder and the last user's socket are as they should be: each socket is its user's, where root runs the
/// program; else all is the program's own.
fn has_modes<F: Files>(files: &F, place: Place) -> io::Result<bool> {
    let own = geteuid();
    let (mode, owner) = if own == 0 {
        (0o711, place.last)
    } else {
        (0o700, own)
    };
    let folder = mode_and_owner(files, place.dir)?;
    let socket = mode_and_owner(files, place.socket)?;
    Ok(folder == (mode, own) && socket == (0o600, owner))
}

/// Whether somebody else could have connected to a socket that is meant for a user alone, when it was looked at: the
/// folder was open, and the socket was then not yet the user's alone.
fn is_open_to_others<F: Files>(files: &F, dir: &str, socket: &str, owner: u32) -> io::Result<bool> {
    let (folder, _) = mode_and_owner(files, dir)?;
    let found = mode_and_owner(files, socket)?;
    Ok(folder & 0o077 != 0 && found != (0o600, owner))
}

/// Looks at a socket until it is told to end. How often the socket was open to others.
fn watch<F: Files>(files: &F, dir: &str, socket: &str, owner: u32, is_over: &AtomicBool) -> u32 {
    let mut times = 0u32;
    for _ in 0..u32::MAX {
        if is_over.load(Ordering::SeqCst) {
            return times;
        }
        if matches!(is_open_to_others(files, dir, socket, owner), Ok(true)) {
            times = times.saturating_add(1);
        }
    }
    times
}

/// Whether a listener is opened while its last socket is watched, which is never open to others.
fn opens_watched<R: Threads + Wait + Sync>(
    rt: &R,
    host: &HostRuntime,
    listener: &mut SocketListener<HostRuntime>,
    place: Place,
) -> io::Result<bool> {
    let is_over = AtomicBool::new(false);
    let own = geteuid();
    let owner = if own == 0 { place.last } else { own };
    let (dir, socket) = (place.dir, place.socket);
    thread::scope(thread::scope_env(), rt, |scope| {
        let watcher = scope.spawn(|| watch(host, dir, socket, owner, &is_over))?;
        let is_open = opens(listener, place);
        is_over.store(true, Ordering::SeqCst);
        Ok(watcher.join(rt) == 0 && is_open)
    })
}

/// Whether a file that has the place of a socket stays, with nothing beside it.
fn leaves_file(
    host: &HostRuntime,
    listener: &mut SocketListener<HostRuntime>,
    place: Place,
) -> io::Result<bool> {
    fs::create_dir(host, place.dir)?;
    fs::write(host, place.socket, b"kept".as_slice())?;
    let is_refused = refuses(listener, place.dir, place);
    let is_kept = fs::read(host, place.socket)?.as_slice() == b"kept".as_slice();
    fs::remove_file(host, place.socket)?;
    fs::remove_dir(host, place.dir)?;
    Ok(is_refused && is_kept)
}

/// Whether a socket that somebody serves is still served.
fn leaves_served(
    host: &HostRuntime,
    listener: &mut SocketListener<HostRuntime>,
    place: Place,
) -> io::Result<bool> {
    fs::create_dir(host, place.dir)?;
    let served = UnixListener::bind(host, place.socket)?;
    let is_refused = refuses(listener, place.dir, place);
    let is_served = UnixStream::connect(host, place.socket).is_ok();
    drop(served);
    Ok(is_refused && is_served)
}

/// Whether a second listener gets nothing of the folder of this one.
fn refuses_second(host: &HostRuntime, waker: &LinkWaker, place: Place) -> bool {
    let mut second = SocketListener::new(host, host.alloc(), waker);
    let is_refused = refuses(&mut second, place.dir, place);
    second.close();
    is_refused
}

/// Whether a listener replaces the socket that an earlier run has left, and no other one replaces its own.
fn replaces_left(
    host: &HostRuntime,
    listener: &mut SocketListener<HostRuntime>,
    waker: &LinkWaker,
    place: Place,
) -> io::Result<bool> {
    let is_open = opens(listener, place);
    let is_refused = refuses_second(host, waker, place);
    let (client, link) = connected(host, listener, place)?;
    drop(client);
    drop(link);
    Ok(is_open && is_refused)
}

/// Whether each place that is taken is left, and one that was left is taken.
fn leaves_taken(
    host: &HostRuntime,
    listener: &mut SocketListener<HostRuntime>,
    waker: &LinkWaker,
    place: Place,
) -> io::Result<bool> {
    Ok(
        leaves_file(host, listener, place)?
            && leaves_served(host, listener, place)?
            && replaces_left(host, listener, waker, place)?,
    )
}

/// Whether the folder, of this mode, is refused by this name, and left as it is.
fn leaves_folder(
    host: &HostRuntime,
    listener: &mut SocketListener<HostRuntime>,
    place: Place,
    name: &str,
    mode: u32,
) -> io::Result<bool> {
    fs::set_permissions(host, place.dir, Permissions::from_mode(mode))?;
    let is_refused = refuses(listener, name, place);
    Ok(is_refused && mode_and_owner(host, place.dir)? == (mode, geteuid()))
}

/// Whether the folder is left as it is where a symbolic link leads to it.
fn leaves_linked(
    host: &HostRuntime,
    listener: &mut SocketListener<HostRuntime>,
    place: Place,
    linked: &str,
) -> io::Result<bool> {
    symlink(host, place.dir, linked)?;
    let is_left = leaves_folder(host, listener, place, linked, 0o755);
    fs::remove_file(host, linked)?;
    is_left
}

/// Whether a folder is refused whose sockets have too long a name, and is not left there.
fn refuses_long(
    host: &HostRuntime,
    listener: &mut SocketListener<HostRuntime>,
    place: Place,
    long: &str,
) -> io::Result<bool> {
    Ok(refuses(listener, long, place) && !fs::exists(host, long)?)
}

/// Whether a folder of another owner is refused, which root alone can make.
fn refuses_others(
    host: &HostRuntime,
    listener: &mut SocketListener<HostRuntime>,
    place: Place,
) -> io::Result<bool> {
    if geteuid() != 0 {
        return Ok(refuses(listener, "/", place));
    }
    chown(host, place.dir, Some(SOMEBODY), None)?;
    Ok(refuses(listener, place.dir, place))
}

/// Whether a name is refused that is a symbolic link, and one that is too long. The folder then has the mode 755.
fn refuses_names(
    host: &HostRuntime,
    listener: &mut SocketListener<HostRuntime>,
    place: Place,
) -> io::Result<bool> {
    let alloc = host.alloc();
    let dir = place.dir;
    let long = format!(in alloc; "{dir}-{:0>100}", 0)?;
    let is_refused = refuses_long(host, listener, place, long.as_str());
    drop(long);
    let linked = format!(in alloc; "{dir}-linked")?;
    let is_left = leaves_linked(host, listener, place, linked.as_str());
    drop(linked);
    Ok(is_refused? && is_left?)
}

/// Whether each folder that is not the program's own is left.
fn leaves_others(
    host: &HostRuntime,
    listener: &mut SocketListener<HostRuntime>,
    place: Place,
) -> io::Result<bool> {
    fs::create_dir(host, place.dir)?;
    Ok(
        leaves_folder(host, listener, place, place.dir, 0o1777)?
            && refuses_names(host, listener, place)?
            && refuses_others(host, listener, place)?,
    )
}

/// How long so many reads of a link take that nothing is sent to.
fn quiet_reads<C: SystemClock>(
    clock: &C,
    link: &mut SocketLink,
    reads: u32,
) -> io::Result<Duration> {
    let mut buf = [0; 4];
    let start = clock.monotonic()?;
    for _ in 0..reads {
        if read_once(link, &mut buf) != Heard::Quiet {
            return Err(io::Error::from(ErrorKind::InvalidData));
        }
    }
    Ok(clock.monotonic()?.saturating_sub(start))
}

/// Wakes again and again, some milliseconds apart, until it is told to end.
fn wake_on<C: SystemClock>(clock: &C, waker: &LinkWaker, is_over: &AtomicBool) {
    for _ in 0..u32::MAX {
        if is_over.load(Ordering::SeqCst) {
            return;
        }
        clock.sleep(Duration::from_millis(5));
        waker.wake();
    }
}

/// How long so many reads take while another thread wakes.
fn woken_reads<R: SystemClock + Threads + Wait + Sync>(
    rt: &R,
    waker: &LinkWaker,
    link: &mut SocketLink,
    reads: u32,
) -> io::Result<Duration> {
    let is_over = AtomicBool::new(false);
    thread::scope(thread::scope_env(), rt, |scope| {
        let other = scope.spawn(|| wake_on(rt, waker, &is_over))?;
        let time = quiet_reads(rt, link, reads);
        is_over.store(true, Ordering::SeqCst);
        other.join(rt);
        time
    })
}

/// Whether a read waits about a second, and one that the waker ends does not, also where the waker was rung more often
/// than its streams hold.
fn waits_until_woken<R: SystemClock + Threads + Wait + Sync>(
    rt: &R,
    waker: &LinkWaker,
    link: &mut SocketLink,
) -> io::Result<bool> {
    let alone = quiet_reads(rt, link, 1)?;
    let woken = woken_reads(rt, waker, link, 20)?;
    for _ in 0..2000u32 {
        waker.wake();
    }
    let rung = woken_reads(rt, waker, link, 20)?;
    let most = Duration::from_secs(5);
    Ok(alone >= Duration::from_millis(900) && woken < most && rung < most)
}

/// Whether the waker ends the waits of a link.
fn is_woken<R: SystemClock + Threads + Wait + Sync>(
    rt: &R,
    host: &HostRuntime,
    listener: &mut SocketListener<HostRuntime>,
    waker: &LinkWaker,
    place: Place,
) -> io::Result<bool> {
    let is_open = opens(listener, place);
    let (client, mut link) = connected(host, listener, place)?;
    let is_woken = waits_until_woken(rt, waker, &mut link);
    drop(client);
    drop(link);
    Ok(is_woken? && is_open)
}

/// What a test does with a listener.
#[derive(Clone, Copy)]
enum Scene {
    Links,
    Watched,
    Taken,
    Others,
    Woken,
}

/// Whether all went as it should.
fn play<R: SystemClock + Threads + Wait + Sync>(
    rt: &R,
    host: &HostRuntime,
    listener: &mut SocketListener<HostRuntime>,
    waker: &LinkWaker,
    place: Place,
    scene: Scene,
) -> io::Result<bool> {
    match scene {
        Scene::Links => links_talk(host, listener, place),
        Scene::Watched => {
            Ok(opens_watched(rt, host, listener, place)? && has_modes(host, place)?)
        }
        Scene::Taken => leaves_taken(host, listener, waker, place),
        Scene::Others => leaves_others(host, listener, place),
        Scene::Woken => is_woken(rt, host, listener, waker, place),
    }
}

/// Whether a folder is left behind a test just where the test has made it, with nothing in it. It is then no more.
fn is_left<F: Files>(files: &F, dir: &str, is_kept: bool) -> bool {
    let is_removed = fs::remove_dir(files, dir).is_ok();
    is_removed == is_kept && matches!(fs::exists(files, dir), Ok(false))
}

/// Plays a scene with a listener, which is closed behind it. Whether all went as it should.
fn went_well<R: SystemClock + Threads + Wait + Sync>(
    rt: &R,
    host: &HostRuntime,
    name: &str,
    last: u32,
    scene: Scene,
) -> Result<bool, Fail> {
    let alloc = host.alloc();
    let dir = own_path(host, name)?;
    let dir = dir.as_str();
    let socket = format!(in alloc; "{dir}/uid-{last}")?;
    let uids = users(alloc, last)?;
    let place = Place {
        dir,
        uids: &uids,
        last,
        socket: socket.as_str(),
    };
    let waker = LinkWaker::new(host);
    let mut listener = SocketListener::new(host, alloc, &waker);
    let played = play(rt, host, &mut listener, &waker, place, scene);
    listener.close();
    let is_kept = matches!(scene, Scene::Taken | Scene::Others);
    Ok(played? && is_left(host, dir, is_kept))
}

/// Clients and links talk in both directions. A client that reads nothing fails its link in the end, and one that has
/// gone and left mail unread has ended it.
#[test]
fn clients_and_links_talk_over_sockets(rt: HostRuntime) -> Result<(), Fail> {
    assert!(rt; went_well(&rt, &rt, "links", FEW, Scene::Links)?);
    Ok(())
}

/// Sockets have modes and owners, and while they come into being, nobody but their users can connect to them.
#[test]
fn sockets_are_never_open_to_others(rt: HostRuntime) -> Result<(), Fail> {
    assert!(rt; went_well(&rt, &rt, "watched", MANY, Scene::Watched)?);
    Ok(())
}

/// A socket that an earlier run has left is replaced; one that is served, and anything else, is left as it is, and then
/// nothing else is left in the folder. A folder that was there stays.
#[test]
fn places_that_are_taken_are_left(rt: HostRuntime) -> Result<(), Fail> {
    assert!(rt; went_well(&rt, &rt, "taken", FEW, Scene::Taken)?);
    Ok(())
}

/// A folder that is somebody else's, that a symbolic link leads to or that many share is left as it is, and one with
/// too long a name is not made.
#[test]
fn folders_that_are_not_its_own_are_left(rt: HostRuntime) -> Result<(), Fail> {
    assert!(rt; went_well(&rt, &rt, "others", FEW, Scene::Others)?);
    Ok(())
}

/// A read waits about a second, unless the waker ends it.
#[test]
fn waker_ends_waits(rt: HostRuntime) -> Result<(), Fail> {
    assert!(rt; went_well(&rt, &rt, "woken", FEW, Scene::Woken)?);
    Ok(())
}

fn read_clock<C: Clock>(clock: &mut C) -> Reading {
    clock.now()
}

#[test]
fn clock_begins_at_nothing_and_goes_on(rt: HostRuntime) -> Result<(), Fail> {
    let mut clock = MonotonicClock::new(&rt);
    let Reading::At(first) = read_clock(&mut clock) else {
        return Err(Fail::new("no reading"));
    };
    rt.sleep(Duration::from_millis(20));
    let Reading::At(second) = read_clock(&mut clock) else {
        return Err(Fail::new("no second reading"));
    };
    assert_eq!(rt; first.0, 0);
    assert!(rt; second.0 >= 20);
    Ok(())
}

/// A job that gives one more than it has, where it works.
#[derive(Drop)]
struct AddOne(u32);

#[derive(Drop)]
struct AnyNote;

impl Promise<u32> for AnyNote {
    ghost kept_by = { λ note out. Unit {0} };
}

impl Job for AddOne {
    type Out = u32;

    type Note = AnyNote;

    ghost gives = { λ job out. Unit {0} };

    fn note(&self) -> AnyNote {
        AnyNote
    }

    fn work(self) -> u32 {
        self.0.saturating_add(1)
    }

    fn decline(self) -> u32 {
        0
    }
}

fn add_in<'s, E, R: Threads, P: Spawner>(
    rt: &R,
    alloc: Global,
    scope: &Scope<'s, E>,
    spawner: &mut P,
) -> u32 {
    match spawner.start(alloc, scope, AddOne(6)) {
        Started::Running(handle) => handle.join(rt),
        Started::Back(_) => 0,
    }
}

fn add_apart<R: Threads + Wait + Sync, P: Spawner>(rt: &R, alloc: Global, spawner: &mut P) -> u32 {
    thread::scope(
        thread::scope_env(),
        rt,
        |scope| add_in(rt, alloc, scope, spawner),
    )
}

#[test]
fn spawner_starts_threads(rt: HostRuntime) -> Result<(), Fail> {
    let mut spawner = ThreadSpawner::new();
    assert_eq!(rt; add_apart(&rt, rt.alloc(), &mut spawner), 7);
    Ok(())
}
