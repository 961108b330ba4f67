// `login serve` over real sockets, with its clients in threads of their own.

ghost use Rattle.std.specs.Prelude.{◌<◌, ◌≤◌};

use crate::handshakes::{HANDSHAKE, REPLIES, ping, pong};
use crate::running::{Outcome, lines_like, plays_again, run_with, sink};
use login_base::NoMemory;
use login_model::MOST_LINKS;
use login_prog::Outside;
use login_real::{
    LinkWaker, MonotonicClock, ReaderSource, SocketListener, ThreadSpawner, WakingGate,
};
use std::alloc::{AllocError, Global};
use std::fs::Files;
use std::io::{PipeReader, PipeWriter, Read, Write};
use std::net::{Net, Shutdown};
use std::os::unix::fs::{FileTypeExt, MetadataExt};
use std::os::unix::net::UnixStream;
use std::process::Abort;
use std::sync::Wait;
use std::test::Fail;
use std::thread::{Scope, Threads};
use std::{env, fs, io, process, thread};

/// So many calls are made by each of as many links as may be connected.
const CALLS: u32 = 500;

/// So many calls are made in all, and so many of them behind the first call of a link.
const ALL_CALLS: u64 = 32_000;

const LATER_CALLS: u32 = 31_936;

/// So many links are cut off at once, and then as many: one behind each byte of a call.
const CUT_AT_ONCE: usize = 52;

/// So many links are cut off in all.
const MOST_CUTS: u32 = 104;

/// How often a client tries to connect, while the server is on its way.
const MOST_TRIES: u32 = 1_000_000;

/// A folder that no other test and no other run has.
fn folder(rt: &HostRuntime, name: &str) -> Result<String, Fail> {
    let alloc = rt.alloc();
    let temporary = env::temp_dir(rt)?;
    let id = process::id(rt.process());
    let path = temporary.join(alloc, format!(in alloc; "serve_rows-{name}-{id}")?.as_str())?;
    Ok(String::from_str(alloc, path.as_str())?)
}

/// A connection to the socket at this place, once it is there.
fn connect<N: Net>(net: &N, path: &str) -> io::Result<UnixStream> {
    for _ in 0..MOST_TRIES {
        if let Ok(stream) = UnixStream::connect(net, path) {
            return Ok(stream);
        }
        thread::yield_now();
    }
    UnixStream::connect(net, path)
}

/// Makes a call, and whether it is answered as it should be.
fn call(stream: &mut UnixStream, serial: u32) -> io::Result<bool> {
    let mut reply = [0; 40];
    stream.write_all(&ping(serial))?;
    stream.read_exact(&mut reply)?;
    Ok(reply == pong(serial))
}

/// A connection whose handshake is done.
fn greeted<N: Net>(net: &N, path: &str) -> io::Result<UnixStream> {
    let mut stream = connect(net, path)?;
    stream.write_all(HANDSHAKE)?;
    let mut replies = [0; REPLIES.len()];
    stream.read_exact(&mut replies)?;
    Ok(stream)
}

/// Whether the server hangs up with nothing more said.
fn is_hung_up(stream: &mut UnixStream) -> io::Result<bool> {
    let mut nothing = [0; 1];
    Ok(stream.read(&mut nothing)? == 0)
}

/// Hangs up, and whether the server then hangs up with nothing more said.
fn hang_up(stream: &mut UnixStream) -> io::Result<bool> {
    stream.shutdown(Shutdown::Write)?;
    is_hung_up(stream)
}

/// The calls of a client behind its first one, and its end. How many were answered as they should be.
fn call_on(stream: UnixStream) -> u32 {
    let mut stream = stream;
    for serial in 2..CALLS + 1 {
        if !matches!(call(&mut stream, serial), Ok(true)) {
            return serial - 2;
        }
    }
    if matches!(hang_up(&mut stream), Ok(true)) {
        CALLS - 1
    } else {
        0
    }
}

/// As many clients as may be connected, each behind its first call.
fn connect_clients<N: Net>(net: &N, alloc: Global, path: &str) -> io::Result<Vec<UnixStream>> {
    let mut streams = Vec::new(alloc);
    for _ in 0..MOST_LINKS {
        let mut stream = greeted(net, path)?;
        if call(&mut stream, 1)? {
            streams.push(stream)?;
        }
    }
    Ok(streams)
}

/// Whether one client more is told nothing behind its handshake.
fn is_turned_away<N: Net>(net: &N, path: &str) -> io::Result<bool> {
    is_hung_up(&mut greeted(net, path)?)
}

/// Has each client make its calls in a thread of its own. How many were answered.
fn call_apart<'s, E, R: Threads>(
    rt: &R,
    alloc: Global,
    scope: &Scope<'s, E>,
    streams: Vec<UnixStream>,
) -> io::Result<u32> {
    let mut handles = Vec::new(alloc);
    for stream in streams {
        let started = scope.spawn(move || call_on(stream));
        handles.push(started.map_err(AllocError::from)?)?;
    }
    let mut answered = 0u32;
    for handle in handles {
        answered = answered.saturating_add(handle.join(rt));
    }
    Ok(answered)
}

/// As many clients as may be make calls beside each other, while one more is turned away. How many calls were answered.
fn call_beside<R: Threads + Wait>(rt: &R, host: &HostRuntime, path: &str) -> io::Result<u32> {
    let streams = connect_clients(host, host.alloc(), path)?;
    if !is_turned_away(host, path)? {
        return Ok(0);
    }
    thread::scope(thread::scope_env(), rt, |scope| {
        call_apart(rt, host.alloc(), scope, streams)
    })
}

/// A client that sends only so many bytes of its first call.
fn cut_off<N: Net>(net: &N, path: &str, count: usize) -> io::Result<UnixStream>
    requires { count ≤ 104 }
{
    let mut stream = greeted(net, path)?;
    stream.write_all(&ping(1)[..count])?;
    stream.shutdown(Shutdown::Write)?;
    Ok(stream)
}

/// Clients that are cut off behind so many bytes, from this number on. How many were hung up on with nothing said.
fn cut_some<N: Net>(net: &N, alloc: Global, path: &str, from: usize) -> io::Result<u32>
    requires { from ≤ 52 }
{
    let mut streams = Vec::new(alloc);
    for count in from..from + CUT_AT_ONCE {
        streams.push(cut_off(net, path, count)?)?;
    }
    let mut ended = 0u32;
    for mut stream in streams {
        ended = ended.saturating_add(u32::from(is_hung_up(&mut stream)?));
    }
    Ok(ended)
}

/// The users who have a socket each: root and those of the preamble.
const USERS: [u32; 3] = [0, 1000, LAST_USER];

const LAST_USER: u32 = 1001;

/// Whether the socket of a user is that one's alone, or the program's own, where root does not run it.
fn is_private<F: Files>(files: &F, alloc: Global, dir: &str, user: u32) -> io::Result<bool> {
    let runner = fs::symlink_metadata(files, dir)?.uid();
    let owner = if runner == 0 { user } else { runner };
    let path = format!(in alloc; "{dir}/uid-{user}")?;
    let found = fs::symlink_metadata(files, path.as_str())?;
    Ok(found.file_type().is_socket() && found.mode() & 0o777 == 0o600 && found.uid() == owner)
}

/// A client of the last user, and how many users have a socket of their own while it is served.
fn look_at_sockets(host: &HostRuntime, dir: &str) -> io::Result<u32> {
    let alloc = host.alloc();
    let path = format!(in alloc; "{dir}/uid-{LAST_USER}")?;
    let mut stream = greeted(host, path.as_str())?;
    let mut count = 0u32;
    for user in USERS.iter() {
        count = count.saturating_add(u32::from(is_private(host, alloc, dir, *user)?));
    }
    if hang_up(&mut stream)? {
        Ok(count)
    } else {
        Ok(0)
    }
}

/// What the clients of a test do.
#[derive(Clone, Copy)]
enum Clients {
    CallBeside,
    CutOff,
    LookAtSockets,
}

/// What clients of root's socket count, or those of another.
fn count<R: Threads + Wait>(
    rt: &R,
    host: &HostRuntime,
    dir: &str,
    clients: Clients,
) -> io::Result<u32> {
    let alloc = host.alloc();
    let path = format!(in alloc; "{dir}/uid-0")?;
    let path = path.as_str();
    match clients {
        Clients::CallBeside => call_beside(rt, host, path),
        Clients::CutOff => {
            let first = cut_some(host, alloc, path, 0)?;
            Ok(first.saturating_add(cut_some(host, alloc, path, CUT_AT_ONCE)?))
        }
        Clients::LookAtSockets => look_at_sockets(host, dir),
    }
}

/// Drives clients, and stops the server. What the clients counted.
fn drive<R: Threads + Wait>(
    rt: &R,
    host: &HostRuntime,
    dir: &str,
    clients: Clients,
    mut input: PipeWriter,
) -> io::Result<u32> {
    input.write_all(b"login-recording 1\nuser 1000 1000 alice\nuser 1001 1001 bob\ngo\n")?;
    let count = count(rt, host, dir, clients)?;
    input.write_all(b"stop\n")?;
    Ok(count)
}

/// Serves links in a folder until the input says to stop.
fn serve<'w, R: Threads + Wait + Sync>(
    rt: &R,
    host: &'w HostRuntime,
    dir: &str,
    waker: &'w LinkWaker,
    input: PipeReader,
) -> Result<Outcome<SocketListener<'w, HostRuntime>>, NoMemory> {
    let alloc = host.alloc();
    let outside = Outside {
        input: ReaderSource::new(input),
        output: sink(alloc)?,
        errors: sink(alloc)?,
        listener: SocketListener::new(host, alloc, waker),
        clock: MonotonicClock::new(host),
        spawner: ThreadSpawner::new(),
    };
    let words = ["serve", "--dir", dir];
    run_with(rt, alloc, &words, outside, &WakingGate::new(waker))
}

/// What a run left, and what its clients counted: nothing where one failed.
fn serve_clients<'w, R: Threads + Wait + Sync>(
    rt: &R,
    host: &'w HostRuntime,
    dir: &str,
    waker: &'w LinkWaker,
    clients: Clients,
) -> Result<(Outcome<SocketListener<'w, HostRuntime>>, u32), Fail> {
    let (reader, writer) = io::pipe(host)?;
    let (counted, run) = thread::join(
        rt,
        || drive(rt, host, dir, clients, writer),
        || serve(rt, host, dir, waker, reader),
    );
    Ok((run?, counted.unwrap_or(0)))
}

/// The lines of so many links that were closed.
fn closed_lines(alloc: Global, count: u32) -> Result<String, AllocError>
    requires { count < 1000 }
{
    let mut lines = String::new(alloc);
    for number in 1..count + 1 {
        lines.push_str(format!(in alloc; "link {number} closed\n")?.as_str())?;
    }
    Ok(lines)
}

/// The errors of a run say that so many links were closed, and this behind them.
fn expect_closed<R: Abort, N>(
    rt: &R,
    alloc: Global,
    run: &Outcome<N>,
    count: u32,
    rest: &str,
) -> Result<(), AllocError>
    requires { count < 1000 }
{
    let mut lines = closed_lines(alloc, count)?;
    lines.push_str(rest)?;
    assert!(rt; run.errors() == lines.as_bytes());
    Ok(())
}

/// All calls were answered, one client too many was turned away, and the recording plays again to as many entries.
fn expect_calls<R: Abort + Wait + Threads + Sync, N>(
    rt: &R,
    alloc: Global,
    run: &Outcome<N>,
    answered: u32,
) -> Result<(), Fail> {
    assert_eq!(rt; answered, LATER_CALLS);
    assert_eq!(rt; lines_like(run.output(), b"call "), ALL_CALLS);
    expect_closed(rt, alloc, run, MOST_LINKS, "link 65 too-many\n")?;
    plays_again(rt, alloc, run)
}

/// Each link was closed, and has made no call.
fn expect_cuts<R: Abort, N>(
    rt: &R,
    alloc: Global,
    run: &Outcome<N>,
    ended: u32,
) -> Result<(), Fail> {
    assert_eq!(rt; ended, MOST_CUTS);
    assert_eq!(rt; lines_like(run.output(), b"call "), 0);
    Ok(expect_closed(rt, alloc, run, MOST_CUTS, "")?)
}

/// Each user had a socket, and the link was the last user's.
fn expect_sockets<R: Abort, N>(rt: &R, run: &Outcome<N>, count: u32) -> Result<(), Fail> {
    assert_eq!(rt; count, 3);
    assert!(rt; run.errors() == b"link 1 closed\n".as_slice());
    assert_eq!(rt; lines_like(run.output(), b"connect 1 1001"), 1);
    Ok(())
}

/// What a run left is as it should be behind these clients.
fn expect<R: Abort + Wait + Threads + Sync, N>(
    rt: &R,
    alloc: Global,
    run: &Outcome<N>,
    clients: Clients,
    counted: u32,
) -> Result<(), Fail> {
    assert_eq!(rt; run.status, 0);
    match clients {
        Clients::CallBeside => expect_calls(rt, alloc, run, counted),
        Clients::CutOff => expect_cuts(rt, alloc, run, counted),
        Clients::LookAtSockets => expect_sockets(rt, run, counted),
    }
}

/// Serves clients in a folder of their own, which is gone behind it.
fn serve_and_look<R: Abort + Threads + Wait + Sync>(
    rt: &R,
    host: &HostRuntime,
    name: &str,
    clients: Clients,
) -> Result<(), Fail> {
    let dir = folder(host, name)?;
    let dir = dir.as_str();
    let waker = LinkWaker::new(host);
    let (run, counted) = serve_clients(rt, host, dir, &waker, clients)?;
    let looked = expect(rt, host.alloc(), &run, clients, counted);
    run.into_listener().close();
    looked?;
    match fs::exists(host, dir)? {
        false => Ok(()),
        true => Err(Fail::new("the folder is still there")),
    }
}

/// As many links as may be connected make calls beside each other in threads; one more is turned away. The recording of
/// the run plays again, to as many entries.
#[test]
fn links_are_served_over_sockets(rt: HostRuntime) -> Result<(), Fail> {
    serve_and_look(&rt, &rt, "beside", Clients::CallBeside)
}

/// A link that is cut off within its first call is closed, and has made no call.
#[test]
fn links_may_be_cut_off_at_each_byte(rt: HostRuntime) -> Result<(), Fail> {
    serve_and_look(&rt, &rt, "cut", Clients::CutOff)
}

/// Root and each user of the preamble have a socket of their own while links are served, and none behind it.
#[test]
fn users_have_sockets_of_their_own(rt: HostRuntime) -> Result<(), Fail> {
    serve_and_look(&rt, &rt, "users", Clients::LookAtSockets)
}
