// Unix sockets as a listener.

ghost use Rattle.std.specs.Prelude.{◌≡◌, ◌-◌, ◌^◌, ◌<◌, None};
ghost use Rattle.login_edge.specs.Faults.{Rose};
ghost use Rattle.login_edge.specs.Register.{Numbers};

use crate::link::SocketLink;
use crate::sockets::Sockets;
use crate::waker::LinkWaker;
use login_base::{ConnId, Items, Uid};
use login_edge::{Accepted, Listener, Opened};
use mio::net::UnixStream;
use std::alloc::Global;
use std::fs::{File, Files};
use std::io;
use std::io::ErrorKind;
use std::marker::Model;
use std::net::Net;
use std::time::Clock as SystemClock;

/// A listener with a Unix socket `uid-N` for each user N, in a folder. It tells of no link.
///
/// The folder is made, if it is not there, and has to be the program's own. While the sockets come into being nobody
/// else can enter it. Where root runs the program, each socket is its user's, with the mode 600, and the folder has the
/// mode
/// 711 then, so that the users, and root, can connect to their own sockets; where somebody else does, the sockets and
/// the folder are that one's alone, who may play every user. A socket that an earlier run left behind is replaced; one
/// that somebody serves, and anything else at its place, is a fault, and so is a folder that another run has.
///
/// `accept` waits for 100 ms at most. A connection that is gone before it is taken is passed over, and one for which
/// the machine has no room waits or is hung up on.
#[derive(Drop)]
pub struct SocketListener<'r, R> {
    rt: &'r R,
    alloc: Global,
    waker: &'r LinkWaker,
    sockets: Option<Sockets>,
    given: u64,
    faults: u64,
}

impl<'r, R> Model for SocketListener<'r, R> {
    ghost use Rattle.login_real.specs.Sockets.{ListenerState};

    ghost Value = { ListenerState };

    ghost view = { λ l. record { given = l.given; faults = l.faults } };
}

impl<'r, R: Net + SystemClock + Files<File = File>> SocketListener<'r, R> {
    /// A listener that is not open yet, whose links this waker wakes.
    pub fn new(rt: &'r R, alloc: Global, waker: &'r LinkWaker) -> SocketListener<'r, R>
        ensures given { result.given ≡ 0 }
        ensures faults { result.faults ≡ 0 }
    {
        SocketListener {
            rt,
            alloc,
            waker,
            sockets: None,
            given: 0,
            faults: 0,
        }
    }

    /// Removes the sockets, and the folder, where it was made here.
    pub fn close(self) {
        let SocketListener {
            rt,
            alloc: _,
            waker: _,
            sockets,
            given: _,
            faults: _,
        } = self;
        if let Some(sockets) = sockets {
            sockets.remove(rt);
        }
    }

    /// The sockets of these users in the folder of this name, which has to be UTF-8.
    fn open_in(&self, dir: &[u8], uids: &Items<Uid>) -> io::Result<Sockets> {
        match str::from_utf8(dir) {
            Ok(path) => Sockets::open(self.rt, self.alloc, path, uids),
            Err(_) => Err(io::Error::from(ErrorKind::InvalidInput)),
        }
    }

    /// The next connection, if there is one, with its user.
    fn next(&mut self) -> io::Result<Option<(UnixStream, Uid)>>
        ensures { self.new ≡ self.old }
    {
        match &mut self.sockets {
            Some(sockets) => sockets.next(self.rt),
            None => Err(io::Error::from(ErrorKind::NotConnected)),
        }
    }

    fn failed<T>(&mut self) -> Accepted<T>
        ensures result { result ≡ Accepted.Failed }
        ensures rose { Rose self.old.faults self.new.faults }
        ensures given { self.new.given ≡ self.old.given }
    {
        self.faults = self.faults.saturating_add(1);
        Accepted::Failed
    }

    /// A connection as the next link. There is none where the machine has no room for what it waits on.
    fn link(&mut self, stream: UnixStream, uid: Uid) -> Accepted<SocketLink>
        requires { self.old.given < 2 ^ 64 - 1 }
        ensures numbers { Numbers (λ link. link.number) self.old.given self.new.given result }
        ensures faults { self.new.faults ≡ self.old.faults }
        ensures some { result ≡ Accepted.Failed → ⊥ }
    {
        let number = self.given + 1;
        match SocketLink::new(self.rt, self.alloc, self.waker, stream, number) {
            Ok(link) => {
                self.given = number;
                Accepted::Came(link, uid)
            }
            Err(_) => Accepted::Quiet,
        }
    }
}

impl<'r, R: Files<File = File> + Net + SystemClock> Listener for SocketListener<'r, R> {
    type Link = SocketLink;

    ghost given = { λ l. l.given };

    ghost told = { λ l. None };

    ghost faults = { λ l. l.faults };

    ghost counted = { λ l. tt };

    fn open(&mut self, dir: &[u8], uids: &Items<Uid>) -> Opened {
        match self.open_in(dir, uids) {
            Ok(sockets) => {
                self.sockets = Some(sockets);
                Opened::Ready
            }
            Err(_) => {
                self.faults = self.faults.saturating_add(1);
                Opened::Failed
            }
        }
    }

    fn accept(&mut self) -> Accepted<SocketLink> {
        if self.given == u64::MAX {
            return self.failed();
        }
        match self.next() {
            Ok(Some((stream, uid))) => self.link(stream, uid),
            Ok(None) => Accepted::Quiet,
            Err(_) => self.failed(),
        }
    }

    fn give_back(&mut self, _c: ConnId, link: SocketLink) {
        drop(link);
    }
}
