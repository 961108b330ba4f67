// What ends the waits of all links at once.

use login_base::ConnId;
use login_edge::{Gate, Leave};
use mio::unix::SourceFd;
use mio::{Interest, Registry, Token};
use std::io;
use std::io::{ErrorKind, Read, Write};
use std::net::Net;
use std::os::fd::AsRawFd;
use std::os::unix::net::UnixStream;

/// How many reads empty a pair of streams at most. Each takes as many bytes as a buffer has.
const MOST_READS: u32 = 1024;

/// A pair of streams: each link that waits watches the near one, and a byte that is written to the far one ends all
/// waits.
///
/// No link reads these bytes, so none takes them from another. Where no byte more fits they are read, and one is
/// written anew: a stream that is watched tells of each byte as it comes, not of those that lie there.
#[derive(Drop)]
struct WakingPair {
    far: UnixStream,
    near: UnixStream,
}

impl WakingPair {
    fn new(net: &impl Net) -> io::Result<WakingPair> {
        let (far, near) = UnixStream::pair(net)?;
        far.set_nonblocking(true)?;
        near.set_nonblocking(true)?;
        Ok(WakingPair { far, near })
    }

    /// Writes a byte. Whether there was room for it.
    fn write_one(&self) -> bool {
        match (&self.far).write(&[0]) {
            Ok(_) => true,
            Err(fault) => fault.kind() != ErrorKind::WouldBlock,
        }
    }

    /// Reads what lies there.
    fn empty(&self) {
        let mut bytes = [0; 512];
        for _ in 0..MOST_READS {
            match (&self.near).read(&mut bytes) {
                Ok(n) if n > 0 => {}
                _ => return,
            }
        }
    }
}

/// What ends the waits of all links at once. Where the machine has nothing for it, links look for mail when their own
/// waits are over.
#[derive(Drop)]
pub struct LinkWaker {
    pair: Option<WakingPair>,
}

impl LinkWaker {
    /// A waker that no link watches yet.
    pub fn new(net: &impl Net) -> LinkWaker {
        LinkWaker {
            pair: WakingPair::new(net).ok(),
        }
    }

    /// Ends the wait of each link, or that which it begins next.
    pub fn wake(&self) {
        if let Some(pair) = &self.pair
            && !pair.write_one()
        {
            pair.empty();
            pair.write_one();
        }
    }

    /// Has this set of sources watch it under a token.
    pub(crate) fn watch(&self, registry: &Registry, token: Token) -> io::Result<()> {
        match &self.pair {
            Some(pair) => {
                let near = pair.near.as_raw_fd();
                registry.register(&mut SourceFd(&near), token, Interest::READABLE)
            }
            None => Ok(()),
        }
    }
}

/// A gate that lets every call go, and wakes the links of sockets.
#[derive(Drop)]
pub struct WakingGate<'w> {
    waker: &'w LinkWaker,
}

impl<'w> WakingGate<'w> {
    /// The gate that wakes the links which this waker wakes.
    pub fn new(waker: &'w LinkWaker) -> WakingGate<'w> {
        WakingGate { waker }
    }
}

impl<'w> Gate for WakingGate<'w> {
    fn pass(&self, _who: ConnId, _n: u32) -> Leave {
        Leave::Go
    }

    fn answered(&self, _who: ConnId, _n: u32) {}

    fn wake(&self) {
        self.waker.wake();
    }
}
