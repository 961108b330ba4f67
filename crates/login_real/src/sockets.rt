// The sockets of a listener, a socket for each user.

use crate::folder::{Folder, listen};
use login_base::{Items, Uid};
use mio::net::{UnixListener, UnixStream};
use mio::{Events, Interest, Poll, Token};
use std::alloc::Global;
use std::collections::VecDeque;
use std::fs::{File, Files};
use std::io::ErrorKind;
use std::net::Net;
use std::time::{Clock as SystemClock, Duration};
use std::{fs, io};

/// How many milliseconds `next` waits at most.
const WAIT: u64 = 100;

/// How many sockets a wait tells of at once. The others are told of by the next one.
const MOST_EVENTS: usize = 64;

/// What accepting answers where no descriptor more can be had, or no memory: the numbers of Linux.
const ENFILE: i32 = 23;

const ENOBUFS: i32 = 105;

/// A socket, with its user and its place.
#[derive(Drop)]
struct Listening {
    uid: Uid,
    path: String,
    socket: UnixListener,
    /// Whether somebody may wait at it.
    is_ready: bool,
}

/// The sockets of a folder.
#[derive(Drop)]
pub(crate) struct Sockets {
    path: String,
    folder: Folder,
    list: Vec<Listening>,
    poll: Poll,
    events: Events<Global>,
    /// The places in the list of those at which somebody may wait.
    ready: VecDeque<usize>,
}

/// Whether the machine has no room for a connection more just now.
fn is_out_of_room(fault: &io::Error) -> bool {
    matches!(
        fault.raw_os_error(),
        Some(libc::EMFILE | ENFILE | ENOBUFS | libc::ENOMEM)
    )
}

/// A connection that was gone before it was taken, or for which there is no room just now, is no fault. Where there is
/// no room, this waits, unless that was done already.
fn pass_over<R: SystemClock>(
    rt: &R,
    fault: io::Error,
    has_waited: bool,
) -> io::Result<Option<(UnixStream, Uid)>> {
    if is_out_of_room(&fault) {
        if !has_waited {
            rt.sleep(Duration::from_millis(WAIT));
        }
        return Ok(None);
    }
    match fault.kind() {
        ErrorKind::Interrupted | ErrorKind::ConnectionAborted => Ok(None),
        _ => Err(fault),
    }
}

impl Sockets {
    /// Opens a socket for each of these users in a folder. Where one can't be opened, what was made is gone.
    pub(crate) fn open<R: Files<File = File> + Net>(
        rt: &R,
        alloc: Global,
        path: &str,
        uids: &Items<Uid>,
    ) -> io::Result<Sockets> {
        let mut sockets = Sockets {
            path: String::from_str(alloc, path)?,
            list: Vec::with_capacity(alloc, uids.len())?,
            poll: Poll::new(rt)?,
            events: Events::with_capacity(alloc, MOST_EVENTS)?,
            ready: VecDeque::with_capacity(alloc, uids.len())?,
            folder: Folder::take(rt, path)?,
        };
        match sockets.open_all(rt, alloc, uids) {
            Ok(()) => Ok(sockets),
            Err(fault) => {
                sockets.remove(rt);
                Err(fault)
            }
        }
    }

    fn open_all<R: Files + Net>(
        &mut self,
        rt: &R,
        alloc: Global,
        uids: &Items<Uid>,
    ) -> io::Result<()> {
        for uid in uids.as_slice() {
            self.open_one(rt, alloc, *uid)?;
        }
        self.folder.open_to_all()
    }

    /// Opens the socket of a user.
    fn open_one<R: Files + Net>(&mut self, rt: &R, alloc: Global, uid: Uid) -> io::Result<()> {
        let (folder, number) = (self.path.as_str(), uid.0);
        let path = format!(in alloc; "{folder}/uid-{number}")?;
        let socket = listen(rt, path.as_str(), number)?;
        let token = Token(self.list.len());
        self.list.push(Listening {
            uid,
            path,
            socket,
            is_ready: false,
        })?;
        match self.list.last_mut() {
            Some(last) => {
                self.poll
                    .registry()
                    .register(&mut last.socket, token, Interest::READABLE)
            }
            None => Ok(()),
        }
    }

    /// Sees who has come to a socket. Where nobody waits, it waits until somebody comes, or the time has passed.
    fn look(&mut self) -> io::Result<()> {
        let limit = if self.ready.is_empty() { WAIT } else { 0 };
        self.poll
            .poll(&mut self.events, Some(Duration::from_millis(limit)))?;
        for event in &self.events {
            let place = event.token().0;
            if let Some(listening) = self.list.get_mut(place)
                && !listening.is_ready
            {
                listening.is_ready = true;
                self.ready.push_back(place)?;
            }
        }
        Ok(())
    }

    /// Takes the next connection, with its user. The sockets at which somebody waits take turns.
    pub(crate) fn next<R: SystemClock>(&mut self, rt: &R) -> io::Result<Option<(UnixStream, Uid)>> {
        let has_waited = self.ready.is_empty();
        self.look()?;
        let Some(place) = self.ready.pop_front() else {
            return Ok(None);
        };
        let Some(listening) = self.list.get_mut(place) else {
            return Ok(None);
        };
        match listening.socket.accept() {
            Ok((stream, _)) => {
                let uid = listening.uid;
                self.ready.push_back(place)?;
                Ok(Some((stream, uid)))
            }
            Err(fault) if fault.kind() == ErrorKind::WouldBlock => {
                listening.is_ready = false;
                Ok(None)
            }
            Err(fault) => {
                self.ready.push_back(place)?;
                pass_over(rt, fault, has_waited)
            }
        }
    }

    /// Removes the sockets from their folder, and the folder, where it was made here.
    pub(crate) fn remove<R: Files>(self, rt: &R) {
        let Sockets {
            path,
            folder,
            list,
            poll,
            events,
            ready,
        } = self;
        drop(poll);
        drop(events);
        drop(ready);
        for listening in list {
            let _ = fs::remove_file(rt, listening.path.as_str());
        }
        folder.remove(rt, path.as_str());
    }
}
