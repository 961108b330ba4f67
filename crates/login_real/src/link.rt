// A connection over a Unix socket as a link.

ghost use Rattle.std.specs.Prelude.{◌≡◌, ◌<◌, None, IfOk, IfSome, length};
ghost use Rattle.login_edge.specs.Faults.{Rose};
ghost use Rattle.login_real.specs.inner.Sockets.{ReadsNow, WritesNow};

use crate::waker::LinkWaker;
use login_edge::{Heard, Link, Took};
use mio::net::UnixStream;
use mio::{Events, Interest, Poll, Token};
use std::alloc::Global;
use std::io;
use std::io::{ErrorKind, Read, Write};
use std::marker::Model;
use std::net::Net;
use std::time::Duration;

/// The token of a link's own stream.
const STREAM: Token = Token(0);

/// The token of what wakes it.
const WAKER: Token = Token(1);

/// How many milliseconds a read waits at most. The waker ends it where there may be mail, and at the stop.
const READ_WAIT: u64 = 1000;

/// How many milliseconds a write waits for room at once, and how often at most: a client that reads nothing for some
/// five seconds fails its link.
const WRITE_WAIT: u64 = 1000;

const WRITE_WAITS: u32 = 5;

/// A connection over a Unix socket. It tells neither its talk nor what is left to come.
///
/// A read that finds nothing waits until something comes, the waker is rung, or a second has passed. A write waits for
/// room until the client has read nothing for some five seconds. A client that has gone without reading all that was
/// written to it has ended its link, as one that hung up.
#[derive(Drop)]
pub struct SocketLink {
    number: u64,
    stream: UnixStream,
    /// What a read waits on: the stream and the waker.
    incoming: Poll,
    /// What a write waits on: the stream alone.
    outgoing: Poll,
    events: Events<Global>,
    faults: u64,
}

impl Model for SocketLink {
    ghost use Rattle.login_real.specs.Sockets.{LinkState};

    ghost Value = { LinkState };

    ghost view = { λ l. record { number = l.number; faults = l.faults } };
}

/// Waits until a source is ready, for so many milliseconds at most. Whether the stream is ready.
fn wait(poll: &mut Poll, events: &mut Events<Global>, most: u64) -> io::Result<bool> {
    poll.poll(events, Some(Duration::from_millis(most)))?;
    Ok(events.iter().any(|event| event.token() == STREAM))
}

/// Whether a call only found nothing to do, or was interrupted.
fn is_not_ready(fault: &io::Error) -> bool {
    matches!(fault.kind(), ErrorKind::WouldBlock | ErrorKind::Interrupted)
}

impl SocketLink {
    /// The link of this number over a stream that does not block, which this waker wakes.
    pub(crate) fn new(
        net: &impl Net,
        alloc: Global,
        waker: &LinkWaker,
        mut stream: UnixStream,
        number: u64,
    ) -> io::Result<SocketLink>
        ensures { IfOk result (λ link. (link.number ≡ number) × (link.faults ≡ 0)) }
    {
        let incoming = Poll::new(net)?;
        let outgoing = Poll::new(net)?;
        let events = Events::with_capacity(alloc, 2)?;
        incoming
            .registry()
            .register(&mut stream, STREAM, Interest::READABLE)?;
        outgoing
            .registry()
            .register(&mut stream, STREAM, Interest::WRITABLE)?;
        waker.watch(incoming.registry(), WAKER)?;
        Ok(SocketLink {
            number,
            stream,
            incoming,
            outgoing,
            events,
            faults: 0,
        })
    }

    fn failed_read(&mut self) -> Heard
        ensures result { result ≡ Heard.Failed }
        ensures rose { Rose self.old.faults self.new.faults }
        ensures number { self.new.number ≡ self.old.number }
    {
        self.faults = self.faults.saturating_add(1);
        Heard::Failed
    }

    /// Reads what is there, if anything is.
    fn read_now(&mut self, buf: &mut [u8]) -> Option<Heard>
        requires { 0 < length buf.old }
        ensures reads { IfSome result (λ heard. ReadsNow self.old self.new heard buf.new) }
        ensures none { result ≡ None → self.new ≡ self.old }
    {
        match (&self.stream).read(buf) {
            Ok(0) => Some(Heard::End),
            Ok(n) => Some(Heard::Bytes(n)),
            Err(fault) if is_not_ready(&fault) => None,
            Err(fault) if fault.kind() == ErrorKind::ConnectionReset => Some(Heard::End),
            Err(_) => Some(self.failed_read()),
        }
    }

    fn failed_write(&mut self) -> Took
        ensures result { result ≡ Took.Failed }
        ensures rose { Rose self.old.faults self.new.faults }
        ensures number { self.new.number ≡ self.old.number }
    {
        self.faults = self.faults.saturating_add(1);
        Took::Failed
    }

    /// Writes what there is room for, if there is any.
    fn write_now(&mut self, piece: &[u8]) -> Option<Took>
        requires { 0 < length piece.now }
        ensures writes { IfSome result (λ took. WritesNow self.old self.new took piece.now) }
        ensures none { result ≡ None → self.new ≡ self.old }
    {
        match (&self.stream).write(piece) {
            Ok(n) if n > 0 => Some(Took::Bytes(n)),
            Err(fault) if is_not_ready(&fault) => None,
            _ => Some(self.failed_write()),
        }
    }
}

impl Link for SocketLink {
    ghost number = { λ l. l.number };

    ghost talk = { λ l. None };

    ghost left = { λ l. None };

    ghost faults = { λ l. l.faults };

    fn read(&mut self, buf: &mut [u8]) -> Heard {
        if let Some(heard) = self.read_now(buf) {
            return heard;
        }
        match wait(&mut self.incoming, &mut self.events, READ_WAIT) {
            Ok(true) => match self.read_now(buf) {
                Some(heard) => heard,
                None => Heard::Quiet,
            },
            Ok(false) => Heard::Quiet,
            Err(_) => self.failed_read(),
        }
    }

    fn write(&mut self, piece: &[u8]) -> Took {
        for _ in 0..WRITE_WAITS {
            if let Some(took) = self.write_now(piece) {
                return took;
            }
            let _ = wait(&mut self.outgoing, &mut self.events, WRITE_WAIT);
        }
        match self.write_now(piece) {
            Some(took) => took,
            None => self.failed_write(),
        }
    }
}
