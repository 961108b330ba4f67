// Links that do something at the desk themselves while they are read, on one thread.

ghost use Rattle.std.specs.Prelude.{◌≡◌, ◌<◌, ◌≤◌, [], IfOk, IfSome, length};

use crate::handshakes::{
    CONTROL_FIRST, CONTROL_SECOND, CREATE_FIRST, CREATE_SECOND, HANDSHAKE, REPLIES, SWITCHED_AWAY,
};
use crate::running::bytes;
use desk::Desk;
use link_serve::{CoreAtDesk, DeskOfCore, PassOfCore, serve_link, step_event, stop};
use login_base::{ConnId, DevNo, Items, SeatName, Uid};
use login_conf::confs_are_allowed;
use login_edge::{Heard, Link, MemSource, OpenGate, Took};
use login_model::{Boxed, DevKind, Event, Hardware};
use login_office::LinkEnd;
use recording::LineReader;
use replay::{SetupEnd, read_setup};
use std::alloc::Global;
use std::sync::Wait;
use std::sync::atomic::{AtomicBool, AtomicU32, Ordering};
use std::test::Fail;

/// In the place of a call: nothing is sent.
const NO_CALL: &[u8] = b"";

/// Puts a text into the front of a buffer, as far as it fits.
fn give(text: &[u8], buf: &mut [u8]) -> usize
    ensures { result ≤ length buf.new }
{
    let count = text.len().min(buf.len());
    buf[..count].copy_from_slice(&text[..count]);
    count
}

/// A text as what a read answers: nothing where there is none.
fn hear(text: &[u8], buf: &mut [u8]) -> Option<usize>
    ensures { IfSome result (λ count. (0 < count) × (count ≤ length buf.new)) }
{
    let count = give(text, buf);
    if count > 0 { Some(count) } else { None }
}

/// What a test has seen of its links.
#[derive(Drop)]
struct Seen {
    /// How often the link that makes no call was read.
    reads: AtomicU32,
    /// Whether it was said what it should have been when it was read for the last time.
    is_told: AtomicBool,
    /// How many links within others were closed.
    closed: AtomicU32,
}

impl Seen {
    fn new() -> Seen {
        Seen {
            reads: AtomicU32::new(0),
            is_told: AtomicBool::new(false),
            closed: AtomicU32::new(0),
        }
    }
}

/// Where the links of a test are served, and what it has seen of them.
#[derive(Drop)]
struct Site<'a, R> {
    rt: &'a R,
    alloc: Global,
    desk: &'a DeskOfCore,
    seen: &'a Seen,
}

/// What happens while a link is read for the second time.
#[derive(Clone, Copy)]
enum Deed {
    /// Terminal 3 is asked for.
    Switch,
    Stop,
}

/// A link that makes no call, and does something at the desk while it is read for the second time, when nothing is
/// there.
#[derive(Drop)]
struct Idle<'a, R> {
    site: &'a Site<'a, R>,
    opened: PassOfCore,
    deed: Deed,
    reads: u32,
    said: Vec<u8>,
    ghost fits: { opened.desk ≡ site.now.desk.now },
    ghost who: { opened.view.who ≡ 0 },
}

impl<'a, R: Wait> Idle<'a, R> {
    /// A link that does this by the first pass of the desk.
    fn new(site: &'a Site<'a, R>, opened: PassOfCore, deed: Deed) -> Idle<'a, R>
        requires desk { opened.desk ≡ site.now.desk.now }
        requires who { opened.view.who ≡ 0 }
    {
        Idle {
            site,
            opened,
            deed,
            reads: 0,
            said: Vec::new(site.alloc),
        }
    }

    fn act(&mut self) {
        let (rt, desk) = (self.site.rt, self.site.desk);
        match self.deed {
            Deed::Switch => {
                let event = Event::Hardware(Hardware::VtKey(3));
                let _ = step_event(rt, desk, &OpenGate, &mut self.opened, event);
            }
            Deed::Stop => stop(rt, desk, &OpenGate, &mut self.opened),
        }
    }

    /// Whether it was said the replies of its handshake and then that the session was switched away from.
    fn is_told(&self) -> bool {
        match self.said.as_slice().strip_prefix(REPLIES) {
            Some(mail) => mail == SWITCHED_AWAY,
            None => false,
        }
    }
}

impl<'a, R: Wait> Link for Idle<'a, R> {
    ghost use Rattle.std.specs.Prelude.{None};

    ghost number = { λ l. 0 };

    ghost talk = { λ l. None };

    ghost left = { λ l. None };

    ghost faults = { λ l. 0 };

    fn read(&mut self, buf: &mut [u8]) -> Heard {
        self.reads = self.reads.saturating_add(1);
        self.site.seen.reads.store(self.reads, Ordering::SeqCst);
        match self.reads {
            1 => match hear(HANDSHAKE, buf) {
                Some(count) => Heard::Bytes(count),
                None => Heard::Quiet,
            },
            2 => {
                self.act();
                Heard::Quiet
            }
            _ => {
                self.site
                    .seen
                    .is_told
                    .store(self.is_told(), Ordering::SeqCst);
                Heard::End
            }
        }
    }

    fn write(&mut self, piece: &[u8]) -> Took {
        let _ = self.said.extend_from_slice(piece);
        Took::Bytes(piece.len())
    }
}

/// A link that is to be served while another is read, with its pass and its user.
#[derive(Drop)]
struct Guest<'a, R, L> {
    site: &'a Site<'a, R>,
    pass: PassOfCore,
    link: L,
    uid: Uid,
    ghost fits: { pass.desk ≡ site.now.desk.now },
    ghost who: { 0 < pass.view.who },
    ghost new: { length pass.view.mine ≡ 0 },
}

impl<'a, R: Wait, L: Link> Guest<'a, R, L> {
    fn new(site: &'a Site<'a, R>, pass: PassOfCore, link: L, uid: Uid) -> Guest<'a, R, L>
        requires desk { pass.desk ≡ site.now.desk.now }
        requires who { 0 < pass.view.who }
        requires new { pass.view.mine ≡ [] }
    {
        Guest {
            site,
            pass,
            link,
            uid,
        }
    }

    /// Serves the link until it ends.
    fn serve(self) {
        let Guest {
            site,
            mut pass,
            mut link,
            uid,
        } = self;
        let (rt, alloc, desk) = (site.rt, site.alloc, site.desk);
        let end = serve_link(rt, alloc, desk, &mut pass, &mut link, uid, &OpenGate);
        if end == LinkEnd::Closed {
            site.seen.closed.fetch_add(1, Ordering::SeqCst);
        }
    }
}

/// A link that sends a handshake and then these calls, has another link served while it is read, and hangs up.
#[derive(Drop)]
struct Speaking<'a, R, L> {
    calls: [&'a [u8]; 2],
    reads: u32,
    guest: Option<Guest<'a, R, L>>,
}

impl<'a, R, L: Link> Speaking<'a, R, L> {
    /// A link that makes these calls, and has this guest.
    fn new(calls: [&'a [u8]; 2], guest: Guest<'a, R, L>) -> Speaking<'a, R, L> {
        Speaking {
            calls,
            reads: 0,
            guest: Some(guest),
        }
    }
}

impl<'a, R: Wait, L: Link> Link for Speaking<'a, R, L> {
    ghost use Rattle.std.specs.Prelude.{None};

    ghost number = { λ l. 0 };

    ghost talk = { λ l. None };

    ghost left = { λ l. None };

    ghost faults = { λ l. 0 };

    fn read(&mut self, buf: &mut [u8]) -> Heard {
        self.reads = self.reads.saturating_add(1);
        let text = match self.reads {
            1 => HANDSHAKE,
            2 => self.calls[0],
            3 => self.calls[1],
            _ => {
                if let Some(guest) = self.guest.take() {
                    guest.serve();
                }
                return Heard::End;
            }
        };
        match hear(text, buf) {
            Some(count) => Heard::Bytes(count),
            None => Heard::Quiet,
        }
    }

    fn write(&mut self, piece: &[u8]) -> Took {
        Took::Bytes(piece.len())
    }
}

/// A core with the setup that a preamble with two users says.
fn core(alloc: Global) -> Result<CoreAtDesk, Fail>
    ensures { IfOk result (λ core. core.journal ≡ []) }
{
    confs_are_allowed();
    let text = b"login-recording 1\nuser 1000 1000 alice\nuser 1001 1001 bob\ngo\n";
    let mut source = MemSource::new(alloc, bytes(alloc, text)?, Items::new(alloc))?;
    let mut lines = LineReader::new(alloc)?;
    match read_setup(alloc, &mut lines, &mut source) {
        SetupEnd::Ready(setup, _, _) => Ok(CoreAtDesk::new(alloc, setup)?),
        _ => Err(Fail::new("the preamble is refused")),
    }
}

/// A graphics card and a keyboard of the first seat appear.
fn add_devices<R: Wait>(
    rt: &R,
    alloc: Global,
    desk: &DeskOfCore,
    opened: &mut PassOfCore,
) -> Result<(), Fail>
    requires desk { opened.old.desk ≡ desk.now }
    requires who { opened.old.view.who ≡ 0 }
    ensures desk { opened.new.desk ≡ opened.old.desk }
    ensures who { opened.new.view.who ≡ 0 }
{
    let drm = DevNo {
        major: 226,
        minor: 0,
    };
    let evdev = DevNo {
        major: 13,
        minor: 64,
    };
    let seat = Boxed::new(alloc, SeatName::SEAT0)?;
    let same = Boxed::new(alloc, SeatName::SEAT0)?;
    add(rt, desk, opened, drm, DevKind::Drm, seat);
    add(rt, desk, opened, evdev, DevKind::Evdev, same);
    Ok(())
}

/// A device of a seat appears.
fn add<R: Wait>(
    rt: &R,
    desk: &DeskOfCore,
    opened: &mut PassOfCore,
    device: DevNo,
    kind: DevKind,
    seat: Boxed<SeatName>,
)
    requires desk { opened.old.desk ≡ desk.now }
    requires who { opened.old.view.who ≡ 0 }
    ensures desk { opened.new.desk ≡ opened.old.desk }
    ensures who { opened.new.view.who ≡ 0 }
{
    seat.get().tell_name();
    let event = Event::Hardware(Hardware::Add(device, kind, seat));
    let _ = step_event(rt, desk, &OpenGate, opened, event);
}

/// The link of root, which creates two sessions. While it is read, that of the first session's user is served, while
/// that one is read, that of the second's, and while this is read, an idle one.
fn four_links<'a, R: Wait>(
    site: &'a Site<'a, R>,
    opened: PassOfCore,
    second: PassOfCore,
    third: PassOfCore,
    fourth: PassOfCore,
) -> Speaking<'a, R, Speaking<'a, R, Speaking<'a, R, Idle<'a, R>>>>
    requires opened { (opened.desk ≡ site.now.desk.now) × (opened.view.who ≡ 0) }
    requires second { (second.desk ≡ site.now.desk.now) × (0 < second.view.who) × (second.view.mine ≡ []) }
    requires third { (third.desk ≡ site.now.desk.now) × (0 < third.view.who) × (third.view.mine ≡ []) }
    requires fourth { (fourth.desk ≡ site.now.desk.now) × (0 < fourth.view.who) × (fourth.view.mine ≡ []) }
{
    let idle = Idle::new(site, opened, Deed::Switch);
    let idle = Guest::new(site, fourth, idle, Uid(0));
    let bob = Speaking::new([CONTROL_SECOND, NO_CALL], idle);
    let bob = Guest::new(site, third, bob, Uid(1001));
    let alice = Speaking::new([CONTROL_FIRST, NO_CALL], bob);
    let alice = Guest::new(site, second, alice, Uid(1000));
    Speaking::new([CREATE_FIRST, CREATE_SECOND], alice)
}

/// A link that makes no call is told what another brought about before it is read again: two sessions are there, each
/// with a client that controls it, and the terminal of the active one is switched away from.
#[test]
fn idle_link_is_told_before_its_next_read(rt: HostRuntime) -> Result<(), Fail> {
    let alloc = rt.alloc();
    let seen = Seen::new();
    let (desk, mut opened) = Desk::open(alloc, core(alloc)?)?;
    let mut first = desk.split(&mut opened, ConnId(1));
    let second = desk.split(&mut opened, ConnId(2));
    let third = desk.split(&mut opened, ConnId(3));
    let fourth = desk.split(&mut opened, ConnId(4));
    add_devices(&rt, alloc, &desk, &mut opened)?;
    let site = Site {
        rt: &rt,
        alloc,
        desk: &desk,
        seen: &seen,
    };
    let mut root = four_links(&site, opened, second, third, fourth);
    let end = serve_link(&rt, alloc, &desk, &mut first, &mut root, Uid(0), &OpenGate);
    assert_eq!(rt; end, LinkEnd::Closed);
    assert_eq!(rt; seen.closed.load(Ordering::SeqCst), 3);
    assert_eq!(rt; seen.reads.load(Ordering::SeqCst), 3);
    assert!(rt; seen.is_told.load(Ordering::SeqCst));
    Ok(())
}

/// A link that makes no call ends at the stop, and is not read behind it.
#[test]
fn idle_link_ends_at_the_stop(rt: HostRuntime) -> Result<(), Fail> {
    let alloc = rt.alloc();
    let seen = Seen::new();
    let (desk, mut opened) = Desk::open(alloc, core(alloc)?)?;
    let mut pass = desk.split(&mut opened, ConnId(1));
    let site = Site {
        rt: &rt,
        alloc,
        desk: &desk,
        seen: &seen,
    };
    let mut idle = Idle::new(&site, opened, Deed::Stop);
    let end = serve_link(&rt, alloc, &desk, &mut pass, &mut idle, Uid(0), &OpenGate);
    assert_eq!(rt; end, LinkEnd::Stopped(2));
    assert_eq!(rt; seen.reads.load(Ordering::SeqCst), 2);
    assert_eq!(rt; idle.said.as_slice(), REPLIES);
    Ok(())
}
