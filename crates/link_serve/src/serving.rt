// The serving of one link.

ghost use Rattle.std.specs.Prelude.{◌≡◌, ◌≢◌, ◌<◌, [], ◌∷◌, ℕ, List, Option, None, IfOk, length};
ghost use Rattle.desk.specs.History.{entries};
ghost use Rattle.login_edge.specs.Exchanges.{Exchange};
ghost use Rattle.login_office.specs.Hearing.{MayCome};
ghost use Rattle.wire_calls.specs.Laws.{MayStand};
ghost use Rattle.wire_out.specs.Places.{IsPlaceIn};
ghost use Rattle.link_serve.specs.Serving.{Served, ServesOn};
ghost use Rattle.login_model.specs.Stopping.{stop_from};
ghost use Rattle.login_model.specs.declared.mark.Entry.{Entry};
ghost use Rattle.login_model.specs.declared.setup.Setup.{Setup};
ghost use Rattle.desk.specs.declared.view.View.{View};
ghost use Rattle.link_serve.specs.inner.Standing.{CloseTells, Moment, Rests, Says, Stops, TurnGives, hung_up_end, refused_end};
ghost use Rattle.link_serve.specs.inner.Turning.{Answers, Begins, Connects, HasRested, HaveNext, Hears, IsHeard, Tells, WasHeard, moment};

use crate::acts::{Close, Fetch, Greet};
use crate::core_at_desk::{DeskOfCore, PassOfCore};
use crate::stepping::step_event;
use login_base::{ConnId, Items, Uid};
use login_core::Refused;
use login_edge::{Gate, Heard, Leave, Link, WriteEnd, say_all};
use login_model::{Event, Request};
use login_office::{HeardPiece, LinkEnd, Teller, Unbegun};
use std::alloc::Global;
use std::sync::Wait;
use std::thread;

/// How many bytes are read at once.
const READ_SIZE: usize = 4096;

/// What serves a link.
#[derive(Drop)]
struct Server<'a, R, G> {
    rt: &'a R,
    alloc: Global,
    desk: &'a DeskOfCore,
    gate: &'a G,
    who: ConnId,
    uid: Uid,
}

/// How far a link is: its teller, how many of its calls were answered, and whether its connection is open.
#[derive(Drop)]
struct Progress {
    teller: Teller,
    calls: u32,
    is_open: bool,
}

/// What came of waiting for a client.
#[derive(Drop)]
enum Received {
    Nothing,
    Piece(HeardPiece),
}

/// Why an event has no entry, as the end of its link.
fn refused_end(why: Refused) -> LinkEnd
    ensures { result ≡ refused_end why }
{
    match why {
        Refused::NoMemory => LinkEnd::NoMemory,
        Refused::Full(count) => LinkEnd::Full(count),
        Refused::Stopped(number) => LinkEnd::Stopped(number),
    }
}

/// Writes a text to a link.
fn say<L: Link>(link: &mut L, text: &[u8]) -> Result<(), LinkEnd>
    ensures says { Says (L.talk link.old) (L.talk link.new) (L.faults link.old) (L.faults link.new) text.now result }
    ensures left { L.left link.new ≡ L.left link.old }
    ensures number { L.number link.new ≡ L.number link.old }
{
    match say_all(link, text) {
        WriteEnd::Done => Ok(()),
        WriteEnd::Fault => Err(LinkEnd::WriteFault),
    }
}

/// How a link ends whose client has hung up.
fn hung_up(is_open: bool) -> LinkEnd
    ensures { result ≡ hung_up_end is_open }
{
    if is_open {
        LinkEnd::Closed
    } else {
        LinkEnd::NotBegun(Unbegun::HungUp)
    }
}

impl<'a, R: Wait, G: Gate> Server<'a, R, G> {
    /// Writes the mail that is due, and answers the number of the stop's entry, if it is there.
    fn tell<L: Link>(
        &self,
        pass: &mut PassOfCore,
        link: &mut L,
        teller: Teller,
    ) -> Result<(Teller, Option<u32>), LinkEnd>
        requires desk { pass.old.desk ≡ self.now.desk.now }
        requires placed { IsPlaceIn teller.place (entries pass.old.view.seen) }
        ensures desk { pass.new.desk ≡ pass.old.desk }
        ensures mine { pass.new.view.mine ≡ pass.old.view.mine }
        ensures who { pass.new.view.who ≡ pass.old.view.who }
        ensures number { L.number link.new ≡ L.number link.old }
        ensures tells { Tells teller (moment pass.old.view (L.talk link.old) (L.left link.old) (L.faults link.old)) (moment pass.new.view (L.talk link.new) (L.left link.new) (L.faults link.new)) result }
    {
        let mut fetch = Fetch::new(self.alloc, teller, pass);
        let Some((teller, fetched)) = self.desk.act(self.rt, pass, &mut fetch) else {
            unreachable!()
        };
        let Ok(mail) = fetched else {
            return Err(LinkEnd::NoMemory);
        };
        say(link, mail.bytes.as_slice())?;
        Ok((teller, mail.stop))
    }

    /// Makes the entry of the link's connect. A link that is not let in has ended.
    fn connect(&self, pass: &mut PassOfCore) -> Result<(), LinkEnd>
        requires desk { pass.old.desk ≡ self.now.desk.now }
        requires who { pass.old.view.who ≡ self.now.who.0 }
        requires above { 0 < self.now.who.0 }
        requires new { pass.old.view.mine ≡ [] }
        ensures desk { pass.new.desk ≡ pass.old.desk }
        ensures connects { (talk : Option (List Exchange)) (left : Option (List ℕ)) (faults : ℕ)
            → Connects self.now.uid (moment pass.old.view talk left faults) (moment pass.new.view talk left faults) result }
    {
        let event = Event::Connect(self.who, self.uid);
        match step_event(self.rt, self.desk, self.gate, pass, event) {
            Ok(true) => Ok(()),
            Ok(false) => Err(LinkEnd::TooMany),
            Err(why) => Err(refused_end(why)),
        }
    }

    /// Waits until the gate lets the call of this number go.
    fn wait(&self, number: u32) {
        for _ in self.rt.forever() {
            if self.gate.pass(self.who, number) == Leave::Go {
                return;
            }
            thread::yield_now();
        }
        unreachable!()
    }

    /// Makes the entry of a call, and writes the mail up to it.
    fn answer<L: Link>(
        &self,
        pass: &mut PassOfCore,
        link: &mut L,
        progress: Progress,
        call: Request,
    ) -> Result<Progress, LinkEnd>
        requires desk { pass.old.desk ≡ self.now.desk.now }
        requires who { pass.old.view.who ≡ self.now.who.0 }
        requires call { (call.who ≡ self.now.who) × MayStand call }
        requires next { HaveNext self.now.uid (moment pass.old.view (L.talk link.old) (L.left link.old) (L.faults link.old)) progress (call ∷ []) }
        ensures desk { pass.new.desk ≡ pass.old.desk }
        ensures number { L.number link.new ≡ L.number link.old }
        ensures same { IfOk result (λ p. p.is_open ≡ progress.is_open) }
        ensures answers { Answers self.now.uid progress (moment pass.old.view (L.talk link.old) (L.left link.old) (L.faults link.old)) (moment pass.new.view (L.talk link.new) (L.left link.new) (L.faults link.new)) (call ∷ []) result }
    {
        let Progress {
            teller,
            calls,
            is_open,
        } = progress;
        let calls = calls.saturating_add(1);
        self.wait(calls);
        let event = Event::Call(call);
        match step_event(self.rt, self.desk, self.gate, pass, event) {
            Ok(_) => {}
            Err(why) => return Err(refused_end(why)),
        }
        let (teller, _) = self.tell(pass, link, teller)?;
        self.gate.answered(self.who, calls);
        Ok(Progress {
            teller,
            calls,
            is_open,
        })
    }

    /// Makes the entries of calls, one after the other, each with its mail behind it.
    fn answer_all<L: Link>(
        &self,
        pass: &mut PassOfCore,
        link: &mut L,
        progress: Progress,
        calls: Items<Request>,
    ) -> Result<Progress, LinkEnd>
        requires desk { pass.old.desk ≡ self.now.desk.now }
        requires who { pass.old.view.who ≡ self.now.who.0 }
        requires calls { MayCome self.now.who calls }
        requires next { HaveNext self.now.uid (moment pass.old.view (L.talk link.old) (L.left link.old) (L.faults link.old)) progress calls }
        ensures desk { pass.new.desk ≡ pass.old.desk }
        ensures number { L.number link.new ≡ L.number link.old }
        ensures same { IfOk result (λ p. p.is_open ≡ progress.is_open) }
        ensures answers { Answers self.now.uid progress (moment pass.old.view (L.talk link.old) (L.left link.old) (L.faults link.old)) (moment pass.new.view (L.talk link.new) (L.left link.new) (L.faults link.new)) calls result }
    {
        let mut progress = progress;
        for call in calls.into_vec() {
            progress = self.answer(pass, link, progress, call)?;
        }
        Ok(progress)
    }

    /// Waits for the client, and writes the replies of the handshake to what it sent.
    fn receive<L: Link>(
        &self,
        link: &mut L,
        progress: &mut Progress,
        buf: &mut [u8],
    ) -> Result<Received, LinkEnd>
        requires buf { 0 < length buf.old }
        ensures number { L.number link.new ≡ L.number link.old }
        ensures buf { length buf.new ≡ length buf.old }
        ensures hears { (view : View Setup Entry) (start : Moment) → stop_from 1 (entries view.seen) ≡ None
            → Rests self.now.uid start (moment view (L.talk link.old) (L.left link.old) (L.faults link.old)) progress.old
            → Hears self.now.uid start (moment view (L.talk link.new) (L.left link.new) (L.faults link.new)) progress.new result }
    {
        let count = match link.read(buf) {
            Heard::Bytes(count) => count,
            Heard::Quiet => return Ok(Received::Nothing),
            Heard::End => return Err(hung_up(progress.is_open)),
            Heard::Failed => return Err(LinkEnd::ReadFault),
        };
        let Ok(heard) = progress.teller.hear(self.alloc, &buf[..count]) else {
            return Err(LinkEnd::NoMemory);
        };
        say(link, heard.replies.as_slice())?;
        Ok(Received::Piece(heard))
    }

    /// Makes the entries of what was heard.
    fn follow<L: Link>(
        &self,
        pass: &mut PassOfCore,
        link: &mut L,
        progress: Progress,
        heard: HeardPiece,
    ) -> Result<Progress, LinkEnd>
        requires desk { pass.old.desk ≡ self.now.desk.now }
        requires who { pass.old.view.who ≡ self.now.who.0 }
        requires heard { WasHeard self.now.uid (moment pass.old.view (L.talk link.old) (L.left link.old) (L.faults link.old)) progress heard }
        ensures desk { pass.new.desk ≡ pass.old.desk }
        ensures number { L.number link.new ≡ L.number link.old }
        ensures follows { (start : Moment) → IsHeard self.now.uid start (moment pass.old.view (L.talk link.old) (L.left link.old) (L.faults link.old)) progress heard → TurnGives self.now.uid start (moment pass.new.view (L.talk link.new) (L.left link.new) (L.faults link.new)) result }
    {
        let HeardPiece {
            replies: _,
            begins,
            calls,
            end,
        } = heard;
        let mut progress = progress;
        if begins {
            self.connect(pass)?;
            progress.is_open = true;
        }
        let progress = self.answer_all(pass, link, progress, calls)?;
        match end {
            Some(end) => Err(end),
            None => Ok(progress),
        }
    }

    /// Writes what is due, looks for the stop, and then hears what comes next.
    fn turn<L: Link>(
        &self,
        pass: &mut PassOfCore,
        link: &mut L,
        progress: Progress,
        buf: &mut [u8],
    ) -> Result<Progress, LinkEnd>
        requires desk { pass.old.desk ≡ self.now.desk.now }
        requires who { pass.old.view.who ≡ self.now.who.0 }
        requires buf { 0 < length buf.old }
        requires rests { HasRested self.now.uid (moment pass.old.view (L.talk link.old) (L.left link.old) (L.faults link.old)) progress }
        ensures desk { pass.new.desk ≡ pass.old.desk }
        ensures number { L.number link.new ≡ L.number link.old }
        ensures buf { length buf.new ≡ length buf.old }
        ensures turn { (start : Moment) → Rests self.now.uid start (moment pass.old.view (L.talk link.old) (L.left link.old) (L.faults link.old)) progress → TurnGives self.now.uid start (moment pass.new.view (L.talk link.new) (L.left link.new) (L.faults link.new)) result }
    {
        let Progress {
            teller,
            calls,
            is_open,
        } = progress;
        let (teller, stop) = self.tell(pass, link, teller)?;
        if let Some(number) = stop {
            return Err(LinkEnd::Stopped(number));
        }
        let mut progress = Progress {
            teller,
            calls,
            is_open,
        };
        match self.receive(link, &mut progress, buf)? {
            Received::Nothing => Ok(progress),
            Received::Piece(heard) => self.follow(pass, link, progress, heard),
        }
    }

    /// Serves the link until it ends.
    fn run<L: Link>(&self, pass: &mut PassOfCore, link: &mut L, teller: Teller) -> LinkEnd
        requires desk { pass.old.desk ≡ self.now.desk.now }
        requires who { pass.old.view.who ≡ self.now.who.0 }
        requires begins { Begins self.now.uid (moment pass.old.view (L.talk link.old) (L.left link.old) (L.faults link.old)) teller }
        ensures desk { pass.new.desk ≡ pass.old.desk }
        ensures number { L.number link.new ≡ L.number link.old }
        ensures stops { Stops self.now.uid (moment pass.old.view (L.talk link.old) (L.left link.old) (L.faults link.old)) (moment pass.new.view (L.talk link.new) (L.left link.new) (L.faults link.new)) result }
    {
        let mut buf = [0; READ_SIZE];
        let mut progress = Progress {
            teller,
            calls: 0,
            is_open: false,
        };
        for _ in self.rt.forever() {
            match self.turn(pass, link, progress, &mut buf) {
                Ok(next) => progress = next,
                Err(end) => return end,
            }
        }
        unreachable!()
    }

    /// Makes the entry of the connection's end, if it is connected.
    fn close(&self, pass: &mut PassOfCore)
        requires desk { pass.old.desk ≡ self.now.desk.now }
        ensures desk { pass.new.desk ≡ pass.old.desk }
        ensures closes { CloseTells pass.old.view pass.new.view }
    {
        if self.desk.act(self.rt, pass, &mut Close) {
            self.gate.wake();
        }
    }
}

/// Serves a link, with a client that is to be this user, until it ends. Before each read all mail that is due is
/// written. Each end of a link that was let in closes its connection.
pub fn serve_link<R: Wait, L: Link, G: Gate>(
    rt: &R,
    alloc: Global,
    desk: &DeskOfCore,
    pass: &mut PassOfCore,
    link: &mut L,
    uid: Uid,
    gate: &G,
) -> LinkEnd
    requires desk { pass.old.desk ≡ desk.now }
    requires who { 0 < pass.old.view.who }
    requires new { pass.old.view.mine ≡ [] }
    ensures desk { pass.new.desk ≡ pass.old.desk }
    ensures number { L.number link.new ≡ L.number link.old }
    ensures served { Served uid pass.old.view pass.new.view (L.talk link.old) (L.talk link.new) (L.left link.old) (L.left link.new) (L.faults link.old) (L.faults link.new) result }
    ensures serves_on { ServesOn uid pass.old.view pass.new.view (L.left link.old) (L.faults link.old) (L.faults link.new) result }
{
    let Ok((who, teller)) = desk.act(rt, pass, &mut Greet { alloc, uid }) else {
        return LinkEnd::NoMemory;
    };
    let server = Server {
        rt,
        alloc,
        desk,
        gate,
        who,
        uid,
    };
    let end = server.run(pass, link, teller);
    server.close(pass);
    end
}
