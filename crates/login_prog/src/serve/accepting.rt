// The calling thread: it takes links, reads the clock, and looks for the stop.

ghost use Rattle.std.specs.Prelude.{◌≡◌, ◌+◌, ◌<◌, ◌≤◌, ◌⊎◌, ◌∷◌, [], ℕ, Bool, List, Option, IfOk, None, true, false, vec_len, vec_capacity};
ghost use Rattle.link_serve.specs.Turned.{StopTells};
ghost use Rattle.login_prog.specs.Served.{most_links, tick_length};
ghost use Rattle.login_prog.specs.inner.Accepting.{Accepts, Comes, Far, HasCome, HasKept, HasReturned, HasTurning, Held, IsBegun, IsClock, Keeps, Listened, MayStopAfter, Reads, Returns, Since, TickGives, Turned, Turning, asked_once, failing, stopped_now};

use crate::serve::link_job::{DoneBell, LinkJob, LinkNote, LinkOut};
use crate::serve::troubles::Troubles;
use desk::Desk;
use link_serve::{CoreAtDesk, PassOfCore, look_for_stop, step_event, stop};
use login_base::{ConnId, Millis, NoMemory, Uid};
use login_edge::{Accepted, Clock, Gate, Link, Listener, Reading, Spawner, Started};
use login_model::Event;
use login_office::LinkEnd;
use std::alloc::Global;
use std::snapshot::Snapshot;
use std::sync::atomic::{AtomicBool, AtomicU64, Ordering};
use std::sync::{Arc, Wait};
use std::thread::{PromisedHandle, Scope, Threads};

/// So many links are served. A later one is given back at once.
const MOST_SERVED: u32 = 10_000;

/// So many milliseconds the clock has to move for a tick.
const TICK: u64 = 1000;

/// What every thread shares.
#[derive(Drop)]
pub struct Shared<'a, R, G> {
    pub rt: &'a R,
    pub alloc: Global,
    pub desk: &'a Desk<CoreAtDesk>,
    pub gate: &'a G,
    /// How many links' jobs are done.
    pub done: &'a AtomicU64,
}

/// A link that a thread serves.
#[derive(Drop)]
pub struct Child<L: Link> {
    pub who: ConnId,
    pub uid: Uid,
    pub handle: PromisedHandle<LinkOut<L>, LinkNote<L>>,
    pub is_done: Arc<AtomicBool, Global>,
    /// The pass and the link as they were when it was started.
    pub pass: Snapshot<PassOfCore>,
    pub link: Snapshot<L>,
}

/// What the calling thread has while links are served.
#[derive(Drop)]
pub struct Accepting<L: Link, N, P> {
    pub pass: PassOfCore,
    pub listener: N,
    pub spawner: P,
    /// The links that are served, and room for one more at each that is taken.
    pub children: Vec<Child<L>>,
    /// How each link ended that came, by its number; one that was dropped or is served has no end.
    pub ends: Vec<Option<LinkEnd>>,
    /// How many links came.
    pub came: u32,
    /// Whether no link comes any more.
    pub is_closed: bool,
    /// How many jobs were done when children were last looked over.
    pub seen_done: u64,
    pub troubles: Troubles,
}

/// The clock, and the last tick, or 0.
#[derive(Drop)]
pub struct Ticking<C> {
    pub clock: C,
    pub tick: Millis,
}

/// A flag of a link that is done, for the calling thread and for the job.
type Flags = (Arc<AtomicBool, Global>, Arc<AtomicBool, Global>);

/// Whether a moment is far enough behind the last tick.
fn is_due(last: Millis, moment: Millis) -> bool
    ensures due { result ≡ true → last.0 + tick_length ≤ moment.0 }
    ensures early { result ≡ false → moment.0 < last.0 + tick_length }
{
    moment.0 >= TICK && moment.0 - TICK >= last.0
}

/// Takes the memory of a link more, and of its flag.
fn prepare<L: Link>(
    alloc: Global,
    children: &mut Vec<Child<L>>,
    ends: &mut Vec<Option<LinkEnd>>,
) -> Result<Flags, NoMemory>
    ensures children { children.new.items ≡ children.old.items }
    ensures ends { ends.new.items ≡ ends.old.items }
    ensures room { IfOk result (λ flags. (vec_len children.new < vec_capacity children.new) × (vec_len ends.new < vec_capacity ends.new)) }
{
    children.reserve(1)?;
    ends.reserve(1)?;
    let here = Arc::new(alloc, AtomicBool::new(false))?;
    let there = Arc::try_clone(&here)?;
    Ok((here, there))
}

impl<L: Link, N: Listener<Link = L>, P: Spawner> Accepting<L, N, P> {
    /// Keeps how a link ended, joins its pass, and gives it back.
    pub fn end<R, G>(&mut self, shared: &Shared<R, G>, who: ConnId, out: LinkOut<L>)
        requires returned { HasReturned L.number L.talk L.left L.faults P.faults N.told N.given N.faults shared.now.desk.now who.0 out self.old }
        ensures desk { self.new.pass.desk ≡ self.old.pass.desk }
        ensures keeps { (x : Since L) (t : Far) (h : Held L) (hands : List (Held L))
            → Returns L.number L.talk L.left L.faults P.faults N.told N.given N.faults x t h hands who.0 out self.old
            → Keeps L.number L.talk L.left L.faults P.faults N.told N.given N.faults x t hands self.new }
        ensures children { self.new.children ≡ self.old.children }
    {
        let LinkOut { link, pass, end } = out;
        self.ends[who.0 as usize - 1] = end;
        shared.desk.join(&mut self.pass, pass);
        self.listener.give_back(who, link);
    }

    /// Starts a thread that serves the link which came last.
    fn start<'s, 'a: 's, E, R: Wait + Sync, G: Gate + Sync>(
        &mut self,
        shared: &Shared<'a, R, G>,
        scope: &Scope<'s, E>,
        link: L,
        uid: Uid,
        flags: Flags,
    )
    where
        L: Send + 's,
        requires came { HasCome L.number L.talk L.left L.faults P.faults N.told N.given N.faults shared.now.desk.now link uid self.old }
        requires desk { self.old.pass.desk ≡ shared.now.desk.now }
        requires above { 0 < self.old.came }
        requires some { self.old.came ≤ most_links }
        requires unclosed { self.old.is_closed ≡ false }
        requires room { (vec_len self.old.children < vec_capacity self.old.children) × (vec_len self.old.ends < vec_capacity self.old.ends) }
        ensures desk { self.new.pass.desk ≡ self.old.pass.desk }
        ensures keeps { (listened : Listened L) (x : Since L) (t : Far)
            → Comes L.number L.talk L.left L.faults P.faults N.told N.given N.faults listened x t link uid self.old
            → Keeps L.number L.talk L.left L.faults P.faults N.told N.given N.faults x (asked_once t) [] self.new }
    {
        let who = ConnId(self.came);
        let (is_done, there) = flags;
        self.ends.push_reserved(None);
        let pass = shared.desk.split(&mut self.pass, who);
        let before = Snapshot::of(&pass);
        let came = Snapshot::of(&link);
        let job = LinkJob {
            rt: shared.rt,
            alloc: shared.alloc,
            desk: shared.desk,
            gate: shared.gate,
            pass,
            link,
            uid,
            bell: DoneBell {
                is_done: there,
                all: shared.done,
            },
        };
        match self.spawner.start(shared.alloc, scope, job) {
            Started::Running(handle) => self.children.push_reserved(Child {
                who,
                uid,
                handle,
                is_done,
                pass: before,
                link: came,
            }),
            Started::Back(out) => {
                self.troubles.spawn_fault = true;
                self.end(shared, who, out);
            }
        }
    }

    /// Serves a link that came, in a thread of its own.
    fn take<'s, 'a: 's, E, R: Wait + Sync, G: Gate + Sync>(
        &mut self,
        shared: &Shared<'a, R, G>,
        scope: &Scope<'s, E>,
        link: L,
        uid: Uid,
    )
    where
        L: Send + 's,
        requires came { HasCome L.number L.talk L.left L.faults P.faults N.told N.given N.faults shared.now.desk.now link uid self.old }
        requires unclosed { self.old.is_closed ≡ false }
        ensures desk { self.new.pass.desk ≡ self.old.pass.desk }
        ensures keeps { (listened : Listened L) (x : Since L) (t : Far)
            → Comes L.number L.talk L.left L.faults P.faults N.told N.given N.faults listened x t link uid self.old
            → (is_stopped : Bool) × Keeps L.number L.talk L.left L.faults P.faults N.told N.given N.faults x (record (asked_once t) { is_stopped = is_stopped }) [] self.new }
    {
        if self.came > MOST_SERVED {
            self.listener.give_back(ConnId(self.came), link);
            return;
        }
        match prepare(shared.alloc, &mut self.children, &mut self.ends) {
            Ok(flags) => self.start(shared, scope, link, uid, flags),
            Err(NoMemory) => {
                self.troubles.no_memory = true;
                self.is_closed = true;
                self.listener.give_back(ConnId(self.came), link);
                self.stop(shared);
            }
        }
    }

    /// Asks the listener once, where a link may still come.
    fn accept<'s, 'a: 's, E, R: Wait + Sync, G: Gate + Sync>(
        &mut self,
        shared: &Shared<'a, R, G>,
        scope: &Scope<'s, E>,
    )
    where
        L: Send + 's,
        requires kept { HasKept L.number L.talk L.left L.faults P.faults N.told N.given N.faults shared.now.desk.now [] self.old }
        ensures desk { self.new.pass.desk ≡ self.old.pass.desk }
        ensures accepts { (x : Since L) (t : Far) → Keeps L.number L.talk L.left L.faults P.faults N.told N.given N.faults x t [] self.old
            → Accepts L.number L.talk L.left L.faults P.faults N.told N.given N.faults x t self.old self.new }
    {
        if self.is_closed {
            return;
        }
        if self.came == u32::MAX {
            return;
        }
        match self.listener.accept() {
            Accepted::Came(link, uid) => {
                self.came += 1;
                self.take(shared, scope, link, uid);
            }
            Accepted::Quiet => {}
            Accepted::Closed => self.is_closed = true,
            Accepted::Failed => self.fail(shared),
        }
    }

    /// The listener or the clock has failed.
    fn fail<R: Wait, G: Gate>(&mut self, shared: &Shared<R, G>)
        requires desk { self.old.pass.desk ≡ shared.now.desk.now }
        requires who { self.old.pass.view.who ≡ 0 }
        ensures desk { self.new.pass.desk ≡ self.old.pass.desk }
        ensures keeps { (x : Since L) (t : Far) → Keeps L.number L.talk L.left L.faults P.faults N.told N.given N.faults x t [] (failing self.old)
            → Keeps L.number L.talk L.left L.faults P.faults N.told N.given N.faults x (stopped_now t) [] self.new }
    {
        self.troubles.listener_or_clock = true;
        self.stop(shared);
    }

    /// Makes the stop's entry, if it is not there.
    pub fn stop<R: Wait, G: Gate>(&mut self, shared: &Shared<R, G>)
        requires desk { self.old.pass.desk ≡ shared.now.desk.now }
        requires who { self.old.pass.view.who ≡ 0 }
        ensures desk { self.new.pass.desk ≡ self.old.pass.desk }
        ensures same { self.new ≡ record self.old { pass = self.new.pass } }
        ensures stops { StopTells self.old.pass.view self.new.pass.view }
        ensures keeps { (x : Since L) (t : Far) → MayStopAfter self.old.troubles t.is_alone self.old.pass.view.seen
            → Keeps L.number L.talk L.left L.faults P.faults N.told N.given N.faults x t [] self.old
            → Keeps L.number L.talk L.left L.faults P.faults N.told N.given N.faults x (stopped_now t) [] self.new }
    {
        stop(shared.rt, shared.desk, shared.gate, &mut self.pass);
    }

    /// Reads the clock once, and makes a tick's entry, where it has moved far enough.
    fn read_clock<C: Clock, R: Wait, G: Gate>(
        &mut self,
        shared: &Shared<R, G>,
        ticking: &mut Ticking<C>,
    )
        requires desk { self.old.pass.desk ≡ shared.now.desk.now }
        requires who { self.old.pass.view.who ≡ 0 }
        ensures desk { self.new.pass.desk ≡ self.old.pass.desk }
        ensures reads { (x : Since L) (t : Far) (calls : ℕ) → t.refused ≡ None
            → Keeps L.number L.talk L.left L.faults P.faults N.told N.given N.faults x t [] self.old
            → IsClock C.told C.faults x t calls ticking.old
            → Reads L.number L.talk L.left L.faults P.faults N.told N.given N.faults C.told C.faults x t calls self.new ticking.new }
    {
        match ticking.clock.now() {
            Reading::At(moment) => {
                if !is_due(ticking.tick, moment) {
                    return;
                }
                if self.make_tick(shared, moment) {
                    ticking.tick = moment;
                }
            }
            Reading::Failed => self.fail(shared),
        }
    }

    /// Makes a tick's entry. Whether there is one.
    fn make_tick<R: Wait, G: Gate>(&mut self, shared: &Shared<R, G>, moment: Millis) -> bool
        requires desk { self.old.pass.desk ≡ shared.now.desk.now }
        requires who { self.old.pass.view.who ≡ 0 }
        ensures desk { self.new.pass.desk ≡ self.old.pass.desk }
        ensures ticks { (x : Since L) (t : Far) → t.refused ≡ None
            → Keeps L.number L.talk L.left L.faults P.faults N.told N.given N.faults x t [] self.old
            → TickGives L.number L.talk L.left L.faults P.faults N.told N.given N.faults x t moment self.new result }
    {
        let event = Event::Tick(moment);
        match step_event(shared.rt, shared.desk, shared.gate, &mut self.pass, event) {
            Ok(_) => true,
            Err(why) => {
                self.troubles.refused(why);
                self.stop(shared);
                false
            }
        }
    }

    /// Gives those links back whose jobs are done, where some are that were not when this was last looked at.
    fn look_over<R: Wait + Threads, G: Gate>(&mut self, shared: &Shared<R, G>)
        requires kept { HasKept L.number L.talk L.left L.faults P.faults N.told N.given N.faults shared.now.desk.now [] self.old }
        ensures desk { self.new.pass.desk ≡ self.old.pass.desk }
        ensures keeps { (x : Since L) (t : Far) → Keeps L.number L.talk L.left L.faults P.faults N.told N.given N.faults x t [] self.old
            → Keeps L.number L.talk L.left L.faults P.faults N.told N.given N.faults x t [] self.new }
    {
        let done = shared.done.load(Ordering::SeqCst);
        if done == self.seen_done {
            return;
        }
        self.seen_done = done;
        let mut place = 0;
        while place < self.children.len() {
            if self.children[place].is_done.load(Ordering::SeqCst) {
                let child = self.children.swap_remove(place);
                self.join_link(shared, child);
            } else {
                place += 1;
            }
        }
    }

    /// Takes links and makes ticks until the stop is there.
    pub fn serve<'s, 'a: 's, E, C: Clock, R: Wait + Threads + Sync, G: Gate + Sync>(
        &mut self,
        shared: &Shared<'a, R, G>,
        scope: &Scope<'s, E>,
        ticking: &mut Ticking<C>,
    )
    where
        L: Send + 's,
        requires turning { HasTurning L.number L.talk L.left L.faults P.faults N.told N.given N.faults C.told C.faults shared.now.desk.now self.old ticking.old }
        ensures desk { self.new.pass.desk ≡ self.old.pass.desk }
        ensures turns { (x : Since L) (is_alone : Bool)
            → Turning L.number L.talk L.left L.faults P.faults N.told N.given N.faults C.told C.faults x is_alone self.old ticking.old
            → Turned L.number L.talk L.left L.faults P.faults N.told N.given N.faults C.told C.faults x is_alone self.new ticking.new }
    {
        for _ in shared.rt.forever() {
            self.accept(shared, scope);
            self.read_clock(shared, ticking);
            self.look_over(shared);
            if look_for_stop(shared.rt, shared.desk, &mut self.pass).is_some() {
                return;
            }
        }
        unreachable!()
    }
}
