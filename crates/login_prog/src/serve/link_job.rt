// A link that a thread is to serve.

ghost use Rattle.std.specs.Prelude.{◌≡◌, ◌<◌, []};

use desk::Desk;
use link_serve::{CoreAtDesk, PassOfCore, serve_link};
use login_base::Uid;
use login_edge::{Gate, Job, Link};
use login_office::LinkEnd;
use std::alloc::Global;
use std::snapshot::Snapshot;
use std::sync::atomic::{AtomicBool, AtomicU64, Ordering};
use std::sync::{Arc, Wait};
use std::thread::Promise;

/// With what a job tells that it is done: a flag of its own, and a count that all of them share. Neither is promised:
/// whoever sees it joins the thread, which may still wait for it.
#[derive(Drop)]
pub struct DoneBell<'a> {
    pub is_done: Arc<AtomicBool, Global>,
    pub all: &'a AtomicU64,
}

impl<'a> DoneBell<'a> {
    fn ring(self) {
        let DoneBell { is_done, all } = self;
        is_done.store(true, Ordering::SeqCst);
        all.fetch_add(1, Ordering::SeqCst);
    }
}

/// A link that a thread is to serve, with its own pass, which has made nothing yet.
#[derive(Drop)]
pub struct LinkJob<'a, R, L, G> {
    pub rt: &'a R,
    pub alloc: Global,
    pub desk: &'a Desk<CoreAtDesk>,
    pub gate: &'a G,
    pub pass: PassOfCore,
    pub link: L,
    pub uid: Uid,
    pub bell: DoneBell<'a>,
    ghost fits: { pass.desk ≡ desk.now },
    ghost who: { 0 < pass.view.who },
    ghost new: { pass.view.mine ≡ [] },
}

/// A link, what its pass knows, and how its serving ended, if it was served.
#[derive(Drop)]
pub struct LinkOut<L> {
    pub link: L,
    pub pass: PassOfCore,
    pub end: Option<LinkEnd>,
}

/// What the handle of a link's thread keeps.
#[derive(Drop)]
pub struct LinkNote<L> {
    pub pass: Snapshot<PassOfCore>,
    pub link: Snapshot<L>,
    pub uid: Uid,
}

impl<L: Link> Promise<LinkOut<L>> for LinkNote<L> {
    ghost use Rattle.login_prog.specs.inner.Jobs.{LinkGives};

    ghost kept_by = { λ note out. LinkGives L.number L.talk L.left L.faults note.uid note.pass.value note.link.value out.pass out.link out.end };
}

impl<'a, R: Wait, L: Link, G: Gate> Job for LinkJob<'a, R, L, G> {
    ghost use Rattle.login_prog.specs.inner.Jobs.{LinkGives};

    type Out = LinkOut<L>;

    type Note = LinkNote<L>;

    ghost gives = { λ job out. LinkGives L.number L.talk L.left L.faults job.uid job.pass job.link out.pass out.link out.end };

    fn note(&self) -> LinkNote<L> {
        LinkNote {
            pass: Snapshot::of(&self.pass),
            link: Snapshot::of(&self.link),
            uid: self.uid,
        }
    }

    fn work(self) -> LinkOut<L> {
        let LinkJob {
            rt,
            alloc,
            desk,
            gate,
            mut pass,
            mut link,
            uid,
            bell,
        } = self;
        let end = serve_link(rt, alloc, desk, &mut pass, &mut link, uid, gate);
        bell.ring();
        LinkOut {
            link,
            pass,
            end: Some(end),
        }
    }

    fn decline(self) -> LinkOut<L> {
        let LinkJob {
            rt: _,
            alloc: _,
            desk: _,
            gate: _,
            pass,
            link,
            uid: _,
            bell,
        } = self;
        bell.ring();
        LinkOut {
            link,
            pass,
            end: None,
        }
    }
}
