// The reader of the input is started, each thread is waited for, and each link is given back.

ghost use Rattle.std.specs.Prelude.{◌≡◌, ◌<◌, ◌≤◌, ◌∷◌, [], ℕ, Bool, List, None};
ghost use Rattle.replay.specs.Recording.{most_lines};
ghost use Rattle.recording.specs.Reading.{left_to};
ghost use Rattle.desk.specs.Passes.{IsFirst, JoinsPass};
ghost use Rattle.desk.specs.Views.{split_view};
ghost use Rattle.login_prog.specs.inner.Jobs.{LinkGives, PassOfCore};
ghost use Rattle.login_prog.specs.inner.Accepting.{Far, HasChild, HasKept, Held, IsChild, IsFresh, IsNew, IsStarted, Keeps, Since, at_start, held_of, is_back, with_end};

use crate::serve::accepting::{Accepting, Child, Shared};
use crate::serve::link_job::LinkOut;
use crate::serve::reader_job::{ReaderJob, ReaderNote, ReaderOut};
use link_serve::serve_link;
use login_base::{ConnId, Uid};
use login_edge::{Gate, Link, Listener, Source, Spawner, Started};
use recording::LineReader;
use std::mem;
use std::sync::Wait;
use std::thread::{Scope, Threads};

/// Serves a link here, if it was not served.
fn served<L: Link, R: Wait, G: Gate>(shared: &Shared<R, G>, uid: Uid, out: LinkOut<L>) -> LinkOut<L>
    requires desk { out.pass.desk ≡ shared.now.desk.now }
    requires above { out.end ≡ None → 0 < out.pass.view.who }
    requires new { out.end ≡ None → out.pass.view.mine ≡ [] }
    ensures gives { (before : PassOfCore) (old : L) → LinkGives L.number L.talk L.left L.faults uid before old out.pass out.link out.end
        → LinkGives L.number L.talk L.left L.faults uid before old result.pass result.link result.end }
    ensures ended { result.end ≡ None → ⊥ }
{
    match out.end {
        Some(_) => out,
        None => {
            let LinkOut {
                mut link,
                mut pass,
                end: _,
            } = out;
            let end = serve_link(
                shared.rt,
                shared.alloc,
                shared.desk,
                &mut pass,
                &mut link,
                uid,
                shared.gate,
            );
            LinkOut {
                link,
                pass,
                end: Some(end),
            }
        }
    }
}

impl<L: Link, N: Listener<Link = L>, P: Spawner> Accepting<L, N, P> {
    /// Starts the thread that reads the input.
    pub fn start_reader<
        's,
        'a: 's,
        E,
        R: Wait + Sync,
        S: Source + Drop + Send + 's,
        G: Gate + Sync,
    >(
        &mut self,
        shared: &Shared<'a, R, G>,
        scope: &Scope<'s, E>,
        lines: LineReader,
        source: S,
        lines_read: u32,
    ) -> Started<ReaderOut<S>, ReaderNote<S>>
        requires fresh { IsFresh L.number L.talk L.left L.faults P.faults N.told N.given N.faults shared.now.desk.now self.old }
        requires desk { self.old.pass.desk ≡ shared.now.desk.now }
        requires within { lines_read ≤ most_lines }
        ensures desk { self.new.pass.desk ≡ self.old.pass.desk }
        ensures started { IsStarted S.left S.faults lines_read (left_to lines (S.left source)) (record { desk = self.old.pass.desk; view = split_view 0 self.old.pass.view }) source result }
        ensures refused { self.new.troubles ≡ record self.old.troubles { spawn_fault = is_back result } }
        ensures keeps { (x : Since L) (is_alone : Bool) → IsNew L.number L.talk L.left L.faults P.faults N.told N.given N.faults x self.old
            → Keeps L.number L.talk L.left L.faults P.faults N.told N.given N.faults x (at_start x.clock_faults is_alone) [] self.new }
        ensures unclosed { (self.new.is_closed ≡ self.old.is_closed) × (self.new.came ≡ self.old.came) }
    {
        let job = ReaderJob {
            rt: shared.rt,
            alloc: shared.alloc,
            desk: shared.desk,
            gate: shared.gate,
            pass: shared.desk.split(&mut self.pass, ConnId(0)),
            lines,
            source,
            lines_read,
        };
        match self.spawner.start(shared.alloc, scope, job) {
            Started::Running(handle) => Started::Running(handle),
            Started::Back(out) => {
                self.troubles.spawn_fault = true;
                Started::Back(out)
            }
        }
    }

    /// Waits for the thread of a link, and gives it back. A link that was not served is served here.
    pub fn join_link<R: Wait + Threads, G: Gate>(&mut self, shared: &Shared<R, G>, child: Child<L>)
        requires child { HasChild L.number L.talk L.left L.faults P.faults N.told N.given N.faults shared.now.desk.now child self.old }
        ensures desk { self.new.pass.desk ≡ self.old.pass.desk }
        ensures keeps { (x : Since L) (t : Far) (hands : List (Held L)) → IsChild L.number L.talk L.left L.faults x.desk x.setup child
            → Keeps L.number L.talk L.left L.faults P.faults N.told N.given N.faults x t (held_of child ∷ hands) self.old
            → Keeps L.number L.talk L.left L.faults P.faults N.told N.given N.faults x t hands self.new }
        ensures children { self.new.children ≡ self.old.children }
    {
        let Child {
            who,
            uid,
            handle,
            is_done: _,
            pass: _,
            link: _,
        } = child;
        let out = served(shared, uid, handle.join(shared.rt));
        self.end(shared, who, out);
    }

    /// Waits for the threads of all links, and gives them back.
    pub fn join_links<R: Wait + Threads, G: Gate>(&mut self, shared: &Shared<R, G>)
        requires kept { HasKept L.number L.talk L.left L.faults P.faults N.told N.given N.faults shared.now.desk.now [] self.old }
        ensures desk { self.new.pass.desk ≡ self.old.pass.desk }
        ensures keeps { (x : Since L) (t : Far) → Keeps L.number L.talk L.left L.faults P.faults N.told N.given N.faults x t [] self.old
            → Keeps L.number L.talk L.left L.faults P.faults N.told N.given N.faults x t [] self.new }
        ensures none { self.new.children.items ≡ [] }
    {
        let children = mem::replace(&mut self.children, Vec::new(shared.alloc));
        for child in children {
            self.join_link(shared, child);
        }
    }

    /// Takes what the reading of the input left.
    pub fn take_reader<R, G, S>(&mut self, shared: &Shared<R, G>, out: ReaderOut<S>) -> S
        requires desk { (self.old.pass.desk ≡ shared.now.desk.now) × (out.pass.desk ≡ shared.now.desk.now) }
        requires first { IsFirst self.old.pass.view }
        ensures source { result ≡ out.source }
        ensures desk { self.new.pass.desk ≡ self.old.pass.desk }
        ensures joins { JoinsPass self.old.pass.view out.pass.view self.new.pass.view }
        ensures same { self.new ≡ record self.old { pass = self.new.pass; troubles = with_end out.end self.old.troubles } }
    {
        let ReaderOut { source, pass, end } = out;
        shared.desk.join(&mut self.pass, pass);
        if let Some(end) = end {
            self.troubles.read(end);
        }
        source
    }
}
