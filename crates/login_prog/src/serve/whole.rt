// The whole of a run that serves.

ghost use Rattle.std.specs.Prelude.{◌≡◌, ◌≤◌, [], ℕ, List, Option, IfOk, false};
ghost use Rattle.desk.specs.Passes.{IsFirst};
ghost use Rattle.desk.specs.Views.{first_view};
ghost use Rattle.login_laws.specs.Lawful.{IsLawful};
ghost use Rattle.login_model.specs.Conf.{IsAllowed};
ghost use Rattle.login_model.specs.Setups.{IsSetup};
ghost use Rattle.recording.specs.Reading.{left_to};
ghost use Rattle.replay.specs.Recording.{most_lines};
ghost use Rattle.login_prog.specs.Outcome.{HasServed, Serves, change, given};
ghost use Rattle.login_prog.specs.inner.Causes.{Caused, IsEnding};
ghost use Rattle.login_prog.specs.inner.Accepting.{IsFresh, IsNew, Since, listened_of, no_troubles};
ghost use Rattle.login_prog.specs.inner.Left.{Finished, Finishes, HasLeft, IsReady, Leaves, Prepares, Writes, with_written};

use crate::outside::Outside;
use crate::serve::accepting::{Accepting, Shared, Ticking};
use crate::serve::ends::ErrorLines;
use crate::serve::reader_job::ReaderOut;
use crate::serve::troubles::{ServeEnd, Troubles};
use desk::Desk;
use link_serve::{CoreAtDesk, PassOfCore};
use login_base::{ConnId, Items, Millis, NoMemory, Uid};
use login_edge::{Clock, Gate, Link, Listener, Opened, Sink, Source, Spawner, Started, WriteEnd};
use login_model::Setup;
use login_office::LinkEnd;
use recording::{LineReader, WriteEnd as RecordingEnd, write_recording};
use replay::{SetupEnd, StatusLine, read_setup, report};
use std::alloc::Global;
use std::sync::Wait;
use std::sync::atomic::AtomicU64;
use std::thread;
use std::thread::{Scope, Threads};

/// What is ready before the listener is opened.
#[derive(Drop)]
struct Ready {
    desk: Desk<CoreAtDesk>,
    pass: PassOfCore,
    lines: LineReader,
    lines_read: u32,
    uids: Items<Uid>,
}

/// What serving left.
#[derive(Drop)]
struct Left<L: Link, N, S, C, P> {
    accepting: Accepting<L, N, P>,
    source: S,
    clock: C,
}

/// Root, and the users of a setup.
fn users_of(alloc: Global, setup: &Setup) -> Result<Items<Uid>, NoMemory> {
    let mut uids = Items::new(alloc);
    uids.push(Uid(0))?;
    for row in setup.users.as_slice() {
        uids.push(row.uid)?;
    }
    Ok(uids)
}

/// Reads the input through `go`, and makes the desk.
fn prepare<S: Source>(alloc: Global, source: &mut S) -> Result<Ready, ServeEnd>
    ensures { Prepares (S.left source.old) (S.left source.new) (S.faults source.old) (S.faults source.new) result }
{
    let Ok(mut lines) = LineReader::new(alloc) else {
        return Err(ServeEnd::NoMemory);
    };
    match read_setup(alloc, &mut lines, source) {
        SetupEnd::Ready(setup, _, lines_read) => match open_desk(alloc, setup) {
            Ok((desk, pass, uids)) => Ok(Ready {
                desk,
                pass,
                lines,
                lines_read,
                uids,
            }),
            Err(NoMemory) => Err(ServeEnd::NoMemory),
        },
        SetupEnd::Script(number, cause) => Err(ServeEnd::Script(number, cause)),
        SetupEnd::ReadFault => Err(ServeEnd::ReadFault),
        SetupEnd::NoMemory => Err(ServeEnd::NoMemory),
    }
}

/// A desk for the core of a setup, its first pass, and the users that links may be of.
fn open_desk(
    alloc: Global,
    setup: Setup,
) -> Result<(Desk<CoreAtDesk>, PassOfCore, Items<Uid>), NoMemory>
    requires set_up { IsSetup setup }
    requires allowed { IsAllowed setup.conf }
    ensures desk { IfOk result (λ r. r.1.desk ≡ r.0) }
    ensures first { IfOk result (λ r. r.1.view ≡ first_view setup) }
{
    let uids = users_of(alloc, &setup)?;
    let (desk, pass) = Desk::open(alloc, CoreAtDesk::new(alloc, setup)?)?;
    Ok((desk, pass, uids))
}

/// What the calling thread has before the first link comes.
fn new_accepting<L: Link, N: Listener<Link = L>, P: Spawner>(
    alloc: Global,
    pass: PassOfCore,
    listener: N,
    spawner: P,
) -> Accepting<L, N, P>
    ensures pass { result.pass ≡ pass }
    ensures listener { result.listener ≡ listener }
    ensures spawner { result.spawner ≡ spawner }
    ensures none { (result.children.items ≡ []) × (result.ends.items ≡ []) }
    ensures start { (result.came ≡ 0) × (result.is_closed ≡ false) × (result.troubles ≡ no_troubles) }
{
    Accepting {
        pass,
        listener,
        spawner,
        children: Vec::new(alloc),
        ends: Vec::new(alloc),
        came: 0,
        is_closed: false,
        seen_done: 0,
        troubles: Troubles::NONE,
    }
}

/// Takes what the reading of the input left.
fn leave<R, S, L: Link, N: Listener<Link = L>, C, P: Spawner, G>(
    shared: &Shared<R, G>,
    accepting: Accepting<L, N, P>,
    ticking: Ticking<C>,
    out: ReaderOut<S>,
) -> Left<L, N, S, C, P>
    requires desk { (accepting.pass.desk ≡ shared.now.desk.now) × (out.pass.desk ≡ shared.now.desk.now) }
    requires first { IsFirst accepting.pass.view }
    ensures leaves { Leaves accepting out.pass.view out.end result.accepting }
    ensures source { result.source ≡ out.source }
    ensures clock { result.clock ≡ ticking.clock }
{
    let mut accepting = accepting;
    let source = accepting.take_reader(shared, out);
    let Ticking { clock, tick: _ } = ticking;
    Left {
        accepting,
        source,
        clock,
    }
}

/// Serves links in a scope of threads, and waits for all of them.
fn serve_in<
    's,
    'a: 's,
    E,
    R: Wait + Threads + Sync,
    S: Source + Drop + Send + 's,
    L: Link + Send + 's,
    N: Listener<Link = L> + Drop,
    C: Clock + Drop,
    P: Spawner + Drop,
    G: Gate + Sync,
>(
    shared: &Shared<'a, R, G>,
    scope: &Scope<'s, E>,
    accepting: Accepting<L, N, P>,
    ticking: Ticking<C>,
    lines: LineReader,
    source: S,
    lines_read: u32,
) -> Left<L, N, S, C, P>
    requires fresh { IsFresh L.number L.talk L.left L.faults P.faults N.told N.given N.faults shared.now.desk.now accepting }
    requires within { lines_read ≤ most_lines }
    requires tick { ticking.tick.0 ≡ 0 }
    ensures left { (x : Since L) → IsNew L.number L.talk L.left L.faults P.faults N.told N.given N.faults x accepting → x.readings ≡ C.told ticking.clock → x.clock_faults ≡ C.faults ticking.clock
        → HasLeft L.number L.talk L.left L.faults P.faults x lines_read (change (left_to lines (S.left source)) (S.left result.source) (S.faults source) (S.faults result.source))
        (listened_of N.told N.given N.faults result.accepting.listener) (C.told result.clock) (C.faults result.clock) result.accepting }
{
    let mut accepting = accepting;
    let mut ticking = ticking;
    match accepting.start_reader(shared, scope, lines, source, lines_read) {
        Started::Running(handle) => {
            accepting.serve(shared, scope, &mut ticking);
            accepting.join_links(shared);
            leave(shared, accepting, ticking, handle.join(shared.rt))
        }
        Started::Back(out) => {
            if out.end.is_none() {
                accepting.stop(shared);
                return leave(shared, accepting, ticking, out);
            }
            accepting.serve(shared, scope, &mut ticking);
            accepting.join_links(shared);
            leave(shared, accepting, ticking, out)
        }
    }
}

/// Serves links in threads until the stop.
fn serve_links<
    R: Wait + Threads + Sync,
    S: Source + Drop + Send,
    L: Link + Send,
    N: Listener<Link = L> + Drop,
    C: Clock + Drop,
    P: Spawner + Drop,
    G: Gate + Sync,
>(
    shared: &Shared<R, G>,
    accepting: Accepting<L, N, P>,
    ticking: Ticking<C>,
    lines: LineReader,
    source: S,
    lines_read: u32,
) -> Left<L, N, S, C, P>
    requires fresh { IsFresh L.number L.talk L.left L.faults P.faults N.told N.given N.faults shared.now.desk.now accepting }
    requires within { lines_read ≤ most_lines }
    requires tick { ticking.tick.0 ≡ 0 }
    ensures left { (x : Since L) → IsNew L.number L.talk L.left L.faults P.faults N.told N.given N.faults x accepting → x.readings ≡ C.told ticking.clock → x.clock_faults ≡ C.faults ticking.clock
        → HasLeft L.number L.talk L.left L.faults P.faults x lines_read (change (left_to lines (S.left source)) (S.left result.source) (S.faults source) (S.faults result.source))
        (listened_of N.told N.given N.faults result.accepting.listener) (C.told result.clock) (C.faults result.clock) result.accepting }
{
    thread::scope(
        thread::scope_env(),
        shared.rt,
        |scope| -> Left<L, N, S, C, P>
            requires { IsFresh L.number L.talk L.left L.faults P.faults N.told N.given N.faults shared.now.desk.now accepting × (lines_read ≤ most_lines) × (ticking.tick.0 ≡ 0) }
            ensures { (x : Since L) → IsNew L.number L.talk L.left L.faults P.faults N.told N.given N.faults x accepting → x.readings ≡ C.told ticking.clock → x.clock_faults ≡ C.faults ticking.clock
                → HasLeft L.number L.talk L.left L.faults P.faults x lines_read (change (left_to lines (S.left source)) (S.left result.source) (S.faults source) (S.faults result.source))
                (listened_of N.told N.given N.faults result.accepting.listener) (C.told result.clock) (C.faults result.clock) result.accepting }
        { serve_in(shared, scope, accepting, ticking, lines, source, lines_read) },
    )
}

/// Writes the recording of the run. Whether the output failed, or there was no memory.
fn write_run<K: Sink>(alloc: Global, core: &CoreAtDesk, output: &mut K, troubles: &mut Troubles)
    ensures lawful { IsLawful core.now.setup core.now.journal }
    ensures writes { Writes core.now.setup core.now.journal (K.held output.old) (K.held output.new) (K.faults output.old) (K.faults output.new) troubles.old troubles.new }
{
    match write_recording(alloc, core.setup(), core.journal(), output) {
        Ok(()) => {}
        Err(RecordingEnd::WriteFault) => troubles.write_fault = true,
        Err(RecordingEnd::NoMemory) => troubles.no_memory = true,
    }
}

/// Notes whether the lines of the links were written.
fn note_written(troubles: &mut Troubles, end: WriteEnd)
    ensures { troubles.new ≡ with_written end troubles.old }
{
    match end {
        WriteEnd::Done => {}
        WriteEnd::Fault => troubles.write_fault = true,
    }
}

/// Writes the recording of the run, the lines of its links, and that of its end. Answers the status.
fn write_outcome<K: Sink, E: Sink>(
    alloc: Global,
    core: CoreAtDesk,
    ends: Vec<Option<LinkEnd>>,
    troubles: Troubles,
    error_lines: ErrorLines,
    output: &mut K,
    errors: &mut E,
) -> u8
    ensures lawful { IsLawful core.setup core.journal }
    ensures finishes { Finishes core.setup core.journal ends.items troubles (change (K.held output.old) (K.held output.new) (K.faults output.old) (K.faults output.new))
        (change (E.held errors.old) (E.held errors.new) (E.faults errors.old) (E.faults errors.new)) result }
{
    let mut troubles = troubles;
    let mut error_lines = error_lines;
    write_run(alloc, &core, output, &mut troubles);
    drop(core);
    note_written(&mut troubles, error_lines.write_links(&ends, errors));
    error_lines.write_end(troubles.end(), errors)
}

/// Closes the desk once all passes were joined, and writes what is to be written. It answers the status, and what was
/// lent.
fn finish<
    S: Source,
    K: Sink,
    E: Sink,
    L: Link,
    N: Listener<Link = L> + Drop,
    C: Clock + Drop,
    P: Spawner + Drop,
>(
    alloc: Global,
    desk: Desk<CoreAtDesk>,
    left: Left<L, N, S, C, P>,
    error_lines: ErrorLines,
    mut output: K,
    mut errors: E,
) -> (u8, Outside<S, K, E, N, C, P>)
    requires desk { left.accepting.pass.desk ≡ desk }
    requires first { IsFirst left.accepting.pass.view }
    requires out { left.accepting.pass.view.out ≡ 0 }
    ensures finished { Finished left.accepting.pass.view left.accepting.ends.items left.accepting.troubles
        (change (K.held output) (K.held result.1.output) (K.faults output) (K.faults result.1.output))
        (change (E.held errors) (E.held result.1.errors) (E.faults errors) (E.faults result.1.errors)) result.0 }
    ensures input { result.1.input ≡ left.source }
    ensures listener { result.1.listener ≡ left.accepting.listener }
    ensures clock { result.1.clock ≡ left.clock }
    ensures spawner { result.1.spawner ≡ left.accepting.spawner }
{
    let Left {
        accepting,
        source,
        clock,
    } = left;
    let Accepting {
        pass,
        listener,
        spawner,
        children,
        ends,
        came: _,
        is_closed: _,
        seen_done: _,
        troubles,
    } = accepting;
    drop(children);
    let core = desk.close(pass);
    let status = write_outcome(
        alloc,
        core,
        ends,
        troubles,
        error_lines,
        &mut output,
        &mut errors,
    );
    let outside = Outside {
        input: source,
        output,
        errors,
        listener,
        clock,
        spawner,
    };
    (status, outside)
}

/// Serves clients over the links of a listener in this folder: reads the input through `go`, opens the listener, and
/// serves until the line `stop` or another end. Then the recording of the whole run is written to the output, and a
/// line for each link to the errors.
pub fn serve<
    R: Wait + Threads + Sync,
    S: Source + Drop + Send,
    K: Sink,
    E: Sink,
    L: Link + Send,
    N: Listener<Link = L> + Drop,
    C: Clock + Drop,
    P: Spawner + Drop,
    G: Gate + Sync,
>(
    rt: &R,
    alloc: Global,
    dir: &[u8],
    outside: Outside<S, K, E, N, C, P>,
    gate: &G,
) -> (u8, Outside<S, K, E, N, C, P>)
    requires new { N.given outside.listener ≡ 0 }
    ensures status { IsEnding result.0 }
    ensures serves { Serves L.talk L.left L.faults result.0 (given
        (change (S.left outside.input) (S.left result.1.input) (S.faults outside.input) (S.faults result.1.input))
        (change (K.held outside.output) (K.held result.1.output) (K.faults outside.output) (K.faults result.1.output))
        (change (E.held outside.errors) (E.held result.1.errors) (E.faults outside.errors) (E.faults result.1.errors))
        (change (N.told outside.listener) (N.told result.1.listener) (N.faults outside.listener) (N.faults result.1.listener))
        (change (C.told outside.clock) (C.told result.1.clock) (C.faults outside.clock) (C.faults result.1.clock))
        (P.faults outside.spawner) (P.faults result.1.spawner)) }
    ensures caused { Caused result.0 (given
        (change (S.left outside.input) (S.left result.1.input) (S.faults outside.input) (S.faults result.1.input))
        (change (K.held outside.output) (K.held result.1.output) (K.faults outside.output) (K.faults result.1.output))
        (change (E.held outside.errors) (E.held result.1.errors) (E.faults outside.errors) (E.faults result.1.errors))
        (change (N.told outside.listener) (N.told result.1.listener) (N.faults outside.listener) (N.faults result.1.listener))
        (change (C.told outside.clock) (C.told result.1.clock) (C.faults outside.clock) (C.faults result.1.clock))
        (P.faults outside.spawner) (P.faults result.1.spawner)) }
{
    let mut outside = outside;
    let Ok(error_lines) = ErrorLines::new(alloc) else {
        report(&mut outside.errors, StatusLine::NoMemory.text());
        return (5, outside);
    };
    let ready = match prepare(alloc, &mut outside.input) {
        Ok(ready) => ready,
        Err(end) => {
            let status = error_lines.write_end(end, &mut outside.errors);
            return (status, outside);
        }
    };
    match outside.listener.open(dir, &ready.uids) {
        Opened::Ready => serve_ready(rt, alloc, ready, error_lines, outside, gate),
        Opened::Failed => {
            drop(ready);
            let end = ServeEnd::ListenerOrClockFault;
            let status = error_lines.write_end(end, &mut outside.errors);
            (status, outside)
        }
    }
}

/// Serves links over a listener that is open.
fn serve_ready<
    R: Wait + Threads + Sync,
    S: Source + Drop + Send,
    K: Sink,
    E: Sink,
    L: Link + Send,
    N: Listener<Link = L> + Drop,
    C: Clock + Drop,
    P: Spawner + Drop,
    G: Gate + Sync,
>(
    rt: &R,
    alloc: Global,
    ready: Ready,
    error_lines: ErrorLines,
    outside: Outside<S, K, E, N, C, P>,
    gate: &G,
) -> (u8, Outside<S, K, E, N, C, P>)
    requires new { N.given outside.listener ≡ 0 }
    requires ready { (all : Option (List ℕ)) × IsReady all (S.left outside.input) ready }
    ensures status { IsEnding result.0 }
    ensures serves { (all : Option (List ℕ)) → IsReady all (S.left outside.input) ready → HasServed L.talk L.left L.faults result.0 (given
        (change all (S.left result.1.input) (S.faults outside.input) (S.faults result.1.input))
        (change (K.held outside.output) (K.held result.1.output) (K.faults outside.output) (K.faults result.1.output))
        (change (E.held outside.errors) (E.held result.1.errors) (E.faults outside.errors) (E.faults result.1.errors))
        (change (N.told outside.listener) (N.told result.1.listener) (N.faults outside.listener) (N.faults result.1.listener))
        (change (C.told outside.clock) (C.told result.1.clock) (C.faults outside.clock) (C.faults result.1.clock))
        (P.faults outside.spawner) (P.faults result.1.spawner)) }
    ensures caused { (all : Option (List ℕ)) → IsReady all (S.left outside.input) ready → Caused result.0 (given
        (change all (S.left result.1.input) (S.faults outside.input) (S.faults result.1.input))
        (change (K.held outside.output) (K.held result.1.output) (K.faults outside.output) (K.faults result.1.output))
        (change (E.held outside.errors) (E.held result.1.errors) (E.faults outside.errors) (E.faults result.1.errors))
        (change (N.told outside.listener) (N.told result.1.listener) (N.faults outside.listener) (N.faults result.1.listener))
        (change (C.told outside.clock) (C.told result.1.clock) (C.faults outside.clock) (C.faults result.1.clock))
        (P.faults outside.spawner) (P.faults result.1.spawner)) }
{
    let Ready {
        desk,
        pass,
        lines,
        lines_read,
        uids: _,
    } = ready;
    let Outside {
        input,
        output,
        errors,
        listener,
        clock,
        spawner,
    } = outside;
    let accepting = new_accepting(alloc, pass, listener, spawner);
    let ticking = Ticking {
        clock,
        tick: Millis(0),
    };
    let done = AtomicU64::new(0);
    let shared = Shared {
        rt,
        alloc,
        desk: &desk,
        gate,
        done: &done,
    };
    let left = serve_links(&shared, accepting, ticking, lines, input, lines_read);
    finish(alloc, desk, left, error_lines, output, errors)
}
