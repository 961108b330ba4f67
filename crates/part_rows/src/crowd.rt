// Eight threads at one value, each with acts of three kinds, one of which makes no entry.

ghost use Rattle.std.specs.Prelude.{◌≡◌, All, IfOk, OnOk, vec_len};
ghost use Rattle.desk.specs.Passes.{IsFirst};

use desk::{CountOn, CountUp, Counted, Counter, Desk, HowMany, Pass};
use login_base::{ConnId, NoMemory};
use std::alloc::Global;
use std::snapshot::Snapshot;
use std::sync::Wait;
use std::test::Fail;
use std::thread;
use std::thread::{Promise, PromisedHandle, Scope, Threads};

/// So many threads.
const THREADS: u32 = 8;

/// So often each of them makes an act of each kind.
const ROUNDS: u32 = 12;

/// What the handle of a thread keeps.
#[derive(Drop)]
struct Note {
    pass: Snapshot<Pass<usize, Counted>>,
}

impl Promise<Pass<usize, Counted>> for Note {
    ghost use Rattle.std.specs.Prelude.{◌≡◌};

    ghost kept_by = { λ note pass. pass.desk ≡ note.pass.value.desk };
}

/// Makes an act of each kind. Whether the one without an entry answers enough; if not, the last is left out.
fn take_turn<R: Wait>(
    rt: &R,
    desk: &Desk<Counter>,
    pass: &mut Pass<usize, Counted>,
    number: u32,
) -> bool
    requires { pass.old.desk ≡ desk.now }
    ensures { pass.new.desk ≡ desk.now }
{
    desk.act(rt, pass, &mut CountUp { number });
    let is_enough = desk.act(rt, pass, &mut HowMany) > number as usize;
    if is_enough {
        desk.act(rt, pass, &mut CountOn);
    }
    is_enough
}

/// Makes acts of three kinds in turn, and stops where the one without an entry answers too little.
fn take_turns<R: Wait>(
    rt: &R,
    desk: &Desk<Counter>,
    mut pass: Pass<usize, Counted>,
) -> Pass<usize, Counted>
    requires { pass.desk ≡ desk.now }
    ensures { result.desk ≡ desk.now }
{
    for number in 0..ROUNDS {
        if !take_turn(rt, desk, &mut pass, number) {
            return pass;
        }
    }
    pass
}

/// Starts a thread that does so.
fn start<'s, 'a: 's, E, R: Wait + Sync>(
    rt: &'a R,
    scope: &Scope<'s, E>,
    desk: &'a Desk<Counter>,
    pass: Pass<usize, Counted>,
) -> Result<PromisedHandle<Pass<usize, Counted>, Note>, NoMemory>
    requires { pass.desk ≡ desk.now }
    ensures { IfOk result (λ h. h.promise.pass.value.desk ≡ desk.now) }
{
    let note = Note {
        pass: Snapshot::of(&pass),
    };
    match scope.spawn_with(note, move || take_turns(rt, desk, pass)) {
        Ok(handle) => Ok(handle),
        Err(_) => Err(NoMemory),
    }
}

/// Starts all threads, for connections from 1 on.
fn start_all<'s, 'a: 's, E, R: Wait + Sync>(
    rt: &'a R,
    alloc: Global,
    scope: &Scope<'s, E>,
    desk: &'a Desk<Counter>,
    first: &mut Pass<usize, Counted>,
) -> Result<Vec<PromisedHandle<Pass<usize, Counted>, Note>>, NoMemory>
    requires desk { first.old.desk ≡ desk.now }
    requires first { IsFirst first.old.view }
    requires new { (first.old.view.made ≡ 0) × (first.old.view.given ≡ 0) × (first.old.view.out ≡ 0) }
    ensures desk { OnOk result (first.new.desk ≡ desk.now) }
    ensures first { OnOk result (IsFirst first.new.view) }
    ensures out { IfOk result (λ handles. first.new.view.out ≡ vec_len handles) }
    ensures handles { IfOk result (λ handles. All (λ h. h.promise.pass.value.desk ≡ desk.now) handles.items) }
{
    let mut handles = Vec::new(alloc);
    for n in 0..THREADS {
        let pass = desk.split(first, ConnId(n + 1));
        let handle = start(rt, scope, desk, pass)?;
        handles.push(handle)?;
    }
    Ok(handles)
}

/// Waits for each thread, and takes in its pass.
fn join_all<R: Threads>(
    rt: &R,
    desk: &Desk<Counter>,
    first: &mut Pass<usize, Counted>,
    handles: Vec<PromisedHandle<Pass<usize, Counted>, Note>>,
)
    requires desk { first.old.desk ≡ desk.now }
    requires first { IsFirst first.old.view }
    requires out { first.old.view.out ≡ vec_len handles }
    requires handles { All (λ h. h.promise.pass.value.desk ≡ desk.now) handles.items }
    ensures desk { first.new.desk ≡ desk.now }
    ensures first { IsFirst first.new.view }
    ensures out { first.new.view.out ≡ 0 }
{
    for handle in handles {
        let pass = handle.join(rt);
        desk.join(first, pass);
    }
}

/// All of this in a scope, with the first pass.
fn crowd_in<'s, 'a: 's, E, R: Wait + Threads + Sync>(
    rt: &'a R,
    alloc: Global,
    scope: &Scope<'s, E>,
    desk: &'a Desk<Counter>,
    mut first: Pass<usize, Counted>,
) -> Result<Pass<usize, Counted>, NoMemory>
    requires desk { first.desk ≡ desk.now }
    requires first { IsFirst first.view }
    requires new { (first.view.made ≡ 0) × (first.view.given ≡ 0) × (first.view.out ≡ 0) }
    ensures desk { IfOk result (λ pass. pass.desk ≡ desk.now) }
    ensures first { IfOk result (λ pass. IsFirst pass.view) }
    ensures out { IfOk result (λ pass. pass.view.out ≡ 0) }
{
    let handles = start_all(rt, alloc, scope, desk, &mut first)?;
    join_all(rt, desk, &mut first, handles);
    Ok(first)
}

fn scoped<R: Wait + Threads + Sync>(
    rt: &R,
    alloc: Global,
    desk: &Desk<Counter>,
    first: Pass<usize, Counted>,
) -> Result<Pass<usize, Counted>, NoMemory>
    requires desk { first.desk ≡ desk.now }
    requires first { IsFirst first.view }
    requires new { (first.view.made ≡ 0) × (first.view.given ≡ 0) × (first.view.out ≡ 0) }
    ensures desk { IfOk result (λ pass. pass.desk ≡ desk.now) }
    ensures first { IfOk result (λ pass. IsFirst pass.view) }
    ensures out { IfOk result (λ pass. pass.view.out ≡ 0) }
{
    thread::scope(
        thread::scope_env(),
        rt,
        |scope| -> Result<Pass<usize, Counted>, NoMemory>
            requires { (first.desk ≡ desk.now) × IsFirst first.view × (first.view.made ≡ 0) × (first.view.given ≡ 0) × (first.view.out ≡ 0) }
            ensures { IfOk result (λ pass. (pass.desk ≡ first.desk) × IsFirst pass.view × (pass.view.out ≡ 0)) }
        { crowd_in(rt, alloc, scope, desk, first) },
    )
}

/// The counts that all threads made, in the order of their turns.
fn crowd<R: Wait + Threads + Sync>(rt: &R, alloc: Global) -> Result<Counter, NoMemory> {
    let room = 2 * THREADS as usize * ROUNDS as usize;
    let (desk, first) = Desk::open(alloc, Counter::new(alloc, room)?)?;
    let first = scoped(rt, alloc, &desk, first)?;
    Ok(desk.close(first))
}

/// Each connection has its counts of the first kind in their order, and behind each of them one whose number
/// is that of all counts before it, whoever made them.
#[test]
fn eight_threads_take_turns(rt: HostRuntime) -> Result<(), Fail> {
    let closed = crowd(&rt, rt.alloc())?;
    let counts = closed.as_slice();
    assert_eq!(rt; counts.len(), 192);
    let mut made: [u32; 8] = [0; 8];
    for (place, count) in counts.iter().enumerate() {
        assert!(rt; 1 <= count.who.0 && count.who.0 <= THREADS);
        let at = count.who.0 as usize - 1;
        let want = if made[at] % 2 == 0 {
            made[at] as usize / 2
        } else {
            place
        };
        assert_eq!(rt; count.number as usize, want, "at {place}");
        made[at] = made[at].saturating_add(1);
    }
    assert!(rt; made == [24; 8]);
    Ok(())
}
