// The smallest use of a desk: a value that counts, and two threads that count.

ghost use Rattle.std.specs.Prelude.{◌≡◌, ◌*◌, ◌≤◌, [], length, IfOk};
ghost use Rattle.desk.specs.Counting.{CountsTo, CountedBy, counter_of};

use crate::act::Act;
use crate::desk::Desk;
use crate::journaled::Journaled;
use crate::pass::Pass;
use login_base::{ConnId, NoMemory};
use std::alloc::Global;
use std::marker::Model;
use std::snapshot::Snapshot;
use std::sync::Wait;
use std::thread;
use std::thread::{Promise, PromisedHandle, Scope, Threads};

/// One count, and who made it.
#[derive(Drop)]
pub struct Counted {
    pub who: ConnId,
    pub number: u32,
}

/// The counts that were made, and how many there may be.
#[derive(Drop)]
pub struct Counter {
    most: usize,
    counts: Vec<Counted>,
}

impl Model for Counter {
    ghost use Rattle.std.specs.Prelude.{◌≤◌, vec_len, vec_capacity};
    ghost use Rattle.desk.specs.Counting.{CounterState};

    ghost Value = { CounterState };

    ghost view = { λ c. record { most = c.most; counts = c.counts.items } };

    ghost invariant = { λ c. (vec_len c.counts ≤ c.most) × (c.most ≤ vec_capacity c.counts) };
}

impl Counter {
    /// No counts, and room for as many as there may be.
    pub fn new(alloc: Global, most: usize) -> Result<Counter, NoMemory>
        ensures most { IfOk result (λ c. c.most ≡ most) }
        ensures none { IfOk result (λ c. c.counts ≡ []) }
    {
        Ok(Counter {
            most,
            counts: Vec::with_capacity(alloc, most)?,
        })
    }

    /// The counts in order.
    pub fn as_slice(&self) -> &[Counted]
        ensures { result.now ≡ self.now.counts }
    {
        self.counts.as_slice()
    }
}

impl Journaled for Counter {
    ghost use Rattle.desk.specs.Counting.{counter_of};

    type Setup = usize;

    type Entry = Counted;

    ghost who = { counter_of };

    ghost setup = { λ c. c.most };

    ghost journal = { λ c. c.counts };
}

/// Makes one count, and answers whether there was room for it.
#[derive(Drop)]
pub struct CountUp {
    pub number: u32,
}

impl Act<Counter> for CountUp {
    ghost use Rattle.desk.specs.Counting.{CountsUp};

    type Answer = bool;

    ghost does = { λ before who most old new after answer. CountsUp most who before.number old new answer };

    ghost may = { λ act mine. Unit {0} };

    ghost after = { λ act. [] };

    fn act(&mut self, value: &mut Counter, who: ConnId) -> bool {
        let number = self.number;
        let fits = value.counts.len() < value.most;
        if fits {
            value.counts.push_reserved(Counted { who, number });
        }
        fits
    }
}

/// Makes one count whose number is that of the counts before it, up to the greatest, and answers whether there
/// was room for it.
#[derive(Drop)]
pub struct CountOn;

impl Act<Counter> for CountOn {
    ghost use Rattle.std.specs.Prelude.{◌-◌, ◌^◌, length, min};
    ghost use Rattle.desk.specs.Counting.{CountsUp};

    type Answer = bool;

    ghost does = { λ before who most old new after answer. CountsUp most who (min (length old) (2 ^ 32 - 1)) old new answer };

    ghost may = { λ act mine. Unit {0} };

    ghost after = { λ act. [] };

    fn act(&mut self, value: &mut Counter, who: ConnId) -> bool {
        let number = value.counts.len().min(u32::MAX as usize) as u32;
        CountUp { number }.act(value, who)
    }
}

/// Answers how many counts there are, and makes none.
#[derive(Drop)]
pub struct HowMany;

impl Act<Counter> for HowMany {
    ghost use Rattle.std.specs.Prelude.{◌≡◌, length};

    type Answer = usize;

    ghost does = { λ before who most old new after answer. (new ≡ old) × (answer ≡ length old) };

    ghost may = { λ act mine. Unit {0} };

    ghost after = { λ act. [] };

    fn act(&mut self, value: &mut Counter, _who: ConnId) -> usize {
        value.counts.len()
    }
}

/// Counts from 0 up to below `most`, and stops where there is no room.
pub fn count_to<R: Wait>(
    rt: &R,
    desk: &Desk<Counter>,
    mut pass: Pass<usize, Counted>,
    most: u32,
) -> Pass<usize, Counted>
    requires { pass.desk ≡ desk.now }
    ensures desk { result.desk ≡ desk.now }
    ensures made { CountsTo most pass.view result.view }
{
    for number in 0..most {
        if !desk.act(rt, &mut pass, &mut CountUp { number }) {
            return pass;
        }
    }
    pass
}

/// What the handle of a thread that counts keeps.
#[derive(Drop)]
struct CountNote {
    pass: Snapshot<Pass<usize, Counted>>,
    most: u32,
}

impl Promise<Pass<usize, Counted>> for CountNote {
    ghost use Rattle.std.specs.Prelude.{◌≡◌};
    ghost use Rattle.desk.specs.Counting.{CountsTo};

    ghost kept_by = { λ note pass. (pass.desk ≡ note.pass.value.desk) × CountsTo note.most note.pass.value.view pass.view };
}

// Starts a thread that counts.
fn start_count<'s, 'a: 's, E, R: Wait + Sync>(
    rt: &'a R,
    scope: &Scope<'s, E>,
    desk: &'a Desk<Counter>,
    pass: Pass<usize, Counted>,
    most: u32,
) -> Result<PromisedHandle<Pass<usize, Counted>, CountNote>, NoMemory>
    requires { pass.desk ≡ desk.now }
    ensures pass { IfOk result (λ h. h.promise.pass.value ≡ pass) }
    ensures most { IfOk result (λ h. h.promise.most ≡ most) }
{
    let note = CountNote {
        pass: Snapshot::of(&pass),
        most,
    };
    match scope.spawn_with(note, move || count_to(rt, desk, pass, most)) {
        Ok(handle) => Ok(handle),
        Err(_) => Err(NoMemory),
    }
}

// Counts in two threads, and waits for both.
fn count_in<'s, 'a: 's, E, R: Wait + Threads + Sync>(
    rt: &'a R,
    scope: &Scope<'s, E>,
    desk: &'a Desk<Counter>,
    one: Pass<usize, Counted>,
    two: Pass<usize, Counted>,
    most: u32,
) -> Result<(Pass<usize, Counted>, Pass<usize, Counted>), NoMemory>
    requires { (one.desk ≡ desk.now) × (two.desk ≡ desk.now) }
    ensures desk { IfOk result (λ r. (r.0.desk ≡ desk.now) × (r.1.desk ≡ desk.now)) }
    ensures one { IfOk result (λ r. CountsTo most one.view r.0.view) }
    ensures two { IfOk result (λ r. CountsTo most two.view r.1.view) }
{
    let one = start_count(rt, scope, desk, one, most)?;
    let two = start_count(rt, scope, desk, two, most)?;
    Ok((one.join(rt), two.join(rt)))
}

// Counts in two threads of a scope.
fn count_both<R: Wait + Threads + Sync>(
    rt: &R,
    desk: &Desk<Counter>,
    one: Pass<usize, Counted>,
    two: Pass<usize, Counted>,
    most: u32,
) -> Result<(Pass<usize, Counted>, Pass<usize, Counted>), NoMemory>
    requires { (one.desk ≡ desk.now) × (two.desk ≡ desk.now) }
    ensures desk { IfOk result (λ r. (r.0.desk ≡ desk.now) × (r.1.desk ≡ desk.now)) }
    ensures one { IfOk result (λ r. CountsTo most one.view r.0.view) }
    ensures two { IfOk result (λ r. CountsTo most two.view r.1.view) }
{
    thread::scope(
        thread::scope_env(),
        rt,
        |scope| -> Result<(Pass<usize, Counted>, Pass<usize, Counted>), NoMemory>
            requires { (one.desk ≡ desk.now) × (two.desk ≡ desk.now) }
            ensures { IfOk result (λ r. (r.0.desk ≡ one.desk) × (r.1.desk ≡ two.desk) × CountsTo most one.view r.0.view × CountsTo most two.view r.1.view) }
        { count_in(rt, scope, desk, one, two, most) },
    )
}

/// Two threads count up to below `most`, for connections 1 and 2, each by a pass of its own. There
/// is room for so many counts in all. Where a thread cannot be made, it is as if memory were wanting.
pub fn count_apart<R: Wait + Threads + Sync>(
    rt: &R,
    alloc: Global,
    room: usize,
    most: u32,
) -> Result<Counter, NoMemory>
    ensures most { IfOk result (λ c. c.most ≡ room) }
    ensures one { IfOk result (CountedBy 1 most) }
    ensures two { IfOk result (CountedBy 2 most) }
    ensures all { IfOk result (λ c. 2 * most ≤ room → length c.counts ≡ 2 * most) }
{
    let (desk, mut first) = Desk::open(alloc, Counter::new(alloc, room)?)?;
    let one = desk.split(&mut first, ConnId(1));
    let two = desk.split(&mut first, ConnId(2));
    let (one, two) = count_both(rt, &desk, one, two, most)?;
    desk.join(&mut first, one);
    desk.join(&mut first, two);
    Ok(desk.close(first))
}
