// Facts behind marks that were appended to a list and are not applied yet.

ghost use Rattle.std.specs.Prelude.{◌≡◌, ◌+◌, ◌≤◌, length};
ghost use Rattle.login_model.specs.Devices.{is_taken};
ghost use Rattle.login_model.specs.Fresh.{next_handle};
ghost use Rattle.login_model.specs.Names.{IsNext, device_lt};
ghost use Rattle.login_model.specs.Start.{seat0};
ghost use Rattle.login_model.specs.Trail.{after, put, value};
ghost use Rattle.login_model.specs.Where.{active_on, current_vt, session_on};
ghost use Rattle.login_table.specs.Appended.{Appends, IsPlain};
ghost use Rattle.switch_core.specs.inner.Ahead.{Fits, beginning, given, marked_by, tell};
ghost use Rattle.switch_core.specs.Handles.{IsNumbered};
ghost use Rattle.switch_core.specs.inner.Keeping.{Keeps, is_switching};

use login_base::{DevNo, HandleNo, Reserved, SessId};
use login_model::{Fact, Key, Look, Mark, Notice, Whom, is_same_fact, is_same_key};
use std::marker::Model;
use std::snapshot::Snapshot;

/// The fact of the last of these marks that sets a key, or the fact before them.
fn fact_behind<'a, F: Look>(facts: &'a F, marks: &'a [Mark], key: &Key) -> &'a Fact
    ensures { result.now ≡ value (after (F.trail facts.now) marks.now) key.now }
{
    let mut left = marks.len();
    while left > 0 {
        left -= 1;
        if let Mark::Set(set, fact) = &marks[left] {
            if is_same_key(set, key) {
                return fact;
            }
        }
    }
    facts.fact(key)
}

/// How many handles a mark gives out.
fn given(mark: &Mark) -> u32
    ensures { result ≡ given mark.now }
{
    match mark {
        Mark::Set(key, fact) => key.gives(fact),
        Mark::Say(_, _) => 0,
    }
}

/// The number of the next handle behind these marks.
fn handle_behind<F: Look>(facts: &F, marks: &[Mark]) -> HandleNo
    requires { IsNumbered (after (F.trail facts.now) marks.now) }
    ensures { result ≡ next_handle (after (F.trail facts.now) marks.now) }
{
    let mut number = facts.fresh_handle().0;
    let mut left = marks.len();
    while left > 0 {
        left -= 1;
        number += given(&marks[left]);
    }
    HandleNo(number)
}

/// Facts, and a list with marks at its end that are not applied to them yet. What it tells is told behind these
/// marks. It appends in the room of the list and takes no memory.
#[derive(Drop)]
pub struct Ahead<'a, F: Look> {
    facts: &'a F,
    out: Reserved<Mark>,
    /// How many marks were in the list before.
    from: usize,
    start: Snapshot<Reserved<Mark>>,
}

impl<'a, F: Look> Model for Ahead<'a, F> {
    ghost use Rattle.std.specs.Prelude.{◌+◌, drop, length, take};
    ghost use Rattle.login_model.specs.Trail.{after};
    ghost use Rattle.switch_core.specs.inner.Ahead.{AheadState, IsAhead};

    ghost Value = { AheadState };

    ghost view = { λ a. record {
      before = F.trail a.facts.now;
      kept = take a.from a.out.items;
      trail = after (F.trail a.facts.now) (drop a.from a.out.items);
      reach = length (F.trail a.facts.now) + a.start.value.spare;
    } };

    ghost invariant = { λ a. IsAhead a.out a.from a.start.value.spare };
}

impl<'a, F: Look> Ahead<'a, F> {
    /// No mark is appended yet.
    pub fn new(facts: &'a F, out: Reserved<Mark>) -> Ahead<'a, F>
        ensures { result ≡ beginning (F.trail facts.now) out }
    {
        let from = out.len();
        let start = Snapshot::of(&out);
        Ahead {
            facts,
            out,
            from,
            start,
        }
    }

    /// The list, with what was appended.
    pub fn into_list(self) -> Reserved<Mark>
        ensures appends { Appends (λ t. self.entry.trail) self.entry.before self.entry.kept result.items }
        ensures room { self.entry.reach ≤ length self.entry.trail + result.spare }
    {
        let Ahead { out, .. } = self;
        out
    }

    /// The fact of the last setting of a key, or the fact at the start.
    pub fn fact(&self, key: &Key) -> &Fact
        ensures { result.now ≡ value self.now.trail key.now }
    {
        fact_behind(self.facts, &self.out.as_slice()[self.from..], key)
    }

    /// The number of the next handle.
    pub fn fresh_handle(&self) -> HandleNo
        requires { IsNumbered self.now.trail }
        ensures { result ≡ next_handle self.now.trail }
    {
        handle_behind(self.facts, &self.out.as_slice()[self.from..])
    }

    /// The next device that a session had taken before the marks were appended.
    pub fn next_taken(&self, session: SessId, above: Option<DevNo>) -> Option<DevNo>
        ensures { IsNext device_lt (is_taken self.now.before session) above result }
    {
        self.facts.next_taken(session, above)
    }

    /// The current virtual terminal.
    pub fn current_vt(&self) -> u32
        ensures { result ≡ current_vt self.now.trail }
    {
        self.fact(&Key::Vt).number_or_zero()
    }

    /// The open session of seat0 that has a virtual terminal.
    pub fn on_terminal(&self, vt: u32) -> Option<SessId>
        requires { Keeps is_switching self.now.before self.now.trail }
        ensures { result ≡ session_on self.now.trail vt }
    {
        self.facts.on_terminal(vt)
    }

    /// The session that is active on seat0.
    pub fn active(&self) -> Option<SessId>
        requires { Keeps is_switching self.now.before self.now.trail }
        ensures { result ≡ active_on self.now.trail seat0 }
    {
        self.on_terminal(self.current_vt())
    }

    /// Sets a fact, unless it is so already.
    pub fn put(&mut self, key: Key, fact: Fact)
        requires plain { IsPlain fact }
        requires room { Fits (put key fact) self.old }
        ensures marked { self.new ≡ marked_by (put key fact) self.old }
    {
        if is_same_fact(self.fact(&key), &fact) {
            return;
        }
        self.out.push(Mark::Set(key, fact));
    }

    /// Sends a notice.
    pub fn tell(&mut self, whom: Whom, notice: Notice)
        requires room { Fits (tell whom notice) self.old }
        ensures marked { self.new ≡ marked_by (tell whom notice) self.old }
    {
        self.out.push(Mark::Say(whom, notice));
    }
}
