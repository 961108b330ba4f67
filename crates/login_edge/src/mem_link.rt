// A link in memory. Of its calls those whose numbers are listed fail.

ghost use Rattle.std.specs.Prelude.{◌≡◌, ◌+◌, ◌<◌, ◌≤◌, ◌↔◌, ◌⊎◌, [], ℕ, Some, IfOk, length, map, min, Contains};
ghost use Rattle.login_edge.specs.Exchanges.{heard_of, said_of, bytes_of};
ghost use Rattle.login_edge.specs.Notes.{mark_of};
ghost use Rattle.login_edge.specs.Hearing.{HearTells, HearGives, HearCause, SayTells};
ghost use Rattle.login_edge.specs.Edge.{WriteCause};
ghost use Rattle.login_edge.specs.Faults.{one_more};
ghost use Rattle.login_edge.specs.Scripts.{due, bytes_due};
ghost use Rattle.login_edge.specs.inner.Scripts.{left_of};
ghost use Rattle.login_edge.specs.LinkInMemory.{SameLink, size_due, IsTooMuch, Follows, with_number};

use crate::Took;
use crate::bell::{Bell, ring};
use crate::link::{Heard, Link};
use crate::memory::is_listed;
use crate::script::{Next, Script, Turn};
use crate::talk::{Mark, Talk};
use login_base::{Items, NoMemory};
use std::alloc::Global;
use std::marker::Model;

/// A link that gives its script, and then the end, and keeps its talk, up to the room that it was made with.
///
/// The calls of `read` and `write` whose numbers, from 1, are listed fail, and those that would keep a
/// piece, an answer or bytes past that room. A failed call leaves the script where it was. A read gives as much
/// of the next piece as fits, and a write takes the whole piece. The count of calls stands still at its
/// last value. At each answer that nothing is left to come the bell is rung, if there is one.
#[derive(Drop)]
pub struct MemLink {
    number: usize,
    script: Script,
    talk: Talk,
    fails: Items<u64>,
    calls: u64,
    faults: u64,
    bell: Option<Bell>,
}

impl Model for MemLink {
    ghost use Rattle.login_edge.specs.LinkInMemory.{LinkState};
    ghost use Rattle.login_edge.specs.inner.Scripts.{left_of};

    ghost Value = { LinkState };

    ghost view = { λ l. record {
      number = l.number;
      talk = l.talk.talk;
      script = left_of l.script;
      bytes = l.talk.bytes;
      pieces = l.talk.pieces;
      fails = l.fails;
      calls = l.calls;
      faults = l.faults;
    } };
}

impl MemLink {
    /// A link with this script, and room for so many bytes and pieces; answers without bytes count as
    /// pieces. All its memory is taken here. Its number is 0.
    pub fn new(
        alloc: Global,
        script: Items<Turn>,
        bytes: usize,
        pieces: usize,
        fails: Items<u64>,
        bell: Option<Bell>,
    ) -> Result<MemLink, NoMemory>
        ensures number { IfOk result (λ link. link.number ≡ 0) }
        ensures talk { IfOk result (λ link. link.talk ≡ []) }
        ensures script { IfOk result (λ link. link.script ≡ due script) }
        ensures room { IfOk result (λ link. (link.bytes ≡ bytes) × (link.pieces ≡ pieces)) }
        ensures fails { IfOk result (λ link. link.fails ≡ fails) }
        ensures counts { IfOk result (λ link. (link.calls ≡ 0) × (link.faults ≡ 0)) }
    {
        let talk = Talk::new(alloc, bytes, pieces)?;
        Ok(MemLink {
            number: 0,
            script: Script::new(alloc, script),
            talk,
            fails,
            calls: 0,
            faults: 0,
            bell,
        })
    }

    /// The same link with this number.
    pub(crate) fn numbered(self, number: usize) -> MemLink
        ensures { result ≡ with_number number self }
    {
        let mut link = self;
        link.number = number;
        link
    }

    /// All bytes that were heard, in order.
    pub fn heard(&self) -> &[u8]
        ensures heard { result.now ≡ heard_of self.now.talk }
    {
        self.talk.heard()
    }

    /// All bytes that were said, in order.
    pub fn said(&self) -> &[u8]
        ensures said { result.now ≡ said_of self.now.talk }
    {
        self.talk.said()
    }

    /// The pieces that were heard and said, by their lengths, and the other answers, in order.
    pub fn marks(&self) -> &[Mark]
        ensures marks { result.now ≡ map mark_of self.now.talk }
    {
        self.talk.marks()
    }
}

/// Gives what the script has next, and keeps it in the talk, where there is room for its bytes.
fn hear_next(script: &mut Script, talk: &mut Talk, buf: &mut [u8]) -> Heard
    requires room { length talk.old.talk < talk.old.pieces }
    requires fits { bytes_of talk.old.talk ≤ talk.old.bytes }
    requires buf { 0 < length buf.old }
    ensures tells { HearTells (Some talk.old.talk) (Some talk.new.talk) result buf.new }
    ensures gives { HearGives (Some (bytes_due (left_of script.old))) (Some (bytes_due (left_of script.new))) result buf.new }
    ensures follows { Follows (left_of script.old) (left_of script.new) result }
    ensures count { (n : ℕ) → result ≡ Heard.Bytes n → n ≡ size_due (left_of script.old) (length buf.old) }
    ensures fails { (result ≡ Heard.Failed)
        ↔ (talk.old.bytes < bytes_of talk.old.talk + size_due (left_of script.old) (length buf.old)) }
    ensures room { (talk.new.bytes ≡ talk.old.bytes) × (talk.new.pieces ≡ talk.old.pieces) }
{
    match script.next() {
        Next::Quiet => {
            talk.pause();
            Heard::Quiet
        }
        Next::End => {
            talk.end();
            Heard::End
        }
        Next::Piece => {
            let count = script.piece().len().min(buf.len());
            if talk.room() < count {
                return Heard::Failed;
            }
            script.give(&mut buf[..count]);
            talk.hear(&buf[..count]);
            Heard::Bytes(count)
        }
    }
}

impl Link for MemLink {
    ghost number = { λ l. l.number };

    ghost talk = { λ l. Some l.talk };

    ghost left = { λ l. Some (bytes_due l.script) };

    ghost faults = { λ l. l.faults };

    fn read(&mut self, buf: &mut [u8]) -> Heard
        requires { 0 < length buf.old }
        ensures tells { HearTells (Some self.old.talk) (Some self.new.talk) result buf.new }
        ensures gives { HearGives (Some (bytes_due self.old.script)) (Some (bytes_due self.new.script)) result buf.new }
        ensures cause { HearCause self.old.faults self.new.faults result }
        ensures number { self.new.number ≡ self.old.number }

        ensures fails { (result ≡ Heard.Failed)
            ↔ (Contains self.old.fails self.new.calls ⊎ IsTooMuch self.old (size_due self.old.script (length buf.old))) }
        ensures faults { result ≡ Heard.Failed → self.new.faults ≡ one_more self.old.faults }
        ensures follows { Follows self.old.script self.new.script result }
        ensures count { (n : ℕ) → result ≡ Heard.Bytes n → n ≡ size_due self.old.script (length buf.old) }
        ensures calls { self.new.calls ≡ one_more self.old.calls }
        ensures same { SameLink self.old self.new }
    {
        self.calls = self.calls.saturating_add(1);
        if is_listed(&self.fails, self.calls) || self.talk.is_full() {
            self.faults = self.faults.saturating_add(1);
            return Heard::Failed;
        }
        match hear_next(&mut self.script, &mut self.talk, buf) {
            Heard::Bytes(count) => Heard::Bytes(count),
            Heard::Quiet => Heard::Quiet,
            Heard::End => {
                ring(&self.bell);
                Heard::End
            }
            Heard::Failed => {
                self.faults = self.faults.saturating_add(1);
                Heard::Failed
            }
        }
    }

    fn write(&mut self, piece: &[u8]) -> Took
        requires { 0 < length piece.now }
        ensures tells { SayTells (Some self.old.talk) (Some self.new.talk) result piece.now }
        ensures left { Some (bytes_due self.new.script) ≡ Some (bytes_due self.old.script) }
        ensures cause { WriteCause self.old.faults self.new.faults result }
        ensures number { self.new.number ≡ self.old.number }

        ensures fails { (result ≡ Took.Failed)
            ↔ (Contains self.old.fails self.new.calls ⊎ IsTooMuch self.old (length piece.now)) }
        ensures faults { result ≡ Took.Failed → self.new.faults ≡ one_more self.old.faults }
        ensures count { (n : ℕ) → result ≡ Took.Bytes n → n ≡ length piece.now }
        ensures script { self.new.script ≡ self.old.script }
        ensures calls { self.new.calls ≡ one_more self.old.calls }
        ensures same { SameLink self.old self.new }
    {
        self.calls = self.calls.saturating_add(1);
        let is_full = self.talk.is_full() || self.talk.room() < piece.len();
        if is_full || is_listed(&self.fails, self.calls) {
            self.faults = self.faults.saturating_add(1);
            return Took::Failed;
        }
        self.talk.say(piece);
        Took::Bytes(piece.len())
    }
}
