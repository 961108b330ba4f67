// A source in memory that holds back a part of its bytes until a bell was rung.

ghost use Rattle.std.specs.Prelude.{◌≡◌, ◌<◌, ◌≤◌, ◌↔◌, [], ℕ, Some, IfOk, Contains, length, min};
ghost use Rattle.login_edge.specs.Edge.{ReadGives, ReadCause, ReadFalls};
ghost use Rattle.login_edge.specs.Faults.{one_more};
ghost use Rattle.login_edge.specs.HeldInMemory.{reach, nearer};

use crate::bell::Bell;
use crate::memory::MemSource;
use crate::{Got, Source};
use login_base::{Bytes, Items, NoMemory};
use std::alloc::Global;
use std::marker::Model;
use std::thread;

/// How often a source lets another thread run, at most, while it waits for its bell.
const MOST_YIELDS: u32 = 1_000_000;

/// What holds bytes back: those from the place on come only once the bell was rung so often.
#[derive(Drop)]
pub struct Hold {
    pub bell: Bell,
    pub rings: u64,
    pub place: usize,
}

/// A source in memory as `MemSource`, whose bytes from a place on are held back until a bell was rung.
///
/// No read goes past the place before. The first read there waits for the bell: it lets other threads run, at
/// most 1,000,000 times, and then gives the bytes all the same.
#[derive(Drop)]
pub struct HeldSource {
    source: MemSource,
    before: usize,
    hold: Option<Hold>,
}

impl Model for HeldSource {
    ghost use Rattle.login_edge.specs.HeldInMemory.{HeldState};

    ghost Value = { HeldState };

    ghost view = { λ s. record {
      rest = s.source.rest;
      before = s.before;
      fails = s.source.fails;
      calls = s.source.calls;
      faults = s.source.faults;
    } };
}

/// Lets other threads run until the bell was rung, or for long enough.
fn wait(hold: &Hold) {
    for _ in 0..MOST_YIELDS {
        if hold.bell.rings() >= hold.rings {
            return;
        }
        thread::yield_now();
    }
}

/// How many bytes a read into a buffer of this size may give.
fn reach(before: usize, size: usize) -> usize
    ensures value { result ≡ reach before size }
    ensures within { result ≤ size }
    ensures some { 0 < size → 0 < result }
{
    if before == 0 { size } else { before.min(size) }
}

impl HeldSource {
    /// A source of these bytes, whose calls of these numbers fail. It needs no more memory than they have.
    pub fn new(
        alloc: Global,
        bytes: Bytes,
        fails: Items<u64>,
        hold: Hold,
    ) -> Result<HeldSource, NoMemory>
        ensures rest { IfOk result (λ source. source.rest ≡ bytes) }
        ensures before { IfOk result (λ source. source.before ≡ hold.place) }
        ensures fails { IfOk result (λ source. source.fails ≡ fails) }
        ensures counts { IfOk result (λ source. (source.calls ≡ 0) × (source.faults ≡ 0)) }
    {
        let source = MemSource::new(alloc, bytes, fails)?;
        Ok(HeldSource {
            source,
            before: hold.place,
            hold: Some(hold),
        })
    }
}

impl Source for HeldSource {
    ghost left = { λ s. Some s.rest };

    ghost faults = { λ s. s.faults };

    ghost remaining = { λ s. length s.rest };

    fn read(&mut self, buf: &mut [u8]) -> Got
        requires { 0 < length buf.old }
        ensures gives { ReadGives (Some self.old.rest) (Some self.new.rest) result buf.new }
        ensures cause { ReadCause self.old.faults self.new.faults result }
        ensures falls { ReadFalls (length self.old.rest) (length self.new.rest) result }

        ensures fails { (result ≡ Got.Failed) ↔ Contains self.old.fails self.new.calls }
        ensures faults { result ≡ Got.Failed → self.new.faults ≡ one_more self.old.faults }
        ensures count { (n : ℕ) → result ≡ Got.Bytes n → n ≡ min (length self.old.rest) (reach self.old.before (length buf.old)) }
        ensures before { self.new.before ≡ nearer self.old.before result }
        ensures calls { self.new.calls ≡ one_more self.old.calls }
        ensures listed { self.new.fails ≡ self.old.fails }
    {
        if self.before == 0
            && let Some(hold) = self.hold.take()
        {
            wait(&hold);
        }
        let most = reach(self.before, buf.len());
        match self.source.read(&mut buf[..most]) {
            Got::Bytes(count) => {
                self.before = self.before.saturating_sub(count);
                Got::Bytes(count)
            }
            Got::End => Got::End,
            Got::Failed => Got::Failed,
        }
    }
}
