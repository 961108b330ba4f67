// A source and a sink in memory. Of their calls those whose numbers are listed fail.

ghost use Rattle.std.specs.Prelude.{◌≡◌, ◌+◌, ◌<◌, ◌↔◌, ◌⊎◌, [], ℕ, Some, IfOk, IsTrue, length, min, Contains};
ghost use Rattle.login_edge.specs.Edge.{ReadGives, ReadCause, ReadFalls, WriteGives, WriteCause};
ghost use Rattle.login_edge.specs.Faults.{one_more};

use crate::{Got, Sink, Source, Took};
use login_base::{Bytes, Items, NoMemory};
use std::alloc::Global;
use std::marker::Model;

/// Whether the number is in the list.
pub(crate) fn is_listed(numbers: &Items<u64>, number: u64) -> bool
    ensures { IsTrue result ↔ Contains numbers.now number }
{
    numbers.as_slice().contains(&number)
}

/// A source that gives the bytes that it was made with, as many at once as fit, and then the end.
///
/// The calls of `read` whose numbers, from 1, are listed fail, and no others. The count of calls stands
/// still at its last value.
#[derive(Drop)]
pub struct MemSource {
    bytes: Bytes,
    at: usize,
    fails: Items<u64>,
    calls: u64,
    faults: u64,
}

impl Model for MemSource {
    ghost use Rattle.std.specs.Prelude.{drop, length, ◌≤◌};
    ghost use Rattle.login_edge.specs.Memory.{SourceState};

    ghost Value = { SourceState };

    ghost view = { λ s. record {
      rest = drop s.at s.bytes;
      fails = s.fails;
      calls = s.calls;
      faults = s.faults;
    } };

    ghost invariant = { λ s. s.at ≤ length s.bytes };
}

impl MemSource {
    /// A source of these bytes, whose calls of these numbers fail. It needs no more memory than they have.
    pub fn new(_alloc: Global, bytes: Bytes, fails: Items<u64>) -> Result<MemSource, NoMemory>
        ensures rest { IfOk result (λ source. source.rest ≡ bytes) }
        ensures fails { IfOk result (λ source. source.fails ≡ fails) }
        ensures calls { IfOk result (λ source. source.calls ≡ 0) }
        ensures faults { IfOk result (λ source. source.faults ≡ 0) }
    {
        Ok(MemSource {
            bytes,
            at: 0,
            fails,
            calls: 0,
            faults: 0,
        })
    }

    /// The bytes that were not read yet.
    pub fn rest(&self) -> &[u8]
        ensures rest { result.now ≡ self.now.rest }
    {
        &self.bytes.as_slice()[self.at..]
    }
}

impl Source for MemSource {
    ghost left = { λ s. Some s.rest };

    ghost faults = { λ s. s.faults };

    ghost remaining = { λ s. length s.rest };

    fn read(&mut self, buf: &mut [u8]) -> Got
        requires { 0 < length buf.old }
        ensures gives { ReadGives (Some self.old.rest) (Some self.new.rest) result buf.new }
        ensures cause { ReadCause self.old.faults self.new.faults result }
        ensures falls { ReadFalls (length self.old.rest) (length self.new.rest) result }

        ensures fails { (result ≡ Got.Failed) ↔ Contains self.old.fails self.new.calls }
        ensures faults { result ≡ Got.Failed → self.new.faults ≡ one_more self.old.faults }
        ensures count { (n : ℕ) → result ≡ Got.Bytes n → n ≡ min (length self.old.rest) (length buf.old) }
        ensures calls { self.new.calls ≡ one_more self.old.calls }
        ensures script { self.new.fails ≡ self.old.fails }
    {
        self.calls = self.calls.saturating_add(1);
        if is_listed(&self.fails, self.calls) {
            self.faults = self.faults.saturating_add(1);
            return Got::Failed;
        }
        let rest = &self.bytes.as_slice()[self.at..];
        let count = rest.len().min(buf.len());
        if count == 0 {
            return Got::End;
        }
        buf[..count].copy_from_slice(&rest[..count]);
        self.at += count;
        Got::Bytes(count)
    }
}

/// A sink that keeps the bytes that are written, up to the room that it was made with.
///
/// The calls of `write` whose numbers, from 1, are listed fail, and those whose piece is longer than
/// the room that is left. All others take the whole piece. The count of calls stands still at its last
/// value.
#[derive(Drop)]
pub struct MemSink {
    held: Vec<u8>,
    room: usize,
    fails: Items<u64>,
    calls: u64,
    faults: u64,
}

impl Model for MemSink {
    ghost use Rattle.std.specs.Prelude.{◌≤◌, vec_len, vec_capacity};
    ghost use Rattle.login_edge.specs.Memory.{SinkState};

    ghost Value = { SinkState };

    ghost view = { λ s. record {
      held = s.held.items;
      room = s.room;
      fails = s.fails;
      calls = s.calls;
      faults = s.faults;
    } };

    ghost invariant = { λ s. (vec_len s.held ≤ s.room) × (s.room ≤ vec_capacity s.held) };
}

impl MemSink {
    /// A sink with room for so many bytes, whose calls of these numbers fail. All its memory is taken here.
    pub fn new(alloc: Global, room: usize, fails: Items<u64>) -> Result<MemSink, NoMemory>
        ensures held { IfOk result (λ sink. sink.held ≡ []) }
        ensures room { IfOk result (λ sink. sink.room ≡ room) }
        ensures fails { IfOk result (λ sink. sink.fails ≡ fails) }
        ensures calls { IfOk result (λ sink. sink.calls ≡ 0) }
        ensures faults { IfOk result (λ sink. sink.faults ≡ 0) }
    {
        let held = Vec::with_capacity(alloc, room)?;
        Ok(MemSink {
            held,
            room,
            fails,
            calls: 0,
            faults: 0,
        })
    }

    /// The bytes that were taken, in order.
    pub fn held(&self) -> &[u8]
        ensures held { result.now ≡ self.now.held }
    {
        self.held.as_slice()
    }
}

impl Sink for MemSink {
    ghost held = { λ s. Some s.held };

    ghost faults = { λ s. s.faults };

    fn write(&mut self, piece: &[u8]) -> Took
        requires { 0 < length piece.now }
        ensures gives { WriteGives (Some self.old.held) (Some self.new.held) result piece.now }
        ensures cause { WriteCause self.old.faults self.new.faults result }

        ensures fails { (result ≡ Took.Failed)
            ↔ (Contains self.old.fails self.new.calls ⊎ (self.old.room < length self.old.held + length piece.now)) }
        ensures faults { result ≡ Took.Failed → self.new.faults ≡ one_more self.old.faults }
        ensures count { (n : ℕ) → result ≡ Took.Bytes n → n ≡ length piece.now }
        ensures calls { self.new.calls ≡ one_more self.old.calls }
        ensures script { (self.new.fails ≡ self.old.fails) × (self.new.room ≡ self.old.room) }
    {
        self.calls = self.calls.saturating_add(1);
        if is_listed(&self.fails, self.calls) || self.room - self.held.len() < piece.len() {
            self.faults = self.faults.saturating_add(1);
            return Took::Failed;
        }
        self.held.extend_from_slice(piece).unwrap();
        Took::Bytes(piece.len())
    }
}
