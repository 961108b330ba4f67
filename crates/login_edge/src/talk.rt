// What was heard and said on a link in memory.

ghost use Rattle.std.specs.Prelude.{◌≡◌, ◌≤◌, ◌<◌, ◌+◌, ◌-◌, ◌↔◌, ◌++◌, [], ◌∷◌, IsTrue, IfOk, length, map};
ghost use Rattle.login_edge.specs.Exchanges.{heard, said, quiet, ended, bytes_of, heard_of, said_of};
ghost use Rattle.login_edge.specs.Notes.{mark_of};

use login_base::NoMemory;
use std::alloc::Global;
use std::marker::Model;

/// A piece by its length, or an answer without bytes.
#[derive(Clone, Copy, PartialEq, Eq)]
pub enum Mark {
    Heard(usize),
    Said(usize),
    Quiet,
    Ended,
}

/// A talk that is kept in memory, up to a room that is made at the start.
#[derive(Drop)]
pub(crate) struct Talk {
    marks: Vec<Mark>,
    hears: Vec<u8>,
    says: Vec<u8>,
    bytes: usize,
    pieces: usize,
}

impl Model for Talk {
    ghost use Rattle.std.specs.Prelude.{◌≤◌, ◌≡◌, ◌+◌, vec_len, vec_capacity};
    ghost use Rattle.login_edge.specs.inner.Notes.{TalkState, talk_of, heard_by, said_by};

    ghost Value = { TalkState };

    ghost view = { λ t. record {
      talk = talk_of t.marks.items t.hears.items t.says.items;
      bytes = t.bytes;
      pieces = t.pieces;
    } };

    ghost invariant = { λ t. (heard_by t.marks.items ≡ vec_len t.hears) × (said_by t.marks.items ≡ vec_len t.says)
        × (vec_len t.hears + vec_len t.says ≤ t.bytes) × (t.bytes ≤ vec_capacity t.hears) × (t.bytes ≤ vec_capacity t.says)
        × (vec_len t.marks ≤ t.pieces) × (t.pieces ≤ vec_capacity t.marks) };
}

impl Talk {
    /// An empty talk, with room for so many bytes and pieces. All its memory is taken here.
    pub(crate) fn new(alloc: Global, bytes: usize, pieces: usize) -> Result<Talk, NoMemory>
        ensures talk { IfOk result (λ t. t.talk ≡ []) }
        ensures bytes { IfOk result (λ t. t.bytes ≡ bytes) }
        ensures pieces { IfOk result (λ t. t.pieces ≡ pieces) }
    {
        let marks = Vec::with_capacity(alloc, pieces)?;
        let hears = Vec::with_capacity(alloc, bytes)?;
        let says = Vec::with_capacity(alloc, bytes)?;
        Ok(Talk {
            marks,
            hears,
            says,
            bytes,
            pieces,
        })
    }

    /// Whether there is no room for a piece more.
    pub(crate) fn is_full(&self) -> bool
        ensures full { IsTrue result ↔ (length self.now.talk ≡ self.now.pieces) }
        ensures bound { length self.now.talk ≤ self.now.pieces }
        ensures fits { bytes_of self.now.talk ≤ self.now.bytes }
    {
        self.marks.len() == self.pieces
    }

    /// For how many bytes more there is room.
    pub(crate) fn room(&self) -> usize
        ensures { result + bytes_of self.now.talk ≡ self.now.bytes }
    {
        self.bytes - self.hears.len() - self.says.len()
    }

    pub(crate) fn hear(&mut self, piece: &[u8])
        requires piece { length self.old.talk < self.old.pieces }
        requires bytes { bytes_of self.old.talk + length piece.now ≤ self.old.bytes }
        ensures talk { self.new.talk ≡ self.old.talk ++ heard piece.now ∷ [] }
        ensures room { (self.new.bytes ≡ self.old.bytes) × (self.new.pieces ≡ self.old.pieces) }
    {
        self.hears.extend_from_slice(piece).unwrap();
        self.marks.push_reserved(Mark::Heard(piece.len()));
    }

    pub(crate) fn say(&mut self, piece: &[u8])
        requires piece { length self.old.talk < self.old.pieces }
        requires bytes { bytes_of self.old.talk + length piece.now ≤ self.old.bytes }
        ensures talk { self.new.talk ≡ self.old.talk ++ said piece.now ∷ [] }
        ensures room { (self.new.bytes ≡ self.old.bytes) × (self.new.pieces ≡ self.old.pieces) }
    {
        self.says.extend_from_slice(piece).unwrap();
        self.marks.push_reserved(Mark::Said(piece.len()));
    }

    pub(crate) fn pause(&mut self)
        requires { length self.old.talk < self.old.pieces }
        ensures talk { self.new.talk ≡ self.old.talk ++ quiet ∷ [] }
        ensures room { (self.new.bytes ≡ self.old.bytes) × (self.new.pieces ≡ self.old.pieces) }
    {
        self.marks.push_reserved(Mark::Quiet);
    }

    pub(crate) fn end(&mut self)
        requires { length self.old.talk < self.old.pieces }
        ensures talk { self.new.talk ≡ self.old.talk ++ ended ∷ [] }
        ensures room { (self.new.bytes ≡ self.old.bytes) × (self.new.pieces ≡ self.old.pieces) }
    {
        self.marks.push_reserved(Mark::Ended);
    }

    pub(crate) fn heard(&self) -> &[u8]
        ensures { result.now ≡ heard_of self.now.talk }
    {
        self.hears.as_slice()
    }

    pub(crate) fn said(&self) -> &[u8]
        ensures { result.now ≡ said_of self.now.talk }
    {
        self.says.as_slice()
    }

    pub(crate) fn marks(&self) -> &[Mark]
        ensures { result.now ≡ map mark_of self.now.talk }
    {
        self.marks.as_slice()
    }
}
