// Scripts of links in memory.

ghost use Rattle.std.specs.Prelude.{◌≡◌, ◌≤◌, [], length, drop, take};
ghost use Rattle.login_edge.specs.inner.Scripts.{Finds};

use login_base::{Bytes, Items};
use std::alloc::Global;
use std::collections::VecDeque;
use std::marker::Model;

/// What a link in memory gives next.
#[derive(Drop)]
pub enum Turn {
    /// These bytes, in as many reads as the buffers want. No bytes give nothing.
    Piece(Bytes),
    /// Nothing is ready, once.
    Quiet,
}

/// What kind of turn comes next.
#[derive(Clone, Copy)]
pub(crate) enum Next {
    Piece,
    Quiet,
    End,
}

/// A script of which some turns were given.
#[derive(Drop)]
pub(crate) struct Script {
    piece: Bytes,
    at: usize,
    turns: VecDeque<Turn>,
}

impl Model for Script {
    ghost use Rattle.std.specs.Prelude.{drop, length, ◌≤◌};
    ghost use Rattle.login_edge.specs.inner.Scripts.{ScriptState};

    ghost Value = { ScriptState };

    ghost view = { λ s. record { piece = drop s.at s.piece; turns = s.turns.items } };

    ghost invariant = { λ s. s.at ≤ length s.piece };
}

impl Script {
    pub(crate) fn new(alloc: Global, turns: Items<Turn>) -> Script
        ensures piece { result.piece ≡ [] }
        ensures turns { result.turns ≡ turns }
    {
        Script {
            piece: Items::new(alloc),
            at: 0,
            turns: VecDeque::from_vec(turns.into_vec()),
        }
    }

    /// Goes to the next turn that gives something.
    pub(crate) fn next(&mut self) -> Next
        ensures { Finds self.old self.new result }
    {
        while self.at == self.piece.len() {
            match self.turns.pop_front() {
                None => return Next::End,
                Some(Turn::Quiet) => return Next::Quiet,
                Some(Turn::Piece(bytes)) => {
                    self.piece = bytes;
                    self.at = 0;
                }
            }
        }
        Next::Piece
    }

    /// What is left of the piece that is under way.
    pub(crate) fn piece(&self) -> &[u8]
        ensures { result.now ≡ self.now.piece }
    {
        &self.piece.as_slice()[self.at..]
    }

    /// Gives bytes of the piece that is under way.
    pub(crate) fn give(&mut self, buf: &mut [u8])
        requires { length buf.old ≤ length self.old.piece }
        ensures given { buf.new ≡ take (length buf.old) self.old.piece }
        ensures piece { self.new.piece ≡ drop (length buf.old) self.old.piece }
        ensures turns { self.new.turns ≡ self.old.turns }
    {
        let count = buf.len();
        let rest = &self.piece.as_slice()[self.at..];
        buf.copy_from_slice(&rest[..count]);
        self.at += count;
    }
}
