// Lines out of a source, in whatever pieces it gives them.

ghost use Rattle.std.specs.Prelude.{◌≡◌, ◌+◌, ◌<◌, ◌≤◌, [], ◌++◌, length, take, IfOk, vec_capacity, vec_len};
ghost use Rattle.std.specs.Option.{option_map};
ghost use Rattle.std.specs.Bool.{OnTrue, OnFalse};
ghost use Rattle.recording.specs.Cut.{NoLineFeed};
ghost use Rattle.recording.specs.Limits.{line_room};
ghost use Rattle.recording.specs.Reading.{left_to, remaining_to};
ghost use Rattle.recording.specs.inner.Filling.{IsFirst, Fills, FillCause, FillFalls};
ghost use Rattle.recording.specs.Next.{NextIs, NextCause};

use login_base::NoMemory;
use login_edge::{Got, Source};
use std::alloc::Global;
use std::marker::Model;

/// So many bytes of a line are kept at most: one more than a line may have without its line feed.
const LINE_ROOM: usize = 16385;

/// So many bytes are asked for at once.
const CHUNK: usize = 4096;

/// What the reading of the next line answers.
#[derive(Clone, Copy, PartialEq, Eq)]
pub enum Next {
    /// There is a line.
    Line,
    /// Nothing was left.
    End,
    /// A read of the source failed.
    ReadFault,
}

/// How much of a piece belongs to a line.
#[derive(Clone, Copy)]
struct LinePart {
    count: usize,
    whole: bool,
}

/// Puts bytes behind the front of a line, through its end. It takes no memory.
fn take_piece(line: &mut Vec<u8>, piece: &[u8]) -> LinePart
    requires front { NoLineFeed line.old.items }
    requires short { vec_len line.old < line_room }
    requires room { line_room ≤ vec_capacity line.old }
    requires bytes { 0 < length piece.now }
    ensures count { (0 < result.count) × (result.count ≤ length piece.now) }
    ensures line { line.new.items ≡ line.old.items ++ take result.count piece.now }
    ensures room { (line_room ≤ vec_capacity line.new) × (vec_len line.new ≤ line_room) }
    ensures whole { OnTrue result.whole (IsFirst line.new.items) }
    ensures front { OnFalse result.whole
        (NoLineFeed line.new.items × (vec_len line.new < line_room) × (result.count ≡ length piece.now)) }
{
    for (i, b) in piece.iter().enumerate() {
        line.push_reserved(*b);
        if *b == b'\n' || line.len() == LINE_ROOM {
            return LinePart {
                count: i + 1,
                whole: true,
            };
        }
    }
    LinePart {
        count: piece.len(),
        whole: false,
    }
}

/// What a chunk has after it was filled.
#[derive(Clone, Copy)]
enum Filled {
    Ready { at: usize, end: usize },
    End,
    ReadFault,
}

/// Reads into a chunk where all of it from `at` to `end` is used up, and leaves it where not.
fn fill<S: Source>(source: &mut S, chunk: &mut Vec<u8>, at: usize, end: usize) -> Filled
    requires { (at ≤ end) × (end ≤ vec_len chunk.old) × (0 < vec_len chunk.old) }
    ensures len { vec_len chunk.new ≡ vec_len chunk.old }
    ensures kept { Fills at end chunk.old.items chunk.new.items (S.left source.old) (S.left source.new) result }
    ensures cause { FillCause (S.faults source.old) (S.faults source.new) result }
    ensures falls { FillFalls at end (S.remaining source.old) (S.remaining source.new) result }
{
    if at < end {
        return Filled::Ready { at, end };
    }
    match source.read(chunk.as_mut_slice()) {
        Got::Bytes(n) => Filled::Ready { at: 0, end: n },
        Got::End => Filled::End,
        Got::Failed => Filled::ReadFault,
    }
}

/// Reads lines from a source. It may have read on behind the last line: read one source with it, from
/// its start, and through it alone.
#[derive(Drop)]
pub struct LineReader {
    line: Vec<u8>,
    chunk: Vec<u8>,
    at: usize,
    end: usize,
}

impl Model for LineReader {
    ghost use Rattle.std.specs.Prelude.{◌≤◌, ◌<◌, take, drop, vec_len, vec_capacity};
    ghost use Rattle.recording.specs.Limits.{line_room};
    ghost use Rattle.recording.specs.Reading.{Reading};

    ghost Value = { Reading };

    ghost view = { λ r. record { line = r.line.items; held = drop r.at (take r.end r.chunk.items) } };

    ghost invariant = { λ r. (r.at ≤ r.end) × (r.end ≤ vec_len r.chunk) × (0 < vec_len r.chunk)
        × (line_room ≤ vec_capacity r.line) × (vec_len r.line ≤ line_room) };
}

impl LineReader {
    /// A reader that has read nothing. All its memory is taken here.
    pub fn new(alloc: Global) -> Result<LineReader, NoMemory>
        ensures line { IfOk result (λ reader. reader.line ≡ []) }
        ensures held { IfOk result (λ reader. reader.held ≡ []) }
    {
        let line = Vec::with_capacity(alloc, LINE_ROOM)?;
        let chunk = vec![in alloc; 0; CHUNK]?;
        Ok(LineReader {
            line,
            chunk,
            at: 0,
            end: 0,
        })
    }

    /// The line of the last `next` that answered `Line`, where no other came since: the bytes through
    /// the next line feed, or the first 16385 bytes where no line feed is among them, or what was left
    /// before the end.
    pub fn line(&self) -> &[u8]
        ensures value { result.now ≡ self.now.line }
        ensures bound { length result.now ≤ line_room }
    {
        self.line.as_slice()
    }

    /// Reads the next line. It takes no memory. After a fault `line` is the front of a line that was read
    /// before the fault, without its line feed, and no longer left.
    pub fn next<S: Source>(&mut self, source: &mut S) -> Next
        ensures kept { left_to self.old (S.left source.old)
            ≡ option_map (λ rest. self.new.line ++ rest) (left_to self.new (S.left source.new)) }
        ensures line { NextIs (left_to self.old (S.left source.old)) self.new result }
        ensures cause { NextCause (S.faults source.old) (S.faults source.new) result }
        ensures falls { length self.new.line + remaining_to self.new (S.remaining source.new)
            ≤ remaining_to self.old (S.remaining source.old) }
    {
        self.line.clear();
        loop {
            match fill(source, &mut self.chunk, self.at, self.end) {
                Filled::Ready { at, end } => {
                    self.at = at;
                    self.end = end;
                }
                Filled::End => {
                    return if self.line.is_empty() {
                        Next::End
                    } else {
                        Next::Line
                    };
                }
                Filled::ReadFault => return Next::ReadFault,
            }
            let taken = take_piece(&mut self.line, &self.chunk[self.at..self.end]);
            self.at += taken.count;
            if taken.whole {
                return Next::Line;
            }
        }
    }
}
